//! Connections that send nothing: each may be silent for so many seconds of a clock, where that is limited. It reads no clock.
ghost use Rattle.std.specs.Prelude.{◌≡◌, ◌↔◌, ◌⊎◌, IsTrue, IsSome};
ghost use Rattle.mi_durable.specs.Durable.{hub_of, holder_conn};
ghost use Rattle.mi_clients.specs.Clients.{ids};
ghost use Rattle.mi_clients.specs.Silence.{HasPassed, EachJudged, limit_of};

use crate::client::Client;
use mi_durable::Durable;
use mi_log::Log;
use mi_sessions::Sessions;

/// How many seconds a connection may send nothing; without a number as many as it likes.
#[derive(Clone, Copy, Drop)]
pub struct Limits {
    /// The one that holds sessions.
    pub hold: Option<u64>,
    /// Each that holds none.
    pub idle: Option<u64>,
}

impl Limits {
    /// Whether anybody is limited.
    pub fn is_any(&self) -> bool
        ensures { IsTrue result ↔ (IsSome self.now.hold ⊎ IsSome self.now.idle) }
    {
        self.hold.is_some() || self.idle.is_some()
    }
}

/// Whether more seconds than the limit are between two; without a limit they never are.
pub(crate) fn has_passed(limit: Option<u64>, since: u64, now: u64) -> bool
    ensures { IsTrue result ↔ HasPassed limit since now }
{
    match limit {
        Some(most) => now.saturating_sub(since) > most,
        None => false,
    }
}

/// How many seconds a connection may be silent: the holder of sessions, or another one.
fn limit_for<D: Sessions + Drop, L: Log + Drop>(
    durable: &Durable<D, L>,
    conn: u64,
    limits: &Limits,
) -> Option<u64>
    ensures { result ≡ limit_of limits.now (holder_conn (hub_of durable.now).held.holder) conn }
{
    if durable.holds(conn) {
        limits.hold
    } else {
        limits.idle
    }
}

/// Notes under this second of a clock which connections something has come of since the last call, and breaks those that have sent nothing for
/// more seconds than they may. The durable hub says who holds sessions. `serve_all` then undoes those of a broken one, and lets it go.
///
/// Of one that is to be read something may have come: it isn't broken before that read.
pub fn give_up_silent<D: Sessions + Drop, L: Log + Drop, S>(
    durable: &Durable<D, L>,
    clients: &mut Vec<Client<S>>,
    now: u64,
    limits: &Limits,
)
    ensures judged { EachJudged limits.now (holder_conn (hub_of durable.now).held.holder) now clients.old.items clients.new.items }
    ensures ids { ids clients.new.items ≡ ids clients.old.items }
{
    for client in clients.iter_mut() {
        let limit = limit_for(durable, client.conn, limits);
        client.judge(now, limit);
    }
}
