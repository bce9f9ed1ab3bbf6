//! Which connection holds open sessions. Plain data.
ghost use Rattle.std.specs.Prelude.{◌≡◌, ◌+◌, ◌-◌, ◌<◌, min};
ghost use Rattle.mi_commands.specs.Holder as spec;
ghost use Rattle.mi_commands.specs.Holder.{held_count};

/// A connection that holds sessions, and how many: at least one.
#[derive(Clone, Copy, Drop)]
pub struct Holder {
    pub conn: u64,
    pub held: u64,
}

/// Whether another connection holds sessions.
pub(crate) fn is_busy(holder: &Option<Holder>, conn: u64) -> bool
    ensures { result ≡ spec.is_busy holder.now conn }
{
    match holder {
        Some(holder) => holder.conn != conn,
        None => false,
    }
}

/// The holder after a start; `opened` sessions are open then.
pub(crate) fn one_more(holder: Option<Holder>, conn: u64, opened: u64) -> Option<Holder>
    requires { held_count holder < opened }
    ensures holder { result ≡ spec.one_more conn holder }
    ensures count { held_count result ≡ held_count holder + 1 }
{
    match holder {
        Some(holder) => Some(Holder {
            conn: holder.conn,
            held: holder.held + 1,
        }),
        None => Some(Holder { conn, held: 1 }),
    }
}

/// The holder after an undo or a squash.
pub(crate) fn one_less(holder: Option<Holder>) -> Option<Holder>
    ensures holder { result ≡ spec.one_less holder }
    ensures count { held_count result ≡ held_count holder - 1 }
{
    match holder {
        Some(holder) if holder.held > 1 => Some(Holder {
            conn: holder.conn,
            held: holder.held - 1,
        }),
        _ => None,
    }
}

/// How many sessions this connection holds.
pub(crate) fn held_by(holder: &Option<Holder>, conn: u64) -> u64
    ensures { result ≡ spec.held_by conn holder.now }
{
    match holder {
        Some(holder) if holder.conn == conn => holder.held,
        _ => 0,
    }
}

/// The holder once this connection is gone.
pub(crate) fn without_holder(holder: Option<Holder>, conn: u64) -> Option<Holder>
    ensures holder { result ≡ spec.without_holder conn holder }
    ensures count { held_count result + spec.held_by conn holder ≡ held_count holder }
{
    match holder {
        Some(holder) if holder.conn == conn => None,
        other => other,
    }
}

/// The holder after a commit that leaves this many sessions open.
pub(crate) fn at_most(holder: Option<Holder>, opened: u64) -> Option<Holder>
    ensures holder { result ≡ spec.at_most opened holder }
    ensures count { held_count result ≡ min (held_count holder) opened }
{
    match holder {
        Some(holder) if opened > 0 => Some(Holder {
            conn: holder.conn,
            held: holder.held.min(opened),
        }),
        _ => None,
    }
}
