//! How long the service waits for connections that send nothing, by a clock that never goes back.
ghost use Rattle.std.specs.Prelude.{◌≡◌, ◌≤◌, ◌⊎◌, IsSome};
ghost use Rattle.mi_durable.specs.Durable.{hub_of, holder_conn};
ghost use Rattle.mi_clients.specs.Clients.{ids};
ghost use Rattle.mi_clients.specs.Silence.{EachJudged};

use mi_clients::{Client, Limits, give_up_silent};
use mi_durable::Durable;
use mi_log::Log;
use mi_sessions::Sessions;
use std::time::{Clock, Duration, Instant};

/// Milliseconds of one wait, at most, where somebody's silence is limited. What came is noted at most so much later, and who is silent is let go
/// within a second and twice as much behind the limit.
const LONGEST_WAIT: u64 = 250;

/// How long connections may be silent, and a clock. Where the clock can't be read it stands still, and nobody is let go for his silence.
#[derive(Drop)]
pub struct Patience<'a, C> {
    clock: &'a C,
    start: Option<Instant>,
    second: u64,
    limits: Limits,
}

impl<'a, C: Clock> Patience<'a, C> {
    /// It begins now.
    pub fn new(clock: &'a C, limits: Limits) -> Patience<'a, C>
        ensures { result.limits ≡ limits }
    {
        Patience {
            clock,
            start: Instant::now(clock).ok(),
            second: 0,
            limits,
        }
    }

    /// How long a wait may take; where nobody's silence is limited as long as nothing is ready. `watches` says that somebody's is besides.
    pub fn longest_wait(&self, watches: bool) -> Option<Duration> {
        if watches || self.limits.is_any() {
            Some(Duration::from_millis(LONGEST_WAIT))
        } else {
            None
        }
    }

    /// The whole seconds since the start, when the clock was last read.
    pub fn second(&self) -> u64
        ensures { result ≡ self.now.second }
    {
        self.second
    }

    /// The whole seconds since the start, where the clock tells.
    fn elapsed(&self) -> Option<u64> {
        let elapsed = self.start?.elapsed(self.clock).ok()?;
        Some(elapsed.as_secs())
    }

    /// The second that it is now.
    fn advance(&mut self)
        ensures rises { self.old.second ≤ self.new.second }
        ensures same { self.new ≡ record self.old { second = self.new.second } }
    {
        if let Some(second) = self.elapsed()
            && second > self.second
        {
            self.second = second;
        }
    }

    /// The clock is read. Where somebody's silence is limited, those that have been silent for too long are broken, so that the next turn lets
    /// them go.
    pub fn give_up<D: Sessions + Drop, L: Log + Drop, S>(
        &mut self,
        durable: &Durable<D, L>,
        clients: &mut Vec<Client<S>>,
    )
        ensures judged { IsSome self.old.limits.hold ⊎ IsSome self.old.limits.idle
            → EachJudged self.old.limits (holder_conn (hub_of durable.now).held.holder) self.new.second clients.old.items clients.new.items }
        ensures unlimited { ¬ (IsSome self.old.limits.hold ⊎ IsSome self.old.limits.idle) → clients.new.items ≡ clients.old.items }
        ensures ids { ids clients.new.items ≡ ids clients.old.items }
        ensures rises { self.old.second ≤ self.new.second }
        ensures limits { self.new.limits ≡ self.old.limits }
    {
        self.advance();
        if self.limits.is_any() {
            let limits = self.limits;
            give_up_silent(durable, clients, self.second, &limits);
        }
    }
}
