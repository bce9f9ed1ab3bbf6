//! Laws over the definitions, each the contract of a function that does nothing.
ghost use Rattle.mi_clients.specs.Laws.{HoldersHoldSome, ReplaysHoldSome, StreamsGoOn, NumbersKeepStreams};

use crate::duplex::Duplex;

/// Whoever holds sessions holds one at least: behind all steps of a service, and behind a replay, where it was so before. So what calls say of
/// such a hub holds of each that began with nobody who holds any.
pub fn holders_hold_some()
    ensures steps { HoldersHoldSome }
    ensures replays { ReplaysHoldSome }
{}

/// No connection's number moves to another connection's stream, however many turns are taken: of two rows, and whatever was done between them, the
/// one that has a number of the first has its stream, where no number was given twice.
pub fn numbers_keep_streams<S: Duplex>()
    ensures turns { StreamsGoOn S.handle }
    ensures numbers { NumbersKeepStreams S.handle }
{}
