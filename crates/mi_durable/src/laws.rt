//! Laws over the definitions, each the contract of a function that does nothing.
ghost use Rattle.mi_durable.specs.Journals.{JournalsGoOn};
ghost use Rattle.mi_durable.specs.Replay.{KeptLinesAreTaken, ReservesAreTaken};

use mi_replay::laws::journals_join;

/// What the calls of a durable hub append, one behind another, is the journal of all that they did.
pub fn journals_go_on()
    ensures { JournalsGoOn }
{
    journals_join();
}

/// A line that a durable hub keeps is taken by a replay: asked again of the same database, it is said to have changed something, or it is answered
/// `memory`. A reserve, which former journals have, is taken too.
pub fn kept_lines_are_taken()
    ensures kept { KeptLinesAreTaken }
    ensures reserves { ReservesAreTaken }
{}
