//! Laws over the definitions, each the contract of a function that does nothing: what a journal of a run is good for.
ghost use Rattle.mi_replay.specs.RunActs.{RunsAreActs, HubsReplay};
ghost use Rattle.mi_replay.specs.ReplayLaws.{RunsHaveJournals, ChangesMayBeKept, ChangedLinesGoIn, JournalsReplay, ReplaysEndAsRuns, JournalsJoin};
ghost use Rattle.mi_replay.specs.ReplayLaws.{ReplaysAreRuns, FrontsReplay, TornFilesReplay, FilesGrowByLines};
ghost use Rattle.mi_replay.specs.UndoneBytes.{UndoBytesTakeBack, UndoBytesAreGiven};

use mi_commands::laws::undo_lines_take_back;

/// Every run has a journal; a line that changes anything can always be put into it.
pub fn runs_have_journals()
    ensures runs { RunsHaveJournals }
    ensures changes { ChangesMayBeKept }
{}

/// A line of which the executor says that it may have changed something can be put into a journal. Any other may stay out of it.
pub fn changed_lines_go_in()
    ensures { ChangedLinesGoIn }
{}

/// The journals of two runs, the second from where the first ends, are together the journal of both.
pub fn journals_join()
    ensures { JournalsJoin }
{}

/// The lines of a journal are asked again by one connection of the database that the run began with. They give the run's database and as
/// many sessions held. Once that connection is gone, they give the database that the run leaves once its holder is gone.
pub fn journals_replay()
    ensures same { JournalsReplay }
    ensures ended { ReplaysEndAsRuns }
{}

/// A journal that one connection asks of a hub is replayed, unless a line of it is answered `memory`.
pub fn replays_are_runs()
    ensures { ReplaysAreRuns }
{}

/// A front of a journal in whole lines gives the database and the number held at a front of the run. Where it ends between the undos
/// of a holder that goes away, it gives these less the sessions undone by then, and so the same once nobody holds any. A part of the run
/// whose whole journal is there is in that front. The same of a file of the lines that is cut anywhere.
pub fn fronts_replay()
    ensures lines { FrontsReplay }
    ensures bytes { TornFilesReplay }
{}

/// A file of whole lines to which the bytes of one more line and a newline are appended has that line more.
pub fn files_grow_by_lines()
    ensures { FilesGrowByLines }
{}

/// Whatever happens to a hub, events that are done, refused or whose replies don't go out, is acts: lines that are asked and connections
/// that leave. So the run has a journal, and it replays.
pub fn hubs_replay()
    ensures acts { RunsAreActs }
    ensures journal { HubsReplay }
{}

/// From the bytes of any connections to what stands in the tables: a connection feeds the line `{"cmd":"start"}`, which is accepted. Then any
/// events happen to the hub, pieces cut anywhere among them, that leave its session open with k - 1 sessions above it. Then a
/// connection that isn't kept out feeds k lines `{"cmd":"undo"}`, in pieces cut anywhere. All tables and the revision are those that the
/// start began with, and each undo was accepted: none is answered `memory`, `busy` or `session`. Such lines are always answered.
pub fn undo_bytes_take_back()
    ensures back { UndoBytesTakeBack }
    ensures given { UndoBytesAreGiven }
{
    undo_lines_take_back();
}
