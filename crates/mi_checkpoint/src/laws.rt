//! Laws of sessions that end early, each the contract of a function that does nothing. Nothing here runs.
ghost use Rattle.mi_checkpoint.specs.Settled.{OpenedIsReplaying, LinesKeepReplaying, SamePassesOn, AnsweredLinesAreTaken, WholeLinesAreTaken, TakenInTwo};
ghost use Rattle.mi_checkpoint.specs.Settled.{SettlesEarly, EndsTheSame, BasesReplay, BasesStay, BasesOfJournals, BasesEndAsRuns};

use mi_replay::laws::journals_replay;

/// What the other laws begin with: a database without open sessions is one that the replayer alone asks, and each of its lines keeps that. What
/// is the same as the same is the same.
pub fn replays_go_on()
    ensures opened { OpenedIsReplaying }
    ensures lines { LinesKeepReplaying }
    ensures same { SamePassesOn }
{}

/// The answer to a line tells whether a replay takes it, and so do its bytes and those of its reply. Lines in a row are taken one after another.
pub fn lines_are_taken()
    ensures answers { AnsweredLinesAreTaken }
    ensures bytes { WholeLinesAreTaken }
    ensures joined { TakenInTwo }
{}

/// Sessions that are ended early change nothing else. Lines that a replay takes, none of which undoes or squashes such a session, leave the
/// same once all of those sessions have ended. Each is taken there too.
///
/// A base has the tables and the revision at such a place, and no session. The lines behind it give the database of the whole journal, and
/// as many sessions held. Lines that come later do so too.
pub fn sessions_settle_early()
    ensures early { SettlesEarly }
    ensures same { EndsTheSame }
    ensures bases { BasesReplay }
    ensures stay { BasesStay }
{}

/// A base that stands where `settled_lines` said, and the lines of the journal behind it: they give the run's database, and as many sessions
/// held. A replay takes each of those lines. Once the connection that asked them is gone, they give the database that the run leaves once its holder is gone.
pub fn bases_of_journals()
    ensures same { BasesOfJournals }
    ensures ended { BasesEndAsRuns }
{
    journals_replay();
}
