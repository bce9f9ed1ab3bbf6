//! The definitions at work: worked examples, each proved by computation. Nothing here runs.
ghost use Rattle.mi_replay.specs.Examples as example;

/// The journal of a run in which one connection starts a session, adds an account and breaks off, while another is kept out: the two
/// lines, and an undo.
pub fn break_is_an_undo()
    ensures { example.BreakIsAnUndo }
{}

/// Before the undo the account is there, and the session is held; behind it both are gone.
pub fn front_holds_the_session()
    ensures { example.FrontHoldsTheSession }
{}

/// A session that its connection has let go of is held by nobody, also once the journal is asked again: its push is in it.
pub fn push_is_kept()
    ensures { example.PushIsKept }
{}
