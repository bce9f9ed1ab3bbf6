//! The definitions at work: a worked example, proved by computation. Nothing here runs.
ghost use Rattle.mi_checkpoint.specs.Examples.{BaseStandsAtAnOpenSession};

/// A base that is made while a session is open has its account. The lines behind it, which commit that session, give what all lines give.
pub fn base_stands_at_an_open_session()
    ensures { BaseStandsAtAnOpenSession }
{}
