//! Laws over the definitions, each the contract of a function that does nothing. Nothing here runs.
ghost use Rattle.mi_front.specs.Front.{LinesAreAsked};

/// The lines that a text has behind a place are what is asked of it there, and no others are. So whoever asks a base's newest segment behind its place
/// asks the lines that the base doesn't have.
pub fn lines_are_asked()
    ensures { LinesAreAsked }
{}
