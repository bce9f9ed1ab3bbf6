//! The changes of data at work: a small worked example, proved by computation. Nothing here runs.
ghost use Rattle.mi_container.specs.Examples as example;

/// What the indexes show after rows were erased, replaced and relocated.
pub fn changes_are_seen()
    ensures { example.ChangesAreSeen }
{}

/// An erased row remembers its neighbours in lists, and those of its key in hashed indexes.
pub fn neighbours_are_remembered()
    ensures { example.NeighboursAreRemembered }
{}

/// The inverse of a put keeps the old record, and the old stamp of each key that changed.
pub fn inverses_are_small()
    ensures { example.InversesAreSmall }
{}

/// Taken back, the newest first, the inverses give the very data before.
pub fn all_is_given_back()
    ensures { example.AllIsGivenBack }
{}
