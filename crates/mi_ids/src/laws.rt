//! Laws of the definitions, each the contract of a function that does nothing.
ghost use Rattle.mi_ids.specs.Back.{InsertIsTakenBack, KeepIsTakenBack};

/// Taking out an id that was put in, where it wasn't there, gives exactly the map before.
pub fn insert_is_taken_back()
    ensures { InsertIsTakenBack }
{}

/// Reviving an id that was live, and is kept, gives exactly the map before.
pub fn keep_is_taken_back()
    ensures { KeepIsTakenBack }
{}
