//! The laws of undo over a container's plain data: each is the contract of a function that does nothing.
//! They say nothing new of tables: the table of changed data is the definitions' changed table.
ghost use Rattle.mi_container.specs.Laws.{OpensEmpty, ChangeIsTables, ChangeIsUndone, RunsUnwind, ChangeFits};
ghost use Rattle.mi_container.specs.Laws.{NewestIsBack, OldestIsSettled, SettledLater, KeptByOne};
ghost use Rattle.mi_container.specs.Laws.{SortedIsShown, HashedIsShown, IdsAreShown};
ghost use Rattle.mi_container.specs.Made.{MadeIsUndone};

/// A container opens with the data of an empty table.
pub fn opens_empty()
    ensures { OpensEmpty }
{}

/// The table of changed data is the changed table, and what holds of a container's data is kept.
pub fn change_is_tables()
    ensures { ChangeIsTables }
{}

/// The inverse of a change can be taken back, and gives exactly the data before it.
pub fn change_is_undone()
    ensures { ChangeIsUndone }
{}

/// What a container's call says of a change that it made is what `unwind` and `settle` ask of its inverse.
pub fn made_is_undone()
    ensures { MadeIsUndone }
{}

/// A run of changes is the run of tables, and its inverses, the newest first, give back exactly the data before it.
pub fn runs_unwind()
    ensures { RunsUnwind }
{}

/// A change extends a fitting list of inverses by its own, with the table before it.
pub fn change_fits()
    ensures { ChangeFits }
{}

/// The newest of a fitting list of inverses can be taken back: it gives its table, and the rest fits.
pub fn newest_is_back()
    ensures { NewestIsBack }
{}

/// The oldest of a fitting list of inverses can be settled: the table stays, and the rest fits.
pub fn oldest_is_settled()
    ensures { OldestIsSettled }
{}

/// To settle one inverse and to take back another are in either order the same.
pub fn settled_later()
    ensures { SettledLater }
{}

/// Each node that is kept is kept by one inverse of a fitting list, and no later one names its row.
pub fn kept_by_one()
    ensures { KeptByOne }
{}

/// The live ids, by their keys and then by their stamps, are what a sorted index with keys shows.
pub fn sorted_is_shown()
    ensures { SortedIsShown }
{}

/// The live ids by their stamps are the list of a hashed index.
pub fn hashed_is_shown()
    ensures { HashedIsShown }
{}

/// The live ids in their order are what the index of the ids shows.
pub fn ids_are_shown()
    ensures { IdsAreShown }
{}
