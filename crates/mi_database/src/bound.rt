//! What the bound of look-ups says, as the contract of a function that does nothing.
ghost use Rattle.mi_database.specs.Bound.{LookUpsAreBounded};

/// In a table of fewer than 2^b records a look-up of `Linked` makes at most 2 b + 1 comparisons. So what takes two
/// look-ups, as a count, makes at most 4 b + 2.
pub fn look_ups_are_bounded()
    ensures { LookUpsAreBounded }
{}
