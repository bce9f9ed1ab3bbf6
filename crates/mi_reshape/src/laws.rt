//! The laws of tables under another schema: each is the contract of a function that does nothing.
//! It touches nothing.
ghost use Rattle.mi_reshape.specs.Reshaped.{ReshapedFits, ReshapedIsTable, ReshapedToSame};

/// Rows that fit the old schema fit the new one, if no column has another type.
pub fn reshaped_fits()
    ensures { ReshapedFits }
{}

/// A table of the old schema becomes one of the new: its ids rise below its next id, and each index has a list with each id once.
pub fn reshaped_is_table()
    ensures { ReshapedIsTable }
{}

/// A table whose rows fit stays what it is under its own schema.
pub fn reshaped_to_same()
    ensures { ReshapedToSame }
{}
