//! The definitions at work on a small table: each example is proved by computation. Nothing here runs.
//! It touches nothing.
ghost use Rattle.mi_reshape.specs.Examples as example;

/// Ids and a line stay. New columns are empty and 0, and an index that now descends is a new one.
pub fn two_people()
    ensures { example.TwoPeople }
{}

/// An index is the same if its columns have the same names, whatever their numbers.
pub fn same_parts()
    ensures { example.SameParts }
{}

/// A number doesn't become a text.
pub fn age_as_text()
    ensures { example.AgeAsText }
{}

/// A table that only the new catalog has is empty.
pub fn notes_are_new()
    ensures { example.NotesAreNew }
{}

/// What only the old catalog has is dropped.
pub fn age_and_notes()
    ensures { example.AgeAndNotes }
{}
