//! The definitions at work: small worked examples, each proved by computation. Nothing here runs.
ghost use Rattle.mi_model.specs.Examples as example;

/// Records of one key are ranked in the order of their inserts.
pub fn equal_keys_have_ranks()
    ensures { example.EqualKeysHaveRanks }
{}

/// The rank after the last has no record.
pub fn ranks_end()
    ensures { example.RanksEnd }
{}

/// All records of one key stand between its lower and its upper rank.
pub fn bounds_of_equal_keys()
    ensures { example.BoundsOfEqualKeys }
{}

/// A descending part comes first, and a look-up by key gives the first of the equals.
pub fn views_of_equal_keys()
    ensures { example.ViewsOfEqualKeys }
{}

/// A replace that keeps a key keeps the place in that index.
pub fn key_that_stays_keeps_its_place()
    ensures { example.KeyThatStaysKeepsItsPlace }
{}

/// A record whose key changes, there and back, goes last among its equals.
pub fn key_that_changes_goes_last()
    ensures { example.KeyThatChangesGoesLast }
{}

/// A modify with rollback that a unique index refuses changes nothing.
pub fn rollback_changes_nothing()
    ensures { example.RollbackChangesNothing }
{}

/// Without rollback it is refused and names the conflict.
pub fn losing_modify_is_refused()
    ensures { example.LosingModifyIsRefused }
{}

/// It has erased its record, and the others move up.
pub fn losing_modify_erases()
    ensures { example.LosingModifyErases }
{}

/// Undo brings the record back as it was before.
pub fn undo_of_a_losing_modify()
    ensures { example.UndoOfALosingModify }
{}

/// An addition may reach 2^63 - 1, and not pass it.
pub fn addition_to_the_last_number()
    ensures { example.AdditionToTheLastNumber }
{}

/// A record stands directly before another, or last; before itself nothing changes.
pub fn relocations()
    ensures { example.Relocations }
{}

/// Ranges by a composite key with a descending part: prefixes, both kinds of bound, reversed, limited.
pub fn composite_ranges()
    ensures { example.CompositeRanges }
{}

/// Undo puts erased records back in their places, sequenced and among equals.
pub fn erased_rows_come_back()
    ensures { example.ErasedRowsComeBack }
{}

/// A squash keeps the changes of the newest session.
pub fn squash_keeps_changes()
    ensures { example.SquashKeepsChanges }
{}

/// Undo then takes back both sessions, and a further undo has no session.
pub fn undo_of_a_squash()
    ensures { example.UndoOfASquash }
{}

/// The next id is what it was.
pub fn ids_come_back()
    ensures { example.IdsComeBack }
{}

/// A commit ends the oldest sessions and keeps the revision.
pub fn commit_ends_the_oldest()
    ensures { example.CommitEndsTheOldest }
{}

/// Records erased by key come back by undoing every session.
pub fn undo_all_of_erases_by_key()
    ensures { example.UndoAllOfErasesByKey }
{}

/// An insert before a record stands directly before it there, and last in each other index.
pub fn insert_before_a_row()
    ensures { example.InsertBeforeARow }
{}

/// Undo takes it out again, beside an erase.
pub fn undo_of_insert_before()
    ensures { example.UndoOfInsertBefore }
{}

/// Sessions are of all tables: one undo takes back the changes of each.
pub fn tables_under_one_stack()
    ensures { example.TablesUnderOneStack }
{}

/// The rows that are kept in memory for an open session are those erased in it.
pub fn rows_kept_for_a_session()
    ensures { example.RowsKeptForASession }
{}

/// The records of one key of a hashed index, one after another, and the neighbours in others.
pub fn neighbours_of_one_key()
    ensures { example.NeighboursOfOneKey }
{}

/// Two tables may each have a record of one id.
pub fn one_id_in_two_tables()
    ensures { example.OneIdInTwoTables }
{}

/// Tables that differ in how keys of a hashed index stand among one another are the same.
pub fn keys_of_a_hashed_index_have_no_order()
    ensures { example.KeysOfAHashedIndexHaveNoOrder }
{}
