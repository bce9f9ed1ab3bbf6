//! Laws of the definitions, each the contract of a function that does nothing.
ghost use Rattle.mi_model.specs.Run.{UndosTakeBack};
ghost use Rattle.mi_model.specs.Sessions.{SessionsAreNumbered, CommitsEndByNumber, StartsTakeTheNextNumber, SessionsKeepTheirNumbers};
ghost use Rattle.mi_model.specs.Unique.{TablesStayWellFormed, UniqueKeysStayUnique};
ghost use Rattle.mi_model.specs.LookUp.{RanksCountRows};
ghost use Rattle.mi_model.specs.OneTable.{OneTableAsBefore};
ghost use Rattle.mi_model.specs.Alike.{LookUpsAnswerAlike, CommandsAnswerAlike, RunsAnswerAlike, WhatFitsIsAsked, RecordsThatFitHaveWholeKeys};

/// After a start and any commands that leave its session open, with k - 1 sessions above it, k undos
/// give back the tables and the revision of the start.
pub fn undos_take_back()
    ensures { UndosTakeBack }
{}

/// With d sessions open at revision r they have the numbers r - d + 1 to r, from the oldest to the newest. A commit
/// up to x ends those whose number is at most x, and no other.
pub fn sessions_are_numbered()
    ensures numbers { SessionsAreNumbered }
    ensures commit { CommitsEndByNumber }
{}

/// A start opens the session of the number after the revision, and through any commands that leave it open
/// a session keeps its number: the tables of its start are found by it.
pub fn sessions_keep_their_numbers()
    ensures start { StartsTakeTheNextNumber }
    ensures kept { SessionsKeepTheirNumbers }
{}

/// After any commands from an opened database it is well formed. In each table, also in those at the starts of open
/// sessions, ids rise and are below the next one. Each index has each of them once.
pub fn tables_stay_well_formed()
    ensures { TablesStayWellFormed }
{}

/// After any commands from an opened database no unique index has two rows of one key, nor had it at the start of an
/// open session.
pub fn unique_keys_stay_unique()
    ensures { UniqueKeysStayUnique }
{}

/// Databases that show the same answer every look-up alike. A hashed index is asked by whole keys alone, or for the next
/// record of the key that a record has.
pub fn look_ups_answer_alike()
    ensures { LookUpsAnswerAlike }
{}

/// In databases that show the same a command answers the same, accepted or refused, and leaves them so that they still
/// show the same; so does each of several commands in turn. An insert or a relocation names a sequenced index, if any, and
/// an erase by key a whole key.
pub fn commands_answer_alike()
    ensures one { CommandsAnswerAlike }
    ensures several { RunsAnswerAlike }
{}

/// What fits a schema meets what the two laws above ask. A key that fits an index whole is a whole key. One that fits it as
/// look-ups are asked is one that it is asked by. A record that fits has a value for each part of each index.
pub fn what_fits_is_asked()
    ensures keys { WhatFitsIsAsked }
    ensures records { RecordsThatFitHaveWholeKeys }
{}

/// The rank of a record is the number of records with a smaller key and of those with the same key that stand earlier in
/// the index's list.
pub fn ranks_count_rows()
    ensures { RanksCountRows }
{}

/// A database whose catalog has one table answers and changes as that table by itself, with sessions of its own: every
/// change over table 0 and every session step.
pub fn one_table_as_before()
    ensures { OneTableAsBefore }
{}
