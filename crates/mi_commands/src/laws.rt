//! Laws of the definitions, each the contract of a function that does nothing.
ghost use Rattle.mi_commands.specs.Alone.{OneTableAnswersAlone, OneTableMayGive};
ghost use Rattle.mi_commands.specs.Undone.{UndoLinesTakeBack, UndoLinesAreGiven, StartLinesOpen};

/// Where a catalog has one table, a line without a member `table` is answered as that table by itself answers it, without a catalog.
/// The bytes of the reply, the table, its sessions, the revision and the holder are the same.
pub fn one_table_answers_alone()
    ensures answers { OneTableAnswersAlone }
    ensures replies { OneTableMayGive }
{}

/// A line starts a session. Then come any acts that leave that session open, with k - 1 sessions above it: lines of any connections, and
/// connections that go away. Then k lines `{"cmd":"undo"}` of a connection that isn't kept out give back the tables and the revision of
/// the start. Each is accepted: none is refused as `memory`, `busy` or `session`. Such lines are always given replies. The line
/// `{"cmd":"start"}` starts a session and says its number, or it is refused and changes nothing.
pub fn undo_lines_take_back()
    ensures back { UndoLinesTakeBack }
    ensures given { UndoLinesAreGiven }
    ensures start { StartLinesOpen }
{}
