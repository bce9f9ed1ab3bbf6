//! Laws of the definitions, each the contract of a function that takes nothing and does nothing.
ghost use Rattle.mi_protocol.specs.EditOrder.{LinesEditColumnsOnce};
ghost use Rattle.mi_protocol.specs.FirstTable.{NoNameIsTheFirst, OtherTablesAreNotSeen};
ghost use Rattle.mi_protocol.specs.ReplyJson.{RepliesAreCompactJson};

/// The text of every reply is the compact text of a JSON object, its members in the order of their names' bytes.
pub fn replies_are_compact_json()
    ensures { RepliesAreCompactJson }
{}

/// A line that names no table is over the first, and is the command or the refusal that it is over a catalog of that table
/// alone.
pub fn lines_without_a_table()
    ensures first { NoNameIsTheFirst }
    ensures alone { OtherTablesAreNotSeen }
{}

/// The edits of a line name no column twice, so by `mi_value::laws::edits_in_any_order` their order doesn't matter.
pub fn lines_edit_columns_once()
    ensures { LinesEditColumnsOnce }
{}
