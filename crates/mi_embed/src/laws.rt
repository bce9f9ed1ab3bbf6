//! Laws of the definitions, each the contract of a function that does nothing.
ghost use Rattle.mi_embed.specs.AsLines.{CallsAnswerAsLines};
ghost use Rattle.mi_embed.specs.Looked.{LookUpsAnswer};

/// A call with values is answered as each line that asks what it asks, and leaves what that line leaves: the one is told by numbers, the other is a
/// text. Both are refused first for the same reason.
pub fn calls_answer_as_lines()
    ensures { CallsAnswerAsLines }
{}

/// What each look-up tells is the answer of its command, to any connection.
pub fn look_ups_answer()
    ensures { LookUpsAnswer }
{}
