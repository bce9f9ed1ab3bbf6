//! The commands without members: of each its name, its line as it is written without spaces, and what it is. It takes no memory.
ghost use Rattle.std.specs.Prelude.{◌≡◌, bytes_eq};
ghost use Rattle.mi_request.specs.NullaryCommand.{asked_nullary, nullary_named, nullary_line};

use crate::request::SessionCommand;

/// A command without members.
#[derive(Clone, Copy)]
pub(crate) enum NullaryCommand {
    Undo,
    Start,
    Squash,
    UndoAll,
    Push,
    Revision,
}

/// Whether a line is this text. Inlined, it asks for the text's length first and compares words, with no call.
#[inline(always)]
pub(crate) fn is_text(line: &[u8], text: &[u8]) -> bool
    ensures { result ≡ bytes_eq line.now text.now }
{
    line == text
}

impl NullaryCommand {
    /// The command of a name, or none.
    #[tactic(auto, unfolding(crate::specs::NullaryCommand::nullary_named))]
    pub(crate) fn of(text: &str) -> Option<NullaryCommand>
        ensures { result ≡ nullary_named text.now }
    {
        match text {
            "undo" => Some(NullaryCommand::Undo),
            "start" => Some(NullaryCommand::Start),
            "squash" => Some(NullaryCommand::Squash),
            "undo_all" => Some(NullaryCommand::UndoAll),
            "push" => Some(NullaryCommand::Push),
            "revision" => Some(NullaryCommand::Revision),
            _ => None,
        }
    }

    /// The command that a line is, where it is written without spaces.
    #[inline(always)]
    pub(crate) fn of_line(line: &[u8]) -> Option<NullaryCommand>
        ensures { result ≡ nullary_line line.now }
    {
        if is_text(line, b"{\"cmd\":\"undo\"}") {
            Some(NullaryCommand::Undo)
        } else if is_text(line, b"{\"cmd\":\"start\"}") {
            Some(NullaryCommand::Start)
        } else if is_text(line, b"{\"cmd\":\"squash\"}") {
            Some(NullaryCommand::Squash)
        } else if is_text(line, b"{\"cmd\":\"undo_all\"}") {
            Some(NullaryCommand::UndoAll)
        } else if is_text(line, b"{\"cmd\":\"push\"}") {
            Some(NullaryCommand::Push)
        } else if is_text(line, b"{\"cmd\":\"revision\"}") {
            Some(NullaryCommand::Revision)
        } else {
            None
        }
    }

    /// The command that it is.
    #[inline(always)]
    pub(crate) fn command(self) -> SessionCommand
        ensures { result ≡ asked_nullary self }
    {
        match self {
            NullaryCommand::Undo => SessionCommand::Undo,
            NullaryCommand::Start => SessionCommand::Start,
            NullaryCommand::Squash => SessionCommand::Squash,
            NullaryCommand::UndoAll => SessionCommand::UndoAll,
            NullaryCommand::Push => SessionCommand::Push,
            NullaryCommand::Revision => SessionCommand::Revision,
        }
    }
}
