//! Requests, and the table of commands: of each its name, the members that it may have, and what these are; from a JSON value to a request.
//! It knows no catalog. Each form is a call of its own, so that no other form's fields are moved with what it is.
#![tactic(auto, using(crate::proofs::FormLemmas::none_second))]

ghost use Rattle.std.specs.Prelude.{◌≡◌, ◌∷◌, codes, Some};
ghost use Rattle.mi_tokens.specs.Meaning.{meaning};
ghost use Rattle.mi_request.specs.Commands as commands;
ghost use Rattle.mi_request.specs.Commands.{session_keeps_out, look_up_named, step_named, command_named, form_of, member_names, asks_key, asked, a_change, a_number_look_up, a_key_look_up, of_sessions};
ghost use Rattle.mi_request.specs.Json.{has_only, option_map₂};
ghost use Rattle.mi_request.specs.Lines as lines;

use crate::array::Array;
use crate::keyed::KeyCommand;
use crate::name::Name;
use crate::nullary_command::NullaryCommand;
use crate::object::Object;
use crate::reading::{
    end, flag, id_in, index_in, key_in, limit_in, natural, natural_if_there, natural_or_absent,
    object_of, object_or_empty, place, row_in, table_in, text, up_to,
};
use mi_tokens::Json;
use mi_value::limits::{MAX_RESERVED_CHANGES, MAX_RESERVED_SESSIONS};

/// A place in a sequenced index, by its name: directly before the record of this id, 0 to 2^63 - 1.
#[derive(Drop)]
pub struct NamedPlace<'a> {
    pub index: Name<'a>,
    pub id: u64,
}

/// An end of a range: none, a key that is in it, or a key that isn't.
#[derive(Drop)]
pub enum Bound<'a> {
    Unbounded,
    Included(Array<'a>),
    Excluded(Array<'a>),
}

/// A change of a table as it is asked: names as they were written, ids 0 to 2^63 - 1.
#[derive(Drop)]
pub enum ChangeRequest<'a> {
    Insert {
        row: Object<'a>,
        before: Option<NamedPlace<'a>>,
    },
    Replace {
        id: u64,
        row: Object<'a>,
    },
    /// `set` and `add` have no members where they are absent.
    Modify {
        id: u64,
        set: Object<'a>,
        add: Object<'a>,
        rollback: bool,
    },
    Erase {
        id: u64,
    },
    EraseKey {
        index: Name<'a>,
        key: Array<'a>,
    },
    /// Without `before` the record goes to the end.
    Relocate {
        index: Name<'a>,
        id: u64,
        before: Option<u64>,
    },
}

/// A look-up by numbers alone, of a table as it is asked: ids, ranks and how many rows.
#[derive(Drop)]
pub enum NumberLookUpRequest<'a> {
    Get {
        id: u64,
    },
    Nth {
        index: Name<'a>,
        n: u64,
    },
    /// At most `limit` rows, 1 to 1,000, behind the record `after` or from the first.
    List {
        index: Name<'a>,
        after: Option<u64>,
        limit: usize,
    },
    Rank {
        index: Name<'a>,
        id: u64,
    },
    Size,
}

/// A look-up by keys, of a table as it is asked.
#[derive(Drop)]
pub enum KeyLookUpRequest<'a> {
    Find {
        index: Name<'a>,
        key: Array<'a>,
    },
    Count {
        index: Name<'a>,
        key: Array<'a>,
    },
    /// At most `limit` rows, 1 to 1,000.
    Range {
        index: Name<'a>,
        lower: Bound<'a>,
        upper: Bound<'a>,
        reverse: bool,
        limit: usize,
    },
    LowerRank {
        index: Name<'a>,
        key: Array<'a>,
    },
    UpperRank {
        index: Name<'a>,
        key: Array<'a>,
    },
}

/// A command over sessions, whatever the tables: what it asks is what it does.
#[derive(Clone, Copy, Drop)]
pub enum SessionCommand {
    Start,
    Undo,
    Squash,
    /// Ends the sessions up to this number, 0 to 2^63 - 1, and keeps their changes.
    Commit { revision: u64 },
    UndoAll,
    Push,
    /// Asks room for so many changes, at most 1,000,000, and so many sessions, at most 1,024.
    Reserve { changes: u64, sessions: u64 },
    Revision,
}

impl SessionCommand {
    /// Whether it waits while another connection holds sessions: any but the one that asks the revision.
    pub fn keeps_out(self) -> bool
        ensures { result ≡ session_keeps_out self }
    {
        !matches!(self, SessionCommand::Revision)
    }
}

/// A command as it is asked, whatever the catalog. An absent `table` is the first.
#[derive(Drop)]
pub enum Request<'a> {
    Change {
        table: Option<Name<'a>>,
        change: ChangeRequest<'a>,
    },
    NumberLookUp {
        table: Option<Name<'a>>,
        look_up: NumberLookUpRequest<'a>,
    },
    KeyLookUp {
        table: Option<Name<'a>>,
        look_up: KeyLookUpRequest<'a>,
    },
    Session(SessionCommand),
}

impl<'a> Request<'a> {
    /// Whether it is a change, a session command or a reserve, which is refused while another connection holds sessions.
    pub fn keeps_out(&self) -> bool
        ensures { result ≡ commands.keeps_out self.now }
    {
        match self {
            Request::Change { .. } => true,
            Request::NumberLookUp { .. } | Request::KeyLookUp { .. } => false,
            Request::Session(command) => command.keeps_out(),
        }
    }
}

/// A request of numbers and names alone that changes no record, as a short line asks it. It is small: so it stays in registers on its way.
#[derive(Drop)]
pub enum ShortRequest<'a> {
    NumberLookUp {
        table: Option<Name<'a>>,
        look_up: NumberLookUpRequest<'a>,
    },
    Session(SessionCommand),
}

/// The commands.
#[derive(Clone, Copy)]
pub(crate) enum CommandName {
    Insert,
    Replace,
    Modify,
    Erase,
    Relocate,
    Get,
    Nth,
    Range,
    List,
    Rank,
    Size,
    Commit,
    Reserve,
    /// One over a key of an index.
    Keyed(KeyCommand),
    /// One without members.
    NullaryCommand(NullaryCommand),
}

/// The session command with members or reserve of a name, or else the command without members, or none.
#[tactic(auto, unfolding(crate::specs::Commands::step_named))]
fn step_of(text: &str) -> Option<CommandName>
    ensures { result ≡ step_named text.now }
{
    match text {
        "commit" => Some(CommandName::Commit),
        "reserve" => Some(CommandName::Reserve),
        _ => Some(CommandName::NullaryCommand(NullaryCommand::of(text)?)),
    }
}

/// The look-up of a table of a name, or else its step, or none.
#[tactic(auto, unfolding(crate::specs::Commands::look_up_named))]
fn look_up_of(text: &str) -> Option<CommandName>
    ensures { result ≡ look_up_named text.now }
{
    match text {
        "get" => Some(CommandName::Get),
        "find" => Some(CommandName::Keyed(KeyCommand::Find)),
        "nth" => Some(CommandName::Nth),
        "count" => Some(CommandName::Keyed(KeyCommand::Count)),
        "range" => Some(CommandName::Range),
        "list" => Some(CommandName::List),
        "rank" => Some(CommandName::Rank),
        "lower_rank" => Some(CommandName::Keyed(KeyCommand::LowerRank)),
        "upper_rank" => Some(CommandName::Keyed(KeyCommand::UpperRank)),
        "size" => Some(CommandName::Size),
        _ => step_of(text),
    }
}

impl CommandName {
    /// The command of a name, or none.
    pub(crate) fn of(text: &str) -> Option<CommandName>
        ensures { result ≡ command_named text.now }
    {
        match text {
            "insert" => Some(CommandName::Insert),
            "replace" => Some(CommandName::Replace),
            "modify" => Some(CommandName::Modify),
            "erase" => Some(CommandName::Erase),
            "erase_key" => Some(CommandName::Keyed(KeyCommand::EraseKey)),
            "relocate" => Some(CommandName::Relocate),
            _ => look_up_of(text),
        }
    }

    /// Whether an object has no other members than it may have, `cmd` among them. Each form's names are compared in place.
    pub(crate) fn allows(self, object: &Object<'_>) -> bool
        ensures { result ≡ has_only (codes "cmd" ∷ member_names (form_of self)) object.now }
    {
        match self {
            CommandName::Insert => object.has_only(&["cmd", "table", "row", "before"]),
            CommandName::Replace => object.has_only(&["cmd", "table", "id", "row"]),
            CommandName::Modify => {
                object.has_only(&["cmd", "table", "id", "set", "add", "rollback"])
            }
            CommandName::Erase | CommandName::Get => object.has_only(&["cmd", "table", "id"]),
            CommandName::Keyed(_) => object.has_only(&["cmd", "table", "index", "key"]),
            CommandName::Relocate => object.has_only(&["cmd", "table", "index", "id", "before"]),
            CommandName::Nth => object.has_only(&["cmd", "table", "index", "n"]),
            CommandName::Range => object.has_only(&[
                "cmd", "table", "index", "lower", "upper", "reverse", "limit",
            ]),
            CommandName::List => object.has_only(&["cmd", "table", "index", "after", "limit"]),
            CommandName::Rank => object.has_only(&["cmd", "table", "index", "id"]),
            CommandName::Size => object.has_only(&["cmd", "table"]),
            CommandName::Commit => object.has_only(&["cmd", "revision"]),
            CommandName::Reserve => object.has_only(&["cmd", "changes", "sessions"]),
            CommandName::NullaryCommand(_) => object.has_only(&["cmd"]),
        }
    }
}

/// The change of the table that the members name.
#[inline(always)]
fn change_of<'a>(members: &Object<'a>, change: ChangeRequest<'a>) -> Option<Request<'a>>
    ensures { result ≡ option_map₂ Request.Change (commands.table_in members.now) (Some change.entry) }
{
    let table = table_in(members)?;
    Some(Request::Change { table, change })
}

/// The look-up by numbers of the table that the members name.
#[inline(always)]
fn look_up_by_numbers<'a>(
    members: &Object<'a>,
    look_up: NumberLookUpRequest<'a>,
) -> Option<Request<'a>>
    ensures { result ≡ option_map₂ Request.NumberLookUp (commands.table_in members.now) (Some look_up.entry) }
{
    let table = table_in(members)?;
    Some(Request::NumberLookUp { table, look_up })
}

/// The look-up by keys of the table that the members name.
#[inline(always)]
fn look_up_by_keys<'a>(members: &Object<'a>, look_up: KeyLookUpRequest<'a>) -> Option<Request<'a>>
    ensures { result ≡ option_map₂ Request.KeyLookUp (commands.table_in members.now) (Some look_up.entry) }
{
    let table = table_in(members)?;
    Some(Request::KeyLookUp { table, look_up })
}

#[inline(never)]
fn insert_in<'a>(members: &Object<'a>) -> Option<Request<'a>>
    ensures { result ≡ asked (a_change commands.insert_in) members.now }
{
    let row = row_in(members)?;
    let before = place(members, "before")?;
    change_of(members, ChangeRequest::Insert { row, before })
}

#[inline(never)]
fn replace_in<'a>(members: &Object<'a>) -> Option<Request<'a>>
    ensures { result ≡ asked (a_change commands.replace_in) members.now }
{
    let id = id_in(members)?;
    let row = row_in(members)?;
    change_of(members, ChangeRequest::Replace { id, row })
}

#[inline(never)]
fn modify_in<'a>(members: &Object<'a>) -> Option<Request<'a>>
    ensures { result ≡ asked (a_change commands.modify_in) members.now }
{
    let id = id_in(members)?;
    let set = object_or_empty(members, "set")?;
    let add = object_or_empty(members, "add")?;
    let rollback = flag(members, "rollback")?;
    change_of(
        members,
        ChangeRequest::Modify {
            id,
            set,
            add,
            rollback,
        },
    )
}

#[inline(never)]
fn erase_in<'a>(members: &Object<'a>) -> Option<Request<'a>>
    ensures { result ≡ asked (a_change commands.erase_in) members.now }
{
    let id = id_in(members)?;
    change_of(members, ChangeRequest::Erase { id })
}

#[inline(never)]
fn relocate_in<'a>(members: &Object<'a>) -> Option<Request<'a>>
    ensures { result ≡ asked (a_change commands.relocate_in) members.now }
{
    let index = index_in(members)?;
    let id = id_in(members)?;
    let before = natural_if_there(members, "before")?;
    change_of(members, ChangeRequest::Relocate { index, id, before })
}

#[inline(never)]
fn commit_in<'a>(members: &Object<'_>) -> Option<Request<'a>>
    ensures { result ≡ asked (of_sessions commands.commit_in) members.now }
{
    let revision = natural(members, "revision")?;
    Some(Request::Session(SessionCommand::Commit { revision }))
}

#[inline(never)]
fn reserve_in<'a>(members: &Object<'_>) -> Option<Request<'a>>
    ensures { result ≡ asked (of_sessions commands.reserve_in) members.now }
{
    let changes = up_to(members, "changes", MAX_RESERVED_CHANGES)?;
    let sessions = up_to(members, "sessions", MAX_RESERVED_SESSIONS)?;
    Some(Request::Session(SessionCommand::Reserve { changes, sessions }))
}

#[inline(never)]
fn get_in<'a>(members: &Object<'a>) -> Option<Request<'a>>
    ensures { result ≡ asked (a_number_look_up commands.get_in) members.now }
{
    let id = id_in(members)?;
    look_up_by_numbers(members, NumberLookUpRequest::Get { id })
}

#[inline(never)]
fn nth_in<'a>(members: &Object<'a>) -> Option<Request<'a>>
    ensures { result ≡ asked (a_number_look_up commands.nth_in) members.now }
{
    let index = index_in(members)?;
    let n = natural(members, "n")?;
    look_up_by_numbers(members, NumberLookUpRequest::Nth { index, n })
}

#[inline(never)]
fn list_in<'a>(members: &Object<'a>) -> Option<Request<'a>>
    ensures { result ≡ asked (a_number_look_up commands.list_in) members.now }
{
    let index = index_in(members)?;
    let after = natural_or_absent(members, "after")?;
    let limit = limit_in(members)?;
    look_up_by_numbers(
        members,
        NumberLookUpRequest::List {
            index,
            after,
            limit,
        },
    )
}

#[inline(never)]
fn rank_in<'a>(members: &Object<'a>) -> Option<Request<'a>>
    ensures { result ≡ asked (a_number_look_up commands.rank_in) members.now }
{
    let index = index_in(members)?;
    let id = id_in(members)?;
    look_up_by_numbers(members, NumberLookUpRequest::Rank { index, id })
}

#[inline(never)]
fn range_in<'a>(members: &Object<'a>) -> Option<Request<'a>>
    ensures { result ≡ asked (a_key_look_up commands.range_in) members.now }
{
    let index = index_in(members)?;
    let lower = end(members, "lower", "ge", "gt")?;
    let upper = end(members, "upper", "le", "lt")?;
    let reverse = flag(members, "reverse")?;
    let limit = limit_in(members)?;
    look_up_by_keys(
        members,
        KeyLookUpRequest::Range {
            index,
            lower,
            upper,
            reverse,
            limit,
        },
    )
}

/// The command over a key of the table and the index that the members name.
#[inline(never)]
fn keyed_request<'a>(members: &Object<'a>, command: KeyCommand) -> Option<Request<'a>>
    ensures { result ≡ asked (asks_key command) members.now }
{
    let table = table_in(members)?;
    let index = index_in(members)?;
    let key = key_in(members)?;
    Some(command.request(table, index, key))
}

/// The request that the members of a command are.
fn request_by<'a>(name: CommandName, members: &Object<'a>) -> Option<Request<'a>>
    ensures { result ≡ lines.request_by members.now (form_of name) }
{
    if !name.allows(members) {
        return None;
    }
    match name {
        CommandName::Insert => insert_in(members),
        CommandName::Replace => replace_in(members),
        CommandName::Modify => modify_in(members),
        CommandName::Erase => erase_in(members),
        CommandName::Keyed(command) => keyed_request(members, command),
        CommandName::Relocate => relocate_in(members),
        CommandName::NullaryCommand(nullary_command) => Some(Request::Session(
            nullary_command.command(),
        )),
        CommandName::Commit => commit_in(members),
        CommandName::Reserve => reserve_in(members),
        CommandName::Get => get_in(members),
        CommandName::Nth => nth_in(members),
        CommandName::Range => range_in(members),
        CommandName::List => list_in(members),
        CommandName::Rank => rank_in(members),
        CommandName::Size => look_up_by_numbers(members, NumberLookUpRequest::Size),
    }
}

/// The request that an object is: `cmd` names its command.
fn request_in<'a>(object: &Object<'a>) -> Option<Request<'a>>
    ensures { result ≡ lines.request_in object.now }
{
    let name = CommandName::of(text(object, "cmd")?.as_str())?;
    request_by(name, object)
}

/// The request that a JSON value is.
pub(crate) fn request_of<'a>(value: &Json<'a>) -> Option<Request<'a>>
    ensures { result ≡ lines.request_of (meaning value.now) }
{
    request_in(&object_of(value)?)
}
