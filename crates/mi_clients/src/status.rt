//! The line that tells the status of a service, made of its connections and its hub. It changes neither.
ghost use Rattle.std.specs.Prelude.{◌≡◌, ◌<◌, ◌++◌, length, decimal, IfOk, OnOk};
ghost use Rattle.std.specs.String.{string_bytes};
ghost use Rattle.mi_catalog.specs.Shape.{schema_at};
ghost use Rattle.mi_catalog.specs.Fitting.{HasTable};
ghost use Rattle.mi_clients.specs.Status as spec;

use crate::client::Client;
use mi_durable::is_holder;
use mi_hub::Hub;
use mi_log::LogState;
use mi_sessions::Sessions;
use std::alloc::{AllocError, Global};

/// Adds a number.
fn add_number(alloc: Global, text: &mut String, number: u64) -> Result<(), AllocError>
    ensures { OnOk result (string_bytes text.new ≡ string_bytes text.old ++ decimal number) }
{
    let digits = number.to_string(alloc)?;
    text.push_str(digits.as_str())
}

/// Adds the comma that stands before each item of a list but the first.
fn add_comma(text: &mut String, place: usize) -> Result<(), AllocError>
    ensures { OnOk result (string_bytes text.new ≡ string_bytes text.old ++ spec.comma_before place) }
{
    if place == 0 {
        return Ok(());
    }
    text.push_str(",")
}

/// The word of a flag.
fn flag_word(flag: bool) -> &'static str
    ensures { result.now ≡ spec.flag_text flag }
{
    if flag { "true" } else { "false" }
}

/// Adds with which of its lines a connection began to hold sessions, where it holds some.
fn add_since<S>(
    alloc: Global,
    text: &mut String,
    holder: Option<u64>,
    client: &Client<S>,
) -> Result<(), AllocError>
    ensures { OnOk result (string_bytes text.new ≡ string_bytes text.old ++ spec.since_text holder client.now) }
{
    if is_holder(holder, client.conn()) {
        add_number(alloc, text, client.since())
    } else {
        text.push_str("null")
    }
}

/// Adds how many bytes of a connection's replies are unsent.
fn add_unsent<S>(alloc: Global, text: &mut String, client: &Client<S>) -> Result<(), AllocError>
    ensures { OnOk result (string_bytes text.new ≡ string_bytes text.old ++ spec.unsent_text client.now) }
{
    text.push_str(",\"unsent\":")?;
    add_number(alloc, text, client.owed_bytes() as u64)?;
    text.push_str("}")
}

/// Adds a connection's number, since which line it holds sessions, and how many bytes of its replies are unsent.
fn add_numbered<S>(
    alloc: Global,
    text: &mut String,
    holder: Option<u64>,
    client: &Client<S>,
) -> Result<(), AllocError>
    ensures { OnOk result (string_bytes text.new ≡ string_bytes text.old ++ spec.number_text holder client.now) }
{
    add_number(alloc, text, client.conn())?;
    text.push_str(",\"since\":")?;
    add_since(alloc, text, holder, client)?;
    add_unsent(alloc, text, client)
}

/// Adds a connection: whether it holds sessions, how many lines it has asked, its number, since which line it holds sessions, and how many bytes
/// of its replies are unsent.
fn add_connection<S>(
    alloc: Global,
    text: &mut String,
    holder: Option<u64>,
    client: &Client<S>,
) -> Result<(), AllocError>
    ensures { OnOk result (string_bytes text.new ≡ string_bytes text.old ++ spec.connection_text holder 0 client.now) }
{
    text.push_str("{\"holds\":")?;
    text.push_str(flag_word(is_holder(holder, client.conn())))?;
    text.push_str(",\"lines\":")?;
    add_number(alloc, text, client.lines())?;
    text.push_str(",\"number\":")?;
    add_numbered(alloc, text, holder, client)
}

/// Adds the connections of a list.
fn add_connections<S>(
    alloc: Global,
    text: &mut String,
    holder: Option<u64>,
    clients: &[Client<S>],
) -> Result<(), AllocError>
    ensures { OnOk result (string_bytes text.new ≡ string_bytes text.old ++ spec.listed (spec.connection_text holder) 0 clients.now) }
{
    'clients: for i in 0..clients.len() {
        add_comma(text, i)?;
        add_connection(alloc, text, holder, &clients[i])?;
    }
    Ok(())
}

/// Adds a number, or `null` where there is none.
fn add_optional(alloc: Global, text: &mut String, number: Option<u64>) -> Result<(), AllocError>
    ensures { OnOk result (string_bytes text.new ≡ string_bytes text.old ++ spec.number_or_null number) }
{
    match number {
        Some(number) => add_number(alloc, text, number),
        None => text.push_str("null"),
    }
}

/// Adds a table's name, and how many rows it has.
fn add_rows<D: Sessions>(
    alloc: Global,
    text: &mut String,
    database: &D,
    table: usize,
) -> Result<(), AllocError>
    requires { HasTable (D.state database.now).catalog table }
    ensures { OnOk result (string_bytes text.new ≡ string_bytes text.old
        ++ spec.rows_text (D.state database.now) table (schema_at (D.state database.now).catalog table)) }
{
    text.push_str(",\"name\":\"")?;
    text.push_str(database.catalog().table(table).table_name())?;
    text.push_str("\",\"size\":")?;
    add_number(alloc, text, database.size(table))?;
    text.push_str("}")
}

/// Adds a table: how many bytes of memory it takes, its name, and how many rows it has.
fn add_table<D: Sessions>(
    alloc: Global,
    text: &mut String,
    database: &D,
    memories: &[Option<u64>],
    table: usize,
) -> Result<(), AllocError>
    requires table { HasTable (D.state database.now).catalog table }
    requires memories { table < length memories.now }
    ensures { OnOk result (string_bytes text.new ≡ string_bytes text.old
        ++ spec.table_text (D.state database.now) memories.now table (schema_at (D.state database.now).catalog table)) }
{
    text.push_str("{\"memory\":")?;
    add_optional(alloc, text, memories[table])?;
    add_rows(alloc, text, database, table)
}

/// Adds the tables of a database, each with its memory.
fn add_tables<D: Sessions>(
    alloc: Global,
    text: &mut String,
    database: &D,
    memories: &[Option<u64>],
) -> Result<(), AllocError>
    requires { length memories.now ≡ length (D.state database.now).catalog.tables }
    ensures { OnOk result (string_bytes text.new ≡ string_bytes text.old
        ++ spec.listed (spec.table_text (D.state database.now) memories.now) 0 (D.state database.now).catalog.tables) }
{
    'tables: for i in 0..database.catalog().table_count() {
        add_comma(text, i)?;
        add_table(alloc, text, database, memories, i)?;
    }
    Ok(())
}

/// Adds how many bytes of a journal stay since it was last synced, where it is synced and counts them.
fn add_synced(alloc: Global, text: &mut String, synced: Option<u64>) -> Result<(), AllocError>
    ensures { OnOk result (string_bytes text.new ≡ string_bytes text.old ++ spec.synced_text synced) }
{
    text.push_str(",\"synced\":")?;
    add_optional(alloc, text, synced)?;
    text.push_str("}")
}

/// Adds for how many bytes a journal has room, the number of its segment, where it has one, and how many of its bytes stay.
fn add_room(alloc: Global, text: &mut String, journal: LogState) -> Result<(), AllocError>
    ensures { OnOk result (string_bytes text.new ≡ string_bytes text.old ++ spec.room_text journal) }
{
    text.push_str(",\"room\":")?;
    add_number(alloc, text, journal.room)?;
    text.push_str(",\"segment\":")?;
    add_optional(alloc, text, journal.segment)?;
    add_synced(alloc, text, journal.synced)
}

/// Adds what a journal is, where one is kept: how many bytes it has, whether it lacks room, for how many bytes it has some, the number of its
/// segment, and how many of its bytes stay.
fn add_journal(alloc: Global, text: &mut String, journal: LogState) -> Result<(), AllocError>
    ensures { OnOk result (string_bytes text.new ≡ string_bytes text.old ++ spec.journal_text journal) }
{
    let Some(bytes) = journal.bytes else {
        return text.push_str("null");
    };
    text.push_str("{\"bytes\":")?;
    add_number(alloc, text, bytes)?;
    text.push_str(",\"full\":")?;
    text.push_str(flag_word(journal.is_full))?;
    add_room(alloc, text, journal)
}

/// Adds how many sessions of a database are open, who holds some, and its journal.
fn add_sessions<D: Sessions>(
    alloc: Global,
    text: &mut String,
    database: &D,
    journal: LogState,
    holder: Option<u64>,
) -> Result<(), AllocError>
    ensures { OnOk result (string_bytes text.new ≡ string_bytes text.old ++ spec.sessions_text holder journal (D.state database.now)) }
{
    text.push_str("],\"depth\":")?;
    add_number(alloc, text, database.depth())?;
    text.push_str(",\"holder\":")?;
    add_optional(alloc, text, holder)?;
    text.push_str(",\"journal\":")?;
    add_journal(alloc, text, journal)
}

/// Adds since how many seconds a service is there, and which one it is.
fn add_end(alloc: Global, text: &mut String, seconds: u64) -> Result<(), AllocError>
    ensures { OnOk result (string_bytes text.new ≡ string_bytes text.old ++ spec.end_text seconds) }
{
    text.push_str("],\"uptime\":")?;
    add_number(alloc, text, seconds)?;
    text.push_str(",\"version\":\"0.1.0\"}\n")
}

/// What a status tells beside connections and a database.
#[derive(Drop)]
struct Figures {
    /// How far the journal has come.
    journal: LogState,
    /// Seconds since the start.
    seconds: u64,
    /// How many bytes of memory each table takes, where that is counted.
    memories: Vec<Option<u64>>,
}

/// How many bytes of memory each table of a database takes, where it counts them.
fn memories_of<D: Sessions>(alloc: Global, database: &D) -> Result<Vec<Option<u64>>, AllocError>
    ensures { IfOk result (λ memories. length memories.items ≡ length (D.state database.now).catalog.tables) }
{
    let mut memories = Vec::new(alloc);
    'tables: for i in 0..database.catalog().table_count() {
        memories.push(database.memory(i))?;
    }
    Ok(memories)
}

/// Adds what a database and its sessions are, by these figures.
fn add_database<D: Sessions>(
    alloc: Global,
    text: &mut String,
    database: &D,
    figures: &Figures,
    holder: Option<u64>,
) -> Result<(), AllocError>
    requires { length figures.now.memories.items ≡ length (D.state database.now).catalog.tables }
    ensures { OnOk result (string_bytes text.new ≡ string_bytes text.old
        ++ spec.database_text holder figures.now.journal figures.now.seconds figures.now.memories.items (D.state database.now)) }
{
    add_sessions(alloc, text, database, figures.journal, holder)?;
    text.push_str(",\"ok\":true,\"tables\":[")?;
    add_tables(alloc, text, database, figures.memories.as_slice())?;
    add_end(alloc, text, figures.seconds)
}

/// Adds the line of the status, by these figures.
fn add_status<D: Sessions + Drop, S>(
    alloc: Global,
    text: &mut String,
    hub: &Hub<D>,
    figures: &Figures,
    clients: &[Client<S>],
) -> Result<(), AllocError>
    requires { length figures.now.memories.items ≡ length hub.now.held.database.catalog.tables }
    ensures { OnOk result (string_bytes text.new ≡ string_bytes text.old
        ++ spec.status_line clients.now hub.now figures.now.journal figures.now.seconds figures.now.memories.items) }
{
    let holder = hub.holder();
    text.push_str("{\"connections\":[")?;
    add_connections(alloc, text, holder, clients)?;
    add_database(alloc, text, hub.database(), figures, holder)
}

/// The line that tells the status of a service, so many seconds after its start.
pub(crate) fn status_line<D: Sessions + Drop, S>(
    alloc: Global,
    hub: &Hub<D>,
    journal: LogState,
    seconds: u64,
    clients: &[Client<S>],
) -> Result<String, AllocError>
    ensures { IfOk result (λ line. spec.TellsStatus clients.now hub.now journal seconds (string_bytes line)) }
{
    let figures = Figures {
        journal,
        seconds,
        memories: memories_of(alloc, hub.database())?,
    };
    let mut text = String::new(alloc);
    add_status(alloc, &mut text, hub, &figures, clients)?;
    Ok(text)
}
