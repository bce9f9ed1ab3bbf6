//! What the program does, in its order: the words are judged, the schema is read, then `ok` is printed or the input is served.
ghost use Rattle.std.specs.Prelude.{◌≡◌, ◌≤◌, [], ◌∷◌, map, Ok, IfOk, IfErr, IfSome};
ghost use Rattle.std.specs.Net.Addr.{ipv4_octets};
ghost use Rattle.mi_value.specs.declared.limits.TheConstants.{MAX_CONNECTIONS};
ghost use Rattle.mi_database.specs.LinkedData.{opened_linked};
ghost use Rattle.mi_program.specs.Serving.{served_answer, ServesClients};
ghost use Rattle.mi_program.specs.Ending.{Ending, ending_status, IsReported, Confirms, Serves, ServesTables, UsesCatalog};
ghost use Rattle.mi_program.specs.Ending.{Performs, TakesRoom, PerformsBuffered, Ends};

use crate::buffered::Buffered;
use crate::failure::Failure;
use crate::listener::serve_listener;
use crate::report::{conclude, refuse, send};
use crate::secret::drawn;
use crate::serve::serve;
use crate::source::catalog;
use crate::words::{Options, read_words};
use mi_database::Linked;
use mi_hub::{Hub, IoErrors, ServeFault, Watched};
use mi_multi::MultiIndex;
use mi_schema::Catalog;
use mi_sessions::Sessions;
use std::alloc::AllocError;
use std::convert::AsStr;
use std::io;
use std::io::{Read, Write};
use std::net::{Ipv4Addr, TcpListener};
use std::random::RandomSource;
use std::rt::{Files, Net};

/// Prints the line `ok` of a schema that is checked.
fn confirm<W: Write>(writer: &mut Watched<W>) -> Result<(), Failure>
    ensures { Confirms W.contents writer.old writer.new result }
{
    send(writer, b"ok\n");
    match writer.flush() {
        Ok(()) => Ok(()),
        Err(_) => Err(Failure::Write),
    }
}

/// The address that is listened on: this port of 127.0.0.1.
fn listen_address(port: u16) -> (Ipv4Addr, u16)
    ensures { (ipv4_octets result.0 ≡ 127 ∷ 0 ∷ 0 ∷ 1 ∷ []) × (result.1 ≡ port) }
{
    (Ipv4Addr::LOCALHOST, port)
}

/// Listens on a port, and on no other address than that.
fn listen<R: Net>(rt: &R, port: u16) -> io::Result<R::Listener> {
    TcpListener::bind(rt, listen_address(port))
}

/// What serving answered, its fault as a failure.
fn answered(served: Result<(), ServeFault>) -> Result<(), Failure>
    ensures { result ≡ served_answer served }
{
    match served {
        Ok(()) => Ok(()),
        Err(fault) => Err(Failure::of_serving(fault)),
    }
}

/// Serves connections to a port over a database.
fn serve_port<R: Net + AllocGlobal, D: Sessions + Drop>(
    rt: &R,
    database: D,
    port: u16,
    clients: usize,
) -> Result<(), Failure>
    requires { (1 ≤ clients) × (clients ≤ MAX_CONNECTIONS) }
    ensures { ServesClients R.Stream.remaining R.Stream.contents (D.state database) clients result }
{
    let Ok(listener) = listen(rt, port) else {
        return Err(Failure::Listen);
    };
    let mut hub = Hub::new(rt.alloc(), database);
    let mut errors = IoErrors::none();
    let served = serve_listener(rt.alloc(), &mut hub, &listener, clients, &mut errors);
    answered(served)
}

/// Serves connections to a port over a database, or the input where there is no port.
fn serve_database<R: Net + AllocGlobal, D: Sessions + Drop, I: Read, O: Write>(
    rt: &R,
    database: D,
    listen: Option<(u16, usize)>,
    reader: &mut Watched<I>,
    writer: &mut Watched<O>,
) -> Result<(), Failure>
    requires { IfSome listen (λ l. (1 ≤ l.1) × (l.1 ≤ MAX_CONNECTIONS)) }
    ensures { Serves I.remaining O.contents R.Stream.remaining R.Stream.contents reader.old reader.new writer.old writer.new (D.state database) listen result }
{
    match listen {
        Some((port, clients)) => serve_port(rt, database, port, clients),
        None => serve(rt.alloc(), database, reader, writer),
    }
}

/// Opens the linked tables of a catalog, whose hashed indexes hash keys under the secret. The failure is `Memory`.
fn open_tables<R: AllocGlobal>(
    rt: &R,
    catalog: Catalog,
    secret: u64,
) -> Result<Linked<MultiIndex>, Failure>
    ensures ok { IfOk result (λ tables. tables ≡ opened_linked tables.changes tables.starts secret catalog) }
    ensures err { IfErr result (λ failure. failure ≡ Failure.Memory) }
{
    match Linked::new(rt.alloc(), catalog, secret) {
        Ok(tables) => Ok(tables),
        Err(_) => Err(Failure::Memory),
    }
}

/// Opens the tables of a catalog, with a secret of this process, and serves connections to a port over them, or the input
/// where there is no port.
fn serve_tables<R: Net + AllocGlobal + RandomSource, I: Read, O: Write>(
    rt: &R,
    catalog: Catalog,
    listen: Option<(u16, usize)>,
    reader: &mut Watched<I>,
    writer: &mut Watched<O>,
) -> Result<(), Failure>
    requires { IfSome listen (λ l. (1 ≤ l.1) × (l.1 ≤ MAX_CONNECTIONS)) }
    ensures { ServesTables I.remaining O.contents R.Stream.remaining R.Stream.contents reader.old reader.new writer.old writer.new catalog listen result }
{
    match open_tables(rt, catalog, drawn(rt)) {
        Ok(tables) => serve_database(rt, tables, listen, reader, writer),
        Err(failure) => Err(failure),
    }
}

/// Confirms a catalog, or serves its tables.
fn use_catalog<R: Net + AllocGlobal + RandomSource, I: Read, O: Write>(
    rt: &R,
    catalog: Catalog,
    options: &Options,
    reader: &mut Watched<I>,
    writer: &mut Watched<O>,
) -> Result<(), Failure>
    requires { IfSome options.now.listen (λ l. (1 ≤ l.1) × (l.1 ≤ MAX_CONNECTIONS)) }
    ensures { UsesCatalog I.remaining O.contents R.Stream.remaining R.Stream.contents reader.old reader.new writer.old writer.new
        (Ok catalog) options.now.check options.now.listen result }
{
    if options.check {
        confirm(writer)
    } else {
        serve_tables(rt, catalog, options.listen, reader, writer)
    }
}

/// Does what the options say. Where the schema alone is checked the line `ok` is written, and the input isn't read.
///
/// The failures of status 3 are those of `catalog`, and come before anything is read or written.
fn perform<R: Files + Net + AllocGlobal + RandomSource, I: Read, O: Write>(
    rt: &R,
    options: &Options,
    reader: &mut Watched<I>,
    writer: &mut Watched<O>,
) -> Result<(), Failure>
    requires { IfSome options.now.listen (λ l. (1 ≤ l.1) × (l.1 ≤ MAX_CONNECTIONS)) }
    ensures { Performs R.File.remaining I.remaining O.contents R.Stream.remaining R.Stream.contents
        reader.old reader.new writer.old writer.new options.now result }
{
    match catalog(rt, options.schema.as_deref()) {
        Ok(catalog) => use_catalog(rt, catalog, options, reader, writer),
        Err(failure) => Err(failure),
    }
}

/// Takes the room of a buffered output, which changes nothing else.
fn make_room<O: Write>(output: &mut Watched<Buffered<O>>) -> Result<(), AllocError>
    ensures { TakesRoom output.old output.new }
{
    output.inner_mut().make_room()
}

/// Does what the options say, the output buffered.
fn perform_buffered<R: Files + Net + AllocGlobal + RandomSource, I: Read, O: Write>(
    rt: &R,
    options: &Options,
    input: &mut Watched<I>,
    output: &mut Watched<Buffered<O>>,
) -> Result<(), Failure>
    requires { IfSome options.now.listen (λ l. (1 ≤ l.1) × (l.1 ≤ MAX_CONNECTIONS)) }
    ensures { PerformsBuffered R.File.remaining I.remaining O.contents R.Stream.remaining R.Stream.contents
        input.old input.new output.old output.new options.now result }
{
    match make_room(output) {
        Ok(()) => perform(rt, options, input, output),
        Err(_) => Err(Failure::Memory),
    }
}

/// Does what the program does with these words, the first of which is its name, and answers its exit status. The words are judged before room
/// is taken for the output.
///
/// | Status | When | On `errors` |
/// |---|---|---|
/// | 0 | all input was served, or the schema was read and `ok` written | nothing |
/// | 2 | the words are refused, or ask for help | the parser's text, or the rule that they break |
/// | 3 | the schema can't be read or is refused | `schema: ` and a word |
/// | 4 | a stream failed, memory was refused, or the input didn't end | `fault: ` and a word |
pub fn run<R: Files + Net + AllocGlobal + RandomSource, S: AsStr, I: Read, O: Write, E: Write>(
    rt: &R,
    words: &[S],
    input: &mut Watched<I>,
    output: &mut Watched<Buffered<O>>,
    errors: &mut Watched<E>,
) -> u8
    // What is done by the ending that the status and the third stream tell.
    ensures { (ending : Ending) × (result ≡ ending_status ending) × IsReported E.contents errors.old errors.new ending
        × Ends R.File.remaining I.remaining O.contents R.Stream.remaining R.Stream.contents
        (map S.text words.now) input.old input.new output.old output.new ending }
{
    match read_words(rt.alloc(), words) {
        Ok(options) => conclude(perform_buffered(rt, &options, input, output), errors),
        Err(fault) => refuse(&fault, errors),
    }
}
