//! What the program does, in its order: the words are judged, the schema is read, the port and the path are listened on, the base is read, the journal
//! is asked again, and then connections are served. Or a journal is rebased, or put under another schema.
ghost use Rattle.std.specs.Prelude.{◌≡◌, [], None, Some, Ok, Option, true, is_some, option_map, IfOk, IfSome, OnOk};
ghost use Rattle.std.specs.Io.KnownBytes.{Keeps};
ghost use Rattle.mi_log.specs.DeviceLog.{device_of, segment_of};
ghost use Rattle.mi_durable.specs.Durable.{hub_of, log_of};
ghost use Rattle.mi_recovery.specs.declared.place.Position.{Position as At};
ghost use Rattle.mi_recovery.specs.Device.{told_of};
ghost use Rattle.mi_recovery.specs.Names.{new_base_name};
ghost use Rattle.mi_hub.specs.Run.{HubState};
ghost use Rattle.mi_serving.specs.Words as spec;
ghost use Rattle.mi_serving.specs.Words.{asks_each};
ghost use Rattle.mi_serving.specs.Moved.{HasMoved};
ghost use Rattle.mi_serving.specs.Served.{GoesOn, StandsAt, IsMadeAnew, HasServed, HasRebased};
ghost use Rattle.std.specs.String.{string_bytes};
ghost use Rattle.mi_catalog.specs.Shape.{CatalogShape};
ghost use Rattle.mi_program.specs.Source.{IsCatalog};

use crate::acceptor::Acceptor;
use crate::beginning::{begun, keeping_by};
use crate::failure::{Failure, Fault};
use crate::moving::move_journal;
use crate::patience::Patience;
use crate::report::{conclude, refuse};
use crate::service::serve;
use crate::source::{Source, catalog};
use crate::start::{journal_schema, standing};
use crate::words::{JournalWords, Options, SyncMode, read_words};
use mi_catalog::Catalog;
use mi_clients::SchemaLine;
use mi_rebase::{NewBase, claim_new_base, discard_new_base, rebased};
use mi_recovery::{
    JournalDurable, JournalFile, JournalFiles, JournalSchema, Keeping, Rolling, SystemFiles,
    log_error,
};
use mi_sessions::Sessions;
use std::alloc::Global;
use std::convert::AsStr;
use std::fs::File;
use std::io;
use std::io::Write;
use std::net::Net;
use std::random::RandomSource;
use std::rt::Files;
use std::time::Clock;

/// Writes where it listens: a line for the port, and one for the path.
fn write_places<W: Write>(output: &mut W, port: Option<u16>, path: Option<&str>) -> io::Result<()> {
    if let Some(port) = port {
        writeln!(output, "listening 127.0.0.1:{port}")?;
    }
    if let Some(path) = path {
        writeln!(output, "listening {path}")?;
    }
    output.flush()
}

/// Says where it listens.
fn announce<W: Write>(
    output: &mut W,
    port: Option<u16>,
    path: Option<&str>,
) -> Result<(), Failure> {
    if write_places(output, port, path).is_err() {
        return Err(Failure::Output);
    }
    Ok(())
}

/// Whether each line of a journal is to be synced by itself.
fn syncs_each(journal: Option<&JournalWords>) -> bool
    ensures { result ≡ asks_each (option_map (λ words. words.now) journal.entry) }
{
    match journal {
        Some(words) => matches!(words.sync, SyncMode::Always),
        None => false,
    }
}

/// When the journal that the words name goes on in its next segment. Without a journal none does.
fn rolling_of<'a>(journal: Option<&'a JournalWords>, schema: &'a JournalSchema) -> Rolling<'a>
    ensures schema { result.schema.now ≡ schema.entry.now }
    ensures keeping { result.keeping ≡ spec.keeping_of (option_map (λ words. words.now) journal.entry) }
    ensures most { result.most ≡ spec.segment_bytes_of (option_map (λ words. words.now) journal.entry) }
{
    match journal {
        Some(words) => Rolling {
            path: words.file.as_str(),
            schema,
            keeping: keeping_by(words.sync),
            most: words.segment_bytes,
        },
        None => Rolling {
            path: "",
            schema,
            keeping: Keeping::Unsynced,
            most: u64::MAX,
        },
    }
}

/// Serves a durable hub until something fails, which is the answer. It says where it listens first. An error comes before the first connection.
fn serve_hub<P: JournalFiles, D: Sessions + Drop, C: Clock, W: Write>(
    alloc: Global,
    files: &P,
    durable: JournalDurable<P::File, D>,
    schema: &JournalSchema,
    journal: Option<&JournalWords>,
    acceptor: &mut Acceptor,
    path: Option<&str>,
    patience: &mut Patience<'_, C>,
    line: &SchemaLine,
    output: &mut W,
) -> Result<Fault, Fault>
    requires attached { (hub_of durable).attached ≡ [] }
    requires settled { Keeps (told_of P.File.contents (device_of (log_of durable))) (told_of P.File.stays (device_of (log_of durable))) }
    ensures { IfOk result (λ ended. GoesOn (λ file. P.File.is_locked file ≡ true) P.File.contents schema.now (option_map (λ words. words.now) journal.entry)
        (hub_of durable) (told_of P.File.contents (device_of (log_of durable))) ended.failure) }
{
    let mut durable = durable;
    announce(output, acceptor.port()?, path)?;
    let rolling = rolling_of(journal, schema);
    let failure = serve(
        alloc,
        files,
        &mut durable,
        acceptor,
        patience,
        syncs_each(journal),
        line,
        &rolling,
    );
    Ok(Fault {
        failure,
        error: log_error(durable.log()),
        is_of_path: false,
        place: None,
    })
}

/// Serves as the options say, until something fails, which is the answer. An error comes before the first connection.
fn perform<R: Files + Net + AllocGlobal + RandomSource + Clock, P: JournalFiles, W: Write>(
    rt: &R,
    files: &P,
    options: &Options,
    output: &mut W,
) -> Result<Fault, Fault>
    ensures { IfOk result (λ ended. (catalog : CatalogShape) × IsCatalog R.File.remaining (is_some options.now.schema) (Ok catalog)
        × HasServed (λ file. P.File.is_locked file ≡ true) (P.is_seen files.now) (P.is_newest files.now) P.File.contents catalog options.now.journal
        ended.failure) }
{
    let Source { catalog, line } = catalog(rt, options.schema.as_deref())?;
    let mut acceptor = Acceptor::open(rt, &options.addresses)?;
    let Ok(schema) = journal_schema(rt.alloc(), &catalog) else {
        return Err(Fault::from(Failure::Memory));
    };
    let journal = options.journal.as_ref();
    let mut patience = Patience::new(rt, options.limits);
    let durable = begun(rt, files, journal, &catalog, &schema)?;
    serve_hub(
        rt.alloc(),
        files,
        durable,
        &schema,
        journal,
        &mut acceptor,
        options.addresses.unix.as_deref(),
        &mut patience,
        &line,
        output,
    )
}

/// Rebases the journal that the words name, from what its base has. This process has the file of the base that isn't whole yet.
fn rebase_claimed<R: AllocGlobal + RandomSource, P: JournalFiles>(
    rt: &R,
    files: &P,
    journal: &JournalWords,
    catalog: Catalog,
    schema: &JournalSchema,
    new: NewBase<P::File>,
) -> Result<(), Fault>
    requires locked { P.File.is_locked new.file ≡ true }
    requires seen { P.is_seen files.now (new_base_name (string_bytes journal.now.file)) new.file }
    ensures { OnOk result ((position : Option At) × (old : HubState) × StandsAt (P.is_seen files.now) P.File.contents catalog
        (string_bytes schema.now.hash) (Some (string_bytes journal.now.file)) position old
        × IsMadeAnew (λ file. P.File.is_locked file ≡ true) (P.is_seen files.now) (P.is_newest files.now) P.File.contents P.File.stays
        (string_bytes journal.now.file) schema.now position old.held) }
{
    let (hub, position) = standing(rt, files, Some(journal), catalog, schema)?;
    let path = journal.file.as_str();
    Ok(rebased(rt.alloc(), files, hub, path, schema, position.as_ref(), new)?)
}

/// Rebases a journal of the schema that the options name. The file of a base that isn't whole yet is claimed before the base is read, so no other rebase
/// puts another one in its place meanwhile.
fn rebase<R: Files + AllocGlobal + RandomSource, P: JournalFiles>(
    rt: &R,
    files: &P,
    options: &Options,
    journal: &JournalWords,
) -> Result<(), Fault>
    ensures { OnOk result ((catalog : CatalogShape) × IsCatalog R.File.remaining (is_some options.now.schema) (Ok catalog)
        × HasRebased (λ file. P.File.is_locked file ≡ true) (P.is_seen files.now) (P.is_newest files.now) P.File.contents P.File.stays catalog journal.now) }
{
    let Source { catalog, .. } = catalog(rt, options.schema.as_deref())?;
    let Ok(schema) = journal_schema(rt.alloc(), &catalog) else {
        return Err(Fault::from(Failure::Memory));
    };
    let path = journal.file.as_str();
    let new = claim_new_base(rt.alloc(), files, path)?;
    let ended = rebase_claimed(rt, files, journal, catalog, &schema, new);
    discard_new_base(rt.alloc(), files, path);
    ended
}

/// Does what the options say. The answer is why it ended, or none where a journal was rebased or put under another schema.
fn done<R: Files + Net + AllocGlobal + RandomSource + Clock, P: JournalFiles, W: Write>(
    rt: &R,
    files: &P,
    options: &Options,
    output: &mut W,
) -> Option<Fault>
    ensures rebased { result ≡ None → options.now.moving ≡ None → (options.now.rebase ≡ true) × IfSome options.now.journal (λ words.
        (catalog : CatalogShape) × IsCatalog R.File.remaining (is_some options.now.schema) (Ok catalog)
        × HasRebased (λ file. P.File.is_locked file ≡ true) (P.is_seen files.now) (P.is_newest files.now) P.File.contents P.File.stays catalog words) }
    ensures moved { result ≡ None → IfSome options.now.moving (λ move. IfSome options.now.journal (λ words.
        (from : CatalogShape) × IsCatalog R.File.remaining (is_some options.now.schema) (Ok from)
        × (to : CatalogShape) × IsCatalog R.File.remaining true (Ok to)
        × HasMoved (λ file. P.File.is_locked file ≡ true) (P.is_seen files.now) (P.is_newest files.now) P.File.contents P.File.stays from to words
        (string_bytes move.file))) }
{
    match (&options.journal, options.rebase, &options.moving) {
        (Some(journal), _, Some(words)) => move_journal(
            rt, files, options, journal, words, output,
        ).err(),
        (Some(journal), true, None) => rebase(rt, files, options, journal).err(),
        _ => {
            let (Ok(fault) | Err(fault)) = perform(rt, files, options, output);
            Some(fault)
        }
    }
}

/// Does what the service does with these words, the first of which is its name, and answers its exit status:
///
/// | Status | When | On `errors` |
/// |---|---|---|
/// | 0 | the journal was rebased, or put under another schema | nothing |
/// | 2 | the words are refused, or ask for help | the parser's text, or the rule that they break |
/// | 3 | the schema or the journal can't be read or is refused | `schema: `, `journal: ` or `moved: ` and a word |
/// | 4 | the journal, the listener or memory failed | `fault: ` and a word |
///
/// Behind the word stand the file, the port, the path or the part of the schema, and what the system said, where it said something.
pub fn run<
    R: Files<File = File> + Net + AllocGlobal + RandomSource + Clock,
    S: AsStr,
    W: Write + Drop,
    E: Write + Drop,
>(rt: &R, words: &[S], output: W, errors: E) -> u8 {
    let (mut output, mut errors) = (output, errors);
    match read_words(rt.alloc(), words) {
        Ok(options) => match done(rt, &SystemFiles::new(rt), &options, &mut output) {
            Some(fault) => conclude(rt.alloc(), &fault, &options, &mut errors),
            None => 0,
        },
        Err(fault) => refuse(&fault, &mut errors),
    }
}
