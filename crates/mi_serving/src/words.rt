//! The words that the service is called with: which options it has, and what the words say by them.
ghost use Rattle.std.specs.Prelude.{◌≡◌, false, true, map, option_map, is_some, codes, IfOk, OnOk};
ghost use Rattle.std.specs.String.{string_bytes};
ghost use Rattle.clap.specs.Words.{App, app_of, rule_of, rows_of, found_of, matches_of, one_of, is_simple_and_free};
ghost use Rattle.clap.specs.Built.{IsPlainArg};
ghost use Rattle.mi_program.specs.Words.{option_rule, flag_rule, number_rule, is_set, HasOptions};
ghost use Rattle.mi_serving.specs.Words as spec;
ghost use Rattle.mi_serving.specs.Words.{service_options, with_journal, with_limits, with_places, sync_by, listens, is_task, IsJournal, HasBytes, IsSegmentBytes, IsPort, IsSeconds, AreLimits, AreAddresses, AreValues};

use crate::move_words::{MoveWords, movable, move_words};
use clap::builder::ValueParser;
use clap::error::ErrorKind;
use clap::{Arg, ArgAction, ArgMatches, Command};
use mi_clients::Limits;
use mi_program::WordsFault;
use std::alloc::{AllocError, Global};
use std::convert::AsStr;

/// Seconds that a connection may be allowed to be silent, at most.
pub const MOST_SECONDS: u64 = 1_000_000;

/// Bytes of text that a journal's segment has before the next one is begun, where no word says more: 64 MiB.
pub const SEGMENT_BYTES: u64 = 67_108_864;

/// The fewest that may be asked for.
pub const LEAST_SEGMENT: u64 = 4_096;

/// The most that may be asked for, 1 TiB.
pub const MOST_SEGMENT: u64 = 1_099_511_627_776;

/// When the lines of a journal are made to stay.
#[derive(Clone, Copy, Drop)]
pub enum SyncMode {
    /// Each before its reply goes out.
    Always,
    /// Those of one turn together, before their replies go out.
    Turn,
    /// When the system does so.
    Never,
}

/// The journal that is kept.
#[derive(Drop)]
pub struct JournalWords {
    /// Its file.
    pub file: String,
    /// When its lines are made to stay.
    pub sync: SyncMode,
    /// How many bytes of text a segment has at least before the next one is begun.
    pub segment_bytes: u64,
}

/// Where the service listens: on a port, at a path, or both; a rebase listens nowhere.
#[derive(Drop)]
pub struct Addresses {
    /// The port of 127.0.0.1, where one is asked for; 0 for any that is free.
    pub port: Option<u16>,
    /// The path of a Unix socket, where one is asked for.
    pub unix: Option<String>,
}

/// What the service is asked to do.
#[derive(Drop)]
pub struct Options {
    /// The file that the schema is read from; without one it is the built-in schema.
    pub schema: Option<String>,
    /// Where it listens.
    pub addresses: Addresses,
    /// The journal, where one is kept.
    pub journal: Option<JournalWords>,
    /// How long connections may be silent.
    pub limits: Limits,
    /// Whether the journal is rebased, in place of serving.
    pub rebase: bool,
    /// Where the journal is put under another schema, in place of serving.
    pub moving: Option<MoveWords>,
}

impl Addresses {
    /// Whether there is a port or a path.
    fn some(&self) -> bool
        ensures { result ≡ listens self.now }
    {
        self.port.is_some() || self.unix.is_some()
    }
}

/// An option `--name VALUE`, whose help calls the value by `value`.
pub(crate) fn option<'a>(alloc: Global, name: &'a str, value: &'a str, help: &'a str) -> Arg<'a>
    ensures rule { rule_of result ≡ option_rule name.entry.now }
    ensures local { result.global ≡ false }
    ensures plain { IsPlainArg result }
{
    Arg::new(alloc, name)
        .long(name)
        .action(ArgAction::Set)
        .value_name(value)
        .help(help)
}

/// An option `--name N` of a number that `parser` takes.
fn number<'a>(
    alloc: Global,
    name: &'a str,
    value: &'a str,
    parser: ValueParser<'a>,
    help: &'a str,
) -> Arg<'a>
    ensures rule { rule_of result ≡ number_rule name.entry.now parser.entry }
    ensures local { result.global ≡ false }
    ensures plain { IsPlainArg result }
{
    option(alloc, name, value, help).value_parser(parser)
}

/// An option `--name` that is there or not.
fn flag<'a>(alloc: Global, name: &'a str, help: &'a str) -> Arg<'a>
    ensures rule { rule_of result ≡ flag_rule name.entry.now }
    ensures local { result.global ≡ false }
    ensures plain { IsPlainArg result }
{
    Arg::new(alloc, name)
        .long(name)
        .action(ArgAction::SetTrue)
        .help(help)
}

/// Ports are 0 to 65535.
fn port_parser<'a>() -> ValueParser<'a>
    ensures { result ≡ spec.port_parser }
{
    clap::value_parser!(u16).range(0..)
}

/// Seconds are 1 to 1,000,000.
fn seconds_parser<'a>() -> ValueParser<'a>
    ensures { result ≡ spec.seconds_parser }
{
    clap::value_parser!(u64).range(1..=1_000_000)
}

/// Bytes of a segment are 4,096 to 2^40.
fn segment_parser<'a>() -> ValueParser<'a>
    ensures { result ≡ spec.segment_parser }
{
    clap::value_parser!(u64).range(4_096..=1_099_511_627_776)
}

/// A command, and the options of the journal that is kept.
fn kept<'a>(alloc: Global, command: Command<'a>) -> Result<Command<'a>, AllocError>
    ensures { IfOk result (λ c. (app : App) → HasOptions command.entry app → HasOptions c (with_journal app)) }
{
    let with_journal = command.arg(option(
        alloc,
        "journal",
        "FILE",
        "Keeps what is changed in this file, and begins with what it has",
    ))?;
    let with_sync = with_journal.arg(option(
        alloc,
        "sync",
        "WHEN",
        "Makes the journal stay before replies go out: always (line by line), turn (the default), never",
    ))?;
    let with_bytes = with_sync.arg(number(
        alloc,
        "segment-bytes",
        "N",
        segment_parser(),
        "Goes on in the journal's next file, FILE.000002 and so on, once the newest has N bytes: 4096 to 2^40, 67108864 if absent",
    ))?;
    Ok(with_bytes)
}

/// A command, and the options that limit how long connections may be silent.
fn limited<'a>(alloc: Global, command: Command<'a>) -> Result<Command<'a>, AllocError>
    ensures { IfOk result (λ c. (app : App) → HasOptions command.entry app → HasOptions c (with_limits app)) }
{
    let with_hold = command.arg(number(
        alloc,
        "hold-seconds",
        "N",
        seconds_parser(),
        "Lets a connection go that holds sessions and has sent nothing for N seconds, and undoes them",
    ))?;
    let with_idle = with_hold.arg(number(
        alloc,
        "idle-seconds",
        "N",
        seconds_parser(),
        "Lets a connection go that holds none and has sent nothing for N seconds",
    ))?;
    Ok(with_idle)
}

/// A command, and the options that say where the service listens.
fn placed<'a>(alloc: Global, command: Command<'a>) -> Result<Command<'a>, AllocError>
    ensures { IfOk result (λ c. (app : App) → HasOptions command.entry app → HasOptions c (with_places app)) }
{
    let with_listen = command.arg(number(
        alloc,
        "listen",
        "PORT",
        port_parser(),
        "Serves connections on this port of 127.0.0.1, on any that is free where it is 0",
    ))?;
    let with_unix = with_listen.arg(option(
        alloc,
        "unix",
        "PATH",
        "Serves connections on a Unix socket at this path; its file has the rights that the umask leaves",
    ))?;
    Ok(with_unix)
}

/// The options that the service knows.
fn command<'a>(alloc: Global) -> Result<Command<'a>, AllocError>
    ensures { IfOk result (λ c. HasOptions c service_options) }
{
    let with_schema = Command::new(alloc, "mi_service").arg(option(
        alloc,
        "schema",
        "FILE",
        "Reads the schema from this TOML file; without it the table `accounts` is served",
    ))?;
    let with_places = placed(alloc, with_schema)?;
    let with_journal = kept(alloc, with_places)?;
    let with_rebase = with_journal.arg(flag(
        alloc,
        "rebase",
        "Writes the tables of the journal to its base, FILE.base, removes the segments in front of it, and ends; the journal may be served meanwhile",
    ))?;
    let with_moving = movable(alloc, with_rebase)?;
    let with_limits = limited(alloc, with_moving)?;
    Ok(with_limits)
}

/// The fault that an error of the parser is.
fn parser_fault(error: clap::Error) -> WordsFault {
    if error.kind() == ErrorKind::OutOfMemory {
        WordsFault::Memory
    } else {
        WordsFault::Parse(error)
    }
}

/// What a command matches in the words.
fn matched<'a, S: AsStr>(command: Command<'a>, words: &'a [S]) -> Result<ArgMatches<'a>, WordsFault>
    requires { is_simple_and_free (app_of command) ≡ true }
    ensures { IfOk result (λ m. rows_of (found_of m) ≡ matches_of (app_of command.entry) (map S.text words.entry.now)) }
{
    match command.try_get_matches_from(words) {
        Ok(matches) => Ok(matches),
        Err(error) => Err(parser_fault(error)),
    }
}

/// What was matched in the words.
fn parse<'a, S: AsStr>(alloc: Global, words: &'a [S]) -> Result<ArgMatches<'a>, WordsFault>
    ensures { IfOk result (λ m. rows_of (found_of m) ≡ matches_of service_options (map S.text words.entry.now)) }
{
    matched(command(alloc)?, words)
}

/// A copy of a text.
pub(crate) fn owned(alloc: Global, text: Option<&str>) -> Result<Option<String>, AllocError>
    ensures { IfOk result (λ copy. option_map string_bytes copy ≡ option_map (λ t. t.now) text.entry) }
{
    match text {
        Some(text) => Ok(Some(String::from_str(alloc, text)?)),
        None => Ok(None),
    }
}

/// When a journal's lines are made to stay, by this word.
fn sync_mode(word: Option<&str>) -> Option<SyncMode>
    ensures { result ≡ sync_by (option_map (λ w. w.now) word.entry) }
{
    match word {
        None => Some(SyncMode::Turn),
        Some(word) => {
            if word == "always" {
                Some(SyncMode::Always)
            } else if word == "turn" {
                Some(SyncMode::Turn)
            } else if word == "never" {
                Some(SyncMode::Never)
            } else {
                None
            }
        }
    }
}

/// The bytes of a segment that are asked for, or 64 MiB.
fn bytes_or_default(bytes: Option<u64>) -> u64
    ensures { result ≡ spec.bytes_or_default bytes }
{
    match bytes {
        Some(bytes) => bytes,
        None => SEGMENT_BYTES,
    }
}

/// The journal that is kept, where one is. `Rules` where its way has no name, or it has a way or its segments' bytes and no file.
fn journal_words(
    alloc: Global,
    file: Option<&str>,
    sync: Option<&str>,
    bytes: Option<u64>,
) -> Result<Option<JournalWords>, WordsFault>
    ensures journal { IfOk result (λ journal. IsJournal (option_map (λ t. t.now) file.entry) (option_map (λ w. w.now) sync.entry) journal) }
    ensures bytes { IfOk result (λ journal. HasBytes bytes journal) }
{
    match (file, sync, bytes) {
        (None, None, None) => Ok(None),
        (None, _, _) => Err(WordsFault::Rules),
        (Some(file), sync, bytes) => match sync_mode(sync) {
            Some(sync) => Ok(Some(JournalWords {
                file: String::from_str(alloc, file)?,
                sync,
                segment_bytes: bytes_or_default(bytes),
            })),
            None => Err(WordsFault::Rules),
        },
    }
}

/// The bytes of a segment, where `--segment-bytes` stands in the words. The fault is `Rules`.
fn segment_bytes(matches: &ArgMatches<'_>) -> Result<Option<u64>, WordsFault>
    ensures { IfOk result (IsSegmentBytes (one_of (codes "segment-bytes") (rows_of (found_of matches.now)))) }
{
    match matches.get_one::<u64>("segment-bytes") {
        Some(count) if count >= LEAST_SEGMENT && count <= MOST_SEGMENT => Ok(Some(count)),
        None if !matches.contains_id("segment-bytes") => Ok(None),
        _other => Err(WordsFault::Rules),
    }
}

/// The port, where `--listen` stands in the words. The fault is `Rules`.
fn port(matches: &ArgMatches<'_>) -> Result<Option<u16>, WordsFault>
    ensures { IfOk result (IsPort (one_of (codes "listen") (rows_of (found_of matches.now)))) }
{
    match matches.get_one::<u16>("listen") {
        Some(port) => Ok(Some(port)),
        None if !matches.contains_id("listen") => Ok(None),
        None => Err(WordsFault::Rules),
    }
}

/// Where the service listens, by the options that were matched. The fault is `Memory` or `Rules`.
fn addresses_of(alloc: Global, matches: &ArgMatches<'_>) -> Result<Addresses, WordsFault>
    ensures { IfOk result (AreAddresses (rows_of (found_of matches.now))) }
{
    let port = port(matches)?;
    let unix = owned(alloc, matches.get_str("unix"))?;
    Ok(Addresses { port, unix })
}

/// The seconds of an option, where it stands in the words. The fault is `Rules`.
fn seconds(matches: &ArgMatches<'_>, name: &str) -> Result<Option<u64>, WordsFault>
    ensures { IfOk result (IsSeconds (one_of name.now (rows_of (found_of matches.now)))) }
{
    match matches.get_one::<u64>(name) {
        Some(count) if count >= 1 && count <= MOST_SECONDS => Ok(Some(count)),
        None if !matches.contains_id(name) => Ok(None),
        _other => Err(WordsFault::Rules),
    }
}

/// How long connections may be silent, by the options that were matched. The fault is `Rules`.
fn limits(matches: &ArgMatches<'_>) -> Result<Limits, WordsFault>
    ensures { IfOk result (AreLimits (rows_of (found_of matches.now))) }
{
    let hold = seconds(matches, "hold-seconds")?;
    let idle = seconds(matches, "idle-seconds")?;
    Ok(Limits { hold, idle })
}

/// Whether there is one thing to do: a rebase, also one to a new journal, is of a journal and listens nowhere, a service listens somewhere. The fault
/// is `Rules`.
fn check_task(
    rebase: bool,
    moves: bool,
    addresses: &Addresses,
    journal: Option<&JournalWords>,
) -> Result<(), WordsFault>
    ensures { OnOk result (is_task rebase moves (listens addresses.now) (is_some journal.entry) ≡ true) }
{
    let is_task = if rebase || moves {
        !(rebase && moves) && !addresses.some() && journal.is_some()
    } else {
        addresses.some()
    };
    if is_task {
        Ok(())
    } else {
        Err(WordsFault::Rules)
    }
}

/// The options that were matched. The fault is `Rules` or `Memory`.
fn values(alloc: Global, matches: &ArgMatches<'_>) -> Result<Options, WordsFault>
    ensures { IfOk result (λ options. AreValues options (rows_of (found_of matches.now))) }
{
    let schema = owned(alloc, matches.get_str("schema"))?;
    let addresses = addresses_of(alloc, matches)?;
    let bytes = segment_bytes(matches)?;
    let journal = journal_words(
        alloc,
        matches.get_str("journal"),
        matches.get_str("sync"),
        bytes,
    )?;
    let limits = limits(matches)?;
    let rebase = matches.get_one::<bool>("rebase").unwrap_or(false);
    let moving = move_words(alloc, matches)?;
    check_task(rebase, moving.is_some(), &addresses, journal.as_ref())?;
    Ok(Options {
        schema,
        addresses,
        journal,
        limits,
        rebase,
        moving,
    })
}

/// The options that words say, the first of which is the program's name.
///
/// `Parse` where they are refused or ask for help, `Memory` where a growth was refused. `Rules` where both `--listen` and `--unix` are missing, or one
/// of them stands with `--rebase` or `--rebase-to`. `Rules` too where `--sync`, `--segment-bytes`, `--rebase` or `--rebase-to` stands without
/// `--journal`, or both rebases stand. So it is where one of `--rebase-to` and `--new-schema` is missing, and where `--sync` names no way.
pub fn read_words<S: AsStr>(alloc: Global, words: &[S]) -> Result<Options, WordsFault>
    ensures { IfOk result (λ options. AreValues options (matches_of service_options (map S.text words.now))) }
{
    let matches = parse(alloc, words)?;
    values(alloc, &matches)
}
