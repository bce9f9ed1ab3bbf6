//! The words that the program is called with: which options it has, and what the words say by them.
ghost use Rattle.std.specs.Prelude.{◌≡◌, ◌⊎◌, ◌≤◌, List, [], map, option_map, is_some, true, false, IfOk, IfErr, IfSome};
ghost use Rattle.std.specs.String.{string_bytes};
ghost use Rattle.mi_value.specs.declared.limits.TheConstants.{MAX_CONNECTIONS};
ghost use Rattle.clap.specs.Words.{app_of, rule_of, rows_of, found_of, matches_of, is_simple_and_free, HasKind, Kinds, Row};
ghost use Rattle.clap.specs.Faults.{fault_of};
ghost use Rattle.clap.specs.Built.{IsPlainArg, IsParsedFrom};
ghost use Rattle.mi_program.specs.Words as spec;
ghost use Rattle.mi_program.specs.Words.{option_rule, number_rule, flag_rule, program_options, keeps_rules};
ghost use Rattle.mi_program.specs.Words.{go_together, both, HasOptions, AreGiven, AreValues, IsRefusal};
ghost use Rattle.mi_program.specs.declared.words.WordsFault.TheVariants as fault;

use clap::builder::ValueParser;
use clap::error::ErrorKind;
use clap::{Arg, ArgAction, ArgMatches, Command};
use std::alloc::{AllocError, Global};
use std::convert::AsStr;

/// What the program is asked to do.
#[derive(Drop)]
pub struct Options {
    /// The file that the schema is read from; without one it is the built-in schema.
    pub schema: Option<String>,
    /// Whether the schema is read and nothing is served.
    pub check: bool,
    /// The port that is listened on, 1 to 65535, and how many clients are served, 1 to 64; without them standard input is served.
    pub listen: Option<(u16, usize)>,
}

/// Why words give no options.
#[derive(Drop)]
pub enum WordsFault {
    /// The words aren't the program's options, or ask for help. The error has the text for the user.
    Parse(clap::Error),
    /// The words break a rule between options: one of `--listen` and `--clients` is there without the other, or `--check` stands with them.
    Rules,
    /// A growth was refused.
    Memory,
}

impl From<AllocError> for WordsFault {
    ghost from_gives = { λ _ e. e ≡ fault.Memory };

    fn from(_error: AllocError) -> WordsFault {
        WordsFault::Memory
    }
}

/// An option `--name VALUE`, whose help calls the value by `value`.
fn option<'a>(alloc: Global, name: &'a str, value: &'a str, help: &'a str) -> Arg<'a>
    ensures rule { rule_of result ≡ option_rule name.entry.now }
    ensures local { result.global ≡ false }
    ensures plain { IsPlainArg result }
{
    Arg::new(alloc, name)
        .long(name)
        .action(ArgAction::Set)
        .value_name(value)
        .help(help)
}

/// An option `--name N` of a number that `parser` takes.
fn number<'a>(
    alloc: Global,
    name: &'a str,
    value: &'a str,
    parser: ValueParser<'a>,
    help: &'a str,
) -> Arg<'a>
    ensures rule { rule_of result ≡ number_rule name.entry.now parser.entry }
    ensures local { result.global ≡ false }
    ensures plain { IsPlainArg result }
{
    option(alloc, name, value, help).value_parser(parser)
}

/// Ports are 1 to 65535.
fn port_parser<'a>() -> ValueParser<'a>
    ensures { result ≡ spec.port_parser }
{
    clap::value_parser!(u16).range(1..)
}

/// Clients are 1 to 64, as many as can be attached.
fn clients_parser<'a>() -> ValueParser<'a>
    ensures { result ≡ spec.clients_parser }
{
    clap::value_parser!(usize).range(1..=64)
}

/// An option `--name` that is there or not.
fn flag<'a>(alloc: Global, name: &'a str, help: &'a str) -> Arg<'a>
    ensures rule { rule_of result ≡ flag_rule name.entry.now }
    ensures local { result.global ≡ false }
    ensures plain { IsPlainArg result }
{
    Arg::new(alloc, name)
        .long(name)
        .action(ArgAction::SetTrue)
        .help(help)
}

/// The options that the program knows.
fn command<'a>(alloc: Global) -> Result<Command<'a>, AllocError>
    ensures { IfOk result (λ c. HasOptions c program_options) }
{
    let with_schema = Command::new(alloc, "mi_server").arg(option(
        alloc,
        "schema",
        "FILE",
        "Reads the schema from this TOML file; without it the table `accounts` is served",
    ))?;
    let with_check = with_schema.arg(flag(
        alloc,
        "check",
        "Reads the schema alone and prints `ok`",
    ))?;
    let with_listen = with_check.arg(number(
        alloc,
        "listen",
        "PORT",
        port_parser(),
        "Serves connections on this port of 127.0.0.1 in place of standard input",
    ))?;
    let with_clients = with_listen.arg(number(
        alloc,
        "clients",
        "K",
        clients_parser(),
        "Serves this many connections, all of which come first",
    ))?;
    Ok(with_clients)
}

/// The fault that an error of the parser is.
fn parser_fault(error: clap::Error) -> WordsFault
    ensures { (kinds : Kinds) → (rows : List Row) → HasKind kinds error → IsRefusal kinds rows result }
{
    if error.kind() == ErrorKind::OutOfMemory {
        WordsFault::Memory
    } else {
        WordsFault::Parse(error)
    }
}

/// What a command matches in the words.
fn matched<'a, S: AsStr>(command: Command<'a>, words: &'a [S]) -> Result<ArgMatches<'a>, WordsFault>
    requires { is_simple_and_free (app_of command) ≡ true }
    ensures ok { IfOk result (λ m. (fault_of (app_of command.entry) (map S.text words.entry.now) ≡ [])
        × (rows_of (found_of m) ≡ matches_of (app_of command.entry) (map S.text words.entry.now)) × IsParsedFrom command.entry m) }
    ensures refused { IfErr result (IsRefusal (fault_of (app_of command.entry) (map S.text words.entry.now))
        (matches_of (app_of command.entry) (map S.text words.entry.now))) }
{
    match command.try_get_matches_from(words) {
        Ok(matches) => Ok(matches),
        Err(error) => Err(parser_fault(error)),
    }
}

/// What was matched in the words.
fn parse<'a, S: AsStr>(alloc: Global, words: &'a [S]) -> Result<ArgMatches<'a>, WordsFault>
    ensures ok { IfOk result (λ m. (fault_of program_options (map S.text words.entry.now) ≡ [])
        × (rows_of (found_of m) ≡ matches_of program_options (map S.text words.entry.now)) × AreGiven m) }
    ensures refused { IfErr result (IsRefusal (fault_of program_options (map S.text words.entry.now))
        (matches_of program_options (map S.text words.entry.now))) }
{
    matched(command(alloc)?, words)
}

/// A copy of a text.
fn owned(alloc: Global, text: Option<&str>) -> Result<Option<String>, AllocError>
    ensures { IfOk result (λ copy. option_map string_bytes copy ≡ option_map (λ t. t.now) text.entry) }
{
    match text {
        Some(text) => Ok(Some(String::from_str(alloc, text)?)),
        None => Ok(None),
    }
}

/// The port and the clients, which are there together or not at all, and not beside a check.
fn paired(
    port: Option<u16>,
    clients: Option<usize>,
    check: bool,
) -> Result<Option<(u16, usize)>, WordsFault>
    ensures ok { IfOk result (λ pair. (go_together (is_some port) (is_some clients) check ≡ true) × (pair ≡ both port clients)) }
    ensures err { IfErr result (λ e. (e ≡ fault.Rules) × (go_together (is_some port) (is_some clients) check ≡ false)) }
{
    match (port, clients) {
        (None, None) => Ok(None),
        (Some(port), Some(clients)) if !check => Ok(Some((port, clients))),
        _other => Err(WordsFault::Rules),
    }
}

/// The options that were matched. The fault is `Rules` or `Memory`.
fn values(alloc: Global, matches: &ArgMatches<'_>) -> Result<Options, WordsFault>
    requires { AreGiven matches.now }
    ensures ok { IfOk result (λ options. (keeps_rules (rows_of (found_of matches.now)) ≡ true) × AreValues options (rows_of (found_of matches.now))) }
    ensures err { IfErr result (λ e. (e ≡ fault.Memory) ⊎ ((e ≡ fault.Rules) × (keeps_rules (rows_of (found_of matches.now)) ≡ false))) }
{
    let schema = owned(alloc, matches.get_str("schema"))?;
    let check = matches.get_one::<bool>("check").unwrap_or(false);
    let port = matches.get_one::<u16>("listen");
    let clients = matches.get_one::<usize>("clients");
    let listen = paired(port, clients, check)?;
    Ok(Options {
        schema,
        check,
        listen,
    })
}

/// The options that words say, the first of which is the program's name.
///
/// `Parse` where they are refused or ask for help, `Rules` where they break a rule between options, `Memory` where a growth was
/// refused.
pub fn read_words<S: AsStr>(alloc: Global, words: &[S]) -> Result<Options, WordsFault>
    ensures ok { IfOk result (λ options. (fault_of program_options (map S.text words.now) ≡ [])
        × (keeps_rules (matches_of program_options (map S.text words.now)) ≡ true)
        × AreValues options (matches_of program_options (map S.text words.now))) }
    ensures clients { IfOk result (λ options. IfSome options.listen (λ l. (1 ≤ l.1) × (l.1 ≤ MAX_CONNECTIONS))) }
    ensures refused { IfErr result (IsRefusal (fault_of program_options (map S.text words.now)) (matches_of program_options (map S.text words.now))) }
{
    let matches = parse(alloc, words)?;
    values(alloc, &matches)
}
