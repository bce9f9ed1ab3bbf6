//! What the service says on its third stream when it ends, and its exit status. A line that can't be written there is passed over.
ghost use Rattle.std.specs.Prelude.{◌≡◌};
ghost use Rattle.mi_program.specs.Status.{status_of_words};
ghost use Rattle.mi_serving.specs.Status.{status_of};

use crate::failure::{Failure, Fault};
use crate::words::{Addresses, Options};
use mi_program::WordsFault;
use std::alloc::Global;
use std::io::Write;
use std::{fmt, io};

/// What a failure is about: a file, as that of a socket, or a port of 127.0.0.1. Or a part of a schema by its name.
#[derive(Clone, Copy, Drop)]
enum Place<'a> {
    File(&'a str),
    Port(u16),
}

impl<'a> fmt::Display for Place<'a> {
    fn fmt<W: fmt::Write>(&self, f: &mut fmt::Formatter<W>) -> fmt::Result {
        match self {
            Place::File(path) => f.write_str(path),
            Place::Port(port) => write!(f, "127.0.0.1:{port}"),
        }
    }
}

/// What can't be listened on: the path where that is told, else the port, or the path where no port is asked for.
fn listened_address<'a>(is_of_path: bool, addresses: &'a Addresses) -> Option<Place<'a>> {
    match addresses.port {
        Some(port) if !is_of_path => Some(Place::Port(port)),
        _ => {
            let path = addresses.unix.as_deref()?;
            Some(Place::File(path))
        }
    }
}

/// What a failure is about: what the fault tells, or else what the words name.
fn place_of<'a>(fault: &'a Fault, options: &'a Options) -> Option<Place<'a>> {
    match fault.place.as_deref() {
        Some(place) => Some(Place::File(place)),
        None => named_place(fault, options),
    }
}

/// What a failure is about, where the words name it.
fn named_place<'a>(fault: &Fault, options: &'a Options) -> Option<Place<'a>> {
    match &fault.failure {
        Failure::SchemaFile | Failure::Schema(_) => {
            let path = options.schema.as_deref()?;
            Some(Place::File(path))
        }
        Failure::JournalFile
        | Failure::JournalSchema
        | Failure::JournalLine(_)
        | Failure::JournalSegment(_)
        | Failure::JournalSegmentLine(_, _)
        | Failure::JournalBase
        | Failure::JournalSessions
        | Failure::JournalLocked
        | Failure::Journal => {
            let journal = options.journal.as_ref()?;
            Some(Place::File(journal.file.as_str()))
        }
        Failure::Listen => listened_address(fault.is_of_path, &options.addresses),
        Failure::MovedType
        | Failure::MovedUnique(_, _)
        | Failure::MovedFull
        | Failure::MovedTable
        | Failure::Output
        | Failure::Poll
        | Failure::Memory
        | Failure::Turns => None,
    }
}

/// Writes what the system said: its words, and its number in brackets where it has one. Without memory for them nothing is written.
fn write_error<E: Write>(alloc: Global, errors: &mut E, error: &io::Error) -> io::Result<()> {
    let Ok(text) = error.to_string(alloc) else {
        return Ok(());
    };
    match (error.raw_os_error(), text.as_str().split_once('(')) {
        (Some(code), Some((words, _))) => write!(errors, ": {words}({code})"),
        _ => write!(errors, ": {text}"),
    }
}

/// Writes the line of a fault: its word, what it is about, and what the system said.
fn write_line<E: Write>(
    alloc: Global,
    fault: &Fault,
    options: &Options,
    errors: &mut E,
) -> io::Result<()> {
    let failure = &fault.failure;
    write!(errors, "{failure}")?;
    if let Some(place) = place_of(fault, options) {
        write!(errors, ": {place}")?;
    }
    if let Some(error) = &fault.error {
        write_error(alloc, errors, error)?;
    }
    writeln!(errors, "")
}

/// Reports why the service ends, and answers the status.
pub(crate) fn conclude<E: Write>(
    alloc: Global,
    fault: &Fault,
    options: &Options,
    errors: &mut E,
) -> u8
    ensures { result ≡ status_of fault.now.failure }
{
    let _ = write_line(alloc, fault, options, errors);
    fault.failure.status()
}

/// Reports words that give no options, and answers the status.
pub(crate) fn refuse<E: Write>(fault: &WordsFault, errors: &mut E) -> u8
    ensures { result ≡ status_of_words fault.now }
{
    match fault {
        WordsFault::Parse(error) => {
            let _ = write!(errors, "{error}");
            2
        }
        WordsFault::Rules => {
            let _ = writeln!(
                errors,
                "usage: --listen or --unix; or --rebase, or --rebase-to with --new-schema; rebases, --sync and --segment-bytes need --journal; --sync is always, turn or never"
            );
            2
        }
        WordsFault::Memory => {
            let _ = writeln!(errors, "{}", Failure::Memory);
            Failure::Memory.status()
        }
    }
}
