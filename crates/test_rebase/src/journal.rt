//! A journal in a folder: it is started, asked lines and rebased as the service does it.
ghost use Rattle.std.specs.Prelude.{◌≡◌, [], true, codes, IfOk, OnOk};
ghost use Rattle.mi_recovery.specs.Names.{new_base_name};
ghost use Rattle.mi_durable.specs.Durable.{hub_of, log_of, IsSettled};
ghost use Rattle.mi_clients.specs.Clients.{ids, Attends};

use mi_base::Heading;
use mi_catalog::Catalog;
use mi_clients::{Client, Duplex, SchemaLine, connect, serve_all};
use mi_database::Linked;
use mi_durable::Durable;
use mi_hub::Hub;
use mi_log::Log;
use mi_multi::MultiIndex;
use mi_rebase::{Base, NewBase, base_of, claim_new_base, discard_new_base, rebased};
use mi_recovery::{
    JournalFailure, JournalFault, JournalFile, JournalFiles, JournalSchema, Keeping, Position,
    fingerprint, next_place, next_segment, opened_behind, segment_file, text_size,
};
use mi_sessions::Sessions;
use std::alloc::{AllocError, Global};
use std::cell::Cell;
use std::io;
use std::io::{Error, ErrorKind};

/// The path of the journal.
pub(crate) const PATH: &str = "j";

/// What keys are hashed under.
const SECRET: u64 = 7;

/// The database of a journal.
type Tables = Linked<MultiIndex>;

/// A catalog, and what tells it in a journal.
#[derive(Drop)]
pub(crate) struct Known {
    catalog: Catalog,
    schema: JournalSchema,
}

impl Known {
    pub(crate) fn of(alloc: Global, catalog: Catalog) -> Result<Known, AllocError> {
        let hash = fingerprint(alloc, &catalog)?;
        let revision = catalog.first_revision();
        Ok(Known {
            catalog,
            schema: JournalSchema { revision, hash },
        })
    }
}

/// Why a start or a rebase ends: the failure's word, and the segment and the line that it names, or 0.
#[derive(Debug, Drop)]
pub(crate) struct Refused {
    word: &'static str,
    segment: u64,
    line: u64,
}

impl Refused {
    fn by(word: &'static str) -> Refused {
        Refused {
            word,
            segment: 0,
            line: 0,
        }
    }

    /// Whether it is this one.
    pub(crate) fn is(&self, word: &str, segment: u64, line: u64) -> bool {
        self.word == word && self.segment == segment && self.line == line
    }
}

impl From<JournalFault> for Refused {
    fn from(fault: JournalFault) -> Refused {
        match fault.failure {
            JournalFailure::File => Refused::by("file"),
            JournalFailure::Schema => Refused::by("schema"),
            JournalFailure::Line(line) => Refused {
                word: "line",
                segment: 0,
                line,
            },
            JournalFailure::Segment(segment) => Refused {
                word: "segment",
                segment,
                line: 0,
            },
            JournalFailure::SegmentLine(segment, line) => Refused {
                word: "line",
                segment,
                line,
            },
            JournalFailure::Base => Refused::by("base"),
            JournalFailure::Sessions => Refused::by("sessions"),
            JournalFailure::Locked => Refused::by("locked"),
            JournalFailure::Write => Refused::by("write"),
            JournalFailure::Memory => Refused::by("memory"),
            JournalFailure::Turns => Refused::by("turns"),
        }
    }
}

fn position_of(heading: Heading) -> Position {
    Position {
        segment: heading.segment,
        line: heading.line,
        sum: heading.sum,
    }
}

/// The tables of a base, or where there is none those that a catalog opens with.
fn standing(
    alloc: Global,
    catalog: Catalog,
    base: Option<Base>,
) -> Result<(Hub<Tables>, Option<Position>), JournalFailure>
    ensures { IfOk result (λ r. r.0.attached ≡ []) }
{
    let Some(Base { heading, images }) = base else {
        return match Linked::new(alloc, catalog, SECRET) {
            Ok(tables) => Ok((Hub::new(alloc, tables), None)),
            Err(_refused) => Err(JournalFailure::Memory),
        };
    };
    match Linked::restored(alloc, catalog, SECRET, images, heading.revision) {
        Ok(tables) => Ok((Hub::new(alloc, tables), Some(position_of(heading)))),
        Err(_fault) => Err(JournalFailure::Base),
    }
}

/// The tables that a journal's start begins with.
fn begun<P: JournalFiles>(
    alloc: Global,
    files: &P,
    known: &Known,
) -> Result<(Hub<Tables>, Option<Position>), JournalFault>
    ensures { IfOk result (λ r. r.0.attached ≡ []) }
{
    let hash = known.schema.hash.as_str();
    let base = base_of(alloc, files, PATH, &known.catalog, hash)?;
    let Ok(catalog) = known.catalog.copy(alloc) else {
        return Err(JournalFault::from(JournalFailure::Memory));
    };
    Ok(standing(alloc, catalog, base)?)
}

/// A rebase, from where the base is read on.
fn rebase_claimed<P: JournalFiles>(
    alloc: Global,
    files: &P,
    known: &Known,
    new: NewBase<P::File>,
) -> Result<(), JournalFault>
    requires locked { P.File.is_locked new.file ≡ true }
    requires seen { P.is_seen files.now (new_base_name (codes "j")) new.file }
{
    let (hub, position) = begun(alloc, files, known)?;
    rebased(
        alloc,
        files,
        hub,
        PATH,
        &known.schema,
        position.as_ref(),
        new,
    )
}

/// A rebase, from its start on.
pub(crate) fn rebase<P: JournalFiles>(
    alloc: Global,
    files: &P,
    known: &Known,
) -> Result<(), Refused> {
    let new = claim_new_base(alloc, files, PATH)?;
    let ended = rebase_claimed(alloc, files, known, new);
    discard_new_base(alloc, files, PATH);
    Ok(ended?)
}

/// Begins the segment behind this one, whatever is open there.
pub(crate) fn begin_next<P: JournalFiles>(
    alloc: Global,
    files: &P,
    known: &Known,
    number: u64,
) -> Result<(), Refused> {
    let file = segment_file(alloc, files, PATH, number)?;
    let text = text_size(&file)?;
    let next = next_place(alloc, &known.schema, number, &file, text)?;
    let _log = next_segment(alloc, files, PATH, &next)?;
    Ok(())
}

/// A stream that has these bytes, and whose replies are kept.
#[derive(Drop)]
struct Pipe<'a> {
    alloc: Global,
    bytes: &'a [u8],
    out: &'a Cell<Vec<u8>>,
}

impl<'a> Duplex for Pipe<'a> {
    ghost use Rattle.std.specs.Prelude.{pos};

    ghost handle = { λ _. pos 0 };

    fn read(&mut self, buffer: &mut [u8]) -> io::Result<usize> {
        let count = self.bytes.len().min(buffer.len());
        if count == 0 {
            return Err(Error::from(ErrorKind::WouldBlock));
        }
        let (front, rest) = self.bytes.split_at(count);
        buffer[..count].copy_from_slice(front);
        self.bytes = rest;
        Ok(count)
    }

    fn write(&mut self, bytes: &[u8]) -> io::Result<usize> {
        let mut out = self.out.replace(Vec::new(self.alloc));
        let added = out.extend_from_slice(bytes);
        self.out.set(out);
        match added {
            Ok(()) => Ok(bytes.len()),
            Err(_error) => Err(Error::from(ErrorKind::OutOfMemory)),
        }
    }
}

/// A connection comes, and there is a turn, in which its lines are asked.
fn serve<'a, D: Sessions + Drop, L: Log + Drop>(
    alloc: Global,
    durable: &mut Durable<D, L>,
    clients: &mut Vec<Client<Pipe<'a>>>,
    stream: Pipe<'a>,
) -> Result<(), JournalFailure>
    requires attends { Attends (ids clients.old.items) (hub_of durable.old).attached }
    requires settled { IsSettled L.appended L.synced durable.old }
{
    let Ok(schema) = SchemaLine::of(alloc, "a schema\n") else {
        return Err(JournalFailure::Memory);
    };
    let mut buffer = [0u8; 4096];
    let _admission = connect(alloc, durable, clients, 2, stream)?;
    serve_all(alloc, durable, clients, &mut buffer, false, &schema, 7)?;
    Ok(())
}

/// What is replied to the lines of a connection that is alone.
fn replied<D: Sessions + Drop, L: Log + Drop>(
    alloc: Global,
    durable: &mut Durable<D, L>,
    lines: &[u8],
) -> Result<Vec<u8>, JournalFailure>
    requires alone { (hub_of durable.old).attached ≡ [] }
    requires settled { IsSettled L.appended L.synced durable.old }
{
    let out = Cell::new(Vec::new(alloc));
    let mut clients = Vec::new(alloc);
    let stream = Pipe {
        alloc,
        bytes: lines,
        out: &out,
    };
    serve(alloc, durable, &mut clients, stream)?;
    Ok(out.replace(Vec::new(alloc)))
}

/// What is replied to lines once a journal is started; what they change goes into it.
pub(crate) fn asked<P: JournalFiles>(
    alloc: Global,
    files: &P,
    known: &Known,
    lines: &[u8],
) -> Result<Vec<u8>, Refused> {
    let (hub, position) = begun(alloc, files, known)?;
    let mut durable = opened_behind(
        alloc,
        files,
        hub,
        PATH,
        Keeping::Synced,
        &known.schema,
        position.as_ref(),
    )?;
    match replied(alloc, &mut durable, lines) {
        Ok(replies) => Ok(replies),
        Err(failure) => Err(Refused::from(JournalFault::from(failure))),
    }
}
