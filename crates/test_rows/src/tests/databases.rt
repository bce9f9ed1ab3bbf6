//! The forms of the database that every row is run on, and what a hub over one does. All that is generic over a form stands here,
//! so that each call of the hub is made once for each form.
ghost use Rattle.std.specs.Prelude.{◌≡◌, [], IfOk};

use super::streams::{Sink, Source};
use mi_catalog::Catalog;
use mi_container::Container;
use mi_database::Linked;
use mi_hub::{Event, Hub, HubFault, ServeFault, Watched, drive, serve_stream};
use mi_multi::MultiIndex;
use mi_plain::Plain;
use mi_sessions::Sessions;
use std::alloc::{AllocError, Global};
use std::test::Fail;

/// A form of the database.
pub(super) trait Opens: Sessions + Drop {
    /// The database that a catalog opens with.
    fn open(alloc: Global, catalog: Catalog) -> Result<Self, AllocError>;
}

impl Opens for Plain {
    fn open(alloc: Global, catalog: Catalog) -> Result<Plain, AllocError> {
        Plain::new(alloc, catalog)
    }
}

/// The form that is served.
pub(super) type Served = Linked<MultiIndex>;

impl<C: Container> Opens for Linked<C> {
    fn open(alloc: Global, catalog: Catalog) -> Result<Linked<C>, AllocError> {
        Linked::new(alloc, catalog, 1)
    }
}

/// Which form a row is run on.
#[derive(Clone, Copy)]
pub(super) enum Form {
    Plain,
    Served,
}

/// What a hub is asked: that events happen, or to serve a stream as connection 1.
#[derive(Drop)]
enum Asked<'a> {
    Events(&'a [Event]),
    Stream(Source<'a>),
}

/// How events or a stream ended: the answer, what was written, how many bytes weren't read or events weren't begun, and what another
/// connection is answered then.
#[derive(Drop)]
pub(super) struct Ended {
    pub(super) answer: Result<(), ServeFault>,
    pub(super) written: Vec<u8>,
    pub(super) left: usize,
    pub(super) seen: Vec<u8>,
}

impl Ended {
    /// Whether nothing failed, these bytes were written, and another connection sees these.
    pub(super) fn is_whole(&self, written: &[u8], seen: &[u8]) -> bool {
        self.answer.is_ok() && self.shows(written, seen)
    }

    /// Whether these bytes were written, and another connection sees these.
    pub(super) fn shows(&self, written: &[u8], seen: &[u8]) -> bool {
        self.written.as_slice() == written && self.seen.as_slice() == seen
    }
}

/// What another connection asks at the end: the sessions, the tables, and their next ids. What a row's tables haven't got is refused.
const LOOK: &str = r#"{"cmd":"revision"}
{"cmd":"range","index":"id"}
{"cmd":"list","index":"line"}
{"cmd":"range","index":"by_balance"}
{"cmd":"range","index":"by_class"}
{"cmd":"range","table":"b","index":"id"}
{"cmd":"insert","row":{"owner":"last","balance":0,"vip":true}}
{"cmd":"insert","row":{"k":99}}
"#;

impl Form {
    /// Has these events happen, with one writer.
    pub(super) fn driven(
        self,
        alloc: Global,
        catalog: &Catalog,
        events: &[Event],
        sink: Sink,
    ) -> Result<Ended, Fail> {
        self.run(alloc, catalog, Asked::Events(events), sink)
    }

    /// Serves a stream as connection 1.
    pub(super) fn served(
        self,
        alloc: Global,
        catalog: &Catalog,
        source: Source<'_>,
        sink: Sink,
    ) -> Result<Ended, Fail> {
        self.run(alloc, catalog, Asked::Stream(source), sink)
    }

    /// Asks a hub over a database of this form.
    fn run(
        self,
        alloc: Global,
        catalog: &Catalog,
        asked: Asked<'_>,
        sink: Sink,
    ) -> Result<Ended, Fail> {
        match self {
            Form::Plain => ends::<Plain>(alloc, catalog, asked, sink),
            Form::Served => ends::<Served>(alloc, catalog, asked, sink),
        }
    }
}

/// A hub with no connection over the tables of a catalog.
pub(super) fn opened<D: Opens>(alloc: Global, catalog: &Catalog) -> Result<Hub<D>, AllocError>
    ensures { IfOk result (λ hub. hub.attached ≡ []) }
{
    Ok(Hub::new(alloc, D::open(alloc, catalog.copy(alloc)?)?))
}

/// What connection 3 is answered when it looks.
fn seen<D: Opens>(alloc: Global, hub: &mut Hub<D>) -> Result<Vec<u8>, Fail> {
    let mut writer = Watched::new(Vec::new(alloc));
    if hub.attach(3).is_err() || hub.feed(3, LOOK.as_bytes(), &mut writer).is_err() {
        return Err(Fail::from("another connection isn't answered"));
    }
    Ok(writer.inner().to_vec(alloc)?)
}

/// How the events or the stream of a hub ended, after which another connection looks.
fn end_of<D: Opens>(
    alloc: Global,
    hub: &mut Hub<D>,
    answer: Result<(), ServeFault>,
    sink: &Sink,
    left: usize,
) -> Result<Ended, Fail> {
    Ok(Ended {
        answer,
        written: sink.taken.to_vec(alloc)?,
        left,
        seen: seen(alloc, hub)?,
    })
}

/// Has events happen: the answer, and how many weren't begun.
fn drive_all<D: Opens>(
    hub: &mut Hub<D>,
    events: &[Event],
    writer: &mut Watched<Sink>,
) -> Result<(Result<(), ServeFault>, usize), Fail> {
    match drive(hub, events, writer) {
        Ok(()) => Ok((Ok(()), 0)),
        Err((at, HubFault::Write)) => {
            Ok((Err(ServeFault::Write), events.len().saturating_sub(at)))
        }
        Err(_) => Err(Fail::from("an event is refused")),
    }
}

/// Serves a stream as connection 1: the answer, and how many bytes weren't read.
fn serve<D: Opens>(
    hub: &mut Hub<D>,
    source: Source<'_>,
    writer: &mut Watched<Sink>,
) -> Result<(Result<(), ServeFault>, usize), Fail>
    requires { hub.old.attached ≡ [] }
{
    match hub.attach(1) {
        Ok(()) => {}
        Err(_) => return Err(Fail::from("a connection isn't attached")),
    }
    let mut reader = Watched::new(source);
    let answer = serve_stream(hub, 1, &mut reader, writer);
    Ok((answer, reader.inner().left.len()))
}

/// Asks a hub: the answer, and how much wasn't read or begun.
fn answer_of<D: Opens>(
    hub: &mut Hub<D>,
    asked: Asked<'_>,
    writer: &mut Watched<Sink>,
) -> Result<(Result<(), ServeFault>, usize), Fail>
    requires { hub.old.attached ≡ [] }
{
    match asked {
        Asked::Events(events) => drive_all(hub, events, writer),
        Asked::Stream(source) => serve(hub, source, writer),
    }
}

fn ends<D: Opens>(
    alloc: Global,
    catalog: &Catalog,
    asked: Asked<'_>,
    sink: Sink,
) -> Result<Ended, Fail> {
    let mut hub = opened::<D>(alloc, catalog)?;
    let mut writer = Watched::new(sink);
    let (answer, left) = answer_of(&mut hub, asked, &mut writer)?;
    end_of(alloc, &mut hub, answer, writer.inner(), left)
}
