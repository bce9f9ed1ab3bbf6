//! Calls of a hub one by one, over each form of the database: a piece whose writer fails in the middle, and as many connections as
//! can be. The calls have no contract of their own, so that a test carries none of what the call below promises.
use super::databases::{Opens, Served, opened};
use super::streams::Sink;
use mi_catalog::{Catalog, built_in};
use mi_hub::{Hub, HubFault, Watched};
use mi_plain::Plain;
use std::alloc::{AllocError, Global};
use std::process::Abort;
use std::test::Fail;

/// Two lines: the first opens a session, and its reply is longer than ten bytes.
const PIECE: &[u8] = b"{\"cmd\":\"start\"}\n{\"cmd\":\"size\"}\n";

/// What a hub is asked of a connection.
#[derive(Clone, Copy)]
enum Call {
    Attach,
    Cut,
}

/// As many connections as can be, and one more: a call, the first and the last connection that it is made of, and what each is answered.
/// One that is there already is told so, also where no other can come.
struct Limit(Call, u64, u64, Result<(), HubFault>);

const LIMITS: [Limit; 8] = [
    Limit(Call::Attach, 1, 1, Ok(())),
    Limit(Call::Attach, 1, 1, Err(HubFault::AlreadyAttached)),
    Limit(Call::Attach, 2, 64, Ok(())),
    Limit(Call::Attach, 1, 1, Err(HubFault::AlreadyAttached)),
    Limit(Call::Attach, 65, 65, Err(HubFault::TooMany)),
    Limit(Call::Cut, 64, 64, Ok(())),
    Limit(Call::Attach, 65, 65, Ok(())),
    Limit(Call::Cut, 64, 64, Err(HubFault::NotAttached)),
];

impl Call {
    fn of<D: Opens>(self, hub: &mut Hub<D>, conn: u64) -> Result<(), HubFault> {
        match self {
            Call::Attach => hub.attach(conn),
            Call::Cut => hub.cut(conn),
        }
    }
}

/// The built-in table.
fn accounts(alloc: Global) -> Result<Catalog, AllocError> {
    Catalog::of(alloc, built_in(alloc)?)
}

/// A hub with no connection.
fn fresh<D: Opens>(rt: &impl Abort, alloc: Global, catalog: &Catalog) -> Hub<D> {
    opened(alloc, catalog).expect(rt, "memory is there")
}

/// Connection 1 sends the piece.
fn fed<D: Opens>(hub: &mut Hub<D>, writer: &mut Watched<Sink>) -> Result<(), HubFault> {
    hub.feed(1, PIECE, writer)
}

/// How many sessions are open, and the revision.
fn sessions<D: Opens>(hub: &Hub<D>) -> (u64, u64) {
    let database = hub.database();
    (database.depth(), database.revision())
}

/// A writer that takes ten bytes, and then fails.
fn narrow(alloc: Global) -> Watched<Sink> {
    let mut sink = Sink::sound(alloc);
    sink.size = 10;
    sink.writes = 1;
    Watched::new(sink)
}

/// The writer has failed, and took ten bytes.
fn assert_narrow(rt: &impl Abort, writer: &Watched<Sink>) {
    assert!(rt; writer.failed());
    assert_eq!(rt; writer.inner().taken.as_slice(), b"{\"ok\":true".as_slice());
}

/// A connection whose writer takes ten bytes is cut at its first reply, and has no more pieces.
fn check_piece<D: Opens>(rt: &impl Abort, hub: &mut Hub<D>, writer: &mut Watched<Sink>) {
    Call::Attach
        .of(hub, 1)
        .expect(rt, "the first connection comes");
    assert_eq!(rt; fed(hub, writer), Err(HubFault::Write));
    assert_narrow(rt, writer);
    assert_eq!(rt; sessions(hub), (0, 0));
    assert_eq!(rt; fed(hub, writer), Err(HubFault::NotAttached));
}

/// A hub takes 64 connections, and another once one of them is cut.
fn check_limits<D: Opens>(rt: &impl Abort, hub: &mut Hub<D>) {
    for Limit(call, first, last, want) in &LIMITS {
        for conn in *first..=*last {
            assert_eq!(rt; call.of(hub, conn), *want, "{conn}");
        }
    }
}

/// Both, each of a hub of its own.
fn check_form<D: Opens>(rt: &impl Abort, alloc: Global, catalog: &Catalog) {
    check_piece(rt, &mut fresh::<D>(rt, alloc, catalog), &mut narrow(alloc));
    check_limits(rt, &mut fresh::<D>(rt, alloc, catalog));
}

/// A failing writer cuts its connection, and connections are limited.
#[test]
fn calls_are_answered(rt: HostRuntime) -> Result<(), Fail> {
    let catalog = accounts(rt.alloc())?;
    check_form::<Plain>(&rt, rt.alloc(), &catalog);
    check_form::<Served>(&rt, rt.alloc(), &catalog);
    Ok(())
}
