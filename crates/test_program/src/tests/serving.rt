//! What the tests serve with. The calls have no contract of their own, so that a test that makes one carries none of what the
//! call below promises.
ghost use Rattle.std.specs.Prelude.{◌≡◌, ◌≤◌, [], IsSome};
ghost use Rattle.mi_hub.specs.Connections.{rest_at};
ghost use Rattle.mi_value.specs.declared.limits.TheConstants.{MAX_CONNECTIONS};

use mi_container::Container;
use mi_database::Linked;
use mi_hub::{Hub, HubFault, IoErrors, ServeFault, Watched};
use mi_multi::MultiIndex;
use mi_plain::Plain;
use mi_program::{Buffered, run, serve_listener};
use mi_schema::{Catalog, built_in};
use mi_sessions::Sessions;
use std::alloc::{AllocError, Global};
use std::io::{Read, Write};
use std::net::{OpenListener, OpenStream};
use std::process::Abort;
use std::random::RandomSource;
use std::rt::{Files, Net};

/// A form of the database.
pub(super) trait Opens: Sessions + Drop {
    /// The database that a catalog opens with.
    fn open(alloc: Global, catalog: Catalog) -> Result<Self, AllocError>;
}

impl Opens for Plain {
    fn open(alloc: Global, catalog: Catalog) -> Result<Plain, AllocError> {
        Plain::new(alloc, catalog)
    }
}

/// The form that the program serves.
pub(super) type Served = Linked<MultiIndex>;

impl<C: Container> Opens for Linked<C> {
    fn open(alloc: Global, catalog: Catalog) -> Result<Linked<C>, AllocError> {
        Linked::new(alloc, catalog, 1)
    }
}

/// A hub with no connection over the built-in table.
pub(super) fn opened<D: Opens>(rt: &impl Abort, alloc: Global) -> Hub<D>
    ensures { result.attached ≡ [] }
{
    let schema = built_in(alloc).expect(rt, "memory is there");
    let catalog = Catalog::of(alloc, schema).expect(rt, "memory is there");
    let database = D::open(alloc, catalog).expect(rt, "memory is there");
    Hub::new(alloc, database)
}

/// No session is open.
pub(super) fn assert_idle<D: Sessions>(rt: &impl Abort, database: &D) {
    assert_eq!(rt; database.depth(), 0);
    assert_eq!(rt; database.revision(), 0);
}

/// Connection 1 comes before any other.
pub(super) fn attach_first<D: Opens>(rt: &impl Abort, hub: &mut Hub<D>)
    requires { hub.old.attached ≡ [] }
    ensures { IsSome (rest_at 1 hub.new.attached) }
{
    hub.attach(1).expect(rt, "connection 1 is attached");
}

/// A connection that comes is answered so.
pub(super) fn assert_attach<D: Opens>(
    rt: &impl Abort,
    hub: &mut Hub<D>,
    conn: u64,
    want: Result<(), HubFault>,
) {
    assert_eq!(rt; hub.attach(conn), want);
}

/// Serves so many connections of a listener, and answers what that answered, and whether a read and whether a write has failed.
pub(super) fn serve_all<D: Opens, L: OpenListener>(
    alloc: Global,
    hub: &mut Hub<D>,
    listener: &L,
    clients: usize,
) -> (Result<(), ServeFault>, bool, bool)
where
    L::Stream: Read + Write + OpenStream,
    requires clients { (1 ≤ clients) × (clients ≤ MAX_CONNECTIONS) }
    requires none { hub.old.attached ≡ [] }
{
    let mut errors = IoErrors::none();
    let served = serve_listener(alloc, hub, listener, clients, &mut errors);
    (served, errors.read(), errors.write())
}

/// The exit status of the program with these words over these streams, and what it wrote on the third one.
pub(super) fn ended<I: Read + Drop, O: Write + Drop>(
    rt: &HostRuntime,
    words: &[&str],
    input: I,
    output: O,
) -> (u8, Vec<u8>) {
    ran_over(rt, rt.alloc(), words, input, output)
}

/// The same at any host.
pub(super) fn ran_over<
    R: Files + Net + AllocGlobal + RandomSource,
    I: Read + Drop,
    O: Write + Drop,
>(rt: &R, alloc: Global, words: &[&str], input: I, output: O) -> (u8, Vec<u8>) {
    let mut errors = Vec::new(alloc);
    let status = run(
        rt,
        words,
        &mut Watched::new(input),
        &mut Watched::new(Buffered::new(alloc, output)),
        &mut Watched::new(&mut errors),
    );
    (status, errors)
}
