//! Connections over the loopback interface, and over streams that fail in the middle.
ghost use Rattle.std.specs.Prelude.{◌≡◌, []};

use super::devices::Sent;
use super::serving::{Opens, Served, assert_attach, assert_idle, opened, serve_all};
use mi_hub::{Hub, ServeFault};
use mi_plain::Plain;
use mi_sessions::Sessions;
use mi_value::{Steps, ValueRef};
use std::alloc::Global;
use std::cell::Cell;
use std::io;
use std::io::{Error, ErrorKind, Read, Write};
use std::net::{
    Ipv4Addr, Net, OpenListener, OpenStream, Shutdown, SocketAddr, TcpListener, TcpStream,
};
use std::process::Abort;
use std::test::Fail;

const START_AND_INSERT: &[u8] =
    b"{\"cmd\":\"start\"}\n{\"cmd\":\"insert\",\"row\":{\"owner\":\"a\",\"balance\":1,\"vip\":false}}\n";

const INSERT_A: &[u8] =
    b"{\"cmd\":\"insert\",\"row\":{\"owner\":\"a\",\"balance\":1,\"vip\":false}}\n";

const SIZE: &[u8] = b"{\"cmd\":\"size\"}\n";

/// The owner in the record of id 0.
fn first_owner<D: Sessions>(database: &D) -> Option<&str> {
    if database.catalog().table_count() == 0 {
        return None;
    }
    match database.get(0, 0, &mut Steps::new())?.get(0) {
        Some(ValueRef::Text(owner)) => Some(owner),
        _ => None,
    }
}

/// How many records the first table has.
fn size<D: Sessions>(database: &D) -> u64 {
    if database.catalog().table_count() == 0 {
        return 0;
    }
    database.size(0)
}

/// A port of the loopback interface that the system chooses.
fn listen<N: Net<Listener = TcpListener, Stream = TcpStream>>(net: &N) -> io::Result<TcpListener> {
    TcpListener::bind(net, (Ipv4Addr::LOCALHOST, 0))
}

/// A client that has sent these bytes, by one write.
fn client<N: Net<Listener = TcpListener, Stream = TcpStream>>(
    net: &N,
    to: &TcpListener,
    bytes: &[u8],
) -> io::Result<TcpStream> {
    let mut stream = TcpStream::connect(net, to.local_addr()?)?;
    stream.write_all(bytes)?;
    Ok(stream)
}

/// What a client is answered.
fn replies(alloc: Global, stream: TcpStream) -> io::Result<Vec<u8>> {
    let mut stream = stream;
    let mut bytes = Vec::new(alloc);
    stream.read_to_end(&mut bytes)?;
    Ok(bytes)
}

/// Both clients have sent all.
fn end_both(first: &TcpStream, second: &TcpStream) -> io::Result<()> {
    first.shutdown(Shutdown::Write)?;
    second.shutdown(Shutdown::Write)
}

/// Serves two clients.
fn serve_two<D: Opens>(alloc: Global, hub: &mut Hub<D>, listener: &TcpListener) -> Result<(), Fail>
    requires { hub.old.attached ≡ [] }
{
    let (served, _, _) = serve_all(alloc, hub, listener, 2);
    match served {
        Ok(()) => Ok(()),
        Err(_) => Err(Fail::from("a stream failed")),
    }
}

/// What two clients send and are answered, and the owner of id 0 afterwards, where there is one record then, and else none.
struct Row {
    sent: [&'static [u8]; 2],
    want: [&'static [u8]; 2],
    owner: Option<&'static str>,
}

/// A client is answered so.
fn assert_replies(
    rt: &impl Abort,
    alloc: Global,
    stream: TcpStream,
    want: &[u8],
) -> Result<(), Fail> {
    let got = replies(alloc, stream)?;
    assert_eq!(rt; got.as_slice(), want);
    Ok(())
}

/// Asserts the owner of id 0, that there is no other record, and that no session is open.
fn assert_ended<D: Sessions>(rt: &impl Abort, database: &D, owner: Option<&str>) {
    assert_eq!(rt; first_owner(database), owner);
    assert_eq!(rt; size(database), u64::from(owner.is_some()));
    assert_idle(rt, database);
}

/// Two clients that send these bytes and no more are answered so.
fn check_two<D: Opens>(
    rt: &impl Abort,
    host: &HostRuntime,
    hub: &mut Hub<D>,
    row: &Row,
) -> Result<(), Fail>
    requires { hub.old.attached ≡ [] }
{
    let listener = listen(host)?;
    let first = client(host, &listener, row.sent[0])?;
    let second = client(host, &listener, row.sent[1])?;
    end_both(&first, &second)?;
    serve_two(host.alloc(), hub, &listener)?;
    assert_replies(rt, host.alloc(), first, row.want[0])?;
    assert_replies(rt, host.alloc(), second, row.want[1])
}

const ROWS: [Row; 2] = [
    Row {
        sent: [INSERT_A, SIZE],
        want: [b"{\"id\":0,\"ok\":true}\n", b"{\"ok\":true,\"size\":1}\n"],
        owner: Some("a"),
    },
    Row {
        sent: [
            b"{\"cmd\":\"start\"}\n{\"cmd\":\"insert\",\"row\":{\"owner\":\"a\",\"balance\":1,\"vip\":false}}",
            SIZE,
        ],
        want: [
            b"{\"ok\":true,\"revision\":1}\n{\"id\":0,\"ok\":true}\n",
            b"{\"ok\":true,\"size\":0}\n",
        ],
        owner: None,
    },
];

/// Two clients, and what the database has once both have ended.
fn check_row<D: Opens>(rt: &impl Abort, host: &HostRuntime, row: &Row) -> Result<(), Fail> {
    let mut hub = opened::<D>(rt, host.alloc());
    check_two(rt, host, &mut hub, row)?;
    assert_ended(rt, hub.database(), row.owner);
    Ok(())
}

/// Each row, over a form of the database.
fn check_rows<D: Opens>(rt: &impl Abort, host: &HostRuntime) -> Result<(), Fail> {
    for row in &ROWS {
        check_row::<D>(rt, host, row)?;
    }
    Ok(())
}

#[test]
fn two_clients_are_answered(rt: HostRuntime) -> Result<(), Fail> {
    check_rows::<Plain>(&rt, &rt)?;
    check_rows::<Served>(&rt, &rt)
}

/// One client comes where two are served.
fn check_accept<D: Opens>(rt: &impl Abort, host: &HostRuntime) -> Result<(), Fail> {
    let listener = listen(host)?;
    listener.set_nonblocking(true)?;
    let _first = client(host, &listener, INSERT_A)?;
    check_one_of_two::<D>(rt, host.alloc(), &listener);
    Ok(())
}

/// The listener gives one of two clients.
fn check_one_of_two<D: Opens>(rt: &impl Abort, alloc: Global, listener: &TcpListener) {
    let mut hub = opened::<D>(rt, alloc);
    let (served, _, _) = serve_all(alloc, &mut hub, listener, 2);
    assert_eq!(rt; served, Err(ServeFault::Accept));
    assert!(rt; first_owner(hub.database()).is_none());
    assert_attach(rt, &mut hub, 1, Ok(()));
}

/// With no client there to accept the call ends, and the one that had come is cut.
#[test]
fn failed_accept_ends_all(rt: HostRuntime) -> Result<(), Fail> {
    check_accept::<Plain>(&rt, &rt)
}

/// A stream over memory: it gives one piece a read, and then is at its end or fails; where it is dumb each write fails.
#[derive(Drop)]
struct Script {
    sent: Sent,
    dumb: bool,
}

impl Read for Script {
    fn read(&mut self, buf: &mut [u8]) -> io::Result<usize> {
        self.sent.read(buf)
    }
}

impl Write for Script {
    fn write(&mut self, buf: &[u8]) -> io::Result<usize> {
        if self.dumb {
            return Err(Error::from(ErrorKind::Other));
        }
        Ok(buf.len())
    }

    fn flush(&mut self) -> io::Result<()> {
        Ok(())
    }
}

/// It knows no call of a socket, so it answers each with an error.
impl OpenStream for Script {}

/// What the second connection sends.
const SECOND: &[&[u8]] = &[
    b"{\"cmd\":\"insert\",",
    b"\"row\":{\"owner\":\"b\",\"balance\":2,\"vip\":true}}\n",
];

/// The first connection, in these pieces, breaks off at its end or at its first reply; the second inserts the owner b.
#[derive(Drop)]
struct Breaking {
    pieces: &'static [&'static [u8]],
    sound: bool,
    accepted: Cell<bool>,
}

impl OpenListener for Breaking {
    type Stream = Script;

    fn accept(&self) -> io::Result<(Script, SocketAddr)> {
        let stream = if self.accepted.replace(true) {
            Script {
                sent: Sent {
                    pieces: SECOND,
                    sound: true,
                },
                dumb: false,
            }
        } else {
            Script {
                sent: Sent {
                    pieces: self.pieces,
                    sound: self.sound,
                },
                dumb: self.sound,
            }
        };
        Ok((stream, SocketAddr::from((Ipv4Addr::LOCALHOST, 1))))
    }
}

/// Serves two connections of which the first breaks off, and answers what that answered, and whether a read and whether a write
/// has failed.
fn serve_breaking<D: Opens>(
    alloc: Global,
    hub: &mut Hub<D>,
    sound: bool,
) -> (Result<(), ServeFault>, bool, bool)
    requires { hub.old.attached ≡ [] }
{
    let listener = Breaking {
        pieces: &[START_AND_INSERT],
        sound,
        accepted: Cell::new(false),
    };
    serve_all(alloc, hub, &listener, 2)
}

/// The first connection breaks off with this fault, and the second inserts.
fn check_breaking<D: Opens>(rt: &impl Abort, alloc: Global, sound: bool, fault: ServeFault) {
    let mut hub = opened::<D>(rt, alloc);
    let answer = serve_breaking(alloc, &mut hub, sound);
    assert_eq!(rt; answer, (Err(fault), !sound, sound));
    assert_ended(rt, hub.database(), Some("b"));
}

/// A read fails, or a write does.
fn check_breakings<D: Opens>(rt: &impl Abort, alloc: Global) {
    check_breaking::<D>(rt, alloc, false, ServeFault::Read);
    check_breaking::<D>(rt, alloc, true, ServeFault::Write);
}

/// A connection whose read or write fails is cut: what it holds is undone, the other goes on, and the fault is answered at the end.
#[test]
fn others_go_on(rt: HostRuntime) {
    check_breakings::<Plain>(&rt, rt.alloc());
}
