//! Lines that the service answers itself, between lines of the tables, over streams in memory.
ghost use Rattle.std.specs.Prelude.{◌≡◌, OnOk};
ghost use Rattle.mi_log.specs.DeviceLog.{device_of};
ghost use Rattle.mi_durable.specs.Durable.{hub_of, log_of, IsSettled};
ghost use Rattle.mi_clients.specs.Clients.{ids, Attends};

use crate::tests::hub;
use mi_clients::{Beside, Client, Duplex, SchemaLine, connect, end_asked, end_beside, serve_all};
use mi_durable::Durable;
use mi_log::{DeviceLog, Log, MemoryDevice};
use mi_plain::Plain;
use mi_sessions::Sessions;
use std::alloc::Global;
use std::cell::Cell;
use std::io;
use std::io::{Error, ErrorKind};
use std::test::Fail;

/// A stream that has these bytes, and whose replies are kept.
#[derive(Drop)]
struct Pipe<'a> {
    alloc: Global,
    bytes: &'a [u8],
    out: &'a Cell<Vec<u8>>,
}

impl<'a> Duplex for Pipe<'a> {
    ghost use Rattle.std.specs.Prelude.{pos};

    ghost handle = { λ _. pos 0 };

    fn read(&mut self, buffer: &mut [u8]) -> io::Result<usize> {
        let count = self.bytes.len().min(buffer.len());
        if count == 0 {
            return Err(Error::from(ErrorKind::WouldBlock));
        }
        let (front, rest) = self.bytes.split_at(count);
        buffer[..count].copy_from_slice(front);
        self.bytes = rest;
        Ok(count)
    }

    fn write(&mut self, bytes: &[u8]) -> io::Result<usize> {
        let mut out = self.out.replace(Vec::new(self.alloc));
        let added = out.extend_from_slice(bytes);
        self.out.set(out);
        match added {
            Ok(()) => Ok(bytes.len()),
            Err(_error) => Err(Error::from(ErrorKind::OutOfMemory)),
        }
    }
}

/// A connection comes.
fn come<'a, D: Sessions + Drop, L: Log + Drop>(
    alloc: Global,
    durable: &mut Durable<D, L>,
    clients: &mut Vec<Client<Pipe<'a>>>,
    conn: u64,
    stream: Pipe<'a>,
) -> Result<(), Fail>
    requires attends { Attends (ids clients.old.items) (hub_of durable.old).attached }
    requires settled { IsSettled L.appended L.synced durable.old }
    ensures attends { OnOk result (Attends (ids clients.new.items) (hub_of durable.new).attached) }
    ensures settled { OnOk result (IsSettled L.appended L.synced durable.new) }
{
    match connect(alloc, durable, clients, conn, stream) {
        Ok(_admission) => Ok(()),
        Err(_fault) => Err(Fail::from("a connection isn't admitted")),
    }
}

/// One turn.
fn turn<'a, D: Sessions + Drop, L: Log + Drop>(
    alloc: Global,
    durable: &mut Durable<D, L>,
    clients: &mut Vec<Client<Pipe<'a>>>,
) -> Result<(), Fail>
    requires attends { Attends (ids clients.old.items) (hub_of durable.old).attached }
    requires settled { IsSettled L.appended L.synced durable.old }
    ensures attends { OnOk result (Attends (ids clients.new.items) (hub_of durable.new).attached) }
    ensures settled { OnOk result (IsSettled L.appended L.synced durable.new) }
{
    let schema = SchemaLine::of(alloc, "a \"t\"\n")?;
    let mut buffer = [0u8; 4096];
    end_asked(clients);
    match serve_all(alloc, durable, clients, &mut buffer, false, &schema, 7) {
        Ok(()) => Ok(()),
        Err(_fault) => Err(Fail::from("a turn fails")),
    }
}

/// Connections 2 and 3 come with these streams, and there are three turns.
fn three_turns<'a, D: Sessions + Drop, L: Log + Drop>(
    alloc: Global,
    durable: &mut Durable<D, L>,
    clients: &mut Vec<Client<Pipe<'a>>>,
    first: Pipe<'a>,
    second: Pipe<'a>,
) -> Result<(), Fail>
    requires attends { Attends (ids clients.old.items) (hub_of durable.old).attached }
    requires settled { IsSettled L.appended L.synced durable.old }
{
    come(alloc, durable, clients, 2, first)?;
    come(alloc, durable, clients, 3, second)?;
    turn(alloc, durable, clients)?;
    turn(alloc, durable, clients)?;
    turn(alloc, durable, clients)
}

/// Three turns of two connections, 2 and 3, that have sent these bytes, over segment 3 of a journal, which has room for so many.
fn serve_two<'a>(
    alloc: Global,
    room: usize,
    first: Pipe<'a>,
    second: Pipe<'a>,
) -> Result<(), Fail> {
    let mut device = MemoryDevice::new(alloc, 100, 100);
    device.set_size(room);
    let log = DeviceLog::new(device, Some(3));
    let mut durable = Durable::<Plain, DeviceLog<MemoryDevice>>::new(hub(alloc)?, log);
    let mut clients = Vec::new(alloc);
    three_turns(alloc, &mut durable, &mut clients, first, second)
}

/// What is replied to connection 3, beside connection 2, which has sent other bytes.
fn replied(alloc: Global, beside: &[u8], bytes: &[u8]) -> Result<Vec<u8>, Fail> {
    replied_in(alloc, usize::MAX, beside, bytes)
}

/// The same over a journal that has room for so many bytes.
fn replied_in(alloc: Global, room: usize, beside: &[u8], bytes: &[u8]) -> Result<Vec<u8>, Fail> {
    let (unheard, out) = (Cell::new(Vec::new(alloc)), Cell::new(Vec::new(alloc)));
    let first = Pipe {
        alloc,
        bytes: beside,
        out: &unheard,
    };
    let second = Pipe {
        alloc,
        bytes,
        out: &out,
    };
    serve_two(alloc, room, first, second)?;
    Ok(out.replace(Vec::new(alloc)))
}

#[test]
fn the_status_of_two(rt: HostRuntime) -> Result<(), Fail> {
    let out = replied(
        rt.alloc(),
        b"{\"cmd\":\"start\"}\n",
        b"{\"service\":\"status\"}\n",
    )?;
    let want =
        b"{\"connections\":[{\"holds\":true,\"lines\":1,\"number\":2,\"since\":1,\"unsent\":25},{\"holds\":false,\"lines\":0,\"number\":3,\"since\":null,\"unsent\":0}],\
\"depth\":1,\"holder\":2,\"journal\":{\"bytes\":16,\"full\":false,\"room\":18446744073709551599,\"segment\":3,\"synced\":0},\"ok\":true,\"tables\":[{\"memory\":null,\"name\":\"accounts\",\"size\":0}],\"uptime\":7,\"version\":\"0.1.0\"}\n";
    assert!(rt; out.as_slice() == want.as_slice());
    Ok(())
}

/// A connection that holds a session, undoes it, and starts two: it holds since the line that started the first of these.
#[test]
fn a_holder_is_told_with_its_line(rt: HostRuntime) -> Result<(), Fail> {
    let out = replied(
        rt.alloc(),
        b"",
        b"{\"cmd\":\"size\"}\n{\"cmd\":\"start\"}\n{\"cmd\":\"undo\"}\n{\"cmd\":\"size\"}\n{\"cmd\":\"start\"}\n{\"cmd\":\"start\"}\n\
{\"service\":\"status\"}\n",
    )?;
    let want =
        b"{\"connections\":[{\"holds\":false,\"lines\":0,\"number\":2,\"since\":null,\"unsent\":0},\
{\"holds\":true,\"lines\":6,\"number\":3,\"since\":5,\"unsent\":142}],\
\"depth\":2,\"holder\":3,\"journal\":{\"bytes\":63,\"full\":false,\"room\":18446744073709551552,\"segment\":3,\"synced\":0},\"ok\":true,\"tables\":[{\"memory\":null,\"name\":\"accounts\",\"size\":0}],\"uptime\":7,\"version\":\"0.1.0\"}\n";
    assert!(rt; out.ends_with(want));
    Ok(())
}

#[test]
fn lines_keep_their_turns(rt: HostRuntime) -> Result<(), Fail> {
    let out = replied(
        rt.alloc(),
        b"{\"cmd\":\"start\"}\n",
        b"{\"cmd\":\"size\"}\n{\"service\":\"schema\"}\r\n{\"cmd\":\"start\"}\n{\"service\":\"fly\"}\n{\"service\":1}\n",
    )?;
    let want =
        b"{\"ok\":true,\"size\":0}\n{\"ok\":true,\"schema\":\"a \\\"t\\\"\\n\"}\n{\"error\":\"busy\",\"ok\":false}\n\
{\"error\":\"form\",\"ok\":false}\n{\"error\":\"form\",\"ok\":false}\n";
    assert!(rt; out.as_slice() == want.as_slice());
    Ok(())
}

/// Bytes of room that a change asks for: the longest line, its newline, and 64 bytes for each of 1,024 sessions.
const ASKED_ROOM: usize = 65_536 + 1 + 65_536;

/// Behind a start there is a byte of room less than a change asks for: each waits, look-ups and the undo don't.
#[test]
fn a_full_journal_turns_changes_away(rt: HostRuntime) -> Result<(), Fail> {
    let out = replied_in(
        rt.alloc(),
        ASKED_ROOM + 15,
        b"",
        b"{\"cmd\":\"start\"}\n{\"cmd\":\"insert\",\"row\":{\"owner\":\"ann\",\"balance\":50,\"vip\":false}}\n{\"cmd\":\"size\"}\n\
{\"cmd\":\"undo\"}\n{\"cmd\":\"start\"}\n{\"cmd\":\"revision\"}\n",
    )?;
    let want =
        b"{\"ok\":true,\"revision\":1}\n{\"error\":\"journal\",\"ok\":false}\n{\"ok\":true,\"size\":0}\n{\"ok\":true,\"revision\":0}\n\
{\"error\":\"journal\",\"ok\":false}\n{\"depth\":0,\"held\":0,\"ok\":true,\"revision\":0}\n";
    assert!(rt; out.as_slice() == want.as_slice());
    Ok(())
}

/// A journal that was full for a change is full behind a look-up too, whose line is shorter.
#[test]
fn a_look_up_leaves_a_journal_full(rt: HostRuntime) -> Result<(), Fail> {
    let out = replied_in(
        rt.alloc(),
        ASKED_ROOM + 15,
        b"",
        b"{\"cmd\":\"start\"}\n{\"cmd\":\"insert\",\"row\":{\"owner\":\"ann\",\"balance\":50,\"vip\":false}}\n{\"cmd\":\"size\"}\n\
{\"service\":\"status\"}\n",
    )?;
    let want =
        b"{\"ok\":true,\"revision\":1}\n{\"error\":\"journal\",\"ok\":false}\n{\"ok\":true,\"size\":0}\n\
{\"connections\":[{\"holds\":false,\"lines\":0,\"number\":2,\"since\":null,\"unsent\":0},{\"holds\":true,\"lines\":3,\"number\":3,\"since\":1,\"unsent\":77}],\
\"depth\":1,\"holder\":3,\"journal\":{\"bytes\":16,\"full\":true,\"room\":131072,\"segment\":3,\"synced\":0},\"ok\":true,\"tables\":[{\"memory\":null,\"name\":\"accounts\",\"size\":0}],\"uptime\":7,\"version\":\"0.1.0\"}\n";
    assert!(rt; out.as_slice() == want.as_slice());
    Ok(())
}

/// A holder is let go that another one asks to end, and its session is undone. A number that nobody has ends nobody.
#[test]
fn a_holder_is_ended(rt: HostRuntime) -> Result<(), Fail> {
    let out = replied(
        rt.alloc(),
        b"{\"cmd\":\"start\"}\n",
        b"{\"service\":\"end\",\"connection\":2}\r\n{\"service\":\"end\",\"connection\":+3}\n{\"cmd\":\"revision\"}\n",
    )?;
    let want =
        b"{\"ok\":true}\n{\"error\":\"form\",\"ok\":false}\n{\"depth\":0,\"held\":0,\"ok\":true,\"revision\":0}\n";
    assert!(rt; out.as_slice() == want.as_slice());
    let kept = replied(
        rt.alloc(),
        b"{\"cmd\":\"start\"}\n",
        b"{\"service\":\"end\",\"connection\":20}\n{\"service\":\"schema\"}\n{\"cmd\":\"start\"}\n",
    )?;
    let refused =
        b"{\"ok\":true}\n{\"ok\":true,\"schema\":\"a \\\"t\\\"\\n\"}\n{\"error\":\"busy\",\"ok\":false}\n";
    assert!(rt; kept.as_slice() == refused.as_slice());
    Ok(())
}

/// Two lines of the connection beside a list are answered.
fn serve_lines<'a, D: Sessions + Drop, L: Log + Drop>(
    alloc: Global,
    durable: &Durable<D, L>,
    clients: &[Client<Pipe<'a>>],
    beside: &mut Beside<Pipe<'a>>,
) -> Result<(), Fail> {
    let schema = SchemaLine::of(alloc, "a \"t\"\n")?;
    let mut buffer = [0u8; 4096];
    for _line in 0..2u64 {
        beside.serve(alloc, durable, clients, &mut buffer, &schema, 7);
    }
    Ok(())
}

/// Connection 2 comes with a stream. The one beside it is served four times, and what that has asked to end is ended in between.
fn turns_beside<'a, D: Sessions + Drop, L: Log + Drop>(
    alloc: Global,
    durable: &mut Durable<D, L>,
    clients: &mut Vec<Client<Pipe<'a>>>,
    first: Pipe<'a>,
    beside: &mut Beside<Pipe<'a>>,
) -> Result<(), Fail>
    requires attends { Attends (ids clients.old.items) (hub_of durable.old).attached }
    requires settled { IsSettled L.appended L.synced durable.old }
{
    come(alloc, durable, clients, 2, first)?;
    turn(alloc, durable, clients)?;
    serve_lines(alloc, durable, clients.as_slice(), beside)?;
    end_beside(beside, clients);
    serve_lines(alloc, durable, clients.as_slice(), beside)?;
    turn(alloc, durable, clients)
}

/// A connection beside connection 2 is served four times, and what it has asked to end is ended in between. Whether connection 2 is gone then, nobody holds
/// sessions, and the other one, whose last line was none of the service's, is gone too.
fn serve_beside<'a>(alloc: Global, first: Pipe<'a>, other: Pipe<'a>) -> Result<bool, Fail> {
    let log = DeviceLog::new(MemoryDevice::new(alloc, 100, 100), None);
    let mut durable = Durable::<Plain, DeviceLog<MemoryDevice>>::new(hub(alloc)?, log);
    let mut clients = Vec::new(alloc);
    let mut beside = Beside::new();
    beside.push_client(alloc, 3, other);
    match turns_beside(alloc, &mut durable, &mut clients, first, &mut beside) {
        Ok(()) => Ok(clients.is_empty() && durable.hub().holder().is_none() && beside.is_free()),
        Err(fail) => Err(fail),
    }
}

/// Beside the others a status is told, and a holder is ended; a line of the tables is refused and changes nothing, and who asks it goes.
#[test]
fn one_is_served_beside_the_others(rt: HostRuntime) -> Result<(), Fail> {
    let alloc = rt.alloc();
    let (unheard, out) = (Cell::new(Vec::new(alloc)), Cell::new(Vec::new(alloc)));
    let first = Pipe {
        alloc,
        bytes: b"{\"cmd\":\"start\"}\n",
        out: &unheard,
    };
    let other = Pipe {
        alloc,
        bytes: b"{\"service\":\"status\"}\n{\"service\":\"end\",\"connection\":2}\n{\"cmd\":\"undo\"}\n",
        out: &out,
    };
    assert!(rt; serve_beside(alloc, first, other)?);
    let want =
        b"{\"connections\":[{\"holds\":true,\"lines\":1,\"number\":2,\"since\":1,\"unsent\":0}],\
\"depth\":1,\"holder\":2,\"journal\":{\"bytes\":16,\"full\":false,\"room\":18446744073709551599,\"segment\":null,\"synced\":16},\"ok\":true,\"tables\":[{\"memory\":null,\"name\":\"accounts\",\"size\":0}],\"uptime\":7,\"version\":\"0.1.0\"}\n\
{\"ok\":true}\n{\"error\":\"places\",\"ok\":false}\n";
    let out = out.replace(Vec::new(alloc));
    assert!(rt; out.as_slice() == want.as_slice());
    Ok(())
}
