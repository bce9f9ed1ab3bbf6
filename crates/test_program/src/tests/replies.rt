//! Replies are out before more is read, and a consumer that is gone is noticed: over streams, and over connections.
ghost use Rattle.std.specs.Prelude.{◌≡◌, [], IsSome};
ghost use Rattle.mi_hub.specs.Connections.{rest_at};

use super::serving::{Opens, assert_attach, assert_idle, attach_first, ended, opened, serve_all};
use mi_hub::{Hub, ServeFault, Watched, serve_stream};
use mi_plain::Plain;
use mi_program::Buffered;
use std::alloc::{AllocError, Global};
use std::cell::Cell;
use std::io;
use std::io::{Error, ErrorKind, Read, Write};
use std::net::{Ipv4Addr, OpenListener, OpenStream, SocketAddr};
use std::process::Abort;
use std::test::Fail;

/// What one client and the server have exchanged: the lines that were asked, the replies that were written, and those of them that were
/// flushed. Beside these it has how many flushes the client takes, and whether its stream was told to send at once.
#[derive(Drop)]
struct Talk {
    asked: Cell<usize>,
    written: Cell<usize>,
    flushed: Cell<usize>,
    patience: Cell<usize>,
    prompt: Cell<bool>,
}

impl Talk {
    fn new(patience: usize) -> Talk {
        Talk {
            asked: Cell::new(0),
            written: Cell::new(0),
            flushed: Cell::new(0),
            patience: Cell::new(patience),
            prompt: Cell::new(false),
        }
    }
}

fn lines(bytes: &[u8]) -> usize {
    bytes.iter().filter(|b| **b == b'\n').count()
}

/// A client that asks one piece a read, and only where all lines that it asked before have their replies; else the read fails.
#[derive(Drop)]
struct Asker<'a> {
    talk: &'a Talk,
    pieces: &'static [&'static [u8]],
}

impl Read for Asker<'_> {
    fn read(&mut self, buf: &mut [u8]) -> io::Result<usize> {
        if self.talk.flushed.get() < self.talk.asked.get() {
            return Err(Error::from(ErrorKind::Other));
        }
        let [piece, later @ ..] = self.pieces else {
            return Ok(0);
        };
        let count = piece.len().min(buf.len());
        let (front, _) = piece.split_at(count);
        buf[..count].copy_from_slice(front);
        self.pieces = later;
        self.talk
            .asked
            .set(self.talk.asked.get().saturating_add(lines(front)));
        Ok(count)
    }
}

/// Where its replies go: it takes all that is written, and fails at the flush behind those that it had patience for.
#[derive(Drop)]
struct Teller<'a> {
    talk: &'a Talk,
}

impl Write for Teller<'_> {
    fn write(&mut self, buf: &[u8]) -> io::Result<usize> {
        self.talk
            .written
            .set(self.talk.written.get().saturating_add(lines(buf)));
        Ok(buf.len())
    }

    fn flush(&mut self) -> io::Result<()> {
        let Some(left) = self.talk.patience.get().checked_sub(1) else {
            return Err(Error::from(ErrorKind::Other));
        };
        self.talk.patience.set(left);
        self.talk.flushed.set(self.talk.written.get());
        Ok(())
    }
}

/// Two lines in one piece, a line in two pieces, and one without a newline.
const PIECES: &[&[u8]] = &[
    b"{\"cmd\":\"start\"}\n{\"cmd\":\"size\"}\n",
    b"{\"cmd\":\"si",
    b"ze\"}\n",
    b"{\"cmd\":\"size\"}",
];

/// A session is started, and then undone.
const SESSION: &[&[u8]] = &[
    b"{\"cmd\":\"start\"}\n",
    b"{\"cmd\":\"undo\"}\n",
    b"{\"cmd\":\"size\"}\n",
];

#[test]
fn replies_are_out_before_more_is_read(rt: HostRuntime) -> Result<(), Fail> {
    let talk = Talk::new(100);
    let input = Asker {
        talk: &talk,
        pieces: PIECES,
    };
    let (status, _) = ended(&rt, &["mi_server"], input, Teller { talk: &talk });
    assert_eq!(rt; status, 0);
    assert_eq!(rt; talk.asked.get(), 3);
    assert_eq!(rt; talk.flushed.get(), 4);
    Ok(())
}

/// The consumer takes one reply and goes: the next line ends the program.
#[test]
fn gone_consumers_end_the_program(rt: HostRuntime) -> Result<(), Fail> {
    let talk = Talk::new(1);
    let input = Asker {
        talk: &talk,
        pieces: SESSION,
    };
    let (status, errors) = ended(&rt, &["mi_server"], input, Teller { talk: &talk });
    assert_eq!(rt; status, 4);
    assert_eq!(rt; errors.as_slice(), b"fault: write\n".as_slice());
    assert_eq!(rt; talk.asked.get(), 2);
    Ok(())
}

/// Serves connection 1, and answers what serving answered, whether the reader has failed, whether the writer has, and whether
/// it refuses what is written then.
fn serve_once<D: Opens, R: Read + Drop, W: Write + Drop>(
    rt: &impl Abort,
    alloc: Global,
    hub: &mut Hub<D>,
    input: R,
    output: W,
) -> (Result<(), ServeFault>, bool, bool, bool)
    requires { IsSome (rest_at 1 hub.old.attached) }
{
    let mut reader = Watched::new(input);
    let mut output = Buffered::new(alloc, output);
    output.make_room().expect(rt, "memory is there");
    let mut writer = Watched::new(output);
    let served = serve_stream(hub, 1, &mut reader, &mut writer);
    let refused = writer.write(b"more").is_err();
    (served, reader.failed(), writer.failed(), refused)
}

/// A client whose first flush fails is cut, and can come again.
fn check_cut<D: Opens>(rt: &impl Abort, alloc: Global, talk: &Talk) {
    let mut hub = opened::<D>(rt, alloc);
    attach_first(rt, &mut hub);
    let input = Asker {
        talk,
        pieces: SESSION,
    };
    let (served, reader_failed, writer_failed, refused) = serve_once(
        rt,
        alloc,
        &mut hub,
        input,
        Teller { talk },
    );
    assert_eq!(rt; served, Err(ServeFault::Write));
    assert!(rt; writer_failed && !reader_failed && refused);
    assert_idle(rt, hub.database());
    assert_attach(rt, &mut hub, 1, Ok(()));
}

/// A flush that fails cuts the connection: what it held is undone, and a writer that has failed takes nothing more.
#[test]
fn failed_flush_cuts(rt: HostRuntime) {
    let talk = Talk::new(0);
    check_cut::<Plain>(&rt, rt.alloc(), &talk);
    assert_eq!(rt; talk.asked.get(), 1);
}

/// A connection of a client.
#[derive(Drop)]
struct Call<'a> {
    asker: Asker<'a>,
    teller: Teller<'a>,
}

impl Read for Call<'_> {
    fn read(&mut self, buf: &mut [u8]) -> io::Result<usize> {
        self.asker.read(buf)
    }
}

impl Write for Call<'_> {
    fn write(&mut self, buf: &[u8]) -> io::Result<usize> {
        self.teller.write(buf)
    }

    fn flush(&mut self) -> io::Result<()> {
        self.teller.flush()
    }
}

impl OpenStream for Call<'_> {
    fn set_nodelay(&self, nodelay: bool) -> io::Result<()> {
        self.teller.talk.prompt.set(nodelay);
        Ok(())
    }
}

/// Clients that come one after another, each with its pieces.
#[derive(Drop)]
struct Calls<'a> {
    talks: &'a [Talk],
    pieces: &'static [&'static [u8]],
    accepted: Cell<usize>,
}

impl<'a> OpenListener for Calls<'a> {
    type Stream = Call<'a>;

    fn accept(&self) -> io::Result<(Call<'a>, SocketAddr)> {
        let at = self.accepted.get();
        let Some(talk) = self.talks.get(at) else {
            return Err(Error::from(ErrorKind::Other));
        };
        self.accepted.set(at.saturating_add(1));
        let call = Call {
            asker: Asker {
                talk,
                pieces: self.pieces,
            },
            teller: Teller { talk },
        };
        Ok((call, SocketAddr::from((Ipv4Addr::LOCALHOST, 1))))
    }
}

/// Five clients come, of which the third has patience for so many flushes: what serving answers, and how many replies each gets.
fn check_five<D: Opens>(
    rt: &impl Abort,
    alloc: Global,
    third: usize,
    served: Result<(), ServeFault>,
    flushed: &[usize; 5],
) {
    let talks = [
        Talk::new(100),
        Talk::new(100),
        Talk::new(third),
        Talk::new(100),
        Talk::new(100),
    ];
    let mut hub = opened::<D>(rt, alloc);
    assert_eq!(rt; serve_calls(alloc, &mut hub, &talks), served);
    assert_flushed(rt, &talks, flushed);
    assert_idle(rt, hub.database());
}

/// Serves five clients.
fn serve_calls<D: Opens>(
    alloc: Global,
    hub: &mut Hub<D>,
    talks: &[Talk; 5],
) -> Result<(), ServeFault>
    requires { hub.old.attached ≡ [] }
{
    let calls = Calls {
        talks,
        pieces: PIECES,
        accepted: Cell::new(0),
    };
    serve_all(alloc, hub, &calls, 5).0
}

/// All five stay, or the third goes.
fn check_fives<D: Opens>(rt: &impl Abort, alloc: Global) {
    check_five::<D>(rt, alloc, 100, Ok(()), &[4, 4, 4, 4, 4]);
    check_five::<D>(rt, alloc, 1, Err(ServeFault::Write), &[4, 4, 2, 4, 4]);
}

/// Five connections, each answered to its last line before it asks the next; and one of five that is gone, beside which the others go on.
#[test]
fn connections_are_answered(rt: HostRuntime) {
    check_fives::<Plain>(&rt, rt.alloc());
}

/// Each client has got so many replies, by a stream that was told to send at once.
fn assert_flushed(rt: &impl Abort, talks: &[Talk; 5], flushed: &[usize; 5]) {
    for i in 0..5 {
        assert_eq!(rt; talks[i].flushed.get(), flushed[i], "client {i}");
        assert!(rt; talks[i].prompt.get(), "client {i}");
    }
}

/// Lines that insert so many rows, and one that asks for a page of them.
fn page_asked(alloc: Global, count: u64) -> Result<String, AllocError> {
    let mut lines = String::new(alloc);
    for id in 0..count {
        write!(
            lines,
            "{{\"cmd\":\"insert\",\"row\":{{\"owner\":\"o{id}\",\"balance\":7,\"vip\":true}}}}\n"
        )?;
    }
    lines.push_str("{\"cmd\":\"range\",\"index\":\"by_balance\",\"limit\":500}\n")?;
    Ok(lines)
}

/// The replies to so many inserts, and what a page of them begins with.
fn page_begun(alloc: Global, count: u64) -> Result<String, AllocError> {
    let mut replies = String::new(alloc);
    for id in 0..count {
        write!(replies, "{{\"id\":{id},\"ok\":true}}\n")?;
    }
    let more = count > 500;
    write!(replies, "{{\"more\":{more},\"ok\":true,\"rows\":[")?;
    Ok(replies)
}

/// The rows of a page of so many, and its end.
fn page_rows(alloc: Global, count: u64) -> Result<String, AllocError> {
    let mut rows = String::new(alloc);
    for id in 0..count {
        let comma = if id > 0 { "," } else { "" };
        write!(
            rows,
            "{comma}{{\"balance\":7,\"id\":{id},\"owner\":\"o{id}\",\"vip\":true}}"
        )?;
    }
    rows.push_str("]}\n")?;
    Ok(rows)
}

/// What such lines are answered.
fn page_shown(alloc: Global, count: u64) -> Result<String, AllocError> {
    let mut replies = page_begun(alloc, count)?;
    replies.push_str(page_rows(alloc, count.min(500))?.as_str())?;
    Ok(replies)
}

/// The program answers these lines by these replies, and ends well.
fn check_answered(rt: &impl Abort, host: &HostRuntime, lines: &str, want: &str) {
    let mut output = Vec::new(host.alloc());
    let (status, _) = ended(host, &["mi_server"], lines.as_bytes(), &mut output);
    assert_eq!(rt; status, 0);
    assert_eq!(rt; output.as_slice(), want.as_bytes());
}

/// The rows of a range of so many are shown, as many as a page has at most.
fn check_page(rt: &impl Abort, host: &HostRuntime, count: u64) -> Result<(), Fail> {
    let lines = page_asked(host.alloc(), count)?;
    let want = page_shown(host.alloc(), count)?;
    check_answered(rt, host, lines.as_str(), want.as_str());
    Ok(())
}

/// The rows of a range, as many as a page has at most.
#[test]
fn long_pages_are_shown(rt: HostRuntime) -> Result<(), Fail> {
    check_page(&rt, &rt, 31)?;
    check_page(&rt, &rt, 500)?;
    check_page(&rt, &rt, 501)
}
