//! A host whose port is the test's own: the address that is listened on is noted, and clients come by script. Its files, its memory and its
//! random bytes are those of the host below.
use super::devices::{Pieces, Sent};
use super::serving::ran_over;
use std::alloc::Allocator;
use std::cell::Cell;
use std::fs::{Metadata, OpenOptions};
use std::io;
use std::io::{Error, ErrorKind, Read, Write};
use std::net::{Ipv4Addr, OpenListener, OpenStream, SocketAddr};
use std::os::fd::{AsRawFd, RawFd};
use std::process::Abort;
use std::random::RandomSource;
use std::rt::{Files, Net};

/// A client: the pieces that it sends, behind which its reads fail where it isn't sound, and what it must be answered; how much of that has
/// come, and whether anything else has.
#[derive(Drop)]
struct Visit {
    pieces: &'static [&'static [u8]],
    sound: bool,
    want: &'static [u8],
    come: Cell<usize>,
    astray: Cell<bool>,
}

impl Visit {
    fn new(pieces: &'static [&'static [u8]], sound: bool, want: &'static [u8]) -> Visit {
        Visit {
            pieces,
            sound,
            want,
            come: Cell::new(0),
            astray: Cell::new(false),
        }
    }

    /// Whether the client was answered what it must be, and nothing else.
    fn is_answered(&self) -> bool {
        self.come.get() == self.want.len() && !self.astray.get()
    }

    fn answer(&self, bytes: &[u8]) {
        let come = self.come.get().min(self.want.len());
        let (_, left) = self.want.split_at(come);
        if left.starts_with(bytes) {
            self.come.set(come.saturating_add(bytes.len()));
        } else {
            self.astray.set(true);
        }
    }
}

/// The connection of a client, which gives one piece a read.
#[derive(Drop)]
struct Caller<'a> {
    visit: &'a Visit,
    sent: Sent,
}

impl Read for Caller<'_> {
    fn read(&mut self, buf: &mut [u8]) -> io::Result<usize> {
        self.sent.read(buf)
    }
}

impl Write for Caller<'_> {
    fn write(&mut self, buf: &[u8]) -> io::Result<usize> {
        self.visit.answer(buf);
        Ok(buf.len())
    }

    fn flush(&mut self) -> io::Result<()> {
        Ok(())
    }
}

impl OpenStream for Caller<'_> {}

impl AsRawFd for Caller<'_> {
    fn as_raw_fd(&self) -> RawFd {
        -1
    }
}

/// Clients come by it in their order, each once; then an accept fails.
#[derive(Drop)]
struct Door<'a> {
    visits: &'a [Visit],
    accepted: Cell<usize>,
}

impl<'a> OpenListener for Door<'a> {
    type Stream = Caller<'a>;

    fn accept(&self) -> io::Result<(Caller<'a>, SocketAddr)> {
        let at = self.accepted.get();
        let Some(visit) = self.visits.get(at) else {
            return Err(Error::from(ErrorKind::Other));
        };
        self.accepted.set(at.saturating_add(1));
        let caller = Caller {
            visit,
            sent: Sent {
                pieces: visit.pieces,
                sound: visit.sound,
            },
        };
        Ok((caller, SocketAddr::from((Ipv4Addr::LOCALHOST, 1))))
    }
}

impl AsRawFd for Door<'_> {
    fn as_raw_fd(&self) -> RawFd {
        -1
    }
}

/// A host with these clients, and the address that was listened on.
#[derive(Drop)]
struct Host<'a, R> {
    below: &'a R,
    visits: &'a [Visit],
    address: Cell<Option<SocketAddr>>,
}

impl<'a, R> Host<'a, R> {
    fn new(below: &'a R, visits: &'a [Visit]) -> Host<'a, R> {
        Host {
            below,
            visits,
            address: Cell::new(None),
        }
    }
}

impl<'a, R: Alloc> Alloc for Host<'a, R> {
    type A = R::A;

    fn alloc(&self) -> R::A {
        self.below.alloc()
    }
}

impl<'a, R: RandomSource> RandomSource for Host<'a, R> {
    fn fill_bytes(&self, buf: &mut [u8]) -> io::Result<()> {
        self.below.fill_bytes(buf)
    }
}

impl<'a, R> Net for Host<'a, R> {
    type Stream = Caller<'a>;

    type Listener = Door<'a>;

    fn bind(&self, addr: SocketAddr) -> io::Result<Door<'a>> {
        self.address.set(Some(addr));
        Ok(Door {
            visits: self.visits,
            accepted: Cell::new(0),
        })
    }

    fn connect(&self, _addr: SocketAddr) -> io::Result<Caller<'a>> {
        Err(Error::from(ErrorKind::Unsupported))
    }
}

impl<'a, R: Files> Files for Host<'a, R> {
    type File = R::File;

    type Dir = R::Dir;

    fn open_file(&self, how: &OpenOptions, path: &str) -> io::Result<R::File> {
        self.below.open_file(how, path)
    }

    fn open_dir(&self, path: &str) -> io::Result<R::Dir> {
        self.below.open_dir(path)
    }

    fn metadata(&self, path: &str) -> io::Result<Metadata> {
        self.below.metadata(path)
    }

    fn symlink_metadata(&self, path: &str) -> io::Result<Metadata> {
        self.below.symlink_metadata(path)
    }

    fn copy(&self, from: &str, to: &str) -> io::Result<u64> {
        self.below.copy(from, to)
    }

    fn rename(&self, from: &str, to: &str) -> io::Result<()> {
        self.below.rename(from, to)
    }

    fn remove_file(&self, path: &str) -> io::Result<()> {
        self.below.remove_file(path)
    }

    fn create_dir(&self, path: &str) -> io::Result<()> {
        self.below.create_dir(path)
    }

    fn remove_dir(&self, path: &str) -> io::Result<()> {
        self.below.remove_dir(path)
    }

    fn remove_dir_all<B: Allocator>(&self, alloc: B, path: &str) -> io::Result<()> {
        self.below.remove_dir_all(alloc, path)
    }
}

/// Two clients of a run, and how it ends: the second is sound or breaks off behind its pieces, and three are waited for where one more is.
struct Row {
    clients: &'static str,
    sound: bool,
    want: [&'static [u8]; 2],
    status: u8,
    errors: &'static [u8],
}

const FIRST: &[&[u8]] = &[
    b"{\"cmd\":\"insert\",\"row\":{\"owner\":\"a\",\"balance\":1,\"vip\":false}}\n",
    b"{\"cmd\":\"start\"}\n{\"cmd\":\"size\"}\n",
    b"{\"cmd\":\"undo\"}",
];

const SECOND: &[&[u8]] = &[
    b"{\"cmd\":\"insert\",\"row\":{\"owner\":\"b\",\"balance\":2,\"vip\":false}}\n",
    b"{\"cmd\":\"start\"}\n",
];

const FIRST_REPLIES: &[u8] =
    b"{\"id\":0,\"ok\":true}\n{\"ok\":true,\"revision\":1}\n{\"ok\":true,\"size\":2}\n{\"ok\":true,\"revision\":0}\n";

const SECOND_REPLIES: &[u8] = b"{\"id\":1,\"ok\":true}\n{\"error\":\"busy\",\"ok\":false}\n";

const ROWS: [Row; 3] = [
    Row {
        clients: "2",
        sound: true,
        want: [FIRST_REPLIES, SECOND_REPLIES],
        status: 0,
        errors: b"",
    },
    Row {
        clients: "2",
        sound: false,
        want: [FIRST_REPLIES, SECOND_REPLIES],
        status: 4,
        errors: b"fault: read\n",
    },
    Row {
        clients: "3",
        sound: true,
        want: [b"", b""],
        status: 4,
        errors: b"fault: accept\n",
    },
];

/// The status of a run with these words, and what it writes on the output and on the third stream. Its input fails where it ends.
fn ran<R: Files + AllocGlobal + RandomSource>(
    below: &R,
    host: &Host<'_, R>,
    words: &[&str],
) -> (u8, Vec<u8>, Vec<u8>) {
    let input = Pieces {
        left: b"{\"cmd\":\"size\"}\n",
        size: 4096,
        sound: false,
    };
    let mut output = Vec::new(below.alloc());
    let (status, errors) = ran_over(host, below.alloc(), words, input, &mut output);
    (status, output, errors)
}

/// A run at port 8000 ends so, and each client gets its own replies and nothing else. It listens at 127.0.0.1 and no other address, and neither
/// reads the input nor writes the output.
fn check_row<R: Files + AllocGlobal + RandomSource>(rt: &impl Abort, below: &R, row: &Row) {
    let visits = [
        Visit::new(FIRST, true, row.want[0]),
        Visit::new(SECOND, row.sound, row.want[1]),
    ];
    let host = Host::new(below, &visits);
    check_run(rt, below, &host, row);
    assert_eq!(rt;
        host.address.get(),
        Some(SocketAddr::from((Ipv4Addr::LOCALHOST, 8000)))
    );
    assert!(rt; visits[0].is_answered() && visits[1].is_answered());
}

/// The status of a run, and what it says on the third stream.
fn check_run<R: Files + AllocGlobal + RandomSource>(
    rt: &impl Abort,
    below: &R,
    host: &Host<'_, R>,
    row: &Row,
) {
    let words = ["mi_server", "--listen", "8000", "--clients", row.clients];
    let (status, output, errors) = ran(below, host, &words);
    assert_eq!(rt; status, row.status);
    assert_eq!(rt; errors.as_slice(), row.errors);
    assert!(rt; output.is_empty());
}

#[test]
fn ports_are_served(rt: HostRuntime) {
    for row in &ROWS {
        check_row(&rt, &rt, row);
    }
}
