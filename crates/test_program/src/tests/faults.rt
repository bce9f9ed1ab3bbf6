//! Devices that fail in the middle: what was executed, what was written, and the status.
ghost use Rattle.std.specs.Prelude.{◌≡◌, [], IsSome};
ghost use Rattle.mi_hub.specs.Connections.{rest_at};

use super::devices::{AtEnd, Narrow, Pieces};
use super::serving::{Opens, assert_attach, assert_idle, attach_first, ended, opened};
use mi_hub::{Hub, HubFault, ServeFault, Watched, serve_stream};
use mi_plain::Plain;
use std::alloc::Global;
use std::process::Abort;

const TWO_STARTS: &[u8] = b"{\"cmd\":\"start\"}\n{\"cmd\":\"start\"}\n";

/// Serves connection 1 two lines that start a session each, with a writer that fails or takes nothing once its room is used up.
/// Answers what serving answered, whether the reader has failed, and the writer.
fn serve_narrowly<D: Opens>(
    alloc: Global,
    hub: &mut Hub<D>,
    step: usize,
    at_end: AtEnd,
) -> (Result<(), ServeFault>, bool, Watched<Narrow>)
    requires { IsSome (rest_at 1 hub.old.attached) }
{
    let mut reader = Watched::new(Pieces {
        left: TWO_STARTS,
        size: 4096,
        sound: true,
    });
    let mut writer = Watched::new(Narrow {
        taken: Vec::new(alloc),
        step,
        room: 10,
        at_end,
    });
    let served = serve_stream(hub, 1, &mut reader, &mut writer);
    (served, reader.failed(), writer)
}

/// Connection 1 comes before any other, and can't come again.
fn attach_once<D: Opens>(rt: &impl Abort, hub: &mut Hub<D>)
    requires { hub.old.attached ≡ [] }
    ensures { IsSome (rest_at 1 hub.new.attached) }
{
    attach_first(rt, hub);
    assert_eq!(rt; hub.attach(1), Err(HubFault::AlreadyAttached));
}

/// The writer has failed, and took ten bytes.
fn assert_narrow(rt: &impl Abort, writer: &Watched<Narrow>) {
    assert!(rt; writer.failed());
    assert_eq!(rt; writer.inner().taken.as_slice(), b"{\"ok\":true".as_slice());
}

/// A connection whose writer takes ten bytes is cut, and can come again.
fn check_write<D: Opens>(rt: &impl Abort, alloc: Global, step: usize, at_end: AtEnd) {
    let mut hub = opened::<D>(rt, alloc);
    attach_once(rt, &mut hub);
    let (served, reader_failed, writer) = serve_narrowly(alloc, &mut hub, step, at_end);
    assert_eq!(rt; served, Err(ServeFault::Write));
    assert!(rt; !reader_failed);
    assert_narrow(rt, &writer);
    assert_idle(rt, hub.database());
    assert_attach(rt, &mut hub, 1, Ok(()));
}

/// A writer that fails, and one that takes nothing.
fn check_writes<D: Opens>(rt: &impl Abort, alloc: Global) {
    check_write::<D>(rt, alloc, 64, AtEnd::Fail);
    check_write::<D>(rt, alloc, 1, AtEnd::TakeNone);
}

/// A write that fails or takes nothing cuts the connection: its line was executed and the later ones not, and what it held is
/// undone.
#[test]
fn failing_write(rt: HostRuntime) {
    check_writes::<Plain>(&rt, rt.alloc());
}

/// A read that fails ends the program, and what was read before it is answered; so does a last flush that fails.
#[test]
fn failing_streams(rt: HostRuntime) {
    check_read(&rt, &rt);
    check_flush(&rt, &rt, &["mi_server"]);
    check_flush(&rt, &rt, &["mi_server", "--check"]);
}

/// A read fails in the middle of the second line.
fn check_read(rt: &impl Abort, host: &HostRuntime) {
    let mut out = Vec::new(host.alloc());
    let input = Pieces {
        left: b"{\"cmd\":\"start\"}\n{\"cmd\":\"st",
        size: 7,
        sound: false,
    };
    let (status, errors) = ended(host, &["mi_server"], input, &mut out);
    assert_ended(rt, status, errors.as_slice(), b"fault: read\n");
    assert_eq!(rt;
        out.as_slice(),
        b"{\"ok\":true,\"revision\":1}\n".as_slice()
    );
}

/// The output of the program with these words takes nothing.
fn check_flush(rt: &impl Abort, host: &HostRuntime, words: &[&str]) {
    let input = Pieces {
        left: TWO_STARTS,
        size: 4096,
        sound: true,
    };
    let output = Narrow {
        taken: Vec::new(host.alloc()),
        step: 64,
        room: 0,
        at_end: AtEnd::Fail,
    };
    let (status, errors) = ended(host, words, input, output);
    assert_ended(rt, status, errors.as_slice(), b"fault: write\n");
}

/// The program ended by a fault, with this line on the third stream.
fn assert_ended(rt: &impl Abort, status: u8, errors: &[u8], want: &[u8]) {
    assert_eq!(rt; status, 4);
    assert_eq!(rt; errors, want);
}
