//! A log over a device that fails, over a file, and lines out of bytes.
ghost use Rattle.std.specs.Prelude.{◌<◌, length};

use mi_log::{Device, DeviceLog, Log, LogLines, MemoryDevice, PlacedFile, RoomFile, header_line};
use std::alloc::{AllocError, Global};
use std::cell::Cell;
use std::fs::{File, OpenOptions};
use std::io::{Error, ErrorKind};
use std::process::Abort;
use std::test::Fail;
use std::{fs, io, process};

/// Asserts what is said.
fn check(rt: &impl Abort, holds: bool, what: &str) {
    assert!(rt; holds, "{what}");
}

fn check_bytes(rt: &impl Abort, got: &[u8], want: &[u8]) {
    assert!(rt; got == want, "{got:?} for {want:?}");
}

/// Whether a line is appended and synced.
fn is_synced<D: Device>(log: &mut DeviceLog<D>, line: &[u8]) -> bool
    requires { 0 < length line.now }
{
    log.append(line).is_ok() && log.sync().is_ok()
}

/// What is kept of two lines where so many calls of the device don't fail.
fn kept_after(calls: u64) -> &'static [u8] {
    match calls {
        0 | 1 => b"",
        2..5 => b"ab\n",
        _ => b"ab\ncdef\n",
    }
}

/// What is written of them.
fn written_after(calls: u64) -> &'static [u8] {
    match calls {
        0 => b"",
        1 | 2 => b"ab\n",
        3 => b"ab\ncde",
        _ => b"ab\ncdef\n",
    }
}

fn fail_after(rt: &impl Abort, alloc: Global, calls: u64) {
    let mut log = DeviceLog::new(MemoryDevice::new(alloc, calls, 3), None);
    check(rt, is_synced(&mut log, b"ab\n") == (calls >= 2), "one line");
    check(rt, is_synced(&mut log, b"cdef\n") == (calls >= 5), "two");
    check_bytes(rt, log.device().kept(), kept_after(calls));
    check_bytes(rt, log.device().bytes(), written_after(calls));
}

/// Two lines by writes of at most three bytes, each synced: a call of the device fails, for each in turn, and those behind it.
#[test]
fn fails_at_each_call(rt: HostRuntime) {
    for calls in 0..6 {
        fail_after(&rt, rt.alloc(), calls);
    }
}

/// A log over a new file of this path, of which three bytes are kept.
fn file_log(host: &HostRuntime, path: &str) -> io::Result<DeviceLog<RoomFile<File>>> {
    fs::write(host, path, "ab\ntorn")?;
    let file = OpenOptions::new().write(true).open(host, path)?;
    let mut device = RoomFile::new(file, 7);
    device.cut(3)?;
    Ok(DeviceLog::new(device, Some(7)))
}

/// Whether a log has so many bytes, and says that so many of them stay.
fn has_synced(log: &DeviceLog<RoomFile<File>>, bytes: u64, synced: u64) -> bool {
    let state = log.state();
    state.bytes == Some(bytes) && state.synced == Some(synced)
}

/// Whether a log says which segment it is, and that the room is there that was made before four bytes of it were taken: whole pieces for 100 bytes
/// and 1 MiB.
fn tells_room(log: &DeviceLog<RoomFile<File>>) -> bool {
    let state = log.state();
    state.segment == Some(7) && state.room == 65 * 16_384 - 4
}

/// Appends a line to it, and one more in room that is made. Answers what the file has after each.
fn append_two(rt: &impl Abort, host: &HostRuntime, path: &str) -> io::Result<(Vec<u8>, Vec<u8>)> {
    let mut log = file_log(host, path)?;
    check(rt, is_synced(&mut log, b"cd\n"), "one line");
    check(rt, has_synced(&log, 6, 6), "all stay");
    let first = fs::read(host, path)?;
    let is_appended = log.make_room(100) && log.append(b"efg\n").is_ok();
    check(rt, is_appended, "one in its room");
    check(rt, has_synced(&log, 10, 6), "one doesn't stay yet");
    check(rt, tells_room(&log), "its room and its number");
    Ok((first, fs::read(host, path)?))
}

fn assert_room(rt: &impl Abort, text: &[u8]) {
    check(rt, text.len() >= 1_048_576 + 106, "room");
    check(rt, text.starts_with(b"ab\ncd\nefg\n\0"), "both lines");
    check(rt, text.ends_with(b"\0"), "nothing behind the room");
}

/// What is appended stands behind what is kept of the file, and room behind that.
#[test]
fn a_file_is_appended_to(rt: HostRuntime) -> Result<(), Fail> {
    let path = format!(in rt.alloc(); "/tmp/mi_log-{}", process::id(rt.process()))?;
    let (first, text) = append_two(&rt, &rt, path.as_str())?;
    fs::remove_file(&rt, path.as_str())?;
    check_bytes(&rt, first.as_slice(), b"ab\ncd\n");
    assert_room(&rt, text.as_slice());
    Ok(())
}

/// A file on a disk that has room for so many bytes of it.
#[derive(Drop)]
struct SmallDisk<'a> {
    alloc: Global,
    bytes: &'a Cell<Vec<u8>>,
    most: usize,
}

impl<'a> PlacedFile for SmallDisk<'a> {
    fn write_at(&mut self, bytes: &[u8], at: u64) -> io::Result<usize> {
        let mut all = self.bytes.replace(Vec::new(self.alloc));
        let count = bytes.len().min(self.most.saturating_sub(at as usize));
        let (front, _) = bytes.split_at(count);
        let over = all.len().saturating_sub(at as usize).min(count);
        let (old, new) = front.split_at(over);
        let place = (at as usize).min(all.len());
        all.as_mut_slice()[place..place + over].copy_from_slice(old);
        let added = all.extend_from_slice(new);
        self.bytes.set(all);
        if count == 0 || added.is_err() {
            return Err(Error::from(ErrorKind::StorageFull));
        }
        Ok(count)
    }

    fn set_len(&mut self, _size: u64) -> io::Result<()> {
        Err(Error::from(ErrorKind::Unsupported))
    }

    fn sync_data(&mut self) -> io::Result<()> {
        Ok(())
    }
}

/// Appends a line, and asserts that there is room for so many bytes behind it and no more.
fn fill_room<D: Device>(rt: &impl Abort, log: &mut DeviceLog<D>, line: &[u8], most: u64)
    requires { 0 < length line.now }
{
    check(rt, log.append(line).is_ok(), "a line");
    check(rt, log.make_room(most), "room");
    check(rt, !log.make_room(most.saturating_add(1)), "no room");
}

/// As much room is made as the disk has, none is told that isn't there, and what has room is written.
#[test]
fn a_small_disk(rt: HostRuntime) {
    let bytes = Cell::new(Vec::new(rt.alloc()));
    let disk = SmallDisk {
        alloc: rt.alloc(),
        bytes: &bytes,
        most: 20_000,
    };
    let mut log = DeviceLog::new(RoomFile::new(disk, 0), None);
    fill_room(&rt, &mut log, b"ab\n", 19_997);
    fill_room(&rt, &mut log, b"cd\n", 19_994);
    let text = bytes.replace(Vec::new(rt.alloc()));
    check(&rt, text.len() == 20_000, "all that the disk has");
    check(&rt, text.starts_with(b"ab\ncd\n\0"), "both lines");
}

/// Asserts what is read next, and whether it is a line.
fn assert_line(rt: &impl Abort, lines: &mut LogLines<&[u8]>, found: bool, want: &[u8]) {
    let is_line = lines.advance().expect(rt, "memory is there");
    check(rt, is_line == found, "a line");
    check_bytes(rt, lines.line(), want);
}

/// A line, an empty one, one with a carriage return, and a torn one.
#[test]
fn lines_and_a_torn_one(rt: HostRuntime) {
    let bytes: &[u8] = b"ab\n\nc\r\nde";
    let mut lines = LogLines::new(rt.alloc(), bytes);
    assert_line(&rt, &mut lines, true, b"ab\n");
    assert_line(&rt, &mut lines, true, b"\n");
    assert_line(&rt, &mut lines, true, b"c\r\n");
    assert_line(&rt, &mut lines, false, b"de");
    assert_line(&rt, &mut lines, false, b"");
}

#[test]
fn a_header(rt: HostRuntime) -> Result<(), AllocError> {
    let line = header_line(rt.alloc(), 7, "5ad0")?;
    let want = b"{\"journal\":1,\"revision\":7,\"schema\":\"5ad0\"}";
    check_bytes(&rt, line.as_str().as_bytes(), want);
    Ok(())
}
