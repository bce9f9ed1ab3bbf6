//! Lines with one thing wrong at random, the same for the same seed, to both forms of the database.
use super::beside::{Both, Lines, check_beside};
use super::databases::Opens;
use super::random::{CHANGES, READS, Random};
use std::alloc::{AllocError, Global};
use std::process::Abort;

/// Bytes that come to stand where they don't belong: no UTF-8, or a part of it; escapes; signs of JSON; spaces and controls.
const BYTES: [&[u8]; 26] = [
    b"\xff",
    b"\xc3",
    b"\xf0\x9f\x98",
    b"\x80",
    b"\xc0\xaf",
    b"\xed\xa0\x80",
    b"\xf4\x90\x80\x80",
    b"\xef\xbb\xbf",
    b"\\",
    b"\\u",
    b"\\ud800",
    b"\\ud800\\u0041",
    b"\\u0061",
    b"\\x",
    b"\"",
    b"{",
    b"}",
    b"[",
    b"]",
    b",",
    b":",
    b"0",
    b"\0",
    b"\r",
    b"\t",
    b" ",
];

/// Values that come in the place of others: of every type, and numbers at the limits and in every form.
const VALUES: [&[u8]; 26] = [
    b"null",
    b"true",
    b"\"\"",
    b"\"a\"",
    b"\"id\"",
    b"\"i1\"",
    b"{}",
    b"[]",
    b"[0]",
    b"{\"ge\":[0]}",
    b"-0",
    b"-1",
    b"00",
    b"1.0",
    b"1.5",
    b"1e3",
    b"1e400",
    b"1E-400",
    b"1000",
    b"1001",
    b"9223372036854775807",
    b"9223372036854775808",
    b"-9223372036854775808",
    b"-9223372036854775809",
    b"18446744073709551616",
    b"123456789012345678901234567890",
];

/// How deep a value comes to stand in brackets.
const DEPTHS: [usize; 5] = [1, 2, 120, 127, 200];

/// How long a text comes to be.
const LENGTHS: [usize; 2] = [1_024, 1_025];

/// How long a line comes to be.
const LINES: [usize; 2] = [65_536, 65_537];

/// One of these.
fn one_of<T: Copy>(random: &mut Random, values: &[T], other: T) -> T {
    let at = random.below(values.len() as u64) as usize;
    values.get(at).copied().unwrap_or(other)
}

/// The line with other bytes from one place to another.
fn replaced(
    alloc: Global,
    line: &[u8],
    from: usize,
    to: usize,
    with: &[u8],
) -> Result<Vec<u8>, AllocError> {
    let front = between(line, 0, from);
    let back = between(line, to, line.len());
    [front, with, back].concat(alloc)
}

/// The bytes from one place to another.
fn between(line: &[u8], from: usize, to: usize) -> &[u8] {
    let (front, _) = line.split_at(to.min(line.len()));
    let (_, back) = front.split_at(from.min(front.len()));
    back
}

/// The place behind one of these bytes, or the end where the line has none.
fn behind(random: &mut Random, line: &[u8], of: &[u8]) -> usize {
    let count = line.iter().filter(|byte| of.contains(*byte)).count();
    let mut left = random.below(count as u64);
    for (at, byte) in line.iter().enumerate() {
        if of.contains(byte) {
            match left.checked_sub(1) {
                Some(less) => left = less,
                None => return at.saturating_add(1),
            }
        }
    }
    line.len()
}

/// The first place from this one on at which one of these bytes stands, or the end.
fn next_of(line: &[u8], from: usize, of: &[u8]) -> usize {
    for (at, byte) in line.iter().enumerate() {
        if at >= from && of.contains(byte) {
            return at;
        }
    }
    line.len()
}

/// Where the value ends that begins here.
fn value_end(line: &[u8], from: usize) -> usize {
    let inner = from.saturating_add(1);
    match line.get(from) {
        Some(b'"') => next_of(line, inner, b"\"").saturating_add(1),
        Some(b'[') => next_of(line, inner, b"]").saturating_add(1),
        Some(b'{') => next_of(line, inner, b"}").saturating_add(1),
        _ => next_of(line, from, b",}]"),
    }
}

/// So many of a byte.
fn repeated(alloc: Global, byte: u8, count: usize) -> Result<Vec<u8>, AllocError> {
    vec![in alloc; byte; count]
}

/// A value so deep in brackets.
fn bracketed(alloc: Global, value: &[u8], depth: usize) -> Result<Vec<u8>, AllocError> {
    let before = repeated(alloc, b'[', depth)?;
    let behind = repeated(alloc, b']', depth)?;
    [before.as_slice(), value, behind.as_slice()].concat(alloc)
}

/// A text so long.
fn text(alloc: Global, length: usize) -> Result<Vec<u8>, AllocError> {
    let mut text = repeated(alloc, b'"', 1)?;
    text.extend_from_slice(repeated(alloc, b'a', length)?.as_slice())?;
    text.push(b'"')?;
    Ok(text)
}

/// A value of any type, a text as long as can be or longer, or this value deep in brackets.
fn other_value(alloc: Global, random: &mut Random, value: &[u8]) -> Result<Vec<u8>, AllocError> {
    match random.below(6) {
        0 => bracketed(alloc, value, one_of(random, &DEPTHS, 0)),
        1 => text(alloc, one_of(random, &LENGTHS, 0)),
        _ => one_of(random, &VALUES, b"").to_vec(alloc),
    }
}

/// Another value in the place of one.
fn with_value(alloc: Global, random: &mut Random, line: &[u8]) -> Result<Vec<u8>, AllocError> {
    let from = behind(random, line, b":[");
    let to = value_end(line, from);
    let value = other_value(alloc, random, between(line, from, to))?;
    replaced(alloc, line, from, to, value.as_slice())
}

/// A member left out, twice there, or behind the next one.
fn with_members(alloc: Global, random: &mut Random, line: &[u8]) -> Result<Vec<u8>, AllocError> {
    let from = behind(random, line, b"{,");
    let to = next_of(line, from, b",}");
    let member = between(line, from, to);
    let next = to.saturating_add(1);
    match random.below(3) {
        0 => replaced(alloc, line, from, next, b""),
        1 => with_both(alloc, line, member, from, from, b""),
        _ => {
            let end = next_of(line, next, b",}");
            with_both(alloc, line, between(line, next, end), from, end, member)
        }
    }
}

/// The line with a member, a comma and another member from one place to another.
fn with_both(
    alloc: Global,
    line: &[u8],
    member: &[u8],
    from: usize,
    to: usize,
    other: &[u8],
) -> Result<Vec<u8>, AllocError> {
    let both = [member, b",", other].concat(alloc)?;
    replaced(alloc, line, from, to, both.as_slice())
}

/// The line as long as can be by spaces, or longer by one.
fn padded(alloc: Global, random: &mut Random, line: &[u8]) -> Result<Vec<u8>, AllocError> {
    let length = one_of(random, &LINES, 0);
    let spaces = repeated(alloc, b' ', length.saturating_sub(line.len()))?;
    [line, spaces.as_slice()].concat(alloc)
}

/// Any byte but a newline.
fn one_byte(random: &mut Random) -> u8 {
    let byte = (random.below(256) & 0xff) as u8;
    if byte == b'\n' { b'\r' } else { byte }
}

/// The line with another byte at a place, cut off there, without its byte, or with bytes that don't belong before it.
fn with_bytes(
    alloc: Global,
    random: &mut Random,
    line: &[u8],
    at: usize,
    kind: u64,
) -> Result<Vec<u8>, AllocError> {
    let next = at.saturating_add(1);
    match kind {
        0..10 => replaced(alloc, line, at, next, &[one_byte(random)]),
        10..20 => replaced(alloc, line, at, line.len(), b""),
        20..30 => replaced(alloc, line, at, next, b""),
        _ => replaced(alloc, line, at, at, one_of(random, &BYTES, b"")),
    }
}

/// The line with one thing wrong or odd; neither has a newline at its end.
fn damaged(alloc: Global, random: &mut Random, line: &[u8]) -> Result<Vec<u8>, AllocError> {
    let at = random.below(line.len() as u64) as usize;
    let kind = random.below(100);
    match kind {
        0..45 => with_bytes(alloc, random, line, at, kind),
        45..75 => with_value(alloc, random, line),
        75..99 => with_members(alloc, random, line),
        _ => padded(alloc, random, line),
    }
}

/// A random line, and a newline.
fn line(alloc: Global, random: &mut Random) -> Result<String, AllocError> {
    if random.below(3) == 0 {
        random.line(alloc, &READS)
    } else {
        random.line(alloc, &CHANGES)
    }
}

/// A random line with one thing wrong or odd, and a newline.
fn damaged_line(alloc: Global, random: &mut Random) -> Result<Vec<u8>, AllocError> {
    let line = line(alloc, random)?;
    let text = line.as_bytes().strip_suffix(b"\n").unwrap_or(b"");
    let mut bytes = damaged(alloc, random, text)?;
    bytes.push(b'\n')?;
    Ok(bytes)
}

/// What replies to such lines have in them.
const WORDS: [&str; 9] = [
    "\"ok\":true",
    "\"error\":\"line\"",
    "\"error\":\"json\"",
    "\"error\":\"form\"",
    "\"error\":\"table\"",
    "\"error\":\"index\"",
    "\"error\":\"kind\"",
    "\"error\":\"row\"",
    "\"error\":\"key\"",
];

/// Notes which words a reply has.
fn note_words(heard: &mut [bool; 9], reply: &str) {
    for at in 0..9 {
        if reply.contains(WORDS[at]) {
            heard[at] = true;
        }
    }
}

/// Each word was among the replies.
fn check_heard(rt: &impl Abort, heard: &[bool; 9]) {
    for at in 0..9 {
        assert!(rt; heard[at], "no reply has {}", WORDS[at]);
    }
}

/// Both forms answer a whole line alike.
fn ask_whole<A: Opens, B: Opens>(
    rt: &impl Abort,
    alloc: Global,
    both: &mut Both<A, B>,
    random: &mut Random,
) {
    let line = line(alloc, random).expect(rt, "memory is there");
    let reply = both.ask(rt, alloc, line.as_str());
    random.hear(reply.as_str());
}

/// Both forms answer a damaged line alike, with at most one line.
fn ask_damaged<A: Opens, B: Opens>(
    rt: &impl Abort,
    alloc: Global,
    both: &mut Both<A, B>,
    random: &mut Random,
) -> String {
    let bytes = damaged_line(alloc, random).expect(rt, "memory is there");
    let reply = both.ask_bytes(rt, alloc, bytes.as_slice());
    check_one_line(rt, bytes.as_slice(), reply.as_str());
    random.hear(reply.as_str());
    reply
}

/// A reply to a line has at most one line.
fn check_one_line(rt: &impl Abort, line: &[u8], reply: &str) {
    let ends = match reply.split_once('\n') {
        Some((_, behind)) => behind.is_empty(),
        None => true,
    };
    assert!(rt; ends, "to {line:?}: {reply}");
}

/// Both forms answer so many damaged lines alike. Each fourth line or so is whole, so that there are records and sessions to speak of.
/// Each word is among the replies to damaged lines.
pub(super) fn ask_damaged_lines<A: Opens, B: Opens>(
    rt: &impl Abort,
    alloc: Global,
    both: &mut Both<A, B>,
    seed: u64,
    steps: u64,
) {
    let mut random = Random::new(alloc, seed);
    let mut heard = [false; 9];
    for step in 0..steps {
        if step % 100 == 0 {
            both.look(rt, alloc, &mut random);
        }
        if random.below(3) == 0 {
            ask_whole(rt, alloc, both, &mut random);
        }
        let reply = ask_damaged(rt, alloc, both, &mut random);
        note_words(&mut heard, reply.as_str());
    }
    check_heard(rt, &heard);
}

#[test]
fn both_forms_answer_damaged_lines_alike(rt: HostRuntime) {
    for seed in 11..13 {
        check_beside(&rt, rt.alloc(), Lines::Damaged, seed);
    }
}

#[test]
fn both_forms_answer_damaged_lines_alike_by_more_seeds(rt: HostRuntime) {
    for seed in 13..16 {
        check_beside(&rt, rt.alloc(), Lines::Damaged, seed);
    }
}
