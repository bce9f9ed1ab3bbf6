//! Where a replay stands among a journal's segments, and where it begins. It opens no file.
ghost use Rattle.std.specs.Prelude.{◌≡◌, IfOk};
ghost use Rattle.std.specs.String.{string_bytes};
ghost use Rattle.mi_log.specs.Header.{header_of};
ghost use Rattle.mi_recovery.specs.Segments.{segment_front, segment_header_of};

use mi_log::header_line;
use std::alloc::{AllocError, Global};

/// What tells the schema of a journal in each segment's header.
#[derive(Drop)]
pub struct JournalSchema {
    /// The revision that its database opens with.
    pub revision: u64,
    /// The schema's fingerprint, 64 hexadecimal digits.
    pub hash: String,
}

/// Behind which line of a journal a base stands.
#[derive(Drop)]
pub struct Position {
    /// The number of the segment, from 1.
    pub segment: u64,
    /// How many lines behind that segment's header the base has.
    pub line: u64,
    /// The SHA-256 of that header without its newline, 64 hexadecimal digits.
    pub sum: String,
}

/// Where a replay stands: in front of a segment, whose header is to be this one, and of whose lines it passes over some.
#[derive(Drop)]
pub struct Place {
    /// The number of the segment, from 1.
    pub number: u64,
    /// Its header, without the newline.
    pub header: String,
    /// How many lines behind the header aren't asked.
    pub skip: u64,
}

/// What stands in front of the schema in the header of a segment behind the first.
fn header_front(alloc: Global, previous: &str, revision: u64) -> Result<String, AllocError>
    ensures { IfOk result (λ line. string_bytes line ≡ segment_front previous.now revision) }
{
    let number = revision.to_string(alloc)?;
    let mut line = String::from_str(alloc, "{\"journal\":2,\"previous\":\"")?;
    line.push_str(previous)?;
    line.push_str("\",\"revision\":")?;
    line.push_str(number.as_str())?;
    Ok(line)
}

/// The header of a segment behind the first, without its newline: the format, 2, the SHA-256 of the segment in front of it, the revision and
/// the hash of the schema, and its number. Both hashes are hexadecimal digits.
pub fn segment_header(
    alloc: Global,
    previous: &str,
    schema: &JournalSchema,
    number: u64,
) -> Result<String, AllocError>
    ensures { IfOk result (λ line. string_bytes line ≡ segment_header_of previous.now schema.now.revision (string_bytes schema.now.hash) number) }
{
    let digits = number.to_string(alloc)?;
    let mut line = header_front(alloc, previous, schema.revision)?;
    line.push_str(",\"schema\":\"")?;
    line.push_str(schema.hash.as_str())?;
    line.push_str("\",\"segment\":")?;
    line.push_str(digits.as_str())?;
    line.push_str("}")?;
    Ok(line)
}

/// In front of the first segment.
pub fn first_place(alloc: Global, schema: &JournalSchema) -> Result<Place, AllocError>
    ensures number { IfOk result (λ place. place.number ≡ 1) }
    ensures header { IfOk result (λ place. string_bytes place.header ≡ header_of schema.now.revision (string_bytes schema.now.hash)) }
    ensures skip { IfOk result (λ place. place.skip ≡ 0) }
{
    let header = header_line(alloc, schema.revision, schema.hash.as_str())?;
    Ok(Place {
        number: 1,
        header,
        skip: 0,
    })
}
