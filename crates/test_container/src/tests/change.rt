//! Random changes of a table with every kind of index, of keys from few values.
use mi_random::Random;
use mi_value::{Edit, Record, Refusal, Text, Value};
use std::alloc::{AllocError, Global};

/// A table with every kind of index, unique and not, keys of several parts, and parts that descend. It takes few more rows than it
/// mostly has.
pub(super) const TABLE: &str = r#"table = "t"
max_rows = 60
column = [{name = "k", type = "int"}, {name = "s", type = "text"}, {name = "f", type = "flag"}, {name = "n", type = "int"}]
index = [
    {name = "i1", kind = "hashed", unique = true, key = ["k", "s"]},
    {name = "i2", kind = "hashed", key = ["f", "s"]},
    {name = "i3", kind = "ordered", unique = true, key = ["-n", "k"]},
    {name = "i4", kind = "ordered", key = ["-f", "s"]},
    {name = "i5", kind = "ranked", unique = true, key = ["s", "-n", "f"]},
    {name = "i6", kind = "ranked", key = ["n"]},
    {name = "i7", kind = "sequenced"},
    {name = "i8", kind = "sequenced"},
]
"#;

/// The columns of that table.
const K: usize = 0;

const S: usize = 1;

const F: usize = 2;

const N: usize = 3;

/// Its sequenced indexes.
const LINES: [usize; 2] = [7, 8];

/// The texts of the column `s`.
const TEXTS: [&str; 6] = ["", "a", "ab", "b", "\u{e9}", "\u{1f600}"];

/// A change of one record.
#[derive(Debug, Drop)]
pub(super) enum Change {
    Insert(Record, Option<(usize, u64)>),
    Replace(u64, Record),
    Modify(u64, Vec<Edit>, bool),
    Erase(u64),
    Relocate(usize, u64, Option<u64>),
}

/// What a change answers: the id of a new record, else nothing, or why it is refused.
pub(super) type Answer = Result<Option<u64>, Refusal>;

/// A walk along an index, in reverse or not, from a record on: so many rows at most.
#[derive(Clone, Copy)]
pub(super) struct Way {
    pub(super) index: usize,
    pub(super) reverse: bool,
    pub(super) first: u64,
    pub(super) limit: usize,
}

/// Records with their ids.
pub(super) type Rows<'a> = Vec<(u64, &'a Record)>;

fn number(random: &mut Random) -> Value {
    Value::Int(random.below(60).cast_signed())
}

fn text(alloc: Global, random: &mut Random) -> Result<Value, AllocError> {
    let at = random.below(TEXTS.len() as u64) as usize;
    let text = TEXTS.get(at).copied().unwrap_or("");
    Ok(Value::Text(Text::of(alloc, text)?))
}

fn flag(random: &mut Random) -> Value {
    Value::Flag(random.is_one_in(2))
}

fn sum(random: &mut Random) -> i64 {
    random.below(30).cast_signed().saturating_sub(9)
}

fn line(random: &mut Random) -> usize {
    let at = random.below(LINES.len() as u64) as usize;
    LINES.get(at).copied().unwrap_or(0)
}

fn record(alloc: Global, random: &mut Random) -> Result<Record, AllocError> {
    let k = number(random);
    let s = text(alloc, random)?;
    let f = flag(random);
    let n = Value::Int(sum(random));
    Record::new(alloc, &[k.lend(), s.lend(), f.lend(), n.lend()])
}

/// Edits of no column, of one or of three; a sum may leave the numbers.
fn edits(alloc: Global, random: &mut Random) -> Result<Vec<Edit>, AllocError> {
    Ok(match random.below(8) {
        0 | 1 => vec![in alloc; Edit::Put(K, number(random))]?,
        2 | 3 => {
            let s = text(alloc, random)?;
            vec![in alloc;
                Edit::Add(N, sum(random)),
                Edit::Put(S, s),
                Edit::Put(F, flag(random)),
            ]?
        }
        4 | 5 => vec![in alloc; Edit::Add(N, sum(random))]?,
        6 => vec![in alloc; Edit::Add(N, i64::MAX)]?,
        _ => Vec::new(alloc),
    })
}

impl Change {
    /// A change of the record of an id, or of a new one; another id is that of a place.
    pub(super) fn random(
        alloc: Global,
        random: &mut Random,
        id: u64,
        other: u64,
    ) -> Result<Change, AllocError> {
        match random.below(16) {
            0..5 => Ok(Change::Insert(record(alloc, random)?, None)),
            5 | 6 => {
                let place = (line(random), other);
                Ok(Change::Insert(record(alloc, random)?, Some(place)))
            }
            7 | 8 => Ok(Change::Replace(id, record(alloc, random)?)),
            9..12 => Ok(Change::Modify(id, edits(alloc, random)?, random.is_one_in(2))),
            12 | 13 => Ok(Change::Erase(id)),
            14 => Ok(Change::Relocate(line(random), id, Some(other))),
            _ => Ok(Change::Relocate(line(random), id, None)),
        }
    }
}
