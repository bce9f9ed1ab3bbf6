//! Records. A record is bytes: its values one behind another, each a tag and its content. They are decoded when they are asked for;
//! contracts see their list. Where the bytes lie is the matter of `bytes`.
ghost use Rattle.std.specs.Prelude.{◌≡◌, ◌<◌, ◌^◌, ◌++◌, ℕ, length, map, slice_set, Some, None, IfSome, MatchOption, OnOk};
ghost use Rattle.std.specs.Iterator.{YieldsFirstBy, item_count};
ghost use Rattle.std.specs.Option.{option_map};
ghost use Rattle.mi_value.specs.Lent.{lent};
ghost use Rattle.mi_value.specs.Edits.{add_to};
ghost use Rattle.mi_value.specs.Block.{int_at, text_at, value_at, unpacked, packed, packed_value, IsText, HasTexts, IsPackable, ArePackable, BeginsWith};
ghost use Rattle.mi_value.specs.Numbers.{ArePassed, IsNumberAt, IsFlagAt};
ghost use Rattle.mi_value.specs.Bytes.{short_bytes};
ghost use Rattle.mi_value.specs.declared.value.Value.{Value};
ghost use Rattle.mi_value.specs.declared.value.Value.TheVariants.{Int, Text, Flag};

use crate::bytes::{Bytes, Short, Sink};
use crate::refusal::Refusal;
use crate::value::{Value, ValueRef};
use std::alloc::{AllocError, Global};
use std::marker::Model;

/// What stands before a number, before a text and its length, for false, and for true.
const INT: u8 = 0;

const TEXT: u8 = 1;

const FALSE: u8 = 2;

const TRUE: u8 = 3;

/// A record, seen as the list of its values, one per column.
#[derive(Debug, Drop)]
pub struct Record {
    bytes: Bytes,
}

impl Model for Record {
    ghost use Rattle.std.specs.Prelude.{List};
    ghost use Rattle.mi_value.specs.declared.value.Value.{Value as ValueSpec};

    ghost Value = { List ValueSpec };

    ghost use Rattle.mi_value.specs.Block.{unpacked, HasTexts};
    ghost use Rattle.mi_value.specs.Bytes.{bytes_in};

    ghost view = { λ a. unpacked (bytes_in a.bytes) };

    ghost invariant = { λ a. HasTexts (unpacked (bytes_in a.bytes)) };
}

/// What comes of an edit that is made in a copy of a record's bytes.
#[derive(Drop)]
pub(crate) enum InPlace {
    /// This record.
    Done(Record),
    /// The sum leaves -2^63 to 2^63 - 1.
    Range,
    /// Nothing was tried.
    Undone,
}

/// The values of a record that are left, lent one after another.
#[derive(Debug, Drop)]
pub struct Values<'a> {
    bytes: &'a [u8],
}

impl<'a> Model for Values<'a> {
    ghost use Rattle.std.specs.Prelude.{List};
    ghost use Rattle.mi_value.specs.declared.value.Value.{Value as ValueSpec};

    ghost Value = { List ValueSpec };

    ghost use Rattle.mi_value.specs.Block.{unpacked, HasTexts};

    ghost view = { λ a. unpacked a.bytes.now };

    ghost invariant = { λ a. HasTexts (unpacked a.bytes.now) };
}

/// The number that these bytes begin with, and the bytes behind it.
fn split_int(bytes: &[u8]) -> Option<(i64, &[u8])>
    ensures { MatchOption result (int_at bytes.now ≡ None) (λ p. BeginsWith (int_at bytes.now) bytes.now (Int p.0) p.1.now) }
{
    let (number, rest) = bytes.split_first_chunk::<8>()?;
    Some((i64::from_le_bytes(*number), rest))
}

/// The bytes of the text that these bytes begin with, behind its length, and the bytes behind it.
fn split_text(bytes: &[u8]) -> Option<(&[u8], &[u8])>
    ensures { MatchOption result (text_at bytes.now ≡ None) (λ p. BeginsWith (text_at bytes.now) bytes.now (Text p.0.now) p.1.now) }
{
    let (length, rest) = bytes.split_first_chunk::<4>()?;
    rest.split_at_checked(u32::from_le_bytes(*length) as usize)
}

/// The value that these bytes begin with, behind its tag, and the bytes behind it.
fn split_value<'a>(tag: u8, bytes: &'a [u8]) -> Option<(ValueRef<'a>, &'a [u8])>
    requires { (v : Value) (n : ℕ) → value_at tag bytes.now ≡ Some (v, n) → IsText v }
    ensures { MatchOption result (value_at tag bytes.now ≡ None) (λ p. BeginsWith (value_at tag bytes.now) bytes.now (lent p.0) p.1.now) }
{
    match tag {
        INT => {
            let (n, rest) = split_int(bytes)?;
            Some((ValueRef::Int(n), rest))
        }
        TEXT => {
            let (text, rest) = split_text(bytes)?;
            Some((
                ValueRef::Text(unsafe { str::from_utf8_unchecked(text) }),
                rest,
            ))
        }
        FALSE | TRUE => Some((ValueRef::Flag(tag == TRUE), bytes)),
        _ => None,
    }
}

impl<'a> Iterator for Values<'a> {
    type Item = ValueRef<'a>;

    ghost next_gives = { YieldsFirstBy lent (λ s. s) };

    ghost remaining = { item_count (λ s. s) };

    fn next(&mut self) -> Option<ValueRef<'a>> {
        let (tag, content) = self.bytes.split_first()?;
        let (value, rest) = split_value(*tag, content)?;
        self.bytes = rest;
        Some(value)
    }
}

impl<'a> Values<'a> {
    ghost use Rattle.std.specs.Prelude.{◌≤◌};
    ghost use Rattle.mi_value.specs.Block.{texts_length};

    /// How many bytes hold the values that are left. Contracts know of it that the texts among them have no more bytes. It takes no longer
    /// for more of them.
    #[inline]
    pub fn byte_count(&self) -> usize
        ensures { texts_length self.now ≤ result }
    {
        self.bytes.len()
    }
}

/// The bytes behind the first value, if there is one.
fn pass(bytes: &[u8]) -> Option<&[u8]>
    requires { HasTexts (unpacked bytes.now) }
    ensures { IfSome result (λ rest. ArePassed 1 bytes.now rest.now) }
{
    let (tag, content) = bytes.split_first()?;
    let (_, rest) = split_value(*tag, content)?;
    Some(rest)
}

/// The bytes behind so many values, if there are as many.
fn behind(bytes: &[u8], column: usize) -> Option<&[u8]>
    requires { HasTexts (unpacked bytes.now) }
    ensures { IfSome result (λ left. ArePassed column bytes.now left.now) }
{
    let mut left = bytes;
    'columns: for _column in 0..column {
        left = pass(left)?;
    }
    Some(left)
}

/// A number in a record, and where its eight bytes begin.
#[derive(Clone, Copy)]
struct Number {
    value: i64,
    place: usize,
}

/// The number in a column, if it has one.
fn number_in(bytes: &[u8], column: usize) -> Option<Number>
    requires { HasTexts (unpacked bytes.now) }
    ensures { IfSome result (λ found. IsNumberAt bytes.now column found.value found.place) }
{
    let left = behind(bytes, column)?;
    let (tag, content) = left.split_first()?;
    if *tag != INT {
        return None;
    }
    let (value, _) = split_int(content)?;
    let place = bytes.len() - content.len();
    Some(Number { value, place })
}

/// Where the byte of a flag stands, if a column has one.
fn flag_in(bytes: &[u8], column: usize) -> Option<usize>
    requires { HasTexts (unpacked bytes.now) }
    ensures { IfSome result (λ place. IsFlagAt bytes.now column place) }
{
    let left = behind(bytes, column)?;
    let (tag, _) = left.split_first()?;
    if *tag != FALSE && *tag != TRUE {
        return None;
    }
    Some(bytes.len() - left.len())
}

/// The bytes with another number in a column, if it has one.
fn exchange_number(short: &Short, column: usize, n: i64) -> Option<Short>
    requires { HasTexts (unpacked (short_bytes short.now)) }
    ensures made { IfSome result (λ made. unpacked (short_bytes made) ≡ slice_set (unpacked (short_bytes short.now)) column (Int n)) }
    ensures texts { IfSome result (λ made. HasTexts (unpacked (short_bytes made))) }
{
    let number = number_in(short.as_slice(), column)?;
    Some(short.with_number(number.place, n))
}

/// The bytes with another flag in a column, if it has one.
fn exchange_flag(short: &Short, column: usize, flag: bool) -> Option<Short>
    requires { HasTexts (unpacked (short_bytes short.now)) }
    ensures made { IfSome result (λ made. unpacked (short_bytes made) ≡ slice_set (unpacked (short_bytes short.now)) column (Flag flag)) }
    ensures texts { IfSome result (λ made. HasTexts (unpacked (short_bytes made))) }
{
    let place = flag_in(short.as_slice(), column)?;
    Some(short.with_byte(place, if flag { TRUE } else { FALSE }))
}

/// The bytes with another value in a column that is as long: a number for one, or a flag.
fn exchange(short: &Short, column: usize, value: &Value) -> Option<Short>
    requires { HasTexts (unpacked (short_bytes short.now)) }
    ensures made { IfSome result (λ made. unpacked (short_bytes made) ≡ slice_set (unpacked (short_bytes short.now)) column value.now) }
    ensures texts { IfSome result (λ made. HasTexts (unpacked (short_bytes made))) }
{
    match value {
        Value::Int(n) => exchange_number(short, column, *n),
        Value::Flag(flag) => exchange_flag(short, column, *flag),
        Value::Text(_) => None,
    }
}

/// The sum of two numbers, unless it leaves -2^63 to 2^63 - 1.
pub(crate) fn sum(a: i64, b: i64) -> Option<i64>
    ensures { option_map Int result ≡ add_to (Some (Int a)) b }
{
    a.checked_add(b)
}

/// How many bytes a value takes in a record.
fn width(value: ValueRef<'_>) -> usize {
    match value {
        ValueRef::Int(_) => 9,
        ValueRef::Text(text) => text.len().saturating_add(5),
        ValueRef::Flag(_) => 1,
    }
}

/// How many bytes these values take, or the greatest number where it is greater.
fn room_for(values: &[ValueRef<'_>]) -> usize {
    let mut room = 0usize;
    for value in values {
        room = room.saturating_add(width(*value));
    }
    room
}

/// Puts a number behind what is there. On an error nothing is said of the bytes.
fn push_int<S: Sink>(bytes: &mut S, n: i64) -> Result<(), AllocError>
    ensures { OnOk result ((S.held bytes.new ≡ S.held bytes.old ++ packed_value (Int n)) × IsPackable (Int n)) }
{
    bytes.put(&[INT])?;
    bytes.put(&n.to_le_bytes())
}

/// Puts a text behind what is there. On an error nothing is said of the bytes.
fn push_text<S: Sink>(bytes: &mut S, text: &str) -> Result<(), AllocError>
    ensures { OnOk result ((S.held bytes.new ≡ S.held bytes.old ++ packed_value (Text text.now)) × IsPackable (Text text.now)) }
{
    let Ok(length) = u32::try_from(text.len()) else {
        return Err(AllocError);
    };
    bytes.put(&[TEXT])?;
    bytes.put(&length.to_le_bytes())?;
    bytes.put(text.as_bytes())
}

/// Puts a value behind those that are there. On an error nothing is said of the bytes.
fn push_value<S: Sink>(bytes: &mut S, value: ValueRef<'_>) -> Result<(), AllocError>
    ensures { OnOk result ((S.held bytes.new ≡ S.held bytes.old ++ packed_value (lent value.entry)) × IsPackable (lent value.entry)) }
{
    match value {
        ValueRef::Int(n) => push_int(bytes, n),
        ValueRef::Text(text) => push_text(bytes, text),
        ValueRef::Flag(false) => bytes.put(&[FALSE]),
        ValueRef::Flag(true) => bytes.put(&[TRUE]),
    }
}

/// Puts values behind what is there. On an error nothing is said of the bytes.
fn push_values<S: Sink>(bytes: &mut S, values: &[ValueRef<'_>]) -> Result<(), AllocError>
    ensures { OnOk result ((S.held bytes.new ≡ S.held bytes.old ++ packed (map lent values.now)) × ArePackable (map lent values.now)) }
{
    for value in values {
        push_value(bytes, *value)?;
    }
    Ok(())
}

impl Record {
    ghost use Rattle.std.specs.Prelude.{◌≡◌, ◌<◌, ◌^◌, length, map, option_map, slice_get, IfOk, IfErr};
    ghost use Rattle.mi_value.specs.Numbers.{IsMade};
    ghost use Rattle.mi_value.specs.declared.edit.Edit.TheVariants.{Put, Add};

    /// The record of these values. One of up to 46 bytes takes no memory, a longer one is one block. Answers `AllocError` where
    /// memory is refused, or where a text has 2^32 bytes or more.
    pub fn new(alloc: Global, values: &[ValueRef<'_>]) -> Result<Record, AllocError>
        ensures { IfOk result (λ made. made ≡ map lent values.now) }
    {
        let mut short = Short::new();
        if push_values(&mut short, values).is_ok() {
            return Ok(Record {
                bytes: Bytes::Short(short),
            });
        }
        let mut block = Vec::with_capacity(alloc, room_for(values))?;
        push_values(&mut block, values)?;
        Ok(Record {
            bytes: Bytes::Long(block),
        })
    }

    /// An equal record. Answers `Memory` where memory is refused, and nothing else.
    pub fn copy(&self, alloc: Global) -> Result<Record, Refusal>
        ensures ok { IfOk result (λ copied. copied ≡ self.now) }
        ensures err { IfErr result (λ e. e ≡ Refusal.Memory) }
    {
        Ok(Record {
            bytes: self.bytes.copy(alloc)?,
        })
    }

    /// Its values from the first column on.
    pub fn values(&self) -> Values<'_>
        ensures all { result ≡ self.now }
        ensures countable { length self.now < 2 ^ 64 }
    {
        Values {
            bytes: self.bytes.as_slice(),
        }
    }

    /// The record with so much more in a column, where it is short and has a number there: a copy, but for the number's bytes.
    pub(crate) fn added(&self, column: usize, more: i64) -> InPlace
        ensures { IsMade (Add column more) self.now result }
    {
        let Bytes::Short(short) = &self.bytes else {
            return InPlace::Undone;
        };
        let Some(number) = number_in(short.as_slice(), column) else {
            return InPlace::Undone;
        };
        let Some(sum) = sum(number.value, more) else {
            return InPlace::Range;
        };
        InPlace::Done(Record {
            bytes: Bytes::Short(short.with_number(number.place, sum)),
        })
    }

    /// The record with another value in a column, where it is short and has one there that is as long: a copy, but for its bytes.
    pub(crate) fn exchanged(&self, column: usize, value: &Value) -> InPlace
        ensures { IsMade (Put column value.now) self.now result }
    {
        let Bytes::Short(short) = &self.bytes else {
            return InPlace::Undone;
        };
        let Some(made) = exchange(short, column, value) else {
            return InPlace::Undone;
        };
        InPlace::Done(Record {
            bytes: Bytes::Short(made),
        })
    }

    /// How many values it has, one a column.
    pub fn column_count(&self) -> usize
        ensures { result ≡ length self.now }
    {
        self.values().count()
    }

    /// The value in a column.
    pub fn get(&self, column: usize) -> Option<ValueRef<'_>>
        ensures { option_map lent result ≡ slice_get self.now column }
    {
        self.values().nth(column)
    }
}
