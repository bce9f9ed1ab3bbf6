//! Lexemes of a JSON text, read where they stand, in the spacing that a writer gives: no space, or one behind a comma or a colon.
//! It reads no escape, and no number but whole ones of at most 18 digits. It takes no memory, and knows no nesting.
ghost use Rattle.std.specs.Prelude.{◌≡◌, ◌∷◌, ◌++◌, ◌+◌, ◌-◌, ◌^◌, ◌<◌, ◌≤◌, ◌==◌, [], List, ℕ, length, take, drop, get_or, cond, true, decimal, Some, IfSome, IsTrue};
ghost use Rattle.std.specs.Bool.{MatchBool};
ghost use Rattle.std.specs.List.{prefix_len};
ghost use Rattle.std.specs.Char.{is_ascii_digit};
ghost use Rattle.std.specs.Fmt.{signed_decimal};
ghost use Rattle.std.specs.Str.Parse.{digits_value};
ghost use Rattle.json.specs.Token as spec;
ghost use Rattle.json.specs.Word.{head, ends_word, after_minus, after_whole};
ghost use Rattle.json.specs.Lex.{class, operator, operator_lexeme, colon, token, between, lex};
ghost use Rattle.json.specs.Print.{escape};
ghost use Rattle.mi_tokens.specs.Ends.{is_end, name_text};

use crate::plain::plain_end;
use crate::same::are_same;
use std::marker::Model;

/// Digits of a number, at most: so many always fit 64 bits.
const MAX_DIGITS: usize = 18;

/// The byte at `at`, or a space behind the end.
#[inline(always)]
fn byte_at(text: &[u8], at: usize) -> u8
    ensures value { result ≡ get_or text.now at 32 }
    ensures head { result ≡ head (drop at text.now) }
{
    if at < text.len() { text[at] } else { b' ' }
}

/// Whether a byte ends a value inside an object or an array.
#[inline(always)]
pub(crate) fn is_end(byte: u8) -> bool
    ensures { result ≡ is_end byte }
{
    byte == b',' || byte == b'}' || byte == b']'
}

/// What the digits from `from` on write, and where they end; none where there are too many.
#[inline(always)]
fn digits(text: &[u8], from: usize) -> Option<(u64, usize)>
    requires { from ≤ length text.now }
    ensures end { IfSome result (λ r. r.1 ≡ from + prefix_len is_ascii_digit (drop from text.now)) }
    ensures value { IfSome result (λ r. r.0 ≡ digits_value 10 (take (r.1 - from) (drop from text.now))) }
    ensures bounds { IfSome result (λ r. (r.1 ≤ length text.now) × (r.1 ≤ from + 18)) }
{
    let mut at = from;
    let mut n = 0_u64;
    'digits: while at < text.len() && text[at].is_ascii_digit() {
        if at - from == MAX_DIGITS {
            return None;
        }
        n = n * 10 + (text[at] - b'0') as u64;
        at += 1;
    }
    Some((n, at))
}

/// The number whose digits begin at `from`, and where they end: a zero stands alone.
#[inline(always)]
fn whole(text: &[u8], from: usize) -> Option<(u64, usize)>
    requires { from ≤ length text.now }
    ensures end { IfSome result (λ r. after_whole (drop from text.now) ≡ Some (drop r.1 text.now)) }
    ensures value { IfSome result (λ r. take (r.1 - from) (drop from text.now) ≡ decimal r.0) }
    ensures bounds { IfSome result (λ r. (from ≤ r.1) × (r.1 ≤ length text.now) × (r.0 < 10 ^ 18)) }
{
    if byte_at(text, from) == b'0' {
        return Some((0, from + 1));
    }
    let (n, end) = digits(text, from)?;
    if end == from { None } else { Some((n, end)) }
}

/// Behind a minus, where one stands.
#[inline(always)]
fn minus_end(text: &[u8], from: usize) -> usize
    requires { from ≤ length text.now }
    ensures value { drop result text.now ≡ after_minus (drop from text.now) }
    ensures place { result ≡ cond (head (drop from text.now) == 45) (from + 1) from }
    ensures bounds { (from ≤ result) × (result ≤ length text.now) }
{
    if byte_at(text, from) == b'-' {
        from + 1
    } else {
        from
    }
}

/// The number below zero of these digits; none of zero, which is another number with a minus.
#[inline(always)]
fn negated(n: u64) -> Option<i64>
    requires { n < 10 ^ 18 }
    ensures { IfSome result (λ z. signed_decimal z ≡ 45 ∷ decimal n) }
{
    if n == 0 { None } else { Some(-(n as i64)) }
}

/// A whole number of at most 18 digits, and where it ends. It takes no minus in front of a zero.
#[inline(always)]
fn short_whole(text: &[u8], from: usize) -> Option<(i64, usize)>
    requires { from ≤ length text.now }
    ensures end { IfSome result (λ r. after_whole (after_minus (drop from text.now)) ≡ Some (drop r.1 text.now)) }
    ensures value { IfSome result (λ r. take (r.1 - from) (drop from text.now) ≡ signed_decimal r.0) }
    ensures bounds { IfSome result (λ r. (from ≤ r.1) × (r.1 ≤ length text.now)) }
{
    let first = minus_end(text, from);
    let (n, end) = whole(text, first)?;
    if from < first {
        Some((negated(n)?, end))
    } else {
        Some((n as i64, end))
    }
}

/// A JSON text from a byte on, seen as the bytes that are left.
#[derive(Drop)]
pub(crate) struct Lexemes<'a> {
    text: &'a str,
    at: usize,
}

impl<'a> Model for Lexemes<'a> {
    ghost use Rattle.std.specs.Prelude.{◌≤◌, ℕ, List, length, drop};
    ghost use Rattle.std.specs.Str.{IsUtf8};

    ghost Value = { List ℕ };

    ghost view = { λ a. drop a.at a.text.now };

    ghost invariant = { λ a. IsUtf8 a.text.now × (a.at ≤ length a.text.now) };
}

impl<'a> Lexemes<'a> {
    /// All of a text.
    #[inline(always)]
    pub(crate) fn new(text: &'a str) -> Lexemes<'a>
        ensures { result ≡ text.now }
    {
        Lexemes { text, at: 0 }
    }

    /// The first byte, or a space at the end.
    #[inline(always)]
    pub(crate) fn peek(&self) -> u8
        ensures { result ≡ head self.now }
    {
        byte_at(self.text.as_bytes(), self.at)
    }

    /// Whether nothing is left.
    #[inline(always)]
    pub(crate) fn is_done(&self) -> bool
        ensures { IsTrue result → self.now ≡ [] }
    {
        self.at == self.text.len()
    }

    /// Passes a bracket, a brace, a comma or a colon.
    #[inline(always)]
    pub(crate) fn pass(&mut self)
        requires { class (head self.old) ≡ operator }
        ensures { lex between self.old ≡ operator_lexeme (head self.old) ∷ lex between self.new }
    {
        self.at += 1;
    }

    /// Passes a space, where one is next.
    #[inline(always)]
    fn pass_space(&mut self)
        ensures { lex between self.new ≡ lex between self.old }
    {
        if self.peek() == b' ' && self.at < self.text.len() {
            self.at += 1;
        }
    }

    /// Passes a comma or a colon, and a space behind it.
    #[inline(always)]
    pub(crate) fn pass_spaced(&mut self)
        requires { class (head self.old) ≡ operator }
        ensures { lex between self.old ≡ operator_lexeme (head self.old) ∷ lex between self.new }
    {
        self.pass();
        self.pass_space();
    }

    /// The text between two quotation marks, if it has no escape.
    #[inline(always)]
    pub(crate) fn string(&mut self) -> Option<&'a str>
        requires { head self.old ≡ 34 }
        ensures { IfSome result (λ s. lex between self.old ≡ token (spec.string s.now) ∷ lex between self.new) }
    {
        let text = self.text;
        let start = self.at + 1;
        let stop = plain_end(text.as_bytes(), start);
        if byte_at(text.as_bytes(), stop) != b'"' {
            return None;
        }
        self.at = stop + 1;
        Some(&text[start..stop])
    }

    /// A whole number of at most 18 digits in front of the end of a value: digits without zeros in front, or a minus and these.
    #[inline(always)]
    pub(crate) fn number(&mut self) -> Option<i64>
        ensures { IfSome result (λ z. lex between self.old ≡ token (spec.number (signed_decimal z)) ∷ lex between self.new) }
    {
        let bytes = self.text.as_bytes();
        let (n, end) = short_whole(bytes, self.at)?;
        if !is_end(byte_at(bytes, end)) {
            return None;
        }
        self.at = end;
        Some(n)
    }

    /// Passes these bytes, if they come first.
    #[inline(always)]
    pub(crate) fn pass_bytes<const N: usize>(&mut self, front: &[u8; N]) -> bool
        ensures { MatchBool result (self.old ≡ front.now ++ self.new) (self.new ≡ self.old) }
    {
        let rest = &self.text.as_bytes()[self.at..];
        let Some((first, _)) = rest.split_first_chunk::<N>() else {
            return false;
        };
        if !are_same(first, front) {
            return false;
        }
        self.at += N;
        true
    }

    /// Passes a word in front of the end of a value.
    #[inline(always)]
    pub(crate) fn pass_word<const N: usize>(&mut self, word: &[u8; N]) -> bool
        ensures { IsTrue result → (self.old ≡ word.now ++ self.new) × (ends_word self.new ≡ true) }
    {
        self.pass_bytes(word) && is_end(self.peek())
    }

    /// Passes the name of a member with its colon, and a space behind it, if this is next.
    #[inline(always)]
    pub(crate) fn pass_name<const N: usize>(&mut self, front: &[u8; N]) -> bool
        ensures { (s : List ℕ) → front.now ≡ name_text s → escape s ≡ s
            → MatchBool result (lex between self.old ≡ token (spec.string s) ∷ colon ∷ lex between self.new) (self.new ≡ self.old) }
    {
        if !self.pass_bytes(front) {
            return false;
        }
        self.pass_space();
        true
    }
}
