//! Tokens of a JSON text, read where they stand and without an index: each with its commas and colons. What is written in
//! another way than a writer gives is left to `json`.
ghost use Rattle.std.specs.Prelude.{◌≡◌, ◌⊎◌, ◌∷◌, ◌++◌, ◌<◌, [], List, ℕ, IfSome, IsTrue, Some, None, option_map};
ghost use Rattle.std.specs.Bool.{MatchBool};
ghost use Rattle.std.specs.Fmt.{signed_decimal};
ghost use Rattle.json.specs.Token as spec;
ghost use Rattle.json.specs.Word.{head};
ghost use Rattle.json.specs.Lex.{between, lex, after_value, may_begin, may_close, punctuate, tokens};
ghost use Rattle.json.specs.Json.{after_end_array, read_key};
ghost use Rattle.json.specs.Print.{escape};
ghost use Rattle.mi_tokens.specs.Ends.{name_text};
ghost use Rattle.mi_tokens.specs.Tokens.{place_of, tokens_at, token_of, Begins, Closes, end_token, IsWordOf, Opens};
ghost use Rattle.mi_tokens.specs.declared.tokens.Context.TheVariants.{Fresh, AfterComma};

use crate::lexemes::{Lexemes, is_end};
use std::marker::Model;

/// What stood before, which tells what may stand next.
#[derive(Clone, Copy, Drop)]
pub(crate) enum Context {
    Fresh,
    AfterValue,
    AfterComma,
}

impl Context {
    #[inline(always)]
    fn may_begin(self) -> bool
        ensures { result ≡ may_begin (place_of self) }
    {
        matches!(self, Context::Fresh | Context::AfterComma)
    }

    #[inline(always)]
    fn may_close(self) -> bool
        ensures { result ≡ may_close (place_of self) }
    {
        matches!(self, Context::Fresh | Context::AfterValue)
    }
}

/// The token with which a value begins.
#[derive(Clone, Copy, Drop)]
pub(crate) enum Start<'a> {
    Array,
    Object,
    Text(&'a str),
    /// A whole number, which is written in decimal.
    Whole(i64),
    Bool(bool),
    Null,
}

/// Passes the comma that may follow a value.
#[inline(always)]
fn after_value(lexemes: &mut Lexemes<'_>) -> Context
    ensures { tokens_at result lexemes.new ≡ punctuate after_value (lex between lexemes.old) }
{
    if lexemes.peek() == b',' {
        lexemes.pass_spaced();
        Context::AfterComma
    } else {
        Context::AfterValue
    }
}

/// Passes the bracket or the brace that ends an array or an object, and the comma that may follow.
#[inline(always)]
fn close(lexemes: &mut Lexemes<'_>) -> Context
    requires { (head lexemes.old ≡ 125) ⊎ (head lexemes.old ≡ 93) }
    ensures { Closes lexemes.old (end_token (head lexemes.old)) result lexemes.new }
{
    lexemes.pass();
    after_value(lexemes)
}

/// The name of a member, with its colon.
#[inline(always)]
fn key<'a>(lexemes: &mut Lexemes<'a>) -> Option<&'a str>
    requires { head lexemes.old ≡ 34 }
    ensures { IfSome result (λ s. Begins lexemes.old (spec.key s.now) Fresh lexemes.new) }
{
    let name = lexemes.string()?;
    if lexemes.peek() != b':' {
        return None;
    }
    lexemes.pass_spaced();
    Some(name)
}

/// A text that is a value.
#[inline(always)]
fn string<'a>(lexemes: &mut Lexemes<'a>) -> Option<(Start<'a>, Context)>
    requires { head lexemes.old ≡ 34 }
    ensures { IfSome result (λ t. Begins lexemes.old (token_of t.0) t.1 lexemes.new) }
{
    let text = lexemes.string()?;
    if !is_end(lexemes.peek()) {
        return None;
    }
    Some((Start::Text(text), after_value(lexemes)))
}

/// A whole number.
#[inline(always)]
fn number<'a>(lexemes: &mut Lexemes<'a>) -> Option<(Start<'a>, Context)>
    ensures { IfSome result (λ t. Begins lexemes.old (token_of t.0) t.1 lexemes.new) }
{
    let n = lexemes.number()?;
    Some((Start::Whole(n), after_value(lexemes)))
}

/// True, false or null, by its word.
#[inline(always)]
fn word<'a, const N: usize>(
    lexemes: &mut Lexemes<'a>,
    text: &[u8; N],
    token: Start<'a>,
) -> Option<(Start<'a>, Context)>
    requires { IsWordOf (token_of token) text.now }
    ensures { IfSome result (λ t. Begins lexemes.old (token_of t.0) t.1 lexemes.new) }
{
    if !lexemes.pass_word(text) {
        return None;
    }
    Some((token, after_value(lexemes)))
}

/// The bracket or the brace that begins an array or an object.
#[inline(always)]
fn open<'a>(lexemes: &mut Lexemes<'a>, token: Start<'a>) -> Option<(Start<'a>, Context)>
    requires { Opens (head lexemes.old) (token_of token) }
    ensures { IfSome result (λ t. Begins lexemes.old (token_of t.0) t.1 lexemes.new) }
{
    lexemes.pass();
    Some((token, Context::Fresh))
}

/// True, false or null. It is called, so that what reads any value stays short enough to stand where it is asked.
#[inline(never)]
fn literal<'a>(lexemes: &mut Lexemes<'a>) -> Option<(Start<'a>, Context)>
    ensures { IfSome result (λ t. Begins lexemes.old (token_of t.0) t.1 lexemes.new) }
{
    match lexemes.peek() {
        b't' => word(lexemes, b"true", Start::Bool(true)),
        b'f' => word(lexemes, b"false", Start::Bool(false)),
        b'n' => word(lexemes, b"null", Start::Null),
        _ => None,
    }
}

/// The token with which a value begins, and what may stand behind it.
#[inline(always)]
fn begin<'a>(lexemes: &mut Lexemes<'a>) -> Option<(Start<'a>, Context)>
    ensures { IfSome result (λ t. Begins lexemes.old (token_of t.0) t.1 lexemes.new) }
{
    match lexemes.peek() {
        b'"' => string(lexemes),
        b'{' => open(lexemes, Start::Object),
        b'[' => open(lexemes, Start::Array),
        b't' | b'f' | b'n' => literal(lexemes),
        b'-' | b'0'..=b'9' => number(lexemes),
        _ => None,
    }
}

/// A JSON text, seen as the tokens that are still to come.
#[derive(Drop)]
pub struct Tokens<'a> {
    lexemes: Lexemes<'a>,
    context: Context,
}

impl<'a> Model for Tokens<'a> {
    ghost use Rattle.std.specs.Prelude.{List};
    ghost use Rattle.json.specs.Token.{Token as SpecToken, tokens_code};
    ghost use Rattle.mi_tokens.specs.Tokens.{tokens_at};

    ghost Value = { List SpecToken };

    ghost coded = { tokens_code };

    ghost view = { λ a. tokens_at a.context a.lexemes };
}

impl<'a> Tokens<'a> {
    /// The tokens of a text.
    #[inline(always)]
    pub(crate) fn new(text: &'a str) -> Tokens<'a>
        ensures { result ≡ tokens text.now }
    {
        Tokens {
            lexemes: Lexemes::new(text),
            context: Context::Fresh,
        }
    }

    /// The tokens behind a front that ends in a comma, if the text begins with it.
    #[inline(always)]
    pub fn behind<const N: usize>(text: &'a str, front: &[u8; N]) -> Option<Tokens<'a>>
        ensures { IfSome result (λ ts. (rest : List ℕ) × (text.now ≡ front.now ++ rest) × (ts ≡ tokens_at AfterComma rest)) }
    {
        let mut lexemes = Lexemes::new(text);
        if !lexemes.pass_bytes(front) {
            return None;
        }
        Some(Tokens {
            lexemes,
            context: Context::AfterComma,
        })
    }

    /// Takes the name of a member with its colon, if it is written so and comes next.
    #[inline(always)]
    pub fn take_key<const N: usize>(&mut self, front: &[u8; N]) -> bool
        ensures { (s : List ℕ) → front.now ≡ name_text s → escape s ≡ s → MatchBool result (read_key self.old ≡ Some (Some s, self.new)) (self.new ≡ self.old) }
    {
        if !self.context.may_begin() || !self.lexemes.pass_name(front) {
            return false;
        }
        self.context = Context::Fresh;
        true
    }

    /// Takes a text that is a value, if it is next.
    #[inline(always)]
    pub fn take_text(&mut self) -> Option<&'a str>
        ensures { IfSome result (λ s. self.old ≡ spec.string s.now ∷ self.new) }
    {
        if self.lexemes.peek() != b'"' || !self.context.may_begin() {
            return None;
        }
        let text = self.lexemes.string()?;
        if !is_end(self.lexemes.peek()) {
            return None;
        }
        self.context = after_value(&mut self.lexemes);
        Some(text)
    }

    /// Takes a whole number, if it is next.
    #[inline(always)]
    pub fn take_whole(&mut self) -> Option<i64>
        ensures { IfSome result (λ n. self.old ≡ spec.number (signed_decimal n) ∷ self.new) }
    {
        if !self.context.may_begin() {
            return None;
        }
        let n = self.lexemes.number()?;
        self.context = after_value(&mut self.lexemes);
        Some(n)
    }

    /// Takes true or false, if it is next.
    #[inline(always)]
    pub fn take_bool(&mut self) -> Option<bool>
        ensures { IfSome result (λ b. self.old ≡ spec.boolean b ∷ self.new) }
    {
        if !self.context.may_begin() {
            return None;
        }
        let (token, context) = literal(&mut self.lexemes)?;
        self.context = context;
        match token {
            Start::Bool(b) => Some(b),
            _ => None,
        }
    }

    /// Takes the bracket with which an array begins, if it is next.
    #[inline(always)]
    pub(crate) fn take_array(&mut self) -> bool
        ensures { IsTrue result → self.old ≡ spec.begin_array ∷ self.new }
    {
        if self.lexemes.peek() != b'[' || !self.context.may_begin() {
            return false;
        }
        self.lexemes.pass();
        self.context = Context::Fresh;
        true
    }

    /// Takes the brace with which an object begins, if it is next.
    #[inline(always)]
    pub fn take_object(&mut self) -> bool
        ensures { IsTrue result → self.old ≡ spec.begin_object ∷ self.new }
    {
        if self.lexemes.peek() != b'{' || !self.context.may_begin() {
            return false;
        }
        self.lexemes.pass();
        self.context = Context::Fresh;
        true
    }

    /// Takes the brace that ends an object, if it is next.
    #[inline(always)]
    pub fn take_close(&mut self) -> bool
        ensures { IsTrue result → read_key self.old ≡ Some (None, self.new) }
    {
        if self.lexemes.peek() != b'}' || !self.context.may_close() {
            return false;
        }
        self.context = close(&mut self.lexemes);
        true
    }

    /// Whether the brace that ends the object ends the text.
    #[inline(always)]
    pub fn take_end(&mut self) -> bool
        ensures { IsTrue result → read_key self.old ≡ Some (None, []) }
    {
        self.take_close() && self.is_done()
    }

    /// Whether no token is left, and the text has ended.
    #[inline(always)]
    pub(crate) fn is_done(&self) -> bool
        ensures { IsTrue result → self.now ≡ [] }
    {
        self.context.may_close() && self.lexemes.is_done()
    }

    /// The name of a member with its colon, or none at the brace that ends an object.
    #[inline(always)]
    pub(crate) fn next_key(&mut self) -> Option<Option<&'a str>>
        ensures { IfSome result (λ k. read_key self.old ≡ Some (option_map (λ s. s.now) k, self.new)) }
    {
        let byte = self.lexemes.peek();
        if byte == b'"' && self.context.may_begin() {
            let name = key(&mut self.lexemes)?;
            self.context = Context::Fresh;
            return Some(Some(name));
        }
        if byte == b'}' && self.context.may_close() {
            self.context = close(&mut self.lexemes);
            return Some(None);
        }
        None
    }

    /// Takes the bracket that ends an array, if it is next.
    #[inline(always)]
    pub(crate) fn take_end_array(&mut self) -> bool
        ensures { MatchBool result (after_end_array self.old ≡ Some self.new) (self.new ≡ self.old) }
    {
        if self.lexemes.peek() != b']' || !self.context.may_close() {
            return false;
        }
        self.context = close(&mut self.lexemes);
        true
    }

    /// The token with which a value begins.
    #[inline(always)]
    pub(crate) fn next(&mut self) -> Option<Start<'a>>
        ensures { IfSome result (λ t. self.old ≡ token_of t ∷ self.new) }
    {
        if !self.context.may_begin() {
            return None;
        }
        let (token, context) = begin(&mut self.lexemes)?;
        self.context = context;
        Some(token)
    }
}
