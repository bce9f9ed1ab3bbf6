//! The lines of a base out of a reader's bytes, one after another, and the digest of those that were accepted. It knows no table.
ghost use Rattle.std.specs.Prelude.{◌≡◌, [], true, false, IfOk, IfErr, IfSome, IsSome, OnOk, MatchResult, ℕ, List, ⊤};
ghost use Rattle.std.specs.Io.BufRead.{ends_with_byte};
ghost use Rattle.std.specs.Io.KnownBytes.{Consumes, IsAtEnd};
ghost use Rattle.serde_json.specs.Data.{Data};
ghost use Rattle.serde_json.specs.View.{view};
ghost use Rattle.sha2.specs.Hashers.{Holds256};
ghost use Rattle.mi_base.specs.Lines.{line_text, IsFlat, IsPlain};
ghost use Rattle.mi_base.specs.Writes.{Hashes};
ghost use Rattle.mi_base.specs.Base.{digest_data};
ghost use Rattle.mi_base.specs.Reads.{IsFormat, Reads};
ghost use Rattle.mi_base.specs.declared.fault.BaseFault.TheVariants as base_fault;

use crate::fault::BaseFault;
use crate::heading::digest_value;
use crate::line::line_of;
use serde_json::Value;
use sha2::{Digest, Sha256};
use std::alloc::Global;
use std::io::BufRead;

/// A reader of a base, the digest of the lines that were accepted, and the line that was read last, with its number from 1.
#[derive(Drop)]
pub(crate) struct BaseLines<R> {
    reader: R,
    digest: Sha256,
    line: Vec<u8>,
    number: u64,
}

/// Whether bytes end with a newline.
fn ends_line(bytes: &[u8]) -> bool
    ensures { result ≡ ends_with_byte 10 bytes.now }
{
    bytes.ends_with(b"\n")
}

/// The value that a line is, without its newline; none where it's no JSON.
fn parse(alloc: Global, line: &[u8]) -> Result<Option<Value>, BaseFault>
    ensures ok { IfOk result (λ found. (d : Data) → IsPlain d → line.now ≡ line_text d → IfSome found (λ v. view v ≡ d) × IsSome found) }
    ensures err { IfErr result (λ e. e ≡ base_fault.Memory) }
{
    let Some((_newline, bytes)) = line.split_last() else {
        return Ok(None);
    };
    let Ok(text) = str::from_utf8(bytes) else {
        return Ok(None);
    };
    match Value::from_str(alloc, text) {
        Ok(value) => Ok(Some(value)),
        Err(e) => if e.is_memory() {
            Err(BaseFault::Memory)
        } else {
            Ok(None)
        },
    }
}

impl<R> BaseLines<R> {
    ghost use Rattle.mi_base.specs.Reader.{reader_of, digest_of, line_of as last_line};

    /// No line is read yet.
    pub(crate) fn new(alloc: Global, reader: R) -> BaseLines<R>
        ensures reader { reader_of result ≡ reader }
        ensures digest { Holds256 (digest_of result) [] }
    {
        BaseLines {
            reader,
            digest: Sha256::new(),
            line: Vec::new(alloc),
            number: 0,
        }
    }

    /// The fault that the line that was read last isn't one of a base.
    pub(crate) fn fault(&self) -> BaseFault {
        BaseFault::Line(self.number)
    }

    /// Takes the line that was read last into the digest, where it's the line of this value.
    pub(crate) fn accept(&mut self, alloc: Global, value: &Value) -> Result<(), BaseFault>
        requires { IsFlat (view value.now) }
        ensures ok { OnOk result (last_line self.old ≡ line_text (view value.now)) }
        ensures hashed { OnOk result (Hashes (digest_of self.old) (digest_of self.new) (last_line self.old)) }
        ensures reader { reader_of self.new ≡ reader_of self.old }
        ensures err { IfErr result (λ e. IsFormat e → last_line self.old ≡ line_text (view value.now) → ⊥) }
    {
        let line = line_of(alloc, value)?;
        if line.as_bytes() != self.line.as_slice() {
            return Err(self.fault());
        }
        self.digest.update(self.line.as_slice());
        Ok(())
    }

    /// Whether the line that was read last is this one. Then it's taken into the digest.
    pub(crate) fn take_same(&mut self, line: &str) -> bool
        ensures same { result ≡ true → last_line self.old ≡ line.now }
        ensures hashed { result ≡ true → Hashes (digest_of self.old) (digest_of self.new) (last_line self.old) }
        ensures other { result ≡ false → digest_of self.new ≡ digest_of self.old }
        ensures line { last_line self.new ≡ last_line self.old }
        ensures reader { reader_of self.new ≡ reader_of self.old }
    {
        if self.line.as_slice() != line.as_bytes() {
            return false;
        }
        self.digest.update(self.line.as_slice());
        true
    }

    /// The value that the line that was read last is.
    pub(crate) fn value(&self, alloc: Global) -> Result<Value, BaseFault>
        ensures { (d : Data) → IsPlain d → last_line self.now ≡ line_text d → MatchResult result (λ v. view v ≡ d) (λ e. IsFormat e → ⊥) }
    {
        match parse(alloc, self.line.as_slice())? {
            Some(value) => Ok(value),
            None => Err(self.fault()),
        }
    }

    /// Whether the line that was read last is the digest of those that were accepted.
    fn check_digest(&mut self, alloc: Global) -> Result<(), BaseFault>
        ensures ok { OnOk result ((front : List ℕ) → Holds256 (digest_of self.old) front → last_line self.old ≡ line_text (digest_data front)) }
        ensures exact { (front : List ℕ) → Holds256 (digest_of self.old) front
            → IfErr result (λ e. IsFormat e → last_line self.old ≡ line_text (digest_data front) → ⊥) }
        ensures reader { reader_of self.new ≡ reader_of self.old }
    {
        let digest = self.digest.finalize_reset();
        let value = digest_value(alloc, &digest)?;
        let line = line_of(alloc, &value)?;
        if line.as_bytes() == self.line.as_slice() {
            Ok(())
        } else {
            Err(BaseFault::Torn)
        }
    }
}

impl<R: BufRead> BaseLines<R> {
    ghost use Rattle.mi_base.specs.Reader.{reader_of, digest_of, line_of as last_line};

    /// Reads the next line, up to and with its newline.
    pub(crate) fn advance(&mut self) -> Result<(), BaseFault>
        ensures line { OnOk result (Consumes (R.remaining (reader_of self.old)) (R.remaining (reader_of self.new)) (last_line self.new)) }
        ensures exact { Reads line_text (λ d. Unit {0}) (λ _ d. last_line self.new ≡ line_text d)
            (R.remaining (reader_of self.old)) (R.remaining (reader_of self.new)) result }
        ensures digest { digest_of self.new ≡ digest_of self.old }
    {
        self.number = self.number.saturating_add(1);
        self.line.clear();
        match self.reader.read_until(b'\n', &mut self.line) {
            Ok(_count) => if ends_line(self.line.as_slice()) {
                Ok(())
            } else {
                Err(BaseFault::Torn)
            },
            Err(_error) => Err(BaseFault::Read),
        }
    }

    /// Reads the next line, as the value that it is.
    pub(crate) fn next_value(&mut self, alloc: Global) -> Result<Value, BaseFault>
        ensures line { OnOk result (Consumes (R.remaining (reader_of self.old)) (R.remaining (reader_of self.new)) (last_line self.new)) }
        ensures exact { Reads line_text IsPlain (λ v d. (view v ≡ d) × (last_line self.new ≡ line_text d))
            (R.remaining (reader_of self.old)) (R.remaining (reader_of self.new)) result }
        ensures digest { digest_of self.new ≡ digest_of self.old }
    {
        self.advance()?;
        self.value(alloc)
    }

    /// Reads the last line, which is to be the digest of those that were accepted.
    pub(crate) fn ends(&mut self, alloc: Global) -> Result<(), BaseFault>
        ensures ok { OnOk result ((front : List ℕ) → Holds256 (digest_of self.old) front
            → Consumes (R.remaining (reader_of self.old)) (R.remaining (reader_of self.new)) (line_text (digest_data front))) }
        ensures exact { (front : List ℕ) → Holds256 (digest_of self.old) front
            → Reads line_text (λ d. d ≡ digest_data front) (λ _ _. Unit {0}) (R.remaining (reader_of self.old)) (R.remaining (reader_of self.new)) result }
    {
        self.advance()?;
        self.check_digest(alloc)
    }

    /// Whether nothing is left to read.
    pub(crate) fn is_at_end(&mut self) -> Result<(), BaseFault>
        ensures ok { OnOk result (IsAtEnd (R.remaining (reader_of self.old))) }
        ensures exact { IfErr result (λ e. IsFormat e → IfSome (R.remaining (reader_of self.old)) (λ bytes. bytes ≡ [] → ⊥)) }
    {
        self.number = self.number.saturating_add(1);
        self.line.clear();
        match self.reader.read_until(b'\n', &mut self.line) {
            Ok(0) => Ok(()),
            Ok(_) => Err(self.fault()),
            Err(_error) => Err(BaseFault::Read),
        }
    }
}
