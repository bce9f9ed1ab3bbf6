//! Whole lines out of a reader's bytes, one after another. It doesn't look at what stands in them.
ghost use Rattle.std.specs.Prelude.{◌≡◌, [], Some, Ok, false, IfOk, IfSome, OnOk};
ghost use Rattle.std.specs.Io.{StopsAt};
ghost use Rattle.std.specs.Io.BufRead.{take_through, ends_with_byte, DropsThrough};
ghost use Rattle.std.specs.Io.KnownBytes.{Consumes};

use std::alloc::Global;
use std::io;
use std::io::BufRead;

/// A reader, and the line that was read last.
#[derive(Drop)]
pub struct LogLines<R> {
    reader: R,
    line: Vec<u8>,
}

impl<R> LogLines<R> {
    ghost use Rattle.mi_log.specs.LogLines.{reader_of, line_of};

    /// No line is read yet.
    pub fn new(alloc: Global, reader: R) -> LogLines<R>
        ensures reader { reader_of result ≡ reader }
        ensures none { line_of result ≡ [] }
    {
        LogLines {
            reader,
            line: Vec::new(alloc),
        }
    }

    /// What was read last: a line with its newline, or what stands behind the last newline.
    pub fn line(&self) -> &[u8]
        ensures { result.now ≡ line_of self.now }
    {
        self.line.as_slice()
    }
}

/// Whether bytes end with a newline.
fn ends_line(bytes: &[u8]) -> bool
    ensures { result ≡ ends_with_byte 10 bytes.now }
{
    bytes.ends_with(b"\n")
}

impl<R: BufRead> LogLines<R> {
    ghost use Rattle.mi_log.specs.LogLines.{reader_of, line_of};

    /// Reads up to and with the next newline, or to the end, and answers whether there was a newline. What stands behind the last one
    /// is no line: it is torn, and `line` is it then.
    ///
    /// An error is the reader's, or a line has no room in memory; what was read of it is `line` then.
    pub fn advance(&mut self) -> io::Result<bool>
        ensures found { IfOk result (λ found. found ≡ ends_with_byte 10 (line_of self.new)) }
        ensures line { OnOk result (IfSome (R.remaining (reader_of self.old)) (λ bytes. line_of self.new ≡ take_through 10 bytes)) }
        ensures rest { OnOk result (DropsThrough (R.remaining (reader_of self.old)) (R.remaining (reader_of self.new)) 10) }
        ensures end { result ≡ Ok false
            → IfSome (R.remaining (reader_of self.old)) (λ _. R.remaining (reader_of self.new) ≡ Some []) }
        ensures one { StopsAt (line_of self.new) 10 }
        ensures none_lost { Consumes (R.remaining (reader_of self.old)) (R.remaining (reader_of self.new)) (line_of self.new) }
    {
        self.read_line()?;
        Ok(ends_line(self.line.as_slice()))
    }

    /// Reads up to and with the next newline, or to the end.
    fn read_line(&mut self) -> io::Result<()>
        ensures line { OnOk result (IfSome (R.remaining (reader_of self.old)) (λ bytes. line_of self.new ≡ take_through 10 bytes)) }
        ensures rest { OnOk result (DropsThrough (R.remaining (reader_of self.old)) (R.remaining (reader_of self.new)) 10) }
        ensures one { StopsAt (line_of self.new) 10 }
        ensures none_lost { Consumes (R.remaining (reader_of self.old)) (R.remaining (reader_of self.new)) (line_of self.new) }
    {
        self.line.clear();
        self.reader.read_until(b'\n', &mut self.line)?;
        Ok(())
    }
}
