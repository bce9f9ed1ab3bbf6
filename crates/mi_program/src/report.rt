//! What the program says on its third stream when it ends early, and its exit status.
//! A line that can't be written there is passed over.
ghost use Rattle.std.specs.Prelude.{◌≡◌, ◌⊎◌, ◌++◌, codes, true, IfSome};
ghost use Rattle.mi_hub.specs.Watching.{has_failed};
ghost use Rattle.mi_program.specs.Status.{status_of, status_of_words, failure_line, words_line, arguments_line};
ghost use Rattle.mi_program.specs.Ending.{IsTold, IsReported, ending_of, ending_status};

use crate::failure::Failure;
use crate::words::WordsFault;
use mi_hub::Watched;
use std::io;
use std::io::{ErrorKind, Write};

/// The exit status where the words are refused.
const USAGE: u8 = 2;

/// Writes all the bytes to a stream, or it has failed then.
pub(crate) fn send<W: Write>(stream: &mut Watched<W>, bytes: &[u8])
    ensures told { IsTold W.contents stream.old stream.new bytes.now }
    ensures failed { has_failed stream.old ≡ true → has_failed stream.new ≡ true }
{
    let mut at = 0;
    'bytes: while at < bytes.len() {
        let (_, left) = bytes.split_at(at);
        match stream.write(left) {
            Ok(n) if n > 0 => at += n,
            _ => return,
        }
    }
}

/// Writes a line of two parts.
fn send_line<W: Write>(stream: &mut Watched<W>, kind: &str, word: &str)
    ensures { IsTold W.contents stream.old stream.new (kind.now ++ (word.now ++ codes "\n")) }
{
    send(stream, kind.as_bytes());
    send(stream, word.as_bytes());
    send(stream, b"\n");
}

/// Reports a failure, and answers its status.
pub(crate) fn report<E: Write>(failure: Failure, errors: &mut Watched<E>) -> u8
    ensures status { result ≡ status_of failure }
    ensures told { IsTold E.contents errors.old errors.new (failure_line failure) }
{
    send_line(errors, failure.kind(), failure.word());
    failure.status()
}

/// Reports words that give no options, by the parser's own text where they are refused, and answers the status.
pub(crate) fn refuse<E: Write>(fault: &WordsFault, errors: &mut Watched<E>) -> u8
    ensures status { result ≡ status_of_words fault.now }
    ensures told { IfSome (words_line fault.now) (IsTold E.contents errors.old errors.new) }
{
    match fault {
        WordsFault::Parse(error) => {
            let _ = write!(errors, "{error}");
            USAGE
        }
        WordsFault::Rules => {
            send(
                errors,
                b"usage: --listen and --clients go together; --check stands alone\n",
            );
            USAGE
        }
        WordsFault::Memory => report(Failure::Memory, errors),
    }
}

/// Reports what came of the options, where it is a failure, and answers the status.
pub(crate) fn conclude<E: Write>(answer: Result<(), Failure>, errors: &mut Watched<E>) -> u8
    ensures status { result ≡ ending_status (ending_of answer) }
    ensures told { IsReported E.contents errors.old errors.new (ending_of answer) }
{
    match answer {
        Ok(()) => 0,
        Err(failure) => report(failure, errors),
    }
}

/// Reports arguments that could not be had, which aren't UTF-8 or were refused memory, and answers the status.
pub fn refuse_arguments<E: Write>(error: &io::Error, errors: &mut Watched<E>) -> u8
    ensures { ((result ≡ 2) × IsTold E.contents errors.old errors.new arguments_line)
        ⊎ ((result ≡ 4) × IsTold E.contents errors.old errors.new (failure_line Failure.Memory)) }
{
    match error.kind() {
        ErrorKind::OutOfMemory => report(Failure::Memory, errors),
        _other => {
            send(errors, b"error: an argument isn't UTF-8\n");
            USAGE
        }
    }
}
