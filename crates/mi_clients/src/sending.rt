//! What waits goes to a stream that doesn't block.
ghost use Rattle.std.specs.Prelude.{◌≡◌, ◌⊎◌, [], true};
ghost use Rattle.std.specs.Io.KnownBytes.{Keeps};
ghost use Rattle.mi_clients.specs.Output.{unsent, Sends};

use crate::duplex::Duplex;
use crate::output::Output;
use std::io::ErrorKind;

/// What came of sending.
#[derive(Clone, Copy, Drop)]
pub enum Sending {
    /// All is sent.
    All,
    /// The stream takes no more now.
    Blocked,
    /// The stream has failed.
    Failed,
}

/// Sends what waits, as much as the stream takes now. Each byte is sent or waits still.
pub fn send_out<S: Duplex>(stream: &mut S, output: &mut Output) -> Sending
    ensures sends { Sends S.contents stream.old stream.new (unsent output.old) (unsent output.new) }
    ensures remaining { Keeps (S.remaining stream.old) (S.remaining stream.new) }
    ensures handle { S.handle stream.new ≡ S.handle stream.old }
    ensures reads { S.reads stream.new ≡ S.reads stream.old }
    ensures failed { S.has_failed stream.new ≡ true → (S.has_failed stream.old ≡ true) ⊎ (result ≡ Sending.Failed) }
    ensures full { result ≡ Sending.Blocked → S.is_full stream.new ≡ true }
    ensures lost { result ≡ Sending.Failed → S.is_lost stream.new ≡ true }
    ensures all { result ≡ Sending.All → unsent output.new ≡ [] }
{
    'out: while !output.waiting().is_empty() {
        match stream.write(output.waiting()) {
            Ok(count) if count > 0 => output.pass(count),
            Ok(_none) => return Sending::Failed,
            Err(error) => {
                return match error.kind() {
                    ErrorKind::WouldBlock => Sending::Blocked,
                    _ => Sending::Failed,
                };
            }
        }
    }
    Sending::All
}
