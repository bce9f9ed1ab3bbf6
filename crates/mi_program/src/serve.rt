//! Serves one input to one output over a database, as the bytes of one connection.
ghost use Rattle.std.specs.Prelude.{◌≡◌, ◌⊎◌, ◌≤◌, ℕ, List, [], ◌∷◌, ◌++◌, Err, OnOk, length, true, false};
ghost use Rattle.std.specs.Io.KnownBytes.{IsAtEnd};
ghost use Rattle.mi_value.specs.declared.limits.TheConstants.{MAX_READS, PIECE};
ghost use Rattle.mi_hub.specs.Run.{HubState, piece, close, cut, AllDone, Failed, Unflushed, FaultAtLast};
ghost use Rattle.mi_hub.specs.Watching.{watched, has_failed, flush_failed, is_flushed, Reads, Writes};
ghost use Rattle.mi_program.specs.Serving.{come, IsServing};

use crate::failure::Failure;
use mi_hub::{Hub, Watched, serve_stream};
use mi_sessions::Sessions;
use std::alloc::Global;
use std::io::{Read, Write};

/// The number of the connection that the input is.
const STANDARD_INPUT: u64 = 1;

/// Serves an input to its end over a database, and then closes it: what `serve_stream` says of a hub to which the one connection has
/// come. The output is flushed behind each piece of the input and behind the close.
///
/// `Read`, `Write` and `Turns` are those of `serve_stream`; `Memory` where the connection was refused its room, and then nothing is read or
/// written. No other failure is answered.
pub fn serve<D: Sessions + Drop, R: Read, W: Write>(
    alloc: Global,
    database: D,
    reader: &mut Watched<R>,
    writer: &mut Watched<W>,
) -> Result<(), Failure>
    // All of the input was read; its lines and its last line are answered, and the replies flushed.
    ensures ok { OnOk result ((bytes : List ℕ) × (out : List ℕ) × (new : HubState)
        × Reads R.remaining reader.old reader.new bytes × IsAtEnd (R.remaining (watched reader.new))
        × Writes W.contents writer.old writer.new out × (is_flushed writer.new ≡ true)
        × AllDone (come (D.state database)) (piece 1 bytes ∷ close 1 ∷ []) out new) }

    // Of the bytes that were read all whole lines are answered.
    ensures read { result ≡ Err Failure.Read → (bytes : List ℕ) × (out : List ℕ) × (new : HubState)
        × Reads R.remaining reader.old reader.new bytes
        × Writes W.contents writer.old writer.new out
        × AllDone (come (D.state database)) (piece 1 bytes ∷ cut 1 ∷ []) out new
        × (has_failed reader.new ≡ true) }
    ensures turns { result ≡ Err Failure.Turns → (bytes : List ℕ) × (out : List ℕ) × (new : HubState)
        × Reads R.remaining reader.old reader.new bytes × (MAX_READS ≤ length bytes)
        × Writes W.contents writer.old writer.new out
        × AllDone (come (D.state database)) (piece 1 bytes ∷ cut 1 ∷ []) out new }

    // A write failed at a reply to the last piece, or at the close; or the flush behind it, which the writer tells.
    ensures write { result ≡ Err Failure.Write → (first : List ℕ) × (last : List ℕ) × (out : List ℕ) × (new : HubState)
        × Reads R.remaining reader.old reader.new (first ++ last) × (length last ≤ PIECE)
        × Writes W.contents writer.old writer.new out
        × (FaultAtLast Failed (IsAtEnd (R.remaining (watched reader.new))) (come (D.state database)) 1 first last out new
        ⊎ ((has_failed writer.old ≡ false → flush_failed writer.new ≡ true)
        × FaultAtLast Unflushed (IsAtEnd (R.remaining (watched reader.new))) (come (D.state database)) 1 first last out new))
        × (has_failed writer.new ≡ true) }
    ensures memory { result ≡ Err Failure.Memory → (reader.new ≡ reader.old) × (writer.new ≡ writer.old) }
    ensures no_other { IsServing result }
{
    let mut hub = Hub::new(alloc, database);
    let Ok(()) = hub.attach(STANDARD_INPUT) else {
        return Err(Failure::Memory);
    };
    match serve_stream(&mut hub, STANDARD_INPUT, reader, writer) {
        Ok(()) => Ok(()),
        Err(fault) => Err(Failure::of_serving(fault)),
    }
}
