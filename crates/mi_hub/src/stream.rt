//! A whole input, served to its end as the bytes of one connection. How reads cut it doesn't matter.
ghost use Rattle.std.specs.Prelude.{◌≡◌, ◌≢◌, ◌⊎◌, ◌≤◌, ◌<◌, ℕ, List, [], ◌∷◌, ◌++◌, Ok, Err, IsSome, IfOk, OnOk, OnErr, length, true, false};
ghost use Rattle.std.specs.Io.KnownBytes.{IsAtEnd};
ghost use Rattle.mi_value.specs.declared.limits.TheConstants.{PIECE as piece_size};
ghost use Rattle.mi_hub.specs.Connections.{rest_at};
ghost use Rattle.mi_hub.specs.Run.{piece, close, cut, Done, AllDone, Failed, Unflushed, FaultAtLast};
ghost use Rattle.mi_hub.specs.ConnectionTurn.{ConnectionTurn, conn_of, outcome, given_in, Gave, TellsFlush, Made};
ghost use Rattle.mi_hub.specs.Watching.{watched, has_failed, flush_failed, is_flushed, Reads, Writes};

use crate::fault::ServeFault;
use crate::hub::Hub;
use crate::turn::take_turn;
use crate::watched::Watched;
use mi_sessions::Sessions;
use mi_value::limits::{MAX_READS, PIECE};
use std::io::{Read, Write};

/// Reads a piece of the input, and makes the turn that it gives; false at the end of the input. After a fault the connection is gone.
fn read_turn<D: Sessions + Drop, R: Read, W: Write>(
    hub: &mut Hub<D>,
    conn: u64,
    buffer: &mut [u8],
    reader: &mut Watched<R>,
    writer: &mut Watched<W>,
) -> Result<bool, ServeFault>
    requires attached { IsSome (rest_at conn hub.old.attached) }
    requires room { length buffer.old ≡ piece_size }
    ensures turn { (turn : ConnectionTurn) × (out : List ℕ) × (conn_of turn ≡ conn) × (result ≡ outcome turn)
        × Gave R.remaining reader.old reader.new (given_in turn) × Writes W.contents writer.old writer.new out
        × TellsFlush turn writer.old writer.new × Made hub.old turn out hub.new }
    ensures sound { OnOk result ((has_failed reader.new ≡ has_failed reader.old) × (has_failed writer.new ≡ has_failed writer.old)) }
    ensures flushed { OnOk result (is_flushed writer.new ≡ true) }
    ensures write { result ≡ Err ServeFault.Write → (has_failed writer.new ≡ true) × (has_failed reader.new ≡ has_failed reader.old) }
    ensures no_other { OnErr result ((result ≡ Err ServeFault.Read) ⊎ (result ≡ Err ServeFault.Write)) }
{
    match reader.read(buffer) {
        Ok(n) => take_turn(hub, conn, Some(&buffer[..n]), writer),
        Err(_) => take_turn(hub, conn, None, writer),
    }
}

/// Serves an input to its end, as the bytes of this connection, and then closes it. Each reply is written before the next line
/// is asked, and the writer is flushed behind each piece of at most 4,096 bytes, before the next is read, and behind the close.
///
/// After any fault the connection has been cut: what it holds is undone, and what it has not asked is dropped. Nothing is read
/// after a fault.
///
/// - `Read`: a read answered an error. What was read before it is answered.
/// - `Write`: a write failed, and the lines up to the one whose reply failed were executed and no other. Or a flush failed, which
///   `Watched::flush_failed` tells: all lines of the pieces that were read were executed, and which replies have gone out nobody knows.
/// - `Turns`: 2^40 reads were made, each of one byte at least. What was read is answered.
///
/// `Accept` and `Memory` are never answered here.
pub fn serve_stream<D: Sessions + Drop, R: Read, W: Write>(
    hub: &mut Hub<D>,
    conn: u64,
    reader: &mut Watched<R>,
    writer: &mut Watched<W>,
) -> Result<(), ServeFault>
    requires { IsSome (rest_at conn hub.old.attached) }

    // All of the input was read; its lines and its last line are answered, and the connection is gone.
    ensures ok { OnOk result ((bytes : List ℕ) × (out : List ℕ)
        × Reads R.remaining reader.old reader.new bytes × IsAtEnd (R.remaining (watched reader.new))
        × Writes W.contents writer.old writer.new out
        × AllDone hub.old (piece conn bytes ∷ close conn ∷ []) out hub.new) }
    ensures sound { OnOk result ((has_failed reader.new ≡ has_failed reader.old) × (has_failed writer.new ≡ has_failed writer.old)) }
    ensures flushed { OnOk result (is_flushed writer.new ≡ true) }

    // Of the bytes that were read all whole lines are answered; the rest is dropped.
    ensures read { result ≡ Err ServeFault.Read → (bytes : List ℕ) × (out : List ℕ)
        × Reads R.remaining reader.old reader.new bytes
        × Writes W.contents writer.old writer.new out
        × AllDone hub.old (piece conn bytes ∷ cut conn ∷ []) out hub.new }
    ensures turns { result ≡ Err ServeFault.Turns → (bytes : List ℕ) × (out : List ℕ)
        × Reads R.remaining reader.old reader.new bytes × (MAX_READS ≤ length bytes)
        × Writes W.contents writer.old writer.new out
        × AllDone hub.old (piece conn bytes ∷ cut conn ∷ []) out hub.new }

    // The replies to the first bytes went out. A write of a reply to the last piece failed, which was read last; or all was read, and a write at
    // the close failed. Or all replies were written there, and the flush behind them failed, which the writer tells.
    ensures write { result ≡ Err ServeFault.Write → (first : List ℕ) × (last : List ℕ) × (out : List ℕ)
        × Reads R.remaining reader.old reader.new (first ++ last) × (length last ≤ piece_size)
        × Writes W.contents writer.old writer.new out
        × (FaultAtLast Failed (IsAtEnd (R.remaining (watched reader.new))) hub.old conn first last out hub.new
        ⊎ ((has_failed writer.old ≡ false → flush_failed writer.new ≡ true)
        × FaultAtLast Unflushed (IsAtEnd (R.remaining (watched reader.new))) hub.old conn first last out hub.new)) }

    ensures read_failed { result ≡ Err ServeFault.Read → has_failed reader.new ≡ true }
    ensures write_failed { result ≡ Err ServeFault.Write → (has_failed writer.new ≡ true) × (has_failed reader.new ≡ has_failed reader.old) }
    ensures no_other { (result ≢ Err ServeFault.Accept) × (result ≢ Err ServeFault.Memory) }
{
    hub.keeps_limit(conn);
    let mut buffer = [0u8; PIECE];
    'reads: for _turn in 0..MAX_READS {
        if read_turn(hub, conn, &mut buffer, reader, writer)? {
            continue 'reads;
        }
        return Ok(());
    }
    let _ = hub.cut(conn);
    Err(ServeFault::Turns)
}
