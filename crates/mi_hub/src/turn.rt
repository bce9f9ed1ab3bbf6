//! A turn of one connection: what one read of it gave is fed, or it is closed at the end of its bytes, and the writer is flushed, so that its
//! replies are out before more is read. Who reads is the caller's: a stream of its own, or the one that is written.
ghost use Rattle.std.specs.Prelude.{◌≡◌, ◌↔◌, ◌⊎◌, ◌≤◌, ℕ, List, [], Err, None, Some, IsSome, IfSome, OnOk, OnErr, length, option_map, true};
ghost use Rattle.mi_value.specs.declared.limits.TheConstants.{PIECE};
ghost use Rattle.mi_hub.specs.Connections.{rest_at};
ghost use Rattle.mi_hub.specs.ConnectionTurn.{ConnectionTurn, conn_of, outcome, given_in, IsPiece, TellsFlush, Made};
ghost use Rattle.mi_hub.specs.Watching.{has_failed, is_flushed, Writes};

use crate::fault::ServeFault;
use crate::hub::Hub;
use crate::watched::Watched;
use mi_sessions::Sessions;
use std::io::Write;

/// Feeds a piece, and flushes the writer behind its replies. The one fault is `Write`: a write or the flush failed, and the connection is gone.
fn feed_piece<D: Sessions + Drop, W: Write>(
    hub: &mut Hub<D>,
    conn: u64,
    bytes: &[u8],
    writer: &mut Watched<W>,
) -> Result<bool, ServeFault>
    requires attached { IsSome (rest_at conn hub.old.attached) }
    requires piece { IsPiece bytes.now }
    ensures turn { (turn : ConnectionTurn) × (out : List ℕ) × (conn_of turn ≡ conn) × (given_in turn ≡ Some bytes.now) × (result ≡ outcome turn)
        × Writes W.contents writer.old writer.new out × TellsFlush turn writer.old writer.new × Made hub.old turn out hub.new }
    ensures sound { OnOk result (has_failed writer.new ≡ has_failed writer.old) }
    ensures flushed { OnOk result (is_flushed writer.new ≡ true) }
    ensures write { OnErr result ((result ≡ Err ServeFault.Write) × (has_failed writer.new ≡ true)) }
{
    match hub.feed(conn, bytes, writer) {
        Ok(()) => match writer.flush() {
            Ok(()) => Ok(true),
            Err(_) => {
                let _ = hub.cut(conn);
                Err(ServeFault::Write)
            }
        },
        Err(_) => Err(ServeFault::Write),
    }
}

/// Closes a connection at the end of its bytes, and flushes the writer behind its last reply. The one fault is `Write`: a write or the flush
/// failed; the connection is gone then too.
fn close_at_end<D: Sessions + Drop, W: Write>(
    hub: &mut Hub<D>,
    conn: u64,
    writer: &mut Watched<W>,
) -> Result<bool, ServeFault>
    requires { IsSome (rest_at conn hub.old.attached) }
    ensures turn { (turn : ConnectionTurn) × (out : List ℕ) × (conn_of turn ≡ conn) × (given_in turn ≡ Some []) × (result ≡ outcome turn)
        × Writes W.contents writer.old writer.new out × TellsFlush turn writer.old writer.new × Made hub.old turn out hub.new }
    ensures sound { OnOk result (has_failed writer.new ≡ has_failed writer.old) }
    ensures flushed { OnOk result (is_flushed writer.new ≡ true) }
    ensures write { OnErr result ((result ≡ Err ServeFault.Write) × (has_failed writer.new ≡ true)) }
{
    match hub.close(conn, writer) {
        Ok(()) => match writer.flush() {
            Ok(()) => Ok(false),
            Err(_) => Err(ServeFault::Write),
        },
        Err(_) => Err(ServeFault::Write),
    }
}

/// Makes the turn of an attached connection for which one read gave these bytes, at most 4,096, or failed (`None`). A piece is fed; no bytes
/// are the end, and the connection is closed. The writer is flushed behind the replies. Answers whether the connection is open still.
///
/// After a fault it is gone, and what it held is undone:
///
/// - `Read`: the read failed. The writer isn't touched.
/// - `Write`: a write failed, and the lines up to the one whose reply failed were executed and no other. Or all lines were, the writer took
///   their replies, and the flush failed: `Watched::flush_failed` tells.
///
/// No other fault is answered.
pub fn take_turn<D: Sessions + Drop, W: Write>(
    hub: &mut Hub<D>,
    conn: u64,
    read: Option<&[u8]>,
    writer: &mut Watched<W>,
) -> Result<bool, ServeFault>
    requires attached { IsSome (rest_at conn hub.old.attached) }
    requires piece { IfSome read (λ bytes. length bytes.now ≤ PIECE) }
    ensures turn { (turn : ConnectionTurn) × (out : List ℕ) × (conn_of turn ≡ conn)
        × (given_in turn ≡ option_map (λ bytes. bytes.now) read.entry) × (result ≡ outcome turn)
        × Writes W.contents writer.old writer.new out × TellsFlush turn writer.old writer.new × Made hub.old turn out hub.new }
    ensures sound { OnOk result (has_failed writer.new ≡ has_failed writer.old) }
    ensures flushed { OnOk result (is_flushed writer.new ≡ true) }
    ensures read { (result ≡ Err ServeFault.Read) ↔ (read.entry ≡ None) }
    ensures unread { result ≡ Err ServeFault.Read → writer.new ≡ writer.old }
    ensures write { result ≡ Err ServeFault.Write → has_failed writer.new ≡ true }
    ensures no_other { OnErr result ((result ≡ Err ServeFault.Read) ⊎ (result ≡ Err ServeFault.Write)) }
{
    match read {
        Some(bytes) => {
            if bytes.is_empty() {
                close_at_end(hub, conn, writer)
            } else {
                feed_piece(hub, conn, bytes, writer)
            }
        }
        None => {
            let _ = hub.cut(conn);
            Err(ServeFault::Read)
        }
    }
}
