//! Bytes to a writer, by write after write.
ghost use Rattle.std.specs.Prelude.{◌≡◌, true, OnOk, OnErr};
ghost use Rattle.mi_hub.specs.Watching.{has_failed, Writes, WritesFront};

use crate::watched::Watched;
use std::io::Write;

/// A write answered an error or 0.
#[derive(Drop)]
pub struct WriteFault;

/// Writes all the bytes, or a front of them and then fails.
pub(crate) fn send<W: Write>(writer: &mut Watched<W>, bytes: &[u8]) -> Result<(), WriteFault>
    ensures ok { OnOk result (Writes W.contents writer.old writer.new bytes.now) }
    ensures sound { OnOk result (has_failed writer.new ≡ has_failed writer.old) }
    ensures err { OnErr result (WritesFront W.contents writer.old writer.new bytes.now) }
    ensures failed { OnErr result (has_failed writer.new ≡ true) }
{
    let mut at = 0;
    'bytes: while at < bytes.len() {
        let (_, left) = bytes.split_at(at);
        match writer.write(left) {
            Ok(n) if n > 0 => at += n,
            _ => return Err(WriteFault),
        }
    }
    Ok(())
}
