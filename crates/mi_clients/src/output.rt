//! Replies that have been handed out and that their socket hasn't taken. It reads and writes no stream.
ghost use Rattle.std.specs.Prelude.{◌≡◌, ◌++◌, ◌≤◌, [], length, drop, OnOk, OnErr, IfOk};

use std::alloc::{AllocError, Global};

/// Bytes that wait for a socket, from the first that it hasn't taken on.
///
/// What the socket has taken is let go once more is added, so that a peer that is never sent all doesn't make it grow. Who has sent all
/// lets the block go too.
#[derive(Drop)]
pub struct Output {
    bytes: Vec<u8>,
    sent: usize,
    ghost within: { sent ≤ length bytes.items },
}

/// Bytes, and others behind them, in a block of their own.
fn joined(alloc: Global, front: &[u8], back: &[u8]) -> Result<Vec<u8>, AllocError>
    ensures { IfOk result (λ both. both.items ≡ front.now ++ back.now) }
{
    let mut both = Vec::with_capacity(alloc, front.len().saturating_add(back.len()))?;
    both.extend_from_slice(front)?;
    both.extend_from_slice(back)?;
    Ok(both)
}

impl Output {
    ghost use Rattle.mi_clients.specs.Output.{unsent, kept, HoldsNothing};

    /// Nothing waits. Takes no memory.
    pub fn new(alloc: Global) -> Output
        ensures { HoldsNothing result }
    {
        Output {
            bytes: Vec::new(alloc),
            sent: 0,
        }
    }

    /// What waits.
    pub fn waiting(&self) -> &[u8]
        ensures { result.now ≡ unsent self.now }
    {
        let (_, waiting) = self.bytes.as_slice().split_at(self.sent);
        waiting
    }

    /// Bytes wait behind those that do already, and none that was sent is kept. An error leaves what waits as it is.
    pub fn add(&mut self, alloc: Global, bytes: Vec<u8>) -> Result<(), AllocError>
        ensures ok { OnOk result (unsent self.new ≡ unsent self.old ++ bytes.items) }
        ensures sent { OnOk result (kept self.new ≡ unsent self.new) }
        ensures err { OnErr result (unsent self.new ≡ unsent self.old) }
    {
        if self.sent == self.bytes.len() {
            self.bytes = bytes;
            self.sent = 0;
            return Ok(());
        }
        let both = joined(alloc, self.waiting(), bytes.as_slice())?;
        self.bytes = both;
        self.sent = 0;
        Ok(())
    }

    /// The socket has taken the first bytes.
    pub fn pass(&mut self, count: usize)
        requires { count ≤ length (unsent self.old) }
        ensures { unsent self.new ≡ drop count (unsent self.old) }
    {
        self.sent += count;
    }
}
