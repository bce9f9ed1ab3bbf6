//! Replies that are not to go out yet.
ghost use Rattle.std.specs.Prelude.{◌≡◌, ◌↔◌, ◌++◌, [], length, IsTrue, OnOk};

use std::alloc::{AllocError, Global};

/// Replies to lines whose journal may not stay yet. A durable hub hands their bytes out, once it does.
#[derive(Drop)]
pub struct HeldReplies {
    pub(crate) bytes: Vec<u8>,
}

impl HeldReplies {
    ghost use Rattle.mi_durable.specs.HeldReplies.{bytes_of};

    /// None yet.
    pub fn new(alloc: Global) -> HeldReplies
        ensures { bytes_of result ≡ [] }
    {
        HeldReplies {
            bytes: Vec::new(alloc),
        }
    }

    /// How many bytes they have.
    pub fn len(&self) -> usize
        ensures { result ≡ length (bytes_of self.now) }
    {
        self.bytes.len()
    }

    /// Whether there is none.
    pub fn is_empty(&self) -> bool
        ensures { IsTrue result ↔ (bytes_of self.now ≡ []) }
    {
        self.bytes.is_empty()
    }

    /// A reply goes to them. Where it has no room nothing changes.
    pub(crate) fn add(&mut self, reply: &[u8]) -> Result<(), AllocError>
        ensures ok { OnOk result (bytes_of self.new ≡ bytes_of self.old ++ reply.now) }
    {
        self.bytes.extend_from_slice(reply)
    }

    /// Their bytes.
    pub(crate) fn into_bytes(self) -> Vec<u8>
        ensures { result.items ≡ bytes_of self }
    {
        self.bytes
    }
}
