//! The text of a reply. A short one stands in a buffer of its own; this file allocates nothing.
ghost use Rattle.std.specs.Prelude.{◌≡◌};
ghost use Rattle.mi_protocol.specs.Text.{text_bytes};

use arrayvec::ArrayVec;
use mi_value::limits::SHORT_REPLY;

/// A reply's text, without a newline. One without rows is short and takes no memory.
#[derive(Drop)]
pub enum ReplyText {
    Short(ArrayVec<u8, SHORT_REPLY>),
    Long(Vec<u8>),
}

impl ReplyText {
    /// Its bytes.
    pub fn as_slice(&self) -> &[u8]
        ensures { result.now ≡ text_bytes self.now }
    {
        match self {
            ReplyText::Short(bytes) => bytes.as_slice(),
            ReplyText::Long(bytes) => bytes.as_slice(),
        }
    }
}
