//! Where the bytes of a record lie: up to 46 in the record itself, more in a block of memory. Plain data, which knows no values.
ghost use Rattle.std.specs.Prelude.{◌≡◌, ◌≤◌, ◌++◌, ℕ, List, OnOk};

use std::alloc::{AllocError, Global};
use std::mem::size_of;

/// So many bytes at most lie in a record itself: so a record takes 48 bytes, and with its id and the reference of its
/// node 64, which are a line of the cache.
const SHORT: usize = 46;

/// Up to 46 bytes, one behind another.
#[derive(Clone, Copy, Debug)]
pub(crate) struct Short {
    length: u8,
    bytes: [u8; SHORT],
    ghost fits: { length ≤ 46 },
}

/// The bytes of a record.
#[derive(Debug, Drop)]
pub(crate) enum Bytes {
    /// They lie here.
    Short(Short),
    /// They lie in a block of memory.
    Long(Vec<u8>),
}

const _: () = prove!(size_of::<Bytes>() == 48);

/// What takes bytes, one behind another.
pub(crate) trait Sink {
    ghost held: { Self → List ℕ };

    /// Puts bytes behind those that are there. Answers `AllocError` where there is no room; then nothing is said of the bytes.
    fn put(&mut self, bytes: &[u8]) -> Result<(), AllocError>
        ensures { OnOk result (held self.new ≡ held self.old ++ bytes.now) };
}

impl Short {
    ghost use Rattle.std.specs.Prelude.{◌≡◌, ◌<◌, ◌≤◌, ◌+◌, [], length, slice_set};
    ghost use Rattle.mi_value.specs.Numbers.{with_number};
    ghost use Rattle.mi_value.specs.Bytes.{short_bytes};

    /// No bytes.
    pub(crate) fn new() -> Short
        ensures { short_bytes result ≡ [] }
    {
        Short {
            length: 0,
            bytes: [0; SHORT],
        }
    }

    /// The bytes.
    #[inline]
    pub(crate) fn as_slice(&self) -> &[u8]
        ensures { result.now ≡ short_bytes self.now }
    {
        &self.bytes[..self.length as usize]
    }

    /// The same with another number in the eight bytes from a place on.
    #[inline]
    pub(crate) fn with_number(&self, place: usize, n: i64) -> Short
        requires { place + 8 ≤ length (short_bytes self.now) }
        ensures { short_bytes result ≡ with_number place n (short_bytes self.now) }
    {
        let mut bytes = self.bytes;
        bytes[place..place + 8].copy_from_slice(&n.to_le_bytes());
        Short {
            length: self.length,
            bytes,
        }
    }

    /// The same with another byte at a place.
    #[inline]
    pub(crate) fn with_byte(&self, place: usize, byte: u8) -> Short
        requires { place < length (short_bytes self.now) }
        ensures { short_bytes result ≡ slice_set (short_bytes self.now) place byte }
    {
        let mut bytes = self.bytes;
        bytes[place] = byte;
        Short {
            length: self.length,
            bytes,
        }
    }
}

impl Sink for Short {
    ghost use Rattle.mi_value.specs.Bytes.{short_bytes};

    ghost held = { short_bytes };

    #[inline]
    fn put(&mut self, bytes: &[u8]) -> Result<(), AllocError> {
        let start = self.length as usize;
        if bytes.len() > SHORT - start {
            return Err(AllocError);
        }
        let end = start + bytes.len();
        self.bytes[start..end].copy_from_slice(bytes);
        self.length = end as u8;
        Ok(())
    }
}

impl Sink for Vec<u8> {
    ghost held = { λ v. v.items };

    fn put(&mut self, bytes: &[u8]) -> Result<(), AllocError> {
        self.extend_from_slice(bytes)
    }
}

impl Bytes {
    ghost use Rattle.std.specs.Prelude.{◌≡◌, IfOk};
    ghost use Rattle.mi_value.specs.Bytes.{bytes_in};

    /// The bytes.
    #[inline]
    pub(crate) fn as_slice(&self) -> &[u8]
        ensures { result.now ≡ bytes_in self.now }
    {
        match self {
            Bytes::Short(short) => short.as_slice(),
            Bytes::Long(block) => block.as_slice(),
        }
    }

    /// The same bytes. Few take no memory.
    pub(crate) fn copy(&self, alloc: Global) -> Result<Bytes, AllocError>
        ensures { IfOk result (λ copied. bytes_in copied ≡ bytes_in self.now) }
    {
        match self {
            Bytes::Short(short) => Ok(Bytes::Short(*short)),
            Bytes::Long(block) => Ok(Bytes::Long(Vec::from_slice(alloc, block.as_slice())?)),
        }
    }
}
