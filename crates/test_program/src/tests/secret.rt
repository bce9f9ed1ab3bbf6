//! The secret is what the system draws, and a fixed number where it draws none.
use mi_program::drawn;
use std::io::{self, ErrorKind};
use std::random::RandomSource;
use std::test::Fail;

/// A source that fills with the numbers from 1 on.
struct Counting;

impl RandomSource for Counting {
    fn fill_bytes(&self, buf: &mut [u8]) -> io::Result<()> {
        let mut next = 1;
        for byte in buf {
            *byte = next;
            next = next.wrapping_add(1);
        }
        Ok(())
    }
}

/// A source that fails after its first byte.
struct Refusing;

impl RandomSource for Refusing {
    fn fill_bytes(&self, buf: &mut [u8]) -> io::Result<()> {
        if let Some(byte) = buf.first_mut() {
            *byte = 7;
        }
        Err(io::Error::from(ErrorKind::Unsupported))
    }
}

#[test]
fn secrets_are_drawn(rt: HostRuntime) -> Result<(), Fail> {
    assert_eq!(rt; drawn(&Counting), 0x0807_0605_0403_0201);
    assert_eq!(rt; drawn(&Refusing), 0xB504_F333_F9DE_6484);
    assert!(rt; drawn(&rt) != drawn(&rt));
    Ok(())
}
