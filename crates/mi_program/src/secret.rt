//! The number that this process mixes into the hashes of keys. Nothing that is answered depends on it.
use std::random::RandomSource;

/// The number where the system gives no random bytes: 2^64 over the square root of 2. The program serves all the same; then
/// who knows its source can choose keys that are slow to find.
const FIXED: u64 = 0xB504_F333_F9DE_6484;

/// A number that is drawn from the system, so that strangers can't know it; the fixed one where the system gives none.
pub fn drawn<R: RandomSource>(rt: &R) -> u64 {
    let mut bytes = [0; 8];
    match rt.fill_bytes(&mut bytes) {
        Ok(()) => u64::from_le_bytes(bytes),
        Err(_error) => FIXED,
    }
}
