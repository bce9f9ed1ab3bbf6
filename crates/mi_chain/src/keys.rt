//! How chains see values: hashes and equality of keys.
//! It says what an implementation owes; it holds no value and reads no pool.
ghost use Rattle.std.specs.Prelude.{◌≡◌};
ghost use Rattle.mi_chain.specs.Keying.{Keying, IsLawful};

use mi_value::Probe;

/// The key of a value. Values of one key have one hash, and a probe hashes as the values that have its key. Where
/// strangers choose the keys, the hash is to be a keyed one, so that they can't choose one bucket for all.
pub trait KeyHash<T> {
    ghost keying: { Self → Keying T };

    /// A hash of the value's key, over all 64 bits: the low bits alone choose the bucket.
    fn hash(&self, value: &T) -> u64
        ensures { result ≡ (keying self.now).hash value.now };

    /// The hash of the values that have this key.
    fn hash_key(&self, key: Probe<'_>) -> u64
        ensures { result ≡ (keying self.now).hash_key key.entry };

    /// Whether two values have one key. Asked only of values of one hash.
    fn same(&self, left: &T, right: &T) -> bool
        ensures { result ≡ (keying self.now).same left.now right.now };

    /// Whether the value has this key. Asked only of values of the key's hash.
    fn same_key(&self, value: &T, key: Probe<'_>) -> bool
        ensures { result ≡ (keying self.now).same_key value.now key.entry };

    ghost lawful: { (h : Self) → IsLawful (keying h) };
}
