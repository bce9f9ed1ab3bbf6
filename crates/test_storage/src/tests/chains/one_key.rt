//! Keys for tests: all values have one key, and each probe asks for it.
//! It reads no value.
use mi_chain::KeyHash;
use mi_value::Probe;

#[derive(Drop)]
pub(super) struct OneKey;

impl KeyHash<u8> for OneKey {
    ghost use Rattle.test_storage.specs.OneKey.{one_keying, one_lawful};

    ghost keying = { λ h. one_keying };

    fn hash(&self, _value: &u8) -> u64 {
        5
    }

    fn hash_key(&self, _key: Probe<'_>) -> u64 {
        5
    }

    fn same(&self, _left: &u8, _right: &u8) -> bool {
        true
    }

    fn same_key(&self, _value: &u8, _key: Probe<'_>) -> bool {
        true
    }

    ghost lawful = { λ h. one_lawful };
}
