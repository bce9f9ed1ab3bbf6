//! Laws of edits and hashes, each the contract of a function that takes nothing and does nothing.
ghost use Rattle.mi_value.specs.Edits.{EditsInAnyOrder, RangeOfOneEdit};
ghost use Rattle.mi_value.specs.Hash.{EqualKeysHaveEqualHashes, KeysHaveTheirRecordsHash};

/// Edits of different columns commute: in any order they make the same of a record. They leave 64 bits exactly where one
/// of them alone does, made on the record as it was.
pub fn edits_in_any_order()
    ensures order { EditsInAnyOrder }
    ensures range { RangeOfOneEdit }
{}

/// Records of one key have one hash of it; and a key that is looked for has the hash of each record that has this key.
pub fn equal_keys_have_equal_hashes()
    ensures records { EqualKeysHaveEqualHashes }
    ensures look_ups { KeysHaveTheirRecordsHash }
{}
