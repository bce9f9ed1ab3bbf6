//! Calls of records, keys and edits once, with ample memory.
use super::accounts::{account, is_account};
use mi_value::{
    Edit, Key, KeyPart, Record, Text, Value, apply, compare_key, compare_prefix, hash_values,
    same_key,
};
use std::cmp::Ordering;
use std::test::Fail;

/// The class of accounts: by the flag, those with it first, and by the balance.
const CLASS: [KeyPart; 2] = [
    KeyPart {
        column: 2,
        descending: true,
    },
    KeyPart {
        column: 1,
        descending: false,
    },
];

const OWNER: [KeyPart; 1] = [KeyPart {
    column: 0,
    descending: false,
}];

#[test]
fn keys_compare(rt: HostRuntime) {
    let alloc = rt.alloc();
    let a = account(&rt, alloc, "a", 1, true);
    for (balance, vip, want) in [
        (2, false, Ordering::Less),
        (3, true, Ordering::Less),
        (1, true, Ordering::Equal),
    ] {
        let b = account(&rt, alloc, "b", balance, vip);
        assert!(rt; compare_key(&a, &b, &CLASS) == want);
        assert!(rt; same_key(&a, &b, &CLASS) == (want == Ordering::Equal));
    }
}

#[test]
fn prefixes_compare(rt: HostRuntime) -> Result<(), Fail> {
    let third = account(&rt, rt.alloc(), "b", 3, true);
    let prefix = [Value::Flag(true)];
    assert!(rt; compare_prefix(&prefix, &third, &CLASS) == Ordering::Equal);
    let key = Key::new(vec![in rt.alloc(); Value::Int(3)]?);
    assert_eq!(rt; key.values().len(), 1);
    Ok(())
}

#[test]
fn keys_are_hashed(rt: HostRuntime) -> Result<(), Fail> {
    let alloc = rt.alloc();
    let a = account(&rt, alloc, "a", 1, true);
    assert!(rt; is_account(&a.copy(alloc)?, "a", 1, true));
    let other = account(&rt, alloc, "a", 2, false);
    let hash = hash_values(&[Value::Text(Text::of(alloc, "a")?)]);
    assert!(rt; a.key_hash(&OWNER) == hash && other.key_hash(&OWNER) == hash);
    Ok(())
}

#[test]
fn edits_are_applied(rt: HostRuntime) -> Result<(), Fail> {
    let alloc = rt.alloc();
    let row = account(&rt, alloc, "a", 5, false);
    let edits = [
        Edit::Add(1, 2),
        Edit::Put(0, Value::Text(Text::of(alloc, "b")?)),
    ];
    assert!(rt; is_account(&row.copy(alloc)?, "a", 5, false));
    match apply(alloc, &row, &edits) {
        Ok(edited) => assert!(rt; is_account(&edited, "b", 7, false)),
        Err(refusal) => assert_eq!(rt; refusal.word(), "ok"),
    }
    match apply(alloc, &row, &[Edit::Add(1, 9_223_372_036_854_775_807)]) {
        Ok(_edited) => assert!(rt; false, "a sum past the last number"),
        Err(refusal) => assert_eq!(rt; refusal.word(), "range"),
    }
    Ok(())
}
