//! Each call once on the built-in schema, whose tables stay what they are under it.
//! It touches plain tables alone.
use crate::{dropped, reshaped, reshaped_all};
use mi_catalog::{Catalog, built_in};
use mi_container::TableImage;
use mi_value::{Record, ValueRef};
use std::alloc::{AllocError, Global};
use std::process::Abort;
use std::test::Fail;

/// A table of one account, whose indexes have its id.
fn one_account(alloc: Global) -> Result<TableImage, AllocError> {
    let values = [
        ValueRef::Text("Al"),
        ValueRef::Int(30),
        ValueRef::Flag(true),
    ];
    let mut rows = Vec::new(alloc);
    rows.push((7, Record::new(alloc, &values)?))?;
    let mut lists = Vec::new(alloc);
    for _index in 0..6 {
        lists.push(Vec::from_slice(alloc, &[7])?)?;
    }
    Ok(TableImage {
        rows,
        lists,
        next: 9,
        arrivals: 12,
    })
}

/// Asserts that a table is that of the one account.
fn assert_one_account(rt: &impl Abort, image: &TableImage) {
    assert_eq!(rt; (image.next, image.arrivals), (9, 12));
    assert_eq!(rt; image.lists.len(), 6);
    let [(id, row)] = image.rows.as_slice() else {
        panic!(rt; "no row, or several");
    };
    assert_eq!(rt; *id, 7);
    assert!(rt; matches!(row.get(1), Some(ValueRef::Int(30))));
}

#[test]
fn a_table_stays_under_its_own_schema(rt: HostRuntime) -> Result<(), Fail> {
    let alloc = rt.alloc();
    let schema = built_in(alloc)?;
    match reshaped(alloc, &schema, &schema, one_account(alloc)?) {
        Ok(image) => assert_one_account(&rt, &image),
        Err(_) => panic!(&rt; "refused"),
    }
    Ok(())
}

#[test]
fn tables_stay_under_their_own_catalog(rt: HostRuntime) -> Result<(), Fail> {
    let alloc = rt.alloc();
    let catalog = Catalog::of(alloc, built_in(alloc)?)?;
    let images = vec![in alloc; one_account(alloc)?]?;
    match reshaped_all(alloc, &catalog, &catalog, images) {
        Ok(made) => match made.first() {
            Some(image) => assert_one_account(&rt, image),
            None => panic!(&rt; "no table"),
        },
        Err(_) => panic!(&rt; "refused"),
    }
    assert!(&rt; dropped(alloc, &catalog, &catalog)?.is_empty());
    Ok(())
}
