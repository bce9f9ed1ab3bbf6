//! The built-in schema, and records of it.
use mi_catalog::{Catalog, built_in};
use mi_value::{Record, ValueRef};
use std::alloc::Global;
use std::process::Abort;

/// A catalog of the built-in schema alone.
pub(super) fn catalog(rt: &impl Abort, alloc: Global) -> Catalog {
    let schema = built_in(alloc).expect(rt, "memory is there");
    Catalog::of(alloc, schema).expect(rt, "memory is there")
}

pub(super) fn account(
    rt: &impl Abort,
    alloc: Global,
    owner: &str,
    balance: i64,
    vip: bool,
) -> Record {
    let values = [
        ValueRef::Text(owner),
        ValueRef::Int(balance),
        ValueRef::Flag(vip),
    ];
    Record::new(alloc, &values).expect(rt, "memory is there")
}

/// Whether a record is this account.
pub(super) fn is_account(row: &Record, owner: &str, balance: i64, vip: bool) -> bool {
    row.column_count() == 3
        && row.get(0) == Some(ValueRef::Text(owner))
        && row.get(1) == Some(ValueRef::Int(balance))
        && row.get(2) == Some(ValueRef::Flag(vip))
}
