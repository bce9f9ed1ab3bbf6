//! What no clause says: that there is memory for a table's structures and for a row.
use super::asking::check_number;
use mi_catalog::built_in;
use mi_index::{Nodes, Stored};
use mi_value::Record;

#[test]
fn a_row_comes_into_all_indexes(rt: HostRuntime) {
    let alloc = rt.alloc();
    let Ok(schema) = built_in(alloc) else {
        panic!(rt; "no memory");
    };
    let Ok(mut nodes) = Nodes::new(alloc, &schema, 5) else {
        panic!(rt; "no memory");
    };
    let Ok(row) = Record::new(alloc, &[]) else {
        panic!(rt; "no memory");
    };
    let stored = Stored { id: 1, row };
    let Ok(node) = nodes.link_in(alloc, stored, 1, 7, None) else {
        panic!(rt; "no memory");
    };
    check_number(&rt, nodes.pool.value(node).id, 1, "the row");
}
