//! The answers of a small tree, and how many comparisons look-ups really make.
use std::alloc::Global;
use std::cell::Cell;
use std::mem::size_of;
use std::process::Abort;

mod stock;

use super::asking::{check, check_each, check_few, check_number, check_option};
use mi_node::{Counted, Pool};
use mi_tree::Direction;
use mi_value::Steps;
use stock::Stock;

/// Asserts the ids in order.
fn assert_ids(rt: &impl Abort, stock: &Stock<'_>, ids: &[Option<u32>; 4]) {
    let found = [stock.nth(0), stock.nth(1), stock.nth(2), stock.nth(3)];
    check_each(rt, &found, ids, "the ids in order");
}

/// Keys of a small tree of the ids 12, 10 and 11, whose keys are 3, 5 and 5. Of each are told the first node that isn't before it, the first
/// behind it, and its own. Then come how many keys are less, and how many aren't greater.
const AT_KEYS: [(i64, [Option<u32>; 5]); 5] = [
    (2, [Some(12), Some(12), None, Some(0), Some(0)]),
    (3, [Some(12), Some(10), Some(12), Some(0), Some(1)]),
    (4, [Some(10), Some(10), None, Some(1), Some(1)]),
    (5, [Some(10), None, Some(10), Some(1), Some(3)]),
    (6, [None, None, None, Some(3), Some(3)]),
];

/// What a key is answered, as `AT_KEYS` has it.
fn answers_at(stock: &Stock<'_>, key: i64) -> [Option<u32>; 5] {
    [
        stock.lower(key),
        stock.upper(key),
        stock.find(key),
        Some(stock.lower_rank(key)),
        Some(stock.upper_rank(key)),
    ]
}

fn assert_keys(rt: &impl Abort, stock: &Stock<'_>) {
    for (key, answers) in &AT_KEYS {
        check_each(
            rt,
            &answers_at(stock, *key),
            answers,
            "the answers at a key",
        );
    }
}

/// Its ranks: the nodes before and after each.
const AT_RANKS: [(u32, [Option<u32>; 2]); 3] = [
    (0, [None, Some(10)]),
    (1, [Some(12), Some(11)]),
    (2, [Some(10), None]),
];

fn assert_neighbours(rt: &impl Abort, stock: &Stock<'_>) {
    for (rank, neighbours) in &AT_RANKS {
        let found = [stock.before(*rank), stock.after(*rank)];
        check_each(rt, &found, neighbours, "the neighbours of a rank");
    }
}

/// Its keys 3, 5 and 5 with the stamps 2, 0 and 1: whether the node of a rank keeps its place with that key and that stamp.
const KEPT: [(u32, u32, u64, bool); 17] = [
    // the first, below its neighbour, and among its equals
    (0, 2, 3, true),
    (0, 3, 3, true),
    (0, 4, 3, true),
    (0, 5, 3, false),
    (0, 6, 3, false),
    // between two, one of which it comes to equal
    (1, 2, 3, false),
    (1, 3, 3, true),
    (1, 4, 3, true),
    (1, 5, 3, false),
    (1, 6, 3, false),
    // back to its own stamp, and to one in front of an equal
    (1, 5, 0, true),
    (1, 3, 1, false),
    // the last
    (2, 4, 3, false),
    (2, 5, 3, true),
    (2, 6, 3, true),
    // nothing changes, and a stamp alone
    (2, 5, 1, true),
    (0, 3, 0, true),
];

fn assert_kept(rt: &impl Abort, stock: &Stock<'_>) {
    for (rank, key, stamp, keeps) in &KEPT {
        let found = stock.keeps(*rank, *key, *stamp);
        assert!(rt;
            found == Some(*keeps),
            "rank {rank}, key {key}, stamp {stamp}"
        );
    }
    check(
        rt,
        stock.keeps(3, 5, 3).is_none(),
        "a rank of no node keeps no place",
    );
}

/// Adds nodes of ids and keys.
fn add_all(rt: &impl Abort, stock: &mut Stock<'_>, ids_and_keys: &[(u32, u32)]) {
    for (id, key) in ids_and_keys {
        check(rt, stock.add(*key, *id), "a node is added");
    }
}

/// The ids of the small tree, and those without the second.
const IN_ORDER: [Option<u32>; 4] = [Some(12), Some(10), Some(11), None];

const WITHOUT_SECOND: [Option<u32>; 4] = [Some(12), Some(11), None, None];

/// Asserts that of the ids 12, 10 and 11 the second leaves, and comes back to its place.
fn second_leaves(rt: &impl Abort, stock: &mut Stock<'_>) {
    check(rt, stock.pull(1), "the second leaves");
    assert_ids(rt, stock, &WITHOUT_SECOND);
    check(rt, stock.put(), "the second comes back");
    assert_ids(rt, stock, &IN_ORDER);
}

/// The ids and keys of the small tree, and one more for walks.
const SMALL: [(u32, u32); 3] = [(10, 5), (11, 5), (12, 3)];

const WALKED: [(u32, u32); 4] = [(10, 5), (11, 5), (12, 3), (13, 9)];

/// Asserts what the small tree answers.
fn ask_small_tree(rt: &impl Abort, stock: &Stock<'_>) {
    check_number(rt, u64::from(stock.len()), 3, "nodes");
    assert_ids(rt, stock, &IN_ORDER);
    check_option(rt, stock.rank_of_nth(2), Some(2), "the last node's rank");
    assert_keys(rt, stock);
    assert_neighbours(rt, stock);
    assert_kept(rt, stock);
}

fn assert_small_tree(rt: &impl Abort, alloc: Global, tagged: bool) {
    let calls = Cell::new(0);
    let mut stock = Stock::new(alloc, &calls, tagged);
    add_all(rt, &mut stock, &SMALL);
    ask_small_tree(rt, &stock);
    second_leaves(rt, &mut stock);
}

#[test]
fn nodes_of_one_key_stand_by_their_stamps(rt: HostRuntime) {
    assert_small_tree(&rt, rt.alloc(), false);
    assert_small_tree(&rt, rt.alloc(), true);
}

/// Walks of a tree of the ids 12, 10, 11 and 13, from the place behind the first nodes: their first ids.
const WALKS: [(Direction, u32, [Option<u32>; 3]); 4] = [
    (Direction::Ascending, 0, [Some(12), Some(10), Some(11)]),
    (Direction::Ascending, 2, [Some(11), Some(13), None]),
    (Direction::Descending, 4, [Some(13), Some(11), Some(10)]),
    (Direction::Descending, 2, [Some(10), Some(12), None]),
];

/// Walks of that tree, in which 10 and 11 have the key 5, from the place of a key in front of its nodes or behind them.
const WALKS_PAST: [(Direction, bool, [Option<u32>; 3]); 4] = [
    (Direction::Ascending, false, [Some(10), Some(11), Some(13)]),
    (Direction::Ascending, true, [Some(13), None, None]),
    (Direction::Descending, true, [Some(11), Some(10), Some(12)]),
    (Direction::Descending, false, [Some(12), None, None]),
];

fn assert_walks(rt: &impl Abort, stock: &Stock<'_>) {
    for (direction, passed, ids) in &WALKS {
        check_each(rt, &stock.walk(*direction, *passed), ids, "a walk");
    }
}

fn assert_walks_past(rt: &impl Abort, stock: &Stock<'_>) {
    for (direction, is_upper, ids) in &WALKS_PAST {
        check_each(
            rt,
            &stock.walk_from_bound(*direction, 5, *is_upper),
            ids,
            "a walk past a key",
        );
    }
}

fn walk_both_ways(rt: &impl Abort, alloc: Global, tagged: bool) {
    let calls = Cell::new(0);
    let mut stock = Stock::new(alloc, &calls, tagged);
    add_all(rt, &mut stock, &WALKED);
    assert_walks(rt, &stock);
    assert_walks_past(rt, &stock);
}

#[test]
fn walks_go_both_ways(rt: HostRuntime) {
    walk_both_ways(&rt, rt.alloc(), false);
    walk_both_ways(&rt, rt.alloc(), true);
}

/// Asserts that no more calls of the order were counted than `most`, and counts from zero again.
fn assert_few(rt: &impl Abort, calls: &Cell<u64>, most: u64) {
    check_few(rt, calls.replace(0), most, "calls");
}

/// Asserts that no look-up of a key makes more calls of the order than `most`.
fn look_up_key(rt: &impl Abort, stock: &Stock<'_>, calls: &Cell<u64>, key: i64, most: u64) {
    let _ = stock.find(key);
    assert_few(rt, calls, most);
    let _ = stock.lower(key);
    assert_few(rt, calls, most);
    let _ = stock.upper(key);
    assert_few(rt, calls, most);
    let _ = stock.lower_rank(key);
    assert_few(rt, calls, most);
    let _ = stock.upper_rank(key);
    assert_few(rt, calls, most);
}

/// Asserts that each rank is that of its node, and asks for no more calls of the order than `most`.
fn look_up_ranks(rt: &impl Abort, stock: &Stock<'_>, calls: &Cell<u64>, most: u64) {
    for rank in 0..stock.len() {
        check_option(rt, stock.rank_of_nth(rank), Some(rank), "a node's rank");
        assert_few(rt, calls, most);
    }
}

/// Asserts that no look-up makes more calls of the order than `most`.
fn look_up_all(rt: &impl Abort, stock: &Stock<'_>, calls: &Cell<u64>, most: u64) {
    calls.set(0);
    for key in -1..1001 {
        look_up_key(rt, stock, calls, key, most);
    }
    look_up_ranks(rt, stock, calls, most);
    ask_for_places(rt, stock, calls, most.wrapping_mul(2));
}

/// Asserts that no question for a place makes more calls of the order than `most`.
fn ask_for_places(rt: &impl Abort, stock: &Stock<'_>, calls: &Cell<u64>, most: u64) {
    for rank in 0..stock.len() {
        ask_for_place(rt, stock, calls, rank, 0, most);
        ask_for_place(rt, stock, calls, rank, rank, most);
        ask_for_place(rt, stock, calls, rank, rank.wrapping_add(1), most);
        ask_for_place(rt, stock, calls, rank, 1000, most);
    }
}

fn ask_for_place(
    rt: &impl Abort,
    stock: &Stock<'_>,
    calls: &Cell<u64>,
    rank: u32,
    key: u32,
    most: u64,
) {
    let _ = stock.keeps(rank, key, 1_000_000);
    assert_few(rt, calls, most);
}

/// Takes the node of a rank out, so many times.
fn pull_all(rt: &impl Abort, stock: &mut Stock<'_>, times: u32, rank: u32) {
    for _ in 0..times {
        check(rt, stock.pull(rank), "a node leaves");
    }
}

/// Puts so many nodes back: each node of n has the rank that is its id again.
fn put_all(rt: &impl Abort, stock: &mut Stock<'_>, times: u32, n: u32) {
    for _ in 0..times {
        check(rt, stock.put(), "a node comes back");
    }
    check_number(rt, u64::from(stock.len()), u64::from(n), "nodes");
    for rank in 0..n {
        check_option(rt, stock.nth(rank), Some(rank), "a node's id");
    }
}

/// Takes half of the nodes out and puts them back: the ids stand in order again.
fn leave_and_return(rt: &impl Abort, stock: &mut Stock<'_>, calls: &Cell<u64>, n: u32, less: u64) {
    pull_all(rt, stock, n / 2, n / 4);
    check_number(rt, u64::from(stock.len()), u64::from(n - n / 2), "nodes");
    look_up_all(rt, stock, calls, less);
    put_all(rt, stock, n / 2, n);
}

/// Adds n nodes, each key this many above the one before it, modulo 1,000.
fn add_steps(rt: &impl Abort, stock: &mut Stock<'_>, n: u32, step: u32) {
    for i in 0..n {
        let key = i.wrapping_mul(step) % 1000;
        check(rt, stock.add(key, key), "a node is added");
    }
}

/// So many nodes: how many calls a look-up makes at most, and with half of them.
const SIZES: [(u32, u64, u64); 3] = [(0, 1, 1), (1, 3, 3), (1000, 21, 19)];

/// Looks up in a tree of n nodes, which were added by this step.
fn look_up_in(rt: &impl Abort, alloc: Global, n: u32, step: u32, most: u64, less: u64) {
    let calls = Cell::new(0);
    let mut stock = Stock::new(alloc, &calls, false);
    add_steps(rt, &mut stock, n, step);
    look_up_all(rt, &stock, &calls, most);
    leave_and_return(rt, &mut stock, &calls, n, less);
    look_up_all(rt, &stock, &calls, most);
}

/// Keys come from below, mixed, and from above.
#[test]
fn look_ups_make_few_calls(rt: HostRuntime) {
    for (n, most, less) in &SIZES {
        look_up_in(&rt, rt.alloc(), *n, 1, *most, *less);
        look_up_in(&rt, rt.alloc(), *n, 617, *most, *less);
        look_up_in(&rt, rt.alloc(), *n, 999, *most, *less);
    }
}

/// What counts steps, and reads of a pool, for contracts takes no bytes when the program runs.
#[test]
fn counts_take_no_bytes(rt: HostRuntime) {
    check_number(&rt, size_of::<Steps>() as u64, 0, "steps take no bytes");
    let counted = size_of::<Counted<'static, u64>>();
    check(
        &rt,
        counted == size_of::<&'static Pool<u64>>(),
        "nor do counted reads",
    );
}

/// How many nodes leave, one after another, from behind as many and one more.
const TOPS: [u32; 9] = [511, 255, 127, 63, 31, 15, 7, 3, 1];

fn pull_tops(rt: &impl Abort, stock: &mut Stock<'_>) {
    for top in &TOPS {
        pull_all(rt, stock, *top, top.wrapping_add(1));
    }
}

/// Of 1023 nodes in order the left edge of their tree stays: ten nodes, which are low again.
#[test]
fn a_tree_gets_lower(rt: HostRuntime) {
    let calls = Cell::new(0);
    let mut stock = Stock::new(rt.alloc(), &calls, false);
    for key in 0..1023 {
        check(&rt, stock.add(key, key), "a node is added");
    }
    pull_tops(&rt, &mut stock);
    check_number(&rt, u64::from(stock.len()), 10, "nodes");
    look_up_all(&rt, &stock, &calls, 9);
}
