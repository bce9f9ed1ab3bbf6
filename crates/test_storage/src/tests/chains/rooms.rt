//! Seven nodes of four keys through growing rooms, and as two of one key leave and come back.
//! They reach the chains through their contracts alone.
ghost use Rattle.std.specs.Prelude.{◌≡◌, ◌<◌, ◌+◌, List as Seq, []};
ghost use Rattle.mi_node.specs.Refs.{Ref};
ghost use Rattle.mi_chain.specs.Chained.{AreChained};
ghost use Rattle.test_storage.specs.Numbered.{number_keying, AreNumbered, IsPulled, AreSeenAlike};

use super::super::asking::{check, check_each, check_number};
use super::super::nodes::take;
use super::no_chains;
use super::three::{ByNumber, names_of_key};
use mi_chain::Chains;
use mi_node::{Link, NodeRef, Pool};
use mi_value::{Probe, Value};
use std::alloc::Global;
use std::process::Abort;

/// The numbers of the nodes, from 1 on in this order.
const KEYS: [i64; 7] = [5, 21, -5, 5, 0, 21, 5];

/// Keys of one hash, of one bucket among few, and of buckets of their own; and no node of one key. 0 stands for the end.
const LISTS: [(i64, [usize; 4]); 5] = [
    (5, [1, 4, 7, 0]),
    (21, [2, 6, 0, 0]),
    (-5, [3, 0, 0, 0]),
    (0, [5, 0, 0, 0]),
    (6, [0, 0, 0, 0]),
];

/// Takes a node for a number, and puts it into the chains with a stamp above all others. Answers its name.
fn add(
    rt: &impl Abort,
    chains: &mut Chains<ByNumber>,
    p: &mut Pool<i64>,
    number: i64,
    stamp: u64,
) -> u32
    requires numbered { (rs : Seq Ref) × AreNumbered chains.old p.old rs stamp }
    requires few { stamp < 1000 }
    ensures numbered { (rs : Seq Ref) × AreNumbered chains.new p.new rs (stamp + 1) }
    ensures slot { chains.new.slot ≡ chains.old.slot }
{
    let node = take(rt, p, number);
    chains.insert(p, node, stamp);
    node.name()
}

/// Adds all of them. Answers their names, in order.
fn add_all(
    rt: &impl Abort,
    alloc: Global,
    chains: &mut Chains<ByNumber>,
    p: &mut Pool<i64>,
) -> Vec<u32>
    requires numbered { AreNumbered chains.old p.old [] 0 }
    requires slot { chains.old.slot ≡ 1 }
    ensures list { (rs : Seq Ref) × AreChained chains.new number_keying p.new rs }
    ensures slot { chains.new.slot ≡ 1 }
{
    let mut names = Vec::new(alloc);
    'keys: for before in 0..KEYS.len() {
        let name = add(rt, chains, p, KEYS[before], before as u64);
        check(rt, names.push(name).is_ok(), "memory");
    }
    names
}

/// Asserts that the nodes of a key begin with these.
fn assert_list(
    rt: &impl Abort,
    chains: &Chains<ByNumber>,
    p: &Pool<i64>,
    names: &[u32],
    key: i64,
    list: [usize; 4],
)
    requires { (rs : Seq Ref) × AreChained chains.now number_keying p.now rs }
{
    let want = [
        named(names, list[0]),
        named(names, list[1]),
        named(names, list[2]),
        named(names, list[3]),
    ];
    check_each(
        rt,
        &names_of_key(chains, p, key),
        &want,
        "the nodes of a key",
    );
}

/// The name of the node of this number, and none for 0.
fn named(names: &[u32], number: usize) -> Option<u32> {
    match number {
        0 => None,
        number => names.get(number - 1).copied(),
    }
}

/// Takes the first node of a key out of the chains. Answers it with the link that it keeps.
fn pull(chains: &mut Chains<ByNumber>, p: &mut Pool<i64>, key: i64) -> Option<(NodeRef, Link)>
    requires list { (rs : Seq Ref) × AreChained chains.old number_keying p.old rs }
    requires slot { chains.old.slot ≡ 1 }
    ensures list { (rs : Seq Ref) → AreChained chains.old number_keying p.old rs → IsPulled chains.new p.new rs result }
    ensures alike { AreSeenAlike p.old p.new chains.old.slot }
    ensures slot { chains.new.slot ≡ chains.old.slot }
{
    let values = [Value::Int(key)];
    let node = chains.first_of(p, Probe::Key(&values))?;
    chains.remove(p, node);
    Some((node, p.link(node, 1)))
}

/// The first two nodes of the key 5 leave and come back.
fn pull_two(rt: &impl Abort, chains: &mut Chains<ByNumber>, p: &mut Pool<i64>, names: &[u32])
    requires list { (rs : Seq Ref) × AreChained chains.old number_keying p.old rs }
    requires slot { chains.old.slot ≡ 1 }
{
    let Some((one, before)) = pull(chains, p, 5) else {
        panic!(rt; "no node of the key");
    };
    assert_list(rt, chains, p, names, 5, [4, 7, 0, 0]);
    let Some((four, between)) = pull(chains, p, 5) else {
        panic!(rt; "no second node of the key");
    };
    assert_list(rt, chains, p, names, 5, [7, 0, 0, 0]);
    chains.relink(p, four, between);
    assert_list(rt, chains, p, names, 5, [4, 7, 0, 0]);
    chains.relink(p, one, before);
    assert_list(rt, chains, p, names, 5, [1, 4, 7, 0]);
}

/// How many keys room is asked for, and whether it is made.
const ROOMS: [(u64, bool); 7] = [
    (0, true),
    (16, true),
    (17, true),
    (u64::MAX, false),
    (1000, true),
    (1 << 62, false),
    (100, true),
];

/// Asks for rooms one after another; after each, made or refused, every list is as before.
fn ask_rooms(
    rt: &impl Abort,
    alloc: Global,
    chains: &mut Chains<ByNumber>,
    p: &mut Pool<i64>,
    names: &[u32],
)
    requires list { (rs : Seq Ref) × AreChained chains.old number_keying p.old rs }
    requires slot { chains.old.slot ≡ 1 }
    ensures list { (rs : Seq Ref) × AreChained chains.new number_keying p.new rs }
    ensures slot { chains.new.slot ≡ 1 }
{
    'rooms: for (n, made) in &ROOMS {
        let is_made = chains.make_room(alloc, p, *n).is_ok();
        check(rt, is_made == *made, "room");
        assert_lists(rt, chains, p, names);
    }
}

fn assert_lists(rt: &impl Abort, chains: &Chains<ByNumber>, p: &Pool<i64>, names: &[u32])
    requires { (rs : Seq Ref) × AreChained chains.now number_keying p.now rs }
{
    for (key, list) in &LISTS {
        assert_list(rt, chains, p, names, *key, *list);
    }
}

#[test]
#[tactic(auto, using(mi_node::proofs::EntryLemmas::refs))]
fn rooms_and_pulls_change_no_list(rt: HostRuntime) {
    let mut p: Pool<i64> = Pool::with_slots(rt.alloc(), 2);
    let mut chains = no_chains(&rt, rt.alloc(), ByNumber);
    let names = add_all(&rt, rt.alloc(), &mut chains, &mut p);
    check_number(&rt, chains.groups(&p), 4, "keys");
    ask_rooms(&rt, rt.alloc(), &mut chains, &mut p, &names);
    pull_two(&rt, &mut chains, &mut p, &names);
}
