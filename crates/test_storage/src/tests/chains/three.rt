//! Three nodes: of one key by their stamps, as one leaves and comes back, and of different keys of one hash.
//! They reach the chains through their contracts alone.
ghost use Rattle.std.specs.Prelude.{◌≡◌, ◌==◌, false, List as Seq, [], ◌∷◌};
ghost use Rattle.mi_node.specs.Pool.{IsHeld};
ghost use Rattle.mi_node.specs.Refs.{Ref};
ghost use Rattle.mi_chain.specs.Chained.{AreChained};
ghost use Rattle.test_storage.specs.Numbered.{number_keying, IsAmong};

use super::super::asking::{check, check_each, check_number};
use super::super::nodes::{name_of, take_three};
use super::no_chains;
use mi_chain::{Chains, KeyHash};
use mi_node::{NodeRef, Pool};
use mi_value::{Probe, Value};
use std::alloc::Global;
use std::process::Abort;

/// Numbers by themselves. Those that differ in their sign alone have one hash.
#[derive(Drop)]
pub(super) struct ByNumber;

impl KeyHash<i64> for ByNumber {
    ghost use Rattle.test_storage.specs.Numbered.{number_keying, numbers_lawful};

    ghost keying = { λ h. number_keying };

    fn hash(&self, value: &i64) -> u64 {
        value.unsigned_abs()
    }

    fn hash_key(&self, key: Probe<'_>) -> u64 {
        match key {
            Probe::Key([Value::Int(key), ..]) => key.unsigned_abs(),
            _ => 0,
        }
    }

    fn same(&self, left: &i64, right: &i64) -> bool {
        *left == *right
    }

    fn same_key(&self, value: &i64, key: Probe<'_>) -> bool {
        match key {
            Probe::Key([Value::Int(key), ..]) => *value == *key,
            _ => false,
        }
    }

    ghost lawful = { λ h. numbers_lawful };
}

/// The node after this one among those of its key, if there is one.
fn next_if(chains: &Chains<ByNumber>, p: &Pool<i64>, node: Option<NodeRef>) -> Option<NodeRef>
    requires { (rs : Seq Ref) × AreChained chains.now number_keying p.now rs × IsAmong node rs }
    ensures { (rs : Seq Ref) → AreChained chains.now number_keying p.now rs → IsAmong node rs → IsAmong result rs }
{
    match node {
        None => None,
        Some(node) => chains.next_of(p, node),
    }
}

/// The names of the first four nodes of a key. None stands for the end.
pub(super) fn names_of_key(chains: &Chains<ByNumber>, p: &Pool<i64>, key: i64) -> [Option<u32>; 4]
    requires { (rs : Seq Ref) × AreChained chains.now number_keying p.now rs }
{
    let values = [Value::Int(key)];
    let first = chains.first_of(p, Probe::Key(&values));
    let second = next_if(chains, p, *&first);
    let third = next_if(chains, p, *&second);
    let fourth = next_if(chains, p, *&third);
    [
        name_of(first),
        name_of(second),
        name_of(third),
        name_of(fourth),
    ]
}

/// Asserts that the nodes of a key are these, where none stands for the end.
fn assert_list(
    rt: &impl Abort,
    chains: &Chains<ByNumber>,
    p: &Pool<i64>,
    key: i64,
    list: [Option<NodeRef>; 3],
)
    requires { (rs : Seq Ref) × AreChained chains.now number_keying p.now rs }
{
    let names = [name_of(list[0]), name_of(list[1]), name_of(list[2]), None];
    check_each(
        rt,
        &names_of_key(chains, p, key),
        &names,
        "the nodes of a key",
    );
}

/// Puts three nodes into chains of no node, with the stamps 0, 1 and 2.
fn fill(
    chains: &mut Chains<ByNumber>,
    p: &mut Pool<i64>,
    one: NodeRef,
    two: NodeRef,
    three: NodeRef,
)
    requires chained { AreChained chains.old number_keying p.old [] }
    requires slot { chains.old.slot ≡ 1 }
    requires held { IsHeld p.old one × IsHeld p.old two × IsHeld p.old three }
    requires second { (two.name == one.name) ≡ false }
    requires third { (three.name == one.name) ≡ false }
    requires last { (three.name == two.name) ≡ false }
    ensures list { AreChained chains.new number_keying p.new (one ∷ two ∷ three ∷ []) }
    ensures slot { chains.new.slot ≡ 1 }
{
    chains.insert(p, one, 0);
    chains.insert(p, two, 1);
    chains.insert(p, three, 2);
}

/// The first node leaves, and comes back with its stamp after room was made.
fn first_leaves(
    rt: &impl Abort,
    alloc: Global,
    chains: &mut Chains<ByNumber>,
    p: &mut Pool<i64>,
    one: NodeRef,
    two: NodeRef,
    three: NodeRef,
)
    requires list { AreChained chains.old number_keying p.old (one ∷ two ∷ three ∷ []) }
    requires slot { chains.old.slot ≡ 1 }
    ensures list { AreChained chains.new number_keying p.new (one ∷ two ∷ three ∷ []) }
    ensures slot { chains.new.slot ≡ 1 }
{
    chains.remove(p, one);
    let stamp = p.link(one, 1).tag.stamp;
    check(rt, chains.make_room(alloc, p, 1000).is_ok(), "room");
    assert_list(rt, chains, p, 7, [Some(two), Some(three), None]);
    chains.insert(p, one, stamp);
}

/// The second node leaves, and comes back between the nodes that its link names.
fn second_leaves(
    rt: &impl Abort,
    chains: &mut Chains<ByNumber>,
    p: &mut Pool<i64>,
    one: NodeRef,
    two: NodeRef,
    three: NodeRef,
)
    requires list { AreChained chains.old number_keying p.old (one ∷ two ∷ three ∷ []) }
    requires slot { chains.old.slot ≡ 1 }
    ensures list { AreChained chains.new number_keying p.new (one ∷ two ∷ three ∷ []) }
    ensures slot { chains.new.slot ≡ 1 }
{
    chains.remove(p, two);
    assert_list(rt, chains, p, 7, [Some(one), Some(three), None]);
    let remembered = p.link(two, 1);
    chains.relink(p, two, remembered);
}

#[test]
#[tactic(auto, using(mi_node::proofs::EntryLemmas::refs))]
fn three_of_one_key(rt: HostRuntime) {
    let mut p: Pool<i64> = Pool::with_slots(rt.alloc(), 2);
    let nodes = take_three(&rt, &mut p, 7, 7, 7);
    let (one, two, three) = (nodes.one, nodes.two, nodes.three);
    let mut chains = no_chains(&rt, rt.alloc(), ByNumber);
    fill(&mut chains, &mut p, one, two, three);
    assert_list(&rt, &chains, &p, 7, [Some(one), Some(two), Some(three)]);
    first_leaves(&rt, rt.alloc(), &mut chains, &mut p, one, two, three);
    assert_list(&rt, &chains, &p, 7, [Some(one), Some(two), Some(three)]);
    second_leaves(&rt, &mut chains, &mut p, one, two, three);
    assert_list(&rt, &chains, &p, 7, [Some(one), Some(two), Some(three)]);
}

/// Asserts that room for this many keys is refused, and that each list is as it was.
fn refuse_room(
    rt: &impl Abort,
    alloc: Global,
    chains: &mut Chains<ByNumber>,
    p: &mut Pool<i64>,
    one: NodeRef,
    two: NodeRef,
    three: NodeRef,
    n: u64,
)
    requires { AreChained chains.old number_keying p.old (one ∷ two ∷ three ∷ []) }
    ensures { AreChained chains.new number_keying p.new (one ∷ two ∷ three ∷ []) }
{
    check(rt, chains.make_room(alloc, p, n).is_err(), "no room");
    assert_list(rt, chains, p, 5, [Some(one), Some(three), None]);
    assert_list(rt, chains, p, -5, [Some(two), None, None]);
    assert_list(rt, chains, p, 6, [None, None, None]);
}

#[test]
#[tactic(auto, using(mi_node::proofs::EntryLemmas::refs))]
fn refused_room_changes_no_list(rt: HostRuntime) {
    let mut p: Pool<i64> = Pool::with_slots(rt.alloc(), 2);
    let nodes = take_three(&rt, &mut p, 5, -5, 5);
    let (one, two, three) = (nodes.one, nodes.two, nodes.three);
    let mut chains = no_chains(&rt, rt.alloc(), ByNumber);
    fill(&mut chains, &mut p, one, two, three);
    check_number(&rt, chains.groups(&p), 2, "keys");
    refuse_room(
        &rt,
        rt.alloc(),
        &mut chains,
        &mut p,
        one,
        two,
        three,
        u64::MAX,
    );
    refuse_room(
        &rt,
        rt.alloc(),
        &mut chains,
        &mut p,
        one,
        two,
        three,
        1 << 62,
    );
}
