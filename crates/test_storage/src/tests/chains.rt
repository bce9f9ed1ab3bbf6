//! Nodes of one key: who comes first and next, when one leaves and comes back, and after room was made.
ghost use Rattle.std.specs.Prelude.{◌≡◌, ◌==◌, false, List as Seq, [], ◌∷◌};
ghost use Rattle.mi_node.specs.Pool.{IsHeld};
ghost use Rattle.mi_node.specs.Refs.{Ref};
ghost use Rattle.mi_chain.specs.Chained.{AreChained, AreNew};
ghost use Rattle.test_storage.specs.OneKey.{one_keying};

mod one_key;
mod rooms;
mod three;

use super::asking::{check, check_number, check_option};
use super::nodes::{name_of, take};
use mi_chain::Chains;
use mi_node::{NodeRef, Pool};
use mi_value::{Probe, Value};
use one_key::OneKey;
use std::alloc::Global;
use std::process::Abort;

/// Chains of no node, through slot 1.
fn no_chains<H>(rt: &impl Abort, alloc: Global, keys: H) -> Chains<H>
where
    H: Drop,
    ensures { AreNew result 1 keys }
{
    let Ok(chains) = Chains::new(alloc, 1, keys) else {
        panic!(rt; "no memory");
    };
    chains
}

/// Puts two nodes of one key into chains of no node, through slot 1.
fn fill(chains: &mut Chains<OneKey>, p: &mut Pool<u8>, one: NodeRef, two: NodeRef)
    requires chained { AreChained chains.old one_keying p.old [] }
    requires slot { chains.old.slot ≡ 1 }
    requires held { IsHeld p.old one × IsHeld p.old two }
    requires names { (two.name == one.name) ≡ false }
    ensures list { AreChained chains.new one_keying p.new (one ∷ two ∷ []) }
    ensures slot { chains.new.slot ≡ 1 }
{
    chains.insert(p, one, 0);
    chains.insert(p, two, 1);
}

/// Asserts that the first node of the key is this one.
fn assert_first(rt: &impl Abort, chains: &Chains<OneKey>, p: &Pool<u8>, node: NodeRef)
    requires { (rs : Seq Ref) × AreChained chains.now one_keying p.now rs }
{
    let key = [Value::Int(7)];
    let first = chains.first_of(p, Probe::Key(&key));
    check_option(rt, name_of(first), Some(node.name()), "the first node");
}

/// Asserts the order of two nodes.
fn assert_both(rt: &impl Abort, chains: &Chains<OneKey>, p: &Pool<u8>, one: NodeRef, two: NodeRef)
    requires { AreChained chains.now one_keying p.now (one ∷ two ∷ []) }
{
    assert_first(rt, chains, p, one);
    let next = chains.next_of(p, one);
    check_option(rt, name_of(next), Some(two.name()), "the second node");
    check(rt, chains.next_of(p, two).is_none(), "the end");
    check_number(rt, chains.groups(p), 1, "keys");
}

/// The first node leaves and comes back, and room is made.
fn leave_and_return(
    rt: &impl Abort,
    alloc: Global,
    chains: &mut Chains<OneKey>,
    p: &mut Pool<u8>,
    one: NodeRef,
    two: NodeRef,
)
    requires list { AreChained chains.old one_keying p.old (one ∷ two ∷ []) }
    requires slot { chains.old.slot ≡ 1 }
{
    assert_both(rt, chains, p, one, two);
    chains.remove(p, one);
    assert_first(rt, chains, p, two);
    let remembered = p.link(one, 1);
    chains.relink(p, one, remembered);
    assert_both(rt, chains, p, one, two);
    check(rt, chains.make_room(alloc, p, 1000).is_ok(), "room");
    assert_both(rt, chains, p, one, two);
}

#[test]
#[tactic(auto, using(mi_node::proofs::EntryLemmas::refs))]
fn two_of_one_key(rt: HostRuntime) {
    let mut p: Pool<u8> = Pool::with_slots(rt.alloc(), 2);
    let one = take(&rt, &mut p, 10);
    let two = take(&rt, &mut p, 20);
    let mut chains = no_chains(&rt, rt.alloc(), OneKey);
    fill(&mut chains, &mut p, one, two);
    leave_and_return(&rt, rt.alloc(), &mut chains, &mut p, one, two);
}
