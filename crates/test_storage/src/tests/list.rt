//! The sequenced list: three nodes come in, leave and come back, and are moved about.
//! It asks the public calls alone.
ghost use Rattle.std.specs.Prelude.{◌≡◌, ◌==◌, false, List as Seq, [], ◌∷◌};
ghost use Rattle.mi_node.specs.Pool.{IsHeld};
ghost use Rattle.mi_node.specs.Refs.{Ref};
ghost use Rattle.mi_list.specs.Listed.{IsListed};

use super::asking::check_option;
use super::nodes::{name_of, take_three};
use mi_list::List;
use mi_node::{NodeRef, Pool};
use std::process::Abort;

/// Asserts that the list has nodes of these names: each is the next of the one before, which stands before it, from the first on to the
/// last.
fn assert_names(rt: &impl Abort, list: &List, p: &Pool<u8>, names: &[u32])
    requires { (rs : Seq Ref) × IsListed list.now p.now rs }
{
    let mut at = list.first(p);
    let mut before = None;
    for name in names {
        check_option(rt, name_of(*&at), Some(*name), "a node");
        let Some(node) = at else {
            return;
        };
        check_option(
            rt,
            name_of(list.prev(p, node)),
            before,
            "the node before it",
        );
        before = Some(*name);
        at = list.next(p, node);
    }
    check_option(rt, name_of(at), None, "the end");
    check_option(rt, name_of(list.last(p)), before, "the last node");
}

/// Puts three nodes into an empty list, the second of them last.
fn fill(list: &mut List, p: &mut Pool<u8>, one: NodeRef, two: NodeRef, three: NodeRef)
    requires listed { IsListed list.old p.old [] }
    requires held { IsHeld p.old one × IsHeld p.old two × IsHeld p.old three }
    requires names { ((two.name == one.name) ≡ false) × ((three.name == one.name) ≡ false) × ((two.name == three.name) ≡ false) }
    ensures { IsListed list.new p.new (one ∷ two ∷ three ∷ []) }
{
    list.push_back(p, one);
    list.push_back(p, three);
    list.insert_before(p, two, Some(three));
}

/// Takes out the second node and then the third, and puts them back in the other order.
fn leave_and_return(
    rt: &impl Abort,
    list: &mut List,
    p: &mut Pool<u8>,
    one: NodeRef,
    two: NodeRef,
    three: NodeRef,
)
    requires { IsListed list.old p.old (one ∷ two ∷ three ∷ []) }
    ensures { IsListed list.new p.new (one ∷ two ∷ three ∷ []) }
{
    list.unlink(p, two);
    assert_names(rt, list, p, &[one.name(), three.name()]);
    list.unlink(p, three);
    assert_names(rt, list, p, &[one.name()]);
    list.relink(p, three);
    assert_names(rt, list, p, &[one.name(), three.name()]);
    list.relink(p, two);
}

/// Moves the first node to the end, a node before itself, and the last node before another.
fn move_about(
    rt: &impl Abort,
    list: &mut List,
    p: &mut Pool<u8>,
    one: NodeRef,
    two: NodeRef,
    three: NodeRef,
)
    requires { IsListed list.old p.old (one ∷ two ∷ three ∷ []) }
{
    list.move_before(p, one, None);
    assert_names(rt, list, p, &[two.name(), three.name(), one.name()]);
    list.move_before(p, three, Some(three));
    assert_names(rt, list, p, &[two.name(), three.name(), one.name()]);
    list.move_before(p, one, Some(three));
    assert_names(rt, list, p, &[two.name(), one.name(), three.name()]);
}

#[test]
#[tactic(auto, using(mi_node::proofs::EntryLemmas::refs))]
fn nodes_leave_and_come_back(rt: HostRuntime) {
    let mut p: Pool<u8> = Pool::with_slots(rt.alloc(), 2);
    let nodes = take_three(&rt, &mut p, 10, 20, 30);
    let (one, two, three) = (nodes.one, nodes.two, nodes.three);
    let mut list = List::new(1);
    fill(&mut list, &mut p, one, two, three);
    assert_names(&rt, &list, &p, &[one.name(), two.name(), three.name()]);
    leave_and_return(&rt, &mut list, &mut p, one, two, three);
    assert_names(&rt, &list, &p, &[one.name(), two.name(), three.name()]);
    move_about(&rt, &mut list, &mut p, one, two, three);
}
