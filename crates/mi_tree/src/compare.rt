//! Comparisons by tags, and by values where tags don't decide.
//! They read values through a counted pool, and no links: a caller has read those. It has also asked, once for its whole path
//! down, whether the tag that it goes by decides.
ghost use Rattle.std.specs.Prelude.{◌≡◌, ◌+◌, ◌*◌, ◌^◌, Some};
ghost use Rattle.std.specs.Ordering.{is_lt};
ghost use Rattle.mi_node.specs.Pool.{IsHeld, value_of};
ghost use Rattle.mi_tree.specs.Sorted.{IsTagOf, by_stamp, compared, stamped};
ghost use Rattle.mi_tree.specs.Probed.{place_at, is_decided};

use crate::order::NodeOrder;
use mi_node::{Counted, NodeRef, Pool, Tag};
use mi_value::{Probe, Steps};
use std::cmp::Ordering;

/// How many stamps there are.
const STAMPS: u128 = 0x1_0000_0000_0000_0000;

/// Where the left node stands beside the right one: by the tags, or by the values if the left tag doesn't
/// decide, and nodes of one key by their stamps.
#[inline(always)]
pub(crate) fn compare_nodes<T, O: NodeOrder<T>>(
    p: &Counted<T>,
    order: &O,
    left: NodeRef,
    left_tag: Tag,
    decided: bool,
    right: NodeRef,
    right_tag: Tag,
    steps: &mut Steps,
) -> Ordering
    requires left { IsHeld p.now.pool left × IsTagOf (O.tag_of order.now) (value_of p.now.pool left.name) left_tag.key }
    requires decided { decided ≡ O.is_exact order.now left_tag.key }
    requires right { IsHeld p.now.pool right × IsTagOf (O.tag_of order.now) (value_of p.now.pool right.name) right_tag.key }
    ensures result { result ≡ compared (by_stamp (O.order order.now))
        (stamped (value_of p.now.pool left.name) left_tag.stamp) (stamped (value_of p.now.pool right.name) right_tag.stamp) }
    ensures steps { steps.new.count ≡ steps.old.count + 1 }
{
    if left_tag.key != right_tag.key {
        steps.tick();
        return left_tag.key.cmp(&right_tag.key);
    }
    if decided {
        steps.tick();
        return left_tag.stamp.cmp(&right_tag.stamp);
    }
    compare_values(
        p,
        order,
        left,
        left_tag.stamp,
        right,
        right_tag.stamp,
        steps,
    )
}

/// Whether the left node stands before the right one. It is asked of nodes of which no two are alike: so where the left tag
/// decides, both parts of the tags are compared at once.
#[inline(always)]
pub(crate) fn is_before<T, O: NodeOrder<T>>(
    p: &Counted<T>,
    order: &O,
    left: NodeRef,
    left_tag: Tag,
    decided: bool,
    right: NodeRef,
    right_tag: Tag,
    steps: &mut Steps,
) -> bool
    requires left { IsHeld p.now.pool left × IsTagOf (O.tag_of order.now) (value_of p.now.pool left.name) left_tag.key }
    requires decided { decided ≡ O.is_exact order.now left_tag.key }
    requires right { IsHeld p.now.pool right × IsTagOf (O.tag_of order.now) (value_of p.now.pool right.name) right_tag.key }
    ensures result { result ≡ is_lt (compared (by_stamp (O.order order.now))
        (stamped (value_of p.now.pool left.name) left_tag.stamp) (stamped (value_of p.now.pool right.name) right_tag.stamp)) }
    ensures steps { steps.new.count ≡ steps.old.count + 1 }
{
    if decided {
        steps.tick();
        return number(left_tag).cmp(&number(right_tag)).is_lt();
    }
    compare_nodes(p, order, left, left_tag, decided, right, right_tag, steps).is_lt()
}

/// A tag as one number: its key, and behind that its stamp.
#[inline(always)]
fn number(tag: Tag) -> u128
    ensures { result ≡ tag.key * 2 ^ 64 + tag.stamp }
{
    u128::from(tag.key) * STAMPS + u128::from(tag.stamp)
}

/// The same by the values, and by these stamps. On a path down most nodes differ by their tags, so this
/// stands apart.
#[inline(never)]
fn compare_values<T, O: NodeOrder<T>>(
    p: &Counted<T>,
    order: &O,
    left: NodeRef,
    left_stamp: u64,
    right: NodeRef,
    right_stamp: u64,
    steps: &mut Steps,
) -> Ordering
    requires left { IsHeld p.now.pool left }
    requires right { IsHeld p.now.pool right }
    ensures result { result ≡ compared (by_stamp (O.order order.now))
        (stamped (value_of p.now.pool left.name) left_stamp) (stamped (value_of p.now.pool right.name) right_stamp) }
    ensures steps { steps.new.count ≡ steps.old.count + 1 }
{
    order
        .compare(p.value(left), p.value(right), steps)
        .then(left_stamp.cmp(&right_stamp))
}

/// Whether the probe's tag decides: it has one, which says all of its key.
pub(crate) fn probe_is_complete<T, O: NodeOrder<T>>(order: &O, probe_tag: Option<u64>) -> bool
    ensures { result ≡ is_decided (O.is_exact order.now) probe_tag }
{
    match probe_tag {
        Some(sought) => order.is_complete(sought),
        None => false,
    }
}

/// Where the node stands beside the probe: by their tags, or by the value.
#[inline(always)]
pub(crate) fn compare_probe<T, O: NodeOrder<T>>(
    p: &Counted<T>,
    order: &O,
    node: NodeRef,
    tag: Tag,
    probe: Probe<'_>,
    probe_tag: Option<u64>,
    decided: bool,
    steps: &mut Steps,
) -> Ordering
    requires node { IsHeld p.now.pool node × IsTagOf (O.tag_of order.now) (value_of p.now.pool node.name) tag.key }
    requires probe { probe_tag ≡ O.probe_tag_of order.now probe }
    requires decided { decided ≡ is_decided (O.is_exact order.now) probe_tag }
    ensures result { result ≡ place_at (λ v. O.place order.now v probe.entry) (value_of p.now.pool node.name) }
    ensures steps { steps.new.count ≡ steps.old.count + 1 }
{
    let Some(sought) = probe_tag else {
        return order.seek(p.value(node), probe, steps);
    };
    if tag.key != sought {
        steps.tick();
        return tag.key.cmp(&sought);
    }
    if decided {
        steps.tick();
        return Ordering::Equal;
    }
    seek_value(p, order, node, probe, steps)
}

/// The same by the value, where the tags are alike.
#[inline(never)]
fn seek_value<T, O: NodeOrder<T>>(
    p: &Counted<T>,
    order: &O,
    node: NodeRef,
    probe: Probe<'_>,
    steps: &mut Steps,
) -> Ordering
    requires node { IsHeld p.now.pool node }
    ensures result { result ≡ place_at (λ v. O.place order.now v probe.entry) (value_of p.now.pool node.name) }
    ensures steps { steps.new.count ≡ steps.old.count + 1 }
{
    order.seek(p.value(node), probe, steps)
}

/// A place that a path down seeks: in front of the first node that the probe isn't after, or with `is_upper` of the first that it is
/// before. It has the probe's tag, and whether that decides.
#[derive(Clone, Copy)]
pub(crate) struct Sought<'a> {
    pub(crate) probe: Probe<'a>,
    pub(crate) tag: Option<u64>,
    pub(crate) decided: bool,
    pub(crate) is_upper: bool,
}

/// Where the node stands beside the probe of a place: by their tags, or by the value.
#[inline(always)]
pub(crate) fn compare_sought<T, O: NodeOrder<T>>(
    p: &Counted<T>,
    order: &O,
    node: NodeRef,
    tag: Tag,
    sought: &Sought<'_>,
    steps: &mut Steps,
) -> Ordering
    requires node { IsHeld p.now.pool node × IsTagOf (O.tag_of order.now) (value_of p.now.pool node.name) tag.key }
    requires probe { sought.now.tag ≡ O.probe_tag_of order.now sought.now.probe }
    requires decided { sought.now.decided ≡ is_decided (O.is_exact order.now) sought.now.tag }
    ensures result { result ≡ place_at (λ v. O.place order.now v sought.now.probe) (value_of p.now.pool node.name) }
    ensures steps { steps.new.count ≡ steps.old.count + 1 }
{
    let Some(wanted) = sought.tag else {
        return seek_place(p, order, node, sought, steps);
    };
    if tag.key != wanted {
        steps.tick();
        return tag.key.cmp(&wanted);
    }
    if sought.decided {
        steps.tick();
        return Ordering::Equal;
    }
    seek_place(p, order, node, sought, steps)
}

/// The same by the value. The place is lent, so that a path down stays a loop.
#[inline(never)]
fn seek_place<T, O: NodeOrder<T>>(
    p: &Counted<T>,
    order: &O,
    node: NodeRef,
    sought: &Sought<'_>,
    steps: &mut Steps,
) -> Ordering
    requires node { IsHeld p.now.pool node }
    ensures result { result ≡ place_at (λ v. O.place order.now v sought.now.probe) (value_of p.now.pool node.name) }
    ensures steps { steps.new.count ≡ steps.old.count + 1 }
{
    order.seek(p.value(node), sought.probe, steps)
}

/// A value and a stamp, which may be those of no node: the value's tag, and whether that decides.
#[derive(Drop)]
pub(crate) struct Item<'a, T> {
    pub(crate) value: &'a T,
    pub(crate) tag: Tag,
    pub(crate) decided: bool,
}

/// Where the item stands beside the node: by their tags, or by the values if the item's tag doesn't decide,
/// and of one key by their stamps.
#[inline(always)]
pub(crate) fn compare_item<T, O: NodeOrder<T>>(
    p: &Pool<T>,
    order: &O,
    item: &Item<'_, T>,
    node: NodeRef,
    tag: Tag,
    steps: &mut Steps,
) -> Ordering
    requires item { item.now.tag.key ≡ O.tag_of order.now item.now.value.now }
    requires decided { item.now.decided ≡ O.is_exact order.now item.now.tag.key }
    requires node { IsHeld p.now node × IsTagOf (O.tag_of order.now) (value_of p.now node.name) tag.key }
    ensures result { result ≡ compared (by_stamp (O.order order.now))
        (Some (item.now.value.now, item.now.tag.stamp)) (stamped (value_of p.now node.name) tag.stamp) }
    ensures steps { steps.new.count ≡ steps.old.count + 1 }
{
    if item.tag.key != tag.key {
        steps.tick();
        return item.tag.key.cmp(&tag.key);
    }
    if item.decided {
        steps.tick();
        return item.tag.stamp.cmp(&tag.stamp);
    }
    compare_item_values(p, order, item, node, tag.stamp, steps)
}

/// The same by the values, where the tags are alike.
#[inline(never)]
fn compare_item_values<T, O: NodeOrder<T>>(
    p: &Pool<T>,
    order: &O,
    item: &Item<'_, T>,
    node: NodeRef,
    stamp: u64,
    steps: &mut Steps,
) -> Ordering
    requires { IsHeld p.now node }
    ensures result { result ≡ compared (by_stamp (O.order order.now))
        (Some (item.now.value.now, item.now.tag.stamp)) (stamped (value_of p.now node.name) stamp) }
    ensures steps { steps.new.count ≡ steps.old.count + 1 }
{
    order
        .compare(item.value, p.value(node), steps)
        .then(item.tag.stamp.cmp(&stamp))
}
