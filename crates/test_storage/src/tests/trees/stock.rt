//! Nodes for tests, in a tree or out of it, under an order that counts its own calls.
//! It stands for a caller in another crate: it reaches the tree through its contracts alone.
ghost use Rattle.std.specs.Prelude.{◌≡◌, ℕ, List};
ghost use Rattle.mi_node.specs.Pool.{IsHeldIf};
ghost use Rattle.mi_node.specs.Refs.{Ref};
ghost use Rattle.mi_tree.specs.Walking.{IsWalk};

use mi_node::{Counted, NodeRef, Pool};
use mi_tree::{Direction, NodeOrder, Tree, Walk};
use mi_value::{Probe, Steps, Value};
use std::alloc::Global;
use std::cell::Cell;
use std::cmp::Ordering;
use std::marker::Model;

/// A value: its key, and its id, which no order sees.
type Item = (u32, u32);

/// Values by their keys. It counts its calls of `compare` and `seek`, whatever steps it is handed. A tag is
/// the whole key, or says nothing.
#[derive(Drop)]
pub(crate) struct ByKey<'a> {
    calls: &'a Cell<u64>,
    tagged: bool,
}

impl ByKey<'_> {
    fn count(&self) {
        self.calls.set(self.calls.get().wrapping_add(1));
    }
}

impl NodeOrder<Item> for ByKey<'_> {
    ghost use Rattle.std.specs.Prelude.{None};
    ghost use Rattle.std.proofs.lemmas.Cmp.{on_total, nat_cmp_total};
    ghost use Rattle.test_storage.specs.Keyed.{keyed_order, by_probe, keyed_tag};
    ghost use Rattle.test_storage.specs.KeyedLaws.{tag_below, tag_exact, probe_later, without_tag};

    ghost order = { λ o. keyed_order };

    ghost place = { λ o v k. by_probe v.0 k };

    ghost tag_of = { λ o. keyed_tag o.tagged };

    ghost probe_tag_of = { λ o k. None };

    ghost is_exact = { λ o t. o.tagged };

    fn compare(&self, left: &Item, right: &Item, steps: &mut Steps) -> Ordering {
        self.count();
        steps.tick();
        left.0.cmp(&right.0)
    }

    fn seek(&self, value: &Item, probe: Probe<'_>, steps: &mut Steps) -> Ordering {
        self.count();
        steps.tick();
        match probe {
            Probe::Key([Value::Int(key), ..]) => i64::from(value.0).cmp(key),
            _ => Ordering::Equal,
        }
    }

    fn tag(&self, value: &Item) -> u64 {
        if self.tagged { u64::from(value.0) } else { 0 }
    }

    fn probe_tag(&self, _probe: Probe<'_>) -> Option<u64> {
        None
    }

    fn is_complete(&self, _tag: u64) -> bool {
        self.tagged
    }

    ghost total = { λ o. on_total (λ x. x.0) nat_cmp_total };

    ghost monotone = { λ o k. probe_later k };

    ghost tag_below = { λ o. tag_below o.tagged };

    ghost exact = { λ o. tag_exact o.tagged };

    ghost probe_below = { λ o k t e x h. without_tag t e };

    ghost probe_above = { λ o k t e x h. without_tag t e };

    ghost probe_exact = { λ o k t e d x h. without_tag t e };
}

/// Nodes of a pool, in a tree through the second of two slots or out of it again.
#[derive(Drop)]
pub(crate) struct Stock<'a> {
    pool: Pool<Item>,
    tree: Tree<ByKey<'a>>,
    out: Vec<NodeRef>,
    next: u64,
}

impl<'a> Model for Stock<'a> {
    ghost use Rattle.std.specs.Prelude.{ℕ};
    ghost use Rattle.test_storage.specs.Stock.{IsStock};

    ghost Value = { ℕ };

    ghost view = { λ s. s.next };

    ghost invariant = { λ s. IsStock s.tree.order.tagged s.tree s.pool s.out.items s.next };
}

impl<'a> Stock<'a> {
    /// No nodes.
    pub(crate) fn new(alloc: Global, calls: &'a Cell<u64>, tagged: bool) -> Stock<'a> {
        Stock {
            pool: Pool::with_slots(alloc, 2),
            tree: Tree::new(1, ByKey { calls, tagged }),
            out: Vec::new(alloc),
            next: 0,
        }
    }

    /// Puts a new node in, with the next stamp. False without memory.
    pub(crate) fn add(&mut self, key: u32, id: u32) -> bool {
        if self.next >= 1_000_000 {
            return false;
        }
        let Ok(node) = self.pool.take((key, id)) else {
            return false;
        };
        self.tree
            .insert(&mut self.pool, node, self.next, &mut Steps::new());
        self.next += 1;
        true
    }

    /// Takes the node of a rank out of the tree. False if there is none, or without memory.
    pub(crate) fn pull(&mut self, rank: u32) -> bool {
        let Some(node) = self.tree.nth(&mut Counted::new(&self.pool), rank) else {
            return false;
        };
        self.tree.remove(&mut self.pool, node, &mut Steps::new());
        self.out.push(node).is_ok()
    }

    /// Puts the node that came out last back, with the stamp that it had. False if none is out.
    pub(crate) fn put(&mut self) -> bool {
        let Some(node) = self.out.pop() else {
            return false;
        };
        let stamp = self.pool.link(node, 1).tag.stamp;
        self.tree
            .insert(&mut self.pool, node, stamp, &mut Steps::new());
        true
    }

    pub(crate) fn len(&self) -> u32 {
        self.tree.len(&self.pool)
    }

    /// The id of the node of a rank.
    pub(crate) fn nth(&self, rank: u32) -> Option<u32> {
        let node = self.tree.nth(&mut Counted::new(&self.pool), rank);
        id_of(&self.pool, node)
    }

    pub(crate) fn lower(&self, key: i64) -> Option<u32> {
        let values = [Value::Int(key)];
        let node = self.tree.lower(
            &mut Counted::new(&self.pool),
            Probe::Key(&values),
            &mut Steps::new(),
        );
        id_of(&self.pool, node)
    }

    pub(crate) fn upper(&self, key: i64) -> Option<u32> {
        let values = [Value::Int(key)];
        let node = self.tree.upper(
            &mut Counted::new(&self.pool),
            Probe::Key(&values),
            &mut Steps::new(),
        );
        id_of(&self.pool, node)
    }

    /// How many nodes have a smaller key.
    pub(crate) fn lower_rank(&self, key: i64) -> u32 {
        let values = [Value::Int(key)];
        self.tree.lower_rank(
            &mut Counted::new(&self.pool),
            Probe::Key(&values),
            &mut Steps::new(),
        )
    }

    /// How many nodes have no greater key.
    pub(crate) fn upper_rank(&self, key: i64) -> u32 {
        let values = [Value::Int(key)];
        self.tree.upper_rank(
            &mut Counted::new(&self.pool),
            Probe::Key(&values),
            &mut Steps::new(),
        )
    }

    pub(crate) fn find(&self, key: i64) -> Option<u32> {
        let values = [Value::Int(key)];
        let node = self.tree.find(
            &mut Counted::new(&self.pool),
            Probe::Key(&values),
            &mut Steps::new(),
        );
        id_of(&self.pool, node)
    }

    /// The rank of the node of a rank.
    pub(crate) fn rank_of_nth(&self, rank: u32) -> Option<u32> {
        let mut read = Counted::new(&self.pool);
        let Some(node) = self.tree.nth(&mut read, rank) else {
            return None;
        };
        Some(self.tree.rank(&mut read, node, &mut Steps::new()))
    }

    /// Whether the node of a rank keeps its place with that key and that stamp.
    pub(crate) fn keeps(&self, rank: u32, key: u32, stamp: u64) -> Option<bool> {
        let mut read = Counted::new(&self.pool);
        let Some(node) = self.tree.nth(&mut read, rank) else {
            return None;
        };
        let value = (key, 0);
        Some(
            self.tree
                .keeps_place(&self.pool, node, &value, stamp, &mut Steps::new()),
        )
    }

    /// The id of the node before the one of a rank.
    pub(crate) fn before(&self, rank: u32) -> Option<u32> {
        let mut read = Counted::new(&self.pool);
        let Some(node) = self.tree.nth(&mut read, rank) else {
            return None;
        };
        let before = self.tree.prev(&mut read, node, &mut Steps::new());
        id_of(&self.pool, before)
    }

    /// The id of the node after it.
    pub(crate) fn after(&self, rank: u32) -> Option<u32> {
        let mut read = Counted::new(&self.pool);
        let Some(node) = self.tree.nth(&mut read, rank) else {
            return None;
        };
        let after = self.tree.next(&mut read, node, &mut Steps::new());
        id_of(&self.pool, after)
    }

    /// The first three ids of a walk from the place behind the first `passed` nodes.
    pub(crate) fn walk(&self, direction: Direction, passed: u32) -> [Option<u32>; 3] {
        let mut read = Counted::new(&self.pool);
        let mut walk = self.tree.walk(&mut read, direction, passed);
        three_of(&self.pool, &mut read, &mut walk)
    }

    /// The first three ids of a walk from the place of a key: in front of the nodes that have it, or with `is_upper` behind them.
    pub(crate) fn walk_from_bound(
        &self,
        direction: Direction,
        key: i64,
        is_upper: bool,
    ) -> [Option<u32>; 3] {
        let mut read = Counted::new(&self.pool);
        let values = [Value::Int(key)];
        let mut steps = Steps::new();
        let mut walk = self.tree.walk_from_bound(
            &mut read,
            direction,
            Probe::Key(&values),
            is_upper,
            &mut steps,
        );
        three_of(&self.pool, &mut read, &mut walk)
    }
}

/// The next three ids of a walk.
fn three_of(pool: &Pool<Item>, read: &mut Counted<'_, Item>, walk: &mut Walk) -> [Option<u32>; 3]
    requires pool { read.old.pool ≡ pool.now }
    requires walk { (levels : ℕ) × (us : List Ref) × IsWalk walk.old read.old.pool levels us }
{
    let first = walk.next(read);
    let second = walk.next(read);
    let third = walk.next(read);
    [id_of(pool, first), id_of(pool, second), id_of(pool, third)]
}

fn id_of(pool: &Pool<Item>, node: Option<NodeRef>) -> Option<u32>
    requires { IsHeldIf pool.now node }
{
    let Some(node) = node else {
        return None;
    };
    Some(pool.value(node).1)
}
