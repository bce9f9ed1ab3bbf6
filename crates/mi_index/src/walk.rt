//! A walk along what an index shows, from a place on, in either direction. It lends the records of the nodes, and
//! changes nothing; the vector of what is lent is the one memory that it takes.
ghost use Rattle.std.specs.Prelude.{◌≡◌, ℕ, ◌+◌, ◌*◌, ◌<◌, ◌≤◌, ◌^◌, List as Seq, ◌∷◌, ◌++◌, length, map, take, IfOk};
ghost use Rattle.std.specs.List.{take_while};
ghost use Rattle.mi_catalog.specs.Key.{compare_to_row as compared_to_row};
ghost use Rattle.mi_node.specs.Refs.{Ref};
ghost use Rattle.mi_node.specs.Neighbours.{AreHeld};
ghost use Rattle.mi_tree.specs.Walking.{IsWalk, beyond, far_of};
ghost use Rattle.mi_tree.specs.declared.walk.Direction.TheVariants.{Ascending, Descending};
ghost use Rattle.mi_order.specs.Orders.{row_in};
ghost use Rattle.mi_index.specs.Standing.{slot_in, Stands};
ghost use Rattle.mi_index.specs.Looks as look;
ghost use Rattle.mi_index.specs.Walks.{shown_row, Follow};
ghost use Rattle.mi_index.specs.Ranges.{meets_lower as is_from, meets_upper as is_to, stays_in, parts_in, rows_in, IsBegun};
ghost use Rattle.mi_index.specs.declared.structure.Structure.TheVariants.{Sorted};

use crate::structure::Structure;
use mi_catalog::compare_to_row;
use mi_node::{Counted, Link, NodeRef};
use mi_order::{ByKey, Stored};
use mi_tree::{Direction, Tree, Walk};
use mi_value::{Key, KeyPart, Lower, Probe, Record, Steps, Upper};
use std::alloc::{AllocError, Global};
use std::cmp::Ordering;

/// For how many rows there is room before the first is found: short pages grow no vector.
const FIRST_ROOM: usize = 16;

/// Rows by their ids, lent.
type Rows<'a> = Vec<(u64, &'a Record)>;

impl Structure {
    /// The rows of the nodes that follow one another in a list from one on, in its order or in the reverse of it, at most `limit` of
    /// them. The slot is that of this index. Asked of sequenced indexes alone.
    ///
    /// For k rows it reads at most k links. Where memory for the vector is refused there are no rows.
    pub fn walk<'a>(
        &self,
        alloc: Global,
        p: &mut Counted<'a, Stored>,
        slot: usize,
        direction: Direction,
        node: NodeRef,
        limit: usize,
    ) -> Result<Rows<'a>, AllocError>
        requires slot { slot_in self.now ≡ slot }
        requires node { (xs : Seq Ref) × (ys : Seq Ref) × Stands self.now p.old.pool (xs ++ node ∷ ys) × look.IsListStructure self.now }
        ensures rows { (xs ys : Seq Ref) → Stands self.now p.old.pool (xs ++ node ∷ ys)
            → IfOk result (λ rows. map (λ r. (r.0, r.1.now)) rows.items ≡ map (shown_row p.old.pool) (take limit (node ∷ beyond direction xs ys))) }
        ensures reads { IfOk result (λ rows. p.new.reads ≤ p.old.reads + length rows.items) }
    {
        match self {
            Structure::Sorted(_) | Structure::Hashed(_) => Ok(Vec::new(alloc)),
            Structure::Sequenced(_) => rows_along(alloc, p, slot, direction, node, limit),
        }
    }

    /// The first rows of a range, at most `limit` of them: from where it begins to the first row past its end. Asked of sorted indexes
    /// alone, by their own parts.
    ///
    /// For k rows and fewer than 2^b nodes it reads at most 2k + 6b + 2 links, and it makes at most 2b + k + 1 comparisons. Where
    /// memory for the vector is refused there are no rows, and it made no more.
    pub fn walk_range<'a>(
        &self,
        alloc: Global,
        p: &mut Counted<'a, Stored>,
        range: &KeyRange<'_>,
        limit: usize,
        steps: &mut Steps,
    ) -> Result<Rows<'a>, AllocError>
        requires stands { (rs : Seq Ref) × Stands self.now p.old.pool rs × look.IsSortedStructure self.now }
        requires parts { parts_in self.now ≡ range.now.parts.now }
        ensures rows { (rs : Seq Ref) → Stands self.now p.old.pool rs
            → IfOk result (λ rows. map (λ r. (r.0, r.1.now)) rows.items ≡ take limit (rows_in range.now (map (shown_row p.old.pool) rs))) }
        ensures reads { (rs : Seq Ref) → Stands self.now p.old.pool rs → (b : ℕ) → length rs < 2 ^ b
            → IfOk result (λ rows. p.new.reads ≤ p.old.reads + (2 * length rows.items + 6 * b + 2)) }
        ensures steps { (rs : Seq Ref) → Stands self.now p.old.pool rs → (b : ℕ) → length rs < 2 ^ b
            → steps.new.count ≤ steps.old.count + (2 * b + length (take limit (rows_in range.now (map (shown_row p.old.pool) rs))) + 1) }
    {
        match self {
            Structure::Sorted(tree) => rows_between(tree, alloc, p, range, limit, steps),
            Structure::Hashed(_) | Structure::Sequenced(_) => Ok(Vec::new(alloc)),
        }
    }
}

/// What lies between two bounds of keys in a sorted index, and the direction in which it is walked.
#[derive(Clone, Copy)]
pub struct KeyRange<'a> {
    /// The parts of the index's keys, or none where it goes by the id.
    pub parts: &'a [KeyPart],
    pub lower: &'a Lower,
    pub upper: &'a Upper,
    pub direction: Direction,
}

impl KeyRange<'_> {
    /// A key against that of a node's row.
    fn compare(&self, key: &Key, stored: &Stored, steps: &mut Steps) -> Ordering
        ensures result { result ≡ compared_to_row self.now.parts.now key.now (row_in stored.now) }
        ensures steps { steps.new.count ≡ steps.old.count + 1 }
    {
        steps.tick();
        compare_to_row(self.parts, key.values(), stored.id, &stored.row)
    }

    /// Whether a node's row meets the lower bound: at most one comparison.
    fn meets_lower(&self, stored: &Stored, steps: &mut Steps) -> bool
        ensures result { result ≡ is_from self.now.parts.now self.now.lower.now (row_in stored.now) }
        ensures steps { steps.new.count ≤ steps.old.count + 1 }
    {
        match self.lower {
            Lower::All => true,
            Lower::From(key) => self.compare(key, stored, steps).is_le(),
            Lower::Beyond(key) => self.compare(key, stored, steps).is_lt(),
        }
    }

    /// Whether it meets the upper bound: at most one comparison.
    fn meets_upper(&self, stored: &Stored, steps: &mut Steps) -> bool
        ensures result { result ≡ is_to self.now.parts.now self.now.upper.now (row_in stored.now) }
        ensures steps { steps.new.count ≤ steps.old.count + 1 }
    {
        match self.upper {
            Upper::All => true,
            Upper::UpTo(key) => self.compare(key, stored, steps).is_ge(),
            Upper::Below(key) => self.compare(key, stored, steps).is_gt(),
        }
    }

    /// Whether a node's row isn't past the end: at most one comparison.
    fn goes_on(&self, stored: &Stored, steps: &mut Steps) -> bool
        ensures result { result ≡ stays_in self.now (row_in stored.now) }
        ensures steps { steps.new.count ≤ steps.old.count + 1 }
    {
        match self.direction {
            Direction::Ascending => self.meets_upper(stored, steps),
            Direction::Descending => self.meets_lower(stored, steps),
        }
    }

    /// A walk up a tree from the first node that meets the lower bound.
    fn walk_ascending(&self, tree: &Tree<ByKey>, p: &mut Counted<Stored>, steps: &mut Steps) -> Walk
        requires stands { (rs : Seq Ref) × Stands (Sorted tree.now) p.old.pool rs }
        requires parts { tree.now.order.parts ≡ self.now.parts.now }
        requires direction { self.now.direction ≡ Ascending }
        ensures walk { (rs : Seq Ref) → Stands (Sorted tree.now) p.old.pool rs → IsBegun self.now result p.old.pool rs }
        ensures pool { p.new.pool ≡ p.old.pool }
        ensures reads { (rs : Seq Ref) → Stands (Sorted tree.now) p.old.pool rs → (b : ℕ) → length rs < 2 ^ b → p.new.reads ≤ p.old.reads + 4 * b }
        ensures steps { (rs : Seq Ref) → Stands (Sorted tree.now) p.old.pool rs → (b : ℕ) → length rs < 2 ^ b → steps.new.count ≤ steps.old.count + 2 * b }
    {
        let up = Direction::Ascending;
        match self.lower {
            Lower::All => tree.walk(p, up, 0),
            Lower::From(key) => tree.walk_from_bound(p, up, Probe::Key(key.values()), false, steps),
            Lower::Beyond(key) => tree.walk_from_bound(
                p,
                up,
                Probe::Key(key.values()),
                true,
                steps,
            ),
        }
    }

    /// A walk down a tree from the last node that meets the upper bound.
    fn walk_down(&self, tree: &Tree<ByKey>, p: &mut Counted<Stored>, steps: &mut Steps) -> Walk
        requires stands { (rs : Seq Ref) × Stands (Sorted tree.now) p.old.pool rs }
        requires parts { tree.now.order.parts ≡ self.now.parts.now }
        requires direction { self.now.direction ≡ Descending }
        ensures walk { (rs : Seq Ref) → Stands (Sorted tree.now) p.old.pool rs → IsBegun self.now result p.old.pool rs }
        ensures pool { p.new.pool ≡ p.old.pool }
        ensures reads { (rs : Seq Ref) → Stands (Sorted tree.now) p.old.pool rs → (b : ℕ) → length rs < 2 ^ b → p.new.reads ≤ p.old.reads + 4 * b }
        ensures steps { (rs : Seq Ref) → Stands (Sorted tree.now) p.old.pool rs → (b : ℕ) → length rs < 2 ^ b → steps.new.count ≤ steps.old.count + 2 * b }
    {
        let down = Direction::Descending;
        match self.upper {
            Upper::All => tree.walk(p, down, u32::MAX),
            Upper::UpTo(key) => tree.walk_from_bound(
                p,
                down,
                Probe::Key(key.values()),
                true,
                steps,
            ),
            Upper::Below(key) => tree.walk_from_bound(
                p,
                down,
                Probe::Key(key.values()),
                false,
                steps,
            ),
        }
    }

    /// A walk along a tree from where the range begins: one look-up.
    fn walk(&self, tree: &Tree<ByKey>, p: &mut Counted<Stored>, steps: &mut Steps) -> Walk
        requires stands { (rs : Seq Ref) × Stands (Sorted tree.now) p.old.pool rs }
        requires parts { tree.now.order.parts ≡ self.now.parts.now }
        ensures walk { (rs : Seq Ref) → Stands (Sorted tree.now) p.old.pool rs → IsBegun self.now result p.old.pool rs }
        ensures pool { p.new.pool ≡ p.old.pool }
        ensures reads { (rs : Seq Ref) → Stands (Sorted tree.now) p.old.pool rs → (b : ℕ) → length rs < 2 ^ b → p.new.reads ≤ p.old.reads + 4 * b }
        ensures steps { (rs : Seq Ref) → Stands (Sorted tree.now) p.old.pool rs → (b : ℕ) → length rs < 2 ^ b → steps.new.count ≤ steps.old.count + 2 * b }
    {
        match self.direction {
            Direction::Ascending => self.walk_ascending(tree, p, steps),
            Direction::Descending => self.walk_down(tree, p, steps),
        }
    }
}

/// The first rows of a range along a tree.
fn rows_between<'a>(
    tree: &Tree<ByKey>,
    alloc: Global,
    p: &mut Counted<'a, Stored>,
    range: &KeyRange<'_>,
    limit: usize,
    steps: &mut Steps,
) -> Result<Rows<'a>, AllocError>
    requires stands { (rs : Seq Ref) × Stands (Sorted tree.now) p.old.pool rs }
    requires parts { tree.now.order.parts ≡ range.now.parts.now }
    ensures rows { (rs : Seq Ref) → Stands (Sorted tree.now) p.old.pool rs
        → IfOk result (λ rows. map (λ r. (r.0, r.1.now)) rows.items ≡ take limit (rows_in range.now (map (shown_row p.old.pool) rs))) }
    ensures reads { (rs : Seq Ref) → Stands (Sorted tree.now) p.old.pool rs → (b : ℕ) → length rs < 2 ^ b
        → IfOk result (λ rows. p.new.reads ≤ p.old.reads + (2 * length rows.items + 6 * b + 2)) }
    ensures steps { (rs : Seq Ref) → Stands (Sorted tree.now) p.old.pool rs → (b : ℕ) → length rs < 2 ^ b
        → steps.new.count ≤ steps.old.count + (2 * b + length (take limit (rows_in range.now (map (shown_row p.old.pool) rs))) + 1) }
{
    let mut walk = range.walk(tree, p, steps);
    rows_ahead(alloc, p, &mut walk, range, limit, steps)
}

/// The rows of the nodes that a walk along a tree has ahead, to the first past the end of a range.
fn rows_ahead<'a>(
    alloc: Global,
    p: &mut Counted<'a, Stored>,
    walk: &mut Walk,
    range: &KeyRange<'_>,
    limit: usize,
    steps: &mut Steps,
) -> Result<Rows<'a>, AllocError>
    requires { (levels : ℕ) × (us : Seq Ref) × IsWalk walk.old p.old.pool levels us × AreHeld p.old.pool us }
    ensures rows { (levels : ℕ) (us : Seq Ref) → IsWalk walk.old p.old.pool levels us → IfOk result (λ rows.
        map (λ r. (r.0, r.1.now)) rows.items ≡ take limit (take_while (stays_in range.now) (map (shown_row p.old.pool) us))) }
    ensures reads { (levels : ℕ) (us : Seq Ref) → IsWalk walk.old p.old.pool levels us
        → IfOk result (λ rows. p.new.reads ≤ p.old.reads + (2 * length rows.items + levels + 2)) }
    ensures steps { (levels : ℕ) (us : Seq Ref) → IsWalk walk.old p.old.pool levels us
        → steps.new.count ≤ steps.old.count + (length (take limit (take_while (stays_in range.now) (map (shown_row p.old.pool) us))) + 1) }
{
    let room = if walk.is_over() {
        0
    } else {
        limit.min(FIRST_ROOM)
    };
    let mut rows = Vec::with_capacity(alloc, room)?;
    'nodes: while rows.len() < limit {
        let Some(node) = walk.next(p) else { break };
        let stored = p.value(node);
        if !range.goes_on(stored, steps) {
            break;
        }
        rows.push((stored.id, &stored.row))?;
    }
    Ok(rows)
}

/// The rows of the nodes that follow one another by their links of a slot, from one on.
fn rows_along<'a>(
    alloc: Global,
    p: &mut Counted<'a, Stored>,
    slot: usize,
    direction: Direction,
    first: NodeRef,
    limit: usize,
) -> Result<Rows<'a>, AllocError>
    requires slot { slot < p.old.pool.slots }
    requires nodes { (us : Seq Ref) × Follow p.old.pool slot direction (first ∷ us) }
    ensures rows { (us : Seq Ref) → Follow p.old.pool slot direction (first ∷ us)
        → IfOk result (λ rows. map (λ r. (r.0, r.1.now)) rows.items ≡ map (shown_row p.old.pool) (take limit (first ∷ us))) }
    ensures reads { IfOk result (λ rows. p.new.reads ≤ p.old.reads + length rows.items) }
{
    let mut rows = Vec::with_capacity(alloc, limit.min(FIRST_ROOM))?;
    let mut next = Some(first);
    'nodes: while rows.len() < limit {
        let Some(node) = next else { break };
        let stored = p.value(node);
        rows.push((stored.id, &stored.row))?;
        next = far(direction, p.link(node, slot));
    }
    Ok(rows)
}

/// The neighbour that a link names in a direction.
fn far(direction: Direction, link: Link) -> Option<NodeRef>
    ensures { result ≡ far_of direction link }
{
    match direction {
        Direction::Ascending => link.forth,
        Direction::Descending => link.back,
    }
}
