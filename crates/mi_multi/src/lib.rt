//! The container over shared nodes: each row is one node, which is linked into every index; an erased row's node is kept
//! with its places, until the change is settled or taken back.
//! What nodes, ids and links mean is computed as plain data, and each call is stated by the definitions of those. It knows
//! no sessions.
//!
//! One row is one node of the pool, at a place (its name) that never moves. The node's value is the row's id and record. Each index
//! of the schema, `id` among them, has a slot of every node, by the index's number:
//!
//! ```text
//!   node at place 7: value { id 12, record }
//!     ordered, ranked   back, forth = left and right child   size, height = of its subtree   tag = first bytes of the key, stamp
//!     hashed            forth = next in the chain, back = the one before in its group,       tag = hash of the key, stamp
//!                       of a group's first its last
//!     sequenced         back, forth = the nodes before and after                             tag unused
//! ```
//!
//! A search compares tags, and reads values where tags are equal. `ids` maps 12 to this node, and says whether it is live. An erased
//! row's node leaves every index and stays in the pool, held and not live; in lists and chains its links still name its neighbours, in
//! trees it keeps its stamp. The inverse that a call answers names it, and the undo journal keeps the inverse until it is taken back or settled.
//! `unwind` of an erase links the node in again. Two calls give nodes back to the pool, whose values are dropped: `settle` of an erase, and
//! `unwind` of an insert; dropping the pool drops all that are left. It touches its own pool, ids, structures and
//! two counters, of ids and of arrivals, and no stream. It takes memory when it is made, in an insert and a modify, and for the rows that
//! a walk answers; no other call does.
#![tactic(auto)]

mod changed;
mod changes;
mod conflicts;
mod container;
mod counting;
mod imaging;
mod multi;
mod putting;
mod reading;
mod relocating;
mod replacing;
mod restoring;
mod unwinding;
mod walking;

pub use multi::MultiIndex;
