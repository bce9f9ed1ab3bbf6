//! The steps of a path down, in room of their own.
//! Plain data: it owns no node and never follows a reference.
ghost use Rattle.std.specs.Prelude.{◌≡◌, ◌-◌, ◌<◌, [], ◌∷◌, ◌++◌, length, take, slice_get};
ghost use Rattle.mi_tree.specs.PathSteps.{path_steps, AreBits};
ghost use Rattle.mi_tree.specs.declared.path_steps.TheConstants.{START};

use crate::walk::MAX_LEVELS;
use mi_node::NodeRef;

/// A node on a path down, and whether the path goes on to the left.
#[derive(Clone, Copy)]
pub(crate) struct PathStep {
    pub(crate) node: NodeRef,
    pub(crate) left: bool,
}

/// The nodes of a path down, the root first. Beyond the path's depth they say nothing.
pub(crate) type Nodes = [NodeRef; MAX_LEVELS];

/// How deep a path goes, and on which side it leaves each of its nodes: the bits of a number, the last one's the lowest.
///
/// It is handed on by value and stands beside the nodes, not with them: so the compiler keeps it in registers.
#[derive(Clone, Copy)]
pub(crate) struct Depth {
    lefts: u64,
    len: usize,
}

/// No steps yet.
pub(crate) const START: Depth = Depth { lefts: 0, len: 0 };

/// Room for a path.
#[inline(always)]
pub(crate) fn no_nodes() -> Nodes
    ensures { AreBits result START }
{
    [NodeRef::default(); MAX_LEVELS]
}

impl Depth {
    /// One step more.
    #[inline(always)]
    pub(crate) fn push(self, nodes: &mut Nodes, path_step: PathStep) -> Depth
        requires bits { AreBits nodes.old self }
        requires room { length (path_steps nodes.old self) < MAX_LEVELS }
        ensures bits { AreBits nodes.new result }
        ensures items { path_steps nodes.new result ≡ path_steps nodes.old self ++ path_step ∷ [] }
    {
        nodes[self.len] = path_step.node;
        Depth {
            lefts: self.lefts * 2 + u64::from(path_step.left),
            len: self.len + 1,
        }
    }

    /// The last step, if there is one, and the path before it.
    #[inline(always)]
    pub(crate) fn pop(self, nodes: &Nodes) -> (Option<PathStep>, Depth)
        requires bits { AreBits nodes.now self }
        ensures bits { AreBits nodes.now result.1 }
        ensures value { result.0 ≡ slice_get (path_steps nodes.now self) (length (path_steps nodes.now self) - 1) }
        ensures rest { path_steps nodes.now result.1 ≡ take (length (path_steps nodes.now self) - 1) (path_steps nodes.now self) }
    {
        if self.len == 0 {
            return (None, self);
        }
        let len = self.len - 1;
        let node = nodes[len];
        let left = self.lefts % 2 == 1;
        let lefts = self.lefts / 2;
        (Some(PathStep { node, left }), Depth { lefts, len })
    }
}
