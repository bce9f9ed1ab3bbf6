//! The order of a tree's nodes, which the tree is given.
//! It sees values, tags and probes alone, no nodes and no links.
ghost use Rattle.std.specs.Prelude.{◌≡◌, ℕ, ◌+◌};
ghost use Rattle.std.specs.Cmp.{IsTotalOrder};
ghost use Rattle.mi_tree.specs.Order.{IsMonotone, IsTagBelow, IsExact, IsProbeBelow, IsProbeAbove, IsProbeExact};

use mi_value::{Probe, Steps};
use std::cmp::Ordering;

/// How values are compared with each other and with a probe, by their keys alone; values of one key
/// compare Equal. Nodes of one key stand in the order of their stamps, which are no part of a value.
///
/// A tag is a number that stands for a value's key: eight bytes of it, in order. Tags are compared first,
/// and values only where tags don't decide.
///
/// Each comparison counts exactly one step.
pub trait NodeOrder<T> {
    ghost use Rattle.std.specs.Prelude.{Bool, Option};
    ghost use Rattle.std.specs.declared.cmp.Ordering.{Ordering as Side};
    ghost use Rattle.mi_value.specs.declared.bound.Probe.{Probe as Sought};

    ghost order: { Self → T → T → Side };

    ghost place: { Self → T → Sought → Side };

    ghost tag_of: { Self → T → ℕ };

    ghost probe_tag_of: { Self → Sought → Option ℕ };

    ghost is_exact: { Self → ℕ → Bool };

    /// Where the left value's key stands beside the right one's.
    fn compare(&self, left: &T, right: &T, steps: &mut Steps) -> Ordering
        ensures result { result ≡ order self.now left.now right.now }
        ensures steps { steps.new.count ≡ steps.old.count + 1 };

    /// Where the value stands beside the probe. Along the order the answers only rise: first Less, then
    /// Equal, then Greater.
    fn seek(&self, value: &T, probe: Probe<'_>, steps: &mut Steps) -> Ordering
        ensures result { result ≡ place self.now value.now probe.entry }
        ensures steps { steps.new.count ≡ steps.old.count + 1 };

    /// The tag of the value's key. Of two values, the one with the smaller tag is less.
    fn tag(&self, value: &T) -> u64
        ensures { result ≡ tag_of self.now value.now };

    /// The tag of the probe, if it has one: values with smaller tags are before it, those with greater
    /// ones after it. Without one, every value is sought by `seek`.
    fn probe_tag(&self, probe: Probe<'_>) -> Option<u64>
        ensures { result ≡ probe_tag_of self.now probe.entry };

    /// Whether a tag says all of its key: two values that have it are equal, and each is at a probe that
    /// has it.
    fn is_complete(&self, tag: u64) -> bool
        ensures { result ≡ is_exact self.now tag };

    ghost total: { (o : Self) → IsTotalOrder (order o) };

    ghost monotone: { (o : Self) (k : Sought) → IsMonotone (order o) (λ v. place o v k) };

    ghost tag_below: { (o : Self) → IsTagBelow (order o) (tag_of o) };

    ghost exact: { (o : Self) → IsExact (order o) (tag_of o) (is_exact o) };

    ghost probe_below: { (o : Self) (k : Sought) → IsProbeBelow (λ v. place o v k) (tag_of o) (probe_tag_of o k) };

    ghost probe_above: { (o : Self) (k : Sought) → IsProbeAbove (λ v. place o v k) (tag_of o) (probe_tag_of o k) };

    ghost probe_exact: { (o : Self) (k : Sought) → IsProbeExact (λ v. place o v k) (tag_of o) (is_exact o) (probe_tag_of o k) };
}
