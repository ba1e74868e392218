//! Clearing the masks of an earlier grace period, level by level from the leaves.
ghost use Rattle.std.specs.Prelude.{◌≡◌, ◌<◌, ◌≤◌, ◌+◌, ℕ, if◌then◌else◌, length, replicate};
ghost use Rattle.std.specs.Prelude.{slice_index, true};
ghost use Rattle.rcu_geometry.specs.Geometry.{IsLegalShape, nodes as nodes_of};
ghost use Rattle.rcu_geometry.specs.Geometry.{level_start as level_start_of, levels as levels_of};
ghost use Rattle.rcu_node.specs.Masks.{AreLinked, group_masks, now_masks, start_masks};
ghost use Rattle.rcu_node.specs.Steps.{AreEmptyFrom, AreLinkedBefore, HaveNoMore, is_child_by};
ghost use Rattle.rcu_node.specs.Words.{has_bit};

use crate::node::{Node, put_both, start_mask};
use rcu_geometry::Geometry;

/// Clears both masks of each node. Only those that were awaited at the start have a bit, and their
/// parents show which they are. Costs a step for each of them, and for each node above the leaves.
pub fn empty<const LEAF: u32, const FAN: u32>(geometry: &Geometry<LEAF, FAN>, nodes: &mut Vec<Node>)
    requires legal { IsLegalShape geometry.now }
    requires fanout { geometry.now.fan ≡ FAN }
    requires started { AreLinked geometry.now (start_masks nodes.old.items) }
    requires within { HaveNoMore (now_masks nodes.old.items) (start_masks nodes.old.items) }
    ensures now { now_masks nodes.new.items ≡ replicate (nodes_of geometry.now) 0 }
    ensures start { start_masks nodes.new.items ≡ replicate (nodes_of geometry.now) 0 }
    ensures group { group_masks nodes.new.items ≡ group_masks nodes.old.items }
{
    let mut level = geometry.levels();
    while level > 1 {
        level -= 1;
        empty_level(geometry, nodes, level);
    }
    put_both(nodes, 0, 0);
}

/// Clears both masks of each node of a level below the root. The levels below are clear.
fn empty_level<const LEAF: u32, const FAN: u32>(
    geometry: &Geometry<LEAF, FAN>,
    nodes: &mut Vec<Node>,
    level: u32,
)
    requires legal { IsLegalShape geometry.now }
    requires fanout { geometry.now.fan ≡ FAN }
    requires some { 0 < level }
    requires level { level < levels_of geometry.now }
    requires started { AreLinkedBefore geometry.now (start_masks nodes.old.items)
        (level_start_of geometry.now (level + 1)) }
    requires within { HaveNoMore (now_masks nodes.old.items) (start_masks nodes.old.items) }
    ensures now { AreEmptyFrom (now_masks nodes.old.items) (now_masks nodes.new.items)
        (level_start_of geometry.now level) }
    ensures start { AreEmptyFrom (start_masks nodes.old.items) (start_masks nodes.new.items)
        (level_start_of geometry.now level) }
    ensures group { group_masks nodes.new.items ≡ group_masks nodes.old.items }
{
    let above = geometry.level_start(level - 1);
    let first = geometry.level_start(level);
    for node in above..first {
        empty_children(nodes, node, first + (node - above) * FAN);
    }
}

/// Clears both masks of those children of a node that were awaited at the start. `first` is its
/// first child.
fn empty_children(nodes: &mut Vec<Node>, node: u32, first: u32)
    requires before { node < first }
    requires few { length nodes.old.items ≤ 16384 }
    requires children { (bit : ℕ) → has_bit (slice_index (start_masks nodes.old.items) node) bit
        ≡ true → first + bit < length nodes.old.items }
    requires here { node < length nodes.old.items }
    ensures now { (k : ℕ) → slice_index (now_masks nodes.new.items) k
        ≡ (if is_child_by (slice_index (start_masks nodes.old.items) node) first k
        then 0 else slice_index (now_masks nodes.old.items) k) }
    ensures start { (k : ℕ) → slice_index (start_masks nodes.new.items) k
        ≡ (if is_child_by (slice_index (start_masks nodes.old.items) node) first k
        then 0 else slice_index (start_masks nodes.old.items) k) }
    ensures group { group_masks nodes.new.items ≡ group_masks nodes.old.items }
{
    let mut children = start_mask(nodes, node);
    while children != 0 {
        let child = children.trailing_zeros();
        put_both(nodes, first + child, 0);
        children &= !(1 << child);
    }
}
