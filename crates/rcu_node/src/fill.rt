//! The masks at a grace period's start, from the leaves up.
ghost use Rattle.std.specs.Prelude.{◌≡◌, ◌<◌, ◌≤◌, ℕ, length, replicate, slice_index, slice_set};
ghost use Rattle.std.specs.Prelude.{IfNone, IfSome};
ghost use Rattle.rcu_geometry.specs.Geometry.{IsLegalShape, first_leaf, nodes as nodes_of};
ghost use Rattle.rcu_node.specs.Masks.{AreGroups, AreLinked};
ghost use Rattle.rcu_node.specs.Masks.{group_masks, members, now_masks, start_masks};
ghost use Rattle.rcu_node.specs.Steps.{AreLinkedUpTo, IsLeafMask};

use crate::cpu_set::CpuSet;
use crate::node::{Node, group_mask, now_mask, put_both};
use rcu_geometry::Geometry;

/// Sets both masks of each node, which are empty, to those of a set. Costs a step for every 64
/// processors, and a walk up the tree for each leaf with a processor of the set.
pub fn fill<const LEAF: u32, const FAN: u32>(
    geometry: &Geometry<LEAF, FAN>,
    nodes: &mut Vec<Node>,
    set: &CpuSet,
)
    requires legal { IsLegalShape geometry.now }
    requires leaf { geometry.now.leaf ≡ LEAF }
    requires set { length set.now ≡ geometry.now.cpus }
    requires groups { AreGroups geometry.now (group_masks nodes.old.items) }
    requires now { now_masks nodes.old.items ≡ replicate (nodes_of geometry.now) 0 }
    requires start { start_masks nodes.old.items ≡ replicate (nodes_of geometry.now) 0 }
    ensures masks { AreLinked geometry.now (now_masks nodes.new.items) }
    ensures members { members geometry.now (now_masks nodes.new.items) ≡ set.now }
    ensures both { start_masks nodes.new.items ≡ now_masks nodes.new.items }
    ensures group { group_masks nodes.new.items ≡ group_masks nodes.old.items }
{
    let first = geometry.level_start(geometry.levels() - 1);
    let mut leaf = first;
    while let Some(cpu) = set.next_from((leaf - first) * LEAF) {
        leaf = geometry.leaf_of(cpu);
        let mask = set.bits_from((leaf - first) * LEAF, LEAF);
        fill_leaf(geometry, nodes, leaf, mask);
        leaf += 1;
    }
}

/// Sets the mask of an empty leaf, and walks up from there as long as masks were empty (Linux's
/// `rcu_init_new_rnp`).
fn fill_leaf<const LEAF: u32, const FAN: u32>(
    geometry: &Geometry<LEAF, FAN>,
    nodes: &mut Vec<Node>,
    leaf: u32,
    mask: u64,
)
    requires legal { IsLegalShape geometry.now }
    requires leaf { first_leaf geometry.now ≤ leaf }
    requires here { leaf < nodes_of geometry.now }
    requires mask { IsLeafMask geometry.now leaf mask }
    requires masks { AreLinked geometry.now (now_masks nodes.old.items) }
    requires empty { slice_index (now_masks nodes.old.items) leaf ≡ 0 }
    requires both { start_masks nodes.old.items ≡ now_masks nodes.old.items }
    requires groups { AreGroups geometry.now (group_masks nodes.old.items) }
    ensures masks { AreLinked geometry.now (now_masks nodes.new.items) }
    ensures leaves { (k : ℕ) → first_leaf geometry.now ≤ k
        → slice_index (now_masks nodes.new.items) k
        ≡ slice_index (slice_set (now_masks nodes.old.items) leaf mask) k }
    ensures both { start_masks nodes.new.items ≡ now_masks nodes.new.items }
    ensures group { group_masks nodes.new.items ≡ group_masks nodes.old.items }
{
    put_both(nodes, leaf, mask);
    let mut node = leaf;
    while let Some(parent) = set_in_parent(geometry, nodes, node) {
        node = parent;
    }
}

/// One step of the walk, at a node that was empty and is not now. The step sets the node's bit in
/// its parent. If the parent was empty too, the walk goes on there; otherwise, and at the root, it
/// ends.
fn set_in_parent<const LEAF: u32, const FAN: u32>(
    geometry: &Geometry<LEAF, FAN>,
    nodes: &mut Vec<Node>,
    node: u32,
) -> Option<u32>
    requires legal { IsLegalShape geometry.now }
    requires masks { AreLinkedUpTo geometry.now (now_masks nodes.old.items) node }
    requires both { start_masks nodes.old.items ≡ now_masks nodes.old.items }
    requires groups { AreGroups geometry.now (group_masks nodes.old.items) }
    ensures end { IfNone result (AreLinked geometry.now (now_masks nodes.new.items)) }
    ensures on { IfSome result (λ parent.
        AreLinkedUpTo geometry.now (now_masks nodes.new.items) parent) }
    ensures up { IfSome result (λ parent. parent < node) }
    ensures leaves { (k : ℕ) → first_leaf geometry.now ≤ k
        → slice_index (now_masks nodes.new.items) k ≡ slice_index (now_masks nodes.old.items) k }
    ensures both { start_masks nodes.new.items ≡ now_masks nodes.new.items }
    ensures group { group_masks nodes.new.items ≡ group_masks nodes.old.items }
{
    let parent = geometry.parent(node)?;
    let mask = now_mask(nodes, parent);
    let own = group_mask(nodes, node);
    put_both(nodes, parent, mask | own);
    if mask != 0 {
        return None;
    }
    Some(parent)
}
