//! A report's walk up the tree.
ghost use Rattle.std.specs.Prelude.{◌≡◌, ◌<◌, true, false, slice_set};
ghost use Rattle.std.specs.Prelude.{IfSome, IfNone};
ghost use Rattle.rcu_geometry.specs.Geometry.{IsLegalShape};
ghost use Rattle.rcu_node.specs.CpuSet.{is_in};
ghost use Rattle.rcu_node.specs.Masks.{AreGroups, AreLinked};
ghost use Rattle.rcu_node.specs.Masks.{group_masks, members, now_masks, start_masks};
ghost use Rattle.rcu_node.specs.Steps.{AreLinkedBut};

use crate::node::{Node, clear, group_mask, now_mask};
use rcu_geometry::Geometry;

/// Clears an awaited processor in its leaf, and walks up from there as long as masks become empty.
pub fn walk<const LEAF: u32, const FAN: u32>(
    geometry: &Geometry<LEAF, FAN>,
    nodes: &mut Vec<Node>,
    cpu: u32,
)
    requires legal { IsLegalShape geometry.now }
    requires cpu { cpu < geometry.now.cpus }
    requires masks { AreLinked geometry.now (now_masks nodes.old.items) }
    requires groups { AreGroups geometry.now (group_masks nodes.old.items) }
    requires awaited { is_in (members geometry.now (now_masks nodes.old.items)) cpu ≡ true }
    ensures masks { AreLinked geometry.now (now_masks nodes.new.items) }
    ensures members { members geometry.now (now_masks nodes.new.items)
        ≡ slice_set (members geometry.now (now_masks nodes.old.items)) cpu false }
    ensures start { start_masks nodes.new.items ≡ start_masks nodes.old.items }
    ensures group { group_masks nodes.new.items ≡ group_masks nodes.old.items }
{
    let mut node = geometry.leaf_of(cpu);
    clear(nodes, node, 1 << geometry.bit_of(cpu));
    while let Some(parent) = step(geometry, nodes, node) {
        node = parent;
    }
}

/// One step of the walk, at a node that lost a bit. If its mask is not empty, or it is the root,
/// the walk ends. Otherwise the step clears the node's bit in its parent, and the walk goes on
/// there.
fn step<const LEAF: u32, const FAN: u32>(
    geometry: &Geometry<LEAF, FAN>,
    nodes: &mut Vec<Node>,
    node: u32,
) -> Option<u32>
    requires legal { IsLegalShape geometry.now }
    requires masks { AreLinkedBut geometry.now (now_masks nodes.old.items) node }
    requires groups { AreGroups geometry.now (group_masks nodes.old.items) }
    ensures end { IfNone result (AreLinked geometry.now (now_masks nodes.new.items)) }
    ensures on { IfSome result (λ parent.
        AreLinkedBut geometry.now (now_masks nodes.new.items) parent) }
    ensures up { IfSome result (λ parent. parent < node) }
    ensures members { members geometry.now (now_masks nodes.new.items)
        ≡ members geometry.now (now_masks nodes.old.items) }
    ensures start { start_masks nodes.new.items ≡ start_masks nodes.old.items }
    ensures group { group_masks nodes.new.items ≡ group_masks nodes.old.items }
{
    if now_mask(nodes, node) != 0 {
        return None;
    }
    let parent = geometry.parent(node)?;
    let own = group_mask(nodes, node);
    clear(nodes, parent, own);
    Some(parent)
}
