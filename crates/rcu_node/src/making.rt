//! The nodes of a new tree.
ghost use Rattle.std.specs.Prelude.{◌≡◌, ◌<◌, replicate, IfOk};
ghost use Rattle.rcu_geometry.specs.Geometry.{IsLegalShape, nodes as nodes_of};
ghost use Rattle.rcu_node.specs.Masks.{AreGroups, group_masks, group_of, now_masks};
ghost use Rattle.rcu_node.specs.Masks.{start_masks};

use crate::node::{Node, put_group};
use rcu_geometry::Geometry;
use std::alloc::{AllocError, Global};

/// Returns nodes whose only bit is each one's bit in its parent.
pub fn new_nodes<const LEAF: u32, const FAN: u32>(
    alloc: Global,
    geometry: &Geometry<LEAF, FAN>,
) -> Result<Vec<Node>, AllocError>
    requires legal { IsLegalShape geometry.now }
    ensures now { IfOk result (λ nodes.
        now_masks nodes.items ≡ replicate (nodes_of geometry.now) 0) }
    ensures start { IfOk result (λ nodes.
        start_masks nodes.items ≡ replicate (nodes_of geometry.now) 0) }
    ensures group { IfOk result (λ nodes. AreGroups geometry.now (group_masks nodes.items)) }
{
    let mut nodes = blank(alloc, geometry.nodes())?;
    for node in 0..geometry.nodes() {
        put_group(&mut nodes, node, own_bit(geometry, node));
    }
    Ok(nodes)
}

/// Returns nodes without a bit.
fn blank(alloc: Global, count: u32) -> Result<Vec<Node>, AllocError>
    ensures now { IfOk result (λ nodes. now_masks nodes.items ≡ replicate count 0) }
    ensures start { IfOk result (λ nodes. start_masks nodes.items ≡ replicate count 0) }
    ensures group { IfOk result (λ nodes. group_masks nodes.items ≡ replicate count 0) }
{
    let empty = Node {
        qsmask: 0,
        qsmaskinit: 0,
        grpmask: 0,
    };
    let nodes = vec![in alloc; empty; count as usize]?;
    Ok(nodes)
}

/// Returns a node's bit in its parent, 0 for the root.
fn own_bit<const LEAF: u32, const FAN: u32>(geometry: &Geometry<LEAF, FAN>, node: u32) -> u64
    requires legal { IsLegalShape geometry.now }
    requires here { node < nodes_of geometry.now }
    ensures { result ≡ group_of geometry.now node }
{
    match geometry.bit_in_parent(node) {
        Some(bit) => 1 << bit,
        None => 0,
    }
}
