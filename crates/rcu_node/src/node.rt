//! A node's masks, and single reads and writes of them.
ghost use Rattle.std.specs.Prelude.{◌≡◌, ◌<◌, length, slice_index, slice_set, bit_and};
ghost use Rattle.std.specs.Int.{bit_not, w64};
ghost use Rattle.rcu_node.specs.Masks.{group_masks, now_masks, start_masks};

/// The masks of a node over its children, which are processors in a leaf (Linux's `rcu_node`).
#[derive(Clone, Copy, Drop)]
pub struct Node {
    /// The children that are awaited now.
    pub qsmask: u64,
    /// The children that were awaited at the start of the grace period.
    pub qsmaskinit: u64,
    /// This node's bit in its parent, 0 at the root.
    pub grpmask: u64,
}

/// The children of a node that are awaited now.
pub fn now_mask(nodes: &Vec<Node>, node: u32) -> u64
    requires { node < length nodes.now.items }
    ensures { result ≡ slice_index (now_masks nodes.now.items) node }
{
    nodes[node as usize].qsmask
}

/// The children of a node that were awaited at the start.
pub fn start_mask(nodes: &Vec<Node>, node: u32) -> u64
    requires { node < length nodes.now.items }
    ensures { result ≡ slice_index (start_masks nodes.now.items) node }
{
    nodes[node as usize].qsmaskinit
}

/// A node's bit in its parent.
pub fn group_mask(nodes: &Vec<Node>, node: u32) -> u64
    requires { node < length nodes.now.items }
    ensures { result ≡ slice_index (group_masks nodes.now.items) node }
{
    nodes[node as usize].grpmask
}

/// Clears bits of a node's mask.
pub fn clear(nodes: &mut Vec<Node>, node: u32, bits: u64)
    requires { node < length nodes.old.items }
    ensures now { now_masks nodes.new.items ≡ slice_set (now_masks nodes.old.items) node
        (bit_and (slice_index (now_masks nodes.old.items) node) (bit_not w64 bits)) }
    ensures start { start_masks nodes.new.items ≡ start_masks nodes.old.items }
    ensures group { group_masks nodes.new.items ≡ group_masks nodes.old.items }
{
    let mask = now_mask(nodes, node) & !bits;
    put_now(nodes, node, mask);
}

/// Stores a node's mask.
pub fn put_now(nodes: &mut Vec<Node>, node: u32, mask: u64)
    requires { node < length nodes.old.items }
    ensures now { now_masks nodes.new.items ≡ slice_set (now_masks nodes.old.items) node mask }
    ensures start { start_masks nodes.new.items ≡ start_masks nodes.old.items }
    ensures group { group_masks nodes.new.items ≡ group_masks nodes.old.items }
{
    let at = &mut nodes[node as usize];
    at.qsmask = mask;
}

/// Stores a node's mask, both of now and at the start.
pub fn put_both(nodes: &mut Vec<Node>, node: u32, mask: u64)
    requires { node < length nodes.old.items }
    ensures now { now_masks nodes.new.items ≡ slice_set (now_masks nodes.old.items) node mask }
    ensures start { start_masks nodes.new.items
        ≡ slice_set (start_masks nodes.old.items) node mask }
    ensures group { group_masks nodes.new.items ≡ group_masks nodes.old.items }
{
    let at = &mut nodes[node as usize];
    at.qsmask = mask;
    at.qsmaskinit = mask;
}

/// Stores a node's bit in its parent.
pub fn put_group(nodes: &mut Vec<Node>, node: u32, mask: u64)
    requires { node < length nodes.old.items }
    ensures group { group_masks nodes.new.items
        ≡ slice_set (group_masks nodes.old.items) node mask }
    ensures now { now_masks nodes.new.items ≡ now_masks nodes.old.items }
    ensures start { start_masks nodes.new.items ≡ start_masks nodes.old.items }
{
    let at = &mut nodes[node as usize];
    at.grpmask = mask;
}
