//! The awaited processors in a combining tree.
ghost use Rattle.std.specs.Prelude.{◌≡◌, ◌<◌, false, length, replicate, IfOk};
ghost use Rattle.rcu_geometry.specs.Geometry.{refusal, shape};
ghost use Rattle.rcu_geometry.specs.Geometry.{nodes as nodes_of};
ghost use Rattle.rcu_seq.specs.Memory.{tested_fault};
ghost use Rattle.rcu_seq.specs.Tags.{first_tag};
ghost use Rattle.rcu_node.specs.Masks.{IsMaskOf, group_of};

use crate::awaited::Awaited;
use crate::nodes::Nodes;
use crate::tagged_sets::TaggedSets;
use rcu_seq::{Fault, Tag};
use std::alloc::Global;

/// The awaited processors in a tree of up to `LEAF` processors a leaf and `FAN` children an inner
/// node (Linux's `rcu_node`, and the Data-Structures document).
///
/// Each node has a mask of its awaited children, which are processors in a leaf. A report clears a
/// bit in a leaf, and goes on in the parent if the mask is then empty. It costs at most a step for
/// each level. A begin costs a step for every 64 processors and for each node above the leaves, and
/// some for each leaf with a processor of this set or of the last one.
pub type Tree<const LEAF: u32, const FAN: u32> = TaggedSets<Nodes<LEAF, FAN>>;

impl<const LEAF: u32, const FAN: u32> Tree<LEAF, FAN> {
    /// Returns a tree in which no processor is awaited, at tag 0. Costs a step for every 64
    /// processors, and one for each node.
    ///
    /// Faults: `BadFanout` (18) if a fanout is outside 2..=64; `TooManyCpus` (17) for no processor,
    /// more than 4,096, or more than four levels hold; `NoMemory` (16).
    pub fn new(alloc: Global, cpus: u32) -> Result<Self, Fault>
        ensures fault { tested_fault result ≡ refusal (shape LEAF FAN cpus) }
        ensures tag { IfOk result (λ tree. ⟦<Tree<LEAF, FAN> as Awaited>⟧.tag tree ≡ first_tag) }
        ensures start_set { IfOk result (λ tree.
            ⟦<Tree<LEAF, FAN> as Awaited>⟧.start_set tree ≡ replicate cpus false) }
        ensures awaited { IfOk result (λ tree.
            ⟦<Tree<LEAF, FAN> as Awaited>⟧.awaited tree ≡ replicate cpus false) }
    {
        Ok(TaggedSets {
            tag: Tag::of_first_epoch(0),
            sets: Nodes::new(alloc, cpus)?,
        })
    }

    /// The number of nodes.
    pub fn nodes(&self) -> u32
        ensures { result ≡ nodes_of
            (shape LEAF FAN (length (⟦<Tree<LEAF, FAN> as Awaited>⟧.awaited self.now))) }
    {
        self.sets.nodes()
    }

    /// The children of a node that are awaited now, a bit for each (Linux's `qsmask`). The node is
    /// below `nodes()`.
    pub fn qsmask(&self, node: u32) -> u64
        requires { node < nodes_of
            (shape LEAF FAN (length (⟦<Tree<LEAF, FAN> as Awaited>⟧.awaited self.now))) }
        ensures { IsMaskOf
            (shape LEAF FAN (length (⟦<Tree<LEAF, FAN> as Awaited>⟧.awaited self.now)))
            (⟦<Tree<LEAF, FAN> as Awaited>⟧.awaited self.now) node result }
    {
        self.sets.qsmask(node)
    }

    /// The children of a node that were awaited at the start of the grace period (Linux's
    /// `qsmaskinit`). The node is below `nodes()`.
    pub fn qsmaskinit(&self, node: u32) -> u64
        requires { node < nodes_of
            (shape LEAF FAN (length (⟦<Tree<LEAF, FAN> as Awaited>⟧.awaited self.now))) }
        ensures { IsMaskOf
            (shape LEAF FAN (length (⟦<Tree<LEAF, FAN> as Awaited>⟧.awaited self.now)))
            (⟦<Tree<LEAF, FAN> as Awaited>⟧.start_set self.now) node result }
    {
        self.sets.qsmaskinit(node)
    }

    /// A node's bit in its parent, 0 at the root (Linux's `grpmask`). The node is below `nodes()`.
    pub fn grpmask(&self, node: u32) -> u64
        requires { node < nodes_of
            (shape LEAF FAN (length (⟦<Tree<LEAF, FAN> as Awaited>⟧.awaited self.now))) }
        ensures { result ≡ group_of
            (shape LEAF FAN (length (⟦<Tree<LEAF, FAN> as Awaited>⟧.awaited self.now))) node }
    {
        self.sets.grpmask(node)
    }
}
