//! The two sets of a grace period in the masks of a tree's nodes.
ghost use Rattle.std.specs.Prelude.{◌≡◌, ◌<◌, ◌≤◌, ◌==◌, ℕ, true, false, length, replicate};
ghost use Rattle.std.specs.Prelude.{slice_index, IfOk};
ghost use Rattle.rcu_geometry.specs.Geometry.{IsLegalShape, refusal, shape};
ghost use Rattle.rcu_geometry.specs.Geometry.{nodes as nodes_of};
ghost use Rattle.rcu_seq.specs.Memory.{tested_fault};
ghost use Rattle.rcu_node.specs.CpuSet.{is_in, size_of};
ghost use Rattle.rcu_node.specs.Masks.{AreGroups, AreLinked};
ghost use Rattle.rcu_node.specs.Masks.{group_masks, members, now_masks, start_masks};

use crate::cpu_set::CpuSet;
use crate::emptying::empty;
use crate::fill::fill;
use crate::making::new_nodes;
use crate::node::{Node, group_mask, now_mask, start_mask};
use crate::period_sets::PeriodSets;
use crate::walk::walk;
use rcu_geometry::Geometry;
use rcu_seq::Fault;
use std::alloc::Global;

/// The nodes of a tree in the geometry's order, and how many processors are awaited.
#[derive(Drop)]
pub struct Nodes<const LEAF: u32, const FAN: u32> {
    /// The shape of the tree.
    geometry: Geometry<LEAF, FAN>,
    /// The masks of each node.
    nodes: Vec<Node>,
    /// How many bits are set in the leaves.
    count: u32,
    ghost legal: { IsLegalShape geometry },
    ghost shaped: { geometry ≡ shape LEAF FAN geometry.cpus },
    ghost awaited: { AreLinked geometry (now_masks nodes.items) },
    ghost started: { AreLinked geometry (start_masks nodes.items) },
    ghost groups: { AreGroups geometry (group_masks nodes.items) },
    ghost counted: { count ≡ size_of (members geometry (now_masks nodes.items)) },
    ghost some: { 0 < length (members geometry (now_masks nodes.items)) },
    ghost few: { length (members geometry (now_masks nodes.items)) ≤ 4096 },
    ghost alike: { length (members geometry (start_masks nodes.items))
        ≡ length (members geometry (now_masks nodes.items)) },
    ghost within: { (cpu : ℕ) → is_in (members geometry (now_masks nodes.items)) cpu ≡ true
        → is_in (members geometry (start_masks nodes.items)) cpu ≡ true },
}

impl<const LEAF: u32, const FAN: u32> Nodes<LEAF, FAN> {
    /// Returns nodes in which no processor is awaited.
    ///
    /// Faults: `BadFanout` (18) and `TooManyCpus` (17) as in [`Geometry::new`]; `NoMemory` (16).
    pub fn new(alloc: Global, cpus: u32) -> Result<Self, Fault>
        ensures fault { tested_fault result ≡ refusal (shape LEAF FAN cpus) }
        ensures awaited { IfOk result (λ tree.
            members tree.geometry (now_masks tree.nodes.items) ≡ replicate cpus false) }
        ensures start_set { IfOk result (λ tree.
            members tree.geometry (start_masks tree.nodes.items) ≡ replicate cpus false) }
    {
        let geometry = Geometry::<LEAF, FAN>::new(cpus)?;
        let nodes = new_nodes(alloc, &geometry)?;
        Ok(Nodes {
            geometry,
            nodes,
            count: 0,
        })
    }

    /// Returns the number of nodes.
    pub fn nodes(&self) -> u32
        ensures { result ≡ nodes_of self.now.geometry }
    {
        self.geometry.nodes()
    }

    /// The children of a node that are awaited now.
    pub fn qsmask(&self, node: u32) -> u64
        requires { node < nodes_of self.now.geometry }
        ensures { result ≡ slice_index (now_masks self.now.nodes.items) node }
    {
        now_mask(&self.nodes, node)
    }

    /// The children of a node that were awaited at the start.
    pub fn qsmaskinit(&self, node: u32) -> u64
        requires { node < nodes_of self.now.geometry }
        ensures { result ≡ slice_index (start_masks self.now.nodes.items) node }
    {
        start_mask(&self.nodes, node)
    }

    /// A node's bit in its parent.
    pub fn grpmask(&self, node: u32) -> u64
        requires { node < nodes_of self.now.geometry }
        ensures { result ≡ slice_index (group_masks self.now.nodes.items) node }
    {
        group_mask(&self.nodes, node)
    }
}

impl<const LEAF: u32, const FAN: u32> PeriodSets for Nodes<LEAF, FAN> {
    ghost start_set = { λ tree. members tree.geometry (start_masks tree.nodes.items) };

    ghost awaited = { λ tree. members tree.geometry (now_masks tree.nodes.items) };

    ghost some = { λ tree. tree.some };

    ghost few = { λ tree. tree.few };

    ghost alike = { λ tree. tree.alike };

    ghost within = { λ tree. tree.within };

    fn cpus(&self) -> u32 {
        self.geometry.cpus()
    }

    fn starts(&self, cpu: u32) -> bool {
        let mask = start_mask(&self.nodes, self.geometry.leaf_of(cpu));
        (mask >> self.geometry.bit_of(cpu)) & 1 == 1
    }

    fn awaits(&self, cpu: u32) -> bool {
        let mask = now_mask(&self.nodes, self.geometry.leaf_of(cpu));
        (mask >> self.geometry.bit_of(cpu)) & 1 == 1
    }

    fn count(&self) -> u32 {
        self.count
    }

    fn is_empty(&self) -> bool {
        now_mask(&self.nodes, 0) == 0
    }

    fn begin(&mut self, set: &CpuSet) {
        empty(&self.geometry, &mut self.nodes);
        fill(&self.geometry, &mut self.nodes, set);
        self.count = set.count();
    }

    fn remove(&mut self, cpu: u32) -> bool {
        if !self.awaits(cpu) {
            return false;
        }
        walk(&self.geometry, &mut self.nodes, cpu);
        self.count -= 1;
        true
    }
}
