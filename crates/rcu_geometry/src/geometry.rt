//! Levels, parents and bits of a combining tree.
ghost use Rattle.std.specs.Prelude.{◌≡◌, ◌<◌, ◌≤◌, ◌+◌, ◌-◌, ◌*◌, ◌^◌, ◌==◌, ℕ, if◌then◌else◌};
ghost use Rattle.std.specs.Prelude.{Some, None, IfOk, IfSome, length, slice_index};
ghost use Rattle.std.specs.Result.{result_err};
ghost use Rattle.rcu_geometry.specs.Geometry.{IsLegalShape, Shape, ceil, refusal, shape};
ghost use Rattle.rcu_geometry.specs.Geometry.{bit_in_parent as bit_in_parent_of};
ghost use Rattle.rcu_geometry.specs.Geometry.{bit_of as bit_of_cpu};
ghost use Rattle.rcu_geometry.specs.Geometry.{capacity as capacity_of, is_fanout as is_a_fanout};
ghost use Rattle.rcu_geometry.specs.Geometry.{leaf_of as leaf_of_cpu};
ghost use Rattle.rcu_geometry.specs.Geometry.{level_nodes as level_nodes_of};
ghost use Rattle.rcu_geometry.specs.Geometry.{level_of as level_of_node};
ghost use Rattle.rcu_geometry.specs.Geometry.{level_start as level_start_of};
ghost use Rattle.rcu_geometry.specs.Geometry.{levels as levels_of, nodes as nodes_of};
ghost use Rattle.rcu_geometry.specs.Geometry.{parent as parent_of};

use arrayvec::ArrayVec;
use rcu_seq::Fault;
use std::marker::Model;

/// The most processors that a tree can have.
const MOST_CPUS: u32 = 4096;

/// The most levels of a tree.
const MOST_LEVELS: u32 = 4;

/// The first node of each level, and behind them the number of nodes.
type Starts = ArrayVec<u32, 5>;

/// The shape of a combining tree whose leaves have up to `LEAF` processors, and whose inner nodes
/// have up to `FAN` children, both 2 to 64 (Linux's `rcu_node_tree.h`, and the Data-Structures
/// document).
///
/// It has the fewest levels that hold all processors, at most four. Nodes are numbered level by
/// level from the root, 0. Contracts see the two fanouts and the number of processors, and
/// everything else follows by formula. A call costs at most some steps a level.
#[derive(Drop)]
pub struct Geometry<const LEAF: u32, const FAN: u32> {
    cpus: u32,
    /// 1 to 4.
    levels: u32,
    /// The first node of each level, and behind them the number of nodes.
    starts: Starts,
}

impl<const LEAF: u32, const FAN: u32> Model for Geometry<LEAF, FAN> {
    ghost use Rattle.std.specs.Prelude.{◌≡◌, ◌≤◌, ◌+◌, ℕ, length, slice_index};
    ghost use Rattle.rcu_geometry.specs.Geometry.{IsLegalShape, Shape, shape};
    ghost use Rattle.rcu_geometry.specs.Geometry.{level_start as level_start_of};
    ghost use Rattle.rcu_geometry.specs.Geometry.{levels as levels_of};

    ghost Value = { Shape };

    ghost view = { λ g. shape LEAF FAN g.cpus };

    ghost invariant = { λ g. record {
      legal : IsLegalShape (shape LEAF FAN g.cpus);
      leveled : g.levels ≡ levels_of (shape LEAF FAN g.cpus);
      sized : length g.starts.items ≡ g.levels + 1;
      started : (i : ℕ) → i ≤ g.levels
          → slice_index g.starts.items i ≡ level_start_of (shape LEAF FAN g.cpus) i;
    } };
}

impl<const LEAF: u32, const FAN: u32> Geometry<LEAF, FAN> {
    /// The shape of a tree for this number of processors.
    ///
    /// Faults: `BadFanout` (18) if a fanout is outside 2..=64; `TooManyCpus` (17) for no processor,
    /// more than 4,096, or more than four levels hold.
    pub fn new(cpus: u32) -> Result<Self, Fault>
        ensures fault { result_err result ≡ refusal (shape LEAF FAN cpus) }
        ensures state { IfOk result (λ g. g ≡ shape LEAF FAN cpus) }
        ensures legal { IfOk result (λ g. IsLegalShape g) }
    {
        if !is_fanout(LEAF) || !is_fanout(FAN) {
            return Err(Fault::BadFanout);
        }
        if cpus == 0 || MOST_CPUS < cpus || capacity(LEAF, FAN, MOST_LEVELS - 1) < cpus {
            return Err(Fault::TooManyCpus);
        }
        let levels = least_levels(LEAF, FAN, cpus);
        Ok(Geometry {
            cpus,
            levels,
            starts: level_starts(LEAF, FAN, cpus, levels),
        })
    }

    /// The number of processors, 1 to 4,096.
    pub fn cpus(&self) -> u32
        ensures value { result ≡ self.now.cpus }
        ensures leaf { self.now.leaf ≡ LEAF }
        ensures fanout { self.now.fan ≡ FAN }
        ensures legal { IsLegalShape self.now }
    {
        self.cpus
    }

    /// The number of levels, 1 to 4.
    #[tactic(auto, using(crate::proofs::Capacities::levels_rules))]
    pub fn levels(&self) -> u32
        ensures value { result ≡ levels_of self.now }
        ensures some { 1 ≤ result }
        ensures few { result ≤ 4 }
        ensures enough { self.now.cpus ≤ capacity_of self.now (result - 1) }
        ensures least { 1 < result → capacity_of self.now (result - 2) < self.now.cpus }
    {
        self.levels
    }

    /// The number of nodes.
    pub fn nodes(&self) -> u32
        ensures { result ≡ nodes_of self.now }
    {
        self.start(self.levels)
    }

    /// The first node of a level. The level is below `levels()`.
    pub fn level_start(&self, i: u32) -> u32
        requires { i < levels_of self.now }
        ensures { result ≡ level_start_of self.now i }
    {
        self.start(i)
    }

    /// How many nodes a level has. The level is below `levels()`.
    #[tactic(auto, using(crate::proofs::Levels::level_rules))]
    pub fn level_nodes(&self, i: u32) -> u32
        requires { i < levels_of self.now }
        ensures value { result ≡ level_nodes_of self.now i }
        ensures some { 0 < result }
        ensures few { result ≤ 4096 }
        ensures leaves { i + 1 ≡ levels_of self.now → result ≡ ceil self.now.cpus LEAF }
    {
        self.start(i + 1) - self.start(i)
    }

    /// The parent of a node, which lies one level up; none of the root. The node is below
    /// `nodes()`.
    pub fn parent(&self, node: u32) -> Option<u32>
        requires { node < nodes_of self.now }
        ensures value { result ≡ (if node == 0 then None else Some (parent_of self.now node)) }
        ensures one_level_up { IfSome result (λ parent.
            level_of_node self.now node ≡ level_of_node self.now parent + 1) }
        ensures before { IfSome result (λ parent. parent < node) }
    {
        if node == 0 {
            return None;
        }
        let level = self.level_of(node);
        Some(self.start(level - 1) + (node - self.start(level)) / FAN)
    }

    /// The bit of a node in its parent, below `FAN`; none of the root (Linux's `grpnum`, whose mask
    /// is `grpmask`). The node is below `nodes()`.
    pub fn bit_in_parent(&self, node: u32) -> Option<u32>
        requires { node < nodes_of self.now }
        ensures value { result
            ≡ (if node == 0 then None else Some (bit_in_parent_of self.now node)) }
        ensures below { IfSome result (λ bit. bit < FAN) }
    {
        (node != 0).then_some((node - self.start(self.level_of(node))) % FAN)
    }

    /// The leaf of a processor, a node of the last level. The processor is below `cpus()`.
    pub fn leaf_of(&self, cpu: u32) -> u32
        requires { cpu < self.now.cpus }
        ensures value { result ≡ leaf_of_cpu self.now cpu }
        ensures here { result < nodes_of self.now }
    {
        self.start(self.levels - 1) + cpu / LEAF
    }

    /// The bit of a processor in its leaf, below `LEAF`. The processor is below `cpus()`.
    pub fn bit_of(&self, cpu: u32) -> u32
        requires { cpu < self.now.cpus }
        ensures value { result ≡ bit_of_cpu self.now cpu }
        ensures below { result < LEAF }
    {
        prove!(cpu < self.cpus);
        cpu % LEAF
    }

    /// The first node of level `i`, or the number of nodes if there is no such level.
    fn start(&self, i: u32) -> u32
        requires { i ≤ levels_of self.now }
        ensures value { result ≡ level_start_of self.now i }
        ensures few { result ≤ 16384 }
        ensures leaf { self.now.leaf ≡ LEAF }
        ensures fanout { self.now.fan ≡ FAN }
        ensures shape { IsLegalShape self.now }
    {
        self.starts[i as usize]
    }

    fn level_of(&self, node: u32) -> u32
        requires { node < nodes_of self.now }
        ensures value { result ≡ level_of_node self.now node }
        ensures range { result < levels_of self.now }
        ensures start { level_start_of self.now result ≤ node }
        ensures below_root { 0 < node → 0 < result }
    {
        for i in 1..self.levels {
            if node < self.start(i) {
                return i - 1;
            }
        }
        self.levels - 1
    }
}

fn is_fanout(fanout: u32) -> bool
    ensures { result ≡ is_a_fanout fanout }
{
    (2..=64).contains(&fanout)
}

/// How many processors can lie below a node that is `height` levels above the leaves.
fn capacity(leaf: u32, fan: u32, height: u32) -> u32
    requires leaf { leaf ≤ 64 }
    requires fan { fan ≤ 64 }
    requires height { height ≤ 3 }
    ensures value { result ≡ leaf * fan ^ height }
    ensures some { 0 < leaf → 0 < fan → 0 < result }
{
    leaf * fan.pow(height)
}

fn least_levels(leaf: u32, fan: u32, cpus: u32) -> u32
    requires { IsLegalShape (shape leaf fan cpus) }
    ensures { result ≡ levels_of (shape leaf fan cpus) }
{
    let mut levels = 1;
    while capacity(leaf, fan, levels - 1) < cpus {
        levels += 1;
    }
    levels
}

/// How many nodes the level that is `height` above the leaves has.
fn nodes_at(leaf: u32, fan: u32, cpus: u32, height: u32) -> u32
    requires legal { IsLegalShape (shape leaf fan cpus) }
    requires height { height ≤ 3 }
    ensures { result ≡ ceil cpus (leaf * fan ^ height) }
{
    cpus.div_ceil(capacity(leaf, fan, height))
}

/// The first node of each level, and behind them the number of nodes.
fn level_starts(leaf: u32, fan: u32, cpus: u32, levels: u32) -> Starts
    requires legal { IsLegalShape (shape leaf fan cpus) }
    requires leveled { levels ≡ levels_of (shape leaf fan cpus) }
    ensures sized { length result.items ≡ levels + 1 }
    ensures started { (i : ℕ) → i ≤ levels
        → slice_index result.items i ≡ level_start_of (shape leaf fan cpus) i }
{
    let mut starts = ArrayVec::new();
    let mut next = 0;
    starts.push(next);
    for height in (0..levels).rev() {
        next += nodes_at(leaf, fan, cpus, height);
        starts.push(next);
    }
    starts
}
