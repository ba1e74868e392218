//! The states of the nodes, in a cycle: from free to live, unlinked, retired, and to free again. A
//! step of one costs the same, however many nodes there are.
ghost use Rattle.std.specs.Prelude.{◌≡◌, ◌-◌, ◌<◌, ◌≤◌, ◌^◌, ℕ, IfNone, IfOk, IfSome, length, map};
ghost use Rattle.std.specs.Prelude.{replicate, slice_index, slice_set};
ghost use Rattle.rcu_graph.specs.Cycle.{IsTurn, is_over, is_unlinked, state_in, turned};
ghost use Rattle.rcu_graph.specs.Nodes.{IsBy, reclaimed_state};
ghost use Rattle.rcu_graph.specs.declared.node_state.NodeState.TheVariants.{Free, Live, Retired};
ghost use Rattle.rcu_graph.specs.declared.node_state.NodeState.TheVariants.{Unlinked};

use crate::node_state::NodeState;
use std::alloc::{AllocError, Global};
use std::collections::VecDeque;
use std::marker::Model;

/// The states of nodes, with room for each node in both lists.
#[derive(Drop)]
pub(crate) struct Cycle {
    states: Vec<NodeState>,
    /// The free nodes, the one that was freed last on top.
    free: Vec<usize>,
    /// The height of each free node in that stack.
    heights: Vec<usize>,
    /// The retired nodes in the order in which they were retired, and behind them the unlinked ones
    /// in the order in which they were unlinked.
    waiting: VecDeque<usize>,
    /// How many of the waiting nodes are retired.
    retired: usize,
}

impl Model for Cycle {
    ghost use Rattle.std.specs.Prelude.{◌≤◌, List, length};
    ghost use Rattle.std.specs.Vec.{vec_capacity};
    ghost use Rattle.std.specs.VecDeque.{deque_capacity};
    ghost use Rattle.rcu_graph.specs.Cycle.{IsCycle};
    ghost use Rattle.rcu_graph.specs.declared.node_state.NodeState.{NodeState};

    ghost Value = { List NodeState };

    ghost view = { λ c. c.states.items };

    ghost invariant = { λ c. record {
      cycle : IsCycle c.states.items c.free.items c.heights.items c.waiting.items c.retired;
      free : length c.states.items ≤ vec_capacity c.free;
      waiting : length c.states.items ≤ deque_capacity c.waiting;
    } };
}

/// Returns this many numbers, the last one first.
fn falling(alloc: Global, count: usize) -> Result<Vec<usize>, AllocError>
    ensures many { IfOk result (λ numbers. length numbers.items ≡ count) }
    ensures each { IfOk result (λ numbers. (i : ℕ) → i < count →
        slice_index numbers.items i ≡ count - 1 - i) }
{
    let mut numbers = vec![in alloc; 0usize; count]?;
    for number in 0..count {
        numbers[number] = count - 1 - number;
    }
    Ok(numbers)
}

impl Cycle {
    /// Returns the states with all nodes free. Allocates all memory that they will ever need.
    pub(crate) fn new(alloc: Global, count: usize) -> Result<Self, AllocError>
        ensures { IfOk result (λ cycle. cycle ≡ replicate count Free) }
    {
        let states = vec![in alloc; NodeState::Free; count]?;
        let free = falling(alloc, count)?;
        let heights = falling(alloc, count)?;
        let waiting = VecDeque::with_capacity(alloc, count)?;
        Ok(Cycle {
            states,
            free,
            heights,
            waiting,
            retired: 0,
        })
    }

    /// Returns the state of a node.
    pub(crate) fn state(&self, node: usize) -> NodeState
        requires { node < length self.now }
        ensures { result ≡ state_in self.now node }
    {
        self.states[node]
    }

    /// Returns the free node that was freed last, if one is free: so a steady turnover uses the
    /// same few nodes again and again, and they stay in the cache.
    pub(crate) fn free_node(&self) -> Option<usize>
        ensures inside { IfSome result (λ node. node < length self.now) }
        ensures free { IfSome result (λ node. state_in self.now node ≡ Free) }
        ensures none { IfNone result ((i : ℕ) → i < length self.now → state_in self.now i ≡ Free →
            ⊥) }
    {
        let count = self.free.len();
        if count == 0 {
            return None;
        }
        Some(self.free[count - 1])
    }

    /// Makes a free node live.
    pub(crate) fn publish(&mut self, node: usize)
        requires node { node < length self.old }
        requires free { state_in self.old node ≡ Free }
        ensures { self.new ≡ slice_set self.old node Live }
    {
        let height = self.heights[node];
        let top = self.free[self.free.len() - 1];
        self.heights[top] = height;
        self.free.swap_remove(height);
        self.states[node] = NodeState::Live;
    }

    /// Marks a live node as unlinked.
    pub(crate) fn mark_unlinked(&mut self, node: usize)
        requires node { node < length self.old }
        requires live { state_in self.old node ≡ Live }
        ensures { self.new ≡ slice_set self.old node Unlinked }
    {
        let Ok(()) = self.waiting.push_back(node) else {
            unreachable!()
        };
        self.states[node] = NodeState::Unlinked;
    }

    /// Updates the states after a load of this number. Costs a step for each node that becomes free
    /// or retired.
    pub(crate) fn reclaim(&mut self, number: u64)
        requires small { number ≤ 2 ^ 62 }
        requires late { (i : ℕ) → i < length self.old → IsBy number (state_in self.old i) }
        ensures { self.new ≡ map (reclaimed_state number number) self.old }
    {
        self.free_all(number);
        self.retire_all(number);
    }

    /// Frees the nodes that were retired a full grace period ago.
    fn free_all(&mut self, number: u64)
        requires { number ≤ 2 ^ 62 }
        ensures { self.new ≡ map (turned (is_over number) Free) self.old }
    {
        while self.free_next(number) {}
    }

    /// Retires the unlinked nodes.
    fn retire_all(&mut self, number: u64)
        requires { (i : ℕ) → i < length self.old → IsBy number (state_in self.old i) }
        ensures { self.new ≡ map (turned is_unlinked (Retired number)) self.old }
    {
        while self.retire_next(number) {}
    }

    /// Frees the node that was retired first, if that was a full grace period ago. Returns whether
    /// it did.
    fn free_next(&mut self, number: u64) -> bool
        requires { number ≤ 2 ^ 62 }
        ensures { IsTurn (is_over number) Free self.old self.new result }
    {
        if self.retired == 0 {
            return false;
        }
        let node = self.waiting[0];
        if !self.states[node].reclaimed(number).is_free() {
            return false;
        }
        self.waiting.pop_front();
        self.retired -= 1;
        self.heights[node] = self.free.len();
        let Ok(()) = self.free.push(node) else {
            unreachable!()
        };
        self.states[node] = NodeState::Free;
        true
    }

    /// Retires the node that was unlinked first, if one is. Returns whether it did.
    fn retire_next(&mut self, number: u64) -> bool
        requires { (i : ℕ) → i < length self.old → IsBy number (state_in self.old i) }
        ensures { IsTurn is_unlinked (Retired number) self.old self.new result }
    {
        if self.retired == self.waiting.len() {
            return false;
        }
        let node = self.waiting[self.retired];
        self.states[node] = NodeState::Retired(number);
        self.retired += 1;
        true
    }
}
