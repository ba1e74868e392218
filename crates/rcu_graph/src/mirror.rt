//! The nodes at run time, beside the shared words: states, links and words, row by row.
ghost use Rattle.std.specs.Prelude.{◌≡◌, ◌≤◌, ◌<◌, ◌+◌, ◌-◌, ◌*◌, ◌^◌, ℕ, IfNone, IfOk, IfSome};
ghost use Rattle.std.specs.Prelude.{length, replicate, slice_index};
ghost use Rattle.rcu_graph.specs.Mirror.{AreBy, AreSized, with_words};
ghost use Rattle.rcu_graph.specs.Nodes.{first_nodes, free_node, in_state, linked_to, node_at};
ghost use Rattle.rcu_graph.specs.Nodes.{reclaimed, renewed, state_at, worded};
ghost use Rattle.rcu_graph.specs.Tended.{AreAllUsed};
ghost use Rattle.rcu_graph.specs.declared.node_state.NodeState.TheVariants.{Free, Live, Unlinked};

use crate::cycle::Cycle;
use crate::node_state::NodeState;
use crate::plan::Plan;
use crate::rule::Shape;
use std::alloc::{AllocError, Global};
use std::marker::Model;

/// The nodes of a graph of a plan.
#[derive(Drop)]
pub(crate) struct Mirror {
    plan: Plan,
    states: Cycle,
    links: Vec<u64>,
    words: Vec<u64>,
}

impl Model for Mirror {
    ghost use Rattle.std.specs.Prelude.{◌≡◌, ◌<◌, ◌+◌, ◌-◌, ◌*◌, ◌^◌, length};
    ghost use Rattle.rcu_graph.specs.Mirror.{Mirrored, nodes_of};

    ghost Value = { Mirrored };

    ghost view = { λ m. record {
      plan = m.plan;
      nodes = nodes_of m.plan.links m.plan.words m.states m.links.items m.words.items;
    } };

    ghost invariant = { λ m. record {
      count : length m.states ≡ m.plan.nodes;
      links : length m.links.items ≡ m.plan.links * m.plan.nodes;
      words : length m.words.items ≡ m.plan.words * m.plan.nodes;
      links_fit : m.plan.links * m.plan.nodes + 1 < 2 ^ 64;
      words_fit : m.plan.words * m.plan.nodes < 2 ^ 64;
      nodes_fit : m.plan.nodes < 2 ^ 64 - 1;
    } };
}

/// Returns where the cell `k` of a node's row is, of rows of this many cells.
fn cell_of(row: usize, count: usize, node: usize, k: usize) -> usize
    requires node { node < count }
    requires inside { k < row }
    requires small { row * count < 2 ^ 64 }
    ensures place { result ≡ row * node + k }
    ensures inside { result < row * count }
{
    row * node + k
}

impl Mirror {
    /// Returns the nodes at first.
    pub(crate) fn new<F: Shape>(alloc: Global, plan: Plan) -> Result<Self, AllocError>
        requires roots { plan.roots ≤ plan.nodes }
        requires links { plan.links * plan.nodes + 1 < 2 ^ 64 }
        requires words { plan.words * plan.nodes < 2 ^ 64 }
        requires nodes { plan.nodes < 2 ^ 64 - 1 }
        requires first { (i : ℕ) → i < plan.roots → length (F.first plan i) ≡ plan.words }
        ensures plan { IfOk result (λ mirror. mirror.plan ≡ plan) }
        ensures nodes { IfOk result (λ mirror. mirror.nodes
            ≡ first_nodes plan.links plan.words (F.first plan) plan.roots plan.nodes) }
    {
        let mut mirror = Self::free_nodes(alloc, plan)?;
        for root in 0..plan.roots {
            mirror.publish(root);
            mirror.set_first_words::<F>(root);
        }
        Ok(mirror)
    }

    /// Returns free nodes, whose links and words are 0.
    fn free_nodes(alloc: Global, plan: Plan) -> Result<Self, AllocError>
        requires links { plan.links * plan.nodes + 1 < 2 ^ 64 }
        requires words { plan.words * plan.nodes < 2 ^ 64 }
        requires nodes { plan.nodes < 2 ^ 64 - 1 }
        ensures plan { IfOk result (λ mirror. mirror.plan ≡ plan) }
        ensures nodes { IfOk result (λ mirror. mirror.nodes
            ≡ replicate plan.nodes (free_node plan.links plan.words)) }
    {
        let states = Cycle::new(alloc, plan.nodes)?;
        let links = vec![in alloc; 0u64; plan.links * plan.nodes]?;
        let words = vec![in alloc; 0u64; plan.words * plan.nodes]?;
        Ok(Mirror {
            plan,
            states,
            links,
            words,
        })
    }

    /// Gives a proof the invariant of the copy, and does nothing.
    #[inline(always)]
    pub(crate) fn kept(&self)
        ensures few { length self.now.nodes ≡ self.now.plan.nodes }
        ensures sized { AreSized self.now.plan.nodes self.now.plan.links self.now.plan.words
            self.now.nodes }
        ensures links_fit { self.now.plan.links * self.now.plan.nodes + 1 < 2 ^ 64 }
        ensures nodes_fit { self.now.plan.nodes < 2 ^ 64 - 1 }
    {
        let _ = &self.states;
    }

    /// Returns the plan of the graph.
    pub(crate) fn plan(&self) -> Plan
        ensures plan { result ≡ self.now.plan }
        ensures few { length self.now.nodes ≡ self.now.plan.nodes }
        ensures sized { AreSized self.now.plan.nodes self.now.plan.links self.now.plan.words
            self.now.nodes }
        ensures links_fit { self.now.plan.links * self.now.plan.nodes + 1 < 2 ^ 64 }
        ensures nodes_fit { self.now.plan.nodes < 2 ^ 64 - 1 }
    {
        self.kept();
        self.plan
    }

    /// Returns the state of a node.
    pub(crate) fn state(&self, node: usize) -> NodeState
        requires { node < self.now.plan.nodes }
        ensures { result ≡ state_at self.now.nodes node }
    {
        self.states.state(node)
    }

    /// Returns a free node, if there is one.
    pub(crate) fn free_node(&self) -> Option<usize>
        ensures inside { IfSome result (λ node. node < self.now.plan.nodes) }
        ensures free { IfSome result (λ node. state_at self.now.nodes node ≡ Free) }
        ensures none { IfNone result (AreAllUsed self.now.nodes) }
    {
        self.states.free_node()
    }

    /// Returns where a link of a node leads.
    pub(crate) fn link(&self, node: usize, link: usize) -> u64
        requires node { node < self.now.plan.nodes }
        requires link { link < self.now.plan.links }
        ensures { result ≡ slice_index (node_at self.now.nodes node).links link }
    {
        self.links[cell_of(self.plan.links, self.plan.nodes, node, link)]
    }

    /// Returns a word of a node.
    pub(crate) fn word(&self, node: usize, word: usize) -> u64
        requires node { node < self.now.plan.nodes }
        requires word { word < self.now.plan.words }
        ensures { result ≡ slice_index (node_at self.now.nodes node).words word }
    {
        self.words[cell_of(self.plan.words, self.plan.nodes, node, word)]
    }

    /// Makes a free node live.
    pub(crate) fn publish(&mut self, node: usize)
        requires node { node < self.old.plan.nodes }
        requires free { state_at self.old.nodes node ≡ Free }
        ensures plan { self.new.plan ≡ self.old.plan }
        ensures nodes { self.new.nodes ≡ renewed self.old.nodes node (in_state Live) }
    {
        self.states.publish(node);
    }

    /// Marks a live node as unlinked.
    pub(crate) fn mark_unlinked(&mut self, node: usize)
        requires node { node < self.old.plan.nodes }
        requires live { state_at self.old.nodes node ≡ Live }
        ensures plan { self.new.plan ≡ self.old.plan }
        ensures nodes { self.new.nodes ≡ renewed self.old.nodes node (in_state Unlinked) }
    {
        self.states.mark_unlinked(node);
    }

    /// Changes the target of a node's link.
    pub(crate) fn set_link(&mut self, node: usize, link: usize, value: u64)
        requires node { node < self.old.plan.nodes }
        requires link { link < self.old.plan.links }
        ensures plan { self.new.plan ≡ self.old.plan }
        ensures nodes { self.new.nodes ≡ renewed self.old.nodes node (linked_to link value) }
    {
        let cell = cell_of(self.plan.links, self.plan.nodes, node, link);
        self.links[cell] = value;
    }

    /// Replaces a word of a node.
    pub(crate) fn set_word(&mut self, node: usize, word: usize, value: u64)
        requires node { node < self.old.plan.nodes }
        requires word { word < self.old.plan.words }
        ensures plan { self.new.plan ≡ self.old.plan }
        ensures nodes { self.new.nodes ≡ renewed self.old.nodes node (worded word value) }
    {
        let cell = cell_of(self.plan.words, self.plan.nodes, node, word);
        self.words[cell] = value;
    }

    /// Gives a root its first words.
    fn set_first_words<F: Shape>(&mut self, root: usize)
        requires root { root < self.old.plan.roots }
        requires node { root < self.old.plan.nodes }
        requires sized { length (F.first self.old.plan root) ≡ self.old.plan.words }
        ensures plan { self.new.plan ≡ self.old.plan }
        ensures nodes { self.new.nodes
            ≡ renewed self.old.nodes root (with_words (F.first self.old.plan root)) }
    {
        let plan = self.plan();
        for word in 0..plan.words {
            self.set_word(root, word, F::first_word(plan, root, word));
        }
    }

    /// Updates the nodes after a load of this number. Costs a step for each node that becomes free
    /// or retired.
    pub(crate) fn reclaim(&mut self, number: u64)
        requires small { number ≤ 2 ^ 62 }
        requires late { AreBy number self.old.nodes }
        ensures plan { self.new.plan ≡ self.old.plan }
        ensures nodes { self.new.nodes ≡ reclaimed number number self.old.nodes }
    {
        self.states.reclaim(number);
    }
}
