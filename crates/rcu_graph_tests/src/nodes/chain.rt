//! A chain with its writer: it first tests the conditions of a call, by the writer's knowledge.
ghost use Rattle.std.specs.Prelude.{◌≡◌, ◌<◌, ℕ, IfOk, IfSome, IsTrue, replicate, slice_index};
ghost use Rattle.rcu_graph.specs.Graph.{word_to};
ghost use Rattle.rcu_graph.specs.Writer.{IsReady, IsWriterOf};
ghost use Rattle.rcu_graph.specs.Nodes.{IsTarget, node_at, nodes_in, state_at};
ghost use Rattle.rcu_graph.specs.Planned.{plan_of};
ghost use Rattle.rcu_graph.specs.Steps.{IsClaimed};

use crate::nodes::{Chain, Sorted};
use rcu_graph::{Full, GraphWatcher, Plan, Writer};
use std::alloc::{AllocError, Global};

/// A root, and three nodes with a key and a value.
pub(crate) const PLAN: Plan = Plan {
    roots: 1,
    links: 1,
    words: 2,
    nodes: 4,
    seed: 0,
};

/// The writer of the chain.
#[derive(Drop)]
pub(crate) struct ChainWriter {
    pub(crate) writer: Writer<Sorted>,
    ghost sized: { writer.view.client.plan ≡ plan_of 1 1 2 4 0 },
}

impl ChainWriter {
    pub(crate) fn new(
        alloc: Global,
        chain: &Chain,
        own: GraphWatcher<Sorted>,
    ) -> Result<Self, AllocError>
        requires sized { chain.now.plan ≡ plan_of 1 1 2 4 0 }
        requires writer { IsWriterOf chain.now own }
        requires first { IsClaimed (λ _. replicate 2 0) 1 1 2 4 own.view.client.known }
    {
        let writer = Writer::new(alloc, chain, own)?;
        Ok(ChainWriter { writer })
    }

    /// Returns whether a node's link may lead there: nowhere, or to a live node of a greater key.
    fn may_lead(&self, from: usize, to: Option<usize>) -> bool
        requires { from < 4 }
        ensures { IsTrue result → IsTarget (λ from to. slice_index from 0 < slice_index to 0)
            (node_at (nodes_in self.now.writer.view.client.known) from).words
            (nodes_in self.now.writer.view.client.known) (word_to to) }
    {
        self.writer.kept();
        let Some(node) = to else {
            return true;
        };
        if node >= 4 {
            return false;
        }
        if !self.writer.is_live(node) {
            return false;
        }
        self.writer.word(from, 0) < self.writer.word(node, 0)
    }

    /// Returns whether a node may be published.
    fn is_ready(&self, node: usize) -> bool
        requires { node < 4 }
        ensures { IsTrue result → IsReady (λ _. Unit {0})
            (λ _ from to. slice_index from 0 < slice_index to 0) 1
            (nodes_in self.now.writer.view.client.known) node }
    {
        self.writer.is_free(node) && self.may_lead(node, self.writer.link_of(node, 0))
    }

    /// Fills a free node, which leads to another one or nowhere.
    pub(crate) fn fill_free(&mut self, words: &[u64; 2], to: Option<usize>) -> Result<usize, Full>
        requires { IfSome to (λ node. node < 4) }
        ensures { IfOk result (λ node. node < 4) }
    {
        let node = self.writer.free_node()?;
        self.writer.fill(node, words, &[to]);
        Ok(node)
    }

    /// Links a live node to a free one, if that is allowed. Returns whether it did.
    pub(crate) fn publish(&mut self, from: usize, to: usize) -> bool
        requires from { from < 4 }
        requires to { to < 4 }
    {
        if !self.writer.is_live(from) {
            return false;
        }
        if !self.is_ready(to) {
            return false;
        }
        if self.writer.word(from, 0) >= self.writer.word(to, 0) {
            return false;
        }
        self.writer.publish(from, 0, to);
        true
    }

    /// Leads the link of a live node elsewhere, if that is allowed. Returns whether it did.
    pub(crate) fn link(&mut self, from: usize, to: Option<usize>) -> bool
        requires { from < 4 }
    {
        let may = self.writer.is_live(from) && self.may_lead(from, to);
        if may {
            self.writer.link(from, 0, to);
        }
        may
    }

    /// Leads the link of a live node nowhere. Returns whether it did.
    pub(crate) fn unlink(&mut self, from: usize) -> bool
        requires { from < 4 }
    {
        let may = self.writer.is_live(from);
        if may {
            self.writer.unlink(from, 0);
        }
        may
    }

    /// Looks at the number.
    pub(crate) fn reclaim(&mut self) -> u64 {
        self.writer.reclaim()
    }
}
