//! The writer of a graph: it publishes and unlinks nodes by single stores, automatically unlinks
//! each node to which no live node leads, and knows which nodes are free.
ghost use Rattle.std.specs.Prelude.{◌≡◌, ◌≤◌, ◌<◌, ◌^◌, All, IfOk, IfSome, None, OnErr, length};
ghost use Rattle.std.specs.Prelude.{slice_index};
ghost use Rattle.rcu_live.specs.InPart.{watcher_part};
ghost use Rattle.rcu_graph.specs.Graph.{IsWatcherOf, word_to};
ghost use Rattle.rcu_graph.specs.Writer.{IsReady, IsWriterOf, after_look, after_store};
ghost use Rattle.rcu_graph.specs.Nodes.{IsTarget, is_free, is_live, node_at};
ghost use Rattle.rcu_graph.specs.Nodes.{nodes_in, state_at};
ghost use Rattle.rcu_graph.specs.Opening.{AreWhole};
ghost use Rattle.rcu_graph.specs.Steps.{IsClaimed};
ghost use Rattle.rcu_graph.specs.Tended.{AreAllUsed, AreCollected, AreLed, AreTended, after_fill};
ghost use Rattle.rcu_graph.specs.Tended.{published, relinked};
ghost use Rattle.rcu_graph.specs.declared.node_state.NodeState.TheVariants.{Free, Live};

use crate::counted_nodes::CountedNodes;
use crate::graph::Graph;
use crate::known_nodes::{KnownNodes, node_of};
use crate::plan::Plan;
use crate::rule::{GraphRule, GraphWatcher, Shape};
use rcu_live::{Alone, Within};
use std::alloc::{AllocError, Global};
use std::marker::Model;

/// No node is free.
#[derive(Clone, Copy, Debug, PartialEq, Eq)]
pub struct Full;

/// The writer of a graph, for one thread. A graph has one.
///
/// It counts the links of live nodes that lead to each node. So a node to which no live node leads
/// is unlinked automatically (as by the counts of `Rc`), then the nodes to which only that one led,
/// and so on. Nodes in a cycle stay live: unlink one of them first.
#[derive(Drop)]
pub struct Writer<F: Shape, P: Within<GraphRule<F>> = Alone> {
    graph: Graph<F, P>,
    counted: CountedNodes<F, P>,
}

impl<F: Shape, P: Within<GraphRule<F>>> Model for Writer<F, P> {
    ghost use Rattle.rcu_live.specs.Watcher.{Watching};
    ghost use Rattle.rcu_graph.specs.Graph.{IsWatcherOf};
    ghost use Rattle.rcu_graph.specs.Nodes.{nodes_in};
    ghost use Rattle.rcu_graph.specs.Collecting.{IsCounted};
    ghost use Rattle.rcu_graph.specs.declared.known.Planned.{Planned};

    ghost Value = { Watching Planned };

    ghost view = { λ k. k.counted.nodes };

    ghost invariant = { λ k. record {
      watches : IsWatcherOf k.graph k.counted.nodes;
      counted : IsCounted (F.fits k.graph.plan) (F.joins k.graph.plan) k.graph.plan.nodes
          k.graph.plan.roots k.graph.plan.links (nodes_in k.counted.nodes.view.client.known)
          k.counted.counts.items k.counted.unlinking.items;
    } };
}

impl<F: Shape, P: Within<GraphRule<F>>> Writer<F, P> {
    /// Returns the writer of a graph whose nodes are as at first. Allocates all memory that it will
    /// ever need.
    pub fn new(
        alloc: Global,
        graph: &Graph<F, P>,
        seat: GraphWatcher<F, P>,
    ) -> Result<Self, AllocError>
        requires writer { IsWriterOf graph.now (watcher_part P.lens seat) }
        requires nodes { IsClaimed (F.first graph.now.plan) graph.now.plan.roots
            graph.now.plan.links graph.now.plan.words graph.now.plan.nodes
            (P.lens.get seat.view.client).known }
        requires first { AreWhole (F.fits graph.now.plan) (F.first graph.now.plan)
            graph.now.plan }
        ensures { IfOk result (λ writer. writer ≡ watcher_part P.lens seat) }
    {
        let count = graph.plan().nodes;
        let counted = CountedNodes {
            nodes: KnownNodes::new(alloc, graph, seat)?,
            counts: vec![in alloc; 0usize; count]?,
            unlinking: vec![in alloc; 0usize; count]?,
        };
        let graph = graph.try_clone()?;
        Ok(Writer { graph, counted })
    }

    /// Gives a proof the invariant of a writer, and does nothing.
    #[inline(always)]
    pub fn kept(&self)
        ensures few { length (nodes_in self.now.view.client.known)
            ≡ self.now.view.client.plan.nodes }
        ensures tended { AreTended (F.fits self.now.view.client.plan)
            (F.joins self.now.view.client.plan) self.now.view.client.plan.roots
            self.now.view.client.plan.links (nodes_in self.now.view.client.known) }
    {
        self.counted.nodes.kept(&self.graph);
    }

    /// Returns the plan of its graph.
    pub fn plan(&self) -> Plan
        ensures { result ≡ self.now.view.client.plan }
    {
        self.counted.nodes.mirror().plan()
    }

    /// Returns whether a node is free.
    pub fn is_free(&self, node: usize) -> bool
        requires { node < self.now.view.client.plan.nodes }
        ensures { result ≡ is_free (state_at (nodes_in self.now.view.client.known) node) }
    {
        self.counted.nodes.mirror().state(node).is_free()
    }

    /// Returns whether a node is live.
    pub fn is_live(&self, node: usize) -> bool
        requires { node < self.now.view.client.plan.nodes }
        ensures { result ≡ is_live (state_at (nodes_in self.now.view.client.known) node) }
    {
        self.counted.nodes.mirror().state(node).is_live()
    }

    /// Returns the node to which a link of a node leads.
    pub fn link_of(&self, node: usize, link: usize) -> Option<usize>
        requires node { node < self.now.view.client.plan.nodes }
        requires link { link < self.now.view.client.plan.links }
        ensures { word_to result
            ≡ slice_index (node_at (nodes_in self.now.view.client.known) node).links link }
    {
        node_of(self.counted.nodes.mirror().link(node, link))
    }

    /// Returns a word of a node.
    pub fn word(&self, node: usize, word: usize) -> u64
        requires node { node < self.now.view.client.plan.nodes }
        requires word { word < self.now.view.client.plan.words }
        ensures { result ≡ slice_index (node_at (nodes_in self.now.view.client.known) node).words
            word }
    {
        self.counted.nodes.mirror().word(node, word)
    }

    /// Returns a free node, in constant time: the one that was freed last, which may still be in
    /// the cache. It stays free until it is published, so another call may return it again. `Full`
    /// means that none is free.
    pub fn free_node(&self) -> Result<usize, Full>
        ensures inside { IfOk result (λ node. node < self.now.view.client.plan.nodes) }
        ensures free { IfOk result (λ node.
            state_at (nodes_in self.now.view.client.known) node ≡ Free) }
        ensures full { OnErr result (AreAllUsed (nodes_in self.now.view.client.known)) }
    {
        self.counted.nodes.mirror().free_node().ok_or(Full)
    }

    /// Stores all words and all links of a free node. No section sees them: the node is still free.
    pub fn fill(&mut self, node: usize, words: &[u64], links: &[Option<usize>])
        requires node { node < self.old.view.client.plan.nodes }
        requires free { state_at (nodes_in self.old.view.client.known) node ≡ Free }
        requires inside { All (λ to. IfSome to (λ other.
            other < self.old.view.client.plan.nodes)) links.now }
        requires words { length words.now ≡ self.old.view.client.plan.words }
        requires links { length links.now ≡ self.old.view.client.plan.links }
        ensures state { self.new ≡ after_fill self.old node words.now links.now }
    {
        self.counted.nodes.plan(&self.graph);
        self.counted.nodes.fill(&self.graph, node, words, links);
    }

    /// Links a live node to a free one, which is whole and leads to live nodes: this store makes it
    /// live (Linux's `rcu_assign_pointer`). A node to which no live node leads then is unlinked.
    pub fn publish(&mut self, from: usize, link: usize, to: usize)
        requires from { from < self.old.view.client.plan.nodes }
        requires to { to < self.old.view.client.plan.nodes }
        requires link { link < self.old.view.client.plan.links }
        requires live { state_at (nodes_in self.old.view.client.known) from ≡ Live }
        requires ready { IsReady (F.fits self.old.view.client.plan)
            (F.joins self.old.view.client.plan) self.old.view.client.plan.links
            (nodes_in self.old.view.client.known) to }
        requires joined { F.joins self.old.view.client.plan link
            (node_at (nodes_in self.old.view.client.known) from).words
            (node_at (nodes_in self.old.view.client.known) to).words }
        ensures state { self.new ≡ after_store self.old
            (published (nodes_in self.old.view.client.known) from link to)
            (nodes_in self.new.view.client.known) }
        ensures led { AreLed (F.joins self.old.view.client.plan) self.old.view.client.plan.links
            (published (nodes_in self.old.view.client.known) from link to) }
        ensures collected { AreCollected self.old.view.client.plan.roots
            self.old.view.client.plan.links
            (published (nodes_in self.old.view.client.known) from link to)
            (nodes_in self.new.view.client.known) }
    {
        self.counted.publish(&self.graph, from, link, to);
    }

    /// Leads a link of a live node to a live one, or nowhere, by one store. A node to which no live
    /// node leads then is unlinked.
    pub fn link(&mut self, from: usize, link: usize, to: Option<usize>)
        requires from { from < self.old.view.client.plan.nodes }
        requires link { link < self.old.view.client.plan.links }
        requires live { state_at (nodes_in self.old.view.client.known) from ≡ Live }
        requires target { IsTarget (F.joins self.old.view.client.plan link)
            (node_at (nodes_in self.old.view.client.known) from).words
            (nodes_in self.old.view.client.known) (word_to to) }
        ensures state { self.new ≡ after_store self.old
            (relinked (nodes_in self.old.view.client.known) from link to)
            (nodes_in self.new.view.client.known) }
        ensures led { AreLed (F.joins self.old.view.client.plan) self.old.view.client.plan.links
            (relinked (nodes_in self.old.view.client.known) from link to) }
        ensures collected { AreCollected self.old.view.client.plan.roots
            self.old.view.client.plan.links
            (relinked (nodes_in self.old.view.client.known) from link to)
            (nodes_in self.new.view.client.known) }
    {
        self.counted.link(&self.graph, from, link, to);
    }

    /// Leads a link of a live node nowhere, by one store. A node to which no live node leads then
    /// is unlinked.
    pub fn unlink(&mut self, from: usize, link: usize)
        requires from { from < self.old.view.client.plan.nodes }
        requires link { link < self.old.view.client.plan.links }
        requires live { state_at (nodes_in self.old.view.client.known) from ≡ Live }
        ensures state { self.new ≡ after_store self.old
            (relinked (nodes_in self.old.view.client.known) from link None)
            (nodes_in self.new.view.client.known) }
        ensures led { AreLed (F.joins self.old.view.client.plan) self.old.view.client.plan.links
            (relinked (nodes_in self.old.view.client.known) from link None) }
        ensures collected { AreCollected self.old.view.client.plan.roots
            self.old.view.client.plan.links
            (relinked (nodes_in self.old.view.client.known) from link None)
            (nodes_in self.new.view.client.known) }
    {
        self.link(from, link, None);
    }

    /// Reclaims nodes: loads the grace-period number once, retires each unlinked node at it, and
    /// frees each node that was retired a full grace period ago. Returns the number. Costs a step
    /// for each node that it retires or frees.
    pub fn reclaim(&mut self) -> u64
        ensures state { self.new ≡ after_look self.old result }
        ensures later { self.old.view.seen ≤ result }
        ensures bounded { result ≤ 2 ^ 62 }
    {
        self.counted.nodes.look(&self.graph)
    }
}
