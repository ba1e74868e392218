//! The nodes that a writer knows, each with a count of the links that lead to it. So a change can
//! unlink nodes without a walk of the graph.
ghost use Rattle.std.specs.Prelude.{◌≡◌, ◌≤◌, ◌<◌, ◌+◌, ◌∷◌, ◌^◌, ℕ, [], All, List, length};
ghost use Rattle.std.specs.Prelude.{slice_index, suc};
ghost use Rattle.rcu_graph.specs.Counts.{counted_up, times_in};
ghost use Rattle.rcu_graph.specs.Graph.{IsWatcherOf, word_to};
ghost use Rattle.rcu_graph.specs.Writer.{after_step};
ghost use Rattle.rcu_graph.specs.Nodes.{node_at, nodes_in};
ghost use Rattle.rcu_graph.specs.Tended.{published, relinked};
ghost use Rattle.rcu_graph.specs.Collecting.{IsCollecting, IsInside};
ghost use Rattle.rcu_graph.specs.Updates.{HasCollected, MayPublish, MayRelink};
ghost use Rattle.rcu_graph.specs.declared.known.Node.{Node};

use crate::graph::Graph;
use crate::known_nodes::{KnownNodes, node_of, word_of};
use crate::rule::{GraphRule, Shape};
use rcu_live::Within;

/// Nodes, and how many links of live nodes lead to each.
#[derive(Drop)]
pub(crate) struct CountedNodes<F: Shape, P: Within<GraphRule<F>>> {
    pub(crate) nodes: KnownNodes<F, P>,
    pub(crate) counts: Vec<usize>,
    /// The nodes that a change unlinks, in order, with room for all.
    pub(crate) unlinking: Vec<usize>,
}

impl<F: Shape, P: Within<GraphRule<F>>> CountedNodes<F, P> {
    /// Counts a link that leads there.
    fn count(&mut self, word: u64)
        requires inside { (i : ℕ) → word ≡ suc i → i < length self.old.counts.items }
        requires few { (i : ℕ) → word ≡ suc i →
            slice_index self.old.counts.items i + 1 < 2 ^ 64 }
        ensures nodes { self.new.nodes ≡ self.old.nodes }
        ensures unlinking { self.new.unlinking ≡ self.old.unlinking }
        ensures counts { self.new.counts.items ≡ counted_up self.old.counts.items word }
    {
        if let Some(node) = node_of(word) {
            self.counts[node] += 1;
        }
    }

    /// Releases a link that led there: if no live node leads to a node then, it is unlinked.
    /// Returns how many are unlinked.
    fn release_link(&mut self, graph: &Graph<F, P>, word: u64, unlinked: usize) -> usize
        requires graph { IsWatcherOf graph.now self.old.nodes }
        requires collecting { (stored : List Node) × (from : ℕ) × (words : List ℕ)
            × IsCollecting graph.now.plan.nodes graph.now.plan.roots graph.now.plan.links stored
            (nodes_in self.old.nodes.view.client.known)
            self.old.counts.items self.old.unlinking.items from unlinked (word ∷ words) }
        ensures graph { IsWatcherOf graph.now self.new.nodes }
        ensures state { self.new.nodes
            ≡ after_step self.old.nodes (nodes_in self.new.nodes.view.client.known) }
        ensures collecting { (stored : List Node) (from : ℕ) (words : List ℕ) →
            IsCollecting graph.now.plan.nodes graph.now.plan.roots graph.now.plan.links stored
            (nodes_in self.old.nodes.view.client.known)
            self.old.counts.items self.old.unlinking.items from unlinked (word ∷ words) →
            IsCollecting graph.now.plan.nodes graph.now.plan.roots graph.now.plan.links stored
            (nodes_in self.new.nodes.view.client.known)
            self.new.counts.items self.new.unlinking.items from result words }
    {
        let plan = self.nodes.plan(graph);
        let Some(node) = node_of(word) else {
            return unlinked;
        };
        let count = self.counts[node] - 1;
        self.counts[node] = count;
        if count > 0 {
            return unlinked;
        }
        if node < plan.roots {
            return unlinked;
        }
        if !self.nodes.mirror().state(node).is_live() {
            return unlinked;
        }
        self.nodes.mark_unlinked(graph, node);
        self.unlinking[unlinked] = node;
        unlinked + 1
    }

    /// Releases the links of a node that was unlinked.
    fn release_links_of(&mut self, graph: &Graph<F, P>, node: usize, unlinked: usize) -> usize
        requires graph { IsWatcherOf graph.now self.old.nodes }
        requires node { node < graph.now.plan.nodes }
        requires collecting { (stored : List Node) × (from : ℕ)
            × IsCollecting graph.now.plan.nodes graph.now.plan.roots graph.now.plan.links stored
            (nodes_in self.old.nodes.view.client.known)
            self.old.counts.items self.old.unlinking.items from unlinked
            (node_at stored node).links }
        ensures graph { IsWatcherOf graph.now self.new.nodes }
        ensures state { self.new.nodes
            ≡ after_step self.old.nodes (nodes_in self.new.nodes.view.client.known) }
        ensures collecting { (stored : List Node) (from : ℕ) →
            IsCollecting graph.now.plan.nodes graph.now.plan.roots graph.now.plan.links stored
            (nodes_in self.old.nodes.view.client.known)
            self.old.counts.items self.old.unlinking.items from unlinked
            (node_at stored node).links →
            IsCollecting graph.now.plan.nodes graph.now.plan.roots graph.now.plan.links stored
            (nodes_in self.new.nodes.view.client.known)
            self.new.counts.items self.new.unlinking.items from result [] }
    {
        let plan = self.nodes.plan(graph);
        let mut gone = unlinked;
        for link in 0..plan.links {
            let word = self.nodes.mirror().link(node, link);
            gone = self.release_link(graph, word, gone);
        }
        gone
    }

    /// Releases a link that led there, and marks as unlinked every node to which no live node leads
    /// then.
    fn collect_unreachable(&mut self, graph: &Graph<F, P>, word: u64)
        requires graph { IsWatcherOf graph.now self.old.nodes }
        requires collecting { IsCollecting graph.now.plan.nodes graph.now.plan.roots
            graph.now.plan.links (nodes_in self.old.nodes.view.client.known)
            (nodes_in self.old.nodes.view.client.known) self.old.counts.items
            self.old.unlinking.items
            0 0 (word ∷ []) }
        ensures graph { IsWatcherOf graph.now self.new.nodes }
        ensures state { self.new.nodes
            ≡ after_step self.old.nodes (nodes_in self.new.nodes.view.client.known) }
        ensures collecting { (to : ℕ) × IsCollecting graph.now.plan.nodes graph.now.plan.roots
            graph.now.plan.links (nodes_in self.old.nodes.view.client.known)
            (nodes_in self.new.nodes.view.client.known) self.new.counts.items
            self.new.unlinking.items
            to to [] }
    {
        let mut unlinked = self.release_link(graph, word, 0);
        let mut done = 0;
        'unlinking: while done < unlinked {
            let node = self.unlinking[done];
            unlinked = self.release_links_of(graph, node, unlinked);
            done += 1;
        }
    }

    /// Leads a link of a live node elsewhere.
    pub(crate) fn link(&mut self, graph: &Graph<F, P>, from: usize, link: usize, to: Option<usize>)
        requires { MayRelink (F.fits graph.now.plan) (F.joins graph.now.plan) graph.now
            self.old.nodes
            self.old.counts.items self.old.unlinking.items from link (word_to to) }
        ensures { HasCollected (F.fits graph.now.plan) (F.joins graph.now.plan) graph.now
            self.old.nodes self.new.nodes
            self.new.counts.items self.new.unlinking.items
            (relinked (nodes_in self.old.nodes.view.client.known) from link to) }
    {
        self.nodes.kept(graph);
        let word = word_of(to);
        let before = self.nodes.mirror().link(from, link);
        self.nodes.link(graph, from, link, word);
        self.count(word);
        self.collect_unreachable(graph, before);
    }

    /// Counts the links of a node that becomes live.
    fn count_links_of(&mut self, graph: &Graph<F, P>, node: usize)
        requires graph { IsWatcherOf graph.now self.old.nodes }
        requires node { node < graph.now.plan.nodes }
        requires many { length self.old.counts.items ≡ graph.now.plan.nodes }
        requires inside { All (IsInside graph.now.plan.nodes)
            (node_at (nodes_in self.old.nodes.view.client.known) node).links }
        requires few { (k : ℕ) → k < graph.now.plan.nodes → slice_index self.old.counts.items k
            + times_in (node_at (nodes_in self.old.nodes.view.client.known) node).links (suc k)
            < 2 ^ 64 }
        ensures nodes { self.new.nodes ≡ self.old.nodes }
        ensures unlinking { self.new.unlinking ≡ self.old.unlinking }
        ensures many { length self.new.counts.items ≡ graph.now.plan.nodes }
        ensures counts { (k : ℕ) → k < graph.now.plan.nodes → slice_index self.new.counts.items k
            ≡ slice_index self.old.counts.items k
            + times_in (node_at (nodes_in self.old.nodes.view.client.known) node).links (suc k) }
    {
        let plan = self.nodes.plan(graph);
        for link in 0..plan.links {
            let word = self.nodes.mirror().link(node, link);
            self.count(word);
        }
    }

    /// Links a live node to a free one.
    pub(crate) fn publish(&mut self, graph: &Graph<F, P>, from: usize, link: usize, to: usize)
        requires { MayPublish (F.fits graph.now.plan) (F.joins graph.now.plan) graph.now
            self.old.nodes
            self.old.counts.items self.old.unlinking.items from link to }
        ensures { HasCollected (F.fits graph.now.plan) (F.joins graph.now.plan) graph.now
            self.old.nodes self.new.nodes
            self.new.counts.items self.new.unlinking.items
            (published (nodes_in self.old.nodes.view.client.known) from link to) }
    {
        self.nodes.kept(graph);
        let before = self.nodes.mirror().link(from, link);
        self.count_links_of(graph, to);
        self.nodes.publish(graph, from, link, to);
        self.count(word_of(Some(to)));
        self.collect_unreachable(graph, before);
    }
}
