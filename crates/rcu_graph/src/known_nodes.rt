//! The seat of the nodes' writer, and its copy of the nodes at run time.
ghost use Rattle.std.specs.Prelude.{◌≡◌, ◌≤◌, ◌<◌, ◌+◌, ◌-◌, ◌*◌, ◌^◌, All, IfOk, IfSome};
ghost use Rattle.std.specs.Prelude.{length, map};
ghost use Rattle.rcu_live.specs.InPart.{watcher_part};
ghost use Rattle.rcu_graph.specs.Filling.{CanFill, CanStore, after_links, after_words};
ghost use Rattle.rcu_graph.specs.Graph.{IsWatcherOf, word_to};
ghost use Rattle.rcu_graph.specs.Writer.{IsWriterOf, after_link, after_look, after_mark_unlinked};
ghost use Rattle.rcu_graph.specs.Writer.{after_publish, after_write, after_write_link};
ghost use Rattle.rcu_graph.specs.Mirror.{AreSized};
ghost use Rattle.rcu_graph.specs.Nodes.{IsKeeping, IsTarget, IsUnlinked, node_at, nodes_in};
ghost use Rattle.rcu_graph.specs.Nodes.{state_at};
ghost use Rattle.rcu_graph.specs.Opening.{AreWhole};
ghost use Rattle.rcu_graph.specs.Steps.{IsClaimed};
ghost use Rattle.rcu_graph.specs.Tended.{after_fill};
ghost use Rattle.rcu_graph.specs.Updates.{CanPublish};
ghost use Rattle.rcu_graph.specs.declared.node_state.NodeState.TheVariants.{Free, Live};

use crate::graph::Graph;
use crate::mirror::Mirror;
use crate::plan::Plan;
use crate::rule::{GraphRule, GraphWatcher, Shape};
use rcu_live::Within;
use std::alloc::{AllocError, Global};
use std::marker::Model;

/// The seat of the nodes' writer, with their states, links and words.
#[derive(Drop)]
pub(crate) struct KnownNodes<F: Shape, P: Within<GraphRule<F>>> {
    seat: GraphWatcher<F, P>,
    mirror: Mirror,
}

impl<F: Shape, P: Within<GraphRule<F>>> Model for KnownNodes<F, P> {
    ghost use Rattle.std.specs.Prelude.{◌≡◌, ◌≤◌, length};
    ghost use Rattle.rcu_live.specs.InPart.{watcher_part};
    ghost use Rattle.rcu_live.specs.View.{IsOfWatcher};
    ghost use Rattle.rcu_live.specs.Watcher.{Watching};
    ghost use Rattle.rcu_graph.specs.Mirror.{AreBy};
    ghost use Rattle.rcu_graph.specs.Nodes.{IsKeeping, latest_in, nodes_in};
    ghost use Rattle.rcu_graph.specs.declared.known.Planned.{Planned};

    ghost Value = { Watching Planned };

    ghost view = { λ k. watcher_part P.lens k.seat };

    ghost invariant = { λ k. record {
      planned : (P.lens.get k.seat.view.client).plan ≡ k.mirror.plan;
      role : IsOfWatcher k.seat.view;
      keeps : IsKeeping (P.lens.get k.seat.view.client).known;
      few : length (nodes_in (P.lens.get k.seat.view.client).known) ≡ k.mirror.plan.nodes;
      late : latest_in (P.lens.get k.seat.view.client).known ≤ k.seat.view.seen;
      same : nodes_in (P.lens.get k.seat.view.client).known ≡ k.mirror.nodes;
      by : AreBy (latest_in (P.lens.get k.seat.view.client).known) k.mirror.nodes;
    } };
}

impl<F: Shape, P: Within<GraphRule<F>>> KnownNodes<F, P> {
    /// Returns the seat, whose nodes are as at first.
    pub(crate) fn new(
        alloc: Global,
        graph: &Graph<F, P>,
        seat: GraphWatcher<F, P>,
    ) -> Result<Self, AllocError>
        requires writer { IsWriterOf graph.now (watcher_part P.lens seat) }
        requires nodes { IsClaimed (F.first graph.now.plan) graph.now.plan.roots
            graph.now.plan.links graph.now.plan.words graph.now.plan.nodes
            (P.lens.get seat.view.client).known }
        requires first { AreWhole (F.fits graph.now.plan) (F.first graph.now.plan)
            graph.now.plan }
        ensures { IfOk result (λ nodes. nodes ≡ watcher_part P.lens seat) }
    {
        let mirror = Mirror::new::<F>(alloc, graph.plan())?;
        Ok(KnownNodes { seat, mirror })
    }

    /// Gives a proof the invariant of the writer's nodes, and does nothing.
    #[inline(always)]
    pub(crate) fn kept(&self, graph: &Graph<F, P>)
        requires { IsWatcherOf graph.now self.now }
        ensures writer { IsWriterOf graph.now self.now }
        ensures sized { AreSized graph.now.plan.nodes graph.now.plan.links graph.now.plan.words
            (nodes_in self.now.view.client.known) }
        ensures links_fit { graph.now.plan.links * graph.now.plan.nodes + 1 < 2 ^ 64 }
        ensures nodes_fit { graph.now.plan.nodes < 2 ^ 64 - 1 }
    {
        self.mirror.kept();
    }

    /// Returns the plan of the graph.
    pub(crate) fn plan(&self, graph: &Graph<F, P>) -> Plan
        requires { IsWatcherOf graph.now self.now }
        ensures plan { result ≡ graph.now.plan }
        ensures keeps { IsKeeping self.now.view.client.known }
        ensures few { length (nodes_in self.now.view.client.known) ≡ graph.now.plan.nodes }
        ensures sized { AreSized graph.now.plan.nodes graph.now.plan.links graph.now.plan.words
            (nodes_in self.now.view.client.known) }
        ensures links_fit { graph.now.plan.links * graph.now.plan.nodes + 1 < 2 ^ 64 }
        ensures nodes_fit { graph.now.plan.nodes < 2 ^ 64 - 1 }
    {
        self.mirror.plan()
    }

    /// Returns the copy of the nodes at run time.
    pub(crate) fn mirror(&self) -> &Mirror
        ensures plan { result.now.plan ≡ self.now.view.client.plan }
        ensures nodes { result.now.nodes ≡ nodes_in self.now.view.client.known }
    {
        &self.mirror
    }

    /// Stores a word of a free node.
    fn write(&mut self, graph: &Graph<F, P>, node: usize, word: usize, value: u64)
        requires { CanStore graph.now.plan.words graph.now self.old node word }
        ensures { self.new ≡ after_write self.old node word value }
    {
        graph.write(&mut self.seat, node, word, value);
        self.mirror.set_word(node, word, value);
    }

    /// Stores a link of a free node.
    fn write_link(&mut self, graph: &Graph<F, P>, node: usize, link: usize, value: u64)
        requires { CanStore graph.now.plan.links graph.now self.old node link }
        ensures { self.new ≡ after_write_link self.old node link value }
    {
        graph.write_link(&mut self.seat, node, link, value);
        self.mirror.set_link(node, link, value);
    }

    /// Stores a link of a live node, as [`Graph::link`] does.
    pub(crate) fn link(&mut self, graph: &Graph<F, P>, node: usize, link: usize, value: u64)
        requires graph { IsWatcherOf graph.now self.old }
        requires node { node < graph.now.plan.nodes }
        requires link { link < graph.now.plan.links }
        requires live { state_at (nodes_in self.old.view.client.known) node ≡ Live }
        requires target { IsTarget (F.joins graph.now.plan link)
            (node_at (nodes_in self.old.view.client.known) node).words
            (nodes_in self.old.view.client.known) value }
        ensures graph { IsWatcherOf graph.now self.new }
        ensures state { self.new ≡ after_link self.old node link value }
    {
        graph.link(&mut self.seat, node, link, value);
        self.mirror.set_link(node, link, value);
    }

    /// Stores all words and links of a free node.
    pub(crate) fn fill(
        &mut self,
        graph: &Graph<F, P>,
        node: usize,
        words: &[u64],
        links: &[Option<usize>],
    )
        requires graph { IsWatcherOf graph.now self.old }
        requires node { node < graph.now.plan.nodes }
        requires free { state_at (nodes_in self.old.view.client.known) node ≡ Free }
        requires inside { All (λ to. IfSome to (λ other. other < graph.now.plan.nodes)) links.now }
        requires words { length words.now ≡ graph.now.plan.words }
        requires links { length links.now ≡ graph.now.plan.links }
        ensures graph { IsWatcherOf graph.now self.new }
        ensures state { self.new ≡ after_fill self.old node words.now links.now }
    {
        self.kept(graph);
        self.fill_words(graph, node, words);
        self.fill_links(graph, node, links);
    }

    /// Stores all words of a free node.
    fn fill_words(&mut self, graph: &Graph<F, P>, node: usize, words: &[u64])
        requires free { CanFill graph.now self.old node }
        requires words { length words.now ≡ graph.now.plan.words }
        ensures { self.new ≡ after_words self.old node words.now }
    {
        for word in 0..words.len() {
            self.write(graph, node, word, words[word]);
        }
    }

    /// Stores all links of a free node.
    fn fill_links(&mut self, graph: &Graph<F, P>, node: usize, links: &[Option<usize>])
        requires free { CanFill graph.now self.old node }
        requires inside { All (λ to. IfSome to (λ other. other < graph.now.plan.nodes)) links.now }
        requires links { length links.now ≡ graph.now.plan.links }
        ensures { self.new ≡ after_links self.old node (map word_to links.now) }
    {
        self.kept(graph);
        for link in 0..links.len() {
            self.write_link(graph, node, link, word_of(links[link]));
        }
    }

    /// Links a live node to a free one, as [`Graph::publish`] does.
    pub(crate) fn publish(&mut self, graph: &Graph<F, P>, from: usize, link: usize, to: usize)
        requires { CanPublish (F.fits graph.now.plan) (F.joins graph.now.plan) graph.now self.old
            from link to }
        ensures graph { IsWatcherOf graph.now self.new }
        ensures state { self.new ≡ after_publish self.old from link to }
    {
        self.kept(graph);
        graph.publish(&mut self.seat, from, link, to);
        self.mirror.publish(to);
        self.mirror.set_link(from, link, word_of(Some(to)));
    }

    /// Marks a live node as unlinked, if no live one leads to it.
    pub(crate) fn mark_unlinked(&mut self, graph: &Graph<F, P>, node: usize)
        requires graph { IsWatcherOf graph.now self.old }
        requires node { node < graph.now.plan.nodes }
        requires no_root { graph.now.plan.roots ≤ node }
        requires live { state_at (nodes_in self.old.view.client.known) node ≡ Live }
        requires unlinked { IsUnlinked graph.now.plan.links
            (nodes_in self.old.view.client.known) node }
        ensures graph { IsWatcherOf graph.now self.new }
        ensures state { self.new ≡ after_mark_unlinked self.old node }
    {
        graph.mark_unlinked(&mut self.seat, node);
        self.mirror.mark_unlinked(node);
    }

    /// Loads the number, and reclaims nodes by it. Costs a step for each node that becomes free or
    /// retired.
    pub(crate) fn look(&mut self, graph: &Graph<F, P>) -> u64
        requires { IsWatcherOf graph.now self.old }
        ensures graph { IsWatcherOf graph.now self.new }
        ensures state { self.new ≡ after_look self.old result }
        ensures later { self.old.view.seen ≤ result }
        ensures bounded { result ≤ 2 ^ 62 }
    {
        let number = graph.look(&mut self.seat);
        self.mirror.reclaim(number);
        number
    }
}

/// Returns the word of a link that leads to a node, or nowhere.
pub(crate) fn word_of(to: Option<usize>) -> u64
    requires { IfSome to (λ node. node < 2 ^ 64 - 1) }
    ensures { result ≡ word_to to }
{
    match to {
        Some(node) => node as u64 + 1,
        None => 0,
    }
}

/// Returns the node to which a link with this word leads.
pub(crate) fn node_of(word: u64) -> Option<usize>
    ensures { word_to result ≡ word }
{
    if word == 0 {
        return None;
    }
    Some((word - 1) as usize)
}
