//! The steps of the writer of a graph, by a watcher's seat.
ghost use Rattle.std.specs.Prelude.{◌≡◌, ◌≤◌, ◌<◌, ◌+◌, [], true};
ghost use Rattle.rcu_live.specs.Numbers.{is_number_word};
ghost use Rattle.rcu_live.specs.InPart.{watcher_part};
ghost use Rattle.rcu_live.specs.Watcher.{after_number_step, after_word_step};
ghost use Rattle.rcu_graph.specs.Graph.{IsWatcherOf};
ghost use Rattle.rcu_graph.specs.Writer.{IsWriterOf, after_link, after_look};
ghost use Rattle.rcu_graph.specs.Writer.{after_mark_unlinked, after_publish, after_write};
ghost use Rattle.rcu_graph.specs.Writer.{after_write_link};
ghost use Rattle.rcu_graph.specs.Nodes.{IsTarget, IsUnlinked, first_nodes, node_at, nodes_in};
ghost use Rattle.rcu_graph.specs.Nodes.{state_at};
ghost use Rattle.rcu_graph.specs.Planned.{knowing};
ghost use Rattle.rcu_graph.specs.Updates.{CanPublish};
ghost use Rattle.rcu_graph.specs.declared.known.Known.TheVariants.{Owner, Writer};
ghost use Rattle.rcu_graph.specs.declared.node_state.NodeState.TheVariants.{Free, Live};

use crate::graph::Graph;
use crate::rule::{
    Claim, GraphRule, GraphWatcher, Link, MarkUnlinked, Publish, Reclaim, Shape, Write, WriteLink,
};
use rcu_live::Within;

impl<F: Shape, P: Within<GraphRule<F>>> Graph<F, P> {
    /// Loads a word, and makes the seat the writer of the nodes.
    pub(crate) fn claim(&self, seat: &mut GraphWatcher<F, P>)
        requires seat { IsWatcherOf self.now (watcher_part P.lens seat.old) }
        requires owner { (P.lens.get seat.old.view.client).known ≡ Owner }
        ensures { seat.new ≡ after_word_step seat.old (P.lens.set seat.old.view.client
            (knowing (P.lens.get seat.old.view.client) (Writer 0 (first_nodes self.now.plan.links
            self.now.plan.words
            (F.first self.now.plan) self.now.plan.roots self.now.plan.nodes) []))) }
    {
        self.kept();
        self.watch::<Claim<F>>(seat, 0);
    }

    /// Stores a word of a free node.
    pub fn write(&self, seat: &mut GraphWatcher<F, P>, node: usize, word: usize, value: u64)
        requires writer { IsWriterOf self.now (watcher_part P.lens seat.old) }
        requires node { node < self.now.plan.nodes }
        requires free { state_at (nodes_in (P.lens.get seat.old.view.client).known) node ≡ Free }
        requires word { word < self.now.plan.words }
        ensures writer { IsWriterOf self.now (watcher_part P.lens seat.new) }
        ensures state { watcher_part P.lens seat.new
            ≡ after_write (watcher_part P.lens seat.old) node word value }
        ensures others { seat.new ≡ after_word_step seat.old
            (P.lens.set seat.old.view.client (P.lens.get seat.new.view.client)) }
    {
        let _ = &self.board;
        let place = self.place(self.layout(), node, self.plan.links + word);
        self.store::<Write>(seat, place, value);
    }

    /// Stores a link of a free node.
    pub fn write_link(&self, seat: &mut GraphWatcher<F, P>, node: usize, link: usize, value: u64)
        requires writer { IsWriterOf self.now (watcher_part P.lens seat.old) }
        requires node { node < self.now.plan.nodes }
        requires free { state_at (nodes_in (P.lens.get seat.old.view.client).known) node ≡ Free }
        requires link { link < self.now.plan.links }
        ensures writer { IsWriterOf self.now (watcher_part P.lens seat.new) }
        ensures state { watcher_part P.lens seat.new
            ≡ after_write_link (watcher_part P.lens seat.old) node link value }
        ensures others { seat.new ≡ after_word_step seat.old
            (P.lens.set seat.old.view.client (P.lens.get seat.new.view.client)) }
    {
        self.kept();
        let place = self.place(self.layout(), node, link);
        self.store::<WriteLink>(seat, place, value);
    }

    /// Stores a link of a live node: 0, which leads nowhere, or one more than a live node to which
    /// it may lead.
    pub fn link(&self, seat: &mut GraphWatcher<F, P>, node: usize, link: usize, value: u64)
        requires writer { IsWriterOf self.now (watcher_part P.lens seat.old) }
        requires node { node < self.now.plan.nodes }
        requires link { link < self.now.plan.links }
        requires live { state_at (nodes_in (P.lens.get seat.old.view.client).known) node ≡ Live }
        requires target { IsTarget (F.joins self.now.plan link)
            (node_at (nodes_in (P.lens.get seat.old.view.client).known) node).words
            (nodes_in (P.lens.get seat.old.view.client).known) value }
        ensures writer { IsWriterOf self.now (watcher_part P.lens seat.new) }
        ensures state { watcher_part P.lens seat.new
            ≡ after_link (watcher_part P.lens seat.old) node link value }
        ensures others { seat.new ≡ after_word_step seat.old
            (P.lens.set seat.old.view.client (P.lens.get seat.new.view.client)) }
    {
        self.kept();
        let place = self.place(self.layout(), node, link);
        self.store::<Link>(seat, place, value);
    }

    /// Links a live node to a free one, which is complete and leads to live nodes: it is then live
    /// (Linux's `rcu_assign_pointer`).
    pub fn publish(&self, seat: &mut GraphWatcher<F, P>, from: usize, link: usize, to: usize)
        requires writer { IsWriterOf self.now (watcher_part P.lens seat.old) }
        requires can { CanPublish (F.fits self.now.plan) (F.joins self.now.plan) self.now
            (watcher_part P.lens seat.old) from link to }
        ensures writer { IsWriterOf self.now (watcher_part P.lens seat.new) }
        ensures state { watcher_part P.lens seat.new
            ≡ after_publish (watcher_part P.lens seat.old) from link to }
        ensures others { seat.new ≡ after_word_step seat.old
            (P.lens.set seat.old.view.client (P.lens.get seat.new.view.client)) }
    {
        self.kept();
        let place = self.place(self.layout(), from, link);
        let value = to as u64 + 1;
        self.store::<Publish>(seat, place, value);
    }

    /// Unlinks a live node to which no live one leads: sections that are on it may stay, and no new
    /// one comes to it (which crossbeam-epoch's `defer_destroy` leaves to its caller).
    pub fn mark_unlinked(&self, seat: &mut GraphWatcher<F, P>, node: usize)
        requires writer { IsWriterOf self.now (watcher_part P.lens seat.old) }
        requires node { node < self.now.plan.nodes }
        requires no_root { self.now.plan.roots ≤ node }
        requires live { state_at (nodes_in (P.lens.get seat.old.view.client).known) node ≡ Live }
        requires unlinked { IsUnlinked self.now.plan.links
            (nodes_in (P.lens.get seat.old.view.client).known) node }
        ensures writer { IsWriterOf self.now (watcher_part P.lens seat.new) }
        ensures state { watcher_part P.lens seat.new
            ≡ after_mark_unlinked (watcher_part P.lens seat.old) node }
        ensures others { seat.new ≡ after_word_step seat.old
            (P.lens.set seat.old.view.client (P.lens.get seat.new.view.client)) }
    {
        let _ = &self.board;
        let place = self.place(self.layout(), node, 0);
        self.watch::<MarkUnlinked>(seat, place);
    }

    /// Loads the number: each unlinked node was unlinked no later than now, and is free if that was
    /// a full grace period ago.
    pub fn look(&self, seat: &mut GraphWatcher<F, P>) -> u64
        requires { IsWriterOf self.now (watcher_part P.lens seat.old) }
        ensures writer { IsWriterOf self.now (watcher_part P.lens seat.new) }
        ensures state { watcher_part P.lens seat.new
            ≡ after_look (watcher_part P.lens seat.old) result }
        ensures others { seat.new ≡ after_number_step seat.old result
            (P.lens.set seat.old.view.client (P.lens.get seat.new.view.client)) }
        ensures later { seat.old.view.seen ≤ result }
        ensures number { is_number_word result ≡ true }
    {
        self.kept();
        self.look_at_number::<Reclaim>(seat)
    }
}
