//! A graph's steps on its words, wherever it is among the clients of its engine.
ghost use Rattle.std.specs.Prelude.{◌≡◌, ◌<◌, ◌+◌, ◌*◌, None, Some};
ghost use Rattle.rcu_live.specs.Client.{AllowsNumber, AllowsWord};
ghost use Rattle.rcu_live.specs.CpuSeat as cpu_seat;
ghost use Rattle.rcu_live.specs.InPart.{seat_part, watcher_part};
ghost use Rattle.rcu_live.specs.Watcher.{IsWatcherOf, KnowsAt, KnowsBy, after_number_step};
ghost use Rattle.rcu_live.specs.Watcher.{after_word_step};
ghost use Rattle.rcu_graph.specs.Beside.{cell_of};
ghost use Rattle.rcu_graph.specs.Nodes.{first_place};
ghost use Rattle.rcu_graph.specs.Opening.{layout_of};
ghost use Rattle.rcu_graph.specs.Planned.{IsKeptBy};

use crate::graph::Graph;
use crate::known::Planned;
use crate::places::{root_place, row_place};
use crate::plan::Layout;
use crate::rule::{GraphRule, GraphSeat, GraphWatcher, Shape};
use rcu_live::in_part::{self, Spot};
use rcu_live::{NumberStep, Within, WordStep};

impl<F: Shape, P: Within<GraphRule<F>>> Graph<F, P> {
    /// Loads a word by a processor's seat. The caller has the place at which the graph's words
    /// begin.
    pub(crate) fn load<M: WordStep<Planned>>(
        &self,
        seat: &mut GraphSeat<F, P>,
        base: usize,
        place: usize,
    ) -> u64
        requires base { base ≡ self.now.base }
        requires seat { cpu_seat.IsSeatOf self.now (seat_part P.lens seat.old) }
        requires inside { place < first_place + (self.now.plan.links + self.now.plan.words)
            * self.now.plan.nodes }
        requires allowed { AllowsWord (IsKeptBy F.fits F.joins F.first self.now.plan)
            (Some seat.old.cpu) seat.old.view.section (P.lens.get seat.old.view.client) place
            (λ n. n) (M.then place (P.lens.get seat.old.view.client)) }
        ensures part { cpu_seat.KnowsBy (λ was now. M.then place was result now)
            (seat_part P.lens seat.old) (seat_part P.lens seat.new) }
        ensures others { seat.new ≡ cpu_seat.after_word_step seat.old
            (P.lens.set seat.old.view.client (P.lens.get seat.new.view.client)) }
    {
        let spot = Spot { base, word: place };
        in_part::load_word::<GraphRule<F>, P, M>(seat, &*self.board, spot)
    }

    /// Loads the cell `k` of a node by a processor's seat. A walk first comes to a root, and then
    /// to other nodes: with two separate loads its hops do not wait for a place that depends on the
    /// kind of node.
    pub(crate) fn load_cell<M: WordStep<Planned>>(
        &self,
        seat: &mut GraphSeat<F, P>,
        layout: Layout,
        node: usize,
        k: usize,
    ) -> u64
        requires seat { cpu_seat.IsSeatOf self.now (seat_part P.lens seat.old) }
        requires layout { layout ≡ layout_of self.now }
        requires node { node < self.now.plan.nodes }
        requires inside { k < self.now.plan.links + self.now.plan.words }
        requires allowed { AllowsWord (IsKeptBy F.fits F.joins F.first self.now.plan)
            (Some seat.old.cpu) seat.old.view.section (P.lens.get seat.old.view.client)
            (cell_of self.now.plan node k) (λ n. n)
            (M.then (cell_of self.now.plan node k) (P.lens.get seat.old.view.client)) }
        ensures part { cpu_seat.KnowsBy
            (λ was now. M.then (cell_of self.now.plan node k) was result now)
            (seat_part P.lens seat.old) (seat_part P.lens seat.new) }
        ensures others { seat.new ≡ cpu_seat.after_word_step seat.old
            (P.lens.set seat.old.view.client (P.lens.get seat.new.view.client)) }
    {
        self.kept();
        if node < layout.plan.roots {
            let place = root_place(layout.plan, node, k);
            return self.load::<M>(seat, layout.base, place);
        }
        let place = row_place(layout.plan, node, k);
        self.load::<M>(seat, layout.base, place)
    }

    /// Loads a word by a watcher.
    pub(crate) fn watch<M: WordStep<Planned>>(
        &self,
        seat: &mut GraphWatcher<F, P>,
        place: usize,
    ) -> u64
        requires seat { IsWatcherOf self.now (watcher_part P.lens seat.old) }
        requires inside { place < first_place + (self.now.plan.links + self.now.plan.words)
            * self.now.plan.nodes }
        requires allowed { AllowsWord (IsKeptBy F.fits F.joins F.first self.now.plan) None None
            (P.lens.get seat.old.view.client) place (λ n. n)
            (M.then place (P.lens.get seat.old.view.client)) }
        ensures part { KnowsBy (λ was now. M.then place was result now)
            (watcher_part P.lens seat.old) (watcher_part P.lens seat.new) }
        ensures others { seat.new ≡ after_word_step seat.old
            (P.lens.set seat.old.view.client (P.lens.get seat.new.view.client)) }
    {
        let spot = Spot {
            base: self.base,
            word: place,
        };
        in_part::watch_word::<GraphRule<F>, P, M>(seat, &*self.board, spot)
    }

    /// Stores a word by a watcher.
    pub(crate) fn store<M: WordStep<Planned>>(
        &self,
        seat: &mut GraphWatcher<F, P>,
        place: usize,
        value: u64,
    )
        requires seat { IsWatcherOf self.now (watcher_part P.lens seat.old) }
        requires inside { place < first_place + (self.now.plan.links + self.now.plan.words)
            * self.now.plan.nodes }
        requires allowed { AllowsWord (IsKeptBy F.fits F.joins F.first self.now.plan) None None
            (P.lens.get seat.old.view.client) place (λ _. value)
            (λ _. M.then place (P.lens.get seat.old.view.client) value) }
        ensures part { KnowsBy (λ was now. M.then place was value now)
            (watcher_part P.lens seat.old) (watcher_part P.lens seat.new) }
        ensures others { seat.new ≡ after_word_step seat.old
            (P.lens.set seat.old.view.client (P.lens.get seat.new.view.client)) }
    {
        let spot = Spot {
            base: self.base,
            word: place,
        };
        in_part::store_word::<GraphRule<F>, P, M>(seat, &*self.board, spot, value);
    }

    /// Loads the number by a watcher, as a step of the graph.
    pub(crate) fn look_at_number<M: NumberStep<Planned>>(
        &self,
        seat: &mut GraphWatcher<F, P>,
    ) -> u64
        requires table { seat.old.table ≡ self.now.table }
        requires allowed { AllowsNumber (IsKeptBy F.fits F.joins F.first self.now.plan) None None
            (P.lens.get seat.old.view.client) (M.then (P.lens.get seat.old.view.client)) }
        ensures part { KnowsAt M.then (watcher_part P.lens seat.old) result
            (watcher_part P.lens seat.new) }
        ensures others { seat.new ≡ after_number_step seat.old result
            (P.lens.set seat.old.view.client (P.lens.get seat.new.view.client)) }
    {
        in_part::load_number::<GraphRule<F>, P, M>(seat, &*self.board)
    }
}
