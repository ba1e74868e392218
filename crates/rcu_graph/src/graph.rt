//! A graph of nodes, and how a section reads it, without a lock, a wait or a store.
ghost use Rattle.std.specs.Prelude.{◌≡◌, ◌≤◌, ◌+◌, ◌*◌, ◌^◌, ◌<◌, ℕ, IfOk, IfSome, List};
ghost use Rattle.std.specs.Prelude.{slice_index, suc};
ghost use Rattle.std.specs.Arc.{arc_value};
ghost use Rattle.rcu_live.specs.CpuSeat.{after_word_step};
ghost use Rattle.rcu_live.specs.InPart.{engine_part, seat_part};
ghost use Rattle.rcu_graph.specs.Graph.{IsAt, IsWalking, word_to};
ghost use Rattle.rcu_graph.specs.Nodes.{IsOn, first_place, place_of};
ghost use Rattle.rcu_graph.specs.Opening.{layout_of};
ghost use Rattle.rcu_graph.specs.Steps.{Followed};

use crate::places::place_of;
use crate::plan::{Layout, Plan};
use crate::rule::{Follow, GraphRule, GraphSeat, Read, Shape};
use rcu_live::{Alone, Board, Within};
use std::alloc::{AllocError, Global};
use std::marker::Model;
use std::sync::Arc;

/// Nodes among the shared words of a running engine, as many as its plan says. Those in use satisfy
/// `F`. The graph is the client of the engine, or one of several, at the place `P`.
#[derive(Drop)]
pub struct Graph<F: Shape, P: Within<GraphRule<F>> = Alone> {
    pub(crate) board: Arc<Board<P::Whole>, Global>,
    pub(crate) plan: Plan,
    /// The place in the engine's table at which its words begin.
    pub(crate) base: usize,
}

impl<F: Shape, P: Within<GraphRule<F>>> Model for Graph<F, P> {
    ghost use Rattle.std.specs.Prelude.{◌≡◌, ◌≤◌, ◌+◌, ◌*◌, ◌^◌, ◌<◌};
    ghost use Rattle.std.specs.Arc.{arc_value};
    ghost use Rattle.rcu_live.specs.Board.{Object};
    ghost use Rattle.rcu_live.specs.InPart.{engine_part};
    ghost use Rattle.rcu_graph.specs.Nodes.{first_place};
    ghost use Rattle.rcu_graph.specs.declared.plan.Plan.{Plan};

    ghost Value = { Object Plan };

    ghost view = { λ graph. engine_part P.own_plan P.begins (arc_value graph.board) };

    ghost invariant = { λ graph. record {
      planned : P.own_plan (arc_value graph.board).plan ≡ graph.plan;
      base : graph.base ≡ P.begins (arc_value graph.board).base (arc_value graph.board).plan;
      room : P.begins (arc_value graph.board).base (arc_value graph.board).plan
          + (first_place + (graph.plan.links + graph.plan.words) * graph.plan.nodes)
          ≤ (arc_value graph.board).table.words;
      small : first_place + (graph.plan.links + graph.plan.words) * graph.plan.nodes < 2 ^ 64;
      row : graph.plan.links + graph.plan.words < 2 ^ 64;
      words : 0 < graph.plan.words;
      roots : graph.plan.roots ≤ graph.plan.nodes;
    } };
}

impl<F: Shape, P: Within<GraphRule<F>>> Graph<F, P> {
    /// Returns a second handle to the same nodes.
    pub fn try_clone(&self) -> Result<Graph<F, P>, AllocError>
        ensures { IfOk result (λ graph. graph ≡ self.now) }
    {
        Ok(Graph {
            board: Arc::try_clone(&self.board)?,
            plan: self.plan,
            base: self.base,
        })
    }

    /// Returns the words of its engine, which all seats read.
    pub fn board(&self) -> &Arc<Board<P::Whole>, Global>
        ensures { engine_part P.own_plan P.begins (arc_value result.now) ≡ self.now }
    {
        &self.board
    }

    /// Returns its plan.
    pub fn plan(&self) -> Plan
        ensures plan { result ≡ self.now.plan }
        ensures roots { self.now.plan.roots ≤ self.now.plan.nodes }
        ensures words { 0 < self.now.plan.words }
        ensures row { self.now.plan.links + self.now.plan.words < 2 ^ 64 }
        ensures cells { first_place + (self.now.plan.links + self.now.plan.words)
            * self.now.plan.nodes < 2 ^ 64 }
    {
        let _ = &self.board;
        self.plan
    }

    /// Gives a proof the invariant of a graph, and does nothing.
    #[inline(always)]
    pub fn kept(&self)
        ensures roots { self.now.plan.roots ≤ self.now.plan.nodes }
        ensures words { 0 < self.now.plan.words }
        ensures row { self.now.plan.links + self.now.plan.words < 2 ^ 64 }
        ensures cells { first_place + (self.now.plan.links + self.now.plan.words)
            * self.now.plan.nodes < 2 ^ 64 }
    {
        let _ = &self.board;
    }

    /// Returns the place in the engine's table at which its words begin.
    pub fn base(&self) -> usize
        ensures { result ≡ self.now.base }
    {
        self.base
    }

    /// Returns the layout of its nodes' links and words.
    pub fn layout(&self) -> Layout
        ensures { result ≡ layout_of self.now }
    {
        Layout {
            base: self.base(),
            plan: self.plan(),
        }
    }

    /// Returns the place of the cell `k` of a node: its links are the first ones, and its words are
    /// behind them.
    pub(crate) fn place(&self, layout: Layout, node: usize, k: usize) -> usize
        requires layout { layout ≡ layout_of self.now }
        requires node { node < self.now.plan.nodes }
        requires inside { k < self.now.plan.links + self.now.plan.words }
        ensures place { result
            ≡ place_of self.now.plan.roots self.now.plan.links self.now.plan.words node k }
        ensures inside { result < first_place + (self.now.plan.links + self.now.plan.words)
            * self.now.plan.nodes }
    {
        self.kept();
        place_of(layout.plan, node, k)
    }

    /// Does as [`follow`](Self::follow), but returns the link's word: 0 leads nowhere, any other is
    /// one more than the node.
    pub(crate) fn follow_word(
        &self,
        seat: &mut GraphSeat<F, P>,
        layout: Layout,
        from: usize,
        link: usize,
    ) -> u64
        requires layout { layout ≡ layout_of self.now }
        requires at { IsAt (F.first self.now.plan) self.now (seat_part P.lens seat.old) from }
        requires link { link < self.now.plan.links }
        ensures same { seat.new ≡ after_word_step seat.old
            (P.lens.set seat.old.view.client (P.lens.get seat.new.view.client)) }
        ensures walking { IsWalking self.now (seat_part P.lens seat.new) }
        ensures came { (words : List ℕ) → IsOn (F.first self.now.plan) self.now.plan.roots
            (P.lens.get seat.old.view.client).known from words →
            Followed (F.fits self.now.plan) (F.joins self.now.plan link words) self.now.plan.words
            self.now.plan.nodes (P.lens.get seat.old.view.client).known from link result
            (P.lens.get seat.new.view.client).known }
        ensures on { (node : ℕ) → result ≡ suc node →
            IsAt (F.first self.now.plan) self.now (seat_part P.lens seat.new) node }
    {
        self.load_cell::<Follow<F>>(seat, layout, from, link)
    }

    /// Loads a link of the node that the section is on, and returns the node that it led to at that
    /// load. The section also holds that node until it closes, complete and with its words
    /// unchanged (Linux's `rcu_dereference` of a `next`). The seat's view has the load as one more
    /// hop.
    ///
    /// The layout is that of [`layout`](Self::layout). A loop over many nodes should keep it, with
    /// the numbers of links and words as constants: that saves loads and a multiplication.
    pub fn follow(
        &self,
        seat: &mut GraphSeat<F, P>,
        layout: Layout,
        from: usize,
        link: usize,
    ) -> Option<usize>
        requires layout { layout ≡ layout_of self.now }
        requires at { IsAt (F.first self.now.plan) self.now (seat_part P.lens seat.old) from }
        requires link { link < self.now.plan.links }
        ensures same { seat.new ≡ after_word_step seat.old
            (P.lens.set seat.old.view.client (P.lens.get seat.new.view.client)) }
        ensures walking { IsWalking self.now (seat_part P.lens seat.new) }
        ensures came { (words : List ℕ) → IsOn (F.first self.now.plan) self.now.plan.roots
            (P.lens.get seat.old.view.client).known from words →
            Followed (F.fits self.now.plan) (F.joins self.now.plan link words) self.now.plan.words
            self.now.plan.nodes (P.lens.get seat.old.view.client).known from link (word_to result)
            (P.lens.get seat.new.view.client).known }
        ensures on { IfSome result (λ node.
            IsAt (F.first self.now.plan) self.now (seat_part P.lens seat.new) node) }
    {
        let word = self.follow_word(seat, layout, from, link);
        if word == 0 {
            return None;
        }
        Some((word - 1) as usize)
    }

    /// Loads a word of the node that the section is on: the word that it had when the section came
    /// to it. The layout is as for [`follow`](Self::follow).
    pub fn read(&self, seat: &mut GraphSeat<F, P>, layout: Layout, node: usize, word: usize) -> u64
        requires layout { layout ≡ layout_of self.now }
        requires at { IsAt (F.first self.now.plan) self.now (seat_part P.lens seat.old) node }
        requires word { word < self.now.plan.words }
        ensures same { seat.new ≡ seat.old }
        ensures told { (words : List ℕ) → IsOn (F.first self.now.plan) self.now.plan.roots
            (P.lens.get seat.old.view.client).known node words → result ≡ slice_index words word }
    {
        self.kept();
        self.load_cell::<Read<F>>(seat, layout, node, layout.plan.links + word)
    }
}
