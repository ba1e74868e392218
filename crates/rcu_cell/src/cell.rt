//! A cell, and how a section reads it, without a lock, a wait or a store.
ghost use Rattle.std.specs.Prelude.{◌≡◌, ◌<◌, slice_index};
ghost use Rattle.rcu_live.specs.CpuSeat.{after_word_step};
ghost use Rattle.rcu_live.specs.InPart.{seat_part};
ghost use Rattle.rcu_graph.specs.Graph.{IsWalking};
ghost use Rattle.rcu_graph.specs.Opening.{layout_of};
ghost use Rattle.rcu_cell.specs.Cell.{IsLoaded, ReadsSlot, version_in};

use crate::shape::{CellRule, CellSeat, OneLink, Version};
use rcu_graph::{Graph, Layout, Plan};
use rcu_live::{Alone, Within};
use std::marker::Model;

/// A value of `W` words among the shared words of a running engine. Each published version
/// satisfies `F`, and has a node of a graph, its slot. The root's link leads to the current one.
/// The cell is the client of the engine, or one of several, at the place `P`.
#[derive(Drop)]
pub struct Cell<F: Version<W>, const W: usize, P: Within<CellRule<F, W>> = Alone> {
    pub(crate) graph: Graph<OneLink<F, W>, P>,
}

impl<F: Version<W>, const W: usize, P: Within<CellRule<F, W>>> Model for Cell<F, W, P> {
    ghost use Rattle.std.specs.Prelude.{◌≡◌, length};
    ghost use Rattle.rcu_live.specs.Board.{Object};
    ghost use Rattle.rcu_graph.specs.declared.plan.Plan.{Plan};

    ghost Value = { Object Plan };

    ghost view = { λ cell. cell.graph };

    ghost invariant = { λ cell. record {
      root : cell.graph.plan.roots ≡ 1;
      one : cell.graph.plan.links ≡ 1;
      words : cell.graph.plan.words ≡ W;
      sized : length F.first ≡ W;
      whole : F.holds F.first;
    } };
}

impl<F: Version<W>, const W: usize, P: Within<CellRule<F, W>>> Cell<F, W, P> {
    /// Returns a cell over a graph with one root, and one link in each node.
    pub(crate) fn over(graph: Graph<OneLink<F, W>, P>) -> Cell<F, W, P>
        requires root { graph.plan.roots ≡ 1 }
        requires one { graph.plan.links ≡ 1 }
        requires words { graph.plan.words ≡ W }
        ensures { result ≡ graph }
    {
        F::first_word(0);
        Cell { graph }
    }

    /// Returns the layout of the nodes' links and words, by constants: so no multiplication by a
    /// variable waits for a load.
    fn layout(&self) -> Layout
        ensures { result ≡ layout_of self.now }
    {
        // A borrow of a field gives the prover the invariant of the type: a node has one link.
        let graph = &self.graph;
        Layout {
            base: graph.base(),
            plan: Plan {
                links: 1,
                words: W,
                ..graph.plan()
            },
        }
    }

    /// Loads the current slot, and returns it. From now on the open section reads its version, as
    /// it was published, until it closes or loads again (Linux's `rcu_dereference`).
    pub fn load(&self, seat: &mut CellSeat<F, W, P>) -> usize
        requires { IsWalking self.now (seat_part P.lens seat.old) }
        ensures state { seat.new ≡ after_word_step seat.old
            (P.lens.set seat.old.view.client (P.lens.get seat.new.view.client)) }
        ensures loaded { IsLoaded F.holds F.first W (P.lens.get seat.old.view.client).known result
            (P.lens.get seat.new.view.client).known }
        ensures reads { ReadsSlot self.now (seat_part P.lens seat.new) result }
    {
        // A borrow of a field gives the prover the invariant of the type: there is one root.
        let graph = &self.graph;
        graph.kept();
        graph.follow(seat, self.layout(), 0, 0).unwrap_or(0)
    }

    /// Loads a word of the version that the section reads: the word that it had when it was loaded.
    pub fn read(&self, seat: &mut CellSeat<F, W, P>, slot: usize, word: usize) -> u64
        requires slot { ReadsSlot self.now (seat_part P.lens seat.old) slot }
        requires word { word < W }
        ensures unchanged { seat.new ≡ seat.old }
        ensures word { result ≡ slice_index
            (version_in F.first (P.lens.get seat.old.view.client).known) word }
    {
        // A borrow of a field gives the prover the invariant of the type: there is one root.
        let graph = &self.graph;
        graph.kept();
        graph.read(seat, self.layout(), slot, word)
    }
}
