//! The writer of a cell: it publishes versions, and finds which slots are free.
ghost use Rattle.std.specs.Prelude.{◌≡◌, ◌<◌, ◌≤◌, ◌^◌, IfOk, OnErr};
ghost use Rattle.rcu_live.specs.InPart.{watcher_part};
ghost use Rattle.rcu_graph.specs.Graph.{IsOfSameGraph};
ghost use Rattle.rcu_graph.specs.Writer.{IsWriterOf, after_look};
ghost use Rattle.rcu_graph.specs.Nodes.{nodes_in};
ghost use Rattle.rcu_graph.specs.Steps.{IsClaimed};
ghost use Rattle.rcu_graph.specs.Tended.{AreAllUsed};
ghost use Rattle.rcu_cell.specs.Writer.{Updated};
ghost use Rattle.rcu_cell.specs.Versions.{AreVersions, shown_in};

use crate::cell::Cell;
use crate::shape::{CellRule, CellWatcher, OneLink, Version};
use rcu_graph::{Full, Value};
use rcu_live::{Alone, Within};
use std::alloc::{AllocError, Global};
use std::marker::Model;

/// The result of an update, which replaced a version.
#[derive(Clone, Copy, Debug, PartialEq, Eq)]
pub struct Retired {
    /// The slot of the replaced version.
    pub slot: usize,
    /// The slot of the new version.
    pub by: usize,
}

/// The writer of a cell, for one thread. A cell has one.
#[derive(Drop)]
pub struct Writer<F: Version<W>, const W: usize, P: Within<CellRule<F, W>> = Alone> {
    pub(crate) nodes: rcu_graph::Writer<OneLink<F, W>, P>,
}

impl<F: Version<W>, const W: usize, P: Within<CellRule<F, W>>> Model for Writer<F, W, P> {
    ghost use Rattle.rcu_live.specs.Watcher.{Watching};
    ghost use Rattle.rcu_graph.specs.Nodes.{nodes_in};
    ghost use Rattle.rcu_graph.specs.declared.known.Planned.{Planned};
    ghost use Rattle.rcu_cell.specs.Versions.{IsKept};

    ghost Value = { Watching Planned };

    ghost view = { λ k. k.nodes };

    ghost invariant = { λ k. IsKept W k.nodes.view.client.plan
        (nodes_in k.nodes.view.client.known) };
}

impl<F: Version<W>, const W: usize, P: Within<CellRule<F, W>>> Writer<F, W, P> {
    /// Returns the writer of a cell whose nodes are as at first. Allocates all memory that it will
    /// ever need.
    pub fn new(
        alloc: Global,
        cell: &Cell<F, W, P>,
        seat: CellWatcher<F, W, P>,
    ) -> Result<Self, AllocError>
        requires writer { IsWriterOf cell.now (watcher_part P.lens seat) }
        requires nodes { IsClaimed (λ _. F.first) cell.now.plan.roots cell.now.plan.links
            cell.now.plan.words cell.now.plan.nodes (P.lens.get seat.view.client).known }
        requires several { 2 < cell.now.plan.nodes }
        ensures { IfOk result (λ writer. writer ≡ watcher_part P.lens seat) }
    {
        // A borrow of a field gives the prover the invariant of the type: there is one root.
        let graph = &cell.graph;
        let nodes = rcu_graph::Writer::new(alloc, graph, seat)?;
        Ok(Writer { nodes })
    }

    /// Gives a proof the invariant of a writer, and does nothing.
    #[inline(always)]
    pub fn kept(&self)
        ensures { AreVersions F.holds (nodes_in self.now.view.client.known) }
    {
        self.nodes.kept();
    }

    /// Returns the current slot.
    fn shown(&self) -> usize
        ensures { result ≡ shown_in (nodes_in self.now.view.client.known) }
    {
        self.nodes.link_of(0, 0).unwrap_or(0)
    }

    /// Publishes a version: stores its words in a free slot, and makes that slot the current one,
    /// by one store. It never waits. `Full` means that no slot is free, and nothing changed.
    pub fn update(&mut self, words: &[u64; W]) -> Result<Retired, Full>
        requires whole { F.holds words.now }
        ensures same { IsOfSameGraph self.old self.new }
        ensures state { IfOk result (λ retired.
            Updated self.old words.now retired self.new) }
        ensures full { OnErr result (AreAllUsed (nodes_in self.old.view.client.known)) }
        ensures unchanged { OnErr result (self.new ≡ self.old) }
    {
        let slot = self.shown();
        self.nodes.kept();
        let by = self.nodes.put(0, words, None)?;
        Ok(Retired { slot, by })
    }

    /// Reclaims slots: loads the grace-period number once, and frees each slot whose version was
    /// replaced a full grace period ago. Returns the number.
    pub fn reclaim(&mut self) -> u64
        ensures same { IsOfSameGraph self.old self.new }
        ensures state { self.new ≡ after_look self.old result }
        ensures later { self.old.view.seen ≤ result }
        ensures bounded { result ≤ 2 ^ 62 }
    {
        self.nodes.reclaim()
    }
}

impl<F: Value<W> + Version<W>, const W: usize, P: Within<CellRule<F, W>>> Writer<F, W, P> {
    /// Publishes a value, as [`update`](Self::update) does its words.
    pub fn update_value(&mut self, value: F) -> Result<Retired, Full>
        requires sound { F.valid value }
        ensures same { IsOfSameGraph self.old self.new }
        ensures state { IfOk result (λ retired.
            Updated self.old (F.in_words value) retired self.new) }
        ensures full { OnErr result (AreAllUsed (nodes_in self.old.view.client.known)) }
        ensures unchanged { OnErr result (self.new ≡ self.old) }
    {
        self.update(&value.to_words())
    }
}
