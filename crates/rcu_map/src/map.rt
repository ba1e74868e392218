//! A map, and how a section reads it, without a lock, a wait or a store.
ghost use Rattle.std.specs.Prelude.{◌≡◌, ◌≤◌, ◌<◌, ◌+◌, ◌^◌, ℕ, IfOk, IfSome, List, None, false};
ghost use Rattle.std.specs.Prelude.{is_some, length, true};
ghost use Rattle.std.specs.Arc.{arc_value};
ghost use Rattle.rcu_live.specs.CpuSeat.{after_word_step};
ghost use Rattle.rcu_live.specs.InPart.{engine_part, seat_part};
ghost use Rattle.rcu_graph.specs.Graph.{IsAt, IsWalking};
ghost use Rattle.rcu_graph.specs.Nodes.{IsOn};
ghost use Rattle.rcu_graph.specs.Opening.{layout_of};
ghost use Rattle.rcu_graph.specs.Search.{IsFound, IsSearched};
ghost use Rattle.rcu_map.specs.Chains.{IsPlanOfMap};
ghost use Rattle.rcu_map.specs.Found.{IsGot, IsLookedUp};
ghost use Rattle.rcu_map.specs.Keys.{IsWhole, bucket_of, key_in, root_words};
ghost use Rattle.rcu_map.specs.Words.{as_words, words_if};

use crate::bucket::bucket_of;
use crate::entry::{Entry, words_are_two};
use crate::shape::{MapRule, MapSeat, MapShape};
use rcu_graph::{Graph, Invariant, Layout, Plan};
use rcu_live::{Alone, Board, Within};
use std::alloc::{AllocError, Global};
use std::marker::Model;
use std::sync::Arc;

/// Entries among the shared words of a running engine: a chain for each bucket, sorted by key. With
/// one bucket it is a sorted list. The map is the client of the engine, or one of several, at the
/// place `P`.
///
/// An entry has `W` words. If `W` is 0, the map's plan gives their number at run time, and entries
/// are read and put by their words.
#[derive(Drop)]
pub struct Map<E: Invariant, const W: usize, P: Within<MapRule<E, W>> = Alone> {
    pub(crate) graph: Graph<MapShape<E, W>, P>,
}

impl<E: Invariant, const W: usize, P: Within<MapRule<E, W>>> Model for Map<E, W, P> {
    ghost use Rattle.rcu_live.specs.Board.{Object};
    ghost use Rattle.rcu_graph.specs.declared.plan.Plan.{Plan};
    ghost use Rattle.rcu_map.specs.Chains.{IsPlanOfMap};

    ghost Value = { Object Plan };

    ghost view = { λ map. map.graph };

    ghost invariant = { λ map. IsPlanOfMap W map.graph.plan };
}

impl<E: Invariant, const W: usize, P: Within<MapRule<E, W>>> Map<E, W, P> {
    /// Returns a map over a graph with one link in each node, whose roots are those of the buckets.
    pub fn over(graph: Graph<MapShape<E, W>, P>) -> Map<E, W, P>
        requires { IsPlanOfMap W graph.plan }
        ensures { result ≡ graph }
    {
        Map { graph }
    }

    /// Returns its plan, which has a root for each bucket.
    pub fn plan(&self) -> Plan
        ensures plan { result ≡ self.now.plan }
        ensures some { 0 < self.now.plan.roots }
        ensures roots { self.now.plan.roots ≤ self.now.plan.nodes }
        ensures one { self.now.plan.links ≡ 1 }
        ensures wide { 2 ≤ self.now.plan.words }
        ensures words { 0 < W → self.now.plan.words ≡ W }
        ensures row { 1 + self.now.plan.words < 2 ^ 64 }
    {
        // A borrow of a field gives the prover the invariant of the type.
        let graph = &self.graph;
        graph.plan()
    }

    /// Gives a proof the invariant of a map, and does nothing.
    #[inline(always)]
    pub fn kept(&self)
        ensures of_map { IsPlanOfMap W self.now.plan }
        ensures roots { self.now.plan.roots ≤ self.now.plan.nodes }
        ensures row { 1 + self.now.plan.words < 2 ^ 64 }
    {
        self.graph.kept();
    }

    /// Returns a second handle to the same map.
    pub fn try_clone(&self) -> Result<Map<E, W, P>, AllocError>
        ensures { IfOk result (λ map. map ≡ self.now) }
    {
        // A borrow of a field gives the prover the invariant of the type.
        let graph = &self.graph;
        Ok(Map {
            graph: graph.try_clone()?,
        })
    }

    /// Returns the words of its engine, which all seats read.
    pub fn board(&self) -> &Arc<Board<P::Whole>, Global>
        ensures { engine_part P.own_plan P.begins (arc_value result.now) ≡ self.now }
    {
        self.graph.board()
    }

    /// Returns the nodes, for their writer.
    pub fn graph(&self) -> &Graph<MapShape<E, W>, P>
        ensures { result.now ≡ self.now }
    {
        &self.graph
    }

    /// Returns the layout of the nodes' links and words, by constants if `W` is not 0: so no
    /// multiplication by a variable waits for a load.
    pub(crate) fn layout(&self) -> Layout
        ensures { result ≡ layout_of self.now }
    {
        // A borrow of a field gives the prover the invariant of the type: a node has one link.
        let graph = &self.graph;
        let plan = graph.plan();
        let words = if W > 0 { W } else { plan.words };
        Layout {
            base: graph.base(),
            plan: Plan {
                links: 1,
                words,
                ..plan
            },
        }
    }

    /// Writes the words of the node that the section is on, whose key was read already: by one load
    /// for each of the others.
    pub(crate) fn read_words(
        &self,
        seat: &mut MapSeat<E, W, P>,
        node: usize,
        key: u64,
        entry: &mut [u64],
    )
        requires at { IsAt (root_words self.now.plan.words) self.now (seat_part P.lens seat.old)
            node }
        requires room { length entry.old ≡ self.now.plan.words }
        ensures same { seat.new ≡ seat.old }
        ensures told { (words : List ℕ) →
            IsOn (root_words self.now.plan.words) self.now.plan.roots
            (P.lens.get seat.old.view.client).known node words →
            IsWhole E.holds self.now.plan.words words → key_in words ≡ key → entry.new ≡ words }
    {
        self.kept();
        let layout = self.layout();
        entry[0] = key;
        for word in 1..layout.plan.words {
            entry[word] = self.graph.read(seat, layout, node, word);
        }
    }

    /// Returns the node that has the entry of this key. No entry has the key 0.
    fn find(&self, seat: &mut MapSeat<E, W, P>, key: u64) -> Option<usize>
        requires walking { IsWalking self.now (seat_part P.lens seat.old) }
        ensures same { seat.new ≡ after_word_step seat.old
            (P.lens.set seat.old.view.client (P.lens.get seat.new.view.client)) }
        ensures walking { IsWalking self.now (seat_part P.lens seat.new) }
        ensures searched { 0 < key →
            IsSearched (bucket_of self.now.plan.roots self.now.plan.seed key) key
            (P.lens.get seat.old.view.client).known result (P.lens.get seat.new.view.client).known }
        ensures none { key ≡ 0 → result ≡ None }
        ensures found { IfSome result (λ node.
            IsFound (IsWhole E.holds self.now.plan.words) key
            (P.lens.get seat.new.view.client).known node) }
        ensures keyed { IfSome result (λ _. 0 < key) }
        ensures on { IfSome result (λ node.
            IsAt (root_words self.now.plan.words) self.now (seat_part P.lens seat.new) node) }
    {
        if key == 0 {
            return None;
        }
        let bucket = bucket_of(self.plan(), key);
        self.graph.find(seat, self.layout(), bucket, key)
    }

    /// Does as [`get`](Self::get), by words. Writes the words of the entry, and returns whether
    /// there is one.
    pub fn get_words(&self, seat: &mut MapSeat<E, W, P>, key: u64, entry: &mut [u64]) -> bool
        requires walking { IsWalking self.now (seat_part P.lens seat.old) }
        requires room { length entry.old ≡ self.now.plan.words }
        ensures same { seat.new ≡ after_word_step seat.old
            (P.lens.set seat.old.view.client (P.lens.get seat.new.view.client)) }
        ensures walking { IsWalking self.now (seat_part P.lens seat.new) }
        ensures got { 0 < key → IsGot E.holds as_words self.now.plan.roots self.now.plan.seed key
            (P.lens.get seat.old.view.client).known (words_if result entry.new)
            (P.lens.get seat.new.view.client).known }
        ensures none { key ≡ 0 → result ≡ false }
        ensures keyed { result ≡ true → key_in entry.new ≡ key }
        ensures whole { result ≡ true → E.holds entry.new }
        ensures unchanged { result ≡ false → entry.new ≡ entry.old }
    {
        let Some(node) = self.find(seat, key) else {
            return false;
        };
        self.read_words(seat, node, key, entry);
        true
    }

    /// Returns whether the section finds an entry of this key, as [`get`](Self::get) does.
    pub fn contains(&self, seat: &mut MapSeat<E, W, P>, key: u64) -> bool
        requires walking { IsWalking self.now (seat_part P.lens seat.old) }
        ensures same { seat.new ≡ after_word_step seat.old
            (P.lens.set seat.old.view.client (P.lens.get seat.new.view.client)) }
        ensures walking { IsWalking self.now (seat_part P.lens seat.new) }
        ensures searched { 0 < key → IsLookedUp self.now.plan.roots self.now.plan.seed key
            (P.lens.get seat.old.view.client).known result (P.lens.get seat.new.view.client).known }
        ensures none { key ≡ 0 → result ≡ false }
    {
        self.find(seat, key).is_some()
    }
}

impl<E: Entry<W>, const W: usize, P: Within<MapRule<E, W>>> Map<E, W, P> {
    /// Gives a proof the number of an entry's words, and does nothing.
    #[inline(always)]
    pub(crate) fn kept_width(&self)
        ensures { self.now.plan.words ≡ W }
    {
        words_are_two::<E, W>();
        self.kept();
    }

    /// Returns the entry of this key, by two loads for each node of its bucket up to there, and one
    /// for each word of it but the key. It ends, whatever the writer does meanwhile. No entry has
    /// the key 0.
    pub fn get(&self, seat: &mut MapSeat<E, W, P>, key: u64) -> Option<E>
        requires walking { IsWalking self.now (seat_part P.lens seat.old) }
        ensures same { seat.new ≡ after_word_step seat.old
            (P.lens.set seat.old.view.client (P.lens.get seat.new.view.client)) }
        ensures walking { IsWalking self.now (seat_part P.lens seat.new) }
        ensures got { 0 < key → IsGot E.holds E.decode self.now.plan.roots self.now.plan.seed key
            (P.lens.get seat.old.view.client).known result (P.lens.get seat.new.view.client).known }
        ensures none { key ≡ 0 → is_some result ≡ false }
        ensures keyed { IfSome result (λ entry. E.key_of entry ≡ key) }
        ensures sound { IfSome result (λ entry. E.valid entry) }
    {
        self.kept_width();
        let mut words = [0; W];
        if !self.get_words(seat, key, &mut words) {
            return None;
        }
        Some(E::of_words(&words))
    }
}
