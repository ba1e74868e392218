//! The writer of a map: it reads the entries without a section, and reclaims nodes.
ghost use Rattle.std.specs.Prelude.{◌≡◌, ◌≤◌, ◌<◌, ◌^◌, ◌↔◌, ℕ, IfOk, IfSome, IsSome, IsTrue};
ghost use Rattle.std.specs.Prelude.{MatchOption, false, length, true};
ghost use Rattle.rcu_live.specs.InPart.{watcher_part};
ghost use Rattle.rcu_graph.specs.Graph.{IsOfSameGraph};
ghost use Rattle.rcu_graph.specs.Writer.{IsWriterOf, after_look};
ghost use Rattle.rcu_graph.specs.Nodes.{node_at, nodes_in};
ghost use Rattle.rcu_graph.specs.Steps.{IsClaimed};
ghost use Rattle.rcu_graph.specs.Tended.{AreAllUsed};
ghost use Rattle.rcu_map.specs.Chains.{IsMap, buckets_in, capacity, seed_in};
ghost use Rattle.rcu_map.specs.Entries.{AreSameEntries, HasKey, IsEntry, IsEntryOf};
ghost use Rattle.rcu_map.specs.Entries.{IsNodeOf, entries_in};
ghost use Rattle.rcu_map.specs.Keys.{root_words};
ghost use Rattle.rcu_map.specs.Splices.{IsPlace};
ghost use Rattle.rcu_map.specs.Room.{AreAllLive, IsAtCapacity, IsOneTooMany};
ghost use Rattle.rcu_map.specs.Room.{IsOnlyForReplacements};
ghost use Rattle.rcu_map.specs.Words.{as_words};

use crate::bucket::bucket_of;
use crate::entry::{Entry, words_are_two};
use crate::links::keep;
use crate::map::Map;
use crate::shape::{MapRule, MapShape, MapWatcher};
use rcu_graph::{Invariant, Plan, Writer};
use rcu_live::{Alone, Within};
use std::alloc::{AllocError, Global};
use std::marker::Model;

/// The writer of a map, for one thread. A map has one.
#[derive(Drop)]
pub struct MapWriter<E: Invariant, const W: usize, P: Within<MapRule<E, W>> = Alone> {
    pub(crate) nodes: Writer<MapShape<E, W>, P>,
    pub(crate) len: usize,
}

impl<E: Invariant, const W: usize, P: Within<MapRule<E, W>>> Model for MapWriter<E, W, P> {
    ghost use Rattle.rcu_live.specs.Watcher.{Watching};
    ghost use Rattle.rcu_graph.specs.Nodes.{nodes_in};
    ghost use Rattle.rcu_graph.specs.declared.known.Planned.{Planned};
    ghost use Rattle.rcu_map.specs.Chains.{IsKept};

    ghost Value = { Watching Planned };

    ghost view = { λ k. k.nodes };

    ghost invariant = { λ k. IsKept E.holds W k.nodes.view.client.plan
        (nodes_in k.nodes.view.client.known) k.len };
}

/// The place of a key in the chain of its bucket.
#[derive(Clone, Copy)]
pub(crate) struct Place {
    /// The last node whose key is less.
    pub(crate) previous: usize,
    /// The node that has the key, if there is one.
    pub(crate) node: Option<usize>,
}

impl<E: Invariant, const W: usize, P: Within<MapRule<E, W>>> MapWriter<E, W, P> {
    /// Returns the writer of a map that has no entry yet: the nodes of its graph are as at first.
    /// Allocates all memory that it will ever need.
    pub fn new(
        alloc: Global,
        map: &Map<E, W, P>,
        seat: MapWatcher<E, W, P>,
    ) -> Result<Self, AllocError>
        requires writer { IsWriterOf map.now (watcher_part P.lens seat) }
        requires nodes { IsClaimed (root_words map.now.plan.words) map.now.plan.roots
            map.now.plan.links map.now.plan.words map.now.plan.nodes
            (P.lens.get seat.view.client).known }
        ensures { IfOk result (λ writer. writer ≡ watcher_part P.lens seat) }
    {
        // A borrow of a field gives the prover the invariant of the type: there is a bucket.
        let graph = &map.graph;
        let nodes = keep(alloc, graph, seat)?;
        Ok(MapWriter { nodes, len: 0 })
    }

    /// Gives a proof the invariant of a writer, and does nothing. A node is free or waits for its
    /// grace period, if there is an entry or if one more may be inserted: so each can be replaced.
    #[inline(always)]
    pub fn kept(&self)
        ensures map { IsMap E.holds self.now.view.client.plan.roots self.now.view.client.plan.seed
            self.now.view.client.plan.words self.now.view.client.plan.nodes
            (nodes_in self.now.view.client.known) }
        ensures entry { (key : ℕ) →
            HasKey (buckets_in self.now) (nodes_in self.now.view.client.known) key →
            AreAllLive (nodes_in self.now.view.client.known) → ⊥ }
        ensures room { (IsAtCapacity self.now → ⊥) →
            AreAllLive (nodes_in self.now.view.client.known) → ⊥ }
    {
        self.nodes.kept();
    }

    /// Returns its plan, as [`Map::plan`] does.
    pub fn plan(&self) -> Plan
        ensures plan { result ≡ self.now.view.client.plan }
        ensures wide { 2 ≤ self.now.view.client.plan.words }
    {
        self.nodes.plan()
    }

    /// Returns the number of entries.
    pub fn len(&self) -> usize
        ensures value { result
            ≡ entries_in (buckets_in self.now) (nodes_in self.now.view.client.known) }
        ensures most { result ≤ capacity self.now.view.client.plan }
    {
        // A borrow of a field gives the prover the invariant of the type: the map has at most as
        // many entries as it may.
        let _ = &self.nodes;
        self.len
    }

    /// Returns whether the map has as many entries as it may. Then no further one can be inserted
    /// before one is removed, but each can be replaced.
    pub fn is_full(&self) -> bool
        ensures { IsTrue result ↔ IsAtCapacity self.now }
    {
        let plan = self.nodes.plan();
        plan.nodes - plan.roots - self.len < 2
    }

    /// Returns whether an entry of this key is one too many: none has the key, and the map is full.
    pub(crate) fn is_one_too_many(&self, key: u64) -> bool
        ensures { IsTrue result ↔ IsOneTooMany self.now key }
    {
        self.is_full() && !self.contains(key)
    }

    /// Returns whether the map is full and a node is free: then a caller need not wait.
    pub fn is_only_for_replacements(&self) -> bool
        ensures { IsTrue result ↔ IsOnlyForReplacements self.now }
    {
        self.is_full() && self.has_free_node()
    }

    /// Returns whether a node is free, so that an entry can be replaced.
    pub fn has_free_node(&self) -> bool
        ensures free { result ≡ true → ¬ AreAllUsed (nodes_in self.now.view.client.known) }
        ensures used { result ≡ false → AreAllUsed (nodes_in self.now.view.client.known) }
    {
        self.nodes.free_node().is_ok()
    }

    /// Returns the place of a key.
    pub(crate) fn place_of(&self, key: u64) -> Place
        requires { 0 < key }
        ensures place { IsPlace (buckets_in self.now) (seed_in self.now) key
            (nodes_in self.now.view.client.known)
            result.previous result.node }
        ensures told { MatchOption result.node
            (¬ HasKey (buckets_in self.now) (nodes_in self.now.view.client.known) key)
            (λ node.
            IsNodeOf (buckets_in self.now) (nodes_in self.now.view.client.known) key node) }
    {
        // A borrow of a field gives the prover the invariant of the type: there is a bucket.
        let nodes = &self.nodes;
        let mut previous = bucket_of(nodes.plan(), key);
        'chain: loop {
            let Some(next) = nodes.link_of(previous, 0) else {
                return Place {
                    previous,
                    node: None,
                };
            };
            let found = nodes.word(next, 0);
            if found == key {
                return Place {
                    previous,
                    node: Some(next),
                };
            }
            if found > key {
                return Place {
                    previous,
                    node: None,
                };
            }
            previous = next;
        }
    }

    /// Returns the node that has the entry of this key. No entry has the key 0.
    pub(crate) fn find(&self, key: u64) -> Option<usize>
        ensures { MatchOption result (¬ HasKey (buckets_in self.now)
            (nodes_in self.now.view.client.known) key)
            (λ node.
            IsNodeOf (buckets_in self.now) (nodes_in self.now.view.client.known) key node) }
    {
        // A borrow of a field gives the prover the invariant of the type: an entry has a key.
        let _ = &self.nodes;
        if key == 0 {
            return None;
        }
        self.place_of(key).node
    }

    /// Writes the words of the entry of a node.
    pub(crate) fn copy_words(&self, node: usize, entry: &mut [u64])
        requires node { IsEntry (buckets_in self.now) (nodes_in self.now.view.client.known) node }
        requires room { length entry.old ≡ self.now.view.client.plan.words }
        ensures same { entry.new ≡ (node_at (nodes_in self.now.view.client.known) node).words }
        ensures whole { E.holds entry.new }
    {
        let nodes = &self.nodes;
        for word in 0..nodes.plan().words {
            entry[word] = nodes.word(node, word);
        }
    }

    /// Does as [`get`](Self::get), by words. Writes the words of the entry, and returns whether
    /// there is one.
    pub fn get_words(&self, key: u64, entry: &mut [u64]) -> bool
        requires room { length entry.old ≡ self.now.view.client.plan.words }
        ensures there { IsTrue result ↔ HasKey (buckets_in self.now)
            (nodes_in self.now.view.client.known) key }
        ensures found { result ≡ true → IsEntryOf as_words (buckets_in self.now)
            (nodes_in self.now.view.client.known) key entry.new }
        ensures whole { result ≡ true → E.holds entry.new }
        ensures unchanged { result ≡ false → entry.new ≡ entry.old }
    {
        let Some(node) = self.find(key) else {
            return false;
        };
        self.copy_words(node, entry);
        true
    }

    /// Returns whether there is an entry of this key.
    pub fn contains(&self, key: u64) -> bool
        ensures { IsTrue result ↔ HasKey (buckets_in self.now) (nodes_in self.now.view.client.known)
            key }
    {
        self.find(key).is_some()
    }

    /// Reclaims nodes: loads the grace-period number once, retires each unlinked node at it, and
    /// frees each node that was retired a full grace period ago. Returns the number. No entry
    /// changes. Costs a step for each node that it retires or frees.
    pub fn reclaim(&mut self) -> u64
        ensures same { IsOfSameGraph self.old self.new }
        ensures state { self.new ≡ after_look self.old result }
        ensures later { self.old.view.seen ≤ result }
        ensures bounded { result ≤ 2 ^ 62 }
        ensures entries { AreSameEntries (buckets_in self.old) (nodes_in self.old.view.client.known)
            (nodes_in self.new.view.client.known) }
    {
        let number = self.nodes.reclaim();
        self.nodes.kept();
        number
    }
}

impl<E: Entry<W>, const W: usize, P: Within<MapRule<E, W>>> MapWriter<E, W, P> {
    /// Gives a proof the number of an entry's words, and does nothing.
    #[inline(always)]
    pub(crate) fn kept_width(&self)
        ensures { self.now.view.client.plan.words ≡ W }
    {
        words_are_two::<E, W>();
        // A borrow of a field gives the prover the invariant of the type: the number of an entry's
        // words.
        let _ = &self.nodes;
    }

    /// Returns the entry of this key, if there is one, without a load of a shared word. No entry
    /// has the key 0. Costs a step for each node of its bucket up to there.
    pub fn get(&self, key: u64) -> Option<E>
        ensures there { IsSome result ↔ HasKey (buckets_in self.now)
            (nodes_in self.now.view.client.known) key }
        ensures found { IfSome result (λ entry.
            IsEntryOf E.decode (buckets_in self.now) (nodes_in self.now.view.client.known) key
            entry) }
        ensures keyed { IfSome result (λ entry. E.key_of entry ≡ key) }
        ensures sound { IfSome result (λ entry. E.valid entry) }
    {
        self.kept_width();
        let mut words = [0; W];
        if !self.get_words(key, &mut words) {
            return None;
        }
        Some(E::of_words(&words))
    }
}
