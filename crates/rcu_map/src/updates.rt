//! A map's writer's updates of its entries, by one store each.
ghost use Rattle.std.specs.Prelude.{◌≡◌, ◌≢◌, ◌<◌, IfNone, IsSome, MatchResult, None, Ok, Some};
ghost use Rattle.std.specs.Prelude.{false, length, true};
ghost use Rattle.rcu_graph.specs.Graph.{IsOfSameGraph};
ghost use Rattle.rcu_graph.specs.Nodes.{nodes_in};
ghost use Rattle.rcu_map.specs.Chains.{buckets_in, seed_in};
ghost use Rattle.rcu_map.specs.Entries.{IsRemoved};
ghost use Rattle.rcu_map.specs.Keys.{key_in};
ghost use Rattle.rcu_map.specs.Puts.{HasAnswered, HasChanged, Holds, IsPutIn};
ghost use Rattle.rcu_map.specs.Splices.{IsPlace};
ghost use Rattle.rcu_map.specs.Words.{answered, as_words, words_if};
ghost use Rattle.rcu_graph.specs.Puts.{IsFull};
ghost use Rattle.rcu_map.specs.Room.{IsAtCapacity};
ghost use Rattle.rcu_map.specs.declared.put.Put.{Put};

use crate::entry::Entry;
use crate::links::pass;
use crate::put::Put;
use crate::shape::MapRule;
use crate::writer::MapWriter;
use rcu_graph::{Full, Invariant};
use rcu_live::Within;

impl<E: Invariant, const W: usize, P: Within<MapRule<E, W>>> MapWriter<E, W, P> {
    /// Puts an entry of these words, whose key no entry has, behind the node where the key belongs.
    fn put_behind(&mut self, previous: usize, words: &[u64]) -> Result<(), Full>
        requires whole { E.holds words.now }
        requires keyed { 0 < key_in words.now }
        requires sized { length words.now ≡ self.old.view.client.plan.words }
        requires place { IsPlace (buckets_in self.old) (seed_in self.old) (key_in words.now)
            (nodes_in self.old.view.client.known)
            previous None }
        requires room { ¬ IsAtCapacity self.old }
        ensures same { IsOfSameGraph self.old self.new }
        ensures put { MatchResult result
            (λ _. HasChanged (IsPutIn (buckets_in self.old) words.now false) self.old self.new)
            (λ _. IsFull self.old self.new) }
    {
        self.nodes.plan();
        let next = self.nodes.link_of(previous, 0);
        self.nodes.put(previous, words, next)?;
        self.len += 1;
        Ok(())
    }

    /// Replaces the old entry that has the key of these words, behind this node, by one of these
    /// words. Returns its node.
    pub(crate) fn put_over(
        &mut self,
        previous: usize,
        old: usize,
        words: &[u64],
    ) -> Result<usize, Full>
        requires whole { E.holds words.now }
        requires keyed { 0 < key_in words.now }
        requires sized { length words.now ≡ self.old.view.client.plan.words }
        requires place { IsPlace (buckets_in self.old) (seed_in self.old) (key_in words.now)
            (nodes_in self.old.view.client.known)
            previous (Some old) }
        ensures same { IsOfSameGraph self.old self.new }
        ensures put { MatchResult result
            (λ _. HasChanged (IsPutIn (buckets_in self.old) words.now true) self.old self.new)
            (λ _. IsFull self.old self.new) }
    {
        let next = self.nodes.link_of(old, 0);
        self.nodes.put(previous, words, next)
    }

    /// Does as [`put`](Self::put), by words. Writes the words of the entry that had the key, and
    /// returns whether there is one.
    pub fn put_words(&mut self, how: Put, words: &[u64], old: &mut [u64]) -> Result<bool, Full>
        requires whole { E.holds words.now }
        requires keyed { 0 < key_in words.now }
        requires sized { length words.now ≡ self.old.view.client.plan.words }
        requires room { length old.old ≡ self.old.view.client.plan.words }
        ensures put { HasAnswered as_words E.holds key_in how (key_in words.now) words.now self.old
            (answered result old.new) self.new }
        ensures unchanged { result ≢ Ok true → old.new ≡ old.old }
    {
        self.kept();
        let place = self.place_of(words[0]);
        let Some(node) = place.node else {
            if how.puts(false) {
                if self.is_full() {
                    return Err(Full);
                }
                self.put_behind(place.previous, words)?;
            }
            return Ok(false);
        };
        if !how.puts(true) {
            self.copy_words(node, old);
            return Ok(true);
        }
        // If no node is free, nothing is written.
        self.nodes.free_node()?;
        self.copy_words(node, old);
        let Ok(_) = self.put_over(place.previous, node, words) else {
            unreachable!()
        };
        Ok(true)
    }

    /// Does as [`remove`](Self::remove), by words. Writes the words of the entry, and returns
    /// whether there was one.
    pub fn remove_words(&mut self, key: u64, old: &mut [u64]) -> bool
        requires room { length old.old ≡ self.old.view.client.plan.words }
        ensures same { IsOfSameGraph self.old self.new }
        ensures old { Holds as_words E.holds key_in (buckets_in self.old)
            (nodes_in self.old.view.client.known)
            key (words_if result old.new) }
        ensures removed { result ≡ true →
            HasChanged (λ before after. IsRemoved (buckets_in self.old) before key after) self.old
            self.new }
        ensures unchanged { result ≡ false → self.new ≡ self.old }
        ensures left { result ≡ false → old.new ≡ old.old }
    {
        // A borrow of a field gives the prover the invariant of the type: an entry has a key.
        let _ = &self.nodes;
        if key == 0 {
            return false;
        }
        let place = self.place_of(key);
        let Some(node) = place.node else {
            return false;
        };
        self.copy_words(node, old);
        pass(&mut self.nodes, place.previous, node);
        self.len -= 1;
        true
    }
}

impl<E: Entry<W>, const W: usize, P: Within<MapRule<E, W>>> MapWriter<E, W, P> {
    /// Inserts, replaces or upserts an entry, as `how` says, by one store, and returns the one that
    /// had its key. `Full` means that the entry has no room: no node is free yet, or the map is
    /// full and no entry has its key. Costs a step for each node of its bucket up to there.
    pub fn put(&mut self, how: Put, entry: E) -> Result<Option<E>, Full>
        requires sound { E.valid entry }
        ensures { HasAnswered E.decode E.valid E.key_of how (E.key_of entry)
            (E.in_words entry) self.old result self.new }
    {
        self.kept_width();
        let mut old = [0; W];
        if self.put_words(how, &entry.to_words(), &mut old)? {
            return Ok(Some(E::of_words(&old)));
        }
        Ok(None)
    }

    /// Inserts an entry, by one store, if none has its key. Returns the entry that has the key:
    /// then nothing changed. `Full` means that none has it, but the map is full or no node is free
    /// yet. Costs a step for each node of its bucket up to there.
    pub fn insert(&mut self, entry: E) -> Result<Option<E>, Full>
        requires sound { E.valid entry }
        ensures { HasAnswered E.decode E.valid E.key_of Put.Insert
            (E.key_of entry) (E.in_words entry) self.old result self.new }
    {
        self.put(Put::Insert, entry)
    }

    /// Replaces the entry that has the key, by one store, and returns it: a section finds the old
    /// entry or the new one. If none has the key, nothing changes. `Full` means that one has it,
    /// but no node is free yet: one will be, also in a full map. Costs the same as
    /// [`insert`](Self::insert).
    pub fn replace(&mut self, entry: E) -> Result<Option<E>, Full>
        requires sound { E.valid entry }
        ensures { HasAnswered E.decode E.valid E.key_of Put.Replace
            (E.key_of entry) (E.in_words entry) self.old result self.new }
    {
        self.put(Put::Replace, entry)
    }

    /// Inserts an entry, by one store, or replaces the one that has its key, and returns that (as
    /// std's `insert` of a hash map). `Full` means that no node is free yet, or that none has its
    /// key and the map is full. Costs the same as [`insert`](Self::insert).
    pub fn upsert(&mut self, entry: E) -> Result<Option<E>, Full>
        requires sound { E.valid entry }
        ensures { HasAnswered E.decode E.valid E.key_of Put.Upsert
            (E.key_of entry) (E.in_words entry) self.old result self.new }
    {
        self.put(Put::Upsert, entry)
    }

    /// Removes the entry of this key, by one store, and returns it, if there is one.
    pub fn remove(&mut self, key: u64) -> Option<E>
        ensures same { IsOfSameGraph self.old self.new }
        ensures old { Holds E.decode E.valid E.key_of (buckets_in self.old)
            (nodes_in self.old.view.client.known)
            key result }
        ensures removed { IsSome result →
            HasChanged (λ before after. IsRemoved (buckets_in self.old) before key after) self.old
            self.new }
        ensures unchanged { IfNone result (self.new ≡ self.old) }
    {
        self.kept_width();
        let mut old = [0; W];
        if !self.remove_words(key, &mut old) {
            return None;
        }
        Some(E::of_words(&old))
    }
}
