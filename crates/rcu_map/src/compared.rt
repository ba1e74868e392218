//! Updates of a map that are made if an entry is as it was read.
ghost use Rattle.std.specs.Prelude.{◌≡◌, ◌≢◌, ◌<◌, ◌↔◌, IsTrue, Ok, length, true};
ghost use Rattle.rcu_graph.specs.Absence.{key_at};
ghost use Rattle.rcu_graph.specs.Nodes.{node_at, nodes_in};
ghost use Rattle.rcu_map.specs.Chains.{buckets_in};
ghost use Rattle.rcu_map.specs.Compared.{HasComparedToRemove, HasComparedToReplace, IsAsRead};
ghost use Rattle.rcu_map.specs.Compared.{compared, words_found};
ghost use Rattle.rcu_map.specs.Entries.{IsEntry};
ghost use Rattle.rcu_map.specs.Keys.{key_in};
ghost use Rattle.rcu_map.specs.Words.{as_words};

use crate::entry::Entry;
use crate::shape::MapRule;
use crate::writer::MapWriter;
use rcu_graph::{Full, Invariant};
use rcu_live::Within;

/// The result of an update that is made only if the entry of a key is as it was read.
#[derive(Clone, Copy, Debug, PartialEq, Eq)]
pub enum Compared {
    /// The entry is as it was read: the update was made.
    Same,
    /// The entry of the key has other words.
    Changed,
    /// No entry has the key.
    Gone,
}

impl<E: Invariant, const W: usize, P: Within<MapRule<E, W>>> MapWriter<E, W, P> {
    /// Returns whether the entry of a node has these words.
    fn has_words(&self, node: usize, words: &[u64]) -> bool
        requires node { IsEntry (buckets_in self.now) (nodes_in self.now.view.client.known) node }
        requires sized { length words.now ≡ self.now.view.client.plan.words }
        ensures { IsTrue result ↔
            ((node_at (nodes_in self.now.view.client.known) node).words ≡ words.now) }
    {
        let nodes = &self.nodes;
        for word in 0..nodes.plan().words {
            if nodes.word(node, word) != words[word] {
                return false;
            }
        }
        true
    }

    /// Writes the words of the entry of a node, and returns whether the buffer had them already.
    fn read_again(&self, node: usize, words: &mut [u64]) -> bool
        requires node { IsEntry (buckets_in self.now) (nodes_in self.now.view.client.known) node }
        requires room { length words.old ≡ self.now.view.client.plan.words }
        ensures as_read { IsTrue result ↔ IsAsRead (buckets_in self.now)
            (nodes_in self.now.view.client.known)
            (key_at (nodes_in self.now.view.client.known) node) words.old }
        ensures same { words.new ≡ (node_at (nodes_in self.now.view.client.known) node).words }
        ensures whole { E.holds words.new }
        ensures unchanged { result ≡ true → words.new ≡ words.old }
    {
        self.kept();
        let as_read = self.has_words(node, words);
        self.copy_words(node, words);
        as_read
    }

    /// Does as [`compare_replace`](Self::compare_replace), by words. Writes the words of the entry
    /// that has the key over those that were read.
    pub fn compare_replace_words(
        &mut self,
        words: &[u64],
        read: &mut [u64],
    ) -> Result<Compared, Full>
        requires whole { E.holds words.now }
        requires keyed { 0 < key_in words.now }
        requires sized { length words.now ≡ self.old.view.client.plan.words }
        requires room { length read.old ≡ self.old.view.client.plan.words }
        ensures replaced { HasComparedToReplace as_words E.holds key_in (key_in words.now) read.old
            words.now self.old (compared result read.new) self.new }
        ensures as_read { result ≡ Ok Compared.Same → IsAsRead (buckets_in self.old)
            (nodes_in self.old.view.client.known)
            (key_in words.now) read.old }
        ensures another { result ≡ Ok Compared.Changed → ¬ IsAsRead (buckets_in self.old)
            (nodes_in self.old.view.client.known)
            (key_in words.now) read.old }
        ensures unchanged { result ≢ Ok Compared.Changed → read.new ≡ read.old }
    {
        self.kept();
        let place = self.place_of(words[0]);
        let Some(node) = place.node else {
            return Ok(Compared::Gone);
        };
        if !self.read_again(node, read) {
            return Ok(Compared::Changed);
        }
        self.put_over(place.previous, node, words)?;
        Ok(Compared::Same)
    }

    /// Does as [`compare_remove`](Self::compare_remove), by words. Writes the words of the entry
    /// that has the key over those that were read.
    pub fn compare_remove_words(&mut self, read: &mut [u64]) -> Compared
        requires room { length read.old ≡ self.old.view.client.plan.words }
        ensures removed { HasComparedToRemove as_words E.holds key_in (key_in read.old) read.old
            self.old (words_found result read.new) self.new }
        ensures as_read { result ≡ Compared.Same → IsAsRead (buckets_in self.old)
            (nodes_in self.old.view.client.known)
            (key_in read.old) read.old }
        ensures another { result ≡ Compared.Changed → ¬ IsAsRead (buckets_in self.old)
            (nodes_in self.old.view.client.known)
            (key_in read.old) read.old }
        ensures unchanged { result ≢ Compared.Changed → read.new ≡ read.old }
    {
        self.nodes.plan();
        let key = read[0];
        let Some(node) = self.find(key) else {
            return Compared::Gone;
        };
        if !self.read_again(node, read) {
            return Compared::Changed;
        }
        self.remove_words(key, read);
        Compared::Same
    }
}

impl<E: Entry<W>, const W: usize, P: Within<MapRule<E, W>>> MapWriter<E, W, P> {
    /// Replaces the entry that has the key, as [`replace`](Self::replace) does, if that entry is as
    /// it was read: if it has the words of `read`. Returns the entry that had the key: it was
    /// replaced if it has these words. `Full` means that it has them, but no node is free yet.
    pub fn compare_replace(&mut self, read: E, entry: E) -> Result<Option<E>, Full>
        requires sound { E.valid entry }
        requires sound_read { E.valid read }
        ensures { HasComparedToReplace E.decode E.valid E.key_of (E.key_of entry) (E.in_words read)
            (E.in_words entry) self.old result self.new }
    {
        self.kept_width();
        let mut words = read.to_words();
        match self.compare_replace_words(&entry.to_words(), &mut words)? {
            Compared::Gone => Ok(None),
            Compared::Same => Ok(Some(read)),
            Compared::Changed => Ok(Some(E::of_words(&words))),
        }
    }

    /// Removes the entry of a key, as [`remove`](Self::remove) does, if it is as it was read: if it
    /// has the words of `read`. Returns the entry that had the key: it was removed if it has these
    /// words.
    pub fn compare_remove(&mut self, read: E) -> Option<E>
        requires sound { E.valid read }
        ensures { HasComparedToRemove E.decode E.valid E.key_of (E.key_of read) (E.in_words read)
            self.old result self.new }
    {
        self.kept_width();
        let mut words = read.to_words();
        match self.compare_remove_words(&mut words) {
            Compared::Gone => None,
            Compared::Same => Some(read),
            Compared::Changed => Some(E::of_words(&words)),
        }
    }
}
