//! Reads of the version that a section has loaded.
ghost use Rattle.std.specs.Prelude.{◌≡◌, ◌<◌, slice_index};
ghost use Rattle.rcu_cell.specs.Lent.{lent, version_lent};

use crate::shape::{CellRule, Version};
use crate::version_guard::VersionGuard;
use rcu_graph::Value;
use rcu_live::Within;

impl<'a, F: Version<W>, const W: usize, P: Within<CellRule<F, W>>> VersionGuard<'a, F, W, P> {
    /// Returns a word of the version, by one load: the word that it had when it was loaded.
    pub fn read(&mut self, word: usize) -> u64
        requires { word < W }
        ensures unchanged { lent self.new ≡ lent self.old }
        ensures word { result ≡ slice_index (version_lent P.lens F.first (lent self.old)) word }
    {
        self.cell.read(self.seat, self.slot, word)
    }

    /// Returns all words of the version, by a load each.
    pub fn snapshot(&mut self) -> [u64; W]
        ensures unchanged { lent self.new ≡ lent self.old }
        ensures words { result ≡ version_lent P.lens F.first (lent self.old) }
    {
        // A borrow of a field gives the prover the invariant of the type: a version has `W` words.
        let cell = self.cell;
        let _ = &cell.graph;
        let mut words = [0u64; W];
        for word in 0..W {
            words[word] = self.read(word);
        }
        words
    }
}

impl<'a, F: Value<W> + Version<W>, const W: usize, P: Within<CellRule<F, W>>> VersionGuard<
    'a,
    F,
    W,
    P,
> {
    /// Returns the version as a value of the user's type, by one load for each word.
    pub fn value(&mut self) -> F
        requires whole { F.holds (version_lent P.lens F.first (lent self.old)) }
        ensures unchanged { lent self.new ≡ lent self.old }
        ensures told { result ≡ F.decode (version_lent P.lens F.first (lent self.old)) }
        ensures sound { F.valid result }
    {
        F::of_words(&self.snapshot())
    }
}
