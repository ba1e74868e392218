//! The next entry of a map behind a key, in an open section: iteration over the entries without a
//! cursor.
ghost use Rattle.std.specs.Prelude.{◌≡◌, ◌<◌, IfSome, false, length, true};
ghost use Rattle.rcu_live.specs.CpuSeat.{after_word_step};
ghost use Rattle.rcu_live.specs.InPart.{seat_part};
ghost use Rattle.rcu_graph.specs.Graph.{IsWalking};
ghost use Rattle.rcu_map.specs.After.{IsBehind, IsNextAfter};
ghost use Rattle.rcu_map.specs.Keys.{key_in};
ghost use Rattle.rcu_map.specs.Words.{as_words, words_if};

use crate::bucket::bucket_of;
use crate::cursor::Cursor;
use crate::entry::Entry;
use crate::map::Map;
use crate::shape::{MapRule, MapSeat};
use rcu_graph::Invariant;
use rcu_live::Within;

impl<E: Invariant, const W: usize, P: Within<MapRule<E, W>>> Map<E, W, P> {
    /// Does as [`next_after`](Self::next_after), by words. Writes the words of the entry, and
    /// returns whether there is one.
    pub fn next_words_after(&self, seat: &mut MapSeat<E, W, P>, key: u64, entry: &mut [u64]) -> bool
        requires walking { IsWalking self.now (seat_part P.lens seat.old) }
        requires room { length entry.old ≡ self.now.plan.words }
        ensures same { seat.new ≡ after_word_step seat.old
            (P.lens.set seat.old.view.client (P.lens.get seat.new.view.client)) }
        ensures walking { IsWalking self.now (seat_part P.lens seat.new) }
        ensures next { IsNextAfter E.holds as_words self.now.plan.roots self.now.plan.seed key
            (P.lens.get seat.old.view.client).known (words_if result entry.new)
            (P.lens.get seat.new.view.client).known }
        ensures behind { result ≡ true →
            IsBehind self.now.plan.roots self.now.plan.seed key (key_in entry.new) }
        ensures keyed { result ≡ true → 0 < key_in entry.new }
        ensures whole { result ≡ true → E.holds entry.new }
        ensures unchanged { result ≡ false → entry.new ≡ entry.old }
    {
        let plan = self.plan();
        let bucket = bucket_of(plan, key);
        let mut at = Cursor::at_root(bucket);
        'buckets: while at.bucket < plan.roots {
            at = self.step(seat, at);
            // In the key's bucket the entries up to the key are skipped.
            let limit = if at.bucket == bucket { key } else { 0 };
            if at.key > limit {
                self.read_words(seat, at.node, at.key, entry);
                return true;
            }
        }
        false
    }
}

impl<E: Entry<W>, const W: usize, P: Within<MapRule<E, W>>> Map<E, W, P> {
    /// Returns the next entry behind a key, in the order of [`entries`](Self::entries): bucket by
    /// bucket, and in each by key. Behind the key 0 that is the first one. The key need not be in
    /// the map, so an iteration stores only the last key, and no cursor.
    ///
    /// Costs two loads for each node of the chains from the key's bucket up to there, and one for
    /// each word of the entry but the key. It ends, whatever the writer does meanwhile.
    pub fn next_after(&self, seat: &mut MapSeat<E, W, P>, key: u64) -> Option<E>
        requires walking { IsWalking self.now (seat_part P.lens seat.old) }
        ensures same { seat.new ≡ after_word_step seat.old
            (P.lens.set seat.old.view.client (P.lens.get seat.new.view.client)) }
        ensures walking { IsWalking self.now (seat_part P.lens seat.new) }
        ensures next { IsNextAfter E.holds E.decode self.now.plan.roots self.now.plan.seed key
            (P.lens.get seat.old.view.client).known result
            (P.lens.get seat.new.view.client).known }
        ensures behind { IfSome result (λ entry.
            IsBehind self.now.plan.roots self.now.plan.seed key (E.key_of entry)) }
        ensures keyed { IfSome result (λ entry. 0 < E.key_of entry) }
        ensures sound { IfSome result (λ entry. E.valid entry) }
    {
        self.kept_width();
        let mut words = [0; W];
        if !self.next_words_after(seat, key, &mut words) {
            return None;
        }
        Some(E::of_words(&words))
    }
}
