//! Walks over the entries of a map, in an open section.
ghost use Rattle.std.specs.Prelude.{◌≡◌, ◌<◌, List, ℕ};
ghost use Rattle.rcu_live.specs.CpuSeat.{after_word_step};
ghost use Rattle.rcu_live.specs.InPart.{seat_part};
ghost use Rattle.rcu_graph.specs.Graph.{IsWalking};
ghost use Rattle.rcu_graph.specs.Nodes.{IsHeld};
ghost use Rattle.rcu_map.specs.Cursors.{HasListed, HasStepped, IsOnEntry, MayGoOn};
ghost use Rattle.rcu_map.specs.Keys.{IsWhole, key_in};
ghost use Rattle.rcu_map.specs.Listing.{at_root, left_from};
ghost use Rattle.rcu_map.specs.Listed.{Listed, listing};

use crate::cursor::Cursor;
use crate::entries::Entries;
use crate::entry::Entry;
use crate::map::Map;
use crate::shape::{MapRule, MapSeat};
use rcu_graph::Invariant;
use rcu_live::Within;

impl<E: Invariant, const W: usize, P: Within<MapRule<E, W>>> Map<E, W, P> {
    /// Goes on from a cursor by one hop, and returns the new cursor: on a node, or on the root of
    /// the next bucket if the link led nowhere.
    pub(crate) fn step(&self, seat: &mut MapSeat<E, W, P>, at: Cursor) -> Cursor
        requires may { MayGoOn self.now (seat_part P.lens seat.old) at }
        requires inside { at.bucket < self.now.plan.roots }
        ensures stepped { HasStepped E.holds self.now (seat_part P.lens seat.old) at
            (seat_part P.lens seat.new) result }
        ensures others { seat.new ≡ after_word_step seat.old
            (P.lens.set seat.old.view.client (P.lens.get seat.new.view.client)) }
    {
        self.kept();
        let Some(node) = self.graph.follow(seat, self.layout(), at.node, 0) else {
            return Cursor::at_root(at.bucket + 1);
        };
        let key = self.graph.read(seat, self.layout(), node, 0);
        Cursor {
            bucket: at.bucket,
            node,
            key,
        }
    }
}

impl<E: Entry<W>, const W: usize, P: Within<MapRule<E, W>>> Map<E, W, P> {
    /// Returns the entry of a node, by one load for each word.
    pub(crate) fn entry_at(&self, seat: &mut MapSeat<E, W, P>, node: usize, key: u64) -> E
        requires { IsOnEntry E.holds self.now (seat_part P.lens seat.old) node key }
        ensures same { seat.new ≡ seat.old }
        ensures told { (words : List ℕ) →
            IsHeld (P.lens.get seat.old.view.client).known node words →
            IsWhole E.holds self.now.plan.words words → key_in words ≡ key →
            result ≡ E.decode words }
        ensures sound { E.valid result }
    {
        self.kept_width();
        let mut words = [0; W];
        self.read_words(seat, node, key, &mut words);
        E::of_words(&words)
    }

    /// Goes on from a cursor to the next entry. `None` means that no bucket has a further one.
    fn next_entry(&self, seat: &mut MapSeat<E, W, P>, start: Cursor) -> (Cursor, Option<E>)
        requires { MayGoOn self.now (seat_part P.lens seat.old) start }
        ensures listed { HasListed E.holds E.decode E.valid E.key_of self.now
            (seat_part P.lens seat.old) start (seat_part P.lens seat.new) result.0 result.1 }
        ensures others { seat.new ≡ after_word_step seat.old
            (P.lens.set seat.old.view.client (P.lens.get seat.new.view.client)) }
    {
        let mut at = start;
        let buckets = self.plan().roots;
        'buckets: while at.bucket < buckets {
            at = self.step(seat, at);
            if at.key > 0 {
                return (at, Some(self.entry_at(seat, at.node, at.key)));
            }
        }
        (at, None)
    }

    /// Lends the seat to an iterator over all entries, in an open section. Loads nothing yet.
    pub fn entries<'a>(&'a self, seat: &'a mut MapSeat<E, W, P>) -> Entries<'a, E, W, P>
        requires { IsWalking self.now (seat_part P.lens seat.old) }
        ensures map { (listing result).map ≡ self.now }
        ensures seat { (listing result).seat ≡ seat.old }
        ensures name { (listing result).name ≡ seat.entry.ghost_name }
        ensures first { (listing result).at ≡ at_root 0 }
    {
        self.kept();
        Entries {
            map: self,
            seat,
            at: Cursor::at_root(0),
        }
    }
}

impl<'a, E: Entry<W>, const W: usize, P: Within<MapRule<E, W>>> Iterator for Entries<'a, E, W, P> {
    ghost use Rattle.std.specs.Iterator.{at_most};

    type Item = E;

    ghost next_gives = { λ old result new.
        Listed P.lens E.holds E.decode E.valid E.key_of (listing old) result (listing new) };

    ghost remaining = { λ s. at_most (left_from (listing s).map.plan.roots (listing s).at) };

    /// Returns the next entry, by two loads for each node of the chains from here up to there, and
    /// one for each word of it but the key.
    fn next(&mut self) -> Option<E> {
        let (at, entry) = self.map.next_entry(self.seat, self.at);
        self.at = at;
        entry
    }
}
