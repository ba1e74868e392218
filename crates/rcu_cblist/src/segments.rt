//! A sequence of items in four segments.
ghost use Rattle.std.specs.Prelude.{◌≡◌, ◌+◌, ◌<◌, ◌≤◌, ◌++◌, ◌∷◌, ◌&&◌, [], true, false};
ghost use Rattle.std.specs.Prelude.{if◌then◌else◌, nat_le, nat_lt};
ghost use Rattle.std.specs.Vec.{vec_len, vec_capacity};
ghost use Rattle.std.specs.VecDeque.{deque_len, deque_capacity};
ghost use Rattle.rcu_cblist.specs.SegList.{IsAtMost, Of, Unmarked, after_accelerate, after_advance};
ghost use Rattle.rcu_cblist.specs.SegList.{after_entrain, after_migrate, after_renumber};
ghost use Rattle.rcu_cblist.specs.SegList.{after_take, as_it_leaves, greatest, is_empty};
ghost use Rattle.rcu_cblist.specs.SegList.{markers_passed, numbers, on_items, segments};
ghost use Rattle.rcu_cblist.specs.SegList.{take_answer};
ghost use Rattle.rcu_cblist.specs.Cuts.{AreTails};

use crate::items::{Entry, Queued};
use crate::tail::Tail;
use crate::walks::{join_marked, take_first};
use std::alloc::Global;
use std::collections::VecDeque;

/// Items in order, cut by three tail places into four segments (Linux's `rcu_segcblist`):
///
/// ```text
/// [ DONE | WAIT | NEXT_READY | NEXT ]
///        done  wait        ready
/// ```
///
/// The callbacks in DONE are done, those in WAIT and those in NEXT_READY wait for a number each,
/// and those in NEXT have no number yet. NEXT_READY has items only if WAIT has, and then WAIT's
/// number is the lower one. A marker belongs to the segment of the callback before it.
#[derive(Drop)]
pub(crate) struct Segments<T: Drop> {
    /// The items.
    pub(crate) items: VecDeque<Entry<T>>,
    /// The end of DONE.
    pub(crate) done: Tail,
    /// The end of WAIT.
    pub(crate) wait: Tail,
    /// The end of NEXT_READY.
    pub(crate) ready: Tail,
    /// The number of callbacks.
    pub(crate) calls: u64,
    /// WAIT's number, meaningless if WAIT is empty.
    pub(crate) wait_number: u64,
    /// NEXT_READY's number, meaningless if NEXT_READY is empty.
    pub(crate) ready_number: u64,
    ghost cut: { AreTails items.items done wait ready calls wait_number ready_number },
}

impl<T: Drop> Segments<T> {
    ghost use Rattle.rcu_cblist.specs.Segments.{listed, seen};

    /// Returns segments without items.
    pub(crate) fn new(alloc: Global) -> Segments<T>
        ensures items { seen result ≡ [] }
    {
        Segments {
            items: VecDeque::new(alloc),
            done: Tail::START,
            wait: Tail::START,
            ready: Tail::START,
            calls: 0,
            wait_number: 0,
            ready_number: 0,
        }
    }

    /// Returns whether WAIT has items, and a number at most this one.
    fn wait_is_reached(&self, number: u64) -> bool
        ensures { result ≡ (nat_lt self.now.done.items self.now.wait.items
            && nat_le self.now.wait_number number) }
    {
        self.done.items < self.wait.items && self.wait_number <= number
    }

    /// Returns whether NEXT_READY has items, and a number at most this one.
    fn ready_is_reached(&self, number: u64) -> bool
        ensures { result ≡ (nat_lt self.now.wait.items self.now.ready.items
            && nat_le self.now.ready_number number) }
    {
        self.wait.items < self.ready.items && self.ready_number <= number
    }

    /// Returns whether WAIT has items, and a number below this one.
    fn wait_is_below(&self, snap: u64) -> bool
        ensures { result ≡ (nat_lt self.now.done.items self.now.wait.items
            && nat_lt self.now.wait_number snap) }
    {
        self.done.items < self.wait.items && self.wait_number < snap
    }

    /// Returns whether NEXT_READY has items, and a number below this one.
    fn ready_is_below(&self, snap: u64) -> bool
        ensures { result ≡ (nat_lt self.now.wait.items self.now.ready.items
            && nat_lt self.now.ready_number snap) }
    {
        self.wait.items < self.ready.items && self.ready_number < snap
    }

    /// Puts a callback at the end of NEXT.
    pub(crate) fn push(&mut self, call: Queued<T>)
        requires { deque_len self.old.items < deque_capacity self.old.items }
        ensures { listed self.new
            ≡ on_items (λ xs. xs ++ Of call Unmarked ∷ []) (listed self.old) }
    {
        self.items.push_back_reserved(Entry::Call(call));
        self.calls += 1;
    }

    /// Puts a marker at the end of the last segment that has items.
    pub(crate) fn push_marker(&mut self)
        requires some { is_empty (seen self.old) ≡ false }
        requires room { deque_len self.old.items < deque_capacity self.old.items }
        ensures { listed self.new ≡ on_items after_entrain (listed self.old) }
    {
        let end = self.items.len();
        self.items.push_back_reserved(Entry::Marker);
        self.done.pass_marker(end);
        self.wait.pass_marker(end);
        self.ready.pass_marker(end);
    }

    /// Moves WAIT into DONE if its number is at most this one, and then NEXT_READY likewise. A
    /// segment that stays moves forward.
    pub(crate) fn advance(&mut self, number: u64)
        ensures { listed self.new ≡ on_items (λ xs. after_advance xs number) (listed self.old) }
    {
        if !self.wait_is_reached(number) {
            return;
        }
        if self.ready_is_reached(number) {
            self.done = self.ready;
            self.wait = self.ready;
        } else {
            self.done = self.wait;
            self.wait = self.ready;
            self.wait_number = self.ready_number;
        }
    }

    /// Gives a number to the items in NEXT: they join NEXT_READY, or WAIT if that changes no
    /// number. Changes nothing if NEXT_READY has items and a number below this one.
    pub(crate) fn accelerate(&mut self, snap: u64)
        requires { IsAtMost snap (seen self.old) }
        ensures { listed self.new ≡ on_items (λ xs. after_accelerate xs snap) (listed self.old) }
    {
        if self.ready_is_below(snap) {
            return;
        }
        let end = Tail {
            items: self.items.len(),
            calls: self.calls,
        };
        if self.wait_is_below(snap) {
            self.ready = end;
            self.ready_number = snap;
        } else {
            self.wait = end;
            self.ready = end;
            self.wait_number = snap;
        }
    }

    /// Takes the first `most` callbacks of DONE, and each marker before the first callback that is
    /// left. Returns how many markers it took.
    pub(crate) fn take(&mut self, calls: &mut Vec<Queued<T>>, most: u64) -> u64
        requires room { vec_len calls.old + most ≤ vec_capacity calls.old }
        requires done { most ≤ self.old.done.calls }
        ensures calls { calls.new.items ≡ calls.old.items ++ take_answer (seen self.old) most }
        ensures markers { result ≡ markers_passed (seen self.old) most }
        ensures state { listed self.new ≡ on_items (λ xs. after_take xs most) (listed self.old) }
    {
        let markers = take_first(&mut self.items, calls, most);
        let gone = Tail {
            items: (most + markers) as usize,
            calls: most,
        };
        self.done.fall(gone);
        self.wait.fall(gone);
        self.ready.fall(gone);
        self.calls -= most;
        markers
    }

    /// Drops the numbers of waiting callbacks: all items behind DONE move to NEXT.
    pub(crate) fn lose_numbers(&mut self)
        ensures items { self.new.items ≡ self.old.items }
        ensures next { self.new.ready ≡ self.old.done }
        ensures calls { self.new.calls ≡ self.old.calls }
        ensures state { listed self.new ≡ on_items after_renumber (listed self.old) }
    {
        self.wait = self.done;
        self.ready = self.done;
    }

    /// Moves all items to a target: DONE goes in front of the target's DONE, and the rest, without
    /// numbers, to the end of its NEXT. If `marked`, a marker goes behind the items that move.
    pub(crate) fn carry_into(&mut self, target: &mut Segments<T>, marked: bool)
        requires some { marked ≡ true → is_empty (seen self.old) ≡ false }
        requires room { deque_len target.old.items + deque_len self.old.items
            + (if marked then 1 else 0) ≤ deque_capacity target.old.items }
        ensures state { listed self.new ≡ on_items (λ _. []) (listed self.old) }
        ensures target { seen target.new
            ≡ after_migrate (seen target.old) (as_it_leaves (seen self.old) marked) }
        ensures room { (listed target.old).room ≤ (listed target.new).room }
    {
        self.lose_numbers();
        // Without numbers WAIT and NEXT_READY are empty: `ready` is the end of DONE.
        let Tail { items, calls } = self.ready;
        let front = Tail {
            items: join_marked(&mut target.items, &mut self.items, items, marked),
            calls,
        };
        target.done.rise(front);
        target.wait.rise(front);
        target.ready.rise(front);
        target.calls += self.calls;
        self.done = Tail::START;
        self.wait = Tail::START;
        self.ready = Tail::START;
        self.calls = 0;
    }

    /// Returns the greatest number that a segment with items waits for, none if there is no such
    /// segment.
    pub(crate) fn greatest_waiting(&self) -> Option<u64>
        ensures { result ≡ greatest (numbers (seen self.now)) }
    {
        if self.wait.items < self.ready.items {
            Some(self.ready_number)
        } else if self.done.items < self.wait.items {
            Some(self.wait_number)
        } else {
            None
        }
    }

    /// Returns how many items each segment has.
    pub(crate) fn lengths(&self) -> [u64; 4]
        ensures { result ≡ segments (seen self.now) }
    {
        [
            self.done.items as u64,
            (self.wait.items - self.done.items) as u64,
            (self.ready.items - self.wait.items) as u64,
            (self.items.len() - self.ready.items) as u64,
        ]
    }
}
