//! Callbacks that are taken one at a time, without memory.
ghost use Rattle.std.specs.Prelude.{◌≡◌, ◌<◌, ◌∷◌, [], IsNone, Some, length, take, true};
ghost use Rattle.rcu_cblist.specs.SegList.{after_take, begins_with_callback, callbacks};
ghost use Rattle.rcu_cblist.specs.SegList.{on_items, pop_answer};
ghost use Rattle.rcu_cblist.specs.Entries.{unmarked};
ghost use Rattle.rcu_cblist.specs.Segments.{listed, seen};
ghost use Rattle.rcu_cblist.specs.Walks.{IsLeft};

use crate::items::{Entry, Queued};
use crate::seg_list::SegList;
use crate::segments::Segments;
use crate::tail::Tail;
use std::collections::VecDeque;

impl<T: Drop> SegList<T> {
    /// Takes the first callback of the done part, and each marker before the next one (Linux's
    /// `rcu_cblist_dequeue`). Returns the callback and the number of markers. Costs a step for
    /// each, and no memory.
    pub fn pop_done(&mut self) -> Option<(Queued<T>, u64)>
        ensures answer { result ≡ pop_answer self.old.items }
        ensures state { self.new ≡ on_items (λ xs. after_take xs 1) self.old }
        ensures unchanged { IsNone result → self.new ≡ self.old }
    {
        if self.done_count() == 0 {
            return None;
        }
        Some(self.segments.pop())
    }
}

impl<T: Drop> Segments<T> {
    /// Takes the first callback of DONE, and each marker before the next one. Returns the callback
    /// and the number of markers.
    fn pop(&mut self) -> (Queued<T>, u64)
        requires { 0 < self.old.done.calls }
        ensures answer { Some result ≡ pop_answer (seen self.old) }
        ensures state { listed self.new ≡ on_items (λ xs. after_take xs 1) (listed self.old) }
    {
        let (call, markers) = pop_first(&mut self.items);
        let gone = Tail {
            items: 1 + markers as usize,
            calls: 1,
        };
        self.done.fall(gone);
        self.wait.fall(gone);
        self.ready.fall(gone);
        self.calls -= 1;
        (call, markers)
    }
}

/// Takes the first callback, and each marker before the next one. Returns the callback and the
/// number of markers.
fn pop_first<T: Drop>(items: &mut VecDeque<Entry<T>>) -> (Queued<T>, u64)
    requires { begins_with_callback (unmarked items.old.items) ≡ true }
    ensures call { result.0 ∷ [] ≡ take 1 (callbacks (unmarked items.old.items)) }
    ensures left { IsLeft items.old 1 result.1 items.new }
{
    match items.pop_front() {
        Some(Entry::Call(call)) => (call, drop_markers(items)),
        Some(Entry::Marker) | None => unreachable!(),
    }
}

/// Drops each marker before the first callback. Returns how many.
#[tactic(auto, using(crate::proofs::Lists::map_split, crate::proofs::Lists::gone_more))]
fn drop_markers<T: Drop>(items: &mut VecDeque<Entry<T>>) -> u64
    ensures { IsLeft items.old 0 result items.new }
{
    let mut markers = 0;
    loop {
        match items.front() {
            Some(Entry::Marker) => {}
            _ => return markers,
        }
        let Some(_) = items.pop_front() else {
            unreachable!()
        };
        markers += 1;
    }
}
