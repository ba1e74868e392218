//! One processor's list of callbacks.
ghost use Rattle.std.specs.Prelude.{◌≡◌, ◌+◌, ◌<◌, ◌≤◌, ◌^◌, ◌++◌, ◌∷◌, [], false, not};
ghost use Rattle.std.specs.Prelude.{OnOk, OnErr, IfOk, IfErr, Some, length};
ghost use Rattle.rcu_cblist.specs.Refused.{HandsBack};
ghost use Rattle.rcu_cblist.specs.SegList.{IsAtMost, Of, Unmarked, after_accelerate};
ghost use Rattle.rcu_cblist.specs.SegList.{after_advance, after_entrain, after_migrate};
ghost use Rattle.rcu_cblist.specs.SegList.{after_renumber, after_take};
ghost use Rattle.rcu_cblist.specs.SegList.{as_it_leaves, begins_with_marker, behind, callbacks};
ghost use Rattle.rcu_cblist.specs.SegList.{entrain_refusal, front, greatest, is_empty};
ghost use Rattle.rcu_cblist.specs.SegList.{markers_passed, move_refusal, numbers, on_items};
ghost use Rattle.rcu_cblist.specs.SegList.{queue_refusal, segments, take_answer, take_refusal};

use crate::items::{Queued, Refused, Taken};
use crate::segments::Segments;
use rcu_seq::Fault;
use std::alloc::Global;
use std::marker::Model;

/// One processor's callbacks, in order, each with its mark: none, a grace-period number, or done
/// (Linux's `rcu_segcblist`). Contracts see the list of items, and for how many items it has room.
///
/// The done part is the longest prefix in which every callback is done. No list begins with a
/// marker, so each marker has a callback before it. A call is refused only if an allocation failed,
/// and then leaves its lists as they were. A call that finds room allocates nothing. A list keeps
/// the most room that it ever had, until [`SegList::shrink`].
#[derive(Drop)]
pub struct SegList<T: Drop> {
    /// The items, in four segments.
    pub(crate) segments: Segments<T>,
    /// The allocator of the callbacks that are taken.
    alloc: Global,
}

impl<T: Drop> Model for SegList<T> {
    ghost use Rattle.rcu_cblist.specs.SegList.{Segmented};
    ghost use Rattle.rcu_cblist.specs.Segments.{listed};

    ghost Value = { Segmented T };

    ghost view = { λ s. listed s.segments };
}

impl<T: Drop> SegList<T> {
    /// Returns an empty list, without an allocation.
    pub fn new(alloc: Global) -> SegList<T>
        ensures { result.items ≡ [] }
    {
        SegList {
            segments: Segments::new(alloc),
            alloc,
        }
    }

    /// Queues a callback at the end, without a mark. Costs a step, and one for each item if the
    /// list grows.
    ///
    /// Fault `NoMemory` (16) if the list has no room for it and an allocation failed; the callback
    /// is returned.
    pub fn queue(&mut self, item: Queued<T>) -> Result<(), Refused<Queued<T>>>
        ensures fault { IfErr result (HandsBack (queue_refusal self.old) item) }
        ensures state { OnOk result (self.new.items ≡ self.old.items ++ Of item Unmarked ∷ []) }
        ensures unchanged { OnErr result (self.new.items ≡ self.old.items) }
        ensures room { self.old.room ≤ self.new.room }
    {
        let Ok(()) = self.segments.items.reserve(1) else {
            return Err(Refused {
                fault: Fault::NoMemory,
                value: item,
            });
        };
        self.segments.push(item);
        Ok(())
    }

    /// Makes each callback done whose number is at most this one (Linux's `rcu_segcblist_advance`).
    pub fn advance(&mut self, number: u64)
        ensures { self.new ≡ on_items (λ xs. after_advance xs number) self.old }
    {
        self.segments.advance(number);
    }

    /// Gives a number to each callback without a mark. Changes nothing if callbacks carry two
    /// different numbers below it (Linux's `rcu_segcblist_accelerate`). No callback carries a
    /// number above it.
    pub fn accelerate(&mut self, snap: u64)
        requires { IsAtMost snap self.old.items }
        ensures { self.new ≡ on_items (λ xs. after_accelerate xs snap) self.old }
    {
        self.segments.accelerate(snap);
    }

    /// Takes the number from each waiting callback, for a renumbering. It is then as if just
    /// queued, in the same order. Done callbacks and markers stay. Costs a step.
    pub fn renumber(&mut self)
        ensures { self.new ≡ on_items after_renumber self.old }
    {
        self.segments.lose_numbers();
    }

    /// Takes the first callbacks of the done part, at most `max`, and each marker before the first
    /// callback that is left. Costs a step for each.
    ///
    /// Fault `NoMemory` (16), only if there is a callback to hand out.
    pub fn take_done(&mut self, max: u64) -> Result<Taken<T>, Fault>
        ensures fault { IfErr result (λ fault. take_refusal self.old.items max ≡ Some fault) }
        ensures calls { IfOk result (λ some. some.calls.items ≡ take_answer self.old.items max) }
        ensures markers { IfOk result (λ some. some.markers ≡ markers_passed self.old.items max) }
        ensures state { OnOk result (self.new ≡ on_items (λ xs. after_take xs max) self.old) }
        ensures unchanged { OnErr result (self.new ≡ self.old) }
    {
        let most = self.done_count().min(max);
        let mut calls = Vec::new(self.alloc);
        let Ok(()) = calls.reserve(most as usize) else {
            return Err(Fault::NoMemory);
        };
        let markers = self.segments.take(&mut calls, most);
        Ok(Taken { calls, markers })
    }

    /// Moves all items to a target: the done part goes to the front of the target's list, and the
    /// rest to its end without marks, in the same order. Costs a step for each item that moves, and
    /// one for each item of the target if that grows.
    ///
    /// Fault `NoMemory` (16), only if the list has items and the target has no room for them.
    pub fn migrate_into(&mut self, target: &mut SegList<T>) -> Result<(), Fault>
        ensures fault { IfErr result (λ fault.
            move_refusal self.old false target.old ≡ Some fault) }
        ensures state { OnOk result (self.new ≡ on_items (λ _. []) self.old) }
        ensures target { OnOk result
            (target.new.items ≡ after_migrate target.old.items self.old.items) }
        ensures unchanged { OnErr result
            ((self.new ≡ self.old) × (target.new.items ≡ target.old.items)) }
        ensures room { target.old.room ≤ target.new.room }
    {
        self.move_into(target, false)
    }

    /// Puts a marker at the end of a list that is not empty (Linux's `rcu_segcblist_entrain`).
    /// Returns whether it did. An empty list stays as it is, and needs no memory. Costs the same as
    /// [`SegList::queue`].
    ///
    /// Fault `NoMemory` (16), only if the list is not empty and has no room for the marker.
    pub fn entrain(&mut self) -> Result<bool, Fault>
        ensures fault { IfErr result (λ fault. entrain_refusal self.old ≡ Some fault) }
        ensures answer { IfOk result (λ marked. marked ≡ not (is_empty self.old.items)) }
        ensures state { OnOk result (self.new.items ≡ after_entrain self.old.items) }
        ensures unchanged { OnErr result (self.new.items ≡ self.old.items) }
        ensures room { self.old.room ≤ self.new.room }
    {
        if self.is_empty() {
            return Ok(false);
        }
        let Ok(()) = self.segments.items.reserve(1) else {
            return Err(Fault::NoMemory);
        };
        self.segments.push_marker();
        Ok(true)
    }

    /// Moves all items to a target as [`SegList::migrate_into`] does; if `marked`, and the list is
    /// not empty, it first puts a marker behind the list. The effect is that of `entrain` and then
    /// `migrate_into`, all or nothing: it makes room for both before it changes anything. Costs the
    /// same as `migrate_into`.
    ///
    /// Fault `NoMemory` (16), only if the list has items and the target has no room for them.
    pub fn move_into(&mut self, target: &mut SegList<T>, marked: bool) -> Result<(), Fault>
        ensures fault { IfErr result (λ fault.
            move_refusal self.old marked target.old ≡ Some fault) }
        ensures state { OnOk result (self.new ≡ on_items (λ _. []) self.old) }
        ensures target { OnOk result (target.new.items
            ≡ after_migrate target.old.items (as_it_leaves self.old.items marked)) }
        ensures unchanged { OnErr result
            ((self.new ≡ self.old) × (target.new.items ≡ target.old.items)) }
        ensures room { target.old.room ≤ target.new.room }
    {
        if self.is_empty() {
            return Ok(());
        }
        let more = self.segments.items.len() + usize::from(marked);
        let Ok(()) = target.segments.items.reserve(more) else {
            return Err(Fault::NoMemory);
        };
        self.segments.carry_into(&mut target.segments, marked);
        Ok(())
    }

    /// Frees the memory that its items do not need, as [`VecDeque::shrink_to_fit`] does. It keeps
    /// its memory if the smaller block is refused; an empty list keeps none. Costs a step for each
    /// item.
    pub fn shrink(&mut self)
        ensures state { self.new.items ≡ self.old.items }
        ensures room { self.new.room ≤ self.old.room }
        ensures empty { self.old.items ≡ [] → self.new.room ≡ 0 }
    {
        self.segments.items.shrink_to_fit();
    }

    /// Returns for how many items the list has room before it grows: never fewer than it has.
    pub fn room(&self) -> u64
        ensures value { result ≡ self.now.room }
        ensures fits { length self.now.items ≤ result }
    {
        self.segments.items.capacity() as u64
    }

    /// Returns whether the list has no item. A list never begins with a marker.
    pub fn is_empty(&self) -> bool
        ensures empty { result ≡ is_empty self.now.items }
        ensures first { begins_with_marker self.now.items ≡ false }
    {
        self.segments.items.is_empty()
    }

    /// Returns how many callbacks the list has.
    pub fn count(&self) -> u64
        ensures { result ≡ length (callbacks self.now.items) }
    {
        self.segments.calls
    }

    /// Returns how many callbacks the done part has. A list never begins with a marker.
    pub fn done_count(&self) -> u64
        ensures count { result ≡ length (callbacks (front self.now.items)) }
        ensures first { begins_with_marker self.now.items ≡ false }
    {
        self.segments.done.calls
    }

    /// Returns how many callbacks are behind the done part.
    pub fn waiting_count(&self) -> u64
        ensures { result ≡ length (callbacks (behind self.now.items)) }
    {
        self.segments.calls - self.segments.done.calls
    }

    /// Returns the greatest number that a waiting callback carries, none if no callback carries
    /// one.
    pub fn greatest_waiting(&self) -> Option<u64>
        ensures { result ≡ greatest (numbers self.now.items) }
    {
        self.segments.greatest_waiting()
    }

    /// Returns how many items, with markers, each of Linux's four segments has: DONE, WAIT,
    /// NEXT_READY and NEXT.
    pub fn segments(&self) -> [u64; 4]
        ensures { result ≡ segments self.now.items }
    {
        self.segments.lengths()
    }
}
