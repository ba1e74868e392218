//! One thread's list of deferred values.
ghost use Rattle.std.specs.Prelude.{◌≡◌, ◌<◌, ◌≤◌, ◌^◌, All, IfErr, IfSome, IsOk, None, OnErr};
ghost use Rattle.std.specs.Prelude.{OnOk, length, slice_get};
ghost use Rattle.rcu_defer.specs.DeferList.{defer_fault, list_after_defer, list_after_take};
ghost use Rattle.rcu_defer.specs.DeferList.{list_after_tend, list_at_first, taken_values};
ghost use Rattle.rcu_defer.specs.DeferList.{with_room};
ghost use Rattle.rcu_defer.specs.Marks.{defer_refusal, last_number, ready_of};

use crate::marks::Marks;
use rcu_cblist::Refused;
use rcu_seq::Fault;
use std::alloc::Global;
use std::collections::VecDeque;
use std::marker::Model;

/// One thread's deferred values, the oldest first, with their [`Marks`]. It keeps the most room
/// that it ever had, until [`DeferList::shrink`].
#[derive(Drop)]
pub struct DeferList<T: Drop> {
    /// The values that were not taken out yet.
    values: VecDeque<T>,
    /// The numbers that they wait for.
    marks: Marks,
}

impl<T: Drop> Model for DeferList<T> {
    ghost use Rattle.std.specs.Prelude.{◌≡◌, ◌+◌, length};
    ghost use Rattle.std.specs.VecDeque.{deque_capacity};
    ghost use Rattle.rcu_defer.specs.DeferList.{Deferring};
    ghost use Rattle.rcu_defer.specs.Marks.{deferred_of};

    ghost Value = { Deferring T };

    ghost view = { λ d. record {
      values = d.values.items;
      marks = d.marks;
      room = deque_capacity d.values;
    } };

    ghost invariant = { λ d. length d.values.items + d.marks.taken ≡ deferred_of d.marks };
}

impl<T: Drop> DeferList<T> {
    /// Returns an empty list, which takes no memory yet.
    pub fn new(alloc: Global) -> DeferList<T>
        ensures { result ≡ list_at_first }
    {
        let Ok(values) = VecDeque::with_capacity(alloc, 0) else {
            unreachable!()
        };
        DeferList {
            values,
            marks: Marks::new(),
        }
    }

    /// Defers a value, behind all others. Costs a step, and one for each value if the list grows.
    ///
    /// Faults, with the value: `CallbacksFull` (15) if there were 2^62; `NoMemory` (16), only if
    /// the list has no room for it and an allocation failed.
    pub fn defer(&mut self, value: T) -> Result<(), Refused<T>>
        ensures state { OnOk result
            (self.new ≡ with_room (list_after_defer self.old value) self.new.room) }
        ensures fault { IfErr result (λ refused. refused.fault ≡ defer_fault self.old) }
        ensures handed_back { IfErr result (λ refused. refused.value ≡ value) }
        ensures few { OnOk result (defer_refusal self.old.marks ≡ None) }
        ensures succeeds { defer_refusal self.old.marks ≡ None →
            length self.old.values < self.old.room → IsOk result }
        ensures unchanged { OnErr result (self.new ≡ with_room self.old self.new.room) }
        ensures room { self.old.room ≤ self.new.room }
    {
        if self.marks.is_full() {
            return Err(Refused {
                fault: Fault::CallbacksFull,
                value,
            });
        }
        if let Err(failed) = self.values.push_back(value) {
            return Err(Refused {
                fault: Fault::NoMemory,
                value: failed.value,
            });
        }
        let Ok(()) = self.marks.defer() else {
            unreachable!()
        };
        Ok(())
    }

    /// Tends the list at a number, as [`Marks::tend`] does.
    pub fn tend(&mut self, number: u64)
        requires later { self.old.marks.seen ≤ number }
        requires bounded { number ≤ 2 ^ 62 }
        ensures state { self.new ≡ list_after_tend self.old number }
        ensures none_left { All (λ until. number < until) self.new.marks.waiting }
    {
        self.marks.tend(number);
    }

    /// Takes out the first value, if it is done. Costs a step, however long the list is.
    pub fn take(&mut self) -> Option<T>
        ensures value { result ≡ slice_get (taken_values self.old 1) 0 }
        ensures state { self.new ≡ list_after_take self.old 1 }
    {
        if self.marks.take(1) == 0 {
            return None;
        }
        self.values.pop_front()
    }

    /// Returns how many values the list has.
    pub fn count(&self) -> usize
        ensures { result ≡ length self.now.values }
    {
        self.values.len()
    }

    /// Returns how many values are done.
    pub fn ready(&self) -> u64
        ensures value { result ≡ ready_of self.now.marks }
        ensures inside { result ≤ length self.now.values }
    {
        self.marks.ready()
    }

    /// Returns the number of the last tend, 0 before any.
    pub fn seen(&self) -> u64
        ensures { result ≡ self.now.marks.seen }
    {
        self.marks.seen()
    }

    /// Returns the numbers that the values wait for.
    pub fn marks(&self) -> &Marks
        ensures { result.now ≡ self.now.marks }
    {
        &self.marks
    }

    /// Returns the greatest number that a value waits for, as [`Marks::last_until`] does.
    pub fn last_until(&self) -> Option<u64>
        ensures last { result ≡ last_number self.now.marks.waiting }
        ensures each { IfSome result (λ last. All (λ until. until ≤ last) self.now.marks.waiting) }
    {
        self.marks.last_until()
    }

    /// Returns for how many values the list has room before it grows: never fewer than it has.
    pub fn room(&self) -> usize
        ensures value { result ≡ self.now.room }
        ensures fits { length self.now.values ≤ result }
    {
        self.values.capacity()
    }

    /// Frees the memory that its values do not need, as [`VecDeque::shrink_to_fit`] does. It keeps
    /// its memory if the smaller block is refused; an empty list keeps none. Costs a step for each
    /// value.
    pub fn shrink(&mut self)
        ensures values { self.new ≡ with_room self.old self.new.room }
        ensures room { self.new.room ≤ self.old.room }
        ensures empty { length self.old.values ≡ 0 → self.new.room ≡ 0 }
    {
        self.values.shrink_to_fit();
    }
}
