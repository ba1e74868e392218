//! The numbers that one thread's deferrals wait for, apart from the deferred values.
ghost use Rattle.std.specs.Prelude.{◌≡◌, ◌==◌, ◌<◌, ◌≤◌, ◌^◌, All, IfSome, OnErr, OnOk, min};
ghost use Rattle.std.specs.Result.{result_err};
ghost use Rattle.rcu_defer.specs.Marks.{after_advance, after_defer, after_mark, after_take};
ghost use Rattle.rcu_defer.specs.Marks.{after_tend, at_first, count_of, defer_refusal, last_number};
ghost use Rattle.rcu_defer.specs.Marks.{deferred_of, most_deferred, ready_of};

use rcu_seq::Fault;
use rcu_seq::cookie::snapshot;
use std::marker::Model;

/// The most deferrals.
const MOST_DEFERRED: u64 = 1 << 62;

/// Deferrals in a row that wait for one number.
#[derive(Clone, Copy, Debug)]
pub(crate) struct Batch {
    /// The number that they wait for, meaningless if the batch is empty.
    pub(crate) until: u64,
    /// The number of deferrals in the batch.
    pub(crate) count: u64,
}

impl Batch {
    /// An empty batch.
    pub(crate) const NONE: Batch = Batch { until: 0, count: 0 };
}

/// The numbers that one thread's deferrals wait for, in order (the marks of Linux's
/// `rcu_segcblist`): those that are done, those that wait for a number, and those that came since
/// the last tend. The deferred values are kept elsewhere, in the same order, so no call here needs
/// memory.
///
/// At any number, waiting deferrals wait for at most two numbers: the one at which the running
/// grace period ends, and the one at which the next one ends. So two batches suffice.
#[derive(Debug, Drop)]
pub struct Marks {
    /// How many were taken out.
    taken: u64,
    /// How many are done, with those that were taken out.
    done: u64,
    /// Those behind them, which wait.
    first: Batch,
    /// Those behind these, which wait for a greater number.
    second: Batch,
    /// The number of deferrals so far.
    deferred: u64,
    /// The number of the last tend.
    seen: u64,
}

impl Model for Marks {
    ghost use Rattle.rcu_defer.specs.Marks.{AreBatches, Marking, shown};

    ghost Value = { Marking };

    ghost view = { λ m. shown m.taken m.done m.first m.second m.deferred m.seen };

    ghost invariant = { λ m. AreBatches m.taken m.done m.first m.second m.deferred m.seen };
}

impl Marks {
    /// Returns the marks of no deferral.
    pub fn new() -> Marks
        ensures { result ≡ at_first }
    {
        Marks {
            taken: 0,
            done: 0,
            first: Batch::NONE,
            second: Batch::NONE,
            deferred: 0,
            seen: 0,
        }
    }

    /// Counts one more deferral, behind all others.
    ///
    /// Fault `CallbacksFull` (15) if 2^62 were made.
    pub fn defer(&mut self) -> Result<(), Fault>
        ensures fault { result_err result ≡ defer_refusal self.old }
        ensures state { OnOk result (self.new ≡ after_defer self.old) }
        ensures unchanged { OnErr result (self.new ≡ self.old) }
    {
        if self.is_full() {
            return Err(Fault::CallbacksFull);
        }
        self.deferred += 1;
        Ok(())
    }

    /// Tends at a number, which is at least that of the last tend and at most 2^62: makes the
    /// deferrals done whose number is reached, and lets those that came since the last tend wait
    /// for its snapshot. Costs a few steps, however many they are.
    pub fn tend(&mut self, number: u64)
        requires later { self.old.seen ≤ number }
        requires bounded { number ≤ 2 ^ 62 }
        ensures state { self.new ≡ after_tend self.old number }
        ensures none_left { All (λ until. number < until) self.new.waiting }
    {
        self.advance(number);
        self.mark();
    }

    /// Makes the deferrals done whose number is reached (Linux's `rcu_segcblist_advance`).
    fn advance(&mut self, number: u64)
        requires later { self.old.seen ≤ number }
        ensures state { self.new ≡ after_advance self.old number }
        ensures none_left { All (λ until. number < until) self.new.waiting }
    {
        self.seen = number;
        if self.first.count == 0 || self.first.until > number {
            return;
        }
        self.done += self.first.count;
        self.first = self.second;
        self.second = Batch::NONE;
        if self.first.until > number {
            return;
        }
        self.done += self.first.count;
        self.first = Batch::NONE;
    }

    /// Lets the deferrals that came since the last tend wait for the snapshot of its number
    /// (Linux's `rcu_segcblist_accelerate`).
    fn mark(&mut self)
        requires { self.old.seen ≤ 2 ^ 62 }
        ensures { self.new ≡ after_mark self.old }
    {
        let fresh = self.deferred - self.done - self.first.count - self.second.count;
        if fresh == 0 {
            return;
        }
        let until = snapshot(self.seen);
        if self.first.count == 0 {
            self.first = Batch {
                until,
                count: fresh,
            };
        } else if self.first.until == until {
            self.first.count += fresh;
        } else {
            self.second = Batch {
                until,
                count: self.second.count + fresh,
            };
        }
    }

    /// Takes out the first deferrals that are done, at most this many, and returns how many.
    pub fn take(&mut self, most: u64) -> u64
        ensures count { result ≡ min most (ready_of self.old) }
        ensures state { self.new ≡ after_take self.old most }
    {
        let count = most.min(self.done - self.taken);
        self.taken += count;
        count
    }

    /// Returns whether the limit of deferrals is reached.
    pub fn is_full(&self) -> bool
        ensures { result ≡ (deferred_of self.now == most_deferred) }
    {
        self.deferred == MOST_DEFERRED
    }

    /// Returns how many were not taken out yet.
    pub fn count(&self) -> u64
        ensures value { result ≡ count_of self.now }
        ensures few { result ≤ 2 ^ 62 }
    {
        self.deferred - self.taken
    }

    /// Returns how many are done, and were not taken out yet.
    pub fn ready(&self) -> u64
        ensures { result ≡ ready_of self.now }
    {
        self.done - self.taken
    }

    /// Returns the number of the last tend, 0 before any.
    pub fn seen(&self) -> u64
        ensures { result ≡ self.now.seen }
    {
        self.seen
    }

    /// Returns the greatest number that a deferral waits for, none if none waits. Once it is
    /// reached, a tend makes all deferrals done that came before the last tend.
    pub fn last_until(&self) -> Option<u64>
        ensures last { result ≡ last_number self.now.waiting }
        ensures each { IfSome result (λ last. All (λ until. until ≤ last) self.now.waiting) }
    {
        if self.second.count > 0 {
            Some(self.second.until)
        } else if self.first.count > 0 {
            Some(self.first.until)
        } else {
            None
        }
    }
}
