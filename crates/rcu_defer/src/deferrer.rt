//! A thread's deferred values with the watcher by which it tends them: no call here waits or takes
//! a lock.
ghost use Rattle.std.specs.Prelude.{◌≡◌, ◌<◌, ◌≤◌, ℕ, All, IfErr, IfOk, IsOk, None, OnErr, OnOk};
ghost use Rattle.std.specs.Prelude.{length, slice_get, slice_index};
ghost use Rattle.std.specs.Option.{option_map};
ghost use Rattle.rcu_live.specs.Rule.{IsKept};
ghost use Rattle.rcu_live.specs.Watcher.{WatchedAt, after_watch};
ghost use Rattle.rcu_defer.specs.DeferList.{defer_fault, list_after_defer, list_after_take};
ghost use Rattle.rcu_defer.specs.DeferList.{list_after_tend, list_at_first, taken_values};
ghost use Rattle.rcu_defer.specs.DeferList.{with_room};
ghost use Rattle.rcu_defer.specs.Histories.{Call};
ghost use Rattle.rcu_defer.specs.Marks.{defer_refusal, last_number};
ghost use Rattle.rcu_defer.specs.Moments.{IsMoment, Moment};

use crate::defer_list::DeferList;
use rcu_cblist::Refused;
use rcu_live::{Client, NoClient, Shared, Watcher};
use rcu_seq::Cookie;
use std::alloc::Global;
use std::marker::Model;

/// The values that one thread deferred, and its watcher (Linux's `call_rcu` on the processor's own
/// list). A value is done once each section that was open when it was deferred has ended.
///
/// It belongs to no processor: if the thread's processor departs, the values stay, and any thread
/// that has the deferrer can continue with them.
#[derive(Drop)]
pub struct Deferrer<T: Drop, P: Client = NoClient> {
    list: DeferList<T>,
    watcher: Watcher<P>,
}

impl<T: Drop, P: Client> Model for Deferrer<T, P> {
    ghost use Rattle.std.specs.Prelude.{◌≤◌};
    ghost use Rattle.rcu_defer.specs.Deferrer.{DeferringBy};

    ghost Value = { DeferringBy T P.Known };

    ghost view = { λ d. record { list = d.list; watcher = d.watcher } };

    ghost invariant = { λ d. d.list.marks.seen ≤ d.watcher.view.seen };
}

impl<T: Drop, P: Client> Deferrer<T, P> {
    /// Returns an empty deferrer with this watcher. It needs no memory.
    pub fn new(alloc: Global, watcher: Watcher<P>) -> Deferrer<T, P>
        ensures list { result.list ≡ list_at_first }
        ensures watcher { result.watcher ≡ watcher }
    {
        Deferrer {
            list: DeferList::new(alloc),
            watcher,
        }
    }

    /// Defers a value, as [`DeferList::defer`] does, without a load or a store of a shared word.
    ///
    /// Faults, with the value: `CallbacksFull` (15) if there were 2^62; `NoMemory` (16), only if
    /// the list has no room for it and an allocation failed.
    pub fn defer(&mut self, value: T) -> Result<(), Refused<T>>
        ensures state { OnOk result
            (self.new.list ≡ with_room (list_after_defer self.old.list value) self.new.list.room) }
        ensures watcher { self.new.watcher ≡ self.old.watcher }
        ensures fault { IfErr result (λ refused. refused.fault ≡ defer_fault self.old.list) }
        ensures handed_back { IfErr result (λ refused. refused.value ≡ value) }
        ensures few { OnOk result (defer_refusal self.old.list.marks ≡ None) }
        ensures succeeds { defer_refusal self.old.list.marks ≡ None →
            length self.old.list.values < self.old.list.room → IsOk result }
        ensures unchanged { OnErr result
            (self.new.list ≡ with_room self.old.list self.new.list.room) }
        ensures room { self.old.list.room ≤ self.new.list.room }
    {
        self.list.defer(value)
    }

    /// Tends the values, as [`DeferList::tend`] does, by one load of the number, which it returns.
    /// No later load is below it. The tend is at the number of the moment of that load.
    pub fn tend<L: Shared<P>>(&mut self, live: &L) -> u64
        requires { self.old.watcher.table ≡ (L.object live.now).table }
        ensures look { WatchedAt self.old.watcher result self.new.watcher }
        ensures state { self.new.list ≡ list_after_tend self.old.list result }
        ensures moment { (plan : P.Plan) (cpus : ℕ) (m : Moment P.Known T) →
            IsKept (P.holds plan) cpus m.state → m.call ≡ Call.Tend result →
            self.new.watcher ≡ after_watch self.old.watcher (slice_index m.state.words 0) →
            IsMoment (P.holds plan) cpus m }
        ensures none_left { All (λ until. result < until) self.new.list.marks.waiting }
        ensures later { self.old.list.marks.seen ≤ result }
    {
        let number = self.watcher.number(live);
        self.list.tend(number);
        number
    }

    /// Takes out the first value, if it is done, as [`DeferList::take`] does.
    pub fn take(&mut self) -> Option<T>
        ensures value { result ≡ slice_get (taken_values self.old.list 1) 0 }
        ensures state { self.new.list ≡ list_after_take self.old.list 1 }
        ensures watcher { self.new.watcher ≡ self.old.watcher }
    {
        self.list.take()
    }

    /// Returns the cookie at which all values deferred before the last tend are done, none if none
    /// of them waits. A driver that drives the engine for this cookie, as by
    /// [`Live::drive_for`](rcu_live::Live), drives for all of them.
    pub fn cookie(&self) -> Option<Cookie>
        ensures { result ≡ option_map (λ last. record { epoch = 0; number = last })
            (last_number self.now.list.marks.waiting) }
    {
        match self.list.last_until() {
            Some(number) => Some(Cookie { epoch: 0, number }),
            None => None,
        }
    }

    /// Returns the values that were deferred and not yet taken out.
    pub fn list(&self) -> &DeferList<T>
        ensures { result.now ≡ self.now.list }
    {
        &self.list
    }
}
