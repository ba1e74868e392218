//! All processors' lists of callbacks, and the barrier over them.
ghost use Rattle.std.specs.Prelude.{◌≡◌, ◌+◌, ◌<◌, ◌≤◌, ◌^◌, ◌%◌, true, false, Some};
ghost use Rattle.std.specs.Prelude.{IfOk, IfErr, OnOk, OnErr, length, slice_get};
ghost use Rattle.std.specs.Result.{result_err};
ghost use Rattle.rcu_seq.specs.Numbers.{snapshot};
ghost use Rattle.rcu_cblist.specs.SegList.{IsAtMost, begins_with_marker, callbacks, front};
ghost use Rattle.rcu_cblist.specs.Refused.{HandsBack};
ghost use Rattle.rcu_cblist.specs.SegList.{greatest, is_empty, numbers, take_answer};
ghost use Rattle.rcu_barrier.specs.Tending.{tend_answer};
ghost use Rattle.rcu_barrier.specs.Lists.{Grows, IsNext, IsSound, Shrinks, at_first};
ghost use Rattle.rcu_barrier.specs.Lists.{barrier_begin_refusal, barrier_test_answer};
ghost use Rattle.rcu_barrier.specs.Lists.{barrier_test_refusal, cpus_of, is_visited, list_of};
ghost use Rattle.rcu_barrier.specs.Lists.{lists_after_barrier_begin, lists_after_barrier_test};
ghost use Rattle.rcu_barrier.specs.Lists.{lists_after_migrate, lists_after_queue};
ghost use Rattle.rcu_barrier.specs.Lists.{lists_after_renumber, lists_after_run, lists_after_tend};
ghost use Rattle.rcu_barrier.specs.Lists.{lists_after_visit, migrate_refusal, most_queued, on_all};
ghost use Rattle.rcu_barrier.specs.Lists.{owes_visit, queue_refusal, room_of, run_refusal};
ghost use Rattle.rcu_barrier.specs.Lists.{visit_answer, visit_refusal};

use crate::moving::{empty_lists, move_to_first, renumber_each};
use crate::visits::Visits;
use rcu_cblist::{Queued, Refused, SegList, Taken};
use rcu_seq::cookie::snapshot;
use rcu_seq::{Fault, Tag};
use std::alloc::Global;
use std::marker::Model;

/// How many callbacks may be queued, unless an opening sets another limit.
pub const MOST_QUEUED: u64 = 1_000_000;

/// The result of a visit to a processor.
#[derive(Clone, Copy, Debug, PartialEq, Eq)]
pub enum Visit {
    /// The barrier put a marker behind the processor's list.
    Marked,
    /// The processor's list was empty.
    Empty,
    /// The barrier had visited the processor already.
    Already,
}

/// The result of a test of a barrier.
#[derive(Clone, Copy, Debug, PartialEq, Eq)]
pub enum BarrierState {
    /// No marker is left, and each processor was visited: the barrier is done.
    Done,
    /// The number of markers and unvisited processors that are left, from 1 to the number of
    /// processors.
    Waits(u64),
}

/// A list of callbacks for each processor, and a barrier over them (Linux's `rcu_barrier`, without
/// waiting).
///
/// Contracts see the lists, which processors the barrier visited, whether a barrier runs, how many
/// callbacks were queued, and how many may be; and also for how many items each list has room. A
/// refused call leaves everything but the room as it was, and a call that finds room allocates
/// nothing. A list keeps the most room that it ever had, until [`Lists::shrink`]. Each call
/// requires `cpu < cpus`.
#[derive(Drop)]
pub struct Lists<T: Drop> {
    /// The list of each processor.
    lists: Vec<SegList<T>>,
    /// Which processors the barrier visited.
    visits: Visits,
    /// True if a barrier runs.
    running: bool,
    /// How many callbacks were queued.
    queued: u64,
    /// How many may be queued.
    most: u64,
    /// How many markers the lists have.
    markers: u64,
}

impl<T: Drop> Model for Lists<T> {
    ghost use Rattle.std.specs.Prelude.{◌≡◌};
    ghost use Rattle.rcu_barrier.specs.Lists.{IsSound, ListsWithRooms, items_in, markers_in};
    ghost use Rattle.rcu_barrier.specs.Lists.{rooms_in};

    ghost Value = { ListsWithRooms T };

    ghost view = { λ s. record {
      all = record {
        lists = items_in s.lists.items;
        visited = s.visits;
        running = s.running;
        queued = s.queued;
        most = s.most;
      };
      rooms = rooms_in s.lists.items;
    } };

    ghost invariant = { λ s. (s.markers ≡ markers_in (items_in s.lists.items)) × IsSound (record {
      lists = items_in s.lists.items;
      visited = s.visits;
      running = s.running;
      queued = s.queued;
      most = s.most;
    }) };
}

impl<T: Drop> Lists<T> {
    /// Returns empty lists of `cpus` processors, from 1 to 4,096. No barrier runs, and 1,000,000
    /// callbacks may be queued. Costs a step for each processor.
    ///
    /// Fault: `NoMemory` (16).
    pub fn new(alloc: Global, cpus: u32) -> Result<Self, Fault>
        requires { (1 ≤ cpus) × (cpus ≤ 4096) }
        ensures fault { IfErr result (λ fault. fault ≡ Fault.NoMemory) }
        ensures state { IfOk result (λ lists. lists.all ≡ at_first cpus most_queued) }
    {
        Lists::with_most(alloc, cpus, MOST_QUEUED)
    }

    /// Returns empty lists, as [`Lists::new`] does, but allows `most` callbacks to be queued, from
    /// 1 to 2^62.
    ///
    /// Fault: `NoMemory` (16).
    pub fn with_most(alloc: Global, cpus: u32, most: u64) -> Result<Self, Fault>
        requires cpus { (1 ≤ cpus) × (cpus ≤ 4096) }
        requires most { (1 ≤ most) × (most ≤ 2 ^ 62) }
        ensures fault { IfErr result (λ fault. fault ≡ Fault.NoMemory) }
        ensures state { IfOk result (λ lists. lists.all ≡ at_first cpus most) }
    {
        let lists = empty_lists(alloc, cpus)?;
        let visits = Visits::new(alloc, cpus)?;
        Ok(Lists {
            lists,
            visits,
            running: false,
            queued: 0,
            most,
            markers: 0,
        })
    }

    /// Queues a callback on a processor at a tag. Returns how many callbacks were queued so far,
    /// which is its place among them. Costs the same as [`SegList::queue`].
    ///
    /// Faults, with the value: `CallbacksFull` (15) if as many were queued as the opening allows;
    /// `NoMemory` (16), only if the list has no room for it.
    pub fn queue(&mut self, cpu: u32, at: Tag, value: T) -> Result<u64, Refused<T>>
        requires { cpu < cpus_of self.old.all }
        ensures fault { IfErr result (HandsBack (queue_refusal self.old cpu) value) }
        ensures count { IfOk result (λ count. IsNext self.old.all count) }
        ensures state { OnOk result (self.new.all ≡ lists_after_queue self.old.all cpu at value) }
        ensures unchanged { OnErr result (self.new.all ≡ self.old.all) }
        ensures room { Grows self.old cpu self.new }
    {
        if self.queued == self.most {
            return Err(Refused {
                fault: Fault::CallbacksFull,
                value,
            });
        }
        let ord = self.queued + 1;
        let list = &mut self.lists[cpu as usize];
        match list.queue(Queued { ord, at, value }) {
            Ok(()) => {}
            Err(refused) => {
                let Refused { fault, value } = refused;
                let Queued { value, .. } = value;
                return Err(Refused { fault, value });
            }
        }
        self.queued = ord;
        Ok(ord)
    }

    /// Advances and accelerates a processor's callbacks: makes each callback done whose number is
    /// at most this one, and gives the number's snapshot to each that has no number (Linux's
    /// `rcu_advance_cbs`). Returns how many callbacks are done and how many wait. The number is
    /// `4k` or `4k + 1` and at most 2^62; no callback carries one above its snapshot.
    pub fn tend(&mut self, cpu: u32, number: u64) -> (u64, u64)
        requires cpu { cpu < cpus_of self.old.all }
        requires number { (number % 4 ≤ 1) × (number ≤ 2 ^ 62) }
        requires within { IsAtMost (snapshot number) (list_of self.old.all cpu) }
        ensures state { self.new ≡ on_all (λ all. lists_after_tend all cpu number) self.old }
        ensures answer { result ≡ tend_answer (list_of self.old.all cpu) number }
    {
        let list = &mut self.lists[cpu as usize];
        list.advance(number);
        list.accelerate(snapshot(number));
        (list.done_count(), list.waiting_count())
    }

    /// Takes the number from each waiting callback, in all lists, for a renumbering. Done callbacks
    /// and markers stay, and a barrier goes on. Costs a step for each processor.
    pub fn renumber(&mut self)
        ensures { self.new ≡ on_all lists_after_renumber self.old }
    {
        renumber_each(self.lists.as_mut_slice());
    }

    /// Takes the first callbacks of a processor's done part, at most `max` (Linux's
    /// `rcu_do_batch`), and drops the markers before the first callback that is left. Costs a step
    /// for each callback and marker.
    ///
    /// Fault `NoMemory` (16), only if there is a callback to hand out.
    pub fn run(&mut self, cpu: u32, max: u64) -> Result<Vec<Queued<T>>, Fault>
        requires { cpu < cpus_of self.old.all }
        ensures fault { IfErr result (λ fault. run_refusal self.old.all cpu max ≡ Some fault) }
        ensures calls { IfOk result (λ calls. calls.items
            ≡ take_answer (list_of self.old.all cpu) max) }
        ensures state { OnOk result
            (self.new ≡ on_all (λ all. lists_after_run all cpu max) self.old) }
        ensures unchanged { OnErr result (self.new ≡ self.old) }
    {
        let list = &mut self.lists[cpu as usize];
        let Taken { calls, markers } = list.take_done(max)?;
        self.markers -= markers;
        Ok(calls)
    }

    /// Returns how many callbacks the processor's done part has. A list never begins with a marker.
    pub fn done_count(&self, cpu: u32) -> u64
        requires { cpu < cpus_of self.now.all }
        ensures count { result ≡ length (callbacks (front (list_of self.now.all cpu))) }
        ensures first { begins_with_marker (list_of self.now.all cpu) ≡ false }
    {
        self.lists[cpu as usize].done_count()
    }

    /// Takes the first callback of a processor's done part, as [`Lists::run`] with `max` 1 does, at
    /// the same cost, but without memory.
    pub fn pop_done(&mut self, cpu: u32) -> Option<Queued<T>>
        requires { cpu < cpus_of self.old.all }
        ensures call { result ≡ slice_get (take_answer (list_of self.old.all cpu) 1) 0 }
        ensures state { self.new ≡ on_all (λ all. lists_after_run all cpu 1) self.old }
    {
        let (call, passed) = self.lists[cpu as usize].pop_done()?;
        self.markers -= passed;
        Some(call)
    }

    /// Moves the list of a processor other than 0 to processor 0's (Linux's
    /// `rcutree_migrate_callbacks`). Returns how many callbacks moved. If a barrier runs that did
    /// not visit the processor, it visits it first. Costs the same as [`SegList::migrate_into`].
    ///
    /// Fault `NoMemory` (16), only if the list is not empty, and processor 0's has no room for it.
    pub fn migrate(&mut self, cpu: u32) -> Result<u64, Fault>
        requires { (0 < cpu) × (cpu < cpus_of self.old.all) }
        ensures fault { IfErr result (λ fault. migrate_refusal self.old cpu ≡ Some fault) }
        ensures moved { IfOk result (λ moved. moved
            ≡ length (callbacks (list_of self.old.all cpu))) }
        ensures state { OnOk result (self.new.all ≡ lists_after_migrate self.old.all cpu) }
        ensures unchanged { OnErr result (self.new.all ≡ self.old.all) }
        ensures room { Grows self.old 0 self.new }
    {
        let owed = self.owes_visit(cpu);
        let (moved, marked) = move_to_first(self.lists.as_mut_slice(), cpu as usize, owed)?;
        if owed {
            self.visits.insert(cpu);
        }
        self.markers += u64::from(marked);
        Ok(moved)
    }

    /// Returns whether a barrier runs that did not visit the processor.
    fn owes_visit(&self, cpu: u32) -> bool
        requires { cpu < cpus_of self.now.all }
        ensures { result ≡ owes_visit self.now.all cpu }
    {
        self.running && !self.visits.contains(cpu)
    }

    /// Begins a barrier: each processor is unvisited, online or not. Costs a step for every 64
    /// processors.
    ///
    /// Fault `BarrierBusy` (13): one runs.
    pub fn barrier_begin(&mut self) -> Result<(), Fault>
        ensures fault { result_err result ≡ barrier_begin_refusal self.old.all }
        ensures state { OnOk result (self.new ≡ on_all lists_after_barrier_begin self.old) }
        ensures unchanged { OnErr result (self.new ≡ self.old) }
    {
        if self.running {
            return Err(Fault::BarrierBusy);
        }
        self.visits.clear();
        self.running = true;
        Ok(())
    }

    /// Lets the barrier visit a processor. If it is unvisited and its list is not empty, the
    /// barrier puts a marker behind its list. Costs the same as [`SegList::entrain`].
    ///
    /// Faults: `NoBarrier` (14) if none runs; `NoMemory` (16), only if it would put a marker for
    /// which the list has no room.
    pub fn visit(&mut self, cpu: u32) -> Result<Visit, Fault>
        requires { cpu < cpus_of self.old.all }
        ensures fault { IfErr result (λ fault. visit_refusal self.old cpu ≡ Some fault) }
        ensures running { OnOk result (self.old.all.running ≡ true) }
        ensures answer { IfOk result (λ visit. visit ≡ visit_answer self.old.all cpu) }
        ensures state { OnOk result (self.new.all ≡ lists_after_visit self.old.all cpu) }
        ensures unchanged { OnErr result (self.new.all ≡ self.old.all) }
        ensures room { Grows self.old cpu self.new }
    {
        if !self.running {
            return Err(Fault::NoBarrier);
        }
        if self.visits.contains(cpu) {
            return Ok(Visit::Already);
        }
        let list = &mut self.lists[cpu as usize];
        let marked = list.entrain()?;
        self.visits.insert(cpu);
        if !marked {
            return Ok(Visit::Empty);
        }
        self.markers += 1;
        Ok(Visit::Marked)
    }

    /// Tests whether the barrier is done: no marker is left, and no processor is unvisited. If so,
    /// it ends the barrier. It walks over no list.
    ///
    /// Fault `NoBarrier` (14): none runs.
    pub fn barrier_test(&mut self) -> Result<BarrierState, Fault>
        ensures fault { result_err result ≡ barrier_test_refusal self.old.all }
        ensures answer { IfOk result (λ state. state ≡ barrier_test_answer self.old.all) }
        ensures state { OnOk result (self.new ≡ on_all lists_after_barrier_test self.old) }
        ensures unchanged { OnErr result (self.new ≡ self.old) }
    {
        if !self.running {
            return Err(Fault::NoBarrier);
        }
        let left = self.markers + self.visits.left();
        if left > 0 {
            return Ok(BarrierState::Waits(left));
        }
        self.running = false;
        Ok(BarrierState::Done)
    }

    /// Returns the number of processors, from 1 to 4,096.
    pub fn cpus(&self) -> u32
        ensures value { result ≡ cpus_of self.now.all }
        ensures kept { IsSound self.now.all }
    {
        self.lists.len() as u32
    }

    /// Returns how many callbacks were queued, at most as many as the opening allows.
    pub fn queued(&self) -> u64
        ensures value { result ≡ self.now.all.queued }
        ensures few { result ≤ self.now.all.most }
    {
        self.queued
    }

    /// Returns how many callbacks may be queued since the opening, from 1 to 2^62.
    pub fn most(&self) -> u64
        ensures value { result ≡ self.now.all.most }
        ensures range { (1 ≤ result) × (result ≤ 2 ^ 62) }
    {
        self.most
    }

    /// Frees the memory that a processor's list does not need, as [`SegList::shrink`] does, at the
    /// same cost.
    pub fn shrink(&mut self, cpu: u32)
        requires { cpu < cpus_of self.old.all }
        ensures state { self.new.all ≡ self.old.all }
        ensures room { Shrinks self.old cpu self.new }
    {
        let list = &mut self.lists[cpu as usize];
        list.shrink();
    }

    /// Returns for how many items a processor's list has room before it grows: never fewer than it
    /// has.
    pub fn room(&self, cpu: u32) -> u64
        requires { cpu < cpus_of self.now.all }
        ensures value { result ≡ room_of self.now cpu }
        ensures fits { length (list_of self.now.all cpu) ≤ result }
    {
        self.lists[cpu as usize].room()
    }

    /// Returns whether a barrier runs.
    pub fn is_running(&self) -> bool
        ensures { result ≡ self.now.all.running }
    {
        self.running
    }

    /// Returns whether the barrier visited the processor.
    pub fn is_visited(&self, cpu: u32) -> bool
        requires { cpu < cpus_of self.now.all }
        ensures { result ≡ is_visited self.now.all cpu }
    {
        self.visits.contains(cpu)
    }

    /// Returns whether the processor's list is empty.
    pub fn is_empty(&self, cpu: u32) -> bool
        requires { cpu < cpus_of self.now.all }
        ensures { result ≡ is_empty (list_of self.now.all cpu) }
    {
        self.lists[cpu as usize].is_empty()
    }

    /// Returns the greatest number that a waiting callback of the processor carries, none if no
    /// callback carries one.
    pub fn greatest_waiting(&self, cpu: u32) -> Option<u64>
        requires { cpu < cpus_of self.now.all }
        ensures { result ≡ greatest (numbers (list_of self.now.all cpu)) }
    {
        self.lists[cpu as usize].greatest_waiting()
    }
}
