//! The callbacks of the grace-period state, and the barrier over them.
ghost use Rattle.std.specs.Prelude.{◌≡◌, ◌<◌, ◌≤◌, ◌^◌, All, Some, false, length, slice_get, true};
ghost use Rattle.std.specs.Prelude.{IfErr, IfOk, IfSome, OnErr, OnOk};
ghost use Rattle.std.specs.Result.{result_err};
ghost use Rattle.rcu_seq.specs.Seq.{tag_of};
ghost use Rattle.rcu_hotplug.specs.Hotplug.{cpus_of};
ghost use Rattle.rcu_cblist.specs.SegList.{begins_with_marker, behind, callbacks, front, is_empty};
ghost use Rattle.rcu_cblist.specs.SegList.{take_answer};
ghost use Rattle.rcu_barrier.specs.Lists as lists;
ghost use Rattle.rcu_barrier.specs.Lists.{Grows, Shrinks, barrier_begin_refusal};
ghost use Rattle.rcu_barrier.specs.Lists.{barrier_test_answer, barrier_test_refusal, list_of};
ghost use Rattle.rcu_barrier.specs.Lists.{migrate_refusal, queue_refusal, run_refusal};
ghost use Rattle.rcu_barrier.specs.Lists.{visit_answer, visit_refusal};
ghost use Rattle.rcu_state.specs.GpState as grace;
ghost use Rattle.rcu_state.specs.GpState.{lists_of, on_grace};

use crate::gp_state::GpState;
use rcu_barrier::{BarrierState, Lists, Visit};
use rcu_cblist::{Queued, Refused};
use rcu_node::Awaited;
use rcu_seq::Fault;

impl<A: Awaited, T: Drop> GpState<A, T> {
    /// Queues a callback on a processor, at the current number (Linux's `call_rcu`). Returns how
    /// many callbacks were queued so far, which is its place among them. Costs the same as
    /// [`Lists::queue`].
    ///
    /// Faults, with the value: `CallbacksFull` (15) if as many were queued as the opening allows;
    /// `NoMemory` (16).
    pub fn queue(&mut self, cpu: u32, value: T) -> Result<u64, Refused<T>>
        requires { cpu < cpus_of self.old.grace.processors }
        ensures fault { IfErr result (λ refused.
            queue_refusal (lists_of self.old) cpu ≡ Some refused.fault) }
        ensures value { IfErr result (λ refused. refused.value ≡ value) }
        ensures few { OnOk result (self.old.grace.lists.queued < self.old.grace.lists.most) }
        ensures count { IfOk result (λ count. count ≡ self.new.grace.lists.queued) }
        ensures bounded { IfOk result (λ count. count ≤ 2 ^ 62) }
        ensures state { OnOk result (self.new.grace ≡ grace.after_queue self.old.grace cpu value) }
        ensures unchanged { OnErr result (self.new.grace ≡ self.old.grace) }
        ensures room { Grows (lists_of self.old) cpu (lists_of self.new) }
    {
        let now = self.seq.tag();
        self.lists.queue(cpu, now, value)
    }

    /// The callbacks, read-only: one list a processor.
    pub fn lists(&self) -> &Lists<T>
        ensures value { result.now ≡ lists_of self.now }
        ensures sized { lists.cpus_of result.now.all ≡ cpus_of self.now.grace.processors }
    {
        &self.lists
    }

    /// Frees the memory that a processor's list does not need, as [`Lists::shrink`] does, at the
    /// same cost.
    pub fn shrink(&mut self, cpu: u32)
        requires { cpu < cpus_of self.old.grace.processors }
        ensures state { self.new.grace ≡ self.old.grace }
        ensures room { Shrinks (lists_of self.old) cpu (lists_of self.new) }
    {
        self.lists.shrink(cpu);
    }

    /// Returns whether the processor's list is empty.
    pub fn is_list_empty(&self, cpu: u32) -> bool
        requires { cpu < cpus_of self.now.grace.processors }
        ensures { result ≡ is_empty (list_of self.now.grace.lists cpu) }
    {
        self.lists.is_empty(cpu)
    }

    /// Advances and accelerates a processor's callbacks to the current number (Linux's
    /// `rcu_advance_cbs`). The greatest number that they then wait for is needed from now on.
    /// Returns how many callbacks of the list are done, and how many wait.
    pub fn tend(&mut self, cpu: u32) -> (u64, u64)
        requires { cpu < cpus_of self.old.grace.processors }
        ensures state { self.new ≡ on_grace (λ g. grace.after_tend g cpu) self.old }
        ensures done { result.0 ≡ length (callbacks (front (list_of self.new.grace.lists cpu))) }
        ensures waiting { result.1
            ≡ length (callbacks (behind (list_of self.new.grace.lists cpu))) }
    {
        let tended = self.lists.tend(cpu, self.seq.value());
        if let Some(greatest) = self.lists.greatest_waiting(cpu) {
            self.needed = self.needed.max(greatest);
        }
        tended
    }

    /// Hands out the first callbacks of a processor's done part, at most `max` (Linux's
    /// `rcu_do_batch`): only callbacks for which a full grace period has passed since they were
    /// queued. Costs the same as [`Lists::run`].
    ///
    /// Fault `NoMemory` (16), only if there is a callback to hand out.
    pub fn run(&mut self, cpu: u32, max: u64) -> Result<Vec<Queued<T>>, Fault>
        requires { cpu < cpus_of self.old.grace.processors }
        ensures fault { IfErr result (λ fault.
            run_refusal self.old.grace.lists cpu max ≡ Some fault) }
        ensures calls { IfOk result (λ calls.
            calls.items ≡ take_answer (list_of self.old.grace.lists cpu) max) }
        ensures state { OnOk result
            (self.new ≡ on_grace (λ g. grace.after_run g cpu max) self.old) }
        ensures waited { IfOk result (λ calls.
            All (λ call. grace.HasWaited (tag_of self.old.grace.seq) call.at) calls.items) }
        ensures unchanged { OnErr result (self.new ≡ self.old) }
    {
        self.lists.run(cpu, max)
    }

    /// Returns how many callbacks the processor's done part has, as [`Lists::done_count`].
    pub fn done_count(&self, cpu: u32) -> u64
        requires { cpu < cpus_of self.now.grace.processors }
        ensures count { result ≡ length (callbacks (front (list_of self.now.grace.lists cpu))) }
        ensures first { begins_with_marker (list_of self.now.grace.lists cpu) ≡ false }
    {
        self.lists.done_count(cpu)
    }

    /// Hands out the first callback of a processor's done part, as [`GpState::run`] with `max` 1.
    /// Costs the same as [`Lists::pop_done`].
    pub fn pop_done(&mut self, cpu: u32) -> Option<Queued<T>>
        requires { cpu < cpus_of self.old.grace.processors }
        ensures call { result ≡ slice_get (take_answer (list_of self.old.grace.lists cpu) 1) 0 }
        ensures state { self.new ≡ on_grace (λ g. grace.after_run g cpu 1) self.old }
        ensures waited { IfSome result (λ call.
            grace.HasWaited (tag_of self.old.grace.seq) call.at) }
    {
        self.lists.pop_done(cpu)
    }

    /// Moves the list of a processor other than 0 to processor 0's (Linux's
    /// `rcutree_migrate_callbacks`). A barrier that did not visit the processor does so first.
    /// Returns how many callbacks moved. Costs the same as [`Lists::migrate`].
    ///
    /// Fault `NoMemory` (16), only if the list is not empty.
    pub fn migrate(&mut self, cpu: u32) -> Result<u64, Fault>
        requires other { 0 < cpu }
        requires cpu { cpu < cpus_of self.old.grace.processors }
        ensures fault { IfErr result (λ fault.
            migrate_refusal (lists_of self.old) cpu ≡ Some fault) }
        ensures moved { IfOk result (λ moved.
            moved ≡ length (callbacks (list_of self.old.grace.lists cpu))) }
        ensures state { OnOk result (self.new.grace ≡ grace.after_migrate self.old.grace cpu) }
        ensures unchanged { OnErr result (self.new.grace ≡ self.old.grace) }
        ensures room { Grows (lists_of self.old) 0 (lists_of self.new) }
    {
        self.lists.migrate(cpu)
    }

    /// Begins a barrier (Linux's `rcu_barrier`). Costs a step for every 64 processors.
    ///
    /// Fault `BarrierBusy` (13): one runs.
    pub fn barrier_begin(&mut self) -> Result<(), Fault>
        ensures fault { result_err result ≡ barrier_begin_refusal self.old.grace.lists }
        ensures state { OnOk result (self.new ≡ on_grace grace.after_barrier_begin self.old) }
        ensures unchanged { OnErr result (self.new ≡ self.old) }
    {
        self.lists.barrier_begin()
    }

    /// The barrier visits a processor, as [`Lists::visit`] does, at the same cost.
    ///
    /// Faults: `NoBarrier` (14) if none runs; `NoMemory` (16), only if it would entrain a marker.
    pub fn visit(&mut self, cpu: u32) -> Result<Visit, Fault>
        requires { cpu < cpus_of self.old.grace.processors }
        ensures fault { IfErr result (λ fault.
            visit_refusal (lists_of self.old) cpu ≡ Some fault) }
        ensures running { OnOk result (self.old.grace.lists.running ≡ true) }
        ensures answer { IfOk result (λ visit. visit ≡ visit_answer self.old.grace.lists cpu) }
        ensures state { OnOk result (self.new.grace ≡ grace.after_visit self.old.grace cpu) }
        ensures unchanged { OnErr result (self.new.grace ≡ self.old.grace) }
        ensures room { Grows (lists_of self.old) cpu (lists_of self.new) }
    {
        self.lists.visit(cpu)
    }

    /// Returns whether the barrier is over, as [`Lists::barrier_test`] does.
    ///
    /// Fault `NoBarrier` (14): none runs.
    pub fn barrier_test(&mut self) -> Result<BarrierState, Fault>
        ensures fault { result_err result ≡ barrier_test_refusal self.old.grace.lists }
        ensures answer { IfOk result (λ found.
            found ≡ barrier_test_answer self.old.grace.lists) }
        ensures state { OnOk result (self.new ≡ on_grace grace.after_barrier_test self.old) }
        ensures unchanged { OnErr result (self.new ≡ self.old) }
    {
        self.lists.barrier_test()
    }
}
