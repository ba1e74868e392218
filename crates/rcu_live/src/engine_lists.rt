//! The callbacks of an engine, and the barrier over them.
ghost use Rattle.std.specs.Prelude.{◌≡◌, ◌≢◌, ◌<◌, ◌≤◌, ◌^◌, IfErr, IfOk, IfSome, OnErr, OnOk};
ghost use Rattle.std.specs.Prelude.{[], false, length, slice_get, true};
ghost use Rattle.std.specs.Result.{result_err};
ghost use Rattle.rcu_live.specs.Engine.{HasWaited, cpu_refusal};
ghost use Rattle.rcu_seq.specs.Seq.{number_of};
ghost use Rattle.rcu_node.specs.CpuSet.{is_in};
ghost use Rattle.rcu_cblist.specs.SegList.{begins_with_marker, behind, callbacks, front};
ghost use Rattle.rcu_cblist.specs.SegList.{take_answer};
ghost use Rattle.rcu_barrier.specs.Lists.{barrier_begin_refusal, barrier_test_answer};
ghost use Rattle.rcu_barrier.specs.Lists.{barrier_test_refusal, list_of, visit_answer};
ghost use Rattle.rcu_live.specs.EngineLists.{AreDue, queue_refusal, visit_refusal};
ghost use Rattle.rcu_live.specs.Runs.{Call, Makes};
ghost use Rattle.rcu_seq.specs.Memory.{tested_fault};

use crate::client::Client;
use crate::engine::Engine;
use rcu_barrier::{BarrierState, Visit};
use rcu_cblist::{Queued, Refused};
use rcu_node::Awaited;
use rcu_seq::Fault;

/// The callbacks that a run hands out.
#[derive(Debug, Drop)]
pub struct Ran<T: Drop> {
    /// The number at the run.
    pub number: u64,
    /// The callbacks, in the order in which they were queued.
    pub calls: Vec<Queued<T>>,
}

impl<A: Awaited, T: Drop, P: Client> Engine<A, T, P> {
    /// Queues a callback on a processor, at the current number. Returns how many callbacks were
    /// queued, with this one.
    ///
    /// Faults, with the value: `Offline` (2) if the processor is not online in the engine;
    /// `CallbacksFull` (15) if as many were queued as the opening allows; `NoMemory` (16).
    pub fn queue(&mut self, cpu: u32, value: T) -> Result<u64, Refused<T>>
        requires { cpu < self.old.cpus }
        ensures count { IfOk result (λ count. count ≡ self.new.grace.lists.queued) }
        ensures bounded { IfOk result (λ count. count ≤ 2 ^ 62) }
        ensures online { OnOk result (is_in self.old.grace.processors.online cpu ≡ true) }
        ensures room { OnOk result (self.old.grace.lists.queued < self.old.grace.lists.most) }
        ensures made { OnOk result (Makes (Call.Queue cpu value) self.old self.new) }
        ensures fault { IfErr result (λ refused. refused.fault ≡ queue_refusal self.old cpu) }
        ensures value { IfErr result (λ refused. refused.value ≡ value) }
        ensures unchanged { OnErr result (self.new ≡ self.old) }
    {
        if !self.gp.online(cpu) {
            return Err(Refused {
                fault: Fault::Offline,
                value,
            });
        }
        self.gp.queue(cpu, value)
    }

    /// Advances and accelerates a processor's callbacks to the current number. Returns how many
    /// callbacks of the list are done and how many wait.
    ///
    /// Fault `BadCpu` (1): the processor does not exist.
    pub fn tend(&mut self, cpu: u32) -> Result<(u64, u64), Fault>
        ensures fault { result_err result ≡ cpu_refusal self.old cpu }
        ensures made { OnOk result (Makes (Call.Tend cpu) self.old self.new) }
        ensures done { IfOk result (λ tended.
            tended.0 ≡ length (callbacks (front (list_of self.new.grace.lists cpu)))) }
        ensures waiting { IfOk result (λ tended.
            tended.1 ≡ length (callbacks (behind (list_of self.new.grace.lists cpu)))) }
        ensures unchanged { OnErr result (self.new ≡ self.old) }
    {
        if cpu >= self.cpus() {
            return Err(Fault::BadCpu);
        }
        Ok(self.gp.tend(cpu))
    }

    /// Hands out the first callbacks of a processor's done part, at most `max`, with the number:
    /// only callbacks for which a full grace period has passed since they were queued.
    ///
    /// Faults: `BadCpu` (1); `NoMemory` (16), only if there is a callback to hand out.
    pub fn run(&mut self, cpu: u32, max: u64) -> Result<Ran<T>, Fault>
        ensures fault { tested_fault result ≡ cpu_refusal self.old cpu }
        ensures number { IfOk result (λ ran. ran.number ≡ number_of self.old.grace.seq) }
        ensures calls { IfOk result (λ ran.
            ran.calls.items ≡ take_answer (list_of self.old.grace.lists cpu) max) }
        ensures made { OnOk result (Makes (Call.Run cpu max) self.old self.new) }
        ensures due { IfOk result (λ ran. AreDue ran.number max ran.calls.items) }
        ensures memory { OnErr result (cpu < self.old.cpus →
            take_answer (list_of self.old.grace.lists cpu) max ≢ []) }
        ensures unchanged { OnErr result (self.new ≡ self.old) }
    {
        if cpu >= self.cpus() {
            return Err(Fault::BadCpu);
        }
        let number = self.gp.value();
        let calls = self.gp.run(cpu, max)?;
        Ok(Ran { number, calls })
    }

    /// Returns how many callbacks the processor's done part has. A list never begins with a marker.
    pub fn done_count(&self, cpu: u32) -> u64
        requires { cpu < self.now.cpus }
        ensures count { result ≡ length (callbacks (front (list_of self.now.grace.lists cpu))) }
        ensures first { begins_with_marker (list_of self.now.grace.lists cpu) ≡ false }
    {
        self.gp.done_count(cpu)
    }

    /// Hands out the first callback of a processor's done part, as [`Engine::run`] with `max` 1
    /// does: only one for which a full grace period has passed since it was queued. Needs no
    /// memory.
    pub fn pop_done(&mut self, cpu: u32) -> Option<Queued<T>>
        requires { cpu < self.old.cpus }
        ensures call { result ≡ slice_get (take_answer (list_of self.old.grace.lists cpu) 1) 0 }
        ensures made { Makes (Call.Run cpu 1) self.old self.new }
        ensures waited { IfSome result (λ call.
            HasWaited (number_of self.old.grace.seq) call.at) }
    {
        self.gp.pop_done(cpu)
    }

    /// Begins a barrier.
    ///
    /// Fault `BarrierBusy` (13): one runs.
    pub fn barrier_begin(&mut self) -> Result<(), Fault>
        ensures fault { result_err result ≡ barrier_begin_refusal self.old.grace.lists }
        ensures made { OnOk result (Makes Call.BarrierBegin self.old self.new) }
        ensures unchanged { OnErr result (self.new ≡ self.old) }
    {
        self.gp.barrier_begin()
    }

    /// Lets the barrier visit a processor.
    ///
    /// Faults: `BadCpu` (1); `NoBarrier` (14) if none runs; `NoMemory` (16), only if it would
    /// entrain a marker.
    pub fn visit(&mut self, cpu: u32) -> Result<Visit, Fault>
        ensures fault { tested_fault result ≡ visit_refusal self.old cpu }
        ensures answer { IfOk result (λ visit. visit ≡ visit_answer self.old.grace.lists cpu) }
        ensures made { OnOk result (Makes (Call.Visit cpu) self.old self.new) }
        ensures memory { IfErr result (λ fault. fault ≡ Fault.NoMemory →
            visit_answer self.old.grace.lists cpu ≡ Visit.Marked) }
        ensures unchanged { OnErr result (self.new ≡ self.old) }
    {
        if cpu >= self.cpus() {
            return Err(Fault::BadCpu);
        }
        self.gp.visit(cpu)
    }

    /// Returns whether the barrier is done.
    ///
    /// Fault `NoBarrier` (14): none runs.
    pub fn barrier_test(&mut self) -> Result<BarrierState, Fault>
        ensures answer { IfOk result (λ found.
            found ≡ barrier_test_answer self.old.grace.lists) }
        ensures fault { result_err result ≡ barrier_test_refusal self.old.grace.lists }
        ensures made { OnOk result (Makes Call.BarrierTest self.old self.new) }
        ensures unchanged { OnErr result (self.new ≡ self.old) }
    {
        self.gp.barrier_test()
    }

    /// Frees the memory that a processor's list does not need, as
    /// [`GpState::shrink`](rcu_state::gp_state::GpState::shrink) does. Returns for how many items,
    /// callbacks and markers, the list then has room. An empty list keeps none. Costs a step for
    /// each item.
    ///
    /// Fault `BadCpu` (1): the processor does not exist.
    pub fn shrink(&mut self, cpu: u32) -> Result<u64, Fault>
        ensures fault { result_err result ≡ cpu_refusal self.old cpu }
        ensures fits { IfOk result (λ room. length (list_of self.old.grace.lists cpu) ≤ room) }
        ensures empty { IfOk result (λ room. list_of self.old.grace.lists cpu ≡ [] → room ≡ 0) }
        ensures unchanged { self.new ≡ self.old }
    {
        if cpu >= self.cpus() {
            return Err(Fault::BadCpu);
        }
        self.gp.shrink(cpu);
        Ok(self.gp.lists().room(cpu))
    }
}
