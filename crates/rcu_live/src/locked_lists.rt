//! The calls that take the engine's lock for its callbacks.
ghost use Rattle.std.specs.Prelude.{◌≡◌, ◌<◌, ◌≤◌, ◌^◌, IfErr, IfOk, true};
ghost use Rattle.rcu_live.specs.EngineLists.{AreDue, is_queue_fault, is_run_fault};
ghost use Rattle.rcu_live.specs.EngineLists.{is_visit_fault};

use crate::client::Client;
use crate::cpu_seat::CpuSeat;
use crate::engine_lists::Ran;
use crate::live::Live;
use rcu_barrier::{BarrierState, Visit};
use rcu_cblist::Refused;
use rcu_seq::Fault;
use std::sync::Wait;

impl<const LEAF: u32, const FAN: u32, T: Drop, P: Client> Live<LEAF, FAN, T, P> {
    /// Queues a callback on the processor, as [`Engine::queue`](crate::engine::Engine) does. Over
    /// the engine's life at most as many are queued as its opening allows.
    ///
    /// Faults, with the value: `Offline` (2) if the processor is not online under the lock;
    /// `CallbacksFull` (15); `NoMemory` (16).
    pub fn queue(&self, rt: &impl Wait, seat: &mut CpuSeat<P>, value: T) -> Result<u64, Refused<T>>
        requires { seat.old.table ≡ self.now.table }
        ensures seat { seat.new ≡ seat.old }
        ensures any { IfOk result (λ count. 0 < count) }
        ensures bounded { IfOk result (λ count. count ≤ 2 ^ 62) }
        ensures fault { IfErr result (λ refused. is_queue_fault refused.fault ≡ true) }
        ensures value { IfErr result (λ refused. refused.value ≡ value) }
    {
        let cpu = seat.cpu();
        let mut engine = self.engine.lock(rt);
        // A seat's processor is one of the engine's, which no clause can say across the lock.
        if cpu < engine.cpus() {
            return engine.queue(cpu, value);
        }
        Err(Refused {
            fault: Fault::Offline,
            value,
        })
    }

    /// Advances and accelerates a processor's callbacks to the current number, as
    /// [`Engine::tend`](crate::engine::Engine) does.
    ///
    /// Fault `BadCpu` (1): the processor does not exist.
    pub fn tend(&self, rt: &impl Wait, cpu: u32) -> Result<(u64, u64), Fault>
        ensures { IfErr result (λ fault. fault ≡ Fault.BadCpu) }
    {
        self.engine.lock(rt).tend(cpu)
    }

    /// Hands out done callbacks of a processor, at most `max`, as
    /// [`Engine::run`](crate::engine::Engine) does: only callbacks for which a full grace period
    /// has passed since they were queued.
    ///
    /// Faults: `BadCpu` (1); `NoMemory` (16).
    pub fn run(&self, rt: &impl Wait, cpu: u32, max: u64) -> Result<Ran<T>, Fault>
        ensures due { IfOk result (λ ran. AreDue ran.number max ran.calls.items) }
        ensures fault { IfErr result (λ fault. is_run_fault fault ≡ true) }
    {
        self.engine.lock(rt).run(cpu, max)
    }

    /// Begins a barrier, as [`Engine::barrier_begin`](crate::engine::Engine) does.
    ///
    /// Fault `BarrierBusy` (13): one runs.
    pub fn barrier_begin(&self, rt: &impl Wait) -> Result<(), Fault>
        ensures { IfErr result (λ fault. fault ≡ Fault.BarrierBusy) }
    {
        self.engine.lock(rt).barrier_begin()
    }

    /// Lets the barrier visit a processor, as [`Engine::visit`](crate::engine::Engine) does.
    ///
    /// Faults: `BadCpu` (1); `NoBarrier` (14) if no barrier runs; `NoMemory` (16).
    pub fn visit(&self, rt: &impl Wait, cpu: u32) -> Result<Visit, Fault>
        ensures { IfErr result (λ fault. is_visit_fault fault ≡ true) }
    {
        self.engine.lock(rt).visit(cpu)
    }

    /// Returns whether the barrier is done, as [`Engine::barrier_test`](crate::engine::Engine)
    /// does.
    ///
    /// Fault `NoBarrier` (14): none runs.
    pub fn barrier_test(&self, rt: &impl Wait) -> Result<BarrierState, Fault>
        ensures { IfErr result (λ fault. fault ≡ Fault.NoBarrier) }
    {
        self.engine.lock(rt).barrier_test()
    }

    /// Frees the memory that a processor's list does not need, and returns for how many items it
    /// then has room, as [`Engine::shrink`](crate::engine::Engine) does.
    ///
    /// Fault `BadCpu` (1): the processor does not exist.
    pub fn shrink(&self, rt: &impl Wait, cpu: u32) -> Result<u64, Fault>
        ensures { IfErr result (λ fault. fault ≡ Fault.BadCpu) }
    {
        self.engine.lock(rt).shrink(cpu)
    }
}
