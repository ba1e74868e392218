//! The calls that take the engine's lock. The engine's own calls say what each does: no clause here
//! can name the engine that a lock was found to hold.
ghost use Rattle.std.specs.Prelude.{◌≡◌, Err, IfErr, None, OnErr, OnOk, Some, true};
ghost use Rattle.std.specs.Result.{result_err};
ghost use Rattle.rcu_seq.specs.declared.fault.Fault.{Fault};
ghost use Rattle.rcu_live.specs.CpuSeat.{NotedAt, after_depart, after_quiesce, arrive_refusal};
ghost use Rattle.rcu_live.specs.CpuSeat.{depart_refusal, reported};
ghost use Rattle.rcu_live.specs.EngineLists.{is_leave_fault};

use crate::client::Client;
use crate::cpu_seat::CpuSeat;
use crate::grace_periods::Collected;
use crate::live::Live;
use rcu_node::Awaited;
use rcu_seq::Fault;
use rcu_state::Turned;
use std::sync::Wait;

impl<const LEAF: u32, const FAN: u32, T: Drop, P: Client> Live<LEAF, FAN, T, P> {
    /// Collects a quiescent state of the processor, as [`Engine::collect`](crate::engine::Engine)
    /// does.
    ///
    /// Fault `BadCpu` (1): the processor does not exist.
    pub fn collect(&self, rt: &impl Wait, cpu: u32) -> Result<Collected, Fault>
        ensures { IfErr result (λ fault. fault ≡ Fault.BadCpu) }
    {
        self.engine.lock(rt).collect(cpu)
    }

    /// Ends the running grace period or begins one, as [`Engine::turn`](crate::engine::Engine)
    /// does.
    ///
    /// Fault `Exhausted` (11): a grace period would begin, and the number is the last one.
    pub fn turn(&self, rt: &impl Wait) -> Result<Turned, Fault>
        ensures { IfErr result (λ fault. fault ≡ Fault.Exhausted) }
    {
        self.engine.lock(rt).turn()
    }

    /// Returns whether the running grace period awaits the processor, so that a program can find
    /// the thread that blocks it. Returns false if no grace period runs, or the processor does not
    /// exist.
    pub fn awaits(&self, rt: &impl Wait, cpu: u32) -> bool {
        let engine = self.engine.lock(rt);
        cpu < engine.cpus() && engine.grace().awaited().awaits(cpu)
    }

    /// Brings the processor online: loads the number, and stores one more than it to the own word;
    /// then, under the lock, does as [`Engine::join`](crate::engine::Engine).
    ///
    /// Fault `AlreadyOnline` (3): the processor is online.
    pub fn online(&self, rt: &impl Wait, seat: &mut CpuSeat<P>) -> Result<(), Fault>
        requires { seat.old.table ≡ self.now.table }
        ensures table { seat.new.table ≡ seat.old.table }
        ensures fault { result_err result ≡ arrive_refusal seat.old }
        ensures state { OnOk result (NotedAt after_quiesce seat.old seat.new.view.seen seat.new) }
        ensures unchanged { OnErr result (seat.new ≡ seat.old) }
    {
        seat.arrive(self)?;
        let cpu = seat.cpu();
        let mut engine = self.engine.lock(rt);
        // A seat's processor is always one of the engine's, but no clause can say so across the
        // lock.
        if cpu < engine.cpus() {
            engine.join(cpu);
        }
        Ok(())
    }

    /// Takes the processor offline: stores 0 to its own word, even if it is 0 already; then, under
    /// the lock, does as [`Engine::leave`](crate::engine::Engine). Returns how many callbacks moved
    /// to processor 0's list. After fault 16 the same call again finishes that.
    ///
    /// Faults: `BootStays` (12) for processor 0; `InSection` (4) if a section is open; `Offline`
    /// (2) if it was offline and its list is empty; `NoMemory` (16): then it is offline. It would
    /// pass on `AlreadyOnline` (3) from under the lock, but that never occurs.
    pub fn offline(&self, rt: &impl Wait, seat: &mut CpuSeat<P>) -> Result<u64, Fault>
        requires { seat.old.table ≡ self.now.table }
        ensures table { seat.new.table ≡ seat.old.table }
        ensures fault { (fault : Fault) → depart_refusal seat.old ≡ Some fault →
            result ≡ Err fault }
        ensures unchanged { (fault : Fault) → depart_refusal seat.old ≡ Some fault →
            seat.new ≡ seat.old }
        ensures stored { depart_refusal seat.old ≡ None →
            seat.new ≡ reported true (after_depart seat.old) }
        ensures leave_fault { IfErr result (λ fault. depart_refusal seat.old ≡ None →
            is_leave_fault fault ≡ true) }
        ensures again { IfErr result (λ fault. depart_refusal seat.old ≡ None →
            fault ≡ Fault.Offline → seat.old.view.own_word ≡ 0) }
    {
        let again = seat.depart(self)?;
        let cpu = seat.cpu();
        let mut engine = self.engine.lock(rt);
        // A seat's processor is always one of the engine's, but no clause can say so across the
        // lock.
        if cpu < engine.cpus() {
            return engine.leave(cpu, again);
        }
        Ok(0)
    }
}
