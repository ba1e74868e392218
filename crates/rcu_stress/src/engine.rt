//! The engine of the workers, and its answers.
ghost use Rattle.std.specs.Prelude.{◌≡◌, ℕ, IfErr, IfOk, OnErr, OnOk, true};
ghost use Rattle.rcu_live.specs.CpuSeat.{after_depart, after_quiesce, reported};
ghost use Rattle.rcu_live.specs.EngineLists.{AreDue, is_run_fault};
ghost use Rattle.rcu_stress.specs.Engine.{Collecting, Departing, LockedAnswer, Queueing, Running};
ghost use Rattle.rcu_stress.specs.Engine.{Tending, Turning};

use rcu_cblist::Refused;
use rcu_live::{Collected, CpuSeat, Live, NoClient, Ran, Shared};
use rcu_seq::Fault;
use rcu_state::Turned;
use std::sync::Wait;

/// The engine of a run: a callback carries its id.
pub(crate) type Engine = Live<4, 4, u64>;

/// The calls of an engine that take its lock, as workers make them.
///
/// The definitions fix of an answer only its call, and how often the worker's seat had stored by
/// then. So a function that has to return the answer has to make that call, at that place of its
/// round.
pub(crate) trait LockedCalls: Shared<NoClient> + Drop {
    // This answer is possible for a worker whose seat had stored this often.
    ghost answers: { ℕ → LockedAnswer → Type 0 };

    /// Does as [`Live::collect`].
    fn collect<R: Wait>(&self, rt: &R, seat: &CpuSeat, cpu: u32) -> Result<Collected, Fault>
        ensures told { IfOk result (λ found.
            answers seat.now.view.stores (Collecting cpu found)) };

    /// Does as [`Live::turn`].
    fn turn<R: Wait>(&self, rt: &R, seat: &CpuSeat) -> Result<Turned, Fault>
        ensures told { IfOk result (λ turned. answers seat.now.view.stores (Turning turned)) };

    /// Does as [`Live::tend`].
    fn tend<R: Wait>(&self, rt: &R, seat: &CpuSeat, cpu: u32) -> Result<(u64, u64), Fault>
        ensures told { IfOk result (λ counts.
            answers seat.now.view.stores (Tending cpu counts)) };

    /// Does as [`Live::queue`].
    fn queue<R: Wait>(&self, rt: &R, seat: &mut CpuSeat, value: u64) -> Result<u64, Refused<u64>>
        requires { seat.old.table ≡ (Self.object self.now).table }
        ensures seat { seat.new ≡ seat.old }
        ensures told { IfOk result (λ count.
            answers seat.old.view.stores (Queueing seat.old.cpu value count)) };

    /// Does as [`Live::run`].
    fn run<R: Wait>(&self, rt: &R, seat: &CpuSeat, cpu: u32, max: u64) -> Result<Ran<u64>, Fault>
        ensures due { IfOk result (λ ran. AreDue ran.number max ran.calls.items) }
        ensures fault { IfErr result (λ fault. is_run_fault fault ≡ true) }
        ensures told { IfOk result (λ ran.
            answers seat.now.view.stores (Running cpu max ran.number ran.calls.items)) };

    /// Does as [`Live::online`].
    fn online<R: Wait>(&self, rt: &R, seat: &mut CpuSeat) -> Result<(), Fault>
        requires { seat.old.table ≡ (Self.object self.now).table }
        ensures table { seat.new.table ≡ seat.old.table }
        ensures state { OnOk result (seat.new ≡ after_quiesce seat.old seat.new.view.seen) }
        ensures unchanged { OnErr result (seat.new ≡ seat.old) };

    /// Does as [`Live::offline`].
    fn offline<R: Wait>(&self, rt: &R, seat: &mut CpuSeat) -> Result<u64, Fault>
        requires { seat.old.table ≡ (Self.object self.now).table }
        ensures table { seat.new.table ≡ seat.old.table }
        ensures cpu { seat.new.cpu ≡ seat.old.cpu }
        ensures state { OnOk result (seat.new ≡ reported Self.wakes (after_depart seat.old)) }
        ensures told { IfOk result (λ moved.
            answers seat.old.view.stores (Departing moved)) };
}

impl LockedCalls for Engine {
    ghost answers = { λ _ _. Unit {0} };

    fn collect<R: Wait>(&self, rt: &R, _seat: &CpuSeat, cpu: u32) -> Result<Collected, Fault> {
        Live::collect(self, rt, cpu)
    }

    fn turn<R: Wait>(&self, rt: &R, _seat: &CpuSeat) -> Result<Turned, Fault> {
        Live::turn(self, rt)
    }

    fn tend<R: Wait>(&self, rt: &R, _seat: &CpuSeat, cpu: u32) -> Result<(u64, u64), Fault> {
        Live::tend(self, rt, cpu)
    }

    fn queue<R: Wait>(&self, rt: &R, seat: &mut CpuSeat, value: u64) -> Result<u64, Refused<u64>> {
        Live::queue(self, rt, seat, value)
    }

    fn run<R: Wait>(&self, rt: &R, _seat: &CpuSeat, cpu: u32, max: u64) -> Result<Ran<u64>, Fault> {
        Live::run(self, rt, cpu, max)
    }

    fn online<R: Wait>(&self, rt: &R, seat: &mut CpuSeat) -> Result<(), Fault> {
        Live::online(self, rt, seat)
    }

    fn offline<R: Wait>(&self, rt: &R, seat: &mut CpuSeat) -> Result<u64, Fault> {
        Live::offline(self, rt, seat)
    }
}

/// The engine's answers to a worker that moved the grace periods on.
#[derive(Clone, Copy)]
pub(crate) struct DrivingAnswers {
    pub(crate) collected: Collected,
    pub(crate) turned: Turned,
    /// The number of callbacks that are done, and of those that wait.
    pub(crate) tended: (u64, u64),
}

/// The engine's answers to a worker in a round.
#[derive(Drop)]
pub(crate) struct RoundAnswers {
    /// The number of callbacks that were queued, this one included.
    pub(crate) queued: u64,
    pub(crate) driving: DrivingAnswers,
    pub(crate) ran: Ran<u64>,
    /// The number of callbacks that moved when its processor went offline, if it did.
    pub(crate) moved: Option<u64>,
}
