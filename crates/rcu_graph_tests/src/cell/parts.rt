//! The driver of the grace periods, in tests with threads.
ghost use Rattle.rcu_live.specs.CpuSeat.{IsSeatOf};

use rcu_cell::{CellRule, CellSeat, Version, Writer};
use rcu_live::Live;
use std::sync::Wait;

/// Moves a grace period of this many processors on, from the processor 0, and looks which slots are
/// free. A callback asks for the grace period; if its queue call is refused memory, a later call
/// does.
pub(crate) fn drive<R: Wait, F: Version<W>, const W: usize>(
    rt: &R,
    live: &Live<4, 4, u64, CellRule<F, W>>,
    writer: &mut Writer<F, W>,
    seat: &mut CellSeat<F, W>,
    cpus: u32,
)
    requires { IsSeatOf live.now seat.old }
    ensures { IsSeatOf live.now seat.new }
{
    writer.reclaim();
    if let Ok((_, 0)) = live.tend(rt, 0) {
        let _ = live.queue(rt, seat, 0);
        let _ = live.tend(rt, 0);
    }
    let _ = live.turn(rt);
    let _ = seat.quiesce(live);
    for cpu in 0..cpus {
        let _ = live.collect(rt, cpu);
    }
    let _ = live.turn(rt);
    let _ = live.run(rt, 0, 8);
    writer.reclaim();
}
