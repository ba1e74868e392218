//! How many callbacks may be queued is the opening's choice.
ghost use Rattle.std.specs.Prelude.{◌≡◌};

use crate::live::steps::{Four, Script};
use crate::live::threads::last_seat;
use rcu_live::CpuSeat;
use rcu_seq::Fault;
use std::alloc::Global;
use std::process::Abort;
use std::sync::Wait;

/// Opens an engine of one processor in which three callbacks may be queued, by a second call if the
/// first is refused memory.
fn open_for_three(rt: &impl Abort, alloc: Global) -> (Four, CpuSeat)
    ensures { result.1.table ≡ result.0.table }
{
    let mut opened = Four::open_with_most(alloc, 1, 8, 3);
    if matches!(opened, Err(Fault::NoMemory)) {
        opened = Four::open_with_most(alloc, 1, 8, 3);
    }
    let (live, mut seats, _) = opened.expect(rt, "the second call has memory");
    let seat = last_seat(&live, &mut seats);
    (live, seat)
}

/// The fourth callback is refused, and comes back.
fn queue_three<R: Abort + Wait>(script: &Script<'_, R>, seat: &mut CpuSeat)
    requires { seat.old.table ≡ script.now.live.now.table }
{
    script.queue(seat, 5, 1);
    script.queue(seat, 6, 2);
    script.queue(seat, 7, 3);
    script.queue_refused(seat, 8, Fault::CallbacksFull);
}

#[test]
fn no_more_callbacks_than_the_opening_chose(rt: HostRuntime) {
    let (live, mut seat) = open_for_three(&rt, rt.alloc());
    queue_three(&Script::new(&rt, &live), &mut seat);
}
