//! Machines whose opening says how many callbacks may be queued.
ghost use Rattle.std.specs.Prelude.{◌≤◌, ◌^◌};

use super::machine::takes;
use crate::made::{flat, refused};
use rcu_core::{Core, Event};
use rcu_node::Flat;
use std::alloc::Global;
use std::process::Abort;

/// The reply to a run that hands out the one callback.
const RAN_THE_ONE: &str =
    "Ran(ValueList { calls: [Queued { ord: 1, at: Tag { epoch: 0, number: 0 }, value: 5 }] })";

/// A machine of two processors in which this many callbacks may be queued, made by a second call if
/// the first is refused memory.
fn core_with_most(rt: &impl Abort, alloc: Global, most: u64) -> Core<Flat, u64>
    requires some { 1 ≤ most }
    requires few { most ≤ 2 ^ 62 }
{
    match Core::with_most(alloc, flat(rt, alloc, 2), 8, most) {
        Ok(core) => core,
        Err(fault) => {
            refused(rt, fault);
            Core::with_most(alloc, flat(rt, alloc, 2), 8, most).expect(
                rt,
                "the second call has memory",
            )
        }
    }
}

/// Fault 15 comes at the second callback, behind all others, and stays once the first one ran.
#[test]
fn one_callback_may_be_queued(rt: HostRuntime) {
    let mut core = core_with_most(&rt, rt.alloc(), 1);
    takes(
        &rt,
        rt.alloc(),
        &mut core,
        &[
            (Event::Queue(1, 6), "Fault(Offline)"),
            (Event::Queue(0, 5), "Queued(1)"),
            (Event::Queue(0, 6), "Fault(CallbacksFull)"),
            (Event::Queue(1, 6), "Fault(Offline)"),
            (Event::Queue(2, 6), "Fault(BadCpu)"),
            (Event::Tend(0), "Tended(0, 1)"),
            (Event::Begin, "Begun(1, 1)"),
            (Event::Scan(0), "Fault(NotIdle)"),
            (Event::Note(0), "Noted(1, true)"),
            (Event::Deliver(1), "Fault(NoReport)"),
            (Event::Idle(0), "Idle"),
            (Event::Scan(0), "Answer(Last)"),
            (Event::End, "Ended(4)"),
            (Event::Tend(0), "Tended(1, 0)"),
            (Event::Run(0, 9), RAN_THE_ONE),
            (Event::Queue(0, 6), "Fault(CallbacksFull)"),
        ],
    );
}

#[test]
fn three_callbacks_may_be_queued(rt: HostRuntime) {
    let mut core = core_with_most(&rt, rt.alloc(), 3);
    takes(
        &rt,
        rt.alloc(),
        &mut core,
        &[
            (Event::Online(1), "Online"),
            (Event::Queue(0, 5), "Queued(1)"),
            (Event::Queue(1, 6), "Queued(2)"),
            (Event::Offline(1), "Moved(1)"),
            (Event::Queue(0, 7), "Queued(3)"),
            (Event::Queue(0, 8), "Fault(CallbacksFull)"),
        ],
    );
}
