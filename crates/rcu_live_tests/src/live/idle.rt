//! Idle processors: their refusals; no grace period waits for them.
ghost use Rattle.std.specs.Prelude.{◌≡◌};

use crate::live::steps::Script;
use crate::live::threads::{Pair, last_seat, last_watcher, make_pair, opened};
use rcu_live::{Collected, CpuSeat, Watcher};
use rcu_seq::Fault;
use rcu_state::Turned;
use std::alloc::Global;
use std::process::Abort;
use std::sync::Wait;

/// A grace period for a callback of an idle processor, which then wakes and reads.
fn period_of_an_idle_one<R: Abort + Wait>(
    script: &Script<'_, R>,
    seat: &mut CpuSeat,
    watcher: &mut Watcher,
)
    requires seat { seat.old.table ≡ script.now.live.now.table }
    requires watcher { watcher.old.table ≡ script.now.live.now.table }
{
    script.idle(seat, Ok(()));
    script.queue(seat, 7, 1);
    script.tend(0, Ok((0, 1)));
    script.turn(Ok(Turned::Begun(1, 0)));
    script.turn(Ok(Turned::Ended(4)));
    script.enter(seat, Err(Fault::CpuIdle));
    script.wake(seat, Ok(4));
    script.enter(seat, Ok(1));
    script.meet(seat, watcher, Some(4), 4);
}

#[test]
fn period_waits_for_no_idle_processor(rt: HostRuntime) {
    let (live, mut seats, mut watchers) = opened(&rt, rt.alloc(), 1, 8);
    let mut seat = last_seat(&live, &mut seats);
    let mut watcher = last_watcher(&live, &mut watchers);
    period_of_an_idle_one(&Script::new(&rt, &live), &mut seat, &mut watcher);
}

/// An awaited processor gets idle once its section is closed, and is found so.
fn idle_while_awaited<R: Abort + Wait>(
    script: &Script<'_, R>,
    first: &mut CpuSeat,
    second: &mut CpuSeat,
)
    requires first { first.old.table ≡ script.now.live.now.table }
    requires second { second.old.table ≡ script.now.live.now.table }
{
    script.online(second, Ok(()));
    script.enter(second, Ok(1));
    script.queue(first, 7, 1);
    script.tend(0, Ok((0, 1)));
    script.turn(Ok(Turned::Begun(1, 2)));
    script.idle(second, Err(Fault::InSection));
    script.exit(second, Ok(0));
    script.collect(1, Ok(Collected::NotYet));
    script.idle(second, Ok(()));
    script.collect(1, Ok(Collected::Taken));
    script.wake(second, Ok(1));
    script.pass(first, 0, 1, Collected::Last);
    script.turn(Ok(Turned::Ended(4)));
    script.wake(second, Err(Fault::NotIdle));
    script.quiesce(second, Ok(4));
}

#[test]
fn awaited_processor_gets_idle(rt: HostRuntime) {
    let Pair {
        live,
        mut first,
        mut second,
        watcher: _,
        other: _,
    } = make_pair(&rt, rt.alloc());
    idle_while_awaited(&Script::new(&rt, &live), &mut first, &mut second);
}

/// The refusals of an idle processor, as a watcher meets it.
fn refuse_while_idle<R: Abort + Wait>(
    script: &Script<'_, R>,
    seat: &mut CpuSeat,
    watcher: &mut Watcher,
)
    requires seat { seat.old.table ≡ script.now.live.now.table }
    requires watcher { watcher.old.table ≡ script.now.live.now.table }
    ensures seat { seat.new.table ≡ seat.old.table }
{
    script.wake(seat, Err(Fault::NotIdle));
    script.idle(seat, Ok(()));
    script.idle(seat, Err(Fault::CpuIdle));
    script.enter(seat, Err(Fault::CpuIdle));
    script.quiesce(seat, Err(Fault::CpuIdle));
    script.exit(seat, Err(Fault::NotOpen));
    script.meet(seat, watcher, None, 0);
    script.wake(seat, Ok(0));
}

/// An idle processor departs, and comes back awake.
fn leave_while_idle<R: Abort + Wait>(script: &Script<'_, R>, seat: &mut CpuSeat)
    requires { seat.old.table ≡ script.now.live.now.table }
{
    script.idle(seat, Err(Fault::Offline));
    script.wake(seat, Err(Fault::Offline));
    script.online(seat, Ok(()));
    script.idle(seat, Ok(()));
    script.online(seat, Err(Fault::AlreadyOnline));
    script.offline(seat, Ok(0));
    script.wake(seat, Err(Fault::Offline));
    script.online(seat, Ok(()));
    script.wake(seat, Err(Fault::NotIdle));
    script.enter(seat, Ok(1));
}

/// No growth of a call on an idle processor is refused, for none asks for memory.
#[test]
fn calls_on_idle_processors(rt: HostRuntime) {
    let Pair {
        live,
        mut first,
        mut second,
        mut watcher,
        other: _,
    } = make_pair(&rt, rt.alloc());
    let script = Script::new(&rt, &live);
    refuse_while_idle(&script, &mut first, &mut watcher);
    leave_while_idle(&script, &mut second);
}
