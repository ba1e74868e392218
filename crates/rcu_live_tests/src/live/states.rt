//! The states of seats, and the processors that a grace period awaits.
ghost use Rattle.std.specs.Prelude.{◌≡◌};

use crate::live::steps::Script;
use crate::live::threads::{Pair, make_pair};
use rcu_live::{Collected, CpuSeat};
use rcu_seq::Fault;
use rcu_state::Turned;
use std::process::Abort;
use std::sync::Wait;

/// A processor comes, reads two sections deep, sleeps, and goes while it sleeps.
fn come_and_go<R: Abort + Wait>(script: &Script<'_, R>, seat: &mut CpuSeat)
    requires { seat.old.table ≡ script.now.live.now.table }
{
    script.stands(seat, 0, false, false);
    script.online(seat, Ok(()));
    script.stands(seat, 0, true, false);
    script.enter(seat, Ok(1));
    script.enter(seat, Ok(2));
    script.stands(seat, 2, true, false);
    script.exit(seat, Ok(1));
    script.stands(seat, 1, true, false);
    script.exit(seat, Ok(0));
    script.idle(seat, Ok(()));
    script.stands(seat, 0, true, true);
    script.wake(seat, Ok(0));
    script.stands(seat, 0, true, false);
    script.idle(seat, Ok(()));
    script.quiesce(seat, Err(Fault::CpuIdle));
    script.offline(seat, Ok(0));
    script.stands(seat, 0, false, false);
}

#[test]
fn seats_tell_how_they_stand(rt: HostRuntime) {
    let Pair {
        live,
        first,
        mut second,
        watcher: _,
        other: _,
    } = make_pair(&rt, rt.alloc());
    let script = Script::new(&rt, &live);
    script.stands(&first, 0, true, false);
    come_and_go(&script, &mut second);
}

/// A grace period that awaits both processors, then the second one alone, then none.
fn await_each<R: Abort + Wait>(script: &Script<'_, R>, first: &mut CpuSeat, second: &mut CpuSeat)
    requires first { first.old.table ≡ script.now.live.now.table }
    requires second { second.old.table ≡ script.now.live.now.table }
{
    script.online(second, Ok(()));
    script.queue(first, 7, 1);
    script.tend(0, Ok((0, 1)));
    script.awaits([false, false]);
    script.turn(Ok(Turned::Begun(1, 2)));
    script.awaits([true, true]);
    script.pass(first, 0, 1, Collected::Taken);
    script.awaits([false, true]);
    script.pass(second, 1, 1, Collected::Last);
    script.awaits([false, false]);
    script.turn(Ok(Turned::Ended(4)));
    script.awaits([false, false]);
}

#[test]
fn awaited_processors_are_told(rt: HostRuntime) {
    let Pair {
        live,
        mut first,
        mut second,
        watcher: _,
        other: _,
    } = make_pair(&rt, rt.alloc());
    await_each(&Script::new(&rt, &live), &mut first, &mut second);
}
