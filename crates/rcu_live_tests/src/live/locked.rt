//! Calls under the lock: one grace period with two seats, a barrier over a migration, a turn that
//! ends what the seats see, and the state after a refused growth.
ghost use Rattle.std.specs.Prelude.{◌≡◌};

use crate::live::steps::{Script, of_epoch};
use crate::live::threads::{Pair, last_seat, last_watcher, make_pair, opened};
use rcu_barrier::{BarrierState, Visit};
use rcu_live::{Collected, CpuSeat, Watcher};
use rcu_seq::Fault;
use rcu_state::Turned;
use std::alloc::Global;
use std::process::Abort;
use std::sync::Wait;

/// A grace period for a callback of the first seat, which waits for a section of the second one.
fn one_period<R: Abort + Wait>(script: &Script<'_, R>, first: &mut CpuSeat, second: &mut CpuSeat)
    requires first { first.old.table ≡ script.now.live.now.table }
    requires second { second.old.table ≡ script.now.live.now.table }
{
    script.online(second, Ok(()));
    script.online(second, Err(Fault::AlreadyOnline));
    script.enter(second, Ok(1));
    script.queue(first, 7, 1);
    script.tend(0, Ok((0, 1)));
    script.turn(Ok(Turned::Begun(1, 2)));
    script.pass(first, 0, 1, Collected::Taken);
    script.collect(1, Ok(Collected::NotYet));
    script.turn(Ok(Turned::Waiting(1)));
    script.offline(second, Err(Fault::InSection));
    script.exit(second, Ok(0));
    script.pass(second, 1, 1, Collected::Last);
    script.collect(1, Ok(Collected::Repeat));
    script.turn(Ok(Turned::Ended(4)));
    script.collect(1, Ok(Collected::Idle));
    script.turn(Ok(Turned::Nothing));
    script.run(0, 9, 4, &[]);
    script.tend(0, Ok((1, 0)));
    script.run(0, 9, 4, &[(0, 7)]);
}

/// A grace period and a barrier for the callbacks of the second seat, beside one of the first.
fn second_processor<R: Abort + Wait>(
    script: &Script<'_, R>,
    first: &mut CpuSeat,
    second: &mut CpuSeat,
)
    requires first { first.old.table ≡ script.now.live.now.table }
    requires second { second.old.table ≡ script.now.live.now.table }
{
    script.online(second, Ok(()));
    script.queue(second, 7, 1);
    script.queue(second, 8, 2);
    script.barrier_begin(Ok(()));
    script.mark(1);
    script.visit(0, Ok(Visit::Empty));
    script.tend(1, Ok((0, 2)));
    script.tend(0, Ok((0, 0)));
    script.turn(Ok(Turned::Begun(1, 2)));
    script.pass(second, 1, 1, Collected::Taken);
    script.pass(first, 0, 1, Collected::Last);
    script.turn(Ok(Turned::Ended(4)));
    script.tend(1, Ok((2, 0)));
    script.run(0, 9, 4, &[]);
    script.run(1, 1, 4, &[(0, 7)]);
    script.barrier_test(Ok(BarrierState::Waits(1)));
    script.run(1, 9, 4, &[(0, 8)]);
    script.barrier_test(Ok(BarrierState::Done));
}

#[test]
fn each_call_is_of_its_processor(rt: HostRuntime) {
    let Pair {
        live,
        mut first,
        mut second,
        watcher: _,
        other: _,
    } = make_pair(&rt, rt.alloc());
    second_processor(&Script::new(&rt, &live), &mut first, &mut second);
}

/// A reader and a watcher go on while this thread has the lock: whatever waited for it would wait
/// for good.
fn read_under_the_lock<R: Abort + Wait>(
    script: &Script<'_, R>,
    seat: &mut CpuSeat,
    watcher: &mut Watcher,
)
    requires seat { seat.old.table ≡ script.now.live.now.table }
    requires watcher { watcher.old.table ≡ script.now.live.now.table }
{
    let engine = script.lock();
    script.enter(seat, Ok(1));
    script.meet(seat, watcher, Some(0), 0);
    script.exit(seat, Ok(0));
    script.quiesce(seat, Ok(0));
    script.idle(seat, Ok(()));
    script.wake(seat, Ok(0));
    script.take(watcher, of_epoch(0, 4));
    script.poll(watcher, of_epoch(0, 4), false);
    script.holds(&engine);
}

#[test]
fn readers_go_on_while_the_lock_is_held(rt: HostRuntime) {
    let Pair {
        live,
        mut first,
        second: _,
        mut watcher,
        other: _,
    } = make_pair(&rt, rt.alloc());
    read_under_the_lock(&Script::new(&rt, &live), &mut first, &mut watcher);
}

#[test]
fn two_seats_one_period(rt: HostRuntime) {
    let Pair {
        live,
        mut first,
        mut second,
        watcher: _,
        other: _,
    } = make_pair(&rt, rt.alloc());
    one_period(&Script::new(&rt, &live), &mut first, &mut second);
}

/// The callback of a processor that went offline, once a grace period passed.
fn barrier_over_a_migration<R: Abort + Wait>(script: &Script<'_, R>, first: &mut CpuSeat)
    requires { first.old.table ≡ script.now.live.now.table }
    ensures { first.new.table ≡ first.old.table }
{
    script.visit(1, Ok(Visit::Already));
    script.barrier_test(Ok(BarrierState::Waits(1)));
    script.tend(0, Ok((0, 1)));
    script.turn(Ok(Turned::Begun(1, 1)));
    script.pass(first, 0, 1, Collected::Last);
    script.turn(Ok(Turned::Ended(4)));
    script.tend(0, Ok((1, 0)));
    script.run(0, 1, 4, &[(0, 5)]);
    script.barrier_test(Ok(BarrierState::Done));
    script.barrier_test(Err(Fault::NoBarrier));
}

/// Takes the processor offline. If its growth is refused it has departed, its list stays, and the
/// same call again finishes it.
fn leave<R: Abort + Wait>(script: &Script<'_, R>, seat: &mut CpuSeat, wanted: u64)
    requires { seat.old.table ≡ script.now.live.now.table }
    ensures { seat.new.table ≡ seat.old.table }
{
    if script.leaves(seat, wanted) {
        script.enter(seat, Err(Fault::Offline));
        script.queue_refused(seat, 9, Fault::Offline);
        script.offline(seat, Ok(wanted));
    }
}

/// A processor with a callback departs. If its growth is refused it comes back instead, and then
/// has its list.
fn depart_or_return<R: Abort + Wait>(
    script: &Script<'_, R>,
    first: &mut CpuSeat,
    second: &mut CpuSeat,
)
    requires first { first.old.table ≡ script.now.live.now.table }
    requires second { second.old.table ≡ script.now.live.now.table }
{
    if script.leaves(second, 1) {
        script.online(second, Ok(()));
        script.tend(1, Ok((0, 1)));
        script.turn(Ok(Turned::Begun(1, 2)));
        script.pass(first, 0, 1, Collected::Taken);
        script.pass(second, 1, 1, Collected::Last);
    }
}

/// A processor gets a callback before that.
fn depart_with_a_list<R: Abort + Wait>(
    script: &Script<'_, R>,
    first: &mut CpuSeat,
    second: &mut CpuSeat,
)
    requires first { first.old.table ≡ script.now.live.now.table }
    requires second { second.old.table ≡ script.now.live.now.table }
{
    script.online(second, Ok(()));
    script.queue(second, 5, 1);
    depart_or_return(script, first, second);
}

/// A processor whose departure was refused its growth may come back instead, and then has its list.
#[test]
fn return_keeps_the_list(rt: HostRuntime) {
    let Pair {
        live,
        mut first,
        mut second,
        watcher: _,
        other: _,
    } = make_pair(&rt, rt.alloc());
    depart_with_a_list(&Script::new(&rt, &live), &mut first, &mut second);
}

/// A section and a quiescent state of the seat, beside a watcher.
fn read<R: Abort + Wait>(script: &Script<'_, R>, seat: &mut CpuSeat, watcher: &mut Watcher)
    requires seat { seat.old.table ≡ script.now.live.now.table }
    requires watcher { watcher.old.table ≡ script.now.live.now.table }
{
    script.enter(seat, Ok(1));
    script.exit(seat, Ok(0));
    script.quiesce(seat, Ok(0));
    script.take(watcher, of_epoch(0, 4));
    script.poll(watcher, of_epoch(0, 4), false);
    script.meet(seat, watcher, None, 0);
}

/// A barrier over empty lists, over which the seat's processor departs.
fn barrier_over_none<R: Abort + Wait>(script: &Script<'_, R>, seat: &mut CpuSeat)
    requires { seat.old.table ≡ script.now.live.now.table }
{
    script.collect(0, Ok(Collected::Idle));
    script.turn(Ok(Turned::Nothing));
    script.tend(1, Ok((0, 0)));
    script.barrier_begin(Ok(()));
    script.visit(0, Ok(Visit::Empty));
    script.visit(0, Ok(Visit::Already));
    script.barrier_test(Ok(BarrierState::Waits(1)));
    script.run_any(1, Ok(0));
    script.offline(seat, Ok(0));
    script.barrier_test(Ok(BarrierState::Done));
}

/// The object is opened first; no growth of a later call is refused, for none asks for memory.
#[test]
fn calls_without_memory(rt: HostRuntime) {
    let Pair {
        live,
        mut first,
        mut second,
        mut watcher,
        other: _,
    } = make_pair(&rt, rt.alloc());
    let script = Script::new(&rt, &live);
    script.online(&mut second, Ok(()));
    read(&script, &mut first, &mut watcher);
    barrier_over_none(&script, &mut second);
}

/// A barrier over the second seat's callback, which moves, and the begin of another one.
fn two_barriers<R: Abort + Wait>(script: &Script<'_, R>, first: &mut CpuSeat, second: &mut CpuSeat)
    requires first { first.old.table ≡ script.now.live.now.table }
    requires second { second.old.table ≡ script.now.live.now.table }
{
    script.online(second, Ok(()));
    script.queue(second, 5, 1);
    script.visit(0, Err(Fault::NoBarrier));
    script.barrier_begin(Ok(()));
    script.barrier_begin(Err(Fault::BarrierBusy));
    script.visit(0, Ok(Visit::Empty));
    script.visit(0, Ok(Visit::Already));
    leave(script, second, 1);
    script.offline(second, Err(Fault::Offline));
    script.queue_refused(second, 8, Fault::Offline);
    barrier_over_a_migration(script, first);
    script.queue(first, 6, 2);
    script.barrier_begin(Ok(()));
    script.mark(0);
}

#[test]
fn locked_barrier_and_migration(rt: HostRuntime) {
    let Pair {
        live,
        mut first,
        mut second,
        watcher: _,
        other: _,
    } = make_pair(&rt, rt.alloc());
    two_barriers(&Script::new(&rt, &live), &mut first, &mut second);
}

/// Turns over a callback of the seat, as a watcher sees them, up to the last number.
fn turn_to_the_last<R: Abort + Wait>(
    script: &Script<'_, R>,
    seat: &mut CpuSeat,
    watcher: &mut Watcher,
)
    requires seat { seat.old.table ≡ script.now.live.now.table }
    requires watcher { watcher.old.table ≡ script.now.live.now.table }
{
    let cookie = of_epoch(0, 4);
    script.take(watcher, cookie);
    script.queue(seat, 7, 1);
    script.tend(0, Ok((0, 1)));
    script.turn(Ok(Turned::Begun(1, 1)));
    script.poll(watcher, cookie, false);
    script.pass(seat, 0, 1, Collected::Last);
    script.turn(Ok(Turned::Ended(4)));
    script.poll(watcher, cookie, true);
    script.queue(seat, 8, 2);
    script.tend(0, Ok((1, 1)));
    script.turn(Err(Fault::Exhausted));
}

#[test]
fn turn_ends_what_the_seats_see(rt: HostRuntime) {
    let (live, mut seats, mut watchers) = opened(&rt, rt.alloc(), 1, 4);
    let mut seat = last_seat(&live, &mut seats);
    let mut watcher = last_watcher(&live, &mut watchers);
    turn_to_the_last(&Script::new(&rt, &live), &mut seat, &mut watcher);
}

#[test]
fn no_such_processor(rt: HostRuntime) {
    let Pair {
        live,
        first: _,
        second: _,
        watcher: _,
        other: _,
    } = make_pair(&rt, rt.alloc());
    lack_processor(&Script::new(&rt, &live));
}

/// The calls of a processor that there is not.
fn lack_processor<R: Abort + Wait>(script: &Script<'_, R>) {
    script.collect(2, Err(Fault::BadCpu));
    script.tend(2, Err(Fault::BadCpu));
    script.run_any(2, Err(Fault::BadCpu));
    script.visit(2, Err(Fault::BadCpu));
    script.shrink(2, Err(Fault::BadCpu));
}

#[test]
fn lists_give_room_back(rt: HostRuntime) {
    let Pair {
        live,
        mut first,
        second: _,
        watcher: _,
        other: _,
    } = make_pair(&rt, rt.alloc());
    give_room_back(&Script::new(&rt, &live), &mut first);
}

/// A list with callbacks keeps room for them alone, one that has grown too, and an empty one keeps
/// none.
fn give_room_back<R: Abort + Wait>(script: &Script<'_, R>, seat: &mut CpuSeat)
    requires { seat.old.table ≡ script.now.live.now.table }
{
    script.queue(seat, 7, 1);
    script.queue(seat, 7, 2);
    script.queue(seat, 7, 3);
    script.queue(seat, 7, 4);
    script.queue(seat, 7, 5);
    script.queue(seat, 7, 6);
    script.queue(seat, 7, 7);
    script.queue(seat, 7, 8);
    script.queue(seat, 7, 9);
    script.shrink(0, Ok(9));
    script.shrink(1, Ok(0));
    script.tend(0, Ok((0, 9)));
    script.turn(Ok(Turned::Begun(1, 1)));
    script.pass(seat, 0, 1, Collected::Last);
    script.turn(Ok(Turned::Ended(4)));
    script.tend(0, Ok((9, 0)));
    script.run(0, 4, 4, &[(0, 7); 4]);
    script.shrink(0, Ok(5));
    script.run(0, 9, 4, &[(0, 7); 5]);
    script.shrink(0, Ok(0));
}
