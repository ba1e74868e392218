//! Deferred values on one thread, and beside a thread that renews its section, or pins and unpins.
mod pins;
mod rooms;
mod slow;

ghost use Rattle.std.specs.Prelude.{◌≡◌};

use crate::live::steps::{Four, Script, of_epoch};
use crate::live::threads::{last_seat, last_watcher, opened};
use rcu_defer::Deferrer;
use rcu_live::CpuSeat;
use rcu_seq::Fault;
use rcu_state::Turned;
use std::process::Abort;
use std::sync::Wait;
use std::thread;
use std::thread::Threads;

/// How many values the tests with threads defer, and how often their readers read.
const MANY: u64 = 2_000;

/// The last number of the tests' engines.
const LAST: u64 = 1 << 40;

/// Defers a value, by a second call if the first is refused memory.
fn defers<R: Abort>(rt: &R, deferrer: &mut Deferrer<u64>, value: u64)
    ensures { deferrer.new.watcher ≡ deferrer.old.watcher }
{
    if let Err(refused) = deferrer.defer(value) {
        assert_eq!(rt; (refused.fault, refused.value), (Fault::NoMemory, value));
        assert!(rt; deferrer.defer(value).is_ok(), "the second call has memory");
    }
}

/// Compares the number that a tend sees.
fn tends<R: Abort + Wait>(script: &Script<'_, R>, deferrer: &mut Deferrer<u64>, wanted: u64)
    requires { deferrer.old.watcher.table ≡ script.now.live.now.table }
    ensures { deferrer.new.watcher.table ≡ script.now.live.now.table }
{
    script.compare("tend", deferrer.tend(script.live), wanted);
}

/// Compares the value that a take hands out.
fn takes<R: Abort + Wait>(script: &Script<'_, R>, deferrer: &mut Deferrer<u64>, wanted: Option<u64>)
    ensures { deferrer.new.watcher ≡ deferrer.old.watcher }
{
    script.compare("take", deferrer.take(), wanted);
}

/// Compares how many values are done, how many there are, and the number that the last one waits
/// for.
fn holds<R: Abort + Wait>(
    script: &Script<'_, R>,
    deferrer: &Deferrer<u64>,
    wanted: (u64, usize, Option<u64>),
) {
    let (list, until) = (deferrer.list(), deferrer.cookie());
    let found = (list.ready(), list.count(), until);
    let (ready, count, number) = wanted;
    let until = number.map(|number| of_epoch(0, number));
    script.compare("holds", found, (ready, count, until));
}

/// Values are deferred in two grace periods, while a reader keeps a section open and renews it.
fn defer_beside<R: Abort + Wait>(
    rt: &R,
    script: &Script<'_, R>,
    seat: &mut CpuSeat,
    deferrer: &mut Deferrer<u64>,
)
    requires seat { seat.old.table ≡ script.now.live.now.table }
    requires deferrer { deferrer.old.watcher.table ≡ script.now.live.now.table }
{
    script.renew(seat, Err(Fault::NotOpen));
    script.enter(seat, Ok(1));
    defers(rt, deferrer, 10);
    defers(rt, deferrer, 11);
    tends(script, deferrer, 0);
    takes(script, deferrer, None);
    script.drive_for(4, Ok(Turned::Begun(1, 1)));
    script.drive_for(4, Ok(Turned::Waiting(1)));
    defers(rt, deferrer, 12);
    tends(script, deferrer, 1);
    takes(script, deferrer, None);
    holds(script, deferrer, (0, 3, Some(8)));
    script.renew(seat, Ok(1));
    script.drive_for(4, Ok(Turned::Ended(4)));
    takes(script, deferrer, None);
    tends(script, deferrer, 4);
    holds(script, deferrer, (2, 3, Some(8)));
    takes(script, deferrer, Some(10));
    takes(script, deferrer, Some(11));
    takes(script, deferrer, None);
    holds(script, deferrer, (0, 1, Some(8)));
    script.drive_for(8, Ok(Turned::Begun(5, 1)));
    script.renew(seat, Ok(5));
    script.renew(seat, Ok(5));
    script.drive_for(8, Ok(Turned::Ended(8)));
    tends(script, deferrer, 8);
    holds(script, deferrer, (1, 1, None));
    takes(script, deferrer, Some(12));
    script.enter(seat, Ok(2));
    script.renew(seat, Err(Fault::InSection));
}

#[test]
fn values_come_after_a_grace_period(rt: HostRuntime) {
    let (live, mut seats, mut watchers) = opened(&rt, rt.alloc(), 2, LAST);
    let _ = last_seat(&live, &mut seats);
    let mut seat = last_seat(&live, &mut seats);
    let mut deferrer = Deferrer::new(rt.alloc(), last_watcher(&live, &mut watchers));
    defer_beside(&rt, &Script::new(&rt, &live), &mut seat, &mut deferrer);
}

/// Takes all done values, which come in the order in which they were deferred. Returns how many
/// came so far.
fn take_all<R: Abort>(rt: &R, deferrer: &mut Deferrer<u64>, taken: u64) -> u64
    ensures { deferrer.new.watcher ≡ deferrer.old.watcher }
{
    let mut next = taken;
    for _ in 0..deferrer.list().ready() {
        assert_eq!(rt; deferrer.take(), Some(next));
        next = next.wrapping_add(1);
    }
    next
}

/// Defers this many values, and drives until all are taken.
fn defer_all<R: Abort + Wait>(rt: &R, live: &Four, mut deferrer: Deferrer<u64>)
    requires { deferrer.watcher.table ≡ live.now.table }
{
    let mut deferred = 0;
    let mut taken = 0;
    for _ in rt.forever() {
        if deferred < MANY {
            defers(rt, &mut deferrer, deferred);
            deferred += 1;
        }
        deferrer.tend(live);
        taken = take_all(rt, &mut deferrer, taken);
        if let Some(cookie) = deferrer.cookie() {
            assert!(rt; live.drive_for(rt, cookie).is_ok());
        }
        if taken == MANY {
            return;
        }
        thread::yield_now();
    }
}

/// Renews a section often, and gets idle; then pins, renews that section, and unpins, as often.
fn read_often<R: Abort + Wait>(rt: &R, live: &Four, mut seat: CpuSeat)
    requires { seat.table ≡ live.now.table }
{
    let script = Script::new(rt, live);
    script.enter(&mut seat, Ok(1));
    for _ in 0..MANY {
        script.compare("renew", seat.renew(script.live).is_ok(), true);
        thread::yield_now();
    }
    script.unpin(&mut seat, Ok(0));
    for _ in 0..MANY {
        script.pin(&mut seat, Ok(1));
        script.compare("repin", seat.repin(script.live).is_ok(), true);
        script.unpin(&mut seat, Ok(0));
    }
}

/// Both on threads of their own.
fn defer_on_a_thread<R: Threads + Sync + Abort + Wait>(
    rt: &R,
    live: &Four,
    seat: CpuSeat,
    deferrer: Deferrer<u64>,
)
    requires seat { seat.table ≡ live.now.table }
    requires deferrer { deferrer.watcher.table ≡ live.now.table }
{
    thread::join(
        rt,
        move || defer_all(rt, live, deferrer),
        move || read_often(rt, live, seat),
    );
}

#[test]
fn values_come_in_order_beside_a_reader(rt: HostRuntime) {
    let (live, mut seats, mut watchers) = opened(&rt, rt.alloc(), 2, LAST);
    let _ = last_seat(&live, &mut seats);
    let seat = last_seat(&live, &mut seats);
    let deferrer = Deferrer::new(rt.alloc(), last_watcher(&live, &mut watchers));
    defer_on_a_thread(&rt, &live, seat, deferrer);
}
