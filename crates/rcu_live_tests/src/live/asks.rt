//! Waits that sleep and reports that wake them, a step at a time and on one thread, in each order
//! that matters. A wake-up that is lost has such a test sleep for good, in every run.
ghost use Rattle.std.specs.Prelude.{◌≡◌, true};

use crate::live::sleeps::Report;
use crate::live::steps::{Four, of_epoch};
use crate::live::threads::{Pair, last_seat, make_pair, opened};
use rcu_live::board::TableSeat;
use rcu_live::{Board, CpuSeat, NoClient, Shared, Stored};
use rcu_seq::Cookie;
use rcu_state::Turned;
use std::alloc::Global;
use std::cell::Cell;
use std::process::Abort;
use std::sync::Wait;

/// The reports, each of one store.
const REPORTS: [Report; 7] = [
    Report::Quiesce,
    Report::QuiesceSince,
    Report::Renew,
    Report::Repin,
    Report::Unpin,
    Report::Idle,
    Report::Depart,
];

/// How many rounds a wait makes before it sleeps.
const ROUNDS: u32 = 100;

/// The cookie of the first grace period.
fn first_cookie() -> Cookie {
    of_epoch(0, 4)
}

/// The processor reports so, without the lock.
fn report_to<L: Shared<NoClient>>(shared: &L, seat: &mut CpuSeat, report: Report)
    requires { seat.old.table ≡ (L.object shared.now).table }
    ensures { seat.new.table ≡ seat.old.table }
{
    match report {
        Report::Quiesce | Report::QuiesceAndEnd => {
            let _ = seat.quiesce(shared);
        }
        Report::QuiesceSince => {
            let _ = seat.quiesce_since(shared);
        }
        Report::Renew => {
            let _ = seat.renew(shared);
        }
        Report::Repin => {
            let _ = seat.repin(shared);
        }
        Report::Unpin => {
            let _ = seat.unpin(shared);
        }
        Report::Idle => {
            let _ = seat.idle(shared);
        }
        Report::Depart => {
            let _ = seat.depart(shared);
        }
    }
}

/// A grace period begins that awaits processors 0 and 1, and then processor 1 alone, in a section
/// if it is to report out of one.
fn begin<R: Abort + Wait>(
    rt: &R,
    live: &Four,
    first: &mut CpuSeat,
    reader: &mut CpuSeat,
    report: Report,
)
    requires first { first.old.table ≡ live.now.table }
    requires reader { reader.old.table ≡ live.now.table }
    ensures first { first.new.table ≡ first.old.table }
    ensures reader { reader.new.table ≡ reader.old.table }
{
    assert_eq!(rt; live.online(rt, reader), Ok(()));
    if matches!(report, Report::Renew | Report::Repin | Report::Unpin) {
        assert_eq!(rt; reader.enter(live), Ok(1));
    }
    assert_eq!(rt; live.drive_for(rt, first_cookie()), Ok(Turned::Begun(1, 2)));
    assert_eq!(rt; first.quiesce(live), Ok(1));
    assert_eq!(rt; live.drive_for(rt, first_cookie()), Ok(Turned::Waiting(1)));
}

/// Returns whether a wait hears of processor 1 that reports so between the asking and the look.
fn is_heard_between<R: Abort + Wait>(
    rt: &R,
    live: &Four,
    reader: &mut CpuSeat,
    report: Report,
) -> bool
    requires { reader.old.table ≡ live.now.table }
{
    let mut engine = live.lock(rt);
    let Some(asked) = live.ask(&engine, 0, first_cookie()) else {
        return false;
    };
    report_to(live, reader, report);
    match asked.hear(&mut engine) {
        None => true,
        Some(unheard) => {
            live.sleep(rt, unheard);
            false
        }
    }
}

#[test]
fn a_report_between_the_asking_and_the_look_is_heard(rt: HostRuntime) {
    for report in REPORTS {
        let Pair {
            live,
            mut first,
            mut second,
            watcher: _,
            other: _,
        } = make_pair(&rt, rt.alloc());
        begin(&rt, &live, &mut first, &mut second, report);
        let is_heard = is_heard_between(&rt, &live, &mut second, report);
        assert_eq!(&rt; (report, is_heard), (report, true));
    }
}

/// A wait looks, processor 1 reports so, and then the wait sleeps. Returns whether it did.
fn sleeps_behind<R: Abort + Wait>(rt: &R, live: &Four, reader: &mut CpuSeat, report: Report) -> bool
    requires { reader.old.table ≡ live.now.table }
{
    let mut engine = live.lock(rt);
    let Some(asked) = live.ask(&engine, 0, first_cookie()) else {
        return false;
    };
    let Some(unheard) = asked.hear(&mut engine) else {
        return false;
    };
    drop(engine);
    report_to(live, reader, report);
    live.sleep(rt, unheard);
    true
}

#[test]
fn a_report_between_the_look_and_the_sleep_wakes(rt: HostRuntime) {
    for report in REPORTS {
        let Pair {
            live,
            mut first,
            mut second,
            watcher: _,
            other: _,
        } = make_pair(&rt, rt.alloc());
        begin(&rt, &live, &mut first, &mut second, report);
        let slept = sleeps_behind(&rt, &live, &mut second, report);
        let turned = live.drive_for(&rt, first_cookie());
        assert_eq!(&rt;
            (report, slept, turned),
            (report, true, Ok(Turned::Ended(4)))
        );
    }
}

/// An engine between whose stores and looks a wait asks and looks.
#[derive(Drop)]
struct Between<'a, R: Wait> {
    rt: &'a R,
    live: &'a Four,
    heard: Cell<bool>,
}

impl<'a, R: Wait> Between<'a, R> {
    /// Returns whether a wait that asks now hears of processor 1.
    fn is_heard(&self) -> bool {
        let mut engine = self.live.lock(self.rt);
        match self.live.ask(&engine, 0, first_cookie()) {
            None => false,
            Some(asked) => match asked.hear(&mut engine) {
                None => true,
                Some(unheard) => {
                    drop(engine);
                    self.live.sleep(self.rt, unheard);
                    false
                }
            },
        }
    }
}

impl<'a, R: Wait> Shared<NoClient> for Between<'a, R> {
    ghost object = { λ between. between.live.now };

    ghost wakes = { true };

    fn board(&self) -> &Board {
        self.live.words()
    }

    fn stored(&self, seat: &mut TableSeat<NoClient>, stored: Stored) {
        self.heard.set(self.is_heard());
        self.live.stored(seat, stored);
    }
}

/// Returns whether a wait that asks and looks in the middle of the report hears of processor 1.
fn is_heard_within<R: Abort + Wait>(
    rt: &R,
    live: &Four,
    reader: &mut CpuSeat,
    report: Report,
) -> bool
    requires { reader.old.table ≡ live.now.table }
{
    let between = Between {
        rt,
        live,
        heard: Cell::new(false),
    };
    report_to(&between, reader, report);
    between.heard.get()
}

#[test]
fn who_looks_whether_it_is_asked_has_stored(rt: HostRuntime) {
    for report in REPORTS {
        let Pair {
            live,
            mut first,
            mut second,
            watcher: _,
            other: _,
        } = make_pair(&rt, rt.alloc());
        begin(&rt, &live, &mut first, &mut second, report);
        let is_heard = is_heard_within(&rt, &live, &mut second, report);
        assert_eq!(&rt; (report, is_heard), (report, true));
    }
}

#[test]
fn the_first_rounds_of_a_wait_do_not_sleep(rt: HostRuntime) {
    let Pair {
        live,
        mut first,
        mut second,
        watcher: _,
        other: _,
    } = make_pair(&rt, rt.alloc());
    begin(&rt, &live, &mut first, &mut second, Report::Quiesce);
    for rounds in 0..ROUNDS {
        let next = live.sleep_between(&rt, &first, first_cookie(), rounds);
        assert_eq!(&rt; next, rounds + 1);
    }
}

/// No wait sleeps for its own processor, nor if its cookie is done, or no processor is awaited.
#[test]
fn no_wait_sleeps_that_nobody_would_wake(rt: HostRuntime) {
    let Pair {
        live,
        mut first,
        mut second,
        watcher: _,
        other: _,
    } = make_pair(&rt, rt.alloc());
    assert_eq!(&rt;
        live.sleep_between(&rt, &first, first_cookie(), ROUNDS),
        ROUNDS
    );
    assert_eq!(&rt; live.online(&rt, &mut second), Ok(()));
    assert_eq!(&rt;
        live.drive_for(&rt, first_cookie()),
        Ok(Turned::Begun(1, 2))
    );
    assert_eq!(&rt;
        live.sleep_between(&rt, &first, first_cookie(), ROUNDS),
        ROUNDS
    );
    assert_eq!(&rt;
        live.sleep_between(&rt, &second, first_cookie(), ROUNDS),
        ROUNDS
    );
    assert_eq!(&rt; first.quiesce(&live), Ok(1));
    assert_eq!(&rt; live.drive_for(&rt, first_cookie()), Ok(Turned::Waiting(1)));
    assert_eq!(&rt;
        live.sleep_between(&rt, &first, of_epoch(0, 1), ROUNDS),
        ROUNDS
    );
}

/// A grace period begins that awaits three processors, and then processors 1 and 2 alone.
fn begin_with_two<R: Abort + Wait>(
    rt: &R,
    live: &Four,
    first: &mut CpuSeat,
    second: &mut CpuSeat,
    third: &mut CpuSeat,
)
    requires first { first.old.table ≡ live.now.table }
    requires second { second.old.table ≡ live.now.table }
    requires third { third.old.table ≡ live.now.table }
    ensures first { first.new.table ≡ first.old.table }
    ensures second { second.new.table ≡ second.old.table }
    ensures third { third.new.table ≡ third.old.table }
{
    assert_eq!(rt; live.online(rt, second), Ok(()));
    assert_eq!(rt; live.online(rt, third), Ok(()));
    assert_eq!(rt; live.drive_for(rt, first_cookie()), Ok(Turned::Begun(1, 3)));
    assert_eq!(rt; first.quiesce(live), Ok(1));
    assert_eq!(rt; live.drive_for(rt, first_cookie()), Ok(Turned::Waiting(2)));
}

/// A wait asks processor 1, which then reports by the words alone, and so wakes no waiter. Another
/// wait collects from it, and from processor 2, which it asks. Then the first wait sleeps, and that
/// wakes it. Returns whether it did.
fn sleeps_behind_another<R: Abort + Wait>(
    rt: &R,
    live: &Four,
    first: &CpuSeat,
    second: &mut CpuSeat,
    third: &mut CpuSeat,
) -> bool
    requires second { second.old.table ≡ live.now.table }
    requires third { third.old.table ≡ live.now.table }
{
    let mut engine = live.lock(rt);
    let Some(asked) = live.ask(&engine, 0, first_cookie()) else {
        return false;
    };
    let Some(unheard) = asked.hear(&mut engine) else {
        return false;
    };
    drop(engine);
    let _ = second.quiesce(&**live.words());
    let turned = live.drive_for(rt, first_cookie());
    assert_eq!(rt; turned, Ok(Turned::Waiting(1)));
    let _ = third.quiesce(&**live.words());
    assert_eq!(rt;
        live.sleep_between(rt, first, first_cookie(), ROUNDS),
        ROUNDS
    );
    live.sleep(rt, unheard);
    true
}

/// The objects of that.
fn is_woken_behind_another<R: Abort + Wait>(rt: &R, alloc: Global) -> bool {
    let (live, mut seats, _) = opened(rt, alloc, 3, 8);
    let mut third = last_seat(&live, &mut seats);
    let mut second = last_seat(&live, &mut seats);
    let mut first = last_seat(&live, &mut seats);
    begin_with_two(rt, &live, &mut first, &mut second, &mut third);
    sleeps_behind_another(rt, &live, &first, &mut second, &mut third)
}

#[test]
fn who_asks_another_one_wakes_who_sleeps(rt: HostRuntime) {
    assert!(&rt; is_woken_behind_another(&rt, rt.alloc()));
}
