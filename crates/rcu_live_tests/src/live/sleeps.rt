//! Waits that sleep, and each way in which a reader's thread wakes them. If a wake-up is lost, such
//! a test runs for ever: no thread stores an own word any more.
ghost use Rattle.std.specs.Prelude.{◌≡◌};
ghost use Rattle.std.specs.Thread.{IsSync};

use crate::live::steps::Four;
use crate::live::threads::{Pair, last_seat, last_watcher, make_pair, opened};
use rcu_live::{CpuSeat, Watcher};
use std::alloc::Global;
use std::process::Abort;
use std::sync::Wait;
use std::thread;
use std::thread::Threads;

/// How a reader's thread reports: by its one store behind the begin.
#[derive(Clone, Copy, Debug, PartialEq, Eq)]
pub(crate) enum Report {
    Quiesce,
    QuiesceSince,
    Renew,
    Repin,
    Unpin,
    Idle,
    Depart,
    /// As `Quiesce`; then it ends the grace period itself.
    QuiesceAndEnd,
}

/// How often a reader yields before it reports: long enough for the waiter to sleep.
const TURNS: u32 = 5_000;

/// How often a reader looks for a begin. If no second thread can be made it finds none.
const LOOKS: u32 = 100_000;

/// How often two waits are tried.
const TRIES: u32 = 20;

/// A waiter for a grace period, with a processor's seat and a watcher.
#[derive(Drop)]
struct Waiter<'a> {
    live: &'a Four,
    seat: CpuSeat,
    watcher: Watcher,
    ghost seat_of: { seat.table ≡ live.now.table },
    ghost watcher_of: { watcher.table ≡ live.now.table },
}

impl<'a> Waiter<'a> {
    /// Waits for a grace period, and is idle from then on. Returns whether it did.
    fn wait<R: Wait>(self, rt: &R) -> bool {
        let Waiter {
            live,
            mut seat,
            mut watcher,
            ..
        } = self;
        let waited = live.synchronize(rt, &mut seat, &mut watcher).is_ok();
        let _ = seat.idle(live);
        waited
    }
}

/// A reader, with its processor's seat and a watcher.
#[derive(Drop)]
struct Reader<'a> {
    live: &'a Four,
    seat: CpuSeat,
    watcher: Watcher,
    ghost seat_of: { seat.table ≡ live.now.table },
    ghost watcher_of: { watcher.table ≡ live.now.table },
}

impl<'a> Reader<'a> {
    /// Returns whether a grace period has begun.
    fn finds_a_begin(&mut self) -> bool {
        self.watcher.number(self.live) > 0
    }

    /// Looks for a begin, this many times.
    fn looks_for_a_begin(&mut self) -> bool {
        for _ in 0..LOOKS {
            if self.finds_a_begin() {
                return true;
            }
            thread::yield_now();
        }
        false
    }

    /// Keeps a section open until a grace period has begun, and long enough for the waiter to
    /// sleep, and then reports. If none begins it departs.
    fn read_and_report<R: Wait>(mut self, rt: &R, report: Report) {
        let live = self.live;
        let _ = self.seat.enter(live);
        if !self.looks_for_a_begin() {
            return self.end_section(rt, Report::Depart);
        }
        for _ in 0..TURNS {
            thread::yield_now();
        }
        self.end_section(rt, report);
    }

    /// Ends the section, if it has to, and reports so.
    fn end_section<R: Wait>(self, rt: &R, report: Report) {
        let Reader { live, mut seat, .. } = self;
        match report {
            Report::Renew => {
                let _ = seat.renew(live);
            }
            Report::Repin => {
                let _ = seat.repin(live);
            }
            Report::Unpin => {
                let _ = seat.unpin(live);
            }
            _ => report_outside(rt, live, &mut seat, report),
        }
    }
}

/// Ends the section, and reports so.
fn report_outside<R: Wait>(rt: &R, live: &Four, seat: &mut CpuSeat, report: Report)
    requires { seat.old.table ≡ live.now.table }
{
    let _ = seat.exit(live);
    match report {
        Report::Idle => {
            let _ = seat.idle(live);
        }
        Report::Depart => {
            let _ = live.offline(rt, seat);
        }
        Report::QuiesceSince => {
            let _ = seat.quiesce_since(live);
        }
        _ => {
            let _ = seat.quiesce(live);
        }
    }
    if report == Report::QuiesceAndEnd {
        let _ = live.drive(rt);
    }
}

/// A reader whose processor is online from now on.
fn next_reader<'a, R: Abort + Wait>(
    rt: &R,
    live: &'a Four,
    mut seat: CpuSeat,
    watcher: Watcher,
) -> Reader<'a>
    requires seat { seat.table ≡ live.now.table }
    requires watcher { watcher.table ≡ live.now.table }
{
    assert_eq!(rt; live.online(rt, &mut seat), Ok(()));
    Reader {
        live,
        seat,
        watcher,
    }
}

/// A wait beside a reader. If no thread can be made for it, the wait comes last.
fn wait_beside<R: Threads + Wait + Sync>(
    rt: &R,
    waiter: Waiter<'_>,
    reader: Reader<'_>,
    report: Report,
) -> bool {
    let (waited, ()) = thread::join(
        rt,
        move || waiter.wait(rt),
        move || reader.read_and_report(rt, report),
    );
    waited
}

/// A wait that sleeps is woken by this report.
fn is_woken_by<R: Abort + Threads + Wait + Sync>(rt: &R, alloc: Global, report: Report) {
    let Pair {
        live,
        first,
        second,
        watcher,
        other,
    } = make_pair(rt, alloc);
    let reader = next_reader(rt, &live, second, other);
    let waiter = Waiter {
        live: &live,
        seat: first,
        watcher,
    };
    assert_eq!(rt;
        (report, wait_beside(rt, waiter, reader, report)),
        (report, true)
    );
}

#[test]
fn a_wait_that_sleeps_is_woken(rt: HostRuntime) {
    is_woken_by(&rt, rt.alloc(), Report::Quiesce);
    is_woken_by(&rt, rt.alloc(), Report::QuiesceSince);
    is_woken_by(&rt, rt.alloc(), Report::Renew);
    is_woken_by(&rt, rt.alloc(), Report::Repin);
    is_woken_by(&rt, rt.alloc(), Report::Unpin);
    is_woken_by(&rt, rt.alloc(), Report::Idle);
    is_woken_by(&rt, rt.alloc(), Report::Depart);
}

#[test]
fn a_wait_that_sleeps_is_woken_by_an_end_of_another_thread(rt: HostRuntime) {
    is_woken_by(&rt, rt.alloc(), Report::QuiesceAndEnd);
}

/// Two waits beside a reader, the first one of an idle processor. If no thread can be made for
/// them, they come last, in turn.
fn wait_twice_beside<R: Threads + Wait + Sync>(
    rt: &R,
    first: Waiter<'_>,
    second: Waiter<'_>,
    reader: Reader<'_>,
) -> (bool, bool) {
    let others = move || -> bool
        requires { IsSync R.row }
    { wait_beside(rt, second, reader, Report::Idle) };
    thread::join(rt, move || first.wait(rt), others)
}

/// Two waits that sleep are woken, whomever they ask.
fn are_both_woken<R: Abort + Threads + Wait + Sync>(rt: &R, alloc: Global) {
    let (live, mut seats, mut watchers) = opened(rt, alloc, 3, 1 << 62);
    let (seat, watcher) = (
        last_seat(&live, &mut seats),
        last_watcher(&live, &mut watchers),
    );
    let reader = next_reader(rt, &live, seat, watcher);
    let mut seat = last_seat(&live, &mut seats);
    assert_eq!(rt; live.online(rt, &mut seat), Ok(()));
    let second = Waiter {
        live: &live,
        seat,
        watcher: last_watcher(&live, &mut watchers),
    };
    let mut seat = last_seat(&live, &mut seats);
    assert_eq!(rt; seat.idle(&live), Ok(()));
    let first = Waiter {
        live: &live,
        seat,
        watcher: last_watcher(&live, &mut watchers),
    };
    assert_eq!(rt; wait_twice_beside(rt, first, second, reader), (true, true));
}

#[test]
fn two_waits_that_sleep_are_woken(rt: HostRuntime) {
    for _ in 0..TRIES {
        are_both_woken(&rt, rt.alloc());
    }
}
