//! Steps of driving, and calls that wait for a grace period: on one thread, and beside readers.
ghost use Rattle.std.specs.Prelude.{◌≡◌, ◌<◌, All};
ghost use Rattle.std.specs.Thread.{IsSync};

use crate::live::steps::{Four, Script, of_epoch};
use crate::live::threads::{Pair, last_seat, last_watcher, make_pair, opened};
use rcu_live::{CpuSeat, Watcher};
use rcu_seq::Fault;
use rcu_state::Turned;
use std::process::Abort;
use std::sync::Wait;
use std::sync::atomic::{AtomicU64, Ordering};
use std::thread;
use std::thread::Threads;

/// A callback asks for the first of two grace periods, and a cookie for the second one.
fn drive_on_one_thread<R: Abort + Wait>(script: &Script<'_, R>, seat: &mut CpuSeat)
    requires { seat.old.table ≡ script.now.live.now.table }
{
    script.drive(Ok(Turned::Nothing));
    script.queue(seat, 7, 1);
    script.drive(Ok(Turned::Nothing));
    script.tend(0, Ok((0, 1)));
    script.drive(Ok(Turned::Begun(1, 1)));
    script.drive(Ok(Turned::Waiting(1)));
    script.quiesce(seat, Ok(1));
    script.drive(Ok(Turned::Ended(4)));
    script.drive(Ok(Turned::Nothing));
    script.drive_for(4, Ok(Turned::Nothing));
    script.idle(seat, Ok(()));
    script.drive_for(8, Ok(Turned::Ended(8)));
    script.drive_for(8, Ok(Turned::Nothing));
    script.drive_for(12, Err(Fault::Exhausted));
}

#[test]
fn steps_of_driving(rt: HostRuntime) {
    let Pair {
        live,
        mut first,
        ..
    } = make_pair(&rt, rt.alloc());
    drive_on_one_thread(&Script::new(&rt, &live), &mut first);
}

/// Two grace periods up to the last number, and none in a section or after it. A processor that is
/// offline or idle waits as well.
fn wait_on_one_thread<R: Abort + Wait>(
    script: &Script<'_, R>,
    first: &mut CpuSeat,
    second: &mut CpuSeat,
    watcher: &mut Watcher,
)
    requires first { first.old.table ≡ script.now.live.now.table }
    requires second { second.old.table ≡ script.now.live.now.table }
    requires watcher { watcher.old.table ≡ script.now.live.now.table }
{
    script.enter(first, Ok(1));
    script.synchronize(first, watcher, Err(Fault::InSection));
    script.wait_for(first, watcher, 1, Err(Fault::InSection));
    script.wait_once(first, 1, Err(Fault::InSection));
    script.exit(first, Ok(0));
    script.synchronize(first, watcher, Ok(()));
    script.take(watcher, of_epoch(0, 8));
    script.wait_once(first, 8, Ok(()));
    script.idle(first, Ok(()));
    script.wait_for(second, watcher, 8, Ok(()));
    script.take(watcher, of_epoch(0, 12));
    script.wait_for(first, watcher, 8, Ok(()));
    script.synchronize(first, watcher, Err(Fault::Exhausted));
    script.wait_once(second, 12, Err(Fault::Exhausted));
}

#[test]
fn waits_up_to_the_last_number(rt: HostRuntime) {
    let Pair {
        live,
        mut first,
        mut second,
        mut watcher,
        other: _,
    } = make_pair(&rt, rt.alloc());
    let script = Script::new(&rt, &live);
    wait_on_one_thread(&script, &mut first, &mut second, &mut watcher);
}

/// The state shared by readers and an updater: which of two values is current, both values, and the
/// progress of a reader of one section and of the updater.
#[derive(Drop)]
struct Data {
    shown: AtomicU64,
    even: AtomicU64,
    odd: AtomicU64,
    entered: AtomicU64,
    calling: AtomicU64,
    left: AtomicU64,
}

/// The content of a value that no reader may still see.
const FREED: u64 = u64::MAX;

/// How often a reader of many sections reads.
const READS: u32 = 20_000;

/// How often the updater replaces the value that is shown.
const CHANGES: u64 = 200;

/// How often a thread checks whether another one got that far. It goes on also if no second thread
/// can be made.
const LOOKS: u32 = 100_000;

impl Data {
    fn new() -> Data {
        Data {
            shown: AtomicU64::new(0),
            even: AtomicU64::new(0),
            odd: AtomicU64::new(FREED),
            entered: AtomicU64::new(0),
            calling: AtomicU64::new(0),
            left: AtomicU64::new(0),
        }
    }

    fn slot(&self, version: u64) -> &AtomicU64 {
        if version % 2 == 0 {
            &self.even
        } else {
            &self.odd
        }
    }

    /// The value of the version that is shown.
    fn read(&self) -> u64 {
        let version = self.shown.load(Ordering::SeqCst);
        thread::yield_now();
        self.slot(version).load(Ordering::SeqCst)
    }
}

/// Waits until another thread gets that far, or for this many checks.
fn look_for(flag: &AtomicU64) {
    for _ in 0..LOOKS {
        if flag.load(Ordering::SeqCst) == 1 {
            return;
        }
        thread::yield_now();
    }
}

/// A reader, with its processor's seat.
#[derive(Drop)]
struct Reader<'a> {
    live: &'a Four,
    data: &'a Data,
    seat: CpuSeat,
    ghost seat_of: { seat.table ≡ live.now.table },
}

impl<'a> Reader<'a> {
    /// Reads in a section, and passes a quiescent state. Returns whether the value was not freed.
    fn read(&mut self) -> bool {
        let entered = self.seat.enter(self.live).is_ok();
        let value = self.data.read();
        let left = self.seat.exit(self.live).is_ok();
        let quiet = self.seat.quiesce(self.live).is_ok();
        entered && left && quiet && value != FREED
    }

    /// Reads many times, and takes the processor offline. Returns how many reads were right.
    fn read_on<R: Wait>(mut self, rt: &R) -> u32 {
        let mut right = 0u32;
        for _ in 0..READS {
            if self.read() {
                right = right.saturating_add(1);
            }
        }
        let Reader { live, mut seat, .. } = self;
        let _ = live.offline(rt, &mut seat);
        right
    }

    /// Keeps one section open until the updater waits for it, and says so right before its end.
    fn read_slowly<R: Wait>(self, rt: &R) {
        let Reader {
            live,
            data,
            mut seat,
            ..
        } = self;
        let _ = seat.enter(live);
        data.entered.store(1, Ordering::SeqCst);
        look_for(&data.calling);
        for _ in 0..1_000u32 {
            thread::yield_now();
        }
        data.left.store(1, Ordering::SeqCst);
        let _ = seat.exit(live);
        let _ = live.offline(rt, &mut seat);
    }
}

/// An updater, with the seat of processor 0 and a watcher.
#[derive(Drop)]
struct Updater<'a> {
    live: &'a Four,
    data: &'a Data,
    seat: CpuSeat,
    watcher: Watcher,
    ghost seat_of: { seat.table ≡ live.now.table },
    ghost watcher_of: { watcher.table ≡ live.now.table },
}

impl<'a> Updater<'a> {
    /// Shows the next version, and frees the value of the one before once no section can see it.
    fn replace<R: Wait>(&mut self, rt: &R, version: u64) -> bool {
        self.data.slot(version).store(version, Ordering::SeqCst);
        let before = self.data.shown.swap(version, Ordering::SeqCst);
        let waited = self.live.synchronize(rt, &mut self.seat, &mut self.watcher);
        self.data.slot(before).store(FREED, Ordering::SeqCst);
        waited.is_ok()
    }

    /// Replaces the value many times. Returns how often it waited.
    fn replace_all<R: Wait>(mut self, rt: &R) -> u64 {
        let mut waits = 0u64;
        for version in 1..=CHANGES {
            if self.replace(rt, version) {
                waits = waits.saturating_add(1);
            }
        }
        waits
    }

    /// Waits for a section that is open. Returns whether it had ended then.
    fn wait_for_one<R: Wait>(self, rt: &R) -> bool {
        let Updater {
            live,
            data,
            mut seat,
            mut watcher,
            ..
        } = self;
        look_for(&data.entered);
        data.calling.store(1, Ordering::SeqCst);
        let waited = live.synchronize(rt, &mut seat, &mut watcher);
        waited.is_ok() && data.left.load(Ordering::SeqCst) == 1
    }
}

/// A reader on the last processor that is left, which is online from now on.
fn next_reader<'a, R: Abort + Wait>(
    rt: &R,
    live: &'a Four,
    data: &'a Data,
    mut seat: CpuSeat,
) -> Reader<'a>
    requires { seat.table ≡ live.now.table }
{
    assert_eq!(rt; live.online(rt, &mut seat), Ok(()));
    Reader { live, data, seat }
}

/// Two readers beside the updater. If no thread can be made for it, the updater runs last.
fn replace_beside<R: Threads + Wait + Sync>(
    rt: &R,
    updater: Updater<'_>,
    one: Reader<'_>,
    other: Reader<'_>,
) -> (u64, (u32, u32)) {
    let readers = move || -> (u32, u32)
        requires { IsSync R.row }
    { thread::join(rt, move || one.read_on(rt), move || other.read_on(rt)) };
    thread::join(rt, move || updater.replace_all(rt), readers)
}

#[test]
fn no_reader_sees_what_is_freed_after_a_wait(rt: HostRuntime) {
    let (live, mut seats, mut watchers) = opened(&rt, rt.alloc(), 3, 1 << 62);
    let data = Data::new();
    let one = next_reader(&rt, &live, &data, last_seat(&live, &mut seats));
    let other = next_reader(&rt, &live, &data, last_seat(&live, &mut seats));
    let updater = Updater {
        live: &live,
        data: &data,
        seat: last_seat(&live, &mut seats),
        watcher: last_watcher(&live, &mut watchers),
    };
    let found = replace_beside(&rt, updater, one, other);
    assert_eq!(&rt; found, (CHANGES, (READS, READS)));
}

/// A slow reader beside the updater.
fn wait_beside<R: Threads + Wait + Sync>(
    rt: &R,
    updater: Updater<'_>,
    reader: Reader<'_>,
) -> (bool, ()) {
    thread::join(
        rt,
        move || updater.wait_for_one(rt),
        move || reader.read_slowly(rt),
    )
}

#[test]
fn a_section_that_was_open_has_ended_after_a_wait(rt: HostRuntime) {
    let Pair {
        live,
        first,
        second,
        watcher,
        other: _,
    } = make_pair(&rt, rt.alloc());
    let data = Data::new();
    let reader = next_reader(&rt, &live, &data, second);
    let updater = Updater {
        live: &live,
        data: &data,
        seat: first,
        watcher,
    };
    assert_eq!(&rt; wait_beside(&rt, updater, reader).0, true);
}
