//! A reader beside a watcher on two threads, meetings, arrivals and departures, and the opening.
ghost use Rattle.std.specs.Prelude.{◌≡◌, ◌+◌, ◌<◌, All, length};

use crate::live::steps::{Four, Script, of_epoch};
use rcu_live::{CpuSeat, Live, Watcher};
use rcu_seq::{Cookie, Fault};
use std::alloc::Global;
use std::process::Abort;
use std::sync::Wait;
use std::thread;
use std::thread::Threads;

/// An object of this many processors, opened by a second call if the first is refused memory.
pub(crate) fn opened<R: Abort>(
    rt: &R,
    alloc: Global,
    cpus: u32,
    last: u64,
) -> (Four, Vec<CpuSeat>, Vec<Watcher>)
    ensures seat_count { length result.1.items ≡ cpus }
    ensures watcher_count { length result.2.items ≡ cpus }
    ensures seats { All (λ seat. seat.table ≡ result.0.table) result.1.items }
    ensures watchers { All (λ watcher. watcher.table ≡ result.0.table) result.2.items }
{
    match Four::open(alloc, cpus, last) {
        Ok(opened) => opened,
        Err(fault) => {
            assert_eq!(rt; fault, Fault::NoMemory);
            Four::open(alloc, cpus, last).expect(rt, "the second call has memory")
        }
    }
}

/// The last of an object's seats.
pub(crate) fn last_seat(live: &Four, seats: &mut Vec<CpuSeat>) -> CpuSeat
    requires some { 0 < length seats.old.items }
    requires each { All (λ seat. seat.table ≡ live.now.table) seats.old.items }
    ensures seat { result.table ≡ live.now.table }
    ensures fewer { length seats.new.items + 1 ≡ length seats.old.items }
    ensures each { All (λ seat. seat.table ≡ live.now.table) seats.new.items }
{
    seats.pop().unwrap()
}

/// The last of an object's watchers.
pub(crate) fn last_watcher(live: &Four, watchers: &mut Vec<Watcher>) -> Watcher
    requires some { 0 < length watchers.old.items }
    requires each { All (λ watcher. watcher.table ≡ live.now.table) watchers.old.items }
    ensures watcher { result.table ≡ live.now.table }
    ensures fewer { length watchers.new.items + 1 ≡ length watchers.old.items }
    ensures each { All (λ watcher. watcher.table ≡ live.now.table) watchers.new.items }
{
    watchers.pop().unwrap()
}

/// An object of two processors, with the seats and the watchers of processors 0 and 1.
#[derive(Drop)]
pub(crate) struct Pair {
    pub(crate) live: Four,
    pub(crate) first: CpuSeat,
    pub(crate) second: CpuSeat,
    pub(crate) watcher: Watcher,
    pub(crate) other: Watcher,
}

/// Opens such an object.
pub(crate) fn make_pair<R: Abort>(rt: &R, alloc: Global) -> Pair
    ensures first { result.first.table ≡ result.live.table }
    ensures second { result.second.table ≡ result.live.table }
    ensures watcher { result.watcher.table ≡ result.live.table }
    ensures other { result.other.table ≡ result.live.table }
{
    let (live, mut seats, mut watchers) = opened(rt, alloc, 2, 8);
    let second = last_seat(&live, &mut seats);
    let first = last_seat(&live, &mut seats);
    let other = last_watcher(&live, &mut watchers);
    let watcher = last_watcher(&live, &mut watchers);
    Pair {
        live,
        first,
        second,
        watcher,
        other,
    }
}

/// Returns a watcher's answers: its cookie, whether that one is done, and whether the cookie 1 is.
fn watch(live: &Four, mut watcher: Watcher) -> (Cookie, bool, bool)
    requires { watcher.table ≡ live.now.table }
{
    let cookie = watcher.take(live);
    let early = watcher.poll(live, cookie);
    (cookie, early, watcher.poll(live, of_epoch(0, 1)))
}

/// The reader's section is open while the watcher runs on another thread.
fn beside<R: Threads + Sync>(
    rt: &R,
    live: &Four,
    reader: &mut CpuSeat,
    watcher: Watcher,
) -> (Result<u32, Fault>, (Cookie, bool, bool))
    requires reader { reader.old.table ≡ live.now.table }
    requires watcher { watcher.table ≡ live.now.table }
    ensures { reader.new.table ≡ reader.old.table }
{
    let entered = reader.enter(live);
    let (told, ()) = thread::join(
        rt,
        move || -> (Cookie, bool, bool)
            requires { watcher.table ≡ live.now.table }
        { watch(live, watcher) },
        || {},
    );
    (entered, told)
}

#[test]
fn reader_beside_a_watcher(rt: HostRuntime) {
    let Pair {
        live,
        mut first,
        mut second,
        watcher,
        mut other,
    } = make_pair(&rt, rt.alloc());
    let (entered, told) = beside(&rt, &live, &mut first, watcher);
    assert_eq!(rt; entered, Ok(1));
    assert_eq!(rt; told, (of_epoch(0, 4), false, true));
    leave_section(
        &Script::new(&rt, &live),
        &mut first,
        &mut second,
        &mut other,
    );
}

/// The reader's section, as another watcher meets it, ends.
fn leave_section<R: Abort + Wait>(
    script: &Script<'_, R>,
    reader: &mut CpuSeat,
    offline: &mut CpuSeat,
    watcher: &mut Watcher,
)
    requires reader { reader.old.table ≡ script.now.live.now.table }
    requires offline { offline.old.table ≡ script.now.live.now.table }
    requires watcher { watcher.old.table ≡ script.now.live.now.table }
{
    script.meet(reader, watcher, Some(0), 0);
    script.quiesce(reader, Err(Fault::InSection));
    script.exit(reader, Ok(0));
    script.quiesce(reader, Ok(0));
    script.enter(offline, Err(Fault::Offline));
    script.meet(reader, watcher, None, 0);
}

/// A seat that is offline arrives, reads, and departs.
fn come_and_go<R: Abort + Wait>(script: &Script<'_, R>, seat: &mut CpuSeat)
    requires { seat.old.table ≡ script.now.live.now.table }
{
    script.offline(seat, Err(Fault::Offline));
    script.online(seat, Ok(()));
    script.online(seat, Err(Fault::AlreadyOnline));
    script.enter(seat, Ok(1));
    script.enter(seat, Ok(2));
    script.offline(seat, Err(Fault::InSection));
    script.exit(seat, Ok(1));
    script.exit(seat, Ok(0));
    script.exit(seat, Err(Fault::NotOpen));
    script.offline(seat, Ok(0));
    script.quiesce(seat, Err(Fault::Offline));
}

#[test]
fn arrival_and_departure(rt: HostRuntime) {
    let Pair {
        live,
        mut first,
        mut second,
        watcher: _,
        other: _,
    } = make_pair(&rt, rt.alloc());
    let script = Script::new(&rt, &live);
    come_and_go(&script, &mut second);
    script.offline(&mut first, Err(Fault::BootStays));
}

/// No object of this many processors opens with this last number.
fn is_refused(rt: &impl Abort, alloc: Global, cpus: u32, last: u64, fault: Fault) {
    let found = Four::open(alloc, cpus, last).err();
    assert_eq!(rt; (cpus, last, found), (cpus, last, Some(fault)));
}

#[test]
fn refused_openings(rt: HostRuntime) {
    is_refused(&rt, rt.alloc(), 0, 8, Fault::TooManyCpus);
    is_refused(&rt, rt.alloc(), 257, 6, Fault::TooManyCpus);
    is_refused(&rt, rt.alloc(), 256, 6, Fault::BadLast);
    is_refused(&rt, rt.alloc(), 256, 0, Fault::BadLast);
}

/// Opens an object of this many processors, by a second call if the first is refused memory.
fn opens(rt: &impl Abort, alloc: Global, cpus: u32, last: u64) -> Result<usize, Fault> {
    let mut opened = Live::<64, 64, u64>::open(alloc, cpus, last);
    if matches!(opened, Err(Fault::NoMemory)) {
        opened = Live::open(alloc, cpus, last);
    }
    let (_, seats, watchers) = opened?;
    assert_eq!(rt; seats.len(), watchers.len());
    Ok(seats.len())
}

/// Compares what comes of opening an object.
fn has_size(rt: &impl Abort, alloc: Global, cpus: u32, last: u64, wanted: Result<usize, Fault>) {
    assert_eq!(rt;
        (cpus, last, opens(rt, alloc, cpus, last)),
        (cpus, last, wanted)
    );
}

#[test]
fn sizes(rt: HostRuntime) {
    has_size(&rt, rt.alloc(), 1, 4, Ok(1));
    has_size(&rt, rt.alloc(), 4096, 1 << 62, Ok(4096));
    has_size(&rt, rt.alloc(), 4097, 4, Err(Fault::TooManyCpus));
    has_size(&rt, rt.alloc(), 4096, (1 << 62) + 4, Err(Fault::BadLast));
}

/// A reader on a processor's seat.
#[derive(Drop)]
struct Reader {
    live: Four,
    seat: CpuSeat,
    ghost seat_of: { seat.table ≡ live.table },
}

impl Reader {
    fn enter(&mut self) -> Result<u32, Fault> {
        self.seat.enter(&self.live)
    }

    fn exit(&mut self) -> Result<u32, Fault> {
        self.seat.exit(&self.live)
    }
}

#[test]
fn sections_nest_up_to_a_depth(rt: HostRuntime) {
    let Pair {
        live,
        first: seat,
        second: _,
        watcher: _,
        other: _,
    } = make_pair(&rt, rt.alloc());
    nest(&rt, &mut Reader { live, seat });
}

/// Enters as often as sections nest, once more, and exits once.
fn nest(rt: &impl Abort, reader: &mut Reader) {
    for depth in 1..=65_535 {
        assert_eq!(rt; reader.enter(), Ok(depth));
    }
    assert_eq!(rt; reader.enter(), Err(Fault::NestFull));
    assert_eq!(rt; reader.exit(), Ok(65_534));
}
