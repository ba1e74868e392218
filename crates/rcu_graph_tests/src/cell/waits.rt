//! Updates that wait for a free slot: on one thread, and beside a slow reader.
ghost use Rattle.std.specs.Prelude.{◌≡◌, ◌≤◌};
ghost use Rattle.rcu_live.specs.CpuSeat.{IsSeatOf};
ghost use Rattle.rcu_graph.specs.Graph.{IsOutside, IsWatcherOf};

use crate::cell::limits::{Limits, Shared, SharedEngine};
use crate::cell::{Any, Engine, Pairs};
use crate::compare::compare;
use crate::seats::{next_online, next_seat};
use rcu_cell::{CellSeat, Retired, Value, Writer};
use rcu_seq::Fault;
use std::process::Abort;
use std::sync::Wait;
use std::thread;
use std::thread::Threads;

/// Has the writer show these words, and compares what it answers.
fn shows<R: Abort + Wait>(
    rt: &R,
    live: &Engine,
    writer: &mut Writer<Any, 2>,
    seat: &mut CellSeat<Any, 2>,
    words: [u64; 2],
    wanted: Result<Retired, Fault>,
)
    requires writer { IsWatcherOf live.now writer.old }
    requires seat { IsSeatOf live.now seat.old }
    ensures writer { IsWatcherOf live.now writer.new }
    ensures seat { IsSeatOf live.now seat.new }
    ensures depth { seat.new.depth ≡ seat.old.depth }
{
    let found = writer.update_or_wait(rt, live, seat, &words);
    compare(rt, words, found, wanted);
}

/// A second version is shown at once, a third one after a grace period, and no fourth one, since
/// the last number is reached.
fn update_up_to_the_last_number<R: Abort + Wait>(
    rt: &R,
    live: &Engine,
    writer: &mut Writer<Any, 2>,
    seat: &mut CellSeat<Any, 2>,
)
    requires writer { IsWatcherOf live.now writer.old }
    requires seat { IsSeatOf live.now seat.old }
{
    compare(rt, "enter", seat.enter(live), Ok(1));
    shows(rt, live, writer, seat, [2, 2], Err(Fault::InSection));
    compare(rt, "exit", seat.exit(live), Ok(0));
    shows(
        rt,
        live,
        writer,
        seat,
        [2, 2],
        Ok(Retired { slot: 1, by: 2 }),
    );
    shows(
        rt,
        live,
        writer,
        seat,
        [3, 3],
        Ok(Retired { slot: 2, by: 1 }),
    );
    shows(rt, live, writer, seat, [4, 4], Err(Fault::Exhausted));
    shows(rt, live, writer, seat, [4, 4], Err(Fault::Exhausted));
}

#[test]
fn updates_wait_up_to_the_last_number(rt: HostRuntime) {
    let Ok(mut opened) = Pairs::open(rt.alloc(), 1, 4, 2, &[1, 1]) else {
        return;
    };
    let mut seat = opened.seats.pop().unwrap();
    update_up_to_the_last_number(&rt, &opened.live, &mut opened.writer, &mut seat);
}

/// How often the limits are replaced, in two slots: each change but the first waits for a grace
/// period.
const CHANGES: u32 = 200;

/// How often the reader reads.
const READS: u32 = 2_000;

/// A slow reader, with its processor's seat.
#[derive(Drop)]
struct Reader<'a> {
    live: &'a SharedEngine,
    cell: &'a Shared,
    seat: CellSeat<Limits, 2>,
    newest: u32,
    ghost engine: { live.now ≡ cell.now },
    ghost seat_of: { IsOutside live.now seat },
}

impl<'a> Reader<'a> {
    /// Reads in a section, and lets other threads run. Returns whether the limits were none older
    /// than those before.
    fn read(&mut self) -> bool {
        let Ok(limits) = self.cell.value_section(self.live, &mut self.seat) else {
            return false;
        };
        thread::yield_now();
        let before = self.newest;
        self.newest = limits.rate;
        let quiet = self.seat.quiesce(self.live);
        before <= limits.rate && quiet.is_ok()
    }

    /// Reads many times, and takes the processor offline. Returns how many reads were right.
    fn read_on<R: Wait>(mut self, rt: &R) -> u32 {
        let mut right = 0u32;
        for _ in 0..READS {
            if self.read() {
                right = right.saturating_add(1);
            }
        }
        let Reader { live, mut seat, .. } = self;
        let _ = live.offline(rt, &mut seat);
        right
    }
}

/// The control, which replaces the limits, with the seat of processor 0.
#[derive(Drop)]
struct Control<'a> {
    live: &'a SharedEngine,
    writer: Writer<Limits, 2>,
    seat: CellSeat<Limits, 2>,
    ghost writer_of: { IsWatcherOf live.now writer },
    ghost seat_of: { IsSeatOf live.now seat },
}

impl<'a> Control<'a> {
    fn replace<R: Wait>(&mut self, rt: &R, limits: Limits) -> bool
        requires { limits.rate ≤ limits.burst }
    {
        self.writer
            .update_value_or_wait(rt, self.live, &mut self.seat, limits)
            .is_ok()
    }

    /// Replaces the limits many times. Returns how often it did.
    fn work<R: Wait>(mut self, rt: &R) -> u32 {
        let mut changes = 0u32;
        for rate in 1..=CHANGES {
            let burst = rate + 10;
            if self.replace(rt, Limits { rate, burst }) {
                changes = changes.saturating_add(1);
            }
        }
        changes
    }
}

/// The control beside the reader. If no thread can be made, the control runs last.
fn run_beside<R: Threads + Wait + Sync>(
    rt: &R,
    control: Control<'_>,
    reader: Reader<'_>,
) -> (u32, u32) {
    thread::join(rt, move || control.work(rt), move || reader.read_on(rt))
}

#[test]
fn limits_are_replaced_in_two_slots(rt: HostRuntime) {
    let first = Limits { rate: 0, burst: 1 };
    let Ok(opened) = Shared::open(rt.alloc(), 2, 4_000_000, 2, &first.to_words()) else {
        return;
    };
    let (mut seats, writer) = (opened.seats, opened.writer);
    let (live, cell) = (&opened.live, &opened.cell);
    let reader = Reader {
        live,
        cell,
        seat: next_online(&rt, live, &mut seats),
        newest: 0,
    };
    let seat = next_seat(&rt, live, &mut seats);
    let control = Control { live, writer, seat };
    let found = run_beside(&rt, control, reader);
    compare(&rt, "changes and reads", found, (CHANGES, READS));
}
