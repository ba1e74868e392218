//! Three readers and a writer, each on a thread of its own: no version that is read is torn, and
//! none is older than one that the same reader saw before.
ghost use Rattle.std.specs.Prelude.{◌≡◌, All};
ghost use Rattle.std.specs.Thread.{IsSync};
ghost use Rattle.rcu_live.specs.CpuSeat.{IsSeatOf};
ghost use Rattle.rcu_graph.specs.Graph.{IsOutside};

use crate::cell::parts::drive;
use crate::compare::compare;
use crate::seats::{next_online, next_seat};
use rcu_cell::{Cell, CellRule, CellSeat, Invariant, Version, Writer};
use rcu_live::Live;
use std::process::Abort;
use std::sync::Wait;
use std::thread;
use std::thread::Threads;

/// The fact: each word of a version is its number.
struct Same;

impl Invariant for Same {
    ghost use Rattle.std.specs.Prelude.{◌≡◌, slice_index};

    ghost holds = { λ words. (slice_index words 1 ≡ slice_index words 0)
        × (slice_index words 2 ≡ slice_index words 0)
        × (slice_index words 3 ≡ slice_index words 0) };
}

impl Version<4> for Same {
    ghost use Rattle.std.specs.Prelude.{replicate};

    ghost first = { replicate 4 0 };

    fn first_word(_word: usize) -> u64 {
        0
    }
}

type Numbered = Cell<Same, 4>;

type Engine = Live<4, 4, u64, CellRule<Same, 4>>;

/// The last version that is published.
const LAST: u64 = 25_000;

/// How often a reader reads at most: it ends also if no thread can be made for it.
const READS: u32 = 4_000_000;

/// A reader, with its processor's seat.
#[derive(Drop)]
struct Reader<'a> {
    live: &'a Engine,
    cell: &'a Numbered,
    seat: CellSeat<Same, 4>,
    newest: u64,
    ghost engine: { live.now ≡ cell.now },
    ghost seat_of: { IsOutside live.now seat },
}

impl<'a> Reader<'a> {
    /// Reads a version, and passes a quiescent state. Answers whether the version is not torn, and
    /// none older than the one before.
    fn read(&mut self) -> bool {
        let Ok(words) = self.cell.read_section(self.live, &mut self.seat) else {
            return false;
        };
        let number = words[0];
        let whole = words[1] == number && words[2] == number && words[3] == number;
        let before = self.newest;
        self.newest = number;
        let quiet = self.seat.quiesce(self.live);
        whole && before <= number && quiet.is_ok()
    }

    /// Reads up to the last version, and takes the processor offline. Answers whether all reads
    /// were right.
    fn follow<R: Wait>(mut self, rt: &R) -> bool {
        let mut right = true;
        for _ in 0..READS {
            right = self.read() && right;
            if !right || self.newest == LAST {
                break;
            }
        }
        let Reader { live, mut seat, .. } = self;
        let _ = live.offline(rt, &mut seat);
        right
    }
}

/// The updater, which drives the engine too, with the seat of processor 0.
#[derive(Drop)]
struct Updater<'a> {
    live: &'a Engine,
    writer: Writer<Same, 4>,
    seat: CellSeat<Same, 4>,
    ghost seat_of: { IsSeatOf live.now seat },
}

impl<'a> Updater<'a> {
    /// Publishes a version, as soon as a slot is free.
    fn publish<R: Wait>(&mut self, rt: &R, version: u64) {
        for _ in rt.forever() {
            if self.writer.update(&[version; 4]).is_ok() {
                return;
            }
            drive(rt, self.live, &mut self.writer, &mut self.seat, 4);
        }
    }

    /// Publishes all versions.
    fn publish_all<R: Wait>(mut self, rt: &R) {
        for version in 1..=LAST {
            self.publish(rt, version);
        }
    }
}

/// Runs the readers and the updater. If no thread can be made for the updater, it runs here last,
/// since it waits for readers, which never wait.
fn run_beside<R: Threads + Wait + Sync>(
    rt: &R,
    updater: Updater<'_>,
    a: Reader<'_>,
    b: Reader<'_>,
    c: Reader<'_>,
) -> (bool, bool, bool) {
    let last = move || -> (bool, bool)
        requires { IsSync R.row }
    { thread::join(rt, move || b.follow(rt), move || c.follow(rt)) };
    let readers = move || -> (bool, (bool, bool))
        requires { IsSync R.row }
    { thread::join(rt, move || a.follow(rt), last) };
    let ((), (first, (second, third))) = thread::join(rt, move || updater.publish_all(rt), readers);
    (first, second, third)
}

/// A reader on the last processor that is left, which is online from now on.
fn next_reader<'a, R: Abort + Wait>(
    rt: &R,
    live: &'a Engine,
    cell: &'a Numbered,
    seats: &mut Vec<CellSeat<Same, 4>>,
) -> Reader<'a>
    requires engine { live.now ≡ cell.now }
    requires seats { All (IsOutside live.now) seats.old.items }
    ensures seats { All (IsOutside live.now) seats.new.items }
{
    let seat = next_online(rt, live, seats);
    Reader {
        live,
        cell,
        seat,
        newest: 0,
    }
}

/// Runs three readers and an updater on the cell. Answers whether what each reader saw was right.
fn run_on<R: Abort + Threads + Wait + Sync>(
    rt: &R,
    live: &Engine,
    cell: &Numbered,
    mut seats: Vec<CellSeat<Same, 4>>,
    writer: Writer<Same, 4>,
) -> (bool, bool, bool)
    requires engine { live.now ≡ cell.now }
    requires seats { All (IsOutside live.now) seats.items }
{
    let a = next_reader(rt, live, cell, &mut seats);
    let b = next_reader(rt, live, cell, &mut seats);
    let c = next_reader(rt, live, cell, &mut seats);
    let seat = next_seat(rt, live, &mut seats);
    let updater = Updater { live, writer, seat };
    run_beside(rt, updater, a, b, c)
}

#[test]
fn readers_beside_a_writer(rt: HostRuntime) {
    let Ok(opened) = Numbered::open(rt.alloc(), 4, 4_000_000, 64, &[0; 4]) else {
        return;
    };
    let (seats, writer) = (opened.seats, opened.writer);
    let right = run_on(&rt, &opened.live, &opened.cell, seats, writer);
    compare(&rt, "readers", right, (true, true, true));
}
