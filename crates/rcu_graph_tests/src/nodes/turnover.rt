//! Two readers search a chain on threads of their own while its writer publishes and unlinks many
//! entries through three nodes: what a section found stays as it is, and none sees an entry older
//! than one before.
ghost use Rattle.std.specs.Prelude.{◌≡◌};
ghost use Rattle.std.specs.Thread.{IsSync};
ghost use Rattle.rcu_live.specs.CpuSeat.{IsSeatOf, after_word_step};
ghost use Rattle.rcu_graph.specs.Graph.{IsWalking};
ghost use Rattle.rcu_graph.specs.Planned.{of_plan, plan_of};
ghost use Rattle.rcu_graph.specs.declared.known.Known.TheVariants.{Idle};

use crate::compare::compare;
use crate::nodes::chain::{ChainWriter, PLAN};
use crate::nodes::{Chain, Engine, Seat};
use crate::seats::{next_online, next_seat};
use rcu_seq::Cookie;
use std::sync::Wait;
use std::thread;
use std::thread::Threads;

/// The key that is searched for.
const KEY: u64 = 5;

/// The value of the last entry, which stays. The values go up from 1.
const LAST: u64 = 4_001;

/// How often a reader searches at most: it ends also if no thread can be made for it.
const SEARCHES: u32 = 400_000;

/// Searches the chain twice. Returns the value of the entry that was found first, 0 if there was
/// none, and whether it stayed the same, and the second one was none before it.
fn look_twice(chain: &Chain, seat: &mut Seat) -> (u64, bool)
    requires sized { chain.now.plan ≡ plan_of 1 1 2 4 0 }
    requires walking { IsWalking chain.now seat.old }
    ensures state { seat.new ≡ after_word_step seat.old seat.new.view.client }
    ensures walking { IsWalking chain.now seat.new }
{
    let mut walk = chain.walk(seat);
    let Some(node) = walk.find(0, KEY) else {
        return (0, true);
    };
    let value = walk.read(node, 1);
    let is_same = walk.read(node, 0) == KEY && walk.read(node, 1) == value;
    match walk.find(0, KEY) {
        Some(later) => (value, is_same && value <= walk.read(later, 1)),
        None => (value, is_same),
    }
}

/// The same in a section of its own.
fn look_in_a_section(live: &Engine, chain: &Chain, seat: &mut Seat) -> (u64, bool)
    requires engine { live.now ≡ chain.now }
    requires sized { chain.now.plan ≡ plan_of 1 1 2 4 0 }
    requires seat { IsSeatOf chain.now seat.old }
    requires outside { seat.old.depth ≡ 0 }
    requires idle { seat.old.view.client ≡ of_plan chain.now.plan Idle }
    ensures seat { IsSeatOf chain.now seat.new }
    ensures outside { seat.new.depth ≡ 0 }
    ensures idle { seat.new.view.client ≡ of_plan chain.now.plan Idle }
{
    if seat.enter(live).is_err() {
        return (0, false);
    }
    let seen = look_twice(chain, seat);
    let Ok(_) = seat.exit(live) else {
        unreachable!()
    };
    seen
}

/// A reader, with its processor's seat.
#[derive(Drop)]
struct Reader<'a> {
    live: &'a Engine,
    chain: &'a Chain,
    seat: Seat,
    newest: u64,
    ghost engine: { live.now ≡ chain.now },
    ghost sized: { chain.now.plan ≡ plan_of 1 1 2 4 0 },
    ghost seat_of: { IsSeatOf chain.now seat },
    ghost outside: { seat.depth ≡ 0 },
    ghost idle: { seat.view.client ≡ of_plan chain.now.plan Idle },
}

impl<'a> Reader<'a> {
    /// Searches, and passes a quiescent state. Returns whether all that it saw was right.
    fn search(&mut self) -> bool {
        let (value, is_same) = look_in_a_section(self.live, self.chain, &mut self.seat);
        let is_newer = value == 0 || self.newest <= value;
        if value > 0 {
            self.newest = value;
        }
        let quiet = self.seat.quiesce(self.live);
        is_same && is_newer && quiet.is_ok()
    }

    /// Searches up to the last entry, and takes the processor offline.
    fn search_all<R: Wait>(mut self, rt: &R) -> bool {
        let mut right = true;
        for _ in 0..SEARCHES {
            right = self.search() && right;
            if !right || self.newest == LAST {
                break;
            }
        }
        let Reader { live, mut seat, .. } = self;
        let _ = live.offline(rt, &mut seat);
        right
    }
}

/// The writer, who drives the engine too, with the seat of processor 0.
#[derive(Drop)]
struct Updater<'a> {
    live: &'a Engine,
    kept: ChainWriter,
    seat: Seat,
    ghost seat_of: { IsSeatOf live.now seat },
}

impl<'a> Updater<'a> {
    /// Moves a grace period on, and looks which nodes are free.
    fn drive<R: Wait>(&mut self, rt: &R) {
        let number = self.kept.reclaim().saturating_add(4);
        let _ = self.live.drive_for(rt, Cookie { epoch: 0, number });
        let _ = self.seat.quiesce(self.live);
    }

    /// Publishes an entry in place of the one before, as soon as a node is free. Returns whether
    /// the writer let it.
    fn publish<R: Wait>(&mut self, rt: &R, value: u64) -> bool {
        for _ in rt.forever() {
            if let Ok(node) = self.kept.fill_free(&[KEY, value], None) {
                return self.kept.publish(0, node);
            }
            self.drive(rt);
        }
        false
    }

    /// Publishes an entry, and unlinks each fourth one again. Returns whether the writer let it.
    fn turn_over<R: Wait>(&mut self, rt: &R, value: u64) -> bool {
        let is_published = self.publish(rt, value);
        if value % 4 == 0 {
            return self.kept.unlink(0) && is_published;
        }
        is_published
    }

    /// Turns over all entries.
    fn publish_all<R: Wait>(mut self, rt: &R) -> bool {
        let mut right = true;
        for value in 1..=LAST {
            right = self.turn_over(rt, value) && right;
        }
        right
    }
}

/// Runs two readers beside the writer. If no thread can be made for the writer, it runs here last,
/// since it waits for readers, which never wait.
fn run_beside<R: Threads + Wait + Sync>(
    rt: &R,
    updater: Updater<'_>,
    a: Reader<'_>,
    b: Reader<'_>,
) -> (bool, (bool, bool)) {
    let readers = move || -> (bool, bool)
        requires { IsSync R.row }
    { thread::join(rt, move || a.search_all(rt), move || b.search_all(rt)) };
    thread::join(rt, move || updater.publish_all(rt), readers)
}

#[test]
fn readers_beside_a_turnover_of_nodes(rt: HostRuntime) {
    let Ok(opened) = Chain::open(rt.alloc(), 3, 4_000_000, PLAN) else {
        return;
    };
    let (mut seats, own) = (opened.seats, opened.own);
    let (live, chain) = (&opened.live, &opened.graph);
    let a = Reader {
        live,
        chain,
        seat: next_online(&rt, live, &mut seats),
        newest: 0,
    };
    let b = Reader {
        live,
        chain,
        seat: next_online(&rt, live, &mut seats),
        newest: 0,
    };
    let seat = next_seat(&rt, live, &mut seats);
    let Ok(kept) = ChainWriter::new(rt.alloc(), chain, own) else {
        return;
    };
    let updater = Updater { live, kept, seat };
    let right = run_beside(&rt, updater, a, b);
    compare(&rt, "writer and readers", right, (true, (true, true)));
}
