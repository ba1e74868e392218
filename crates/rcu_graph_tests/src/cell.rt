//! A version's slot over one grace period.
ghost use Rattle.std.specs.Prelude.{◌≡◌};
ghost use Rattle.rcu_graph.specs.Graph.{IsOutside};

mod limits;
mod parts;
mod service;
mod sizes;
mod threads;
mod versions;
mod waits;

use crate::compare::compare;
use rcu_cell::{Cell, CellRule, CellSeat, Full, Invariant, Retired, Version, Writer};
use rcu_live::{Collected, Live};
use rcu_state::Turned;
use std::process::Abort;
use std::sync::Wait;

/// No fact: any words are a version.
pub(crate) struct Any;

impl Invariant for Any {
    ghost holds = { λ _. Unit {0} };
}

impl<const W: usize> Version<W> for Any {
    ghost use Rattle.std.specs.Prelude.{replicate};

    ghost first = { replicate W 0 };

    fn first_word(_word: usize) -> u64 {
        0
    }
}

type Pairs = Cell<Any, 2>;

type Engine = Live<4, 4, u64, CellRule<Any, 2>>;

/// One grace period, which a callback needs. If its queue call is refused memory, the same call is
/// made again.
fn pass_a_period<R: Abort + Wait>(rt: &R, live: &Engine, seat: &mut CellSeat<Any, 2>)
    requires seat { IsOutside live.now seat.old }
    ensures seat { IsOutside live.now seat.new }
{
    assert!(rt; live.queue(rt, seat, 7).is_ok() || live.queue(rt, seat, 7).is_ok());
    compare(rt, "tend", live.tend(rt, 0), Ok((0, 1)));
    compare(rt, "turn", live.turn(rt), Ok(Turned::Begun(1, 1)));
    compare(rt, "quiesce", seat.quiesce(live), Ok(1));
    compare(rt, "collect", live.collect(rt, 0), Ok(Collected::Last));
    compare(rt, "turn", live.turn(rt), Ok(Turned::Ended(4)));
}

/// Has the writer show these words, and compares what it answers.
fn shows<R: Abort>(
    rt: &R,
    writer: &mut Writer<Any, 2>,
    words: [u64; 2],
    wanted: Result<Retired, Full>,
) {
    compare(rt, words, writer.update(&words), wanted);
}

/// Reads in a section of its own, and compares the words.
fn reads<R: Abort>(
    rt: &R,
    live: &Engine,
    cell: &Pairs,
    seat: &mut CellSeat<Any, 2>,
    wanted: [u64; 2],
)
    requires engine { live.now ≡ cell.now }
    requires seat { IsOutside live.now seat.old }
    ensures seat { IsOutside live.now seat.new }
{
    let found = cell.read_section(live, seat);
    compare(rt, "read_section", found, Ok(wanted));
}

/// Two slots show one version after the other: the first is free for a third once a grace period
/// has passed, and the writer has looked.
fn use_a_slot_again<R: Abort + Wait>(
    rt: &R,
    live: &Engine,
    cell: &Pairs,
    seat: &mut CellSeat<Any, 2>,
    writer: &mut Writer<Any, 2>,
)
    requires engine { live.now ≡ cell.now }
    requires seat { IsOutside live.now seat.old }
{
    reads(rt, live, cell, seat, [1, 1]);
    shows(rt, writer, [2, 2], Ok(Retired { slot: 1, by: 2 }));
    reads(rt, live, cell, seat, [2, 2]);
    shows(rt, writer, [3, 3], Err(Full));
    compare(rt, "reclaim", writer.reclaim(), 0);
    shows(rt, writer, [3, 3], Err(Full));
    pass_a_period(rt, live, seat);
    shows(rt, writer, [3, 3], Err(Full));
    compare(rt, "reclaim", writer.reclaim(), 4);
    shows(rt, writer, [3, 3], Ok(Retired { slot: 2, by: 1 }));
    reads(rt, live, cell, seat, [3, 3]);
}

#[test]
fn slot_is_used_again_after_a_period(rt: HostRuntime) {
    let Ok(mut opened) = Pairs::open(rt.alloc(), 1, 8, 2, &[1, 1]) else {
        return;
    };
    let mut seat = opened.seats.pop().unwrap();
    use_a_slot_again(
        &rt,
        &opened.live,
        &opened.cell,
        &mut seat,
        &mut opened.writer,
    );
}
