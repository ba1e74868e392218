//! Processors' seats: the next one that is left, and sections that one opens and closes.
ghost use Rattle.std.specs.Prelude.{◌≡◌, All};
ghost use Rattle.rcu_graph.specs.Graph.{IsOutside, IsWalking};

use crate::compare::compare;
use rcu_graph::{GraphEngine, GraphSeat, Shape};
use std::process::Abort;
use std::sync::Wait;

/// The seat of the last processor that is left.
pub(crate) fn next_seat<R: Abort, S: Shape>(
    rt: &R,
    live: &GraphEngine<4, 4, u64, S>,
    seats: &mut Vec<GraphSeat<S>>,
) -> GraphSeat<S>
    requires seats { All (IsOutside live.now) seats.old.items }
    ensures seats { All (IsOutside live.now) seats.new.items }
    ensures seat { IsOutside live.now result }
{
    seats.pop().expect(rt, "a processor is left")
}

/// The same, of a processor that is online from now on.
pub(crate) fn next_online<R: Abort + Wait, S: Shape>(
    rt: &R,
    live: &GraphEngine<4, 4, u64, S>,
    seats: &mut Vec<GraphSeat<S>>,
) -> GraphSeat<S>
    requires seats { All (IsOutside live.now) seats.old.items }
    ensures seats { All (IsOutside live.now) seats.new.items }
    ensures seat { IsOutside live.now result }
{
    let mut seat = next_seat(rt, live, seats);
    compare(rt, "online", live.online(rt, &mut seat), Ok(()));
    seat
}

/// Opens a section if none is open, and compares the depth.
pub(crate) fn enters<R: Abort, S: Shape>(
    rt: &R,
    live: &GraphEngine<4, 4, u64, S>,
    seat: &mut GraphSeat<S>,
)
    requires { IsOutside live.now seat.old }
    ensures walking { IsWalking live.now seat.new }
    ensures depth { seat.new.depth ≡ 1 }
{
    assert_eq!(rt; seat.enter(live), Ok(1));
}

/// Closes the section, which does not nest, and compares the depth.
pub(crate) fn exits<R: Abort, S: Shape>(
    rt: &R,
    live: &GraphEngine<4, 4, u64, S>,
    seat: &mut GraphSeat<S>,
)
    requires walking { IsWalking live.now seat.old }
    requires depth { seat.old.depth ≡ 1 }
    ensures { IsOutside live.now seat.new }
{
    compare(rt, "exit", seat.exit(live), Ok(0));
}
