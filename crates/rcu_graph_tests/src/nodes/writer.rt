//! A writer's calls on one thread: a full chain is unlinked by one store, and its nodes are free
//! again after a full grace period, and no sooner; the node that was freed last is used first.
ghost use Rattle.std.specs.Prelude.{◌≡◌, ◌<◌, All};
ghost use Rattle.rcu_live.specs.CpuSeat.{IsSeatOf};

use crate::compare::compare;
use crate::nodes::chain::{ChainWriter, PLAN};
use crate::nodes::{Chain, Engine, Seat};
use rcu_graph::Full;
use rcu_seq::Cookie;
use rcu_state::Turned;
use std::process::Abort;
use std::sync::Wait;

/// The grace periods of the one processor.
#[derive(Drop)]
struct Periods<'a, R> {
    rt: &'a R,
    live: &'a Engine,
    seat: Seat,
    ghost seat_of: { IsSeatOf live.now seat },
    ghost outside: { seat.depth ≡ 0 },
}

impl<'a, R: Abort + Wait> Periods<'a, R> {
    /// Those of the processor that has the last one of these seats.
    fn of(rt: &'a R, live: &'a Engine, mut seats: Vec<Seat>) -> Self
        requires seats { All (IsSeatOf live.now) seats.items }
        requires outside { All (λ seat. seat.depth ≡ 0) seats.items }
    {
        let seat = seats.pop().expect(rt, "a processor is left");
        Periods { rt, live, seat }
    }

    /// Drives for a waiter for this number, and compares the answer.
    fn drives(&self, number: u64, wanted: Turned) {
        let turned = self.live.drive_for(self.rt, Cookie { epoch: 0, number });
        compare(self.rt, number, turned, Ok(wanted));
    }

    /// A grace period of this number begins.
    fn begin(&self, number: u64) {
        self.drives(number.saturating_add(3), Turned::Begun(number, 1));
    }

    /// The grace period of this number ends.
    fn end(&mut self, number: u64) {
        compare(self.rt, "quiesce", self.seat.quiesce(self.live), Ok(number));
        let end = number.saturating_add(3);
        self.drives(end, Turned::Ended(end));
    }
}

const FREE: (bool, bool) = (true, false);

const LIVE: (bool, bool) = (false, true);

/// Unlinked, or retired.
const GONE: (bool, bool) = (false, false);

/// Returns whether a node is free, and whether it is live.
fn state(kept: &ChainWriter, node: usize) -> (bool, bool)
    requires { node < 4 }
{
    (kept.writer.is_free(node), kept.writer.is_live(node))
}

/// Adds a node with a key behind another one, and compares the writer's knowledge about it. Returns
/// the node.
fn add<R: Abort>(rt: &R, kept: &mut ChainWriter, from: usize, key: u64) -> usize
    requires { from < 4 }
    ensures { result < 4 }
{
    let node = kept
        .fill_free(&[key, key / 2], None)
        .ok()
        .expect(rt, "a node is free");
    let words = (kept.writer.word(node, 0), kept.writer.word(node, 1));
    compare(rt, key, state(kept, node), FREE);
    compare(rt, key, words, (key, key / 2));
    compare(rt, key, kept.writer.link_of(node, 0), None);
    assert!(rt; kept.publish(from, node));
    assert!(rt; !kept.publish(from, node));
    compare(rt, key, state(kept, node), LIVE);
    compare(rt, key, kept.writer.link_of(from, 0), Some(node));
    node
}

/// A chain of all nodes.
fn fill_up<R: Abort>(rt: &R, kept: &mut ChainWriter) -> (usize, usize, usize)
    ensures first { result.0 < 4 }
    ensures second { result.1 < 4 }
    ensures third { result.2 < 4 }
{
    let first = add(rt, kept, 0, 10);
    let second = add(rt, kept, first, 20);
    let third = add(rt, kept, second, 30);
    compare(rt, "free_node", kept.writer.free_node(), Err(Full));
    (first, second, third)
}

/// The same of three nodes.
fn states(kept: &ChainWriter, nodes: (usize, usize, usize)) -> [(bool, bool); 3]
    requires first { nodes.0 < 4 }
    requires second { nodes.1 < 4 }
    requires third { nodes.2 < 4 }
{
    let (first, second, third) = nodes;
    [state(kept, first), state(kept, second), state(kept, third)]
}

/// Looks at the number, and compares it, and what three nodes are by then.
fn reclaims<R: Abort>(
    rt: &R,
    kept: &mut ChainWriter,
    nodes: (usize, usize, usize),
    number: u64,
    wanted: [(bool, bool); 3],
)
    requires first { nodes.0 < 4 }
    requires second { nodes.1 < 4 }
    requires third { nodes.2 < 4 }
{
    compare(rt, "reclaim", kept.reclaim(), number);
    compare(rt, number, states(kept, nodes), wanted);
}

/// Looks at the number, and compares it. No node is free by then.
fn frees_none<R: Abort>(rt: &R, kept: &mut ChainWriter, number: u64) {
    compare(rt, "reclaim", kept.reclaim(), number);
    compare(rt, number, kept.writer.free_node(), Err(Full));
}

/// A full chain is unlinked before a grace period: that one frees its nodes.
fn unlink_before_a_period<R: Abort + Wait>(periods: &mut Periods<'_, R>, kept: &mut ChainWriter) {
    let rt = periods.rt;
    let nodes = fill_up(rt, kept);
    assert!(rt; kept.unlink(0));
    compare(rt, "unlink", states(kept, nodes), [GONE; 3]);
    frees_none(rt, kept, 0);
    periods.begin(1);
    frees_none(rt, kept, 1);
    periods.end(1);
    compare(rt, "drive_for", states(kept, nodes), [GONE; 3]);
    compare(rt, "free_node", kept.writer.free_node(), Err(Full));
    reclaims(rt, kept, nodes, 4, [FREE; 3]);
}

/// A full chain is unlinked during a grace period, and one node before it: that one is free by its
/// end, the others by the end of the next one.
fn unlink_during_a_period<R: Abort + Wait>(periods: &mut Periods<'_, R>, kept: &mut ChainWriter) {
    let rt = periods.rt;
    let nodes = fill_up(rt, kept);
    assert!(rt; kept.link(nodes.0, Some(nodes.2)));
    assert!(rt; !kept.link(nodes.2, Some(nodes.0)));
    reclaims(rt, kept, nodes, 4, [LIVE, GONE, LIVE]);
    periods.begin(5);
    assert!(rt; kept.unlink(0));
    assert!(rt; !kept.unlink(nodes.0));
    reclaims(rt, kept, nodes, 5, [GONE; 3]);
    periods.end(5);
    reclaims(rt, kept, nodes, 8, [GONE, FREE, GONE]);
    compare(rt, "free_node", kept.writer.free_node(), Ok(nodes.1));
    periods.begin(9);
    reclaims(rt, kept, nodes, 9, [GONE, FREE, GONE]);
    periods.end(9);
    reclaims(rt, kept, nodes, 12, [FREE; 3]);
    fill_up(rt, kept);
}

#[test]
fn nodes_come_back_after_a_full_period(rt: HostRuntime) {
    let Ok(opened) = Chain::open(rt.alloc(), 1, 4_000_000, PLAN) else {
        return;
    };
    let (seats, own) = (opened.seats, opened.own);
    let Ok(mut kept) = ChainWriter::new(rt.alloc(), &opened.graph, own) else {
        return;
    };
    let mut periods = Periods::of(&rt, &opened.live, seats);
    unlink_before_a_period(&mut periods, &mut kept);
    unlink_during_a_period(&mut periods, &mut kept);
}

/// Publishes a node in place of the one before, which is free again after this grace period.
/// Returns the node.
fn replace<R: Abort + Wait>(
    periods: &mut Periods<'_, R>,
    kept: &mut ChainWriter,
    number: u64,
) -> usize {
    let node = add(periods.rt, kept, 0, 5);
    let _ = kept.reclaim();
    periods.begin(number);
    periods.end(number);
    let _ = kept.reclaim();
    node
}

#[test]
fn steady_turnover_uses_the_same_two_nodes(rt: HostRuntime) {
    let Ok(opened) = Chain::open(rt.alloc(), 1, 4_000_000, PLAN) else {
        return;
    };
    let (seats, own) = (opened.seats, opened.own);
    let Ok(mut kept) = ChainWriter::new(rt.alloc(), &opened.graph, own) else {
        return;
    };
    let mut periods = Periods::of(&rt, &opened.live, seats);
    for turn in 0..100u64 {
        let first = replace(&mut periods, &mut kept, 8 * turn + 1);
        let second = replace(&mut periods, &mut kept, 8 * turn + 5);
        compare(&rt, turn, (first, second), (1, 2));
    }
}
