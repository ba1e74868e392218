//! Several clients of one engine: two maps, which a thread reads by one seat.
mod behind;

ghost use Rattle.std.specs.Prelude.{◌≡◌};
ghost use Rattle.std.specs.Arc.{arc_value};
ghost use Rattle.rcu_live.specs.CpuSeat.{after_word_step};
ghost use Rattle.rcu_live.specs.InPart.{engine_part, seat_part, watcher_part};
ghost use Rattle.rcu_live.specs.Opening.{AreDealt};
ghost use Rattle.rcu_live.specs.Several.{in_first, in_second, whole};
ghost use Rattle.rcu_live.specs.Watcher as watcher;
ghost use Rattle.rcu_live.specs.Words.{base_of};
ghost use Rattle.rcu_graph.specs.Graph.{IsWalking};
ghost use Rattle.rcu_graph.specs.Joining.{CanJoin};
ghost use Rattle.rcu_graph.specs.Writer.{IsWriterOf};
ghost use Rattle.rcu_graph.specs.Opening.{claimed_first};
ghost use Rattle.rcu_graph.specs.Planned.{of_plan};
ghost use Rattle.rcu_graph.specs.declared.known.Known.TheVariants.{Idle};
ghost use Rattle.rcu_map.specs.Chains.{IsPlanOfMap};
ghost use Rattle.rcu_map.specs.Keys.{root_words};

use crate::compare::compare;
use crate::map::route::Route;
use rcu_live::{Alone, Board, Both, Client, CpuSeat, First, Live, Second, Watcher, Within};
use rcu_map::{Map, MapRule, MapSeat, MapWatcher, MapWriter};
use std::alloc::Global;
use std::process::Abort;
use std::sync::Arc;

/// The rule of each map.
type Rule = MapRule<Route, 2>;

/// Two maps.
type Pair = Both<Rule, Rule>;

/// The engine of both.
type Shared = Live<4, 4, u64, Pair>;

/// The first one.
type Routes = Map<Route, 2, First<Alone, Rule>>;

/// The second one.
type Exits = Map<Route, 2, Second<Rule, Alone>>;

/// Joins a map. If it is refused memory, the same call is made again.
fn joins<R: Abort, P: Within<Rule>>(
    rt: &R,
    board: &Arc<Board<P::Whole>, Global>,
    own: &mut MapWatcher<Route, 2, P>,
    plan: <P::Whole as Client>::Plan,
) -> (Map<Route, 2, P>, MapWatcher<Route, 2, P>)
    requires can { CanJoin P.lens P.own_plan P.begins P.Whole.suits P.Whole.size plan
        (arc_value board.now) own.old }
    requires plan { IsPlanOfMap 2 (P.own_plan plan) }
    ensures map { result.0 ≡ engine_part P.own_plan P.begins (arc_value board.now) }
    ensures writer { IsWriterOf result.0 (watcher_part P.lens result.1) }
    ensures claimed { P.lens.get result.1.view.client
        ≡ claimed_first (root_words (P.own_plan plan).words) (P.own_plan plan) }
    ensures left { own.new ≡ watcher.after_word_step own.old
        (P.lens.set own.old.view.client (of_plan (P.own_plan plan) Idle)) }
{
    if let Ok(joined) = Map::join(board, own, plan) {
        return joined;
    }
    Map::join(board, own, plan).expect(rt, "a map joins")
}

/// Opens an engine of one processor for these maps. If it is refused memory, the same call is made
/// again.
fn opens<R: Abort>(
    rt: &R,
    alloc: Global,
    plans: <Pair as Client>::Plan,
) -> (
    Shared,
    Vec<CpuSeat<Pair>>,
    Vec<Watcher<Pair>>,
    Watcher<Pair>,
)
    requires { ⟦<Pair as Client>⟧.suits plans }
    ensures dealt { AreDealt 1 4000 64 (⟦<Pair as Client>⟧.size plans)
        (⟦<Pair as Client>⟧.idle (⟦<Pair as Client>⟧.first plans)) result.0 result.1.items
        result.2.items }
    ensures plan { result.0.plan ≡ plans }
    ensures own { result.3
        ≡ watcher.watcher_at_first result.0.table (base_of 1) (⟦<Pair as Client>⟧.first plans) }
{
    if let Ok(opened) = Live::open_for(alloc, 1, 4_000, 64, plans) {
        return opened;
    }
    Live::open_for(alloc, 1, 4_000, 64, plans).expect(rt, "an engine opens")
}

/// Looks a network up in an open section, and compares the port.
fn finds<R: Abort, P: Within<Rule>>(
    rt: &R,
    map: &Map<Route, 2, P>,
    seat: &mut MapSeat<Route, 2, P>,
    row: (u64, Option<u32>),
)
    requires { IsWalking map.now (seat_part P.lens seat.old) }
    ensures same { seat.new ≡ after_word_step seat.old
        (P.lens.set seat.old.view.client (P.lens.get seat.new.view.client)) }
    ensures walking { IsWalking map.now (seat_part P.lens seat.new) }
{
    let (network, port) = row;
    let found = map.get(seat, network);
    compare(rt, network, found.map(|route| route.port), port);
}

/// Looks a network up in each map in one section: neither has it.
fn reads_both<R: Abort>(rt: &R, live: &Shared, maps: (&Routes, &Exits), seat: &mut CpuSeat<Pair>)
    requires table { seat.old.table ≡ live.now.table }
    requires routes { IsWalking maps.0.now (seat_part (in_first whole) seat.old) }
    requires exits { IsWalking maps.1.now (seat_part (in_second whole) seat.old) }
{
    finds(rt, maps.0, seat, (1, None));
    finds(rt, maps.1, seat, (1, None));
    finds(rt, maps.0, seat, (2, None));
    compare(rt, "exit", seat.exit(live), Ok(0));
}

#[test]
fn one_seat_reads_two_maps(rt: HostRuntime) {
    let alloc = rt.alloc();
    let Ok(plan) = Map::<Route, 2>::sized(1, 2, 0) else {
        return;
    };
    let Some(plans) = Pair::plan(plan, plan) else {
        return;
    };
    let (live, mut seats, _, mut own) = opens(&rt, alloc, plans);
    let (routes, _): (Routes, _) = joins(&rt, live.words(), &mut own, plans);
    let (exits, _): (Exits, _) = joins(&rt, live.words(), &mut own, plans);
    if let Some(mut seat) = seats.pop() {
        compare(&rt, "enter", seat.enter(&live), Ok(1));
        reads_both(&rt, &live, (&routes, &exits), &mut seat);
    }
}
