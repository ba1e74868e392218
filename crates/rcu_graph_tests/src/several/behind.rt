//! Waits and iterations of a map that is behind another one.
ghost use Rattle.std.specs.Prelude.{◌≡◌, ◌<◌};
ghost use Rattle.rcu_live.specs.CpuSeat.{after_word_step};
ghost use Rattle.rcu_live.specs.InPart.{engine_part, seat_part};
ghost use Rattle.rcu_graph.specs.Graph.{IsWalking};
ghost use Rattle.rcu_graph.specs.Waits.{AreOf};

use super::{Exits, Pair, Rule, finds, joins, opens};
use crate::compare::compare;
use crate::map::route::Route;
use rcu_live::{Live, Within};
use rcu_map::{Map, MapSeat, MapWriter, Put};
use std::process::Abort;
use std::sync::Wait;

/// How often a route is put in and taken out again, through three nodes.
const REMOVALS: u32 = 100;

/// Puts a route in if its network has none.
fn puts<R: Abort, P: Within<Rule>>(rt: &R, writer: &mut MapWriter<Route, 2, P>, row: (u32, u32)) {
    let (network, port) = row;
    if let Some(route) = Route::to(network, port) {
        compare(rt, row, writer.insert(route), Ok(None));
    }
}

/// Compares the network to which a section comes behind this one.
fn follows<R: Abort, P: Within<Rule>>(
    rt: &R,
    map: &Map<Route, 2, P>,
    seat: &mut MapSeat<Route, 2, P>,
    row: (u64, Option<u64>),
)
    requires { IsWalking map.now (seat_part P.lens seat.old) }
    ensures same { seat.new ≡ after_word_step seat.old
        (P.lens.set seat.old.view.client (P.lens.get seat.new.view.client)) }
    ensures walking { IsWalking map.now (seat_part P.lens seat.new) }
{
    let (network, wanted) = row;
    let next = map.next_after(seat, network);
    compare(rt, network, next.map(|route| route.network), wanted);
}

/// Goes over the entries: there are these two.
fn lists<R: Abort, P: Within<Rule>>(
    rt: &R,
    map: &Map<Route, 2, P>,
    seat: &mut MapSeat<Route, 2, P>,
    networks: [u64; 2],
)
    requires { IsWalking map.now (seat_part P.lens seat.old) }
{
    let mut entries = map.entries(seat);
    for network in networks {
        let next = entries.next();
        compare(rt, network, next.map(|route| route.network), Some(network));
    }
    compare(rt, "next", entries.next(), None);
}

#[test]
fn a_section_reads_a_map_behind_another(rt: HostRuntime) {
    let alloc = rt.alloc();
    let Ok(plan) = Map::<Route, 2>::sized(1, 2, 0) else {
        return;
    };
    let Some(plans) = Pair::plan(plan, plan) else {
        return;
    };
    let (live, mut seats, _, mut own) = opens(&rt, alloc, plans);
    let (exits, watcher): (Exits, _) = joins(&rt, live.words(), &mut own, plans);
    let Ok(mut writer) = MapWriter::new(alloc, &exits, watcher) else {
        return;
    };
    puts(&rt, &mut writer, (7, 20));
    puts(&rt, &mut writer, (2, 30));
    if let Some(mut seat) = seats.pop() {
        compare(&rt, "enter", seat.enter(&live), Ok(1));
        finds(&rt, &exits, &mut seat, (7, Some(20)));
        follows(&rt, &exits, &mut seat, (0, Some(2)));
        follows(&rt, &exits, &mut seat, (2, Some(7)));
        follows(&rt, &exits, &mut seat, (7, None));
        lists(&rt, &exits, &mut seat, [2, 7]);
    }
}

/// The writer of a map, wherever that is in the engine, and the seat of the one processor.
#[derive(Drop)]
struct Scene<'a, P: Within<Rule>> {
    live: &'a Live<4, 4, u64, P::Whole>,
    writer: MapWriter<Route, 2, P>,
    seat: MapSeat<Route, 2, P>,
    ghost of_map: { AreOf (engine_part P.own_plan P.begins live.now) writer
        (seat_part P.lens seat) },
}

impl<'a, P: Within<Rule>> Scene<'a, P> {
    /// Puts a route in, as soon as a node is free, and takes it out again. Returns whether that was
    /// done.
    fn use_a_node<R: Wait>(&mut self, rt: &R, route: Route) -> bool
        requires { 0 < route.network }
    {
        let put = self
            .writer
            .put_or_wait(rt, self.live, &mut self.seat, Put::Insert, route);
        put == Ok(None) && self.writer.remove(route.network) == Some(route)
    }
}

#[test]
fn a_map_behind_another_waits_for_a_node(rt: HostRuntime) {
    let alloc = rt.alloc();
    let Ok(plan) = Map::<Route, 2>::sized(1, 2, 0) else {
        return;
    };
    let Some(plans) = Pair::plan(plan, plan) else {
        return;
    };
    let (live, mut seats, _, mut own) = opens(&rt, alloc, plans);
    let (exits, watcher): (Exits, _) = joins(&rt, live.words(), &mut own, plans);
    let (Ok(writer), Some(seat)) = (MapWriter::new(alloc, &exits, watcher), seats.pop()) else {
        return;
    };
    let live = &live;
    let mut scene = Scene { live, writer, seat };
    let mut done = 0u32;
    for number in 1..=REMOVALS {
        if let Some(route) = Route::to(number, number)
            && scene.use_a_node(&rt, route)
        {
            done = done.saturating_add(1);
        }
    }
    compare(&rt, "put_or_wait", done, REMOVALS);
}
