//! A map's nodes are used again and again: many more removals than there are nodes.
ghost use Rattle.std.specs.Prelude.{◌<◌};
ghost use Rattle.rcu_live.specs.CpuSeat.{IsSeatOf};
ghost use Rattle.rcu_graph.specs.Graph.{IsWatcherOf};

use crate::compare::compare;
use crate::map::route::Route;
use crate::map::{Engine, Routes, Seat};
use rcu_map::{MapWriter, Put};
use std::sync::Wait;

/// How many routes are put in and taken out again.
const REMOVALS: u32 = 1_000_000;

/// The writer of a map of one processor.
#[derive(Drop)]
struct Scene<'a> {
    live: &'a Engine,
    writer: MapWriter<Route, 2>,
    seat: Seat,
    ghost writer_of: { IsWatcherOf live.now writer },
    ghost seat_of: { IsSeatOf live.now seat },
}

impl<'a> Scene<'a> {
    /// Puts a route in, as soon as a node is free, and takes it out again. Returns whether that was
    /// done.
    fn use_a_node<R: Wait>(&mut self, rt: &R, route: Route) -> bool
        requires { 0 < route.network }
    {
        let put = self
            .writer
            .put_or_wait(rt, self.live, &mut self.seat, Put::Insert, route);
        put == Ok(None) && self.writer.remove(route.network) == Some(route)
    }
}

#[test]
fn a_million_removals_through_256_nodes(rt: HostRuntime) {
    let Ok(mut opened) = Routes::open(rt.alloc(), 1, 1 << 62, 16, 239, 0) else {
        return;
    };
    let mut scene = Scene {
        writer: opened.writer,
        seat: opened.seats.pop().unwrap(),
        live: &opened.live,
    };
    let mut done = 0u32;
    for number in 0..REMOVALS {
        if let Some(route) = Route::to(number % 4096 + 1, number)
            && scene.use_a_node(&rt, route)
        {
            done = done.saturating_add(1);
        }
    }
    compare(&rt, "put_or_wait", done, REMOVALS);
    compare(&rt, "len", scene.writer.len(), 0);
}
