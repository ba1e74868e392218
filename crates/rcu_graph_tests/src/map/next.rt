//! Going over the routes of a map with no cursor: behind each route comes the next one, also if it
//! was taken out meanwhile.
ghost use Rattle.std.specs.Prelude.{◌≡◌};
ghost use Rattle.rcu_live.specs.CpuSeat.{after_word_step};
ghost use Rattle.rcu_graph.specs.Graph.{IsWalking};

use crate::compare::compare;
use crate::map::route::Route;
use crate::map::scene::Scene;
use crate::map::script::{NETWORKS, lists};
use crate::map::{Routes, Seat};
use crate::seats::{enters, exits};
use rcu_map::MapWriter;
use std::process::Abort;

/// The networks from 1 to 9 as 4 buckets of a map of the seed 0 have them: 2 and 5, 4 and 7, 1, 6
/// and 9, 3 and 8. No network is behind them.
static ORDER: [u64; NETWORKS] = [2, 5, 4, 7, 1, 6, 9, 3, 8, 0];

/// The routes to which a section comes one behind the other, from the first one on.
fn one_by_one(map: &Routes, seat: &mut Seat) -> [Option<Route>; NETWORKS]
    requires { IsWalking map.now seat.old }
    ensures state { seat.new ≡ after_word_step seat.old seat.new.view.client }
    ensures walking { IsWalking map.now seat.new }
{
    let mut routes = [None; NETWORKS];
    let mut network = 0;
    for route in routes.iter_mut() {
        let Some(next) = map.next_after(seat, network) else {
            break;
        };
        *route = Some(next);
        network = next.network;
    }
    routes
}

/// Takes each route out as soon as a section has come to it, which goes on behind it. Returns how
/// many there were.
fn take_each(map: &Routes, writer: &mut MapWriter<Route, 2>, seat: &mut Seat) -> usize
    requires { IsWalking map.now seat.old }
    ensures state { seat.new ≡ after_word_step seat.old seat.new.view.client }
    ensures walking { IsWalking map.now seat.new }
{
    let mut network = 0;
    for taken in 0..NETWORKS {
        let Some(route) = map.next_after(seat, network) else {
            return taken;
        };
        network = route.network;
        if writer.remove(network) != Some(route) {
            return 0;
        }
    }
    NETWORKS
}

impl<'a> Scene<'a> {
    /// The networks in the order in which a section comes to them. An iterator comes to the same.
    fn networks<R: Abort>(&mut self, rt: &R) -> [u64; NETWORKS] {
        enters(rt, self.live, &mut self.seat);
        let routes = one_by_one(self.map, &mut self.seat);
        lists(rt, self.map, &mut self.seat, &routes);
        exits(rt, self.live, &mut self.seat);
        routes.map(|route| route.map_or(0, |route| route.network))
    }

    /// Puts a route to each network of this many in. Returns how many were put in.
    fn fill(&mut self, networks: u32) -> u32 {
        let mut filled = 0u32;
        for network in 1..=networks {
            let is_put = self.insert(network, network);
            filled = filled.saturating_add(u32::from(is_put));
        }
        filled
    }

    /// Takes each route out under a section that goes over all. Returns how many there were.
    fn clear<R: Abort>(&mut self, rt: &R) -> usize {
        enters(rt, self.live, &mut self.seat);
        let taken = take_each(self.map, &mut self.writer, &mut self.seat);
        exits(rt, self.live, &mut self.seat);
        taken
    }
}

#[test]
fn each_route_comes_behind_the_one_before(rt: HostRuntime) {
    let Ok(mut opened) = Routes::open(rt.alloc(), 1, 4_000, 4, 9, 0) else {
        return;
    };
    let mut scene = Scene {
        writer: opened.writer,
        seat: opened.seats.pop().unwrap(),
        live: &opened.live,
        map: &opened.map,
    };
    compare(&rt, "open", scene.networks(&rt), [0; NETWORKS]);
    compare(&rt, "insert", scene.fill(9), 9);
    compare(&rt, "next_after", scene.networks(&rt), ORDER);
    compare(&rt, "remove", scene.clear(&rt), 9);
    compare(&rt, "next_after", scene.networks(&rt), [0; NETWORKS]);
}
