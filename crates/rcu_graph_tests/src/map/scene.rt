//! A map of one processor, and its writer.
ghost use Rattle.std.specs.Prelude.{◌≡◌};
ghost use Rattle.rcu_live.specs.CpuSeat.{IsSeatOf};
ghost use Rattle.rcu_graph.specs.Planned.{of_plan};
ghost use Rattle.rcu_graph.specs.declared.known.Known.TheVariants.{Idle};

use crate::map::route::Route;
use crate::map::{Engine, Routes, Seat};
use rcu_map::MapWriter;

/// A map of one processor, and its writer.
#[derive(Drop)]
pub(crate) struct Scene<'a> {
    pub(crate) live: &'a Engine,
    pub(crate) map: &'a Routes,
    pub(crate) writer: MapWriter<Route, 2>,
    pub(crate) seat: Seat,
    pub(crate) ghost engine: { live.now ≡ map.now },
    pub(crate) ghost seat_of: { IsSeatOf map.now seat },
    pub(crate) ghost outside: { seat.depth ≡ 0 },
    pub(crate) ghost idle: { seat.view.client ≡ of_plan map.now.plan Idle },
}

impl<'a> Scene<'a> {
    /// Puts a route in. Returns whether that was done.
    pub(crate) fn insert(&mut self, network: u32, port: u32) -> bool {
        let Some(route) = Route::to(network, port) else {
            return false;
        };
        self.writer.insert(route) == Ok(None)
    }
}
