//! The callers of the scripts that wait: a map's writer, and the same behind a lock.
ghost use Rattle.std.specs.Prelude.{◌<◌};
ghost use Rattle.rcu_graph.specs.Graph.{IsSeatOf, IsWatcherOf};

use crate::map::route::Route;
use crate::map::{Control, Engine, Seat};
use rcu_map::{MapWriter, NotPut, Put};
use rcu_seq::Fault;
use std::sync::Wait;

/// A caller that changes a map, and waits for a node if a call needs one. It has the seat of a
/// processor.
pub(crate) trait WaitingCaller {
    ghost use Rattle.std.specs.Prelude.{◌<◌};

    fn put<R: Wait>(&mut self, rt: &R, how: Put, route: Route) -> Result<Option<Route>, NotPut>
        requires { 0 < route.network };

    fn remove<R: Wait>(&mut self, rt: &R, network: u64) -> Option<Route>;

    fn get<R: Wait>(&self, rt: &R, network: u64) -> Option<Route>;

    fn enter(&mut self) -> Result<u32, Fault>;

    fn exit(&mut self) -> Result<u32, Fault>;
}

/// A map's writer.
#[derive(Drop)]
pub(crate) struct Alone<'a> {
    pub(crate) live: &'a Engine,
    pub(crate) writer: MapWriter<Route, 2>,
    pub(crate) seat: Seat,
    pub(crate) ghost writer_of: { IsWatcherOf live.now writer },
    pub(crate) ghost seat_of: { IsSeatOf live.now seat },
}

impl<'a> WaitingCaller for Alone<'a> {
    fn put<R: Wait>(&mut self, rt: &R, how: Put, route: Route) -> Result<Option<Route>, NotPut> {
        self.writer
            .put_or_wait(rt, self.live, &mut self.seat, how, route)
    }

    fn remove<R: Wait>(&mut self, _rt: &R, network: u64) -> Option<Route> {
        self.writer.remove(network)
    }

    fn get<R: Wait>(&self, _rt: &R, network: u64) -> Option<Route> {
        self.writer.get(network)
    }

    fn enter(&mut self) -> Result<u32, Fault> {
        self.seat.enter(self.live)
    }

    fn exit(&mut self) -> Result<u32, Fault> {
        self.seat.exit(self.live)
    }
}

/// A map's writer behind a lock.
#[derive(Drop)]
pub(crate) struct Shared<'a> {
    pub(crate) live: &'a Engine,
    pub(crate) updater: Control,
    pub(crate) seat: Seat,
    pub(crate) ghost seat_of: { IsSeatOf live.now seat },
}

impl<'a> WaitingCaller for Shared<'a> {
    fn put<R: Wait>(&mut self, rt: &R, how: Put, route: Route) -> Result<Option<Route>, NotPut> {
        self.updater
            .put_or_wait(rt, self.live, &mut self.seat, how, route)
    }

    fn remove<R: Wait>(&mut self, rt: &R, network: u64) -> Option<Route> {
        self.updater.remove(rt, network)
    }

    fn get<R: Wait>(&self, rt: &R, network: u64) -> Option<Route> {
        self.updater.get(rt, network)
    }

    fn enter(&mut self) -> Result<u32, Fault> {
        self.seat.enter(self.live)
    }

    fn exit(&mut self) -> Result<u32, Fault> {
        self.seat.exit(self.live)
    }
}
