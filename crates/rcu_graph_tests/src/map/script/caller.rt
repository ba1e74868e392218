//! The callers of a script: a map's writer, or the same behind a lock.
ghost use Rattle.std.specs.Prelude.{◌<◌};

use crate::map::Control;
use crate::map::route::Route;
use rcu_graph::Full;
use rcu_map::{MapWriter, Put};
use std::sync::Wait;

/// A caller that changes a map, and reads its entries.
pub(crate) trait Caller {
    ghost use Rattle.std.specs.Prelude.{◌<◌};

    fn put<R: Wait>(&mut self, rt: &R, how: Put, route: Route) -> Result<Option<Route>, Full>
        requires { 0 < route.network };

    fn compare_replace<R: Wait>(
        &mut self,
        rt: &R,
        read: Route,
        route: Route,
    ) -> Result<Option<Route>, Full>
        requires read { 0 < read.network }
        requires route { 0 < route.network };

    fn remove<R: Wait>(&mut self, rt: &R, network: u64) -> Option<Route>;

    fn compare_remove<R: Wait>(&mut self, rt: &R, read: Route) -> Option<Route>
        requires { 0 < read.network };

    fn reclaim<R: Wait>(&mut self, rt: &R) -> u64;

    fn get<R: Wait>(&self, rt: &R, network: u64) -> Option<Route>;

    fn contains<R: Wait>(&self, rt: &R, network: u64) -> bool;

    fn len<R: Wait>(&self, rt: &R) -> usize;
}

/// A map's writer.
#[derive(Drop)]
pub(crate) struct Alone {
    pub(crate) writer: MapWriter<Route, 2>,
}

impl Caller for Alone {
    fn put<R: Wait>(&mut self, _rt: &R, how: Put, route: Route) -> Result<Option<Route>, Full> {
        match how {
            Put::Insert => self.writer.insert(route),
            Put::Replace => self.writer.replace(route),
            Put::Upsert => self.writer.upsert(route),
        }
    }

    fn compare_replace<R: Wait>(
        &mut self,
        _rt: &R,
        read: Route,
        route: Route,
    ) -> Result<Option<Route>, Full> {
        self.writer.compare_replace(read, route)
    }

    fn remove<R: Wait>(&mut self, _rt: &R, network: u64) -> Option<Route> {
        self.writer.remove(network)
    }

    fn compare_remove<R: Wait>(&mut self, _rt: &R, read: Route) -> Option<Route> {
        self.writer.compare_remove(read)
    }

    fn reclaim<R: Wait>(&mut self, _rt: &R) -> u64 {
        self.writer.reclaim()
    }

    fn get<R: Wait>(&self, _rt: &R, network: u64) -> Option<Route> {
        self.writer.get(network)
    }

    fn contains<R: Wait>(&self, _rt: &R, network: u64) -> bool {
        self.writer.contains(network)
    }

    fn len<R: Wait>(&self, _rt: &R) -> usize {
        self.writer.len()
    }
}

/// A map's writer behind a lock.
#[derive(Drop)]
pub(crate) struct Shared {
    pub(crate) updater: Control,
}

impl Caller for Shared {
    fn put<R: Wait>(&mut self, rt: &R, how: Put, route: Route) -> Result<Option<Route>, Full> {
        match how {
            Put::Insert => self.updater.insert(rt, route),
            Put::Replace => self.updater.replace(rt, route),
            Put::Upsert => self.updater.upsert(rt, route),
        }
    }

    fn compare_replace<R: Wait>(
        &mut self,
        rt: &R,
        read: Route,
        route: Route,
    ) -> Result<Option<Route>, Full> {
        self.updater.compare_replace(rt, read, route)
    }

    fn remove<R: Wait>(&mut self, rt: &R, network: u64) -> Option<Route> {
        self.updater.remove(rt, network)
    }

    fn compare_remove<R: Wait>(&mut self, rt: &R, read: Route) -> Option<Route> {
        self.updater.compare_remove(rt, read)
    }

    fn reclaim<R: Wait>(&mut self, rt: &R) -> u64 {
        self.updater.reclaim(rt)
    }

    fn get<R: Wait>(&self, rt: &R, network: u64) -> Option<Route> {
        self.updater.get(rt, network)
    }

    fn contains<R: Wait>(&self, rt: &R, network: u64) -> bool {
        self.updater.get(rt, network).is_some()
    }

    fn len<R: Wait>(&self, rt: &R) -> usize {
        self.updater.len(rt)
    }
}
