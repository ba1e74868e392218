//! The seat of an open handle.
ghost use Rattle.std.specs.Prelude.{◌≡◌, ◌<◌, IfOk};
ghost use Rattle.rcu_defer.specs.DeferList.{list_at_first};
ghost use Rattle.rcu_graph.specs.Nodes.{IsReader};
ghost use Rattle.rcu_live.specs.Words.{base_of};
ghost use Rattle.rcu_request.specs.Requests.{requester_at_first};
ghost use Rattle.rcu_c.specs.Links.{no_links};

use crate::identity::Identity;
use crate::keyed_words::KeyedWords;
use crate::links::Links;
use rcu_defer::DeferList;
use rcu_map::{Map, MapSeat, MapWatcher};
use rcu_request::Requester;
use std::alloc::{AllocError, Global};
use std::marker::Model;

/// The parts that all seats of an engine share: the map among the words that they read, their
/// requests, and the identity of the engine.
#[derive(Drop)]
pub(crate) struct SharedParts {
    pub(crate) map: Map<KeyedWords, 0>,
    /// An end of the requests by which nothing was requested.
    pub(crate) requester: Requester,
    pub(crate) identity: Identity,
}

impl Model for SharedParts {
    ghost use Rattle.std.specs.Prelude.{◌≡◌};
    ghost use Rattle.rcu_live.specs.Words.{base_of};
    ghost use Rattle.rcu_request.specs.Requests.{requester_at_first};
    ghost use Rattle.rcu_c.specs.Seats.{Shared};

    ghost Value = { Shared };

    ghost view = { λ s. record {
      words = record { table = s.map.table; cpus = s.map.cpus; plan = s.map.plan };
      requests = s.requester.words;
      identity = s.identity;
    } };

    ghost invariant = { λ s. record {
      base : s.map.base ≡ base_of s.map.cpus;
      unused : s.requester ≡ requester_at_first s.requester.words;
    } };
}

impl SharedParts {
    /// Returns the same parts for a further seat.
    pub(crate) fn try_clone(&self) -> Result<SharedParts, AllocError>
        ensures { IfOk result (λ parts. parts ≡ self.now) }
    {
        Ok(SharedParts {
            map: self.map.try_clone()?,
            requester: self.requester.another()?,
            identity: self.identity,
        })
    }
}

/// A processor's seat of an engine with a map.
pub(crate) type CpuSeat = MapSeat<KeyedWords, 0>;

/// A watcher of an engine with a map.
pub(crate) type Watcher = MapWatcher<KeyedWords, 0>;

/// The seat of an open handle: a processor's, with a watcher, the values and links that its thread
/// deferred, its end of the requests, and the map among the words that all seats share.
#[derive(Drop)]
pub struct SeatParts {
    pub(crate) map: Map<KeyedWords, 0>,
    pub(crate) cpu: CpuSeat,
    pub(crate) watcher: Watcher,
    pub(crate) values: DeferList<u64>,
    pub(crate) links: Links,
    pub(crate) requester: Requester,
    pub(crate) identity: Identity,
}

impl Model for SeatParts {
    ghost use Rattle.std.specs.Prelude.{◌≡◌, ◌<◌, ◌≤◌, IsSome};
    ghost use Rattle.rcu_graph.specs.Nodes.{IsReader};
    ghost use Rattle.rcu_c.specs.Seats.{Seat};

    ghost Value = { Seat };

    ghost view = { λ s. record {
      words = record { table = s.map.table; cpus = s.map.cpus; plan = s.map.plan };
      cpu = s.cpu;
      watcher = s.watcher;
      values = s.values;
      links = s.links;
      requester = s.requester;
      identity = s.identity;
    } };

    ghost invariant = { λ s. record {
      cpu : s.cpu.table ≡ s.map.table;
      watcher : s.watcher.table ≡ s.map.table;
      inside : s.cpu.cpu < s.map.cpus;
      values : s.values.marks.seen ≤ s.watcher.view.seen;
      links : s.links.marks.seen ≤ s.watcher.view.seen;
      base : s.cpu.view.base ≡ s.map.base;
      planned : s.cpu.view.client.plan ≡ s.map.plan;
      reads : IsReader s.cpu.view.client.known;
      nested : 0 < s.cpu.depth → IsSome s.cpu.view.section;
    } };
}

impl SeatParts {
    /// Returns the seat of a processor, by which nothing was deferred yet.
    pub(crate) fn new(
        alloc: Global,
        shared: SharedParts,
        cpu: CpuSeat,
        watcher: Watcher,
    ) -> SeatParts
        requires cpu { cpu.table ≡ shared.words.table }
        requires watcher { watcher.table ≡ shared.words.table }
        requires inside { cpu.cpu < shared.words.cpus }
        requires base { cpu.view.base ≡ base_of shared.words.cpus }
        requires planned { cpu.view.client.plan ≡ shared.words.plan }
        requires reads { IsReader cpu.view.client.known }
        requires outside { cpu.depth ≡ 0 }
        ensures { result ≡ record {
          words = shared.words;
          cpu = cpu;
          watcher = watcher;
          values = list_at_first;
          links = no_links;
          requester = requester_at_first shared.requests;
          identity = shared.identity;
        } }
    {
        let SharedParts {
            map,
            requester,
            identity,
        } = shared;
        SeatParts {
            map,
            cpu,
            watcher,
            values: DeferList::new(alloc),
            links: Links::new(),
            requester,
            identity,
        }
    }
}
