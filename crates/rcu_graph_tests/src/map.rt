//! Maps: their openings, entries that sections go over, calls by a script and by several threads,
//! and nodes used again.
mod large;
mod next;
mod reuse;
pub(crate) mod route;
mod rows;
mod scene;
mod script;
mod steps;
mod threads;
mod waits;

ghost use Rattle.std.specs.Prelude.{◌≡◌};
ghost use Rattle.rcu_live.specs.CpuSeat.{IsSeatOf};
ghost use Rattle.rcu_graph.specs.Planned.{of_plan};
ghost use Rattle.rcu_graph.specs.declared.known.Known.TheVariants.{Idle};

use crate::compare::compare;
use crate::map::route::Route;
use crate::seats::{enters, exits};
use rcu_graph::NotOpened;
use rcu_live::Live;
use rcu_map::{Entries, Map, MapRule, MapSeat, MapWatcher, Updater};
use rcu_seq::Fault;
use std::alloc::Global;
use std::process::Abort;

/// Routes of two words each.
pub(crate) type Routes = Map<Route, 2>;

pub(crate) type Engine = Live<4, 4, u64, MapRule<Route, 2>>;

pub(crate) type Seat = MapSeat<Route, 2>;

pub(crate) type Watcher = MapWatcher<Route, 2>;

pub(crate) type Control = Updater<Route, 2>;

/// The entries of a map that a section goes over.
pub(crate) type Listing<'a> = Entries<'a, Route, 2>;

/// The bucket of a network, out of this many, in a map of the seed 0: 2^64 over the golden ratio,
/// times the network, without the overflow, as a share of 2^64.
pub(crate) fn bucket_of(network: u64, buckets: u64) -> u64 {
    let mixed = network.wrapping_mul(11_400_714_819_323_198_485);
    ((u128::from(mixed) * u128::from(buckets)) >> 64) as u64
}

/// Looks a route up, and goes over all of them: the map has none.
fn finds_none<R: Abort>(rt: &R, live: &Engine, map: &Routes, seat: &mut Seat)
    requires engine { live.now ≡ map.now }
    requires seat { IsSeatOf map.now seat.old }
    requires outside { seat.old.depth ≡ 0 }
    requires idle { seat.old.view.client ≡ of_plan map.now.plan Idle }
{
    compare(rt, "get_section", map.get_section(live, seat, 5), Ok(None));
    enters(rt, live, seat);
    let mut entries = map.entries(seat);
    compare(rt, "next", entries.next(), None);
    compare(rt, "next", entries.next(), None);
    exits(rt, live, seat);
}

#[test]
fn map_opens_with_no_entry(rt: HostRuntime) {
    let Ok(mut opened) = Routes::open(rt.alloc(), 1, 8, 4, 12, 0) else {
        return;
    };
    let dealt = (opened.seats.len(), opened.watchers.len());
    compare(&rt, "open", dealt, (1, 1));
    let mut seat = opened.seats.pop().unwrap();
    finds_none(&rt, &opened.live, &opened.map, &mut seat);
}

/// Opens a map of this many processors, buckets and entries. Returns for how many processors it
/// deals seats, by a second call if the first is refused memory.
fn opens(alloc: Global, engine: (u32, u64), sizes: (usize, usize)) -> Result<usize, NotOpened> {
    let ((cpus, last), (buckets, entries)) = (engine, sizes);
    let mut opened = Routes::open::<64, 64, u64>(alloc, cpus, last, buckets, entries, 0);
    if matches!(opened, Err(NotOpened::Fault(Fault::NoMemory))) {
        opened = Routes::open(alloc, cpus, last, buckets, entries, 0);
    }
    Ok(opened?.seats.len())
}

/// Numbers of processors and last numbers, and what comes of opening a map of them.
static ENGINES: [((u32, u64), Result<usize, NotOpened>); 5] = [
    ((1, 4), Ok(1)),
    ((4096, 1 << 62), Ok(4096)),
    ((0, 6), Err(NotOpened::Fault(Fault::TooManyCpus))),
    ((4097, 4), Err(NotOpened::Fault(Fault::TooManyCpus))),
    ((4096, 6), Err(NotOpened::Fault(Fault::BadLast))),
];

#[test]
fn map_opens_with_its_engine(rt: HostRuntime) {
    for (engine, wanted) in &ENGINES {
        let found = opens(rt.alloc(), *engine, (1, 3));
        compare(&rt, *engine, found, *wanted);
    }
}

/// Numbers of buckets and entries that no map has: no bucket, and more than 2^32 words.
static NO_SIZES: [(usize, usize); 6] = [
    (0, 3),
    (1, 1_431_655_764),
    (1, 1 << 62),
    (1, usize::MAX),
    (usize::MAX, 0),
    (usize::MAX, usize::MAX),
];

#[test]
fn map_is_refused_bad_sizes(rt: HostRuntime) {
    compare(&rt, (3, 0), opens(rt.alloc(), (1, 4), (3, 0)), Ok(1));
    for sizes in &NO_SIZES {
        let found = opens(rt.alloc(), (1, 4), *sizes);
        compare(&rt, *sizes, found, Err(NotOpened::BadSizes));
    }
    let found = opens(rt.alloc(), (0, 4), (0, 3));
    compare(&rt, (0, 3), found, Err(NotOpened::BadSizes));
}
