//! An engine with its map, made of its parts.
ghost use Rattle.std.specs.Prelude.{◌≡◌, IfOk, map};
ghost use Rattle.std.specs.List.{range_with_len};
ghost use Rattle.rcu_live.specs.CpuSeat.{at_first};
ghost use Rattle.rcu_live.specs.Watcher.{watcher_at_first};
ghost use Rattle.rcu_live.specs.Words.{base_of};
ghost use Rattle.rcu_graph.specs.Planned.{of_plan};
ghost use Rattle.rcu_graph.specs.declared.known.Known.TheVariants.{Idle};
ghost use Rattle.rcu_request.specs.Requests.{requester_at_first, requests_at_first};
ghost use Rattle.rcu_c.specs.Engines.{opened_at_first};
ghost use Rattle.rcu_c.specs.MapSizes.{map_opening_refusal, plan_of_sizes};
ghost use Rattle.rcu_c.specs.Places.{place_at_first};
ghost use Rattle.rcu_c.specs.Refusals.{tested_refusal};

use crate::identity::Identity;
use crate::kept_seats::KeptSeats;
use crate::keyed_words::KeyedWords;
use crate::map_sizes::MapSizes;
use crate::open_engine::OpenEngine;
use crate::places::{FreshSeat, Place};
use crate::refusal::Refusal;
use crate::seat_parts::{CpuSeat, SharedParts, Watcher};
use rcu_live::UndealtSeat;
use rcu_map::{Map, Opened};
use rcu_request::{GpRequests, Requester};
use rcu_seq::Fault;
use std::alloc::{AllocError, Global};

/// Returns the places of all processors, in order, each with its seat.
fn make_places(
    alloc: Global,
    shared: &SharedParts,
    seats: Vec<CpuSeat>,
    watchers: Vec<Watcher>,
) -> Result<Vec<Place>, AllocError>
    requires seats { seats.items ≡ map
        (at_first shared.now.words.table (base_of shared.now.words.cpus)
        (of_plan shared.now.words.plan Idle)) (range_with_len 0 shared.now.words.cpus) }
    requires watchers { watchers.items ≡ map
        (λ _. watcher_at_first shared.now.words.table (base_of shared.now.words.cpus)
        (of_plan shared.now.words.plan Idle)) (range_with_len 0 shared.now.words.cpus) }
    ensures { IfOk result (λ made. made.items ≡
        map (place_at_first shared.now.words) (range_with_len 0 shared.now.words.cpus)) }
{
    let mut made = Vec::with_capacity(alloc, seats.len())?;
    let (mut seats, mut watchers) = (seats.into_iter(), watchers.into_iter());
    for _ in 0..shared.map.board().cpus() {
        let Some(seat) = seats.next() else {
            unreachable!()
        };
        let Some(watcher) = watchers.next() else {
            unreachable!()
        };
        let cpu = UndealtSeat::of(seat);
        made.push(Place::Fresh(FreshSeat { cpu, watcher }))?;
    }
    Ok(made)
}

/// Returns the driver's end of the requests, and a thread's.
fn open_wishes(alloc: Global) -> Result<(GpRequests, Requester), AllocError>
    ensures driver { IfOk result (λ ends. ends.0 ≡ requests_at_first ends.0.words) }
    ensures thread { IfOk result (λ ends. ends.1 ≡ requester_at_first ends.0.words) }
{
    let requests = GpRequests::open(alloc)?;
    let requester = requests.requester()?;
    Ok((requests, requester))
}

/// Returns the engine, with a map of these sizes, and a seat for each processor.
pub(crate) fn make_engine(
    alloc: Global,
    cpus: u32,
    last: u64,
    identity: Identity,
    sizes: MapSizes,
) -> Result<OpenEngine, Refusal>
    ensures state { IfOk result (λ made. made ≡ opened_at_first identity made.engine.table
        made.requests.words (plan_of_sizes sizes) cpus last) }
    ensures fault { tested_refusal result ≡ map_opening_refusal sizes cpus last }
{
    let plan = sizes.plan()?;
    let Opened {
        live,
        map,
        seats,
        watchers,
        writer,
    } = Map::<KeyedWords, 0>::open_planned::<64, 64, u64>(alloc, cpus, last, plan)?;
    let Ok((requests, requester)) = open_wishes(alloc) else {
        return Err(Refusal::Engine(Fault::NoMemory));
    };
    let shared = SharedParts {
        map,
        requester,
        identity,
    };
    let Ok(places) = make_places(alloc, &shared, seats, watchers) else {
        return Err(Refusal::Engine(Fault::NoMemory));
    };
    let seats = KeptSeats::new(shared, places);
    Ok(OpenEngine::new(live, seats, requests, writer))
}
