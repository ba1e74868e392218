//! The opening of a map.
ghost use Rattle.std.specs.Prelude.{◌≡◌, ◌↔◌, ◌+◌, ◌*◌, ◌^◌, ◌<◌, ◌≤◌, Err, IfErr, IfOk};
ghost use Rattle.std.specs.Prelude.{IfNone, IfSome, OnErr, OnOk};
ghost use Rattle.rcu_geometry.specs.Opening.{opening_refusal};
ghost use Rattle.rcu_live.specs.Opening.{AreDealt, AreFanouts, engine_at_first};
ghost use Rattle.rcu_graph.specs.Writer.{IsWriterOf};
ghost use Rattle.rcu_graph.specs.Nodes.{first_place};
ghost use Rattle.rcu_graph.specs.Opening.{IsSized, tested_opening, writer_at_first};
ghost use Rattle.rcu_graph.specs.Planned.{of_plan};
ghost use Rattle.rcu_graph.specs.declared.known.Known.TheVariants.{Idle};
ghost use Rattle.rcu_graph.specs.declared.not_opened.NotOpened.{NotOpened};
ghost use Rattle.rcu_map.specs.Chains.{HasSizes, IsPlanOfMap, plan_of_map};
ghost use Rattle.rcu_map.specs.Keys.{root_words};

use crate::bucket::multiplier_of;
use crate::entry::{Entry, words_are_two};
use crate::map::Map;
use crate::shape::{MapRule, MapSeat, MapShape, MapWatcher};
use crate::writer::MapWriter;
use rcu_graph::{Graph, Invariant, NotOpened, Plan, UnlockedEngine};
use rcu_live::Live;
use rcu_seq::Fault;
use std::alloc::Global;
use std::sync::Arc;

/// A map as it is opened, with its engine.
#[derive(Drop)]
pub struct Opened<L: Drop, E: Invariant, const W: usize> {
    /// The engine, shared by threads or under no lock. A thread has to drive it.
    pub live: L,
    /// The map, which its seats read.
    pub map: Map<E, W>,
    /// A seat for each processor, in order.
    pub seats: Vec<MapSeat<E, W>>,
    /// A watcher for each processor.
    pub watchers: Vec<MapWatcher<E, W>>,
    /// The writer, which puts the entries.
    pub writer: MapWriter<E, W>,
}

/// Returns how many nodes a map of this many buckets and entries has: one for each, and one more,
/// with which it can replace an entry while it is full.
fn node_count(buckets: usize, entries: usize) -> Option<usize>
    ensures sum { IfSome result (λ nodes. nodes ≡ buckets + entries + 1) }
    ensures large { IfNone result (2 ^ 64 ≤ buckets + entries + 1) }
{
    buckets.checked_add(entries)?.checked_add(1)
}

/// Returns the plan of a map of this many buckets, words for each entry, and entries, and of this
/// seed.
///
/// Returns `BadSizes` for no bucket, or fewer than two words, or if the nodes are too many to
/// count.
pub fn make_plan(buckets: usize, words: usize, entries: usize, seed: u64) -> Result<Plan, NotOpened>
    ensures plan { IfOk result (λ plan. plan ≡ plan_of_map buckets words entries seed) }
    ensures some { OnOk result (0 < buckets) }
    ensures wide { OnOk result (2 ≤ words) }
    ensures fault { IfErr result (λ fault. fault ≡ NotOpened.BadSizes) }
    ensures none { OnErr result (¬ HasSizes buckets words entries) }
{
    if buckets == 0 || words < 2 {
        return Err(NotOpened::BadSizes);
    }
    let Some(nodes) = node_count(buckets, entries) else {
        return Err(NotOpened::BadSizes);
    };
    Ok(Plan {
        roots: buckets,
        links: 1,
        words,
        nodes,
        seed: multiplier_of(seed),
    })
}

impl<E: Invariant, const W: usize> Map<E, W> {
    /// Does as [`open_unlocked`](Self::open_unlocked), by a plan.
    pub fn open_planned<const LEAF: u32, const FAN: u32, T: Drop>(
        alloc: Global,
        cpus: u32,
        last: u64,
        plan: Plan,
    ) -> Result<Opened<UnlockedEngine<LEAF, FAN, T, MapShape<E, W>>, E, W>, NotOpened>
        requires fanouts { AreFanouts LEAF FAN }
        requires plan { IsPlanOfMap W plan }
        ensures bad_sizes { (result ≡ Err NotOpened.BadSizes) ↔ ¬ IsSized plan }
        ensures fault { IsSized plan →
            tested_opening result ≡ opening_refusal LEAF FAN cpus last }
        ensures dealt { IfOk result (λ opened. AreDealt cpus last (2 ^ 62)
            (first_place + (1 + plan.words) * plan.nodes) (of_plan opened.map.plan Idle) opened.map
            opened.seats.items opened.watchers.items) }
        ensures plan { IfOk result (λ opened. opened.map.plan ≡ plan) }
        ensures engine { IfOk result (λ opened. opened.live ≡ engine_at_first
            opened.map.table cpus last (2 ^ 62) (of_plan opened.map.plan Idle)) }
        ensures writer { IfOk result (λ opened. IsWriterOf opened.map opened.writer) }
        ensures own { IfOk result (λ opened.
            opened.writer ≡ writer_at_first (root_words plan.words) opened.map.table cpus plan) }
    {
        let opened = Graph::open_unlocked::<LEAF, FAN, T>(alloc, cpus, last, plan)?;
        let rcu_graph::Opened {
            live,
            graph,
            seats,
            watchers,
            own,
        } = opened;
        let map = Map::over(graph);
        let Ok(writer) = MapWriter::new(alloc, &map, own) else {
            return Err(NotOpened::Fault(Fault::NoMemory));
        };
        Ok(Opened {
            live,
            map,
            seats,
            watchers,
            writer,
        })
    }
}

impl<E: Entry<W>, const W: usize> Map<E, W> {
    /// Opens a map with no entry, and its engine: of `cpus` processors, idle at number 0, with
    /// processor 0 alone online. The map has room for `entries`; a replaced or removed one keeps
    /// its room until a grace period ends. A full map can replace entries: it has one node more
    /// than its buckets and entries need. The seed determines the bucket of each key: draw it at
    /// random, so that keys that share a bucket cannot be chosen on purpose.
    ///
    /// Faults: `BadSizes` for no bucket, or more than 2^32 words in all, an entry's and one more
    /// for each node; `TooManyCpus` (17) for no processor, more than 4,096, or more than four
    /// levels hold; `BadLast` (19) if `last` is not a legal last number; `NoMemory` (16).
    pub fn open<const LEAF: u32, const FAN: u32, T: Drop>(
        alloc: Global,
        cpus: u32,
        last: u64,
        buckets: usize,
        entries: usize,
        seed: u64,
    ) -> Result<Opened<Live<LEAF, FAN, T, MapRule<E, W>>, E, W>, NotOpened>
        requires fanouts { AreFanouts LEAF FAN }
        ensures bad_sizes { (result ≡ Err NotOpened.BadSizes) ↔ ¬ HasSizes buckets W entries }
        ensures fault { HasSizes buckets W entries →
            tested_opening result ≡ opening_refusal LEAF FAN cpus last }
        ensures dealt { IfOk result (λ opened. AreDealt cpus last (2 ^ 62)
            (first_place + (1 + W) * (buckets + entries + 1))
            (of_plan opened.map.plan Idle) opened.map
            opened.seats.items opened.watchers.items) }
        ensures plan { IfOk result (λ opened.
            opened.map.plan ≡ plan_of_map buckets W entries seed) }
        ensures live { IfOk result (λ opened. opened.live ≡ opened.map) }
        ensures writer { IfOk result (λ opened. IsWriterOf opened.map opened.writer) }
        ensures own { IfOk result (λ opened.
            opened.writer ≡ writer_at_first (root_words W) opened.map.table cpus
            (plan_of_map buckets W entries seed)) }
    {
        let opened = Self::open_unlocked::<LEAF, FAN, T>(
            alloc, cpus, last, buckets, entries, seed,
        )?;
        let Opened {
            live: engine,
            map,
            seats,
            watchers,
            writer,
        } = opened;
        let Ok(board) = Arc::try_clone(map.board()) else {
            return Err(NotOpened::Fault(Fault::NoMemory));
        };
        Ok(Opened {
            live: Live::new(board, engine),
            map,
            seats,
            watchers,
            writer,
        })
    }

    /// Opens a map as [`open`](Self::open) does, with its engine under no lock: its owner has to
    /// make one call at a time.
    pub fn open_unlocked<const LEAF: u32, const FAN: u32, T: Drop>(
        alloc: Global,
        cpus: u32,
        last: u64,
        buckets: usize,
        entries: usize,
        seed: u64,
    ) -> Result<Opened<UnlockedEngine<LEAF, FAN, T, MapShape<E, W>>, E, W>, NotOpened>
        requires fanouts { AreFanouts LEAF FAN }
        ensures bad_sizes { (result ≡ Err NotOpened.BadSizes) ↔ ¬ HasSizes buckets W entries }
        ensures fault { HasSizes buckets W entries →
            tested_opening result ≡ opening_refusal LEAF FAN cpus last }
        ensures dealt { IfOk result (λ opened. AreDealt cpus last (2 ^ 62)
            (first_place + (1 + W) * (buckets + entries + 1))
            (of_plan opened.map.plan Idle) opened.map
            opened.seats.items opened.watchers.items) }
        ensures plan { IfOk result (λ opened.
            opened.map.plan ≡ plan_of_map buckets W entries seed) }
        ensures engine { IfOk result (λ opened. opened.live ≡ engine_at_first
            opened.map.table cpus last (2 ^ 62) (of_plan opened.map.plan Idle)) }
        ensures writer { IfOk result (λ opened. IsWriterOf opened.map opened.writer) }
        ensures own { IfOk result (λ opened.
            opened.writer ≡ writer_at_first (root_words W) opened.map.table cpus
            (plan_of_map buckets W entries seed)) }
    {
        words_are_two::<E, W>();
        let plan = make_plan(buckets, W, entries, seed)?;
        Map::open_planned::<LEAF, FAN, T>(alloc, cpus, last, plan)
    }
}
