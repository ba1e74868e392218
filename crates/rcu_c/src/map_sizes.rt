//! The sizes of the map of an engine.
//!
//! Header: `rcu/map.h`.
ghost use Rattle.std.specs.Prelude.{◌≡◌, ◌<◌, ◌≤◌, IfErr, IfOk, OnErr};
ghost use Rattle.rcu_graph.specs.declared.not_opened.NotOpened.{NotOpened};
ghost use Rattle.rcu_map.specs.Chains.{HasSizes};
ghost use Rattle.rcu_c.specs.MapSizes.{least_sizes, plan_of_sizes, width_in};

use rcu_graph::{NotOpened, Plan};
use rcu_map::make_plan;

/// The sizes of the map of an engine (`rcu_map_sizes_t`).
#[repr(C)]
#[derive(Clone, Copy)]
pub struct MapSizes {
    /// How many chains the entries are in, 1 or more.
    pub buckets: u64,
    /// How many entries there is room for at a time. One that was replaced or removed keeps its
    /// room until a grace period is over. A full map can replace: it has room for that beside
    /// these.
    pub entries: u64,
    /// The seed of the hash that assigns keys to buckets: draw it at random if others choose keys.
    pub seed: u64,
    /// How many words an entry has, 2 or more, of which word 0 is its key. 0 means 2: a key and a
    /// value.
    pub words: u64,
}

impl MapSizes {
    /// Those of the least map, which has no room for an entry.
    pub(crate) fn least() -> MapSizes
        ensures { result ≡ least_sizes }
    {
        MapSizes {
            buckets: 1,
            entries: 0,
            seed: 0,
            words: 0,
        }
    }

    /// Returns the plan of a map of these sizes.
    ///
    /// Fault: `BadSizes` for no bucket, or one word, or if the nodes are too many to count.
    pub(crate) fn plan(self) -> Result<Plan, NotOpened>
        ensures plan { IfOk result (λ plan. plan ≡ plan_of_sizes self) }
        ensures some { IfOk result (λ plan. 0 < plan.roots) }
        ensures wide { IfOk result (λ plan. 2 ≤ plan.words) }
        ensures fault { IfErr result (λ fault. fault ≡ NotOpened.BadSizes) }
        ensures none { OnErr result (¬ HasSizes self.buckets (width_in self) self.entries) }
    {
        let words = if self.words == 0 { 2 } else { self.words };
        make_plan(
            self.buckets as usize,
            words as usize,
            self.entries as usize,
            self.seed,
        )
    }
}
