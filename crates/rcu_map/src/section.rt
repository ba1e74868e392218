//! Whole sections that read a map.
ghost use Rattle.std.specs.Prelude.{◌≡◌, IfOk, OnErr};
ghost use Rattle.std.specs.Result.{result_err};
ghost use Rattle.rcu_live.specs.CpuSeat.{enter_refusal};
ghost use Rattle.rcu_graph.specs.Graph.{IsSeatOf};
ghost use Rattle.rcu_graph.specs.Nodes.{IsReader};
ghost use Rattle.rcu_map.specs.Found.{HasLookedUp};

use crate::entry::Entry;
use crate::map::Map;
use crate::shape::{MapRule, MapSeat};
use rcu_live::Shared;
use rcu_seq::Fault;

impl<E: Entry<W>, const W: usize> Map<E, W> {
    /// Reads the entry of a key in a section of its own, of the map's engine. It takes no lock and
    /// never waits.
    ///
    /// Faults: `Offline` (2) if the processor is offline; `CpuIdle` (23) if it is idle.
    pub fn get_section<L: Shared<MapRule<E, W>>>(
        &self,
        live: &L,
        seat: &mut MapSeat<E, W>,
        key: u64,
    ) -> Result<Option<E>, Fault>
        requires engine { L.object live.now ≡ self.now }
        requires seat { IsSeatOf self.now seat.old }
        requires outside { seat.old.depth ≡ 0 }
        requires reader { IsReader seat.old.view.client.known }
        ensures seat { IsSeatOf self.now seat.new }
        ensures outside { seat.new.depth ≡ 0 }
        ensures fault { result_err result ≡ enter_refusal seat.old }
        ensures found { IfOk result (λ found.
            HasLookedUp E.valid E.key_of key seat.old found seat.new) }
        ensures unchanged { OnErr result (seat.new ≡ seat.old) }
    {
        seat.enter(live)?;
        let found = self.get(seat, key);
        let Ok(_) = seat.exit(live) else {
            unreachable!()
        };
        Ok(found)
    }
}
