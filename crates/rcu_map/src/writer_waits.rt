//! Calls that wait until a node is free.
ghost use Rattle.std.specs.Prelude.{◌≡◌, ◌≢◌, ◌↔◌, ◌<◌, Err, IfErr, IfOk, MatchResult};
ghost use Rattle.std.specs.Prelude.{OnErr, OnOk};
ghost use Rattle.rcu_seq.specs.declared.fault.Fault.{Fault};
ghost use Rattle.rcu_live.specs.InPart.{engine_part, seat_part};
ghost use Rattle.rcu_live.specs.Waits.{HasRested, wait_fault};
ghost use Rattle.rcu_graph.specs.Nodes.{nodes_in};
ghost use Rattle.rcu_map.specs.Chains.{buckets_in};
ghost use Rattle.rcu_map.specs.Puts.{IsWanted};
ghost use Rattle.rcu_graph.specs.Waits.{AreOf, CanWait, HasStayed};
ghost use Rattle.rcu_map.specs.Room.{IsOneTooMany, LacksRoom};
ghost use Rattle.rcu_map.specs.Waits.{HasAnsweredInTime, HasGivenUp, HasMadeRoom};
ghost use Rattle.rcu_map.specs.Waits.{WaitedFor};
ghost use Rattle.rcu_map.specs.declared.put.NotPut.{NotPut};

use crate::entry::Entry;
use crate::put::{NotPut, Put};
use crate::shape::{MapRule, MapSeat};
use crate::writer::MapWriter;
use rcu_live::{Client, CpuSeat, Live, Within};
use rcu_seq::Fault;
use std::sync::Wait;

/// Refuses a seat with an open section, for which its caller would wait.
pub(crate) fn check_outside<C: Client>(seat: &CpuSeat<C>) -> Result<(), Fault>
    ensures { MatchResult result (λ _. seat.now.depth ≡ 0)
        (λ fault. (fault ≡ Fault.InSection) × (0 < seat.now.depth)) }
{
    if seat.depth() > 0 {
        return Err(Fault::InSection);
    }
    Ok(())
}

impl<E: Entry<W>, const W: usize, P: Within<MapRule<E, W>>> MapWriter<E, W, P> {
    /// Loads the number, and drives the engine, until a node is free.
    fn wait_until_free<const LEAF: u32, const FAN: u32, T: Drop>(
        &mut self,
        rt: &impl Wait,
        live: &Live<LEAF, FAN, T, P::Whole>,
        seat: &mut MapSeat<E, W, P>,
    ) -> Result<(), Fault>
        requires { CanWait (engine_part P.own_plan P.begins live.now) (seat_part P.lens seat.old)
            self.old }
        ensures of_map { AreOf (engine_part P.own_plan P.begins live.now) self.new
            (seat_part P.lens seat.new) }
        ensures rested { HasRested seat.old seat.new }
        ensures waited { OnOk result (HasMadeRoom (buckets_in self.old) seat.old seat.new self.old
            self.new) }
        ensures fault { IfErr result (λ fault. fault ≡ Fault.Exhausted) }
        ensures given_up { OnErr result
            (HasGivenUp (buckets_in self.old) seat.old seat.new self.old self.new) }
    {
        let waited = self.nodes.wait_until_free(rt, live, seat);
        self.nodes.kept();
        waited
    }

    /// Does the same, if that makes room for an entry of this key.
    fn wait_for_room<const LEAF: u32, const FAN: u32, T: Drop>(
        &mut self,
        rt: &impl Wait,
        live: &Live<LEAF, FAN, T, P::Whole>,
        seat: &mut MapSeat<E, W, P>,
        key: u64,
    ) -> Result<(), NotPut>
        requires of_map { AreOf (engine_part P.own_plan P.begins live.now) self.old
            (seat_part P.lens seat.old) }
        requires outside { seat.old.depth ≡ 0 }
        requires none { LacksRoom self.old key }
        ensures of_map { AreOf (engine_part P.own_plan P.begins live.now) self.new
            (seat_part P.lens seat.new) }
        ensures rested { HasRested seat.old seat.new }
        ensures end { WaitedFor key seat.old seat.new self.old result self.new }
    {
        if self.is_one_too_many(key) {
            return Err(NotPut::Full);
        }
        self.wait_until_free(rt, live, seat)?;
        Ok(())
    }

    /// Inserts, replaces or upserts an entry, as [`insert`](Self::insert),
    /// [`replace`](Self::replace) or [`upsert`](Self::upsert) does, and returns the one that had
    /// its key. If it needs a node and none is free, it loads the number and drives the engine
    /// until one is. The caller's processor passes quiescent states meanwhile, unless it is offline
    /// or idle. It does not wait if the map is full and no entry has the key: that is `Full`.
    ///
    /// No proof says that it returns: a section that stays open blocks it, and so does a processor
    /// that is neither idle nor offline and whose thread passes no quiescent state.
    ///
    /// Faults: `InSection` (4) if a section is open on the seat, for which the caller would wait;
    /// then nothing happened; `Exhausted` (11) if the last number is reached, so no further node
    /// becomes free.
    pub fn put_or_wait<const LEAF: u32, const FAN: u32, T: Drop>(
        &mut self,
        rt: &impl Wait,
        live: &Live<LEAF, FAN, T, P::Whole>,
        seat: &mut MapSeat<E, W, P>,
        how: Put,
        entry: E,
    ) -> Result<Option<E>, NotPut>
        requires of_map { AreOf (engine_part P.own_plan P.begins live.now) self.old
            (seat_part P.lens seat.old) }
        requires sound { E.valid entry }
        ensures of_map { AreOf (engine_part P.own_plan P.begins live.now) self.new
            (seat_part P.lens seat.new) }
        ensures rested { HasRested seat.old seat.new }
        ensures put { IfOk result (λ old. HasAnsweredInTime E.decode E.valid E.key_of how
            (E.key_of entry) (E.in_words entry) seat.old seat.new self.old old self.new) }
        ensures full { (result ≡ Err NotPut.Full) ↔ ((seat.old.depth ≡ 0)
            × IsWanted how (buckets_in self.old) (nodes_in self.old.view.client.known)
            (E.key_of entry)
            × IsOneTooMany self.old (E.key_of entry)) }
        ensures fault { (fault : Fault) → result ≡ Err (NotPut.Fault fault) →
            fault ≡ wait_fault seat.old.depth }
        ensures given_up { result ≡ Err (NotPut.Fault Fault.Exhausted) →
            IsWanted how (buckets_in self.old) (nodes_in self.old.view.client.known)
            (E.key_of entry)
            × HasGivenUp (buckets_in self.old) seat.old seat.new self.old self.new }
        ensures unchanged { OnErr result (result ≢ Err (NotPut.Fault Fault.Exhausted) →
            HasStayed seat.old seat.new self.old self.new) }
    {
        check_outside(seat)?;
        if let Ok(old) = self.put(how, entry) {
            return Ok(old);
        }
        self.wait_for_room(rt, live, seat, entry.key())?;
        let Ok(old) = self.put(how, entry) else {
            unreachable!()
        };
        Ok(old)
    }
}
