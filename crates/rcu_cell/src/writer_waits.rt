//! Updates that wait until a slot is free.
ghost use Rattle.std.specs.Prelude.{◌≡◌, ◌<◌, IfErr, IfOk, OnErr, OnOk};
ghost use Rattle.rcu_seq.specs.declared.fault.Fault.{Fault};
ghost use Rattle.rcu_live.specs.InPart.{engine_part, seat_part};
ghost use Rattle.rcu_live.specs.Waits.{HasRested, wait_fault};
ghost use Rattle.rcu_graph.specs.Waits.{AreOf, CanWait, HasGivenUp, HasMadeRoom, HasStayed};
ghost use Rattle.rcu_cell.specs.Waits.{UpdatedInTime};

use crate::shape::{CellRule, CellSeat, Version};
use crate::writer::{Retired, Writer};
use rcu_graph::Value;
use rcu_live::{Live, Within};
use rcu_seq::Fault;
use std::sync::Wait;

impl<F: Version<W>, const W: usize, P: Within<CellRule<F, W>>> Writer<F, W, P> {
    /// Loads the number, and drives the engine, until a slot is free.
    fn wait_until_free<const LEAF: u32, const FAN: u32, T: Drop>(
        &mut self,
        rt: &impl Wait,
        live: &Live<LEAF, FAN, T, P::Whole>,
        seat: &mut CellSeat<F, W, P>,
    ) -> Result<(), Fault>
        requires { CanWait (engine_part P.own_plan P.begins live.now) (seat_part P.lens seat.old)
            self.old }
        ensures of_cell { AreOf (engine_part P.own_plan P.begins live.now) self.new
            (seat_part P.lens seat.new) }
        ensures rested { HasRested seat.old seat.new }
        ensures waited { OnOk result (HasMadeRoom seat.old seat.new self.old self.new) }
        ensures fault { IfErr result (λ fault. fault ≡ Fault.Exhausted) }
        ensures given_up { OnErr result (HasGivenUp seat.old seat.new self.old self.new) }
    {
        self.nodes.wait_until_free(rt, live, seat)
    }

    /// Publishes a version, as [`update`](Self::update) does. If no slot is free, it loads the
    /// number and drives the engine until one is. The caller's processor passes quiescent states
    /// meanwhile, unless it is offline or idle.
    ///
    /// No proof says that it returns: a section that stays open blocks it, and so does a processor
    /// that is neither idle nor offline and whose thread passes no quiescent state.
    ///
    /// Faults: `InSection` (4) if a section is open on the seat, for which the caller would wait;
    /// then nothing happened; `Exhausted` (11) if the last number is reached, so no further slot
    /// becomes free.
    pub fn update_or_wait<const LEAF: u32, const FAN: u32, T: Drop>(
        &mut self,
        rt: &impl Wait,
        live: &Live<LEAF, FAN, T, P::Whole>,
        seat: &mut CellSeat<F, W, P>,
        words: &[u64; W],
    ) -> Result<Retired, Fault>
        requires of_cell { AreOf (engine_part P.own_plan P.begins live.now) self.old
            (seat_part P.lens seat.old) }
        requires whole { F.holds words.now }
        ensures of_cell { AreOf (engine_part P.own_plan P.begins live.now) self.new
            (seat_part P.lens seat.new) }
        ensures rested { HasRested seat.old seat.new }
        ensures updated { IfOk result (λ retired.
            UpdatedInTime seat.old seat.new self.old words.now retired self.new) }
        ensures fault { IfErr result (λ fault. fault ≡ wait_fault seat.old.depth) }
        ensures in_section { 0 < seat.old.depth → HasStayed seat.old seat.new self.old self.new }
        ensures given_up { OnErr result (seat.old.depth ≡ 0 →
            HasGivenUp seat.old seat.new self.old self.new) }
    {
        if seat.depth() > 0 {
            return Err(Fault::InSection);
        }
        if let Ok(retired) = self.update(words) {
            return Ok(retired);
        }
        self.wait_until_free(rt, live, seat)?;
        let Ok(retired) = self.update(words) else {
            unreachable!()
        };
        Ok(retired)
    }
}

impl<F: Value<W> + Version<W>, const W: usize, P: Within<CellRule<F, W>>> Writer<F, W, P> {
    /// Publishes a value, as [`update_or_wait`](Self::update_or_wait) does its words.
    pub fn update_value_or_wait<const LEAF: u32, const FAN: u32, T: Drop>(
        &mut self,
        rt: &impl Wait,
        live: &Live<LEAF, FAN, T, P::Whole>,
        seat: &mut CellSeat<F, W, P>,
        value: F,
    ) -> Result<Retired, Fault>
        requires of_cell { AreOf (engine_part P.own_plan P.begins live.now) self.old
            (seat_part P.lens seat.old) }
        requires sound { F.valid value }
        ensures of_cell { AreOf (engine_part P.own_plan P.begins live.now) self.new
            (seat_part P.lens seat.new) }
        ensures rested { HasRested seat.old seat.new }
        ensures updated { IfOk result (λ retired.
            UpdatedInTime seat.old seat.new self.old (F.in_words value) retired
            self.new) }
        ensures fault { IfErr result (λ fault. fault ≡ wait_fault seat.old.depth) }
        ensures in_section { 0 < seat.old.depth → HasStayed seat.old seat.new self.old self.new }
        ensures given_up { OnErr result (seat.old.depth ≡ 0 →
            HasGivenUp seat.old seat.new self.old self.new) }
    {
        self.update_or_wait(rt, live, seat, &value.to_words())
    }
}
