//! A writer that waits until a node is free.
ghost use Rattle.std.specs.Prelude.{◌≡◌, IfErr, OnErr, OnOk};
ghost use Rattle.rcu_seq.specs.declared.fault.Fault.{Fault};
ghost use Rattle.rcu_live.specs.InPart.{engine_part, seat_part};
ghost use Rattle.rcu_live.specs.Waits.{HasRested};
ghost use Rattle.rcu_graph.specs.Waits.{AreOf, CanWait, HasGivenUp, HasMadeRoom};

use crate::rule::{GraphRule, GraphSeat, Shape};
use crate::writer::Writer;
use rcu_live::{Live, Within};
use rcu_seq::{Cookie, Fault, Tag};
use std::sync::Wait;

impl<F: Shape, P: Within<GraphRule<F>>> Writer<F, P> {
    /// Loads the number, and drives the engine, until a node is free, if none is. The caller's
    /// processor passes quiescent states meanwhile, unless it is offline or idle.
    ///
    /// No proof says that it returns: a section that stays open blocks it, and so does a processor
    /// that is neither idle nor offline and whose thread passes no quiescent state.
    ///
    /// Faults: `Exhausted` (11) if the last number is reached, so no further node becomes free.
    pub fn wait_until_free<const LEAF: u32, const FAN: u32, T: Drop>(
        &mut self,
        rt: &impl Wait,
        live: &Live<LEAF, FAN, T, P::Whole>,
        seat: &mut GraphSeat<F, P>,
    ) -> Result<(), Fault>
        requires { CanWait (engine_part P.own_plan P.begins live.now) (seat_part P.lens seat.old)
            self.old }
        ensures of_graph { AreOf (engine_part P.own_plan P.begins live.now) self.new
            (seat_part P.lens seat.new) }
        ensures rested { HasRested seat.old seat.new }
        ensures waited { OnOk result (HasMadeRoom seat.old seat.new self.old self.new) }
        ensures fault { IfErr result (λ fault. fault ≡ Fault.Exhausted) }
        ensures given_up { OnErr result (HasGivenUp seat.old seat.new self.old self.new) }
    {
        let cookie = Cookie::of(Tag::of_first_epoch(self.reclaim()));
        let mut waited = Ok(());
        let mut rounds = 0;
        for _ in rt.forever() {
            if self.free_node().is_ok() {
                self.kept();
                return Ok(());
            }
            waited?;
            waited = live.wait_once(rt, seat, cookie);
            rounds = live.sleep_between(rt, seat, cookie, rounds);
            self.reclaim();
        }
        unreachable!()
    }
}
