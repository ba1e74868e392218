//! A client's steps on its own words, which are behind the engine's.
ghost use Rattle.std.specs.Prelude.{◌≡◌, ◌<◌, Some};
ghost use Rattle.rcu_live.specs.Client.{AllowsAt, AllowsNumber};
ghost use Rattle.rcu_live.specs.TableSeat.{IsSplit, Stepped};
ghost use Rattle.rcu_live.specs.View.{IsOfEngine, SteppedOnNumber, SteppedOnWord};
ghost use Rattle.rcu_live.specs.View.{after_hand, handed_seat, if_cpu};

use crate::board::{Board, TableSeat};
use crate::client::{Client, NumberStep, WordStep};
use crate::rule::{HandOver, OnNumber, OnWord};
use crate::words::NUMBER;

impl<P: Client> Board<P> {
    /// Seat split: a watcher's seat, which gets the engine seat's knowledge about the client.
    pub fn hand_over(&self, seat: &mut TableSeat<P>) -> TableSeat<P>
        requires table { seat.old.table_id ≡ self.now.table }
        requires engine { IsOfEngine seat.old.me.0 }
        ensures { IsSplit (after_hand (P.idle seat.old.me.0.client) seat.old.me.0)
            (handed_seat seat.old.me.0) seat.old seat.new result }
    {
        self.table.shared.split_seat::<HandOver<P>>(seat)
    }

    /// Loads the client's word that has this index in the table.
    pub fn load_word<M: WordStep<P::Known>>(&self, seat: &mut TableSeat<P>, index: usize) -> u64
        requires table { seat.old.table_id ≡ self.now.table }
        requires inside { index < self.now.table.words }
        requires allowed { AllowsAt (P.holds self.now.plan)
            (if_cpu seat.old.me.0.role (Some seat.old.me.0.cpu))
            (if_cpu seat.old.me.0.role seat.old.me.0.section) seat.old.me.0.client
            self.now.base index (λ n. n) (λ word. M.then word seat.old.me.0.client) }
        ensures { Stepped (λ old new. SteppedOnWord M.then index old result new)
            seat.old seat.new }
    {
        self.table.shared.load::<OnWord<M>>(seat, index)
    }

    /// Stores to the client's word that has this index in the table.
    pub fn store_word<M: WordStep<P::Known>>(
        &self,
        seat: &mut TableSeat<P>,
        index: usize,
        value: u64,
    )
        requires table { seat.old.table_id ≡ self.now.table }
        requires inside { index < self.now.table.words }
        requires allowed { AllowsAt (P.holds self.now.plan)
            (if_cpu seat.old.me.0.role (Some seat.old.me.0.cpu))
            (if_cpu seat.old.me.0.role seat.old.me.0.section) seat.old.me.0.client
            self.now.base index (λ _. value) (λ word _. M.then word seat.old.me.0.client value) }
        ensures { Stepped (λ old new. SteppedOnWord M.then index old value new)
            seat.old seat.new }
    {
        self.table.shared.store::<OnWord<M>>(seat, index, value)
    }

    /// Loads the number, as a step of the client.
    pub fn load_number<M: NumberStep<P::Known>>(&self, seat: &mut TableSeat<P>) -> u64
        requires table { seat.old.table_id ≡ self.now.table }
        requires allowed { AllowsNumber (P.holds self.now.plan)
            (if_cpu seat.old.me.0.role (Some seat.old.me.0.cpu))
            (if_cpu seat.old.me.0.role seat.old.me.0.section) seat.old.me.0.client
            (M.then seat.old.me.0.client) }
        ensures { Stepped (λ old new. SteppedOnNumber M.then old result new)
            seat.old seat.new }
    {
        self.table.shared.load::<OnNumber<M>>(seat, NUMBER)
    }
}
