//! Places of seats: an engine keeps the seat of a processor in its place while no thread has it.
ghost use Rattle.std.specs.Prelude.{◌≡◌, ◌≢◌, IfOk, None, OnErr, OnOk, Some, false, true};
ghost use Rattle.rcu_c.specs.Places.{IsFreshOf, IsPlaceOf, fresh_seat, has_seat, is_fresh};
ghost use Rattle.rcu_c.specs.Places.{seat_in};
ghost use Rattle.rcu_c.specs.Seats.{Shared, Words};

use crate::dealt_seat::DealtSeat;
use crate::open_engine::Rule;
use crate::seat_parts::{SeatParts, SharedParts, Watcher};
use rcu_live::UndealtSeat;
use std::alloc::{AllocError, Global};
use std::mem;

/// The seat of a processor that no thread has had, in the bytes of its number. All else that a seat
/// has is made when it is dealt for the first time.
#[derive(Drop)]
pub(crate) struct FreshSeat {
    pub(crate) cpu: UndealtSeat<Rule>,
    pub(crate) watcher: Watcher,
}

impl FreshSeat {
    /// Returns the whole seat.
    fn into_parts(self, alloc: Global, shared: SharedParts) -> SeatParts
        requires { IsFreshOf shared.words self }
        ensures { result ≡ fresh_seat shared self }
    {
        let FreshSeat { cpu, watcher } = self;
        SeatParts::new(alloc, shared, cpu.into_seat(), watcher)
    }
}

/// The place of a processor's seat.
#[derive(Drop)]
pub(crate) enum Place {
    /// No thread has had the seat.
    Fresh(FreshSeat),
    /// A thread has the seat.
    Dealt,
    /// A thread has returned the seat.
    Kept(Box<Option<SeatParts>, Global>),
}

impl Place {
    /// Returns whether the seat is there.
    pub(crate) fn has_seat(&self) -> bool
        ensures { result ≡ has_seat self.now }
    {
        match self {
            Place::Fresh(_) => true,
            Place::Dealt => false,
            Place::Kept(room) => room.is_some(),
        }
    }

    /// Keeps the seat that a thread returned.
    pub(crate) fn keep(&mut self, seat: DealtSeat)
        ensures place { (words : Words) → IsPlaceOf words self.new }
        ensures seat { (s : Shared) → seat_in s self.new ≡ Some seat }
    {
        *self = Place::Kept(seat.into_room());
    }

    /// Returns the seat, which is there: one that no thread has had with a room of its own.
    pub(crate) fn deal(
        &mut self,
        alloc: Global,
        shared: &SharedParts,
    ) -> Result<DealtSeat, AllocError>
        requires place { IsPlaceOf shared.now.words self.old }
        requires there { has_seat self.old ≡ true }
        ensures seat { IfOk result (λ seat. seat_in shared.now self.old ≡ Some seat) }
        ensures dealt { OnOk result (self.new ≡ Place.Dealt) }
        ensures unchanged { OnErr result (self.new ≡ self.old) }
    {
        if matches!(self, Place::Fresh(_)) {
            return self.deal_fresh(alloc, shared);
        }
        Ok(self.deal_kept())
    }

    /// Returns the seat, which no thread has had: all memory is asked for before it is taken.
    fn deal_fresh(&mut self, alloc: Global, shared: &SharedParts) -> Result<DealtSeat, AllocError>
        requires place { IsPlaceOf shared.now.words self.old }
        requires fresh { is_fresh self.old ≡ true }
        ensures seat { IfOk result (λ seat. seat_in shared.now self.old ≡ Some seat) }
        ensures dealt { OnOk result (self.new ≡ Place.Dealt) }
        ensures unchanged { OnErr result (self.new ≡ self.old) }
    {
        let shared = shared.try_clone()?;
        let room = Box::new(alloc, None)?;
        match mem::replace(self, Place::Dealt) {
            Place::Fresh(fresh) => Ok(DealtSeat::new(fresh.into_parts(alloc, shared), room)),
            Place::Dealt | Place::Kept(_) => unreachable!(),
        }
    }

    /// Returns the seat, which a thread had before.
    fn deal_kept(&mut self) -> DealtSeat
        requires kept { is_fresh self.old ≡ false }
        requires there { has_seat self.old ≡ true }
        ensures seat { (s : Shared) → seat_in s self.old ≡ Some result }
        ensures dealt { self.new ≡ Place.Dealt }
    {
        match mem::replace(self, Place::Dealt) {
            Place::Kept(room) => DealtSeat::of(room),
            Place::Fresh(_) | Place::Dealt => unreachable!(),
        }
    }
}
