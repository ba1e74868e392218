//! The seats of an engine that no thread has.
ghost use Rattle.std.specs.Prelude.{◌≡◌, ◌≢◌, IfOk, None, OnErr, OnOk, Some, is_some, map};
ghost use Rattle.std.specs.Prelude.{slice_index_or, slice_set};
ghost use Rattle.std.specs.List.{range_with_len};
ghost use Rattle.rcu_c.specs.Places.{place_at_first};
ghost use Rattle.rcu_c.specs.Seats.{seat_at_first};

use crate::dealt_seat::DealtSeat;
use crate::identity::Identity;
use crate::places::Place;
use crate::seat_parts::SharedParts;
use std::alloc::{AllocError, Global};
use std::marker::Model;

/// The seats of an engine that no thread has, each at its processor's place, and what all seats
/// share.
#[derive(Drop)]
pub(crate) struct KeptSeats {
    shared: SharedParts,
    places: Vec<Place>,
}

impl Model for KeptSeats {
    ghost use Rattle.std.specs.Prelude.{All, map};
    ghost use Rattle.rcu_c.specs.Seats.{Kept};

    ghost Value = { Kept };

    ghost use Rattle.rcu_c.specs.Places.{IsPlaceOf, seat_in};

    ghost view = { λ k. record {
      shared = k.shared;
      seats = map (seat_in k.shared) k.places.items;
    } };

    ghost invariant = { λ k. All (IsPlaceOf k.shared.words) k.places.items };
}

impl KeptSeats {
    /// Returns the seats of all processors, none of which a thread has had.
    pub(crate) fn new(shared: SharedParts, places: Vec<Place>) -> KeptSeats
        requires { places.items ≡
            map (place_at_first shared.words) (range_with_len 0 shared.words.cpus) }
        ensures shared { result.shared ≡ shared }
        ensures seats { result.seats ≡ map
            (λ cpu. Some (seat_at_first shared.identity shared.words.table shared.requests
            shared.words.plan shared.words.cpus cpu)) (range_with_len 0 shared.words.cpus) }
    {
        KeptSeats { shared, places }
    }

    /// Returns the identity of their engine.
    pub(crate) fn identity(&self) -> Identity
        ensures { result ≡ self.now.shared.identity }
    {
        self.shared.identity
    }

    /// Returns whether the processor's seat is there.
    pub(crate) fn has(&self, cpu: u32) -> bool
        ensures { result ≡ is_some (slice_index_or self.now.seats cpu None) }
    {
        match self.places.get(cpu as usize) {
            Some(place) => place.has_seat(),
            None => false,
        }
    }

    /// Returns the processor's seat, which is there.
    pub(crate) fn deal(&mut self, alloc: Global, cpu: u32) -> Result<DealtSeat, AllocError>
        requires { slice_index_or self.old.seats cpu None ≢ None }
        ensures seat { IfOk result (λ seat. slice_index_or self.old.seats cpu None ≡ Some seat) }
        ensures shared { self.new.shared ≡ self.old.shared }
        ensures dealt { OnOk result (self.new.seats ≡ slice_set self.old.seats cpu None) }
        ensures unchanged { OnErr result (self.new ≡ self.old) }
    {
        match self.places.get_mut(cpu as usize) {
            Some(place) => place.deal(alloc, &self.shared),
            None => unreachable!(),
        }
    }

    /// Takes a seat back to its processor's place.
    pub(crate) fn take_back(&mut self, seat: DealtSeat, cpu: u32)
        ensures shared { self.new.shared ≡ self.old.shared }
        ensures seats { self.new.seats ≡ slice_set self.old.seats cpu (Some seat) }
    {
        let at = cpu as usize;
        let Some(place) = self.places.get_mut(at) else {
            return;
        };
        place.keep(seat);
    }
}
