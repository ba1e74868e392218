//! A seat that a thread has.
ghost use Rattle.std.specs.Prelude.{◌≡◌, ◌≢◌, None, Some};
ghost use Rattle.std.specs.Borrow.{sem};

use crate::seat_parts::SeatParts;
use std::alloc::Global;
use std::marker::Model;

/// A seat that a thread has, with the room in which the engine keeps it once it is returned. The
/// room is there before the seat is dealt, so no return asks for memory.
#[derive(Drop)]
pub struct DealtSeat {
    parts: SeatParts,
    room: Box<Option<SeatParts>, Global>,
}

impl Model for DealtSeat {
    ghost use Rattle.rcu_c.specs.Seats.{Seat};

    ghost Value = { Seat };

    ghost view = { λ dealt. dealt.parts };
}

impl DealtSeat {
    ghost use Rattle.rcu_c.specs.Lending.{lends_parts};

    /// Returns the seat, and its room.
    pub(crate) fn new(parts: SeatParts, room: Box<Option<SeatParts>, Global>) -> DealtSeat
        ensures { result ≡ parts }
    {
        DealtSeat { parts, room }
    }

    /// Returns the seat that lies in a room.
    pub(crate) fn of(mut room: Box<Option<SeatParts>, Global>) -> DealtSeat
        requires { room.value ≢ None }
        ensures { room.value ≡ Some result }
    {
        let Some(parts) = room.take() else {
            unreachable!()
        };
        DealtSeat { parts, room }
    }

    /// Returns the processor.
    pub(crate) fn cpu(&self) -> u32
        ensures { result ≡ self.now.cpu.cpu }
    {
        self.parts.cpu.cpu()
    }

    /// Returns the parts of the seat.
    pub(crate) fn parts(&mut self) -> &mut SeatParts
        ensures* writes_back { sem 𝓛 (lends_parts self.entry result) }
        ensures value { self.old ≡ result.now }
    {
        &mut self.parts
    }

    /// Puts the seat into its room, which it returns.
    pub(crate) fn into_room(self) -> Box<Option<SeatParts>, Global>
        ensures { result.value ≡ Some self }
    {
        let DealtSeat { parts, mut room } = self;
        *room = Some(parts);
        room
    }
}
