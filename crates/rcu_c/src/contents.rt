//! The contents of a handle.
ghost use Rattle.std.specs.Prelude.{◌≡◌, Some};
ghost use Rattle.rcu_c.specs.Holding.{HoldsSeat, seat_of};

use crate::dealt_seat::DealtSeat;
use crate::engine_box::EngineBox;
use crate::open_replica::OpenReplica;
use std::mem;

/// The contents of an open handle.
#[derive(Drop)]
pub enum Contents {
    /// The engine.
    Engine(EngineBox),
    /// The seat of a processor.
    Seat(DealtSeat),
    /// A replica.
    Replica(OpenReplica),
    /// Room for a seat, until it is dealt, and once it is handed back. C never sees it.
    Room,
}

impl Contents {
    /// Takes the seat out, of which the room is left.
    pub(crate) fn take_seat(&mut self) -> DealtSeat
        requires { HoldsSeat (Some self.old) }
        ensures { result ≡ seat_of (Some self.old) }
    {
        match mem::replace(self, Contents::Room) {
            Contents::Seat(seat) => seat,
            Contents::Engine(_) | Contents::Replica(_) | Contents::Room => unreachable!(),
        }
    }
}
