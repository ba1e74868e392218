//! A processor's seat before a thread first takes it.
ghost use Rattle.std.specs.Prelude.{◌≡◌};
ghost use Rattle.rcu_live.specs.CpuSeat.{at_first};

use crate::board::TableSeat;
use crate::client::{Client, NoClient};
use crate::cpu_seat::CpuSeat;
use std::marker::Model;

/// A processor's seat as it is opened, stored in the bytes of the processor's number until a thread
/// takes it.
#[derive(Drop)]
pub struct UndealtSeat<P: Client = NoClient> {
    cpu: u32,
    seat: TableSeat<P>,
}

impl<P: Client> Model for UndealtSeat<P> {
    ghost use Rattle.std.specs.Prelude.{◌≡◌, ◌<◌};
    ghost use Rattle.rcu_live.specs.CpuSeat.{Seated, at_first};
    ghost use Rattle.rcu_live.specs.View.{cpu_seat};
    ghost use Rattle.rcu_live.specs.Words.{own_word_index};

    ghost Value = { Seated P.Known };

    ghost view = { λ s. record {
      table = s.seat.table_id;
      cpu = s.cpu;
      depth = 0;
      view = s.seat.me.0;
    } };

    ghost invariant = { λ s. record {
      view : s.seat.me.0 ≡ cpu_seat s.seat.me.0.base s.cpu s.seat.me.0.client;
      inside : own_word_index s.cpu < s.seat.table_id.words;
    } };
}

impl<P: Client> UndealtSeat<P> {
    /// Stores a seat that is as it was opened.
    pub fn of(seat: CpuSeat<P>) -> UndealtSeat<P>
        requires { seat ≡ at_first seat.table seat.view.base seat.view.client seat.cpu }
        ensures { result ≡ seat }
    {
        let cpu = seat.cpu();
        UndealtSeat {
            cpu,
            seat: seat.into_table_seat(),
        }
    }

    /// Returns the seat.
    pub fn into_seat(self) -> CpuSeat<P>
        ensures { result ≡ self }
    {
        let UndealtSeat { cpu, seat } = self;
        CpuSeat::new(seat, cpu)
    }
}
