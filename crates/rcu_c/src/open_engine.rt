//! The engine of an open handle.
ghost use Rattle.std.specs.Prelude.{◌≡◌, ◌≢◌, IfOk, None, OnErr, OnOk, Some, is_some};
ghost use Rattle.rcu_c.specs.Engines.{is_own, seat_at, with_seat, without_seat};

use crate::dealt_seat::DealtSeat;
use crate::kept_seats::KeptSeats;
use crate::keyed_words::KeyedWords;
use crate::seat_parts::SeatParts;
use rcu_live::Engine;
use rcu_map::{MapRule, MapWriter};
use rcu_node::Tree;
use rcu_request::GpRequests;
use std::alloc::{AllocError, Global};
use std::marker::Model;

/// The rule of the map that each engine has among its shared words.
pub(crate) type Rule = MapRule<KeyedWords, 0>;

/// The running engine, with numbers as callbacks, and a map. A begin costs a walk up its tree for
/// each leaf with a processor: under one lock a leaf of 64 serves better than Linux's, of 16.
pub(crate) type TreeEngine = Engine<Tree<64, 64>, u64, Rule>;

/// The engine of an open handle.
#[derive(Drop)]
pub struct OpenEngine {
    pub(crate) inner: TreeEngine,
    /// The seats that no thread has.
    seats: KeptSeats,
    pub(crate) requests: GpRequests,
    /// The writer of its map.
    pub(crate) map: MapWriter<KeyedWords, 0>,
}

impl Model for OpenEngine {
    ghost use Rattle.rcu_c.specs.Engines.{EngineAndSeats};

    ghost Value = { EngineAndSeats };

    ghost view = { λ o. record {
      engine = o.inner;
      seats = o.seats.seats;
      requests = o.requests;
      identity = o.seats.shared.identity;
      map = o.map;
    } };
}

impl OpenEngine {
    /// Returns the engine with the seats of its processors, its end of the requests, and the writer
    /// of its map.
    pub(crate) fn new(
        inner: TreeEngine,
        seats: KeptSeats,
        requests: GpRequests,
        map: MapWriter<KeyedWords, 0>,
    ) -> OpenEngine
        ensures { result ≡ record {
          engine = inner;
          seats = seats.seats;
          requests = requests;
          identity = seats.shared.identity;
          map = map;
        } }
    {
        OpenEngine {
            inner,
            seats,
            requests,
            map,
        }
    }

    /// Returns the number of processors.
    pub(crate) fn cpus(&self) -> u32
        ensures { result ≡ self.now.engine.cpus }
    {
        self.inner.cpus()
    }

    /// Returns whether it dealt the seat.
    pub(crate) fn owns(&self, seat: &SeatParts) -> bool
        ensures { result ≡ is_own self.now seat.now }
    {
        self.seats.identity().is(seat.identity) && seat.cpu.cpu() < self.cpus()
    }

    /// Returns whether the processor's seat is not dealt yet.
    pub(crate) fn has_seat(&self, cpu: u32) -> bool
        ensures { result ≡ is_some (seat_at self.now cpu) }
    {
        self.seats.has(cpu)
    }

    /// Returns the processor's seat, which is not dealt yet.
    pub(crate) fn deal(&mut self, alloc: Global, cpu: u32) -> Result<DealtSeat, AllocError>
        requires { seat_at self.old cpu ≢ None }
        ensures seat { IfOk result (λ seat. seat_at self.old cpu ≡ Some seat) }
        ensures state { OnOk result (self.new ≡ without_seat self.old cpu) }
        ensures unchanged { OnErr result (self.new ≡ self.old) }
    {
        self.seats.deal(alloc, cpu)
    }

    /// Takes the seat of a processor back, which is not dealt from now on.
    pub(crate) fn take_back(&mut self, seat: DealtSeat)
        ensures { self.new ≡ with_seat self.old seat }
    {
        let cpu = seat.cpu();
        self.seats.take_back(seat, cpu);
    }
}
