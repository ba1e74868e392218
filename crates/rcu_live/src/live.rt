//! The shared object.
ghost use Rattle.std.specs.Prelude.{◌≡◌, ℕ, IfSome, None, Some, true};
ghost use Rattle.std.specs.Arc.{arc_value};
ghost use Rattle.rcu_live.specs.CpuSeat.{AcceptedAt, after_look};
ghost use Rattle.rcu_live.specs.Met.{MeetsSection, meet_answer};
ghost use Rattle.rcu_live.specs.Numbers.{idle_word};
ghost use Rattle.rcu_live.specs.Opening.{engine_at_first};
ghost use Rattle.rcu_live.specs.Watcher.{WatchedAt};

use crate::board::{Board, Stored, TableSeat};
use crate::client::{Client, NoClient};
use crate::cpu_seat::CpuSeat;
use crate::engine::Engine;
use crate::meeting::Met;
use crate::shared::Shared;
use crate::sleepers::Sleepers;
use crate::watcher::Watcher;
use rcu_node::Tree;
use std::alloc::Global;
use std::marker::Model;
use std::sync::{Arc, Mutex, MutexGuard, Wait};

/// The running engine, which threads share: the number and the own words of the processors, which
/// all threads read without a lock.
///
/// `LEAF` and `FAN` are the fanouts of its tree, and `T` is the value of a callback. `P` is its
/// client; the plain engine has none.
#[derive(Drop)]
pub struct Live<const LEAF: u32, const FAN: u32, T: Drop, P: Client = NoClient> {
    pub(crate) board: Arc<Board<P>, Global>,
    pub(crate) engine: Mutex<Engine<Tree<LEAF, FAN>, T, P>>,
    pub(crate) sleepers: Sleepers,
}

impl<const LEAF: u32, const FAN: u32, T: Drop, P: Client> Model for Live<LEAF, FAN, T, P> {
    ghost use Rattle.std.specs.Arc.{arc_value};
    ghost use Rattle.rcu_live.specs.Board.{Object};

    ghost Value = { Object P.Plan };

    ghost view = { λ live. arc_value live.board };
}

impl<const LEAF: u32, const FAN: u32, T: Drop, P: Client> Live<LEAF, FAN, T, P> {
    /// Returns the engine of these words, under its lock, as it is opened: two of its
    /// [`Parts`](crate::Parts).
    pub fn new(board: Arc<Board<P>, Global>, engine: Engine<Tree<LEAF, FAN>, T, P>) -> Self
        requires { engine ≡ engine_at_first (arc_value board).table (arc_value board).cpus
            (arc_value board).last (arc_value board).most
            (P.idle (P.first (arc_value board).plan)) }
        ensures { result ≡ arc_value board }
    {
        Live {
            board,
            engine: Mutex::new(engine),
            sleepers: Sleepers::new(),
        }
    }

    /// Returns its words, for the clients that use them ([`Within`](crate::Within)).
    pub fn words(&self) -> &Arc<Board<P>, Global>
        ensures { arc_value result.now ≡ self.now }
    {
        &self.board
    }

    /// The watcher loads the number, and then the processor's seat does. Returns none if the
    /// watcher saw more than the seat, or less than the number at which the section began. No
    /// section is open on an idle processor.
    pub fn meet(&self, seat: &mut CpuSeat<P>, watcher: &mut Watcher<P>) -> Option<Met>
        requires seat { seat.old.table ≡ self.now.table }
        requires watcher { watcher.old.table ≡ self.now.table }
        ensures watcher { WatchedAt watcher.old watcher.new.view.seen watcher.new }
        ensures seat { AcceptedAt after_look seat.old seat.new.view.seen seat.new }
        ensures answer { result ≡
            meet_answer seat.old.view.section watcher.new.view.seen seat.new.view.seen }
        ensures open { IfSome result (λ met. (at : ℕ) → met.opened ≡ Some at →
            MeetsSection met at) }
        ensures idle { seat.old.view.own_word ≡ idle_word → IfSome result (λ met.
            met.opened ≡ None) }
    {
        self.board.meet(seat, watcher)
    }

    /// Returns the engine under its lock, for calls in a row. Until the guard is dropped, each call
    /// that takes the lock waits; those of seats and watchers go on.
    pub fn lock(&self, rt: &impl Wait) -> MutexGuard<'_, Engine<Tree<LEAF, FAN>, T, P>> {
        self.engine.lock(rt)
    }
}

impl<const LEAF: u32, const FAN: u32, T: Drop, P: Client> Shared<P> for Live<LEAF, FAN, T, P> {
    ghost object = { λ live. live };

    ghost wakes = { true };

    fn board(&self) -> &Board<P> {
        &self.board
    }

    #[inline]
    fn stored(&self, seat: &mut TableSeat<P>, stored: Stored) {
        stored.wakes(&self.board, seat, &self.sleepers);
    }
}
