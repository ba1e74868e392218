//! How a wait sleeps until a processor reports. `bindings/model/waits.py` reads the steps, and
//! explores all of their interleavings.
ghost use Rattle.std.specs.Prelude.{◌≡◌, false, true};
ghost use Rattle.rcu_live.specs.TableSeat.{Stepped};
ghost use Rattle.rcu_live.specs.View.{after_take_back, after_waking};
ghost use Rattle.rcu_live.specs.declared.view.Role.TheVariants.{Cpu};

use crate::board::{Board, TableSeat};
use crate::client::Client;
use crate::wake_words::{Asked, NotHeard, WakeCount};
use std::sync::Wait;

/// The word by which sleeping waiters are woken. The word beside the number has the processor that
/// is asked to wake them.
#[derive(Drop)]
#[repr(C)]
pub(crate) struct Sleepers {
    // Padding: no word that readers load is within 128 bytes of the wake word.
    before: [u64; 16],
    wakes: WakeCount,
    behind: [u64; 16],
}

impl Sleepers {
    /// Returns the word, with no sleeping waiter.
    pub(crate) fn new() -> Sleepers {
        Sleepers {
            before: [0; 16],
            wakes: WakeCount::new(),
            behind: [0; 16],
        }
    }

    /// Asks this processor to wake the sleeping waiters. Wakes waiters that sleep since another
    /// processor was asked.
    pub(crate) fn ask<P: Client>(&self, board: &Board<P>, cpu: u32) -> Asked
        ensures { result ≡ cpu }
    {
        let counted = self.wakes.count();
        let (asked, other) = board.ask(cpu, counted);
        if let Some(taken_back) = other {
            self.wakes.wake_all(taken_back);
        }
        asked
    }

    /// Sleeps until all are woken once more.
    pub(crate) fn sleep(&self, rt: &impl Wait, unheard: NotHeard) {
        self.wakes.sleep(rt, unheard);
    }

    /// Looks once whether the seat's processor is asked, and if it is, takes the asking back and
    /// wakes all.
    #[inline]
    pub(crate) fn wake_for<P: Client>(&self, board: &Board<P>, seat: &mut TableSeat<P>, cpu: u32)
        requires table { seat.old.table_id ≡ board.now.table }
        requires role { seat.old.me.0.role ≡ Cpu }
        requires own { seat.old.me.0.cpu ≡ cpu }
        ensures { Stepped (λ old new. new ≡ after_waking true old) seat.old seat.new }
    {
        if board.is_asked(seat, cpu) {
            self.answer(board, seat);
        }
    }

    /// Takes the asking back, and wakes all.
    #[cold]
    fn answer<P: Client>(&self, board: &Board<P>, seat: &mut TableSeat<P>)
        requires table { seat.old.table_id ≡ board.now.table }
        requires unanswered { seat.old.me.0.answered ≡ false }
        ensures { Stepped (λ old new. new ≡ after_take_back old) seat.old seat.new }
    {
        let taken_back = board.take_back(seat);
        self.wakes.wake_all(taken_back);
    }
}
