//! Access to the shared words.
use crate::board::{Board, Stored, TableSeat};
use crate::client::Client;

/// Access to an engine's shared words: by the words alone, or by the engine that threads share.
///
/// The calls of seats take it. They can reach only the words of the engine, and never the lock.
pub trait Shared<P: Client> {
    ghost use Rattle.std.specs.Prelude.{◌≡◌, Bool};
    ghost use Rattle.rcu_live.specs.Board.{Object};
    ghost use Rattle.rcu_live.specs.TableSeat.{Stepped};
    ghost use Rattle.rcu_live.specs.View.{after_waking};
    ghost use Rattle.rcu_live.specs.declared.view.Role.TheVariants.{Cpu};

    /// Which engine it is, how many processors it has, and its client's plan.
    ghost object: { Self → Object P.Plan };

    // A report wakes the waiters that sleep until then: it looks once whether it has to.
    ghost wakes: { Bool };

    /// Returns the shared words.
    fn board(&self) -> &Board<P>
        ensures { result.now ≡ object self.now };

    /// Called by a seat once after each store that may report a quiescent state: wakes the waiters
    /// that sleep until then, if there are any. With a [`Live`](crate::Live) it costs one load, and
    /// if the processor is asked to wake the sleeping waiters, an exchange, an addition and a wake.
    /// With the words alone it costs nothing and wakes no thread, so if threads wait by a
    /// [`Live`](crate::Live), reports have to go by it, too.
    fn stored(&self, seat: &mut TableSeat<P>, stored: Stored)
        requires table { seat.old.table_id ≡ (object self.now).table }
        requires role { seat.old.me.0.role ≡ Cpu }
        requires own { seat.old.me.0.cpu ≡ stored }
        ensures { Stepped (λ old new. new ≡ after_waking wakes old) seat.old seat.new };
}
