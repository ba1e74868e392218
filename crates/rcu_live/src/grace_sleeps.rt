//! How a wait for a grace period sleeps: after its first rounds it asks a processor to wake it,
//! collects from that processor once more, and sleeps if it has not reported.
ghost use Rattle.std.specs.Prelude.{◌≡◌, ◌<◌, ◌+◌, ℕ, IfSome, None, if◌then◌else◌, nat_lt};
ghost use Rattle.rcu_live.specs.Waits.{IsAskedFor};

use crate::client::Client;
use crate::cpu_seat::CpuSeat;
use crate::engine::Engine;
use crate::live::Live;
use crate::wake_words::{Asked, NotHeard};
use rcu_node::{Awaited, Tree};
use rcu_seq::Cookie;
use std::sync::Wait;

/// How many rounds a wait makes before it sleeps: most grace periods end sooner.
const ROUNDS: u32 = 100;

impl<A: Awaited, T: Drop, P: Client> Engine<A, T, P> {
    /// Returns the processor that a wait for the cookie asks to wake it: the first awaited
    /// processor. `own` is the processor of the waiting thread. It returns none if the cookie is
    /// done, or `own` is awaited: no other thread reports that one.
    fn whom_to_ask(&self, own: u32, cookie: Cookie) -> Option<u32>
        ensures asked { IfSome result (λ cpu. IsAskedFor self.now own cookie cpu) }
        ensures inside { IfSome result (λ cpu. cpu < self.now.cpus) }
        ensures none { result ≡ None → (cpu : ℕ) → IsAskedFor self.now own cookie cpu → ⊥ }
    {
        if cookie.is_done_first(self.grace().value()) || self.next_awaited(own) == Some(own) {
            return None;
        }
        self.next_awaited(0)
    }
}

impl<const LEAF: u32, const FAN: u32, T: Drop, P: Client> Live<LEAF, FAN, T, P> {
    /// Asks the first awaited processor to wake this thread, which waits for the cookie, and which
    /// alone reports processor `own`. Asks no processor and returns none if the cookie is done, no
    /// processor is awaited, or `own` is.
    ///
    /// `engine` is the engine of `self`, under its lock.
    pub fn ask(
        &self,
        engine: &Engine<Tree<LEAF, FAN>, T, P>,
        own: u32,
        cookie: Cookie,
    ) -> Option<Asked>
        ensures asked { IfSome result (λ cpu. IsAskedFor engine.now own cookie cpu) }
        ensures inside { IfSome result (λ cpu. cpu < engine.now.cpus) }
        ensures none { result ≡ None → (cpu : ℕ) → IsAskedFor engine.now own cookie cpu → ⊥ }
    {
        match engine.whom_to_ask(own, cookie) {
            Some(cpu) => Some(self.sleepers.ask(&self.board, cpu)),
            None => None,
        }
    }

    /// Sleeps until a processor that was asked before reports; returns at once if it has since. It
    /// may also return spuriously. The caller has to release the lock first.
    pub fn sleep(&self, rt: &impl Wait, unheard: NotHeard) {
        self.sleepers.sleep(rt, unheard);
    }

    /// Asks a processor under the lock, and collects from it.
    fn ask_and_hear(&self, rt: &impl Wait, own: u32, cookie: Cookie) -> Option<NotHeard> {
        let mut engine = self.engine.lock(rt);
        match self.ask(&engine, own, cookie) {
            Some(asked) => asked.hear(&mut engine),
            None => None,
        }
    }

    /// Sleeps after a round of a wait until an awaited processor reports, if one other than the
    /// seat's is awaited. It does not sleep after the first 100 rounds. `rounds` is the count of
    /// rounds before this one, up to 100. Returns the count with this one.
    pub fn sleep_between(
        &self,
        rt: &impl Wait,
        seat: &CpuSeat<P>,
        cookie: Cookie,
        rounds: u32,
    ) -> u32
        ensures { result ≡ (if nat_lt rounds 100 then rounds + 1 else rounds) }
    {
        if rounds < ROUNDS {
            return rounds + 1;
        }
        if let Some(unheard) = self.ask_and_hear(rt, seat.cpu(), cookie) {
            self.sleep(rt, unheard);
        }
        rounds
    }
}
