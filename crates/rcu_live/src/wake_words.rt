//! The two words by which sleeping waiters are woken. Each step on one of them makes a value that
//! the next step takes, and nothing else makes it, so no body can take the steps in another order.
//! Each step is sequentially consistent, and so is each store of an own word. So either the look
//! after that store finds which processor is asked, or the collection after the asking finds the
//! store.
ghost use Rattle.std.specs.Prelude.{◌≡◌, ◌≢◌, ◌<◌, IfSome, None, false};
ghost use Rattle.rcu_live.specs.Engine.{after_collect, collect_answer, latest_word};
ghost use Rattle.rcu_live.specs.TableSeat.{Stepped};
ghost use Rattle.rcu_live.specs.View.{after_asked_load, after_take_back};
ghost use Rattle.rcu_live.specs.declared.grace_periods.Collected.TheVariants.{NotYet};
ghost use Rattle.rcu_live.specs.declared.view.Role.TheVariants.{Cpu};

use crate::board::{Board, TableSeat};
use crate::client::Client;
use crate::engine::Engine;
use crate::grace_periods::Collected;
use crate::rule::{Ask, LookAtAsked, TakeBack};
use crate::words::ASKED;
use rcu_node::Awaited;
use std::marker::Model;
use std::sync::Wait;
use std::sync::atomic::{AtomicU64, Ordering};

/// The count of wakes before an asking. A later count would miss a wake after a store of an older
/// number.
#[derive(Drop)]
pub(crate) struct Counted {
    wakes: u64,
}

/// An asking that was taken back. Waiters that rely on it have to be woken: only
/// [`WakeCount::wake_all`] takes this.
pub(crate) struct TakenBack {
    asked: u64,
}

/// A processor that is asked to wake the sleeping waiters. Only [`hear`](Asked::hear) takes it.
pub struct Asked {
    cpu: u32,
    counted: Counted,
}

/// Evidence that the asked processor had not reported after the asking: the caller may sleep until
/// it does. Only [`Live::sleep`](crate::Live::sleep) takes it.
pub struct NotHeard {
    counted: Counted,
}

impl Model for Asked {
    ghost use Rattle.std.specs.Prelude.{ℕ};

    ghost Value = { ℕ };

    ghost view = { λ asked. asked.cpu };
}

impl Asked {
    /// After the asking, collects from the asked processor, which may have stored before it could
    /// see the asking. Returns leave to sleep, if it has not reported.
    pub fn hear<A: Awaited, T: Drop, P: Client>(
        self,
        engine: &mut Engine<A, T, P>,
    ) -> Option<NotHeard>
        requires { self < engine.old.cpus }
        ensures engine { engine.new ≡ after_collect engine.old self (latest_word engine.new) }
        ensures unheard { IfSome result (λ _.
            collect_answer engine.old self (latest_word engine.new) ≡ NotYet) }
        ensures heard { result ≡ None →
            collect_answer engine.old self (latest_word engine.new) ≢ NotYet }
    {
        let Asked { cpu, counted } = self;
        match engine.collect(cpu) {
            Ok(Collected::NotYet) => Some(NotHeard { counted }),
            _ => None,
        }
    }
}

/// The count of wakes.
#[derive(Drop)]
pub(crate) struct WakeCount {
    word: AtomicU64,
}

impl WakeCount {
    pub(crate) fn new() -> WakeCount {
        WakeCount {
            word: AtomicU64::new(0),
        }
    }

    /// Returns the count of wakes so far.
    pub(crate) fn count(&self) -> Counted {
        Counted {
            wakes: self.word.load(Ordering::SeqCst),
        }
    }

    /// Wakes all, after an asking was taken back: a waiter that has counted this wake may ask
    /// again.
    pub(crate) fn wake_all(&self, taken_back: TakenBack) {
        let TakenBack { asked: _ } = taken_back;
        self.word.fetch_add(1, Ordering::SeqCst);
        self.word.wake_all();
    }

    /// Sleeps until all are woken once more; returns at once if they were since the count. It may
    /// also return spuriously.
    pub(crate) fn sleep(&self, rt: &impl Wait, unheard: NotHeard) {
        let NotHeard { counted } = unheard;
        self.word.park(rt, (counted.wakes & 0xffff_ffff) as u32);
    }
}

impl<P: Client> Board<P> {
    /// Asks this processor to wake the sleeping waiters, after the wakes were counted. If another
    /// processor was asked, that asking is taken back: it may have stored, and found another one
    /// asked.
    pub(crate) fn ask(&self, cpu: u32, counted: Counted) -> (Asked, Option<TakenBack>)
        ensures { result.0 ≡ cpu }
    {
        let asks = u64::from(cpu) + 1;
        let (asked, _asking) = self.table.shared.swap_new_seat::<Ask>(ASKED, asks);
        let other = if asked != 0 && asked != asks {
            Some(TakenBack { asked })
        } else {
            None
        };
        (Asked { cpu, counted }, other)
    }

    /// Returns whether the seat's processor is asked: one load.
    #[inline]
    pub(crate) fn is_asked(&self, seat: &mut TableSeat<P>, cpu: u32) -> bool
        requires table { seat.old.table_id ≡ self.now.table }
        requires role { seat.old.me.0.role ≡ Cpu }
        requires own { seat.old.me.0.cpu ≡ cpu }
        ensures { Stepped (λ old new. new ≡ after_asked_load old result) seat.old seat.new }
    {
        let asked = self.table.shared.load::<LookAtAsked>(seat, ASKED);
        asked == u64::from(cpu) + 1
    }

    /// Takes the asking back, after a look that found the seat's processor asked: no processor is
    /// asked any more. One exchange.
    pub(crate) fn take_back(&self, seat: &mut TableSeat<P>) -> TakenBack
        requires table { seat.old.table_id ≡ self.now.table }
        requires unanswered { seat.old.me.0.answered ≡ false }
        ensures { Stepped (λ old new. new ≡ after_take_back old) seat.old seat.new }
    {
        let asked = self.table.shared.swap::<TakeBack>(seat, ASKED, 0);
        TakenBack { asked }
    }
}
