//! The calls that drive the grace periods, and those that wait for one. None of them holds the lock
//! while it waits.
ghost use Rattle.std.specs.Prelude.{◌≡◌, IfErr, OnErr, OnOk, false, true};
ghost use Rattle.rcu_seq.specs.Tags.{is_done_first};
ghost use Rattle.rcu_seq.specs.declared.fault.Fault.{Fault};
ghost use Rattle.rcu_live.specs.CpuSeat.{AcceptedAt};
ghost use Rattle.rcu_live.specs.Waits.{AreRounds, HasLooked, HasPassed, HasRested};
ghost use Rattle.rcu_live.specs.Waits.{HasStayedInside, after_rests, wait_fault};

use crate::client::Client;
use crate::cpu_seat::CpuSeat;
use crate::live::Live;
use crate::watcher::Watcher;
use rcu_seq::{Cookie, Fault};
use rcu_state::Turned;
use std::sync::Wait;
use std::thread;

impl<const LEAF: u32, const FAN: u32, T: Drop, P: Client> Live<LEAF, FAN, T, P> {
    /// Drives the grace periods one step on for the callbacks, as
    /// [`Engine::drive`](crate::engine::Engine) does: a collection from each awaited processor, an
    /// end, a begin. A program that queues callbacks calls it from time to time, between
    /// [`Live::tend`] and [`Live::run`].
    ///
    /// Fault `Exhausted` (11): a grace period would begin, and the number is the last one.
    pub fn drive(&self, rt: &impl Wait) -> Result<Turned, Fault>
        ensures { IfErr result (λ fault. fault ≡ Fault.Exhausted) }
    {
        self.engine.lock(rt).drive()
    }

    /// The same for a waiter for this cookie, as [`Engine::drive_for`](crate::engine::Engine) does.
    ///
    /// Fault `Exhausted` (11): a grace period would begin, and the number is the last one.
    pub fn drive_for(&self, rt: &impl Wait, cookie: Cookie) -> Result<Turned, Fault>
        ensures { IfErr result (λ fault. fault ≡ Fault.Exhausted) }
    {
        self.engine.lock(rt).drive_for(cookie)
    }

    /// Makes one round of a loop that waits for the cookie: a step of driving, then a quiescent
    /// state of the caller's processor, if it is online and awake. If the grace period goes on, it
    /// lets other threads run.
    ///
    /// Faults: `InSection` (4) if a section is open on the seat, for which the caller would wait;
    /// `Exhausted` (11) if the cookie waits for more than the last number.
    pub fn wait_once(
        &self,
        rt: &impl Wait,
        seat: &mut CpuSeat<P>,
        cookie: Cookie,
    ) -> Result<(), Fault>
        requires { seat.old.table ≡ self.now.table }
        ensures table { seat.new.table ≡ seat.old.table }
        ensures depth { seat.new.depth ≡ seat.old.depth }
        ensures base { seat.new.view.base ≡ seat.old.view.base }
        ensures outside { OnOk result (seat.old.depth ≡ 0) }
        ensures fault { IfErr result (λ fault. fault ≡ wait_fault seat.old.depth) }
        ensures state { OnOk result
            (AcceptedAt (λ s n. after_rests s 1 n) seat.old seat.new.view.seen seat.new) }
        ensures unchanged { OnErr result (seat.new ≡ seat.old) }
    {
        if seat.depth() > 0 {
            return Err(Fault::InSection);
        }
        let turned = self.drive_for(rt, cookie)?;
        let _ = seat.quiesce(self);
        if matches!(turned, Turned::Begun(..) | Turned::Waiting(_)) {
            thread::yield_now();
        }
        Ok(())
    }

    /// Waits until the cookie is done (Linux's `cond_synchronize_rcu`): polls it, and drives until
    /// then. If it is done already, that is one load. The caller's processor passes quiescent
    /// states meanwhile, unless it is offline or idle. After 100 rounds the thread sleeps, each
    /// time until an awaited processor reports.
    ///
    /// No proof says that it returns. A section that stays open blocks it, and so does a processor
    /// whose thread passes no quiescent state and is neither idle nor offline.
    ///
    /// Faults: `InSection` (4) if a section is open on the seat, for which the caller would wait;
    /// then nothing happened; `Exhausted` (11) if the cookie waits for more than the last number.
    pub fn wait_for(
        &self,
        rt: &impl Wait,
        seat: &mut CpuSeat<P>,
        watcher: &mut Watcher<P>,
        cookie: Cookie,
    ) -> Result<(), Fault>
        requires seat { seat.old.table ≡ self.now.table }
        requires watcher { watcher.old.table ≡ self.now.table }
        ensures done { OnOk result (is_done_first cookie watcher.new.view.seen ≡ true) }
        ensures outside { OnOk result (seat.old.depth ≡ 0) }
        ensures fault { IfErr result (λ fault. fault ≡ wait_fault seat.old.depth) }
        ensures undone { OnErr result
            (seat.old.depth ≡ 0 → is_done_first cookie watcher.new.view.seen ≡ false) }
        ensures rested { HasRested seat.old seat.new }
        ensures looked { HasLooked watcher.old watcher.new }
        ensures rounds { AreRounds 1 seat.old seat.new watcher.old watcher.new }
        ensures in_section { HasStayedInside seat.old seat.new watcher.old watcher.new }
    {
        if seat.depth() > 0 {
            return Err(Fault::InSection);
        }
        let mut rounds = 0;
        for _ in rt.forever() {
            if watcher.poll(self, cookie) {
                return Ok(());
            }
            self.wait_once(rt, seat, cookie)?;
            rounds = self.sleep_between(rt, seat, cookie, rounds);
        }
        unreachable!()
    }

    /// Waits until a full grace period has passed since the call (Linux's `synchronize_rcu`), as
    /// [`Live::wait_for`] with a snapshot that it takes. So each section that was open at the call
    /// has ended when it returns.
    ///
    /// Faults: `InSection` (4) and `Exhausted` (11), as there.
    pub fn synchronize(
        &self,
        rt: &impl Wait,
        seat: &mut CpuSeat<P>,
        watcher: &mut Watcher<P>,
    ) -> Result<(), Fault>
        requires seat { seat.old.table ≡ self.now.table }
        requires watcher { watcher.old.table ≡ self.now.table }
        ensures passed { OnOk result (HasPassed watcher.old.view.seen watcher.new.view.seen) }
        ensures outside { OnOk result (seat.old.depth ≡ 0) }
        ensures fault { IfErr result (λ fault. fault ≡ wait_fault seat.old.depth) }
        ensures rested { HasRested seat.old seat.new }
        ensures looked { HasLooked watcher.old watcher.new }
        ensures rounds { AreRounds 2 seat.old seat.new watcher.old watcher.new }
        ensures in_section { HasStayedInside seat.old seat.new watcher.old watcher.new }
    {
        if seat.depth() > 0 {
            return Err(Fault::InSection);
        }
        let cookie = watcher.take(self);
        self.wait_for(rt, seat, watcher, cookie)
    }
}
