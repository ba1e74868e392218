//! The updaters of a hard run: one drives the engine, and one waits for barriers and cookies.
ghost use Rattle.std.specs.Prelude.{◌≡◌};

use crate::live::stress::parts::Place;
use crate::live::stress::stop::{Stop, hold_to};
use rcu_live::Watcher;
use rcu_seq::Cookie;
use rcu_state::Turned;
use std::sync::Wait;
use std::thread::yield_now;

/// How many processors the engine has. Threads run on the first four: a begin that looks at all of
/// them gives a reader time to wake in between.
pub(crate) const ALL_CPUS: u32 = 64;

/// How many processors have a thread.
pub(crate) const CPUS: u32 = 4;

/// How often the driver goes round.
const ROUNDS: u64 = 4_000;

/// How many callbacks a processor hands out in a round of the driver at most: few, so that a
/// barrier is tested between two of them.
const MOST_IN_ROUND: u64 = 2;

/// The same if the run is over.
const MOST_AT_END: u64 = 1_000_000;

/// The updater that drives the engine, with the seat of processor 0.
#[derive(Drop)]
pub(crate) struct Driver<'a> {
    pub(crate) place: Place<'a>,
    /// How often the reader that sleeps had gone to sleep at the last pause.
    pub(crate) sleeps: u64,
    pub(crate) ghost seat_of: { place.seat.table ≡ place.live.now.table },
}

impl<'a> Driver<'a> {
    /// Looks at each processor, and ends a grace period or begins one. Answers whether the next
    /// turn may begin one.
    fn turn<R: Wait>(&self, rt: &R, may_begin: bool) -> Result<bool, Stop> {
        for cpu in 0..CPUS {
            self.place.live.collect(rt, cpu)?;
        }
        if may_begin {
            self.place.scene.begin.give();
        }
        let turned = self.place.live.turn(rt)?;
        Ok(matches!(turned, Turned::Ended(_) | Turned::Nothing))
    }

    /// No grace period runs: waits for the reader that sleeps to wake and read, if it went to sleep
    /// since the last pause.
    fn pause(&mut self) {
        let sleeps = self.place.scene.sleep.count();
        if self.sleeps != sleeps {
            self.sleeps = sleeps;
            let since = self.place.scene.wake.count();
            self.place.scene.pause.give();
            self.place.scene.wait_shortly(&self.place.scene.wake, since);
        }
    }

    /// Brings each list up to date, and hands out at most this many callbacks of it.
    fn hand_out<R: Wait>(&self, rt: &R, most: u64) -> Result<(), Stop> {
        for cpu in 0..CPUS {
            self.place.live.tend(rt, cpu)?;
            self.place
                .calls
                .hand_out(rt, self.place.scene, self.place.live, cpu, most)?;
        }
        Ok(())
    }

    /// One round. If a grace period ended, a callback asks for the next one.
    fn go_round<R: Wait>(&mut self, rt: &R, may_begin: bool) -> Result<bool, Stop> {
        let may_begin = self.turn(rt, may_begin)?;
        if may_begin {
            self.pause();
            self.place.queue(rt)?;
        }
        self.hand_out(rt, MOST_IN_ROUND)?;
        let live = self.place.live;
        self.place.seat.quiesce(live)?;
        self.place.scene.round.give();
        Ok(may_begin)
    }

    /// All rounds, or as many as there are until the run ends.
    fn drive<R: Wait>(&mut self, rt: &R) -> Result<(), Stop> {
        self.place.scene.gather()?;
        let mut may_begin = true;
        for _ in 0..ROUNDS {
            if self.place.scene.is_ended() {
                break;
            }
            may_begin = self.go_round(rt, may_begin)?;
        }
        Ok(())
    }

    /// The driver's thread.
    pub(crate) fn run<R: Wait>(&mut self, rt: &R) {
        let result = self.drive(rt);
        self.place.scene.end(rt, result);
    }

    /// Hands out the remaining callbacks, when no other thread uses the engine: then each callback
    /// was handed out.
    pub(crate) fn finish<R: Wait>(&mut self, rt: &R) -> Result<(), Stop> {
        for _ in 0..8 {
            self.turn(rt, false)?;
            self.hand_out(rt, MOST_AT_END)?;
            let live = self.place.live;
            self.place.seat.quiesce(live)?;
        }
        self.place.calls.are_handed_out(rt)
    }
}

/// The updater that waits, with the seat of an idle processor and a watcher.
#[derive(Drop)]
pub(crate) struct Waiter<'a> {
    pub(crate) place: Place<'a>,
    pub(crate) watcher: Watcher,
    pub(crate) ghost seat_of: { place.seat.table ≡ place.live.now.table },
    pub(crate) ghost watcher_of: { watcher.table ≡ place.live.now.table },
}

impl<'a> Waiter<'a> {
    /// If a cookie that was taken at this stamp is done, no section is open that was open then.
    fn poll(&mut self, cookie: Cookie, stamp: u64) -> Result<(), Stop> {
        let is_done = self.watcher.poll(self.place.live, cookie);
        hold_to(
            !is_done || !self.place.scene.is_open_since(stamp),
            Stop::EarlyCookie,
        )
    }

    /// Begins a barrier once the processor that departs has callbacks, and visits that one once it
    /// departed. Answers how many callbacks were queued before.
    fn begin_barrier<R: Wait>(&mut self, rt: &R) -> Result<usize, Stop> {
        let queued = self.place.scene.queued.count();
        self.place.scene.wait(&self.place.scene.queued, queued, 1);
        let departures = self.place.scene.departure.count();
        let before = self.place.calls.begin_barrier(rt, self.place.live)?;
        self.place.live.visit(rt, 0)?;
        self.place.scene.barrier.give();
        self.place
            .scene
            .wait(&self.place.scene.departure, departures, 1);
        for cpu in 1..ALL_CPUS {
            self.place.live.visit(rt, cpu)?;
        }
        Ok(before)
    }

    /// A cookie is polled while a barrier runs.
    fn go_round<R: Wait>(&mut self, rt: &R) -> Result<(), Stop> {
        let stamp = self.place.scene.stamp();
        let cookie = self.watcher.take(self.place.live);
        let before = self.begin_barrier(rt)?;
        for _ in 0..u64::MAX {
            self.poll(cookie, stamp)?;
            if self.place.scene.is_ended()
                || self.place.calls.test_barrier(rt, self.place.live, before)?
            {
                break;
            }
            yield_now();
        }
        Ok(())
    }

    /// Arrives, and then begins barriers until the run ends, and queues a callback now and then.
    fn wait<R: Wait>(&mut self, rt: &R) -> Result<(), Stop> {
        let live = self.place.live;
        live.online(rt, &mut self.place.seat)?;
        self.place.scene.gather()?;
        self.place.seat.idle(live)?;
        for round in 0..u64::MAX {
            if self.place.scene.is_ended() {
                break;
            }
            if round % 4 == 3 {
                self.place.queue(rt)?;
            }
            self.go_round(rt)?;
        }
        self.place.depart(rt)
    }

    /// The waiter's thread.
    pub(crate) fn run<R: Wait>(mut self, rt: &R) {
        let result = self.wait(rt);
        self.place.scene.end(rt, result);
    }
}
