//! A worker's job.
ghost use Rattle.std.specs.Prelude.{◌≡◌, ◌+◌, ◌%◌, ◌<◌, ◌≤◌, ◌⊎◌, ℕ, IfErr, IfNone, IfOk, IfSome};
ghost use Rattle.std.specs.Prelude.{IsSomeAnd, OnErr, OnOk, false, length, true};
ghost use Rattle.rand_pcg.specs.Pcg.{pcg32};
ghost use Rattle.rcu_seq.specs.Tags.{is_done_first};
ghost use Rattle.rcu_live.specs.CpuSeat.{after_depart, after_idle, after_quiesce, reported};
ghost use Rattle.rcu_live.specs.EngineLists.{is_run_fault};
ghost use Rattle.rcu_live.specs.Watcher.{after_watch};
ghost use Rattle.rcu_stress.specs.Draws.{generator_of};
ghost use Rattle.rcu_stress.specs.Engine.{Collecting, Departing, Queueing, Tending, Turning};
ghost use Rattle.rcu_stress.specs.Ledger.{IsOfRounds, after_poll, most_rounds};
ghost use Rattle.rcu_stress.specs.Worker.{HasHandedOut, HasPassed, HasRead, HasStopped};
ghost use Rattle.rcu_stress.specs.Worker.{HasStoredNothing, IsStopped, id_of, leaves_by};
ghost use Rattle.rcu_stress.specs.Worker.{looks_by, other_by, sleeps_by};

use crate::draws::Draws;
use crate::engine::{DrivingAnswers, LockedCalls, RoundAnswers};
use crate::gate::{Gate, Point};
use crate::share::LedgerShare;
use rcu_live::{CpuSeat, Ran, Watcher};
use rcu_seq::{Cookie, Fault};
use std::alloc::Global;
use std::marker::Model;
use std::sync::Wait;

/// The most callbacks that a round hands out.
const MOST_IN_ROUND: u64 = 8;

/// The most callbacks that the program hands out at the end.
const MOST_AT_END: u64 = 1_000_000;

/// Opens a section of the seat, or nests deeper in it: once, twice or three times, as the word
/// says.
fn open<E: LockedCalls>(live: &E, seat: &mut CpuSeat, word: u32) -> Result<(), Fault>
    requires { seat.old.table ≡ (E.object live.now).table }
    ensures depth { OnOk result (seat.new.depth ≡ seat.old.depth + 1 + word % 3) }
    ensures same { HasStoredNothing seat.old seat.new }
{
    for _ in 0..1 + word % 3 {
        seat.enter(live)?;
    }
    Ok(())
}

/// Closes the section of the seat, however deep it nests.
fn close<E: LockedCalls>(live: &E, seat: &mut CpuSeat)
    requires { seat.old.table ≡ (E.object live.now).table }
    ensures closed { seat.new.depth ≡ 0 }
    ensures same { HasStoredNothing seat.old seat.new }
{
    'exits: while seat.exit(live).is_ok() {}
}

/// Hands out at most `most` callbacks of a processor to this share, and returns them. It makes room
/// for them first: a refused call hands out none.
///
/// Faults: `BadCpu` (1) if the processor does not exist; `NoMemory` (16).
fn hand_out<R: Wait, E: LockedCalls>(
    rt: &R,
    live: &E,
    seat: &CpuSeat,
    cpu: u32,
    most: u64,
    share: &mut LedgerShare,
) -> Result<Ran<u64>, Fault>
    ensures handed_out { IfOk result
        (HasHandedOut E.answers seat.now.view.stores cpu most share.old share.new) }
    ensures none_early { share.new.early ≡ share.old.early }
    ensures unchanged { OnErr result (share.new ≡ record share.old { room = share.new.room }) }
    ensures fault { IfErr result (λ fault. is_run_fault fault ≡ true) }
{
    if share.make_room(most as usize).is_err() {
        return Err(Fault::NoMemory);
    }
    let ran = live.run(rt, seat, cpu, most)?;
    share.take_down(&ran);
    Ok(ran)
}

/// The size of a run, and the seed of its draws.
#[derive(Clone, Copy)]
pub(crate) struct RunSettings {
    pub(crate) workers: u32,
    pub(crate) rounds: u32,
    pub(crate) seed: u64,
}

/// The result of a worker: its share, and its first fault.
#[derive(Drop)]
pub(crate) struct WorkerResult {
    pub(crate) share: LedgerShare,
    pub(crate) fault: Option<Fault>,
}

/// A worker's job, with its seat and its watcher.
#[derive(Drop)]
pub(crate) struct Job<'a, E: LockedCalls> {
    alloc: Global,
    live: &'a E,
    seat: CpuSeat,
    watcher: Watcher,
    draws: Draws,
    worker: u32,
    settings: RunSettings,
}

impl<'a, E: LockedCalls> Model for Job<'a, E> {
    ghost use Rattle.std.specs.Prelude.{◌≡◌, ◌<◌, ◌≤◌};
    ghost use Rattle.rcu_stress.specs.Ledger.{most_rounds};
    ghost use Rattle.rcu_stress.specs.Worker.{Worker};

    ghost Value = { Worker };

    ghost view = { λ job. record {
      worker = job.worker;
      settings = job.settings;
      draws = job.draws;
      seat = job.seat;
      watcher = job.watcher;
    } };

    ghost invariant = { λ job. record {
      seat_of : job.seat.table ≡ (E.object job.live.now).table;
      watcher_of : job.watcher.table ≡ (E.object job.live.now).table;
      own : job.seat.cpu ≡ job.worker;
      some : job.worker < job.settings.workers;
      few : job.settings.rounds ≤ most_rounds;
    } };
}

impl<'a, E: LockedCalls> Job<'a, E> {
    /// Returns the job of the worker whose number is this seat's processor, with this watcher.
    pub(crate) fn new(
        alloc: Global,
        live: &'a E,
        seat: CpuSeat,
        watcher: Watcher,
        settings: RunSettings,
    ) -> Job<'a, E>
        requires seat { seat.table ≡ (E.object live.now).table }
        requires worker { seat.cpu < settings.workers }
        requires watcher { watcher.table ≡ (E.object live.now).table }
        requires rounds { settings.rounds ≤ most_rounds }
        ensures { result ≡ record {
          worker = seat.cpu;
          settings = settings;
          draws = generator_of settings.seed seat.cpu;
          seat = seat;
          watcher = watcher;
        } }
    {
        let worker = seat.cpu();
        Job {
            alloc,
            live,
            seat,
            watcher,
            draws: Draws::new(settings.seed, worker),
            worker,
            settings,
        }
    }

    /// Brings the processor online.
    pub(crate) fn arrive<R: Wait>(&mut self, rt: &R) -> Result<(), Fault>
        ensures arrived { OnOk result
            (self.new.seat ≡ after_quiesce self.old.seat self.new.seat.view.seen) }
        ensures unchanged { OnErr result (self.new ≡ self.old) }
        ensures rest { self.new ≡ record self.old { seat = self.new.seat } }
    {
        self.live.online(rt, &mut self.seat)
    }

    /// Runs the rounds, and takes the processor offline. A fault there counts too.
    pub(crate) fn run<R: Wait, G: Gate>(mut self, rt: &R, gate: &G) -> WorkerResult
        ensures share { IsOfRounds self.entry.settings.rounds result.share }
        ensures whole { IfNone result.fault ((result.share.queued ≡ self.entry.settings.rounds)
            ⊎ IsStopped G.answers self.entry.worker) }
    {
        let WorkerResult { share, fault } = self.run_rounds(rt, gate);
        let left = self.live.offline(rt, &mut self.seat);
        WorkerResult {
            share,
            fault: fault.or(left.err()),
        }
    }

    /// Runs the rounds, up to the first in which the gate does not let the worker pass or a fault
    /// occurs. No section is open then.
    pub(crate) fn run_rounds<R: Wait, G: Gate>(&mut self, rt: &R, gate: &G) -> WorkerResult
        ensures share { IsOfRounds self.old.settings.rounds result.share }
        ensures whole { IfNone result.fault ((result.share.queued ≡ self.old.settings.rounds)
            ⊎ IsStopped G.answers self.old.worker) }
        ensures closed { self.new.seat.depth ≡ 0 }
        ensures rest { self.new ≡ record self.old {
          draws = self.new.draws;
          seat = self.new.seat;
          watcher = self.new.watcher;
        } }
    {
        let mut share = LedgerShare::new(self.alloc);
        let result = self.try_rounds(rt, gate, &mut share);
        close(self.live, &mut self.seat);
        WorkerResult {
            share,
            fault: result.err(),
        }
    }

    /// Runs the rounds. Returns whether the gate let the worker pass in each.
    fn try_rounds<R: Wait, G: Gate>(
        &mut self,
        rt: &R,
        gate: &G,
        share: &mut LedgerShare,
    ) -> Result<bool, Fault>
        requires { IsOfRounds 0 share.old }
        ensures share { IsOfRounds self.old.settings.rounds share.new }
        ensures whole { IfOk result (λ passed. passed ≡ true →
            share.new.queued ≡ self.old.settings.rounds) }
        ensures stopped { IfOk result (λ passed. passed ≡ false →
            IsStopped G.answers self.old.worker) }
        ensures rest { self.new ≡ record self.old {
          draws = self.new.draws;
          seat = self.new.seat;
          watcher = self.new.watcher;
        } }
    {
        for round in 0..self.settings.rounds {
            if self.run_round(rt, gate, round, share)?.is_none() {
                return Ok(false);
            }
        }
        Ok(true)
    }

    /// Runs one round, by one word. Returns the engine's answers, or none if the gate did not let
    /// the worker pass: then its section is open.
    fn run_round<R: Wait, G: Gate>(
        &mut self,
        rt: &R,
        gate: &G,
        round: u32,
        share: &mut LedgerShare,
    ) -> Result<Option<RoundAnswers>, Fault>
        requires round { round < most_rounds }
        requires share { IsOfRounds round share.old }
        ensures share { IsOfRounds (round + 1) share.new }
        ensures passed { IfOk result (λ passed. IfSome passed
            (HasPassed E.answers self.old share.old round self.new share.new)) }
        ensures stopped { IfOk result (λ passed. IfNone passed
            (HasStopped G.answers self.old.worker share.old share.new)) }
        ensures rest { self.new ≡ record self.old {
          draws = (pcg32 self.old.draws).1;
          seat = self.new.seat;
          watcher = self.new.watcher;
        } }
    {
        let word = self.draws.next();
        if !self.read(gate, word, share)? {
            return Ok(None);
        }
        let queued = self.queue(rt, round)?;
        share.note_queued();
        let driving = self.drive(rt, word)?;
        let ran = hand_out(rt, self.live, &self.seat, self.worker, MOST_IN_ROUND, share)?;
        let moved = self.leave_and_return(rt, word)?;
        self.sleep_and_wake(word)?;
        Ok(Some(RoundAnswers {
            queued,
            driving,
            ran,
            moved,
        }))
    }

    /// Opens a section, polls a cookie inside it, closes it and passes a quiescent state. Returns
    /// whether the gate let the worker pass; if not, the section is open.
    fn read<G: Gate>(&mut self, gate: &G, word: u32, share: &mut LedgerShare) -> Result<bool, Fault>
        ghost looks: { ℕ }
        requires early { share.old.early < most_rounds + length share.old.ids }
        requires looks { self.old.watcher.view.loads ≡ looks }
        ensures share { share.new ≡ record share.old { early = share.new.early } }
        ensures early { share.new.early ≤ share.old.early + 1 }
        ensures read { IfOk result (λ passed. passed ≡ true →
            HasRead G.answers self.old self.new) }
        ensures stopped { IfOk result (λ passed. passed ≡ false →
            IsStopped G.answers self.old.worker) }
        ensures open { IfOk result (λ passed. passed ≡ false →
            self.new.seat.depth ≡ self.old.seat.depth + 1 + word % 3) }
        ensures rest { self.new ≡
            record self.old { seat = self.new.seat; watcher = self.new.watcher } }
    {
        open(self.live, &mut self.seat, word)?;
        if !self.pass(gate, Point::Entered) {
            return Ok(false);
        }
        let cookie = self.watcher.take(self.live);
        self.poll(cookie, share);
        if !self.pass(gate, Point::Polled) {
            return Ok(false);
        }
        close(self.live, &mut self.seat);
        self.seat.quiesce(self.live)?;
        Ok(true)
    }

    /// Returns whether the gate lets the worker go on at a place inside its section: after it
    /// entered, with no further load; or after two further loads, by which it took its cookie and
    /// polled it.
    fn pass<G: Gate>(&self, gate: &G, point: Point) -> bool
        ghost looks: { ℕ }
        requires inside { 0 < self.now.seat.depth }
        requires looked { self.now.watcher.view.loads ≡ looks + looks_by point }
        ensures { G.answers self.now.worker point result }
    {
        gate.pass(self.worker, point)
    }

    /// Polls the cookie, and counts it if it is done.
    fn poll(&mut self, cookie: Cookie, share: &mut LedgerShare)
        requires { share.old.early < most_rounds + length share.old.ids }
        ensures share { share.new ≡
            after_poll share.old (is_done_first cookie self.new.watcher.view.seen) }
        ensures looked { self.new.watcher ≡
            after_watch self.old.watcher self.new.watcher.view.seen }
        ensures rest { self.new ≡ record self.old { watcher = self.new.watcher } }
    {
        if self.watcher.poll(self.live, cookie) {
            share.note_early();
        }
    }

    /// Returns the id of a round's callback. Those of other workers and rounds differ.
    fn id(&self, round: u32) -> u64
        ensures { result ≡ id_of self.now.worker self.now.settings.rounds round }
    {
        u64::from(self.worker) * u64::from(self.settings.rounds) + u64::from(round)
    }

    /// Queues the callback of the round.
    fn queue<R: Wait>(&mut self, rt: &R, round: u32) -> Result<u64, Fault>
        ensures told { IfOk result (λ count. E.answers self.old.seat.view.stores
            (Queueing self.old.worker
            (id_of self.old.worker self.old.settings.rounds round) count)) }
        ensures rest { self.new ≡ self.old }
    {
        let id = self.id(round);
        self.live
            .queue(rt, &mut self.seat, id)
            .map_err(|refused| refused.fault)
    }

    /// Returns the processor that a worker looks at besides its own.
    fn other(&self, word: u32) -> u32
        ensures { result ≡ other_by self.now.settings.workers word }
    {
        word / 8 % self.settings.workers
    }

    /// Moves the grace periods on: collects from a processor that the word names, turns, and tends
    /// its own callbacks. Returns the engine's answers.
    fn drive<R: Wait>(&self, rt: &R, word: u32) -> Result<DrivingAnswers, Fault>
        ensures collected { IfOk result (λ driving. E.answers self.now.seat.view.stores
            (Collecting (other_by self.now.settings.workers word) driving.collected)) }
        ensures turned { IfOk result (λ driving.
            E.answers self.now.seat.view.stores (Turning driving.turned)) }
        ensures tended { IfOk result (λ driving.
            E.answers self.now.seat.view.stores (Tending self.now.worker driving.tended)) }
    {
        let collected = self.live.collect(rt, &self.seat, self.other(word))?;
        let turned = self.live.turn(rt, &self.seat)?;
        let tended = self.live.tend(rt, &self.seat, self.worker)?;
        Ok(DrivingAnswers {
            collected,
            turned,
            tended,
        })
    }

    /// If the word says so, takes a processor other than 0 offline and online again. Returns the
    /// number of callbacks that moved.
    fn leave_and_return<R: Wait>(&mut self, rt: &R, word: u32) -> Result<Option<u64>, Fault>
        ensures told { IfOk result (λ left. leaves_by self.old.worker word ≡ true →
            IsSomeAnd left (λ moved. E.answers self.old.seat.view.stores (Departing moved))) }
        ensures stayed { leaves_by self.old.worker word ≡ false → self.new ≡ self.old }
        ensures returned { OnOk result (leaves_by self.old.worker word ≡ true →
            self.new.seat ≡ after_quiesce (reported E.wakes (after_depart self.old.seat))
            self.new.seat.view.seen) }
        ensures rest { self.new ≡ record self.old { seat = self.new.seat } }
    {
        if self.worker != 0 && word / 4 % 8 == 0 {
            let moved = self.live.offline(rt, &mut self.seat)?;
            self.live.online(rt, &mut self.seat)?;
            return Ok(Some(moved));
        }
        Ok(None)
    }

    /// If the word says so, makes the processor idle, and wakes it.
    fn sleep_and_wake(&mut self, word: u32) -> Result<(), Fault>
        ensures stayed { sleeps_by word ≡ false → self.new ≡ self.old }
        ensures woken { OnOk result (sleeps_by word ≡ true →
            self.new.seat ≡ after_quiesce (reported E.wakes (after_idle self.old.seat))
            self.new.seat.view.seen) }
        ensures rest { self.new ≡ record self.old { seat = self.new.seat } }
    {
        if word / 64 % 4 == 0 {
            self.seat.idle(self.live)?;
            self.seat.wake(self.live)?;
        }
        Ok(())
    }

    /// Drives one grace period, which no other processor blocks.
    fn pass_period<R: Wait>(&mut self, rt: &R) -> Result<(), Fault>
        ensures rest { self.new ≡ record self.old { seat = self.new.seat } }
    {
        self.live.turn(rt, &self.seat)?;
        self.seat.quiesce(self.live)?;
        self.live.collect(rt, &self.seat, self.worker)?;
        self.live.turn(rt, &self.seat)?;
        Ok(())
    }

    /// Runs alone after all workers have ended: drives two grace periods, and hands out the
    /// callbacks that are left.
    pub(crate) fn hand_out_rest<R: Wait>(&mut self, rt: &R) -> Result<LedgerShare, Fault>
        ensures queued { IfOk result (λ share. share.queued ≡ 0) }
        ensures early { IfOk result (λ share. share.early ≡ 0) }
    {
        self.live.tend(rt, &self.seat, self.worker)?;
        for _ in 0..2 {
            self.pass_period(rt)?;
        }
        // No other thread uses the engine any more: no more callbacks are done than the tend
        // returned.
        let (done, _) = self.live.tend(rt, &self.seat, self.worker)?;
        let mut share = LedgerShare::new(self.alloc);
        hand_out(
            rt,
            self.live,
            &self.seat,
            self.worker,
            done.min(MOST_AT_END),
            &mut share,
        )?;
        Ok(share)
    }
}
