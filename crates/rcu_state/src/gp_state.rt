//! The state of the grace periods and the callbacks.
ghost use Rattle.std.specs.Prelude.{◌≡◌, ◌<◌, ◌≤◌, ◌^◌, true, false, length, replicate, IfOk};
ghost use Rattle.std.specs.Prelude.{OnErr, OnOk};
ghost use Rattle.std.specs.Result.{result_err};
ghost use Rattle.rcu_seq.specs.Memory.{tested_fault};
ghost use Rattle.rcu_seq.specs.Numbers.{is_last};
ghost use Rattle.rcu_seq.specs.Seq.{cookie_of, is_done, last_refusal, number_of, tag_of};
ghost use Rattle.rcu_seq.specs.Tags.{first_tag};
ghost use Rattle.rcu_node.specs.CpuSet.{is_in};
ghost use Rattle.rcu_node.specs.Merging.{standing};
ghost use Rattle.rcu_hotplug.specs.Hotplug as hotplug;
ghost use Rattle.rcu_hotplug.specs.Hotplug.{Arrive, Depart, cpus_of, standing_of};
ghost use Rattle.rcu_barrier.specs.Lists.{most_queued};
ghost use Rattle.rcu_state.specs.GpState as grace;
ghost use Rattle.rcu_state.specs.GpState.{on_grace};
ghost use Rattle.rcu_state.specs.Periods.{wants_begin};

use rcu_barrier::lists::{Lists, MOST_QUEUED};
use rcu_hotplug::Hotplug;
use rcu_node::{Answer, Awaited};
use rcu_report::Report;
use rcu_seq::cookie::{Cookie, FIRST_END};
use rcu_seq::{Fault, Seq, Tag};
use std::alloc::Global;
use std::marker::Model;

/// The answer to a report for the running grace period. It is never stale.
#[derive(Clone, Copy, Debug, PartialEq, Eq)]
pub enum CurrentAnswer {
    /// The processor was awaited, and others still are.
    Taken,
    /// The processor was the only one awaited.
    Last,
    /// The processor is not awaited.
    Repeat,
}

/// The answer of a turn.
#[derive(Clone, Copy, Debug, PartialEq, Eq)]
pub enum Turned {
    /// A grace period of this number began, and awaits this many processors.
    Begun(u64, u32),
    /// The grace period ended, and this is the number now.
    Ended(u64),
    /// The grace period goes on, and awaits this many processors.
    Waiting(u32),
    /// No grace period runs, and none is needed.
    Nothing,
}

/// The state of the grace periods (Linux's `rcu_state`): the number, the needed number, the
/// processors that are online and awaited, and each processor's list of callbacks.
///
/// Contracts see all of it, and for how many items each list has room. Only `new`, `queue`, `run`,
/// `migrate` and `visit` need memory. A refused call leaves everything but the room as it was.
#[derive(Drop)]
pub struct GpState<A: Awaited, T: Drop> {
    /// The number, and whether a grace period runs.
    pub(crate) seq: Seq,
    /// The greatest number that was requested, 0 before any request (Linux's `gp_seq_needed`). It
    /// falls only if the numbers are renumbered.
    pub(crate) needed: u64,
    /// The processors.
    hotplug: Hotplug<A>,
    /// The callbacks.
    pub(crate) lists: Lists<T>,
}

impl<A: Awaited, T: Drop> Model for GpState<A, T> {
    ghost use Rattle.rcu_state.specs.GpState.{GraceWithRooms, IsSound};

    ghost Value = { GraceWithRooms T };

    ghost view = { λ g. record {
      grace = record {
        seq = g.seq;
        needed = g.needed;
        processors = g.hotplug;
        lists = g.lists.all;
      };
      rooms = g.lists.rooms;
    } };

    ghost invariant = { λ g. IsSound (record {
      seq = g.seq;
      needed = g.needed;
      processors = g.hotplug;
      lists = g.lists.all;
    }) };
}

impl<A: Awaited, T: Drop> GpState<A, T> {
    /// No grace period ran yet, none is needed, processor 0 alone is online, and the lists are
    /// empty. The awaited set is as it was made, and 1,000,000 callbacks may be queued. Costs a
    /// step for each processor.
    ///
    /// Faults: `BadLast` (19) if `last` is not a legal last number; `NoMemory` (16).
    pub fn new(alloc: Global, inner: A, last: u64) -> Result<Self, Fault>
        requires tag { A.tag inner ≡ first_tag }
        requires empty { A.start_set inner ≡ replicate (length (A.awaited inner)) false }
        ensures fault { tested_fault result ≡ last_refusal last }
        ensures state { IfOk result (λ made. made.grace
            ≡ grace.at_first (length (A.awaited inner)) last most_queued) }
    {
        GpState::with_most(alloc, inner, last, MOST_QUEUED)
    }

    /// As [`GpState::new`], but allows `most` callbacks to be queued, from 1 to 2^62.
    ///
    /// Faults: `BadLast` (19) if `last` is not a legal last number; `NoMemory` (16).
    pub fn with_most(alloc: Global, inner: A, last: u64, most: u64) -> Result<Self, Fault>
        requires tag { A.tag inner ≡ first_tag }
        requires empty { A.start_set inner ≡ replicate (length (A.awaited inner)) false }
        requires most_some { 1 ≤ most }
        requires most_few { most ≤ 2 ^ 62 }
        ensures fault { tested_fault result ≡ last_refusal last }
        ensures state { IfOk result (λ made. made.grace
            ≡ grace.at_first (length (A.awaited inner)) last most) }
    {
        let seq = Seq::new(last)?;
        let lists = Lists::with_most(alloc, inner.cpus(), most)?;
        let hotplug = Hotplug::new(alloc, inner)?;
        Ok(GpState {
            seq,
            needed: 0,
            hotplug,
            lists,
        })
    }

    /// The number of processors.
    pub fn cpus(&self) -> u32
        ensures value { result ≡ cpus_of self.now.grace.processors }
        ensures kept { hotplug.IsSound self.now.grace.processors }
        ensures timely { grace.IsSound self.now.grace }
    {
        self.hotplug.awaited().cpus()
    }

    /// The grace-period number. It is at most 2^62.
    pub fn value(&self) -> u64
        ensures value { result ≡ number_of self.now.grace.seq }
        ensures bounded { result ≤ 2 ^ 62 }
    {
        self.seq.value()
    }

    /// The grace-period number in its epoch. It is at most 2^62.
    pub fn tag(&self) -> Tag
        ensures value { result ≡ tag_of self.now.grace.seq }
        ensures bounded { result.number ≤ 2 ^ 62 }
    {
        self.seq.tag()
    }

    /// Returns whether a grace period runs.
    pub fn is_running(&self) -> bool
        ensures { result ≡ self.now.grace.seq.running }
    {
        self.seq.is_running()
    }

    /// Returns whether no grace period runs and the needed number is above the number.
    pub fn wants_begin(&self) -> bool
        ensures { result ≡ wants_begin (grace.periods_of self.now.grace) }
    {
        !self.seq.is_running() && self.needed > self.seq.value()
    }

    /// The number of a grace period that began now. It is below 2^62.
    ///
    /// Faults: `Running` (8) if one runs; `Exhausted` (11) if the number is the last one.
    pub fn next_number(&self) -> Result<u64, Fault>
        ensures number { IfOk result (λ number.
            number ≡ number_of (grace.after_begin self.now.grace).seq) }
        ensures bounded { IfOk result (λ number. number < 2 ^ 62) }
        ensures fault { result_err result ≡ grace.begin_refusal self.now.grace }
    {
        if self.is_running() {
            return Err(Fault::Running);
        }
        if self.seq.value() == self.seq.last() {
            return Err(Fault::Exhausted);
        }
        Ok(self.seq.value() + 1)
    }

    /// Returns whether the processor is online.
    pub fn online(&self, cpu: u32) -> bool
        requires { cpu < cpus_of self.now.grace.processors }
        ensures { result ≡ is_in self.now.grace.processors.online cpu }
    {
        self.hotplug.online(cpu)
    }

    /// The awaited set.
    pub fn awaited(&self) -> &A
        ensures standing { standing (A.tag result.now) (A.start_set result.now)
            (A.awaited result.now) ≡ standing_of self.now.grace.processors }
        ensures kept { hotplug.IsSound self.now.grace.processors }
    {
        self.hotplug.awaited()
    }

    /// Begins a grace period, which awaits the online processors (Linux's `rcu_gp_init`). Returns
    /// its number, and how many processors it awaits. Costs the same as a begin of the awaited set,
    /// [`Awaited::begin`].
    ///
    /// Faults: `Running` (8) if one runs; `Exhausted` (11) if the number is the last one.
    pub fn begin(&mut self) -> Result<(u64, u32), Fault>
        ensures number { IfOk result (λ began. began.0 ≡ number_of self.new.grace.seq) }
        ensures awaited { IfOk result (λ began. began.1 ≡ grace.awaited_in self.new.grace) }
        ensures fault { result_err result ≡ grace.begin_refusal self.old.grace }
        ensures state { OnOk result (self.new ≡ on_grace grace.after_begin self.old) }
        ensures unchanged { OnErr result (self.new ≡ self.old) }
    {
        let number = self.seq.start()?;
        self.hotplug.begin(self.seq.tag());
        Ok((number, self.hotplug.awaited().count()))
    }

    /// Ends the grace period (Linux's `rcu_gp_cleanup`). Returns the new number.
    ///
    /// Faults: `Idle` (9) if none runs; `Waiting` (10) if a processor is awaited.
    pub fn end(&mut self) -> Result<u64, Fault>
        ensures number { IfOk result (λ number. number ≡ number_of self.new.grace.seq) }
        ensures fault { result_err result ≡ grace.end_refusal self.old.grace }
        ensures state { OnOk result (self.new ≡ on_grace grace.after_end self.old) }
        ensures unchanged { OnErr result (self.new ≡ self.old) }
    {
        if self.is_running() && !self.hotplug.awaited().is_empty() {
            return Err(Fault::Waiting);
        }
        self.seq.end()
    }

    /// Delivers the report of a processor. The report is stale if no grace period runs or its tag
    /// is not the current number; otherwise it does what [`Awaited::report`] says. Costs the same
    /// as a report to the awaited set, in a [`Tree`](rcu_node::tree::Tree) at most a step for each
    /// level.
    pub fn report(&mut self, report: Report) -> Answer
        requires { report.cpu < cpus_of self.old.grace.processors }
        ensures answer { result ≡ grace.report_answer_in self.old.grace report }
        ensures state { self.new ≡ on_grace (λ g. grace.after_report g report) self.old }
    {
        // After a grace period ends, the awaited set keeps its tag, so this tests that one runs.
        if !self.is_running() {
            return Answer::Stale;
        }
        self.hotplug.report(report.cpu, report.tag)
    }

    /// Delivers a report of the processor with the current number as its tag. The report is stale
    /// if no grace period runs. Costs the same as [`GpState::report`].
    pub fn report_now(&mut self, cpu: u32) -> Answer
        requires { cpu < cpus_of self.old.grace.processors }
        ensures answer { result ≡ grace.answer_now self.old.grace cpu }
        ensures state { self.new ≡ on_grace (λ g. grace.after_report_now g cpu) self.old }
    {
        let tag = self.tag();
        self.report(Report { cpu, tag })
    }

    /// Delivers a report of the processor for the running grace period. Costs the same as
    /// [`GpState::report`].
    pub fn report_current(&mut self, cpu: u32) -> CurrentAnswer
        requires cpu { cpu < cpus_of self.old.grace.processors }
        requires running { self.old.grace.seq.running ≡ true }
        ensures answer { result ≡ grace.current_answer self.old.grace cpu }
        ensures state { self.new ≡ on_grace (λ g. grace.after_current_report g cpu) self.old }
    {
        let tag = self.tag();
        match self.hotplug.report(cpu, tag) {
            Answer::Taken => CurrentAnswer::Taken,
            Answer::Last => CurrentAnswer::Last,
            Answer::Repeat => CurrentAnswer::Repeat,
            Answer::Stale => unreachable!(),
        }
    }

    /// Ends the running grace period if no processor is awaited. If none runs, begins one if the
    /// needed number is above the number. A turn that begins one costs the same as
    /// [`GpState::begin`], any other one a step.
    ///
    /// Fault `Exhausted` (11): a grace period would begin, and the number is the last one.
    pub fn turn(&mut self) -> Result<Turned, Fault>
        ensures answer { IfOk result (λ turned. turned ≡ grace.turn_answer self.old.grace) }
        ensures fault { result_err result ≡ grace.turn_refusal self.old.grace }
        ensures state { OnOk result (self.new ≡ on_grace grace.after_turn self.old) }
        ensures unchanged { OnErr result (self.new ≡ self.old) }
    {
        if self.is_running() {
            let awaited = self.hotplug.awaited().count();
            if awaited > 0 {
                return Ok(Turned::Waiting(awaited));
            }
            return Ok(Turned::Ended(self.end()?));
        }
        if !self.wants_begin() {
            return Ok(Turned::Nothing);
        }
        let (number, awaited) = self.begin()?;
        Ok(Turned::Begun(number, awaited))
    }

    /// Brings a processor online, as [`Hotplug::arrive`] does.
    ///
    /// Faults: `BadCpu` (1), `AlreadyOnline` (3).
    pub fn arrive(&mut self, cpu: u32) -> Result<(), Fault>
        ensures fault { result_err result
            ≡ hotplug.refusal self.old.grace.processors (Arrive cpu) }
        ensures state { OnOk result
            (self.new ≡ on_grace (λ g. grace.with_call g (Arrive cpu)) self.old) }
        ensures unchanged { OnErr result (self.new ≡ self.old) }
    {
        self.hotplug.arrive(cpu)
    }

    /// Takes a processor offline, as [`Hotplug::depart`] does; it is no longer awaited. Costs the
    /// same as [`GpState::report`].
    ///
    /// Faults: `BadCpu` (1), `BootStays` (12), `Offline` (2).
    pub fn depart(&mut self, cpu: u32) -> Result<(), Fault>
        ensures fault { result_err result
            ≡ hotplug.refusal self.old.grace.processors (Depart cpu) }
        ensures state { OnOk result
            (self.new ≡ on_grace (λ g. grace.with_call g (Depart cpu)) self.old) }
        ensures unchanged { OnErr result (self.new ≡ self.old) }
    {
        self.hotplug.depart(cpu)
    }

    /// Takes a snapshot: returns the cookie of now (Linux's `get_state_synchronize_rcu`).
    pub fn take(&self) -> Cookie
        ensures { result ≡ cookie_of self.now.grace.seq }
    {
        self.seq.snap()
    }

    /// Takes a snapshot, and requests its number (Linux's `start_poll_synchronize_rcu`).
    pub fn start_poll(&mut self) -> Cookie
        ensures cookie { result ≡ cookie_of self.old.grace.seq }
        ensures state { self.new ≡ on_grace grace.after_start_poll self.old }
    {
        let cookie = self.seq.snap();
        self.needed = self.needed.max(cookie.number);
        cookie
    }

    /// Returns whether a cookie is done (Linux's `poll_state_synchronize_rcu`).
    pub fn done(&self, cookie: Cookie) -> bool
        ensures { result ≡ is_done cookie self.now.grace.seq }
    {
        self.seq.done(cookie)
    }

    /// Renumbers: numbers start again at 0 in the next epoch. Returns that epoch. Waiting callbacks
    /// lose their numbers, as [`Lists::renumber`] says. A needed number above the last one becomes
    /// the number that ends the first grace period; any other becomes 0. Needs no memory, and costs
    /// a step for each processor.
    ///
    /// Faults: `Running` (8) if a grace period runs; `NotLast` (22) if the number is not the last
    /// one; `Exhausted` (11) in the last epoch.
    pub fn renumber(&mut self) -> Result<u64, Fault>
        ensures last { is_last self.old.grace.seq.last ≡ true }
        ensures epoch { IfOk result (λ epoch. epoch ≡ self.new.grace.seq.epoch) }
        ensures fault { result_err result ≡ grace.renumber_refusal self.old.grace }
        ensures state { OnOk result (self.new ≡ on_grace grace.after_renumber self.old) }
        ensures unchanged { OnErr result (self.new ≡ self.old) }
    {
        let last = self.seq.last();
        let is_needed = self.needed > last;
        let epoch = self.seq.renumber()?;
        self.needed = if is_needed { FIRST_END } else { 0 };
        self.lists.renumber();
        Ok(epoch)
    }
}
