//! An awaited set with a counter of grace periods.
ghost use Rattle.std.specs.Prelude.{◌≡◌, ◌≤◌, length};
ghost use Rattle.std.specs.Prelude.{IfOk, OnErr, OnOk};
ghost use Rattle.std.specs.Result.{result_err};
ghost use Rattle.rcu_seq.specs.Seq.{last_refusal, number_of};
ghost use Rattle.rcu_node.specs.Merging.{standing};
ghost use Rattle.rcu_report.specs.Replica.{Begin, Depart, End, Merge, Report};
ghost use Rattle.rcu_report.specs.Replica.{IsSound, IsUnused, after_call, answer_of, at_first};
ghost use Rattle.rcu_report.specs.Replica.{cpus_of, refusal, standing_of};

use rcu_node::merging::merge;
use rcu_node::{Answer, Awaited, CpuSet};
use rcu_seq::{Fault, Seq, Tag};
use std::marker::Model;

/// An awaited set with a counter: one of two or more replicas of one grace-period engine, which
/// gather reports separately and are merged.
///
/// Contracts see the counter, and the awaited set's tag, start set and awaited set. The tag is the
/// latest grace period's number, also after its end; no processor is awaited while no grace period
/// runs. No call needs memory. Each call but `merge_from` costs what one call of the awaited set
/// costs.
#[derive(Drop)]
pub struct Replica<A: Awaited> {
    seq: Seq,
    /// The processors that the latest grace period awaits.
    inner: A,
}

impl<A: Awaited> Model for Replica<A> {
    ghost use Rattle.std.specs.Prelude.{◌≡◌, true, false, ℕ, length, replicate};
    ghost use Rattle.rcu_seq.specs.Tags.{of_first_epoch};
    ghost use Rattle.rcu_node.specs.CpuSet.{is_in};
    ghost use Rattle.rcu_report.specs.Replica.{Replicated, latest_of};

    ghost Value = { Replicated };

    ghost view = { λ r. record {
      periods = r.seq;
      tag = (A.tag r.inner).number;
      start_set = A.start_set r.inner;
      awaited = A.awaited r.inner;
    } };

    ghost invariant = { λ r. record {
      latest : A.tag r.inner ≡ of_first_epoch (latest_of r.seq);
      epoch : r.seq.epoch ≡ 0;
      fresh : (A.tag r.inner).number ≡ 0
          → A.start_set r.inner ≡ replicate (length (A.awaited r.inner)) false;
      idle : r.seq.running ≡ false → (cpu : ℕ) → is_in (A.awaited r.inner) cpu ≡ false;
    } };
}

impl<A: Awaited> Replica<A> {
    /// Returns a replica with no grace period yet, in which no processor is awaited. The awaited
    /// set is as it was made.
    ///
    /// Fault `BadLast` (19): `last` is not a multiple of 4 in 4..=2^62.
    pub fn new(inner: A, last: u64) -> Result<Self, Fault>
        requires { IsUnused (standing (A.tag inner) (A.start_set inner) (A.awaited inner)) }
        ensures fault { result_err result ≡ last_refusal last }
        ensures state { IfOk result (λ made. made ≡ at_first (length (A.awaited inner)) last) }
    {
        Ok(Replica {
            seq: Seq::new(last)?,
            inner,
        })
    }

    /// Begins a grace period that awaits the set, and returns its number, `4k + 1`. The set is one
    /// of as many processors.
    ///
    /// Faults: `Running` (8) if one runs; `Exhausted` (11) if the number is the last one.
    pub fn begin(&mut self, set: &CpuSet) -> Result<u64, Fault>
        requires { length set.now ≡ cpus_of self.old }
        ensures number { IfOk result (λ number. number ≡ number_of self.new.periods) }
        ensures fault { result_err result ≡ refusal self.old (Begin set.now) }
        ensures state { OnOk result (self.new ≡ after_call self.old (Begin set.now)) }
        ensures unchanged { OnErr result (self.new ≡ self.old) }
    {
        let number = self.seq.start()?;
        self.inner.begin(Tag::of_first_epoch(number), set);
        Ok(number)
    }

    /// Delivers a processor's report of a quiescent state, with the number that it had noted. While
    /// no grace period runs every report is stale; otherwise it does what [`Awaited::report`] says.
    ///
    /// Fault `BadCpu` (1): the processor does not exist.
    pub fn report(&mut self, cpu: u32, tag: u64) -> Result<Answer, Fault>
        ensures answer { IfOk result (λ answer. answer ≡ answer_of self.old cpu tag) }
        ensures fault { result_err result ≡ refusal self.old (Report cpu tag) }
        ensures state { OnOk result (self.new ≡ after_call self.old (Report cpu tag)) }
        ensures unchanged { OnErr result (self.new ≡ self.old) }
    {
        if cpu >= self.inner.cpus() {
            return Err(Fault::BadCpu);
        }
        if !self.seq.is_running() {
            return Ok(Answer::Stale);
        }
        Ok(self.inner.report(cpu, Tag::of_first_epoch(tag)))
    }

    /// Takes a processor offline; it is no longer awaited.
    ///
    /// Faults: `BadCpu` (1); `BootStays` (12) for processor 0.
    pub fn depart(&mut self, cpu: u32) -> Result<(), Fault>
        ensures fault { result_err result ≡ refusal self.old (Depart cpu) }
        ensures state { OnOk result (self.new ≡ after_call self.old (Depart cpu)) }
        ensures unchanged { OnErr result (self.new ≡ self.old) }
    {
        if cpu >= self.inner.cpus() {
            return Err(Fault::BadCpu);
        }
        if cpu == 0 {
            return Err(Fault::BootStays);
        }
        let tag = self.inner.tag();
        self.inner.report(cpu, tag);
        Ok(())
    }

    /// Ends the grace period, and returns the new number. The awaited set keeps its tag and start
    /// set.
    ///
    /// Faults: `Idle` (9) if none runs; `Waiting` (10) if a processor is awaited.
    #[tactic(auto, using(crate::proofs::Awaiting::refused_while_awaited))]
    pub fn end(&mut self) -> Result<u64, Fault>
        ensures number { IfOk result (λ number. number ≡ number_of self.new.periods) }
        ensures fault { result_err result ≡ refusal self.old End }
        ensures state { OnOk result (self.new ≡ after_call self.old End) }
        ensures unchanged { OnErr result (self.new ≡ self.old) }
    {
        // No processor is awaited while no grace period runs, so the counter finds the first fault.
        if !self.inner.is_empty() {
            return Err(Fault::Waiting);
        }
        self.seq.end()
    }

    /// Merges another replica of the same grace period: this one then awaits only the processors
    /// that both await, whether the grace period still runs in either of them or not. Costs a step
    /// for each processor.
    ///
    /// Fault `NotAlike` (20): number of processors, tag or start set differ.
    pub fn merge_from<B: Awaited>(&mut self, other: &Replica<B>) -> Result<(), Fault>
        ensures fault { result_err result ≡ refusal self.old (Merge other.now) }
        ensures state { OnOk result (self.new ≡ after_call self.old (Merge other.now)) }
        ensures unchanged { OnErr result (self.new ≡ self.old) }
    {
        merge(&mut self.inner, &other.inner)
    }

    /// The awaited set.
    pub fn awaited(&self) -> &A
        ensures standing { standing (A.tag result.now) (A.start_set result.now)
            (A.awaited result.now) ≡ standing_of self.now }
        ensures kept { IsSound self.now }
    {
        &self.inner
    }

    /// The number: 4 times the grace periods that ended, and 1 more while one runs.
    pub fn value(&self) -> u64
        ensures value { result ≡ number_of self.now.periods }
        ensures within { result ≤ self.now.periods.last }
    {
        self.seq.value()
    }

    /// Returns whether a grace period runs.
    pub fn is_running(&self) -> bool
        ensures { result ≡ self.now.periods.running }
    {
        self.seq.is_running()
    }
}
