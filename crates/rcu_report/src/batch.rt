//! A report, and the reports of one tag as a set.
ghost use Rattle.std.specs.Prelude.{◌≡◌, ◌<◌, ◌≤◌, ◌+◌, ◌&&◌, if◌then◌else◌, true, false};
ghost use Rattle.std.specs.Prelude.{length, slice_set, replicate, IfErr, IfOk, OnErr, OnOk};
ghost use Rattle.std.specs.Result.{result_err};
ghost use Rattle.rcu_seq.specs.Tags.{same_tag};
ghost use Rattle.rcu_node.specs.CpuSet.{IsSetFault, is_in, size_of, union};
ghost use Rattle.rcu_node.specs.Merging.{standing};
ghost use Rattle.rcu_report.specs.Batch.{add_refusal, after_batch, after_report, difference};
ghost use Rattle.rcu_report.specs.Batch.{join_refusal};

use rcu_node::{Answer, Awaited, CpuSet};
use rcu_seq::{Fault, Tag};
use std::alloc::Global;
use std::marker::Model;

/// A report of a quiescent state: its processor, and the tag that the processor had noted.
#[derive(Clone, Copy, Debug, PartialEq, Eq)]
pub struct Report {
    /// The processor.
    pub cpu: u32,
    /// The tag that it had noted (Linux's `gp_seq` of a report).
    pub tag: Tag,
}

/// The reports of one tag, as the set of their processors. Contracts see the tag and a flag for
/// each processor.
///
/// A batch gathers reports before they are delivered. A report that is added twice counts once.
/// `new` and `join` cost a step for each word of the set; `apply` costs a step for each processor,
/// and its reports.
#[derive(Drop)]
pub struct Batch {
    tag: Tag,
    set: CpuSet,
}

impl Model for Batch {
    ghost use Rattle.rcu_report.specs.Batch.{Gathered};

    ghost Value = { Gathered };

    ghost view = { λ batch. record {
      tag = batch.tag;
      set = batch.set;
    } };
}

impl Batch {
    /// No report. Costs a step for every 64 processors.
    ///
    /// Faults: `TooManyCpus` (17) for no processor or more than 4,096; `NoMemory` (16).
    pub fn new(alloc: Global, cpus: u32, tag: Tag) -> Result<Self, Fault>
        ensures fault { IfErr result (λ fault. IsSetFault cpus fault) }
        ensures range { OnOk result ((0 < cpus) × (cpus ≤ 4096)) }
        ensures state { IfOk result (λ batch.
            batch ≡ record { tag = tag; set = replicate cpus false }) }
    {
        Ok(Batch {
            tag,
            set: CpuSet::new(alloc, cpus)?,
        })
    }

    /// The tag of the reports.
    pub fn tag(&self) -> Tag
        ensures { result ≡ self.now.tag }
    {
        self.tag
    }

    /// The number of processors that the batch was made for.
    pub fn cpus(&self) -> u32
        ensures value { result ≡ length self.now.set }
        ensures range { (0 < result) × (result ≤ 4096) }
    {
        self.set.cpus()
    }

    /// Returns whether a report of the processor is in the batch.
    pub fn contains(&self, cpu: u32) -> bool
        requires { cpu < length self.now.set }
        ensures { result ≡ is_in self.now.set cpu }
    {
        self.set.contains(cpu)
    }

    /// Adds a report.
    ///
    /// Fault: `NotAlike` (20) for another tag.
    pub fn add(&mut self, report: Report) -> Result<(), Fault>
        requires { report.cpu < length self.old.set }
        ensures fault { result_err result ≡ add_refusal self.old report.tag }
        ensures state { OnOk result (
            self.new ≡ record self.old { set = slice_set self.old.set report.cpu true }) }
        ensures unchanged { OnErr result (self.new ≡ self.old) }
    {
        if report.tag != self.tag {
            return Err(Fault::NotAlike);
        }
        self.set.insert(report.cpu);
        Ok(())
    }

    /// Adds the reports of another batch. Costs a step for every 64 processors.
    ///
    /// Fault: `NotAlike` (20) for another tag or another number of processors.
    pub fn join(&mut self, other: &Batch) -> Result<(), Fault>
        ensures fault { result_err result ≡ join_refusal self.old other.now }
        ensures state { OnOk result (
            self.new ≡ record self.old { set = union self.old.set other.now.set }) }
        ensures unchanged { OnErr result (self.new ≡ self.old) }
    {
        if other.tag != self.tag || other.set.cpus() != self.set.cpus() {
            return Err(Fault::NotAlike);
        }
        self.set.insert_all(&other.set);
        Ok(())
    }

    /// Delivers each of the reports, and returns how many processors they cleared. The batch is for
    /// as many processors as the awaited set. Costs a step for each processor, and a report for
    /// each processor in the batch.
    pub fn apply<A: Awaited>(&self, to: &mut A) -> u32
        requires { length (A.awaited to.old) ≡ length self.now.set }
        ensures count { result ≡ size_of (difference (A.awaited to.old) (A.awaited to.new)) }
        ensures state { standing (A.tag to.new) (A.start_set to.new) (A.awaited to.new)
            ≡ after_batch (standing (A.tag to.old) (A.start_set to.old) (A.awaited to.old))
            self.now }
    {
        let mut cleared = 0;
        for cpu in 0..self.set.cpus() {
            cleared += self.deliver(to, cpu);
        }
        cleared
    }

    /// Delivers the report of a processor, if it is in the batch, and returns how many processors
    /// it cleared.
    fn deliver<A: Awaited>(&self, to: &mut A, cpu: u32) -> u32
        requires there { cpu < length self.now.set }
        requires sized { length (A.awaited to.old) ≡ length self.now.set }
        ensures count { result + size_of (A.awaited to.new) ≡ size_of (A.awaited to.old) }
        ensures state { standing (A.tag to.new) (A.start_set to.new) (A.awaited to.new)
            ≡ (if is_in self.now.set cpu
            then after_report (standing (A.tag to.old) (A.start_set to.old) (A.awaited to.old))
            cpu self.now.tag
            else standing (A.tag to.old) (A.start_set to.old) (A.awaited to.old)) }
    {
        if !self.set.contains(cpu) {
            return 0;
        }
        u32::from(clears(to, cpu, self.tag))
    }
}

/// Delivers a report, and returns whether its processor was awaited.
fn clears<A: Awaited>(to: &mut A, cpu: u32, tag: Tag) -> bool
    requires { cpu < length (A.awaited to.old) }
    ensures cleared { result ≡ (same_tag tag (A.tag to.old) && is_in (A.awaited to.old) cpu) }
    ensures state { standing (A.tag to.new) (A.start_set to.new) (A.awaited to.new)
        ≡ after_report (standing (A.tag to.old) (A.start_set to.old) (A.awaited to.old)) cpu
        tag }
{
    matches!(to.report(cpu, tag), Answer::Taken | Answer::Last)
}
