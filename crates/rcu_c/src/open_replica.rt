//! The replica of an open handle.
ghost use Rattle.std.specs.Prelude.{◌≡◌, ◌/◌, ◌%◌, None, IfOk, OnErr, OnOk, length};
ghost use Rattle.std.specs.Prelude.{slice_index};
ghost use Rattle.std.specs.Result.{result_err};
ghost use Rattle.rcu_geometry.specs.Opening.{opening_refusal};
ghost use Rattle.rcu_node.specs.Words.{flags_in, has_bit};
ghost use Rattle.rcu_report.specs.Replica.{Begin, Depart, End, Merge, Report};
ghost use Rattle.rcu_report.specs.Replica.{answer_of, at_first, after_call, cpus_of, refusal};
ghost use Rattle.rcu_seq.specs.Memory.{tested_fault};
ghost use Rattle.rcu_seq.specs.Seq.{number_of};

use rcu_geometry::check_size;
use rcu_node::{Answer, Awaited, CpuSet, Tree};
use rcu_report::Replica;
use rcu_seq::Fault;
use std::alloc::Global;
use std::marker::Model;

/// The replica of an open handle, over the tree of Linux's fanouts. But for its opening no call
/// takes memory.
#[derive(Drop)]
pub struct OpenReplica {
    inner: Replica<Tree<16, 64>>,
    /// The processors of a beginning grace period. Each begin fills the set again.
    set: CpuSet,
}

impl Model for OpenReplica {
    ghost use Rattle.std.specs.Prelude.{◌≡◌, length};
    ghost use Rattle.rcu_report.specs.Replica.{Replicated, cpus_of};

    ghost Value = { Replicated };

    ghost view = { λ o. o.inner };

    ghost invariant = { λ o. length o.set ≡ cpus_of o.inner };
}

impl OpenReplica {
    /// Returns a fresh replica.
    pub(crate) fn new(alloc: Global, cpus: u32, last: u64) -> Result<OpenReplica, Fault>
        ensures state { IfOk result (λ made. made ≡ at_first cpus last) }
        ensures fault { tested_fault result ≡ opening_refusal 16 64 cpus last }
    {
        check_size::<16, 64>(cpus, last)?;
        OpenReplica::make(alloc, cpus, last)
    }

    /// Returns a fresh replica, of which only memory can be wanting.
    fn make(alloc: Global, cpus: u32, last: u64) -> Result<OpenReplica, Fault>
        requires { opening_refusal 16 64 cpus last ≡ None }
        ensures state { IfOk result (λ made. made ≡ at_first cpus last) }
        ensures fault { tested_fault result ≡ None }
    {
        let set = CpuSet::new(alloc, cpus)?;
        let inner = Replica::new(Tree::new(alloc, cpus)?, last)?;
        Ok(OpenReplica { inner, set })
    }

    /// A grace period begins, and awaits the processors whose bits are set.
    pub(crate) fn begin(&mut self, words: &[u64]) -> Result<u64, Fault>
        ensures number { IfOk result (λ number. number ≡ number_of self.new.periods) }
        ensures state { OnOk result (self.new
            ≡ after_call self.old (Begin (flags_in (cpus_of self.old) words.now))) }
        ensures fault { result_err result
            ≡ refusal self.old (Begin (flags_in (cpus_of self.old) words.now)) }
        ensures unchanged { OnErr result (self.new ≡ self.old) }
    {
        fill(&mut self.set, words);
        self.inner.begin(&self.set)
    }

    /// A processor reports a quiescent state with the number that it had noted.
    pub(crate) fn report(&mut self, cpu: u32, number: u64) -> Result<Answer, Fault>
        ensures answer { IfOk result (λ answer. answer ≡ answer_of self.old cpu number) }
        ensures state { OnOk result (self.new ≡ after_call self.old (Report cpu number)) }
        ensures fault { result_err result ≡ refusal self.old (Report cpu number) }
        ensures unchanged { OnErr result (self.new ≡ self.old) }
    {
        self.inner.report(cpu, number)
    }

    /// A processor departs, and is no longer awaited.
    pub(crate) fn depart(&mut self, cpu: u32) -> Result<(), Fault>
        ensures state { OnOk result (self.new ≡ after_call self.old (Depart cpu)) }
        ensures fault { result_err result ≡ refusal self.old (Depart cpu) }
        ensures unchanged { OnErr result (self.new ≡ self.old) }
    {
        self.inner.depart(cpu)
    }

    /// The grace period ends.
    pub(crate) fn end(&mut self) -> Result<u64, Fault>
        ensures number { IfOk result (λ number. number ≡ number_of self.new.periods) }
        ensures state { OnOk result (self.new ≡ after_call self.old End) }
        ensures fault { result_err result ≡ refusal self.old End }
        ensures unchanged { OnErr result (self.new ≡ self.old) }
    {
        self.inner.end()
    }

    /// Takes in what another replica of the same grace period has heard.
    #[tactic(auto, using(crate::proofs::FromWords::as_many_merged))]
    pub(crate) fn merge_from(&mut self, other: &OpenReplica) -> Result<(), Fault>
        ensures state { OnOk result (self.new ≡ after_call self.old (Merge other.now)) }
        ensures fault { result_err result ≡ refusal self.old (Merge other.now) }
        ensures unchanged { OnErr result (self.new ≡ self.old) }
    {
        self.inner.merge_from(&other.inner)
    }

    /// Returns the awaited set.
    pub(crate) fn awaited(&self) -> &Tree<16, 64>
        ensures { ⟦<Tree<16, 64> as Awaited>⟧.awaited result.now ≡ self.now.awaited }
    {
        self.inner.awaited()
    }
}

/// Fills the set with the processors whose bits are set in words of 64. Costs a step for each
/// processor.
fn fill(set: &mut CpuSet, words: &[u64])
    ensures set { set.new ≡ flags_in (length set.old) words.now }
    ensures sized { length set.new ≡ length set.old }
{
    set.clear();
    for cpu in 0..set.cpus() {
        if has(words, cpu) {
            set.insert(cpu);
        }
    }
}

/// Returns whether the processor's bit is set in words of 64; in words that are not there none is.
fn has(words: &[u64], cpu: u32) -> bool
    ensures { result ≡ has_bit (slice_index words.now (cpu / 64)) (cpu % 64) }
{
    let word = words.get((cpu / 64) as usize).copied().unwrap_or(0);
    (word >> (cpu % 64)) & 1 == 1
}
