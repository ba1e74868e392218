//! The processors that a grace period awaits.
ghost use Rattle.std.specs.Prelude.{◌≡◌, ◌<◌, ◌≤◌, ◌==◌, ℕ, List, Bool, true, length};
ghost use Rattle.rcu_seq.specs.Numbers.{is_running};
ghost use Rattle.rcu_seq.specs.declared.tag.Tag.{Tag};
ghost use Rattle.rcu_node.specs.CpuSet.{is_in, size_of};
ghost use Rattle.rcu_node.specs.Reports.{report_answer, awaited_after_report};

use crate::cpu_set::CpuSet;
use rcu_seq::Tag;

/// The answer to a report of a quiescent state.
#[derive(Clone, Copy, Debug, PartialEq, Eq)]
pub enum Answer {
    /// The processor was awaited, and others still are.
    Taken,
    /// The processor was the only one awaited.
    Last,
    /// The processor is not awaited.
    Repeat,
    /// The report is of another grace period.
    Stale,
}

/// The processors that a grace period awaits: those of its start set, less those that reported.
///
/// Contracts see its tag (the grace period's number, with its epoch), its start set and its awaited
/// set, each set as a flag for each processor. In a new one the tag is number 0 of epoch 0, and
/// both sets are empty.
pub trait Awaited: Drop {
    /// The tag of the latest grace period.
    ghost tag: { Self → Tag };

    /// The processors that it awaited at its start.
    ghost start_set: { Self → List Bool };

    /// The processors that it awaits now.
    ghost awaited: { Self → List Bool };

    /// The number of processors, 1 to 4,096.
    fn cpus(&self) -> u32
        ensures { result ≡ length (awaited self.now) };

    /// The tag of the latest grace period, number 0 of epoch 0 before any.
    fn tag(&self) -> Tag
        ensures { result ≡ tag self.now };

    /// Returns whether the latest grace period awaited the processor at its start.
    fn starts(&self, cpu: u32) -> bool
        requires { cpu < length (awaited self.now) }
        ensures { result ≡ is_in (start_set self.now) cpu };

    /// Returns whether the processor is awaited.
    fn awaits(&self, cpu: u32) -> bool
        requires { cpu < length (awaited self.now) }
        ensures { result ≡ is_in (awaited self.now) cpu };

    /// How many processors are awaited.
    fn count(&self) -> u32
        ensures { result ≡ size_of (awaited self.now) };

    /// Returns whether no processor is awaited.
    fn is_empty(&self) -> bool
        ensures { result ≡ (size_of (awaited self.now) == 0) };

    /// Begins a grace period of this tag, which awaits the set. The set is one of as many
    /// processors, and the tag's number is `4k + 1`. Costs a step for every 64 processors, and in a
    /// tree one for each node above the leaves, and some for each leaf with a processor of this set
    /// or of the last one.
    fn begin(&mut self, now: Tag, set: &CpuSet)
        requires alike { length set.now ≡ length (awaited self.old) }
        requires running { is_running now.number ≡ true }
        ensures tag { tag self.new ≡ now }
        ensures start_set { start_set self.new ≡ set.now }
        ensures awaited { awaited self.new ≡ set.now };

    /// Delivers a processor's report of a quiescent state, with the tag that it had noted. It
    /// compares the report with the tag alone: the caller checks that a grace period runs. Costs a
    /// step, in a tree at most one for each level.
    fn report(&mut self, cpu: u32, noted: Tag) -> Answer
        requires { cpu < length (awaited self.old) }
        ensures answer { result ≡ report_answer (tag self.old) (awaited self.old) cpu noted }
        ensures tag { tag self.new ≡ tag self.old }
        ensures start_set { start_set self.new ≡ start_set self.old }
        ensures awaited { awaited self.new
            ≡ awaited_after_report (tag self.old) (awaited self.old) cpu noted };

    /// There is a processor.
    ghost some: { (set : Self) → 0 < length (awaited set) };

    /// There are at most 4,096 processors.
    ghost few: { (set : Self) → length (awaited set) ≤ 4096 };

    /// The start set has a flag for each processor too.
    ghost alike: { (set : Self) → length (start_set set) ≡ length (awaited set) };

    /// Only processors of the start set are awaited.
    ghost within: { (set : Self) (cpu : ℕ) → is_in (awaited set) cpu ≡ true
        → is_in (start_set set) cpu ≡ true };
}
