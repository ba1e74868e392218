//! The two sets of a grace period, in any representation.
ghost use Rattle.std.specs.Prelude.{◌≡◌, ◌<◌, ◌≤◌, ◌==◌, ℕ, List, Bool, true, false, length};
ghost use Rattle.std.specs.Prelude.{slice_set};
ghost use Rattle.rcu_node.specs.CpuSet.{is_in, size_of};

use crate::cpu_set::CpuSet;

/// The processors that a grace period awaited at its start, and those that it awaits now.
pub trait PeriodSets: Drop {
    /// The processors that it awaited at its start.
    ghost start_set: { Self → List Bool };

    /// The processors that it awaits now.
    ghost awaited: { Self → List Bool };

    /// The number of processors, 1 to 4,096.
    fn cpus(&self) -> u32
        ensures { result ≡ length (awaited self.now) };

    /// Returns whether the processor was awaited at the start.
    fn starts(&self, cpu: u32) -> bool
        requires { cpu < length (awaited self.now) }
        ensures { result ≡ is_in (start_set self.now) cpu };

    /// Returns whether the processor is awaited.
    fn awaits(&self, cpu: u32) -> bool
        requires { cpu < length (awaited self.now) }
        ensures { result ≡ is_in (awaited self.now) cpu };

    /// How many processors are awaited.
    fn count(&self) -> u32
        ensures { result ≡ size_of (awaited self.now) };

    /// Returns whether no processor is awaited.
    fn is_empty(&self) -> bool
        ensures { result ≡ (size_of (awaited self.now) == 0) };

    /// Sets both to another set of as many processors.
    fn begin(&mut self, set: &CpuSet)
        requires { length set.now ≡ length (awaited self.old) }
        ensures start_set { start_set self.new ≡ set.now }
        ensures awaited { awaited self.new ≡ set.now };

    /// Removes a processor from the awaited set. Returns whether it was awaited.
    fn remove(&mut self, cpu: u32) -> bool
        requires { cpu < length (awaited self.old) }
        ensures there { result ≡ is_in (awaited self.old) cpu }
        ensures start_set { start_set self.new ≡ start_set self.old }
        ensures awaited { awaited self.new ≡ slice_set (awaited self.old) cpu false };

    /// At least one processor exists.
    ghost some: { (sets : Self) → 0 < length (awaited sets) };

    /// At most 4,096 processors exist.
    ghost few: { (sets : Self) → length (awaited sets) ≤ 4096 };

    /// The start set has a flag for each processor too.
    ghost alike: { (sets : Self) → length (start_set sets) ≡ length (awaited sets) };

    /// Only processors of the start set are awaited.
    ghost within: { (sets : Self) (cpu : ℕ) → is_in (awaited sets) cpu ≡ true
        → is_in (start_set sets) cpu ≡ true };
}
