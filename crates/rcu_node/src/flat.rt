//! The awaited processors in a flat set.
ghost use Rattle.std.specs.Prelude.{◌≡◌, ◌<◌, ◌≤◌, true, false, ℕ, length, replicate, IfOk, IfErr};
ghost use Rattle.std.specs.Prelude.{OnOk};
ghost use Rattle.rcu_seq.specs.Tags.{first_tag};
ghost use Rattle.rcu_node.specs.CpuSet.{IsSetFault, is_in};

use crate::awaited::Awaited;
use crate::cpu_set::CpuSet;
use crate::period_sets::PeriodSets;
use crate::tagged_sets::TaggedSets;
use rcu_seq::{Fault, Tag};
use std::alloc::Global;

/// The awaited processors as one set, and the start set beside it. A report costs one step.
pub type Flat = TaggedSets<FlatSets>;

impl Flat {
    /// Returns a set in which no processor is awaited, at tag 0. Costs a step for every 64
    /// processors.
    ///
    /// Faults: `TooManyCpus` (17) for no processor or more than 4,096; `NoMemory` (16).
    pub fn new(alloc: Global, cpus: u32) -> Result<Flat, Fault>
        ensures fault { IfErr result (λ fault. IsSetFault cpus fault) }
        ensures some { OnOk result (0 < cpus) }
        ensures few { OnOk result (cpus ≤ 4096) }
        ensures tag { IfOk result (λ flat. ⟦<Flat as Awaited>⟧.tag flat ≡ first_tag) }
        ensures start_set { IfOk result (λ flat.
            ⟦<Flat as Awaited>⟧.start_set flat ≡ replicate cpus false) }
        ensures awaited { IfOk result (λ flat.
            ⟦<Flat as Awaited>⟧.awaited flat ≡ replicate cpus false) }
    {
        Ok(TaggedSets {
            tag: Tag::of_first_epoch(0),
            sets: FlatSets {
                start: CpuSet::new(alloc, cpus)?,
                awaited: CpuSet::new(alloc, cpus)?,
            },
        })
    }
}

/// The start set and the awaited set, kept separately.
#[derive(Drop)]
pub struct FlatSets {
    /// The processors that were awaited at the start.
    start: CpuSet,
    /// The processors that are awaited now.
    awaited: CpuSet,
    ghost some: { 0 < length awaited },
    ghost few: { length awaited ≤ 4096 },
    ghost alike: { length start ≡ length awaited },
    ghost within: { (cpu : ℕ) → is_in awaited cpu ≡ true → is_in start cpu ≡ true },
}

impl PeriodSets for FlatSets {
    ghost start_set = { λ sets. sets.start };

    ghost awaited = { λ sets. sets.awaited };

    ghost some = { λ sets. sets.some };

    ghost few = { λ sets. sets.few };

    ghost alike = { λ sets. sets.alike };

    ghost within = { λ sets. sets.within };

    fn cpus(&self) -> u32 {
        self.awaited.cpus()
    }

    fn starts(&self, cpu: u32) -> bool {
        self.start.contains(cpu)
    }

    fn awaits(&self, cpu: u32) -> bool {
        self.awaited.contains(cpu)
    }

    fn count(&self) -> u32 {
        self.awaited.count()
    }

    fn is_empty(&self) -> bool {
        self.count() == 0
    }

    fn begin(&mut self, set: &CpuSet) {
        self.start.copy_from(set);
        self.awaited.copy_from(set);
    }

    fn remove(&mut self, cpu: u32) -> bool {
        self.awaited.remove(cpu)
    }
}
