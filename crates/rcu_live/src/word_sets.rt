//! Sets of processors by their own words.
ghost use Rattle.std.specs.Prelude.{◌≡◌, ◌<◌, IfOk, false, true, length, nat_lt, not, replicate};
ghost use Rattle.std.specs.Prelude.{slice_set};
ghost use Rattle.rcu_node.specs.CpuSet.{is_in};
ghost use Rattle.rcu_live.specs.Numbers.{reports_quiescence};

use rcu_node::CpuSet;
use rcu_seq::Fault;
use std::alloc::Global;

/// The processors by their own words, as a begin of this number finds them.
#[derive(Drop)]
pub(crate) struct WordSets {
    /// The number.
    pub(crate) number: u64,
    /// Those that are online in the engine's own state.
    pub(crate) online: CpuSet,
    /// Those whose word is above the number: already quiescent.
    pub(crate) already_quiescent: CpuSet,
    /// Those whose word is neither 0 nor above the number, until they report.
    pub(crate) awaited: CpuSet,
}

impl WordSets {
    /// Returns empty sets of this many processors.
    pub(crate) fn new(alloc: Global, cpus: u32) -> Result<WordSets, Fault>
        ensures already_quiescent { IfOk result (λ sets. length sets.already_quiescent ≡ cpus) }
        ensures awaited { IfOk result (λ sets. sets.awaited ≡ replicate cpus false) }
        ensures online { IfOk result (λ sets.
            sets.online ≡ slice_set (replicate cpus false) 0 true) }
    {
        let mut online = CpuSet::new(alloc, cpus)?;
        online.insert(0);
        Ok(WordSets {
            number: 0,
            online,
            already_quiescent: CpuSet::new(alloc, cpus)?,
            awaited: CpuSet::new(alloc, cpus)?,
        })
    }

    /// Empties the sets, for a begin of this number.
    pub(crate) fn start(&mut self, number: u64)
        ensures number { self.new.number ≡ number }
        ensures online { self.new.online ≡ self.old.online }
        ensures already_quiescent { self.new.already_quiescent
            ≡ replicate (length self.old.already_quiescent) false }
        ensures awaited { self.new.awaited ≡ replicate (length self.old.awaited) false }
    {
        self.number = number;
        self.already_quiescent.clear();
        self.awaited.clear();
    }

    /// Adds a processor, which is in no set yet, to the set of its own word.
    pub(crate) fn add(&mut self, cpu: u32, word: u64)
        requires quiescent_inside { cpu < length self.old.already_quiescent }
        requires quiescent_out { is_in self.old.already_quiescent cpu ≡ false }
        requires awaited_inside { cpu < length self.old.awaited }
        requires awaited_out { is_in self.old.awaited cpu ≡ false }
        ensures number { self.new.number ≡ self.old.number }
        ensures online { self.new.online ≡ self.old.online }
        ensures already_quiescent { self.new.already_quiescent
            ≡ slice_set self.old.already_quiescent cpu (nat_lt self.old.number word) }
        ensures awaited { self.new.awaited
            ≡ slice_set self.old.awaited cpu (not (reports_quiescence self.old.number word)) }
    {
        if word > self.number {
            self.already_quiescent.insert(cpu);
        } else if word != 0 {
            self.awaited.insert(cpu);
        }
    }
}
