//! The processors that a grace period awaits, in any representation of its sets.

use crate::awaited::{Answer, Awaited};
use crate::cpu_set::CpuSet;
use crate::period_sets::PeriodSets;
use rcu_seq::Tag;

/// The sets of the latest grace period, and its tag.
#[derive(Drop)]
pub struct TaggedSets<S: PeriodSets> {
    /// The tag of the latest grace period, number 0 of epoch 0 before any.
    pub(crate) tag: Tag,
    /// The processors that it awaited at its start, and those that it awaits now.
    pub(crate) sets: S,
}

impl<S: PeriodSets> Awaited for TaggedSets<S> {
    ghost tag = { λ tagged. tagged.tag };

    ghost start_set = { λ tagged. S.start_set tagged.sets };

    ghost awaited = { λ tagged. S.awaited tagged.sets };

    ghost some = { λ tagged. S.some tagged.sets };

    ghost few = { λ tagged. S.few tagged.sets };

    ghost alike = { λ tagged. S.alike tagged.sets };

    ghost within = { λ tagged. S.within tagged.sets };

    fn cpus(&self) -> u32 {
        self.sets.cpus()
    }

    fn tag(&self) -> Tag {
        self.tag
    }

    fn starts(&self, cpu: u32) -> bool {
        self.sets.starts(cpu)
    }

    fn awaits(&self, cpu: u32) -> bool {
        self.sets.awaits(cpu)
    }

    fn count(&self) -> u32 {
        self.sets.count()
    }

    fn is_empty(&self) -> bool {
        self.sets.is_empty()
    }

    fn begin(&mut self, now: Tag, set: &CpuSet) {
        self.tag = now;
        self.sets.begin(set);
    }

    fn report(&mut self, cpu: u32, noted: Tag) -> Answer {
        if noted != self.tag {
            return Answer::Stale;
        }
        if !self.sets.remove(cpu) {
            return Answer::Repeat;
        }
        if self.sets.is_empty() {
            Answer::Last
        } else {
            Answer::Taken
        }
    }
}
