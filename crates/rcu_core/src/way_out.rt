//! The next event by which a running grace period comes to its end.
ghost use Rattle.std.specs.Prelude.{◌≡◌, ◌<◌, ◌≤◌, Some, length};
ghost use Rattle.std.specs.List.{find, range_with_len};
ghost use Rattle.rcu_hotplug.specs.Hotplug.{cpus_of};
ghost use Rattle.rcu_node.specs.CpuSet.{is_in};
ghost use Rattle.rcu_core.specs.Core.{Represents, says, size_at};
ghost use Rattle.rcu_core.specs.History.{History};
ghost use Rattle.rcu_core.specs.Situation.{situation};
ghost use Rattle.rcu_core.specs.WayOut.{IsStepOut, next_retiring_event, retiring_event_of};
ghost use Rattle.rcu_core.specs.WayOut.{retiring_steps_of, steps_out};

use crate::event::Event;
use crate::event_core::Core;
use rcu_node::Awaited;

/// The first processor that a set awaits.
fn first_awaited<A: Awaited>(awaited: &A) -> Option<u32>
    ensures { result
        ≡ find (is_in (A.awaited awaited.now)) (range_with_len 0 (length (A.awaited awaited.now))) }
{
    for cpu in 0..awaited.cpus() {
        if awaited.awaits(cpu) {
            return Some(cpu);
        }
    }
    None
}

impl<A: Awaited> Core<A, u64> {
    /// The next event of an awaited processor on its way out of the running grace period.
    fn retiring_event_of(&self, cpu: u32) -> Event
        requires { cpu < cpus_of self.now.grace.processors }
        ensures { result ≡ retiring_event_of (says self.now) cpu }
    {
        let processor = &self.cpus[cpu as usize];
        if processor.depth() > 0 {
            Event::Exit(cpu)
        } else if processor.is_idle() {
            Event::Scan(cpu)
        } else {
            Event::Idle(cpu)
        }
    }

    /// How many events take an awaited processor out of the running grace period.
    fn steps_of(&self, cpu: u32) -> u64
        requires { cpu < cpus_of self.now.grace.processors }
        ensures value { result ≡ retiring_steps_of (says self.now) cpu }
        ensures few { result ≤ 65537 }
    {
        let processor = &self.cpus[cpu as usize];
        u64::from(processor.depth()) + if processor.is_idle() { 1 } else { 2 }
    }

    /// Returns how many events end the running grace period by [`Core::next_retiring_event`]; 0 if
    /// none runs. It costs a step a processor.
    pub fn steps_left(&self) -> u64
        ensures { (h : History) → Represents self.now h → result ≡ steps_out (size_at self.now) h }
    {
        if !self.gp.is_running() {
            return 0;
        }
        let mut left = 1;
        for cpu in 0..self.gp.cpus() {
            if self.gp.awaited().awaits(cpu) {
                left += self.steps_of(cpu);
            }
        }
        left
    }

    /// Returns the next event on the way to the end of the running grace period, or `None` if none
    /// runs. It is of the first awaited processor: an exit while a section of it is open, then a
    /// step to idle, and once it is idle a scan. If no processor is awaited, it is the end.
    ///
    /// [`Core::step`] does not refuse it, not even for lack of memory. If the caller takes each
    /// next event, [`Core::steps_left`] of them end the grace period. It costs a step a processor
    /// at most, and no memory.
    pub fn next_retiring_event(&self) -> Option<Event>
        ensures next { (h : History) → Represents self.now h
            → result ≡ next_retiring_event (size_at self.now) (situation h) }
        ensures step { (h : History) (event : Event) → Represents self.now h → result ≡ Some event
            → IsStepOut (size_at self.now) h event }
    {
        if !self.gp.is_running() {
            return None;
        }
        Some(match first_awaited(self.gp.awaited()) {
            Some(cpu) => self.retiring_event_of(cpu),
            None => Event::End,
        })
    }
}
