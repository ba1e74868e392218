//! An awaited set with processors that come and go.
ghost use Rattle.std.specs.Prelude.{◌≡◌, ◌<◌, ℕ, true, false, length, replicate};
ghost use Rattle.std.specs.Prelude.{IfErr, IfOk, OnErr, OnOk};
ghost use Rattle.std.specs.Result.{result_err};
ghost use Rattle.rcu_seq.specs.Numbers.{is_running};
ghost use Rattle.rcu_seq.specs.Tags.{first_tag};
ghost use Rattle.rcu_node.specs.CpuSet.{is_in};
ghost use Rattle.rcu_node.specs.Merging.{standing};
ghost use Rattle.rcu_node.specs.Reports.{report_answer};
ghost use Rattle.rcu_hotplug.specs.Hotplug.{Arrive, Begin, Depart, Report};
ghost use Rattle.rcu_hotplug.specs.Hotplug.{IsSound, after_call, at_first, cpus_of, refusal};
ghost use Rattle.rcu_hotplug.specs.Hotplug.{standing_of};

use rcu_node::{Answer, Awaited, CpuSet};
use rcu_seq::{Fault, Tag};
use std::alloc::Global;
use std::marker::Model;

/// An awaited set, and the processors that are online (Linux's `qsmaskinitnext`).
///
/// Contracts see the awaited set's tag, start set and awaited set, and the online set. A beginning
/// grace period awaits the online processors. A processor that arrives is awaited from the next
/// begin on; one that departs is no longer awaited. Processor 0 is always online. Only `new` needs
/// memory, and it costs a step for every 64 processors; every other call costs what one call of the
/// awaited set costs.
#[derive(Drop)]
pub struct Hotplug<A: Awaited> {
    online: CpuSet,
    /// The processors that the latest grace period awaits.
    inner: A,
}

impl<A: Awaited> Model for Hotplug<A> {
    ghost use Rattle.std.specs.Prelude.{◌≡◌, true, ℕ, length};
    ghost use Rattle.rcu_node.specs.CpuSet.{is_in};
    ghost use Rattle.rcu_hotplug.specs.Hotplug.{Processors};

    ghost Value = { Processors };

    ghost view = { λ h. record {
      tag = A.tag h.inner;
      start_set = A.start_set h.inner;
      awaited = A.awaited h.inner;
      online = h.online;
    } };

    ghost invariant = { λ h. record {
      sized : length h.online ≡ length (A.awaited h.inner);
      boot : is_in h.online 0 ≡ true;
      present : (cpu : ℕ) → is_in (A.awaited h.inner) cpu ≡ true → is_in h.online cpu ≡ true;
    } };
}

impl<A: Awaited> Hotplug<A> {
    /// Returns a set in which processor 0 is online and no processor is awaited. The awaited set is
    /// as it was made. Costs a step for every 64 processors.
    ///
    /// Fault: `NoMemory` (16).
    pub fn new(alloc: Global, inner: A) -> Result<Self, Fault>
        requires tag { A.tag inner ≡ first_tag }
        requires empty { A.start_set inner ≡ replicate (length (A.awaited inner)) false }
        ensures fault { IfErr result (λ fault. fault ≡ Fault.NoMemory) }
        ensures state { IfOk result (λ made. made ≡ at_first (length (A.awaited inner))) }
    {
        let mut online = CpuSet::new(alloc, inner.cpus())?;
        online.insert(0);
        Ok(Hotplug { online, inner })
    }

    /// Brings a processor online (Linux's `rcutree_report_cpu_starting`).
    ///
    /// Faults: `BadCpu` (1), `AlreadyOnline` (3).
    pub fn arrive(&mut self, cpu: u32) -> Result<(), Fault>
        ensures fault { result_err result ≡ refusal self.old (Arrive cpu) }
        ensures state { OnOk result (self.new ≡ after_call self.old (Arrive cpu)) }
        ensures unchanged { OnErr result (self.new ≡ self.old) }
    {
        if cpu >= self.inner.cpus() {
            return Err(Fault::BadCpu);
        }
        if !self.online.insert(cpu) {
            return Err(Fault::AlreadyOnline);
        }
        Ok(())
    }

    /// Takes a processor offline; it is no longer awaited (Linux's `rcutree_report_cpu_dead`).
    ///
    /// Faults: `BadCpu` (1); `BootStays` (12) for processor 0; `Offline` (2).
    pub fn depart(&mut self, cpu: u32) -> Result<(), Fault>
        ensures fault { result_err result ≡ refusal self.old (Depart cpu) }
        ensures state { OnOk result (self.new ≡ after_call self.old (Depart cpu)) }
        ensures unchanged { OnErr result (self.new ≡ self.old) }
    {
        if cpu >= self.inner.cpus() {
            return Err(Fault::BadCpu);
        }
        if cpu == 0 {
            return Err(Fault::BootStays);
        }
        if !self.online.remove(cpu) {
            return Err(Fault::Offline);
        }
        let latest = self.inner.tag();
        self.inner.report(cpu, latest);
        Ok(())
    }

    /// Begins a grace period of this tag, which awaits the online processors. The tag's number is
    /// `4k + 1`.
    pub fn begin(&mut self, tag: Tag)
        requires { is_running tag.number ≡ true }
        ensures state { self.new ≡ after_call self.old (Begin tag) }
        ensures sized { cpus_of self.new ≡ cpus_of self.old }
    {
        self.inner.begin(tag, &self.online);
    }

    /// Delivers a processor's report of a quiescent state, with the tag that it had noted, as
    /// [`Awaited::report`] does.
    pub fn report(&mut self, cpu: u32, tag: Tag) -> Answer
        requires { cpu < cpus_of self.old }
        ensures answer { result ≡ report_answer self.old.tag self.old.awaited cpu tag }
        ensures state { self.new ≡ after_call self.old (Report cpu tag) }
    {
        self.inner.report(cpu, tag)
    }

    /// Returns whether the processor is online.
    pub fn online(&self, cpu: u32) -> bool
        requires { cpu < cpus_of self.now }
        ensures { result ≡ is_in self.now.online cpu }
    {
        self.online.contains(cpu)
    }

    /// The awaited set.
    pub fn awaited(&self) -> &A
        ensures standing { standing (A.tag result.now) (A.start_set result.now)
            (A.awaited result.now) ≡ standing_of self.now }
        ensures kept { IsSound self.now }
    {
        &self.inner
    }
}
