//! The state of one processor.
ghost use Rattle.std.specs.Prelude.{◌≡◌, ◌≤◌, [], ◌∷◌, true, false, IfOk, OnOk, OnErr};
ghost use Rattle.std.specs.Result.{result_err};
ghost use Rattle.rcu_seq.specs.Fault.{first_fault};
ghost use Rattle.rcu_cpu.specs.CpuData.{after_call, at_first, deepest, idle_cause, offline_cause};
ghost use Rattle.rcu_cpu.specs.CpuData.{refusal, report_of};
ghost use Rattle.rcu_cpu.specs.CpuData.{Arrive, Depart, Enter, Exit, Idle, Note, Quiesce, Wake};

use rcu_report::Report;
use rcu_seq::{Fault, Tag};
use std::marker::Model;

/// The greatest depth of read sections.
const DEEPEST: u32 = 65_535;

/// The state of one processor: whether it is online and whether it is idle, the depth of its read
/// sections, and the tag that it noted (Linux's `rcu_data` and `rcu_read_lock_nesting`).
///
/// A read section is open from an enter at depth 0 to the exit that brings the depth back to 0.
/// None is open on an offline processor, nor on an idle one, which is online.
#[derive(Debug, Drop)]
pub struct CpuData {
    cpu: u32,
    online: bool,
    idle: bool,
    depth: u32,
    noted: Tag,
}

impl Model for CpuData {
    ghost use Rattle.std.specs.Prelude.{◌≡◌, ◌≤◌, true, false};
    ghost use Rattle.rcu_cpu.specs.CpuData.{Processor, deepest};

    ghost Value = { Processor };

    ghost view = { λ p. record {
      cpu = p.cpu;
      online = p.online;
      idle = p.idle;
      depth = p.depth;
      noted = p.noted;
    } };

    ghost invariant = { λ p. record {
      nesting : p.depth ≤ deepest;
      offline : p.online ≡ false → p.depth ≡ 0;
      idle : p.idle ≡ true → (p.online ≡ true) × (p.depth ≡ 0);
    } };
}

impl CpuData {
    /// Returns a processor of this number, which is awake, has no open section, and noted number 0
    /// of epoch 0.
    pub fn new(cpu: u32, online: bool) -> CpuData
        ensures { result ≡ at_first cpu online }
    {
        CpuData {
            cpu,
            online,
            idle: false,
            depth: 0,
            noted: Tag::of_first_epoch(0),
        }
    }

    /// The processor's number.
    pub fn cpu(&self) -> u32
        ensures { result ≡ self.now.cpu }
    {
        self.cpu
    }

    /// Returns whether the processor is online.
    pub fn online(&self) -> bool
        ensures { result ≡ self.now.online }
    {
        self.online
    }

    /// Returns whether the processor is idle. An idle processor is online, and has no open section.
    pub fn is_idle(&self) -> bool
        ensures value { result ≡ self.now.idle }
        ensures idle { result ≡ true → (self.now.online ≡ true) × (self.now.depth ≡ 0) }
    {
        self.idle
    }

    /// Returns the depth of the read sections, 0 to 65,535. It is 0 if none is open, as on an
    /// offline processor.
    pub fn depth(&self) -> u32
        ensures value { result ≡ self.now.depth }
        ensures bounded { result ≤ deepest }
        ensures offline { self.now.online ≡ false → result ≡ 0 }
    {
        self.depth
    }

    /// The tag of the last note or arrival, number 0 of epoch 0 before any.
    pub fn noted(&self) -> Tag
        ensures { result ≡ self.now.noted }
    {
        self.noted
    }

    /// Opens a read section, or nests one deeper in the open one, and returns the new depth, 1 to
    /// 65,535 (Linux's `__rcu_read_lock`).
    ///
    /// Faults: `Offline` (2) if the processor is offline; `CpuIdle` (23) if it is idle; `NestFull`
    /// (6) if the depth is 65,535.
    pub fn enter(&mut self) -> Result<u32, Fault>
        ensures depth { IfOk result (λ depth. depth ≡ self.new.depth) }
        ensures bounded { self.new.depth ≤ deepest }
        ensures fault { result_err result ≡ refusal self.old Enter }
        ensures state { OnOk result (self.new ≡ after_call self.old Enter) }
        ensures unchanged { OnErr result (self.new ≡ self.old) }
    {
        self.check_awake()?;
        if self.depth == DEEPEST {
            return Err(Fault::NestFull);
        }
        self.depth += 1;
        Ok(self.depth)
    }

    /// Closes the innermost read section, and returns the new depth, 0 to 65,534. At depth 0 no
    /// section is open (Linux's `__rcu_read_unlock`).
    ///
    /// Fault `NotOpen` (5): no section is open.
    pub fn exit(&mut self) -> Result<u32, Fault>
        ensures depth { IfOk result (λ depth. depth ≡ self.new.depth) }
        ensures fault { result_err result ≡ refusal self.old Exit }
        ensures state { OnOk result (self.new ≡ after_call self.old Exit) }
        ensures unchanged { OnErr result (self.new ≡ self.old) }
    {
        self.depth = self.depth.checked_sub(1).ok_or(Fault::NotOpen)?;
        Ok(self.depth)
    }

    /// Notes the tag of now (Linux's `__note_gp_changes`).
    ///
    /// Fault `Offline` (2): the processor is offline.
    pub fn note(&mut self, now: Tag) -> Result<(), Fault>
        ensures fault { result_err result ≡ refusal self.old (Note now) }
        ensures state { OnOk result (self.new ≡ after_call self.old (Note now)) }
        ensures unchanged { OnErr result (self.new ≡ self.old) }
    {
        self.check_online()?;
        self.set_noted(now);
        Ok(())
    }

    /// Notes the tag of now, as [`note`](Self::note) does, on a processor that is known to be
    /// online.
    pub fn set_noted(&mut self, now: Tag)
        requires { self.old.online ≡ true }
        ensures { self.new ≡ after_call self.old (Note now) }
    {
        self.noted = now;
    }

    /// Reports a quiescent state: returns a report of the processor and its noted tag (Linux's
    /// `rcu_report_qs_rdp`).
    ///
    /// Faults: `Offline` (2) if the processor is offline; `CpuIdle` (23) if it is idle; `InSection`
    /// (4) if a section is open.
    pub fn quiesce(&self) -> Result<Report, Fault>
        ensures report { IfOk result (λ report. report ≡ report_of self.now) }
        ensures fault { result_err result ≡ refusal self.now Quiesce }
    {
        self.check_awake()?;
        if self.depth == 0 {
            Ok(Report {
                cpu: self.cpu,
                tag: self.noted,
            })
        } else {
            Err(Fault::InSection)
        }
    }

    /// Brings the processor online. It is awake, and notes the tag of now (Linux's
    /// `rcutree_report_cpu_starting`).
    ///
    /// Fault `AlreadyOnline` (3): the processor is online.
    pub fn arrive(&mut self, now: Tag) -> Result<(), Fault>
        ensures fault { result_err result ≡ refusal self.old (Arrive now) }
        ensures state { OnOk result (self.new ≡ after_call self.old (Arrive now)) }
        ensures unchanged { OnErr result (self.new ≡ self.old) }
    {
        if self.online {
            return Err(Fault::AlreadyOnline);
        }
        self.online = true;
        self.set_noted(now);
        Ok(())
    }

    /// Takes the processor offline, and ends its idleness (Linux's `rcutree_report_cpu_dead`).
    ///
    /// Faults: `Offline` (2) if the processor is offline; `InSection` (4) if a section is open.
    pub fn depart(&mut self) -> Result<(), Fault>
        ensures fault { result_err result ≡ refusal self.old Depart }
        ensures state { OnOk result (self.new ≡ after_call self.old Depart) }
        ensures unchanged { OnErr result (self.new ≡ self.old) }
    {
        self.check_online()?;
        if self.depth > 0 {
            return Err(Fault::InSection);
        }
        self.online = false;
        self.idle = false;
        Ok(())
    }

    /// Makes the processor idle: it opens no section until it wakes (Linux's `ct_idle_enter`,
    /// liburcu's `rcu_thread_offline`).
    ///
    /// Faults: `Offline` (2) if the processor is offline; `CpuIdle` (23) if it is idle; `InSection`
    /// (4) if a section is open.
    pub fn idle(&mut self) -> Result<(), Fault>
        ensures fault { result_err result ≡ refusal self.old Idle }
        ensures state { OnOk result (self.new ≡ after_call self.old Idle) }
        ensures unchanged { OnErr result (self.new ≡ self.old) }
    {
        self.check_awake()?;
        if self.depth != 0 {
            return Err(Fault::InSection);
        }
        self.idle = true;
        Ok(())
    }

    /// Wakes the idle processor (Linux's `ct_idle_exit`, liburcu's `rcu_thread_online`).
    ///
    /// Faults: `Offline` (2) if the processor is offline; `NotIdle` (24) if it is awake.
    pub fn wake(&mut self) -> Result<(), Fault>
        ensures fault { result_err result ≡ refusal self.old Wake }
        ensures state { OnOk result (self.new ≡ after_call self.old Wake) }
        ensures unchanged { OnErr result (self.new ≡ self.old) }
    {
        self.check_online()?;
        if !self.idle {
            return Err(Fault::NotIdle);
        }
        self.idle = false;
        Ok(())
    }

    /// Checks that the processor is online: fault `Offline` (2) if it is not.
    fn check_online(&self) -> Result<(), Fault>
        ensures fault { result_err result ≡ first_fault (offline_cause self.now ∷ []) }
    {
        if !self.online {
            return Err(Fault::Offline);
        }
        Ok(())
    }

    /// Checks that the processor is online and awake: fault `Offline` (2) if it is offline, fault
    /// `CpuIdle` (23) if it is idle.
    fn check_awake(&self) -> Result<(), Fault>
        ensures fault { result_err result
            ≡ first_fault (offline_cause self.now ∷ idle_cause self.now ∷ []) }
    {
        // An idle processor is online.
        if self.idle {
            return Err(Fault::CpuIdle);
        }
        self.check_online()
    }
}
