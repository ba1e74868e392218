//! The engine as a machine over events.
ghost use Rattle.std.specs.Prelude.{◌≡◌, ◌<◌, ◌≤◌, ◌^◌, false, [], length, replicate, IfErr, IfOk};
ghost use Rattle.std.specs.Prelude.{OnErr};
ghost use Rattle.std.specs.Result.{result_err};
ghost use Rattle.rcu_seq.specs.Memory.{tested_fault};
ghost use Rattle.rcu_seq.specs.Seq.{last_refusal};
ghost use Rattle.rcu_seq.specs.Tags.{first_tag};
ghost use Rattle.rcu_node.specs.CpuSet.{is_in, size_of};
ghost use Rattle.rcu_barrier.specs.Lists.{most_queued};
ghost use Rattle.rcu_state.specs.GpState.{which};
ghost use Rattle.rcu_core.specs.History.{History, report_at};
ghost use Rattle.rcu_core.specs.Replies.{fault_in};
ghost use Rattle.rcu_core.specs.Links.{onto};
ghost use Rattle.rcu_core.specs.Runs.{IsLegalRun, RunsLegally};
ghost use Rattle.rcu_core.specs.Core.{Follows, Represents, Takes, cpu_refusal, says, size_at};

use crate::cpu_list::CpuList;
use crate::event::Event;
use crate::reply::Reply;
use crate::value_list::ValueList;
use rcu_barrier::BarrierState;
use rcu_barrier::lists::MOST_QUEUED;
use rcu_cpu::CpuData;
use rcu_node::Awaited;
use rcu_report::Report;
use rcu_seq::{Cookie, Fault};
use rcu_state::{GpState, Turned};
use std::alloc::{AllocError, Global};
use std::marker::Model;

/// The engine as a machine over events: the state of the grace periods and the callbacks, the state
/// of each processor, and all reports ever made.
///
/// Contracts see these three parts.
#[derive(Drop)]
pub struct Core<A: Awaited, T: Drop> {
    pub(crate) gp: GpState<A, T>,
    /// Each processor, at its index.
    pub(crate) cpus: Vec<CpuData>,
    /// All reports, the first one first.
    reports: Vec<Report>,
    /// The allocator of everything that grows.
    alloc: Global,
}

impl<A: Awaited, T: Drop> Model for Core<A, T> {
    ghost use Rattle.std.specs.Prelude.{◌≡◌};
    ghost use Rattle.rcu_core.specs.Core.{State, IsSound};

    ghost Value = { State T };

    ghost view = { λ m. record {
      grace = m.gp.grace;
      cpus = m.cpus.items;
      made = m.reports.items;
    } };

    ghost invariant = { λ m. record {
      sound : IsSound (record { grace = m.gp.grace; cpus = m.cpus.items; made = m.reports.items });
    } };
}

/// Returns the report of a place, counted from 1.
fn report_of(reports: &[Report], place: u64) -> Option<Report>
    ensures { result ≡ report_at place reports.now }
{
    if place == 0 || place - 1 >= reports.len() as u64 {
        return None;
    }
    Some(reports[place as usize - 1])
}

/// Returns the awaited processors, ascending. It makes room for all of them first.
fn list_awaited<A: Awaited>(alloc: Global, awaited: &A) -> Result<CpuList, AllocError>
    ensures answer { IfOk result (λ list.
        list ≡ which (length (A.awaited awaited.now)) (is_in (A.awaited awaited.now))) }
    ensures memory { OnErr result (0 < size_of (A.awaited awaited.now)) }
{
    let mut list = Vec::with_capacity(alloc, awaited.count() as usize)?;
    for cpu in 0..awaited.cpus() {
        if awaited.awaits(cpu) {
            list.push_reserved(cpu);
        }
    }
    Ok(CpuList::new(list))
}

impl<A: Awaited> Core<A, u64> {
    /// Returns a machine in the situation of the empty history: processor 0 is online, no grace
    /// period runs, and the lists are empty. The awaited set is as it was made, no grace period
    /// begins at the number `last`, and 1,000,000 callbacks may be queued. Costs a step for each
    /// processor.
    ///
    /// Faults: `BadLast` (19) if `last` is not a multiple of 4 in 4..=2^62; `NoMemory` (16).
    pub fn new(alloc: Global, inner: A, last: u64) -> Result<Self, Fault>
        requires tag { A.tag inner ≡ first_tag }
        requires empty { A.start_set inner ≡ replicate (length (A.awaited inner)) false }
        ensures fault { tested_fault result ≡ last_refusal last }
        ensures situation { IfOk result (λ made. Represents made []) }
        ensures size { IfOk result (λ made. size_at made
            ≡ record { cpus = length (A.awaited inner); last = last; most = most_queued }) }
    {
        Core::with_most(alloc, inner, last, MOST_QUEUED)
    }

    /// As [`Core::new`], but allows `most` callbacks to be queued, from 1 to 2^62.
    ///
    /// Faults: `BadLast` (19) if `last` is not a multiple of 4 in 4..=2^62; `NoMemory` (16).
    pub fn with_most(alloc: Global, inner: A, last: u64, most: u64) -> Result<Self, Fault>
        requires tag { A.tag inner ≡ first_tag }
        requires empty { A.start_set inner ≡ replicate (length (A.awaited inner)) false }
        requires most_some { 1 ≤ most }
        requires most_few { most ≤ 2 ^ 62 }
        ensures fault { tested_fault result ≡ last_refusal last }
        ensures situation { IfOk result (λ made. Represents made []) }
        ensures size { IfOk result (λ made. size_at made
            ≡ record { cpus = length (A.awaited inner); last = last; most = most }) }
    {
        let gp = GpState::with_most(alloc, inner, last, most)?;
        let mut cpus = Vec::with_capacity(alloc, gp.cpus() as usize)?;
        for cpu in 0..gp.cpus() {
            cpus.push(CpuData::new(cpu, cpu == 0))?;
        }
        Ok(Core {
            gp,
            cpus,
            reports: Vec::new(alloc),
            alloc,
        })
    }

    /// Takes an event, and returns a legal reply. The machine is then in the situation of the
    /// history, with the event if it was accepted. A refused event changes nothing.
    ///
    /// An event costs what its calls of [`GpState`] cost; a list of the awaited processors costs a
    /// step for each processor, and any other event one step.
    pub fn step(&mut self, event: Event) -> Reply
        ensures follows { (h : History) → Represents self.old h →
            Follows self.old h event result self.new }
        ensures unchanged { (fault : Fault) → result ≡ Reply.Fault fault → self.new ≡ self.old }
    {
        // For the proof only: a borrow of a field brings in the type's invariant.
        let _ = &self.gp;
        match self.apply(event) {
            Ok(reply) => reply,
            Err(fault) => Reply::Fault(fault),
        }
    }

    /// Takes these events, one after another, and returns the replies of [`Core::step`]. It makes
    /// room for all replies first. The replies of a new machine form a legal run, so all laws of
    /// runs hold for it. Costs what these steps cost.
    ///
    /// Fault `NoMemory` (16): no event was taken.
    pub fn run(&mut self, events: &[Event]) -> Result<Vec<Reply>, Fault>
        ensures legal { IfOk result (λ replies. (h : History) → Represents self.old h →
            RunsLegally self.old h events.now replies.items self.new) }
        ensures anew { IfOk result (λ replies. Represents self.old []
            → IsLegalRun (size_at self.old) (onto events.now replies.items [])) }
        ensures fault { IfErr result (λ fault. fault ≡ Fault.NoMemory) }
        ensures unchanged { OnErr result (self.new ≡ self.old) }
    {
        let mut replies = Vec::with_capacity(self.alloc, events.len())?;
        for event in events {
            let reply = self.step(*event);
            replies.push_reserved(reply);
        }
        Ok(replies)
    }

    fn apply(&mut self, event: Event) -> Result<Reply, Fault>
        ensures { Takes self.old event result self.new }
    {
        match event {
            Event::Enter(cpu) => self.enter(cpu),
            Event::Exit(cpu) => self.exit(cpu),
            Event::Note(cpu) => self.note(cpu),
            Event::Quiesce(cpu) => self.quiesce(cpu),
            Event::Deliver(place) => self.deliver(place),
            Event::Online(cpu) => self.arrive(cpu),
            Event::Offline(cpu) => self.depart(cpu),
            Event::Begin => self.begin(),
            Event::End => self.end(),
            Event::Turn => self.turn(),
            Event::Awaits => self.awaits(),
            Event::Take => self.take(),
            Event::StartPoll => self.start_poll(),
            Event::Poll(number, epoch) => self.poll(number, epoch),
            Event::Queue(cpu, value) => self.queue(cpu, value),
            Event::Tend(cpu) => self.tend(cpu),
            Event::Run(cpu, most) => self.run_callbacks(cpu, most),
            Event::BarBegin => self.begin_barrier(),
            Event::Visit(cpu) => self.visit(cpu),
            Event::BarTest => self.test_barrier(),
            Event::Renumber => self.renumber(),
            Event::Idle(cpu) => self.idle(cpu),
            Event::Wake(cpu) => self.wake(cpu),
            Event::Scan(cpu) => self.scan(cpu),
        }
    }

    /// Returns the processor's index. Fault `BadCpu` (1): the processor does not exist.
    fn index_of(&self, cpu: u32) -> Result<usize, Fault>
        ensures fault { result_err result ≡ cpu_refusal self.now cpu }
        ensures index { IfOk result (λ index. index ≡ cpu) }
    {
        if cpu >= self.gp.cpus() {
            return Err(Fault::BadCpu);
        }
        Ok(cpu as usize)
    }

    fn enter(&mut self, cpu: u32) -> Result<Reply, Fault>
        ensures { Takes self.old (Event.Enter cpu) result self.new }
    {
        let at = self.index_of(cpu)?;
        Ok(Reply::Depth(self.cpus[at].enter()?))
    }

    fn exit(&mut self, cpu: u32) -> Result<Reply, Fault>
        ensures { Takes self.old (Event.Exit cpu) result self.new }
    {
        let at = self.index_of(cpu)?;
        Ok(Reply::Depth(self.cpus[at].exit()?))
    }

    fn note(&mut self, cpu: u32) -> Result<Reply, Fault>
        ensures { Takes self.old (Event.Note cpu) result self.new }
    {
        let at = self.index_of(cpu)?;
        let now = self.gp.tag();
        self.cpus[at].note(now)?;
        Ok(Reply::Noted(now.number, self.gp.awaited().awaits(cpu)))
    }

    fn quiesce(&mut self, cpu: u32) -> Result<Reply, Fault>
        ensures { Takes self.old (Event.Quiesce cpu) result self.new }
    {
        let at = self.index_of(cpu)?;
        let report = self.cpus[at].quiesce()?;
        self.reports.push(report)?;
        Ok(Reply::Made(self.reports.len() as u64, report))
    }

    fn deliver(&mut self, place: u64) -> Result<Reply, Fault>
        ensures { Takes self.old (Event.Deliver place) result self.new }
    {
        let report = report_of(self.reports.as_slice(), place).ok_or(Fault::NoReport)?;
        Ok(Reply::Answer(self.gp.report(report)))
    }

    fn arrive(&mut self, cpu: u32) -> Result<Reply, Fault>
        ensures { Takes self.old (Event.Online cpu) result self.new }
    {
        self.gp.arrive(cpu)?;
        let now = self.gp.tag();
        match self.cpus[cpu as usize].arrive(now) {
            Ok(()) => Ok(Reply::Online),
            Err(_) => unreachable!(),
        }
    }

    /// Returns the index of a processor that may depart, or the fault of its departure.
    fn departing(&self, cpu: u32) -> Result<usize, Fault>
        ensures fault { result_err result
            ≡ fault_in (size_at self.now) (says self.now) (Event.Offline cpu) }
        ensures index { IfOk result (λ index. index ≡ cpu) }
    {
        let at = self.index_of(cpu)?;
        if cpu == 0 {
            return Err(Fault::BootStays);
        }
        if !self.gp.online(cpu) {
            return Err(Fault::Offline);
        }
        if self.cpus[at].depth() > 0 {
            return Err(Fault::InSection);
        }
        Ok(at)
    }

    fn depart(&mut self, cpu: u32) -> Result<Reply, Fault>
        ensures { Takes self.old (Event.Offline cpu) result self.new }
    {
        let at = self.departing(cpu)?;
        let moved = self.gp.migrate(cpu)?;
        let (Ok(()), Ok(())) = (self.cpus[at].depart(), self.gp.depart(cpu)) else {
            unreachable!()
        };
        Ok(Reply::Moved(moved))
    }

    fn begin(&mut self) -> Result<Reply, Fault>
        ensures { Takes self.old Event.Begin result self.new }
    {
        let (number, awaited) = self.gp.begin()?;
        Ok(Reply::Begun(number, awaited))
    }

    fn end(&mut self) -> Result<Reply, Fault>
        ensures { Takes self.old Event.End result self.new }
    {
        Ok(Reply::Ended(self.gp.end()?))
    }

    fn turn(&mut self) -> Result<Reply, Fault>
        ensures { Takes self.old Event.Turn result self.new }
    {
        Ok(match self.gp.turn()? {
            Turned::Begun(number, awaited) => Reply::Begun(number, awaited),
            Turned::Ended(number) => Reply::Ended(number),
            Turned::Waiting(awaited) => Reply::Waiting(awaited),
            Turned::Nothing => Reply::Nothing,
        })
    }

    fn awaits(&self) -> Result<Reply, Fault>
        ensures { Takes self.now Event.Awaits result self.now }
    {
        Ok(Reply::Awaits(list_awaited(self.alloc, self.gp.awaited())?))
    }

    fn take(&self) -> Result<Reply, Fault>
        ensures { Takes self.now Event.Take result self.now }
    {
        Ok(Reply::Cookie(self.gp.take()))
    }

    fn start_poll(&mut self) -> Result<Reply, Fault>
        ensures { Takes self.old Event.StartPoll result self.new }
    {
        Ok(Reply::Cookie(self.gp.start_poll()))
    }

    fn poll(&self, number: u64, epoch: u64) -> Result<Reply, Fault>
        ensures { Takes self.now (Event.Poll number epoch) result self.now }
    {
        Ok(Reply::Polled(self.gp.done(Cookie { epoch, number })))
    }

    fn renumber(&mut self) -> Result<Reply, Fault>
        ensures { Takes self.old Event.Renumber result self.new }
    {
        Ok(Reply::Renumbered(self.gp.renumber()?))
    }

    fn idle(&mut self, cpu: u32) -> Result<Reply, Fault>
        ensures { Takes self.old (Event.Idle cpu) result self.new }
    {
        let at = self.index_of(cpu)?;
        self.cpus[at].idle()?;
        Ok(Reply::Idle)
    }

    fn wake(&mut self, cpu: u32) -> Result<Reply, Fault>
        ensures { Takes self.old (Event.Wake cpu) result self.new }
    {
        let at = self.index_of(cpu)?;
        self.cpus[at].wake()?;
        Ok(Reply::Awake)
    }

    fn scan(&mut self, cpu: u32) -> Result<Reply, Fault>
        ensures { Takes self.old (Event.Scan cpu) result self.new }
    {
        let at = self.index_of(cpu)?;
        if !self.gp.online(cpu) {
            return Err(Fault::Offline);
        }
        if !self.cpus[at].is_idle() {
            return Err(Fault::NotIdle);
        }
        Ok(Reply::Answer(self.gp.report_now(cpu)))
    }

    fn queue(&mut self, cpu: u32, value: u64) -> Result<Reply, Fault>
        ensures { Takes self.old (Event.Queue cpu value) result self.new }
    {
        self.index_of(cpu)?;
        if !self.gp.online(cpu) {
            return Err(Fault::Offline);
        }
        match self.gp.queue(cpu, value) {
            Ok(queued) => Ok(Reply::Queued(queued)),
            Err(refused) => Err(refused.fault),
        }
    }

    fn tend(&mut self, cpu: u32) -> Result<Reply, Fault>
        ensures { Takes self.old (Event.Tend cpu) result self.new }
    {
        self.index_of(cpu)?;
        let (done, waiting) = self.gp.tend(cpu);
        Ok(Reply::Tended(done, waiting))
    }

    fn run_callbacks(&mut self, cpu: u32, most: u64) -> Result<Reply, Fault>
        ensures { Takes self.old (Event.Run cpu most) result self.new }
    {
        self.index_of(cpu)?;
        Ok(Reply::Ran(ValueList::new(self.gp.run(cpu, most)?)))
    }

    fn begin_barrier(&mut self) -> Result<Reply, Fault>
        ensures { Takes self.old Event.BarBegin result self.new }
    {
        self.gp.barrier_begin()?;
        Ok(Reply::BarBegun)
    }

    fn visit(&mut self, cpu: u32) -> Result<Reply, Fault>
        ensures { Takes self.old (Event.Visit cpu) result self.new }
    {
        self.index_of(cpu)?;
        Ok(Reply::Visited(self.gp.visit(cpu)?))
    }

    fn test_barrier(&mut self) -> Result<Reply, Fault>
        ensures { Takes self.old Event.BarTest result self.new }
    {
        Ok(match self.gp.barrier_test()? {
            BarrierState::Done => Reply::BarDone,
            BarrierState::Waits(left) => Reply::BarWaits(left),
        })
    }
}
