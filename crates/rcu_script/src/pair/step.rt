//! The steps of a replica of a pair.
ghost use Rattle.std.specs.Prelude.{◌≡◌, ◌<◌, All, length, nat_lt, IfOk, OnErr, OnOk};
ghost use Rattle.std.specs.List.{list_all};
ghost use Rattle.std.specs.Result.{result_err};
ghost use Rattle.rcu_node.specs.CpuSet.{size_of};
ghost use Rattle.rcu_seq.specs.Seq.{number_of};
ghost use Rattle.rcu_report.specs.Replica.{Begin, cpus_of, after_call};
ghost use Rattle.rcu_script.specs.PairState.{after_event, event_refusal, event_reply};
ghost use Rattle.rcu_script.specs.PairState.{pair_begin_refusal, set_of};

use crate::pair::event::{PairEvent, PairReply};
use rcu_node::{Awaited, CpuSet};
use rcu_report::Replica;
use rcu_seq::Fault;

/// Performs the event of a line on a replica of a pair. A begin lists its processors in the set,
/// which is one of as many processors, so no event needs memory. Costs a step for each listed
/// processor, and the cost of its call of the replica.
///
/// Faults: those of the event.
pub fn step<A: Awaited, B: Awaited>(
    mine: &mut Replica<A>,
    other: &Replica<B>,
    set: &mut CpuSet,
    event: &PairEvent,
) -> Result<PairReply, Fault>
    requires { length set.old ≡ cpus_of mine.old }
    ensures fault { result_err result ≡ event_refusal mine.old other.now event.now }
    ensures reply { IfOk result (λ reply. reply ≡ event_reply mine.old other.now event.now) }
    ensures state { OnOk result (mine.new ≡ after_event mine.old other.now event.now) }
    ensures unchanged { OnErr result (mine.new ≡ mine.old) }
    ensures sized { length set.new ≡ length set.old }
{
    match event {
        PairEvent::Begin(cpus) => begin(mine, set, cpus.as_slice()),
        PairEvent::Report(cpu, tag) => Ok(PairReply::Answer(mine.report(*cpu, *tag)?)),
        PairEvent::Depart(cpu) => {
            mine.depart(*cpu)?;
            Ok(PairReply::Departed)
        }
        PairEvent::End => Ok(PairReply::Ended(mine.end()?)),
        PairEvent::Awaits => Ok(PairReply::Awaits),
        PairEvent::Merge => {
            mine.merge_from(other)?;
            Ok(PairReply::Merged(mine.awaited().count()))
        }
    }
}

/// Begins a grace period that awaits the listed processors.
fn begin<A: Awaited>(
    mine: &mut Replica<A>,
    set: &mut CpuSet,
    cpus: &[u32],
) -> Result<PairReply, Fault>
    requires { length set.old ≡ cpus_of mine.old }
    ensures fault { result_err result ≡ pair_begin_refusal mine.old cpus.now }
    ensures reply { IfOk result (λ reply. reply
        ≡ PairReply.Begun (number_of mine.new.periods) (size_of mine.new.awaited)) }
    ensures state { OnOk result (mine.new
        ≡ after_call mine.old (Begin (set_of (cpus_of mine.old) cpus.now))) }
    ensures unchanged { OnErr result (mine.new ≡ mine.old) }
    ensures sized { length set.new ≡ length set.old }
{
    if !are_cpus(cpus, mine.awaited().cpus()) {
        return Err(Fault::BadCpu);
    }
    fill_set(set, cpus);
    let number = mine.begin(set)?;
    Ok(PairReply::Begun(number, mine.awaited().count()))
}

fn are_cpus(cpus: &[u32], below: u32) -> bool
    ensures { result ≡ list_all (λ cpu. nat_lt cpu below) cpus.now }
{
    cpus.iter().all(|cpu| *cpu < below)
}

/// Fills the set with the listed processors.
#[tactic(auto, using(crate::proofs::PairSets::set_none))]
fn fill_set(set: &mut CpuSet, cpus: &[u32])
    requires { All (λ cpu. cpu < length set.old) cpus.now }
    ensures set { set.new ≡ set_of (length set.old) cpus.now }
    ensures sized { length set.new ≡ length set.old }
{
    set.clear();
    for cpu in cpus {
        set.insert(*cpu);
    }
}
