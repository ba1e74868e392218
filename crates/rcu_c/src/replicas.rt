//! Replicas of one engine on several machines: each hears of reports and departures by messages,
//! and those that began alike and heard the same processors await the same ones, in whatever order,
//! however often. A replica has no seats; the cost of a call depends on its number of processors.
//!
//! Header: `rcu/replica.h`.
ghost use Rattle.std.specs.Prelude.{◌≡◌, ◌≢◌, IfOk, IsNone, None, Some, drop, length, take};
ghost use Rattle.rcu_geometry.specs.Opening.{opening_refusal};
ghost use Rattle.rcu_report.specs.Replica.{Begin, Depart, End, Merge, Report};
ghost use Rattle.rcu_report.specs.Replica.{answer_of, at_first, refusal};
ghost use Rattle.rcu_seq.specs.Memory.{tested_fault};
ghost use Rattle.rcu_seq.specs.Seq.{number_of};
ghost use Rattle.rcu_c.specs.Answers.{number_for, tested_number};
ghost use Rattle.rcu_c.specs.Replicas.{HoldsReplica, after, answer_number, awaited_by};
ghost use Rattle.rcu_c.specs.Replicas.{replica_number, replica_of, replica_refusal, set_in};
ghost use Rattle.rcu_c.specs.Staying.{BothStay};

use crate::codes::{accepted, code, status, write_out};
use crate::contents::Contents;
use crate::driving::put_awaited;
use crate::handle::Handle;
use crate::open_replica::OpenReplica;
use crate::raw_box::RawBox;
use rcu_node::Answer;
use rcu_seq::Fault;
use std::alloc::Global;

/// A replica's handle (`rcu_replica_t`), for one thread at a time. Handles may pass between
/// threads.
pub type RcuReplica = Handle;

/// Returns a fresh replica, in a box.
fn box_replica(alloc: Global, cpus: u32, max_number: u64) -> Result<Box<Contents, Global>, Fault>
    ensures open { IfOk result (λ contents. HoldsReplica (Some contents.value)) }
    ensures state { IfOk result (λ contents.
        replica_of (Some contents.value) ≡ at_first cpus max_number) }
    ensures fault { tested_fault result ≡ opening_refusal 16 64 cpus max_number }
{
    let made = OpenReplica::new(alloc, cpus, max_number)?;
    Ok(Box::new(alloc, Contents::Replica(made))?)
}

/// Opens a replica of 1 to 4,096 processors at number 0, which awaits no processor. No grace period
/// begins at `max_number`, a multiple of 4 from 4 to 2^62. Needs: `replica` is closed.
///
/// Faults: 17 for no processor or more than 4,096; 19 if `max_number` is no such number; 16.
#[unsafe(no_mangle)]
pub extern "C" fn rcu_replica_open(
    alloc: Global,
    cpus: u32,
    max_number: u64,
    replica: &mut RcuReplica,
) -> u32
    requires closed { IsNone replica.old.contents }
    ensures fault { tested_number result ≡ number_for (opening_refusal 16 64 cpus max_number) }
    ensures open { result ≡ 0 → HoldsReplica replica.new.contents }
    ensures state { result ≡ 0 → replica_of replica.new.contents ≡ at_first cpus max_number }
    ensures unchanged { result ≢ 0 → replica.new.contents ≡ replica.old.contents }
{
    let contents = accepted!(box_replica(alloc, cpus, max_number), code);
    *replica = Handle::of(RawBox::of(contents));
    0
}

/// Begins a grace period that awaits the processors whose bits are set in words of 64, the lowest
/// first; bits of processors that do not exist mean nothing. Writes its number, four for each that
/// ended and one more. It costs a step for each processor, and needs no memory.
///
/// Faults: 8 if one runs; 11 if the number is the last one.
#[unsafe(no_mangle)]
pub extern "C" fn rcu_replica_begin(
    replica: &mut RcuReplica,
    words: &[u64],
    number: &mut u64,
) -> u32
    ensures fault { result ≡ replica_number replica.old.contents (number_for
        (refusal (replica_of replica.old.contents)
        (Begin (set_in replica.old.contents words.now)))) }
    ensures state { result ≡ 0 → replica.new.contents ≡
        after (Begin (set_in replica.old.contents words.now)) replica.old.contents }
    ensures number { result ≡ 0 →
        number.new ≡ number_of (replica_of replica.new.contents).periods }
    ensures unchanged { result ≢ 0 → BothStay
        replica.old.contents replica.new.contents number.old number.new }
{
    let replica = accepted!(replica.replica());
    write_out(replica.begin(words), number)
}

/// The answer to a report, as C sees it: an `rcu_answer`, as `RCU_ANSWER_TAKEN`.
fn answer_in_c(answer: Answer) -> u32
    ensures { result ≡ answer_number answer }
{
    match answer {
        Answer::Taken => 0,
        Answer::Last => 1,
        Answer::Repeat => 2,
        Answer::Stale => 3,
    }
}

/// Takes a processor's report of a quiescent state, with the number that it had noted. A report of
/// another number than that of the running grace period changes nothing, nor does a repeated one.
/// Writes an `rcu_answer`.
///
/// Fault 1: there is no such processor.
#[unsafe(no_mangle)]
pub extern "C" fn rcu_replica_report(
    replica: &mut RcuReplica,
    cpu: u32,
    number: u64,
    answer: &mut u32,
) -> u32
    ensures fault { result ≡ replica_number replica.old.contents (number_for
        (refusal (replica_of replica.old.contents) (Report cpu number))) }
    ensures state { result ≡ 0 →
        replica.new.contents ≡ after (Report cpu number) replica.old.contents }
    ensures answer { result ≡ 0 → answer.new ≡
        answer_number (answer_of (replica_of replica.old.contents) cpu number) }
    ensures unchanged { result ≢ 0 → BothStay
        replica.old.contents replica.new.contents answer.old answer.new }
{
    let replica = accepted!(replica.replica());
    write_out(replica.report(cpu, number).map(answer_in_c), answer)
}

/// Takes a processor's departure: it is no longer awaited in the running grace period. Its message
/// has no number to compare, so pass it on only if the processor departed in this grace period.
///
/// Faults: 1 if there is no such processor; 12 for processor 0.
#[unsafe(no_mangle)]
pub extern "C" fn rcu_replica_depart(replica: &mut RcuReplica, cpu: u32) -> u32
    ensures fault { result ≡ replica_number replica.old.contents (number_for
        (refusal (replica_of replica.old.contents) (Depart cpu))) }
    ensures state { result ≡ 0 →
        replica.new.contents ≡ after (Depart cpu) replica.old.contents }
    ensures unchanged { result ≢ 0 → replica.new.contents ≡ replica.old.contents }
{
    let replica = accepted!(replica.replica());
    status(replica.depart(cpu))
}

/// Merges the reports that another replica of the same grace period has heard: the first one then
/// awaits only the processors that both await. `other` is another handle, and stays as it is. It
/// costs a step for each processor.
///
/// Fault 20: number of processors, number or start set differ.
#[unsafe(no_mangle)]
pub extern "C" fn rcu_replica_merge(replica: &mut RcuReplica, other: &mut RcuReplica) -> u32
    ensures fault { result ≡ replica_number replica.old.contents
        (replica_number other.old.contents (number_for
        (refusal (replica_of replica.old.contents) (Merge (replica_of other.old.contents))))) }
    ensures state { result ≡ 0 → replica.new.contents ≡
        after (Merge (replica_of other.old.contents)) replica.old.contents }
    ensures unchanged { result ≢ 0 → replica.new.contents ≡ replica.old.contents }
    ensures other { other.new.contents ≡ other.old.contents }
{
    let mine = accepted!(replica.replica());
    let other = accepted!(other.replica());
    status(mine.merge_from(other))
}

/// Lists the processors that a replica awaits, in order, `room` at most: writes them from `cpus`
/// on, and how many they are; the rest of the room stays.
#[unsafe(no_mangle)]
pub extern "C" fn rcu_replica_awaited(
    replica: &mut RcuReplica,
    cpus: &mut [u32],
    count: &mut u32,
) -> u32
    ensures state { replica.new.contents ≡ replica.old.contents }
    ensures fault { result ≡ replica_number replica.old.contents 0 }
    ensures count { result ≡ 0 →
        count.new ≡ length (awaited_by (replica_of replica.old.contents) (length cpus.old)) }
    ensures cpus { result ≡ 0 → take count.new cpus.new ≡
        awaited_by (replica_of replica.old.contents) (length cpus.old) }
    ensures rest { result ≡ 0 → drop count.new cpus.new ≡ drop count.new cpus.old }
    ensures unchanged { result ≢ 0 → BothStay cpus.old cpus.new count.old count.new }
{
    let replica = accepted!(replica.replica());
    *count = put_awaited(replica.awaited(), cpus);
    0
}

/// Ends the grace period. Writes the new number.
///
/// Faults: 9 if none runs; 10 if a processor is awaited.
#[unsafe(no_mangle)]
pub extern "C" fn rcu_replica_end(replica: &mut RcuReplica, number: &mut u64) -> u32
    ensures fault { result ≡ replica_number replica.old.contents (number_for
        (refusal (replica_of replica.old.contents) End)) }
    ensures state { result ≡ 0 → replica.new.contents ≡ after End replica.old.contents }
    ensures number { result ≡ 0 →
        number.new ≡ number_of (replica_of replica.new.contents).periods }
    ensures unchanged { result ≢ 0 → BothStay
        replica.old.contents replica.new.contents number.old number.new }
{
    let replica = accepted!(replica.replica());
    write_out(replica.end(), number)
}

/// Closes a replica, and frees all that it has. If `replica` is not an open replica, it does
/// nothing.
#[unsafe(no_mangle)]
pub extern "C" fn rcu_replica_close(alloc: Global, replica: &mut RcuReplica)
    ensures closed { replica_refusal replica.old.contents ≡ None → IsNone replica.new.contents }
    ensures unchanged { replica_refusal replica.old.contents ≢ None →
        replica.new.contents ≡ replica.old.contents }
{
    if replica.holds_replica() {
        drop(replica.close(alloc).into_box());
    }
}
