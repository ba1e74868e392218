//! Callbacks, which are values of 64 bits: `rcu` is under the caller's lock.
ghost use Rattle.std.specs.Prelude.{◌≡◌, ◌≢◌, ◌<◌, ◌≤◌, All, [], drop, length, map};
ghost use Rattle.std.specs.Prelude.{take};
ghost use Rattle.rcu_seq.specs.Fault.{fault_number};
ghost use Rattle.rcu_seq.specs.Seq.{number_of};
ghost use Rattle.rcu_cblist.specs.SegList.{behind, callbacks, front, take_answer};
ghost use Rattle.rcu_barrier.specs.Lists.{list_of};
ghost use Rattle.rcu_state.specs.GpState as grace;
ghost use Rattle.rcu_live.specs.Engine.{HasWaited, cpu_refusal};
ghost use Rattle.rcu_live.specs.EngineLists as lists;
ghost use Rattle.rcu_live.specs.EngineLists.{queue_refusal};
ghost use Rattle.rcu_c.specs.Answers.{number_for};
ghost use Rattle.rcu_c.specs.Holding.{engine_of, grace_of, on_grace};
ghost use Rattle.rcu_c.specs.Refusals.{CanQueue, engine_number};
ghost use Rattle.rcu_c.specs.Staying.{AllStay, BothStay};

use crate::codes::{accepted, code, write_out};
use crate::handle::Rcu;
use crate::open_engine::TreeEngine;
use rcu_seq::Fault;

/// Queues a value on an online processor. Writes how many were queued since opening. A list keeps
/// the room that it ever had, until `rcu_shrink` or `rcu_close`.
///
/// Of each section one of two holds: all of it comes before what follows the `rcu_run` that hands
/// the value out, or it sees what the thread did before this call.
///
/// Faults: 1 if there is no such processor; 2 if it is not online; 15 if 2^62 were queued; 16.
#[unsafe(no_mangle)]
pub extern "C" fn rcu_queue(rcu: &mut Rcu, cpu: u32, value: u64, place: &mut u64) -> u32
    ensures can_queue { result ≡ 0 → CanQueue (engine_of rcu.old.contents) cpu }
    ensures state { result ≡ 0 → rcu.new.contents ≡
        on_grace (λ g. grace.after_queue g cpu value) rcu.old.contents }
    ensures place { result ≡ 0 → place.new ≡ (grace_of rcu.new.contents).lists.queued }
    ensures no_such_cpu { (engine_of rcu.old.contents).cpus ≤ cpu →
        result ≡ engine_number rcu.old.contents 1 }
    ensures fault { cpu < (engine_of rcu.old.contents).cpus → result ≢ 0 →
        result ≡ fault_number (queue_refusal (engine_of rcu.old.contents) cpu) }
    ensures unchanged { result ≢ 0 →
        BothStay rcu.old.contents rcu.new.contents place.old place.new }
{
    let opened = accepted!(rcu.engine());
    if cpu >= opened.cpus() {
        return code(Fault::BadCpu);
    }
    let queued = opened.inner.queue(cpu, value);
    write_out(queued.map_err(|refused| refused.fault), place)
}

/// Sets what the processor's callbacks wait for, and which are done. Call it after queueing, so
/// that a turn begins a grace period for them, and after its end. Writes how many are done and how
/// many wait.
///
/// Fault 1: there is no such processor.
#[unsafe(no_mangle)]
pub extern "C" fn rcu_tend(rcu: &mut Rcu, cpu: u32, done: &mut u64, waiting: &mut u64) -> u32
    ensures fault { result ≡ engine_number rcu.old.contents
        (number_for (cpu_refusal (engine_of rcu.old.contents) cpu)) }
    ensures state { result ≡ 0 → rcu.new.contents ≡
        on_grace (λ g. grace.after_tend g cpu) rcu.old.contents }
    ensures done { result ≡ 0 → done.new ≡
        length (callbacks (front (list_of (grace_of rcu.new.contents).lists cpu))) }
    ensures waiting { result ≡ 0 → waiting.new ≡
        length (callbacks (behind (list_of (grace_of rcu.new.contents).lists cpu))) }
    ensures unchanged { result ≢ 0 →
        AllStay rcu.old.contents rcu.new.contents done.old done.new waiting.old waiting.new }
{
    let opened = accepted!(rcu.engine());
    let (ready, waits) = accepted!(opened.inner.tend(cpu), code);
    *done = ready;
    *waiting = waits;
    0
}

/// Hands out done callbacks of a processor, as many as the buffer has room for, and writes their
/// values to its head. The rest of it stays. Returns how many they are.
fn put_done(engine: &mut TreeEngine, cpu: u32, values: &mut [u64]) -> u64
    requires { cpu < engine.old.cpus }
    ensures count { result ≡ length
        (take_answer (list_of engine.old.grace.lists cpu) (length values.old)) }
    ensures engine { engine.new ≡
        lists.on_grace (λ g. grace.after_run g cpu (length values.old)) engine.old }
    ensures head { take result values.new ≡ map (λ call. call.value)
        (take_answer (list_of engine.old.grace.lists cpu) (length values.old)) }
    ensures rest { drop result values.new ≡ drop result values.old }
    ensures waited { All (λ call. HasWaited (number_of engine.old.grace.seq) call.at)
        (take_answer (list_of engine.old.grace.lists cpu) (length values.old)) }
{
    let most = engine.done_count(cpu).min(values.len() as u64);
    for i in 0..most {
        let Some(call) = engine.pop_done(cpu) else {
            unreachable!()
        };
        values[i as usize] = call.value;
    }
    most
}

/// Hands out done callbacks of the processor, in order, `room` at most: writes their values from
/// `values` on, and how many they are; the rest of the room stays. A full grace period has passed
/// since each was queued, and none is handed out again. Takes no memory.
///
/// Fault 1: there is no such processor.
#[unsafe(no_mangle)]
pub extern "C" fn rcu_run(rcu: &mut Rcu, cpu: u32, values: &mut [u64], count: &mut u64) -> u32
    ensures fault { result ≡ engine_number rcu.old.contents
        (number_for (cpu_refusal (engine_of rcu.old.contents) cpu)) }
    ensures state { result ≡ 0 → rcu.new.contents ≡
        on_grace (λ g. grace.after_run g cpu (length values.old)) rcu.old.contents }
    ensures count { result ≡ 0 → count.new ≡
        length (take_answer (list_of (grace_of rcu.old.contents).lists cpu) (length values.old)) }
    ensures values { result ≡ 0 → take count.new values.new ≡ map (λ call. call.value)
        (take_answer (list_of (grace_of rcu.old.contents).lists cpu) (length values.old)) }
    ensures rest { result ≡ 0 → drop count.new values.new ≡ drop count.new values.old }
    ensures most { result ≡ 0 → count.new ≤ length values.old }
    ensures waited { result ≡ 0 →
        All (λ call. HasWaited (number_of (grace_of rcu.old.contents).seq) call.at)
        (take_answer (list_of (grace_of rcu.old.contents).lists cpu) (length values.old)) }
    ensures unchanged { result ≢ 0 →
        AllStay rcu.old.contents rcu.new.contents values.old values.new count.old count.new }
{
    let opened = accepted!(rcu.engine());
    if opened.cpus() <= cpu {
        return code(Fault::BadCpu);
    }
    *count = put_done(&mut opened.inner, cpu, values);
    0
}

/// Frees the memory that the processor's list does not need, at a step for each item that stays.
/// Writes for how many items, callbacks and markers, it then has room: for none if it is empty.
///
/// Fault 1: there is no such processor.
#[unsafe(no_mangle)]
pub extern "C" fn rcu_shrink(rcu: &mut Rcu, cpu: u32, room: &mut u64) -> u32
    ensures fault { result ≡ engine_number rcu.old.contents
        (number_for (cpu_refusal (engine_of rcu.old.contents) cpu)) }
    ensures fits { result ≡ 0 → length (list_of (grace_of rcu.old.contents).lists cpu) ≤ room.new }
    ensures empty { result ≡ 0 → list_of (grace_of rcu.old.contents).lists cpu ≡ [] →
        room.new ≡ 0 }
    ensures state { rcu.new.contents ≡ rcu.old.contents }
    ensures unchanged { result ≢ 0 → room.new ≡ room.old }
{
    let opened = accepted!(rcu.engine());
    write_out(opened.inner.shrink(cpu), room)
}
