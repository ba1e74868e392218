//! Processors that come and go: `rcu` is under the caller's lock, and `seat` is in no other call.
ghost use Rattle.std.specs.Prelude.{◌≡◌, ◌≢◌, ◌<◌, ◌==◌, None, Some, false, length};
ghost use Rattle.rcu_cblist.specs.SegList.{callbacks, is_empty};
ghost use Rattle.rcu_barrier.specs.Lists.{list_of};
ghost use Rattle.rcu_live.specs.CpuSeat.{after_depart, after_quiesce};
ghost use Rattle.rcu_live.specs.Engine.{latest_word};
ghost use Rattle.rcu_live.specs.EngineLists as live;
ghost use Rattle.rcu_live.specs.EngineLists.{leave_refusal};
ghost use Rattle.rcu_c.specs.Answers.{number_for, number_in_c};
ghost use Rattle.rcu_c.specs.Holding.{AcceptedAt, cpu_of, engine_of};
ghost use Rattle.rcu_c.specs.Holding.{grace_of, on_cpu, on_engine, on_grace};
ghost use Rattle.rcu_c.specs.Refusals.{coming_refusal, going_refusal};
ghost use Rattle.rcu_c.specs.Staying.{BothStay};

use crate::codes::{accepted, code, status, write_out};
use crate::handle::{Rcu, RcuSeat};

/// Brings the seat's processor online.
///
/// A section may open once it returns. A grace period that begins later awaits the processor. Of
/// one that runs already the section sees what came before its begin, and what a thread did before
/// it took a cookie that is done at its end. Unfenced, what came before an `rcu_seat_take` is sure
/// to be seen by sequentially consistent loads alone.
///
/// Faults: 26 if the seat is of another engine; 3 if the processor is online.
///
/// Fence: behind.
#[unsafe(no_mangle)]
pub extern "C" fn rcu_arrive_unfenced(rcu: &mut Rcu, seat: &mut RcuSeat) -> u32
    ensures fault { result ≡ number_in_c (coming_refusal rcu.old.contents seat.old.contents) }
    ensures state { result ≡ 0 → rcu.new.contents ≡
        on_grace (λ g. live.with_arrival g (cpu_of seat.old.contents).cpu) rcu.old.contents }
    ensures seat { result ≡ 0 → AcceptedAt after_quiesce seat.old.contents
        (cpu_of seat.new.contents).view.seen seat.new.contents }
    ensures unchanged { result ≢ 0 →
        BothStay rcu.old.contents rcu.new.contents seat.old.contents seat.new.contents }
{
    accepted!(rcu.has_dealt(seat));
    let (engine, seat) = (rcu.open_engine(), seat.open_seat());
    let arrived = seat.cpu.arrive(&**seat.map.board());
    if arrived.is_ok() {
        engine.inner.join(seat.cpu.cpu());
    }
    status(arrived)
}

/// Takes the seat's processor offline, and moves its callbacks to processor 0, at a step for each.
/// Writes how many.
///
/// All that the thread did before comes before what follows the collection or the begin that finds
/// it offline.
///
/// Faults: 26 if the seat is of another engine; 12 for processor 0; 4 if a section is open; 2 if it
/// was offline and has no callback; 16. At 2 no call sees a change. At 16 the processor is offline,
/// and its callbacks stay: the same call again moves them.
#[unsafe(no_mangle)]
pub extern "C" fn rcu_depart(rcu: &mut Rcu, seat: &mut RcuSeat, moved: &mut u64) -> u32
    ensures seat_fault { going_refusal rcu.old.contents seat.old.contents ≢ None →
        result ≡ number_in_c (going_refusal rcu.old.contents seat.old.contents) }
    ensures unchanged { going_refusal rcu.old.contents seat.old.contents ≢ None →
        BothStay rcu.old.contents rcu.new.contents seat.old.contents seat.new.contents }
    ensures seat { going_refusal rcu.old.contents seat.old.contents ≡ None →
        seat.new.contents ≡ on_cpu after_depart seat.old.contents }
    ensures state { result ≡ 0 → rcu.new.contents ≡ on_engine
        (λ e. live.after_leave e (cpu_of seat.old.contents).cpu
        (latest_word (engine_of rcu.new.contents))) rcu.old.contents }
    ensures moved { result ≡ 0 → moved.new ≡
        length (callbacks (list_of (grace_of rcu.old.contents).lists
        (cpu_of seat.old.contents).cpu)) }
    ensures leave_fault { going_refusal rcu.old.contents seat.old.contents ≡ None → result ≢ 16 →
        result ≡ number_for (leave_refusal (engine_of rcu.old.contents)
        (cpu_of seat.old.contents).cpu
        ((cpu_of seat.old.contents).view.own_word == 0)
        (latest_word (engine_of rcu.new.contents))) }
    ensures looked { going_refusal rcu.old.contents seat.old.contents ≡ None →
        result ≢ 16 → result ≢ 0 → rcu.new.contents ≡ on_engine
        (λ e. live.after_load_own e (cpu_of seat.old.contents).cpu
        (latest_word (engine_of rcu.new.contents))) rcu.old.contents }
    ensures alone { result ≡ 16 → leave_refusal (engine_of rcu.old.contents)
        (cpu_of seat.old.contents).cpu ((cpu_of seat.old.contents).view.own_word == 0)
        (latest_word (engine_of rcu.new.contents)) ≡ None }
    ensures memory { result ≡ 16 → is_empty
        (list_of (grace_of rcu.old.contents).lists (cpu_of seat.old.contents).cpu) ≡ false }
    ensures departed { result ≡ 16 → rcu.new.contents ≡ on_engine
        (λ e. live.after_departure e (cpu_of seat.old.contents).cpu
        (latest_word (engine_of rcu.new.contents))) rcu.old.contents }
    ensures unchanged_moved { result ≢ 0 → moved.new ≡ moved.old }
{
    accepted!(rcu.has_dealt(seat));
    let (engine, seat) = (rcu.open_engine(), seat.open_seat());
    let again = accepted!(seat.cpu.depart(&**seat.map.board()), code);
    write_out(engine.inner.leave(seat.cpu.cpu(), again), moved)
}
