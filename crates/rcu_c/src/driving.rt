//! Calls of the driver, the thread that makes grace periods: `rcu` is under the caller's lock.
ghost use Rattle.std.specs.Prelude.{◌≡◌, ◌≢◌, None, drop, false, length, take};
ghost use Rattle.rcu_seq.specs.Seq.{cookie_of};
ghost use Rattle.rcu_node.specs.CpuSet.{is_in};
ghost use Rattle.rcu_state.specs.GpState as grace;
ghost use Rattle.rcu_state.specs.GpState.{awaited_in};
ghost use Rattle.rcu_state.specs.GpState.{which};
ghost use Rattle.rcu_live.specs.Drive.{after_drive, drive_answer, drive_refusal, moved_on};
ghost use Rattle.rcu_live.specs.Drive.{wants_begin, wants_for};
ghost use Rattle.rcu_live.specs.Engine.{latest_words};
ghost use Rattle.rcu_c.specs.Answers.{cookie_in_c, number_for, turn_of};
ghost use Rattle.rcu_c.specs.Holding.{HoldsEngine, awaited_list, engine_of, grace_of, never_done};
ghost use Rattle.rcu_c.specs.Holding.{on_engine, on_grace};
ghost use Rattle.rcu_c.specs.Refusals.{engine_number, engine_refusal};
ghost use Rattle.rcu_c.specs.Staying.{BothStay};

use crate::codes::{NEVER_DONE, accepted, write_out};
use crate::grace_periods::{Turn, turn_in_c};
use crate::handle::Rcu;
use crate::open_engine::TreeEngine;
use rcu_node::Awaited;
use rcu_seq::Cookie;

/// One step of driving. While a grace period runs it collects from each processor that is awaited;
/// if none runs it begins one if a tended callback or an `rcu_start_poll` waits for it. Then it
/// ends one that awaits no processor. Writes what it did. It costs a load for each processor that
/// is awaited, and at a begin a load for each processor.
///
/// The driver calls this again and again, and lets other threads run in between while it awaits
/// someone. It orders what `rcu_begin`, `rcu_collect` and `rcu_end` order.
///
/// Fault 11: one would begin, and the number is the last one.
///
/// Fence: behind.
#[unsafe(no_mangle)]
pub extern "C" fn rcu_drive_unfenced(rcu: &mut Rcu, turn: &mut Turn) -> u32
    ensures open { HoldsEngine rcu.old.contents → HoldsEngine rcu.new.contents }
    ensures fault { result ≡ engine_number rcu.old.contents (number_for
        (drive_refusal (grace_of rcu.old.contents) (wants_begin (grace_of rcu.old.contents)))) }
    ensures state { result ≡ 0 → rcu.new.contents ≡ on_engine (λ e. after_drive e
        (wants_begin e.grace) (latest_words (engine_of rcu.new.contents))) rcu.old.contents }
    ensures turn { result ≡ 0 → turn.new ≡ turn_of (drive_answer (engine_of rcu.old.contents)
        (wants_begin (grace_of rcu.old.contents)) (latest_words (engine_of rcu.new.contents))) }
    ensures unchanged { result ≢ 0 → BothStay rcu.old.contents rcu.new.contents turn.old turn.new }
{
    let opened = accepted!(rcu.engine());
    write_out(opened.inner.drive().map(turn_in_c), turn)
}

/// One step of driving for a cookie, as `rcu_drive`: if no grace period runs it begins one unless
/// the cookie is done. It asks for no callback, and for no other cookie. Called until the cookie is
/// done it makes one grace period, or two if one runs already.
///
/// It orders what `rcu_drive` orders.
///
/// Fault 11: one would begin, and the number is the last one.
///
/// Fence: behind.
#[unsafe(no_mangle)]
pub extern "C" fn rcu_drive_for_unfenced(rcu: &mut Rcu, cookie: u64, turn: &mut Turn) -> u32
    ensures open { HoldsEngine rcu.old.contents → HoldsEngine rcu.new.contents }
    ensures fault { result ≡ engine_number rcu.old.contents (number_for (drive_refusal
        (grace_of rcu.old.contents)
        (wants_for (cookie_in_c cookie) (grace_of rcu.old.contents)))) }
    ensures state { result ≡ 0 → rcu.new.contents ≡ on_engine (λ e. after_drive e
        (wants_for (cookie_in_c cookie) e.grace)
        (latest_words (engine_of rcu.new.contents))) rcu.old.contents }
    ensures turn { result ≡ 0 → turn.new ≡ turn_of (drive_answer (engine_of rcu.old.contents)
        (wants_for (cookie_in_c cookie) (grace_of rcu.old.contents))
        (latest_words (engine_of rcu.new.contents))) }
    ensures unchanged { result ≢ 0 → BothStay rcu.old.contents rcu.new.contents turn.old turn.new }
{
    let cookie = Cookie {
        epoch: 0,
        number: cookie,
    };
    let opened = accepted!(rcu.engine());
    write_out(opened.inner.drive_for(cookie).map(turn_in_c), turn)
}

/// Collects from each processor that is awaited, while a grace period runs.
pub(crate) fn collect_all(engine: &mut TreeEngine)
    ensures { engine.new ≡ moved_on engine.old false (latest_words engine.new) }
{
    if engine.grace().is_running() {
        engine.collect_awaited();
    }
}

/// Collects from each processor that is awaited, as `rcu_collect` from one. Writes how many still
/// are: 0 if no grace period runs.
#[unsafe(no_mangle)]
pub extern "C" fn rcu_collect_all(rcu: &mut Rcu, left: &mut u32) -> u32
    ensures open { HoldsEngine rcu.old.contents → HoldsEngine rcu.new.contents }
    ensures fault { result ≡ engine_number rcu.old.contents 0 }
    ensures state { result ≡ 0 → rcu.new.contents ≡ on_engine (λ e.
        moved_on e false (latest_words (engine_of rcu.new.contents))) rcu.old.contents }
    ensures left { result ≡ 0 → left.new ≡ awaited_in (grace_of rcu.new.contents) }
    ensures unchanged { result ≢ 0 → BothStay rcu.old.contents rcu.new.contents left.old left.new }
{
    let opened = accepted!(rcu.engine());
    collect_all(&mut opened.inner);
    *left = opened.inner.grace().awaited().count();
    0
}

/// Writes the awaited processors, in order, to the head of a buffer, as many as it has room for,
/// and leaves its rest as it is. Returns how many they are.
pub(crate) fn put_awaited<A: Awaited>(awaited: &A, cpus: &mut [u32]) -> u32
    ensures count { result ≡ length (take (length cpus.old)
        (which (length (A.awaited awaited.now)) (is_in (A.awaited awaited.now)))) }
    ensures head { take result cpus.new ≡ take (length cpus.old)
        (which (length (A.awaited awaited.now)) (is_in (A.awaited awaited.now))) }
    ensures rest { drop result cpus.new ≡ drop result cpus.old }
{
    let mut count = 0;
    for cpu in 0..awaited.cpus() {
        if (count as usize) < cpus.len() && awaited.awaits(cpu) {
            cpus[count as usize] = cpu;
            count += 1;
        }
    }
    count
}

/// Writes the processors that an engine awaits, as [`put_awaited`] does. Costs a step for each, and
/// one more for every 64 processors that are passed over.
fn list_awaited(engine: &TreeEngine, cpus: &mut [u32]) -> u32
    ensures count { result ≡ length (awaited_list engine.now (length cpus.old)) }
    ensures head { take result cpus.new ≡ awaited_list engine.now (length cpus.old) }
    ensures rest { drop result cpus.new ≡ drop result cpus.old }
{
    let mut count = 0;
    let mut from = 0;
    while let Some(cpu) = engine.next_awaited(from) {
        if count as usize == cpus.len() {
            return count;
        }
        cpus[count as usize] = cpu;
        count += 1;
        from = cpu + 1;
    }
    count
}

/// Lists the awaited processors, in order, `room` at most: writes them from `cpus` on, and how many
/// they are; the rest of the room stays. It costs a step for each, and one more for every 64
/// others.
#[unsafe(no_mangle)]
pub extern "C" fn rcu_awaited_list(rcu: &mut Rcu, cpus: &mut [u32], count: &mut u32) -> u32
    ensures state { rcu.new.contents ≡ rcu.old.contents }
    ensures fault { result ≡ engine_number rcu.old.contents 0 }
    ensures count { result ≡ 0 →
        count.new ≡ length (awaited_list (engine_of rcu.old.contents) (length cpus.old)) }
    ensures cpus { result ≡ 0 → take count.new cpus.new ≡
        awaited_list (engine_of rcu.old.contents) (length cpus.old) }
    ensures rest { result ≡ 0 → drop count.new cpus.new ≡ drop count.new cpus.old }
    ensures unchanged { result ≢ 0 → BothStay cpus.old cpus.new count.old count.new }
{
    let opened = accepted!(rcu.engine());
    *count = list_awaited(&opened.inner, cpus);
    0
}

/// Takes a cookie, as `rcu_take`, and requests it: from now on `rcu_turn` and `rcu_drive` begin a
/// grace period for it. Returns 2^64 - 1, which is never done, if `rcu` is not an open engine.
#[unsafe(no_mangle)]
pub extern "C" fn rcu_start_poll(rcu: &mut Rcu) -> u64
    ensures cookie { engine_refusal rcu.old.contents ≡ None →
        result ≡ (cookie_of (grace_of rcu.old.contents).seq).number }
    ensures state { engine_refusal rcu.old.contents ≡ None → rcu.new.contents ≡
        on_grace (λ g. grace.after_start_poll g) rcu.old.contents }
    ensures not_taken { engine_refusal rcu.old.contents ≢ None → result ≡ never_done }
    ensures unchanged { engine_refusal rcu.old.contents ≢ None →
        rcu.new.contents ≡ rcu.old.contents }
{
    let Ok(opened) = rcu.engine() else {
        return NEVER_DONE;
    };
    opened.inner.start_poll().number
}
