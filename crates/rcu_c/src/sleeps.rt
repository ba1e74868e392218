//! Sleeping until a processor is quiet. The driver says once for which one it sleeps, and then
//! looks at it once more; the processor's thread gets quiet, idle or offline, and then looks
//! whether the driver sleeps for it. All four steps are sequentially consistent, so one of the two
//! sees the other. So no quiescent state is slept through: no proof says that, but
//! `bindings/model/sleep.py` tries it, by these steps in this order.
ghost use Rattle.std.specs.Prelude.{◌≡◌, ◌≢◌, ◌==◌, Bool, Some};
ghost use Rattle.rcu_live.specs.Engine.{latest_words};
ghost use Rattle.rcu_state.specs.GpState.{awaited_in};
ghost use Rattle.rcu_request.specs.Requests.{after_naming, cpu_word};
ghost use Rattle.rcu_c.specs.Answers.{flag_number};
ghost use Rattle.rcu_c.specs.Holding.{HoldsEngine, cpu_of, engine_of, grace_of, on_opened};
ghost use Rattle.rcu_c.specs.Holding.{on_requester, requester_of, requests_of};
ghost use Rattle.rcu_c.specs.Refusals.{engine_number, seat_number};
ghost use Rattle.rcu_c.specs.Sleeps.{IsForFirst, after_saying};
ghost use Rattle.rcu_c.specs.Staying.{AllStay, BothStay};

use crate::codes::accepted;
use crate::driving::collect_all;
use crate::handle::{Rcu, RcuSeat};
use crate::open_engine::OpenEngine;
use rcu_node::Awaited;

/// Says that the driver sleeps for the first processor that is awaited, and then collects from each
/// that is. If none is awaited then, it says that it sleeps for none. Returns whether that first
/// one is awaited still.
fn sleep_for_first(opened: &mut OpenEngine) -> bool
    ensures state { opened.new ≡ after_saying opened.old opened.new.requests.knows.sleeps_for
        (latest_words opened.new.engine) }
    ensures first { IsForFirst opened.old.engine opened.new.engine
        opened.new.requests.knows.sleeps_for result }
{
    let first = opened.inner.next_awaited(0);
    opened.requests.sleep_for(first);
    collect_all(&mut opened.inner);
    let awaited = opened.inner.grace().awaited();
    if awaited.count() == 0 {
        opened.requests.sleep_for(None);
        return false;
    }
    match first {
        Some(cpu) => awaited.awaits(cpu),
        None => false,
    }
}

/// Says that the driver sleeps for the first processor that is awaited, and then collects from each
/// that is, as `rcu_collect_all`. Writes 1 if that first one is awaited still: then the caller
/// sleeps, by means of the program's own, until a thread has to wake it
/// (`rcu_seat_should_wake_driver`). It lets go of the lock and sleeps in one step, as a condition
/// variable does. Else writes 0. Writes how many are awaited still; if none is, it says that it
/// sleeps for none. Until then call it again, also if the caller woke by chance.
#[unsafe(no_mangle)]
pub extern "C" fn rcu_driver_prepare_wait(rcu: &mut Rcu, sleeps: &mut u32, left: &mut u32) -> u32
    ensures open { HoldsEngine rcu.old.contents → HoldsEngine rcu.new.contents }
    ensures fault { result ≡ engine_number rcu.old.contents 0 }
    ensures state { result ≡ 0 → rcu.new.contents ≡ on_opened (λ o. after_saying o
        (requests_of rcu.new.contents).knows.sleeps_for
        (latest_words (engine_of rcu.new.contents))) rcu.old.contents }
    ensures first { result ≡ 0 → (b : Bool) × (sleeps.new ≡ flag_number b)
        × IsForFirst (engine_of rcu.old.contents) (engine_of rcu.new.contents)
        (requests_of rcu.new.contents).knows.sleeps_for b }
    ensures left { result ≡ 0 → left.new ≡ awaited_in (grace_of rcu.new.contents) }
    ensures unchanged { result ≢ 0 →
        AllStay rcu.old.contents rcu.new.contents sleeps.old sleeps.new left.old left.new }
{
    let opened = accepted!(rcu.engine());
    *sleeps = u32::from(sleep_for_first(opened));
    *left = opened.inner.grace().awaited().count();
    0
}

/// Looks whether the driver sleeps for the seat's processor. A thread looks so after each call by
/// which its processor got quiet, idle or offline. After `rcu_seat_quiesce_since` and
/// `rcu_seat_renew` it need not where the number is as it was, or is a multiple of 4, at which no
/// grace period runs. Writes 1 if the caller has to wake the driver, under the lock. Else 0. It
/// costs a load.
#[unsafe(no_mangle)]
pub extern "C" fn rcu_seat_should_wake_driver(seat: &mut RcuSeat, wakes: &mut u32) -> u32
    ensures fault { result ≡ seat_number seat.old.contents 0 }
    ensures state { result ≡ 0 → seat.new.contents ≡ on_requester (λ w. after_naming w
        (requester_of seat.new.contents).knows.sleeps_for) seat.old.contents }
    ensures wakes { result ≡ 0 → wakes.new ≡
        flag_number ((requester_of seat.new.contents).knows.sleeps_for
        == cpu_word (Some (cpu_of seat.old.contents).cpu)) }
    ensures unchanged { result ≢ 0 →
        BothStay seat.old.contents seat.new.contents wakes.old wakes.new }
{
    let seat = accepted!(seat.seat());
    let cpu = seat.cpu.cpu();
    *wakes = u32::from(seat.requester.is_slept_for(cpu));
    0
}
