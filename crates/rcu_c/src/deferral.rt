//! Deferral by a thread's seat alone, with no lock, beside all calls on other handles: of values of
//! 64 bits, in order. In a section or not, online or not.
//!
//! They belong to the seat: they stay if its processor departs, and if the seat is returned, for
//! the next thread that has it. `rcu_seat_close` and `rcu_close` forget those that were not handed
//! out. No call here requests a grace period: the driver gets the cookie of `rcu_defer_cookie`, for
//! `rcu_drive_for`.
ghost use Rattle.std.specs.Prelude.{◌≡◌, ◌≢◌, ◌+◌, ◌≤◌, None, drop, length, take};
ghost use Rattle.rcu_live.specs.Watcher.{after_watch};
ghost use Rattle.rcu_defer.specs.DeferList.{list_after_defer, list_after_take, list_after_tend};
ghost use Rattle.rcu_defer.specs.DeferList.{taken_values, with_room};
ghost use Rattle.rcu_defer.specs.Marks.{count_of, defer_refusal};
ghost use Rattle.rcu_c.specs.Answers.{number_for, tested_number};
ghost use Rattle.rcu_c.specs.Holding.{links_of, on_values, on_watcher, values_of, watcher_of};
ghost use Rattle.rcu_c.specs.Links.{cookie_for};
ghost use Rattle.rcu_c.specs.Refusals.{seat_number, seat_refusal};
ghost use Rattle.rcu_c.specs.Staying.{AllStay, BothStay};

use crate::codes::{ALWAYS_DONE, accepted, code};
use crate::handle::RcuSeat;
use rcu_defer::DeferList;

/// Defers a value, behind those that the seat has, without a load of the number or a fence. The
/// values keep the room that they ever had, until `rcu_defer_shrink` or `rcu_seat_close`.
///
/// Of each section one of two holds: all of it comes before what follows the `rcu_defer_run` that
/// hands the value out, or it sees what the thread did before the first `rcu_defer_run` after this
/// call.
///
/// Faults: 15 if 2^62 were deferred; 16.
#[unsafe(no_mangle)]
pub extern "C" fn rcu_defer(seat: &mut RcuSeat, value: u64) -> u32
    ensures fault { tested_number result ≡ seat_number seat.old.contents
        (number_for (defer_refusal (values_of seat.old.contents).marks)) }
    ensures state { result ≡ 0 → seat.new.contents ≡ on_values (λ d. with_room
        (list_after_defer d value) (values_of seat.new.contents).room) seat.old.contents }
    ensures memory { result ≡ 16 →
        (values_of seat.old.contents).room ≤ length (values_of seat.old.contents).values }
    ensures unchanged_values { seat_refusal seat.old.contents ≡ None → result ≢ 0 →
        seat.new.contents ≡
        on_values (λ d. with_room d (values_of seat.new.contents).room) seat.old.contents }
    ensures unchanged { seat_refusal seat.old.contents ≢ None →
        seat.new.contents ≡ seat.old.contents }
{
    let seat = accepted!(seat.seat());
    match seat.values.defer(value) {
        Ok(()) => 0,
        Err(refused) => code(refused.fault),
    }
}

/// Takes values out that are done, as many as the buffer has room for, and writes them to its head.
/// The rest of it stays. Returns how many they are.
fn put_ready(list: &mut DeferList<u64>, values: &mut [u64]) -> u64
    ensures count { result ≡ length (taken_values list.old (length values.old)) }
    ensures list { list.new ≡ list_after_take list.old (length values.old) }
    ensures head { take result values.new ≡ taken_values list.old (length values.old) }
    ensures rest { drop result values.new ≡ drop result values.old }
{
    let most = list.ready().min(values.len() as u64);
    for i in 0..most {
        let Some(value) = list.take() else {
            unreachable!()
        };
        values[i as usize] = value;
    }
    most
}

/// Hands out deferred values that are done, in order, `room` at most, after one load of the number:
/// those that were deferred before an earlier call of this function, since which a full grace
/// period has passed. Writes them from `values` on, and how many they are; the rest of the room
/// stays. The others wait from now on for a grace period that begins later. Takes no memory.
///
/// A full fence precedes the load. Unfenced, a section may still reach unlinked data after its
/// value is handed out.
///
/// Fence: before.
#[unsafe(no_mangle)]
pub extern "C" fn rcu_defer_run_unfenced(
    seat: &mut RcuSeat,
    values: &mut [u64],
    count: &mut u64,
) -> u32
    ensures fault { result ≡ seat_number seat.old.contents 0 }
    ensures state { result ≡ 0 → seat.new.contents ≡ on_values (λ d. list_after_take
        (list_after_tend d (watcher_of seat.new.contents).view.seen) (length values.old))
        (on_watcher (λ w. after_watch w (watcher_of seat.new.contents).view.seen)
        seat.old.contents) }
    ensures later { result ≡ 0 → (watcher_of seat.old.contents).view.seen
        ≤ (watcher_of seat.new.contents).view.seen }
    ensures count { result ≡ 0 → count.new ≡ length (taken_values
        (list_after_tend (values_of seat.old.contents) (watcher_of seat.new.contents).view.seen)
        (length values.old)) }
    ensures values { result ≡ 0 → take count.new values.new ≡ taken_values
        (list_after_tend (values_of seat.old.contents) (watcher_of seat.new.contents).view.seen)
        (length values.old) }
    ensures rest { result ≡ 0 → drop count.new values.new ≡ drop count.new values.old }
    ensures unchanged { result ≢ 0 →
        AllStay seat.old.contents seat.new.contents values.old values.new count.old count.new }
{
    let seat = accepted!(seat.seat());
    let number = seat.watcher.number(&**seat.map.board());
    seat.values.tend(number);
    *count = put_ready(&mut seat.values, values);
    0
}

/// Returns how many values and links were deferred and not handed out. 0 if `seat` is not an open
/// seat.
#[unsafe(no_mangle)]
pub extern "C" fn rcu_defer_count(seat: &mut RcuSeat) -> u64
    ensures unchanged { seat.new.contents ≡ seat.old.contents }
    ensures value { result ≡ count_of (values_of seat.old.contents).marks
        + count_of (links_of seat.old.contents).marks }
{
    let Ok(seat) = seat.seat() else {
        return 0;
    };
    seat.values.marks().count() + seat.links.marks.count()
}

/// Returns the cookie at which all can be handed out that was deferred before the seat's last look,
/// by `rcu_defer_run` at values and by `rcu_defer_take` at links. Returns 1, which is always done,
/// if none of it waits, or if `seat` is not an open seat.
#[unsafe(no_mangle)]
pub extern "C" fn rcu_defer_cookie(seat: &mut RcuSeat) -> u64
    ensures unchanged { seat.new.contents ≡ seat.old.contents }
    ensures value { result ≡ cookie_for (values_of seat.old.contents).marks
        (links_of seat.old.contents).marks }
{
    let Ok(seat) = seat.seat() else {
        return ALWAYS_DONE;
    };
    let values = seat.values.last_until().unwrap_or(ALWAYS_DONE);
    values.max(seat.links.marks.last_until().unwrap_or(ALWAYS_DONE))
}

/// Frees the memory that the values do not need, at a step for each that stays. Writes for how many
/// values the seat then has room: for none if it has none.
#[unsafe(no_mangle)]
pub extern "C" fn rcu_defer_shrink(seat: &mut RcuSeat, room: &mut u64) -> u32
    ensures fault { result ≡ seat_number seat.old.contents 0 }
    ensures state { result ≡ 0 → seat.new.contents ≡
        on_values (λ d. with_room d room.new) seat.old.contents }
    ensures less { result ≡ 0 → room.new ≤ (values_of seat.old.contents).room }
    ensures fits { result ≡ 0 → length (values_of seat.old.contents).values ≤ room.new }
    ensures empty { result ≡ 0 → length (values_of seat.old.contents).values ≡ 0 →
        room.new ≡ 0 }
    ensures unchanged { result ≢ 0 →
        BothStay seat.old.contents seat.new.contents room.old room.new }
{
    let seat = accepted!(seat.seat());
    seat.values.shrink();
    *room = seat.values.room() as u64;
    0
}
