//! Two lists under calls drawn at random, against the plain list.

use crate::cblist::plain::{Item, Mark, Plain, ROOM};
use crate::cblist::{Asked, accelerate, ask};
use crate::draw::Draw;
use crate::made::compare;
use rcu_cblist::{Queued, SegList};
use rcu_seq::Tag;
use std::mem::swap;
use std::process::Abort;

/// How many calls are drawn.
const CALLS: u64 = 4_000;
/// After this many calls a list is taken whole.
const DRAINS: u64 = 64;
/// A number at which each callback is done.
const LAST: u64 = 1 << 62;

/// All that a list answers that is as the plain one.
fn asked_of(plain: &Plain) -> Asked {
    let (count, done, greatest) = plain.counts();
    Asked {
        count,
        done,
        waiting: count.saturating_sub(done),
        greatest,
        segments: plain.segments(),
    }
}

/// Compares counts, the greatest number and the segments after this call.
fn compare_list(rt: &impl Abort, call: u64, list: &SegList<u64>, plain: &Plain) {
    compare(rt, call, ask(list), asked_of(plain));
    compare(rt, call, list.is_empty(), plain.len == 0);
}

/// Queues a callback, by a second call if the first is refused memory.
fn queue(rt: &impl Abort, list: &mut SegList<u64>, plain: &mut Plain, value: u64) {
    if plain.len >= ROOM / 2 - 1 {
        return;
    }
    let call = Queued {
        ord: 0,
        at: Tag::of_first_epoch(0),
        value,
    };
    if let Err(back) = list.queue(call) {
        let again = list.queue(back.value).map_err(|back| back.fault);
        compare(rt, value, again, Ok(()));
    }
    plain.push(Item::Call(value, Mark::Unmarked));
}

/// Puts a marker behind, by a second call if the first is refused memory.
fn entrain(rt: &impl Abort, call: u64, list: &mut SegList<u64>, plain: &mut Plain) {
    if plain.len >= ROOM / 2 - 1 {
        return;
    }
    let marked = match list.entrain() {
        Ok(marked) => marked,
        Err(_) => list.entrain().expect(rt, "the second call has memory"),
    };
    compare(rt, call, marked, plain.len > 0);
    if marked {
        plain.push(Item::Marker);
    }
}

/// Takes callbacks, by a second call if the first is refused memory.
fn take(rt: &impl Abort, call: u64, list: &mut SegList<u64>, plain: &mut Plain, max: u64) {
    let taken = match list.take_done(max) {
        Ok(taken) => taken,
        Err(_) => list.take_done(max).expect(rt, "the second call has memory"),
    };
    let mut left = max;
    let mut markers = 0u64;
    let mut place = 0usize;
    for _ in 0..ROOM {
        match plain.take_next(left) {
            Some(Item::Call(value, _)) => {
                left = left.saturating_sub(1);
                let found = taken.calls.get(place).map(|call| call.value);
                compare(rt, (call, place), found, Some(value));
                place = place.saturating_add(1);
            }
            Some(Item::Marker) => markers = markers.saturating_add(1),
            None => break,
        }
    }
    let found = (taken.calls.len(), taken.markers);
    compare(rt, call, found, (place, markers));
}

/// Takes one callback, with no memory.
fn pop(rt: &impl Abort, call: u64, list: &mut SegList<u64>, plain: &mut Plain) {
    let mut wanted = None;
    if let Some(Item::Call(value, _)) = plain.take_next(1) {
        let mut markers = 0u64;
        for _ in 0..ROOM {
            if plain.take_next(0).is_none() {
                break;
            }
            markers = markers.saturating_add(1);
        }
        wanted = Some((value, markers));
    }
    let popped = list.pop_done().map(|popped| (popped.0.value, popped.1));
    compare(rt, call, popped, wanted);
}

/// Moves a list to another, by a second call if the first is refused memory.
fn migrate(
    rt: &impl Abort,
    list: &mut SegList<u64>,
    plain: &mut Plain,
    target: &mut SegList<u64>,
    plain_target: &mut Plain,
    marked: bool,
) {
    if plain.len.saturating_add(plain_target.len) >= ROOM / 2 {
        return;
    }
    let mut moved = if marked {
        list.move_into(target, true)
    } else {
        list.migrate_into(target)
    };
    if moved.is_err() {
        moved = if marked {
            list.move_into(target, true)
        } else {
            list.migrate_into(target)
        };
    }
    compare(rt, "move", moved, Ok(()));
    if marked && plain.len > 0 {
        plain.push(Item::Marker);
    }
    plain.migrate_into(plain_target);
}

/// Makes done what has reached this number, in both.
fn advance(list: &mut SegList<u64>, plain: &mut Plain, number: u64) {
    list.advance(number);
    plain.advance(number);
}

/// Renumbers both.
fn renumber(list: &mut SegList<u64>, plain: &mut Plain) {
    list.renumber();
    plain.renumber();
}

/// Makes all callbacks done and takes them, which compares their order.
fn drain(rt: &impl Abort, call: u64, list: &mut SegList<u64>, plain: &mut Plain) {
    advance(list, plain, LAST);
    accelerate(rt, list, LAST);
    plain.accelerate(LAST);
    advance(list, plain, LAST);
    take(rt, call, list, plain, u64::MAX);
    compare(rt, call, (list.count(), list.is_empty()), (0, true));
}

#[test]
fn calls_at_random(rt: HostRuntime) {
    let mut draw = Draw(7);
    let mut list = SegList::new(rt.alloc());
    let mut other = SegList::new(rt.alloc());
    let mut plain = Plain::new();
    let mut other_plain = Plain::new();
    for call in 0..CALLS {
        if draw.below(3) == 0 {
            swap(&mut list, &mut other);
            swap(&mut plain, &mut other_plain);
        }
        if draw.below(16) == 0 {
            renumber(&mut list, &mut plain);
        }
        match draw.below(16) {
            0..=4 => queue(&rt, &mut list, &mut plain, call),
            5 => entrain(&rt, call, &mut list, &mut plain),
            6..=7 => advance(&mut list, &mut plain, draw.below(40)),
            8..=10 => {
                let snap = list.greatest_waiting().unwrap_or(0).max(draw.below(40));
                accelerate(&rt, &mut list, snap);
                plain.accelerate(snap);
            }
            11..=12 => take(&rt, call, &mut list, &mut plain, draw.below(4)),
            13 => pop(&rt, call, &mut list, &mut plain),
            kind => migrate(
                &rt,
                &mut list,
                &mut plain,
                &mut other,
                &mut other_plain,
                kind == 15,
            ),
        }
        compare_list(&rt, call, &list, &plain);
        compare_list(&rt, call, &other, &other_plain);
        if call % DRAINS == 0 {
            drain(&rt, call, &mut other, &mut other_plain);
        }
    }
}

#[test]
fn tends_at_the_numbers_of_epochs(rt: HostRuntime) {
    let mut draw = Draw(11);
    let mut list = SegList::new(rt.alloc());
    let mut plain = Plain::new();
    let mut periods = 0u64;
    for call in 0..CALLS {
        if draw.below(64) == 0 {
            renumber(&mut list, &mut plain);
            periods = 0;
        }
        match draw.below(8) {
            0..=2 => queue(&rt, &mut list, &mut plain, call),
            3 => entrain(&rt, call, &mut list, &mut plain),
            4 => take(&rt, call, &mut list, &mut plain, draw.below(4)),
            5 => periods = periods.saturating_add(draw.below(3)),
            _ => {
                let running = draw.below(2);
                let number = periods.saturating_mul(4).saturating_add(running);
                let next = periods.saturating_add(1).saturating_add(running);
                let snap = next.saturating_mul(4);
                list.advance(number);
                plain.advance(number);
                accelerate(&rt, &mut list, snap);
                plain.accelerate(snap);
                compare(&rt, call, list.segments()[3], 0);
                periods = periods.saturating_add(running);
            }
        }
        compare_list(&rt, call, &list, &plain);
    }
    drain(&rt, CALLS, &mut list, &mut plain);
}
