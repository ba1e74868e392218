//! A list beside a slow program, which keeps the tends and looks each deferral up among them, over
//! every run of a few calls.
ghost use Rattle.std.specs.Prelude.{◌≤◌, ◌^◌};

use rcu_defer::DeferList;
use rcu_seq::Fault;
use std::alloc::Global;
use std::process::Abort;

/// How many calls a run has.
const CALLS: usize = 7;

/// A tend: how many deferrals came before it, and its number.
#[derive(Clone, Copy, Debug)]
struct Tended {
    before: u64,
    number: u64,
}

/// The tends of a run, each at the place of its call.
type Tends = [Option<Tended>; CALLS];

/// The number that ends the first grace period to begin after this one.
fn next_end(number: u64) -> u64 {
    let idle = number.saturating_add(3) / 4 * 4;
    idle.saturating_add(4)
}

/// The number after this one: a grace period begins, or ends.
fn next_number(number: u64) -> u64 {
    number.saturating_add(if number % 4 == 0 { 1 } else { 3 })
}

/// The number that the deferral of this place waits for: none before a tend.
fn until(tends: &Tends, place: u64) -> Option<u64> {
    for call in tends {
        if let Some(tended) = call {
            if tended.before > place {
                return Some(next_end(tended.number));
            }
        }
    }
    None
}

/// Returns whether some tend reached that number.
fn is_done(tends: &Tends, place: u64) -> bool {
    let Some(wanted) = until(tends, place) else {
        return false;
    };
    for call in tends {
        if let Some(tended) = call {
            if tended.number >= wanted {
                return true;
            }
        }
    }
    false
}

/// Returns how many of this many deferrals are done.
fn done_count(tends: &Tends, deferred: u64) -> u64 {
    let mut count: u64 = 0;
    for place in 0..deferred {
        if is_done(tends, place) {
            count = count.saturating_add(1);
        }
    }
    count
}

/// Returns the number that the last waiting one of this many deferrals waits for.
fn last_until(tends: &Tends, deferred: u64) -> Option<u64> {
    let mut last = None;
    for place in 0..deferred {
        let wanted = until(tends, place);
        if wanted.is_some() && !is_done(tends, place) {
            last = wanted;
        }
    }
    last
}

/// Returns the value that a take hands out, if this many were deferred and this many taken: none if
/// no other is done.
fn next_taken(tends: &Tends, deferred: u64, taken: u64) -> Option<u64> {
    (taken < done_count(tends, deferred)).then_some(taken)
}

/// Returns the answers of a list then: how many values are done, how many it has, and the number
/// that the last one waits for.
fn told(tends: &Tends, deferred: u64, taken: u64) -> (u64, u64, Option<u64>) {
    (
        done_count(tends, deferred).wrapping_sub(taken),
        deferred.wrapping_sub(taken),
        last_until(tends, deferred),
    )
}

/// Defers a value, by a second call if the first is refused memory.
fn defers<R: Abort>(rt: &R, list: &mut DeferList<u64>, value: u64) {
    if let Err(refused) = list.defer(value) {
        assert_eq!(rt; (refused.fault, refused.value), (Fault::NoMemory, value));
        assert!(rt; list.defer(value).is_ok(), "the second call has memory");
    }
}

/// Tends at a number, which is none below that of the last tend.
fn tends_at<R: Abort>(rt: &R, list: &mut DeferList<u64>, number: u64) {
    assert!(rt; list.seen() <= number && number <= 1 << 62);
    list.tend(number);
}

/// A run, whose calls are the digits of a number: a deferral, a tend at the same number, one at the
/// next, a take.
fn play<R: Abort>(rt: &R, alloc: Global, code: u64) {
    let mut list = DeferList::new(alloc);
    let mut tends: Tends = [None; CALLS];
    let mut deferred: u64 = 0;
    let mut taken: u64 = 0;
    let mut number = 0;
    let mut calls = code;
    for call in 0..CALLS {
        let digit = calls % 4;
        calls /= 4;
        if digit == 0 {
            defers(rt, &mut list, deferred);
            deferred = deferred.wrapping_add(1);
        } else if digit == 3 {
            let wanted = next_taken(&tends, deferred, taken);
            assert_eq!(rt; (code, call, list.take()), (code, call, wanted));
            if wanted.is_some() {
                taken = taken.wrapping_add(1);
            }
        } else {
            if digit == 2 {
                number = next_number(number);
            }
            tends_at(rt, &mut list, number);
            tends[call] = Some(Tended {
                before: deferred,
                number,
            });
        }
        let found = (list.ready(), list.count() as u64, list.last_until());
        let wanted = told(&tends, deferred, taken);
        assert_eq!(rt; (code, call, found), (code, call, wanted));
    }
}

#[test]
fn lists_are_as_the_slow_program_says(rt: HostRuntime) {
    for code in 0..16_384 {
        play(&rt, rt.alloc(), code);
    }
}
