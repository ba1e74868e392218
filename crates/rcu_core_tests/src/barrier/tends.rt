//! Tends at the numbers of epochs, beside a plain list with the number of each callback.
use super::{lists, queue, take, tend};
use crate::draw::Draw;
use crate::made::compare;
use rcu_barrier::Lists;
use rcu_cblist::Queued;
use std::process::Abort;

/// How many calls are drawn.
const CALLS: usize = 400;

/// How many callbacks a plain list holds.
const ROOM: usize = 400;

/// The expected list of processor 0: for each callback that was queued, in order, the number that
/// it waits for, counted on over the epochs, and 0 before a tend in the running epoch. A callback's
/// value is its place.
#[derive(Drop)]
struct Plain {
    until: [u64; ROOM],
    queued: u64,
    handed: u64,
    /// The number of the latest tend, counted on over the epochs.
    number: u64,
}

impl Plain {
    /// How many callbacks that are not handed out are done, and how many wait.
    fn counts(&self) -> (u64, u64) {
        let left = self.queued.saturating_sub(self.handed);
        let mut done = 0u64;
        let places = self.handed as usize..self.queued as usize;
        for until in self.until.get(places).unwrap_or(&[]) {
            if *until != 0 && *until <= self.number {
                done = done.saturating_add(1);
            }
        }
        (done, left.saturating_sub(done))
    }

    /// Hands out callbacks, and compares them with those that were taken in a row.
    fn hand_out(&mut self, rt: &impl Abort, row: usize, calls: &[Queued<u64>], max: u64) {
        compare(rt, row, calls.len() as u64, self.counts().0.min(max));
        for call in calls {
            compare(rt, row, call.value, self.handed);
            self.handed = self.handed.saturating_add(1);
        }
    }

    /// Each callback that waits loses its number.
    fn renumber(&mut self) {
        for until in &mut self.until {
            if *until > self.number {
                *until = 0;
            }
        }
    }

    /// Each callback without a number gets the snapshot.
    fn tend(&mut self, number: u64, snapshot: u64) {
        self.number = number;
        for until in self.until.iter_mut().take(self.queued as usize) {
            if *until == 0 {
                *until = snapshot;
            }
        }
    }
}

/// Takes callbacks from both, and compares them.
fn run_both(rt: &impl Abort, row: usize, lists: &mut Lists<u64>, plain: &mut Plain, max: u64) {
    plain.hand_out(rt, row, &take(rt, row, lists, 0, max), max);
}

#[test]
fn tends_at_the_numbers_of_epochs(rt: HostRuntime) {
    let mut draw = Draw(11);
    let mut lists = lists(&rt, rt.alloc());
    let mut plain = Plain {
        until: [0; ROOM],
        queued: 0,
        handed: 0,
        number: 0,
    };
    let mut number = 0u64;
    let mut epochs = 0u64;
    for row in 0..CALLS {
        match draw.below(9) {
            0..=2 => {
                let value = plain.queued;
                plain.queued = value.saturating_add(1);
                queue(&rt, row, &mut lists, 0, value, plain.queued);
            }
            3 => run_both(&rt, row, &mut lists, &mut plain, draw.below(4)),
            4 | 5 => number = number.saturating_add(if number % 4 == 0 { 1 } else { 3 }),
            6 if number % 4 == 0 => {
                lists.renumber();
                plain.renumber();
                epochs = epochs.saturating_add(number);
                number = 0;
            }
            _ => {
                assert!(rt; number % 4 <= 1 && number <= 4 * CALLS as u64);
                let end = (number + 3) / 4 * 4 + 4;
                plain.tend(epochs.saturating_add(number), epochs.saturating_add(end));
                tend(&rt, row, &mut lists, 0, number, plain.counts());
            }
        }
    }
}
