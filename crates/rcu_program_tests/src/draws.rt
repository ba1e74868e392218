//! The words that workers draw.

use rcu_stress::Draws;
use std::process::Abort;

#[test]
fn draws_of_two_workers(rt: HostRuntime) {
    let mut first = Draws::new(1, 0);
    let mut second = Draws::new(1, 1);
    let words = [first.next(), first.next(), second.next(), second.next()];
    assert_eq!(rt; words, [866585574, 2109535214, 663514024, 4050668357]);
    // The sum of seed and worker wraps.
    assert_eq!(rt; Draws::new(u64::MAX, 1).next(), 298703107);
}
