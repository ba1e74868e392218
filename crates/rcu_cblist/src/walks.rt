//! Items that leave a sequence, one at a time or all together.
ghost use Rattle.std.specs.Prelude.{◌≡◌, ◌+◌, ◌≤◌, ◌++◌, take, drop, length};
ghost use Rattle.std.specs.Prelude.{if◌then◌else◌};
ghost use Rattle.std.specs.Vec.{vec_len, vec_capacity};
ghost use Rattle.std.specs.VecDeque.{deque_len, deque_capacity};
ghost use Rattle.rcu_cblist.specs.SegList.{callbacks};
ghost use Rattle.rcu_cblist.specs.Entries.{moved_behind, moved_in_front, unmarked};
ghost use Rattle.rcu_cblist.specs.Walks.{HasNow, IsEmptied, IsLeft};

use crate::items::{Entry, Queued};
use std::collections::VecDeque;

/// Takes the first callbacks, of this number, and each marker before the first callback that is
/// left. Returns how many markers it took.
#[tactic(auto, using(crate::proofs::Lists::map_split, crate::proofs::Lists::gone_more))]
pub(crate) fn take_first<T: Drop>(
    items: &mut VecDeque<Entry<T>>,
    calls: &mut Vec<Queued<T>>,
    most: u64,
) -> u64
    requires room { vec_len calls.old + most ≤ vec_capacity calls.old }
    requires there { most ≤ length (callbacks (unmarked items.old.items)) }
    ensures calls { calls.new.items
        ≡ calls.old.items ++ take most (callbacks (unmarked items.old.items)) }
    ensures left { IsLeft items.old most result items.new }
{
    let mut markers = 0;
    let mut left = most;
    loop {
        match items.front() {
            Some(Entry::Marker) => {}
            Some(Entry::Call(_)) if left > 0 => {}
            _ => return markers,
        }
        match items.pop_front() {
            None => unreachable!(),
            Some(Entry::Marker) => markers += 1,
            Some(Entry::Call(call)) => {
                left -= 1;
                let Ok(()) = calls.push(call) else {
                    unreachable!()
                };
            }
        }
    }
}

/// Puts the first items before a target's, and the rest behind them. If `marked`, a marker goes
/// behind the last of them. Returns how many items went in front.
pub(crate) fn join_marked<T: Drop>(
    target: &mut VecDeque<Entry<T>>,
    items: &mut VecDeque<Entry<T>>,
    ahead: usize,
    marked: bool,
) -> usize
    requires ahead { ahead ≤ length items.old.items }
    requires room { deque_len target.old + deque_len items.old + (if marked then 1 else 0)
        ≤ deque_capacity target.old }
    ensures front { result ≡ length (moved_in_front items.old.items ahead marked) }
    ensures target { HasNow target.old (moved_in_front items.old.items ahead marked
        ++ (target.old.items ++ moved_behind items.old.items ahead marked)) target.new }
    ensures items { IsEmptied items.old items.new }
{
    if !marked {
        join_around(target, items, ahead);
        return ahead;
    }
    if ahead < items.len() {
        join_around(target, items, ahead);
        target.push_back_reserved(Entry::Marker);
        return ahead;
    }
    target.push_front_reserved(Entry::Marker);
    join_around(target, items, ahead);
    ahead + 1
}

/// Puts the first items before a target's, and the rest behind them.
#[tactic(auto, using(crate::proofs::Lists::cut_joined))]
fn join_around<T: Drop>(target: &mut VecDeque<T>, items: &mut VecDeque<T>, ahead: usize)
    requires ahead { ahead ≤ length items.old.items }
    requires room { deque_len target.old + deque_len items.old ≤ deque_capacity target.old }
    ensures target { HasNow target.old
        (take ahead items.old.items ++ (target.old.items ++ drop ahead items.old.items))
        target.new }
    ensures items { IsEmptied items.old items.new }
{
    items.rotate_left(ahead);
    let Ok(()) = target.append(items) else {
        unreachable!()
    };
    target.rotate_right(ahead);
}
