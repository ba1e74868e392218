//! The room that the lists of a state keep, and how one frees room.
use super::{State, queue, run, state, tend, turns};
use crate::made::compare;
use rcu_core::Turned;
use rcu_node::Answer;
use std::process::Abort;

/// How many callbacks are queued.
const MANY: u64 = 9;

/// For how many items processor 0's list has room.
fn room(rt: &impl Abort, state: &State) -> u64 {
    let lists = state.lists();
    assert!(rt; 0 < lists.cpus());
    lists.room(0)
}

/// Gives all room of processor 0's list back that it does not need: the second call what the first
/// was refused. No run of a test refuses two growths.
fn shrink(rt: &impl Abort, state: &mut State, items: u64) {
    assert!(rt; 0 < state.cpus());
    state.shrink(0);
    state.shrink(0);
    compare(rt, "room", room(rt, state), items);
}

/// A grace period, which the callbacks wait for, begins, is reported and ends.
fn passes(rt: &impl Abort, state: &mut State) {
    tend(rt, state, (0, MANY));
    turns(rt, state, Turned::Begun(1, 1));
    assert!(rt; 0 < state.cpus());
    compare(rt, "report_now", state.report_now(0), Answer::Last);
    turns(rt, state, Turned::Ended(4));
    tend(rt, state, (MANY, 0));
}

#[test]
fn a_list_keeps_its_room_until_a_shrinking(rt: HostRuntime) {
    let mut state = state(&rt, rt.alloc(), 8);
    compare(&rt, "most", state.lists().most(), 1_000_000);
    for count in 0..MANY {
        queue(&rt, &mut state, 0, 7, count + 1);
    }
    shrink(&rt, &mut state, MANY);
    let most = room(&rt, &state);
    assert!(rt; most >= MANY);
    passes(&rt, &mut state);
    compare(&rt, "room", room(&rt, &state), most);
    run(&rt, &mut state, MANY as usize);
    compare(&rt, "room after a run", room(&rt, &state), most);
    shrink(&rt, &mut state, 0);
    compare(&rt, "room after it shrank", room(&rt, &state), 0);
}
