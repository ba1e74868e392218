//! Several steps under one lock: no other thread sees what is between them.
ghost use Rattle.std.specs.Prelude.{◌<◌};

use crate::compare::compare;
use crate::map::route::Route;
use crate::map::{Control, Routes};
use std::sync::Wait;
use std::thread;
use std::thread::Threads;

/// How often a thread moves the one route.
const MOVES: u32 = 200;

/// Takes the route to a network out, and puts it in as one to the other network. Returns whether
/// there was one, and none to the other network.
fn move_on<R: Wait>(rt: &R, control: &Control, from: u32, to: u32) -> bool {
    let mut writer = control.lock(rt);
    if let Some(route) = writer.remove(u64::from(from))
        && let Some(moved) = Route::to(to, route.port)
    {
        return writer.insert(moved) == Ok(None) && writer.len() == 1;
    }
    false
}

/// Moves the route to and fro. Returns how often.
fn work<R: Wait>(rt: &R, control: &Control) -> u32 {
    let mut moves = 0u32;
    for _ in rt.forever() {
        if move_on(rt, control, 1, 2) || move_on(rt, control, 2, 1) {
            moves = moves.saturating_add(1);
        }
        if moves == MOVES {
            break;
        }
    }
    moves
}

/// Two threads at once. If no thread can be made, the second one's part runs last.
fn work_both<R: Threads + Wait + Sync>(rt: &R, control: &Control) -> (u32, u32) {
    thread::join(rt, move || work(rt, control), move || work(rt, control))
}

#[test]
fn route_is_moved_under_one_lock(rt: HostRuntime) {
    // One bucket, and a node for each move.
    let Ok(opened) = Routes::open::<4, 4, u64>(rt.alloc(), 1, 4_000, 1, 1024, 0) else {
        return;
    };
    let control = Control::new(opened.writer);
    if let Some(route) = Route::to(1, 7) {
        compare(&rt, "insert", control.insert(&rt, route), Ok(None));
    }
    compare(&rt, "moves", work_both(&rt, &control), (MOVES, MOVES));
    let ports = [1, 2].map(|key| control.get(&rt, key).map(|route| route.port));
    compare(&rt, "get", ports.iter().flatten().count(), 1);
}
