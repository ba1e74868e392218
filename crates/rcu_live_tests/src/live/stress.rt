//! A hard run of the engine, which ends at the first thing that no right engine does.
//!
//! Four threads wait for one another at the places where an engine may go wrong. A driver moves the
//! grace periods on without a pause. A reader sleeps, wakes as a grace period begins, and holds its
//! section while the driver goes round. Another one arrives, queues callbacks, and departs while a
//! barrier runs. A fourth thread waits for barriers, and polls cookies with a second watcher.
//!
//! A reader sets a word of its own inside its section, to a stamp, and clears it before the exit.
//! So if a thread finds it set to less than a stamp that was drawn at a snapshot or when a callback
//! was queued, it knows a section that was open then and is still open.
ghost use Rattle.std.specs.Prelude.{◌≡◌};
ghost use Rattle.std.specs.Thread.{IsSync};

mod calls;
mod parts;
mod reader;
mod scene;
mod stop;
mod updater;

use crate::live::stress::calls::Calls;
use crate::live::stress::parts::Parts;
use crate::live::stress::reader::Reader;
use crate::live::stress::scene::Scene;
use crate::live::stress::stop::Stop;
use crate::live::stress::updater::{ALL_CPUS, CPUS, Driver, Waiter};
use crate::live::threads::opened;
use std::alloc::Global;
use std::process::Abort;
use std::sync::Wait;
use std::thread;
use std::thread::Threads;

/// How many callbacks are queued at most.
const MOST_CALLS: usize = 20_000;

/// No run comes to this number.
const LAST: u64 = 1 << 40;

/// Runs the four threads. If one can't be made, it runs here, and the run has no verdict.
fn run_all<R: Threads + Wait + Sync>(
    rt: &R,
    driver: &mut Driver<'_>,
    mut waiter: Waiter<'_>,
    mut sleeper: Reader<'_>,
    mut leaver: Reader<'_>,
) {
    let readers = move || -> ((), ())
        requires { IsSync R.row }
    {
        thread::join(
            rt,
            move || sleeper.run_asleep(rt),
            move || leaver.run_away(rt),
        )
    };
    let others = move || -> ((), ((), ()))
        requires { IsSync R.row }
    { thread::join(rt, move || waiter.run(rt), readers) };
    thread::join(rt, others, move || driver.run(rt));
}

/// A hard run of the engine. Answers why it ended before its time, if it did.
fn try_hard<R: Abort + Threads + Wait + Sync>(rt: &R, alloc: Global) -> Option<Stop> {
    let (live, mut seats, mut watchers) = opened(rt, alloc, ALL_CPUS, LAST);
    seats.truncate(CPUS as usize);
    watchers.truncate(CPUS as usize);
    let scene = Scene::new();
    let calls = match Calls::new(alloc, MOST_CALLS) {
        Ok(calls) => calls,
        Err(stop) => return Some(stop),
    };
    let parts = Parts {
        live: &live,
        scene: &scene,
        calls: &calls,
    };
    let waiter = parts.waiter(&mut seats, &mut watchers);
    let leaver = parts.reader(scene.leaver(), &mut seats, &mut watchers);
    let sleeper = parts.reader(scene.sleeper(), &mut seats, &mut watchers);
    let mut driver = parts.driver(&mut seats);
    run_all(rt, &mut driver, waiter, sleeper, leaver);
    scene.stop(rt).or_else(|| driver.finish(rt).err())
}

#[test]
fn hard_run(rt: HostRuntime) {
    let stop = try_hard(&rt, rt.alloc());
    assert!(rt; matches!(stop, None | Some(Stop::NoVerdict)), "{stop:?}");
}
