//! Cookies of later epochs: the running engine stays in the first one.
ghost use Rattle.std.specs.Prelude.{◌≡◌};
ghost use Rattle.std.specs.Arc.{arc_value};

use crate::live::steps::{Script, of_epoch};
use crate::live::threads::{Pair, make_pair};
use rcu_live::{Board, Parts, Watcher};
use rcu_seq::{Cookie, Fault};
use std::alloc::Global;
use std::process::Abort;
use std::sync::Wait;

/// The parts of an engine.
type FourParts = Parts<4, 4, u64>;

/// Opens the parts of an object, by a second call if the first is refused memory.
fn open_parts(rt: &impl Abort, alloc: Global) -> FourParts
    ensures { result.own.table ≡ (arc_value result.board).table }
{
    match FourParts::open(alloc, 1, 4, 8) {
        Ok(parts) => parts,
        Err(fault) => {
            assert_eq!(rt; fault, Fault::NoMemory);
            FourParts::open(alloc, 1, 4, 8).expect(rt, "the second call has memory")
        }
    }
}

/// Polls cookies at number 0: one of a later epoch is done by the number 1 alone.
fn poll_later<R: Abort + Wait>(script: &Script<'_, R>, watcher: &mut Watcher)
    requires { watcher.old.table ≡ script.now.live.now.table }
{
    script.poll(watcher, of_epoch(0, 0), true);
    script.poll(watcher, of_epoch(1, 0), false);
    script.poll(watcher, of_epoch(1, 1), true);
    script.poll(watcher, of_epoch(4_294_967_295, 0), false);
}

#[test]
fn watcher_finds_no_later_epoch_done(rt: HostRuntime) {
    let Pair {
        live,
        first: _,
        second: _,
        mut watcher,
        other: _,
    } = make_pair(&rt, rt.alloc());
    poll_later(&Script::new(&rt, &live), &mut watcher);
}

/// The same over the shared words alone.
fn poll_on(rt: &impl Abort, board: &Board, watcher: &mut Watcher, cookie: Cookie, wanted: bool)
    requires { watcher.old.table ≡ board.now.table }
    ensures { watcher.new.table ≡ watcher.old.table }
{
    assert_eq!(rt; (cookie, watcher.poll(board, cookie)), (cookie, wanted));
}

#[test]
fn seat_finds_no_later_epoch_done(rt: HostRuntime) {
    let Parts {
        board,
        engine,
        seats: _,
        watchers: _,
        mut own,
    } = open_parts(&rt, rt.alloc());
    poll_on(&rt, &board, &mut own, of_epoch(0, 0), true);
    poll_on(&rt, &board, &mut own, of_epoch(1, 0), false);
    poll_on(&rt, &board, &mut own, of_epoch(1, 1), true);
    assert!(rt; !engine.grace().done(of_epoch(1, 0)));
    assert!(rt; engine.grace().done(of_epoch(1, 1)));
}
