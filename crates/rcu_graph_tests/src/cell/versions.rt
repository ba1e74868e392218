//! A version that a section has loaded, while the writer shows others.
ghost use Rattle.std.specs.Prelude.{◌≡◌, ◌≤◌};
ghost use Rattle.rcu_graph.specs.Graph.{IsOutside};

use crate::cell::limits::{Limits, Shared, SharedEngine};
use crate::cell::{Any, Engine, Pairs, reads, shows};
use crate::compare::compare;
use crate::seats::{enters, exits};
use rcu_cell::{CellSeat, Full, Retired, Value, Writer};
use std::process::Abort;

/// Words loaded before others are shown, and words loaded after them, in one section.
fn load_and_show<R: Abort>(
    rt: &R,
    live: &Engine,
    cell: &Pairs,
    seat: &mut CellSeat<Any, 2>,
    writer: &mut Writer<Any, 2>,
)
    requires engine { live.now ≡ cell.now }
    requires seat { IsOutside live.now seat.old }
{
    enters(rt, live, seat);
    let mut loaded = cell.loaded(seat);
    shows(rt, writer, [3, 4], Ok(Retired { slot: 1, by: 2 }));
    shows(rt, writer, [5, 6], Err(Full));
    compare(rt, "read", loaded.read(1), 2);
    compare(rt, "snapshot", loaded.snapshot(), [1, 2]);
    let mut later = cell.loaded(seat);
    compare(rt, "snapshot", later.snapshot(), [3, 4]);
    exits(rt, live, seat);
    reads(rt, live, cell, seat, [3, 4]);
}

#[test]
fn loaded_version_stays_as_it_was(rt: HostRuntime) {
    let Ok(mut opened) = Pairs::open(rt.alloc(), 1, 8, 2, &[1, 2]) else {
        return;
    };
    let mut seat = opened.seats.pop().unwrap();
    load_and_show(
        &rt,
        &opened.live,
        &opened.cell,
        &mut seat,
        &mut opened.writer,
    );
}

/// A value loaded before another is shown, and the value of a section after that.
fn load_and_show_values<R: Abort>(
    rt: &R,
    live: &SharedEngine,
    cell: &Shared,
    seat: &mut CellSeat<Limits, 2>,
    writer: &mut Writer<Limits, 2>,
    first: Limits,
    second: Limits,
)
    requires engine { live.now ≡ cell.now }
    requires seat { IsOutside live.now seat.old }
    requires second { second.rate ≤ second.burst }
{
    enters(rt, live, seat);
    let mut loaded = cell.loaded(seat);
    let retired = Retired { slot: 1, by: 2 };
    compare(rt, "update_value", writer.update_value(second), Ok(retired));
    compare(rt, "value", loaded.value(), first);
    exits(rt, live, seat);
    let found = cell.value_section(live, seat);
    compare(rt, "value_section", found, Ok(second));
}

#[test]
fn loaded_value_stays_as_it_was(rt: HostRuntime) {
    let first = Limits {
        rate: 10,
        burst: 20,
    };
    let second = Limits {
        rate: 30,
        burst: 30,
    };
    let Ok(mut opened) = Shared::open(rt.alloc(), 1, 8, 2, &first.to_words()) else {
        return;
    };
    let (live, cell, writer) = (&opened.live, &opened.cell, &mut opened.writer);
    let mut seat = opened.seats.pop().unwrap();
    load_and_show_values(&rt, live, cell, &mut seat, writer, first, second);
}
