//! A service whose limits are replaced while it answers requests: how a cell is used, from its
//! opening to the shutdown.
ghost use Rattle.std.specs.Prelude.{◌≡◌, ◌≤◌, All};
ghost use Rattle.std.specs.Thread.{IsSync};
ghost use Rattle.rcu_live.specs.CpuSeat.{IsSeatOf};
ghost use Rattle.rcu_graph.specs.Graph.{IsOutside};

use crate::cell::limits::{Limits, Shared, SharedEngine};
use crate::cell::parts::drive;
use crate::compare::compare;
use crate::seats::{next_online, next_seat};
use rcu_cell::{CellSeat, Value, Writer};
use rcu_seq::Fault;
use std::process::Abort;
use std::sync::Wait;
use std::thread;
use std::thread::Threads;

/// How many requests a server answers.
const REQUESTS: u32 = 100_000;

/// How often the limits are replaced.
const CHANGES: u32 = 1_000;

/// The server, which answers requests, with its processor's seat.
#[derive(Drop)]
struct Server<'a> {
    live: &'a SharedEngine,
    cell: &'a Shared,
    seat: CellSeat<Limits, 2>,
    ghost engine: { live.now ≡ cell.now },
    ghost seat_of: { IsOutside live.now seat },
}

impl<'a> Server<'a> {
    /// Returns whether this many requests at once are admitted, by the current limits. It never
    /// waits, and a driver waits for it at most until its quiescent state.
    fn admits(&mut self, at_once: u32) -> Result<bool, Fault> {
        let limits = self.cell.value_section(self.live, &mut self.seat)?;
        self.seat.quiesce(self.live)?;
        Ok(at_once <= limits.burst)
    }

    /// Answers requests, and shuts down: the processor goes offline, so that no grace period waits
    /// for it. Answers how many it answered.
    fn serve<R: Wait>(mut self, rt: &R) -> u32 {
        let mut answered = 0u32;
        for request in 0..REQUESTS {
            if self.admits(request % 64).is_ok() {
                answered = answered.saturating_add(1);
            }
        }
        let Server { live, mut seat, .. } = self;
        let _ = live.offline(rt, &mut seat);
        answered
    }
}

/// The control, which replaces the limits and drives the engine, with the seat of processor 0.
#[derive(Drop)]
struct Control<'a> {
    live: &'a SharedEngine,
    writer: Writer<Limits, 2>,
    seat: CellSeat<Limits, 2>,
    ghost seat_of: { IsSeatOf live.now seat },
}

impl<'a> Control<'a> {
    /// Replaces the limits. If no slot is free, some grace period has to pass first.
    fn replace<R: Wait>(&mut self, rt: &R, limits: Limits)
        requires { limits.rate ≤ limits.burst }
    {
        for _ in rt.forever() {
            if self.writer.update_value(limits).is_ok() {
                return;
            }
            drive(rt, self.live, &mut self.writer, &mut self.seat, 2);
        }
    }

    fn work<R: Wait>(mut self, rt: &R) {
        for rate in 1..=CHANGES {
            let burst = rate + 10;
            self.replace(rt, Limits { rate, burst });
        }
    }
}

/// Runs the control on a thread of its own, and a server here. If no thread can be made, the
/// control runs last: it waits for the server, which never waits. When both have ended, the cell
/// and its engine may go: the versions that wait in slots then need no grace period.
fn run_service<R: Abort + Threads + Wait + Sync>(
    rt: &R,
    live: &SharedEngine,
    cell: &Shared,
    mut seats: Vec<CellSeat<Limits, 2>>,
    writer: Writer<Limits, 2>,
) -> u32
    requires engine { live.now ≡ cell.now }
    requires seats { All (IsOutside live.now) seats.items }
{
    let seat = next_online(rt, live, &mut seats);
    let server = Server { live, cell, seat };
    let seat = next_seat(rt, live, &mut seats);
    let control = Control { live, writer, seat };
    let ((), answered) = thread::join(rt, move || control.work(rt), move || server.serve(rt));
    answered
}

#[test]
fn limits_are_replaced_while_requests_are_answered(rt: HostRuntime) {
    let first = Limits { rate: 1, burst: 1 };
    let Ok(opened) = Shared::open(rt.alloc(), 2, 4_000_000, 4, &first.to_words()) else {
        return;
    };
    let (seats, writer) = (opened.seats, opened.writer);
    let answered = run_service(&rt, &opened.live, &opened.cell, seats, writer);
    compare(&rt, "answered", answered, REQUESTS);
}
