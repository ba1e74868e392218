//! The barrier over callbacks: `rcu` is under the caller's lock.
ghost use Rattle.std.specs.Prelude.{◌≡◌, ◌≢◌, if◌then◌else◌};
ghost use Rattle.rcu_barrier.specs.Lists.{barrier_test_answer, visit_answer};
ghost use Rattle.rcu_state.specs.GpState as grace;
ghost use Rattle.rcu_live.specs.EngineLists.{visit_refusal};
ghost use Rattle.rcu_c.specs.Answers.{left_of, number_for, tested_number, visit_number};
ghost use Rattle.rcu_c.specs.Holding.{engine_of, grace_of, on_grace};
ghost use Rattle.rcu_c.specs.Refusals.{engine_number};
ghost use Rattle.rcu_c.specs.Staying.{BothStay};

use crate::codes::{accepted, status, write_out};
use crate::handle::Rcu;
use rcu_barrier::{BarrierState, Visit};

/// Begins a barrier.
///
/// Fault 13: one runs.
#[unsafe(no_mangle)]
pub extern "C" fn rcu_barrier_begin(rcu: &mut Rcu) -> u32
    ensures fault { result ≡ engine_number rcu.old.contents
        (if (grace_of rcu.old.contents).lists.running then 13 else 0) }
    ensures state { result ≡ 0 → rcu.new.contents ≡
        on_grace (λ g. grace.after_barrier_begin g) rcu.old.contents }
    ensures unchanged { result ≢ 0 → rcu.new.contents ≡ rcu.old.contents }
{
    let opened = accepted!(rcu.engine());
    status(opened.inner.barrier_begin())
}

/// The result of a visit, as C sees it: an `rcu_visited`, as `RCU_VISIT_MARKED`.
fn visit_in_c(visit: Visit) -> u32
    ensures { result ≡ visit_number visit }
{
    match visit {
        Visit::Marked => 0,
        Visit::Empty => 1,
        Visit::Already => 2,
    }
}

/// Has the barrier visit a processor; it has to visit each, also those offline. Writes an
/// `rcu_visited`.
///
/// Faults: 1 if there is no such processor; 14 if none runs; 16, only if it would mark.
#[unsafe(no_mangle)]
pub extern "C" fn rcu_barrier_visit(rcu: &mut Rcu, cpu: u32, did: &mut u32) -> u32
    ensures fault { tested_number result ≡ engine_number rcu.old.contents
        (number_for (visit_refusal (engine_of rcu.old.contents) cpu)) }
    ensures visit { result ≡ 0 →
        did.new ≡ visit_number (visit_answer (grace_of rcu.old.contents).lists cpu) }
    ensures state { result ≡ 0 → rcu.new.contents ≡
        on_grace (λ g. grace.after_visit g cpu) rcu.old.contents }
    ensures memory { result ≡ 16 →
        visit_answer (grace_of rcu.old.contents).lists cpu ≡ Visit.Marked }
    ensures unchanged { result ≢ 0 → BothStay rcu.old.contents rcu.new.contents did.old did.new }
{
    let opened = accepted!(rcu.engine());
    write_out(opened.inner.visit(cpu).map(visit_in_c), did)
}

/// Returns how much a barrier waits for, as C sees it.
pub(crate) fn left_in_c(found: BarrierState) -> u64
    ensures { result ≡ left_of found }
{
    match found {
        BarrierState::Done => 0,
        BarrierState::Waits(left) => left,
    }
}

/// Tests the barrier. Writes how many markers and unvisited processors are left; at 0 it is over,
/// and each callback that was queued before it began was handed out.
///
/// Handed out is not processed: what is done with a value comes before what follows this call if it
/// is done under the lock under which `rcu_run` handed the value out. Else the caller counts what
/// was processed, and waits for that too.
///
/// Fault 14: none runs.
#[unsafe(no_mangle)]
pub extern "C" fn rcu_barrier_test(rcu: &mut Rcu, left: &mut u64) -> u32
    ensures fault { result ≡ engine_number rcu.old.contents
        (if (grace_of rcu.old.contents).lists.running then 0 else 14) }
    ensures state { result ≡ 0 → rcu.new.contents ≡
        on_grace (λ g. grace.after_barrier_test g) rcu.old.contents }
    ensures left { result ≡ 0 →
        left.new ≡ left_of (barrier_test_answer (grace_of rcu.old.contents).lists) }
    ensures unchanged { result ≢ 0 → BothStay rcu.old.contents rcu.new.contents left.old left.new }
{
    let opened = accepted!(rcu.engine());
    write_out(opened.inner.barrier_test().map(left_in_c), left)
}
