//! Waiting for a barrier, if the caller is the driver: `rcu` is under the caller's lock.
ghost use Rattle.std.specs.Prelude.{◌≡◌, ◌≢◌, ◌<◌, ℕ, IfErr, IfOk, None, OnErr, OnOk, true};
ghost use Rattle.std.specs.Result.{result_err};
ghost use Rattle.rcu_barrier.specs.Lists.{barrier_test_answer, visit_answer};
ghost use Rattle.rcu_live.specs.Drive.{after_drive, drive_refusal, wants_begin};
ghost use Rattle.rcu_live.specs.Engine.{latest_words};
ghost use Rattle.rcu_live.specs.Runs.{Call, after_call, engine_after};
ghost use Rattle.rcu_c.specs.Answers.{left_of, number_for};
ghost use Rattle.rcu_c.specs.BarrierSteps.{IsCutOff, before_drive, begun, step_answer};
ghost use Rattle.rcu_c.specs.BarrierSteps.{step_refusal, tends, visits, whole_step};
ghost use Rattle.rcu_c.specs.Holding.{HoldsEngine, engine_of, on_engine};
ghost use Rattle.rcu_c.specs.Refusals.{engine_number, engine_refusal};

use crate::barriers::left_in_c;
use crate::codes::{code, write_out};
use crate::handle::Rcu;
use crate::open_engine::TreeEngine;
use rcu_barrier::Visit;
use rcu_seq::Fault;

/// A barrier begins if none runs.
fn begin_where_none(engine: &mut TreeEngine)
    ensures state { engine.new ≡ engine_after engine.old (begun engine.old) }
    ensures running { engine.new.grace.lists.running ≡ true }
    ensures cpus { engine.new.cpus ≡ engine.old.cpus }
{
    let _ = engine.barrier_begin();
}

/// The barrier visits each processor.
fn visit_each(engine: &mut TreeEngine) -> Result<(), Fault>
    requires { engine.old.grace.lists.running ≡ true }
    ensures state { OnOk result (engine.new ≡ engine_after engine.old (visits engine.old.cpus)) }
    ensures running { engine.new.grace.lists.running ≡ true }
    ensures fault { IfErr result (λ fault. fault ≡ Fault.NoMemory) }
    ensures part { OnErr result ((cpu : ℕ) × (cpu < engine.old.cpus)
        × (engine.new ≡ engine_after engine.old (visits cpu))
        × (visit_answer engine.new.grace.lists cpu ≡ Visit.Marked)) }
{
    for cpu in 0..engine.cpus() {
        engine.visit(cpu)?;
    }
    Ok(())
}

/// Tends the list of each processor.
fn tend_each(engine: &mut TreeEngine)
    ensures state { engine.new ≡ engine_after engine.old (tends engine.old.cpus) }
    ensures running { engine.new.grace.lists.running ≡ engine.old.grace.lists.running }
{
    for cpu in 0..engine.cpus() {
        let _ = engine.tend(cpu);
    }
}

/// Begins a barrier if none runs, has it visit each processor, and tends each list.
fn make_ready(engine: &mut TreeEngine) -> Result<(), Fault>
    ensures state { OnOk result (engine.new ≡ engine_after engine.old (before_drive engine.old)) }
    ensures running { OnOk result (engine.new.grace.lists.running ≡ true) }
    ensures fault { IfErr result (λ fault. fault ≡ Fault.NoMemory) }
    ensures cut_off { OnErr result (IsCutOff engine.old engine.new) }
{
    begin_where_none(engine);
    visit_each(engine)?;
    tend_each(engine);
    Ok(())
}

/// A step of driving, and then a test of the barrier. Returns how much it waits for.
fn drive_and_test(engine: &mut TreeEngine) -> Result<u64, Fault>
    requires { engine.old.grace.lists.running ≡ true }
    ensures fault { result_err result
        ≡ drive_refusal engine.old.grace (wants_begin engine.old.grace) }
    ensures state { OnOk result (engine.new ≡ after_call (after_drive engine.old
        (wants_begin engine.old.grace) (latest_words engine.new)) Call.BarrierTest) }
    ensures left { IfOk result (λ left. left ≡ left_of (barrier_test_answer (after_drive engine.old
        (wants_begin engine.old.grace) (latest_words engine.new)).grace.lists)) }
    ensures unchanged { OnErr result (engine.new ≡ engine.old) }
{
    engine.drive()?;
    Ok(left_in_c(engine.barrier_test()?))
}

/// One step of waiting for a barrier, for the driver: it begins a barrier if none runs, visits each
/// processor, tends each list, and takes a step of driving, as `rcu_drive`. Then it tests the
/// barrier, and writes how many markers and unvisited processors are left. At 0 it is over, and
/// each callback that was queued before it began was handed out. It costs some steps a processor.
///
/// If a barrier runs already it joins that one, which covers nothing that was queued since that
/// began. So if others may wait, or a wait gave up, call `rcu_barrier_begin` first; if it is
/// refused (13) wait until the one that runs is over, and begin again.
///
/// Call it until it writes 0 or returns a fault. In between hand out by `rcu_run` of each
/// processor, and let other threads run. It orders what `rcu_drive` orders.
///
/// Faults: 16 if a list has no room for a marker; 11 if a grace period would begin, and the number
/// is the last one. After either fault the barrier keeps its progress, and the same call continues
/// it.
///
/// Fence: behind.
#[unsafe(no_mangle)]
pub extern "C" fn rcu_barrier_wait_unfenced(rcu: &mut Rcu, left: &mut u64) -> u32
    ensures open { HoldsEngine rcu.old.contents → HoldsEngine rcu.new.contents }
    ensures fault { result ≢ 16 → result ≡
        engine_number rcu.old.contents (number_for (step_refusal (engine_of rcu.old.contents))) }
    ensures state { result ≡ 0 → rcu.new.contents ≡ on_engine (λ e. engine_after e
        (whole_step e (latest_words (engine_of rcu.new.contents)))) rcu.old.contents }
    ensures left { result ≡ 0 → left.new ≡ left_of (step_answer (engine_of rcu.old.contents)
        (latest_words (engine_of rcu.new.contents))) }
    ensures exhausted { result ≡ 11 → rcu.new.contents ≡
        on_engine (λ e. engine_after e (before_drive e)) rcu.old.contents }
    ensures memory { result ≡ 16 →
        IsCutOff (engine_of rcu.old.contents) (engine_of rcu.new.contents) }
    ensures rest { result ≡ 16 → rcu.new.contents ≡
        on_engine (λ _. engine_of rcu.new.contents) rcu.old.contents }
    ensures not_taken { engine_refusal rcu.old.contents ≢ None →
        rcu.new.contents ≡ rcu.old.contents }
    ensures unwritten { result ≢ 0 → left.new ≡ left.old }
{
    let engine = match rcu.engine() {
        Ok(opened) => &mut opened.inner,
        Err(refusal) => return refusal.number(),
    };
    if let Err(fault) = make_ready(engine) {
        return code(fault);
    }
    write_out(drive_and_test(engine), left)
}
