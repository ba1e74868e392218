//! Six calls of the engine that threads share, with the laws of `rcu_live`.
ghost use Rattle.std.specs.Prelude.{◌≡◌, ◌<◌, ◌≤◌, ℕ, OnOk};
ghost use Rattle.rcu_live.specs.Runs.{IsNew, times_handed_out};
ghost use Rattle.rcu_live_tests.specs.Led.{AreLed, calls_made};

use rcu_live::{Engine, NoClient, Ran, laws};
use rcu_node::Tree;
use rcu_seq::Fault;

/// Has a new engine make six calls, by which a callback is queued and handed out. By the law each
/// callback was handed out at most once.
///
/// Faults: those of the calls.
pub fn make_six_calls(engine: &mut Engine<Tree<4, 4>, u64>, value: u64) -> Result<Ran<u64>, Fault>
    requires new { IsNew engine.old }
    requires some { 0 < engine.old.cpus }
    ensures led { OnOk result (AreLed engine.old value engine.new) }
    ensures once { OnOk result ((led : AreLed engine.old value engine.new) (place : ℕ) →
        times_handed_out place engine.old (calls_made led.word value) ≤ 1) }
{
    laws::no_callback_runs_twice::<u64, NoClient>();
    engine.queue(0, value).map_err(|refused| refused.fault)?;
    engine.tend(0)?;
    engine.begin()?;
    engine.end()?;
    engine.tend(0)?;
    engine.run(0, 1)
}
