//! The laws of callbacks for C, applied to a run of six calls on an engine as it is opened: a value
//! is queued and tended, a grace period begins, which finds the processor idle, and ends, and the
//! value is tended and handed out. And the laws of progress, applied to a value that is queued
//! while a grace period runs.
ghost use Rattle.std.specs.Prelude.{◌≡◌, ◌≤◌, ◌+◌, ◌∷◌, [], ℕ, Some, slice_get, true};
ghost use Rattle.atomic_table.specs.Seated.{TableId};
ghost use Rattle.rcu_seq.specs.Seq.{has_full_period};
ghost use Rattle.rcu_cblist.specs.SegList.{behind, callbacks, take_answer};
ghost use Rattle.rcu_cblist.specs.declared.items.Queued.{Queued};
ghost use Rattle.rcu_barrier.specs.Lists.{list_of};
ghost use Rattle.rcu_barrier.specs.Runs.{copies, times_listed};
ghost use Rattle.rcu_live.specs.Engine.{Locked};
ghost use Rattle.rcu_live.specs.Numbers.{idle_word};
ghost use Rattle.rcu_live.specs.Runs.{Call, engine_after, times_handed_out, turns_since};
ghost use Rattle.rcu_graph.specs.declared.known.Planned.{Planned};
ghost use Rattle.rcu_graph.specs.declared.plan.Plan.{Plan};
ghost use Rattle.rcu_c.specs.Answers.{left_of};
ghost use Rattle.rcu_c.specs.BarrierSteps.{step_answer, whole_step};
ghost use Rattle.rcu_c.specs.Engines.{opened_at_first};
ghost use Rattle.rcu_c.specs.Progress.{runs};
ghost use Rattle.rcu_c.specs.declared.identity.Identity.{Identity};

use crate::{definition_laws, laws, progress};

/// No value comes out twice.
pub fn six_calls_hand_out_once()
    ensures { (identity : Identity) (table requests : TableId) (plan : Plan)
        (last value place : ℕ) →
        times_handed_out place (opened_at_first identity table requests plan 1 last).engine
        (Call.Run 0 1 ∷ Call.Tend 0 ∷ Call.End ∷ Call.Begin (λ _. idle_word) ∷ Call.Tend 0
        ∷ Call.Queue 0 value ∷ []) ≤ 1 }
{
    laws::no_callback_runs_twice();
}

/// The value is not lost.
pub fn six_calls_lose_nothing()
    ensures { (identity : Identity) (table requests : TableId) (plan : Plan) (last value : ℕ) →
        times_handed_out 1 (opened_at_first identity table requests plan 1 last).engine
        (Call.Run 0 1 ∷ Call.Tend 0 ∷ Call.End ∷ Call.Begin (λ _. idle_word) ∷ Call.Tend 0
        ∷ Call.Queue 0 value ∷ []) + times_listed 1
        (engine_after (opened_at_first identity table requests plan 1 last).engine
        (Call.Run 0 1 ∷ Call.Tend 0 ∷ Call.End ∷ Call.Begin (λ _. idle_word) ∷ Call.Tend 0
        ∷ Call.Queue 0 value ∷ [])).grace.lists ≡ 1 }
{
    laws::no_callback_is_lost();
}

/// The value that the sixth call hands out is not early.
pub fn six_calls_hand_out_nothing_early()
    ensures { (identity : Identity) (table requests : TableId) (plan : Plan) (last value at : ℕ)
        (handed : Queued ℕ) → slice_get (take_answer (list_of
        (engine_after (opened_at_first identity table requests plan 1 last).engine
        (Call.Tend 0 ∷ Call.End ∷ Call.Begin (λ _. idle_word) ∷ Call.Tend 0 ∷ Call.Queue 0 value
        ∷ [])).grace.lists 0) 1) at ≡ Some handed → has_full_period (turns_since handed.ord
        (opened_at_first identity table requests plan 1 last).engine (Call.Tend 0 ∷ Call.End
        ∷ Call.Begin (λ _. idle_word) ∷ Call.Tend 0 ∷ Call.Queue 0 value ∷ [])) ≡ true }
{
    laws::no_callback_runs_early();
}

/// A barrier that began behind the value, and whose test says done, covers it.
pub fn a_barrier_covers_the_value_before_it()
    ensures { (identity : Identity) (table requests : TableId) (plan : Plan) (last value : ℕ) →
        times_handed_out 1 (opened_at_first identity table requests plan 1 last).engine
        (Call.Run 0 1 ∷ Call.Tend 0 ∷ Call.Drive true (λ _. idle_word) ∷ Call.Tend 0
        ∷ Call.Visit 0 ∷ Call.BarrierBegin ∷ Call.Queue 0 value ∷ []) ≡ 1 }
{
    laws::barrier_covers_earlier_callbacks();
}

/// The grace period that ran when the value was queued does not finish it: a tend after its end,
/// which one step of driving made, leaves it waiting.
pub fn one_grace_period_may_not_be_enough()
    ensures { (identity : Identity) (table requests : TableId) (plan : Plan) (last value : ℕ) →
        copies 1 (callbacks (behind (list_of
        (engine_after (opened_at_first identity table requests plan 1 last).engine (Call.Tend 0
        ∷ Call.Drive true (λ _. idle_word) ∷ Call.Tend 0 ∷ Call.Queue 0 value
        ∷ Call.Begin (λ _. 1) ∷ [])).grace.lists 0))) ≡ 1 }
{}

/// A third step of waiting still waits for the marker behind the value, though each step of driving
/// found the processor idle.
pub fn three_waits_may_not_be_enough()
    ensures { (identity : Identity) (table requests : TableId) (plan : Plan) (last value : ℕ)
        (e second third : Locked Planned ℕ) →
        e ≡ engine_after (opened_at_first identity table requests plan 1 last).engine
        (Call.Queue 0 value ∷ Call.Begin (λ _. 1) ∷ []) →
        second ≡ engine_after e (whole_step e (λ _. idle_word)) →
        third ≡ engine_after second (whole_step second (λ _. idle_word)) →
        left_of (step_answer third (λ _. idle_word)) ≡ 1 }
{}

/// Once the value was handed out a fourth one writes 0.
pub fn a_fourth_wait_is_enough()
    ensures { (identity : Identity) (table requests : TableId) (plan : Plan) (last value : ℕ)
        (e second third rest : Locked Planned ℕ) →
        e ≡ engine_after (opened_at_first identity table requests plan 1 last).engine
        (Call.Queue 0 value ∷ Call.Begin (λ _. 1) ∷ []) →
        second ≡ engine_after e (whole_step e (λ _. idle_word)) →
        third ≡ engine_after second (whole_step second (λ _. idle_word)) →
        rest ≡ engine_after third (whole_step third (λ _. idle_word)) →
        left_of (step_answer (engine_after rest (runs (λ _. 1) 1)) (λ _. idle_word)) ≡ 0 }
{
    progress::the_fourth_wait_for_a_barrier_writes_0();
    definition_laws::a_wait_leads_on_while_its_barrier_runs();
}
