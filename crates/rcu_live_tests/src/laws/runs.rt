//! The laws of callbacks, applied to a run of six calls, and to one with a barrier.
ghost use Rattle.std.specs.Prelude.{◌≡◌, ◌≤◌, ◌+◌, ℕ, Some, slice_get, true};
ghost use Rattle.atomic_table.specs.Seated.{TableId};
ghost use Rattle.rcu_seq.specs.Numbers.{Number};
ghost use Rattle.rcu_seq.specs.Seq.{has_full_period};
ghost use Rattle.rcu_cblist.specs.SegList.{take_answer};
ghost use Rattle.rcu_cblist.specs.declared.items.Queued.{Queued};
ghost use Rattle.rcu_barrier.specs.Lists.{list_of};
ghost use Rattle.rcu_barrier.specs.Runs.{times_listed};
ghost use Rattle.rcu_live.specs.Opening.{engine_at_first};
ghost use Rattle.rcu_live.specs.Runs.{engine_after, times_handed_out, turns_since};
ghost use Rattle.rcu_live_tests.specs.SmallRuns.{five_calls, six_calls, under_a_barrier};

use rcu_live::{Client, laws};

/// No callback comes out twice.
pub fn six_calls_hand_out_once<T: Drop, P: Client>()
    ensures { (known : P.Known) (table : TableId) (last : Number) (most place : ℕ) (value : T) →
        times_handed_out place (engine_at_first table 1 last most known) (six_calls value) ≤ 1 }
{
    laws::no_callback_runs_twice::<T, P>();
}

/// The callback is not lost.
pub fn six_calls_lose_nothing<T: Drop, P: Client>()
    ensures { (known : P.Known) (table : TableId) (last : Number) (most : ℕ) (value : T) →
        times_handed_out 1 (engine_at_first table 1 last most known) (six_calls value)
        + times_listed 1 (engine_after (engine_at_first table 1 last most known)
        (six_calls value)).grace.lists ≡ 1 }
{
    laws::no_callback_is_lost::<T, P>();
}

/// The callback that the sixth call hands out is not early.
pub fn six_calls_hand_out_nothing_early<T: Drop, P: Client>()
    ensures { (known : P.Known) (table : TableId) (last : Number) (most at : ℕ) (value : T)
        (handed : Queued T) →
        slice_get (take_answer (list_of (engine_after (engine_at_first table 1 last most known)
        (five_calls value)).grace.lists 0) 1) at ≡ Some handed → has_full_period
        (turns_since handed.ord (engine_at_first table 1 last most known) (five_calls value))
        ≡ true }
{
    laws::no_callback_runs_early::<T, P>();
}

/// If the barrier's test answers done, the callback before it was handed out.
pub fn a_barrier_covers_the_callback_before_it<T: Drop, P: Client>()
    ensures { (known : P.Known) (table : TableId) (last : Number) (most : ℕ) (value : T) →
        times_handed_out 1 (engine_at_first table 1 last most known) (under_a_barrier value) ≡ 1 }
{
    laws::barrier_covers_earlier_callbacks::<T, P>();
}
