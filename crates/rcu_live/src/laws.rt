//! Laws of meetings and cookies, of the rule of sections and cookies, of waits that sleep, and of
//! every run of the engine, whichever threads make its calls.
ghost use Rattle.std.specs.Prelude.{◌≡◌, ◌≢◌, ◌<◌, ◌≤◌, ◌+◌, ◌∷◌, ℕ, List, Some, slice_get};
ghost use Rattle.std.specs.Prelude.{slice_index, true, false};
ghost use mathlib.Core.Option.{some};
ghost use lib.ListN.{get_elem?};
ghost use Rattle.atomic_table.specs.Table.{State};
ghost use Rattle.rcu_seq.specs.Tags.{cookie_at, is_done_first, of_first_epoch};
ghost use Rattle.rcu_seq.specs.Seq.{has_full_period, number_of, tag_of};
ghost use Rattle.rcu_node.specs.CpuSet.{is_in};
ghost use Rattle.rcu_cblist.specs.SegList.{take_answer};
ghost use Rattle.rcu_cblist.specs.declared.items.Queued.{Queued};
ghost use Rattle.rcu_barrier.specs.Lists.{barrier_test_answer, list_of};
ghost use Rattle.rcu_barrier.specs.Runs.{times_listed};
ghost use Rattle.rcu_barrier.specs.declared.lists.BarrierState.{BarrierState};
ghost use Rattle.rcu_state.specs.GpState.{Grace, HasWaited};
ghost use Rattle.rcu_live.specs.Asking.{IsLastAsking, IsMoment, asked_at};
ghost use Rattle.rcu_live.specs.Engine.{AwaitsTheOthers, Locked};
ghost use Rattle.rcu_live.specs.Met.{MeetsSection};
ghost use Rattle.rcu_live.specs.Rule.{IsKept};
ghost use Rattle.rcu_live.specs.Runs.{Call, IsNew, IsRun, engine_after, queued_as};
ghost use Rattle.rcu_live.specs.Runs.{queued_before_barrier, times_handed_out, turns_since};
ghost use Rattle.rcu_live.specs.View.{IsOfEngine};
ghost use Rattle.rcu_live.specs.declared.meeting.Met.{Met};
ghost use Rattle.rcu_live.specs.Words.{own_word_index};
ghost use Rattle.rcu_live.specs.declared.view.Role.TheVariants.{Cpu};
ghost use Rattle.rcu_live.specs.declared.view.View.{View};

use crate::client::Client;
use rcu_barrier::run_laws;

/// A watcher meets an open section, and takes a cookie. While it meets the same section again, the
/// cookie is not done at any number that it saw up to then.
pub fn cookies_wait_for_the_section_met()
    ensures { (first later : Met) (at taken polled : ℕ) → MeetsSection first at →
        first.seen ≤ taken → MeetsSection later at → polled ≤ later.seen →
        is_done_first (cookie_at (of_first_epoch taken)) polled ≡ false }
{}

/// A watcher meets an open section. A cookie that had tested done for it by then was not taken at
/// the number at which the section began, or at a later one.
pub fn done_cookies_are_older_than_the_section_met()
    ensures { (met : Met) (at taken polled : ℕ) → MeetsSection met at → at ≤ taken →
        polled ≤ met.seen → is_done_first (cookie_at (of_first_epoch taken)) polled ≡ false }
{}

/// If the rule holds for the words and all views, and the engine, whose seat has one of these
/// views, awaits every processor that is not cleared, then a running grace period awaits the
/// processor of each section that is open and began before it.
pub fn old_sections_are_awaited<T: Drop, P: Client>()
    ensures { (plan : P.Plan) (cpus : ℕ) (s : State (Unit {0}) (View P.Known)) (i j : ℕ)
        (engine seat : View P.Known) (g : Grace T) (at : ℕ) → IsKept (P.holds plan) cpus s →
        get_elem? s.views i ≡ some engine → IsOfEngine engine →
        engine.seen ≡ number_of g.seq → AwaitsTheOthers cpus engine.own_word_loads g →
        g.seq.running ≡ true → get_elem? s.views j ≡ some seat → seat.role ≡ Cpu →
        seat.section ≡ Some at → at < engine.seen →
        is_in g.processors.awaited seat.cpu ≡ true }
{}

/// A section is open when a cookie is taken, and one with the same beginning when the cookie is
/// polled. The rule holds for the words and all views at both moments, as at each. Then the poll
/// does not return done: if a cookie tests done, each section that was open when it was taken has
/// ended.
pub fn readers_finish_before_done<P: Client>()
    ensures { (plan : P.Plan) (cpus : ℕ) (before after : State (Unit {0}) (View P.Known)) (i j : ℕ)
        (first later : View P.Known) (at : ℕ) → IsKept (P.holds plan) cpus before →
        IsKept (P.holds plan) cpus after → get_elem? before.views i ≡ some first →
        first.role ≡ Cpu → first.section ≡ Some at → get_elem? after.views j ≡ some later →
        later.role ≡ Cpu → later.section ≡ Some at →
        is_done_first (cookie_at (of_first_epoch (slice_index before.words 0)))
        (slice_index after.words 0) ≡ false }
{}

/// No callback runs twice: each is handed out at most once.
pub fn no_callback_runs_twice<T: Drop, P: Client>()
    ensures { (first : Locked P.Known T) (calls : List (Call T)) (ord : ℕ) → IsNew first →
        IsRun first calls → times_handed_out ord first calls ≤ 1 }
{
    run_laws::no_callback_runs_twice::<T>();
}

/// No callback is lost: each queued callback was handed out once, or is in one list once.
pub fn no_callback_is_lost<T: Drop, P: Client>()
    ensures { (first : Locked P.Known T) (calls : List (Call T)) (ord : ℕ) → IsNew first →
        IsRun first calls → 0 < ord →
        ord ≤ (engine_after first calls).grace.lists.queued →
        times_handed_out ord first calls
        + times_listed ord (engine_after first calls).grace.lists ≡ 1 }
{
    run_laws::no_callback_is_lost::<T>();
}

/// A barrier covers earlier callbacks: when its test returns done, each callback that was queued
/// before it began has been handed out.
pub fn barrier_covers_earlier_callbacks<T: Drop, P: Client>()
    ensures { (first : Locked P.Known T) (calls : List (Call T)) (ord : ℕ) → IsNew first →
        IsRun first (Call.BarrierTest ∷ calls) →
        barrier_test_answer (engine_after first calls).grace.lists ≡ BarrierState.Done →
        0 < ord → ord ≤ queued_before_barrier first calls →
        times_handed_out ord first calls ≡ 1 }
{
    run_laws::barrier_covers_earlier_callbacks::<T>();
}

/// No callback runs early: each callback that is handed out is as it was queued, and a full grace
/// period began and ended since. The number has reached the snapshot of the number at which it was
/// queued.
pub fn no_callback_runs_early<T: Drop, P: Client>()
    ensures queued { (first : Locked P.Known T) (calls : List (Call T)) (cpu most at : ℕ)
        (handed : Queued T) → IsNew first → IsRun first calls →
        slice_get (take_answer (list_of (engine_after first calls).grace.lists cpu) most) at
        ≡ Some handed → queued_as handed.ord first calls ≡ Some handed }
    ensures waited { (first : Locked P.Known T) (calls : List (Call T)) (cpu most at : ℕ)
        (handed : Queued T) → IsNew first → IsRun first calls →
        slice_get (take_answer (list_of (engine_after first calls).grace.lists cpu) most) at
        ≡ Some handed → HasWaited (tag_of (engine_after first calls).grace.seq) handed.at }
    ensures period { (first : Locked P.Known T) (calls : List (Call T)) (cpu most at : ℕ)
        (handed : Queued T) → IsNew first → IsRun first calls →
        slice_get (take_answer (list_of (engine_after first calls).grace.lists cpu) most) at
        ≡ Some handed → has_full_period (turns_since handed.ord first calls) ≡ true }
{
    run_laws::handed_callbacks_were_queued::<T>();
}

/// No quiescent state is slept through. Take the processor that was asked last to wake the sleeping
/// thread. Its own word is always the one that its seat stored last, so the collection after the
/// asking finds every store before the asking. If the seat has stored since, and has answered after
/// its latest store, as after each report by a `Live`, no processor is asked any more: the asking
/// was taken back. A thread that takes an asking back wakes all.
pub fn no_quiescent_state_is_slept_through<P: Client>()
    ensures before { (plan : P.Plan) (cpus : ℕ) (s : State (Unit {0}) (View P.Known)) (k : ℕ)
        (seat : View P.Known) → IsMoment (P.holds plan) cpus s →
        get_elem? s.views k ≡ some seat → seat.role ≡ Cpu →
        slice_index s.words (own_word_index seat.cpu) ≡ seat.own_word }
    ensures behind { (plan : P.Plan) (cpus : ℕ) (s : State (Unit {0}) (View P.Known)) (i k : ℕ)
        (asking seat : View P.Known) → IsMoment (P.holds plan) cpus s →
        IsLastAsking s.views i asking → get_elem? s.views k ≡ some seat → seat.role ≡ Cpu →
        asking.cpu ≡ seat.cpu → asking.stores ≢ seat.stores → seat.answered ≡ true →
        asked_at s ≡ 0 }
{}
