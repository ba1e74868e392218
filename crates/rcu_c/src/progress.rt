//! No handle is stuck: how a grace period, a callback and a barrier end, by calls of C on one
//! engine's handle. These laws do not say which threads make the calls, or when.
ghost use Rattle.std.specs.Prelude.{◌≡◌, ◌<◌, ◌≤◌, ◌+◌, ◌^◌, ◌∷◌, [], ◌++◌, ℕ, List, Option};
ghost use Rattle.std.specs.Prelude.{false, length, slice_index, true};
ghost use Rattle.std.specs.List.{list_any};
ghost use lib.ListN.{get_elem?};
ghost use mathlib.Core.Option.{some};
ghost use Rattle.rcu_seq.specs.Numbers.{Number, snapshot};
ghost use Rattle.rcu_seq.specs.Seq.{number_of};
ghost use Rattle.rcu_seq.specs.Tags.{is_done_first};
ghost use Rattle.rcu_node.specs.CpuSet.{is_in};
ghost use Rattle.rcu_cblist.specs.SegList.{behind, callbacks, front, take_answer};
ghost use Rattle.rcu_barrier.specs.Lists.{barrier_test_answer, is_visited, list_of};
ghost use Rattle.rcu_barrier.specs.Runs.{copies};
ghost use Rattle.rcu_state.specs.GpState as grace;
ghost use Rattle.rcu_state.specs.GpState.{awaited_in};
ghost use Rattle.rcu_live.specs.CpuSeat.{after_depart, after_enter, after_exit, after_idle};
ghost use Rattle.rcu_live.specs.CpuSeat.{after_quiesce, after_quiesce_since, after_unpin};
ghost use Rattle.rcu_live.specs.Drive.{after_drive, drive_answer, drive_refusal, wants_begin};
ghost use Rattle.rcu_live.specs.Engine.{Locked};
ghost use Rattle.rcu_live.specs.Numbers.{reports_quiescence};
ghost use Rattle.rcu_live.specs.Progress.{IsQuietAt, LoadsAt, begins_barrier, leaves};
ghost use Rattle.rcu_live.specs.Runs.{Call, IsNew, IsRun, engine_after, times_handed_out};
ghost use Rattle.rcu_live.specs.Words.{own_word_index};
ghost use Rattle.rcu_live.specs.declared.view.Role.TheVariants.{Cpu};
ghost use Rattle.rcu_graph.specs.declared.known.Planned.{Planned};
ghost use Rattle.rcu_c.specs.Answers.{cookie_in_c, left_of, number_for, turn_of};
ghost use Rattle.rcu_c.specs.BarrierSteps.{step_answer};
ghost use Rattle.rcu_c.specs.Belonging.{IsEngineAt, IsMapKept, Moment};
ghost use Rattle.rcu_c.specs.Holding.{AcceptedAt, RenewedAt, cpu_of, engine_of, grace_of, on_cpu};
ghost use Rattle.rcu_c.specs.Holding.{on_engine};
ghost use Rattle.rcu_c.specs.Progress.{AreQuiet, HandedOut, Waited};
ghost use Rattle.rcu_c.specs.Refusals.{engine_number};
ghost use Rattle.rcu_c.specs.Seats.{closing};
ghost use Rattle.rcu_c.specs.declared.contents.Contents.{Contents};

use crate::open_engine::Rule;
use rcu_live::progress;
use rcu_live::progress::{
    two_grace_periods_reach_the_snapshot, two_tends_and_a_grace_period_finish_callbacks,
};

/// `rcu_drive` ends a running grace period if the own word of each awaited processor, as the call
/// finds it, says that it is quiescent. The call is accepted, and writes that it ended one, and the
/// number. Then no processor is awaited. The number is the one that the running grace period ends
/// at, and a cookie that waited for it is done.
pub fn a_drive_ends_a_quiet_grace_period()
    ensures accepted { (rcu : Option Contents) → (grace_of rcu).seq.running ≡ true →
        engine_number rcu
        (number_for (drive_refusal (grace_of rcu) (wants_begin (grace_of rcu)))) ≡ 0 }
    ensures ended { (rcu now : Option Contents) (word : ℕ → ℕ) →
        now ≡ on_engine (λ e. after_drive e (wants_begin e.grace) word) rcu →
        (grace_of rcu).seq.running ≡ true →
        ((cpu : ℕ) → is_in (grace_of rcu).processors.awaited cpu ≡ true →
        reports_quiescence (number_of (grace_of rcu).seq) (word cpu) ≡ true) →
        (grace_of now).seq
        ≡ record (grace_of rcu).seq { ends = (grace_of rcu).seq.ends + 1; running = false } }
    ensures nobody { (rcu now : Option Contents) (word : ℕ → ℕ) →
        now ≡ on_engine (λ e. after_drive e (wants_begin e.grace) word) rcu →
        (grace_of rcu).seq.running ≡ true →
        ((cpu : ℕ) → is_in (grace_of rcu).processors.awaited cpu ≡ true →
        reports_quiescence (number_of (grace_of rcu).seq) (word cpu) ≡ true) →
        awaited_in (grace_of now) ≡ 0 }
    ensures turn { (rcu now : Option Contents) (word : ℕ → ℕ) →
        now ≡ on_engine (λ e. after_drive e (wants_begin e.grace) word) rcu →
        (grace_of rcu).seq.running ≡ true →
        ((cpu : ℕ) → is_in (grace_of rcu).processors.awaited cpu ≡ true →
        reports_quiescence (number_of (grace_of rcu).seq) (word cpu) ≡ true) →
        turn_of (drive_answer (engine_of rcu) (wants_begin (grace_of rcu)) word)
        ≡ record { what = 2; awaited = 0; number = number_of (grace_of now).seq } }
    ensures number { (rcu now : Option Contents) (word : ℕ → ℕ) →
        now ≡ on_engine (λ e. after_drive e (wants_begin e.grace) word) rcu →
        (grace_of rcu).seq.running ≡ true →
        ((cpu : ℕ) → is_in (grace_of rcu).processors.awaited cpu ≡ true →
        reports_quiescence (number_of (grace_of rcu).seq) (word cpu) ≡ true) →
        number_of (grace_of now).seq ≡ number_of (grace_of rcu).seq + 3 }
    ensures done { (rcu now : Option Contents) (word : ℕ → ℕ) (cookie : ℕ) →
        now ≡ on_engine (λ e. after_drive e (wants_begin e.grace) word) rcu →
        (grace_of rcu).seq.running ≡ true →
        ((cpu : ℕ) → is_in (grace_of rcu).processors.awaited cpu ≡ true →
        reports_quiescence (number_of (grace_of rcu).seq) (word cpu) ≡ true) →
        cookie ≤ number_of (grace_of rcu).seq + 3 →
        is_done_first (cookie_in_c cookie) (number_of (grace_of now).seq) ≡ true }
{}

/// Each seat can make its own word report a quiescent state: by a quiescent state or a renewal at
/// the running number or a later one, and by going idle, an outermost unpin or a departure. The
/// sections that it opens and closes afterwards do not change its word.
pub fn a_seat_can_tell_of_itself()
    ensures quiescent { (seat now : Option Contents) (running n : Number) → running ≤ n →
        AcceptedAt after_quiesce seat n now →
        reports_quiescence running (cpu_of now).view.own_word ≡ true }
    ensures since { (seat now : Option Contents) (running n : Number) → running ≤ n →
        AcceptedAt after_quiesce_since seat n now →
        reports_quiescence running (cpu_of now).view.own_word ≡ true }
    ensures renewed { (seat now : Option Contents) (running n : Number) → running ≤ n →
        RenewedAt seat n now → reports_quiescence running (cpu_of now).view.own_word ≡ true }
    ensures idle { (seat : Option Contents) (running : Number) → running ≤ 2 ^ 62 →
        reports_quiescence running (cpu_of (on_cpu after_idle seat)).view.own_word ≡ true }
    ensures unpinned { (seat now : Option Contents) (running n : Number) → running ≤ 2 ^ 62 →
        (cpu_of seat).depth ≡ 1 → AcceptedAt (after_unpin closing) seat n now →
        reports_quiescence running (cpu_of now).view.own_word ≡ true }
    ensures gone { (seat : Option Contents) (running : Number) →
        reports_quiescence running (cpu_of (on_cpu after_depart seat)).view.own_word ≡ true }
    ensures entered { (seat now : Option Contents) (n : Number) →
        AcceptedAt after_enter seat n now →
        (cpu_of now).view.own_word ≡ (cpu_of seat).view.own_word }
    ensures left { (seat now : Option Contents) (n : Number) →
        AcceptedAt (after_exit closing) seat n now →
        (cpu_of now).view.own_word ≡ (cpu_of seat).view.own_word }
{}

/// The own word of a processor in the table is the one that its seat stored: a load at that moment
/// finds it.
pub fn a_word_is_the_one_that_the_seat_stored()
    ensures { (now : Moment) (i j : ℕ) (rcu seat : Option Contents) → IsEngineAt now i rcu →
        get_elem? now.views j ≡ some (cpu_of seat).view → (cpu_of seat).view.role ≡ Cpu →
        slice_index now.words (own_word_index (cpu_of seat).view.cpu)
        ≡ (cpu_of seat).view.own_word }
{}

/// `rcu_drive` ends a running grace period if each awaited processor is quiet at the moment at
/// which the call loads its own word: it departed, is idle, or passed a quiescent state at the
/// running number or a later one. The call writes that it ended one. A processor that is awaited
/// after it was not quiet at that moment.
pub fn quiet_processors_end_a_grace_period()
    ensures ended { (rcu now : Option Contents) (word : ℕ → ℕ) (at : ℕ → Moment) →
        now ≡ on_engine (λ e. after_drive e (wants_begin e.grace) word) rcu →
        (grace_of rcu).seq.running ≡ true →
        ((cpu : ℕ) → is_in (grace_of rcu).processors.awaited cpu ≡ true →
        LoadsAt (IsMapKept (engine_of rcu).view.client.plan) (engine_of rcu).cpus (at cpu)
        (number_of (grace_of rcu).seq) cpu (word cpu)) →
        ((cpu : ℕ) → is_in (grace_of rcu).processors.awaited cpu ≡ true →
        IsQuietAt (at cpu) (number_of (grace_of rcu).seq) cpu) →
        (grace_of now).seq
        ≡ record (grace_of rcu).seq { ends = (grace_of rcu).seq.ends + 1; running = false } }
    ensures turn { (rcu now : Option Contents) (word : ℕ → ℕ) (at : ℕ → Moment) →
        now ≡ on_engine (λ e. after_drive e (wants_begin e.grace) word) rcu →
        (grace_of rcu).seq.running ≡ true →
        ((cpu : ℕ) → is_in (grace_of rcu).processors.awaited cpu ≡ true →
        LoadsAt (IsMapKept (engine_of rcu).view.client.plan) (engine_of rcu).cpus (at cpu)
        (number_of (grace_of rcu).seq) cpu (word cpu)) →
        ((cpu : ℕ) → is_in (grace_of rcu).processors.awaited cpu ≡ true →
        IsQuietAt (at cpu) (number_of (grace_of rcu).seq) cpu) →
        turn_of (drive_answer (engine_of rcu) (wants_begin (grace_of rcu)) word)
        ≡ record { what = 2; awaited = 0; number = number_of (grace_of now).seq } }
    ensures held_up { (rcu now : Option Contents) (word : ℕ → ℕ) (at : Moment) (cpu : ℕ) →
        now ≡ on_engine (λ e. after_drive e (wants_begin e.grace) word) rcu →
        (grace_of rcu).seq.running ≡ true →
        LoadsAt (IsMapKept (engine_of rcu).view.client.plan) (engine_of rcu).cpus at
        (number_of (grace_of rcu).seq) cpu (word cpu) →
        is_in (grace_of now).processors.awaited cpu ≡ true →
        IsQuietAt at (number_of (grace_of rcu).seq) cpu → ⊥ }
{}

/// Each `rcu_drive` that wrote that it ended a grace period added one to those that have ended, and
/// no call takes one back.
pub fn ended_grace_periods_are_counted()
    ensures counted { (rcu now : Option Contents) (word : ℕ → ℕ) →
        now ≡ on_engine (λ e. after_drive e (wants_begin e.grace) word) rcu →
        (turn_of (drive_answer (engine_of rcu) (wants_begin (grace_of rcu)) word)).what ≡ 2 →
        (grace_of now).seq.ends ≡ (grace_of rcu).seq.ends + 1 }
    ensures kept { (e : Locked Planned ℕ) (calls : List (Call ℕ)) → IsRun e calls →
        e.grace.seq.ends ≤ (engine_after e calls).grace.seq.ends }
{}

/// Two `rcu_tend` with two ended grace periods between them finish each callback that was in the
/// list: none of them waits after the second, and an `rcu_run` with room for all that are done
/// hands each out. Other calls may come between, except that the processor departs.
pub fn two_tends_and_two_grace_periods_finish_callbacks()
    ensures done { (first : Locked Planned ℕ) (later earlier : List (Call ℕ)) (cpu place : ℕ) →
        IsNew first → IsRun first (Call.Tend cpu ∷ later ++ Call.Tend cpu ∷ earlier) →
        (engine_after first earlier).grace.seq.ends + 2
        ≤ (engine_after first (later ++ Call.Tend cpu ∷ earlier)).grace.seq.ends →
        list_any (leaves cpu) later ≡ false → 0 < place →
        place ≤ (engine_after first earlier).grace.lists.queued →
        copies place (callbacks (list_of (engine_after first earlier).grace.lists cpu)) ≡ 1 →
        copies place (callbacks (behind (list_of (engine_after first
        (Call.Tend cpu ∷ later ++ Call.Tend cpu ∷ earlier)).grace.lists cpu))) ≡ 0 }
    ensures handed_out { (first : Locked Planned ℕ) (later earlier : List (Call ℕ))
        (cpu place room : ℕ) → IsNew first →
        IsRun first (Call.Run cpu room ∷ Call.Tend cpu ∷ later ++ Call.Tend cpu ∷ earlier) →
        (engine_after first earlier).grace.seq.ends + 2
        ≤ (engine_after first (later ++ Call.Tend cpu ∷ earlier)).grace.seq.ends →
        list_any (leaves cpu) later ≡ false → 0 < place →
        place ≤ (engine_after first earlier).grace.lists.queued →
        copies place (callbacks (list_of (engine_after first earlier).grace.lists cpu)) ≡ 1 →
        length (callbacks (front (list_of (engine_after first
        (Call.Tend cpu ∷ later ++ Call.Tend cpu ∷ earlier)).grace.lists cpu))) ≤ room →
        times_handed_out place first
        (Call.Run cpu room ∷ Call.Tend cpu ∷ later ++ Call.Tend cpu ∷ earlier) ≡ 1 }
{
    two_grace_periods_reach_the_snapshot::<u64, Rule>();
    two_tends_and_a_grace_period_finish_callbacks::<u64, Rule>();
}

/// `rcu_tend`, `rcu_drive` twice and `rcu_tend` finish a list, if the words that the two steps of
/// driving find say that each processor is quiescent: the second `rcu_tend` writes that none waits,
/// and an `rcu_run` with room for as many as are done hands all out.
pub fn four_calls_finish_a_list()
    ensures waiting { (first e driven now : Locked Planned ℕ) (calls : List (Call ℕ)) (cpu : ℕ)
        (word later : ℕ → ℕ) → IsNew first → IsRun first calls →
        cpu < (engine_after first calls).cpus →
        e ≡ engine_after first (Call.Tend cpu ∷ calls) → AreQuiet e word →
        driven ≡ after_drive e (wants_begin e.grace) word → AreQuiet driven later →
        now ≡ after_drive driven (wants_begin driven.grace) later →
        behind (list_of (grace.after_tend now.grace cpu).lists cpu) ≡ [] }
    ensures handed_out { (first e driven now : Locked Planned ℕ) (calls : List (Call ℕ))
        (cpu room : ℕ) (word later : ℕ → ℕ) → IsNew first → IsRun first calls →
        cpu < (engine_after first calls).cpus →
        e ≡ engine_after first (Call.Tend cpu ∷ calls) → AreQuiet e word →
        driven ≡ after_drive e (wants_begin e.grace) word → AreQuiet driven later →
        now ≡ after_drive driven (wants_begin driven.grace) later →
        length (callbacks (front (list_of (grace.after_tend now.grace cpu).lists cpu))) ≤ room →
        take_answer (list_of (grace.after_tend now.grace cpu).lists cpu) room
        ≡ callbacks (list_of (grace.after_tend now.grace cpu).lists cpu) }
{}

/// `rcu_barrier_test` writes 0 once the barrier has visited each processor and each callback queued
/// before that has been handed out. Other calls may come between, departures too.
pub fn handed_out_callbacks_finish_a_barrier()
    ensures { (first : Locked Planned ℕ) (later visited : List (Call ℕ)) → IsNew first →
        IsRun first (Call.BarrierTest ∷ later ++ visited) →
        ((cpu : ℕ) → cpu < (engine_after first visited).cpus →
        is_visited (engine_after first visited).grace.lists cpu ≡ true) →
        list_any begins_barrier later ≡ false →
        ((place : ℕ) → 0 < place → place ≤ (engine_after first visited).grace.lists.queued →
        times_handed_out place first (later ++ visited) ≡ 1) →
        left_of (barrier_test_answer (engine_after first (later ++ visited)).grace.lists) ≡ 0 }
{
    progress::handed_out_callbacks_finish_a_barrier::<u64, Rule>();
}

/// `rcu_barrier_wait` writes 0 by its fourth call, if the words that the first two calls find say
/// that each processor is quiescent, and all that is done after the third call is handed out before
/// the fourth. Other calls may come between, except a departure and another barrier's begin.
pub fn the_fourth_wait_for_a_barrier_writes_0()
    ensures { (first e second third rest fourth : Locked Planned ℕ) (calls : List (Call ℕ))
        (w1 w2 w3 w4 : ℕ → ℕ) → IsNew first → IsRun first calls → e ≡ engine_after first calls →
        AreQuiet e w1 → Waited e w1 second → AreQuiet second w2 → Waited second w2 third →
        Waited third w3 rest → HandedOut rest fourth → left_of (step_answer fourth w4) ≡ 0 }
{}
