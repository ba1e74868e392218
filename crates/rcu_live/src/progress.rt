//! How a grace period, a callback and a barrier of the engine end, by the calls of any threads.
//! These laws do not say which threads make the calls, or when.
ghost use Rattle.std.specs.Prelude.{◌≡◌, ◌≢◌, ◌⊎◌, ◌<◌, ◌≤◌, ◌+◌, ◌^◌, ◌&&◌, ◌∷◌, ◌++◌, ℕ, Bool};
ghost use Rattle.std.specs.Prelude.{List, None, true, false, not, length};
ghost use Rattle.std.specs.List.{list_any};
ghost use mathlib.Core.Option.{some};
ghost use lib.ListN.{get_elem?};
ghost use Rattle.atomic_table.specs.Table.{State};
ghost use Rattle.rcu_seq.specs.Numbers.{Number, snapshot};
ghost use Rattle.rcu_seq.specs.Seq.{number_of};
ghost use Rattle.rcu_seq.specs.Tags.{cookie_at, is_done_first, of_first_epoch};
ghost use Rattle.rcu_node.specs.CpuSet.{is_in};
ghost use Rattle.rcu_cblist.specs.SegList.{behind, callbacks, front};
ghost use Rattle.rcu_barrier.specs.Lists.{barrier_test_answer, is_visited, list_of};
ghost use Rattle.rcu_barrier.specs.Runs.{copies};
ghost use Rattle.rcu_barrier.specs.declared.lists.BarrierState.{BarrierState};
ghost use Rattle.rcu_state.specs.GpState.{awaited_in, end_refusal};
ghost use Rattle.rcu_live.specs.CpuSeat.{Seated, after_depart, after_exit, after_idle};
ghost use Rattle.rcu_live.specs.CpuSeat.{after_quiesce, exit_refusal, quiesce_refusal};
ghost use Rattle.rcu_live.specs.Drive.{after_collections, after_drive, drive_answer, drive_refusal};
ghost use Rattle.rcu_live.specs.Engine.{Locked, next_number};
ghost use Rattle.rcu_live.specs.Numbers.{reports_quiescence};
ghost use Rattle.rcu_live.specs.Progress.{IsQuiet, IsQuietAt, LoadsAt, begins_barrier, leaves};
ghost use Rattle.rcu_live.specs.Runs.{Call, IsNew, IsRun, MayCall, after_call, engine_after};
ghost use Rattle.rcu_live.specs.Runs.{times_handed_out};
ghost use Rattle.rcu_live.specs.declared.view.Role.TheVariants.{Cpu};
ghost use Rattle.rcu_live.specs.declared.view.View.{View};

use crate::client::Client;
use rcu_barrier::progress;
use rcu_state::Turned;

/// The set of awaited processors only shrinks: while a grace period runs, no call makes a processor
/// awaited again, nor do any calls until it ends.
pub fn awaited_processors_only_shrink<T: Drop, P: Client>()
    ensures one { (e : Locked P.Known T) (call : Call T) (cpu : ℕ) → MayCall e call →
        e.grace.seq.running ≡ true →
        is_in (after_call e call).grace.processors.awaited cpu ≡ true →
        is_in e.grace.processors.awaited cpu ≡ true }
    ensures many { (e : Locked P.Known T) (calls : List (Call T)) (cpu : ℕ) → IsRun e calls →
        e.grace.seq.running ≡ true →
        (engine_after e calls).grace.seq.ends ≡ e.grace.seq.ends →
        is_in (engine_after e calls).grace.processors.awaited cpu ≡ true →
        is_in e.grace.processors.awaited cpu ≡ true }
{}

/// After a collection from each awaited processor, exactly those are still awaited whose own word
/// does not report a quiescent state. If each word does, no processor is awaited and the end is
/// accepted.
pub fn a_collection_leaves_nobody_quiet_awaited<T: Drop, P: Client>()
    ensures left { (e : Locked P.Known T) (word : ℕ → ℕ) (cpu : ℕ) →
        is_in (after_collections e word).grace.processors.awaited cpu
        ≡ (is_in e.grace.processors.awaited cpu
        && not (reports_quiescence (number_of e.grace.seq) (word cpu))) }
    ensures nobody { (e : Locked P.Known T) (word : ℕ → ℕ) →
        ((cpu : ℕ) → is_in e.grace.processors.awaited cpu ≡ true →
        reports_quiescence (number_of e.grace.seq) (word cpu) ≡ true) →
        awaited_in (after_collections e word).grace ≡ 0 }
    ensures accepted { (e : Locked P.Known T) (word : ℕ → ℕ) → e.grace.seq.running ≡ true →
        ((cpu : ℕ) → is_in e.grace.processors.awaited cpu ≡ true →
        reports_quiescence (number_of e.grace.seq) (word cpu) ≡ true) →
        end_refusal (after_collections e word).grace ≡ None }
{}

/// One step of driving ends a running grace period if the own word of each awaited processor, as
/// the step finds it, reports a quiescent state: the step is accepted, loads each of these words
/// once, and then no processor is awaited.
pub fn a_step_of_driving_ends_a_quiet_grace_period<T: Drop, P: Client>()
    ensures accepted { (e : Locked P.Known T) (is_wanted : Bool) → e.grace.seq.running ≡ true →
        drive_refusal e.grace is_wanted ≡ None }
    ensures ended { (e : Locked P.Known T) (is_wanted : Bool) (word : ℕ → ℕ) →
        e.grace.seq.running ≡ true →
        ((cpu : ℕ) → is_in e.grace.processors.awaited cpu ≡ true →
        reports_quiescence (number_of e.grace.seq) (word cpu) ≡ true) →
        (after_drive e is_wanted word).grace.seq.running ≡ false }
    ensures once { (e : Locked P.Known T) (is_wanted : Bool) (word : ℕ → ℕ) →
        e.grace.seq.running ≡ true →
        ((cpu : ℕ) → is_in e.grace.processors.awaited cpu ≡ true →
        reports_quiescence (number_of e.grace.seq) (word cpu) ≡ true) →
        (after_drive e is_wanted word).grace.seq.ends ≡ e.grace.seq.ends + 1 }
    ensures answer { (e : Locked P.Known T) (is_wanted : Bool) (word : ℕ → ℕ) →
        e.grace.seq.running ≡ true →
        ((cpu : ℕ) → is_in e.grace.processors.awaited cpu ≡ true →
        reports_quiescence (number_of e.grace.seq) (word cpu) ≡ true) →
        drive_answer e is_wanted word
        ≡ Turned.Ended (number_of (after_drive e is_wanted word).grace.seq) }
{}

/// A load of an own word finds the word that the processor's seat stored last by then. So it
/// reports a quiescent state exactly if the processor is quiet at that moment: it departed, is
/// idle, or passed a quiescent state at the number of the running grace period or a later one.
pub fn a_load_finds_what_the_seat_stored<P: Client>()
    ensures stored { (plan : P.Plan) (cpus : ℕ) (now : State (Unit {0}) (View P.Known))
        (running cpu word id : ℕ) (seat : View P.Known) →
        LoadsAt (P.holds plan) cpus now running cpu word → get_elem? now.views id ≡ some seat →
        seat.role ≡ Cpu → seat.cpu ≡ cpu → word ≡ seat.own_word }
    ensures quiet { (plan : P.Plan) (cpus : ℕ) (now : State (Unit {0}) (View P.Known))
        (running cpu word : ℕ) → LoadsAt (P.holds plan) cpus now running cpu word →
        IsQuietAt now running cpu → reports_quiescence running word ≡ true }
    ensures only { (plan : P.Plan) (cpus : ℕ) (now : State (Unit {0}) (View P.Known))
        (running cpu word id : ℕ) (seat : View P.Known) →
        LoadsAt (P.holds plan) cpus now running cpu word → get_elem? now.views id ≡ some seat →
        seat.role ≡ Cpu → seat.cpu ≡ cpu → reports_quiescence running word ≡ true →
        IsQuiet running seat }
{}

/// Quiet processors end a grace period: a step of driving ends the running one if each awaited
/// processor is quiet at the moment at which the step loads its own word. A processor that is
/// awaited after a step was not quiet at that moment.
pub fn quiet_processors_end_a_grace_period<T: Drop, P: Client>()
    ensures ended { (plan : P.Plan) (e : Locked P.Known T) (is_wanted : Bool) (word : ℕ → ℕ)
        (at : ℕ → State (Unit {0}) (View P.Known)) → e.grace.seq.running ≡ true →
        ((cpu : ℕ) → is_in e.grace.processors.awaited cpu ≡ true →
        LoadsAt (P.holds plan) e.cpus (at cpu) (number_of e.grace.seq) cpu (word cpu)) →
        ((cpu : ℕ) → is_in e.grace.processors.awaited cpu ≡ true →
        IsQuietAt (at cpu) (number_of e.grace.seq) cpu) →
        (after_drive e is_wanted word).grace.seq
        ≡ record e.grace.seq { ends = e.grace.seq.ends + 1; running = false } }
    ensures answer { (plan : P.Plan) (e : Locked P.Known T) (is_wanted : Bool) (word : ℕ → ℕ)
        (at : ℕ → State (Unit {0}) (View P.Known)) → e.grace.seq.running ≡ true →
        ((cpu : ℕ) → is_in e.grace.processors.awaited cpu ≡ true →
        LoadsAt (P.holds plan) e.cpus (at cpu) (number_of e.grace.seq) cpu (word cpu)) →
        ((cpu : ℕ) → is_in e.grace.processors.awaited cpu ≡ true →
        IsQuietAt (at cpu) (number_of e.grace.seq) cpu) →
        drive_answer e is_wanted word
        ≡ Turned.Ended (number_of (after_drive e is_wanted word).grace.seq) }
    ensures held_up { (plan : P.Plan) (now : State (Unit {0}) (View P.Known))
        (e : Locked P.Known T) (is_wanted : Bool) (word : ℕ → ℕ) (cpu : ℕ) →
        e.grace.seq.running ≡ true →
        LoadsAt (P.holds plan) e.cpus now (number_of e.grace.seq) cpu (word cpu) →
        is_in (after_drive e is_wanted word).grace.processors.awaited cpu ≡ true →
        IsQuietAt now (number_of e.grace.seq) cpu → ⊥ }
{}

/// If every own word reports a quiescent state, a step of driving that wants a grace period ends
/// one: the running one, or one that it begins. Two such steps finish each cookie taken before
/// them. A step is accepted below the last number, and while a grace period runs.
pub fn two_steps_of_driving_finish_a_cookie<T: Drop, P: Client>()
    ensures accepted { (e : Locked P.Known T) (is_wanted : Bool) →
        number_of e.grace.seq ≢ e.grace.seq.last → drive_refusal e.grace is_wanted ≡ None }
    ensures one { (e : Locked P.Known T) (word : ℕ → ℕ) →
        ((cpu : ℕ) → reports_quiescence (next_number e.grace) (word cpu) ≡ true) →
        (after_drive e true word).grace.seq
        ≡ record e.grace.seq { ends = e.grace.seq.ends + 1; running = false } }
    ensures two { (e : Locked P.Known T) (first second : ℕ → ℕ) →
        ((cpu : ℕ) → reports_quiescence (snapshot (number_of e.grace.seq)) (first cpu) ≡ true) →
        ((cpu : ℕ) → reports_quiescence (snapshot (number_of e.grace.seq)) (second cpu) ≡ true) →
        snapshot (number_of e.grace.seq)
        ≤ number_of (after_drive (after_drive e true first) true second).grace.seq }
{}

/// A seat can always make its own word report a quiescent state. While a section is open, an exit
/// is accepted and leaves one depth less. Outside a section, either the word reports one already,
/// or going idle is accepted, and then it does. It also does after a quiescent state at the running
/// number or a later one, and after a departure.
pub fn a_seat_can_tell_of_itself<P: Client>()
    ensures exit { (s : Seated P.Known) → 0 < s.depth → exit_refusal s ≡ None }
    ensures less { (closed : P.Known → P.Known) (s : Seated P.Known) (n : Number) → 0 < s.depth →
        (after_exit closed s n).depth + 1 ≡ s.depth }
    ensures may { (s : Seated P.Known) (running : Number) → s.depth ≡ 0 → running ≤ 2 ^ 62 →
        (quiesce_refusal s ≡ None)
        ⊎ (reports_quiescence running s.view.own_word ≡ true) }
    ensures idle { (s : Seated P.Known) (running : Number) → running ≤ 2 ^ 62 →
        reports_quiescence running (after_idle s).view.own_word ≡ true }
    ensures quiescent { (s : Seated P.Known) (running n : Number) → running ≤ n →
        reports_quiescence running (after_quiesce s n).view.own_word ≡ true }
    ensures gone { (s : Seated P.Known) (running : Number) →
        reports_quiescence running (after_depart s).view.own_word ≡ true }
{}

/// If two grace periods ended between two states of an engine, the number has reached the snapshot
/// of the earlier one: a cookie taken at the earlier one tests done.
pub fn two_grace_periods_reach_the_snapshot<T: Drop, P: Client>()
    ensures reached { (before after : Locked P.Known T) →
        before.grace.seq.ends + 2 ≤ after.grace.seq.ends →
        snapshot (number_of before.grace.seq) ≤ number_of after.grace.seq }
    ensures done { (before after : Locked P.Known T) →
        before.grace.seq.ends + 2 ≤ after.grace.seq.ends →
        is_done_first (cookie_at (of_first_epoch (number_of before.grace.seq)))
        (number_of after.grace.seq) ≡ true }
{}

/// Two tends and a full grace period between them finish each callback that was in the list: if the
/// number has reached the snapshot of the number at the first tend, none of them waits after the
/// second, and a run with a limit of at least as many as are done hands each out. Any threads may
/// make any other calls between, except that the processor leaves.
pub fn two_tends_and_a_grace_period_finish_callbacks<T: Drop, P: Client>()
    ensures done { (first : Locked P.Known T) (later earlier : List (Call T)) (cpu place : ℕ) →
        IsNew first → IsRun first (Call.Tend cpu ∷ later ++ Call.Tend cpu ∷ earlier) →
        snapshot (number_of (engine_after first earlier).grace.seq)
        ≤ number_of (engine_after first (later ++ Call.Tend cpu ∷ earlier)).grace.seq →
        list_any (leaves cpu) later ≡ false → 0 < place →
        place ≤ (engine_after first earlier).grace.lists.queued →
        copies place (callbacks (list_of (engine_after first earlier).grace.lists cpu)) ≡ 1 →
        copies place (callbacks (behind (list_of (engine_after first
        (Call.Tend cpu ∷ later ++ Call.Tend cpu ∷ earlier)).grace.lists cpu))) ≡ 0 }
    ensures handed_out { (first : Locked P.Known T) (later earlier : List (Call T))
        (cpu place most : ℕ) → IsNew first →
        IsRun first (Call.Run cpu most ∷ Call.Tend cpu ∷ later ++ Call.Tend cpu ∷ earlier) →
        snapshot (number_of (engine_after first earlier).grace.seq)
        ≤ number_of (engine_after first (later ++ Call.Tend cpu ∷ earlier)).grace.seq →
        list_any (leaves cpu) later ≡ false → 0 < place →
        place ≤ (engine_after first earlier).grace.lists.queued →
        copies place (callbacks (list_of (engine_after first earlier).grace.lists cpu)) ≡ 1 →
        length (callbacks (front (list_of (engine_after first
        (Call.Tend cpu ∷ later ++ Call.Tend cpu ∷ earlier)).grace.lists cpu))) ≤ most →
        times_handed_out place first
        (Call.Run cpu most ∷ Call.Tend cpu ∷ later ++ Call.Tend cpu ∷ earlier) ≡ 1 }
{}

/// Five calls hand out each callback of a list, if every own word that the two steps of driving
/// find reports a quiescent state: a tend, two steps that want a grace period, a tend, and a run
/// with a limit of at least as many as are done. They may be made after every run of calls.
pub fn five_calls_hand_out_a_callback<T: Drop, P: Client>()
    ensures run { (first : Locked P.Known T) (calls : List (Call T)) (one two : ℕ → ℕ)
        (cpu most : ℕ) → IsRun first calls → cpu < (engine_after first calls).cpus →
        IsRun first (Call.Run cpu most ∷ Call.Tend cpu ∷ Call.Drive true two ∷ Call.Drive true one
        ∷ Call.Tend cpu ∷ calls) }
    ensures handed_out { (first : Locked P.Known T) (calls : List (Call T)) (one two : ℕ → ℕ)
        (cpu place most : ℕ) → IsNew first → IsRun first calls →
        cpu < (engine_after first calls).cpus →
        ((other : ℕ) → reports_quiescence
        (snapshot (number_of (engine_after first calls).grace.seq)) (one other) ≡ true) →
        ((other : ℕ) → reports_quiescence
        (snapshot (number_of (engine_after first calls).grace.seq)) (two other) ≡ true) →
        0 < place → place ≤ (engine_after first calls).grace.lists.queued →
        copies place (callbacks (list_of (engine_after first calls).grace.lists cpu)) ≡ 1 →
        length (callbacks (front (list_of (engine_after first
        (Call.Tend cpu ∷ Call.Drive true two ∷ Call.Drive true one ∷ Call.Tend cpu
        ∷ calls)).grace.lists cpu))) ≤ most →
        times_handed_out place first (Call.Run cpu most ∷ Call.Tend cpu ∷ Call.Drive true two
        ∷ Call.Drive true one ∷ Call.Tend cpu ∷ calls) ≡ 1 }
{}

/// A barrier's test answers done once the barrier has visited each processor and each callback
/// queued before that has been handed out. Any threads may make any other calls between, and
/// processors may leave.
pub fn handed_out_callbacks_finish_a_barrier<T: Drop, P: Client>()
    ensures { (first : Locked P.Known T) (later visited : List (Call T)) → IsNew first →
        IsRun first (Call.BarrierTest ∷ later ++ visited) →
        ((cpu : ℕ) → cpu < (engine_after first visited).cpus →
        is_visited (engine_after first visited).grace.lists cpu ≡ true) →
        list_any begins_barrier later ≡ false →
        ((place : ℕ) → 0 < place → place ≤ (engine_after first visited).grace.lists.queued →
        times_handed_out place first (later ++ visited) ≡ 1) →
        barrier_test_answer (engine_after first (later ++ visited)).grace.lists
        ≡ BarrierState.Done }
{
    progress::handed_out_callbacks_finish_a_barrier::<T>();
}
