//! The laws of deferral, over all calls that a thread makes.
ghost use Rattle.std.specs.Prelude.{◌≡◌, ℕ, ◌<◌, ◌≤◌, ◌++◌, All, IfSome, List, length};
ghost use Rattle.std.specs.Prelude.{slice_get, take, true};
ghost use Rattle.rcu_seq.specs.Numbers.{Number};
ghost use Rattle.rcu_seq.specs.Seq.{AreAccepted, IsWithin, Periods, Turn, after_turns};
ghost use Rattle.rcu_seq.specs.Seq.{has_full_period, number_of};
ghost use Rattle.rcu_defer.specs.Histories.{Call, HasWaited, deferred_in, list_after, marks_after};
ghost use Rattle.rcu_defer.specs.Histories.{NeverFalls, taken_in};
ghost use Rattle.rcu_defer.specs.Marks.{deferred_of, due};
ghost use Rattle.rcu_defer.specs.Moments.{HasOpen, IsMoment, Moment, calls_of};

use rcu_live::Client;
use rcu_live::laws::readers_finish_before_done;
use rcu_seq::laws::done_means_a_full_grace_period;

/// The due deferrals are the longest prefix whose numbers have all been reached.
pub fn due_is_the_longest_front()
    ensures front { (n : Number) (us : List Number) →
        All (λ until. until ≤ n) (take (due n us) us) }
    ensures longest { (n : Number) (us : List Number) →
        IfSome (slice_get us (due n us)) (λ until. n < until) }
{}

/// Each deferral is counted once: those taken out are among those that are done, and the ones that
/// are done, that wait, and that came since the last tend are all of them.
pub fn deferrals_are_counted_once<T>()
    ensures taken { (calls : List (Call T)) →
        (marks_after calls).taken ≤ (marks_after calls).done }
    ensures all { (calls : List (Call T)) →
        deferred_of (marks_after calls) ≡ length (deferred_in calls) }
{}

/// No value comes early: a full grace period lies between its deferral and the tend at which it is
/// done. More exactly: it was deferred before a tend, and the number at a later tend has reached
/// the first tend's snapshot; whichever begins and ends led from one number to the other, a grace
/// period began and ended among them. A value that was taken out is done.
pub fn no_value_comes_early<T>()
    ensures waited { (calls : List (Call T)) (k : ℕ) → k < (marks_after calls).done →
        HasWaited calls k }
    ensures period { (calls : List (Call T)) (k : ℕ) (waited : HasWaited calls k) (first : Periods)
        (turns : List Turn) → IsWithin first → AreAccepted first turns → first.epoch ≡ 0 →
        (after_turns first turns).epoch ≡ 0 → number_of first ≡ waited.at →
        number_of (after_turns first turns) ≡ waited.now → has_full_period turns ≡ true }
{
    done_means_a_full_grace_period();
}

/// No deferral is done late: if the numbers of the tends never fall, as a `Deferrer`'s do not, a
/// deferral that came before a tend is done once a full grace period lies between that tend and a
/// later one.
pub fn deferrals_that_waited_are_done<T>()
    ensures { (calls : List (Call T)) (k : ℕ) → NeverFalls calls → HasWaited calls k →
        k < (marks_after calls).done }
{}

/// No value comes twice: the values taken out are the first ones deferred, in order. The marks of
/// the list are those of its calls, so the i-th value taken out is that of the i-th deferral.
pub fn no_value_comes_twice<T: Drop>()
    ensures first { (calls : List (Call T)) →
        taken_in calls ≡ take (length (taken_in calls)) (deferred_in calls) }
    ensures taken { (calls : List (Call T)) →
        length (taken_in calls) ≡ (marks_after calls).taken }
    ensures marks { (calls : List (Call T)) →
        (list_after calls).marks ≡ marks_after calls }
{}

/// No value is lost: the values taken out, followed by those in the list, are the values deferred,
/// in order.
pub fn no_value_is_lost<T: Drop>()
    ensures { (calls : List (Call T)) →
        taken_in calls ++ (list_after calls).values ≡ deferred_in calls }
{}

/// Sections end before deferrals are done: while a section stays open, only values that were
/// deferred before it are done or taken out. So each section that was open at a deferral has ended
/// once the value is done. The calls are made at moments of the engine, at each of which the
/// engine's rule holds, and each tend is at the number of its moment: that of its one load, for
/// `Deferrer::tend`.
pub fn sections_end_before_deferrals_are_done<T, P: Client>()
    ensures { (plan : P.Plan) (cpus seat : ℕ) (at : Number)
        (later earlier : List (Moment P.Known T)) →
        All (IsMoment (P.holds plan) cpus) later → All (HasOpen seat at) later →
        (marks_after (calls_of (later ++ earlier))).done
        ≤ length (deferred_in (calls_of earlier)) }
{
    readers_finish_before_done::<P>();
}
