//! No state is a dead end: the events that end a running grace period, how many are left, and what
//! two grace periods finish. These laws do not say who makes these events, or when.
ghost use Rattle.std.specs.Prelude.{◌≡◌, ◌≢◌, ◌≤◌, ◌<◌, ◌+◌, ◌⊎◌, [], ◌∷◌, ◌++◌, ℕ, true, false};
ghost use Rattle.std.specs.Prelude.{count_by, length, List, None, Some, slice_get};
ghost use Rattle.std.specs.List.{list_all, list_any};
ghost use Rattle.rcu_seq.specs.Numbers.{is_last, snapshot};
ghost use Rattle.rcu_seq.specs.Tags.{cookie_at, is_done_at, last_epoch};
ghost use Rattle.rcu_seq.specs.declared.cookie.Cookie.{Cookie};
ghost use Rattle.rcu_cblist.specs.SegList.{behind, callbacks, front};
ghost use Rattle.rcu_barrier.specs.Runs.{copies};
ghost use Rattle.rcu_core.specs.Callbacks.{barrier_runs, ends_barrier, has_full_period, is_owed};
ghost use Rattle.rcu_core.specs.Callbacks.{list, queue_count, times_handed_out};
ghost use Rattle.rcu_core.specs.History.{History, awaits, begins, departs, ends, epoch, noted};
ghost use Rattle.rcu_core.specs.History.{number, renumbers, running, tag_now};
ghost use Rattle.rcu_core.specs.Links.{ToldSince, starts, tag};
ghost use Rattle.rcu_core.specs.Progress.{CanDrain, CanFinishCookie, CanFinishBarrier, EndsBy};
ghost use Rattle.rcu_core.specs.Progress.{HasEnded, HasReported, IsQuiet, SurelyLeads, collects};
ghost use Rattle.rcu_core.specs.Progress.{helps, hinders, how_often, retires, steps_left};
ghost use Rattle.rcu_core.specs.Core.{Represents, State, size_at};
ghost use Rattle.rcu_core.specs.Replies.{AreAccepted, IsLegalReply, Size, answer, how_many};
ghost use Rattle.rcu_core.specs.Runs.{IsLegalRun, Run, RunsLegally, history, takes};
ghost use Rattle.rcu_core.specs.Situation.{situation};
ghost use Rattle.rcu_core.specs.WayOut.{IsStepOut, IsWayOut, next_retiring_event, steps_out};
ghost use Rattle.rcu_core.specs.WayOut.{way_out};

use crate::event::Event;
use crate::reply::Reply;
use rcu_node::Answer;
use rcu_seq::Fault;

/// The set of awaited processors only shrinks: until the next grace period begins, no event makes a
/// processor awaited again.
pub fn awaited_processors_only_shrink()
    ensures one { (size : Size) (h : History) (event : Event) (cpu : ℕ)
        → AreAccepted size (event ∷ h) → event ≢ Event.Begin → awaits cpu (event ∷ h) ≡ true
        → awaits cpu h ≡ true }
    ensures many { (size : Size) (later h : History) (cpu : ℕ) → AreAccepted size (later ++ h)
        → list_any begins later ≡ false → awaits cpu (later ++ h) ≡ true
        → awaits cpu h ≡ true }
    ensures count { (size : Size) (later h : History) → AreAccepted size (later ++ h)
        → list_any begins later ≡ false
        → how_many size (λ cpu. awaits cpu (later ++ h)) ≤ how_many size (λ cpu. awaits cpu h) }
{}

/// A running grace period can end once each processor online at its begin has been heard since: by
/// a report, a scan or a departure, in any order, and whatever other events came between.
pub fn heard_processors_let_a_grace_period_end()
    ensures { (size : Size) (run : Run) → IsLegalRun size run → running (history run) ≡ true
        → ((cpu : ℕ) → cpu < size.cpus → starts cpu (history run) ≡ true
        → ToldSince cpu (tag (history run)) (history run))
        → SurelyLeads size (history run) (Event.End ∷ []) (Event.End ∷ history run) }
{}

/// After an answer that a report was the last one, of a delivery or a scan, the end is accepted.
pub fn the_last_report_lets_a_grace_period_end()
    ensures { (size : Size) (run : Run) (event : Event)
        → IsLegalRun size ((event, Reply.Answer Answer.Last) ∷ run)
        → SurelyLeads size (history ((event, Reply.Answer Answer.Last) ∷ run)) (Event.End ∷ [])
        (Event.End ∷ history ((event, Reply.Answer Answer.Last) ∷ run)) }
{}

/// If each awaited processor is idle or has reported the running grace period's tag, then a scan or
/// a delivery for each of them, and then the end, end it. None of these events can be refused, not
/// even for lack of memory.
pub fn quiet_processors_end_a_grace_period()
    ensures { (size : Size) (run : Run) → IsLegalRun size run → running (history run) ≡ true
        → ((cpu : ℕ) → cpu < size.cpus → awaits cpu (history run) ≡ true
        → IsQuiet cpu (history run))
        → EndsBy collects size (history run) (how_many size (λ cpu. awaits cpu (history run)) + 1) }
{}

/// A running grace period can be ended from every state, by exactly `steps_left` events: exits,
/// steps to idle, scans and the end. None of them can be refused, not even for lack of memory.
pub fn a_grace_period_can_end()
    ensures { (size : Size) (run : Run) → IsLegalRun size run → running (history run) ≡ true
        → EndsBy retires size (history run) (steps_left size (history run)) }
{}

/// While a grace period runs, and only then, there is a next event of the way out. It cannot be
/// refused, not even for lack of memory, and one step fewer is left after it.
pub fn the_next_event_out_is_accepted()
    ensures some { (size : Size) (h : History) → running h ≡ true
        → (event : Event) × (next_retiring_event size (situation h) ≡ Some event) }
    ensures none { (size : Size) (h : History) → running h ≡ false
        → next_retiring_event size (situation h) ≡ None }
    ensures step { (size : Size) (h : History) (event : Event) → AreAccepted size h
        → next_retiring_event size (situation h) ≡ Some event → IsStepOut size h event }
{}

/// The next events of the way out (`Core::next_retiring_event`), one after another, end the running
/// grace period. There are `steps_left` of them: exits, steps to idle, scans and the end. None of
/// them can be refused, not even for lack of memory.
pub fn the_way_out_ends_a_grace_period()
    ensures exists { (size : Size) (h : History) → AreAccepted size h
        → (events : List Event) × ((reached : History) × IsWayOut size h events reached) }
    ensures many { (size : Size) (events : List Event) (h reached : History) → AreAccepted size h
        → IsWayOut size h events reached → length events ≡ steps_out size h }
    ensures leads { (size : Size) (events : List Event) (h reached : History) → AreAccepted size h
        → IsWayOut size h events reached → SurelyLeads size h events reached }
    ensures each { (size : Size) (events : List Event) (h reached : History) → AreAccepted size h
        → IsWayOut size h events reached → list_all retires events ≡ true }
    ensures ended { (size : Size) (events : List Event) (h reached : History) → AreAccepted size h
        → running h ≡ true → IsWayOut size h events reached → HasEnded h reached }
{}

/// The way out goes by the awaited processors in ascending order: for each an exit for each open
/// enter, a step to idle if it is not idle, and a scan. Then it has the end.
pub fn the_way_out_goes_by_the_processors()
    ensures { (size : Size) (h : History) → AreAccepted size h → running h ≡ true
        → (reached : History) × IsWayOut size h (way_out size (situation h)) reached }
{}

/// Until the next grace period begins, only an enter or a wake of an awaited processor adds to the
/// remaining steps.
pub fn only_enters_and_wakes_lengthen_the_way()
    ensures { (size : Size) (h : History) (event : Event) → AreAccepted size (event ∷ h)
        → event ≢ Event.Begin
        → ((cpu : ℕ) → awaits cpu h ≡ true → event ≢ Event.Enter cpu)
        → ((cpu : ℕ) → awaits cpu h ≡ true → event ≢ Event.Wake cpu)
        → steps_left size (event ∷ h) ≤ steps_left size h }
{}

/// An exit, a step to idle and a scan of an awaited processor take one from the remaining steps; an
/// enter and a wake of one add one.
pub fn each_step_of_an_awaited_processor_counts()
    ensures exit { (size : Size) (h : History) (cpu : ℕ) → AreAccepted size (Event.Exit cpu ∷ h)
        → awaits cpu h ≡ true → steps_left size (Event.Exit cpu ∷ h) + 1 ≡ steps_left size h }
    ensures idle { (size : Size) (h : History) (cpu : ℕ) → AreAccepted size (Event.Idle cpu ∷ h)
        → awaits cpu h ≡ true → steps_left size (Event.Idle cpu ∷ h) + 1 ≡ steps_left size h }
    ensures scan { (size : Size) (h : History) (cpu : ℕ) → AreAccepted size (Event.Scan cpu ∷ h)
        → awaits cpu h ≡ true → steps_left size (Event.Scan cpu ∷ h) + 1 ≡ steps_left size h }
    ensures enter { (size : Size) (h : History) (cpu : ℕ) → AreAccepted size (Event.Enter cpu ∷ h)
        → awaits cpu h ≡ true → steps_left size (Event.Enter cpu ∷ h) ≡ steps_left size h + 1 }
    ensures wake { (size : Size) (h : History) (cpu : ℕ) → AreAccepted size (Event.Wake cpu ∷ h)
        → awaits cpu h ≡ true → steps_left size (Event.Wake cpu ∷ h) ≡ steps_left size h + 1 }
{}

/// The steps of awaited processors add up, whatever other events come between: the steps left now,
/// plus those taken, are at most the steps left before, plus those that enters and wakes added.
/// Once that many steps were taken, the end is accepted.
pub fn steps_count_whatever_comes_between()
    ensures left { (size : Size) (later h : History) → AreAccepted size (later ++ h)
        → list_any begins later ≡ false
        → steps_left size (later ++ h) + how_often helps later h
        ≤ steps_left size h + how_often hinders later h }
    ensures end { (size : Size) (later h : History) → AreAccepted size (later ++ h)
        → list_any begins later ≡ false → running (later ++ h) ≡ true
        → steps_left size h + how_often hinders later h ≤ how_often helps later h + 1
        → SurelyLeads size (later ++ h) (Event.End ∷ []) (Event.End ∷ later ++ h) }
{}

/// A processor is quiet once it is idle, or once it has made a quiescent state after it noted the
/// current tag. The report of an awaited processor stays until the next grace period begins.
pub fn a_processor_comes_to_be_quiet()
    ensures idle { (h : History) (cpu : ℕ) → IsQuiet cpu (Event.Idle cpu ∷ h) }
    ensures noted { (h : History) (cpu : ℕ) → noted cpu (Event.Note cpu ∷ h) ≡ tag_now h }
    ensures reported { (h : History) (cpu : ℕ) → noted cpu h ≡ tag_now h
        → HasReported cpu (Event.Quiesce cpu ∷ h) }
    ensures kept { (size : Size) (h : History) (event : Event) (cpu : ℕ)
        → AreAccepted size (event ∷ h) → event ≢ Event.Begin → awaits cpu (event ∷ h) ≡ true
        → HasReported cpu h → HasReported cpu (event ∷ h) }
{}

/// If no grace period runs, one can begin: at once if the number is not the last, and after a
/// renumbering if it is and the epoch is not the last.
pub fn a_grace_period_can_begin()
    ensures below { (size : Size) (run : Run) → running (history run) ≡ false
        → number (history run) ≢ size.last
        → SurelyLeads size (history run) (Event.Begin ∷ []) (Event.Begin ∷ history run) }
    ensures renumbered { (size : Size) (run : Run) → running (history run) ≡ false
        → is_last size.last ≡ true → number (history run) ≡ size.last
        → epoch (history run) < last_epoch
        → SurelyLeads size (history run) (Event.Renumber ∷ Event.Begin ∷ [])
        (Event.Begin ∷ Event.Renumber ∷ history run) }
{}

/// A cookie tests done exactly if a full grace period has passed since it was taken.
pub fn a_full_grace_period_finishes_a_cookie()
    ensures { (size : Size) (later h : History) → AreAccepted size (later ++ h)
        → is_done_at size.last (cookie_at (tag_now h)) (tag_now (later ++ h))
        ≡ has_full_period later }
{}

/// A poll of a cookie answers done once two grace periods have ended since it was taken, whatever
/// other events came.
pub fn two_grace_periods_finish_a_cookie()
    ensures { (size : Size) (later earlier : Run) (taking : Event) (cookie : Cookie)
        (reply : Reply) → takes taking ≡ true
        → IsLegalRun size (later ++ (taking, Reply.Cookie cookie) ∷ earlier)
        → count_by ends (history earlier) + 2
        ≤ count_by ends (history (later ++ (taking, Reply.Cookie cookie) ∷ earlier))
        → IsLegalReply size
        (situation (history (later ++ (taking, Reply.Cookie cookie) ∷ earlier)))
        (Event.Poll cookie.number cookie.epoch) reply
        → reply ≡ Reply.Polled true }
{}

/// From every state some events, none of which can be refused, lead to one in which a cookie taken
/// now tests done, and at most two grace periods end among them. This holds exactly if the cookie
/// does not wait for a number above the last in the last epoch.
pub fn a_cookie_can_be_done()
    ensures can { (size : Size) (run : Run) → IsLegalRun size run → is_last size.last ≡ true
        → (snapshot (number (history run)) ≤ size.last) ⊎ (epoch (history run) < last_epoch)
        → CanFinishCookie size (history run) }
    ensures only { (size : Size) (run : Run) → IsLegalRun size run → is_last size.last ≡ true
        → CanFinishCookie size (history run)
        → (snapshot (number (history run)) ≤ size.last) ⊎ (epoch (history run) < last_epoch) }
{}

/// If two grace periods end among some events, a full one lies among them. One end is not enough:
/// that grace period may have begun before.
pub fn two_grace_periods_hold_a_full_one()
    ensures two { (size : Size) (later h : History) → AreAccepted size (later ++ h)
        → 2 ≤ count_by ends later → has_full_period later ≡ true }
    ensures one { (most : ℕ) → AreAccepted (record { cpus = 1; last = 4; most = most })
        (Event.End ∷ Event.Scan 0 ∷ Event.Idle 0 ∷ Event.Begin ∷ []) }
    ensures not_full { has_full_period (Event.End ∷ Event.Scan 0 ∷ Event.Idle 0 ∷ []) ≡ false }
{}

/// A tend, a full grace period and a second tend finish each callback that was in the list: none of
/// them waits then, and a run with a limit of at least as many as are done hands each out. Any
/// events may come between, except a departure of this processor and a renumbering.
pub fn two_tends_and_a_grace_period_finish_callbacks()
    ensures done { (size : Size) (later earlier : History) (cpu ord : ℕ)
        → AreAccepted size (Event.Tend cpu ∷ later ++ Event.Tend cpu ∷ earlier)
        → 0 < ord → ord ≤ queue_count earlier → has_full_period later ≡ true
        → list_any renumbers later ≡ false → list_any (departs cpu) later ≡ false
        → copies ord (callbacks (list cpu earlier)) ≡ 1
        → copies ord (callbacks (behind
        (list cpu (Event.Tend cpu ∷ later ++ Event.Tend cpu ∷ earlier)))) ≡ 0 }
    ensures handed_out { (size : Size) (later earlier : History) (cpu most ord : ℕ)
        → AreAccepted size (Event.Run cpu most ∷ Event.Tend cpu ∷ later ++ Event.Tend cpu ∷ earlier)
        → 0 < ord → ord ≤ queue_count earlier → has_full_period later ≡ true
        → list_any renumbers later ≡ false → list_any (departs cpu) later ≡ false
        → copies ord (callbacks (list cpu earlier)) ≡ 1
        → length (callbacks (front
        (list cpu (Event.Tend cpu ∷ later ++ Event.Tend cpu ∷ earlier)))) ≤ most
        → times_handed_out ord
        (Event.Run cpu most ∷ Event.Tend cpu ∷ later ++ Event.Tend cpu ∷ earlier) ≡ 1 }
{}

/// From every state some events lead to one in which each callback queued so far was handed out,
/// and at most two grace periods end among them. Only a refused allocation can make one of these
/// events fail. The next full grace period must not need a number above the last in the last epoch.
pub fn each_callback_can_be_handed_out()
    ensures { (size : Size) (run : Run) → IsLegalRun size run → is_last size.last ≡ true
        → (snapshot (number (history run)) ≤ size.last) ⊎ (epoch (history run) < last_epoch)
        → CanDrain size (history run) }
{}

/// A barrier's test answers done once the barrier has visited each processor and each callback
/// queued before that has been handed out. Any events may come between, departures too.
pub fn handed_out_callbacks_finish_a_barrier()
    ensures { (size : Size) (later visited : History) (reply : Reply)
        → AreAccepted size (later ++ visited) → barrier_runs visited ≡ true
        → ((cpu : ℕ) → cpu < size.cpus → is_owed cpu visited ≡ false)
        → list_any ends_barrier later ≡ false
        → ((ord : ℕ) → 0 < ord → ord ≤ queue_count visited
        → times_handed_out ord (later ++ visited) ≡ 1)
        → IsLegalReply size (situation (later ++ visited)) Event.BarTest reply
        → reply ≡ Reply.BarDone }
{}

/// While a barrier runs, some events lead to a test that answers done, and at most two grace
/// periods end among them. Only a refused allocation can make one of these events fail. The next
/// full grace period must not need a number above the last in the last epoch.
pub fn a_barrier_can_be_done()
    ensures { (size : Size) (run : Run) → IsLegalRun size run → barrier_runs (history run) ≡ true
        → is_last size.last ≡ true
        → (snapshot (number (history run)) ≤ size.last) ⊎ (epoch (history run) < last_epoch)
        → CanFinishBarrier size (history run) }
{}

/// Each event has a legal reply, so a list of events that surely leads on can always be made. A
/// core that takes the list represents the history that it leads to, and refuses none of its
/// events.
pub fn what_surely_leads_on_leads_a_core()
    ensures legal { (size : Size) (h : History) (event : Event)
        → IsLegalReply size (situation h) event (answer size (situation h) event) }
    ensures has { (v w : State ℕ) (h reached : History) (events : List Event)
        (replies : List Reply) → RunsLegally v h events replies w
        → SurelyLeads (size_at v) h events reached → Represents w reached }
    ensures none_refused { (v w : State ℕ) (h reached : History) (events : List Event)
        (replies : List Reply) (index : ℕ) (fault : Fault) → RunsLegally v h events replies w
        → SurelyLeads (size_at v) h events reached
        → slice_get replies index ≢ Some (Reply.Fault fault) }
{}
