//! Laws that pin the definitions of histories, case by case.
ghost use Rattle.std.specs.Prelude.{◌≡◌, ◌≢◌, ◌⊎◌, ◌+◌, ◌<◌, ◌≤◌, [], ◌∷◌, ℕ, Bool, List, None};
ghost use Rattle.std.specs.Prelude.{Some, count_by, false, length, true};
ghost use Rattle.rcu_seq.specs.Tags.{cookie_at, is_done_at};
ghost use Rattle.rcu_barrier.specs.Runs.{copies};
ghost use Rattle.rcu_core.specs.Callbacks.{barrier_runs, handed_out, queue_count};
ghost use Rattle.rcu_core.specs.Callbacks.{queued_before_barrier, times_handed_out};
ghost use Rattle.rcu_core.specs.Links.{QueuedAt};
ghost use Rattle.rcu_core.specs.History.{History, awaits, depth, ends, is_idle, is_old, running};
ghost use Rattle.rcu_core.specs.History.{section, tag_now};
ghost use Rattle.rcu_core.specs.Progress.{CanDrain, CanFinishBarrier, CanFinishCookie};
ghost use Rattle.rcu_core.specs.Progress.{EndsBy, HasEnded, HasReported, IsQuiet, LeadsWithMemory};
ghost use Rattle.rcu_core.specs.Progress.{SurelyLeads, collects, helps, hinders, how_often};
ghost use Rattle.rcu_core.specs.Progress.{retires, steps_left};
ghost use Rattle.rcu_core.specs.Replies.{AreAccepted, IsLegalReply, Size, answer};
ghost use Rattle.rcu_core.specs.Situation.{situation};
ghost use Rattle.rcu_core.specs.WayOut.{IsStepOut, IsWayOut, next_retiring_event, steps_out};
ghost use Rattle.rcu_core.specs.WayOut.{way_out};
ghost use Rattle.rcu_core.specs.Runs.{IsLegalRun, Run, history, takes};

use crate::event::Event;
use crate::reply::Reply;
use rcu_barrier::Visit;
use rcu_seq::Fault;

/// Exactly two events take a cookie: a take, and the start of a poll.
pub fn a_cookie_is_taken_by_two_events()
    ensures taking { takes Event.Take ≡ true }
    ensures start { takes Event.StartPoll ≡ true }
    ensures no_other { (event : Event) → takes event ≡ true
        → (event ≡ Event.Take) ⊎ (event ≡ Event.StartPoll) }
{}

/// A read section goes from an enter at depth 0, which names it, to the exit back to depth 0.
/// Nested enters and inner exits keep it, and so does every other event.
pub fn a_section_goes_from_its_enter_to_its_exit()
    ensures opened { (size : Size) (h : History) (cpu : ℕ) → AreAccepted size h → depth cpu h ≡ 0
        → section cpu (Event.Enter cpu ∷ h) ≡ Some (Event.Enter cpu ∷ h) }
    ensures nested { (size : Size) (h : History) (cpu : ℕ) → AreAccepted size h → 0 < depth cpu h
        → section cpu (Event.Enter cpu ∷ h) ≡ section cpu h }
    ensures left { (h : History) (cpu : ℕ) → 1 < depth cpu h
        → section cpu (Event.Exit cpu ∷ h) ≡ section cpu h }
    ensures ended { (h : History) (cpu : ℕ) → depth cpu h ≡ 1
        → section cpu (Event.Exit cpu ∷ h) ≡ None }
    ensures kept { (h : History) (cpu : ℕ) (event : Event) → event ≢ Event.Enter cpu
        → event ≢ Event.Exit cpu → section cpu (event ∷ h) ≡ section cpu h }
{}

/// A section that is open when a grace period begins is old after that begin.
pub fn a_section_open_at_a_begin_is_old()
    ensures { (size : Size) (h opened : History) (cpu : ℕ) → AreAccepted size (Event.Begin ∷ h)
        → section cpu h ≡ Some opened → is_old cpu (Event.Begin ∷ h) ≡ true }
{}

/// An old section stays old until it is closed or the grace period ends: an inner exit keeps it,
/// and so does every other event.
pub fn an_old_section_stays_old()
    ensures kept { (size : Size) (h : History) (cpu : ℕ) (event : Event)
        → AreAccepted size (event ∷ h) → is_old cpu h ≡ true → event ≢ Event.End
        → event ≢ Event.Exit cpu → is_old cpu (event ∷ h) ≡ true }
    ensures left { (h : History) (cpu : ℕ) → is_old cpu h ≡ true → 1 < depth cpu h
        → is_old cpu (Event.Exit cpu ∷ h) ≡ true }
{}

/// The events since a callback was queued are all events of the history after that one.
pub fn what_came_since_a_queueing_follows_it()
    ensures { (ord : ℕ) (h : History) → 0 < ord → ord ≤ queue_count h → QueuedAt ord h }
{}

/// A run adds the callbacks that it hands out, each copy of them, to those handed out before.
pub fn a_run_adds_what_it_hands_out()
    ensures { (h : History) (cpu most ord : ℕ) → times_handed_out ord (Event.Run cpu most ∷ h)
        ≡ copies ord (handed_out cpu most h) + times_handed_out ord h }
{}

/// The count of callbacks queued before the latest barrier is fixed at its begin, and does not
/// change later.
pub fn a_barrier_counts_what_was_queued_before_it()
    ensures begun { (h : History) → queued_before_barrier (Event.BarBegin ∷ h) ≡ queue_count h }
    ensures kept { (h : History) (event : Event) → event ≢ Event.BarBegin
        → queued_before_barrier (event ∷ h) ≡ queued_before_barrier h }
{}

/// An event needs memory only for what it stores. Six events can need it: a quiescent state and a
/// queue event, which store a report and a callback, and four events if their reply with memory
/// lists a processor, moves a callback, hands one out, or puts a marker.
pub fn memory_is_wanted_only_for_what_is_stored()
    ensures events { (size : Size) (h : History) (event : Event)
        → IsLegalReply size (situation h) event (Reply.Fault Fault.NoMemory)
        → (event ≡ Event.Awaits) ⊎ ((cpu : ℕ) × ((event ≡ Event.Quiesce cpu)
        ⊎ ((event ≡ Event.Offline cpu) ⊎ ((event ≡ Event.Visit cpu) ⊎ ((number : ℕ)
        × ((event ≡ Event.Queue cpu number) ⊎ (event ≡ Event.Run cpu number))))))) }
    ensures listed { (size : Size) (h : History)
        → IsLegalReply size (situation h) Event.Awaits (Reply.Fault Fault.NoMemory)
        → (cpus : List ℕ) × (answer size (situation h) Event.Awaits ≡ Reply.Awaits cpus)
        × (0 < length cpus) }
    ensures moved { (size : Size) (h : History) (cpu : ℕ)
        → IsLegalReply size (situation h) (Event.Offline cpu) (Reply.Fault Fault.NoMemory)
        → (calls : ℕ) × (answer size (situation h) (Event.Offline cpu) ≡ Reply.Moved calls)
        × (0 < calls) }
    ensures handed_out { (size : Size) (h : History) (cpu most : ℕ)
        → IsLegalReply size (situation h) (Event.Run cpu most) (Reply.Fault Fault.NoMemory)
        → (values : List ℕ) × (answer size (situation h) (Event.Run cpu most) ≡ Reply.Ran values)
        × (0 < length values) }
    ensures marked { (size : Size) (h : History) (cpu : ℕ)
        → IsLegalReply size (situation h) (Event.Visit cpu) (Reply.Fault Fault.NoMemory)
        → answer size (situation h) (Event.Visit cpu) ≡ Reply.Visited Visit.Marked }
{}

/// A begin surely leads on from a new core. An end while a processor is awaited does not, since it
/// may be refused; nor does an event that needs memory, such as a quiescent state.
pub fn what_may_be_refused_does_not_surely_lead()
    ensures begin { (most : ℕ) → SurelyLeads (record { cpus = 1; last = 4; most = most }) []
        (Event.Begin ∷ []) (Event.Begin ∷ []) }
    ensures awaited { (last most : ℕ) (reached : History) →
        SurelyLeads (record { cpus = 1; last = last; most = most }) (Event.Begin ∷ [])
        (Event.End ∷ []) reached → ⊥ }
    ensures memory { (last most : ℕ) (reached : History) →
        SurelyLeads (record { cpus = 1; last = last; most = most }) (Event.Begin ∷ [])
        (Event.Quiesce 0 ∷ []) reached → ⊥ }
{}

/// With memory a quiescent state leads on; an end while a processor is awaited still does not.
pub fn what_memory_alone_refuses_leads_with_memory()
    ensures quiescent { (last most : ℕ) →
        LeadsWithMemory (record { cpus = 1; last = last; most = most }) (Event.Begin ∷ [])
        (Event.Quiesce 0 ∷ []) (Event.Quiesce 0 ∷ Event.Begin ∷ []) }
    ensures awaited { (last most : ℕ) (reached : History) →
        LeadsWithMemory (record { cpus = 1; last = last; most = most }) (Event.Begin ∷ [])
        (Event.End ∷ []) reached → ⊥ }
{}

/// A grace period has ended if one more end has come and no grace period runs: not while it runs,
/// nor after the next one has begun, nor after two have ended.
pub fn a_grace_period_has_ended_after_one_end()
    ensures ended { HasEnded (Event.Begin ∷ [])
        (Event.End ∷ Event.Scan 0 ∷ Event.Idle 0 ∷ Event.Begin ∷ []) }
    ensures runs { HasEnded (Event.Begin ∷ [])
        (Event.Scan 0 ∷ Event.Idle 0 ∷ Event.Begin ∷ []) → ⊥ }
    ensures begun { HasEnded (Event.Begin ∷ [])
        (Event.Begin ∷ Event.End ∷ Event.Begin ∷ []) → ⊥ }
    ensures two { HasEnded (Event.Begin ∷ [])
        (Event.End ∷ Event.Begin ∷ Event.End ∷ Event.Begin ∷ []) → ⊥ }
{}

/// The remaining steps are: two for each awaited processor, or one if it is idle, and one more for
/// each open enter; none for a processor that is not awaited; and one for the end.
pub fn steps_that_are_left_are_counted()
    ensures begun { (last most : ℕ) → steps_left (record { cpus = 1; last = last; most = most })
        (Event.Begin ∷ []) ≡ 3 }
    ensures idle { (last most : ℕ) → steps_left (record { cpus = 1; last = last; most = most })
        (Event.Idle 0 ∷ Event.Begin ∷ []) ≡ 2 }
    ensures nested { (last most : ℕ) → steps_left (record { cpus = 1; last = last; most = most })
        (Event.Enter 0 ∷ Event.Enter 0 ∷ Event.Begin ∷ []) ≡ 5 }
    ensures scanned { (last most : ℕ) → steps_left (record { cpus = 1; last = last; most = most })
        (Event.Scan 0 ∷ Event.Idle 0 ∷ Event.Begin ∷ []) ≡ 1 }
    ensures each { (last most : ℕ) → steps_left (record { cpus = 2; last = last; most = most })
        (Event.Begin ∷ Event.Online 1 ∷ []) ≡ 5 }
    ensures late { (last most : ℕ) → steps_left (record { cpus = 2; last = last; most = most })
        (Event.Online 1 ∷ Event.Begin ∷ []) ≡ 3 }
{}

/// An exit, a step to idle and a scan take a step, and an enter and a wake add one, of an awaited
/// processor only.
pub fn three_events_take_a_step_and_two_add_one()
    ensures helps { (event : Event) (h : History) → helps event h ≡ true → (cpu : ℕ)
        × ((awaits cpu h ≡ true) × ((event ≡ Event.Exit cpu) ⊎ ((event ≡ Event.Idle cpu)
        ⊎ (event ≡ Event.Scan cpu)))) }
    ensures hinders { (event : Event) (h : History) → hinders event h ≡ true → (cpu : ℕ)
        × ((awaits cpu h ≡ true) × ((event ≡ Event.Enter cpu) ⊎ (event ≡ Event.Wake cpu))) }
    ensures exit { (h : History) (cpu : ℕ) → helps (Event.Exit cpu) h ≡ awaits cpu h }
    ensures idle { (h : History) (cpu : ℕ) → helps (Event.Idle cpu) h ≡ awaits cpu h }
    ensures scan { (h : History) (cpu : ℕ) → helps (Event.Scan cpu) h ≡ awaits cpu h }
    ensures enter { (h : History) (cpu : ℕ) → hinders (Event.Enter cpu) h ≡ awaits cpu h }
    ensures wake { (h : History) (cpu : ℕ) → hinders (Event.Wake cpu) h ≡ awaits cpu h }
{}

/// Each step counts when it was taken: a second scan of the same processor is no step.
pub fn steps_count_where_they_are_taken()
    ensures none { (test : Event → History → Bool) (h : History) → how_often test [] h ≡ 0 }
    ensures taken { how_often helps (Event.Scan 0 ∷ Event.Scan 0 ∷ Event.Idle 0 ∷ [])
        (Event.Begin ∷ []) ≡ 2 }
    ensures added { how_often hinders (Event.Wake 0 ∷ Event.Idle 0 ∷ Event.Exit 0 ∷ Event.Enter 0
        ∷ []) (Event.Begin ∷ []) ≡ 2 }
{}

/// A report has the processor that made it and the tag that it had noted. No report has another
/// processor or an earlier tag, and none comes before the quiescent state.
pub fn a_report_is_of_its_processor_and_tag()
    ensures reported { HasReported 0 (Event.Quiesce 0 ∷ Event.Note 0 ∷ Event.Begin ∷ []) }
    ensures other { HasReported 1 (Event.Quiesce 0 ∷ Event.Note 0 ∷ Event.Begin ∷ []) → ⊥ }
    ensures early { HasReported 0 (Event.Quiesce 0 ∷ Event.Begin ∷ Event.Note 0 ∷ []) → ⊥ }
    ensures noted { HasReported 0 (Event.Note 0 ∷ Event.Begin ∷ []) → ⊥ }
{}

/// A processor is quiet if it is idle or has reported. It is not if it woke again without a report.
pub fn a_quiet_processor_is_idle_or_has_reported()
    ensures idle { (h : History) (cpu : ℕ) → is_idle cpu h ≡ true → IsQuiet cpu h }
    ensures reported { (h : History) (cpu : ℕ) → HasReported cpu h → IsQuiet cpu h }
    ensures awake { IsQuiet 0 (Event.Wake 0 ∷ Event.Idle 0 ∷ Event.Begin ∷ []) → ⊥ }
{}

/// Lists the events that retire an awaited processor, and those that collect the report of a quiet
/// one.
pub fn few_events_retire_or_collect()
    ensures retires { (event : Event) → retires event ≡ true → (event ≡ Event.End) ⊎ ((cpu : ℕ)
        × ((event ≡ Event.Exit cpu) ⊎ ((event ≡ Event.Idle cpu) ⊎ (event ≡ Event.Scan cpu)))) }
    ensures collects { (event : Event) → collects event ≡ true → (event ≡ Event.End) ⊎ ((place : ℕ)
        × ((event ≡ Event.Deliver place) ⊎ (event ≡ Event.Scan place))) }
{}

/// A grace period of one processor ends by three events that retire it, and by no fewer; by two
/// that collect its report.
pub fn a_grace_period_ends_by_its_steps()
    ensures retired { (last most : ℕ) →
        EndsBy retires (record { cpus = 1; last = last; most = most }) (Event.Begin ∷ []) 3 }
    ensures collected { (last most : ℕ) →
        EndsBy collects (record { cpus = 1; last = last; most = most })
        (Event.Quiesce 0 ∷ Event.Note 0 ∷ Event.Begin ∷ []) 2 }
    ensures fewer { (size : Size) (run : Run) (count : ℕ) → IsLegalRun size run
        → running (history run) ≡ true → EndsBy retires size (history run) count
        → steps_left size (history run) ≤ count }
{}

/// A cookie that can be done tests done in the history that is reached, callbacks that can be
/// handed out were, and a barrier that can be done has ended; at most two grace periods end on the
/// way. A barrier that waits for nothing can be done by its test.
pub fn what_can_be_done_is_reached()
    ensures cookie { (size : Size) (h : History) → CanFinishCookie size h → (reached : History)
        × ((is_done_at size.last (cookie_at (tag_now h)) (tag_now reached) ≡ true)
        × (count_by ends reached ≤ count_by ends h + 2)) }
    ensures callbacks { (size : Size) (h : History) → CanDrain size h → (reached : History)
        × (((ord : ℕ) → 0 < ord → ord ≤ queue_count h → times_handed_out ord reached ≡ 1)
        × (count_by ends reached ≤ count_by ends h + 2)) }
    ensures barrier { (size : Size) (h : History) → CanFinishBarrier size h → (reached : History)
        × ((barrier_runs reached ≡ false) × (count_by ends reached ≤ count_by ends h + 2)) }
    ensures tested { (last most : ℕ) →
        CanFinishBarrier (record { cpus = 1; last = last; most = most })
        (Event.Visit 0 ∷ Event.BarBegin ∷ []) }
{}

/// The next event of the way out is an exit in a section, a step to idle outside of one, a scan of
/// an idle processor, and the end once none is awaited. The first awaited processor goes first.
pub fn the_next_event_out_is_of_the_first_awaited()
    ensures inside { (last most : ℕ) →
        next_retiring_event (record { cpus = 2; last = last; most = most })
        (situation (Event.Enter 0 ∷ Event.Begin ∷ Event.Online 1 ∷ [])) ≡ Some (Event.Exit 0) }
    ensures awake { (last most : ℕ) →
        next_retiring_event (record { cpus = 2; last = last; most = most })
        (situation (Event.Begin ∷ Event.Online 1 ∷ [])) ≡ Some (Event.Idle 0) }
    ensures idle { (last most : ℕ) →
        next_retiring_event (record { cpus = 2; last = last; most = most })
        (situation (Event.Idle 0 ∷ Event.Begin ∷ Event.Online 1 ∷ [])) ≡ Some (Event.Scan 0) }
    ensures second { (last most : ℕ) →
        next_retiring_event (record { cpus = 2; last = last; most = most })
        (situation (Event.Scan 0 ∷ Event.Idle 0 ∷ Event.Begin ∷ Event.Online 1 ∷ []))
        ≡ Some (Event.Idle 1) }
    ensures late { (last most : ℕ) →
        next_retiring_event (record { cpus = 2; last = last; most = most })
        (situation (Event.Scan 0 ∷ Event.Idle 0 ∷ Event.Online 1 ∷ Event.Begin ∷ []))
        ≡ Some Event.End }
    ensures none { (last most : ℕ) →
        next_retiring_event (record { cpus = 2; last = last; most = most }) (situation []) ≡ None }
{}

/// A way out lists two events for each awaited processor, one if it is idle, and an exit for each
/// open enter, by the processors' numbers; none for a processor that is not awaited; then the end.
pub fn a_way_out_lists_the_events_of_each_processor()
    ensures stalled { (last most : ℕ) → way_out (record { cpus = 2; last = last; most = most })
        (situation (Event.Quiesce 0 ∷ Event.Note 0 ∷ Event.Enter 1 ∷ Event.Begin
        ∷ Event.Online 1 ∷ []))
        ≡ Event.Idle 0 ∷ Event.Scan 0 ∷ Event.Exit 1 ∷ Event.Idle 1 ∷ Event.Scan 1
        ∷ Event.End ∷ [] }
    ensures nested { (last most : ℕ) → way_out (record { cpus = 1; last = last; most = most })
        (situation (Event.Enter 0 ∷ Event.Enter 0 ∷ Event.Begin ∷ []))
        ≡ Event.Exit 0 ∷ Event.Exit 0 ∷ Event.Idle 0 ∷ Event.Scan 0 ∷ Event.End ∷ [] }
    ensures idle { (last most : ℕ) → way_out (record { cpus = 1; last = last; most = most })
        (situation (Event.Idle 0 ∷ Event.Begin ∷ [])) ≡ Event.Scan 0 ∷ Event.End ∷ [] }
    ensures late { (last most : ℕ) → way_out (record { cpus = 2; last = last; most = most })
        (situation (Event.Enter 1 ∷ Event.Online 1 ∷ Event.Begin ∷ []))
        ≡ Event.Idle 0 ∷ Event.Scan 0 ∷ Event.End ∷ [] }
{}

/// A step to idle of an awaited processor is a step out. A note is not, nor is a scan that is
/// refused, nor an exit of a processor that is not awaited, which leaves as many steps.
pub fn a_step_out_leaves_one_step_fewer()
    ensures idle { (most : ℕ) → IsStepOut (record { cpus = 1; last = 4; most = most })
        (Event.Begin ∷ []) (Event.Idle 0) }
    ensures note { (last most : ℕ) →
        IsStepOut (record { cpus = 1; last = last; most = most }) (Event.Begin ∷ [])
        (Event.Note 0) → ⊥ }
    ensures late { (last most : ℕ) →
        IsStepOut (record { cpus = 2; last = last; most = most })
        (Event.Enter 1 ∷ Event.Online 1 ∷ Event.Begin ∷ []) (Event.Exit 1) → ⊥ }
    ensures refused { (last most : ℕ) →
        IsStepOut (record { cpus = 1; last = last; most = most }) (Event.Begin ∷ [])
        (Event.Scan 0) → ⊥ }
{}

/// A way out goes on to the end of the grace period, and takes no event out of turn. It has as many
/// events as are left, and none if no grace period runs.
pub fn a_way_out_has_each_next_event()
    ensures whole { (last most : ℕ) → IsWayOut (record { cpus = 1; last = last; most = most })
        (Event.Begin ∷ []) (Event.Idle 0 ∷ Event.Scan 0 ∷ Event.End ∷ [])
        (Event.End ∷ Event.Scan 0 ∷ Event.Idle 0 ∷ Event.Begin ∷ []) }
    ensures part { (last most : ℕ) (reached : History)
        → IsWayOut (record { cpus = 1; last = last; most = most }) (Event.Begin ∷ [])
        (Event.Idle 0 ∷ Event.Scan 0 ∷ []) reached → ⊥ }
    ensures other { (last most : ℕ) (events : List Event) (reached : History)
        → IsWayOut (record { cpus = 1; last = last; most = most }) (Event.Begin ∷ [])
        (Event.Scan 0 ∷ events) reached → ⊥ }
    ensures left { (last most : ℕ) →
        steps_out (record { cpus = 1; last = last; most = most }) (Event.Begin ∷ []) ≡ 3 }
    ensures none { (size : Size) (h : History) → running h ≡ false → steps_out size h ≡ 0 }
{}
