//! Laws that connect runs with the laws of histories.
ghost use Rattle.std.specs.Prelude.{◌≡◌, ◌≢◌, ◌+◌, ◌<◌, ◌≤◌, ◌&&◌, not, true, [], ◌∷◌, ℕ, List};
ghost use Rattle.std.specs.Prelude.{Some, length, slice_get};
ghost use Rattle.rcu_seq.specs.Tags.{is_before};
ghost use Rattle.rcu_seq.specs.declared.tag.Tag.{Tag};
ghost use Rattle.rcu_cblist.specs.declared.items.Queued.{Queued};
ghost use Rattle.rcu_core.specs.Callbacks.{handed_out, queue_count, times_handed_out};
ghost use Rattle.rcu_core.specs.Core.{Represents, State, size_at};
ghost use Rattle.rcu_core.specs.History.{History, awaits, is_heard, online, section, tag_now};
ghost use Rattle.rcu_core.specs.Links.{ToldSince, onto, queued_as, starts, tag, times_listed};
ghost use Rattle.rcu_core.specs.Replies.{AreAccepted, IsLegalReply, Size};
ghost use Rattle.rcu_core.specs.Situation.{situation};
ghost use Rattle.rcu_core.specs.Runs.{IsLegalRun, Leads, Run, RunsLegally, history};

use crate::event::Event;
use crate::reply::Reply;

/// The empty run is legal.
pub fn no_event_is_a_legal_run()
    ensures { (size : Size) → IsLegalRun size [] }
{}

/// A legal run and a legal reply to one more event make a legal run.
pub fn a_legal_reply_makes_a_legal_run()
    ensures { (size : Size) (run : Run) (event : Event) (reply : Reply) → IsLegalRun size run
        → IsLegalReply size (situation (history run)) event reply
        → IsLegalRun size ((event, reply) ∷ run) }
{}

/// In a legal run each reply is legal: the last one, and those of the run before it.
pub fn a_legal_run_has_legal_replies()
    ensures reply { (size : Size) (run : Run) (event : Event) (reply : Reply)
        → IsLegalRun size ((event, reply) ∷ run)
        → IsLegalReply size (situation (history run)) event reply }
    ensures before { (size : Size) (run : Run) (event : Event) (reply : Reply)
        → IsLegalRun size ((event, reply) ∷ run) → IsLegalRun size run }
{}

/// A list of events has as many legal replies as events. They extend a legal run, whose history is
/// then the one that they lead to.
pub fn a_run_of_events_is_legal()
    ensures legal { (size : Size) (run : Run) (events : List Event) (replies : List Reply)
        (reached : History) → IsLegalRun size run → Leads size (history run) events replies reached
        → IsLegalRun size (onto events replies run) }
    ensures history { (size : Size) (run : Run) (events : List Event) (replies : List Reply)
        (reached : History) → Leads size (history run) events replies reached
        → history (onto events replies run) ≡ reached }
    ensures each { (size : Size) (h reached : History) (events : List Event) (replies : List Reply)
        → Leads size h events replies reached → length replies ≡ length events }
{}

/// The replies of a core to a list of events are a legal run, on top of any legal run that led to
/// the core's state; and the core is in the situation of that run's history. So each law of runs is
/// a law of cores.
pub fn what_a_core_ran_is_a_legal_run()
    ensures legal { (v w : State ℕ) (h : History) (run : Run) (events : List Event)
        (replies : List Reply) → RunsLegally v h events replies w → IsLegalRun (size_at v) run
        → history run ≡ h → IsLegalRun (size_at v) (onto events replies run) }
    ensures has { (v w : State ℕ) (h : History) (run : Run) (events : List Event)
        (replies : List Reply) → RunsLegally v h events replies w → history run ≡ h
        → Represents w (history (onto events replies run)) }
    ensures size { (v w : State ℕ) (h : History) (events : List Event) (replies : List Reply)
        → RunsLegally v h events replies w → size_at w ≡ size_at v }
    ensures each { (v w : State ℕ) (h : History) (events : List Event) (replies : List Reply)
        → RunsLegally v h events replies w → length replies ≡ length events }
{}

/// The callbacks that a run hands out were queued: there are as many as the reply has values, and
/// each one has the place, the tag and the value with which it was queued.
pub fn handed_callbacks_were_queued()
    ensures length { (size : Size) (run : Run) (cpu most : ℕ) (values : List ℕ)
        → IsLegalRun size ((Event.Run cpu most, Reply.Ran values) ∷ run)
        → length values ≡ length (handed_out cpu most (history run)) }
    ensures queued { (size : Size) (run : Run) (cpu most index : ℕ) (call : Queued ℕ)
        → IsLegalRun size run → slice_get (handed_out cpu most (history run)) index ≡ Some call
        → queued_as call.ord (history run) ≡ Some call }
{}

/// Readers finish before callbacks: when a callback is handed out, each section that is then open
/// was opened after the callback was queued, and at a later number or in a later epoch.
pub fn readers_finish_before_callbacks()
    ensures later { (size : Size) (run : Run) (cpu most index reader : ℕ) (call : Queued ℕ)
        (opened : History) → IsLegalRun size run
        → slice_get (handed_out cpu most (history run)) index ≡ Some call
        → section reader (history run) ≡ Some opened → is_before call.at (tag_now opened) ≡ true }
    ensures after { (size : Size) (run : Run) (cpu most index reader : ℕ) (call : Queued ℕ)
        (opened : History) → IsLegalRun size run
        → slice_get (handed_out cpu most (history run)) index ≡ Some call
        → section reader (history run) ≡ Some opened → call.ord ≤ queue_count opened }
{}

/// A history awaits the processors of the start set that were not heard since, whether its latest
/// grace period runs or has ended.
pub fn the_awaited_are_those_not_heard()
    ensures { (size : Size) (h : History) (cpu : ℕ) → AreAccepted size h → cpu < size.cpus
        → awaits cpu h ≡ (starts cpu h && not (is_heard cpu (tag h) h)) }
{}

/// The start set is the set of processors online at the begin, until the next begin.
pub fn a_start_set_is_who_was_online_at_the_begin()
    ensures begin { (h : History) (cpu : ℕ) → starts cpu (Event.Begin ∷ h) ≡ online cpu h }
    ensures other { (h : History) (cpu : ℕ) (event : Event) → event ≢ Event.Begin
        → starts cpu (event ∷ h) ≡ starts cpu h }
{}

/// If the latest grace periods of two engines had one tag and one start set, and both engines heard
/// the same processors since, they await the same processors. The kinds of awaited set, the last
/// numbers, and the order make no difference, nor whether either grace period runs or has ended.
pub fn equally_heard_cores_await_the_same()
    ensures { (size other : Size) (h g : History) → AreAccepted size h → AreAccepted other g
        → tag h ≡ tag g → ((cpu : ℕ) → starts cpu h ≡ starts cpu g)
        → ((cpu : ℕ) → starts cpu h ≡ true → is_heard cpu (tag h) h ≡ is_heard cpu (tag g) g)
        → (cpu : ℕ) → cpu < size.cpus → cpu < other.cpus → awaits cpu h ≡ awaits cpu g }
{}

/// A processor is heard exactly if some event since the latest begin delivers its report with the
/// grace period's tag, or is its departure or a scan of it. It makes no difference which event, how
/// many, and what else came.
pub fn heard_means_told()
    ensures told { (cpu : ℕ) (tag : Tag) (h : History) → is_heard cpu tag h ≡ true
        → ToldSince cpu tag h }
    ensures heard { (cpu : ℕ) (tag : Tag) (h : History) → ToldSince cpu tag h
        → is_heard cpu tag h ≡ true }
{}

/// No callback is lost: each queued callback was handed out once, or is in one list once.
pub fn no_callback_is_lost()
    ensures { (size : Size) (run : Run) (ord : ℕ) → IsLegalRun size run → 0 < ord
        → ord ≤ queue_count (history run)
        → times_handed_out ord (history run) + times_listed size.cpus ord (history run) ≡ 1 }
{}
