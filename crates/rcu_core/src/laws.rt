//! Laws of every run: of any events, in any order, with legal replies.
ghost use Rattle.std.specs.Prelude.{◌≡◌, ◌≢◌, ◌<◌, ◌≤◌, [], ◌∷◌, ◌++◌, ◌||◌, ℕ, List, Some};
ghost use Rattle.std.specs.Prelude.{None, false, true, slice_get};
ghost use Rattle.std.specs.List.{list_any};
ghost use Rattle.rcu_seq.specs.declared.cookie.Cookie.{Cookie};
ghost use Rattle.rcu_cblist.specs.declared.items.Queued.{Queued};
ghost use Rattle.rcu_core.specs.Callbacks.{handed_out, has_full_period, queued_before_barrier};
ghost use Rattle.rcu_core.specs.Callbacks.{since, times_handed_out};
ghost use Rattle.rcu_core.specs.History.{History, awaits, begins, is_idle, is_old, section};
ghost use Rattle.rcu_core.specs.Replies.{Size};
ghost use Rattle.rcu_core.specs.Runs.{IsLegalRun, Run, history, takes};

use crate::event::Event;
use crate::reply::Reply;

/// Old readers are awaited: each processor with an open section that began before the running grace
/// period.
pub fn old_readers_are_awaited()
    ensures { (size : Size) (run : Run) (cpu : ℕ) → IsLegalRun size run
        → is_old cpu (history run) ≡ true → awaits cpu (history run) ≡ true }
{}

/// An idle processor has no open section. So a scan misses no reader.
pub fn idle_processors_have_no_section()
    ensures { (size : Size) (run : Run) (cpu : ℕ) → IsLegalRun size run
        → is_idle cpu (history run) ≡ true → section cpu (history run) ≡ None }
{}

/// Readers finish before done: when a cookie tests done, each read section that was open when it
/// was taken has ended.
pub fn readers_finish_before_done()
    ensures { (size : Size) (later earlier : Run) (taking : Event) (cookie : Cookie)
        (cpu : ℕ) (opened : History) → takes taking ≡ true
        → IsLegalRun size ((Event.Poll cookie.number cookie.epoch, Reply.Polled true)
        ∷ later ++ (taking, Reply.Cookie cookie) ∷ earlier)
        → section cpu (history earlier) ≡ Some opened
        → section cpu (history (later ++ (taking, Reply.Cookie cookie) ∷ earlier))
        ≢ Some opened }
{}

/// No callback runs early: a full grace period lies between the event that queued a callback and
/// the one that hands it out. The callback at each index of a run has the value that the reply
/// gives at that index.
pub fn no_callback_runs_early()
    ensures { (size : Size) (run : Run) (cpu most index : ℕ) (values : List ℕ) (call : Queued ℕ)
        → IsLegalRun size ((Event.Run cpu most, Reply.Ran values) ∷ run)
        → slice_get (handed_out cpu most (history run)) index ≡ Some call
        → (slice_get values index ≡ Some call.value)
        × (has_full_period (since call.ord (history run)) ≡ true) }
{}

/// A full grace period lies among events if one began and ended among them.
pub fn a_full_period_is_a_begin_and_a_later_end()
    ensures none { has_full_period [] ≡ false }
    ensures end { (h : History)
        → has_full_period (Event.End ∷ h) ≡ (list_any begins h || has_full_period h) }
    ensures other { (h : History) (event : Event) → event ≢ Event.End
        → has_full_period (event ∷ h) ≡ has_full_period h }
{}

/// No callback runs twice: each is handed out at most once.
pub fn no_callback_runs_twice()
    ensures { (size : Size) (run : Run) (ord : ℕ) → IsLegalRun size run
        → times_handed_out ord (history run) ≤ 1 }
{}

/// A barrier covers earlier callbacks: when its test returns done, each callback that was queued
/// before it began has been handed out.
pub fn barrier_covers_earlier_callbacks()
    ensures { (size : Size) (run : Run) (ord : ℕ)
        → IsLegalRun size ((Event.BarTest, Reply.BarDone) ∷ run) → 0 < ord
        → ord ≤ queued_before_barrier (history run) → times_handed_out ord (history run) ≡ 1 }
{}
