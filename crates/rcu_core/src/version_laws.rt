//! The laws of runs, applied to data: to stories, in which versions of a value are published and
//! loaded between the events.
ghost use Rattle.std.specs.Prelude.{◌≡◌, ◌≢◌, ◌∷◌, ◌++◌, [], ℕ, true, false};
ghost use Rattle.rcu_seq.specs.declared.cookie.Cookie.{Cookie};
ghost use Rattle.rcu_core.specs.Replies.{Size};
ghost use Rattle.rcu_core.specs.Runs.{IsLegalRun, takes};
ghost use Rattle.rcu_core.specs.Stories.{Load, Publish, Replied, Story, current, holds_version};
ghost use Rattle.rcu_core.specs.Stories.{is_open, publishes, run_of};

use crate::event::Event;
use crate::laws::readers_finish_before_done;
use crate::reply::Reply;

/// A section that loads holds the version that was published last. It holds it until it closes,
/// whatever is published meanwhile, and whichever processor loads.
pub fn a_section_holds_what_it_loaded()
    ensures loaded { (cpu : ℕ) (story : Story) → is_open cpu story ≡ true
        → holds_version cpu (current story) (Load cpu ∷ story) ≡ true }
    ensures replied { (cpu version : ℕ) (story : Story) (event : Event) (reply : Reply)
        → holds_version cpu version story ≡ true → is_open cpu (Replied event reply ∷ story) ≡ true
        → holds_version cpu version (Replied event reply ∷ story) ≡ true }
    ensures published { (cpu version new : ℕ) (story : Story)
        → holds_version cpu version story ≡ true
        → holds_version cpu version (Publish new ∷ story) ≡ true }
    ensures beside { (cpu version loader : ℕ) (story : Story)
        → holds_version cpu version story ≡ true
        → holds_version cpu version (Load loader ∷ story) ≡ true }
{}

/// A story publishes a version exactly if it has that publication: the publication of another one,
/// a load and an event with its reply publish nothing.
pub fn a_story_publishes_what_it_has()
    ensures none { (version : ℕ) → publishes version [] ≡ false }
    ensures published { (version : ℕ) (later before : Story)
        → publishes version (later ++ Publish version ∷ before) ≡ true }
    ensures another { (version new : ℕ) (story : Story) → version ≢ new
        → publishes version (Publish new ∷ story) ≡ publishes version story }
    ensures loaded { (version cpu : ℕ) (story : Story)
        → publishes version (Load cpu ∷ story) ≡ publishes version story }
    ensures replied { (version : ℕ) (story : Story) (event : Event) (reply : Reply)
        → publishes version (Replied event reply ∷ story) ≡ publishes version story }
{}

/// A version was replaced, and then a cookie was taken. When the cookie tests done, no open section
/// holds the version, unless it was published again.
pub fn replaced_versions_are_not_held()
    ensures { (size : Size) (later middle before : Story) (old new cpu : ℕ)
        (cookie : Cookie) (taking : Event) → takes taking ≡ true → old ≢ new
        → publishes old later ≡ false → publishes old middle ≡ false
        → IsLegalRun size
        (run_of (Replied (Event.Poll cookie.number cookie.epoch) (Reply.Polled true)
        ∷ later ++ Replied taking (Reply.Cookie cookie)
        ∷ (middle ++ Publish new ∷ before)))
        → holds_version cpu old (Replied (Event.Poll cookie.number cookie.epoch) (Reply.Polled true)
        ∷ later ++ Replied taking (Reply.Cookie cookie)
        ∷ (middle ++ Publish new ∷ before)) ≡ false }
{
    readers_finish_before_done();
}
