//! A caller of the event core, and its knowledge about the replies by the laws of runs alone.
ghost use Rattle.std.specs.Prelude.{◌≡◌, ◌≤◌, ℕ, [], false, length, replicate, IfOk, true};
ghost use Rattle.rcu_seq.specs.Tags.{first_tag};
ghost use Rattle.rcu_core.specs.Callbacks.{times_handed_out};
ghost use Rattle.rcu_core.specs.History.{awaits, is_old};
ghost use Rattle.rcu_core.specs.Links.{onto};
ghost use Rattle.rcu_core.specs.Runs.{history};

use rcu_core::laws::{no_callback_runs_twice, old_readers_are_awaited};
use rcu_core::{Core, Event, Reply};
use rcu_node::Awaited;
use rcu_seq::Fault;
use std::alloc::Global;

/// Has a new engine take these events, and answers its replies: by them each callback was handed
/// out at most once, and each processor with an old section is awaited.
///
/// Faults: those of [`Core::new`] and of [`Core::run`].
pub fn run_anew<A: Awaited>(
    alloc: Global,
    inner: A,
    last: u64,
    events: &[Event],
) -> Result<Vec<Reply>, Fault>
    requires tag { A.tag inner ≡ first_tag }
    requires empty { A.start_set inner ≡ replicate (length (A.awaited inner)) false }
    ensures once { IfOk result (λ replies. (ord : ℕ)
        → times_handed_out ord (history (onto events.now replies.items [])) ≤ 1) }
    ensures awaited { IfOk result (λ replies. (cpu : ℕ)
        → is_old cpu (history (onto events.now replies.items [])) ≡ true
        → awaits cpu (history (onto events.now replies.items [])) ≡ true) }
{
    no_callback_runs_twice();
    old_readers_are_awaited();
    let mut core = Core::new(alloc, inner, last)?;
    core.run(events)
}
