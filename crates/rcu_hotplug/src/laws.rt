//! Laws of processors that come and go.
ghost use Rattle.std.specs.Prelude.{◌≡◌, [], ◌∷◌, ℕ, None};
ghost use Rattle.rcu_seq.specs.declared.tag.Tag.{Tag};
ghost use Rattle.rcu_hotplug.specs.Hotplug.{Arrive, Begin, Call, refusal};
ghost use Rattle.rcu_hotplug.specs.History.{History, AreAccepted, Represents, after_calls, awaits};
ghost use Rattle.rcu_hotplug.specs.History.{online};

/// The law below holds for no call, and for one call more if that is not refused.
pub fn calls_are_accepted_one_by_one()
    ensures none { (cpus : ℕ) → AreAccepted cpus [] }
    ensures more { (cpus : ℕ) (h : History) (call : Call) → AreAccepted cpus h
        → refusal (after_calls cpus h) call ≡ None → AreAccepted cpus (call ∷ h) }
{}

/// After any accepted calls the state of the processors is as the history of the calls defines it.
pub fn calls_leave_what_their_history_says()
    ensures { (cpus : ℕ) (h : History) → AreAccepted cpus h
        → Represents cpus (after_calls cpus h) h }
{}

/// An arrival does not change which processors are awaited. The next begin awaits exactly the
/// online processors, each until it reports or departs.
pub fn arrivals_are_awaited_from_the_next_begin()
    ensures arrival { (cpu other : ℕ) (h : History)
        → awaits cpu (Arrive other ∷ h) ≡ awaits cpu h }
    ensures begin { (cpu : ℕ) (number : Tag) (h : History)
        → awaits cpu (Begin number ∷ h) ≡ online cpu h }
{}
