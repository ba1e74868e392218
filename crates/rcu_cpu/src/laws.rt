//! Laws of read sections, after any accepted calls of a processor.
ghost use Rattle.std.specs.Prelude.{◌≡◌, ◌<◌, ◌≤◌, ◌↔◌, ◌==◌, ◌∷◌, ℕ, Bool, true, false, not};
ghost use Rattle.std.specs.Prelude.{List, [], count_by};
ghost use Rattle.rcu_cpu.specs.CpuData.{AreAccepted, Call, Exit, IsAccepted, Quiesce, after_calls};
ghost use Rattle.rcu_cpu.specs.CpuData.{report_of};
ghost use Rattle.rcu_cpu.specs.Sections.{enters, exits, nesting, is_idle, is_open, is_online};
ghost use Rattle.rcu_cpu.specs.Sections.{last_noted};

/// The laws below hold for no call, and for one call more if no cause of its faults holds.
pub fn calls_are_accepted_one_by_one()
    ensures none { (cpu : ℕ) (online : Bool) → AreAccepted cpu online [] }
    ensures more { (cpu : ℕ) (online : Bool) (calls : List Call) (call : Call)
        → AreAccepted cpu online calls → IsAccepted (after_calls cpu online calls) call
        → AreAccepted cpu online (call ∷ calls) }
{}

/// The depth is the number of enters less the number of exits, which is at most that of enters.
pub fn depth_is_enters_less_exits()
    ensures depth { (cpu : ℕ) (online : Bool) (calls : List Call) → AreAccepted cpu online calls
        → (after_calls cpu online calls).depth ≡ nesting calls }
    ensures exits { (cpu : ℕ) (online : Bool) (calls : List Call) → AreAccepted cpu online calls
        → count_by exits calls ≤ count_by enters calls }
{}

/// A section is open exactly if the depth is not 0: an exit from above depth 1 leaves it open, and
/// the one from depth 1 does not. None is open on an offline processor.
pub fn sections_are_open_where_they_nest()
    ensures nested { (cpu : ℕ) (online : Bool) (calls : List Call) → AreAccepted cpu online calls
        → is_open calls ≡ not ((after_calls cpu online calls).depth == 0) }
    ensures inner_exit { (cpu : ℕ) (online : Bool) (calls : List Call)
        → AreAccepted cpu online calls
        → 1 < (after_calls cpu online calls).depth → is_open (Exit ∷ calls) ≡ true }
    ensures outer_exit { (cpu : ℕ) (online : Bool) (calls : List Call)
        → AreAccepted cpu online calls
        → (after_calls cpu online calls).depth ≡ 1 → is_open (Exit ∷ calls) ≡ false }
    ensures offline { (cpu : ℕ) (online : Bool) (calls : List Call) → AreAccepted cpu online calls
        → is_online online calls ≡ false → is_open calls ≡ false }
{}

/// A processor is idle exactly if it went idle and its idleness did not end since. An idle
/// processor is online, and has no open section.
pub fn idle_processors_have_no_section()
    ensures idle { (cpu : ℕ) (online : Bool) (calls : List Call)
        → (after_calls cpu online calls).idle ≡ is_idle calls }
    ensures online { (cpu : ℕ) (online : Bool) (calls : List Call) → AreAccepted cpu online calls
        → is_idle calls ≡ true → is_online online calls ≡ true }
    ensures closed { (cpu : ℕ) (online : Bool) (calls : List Call) → AreAccepted cpu online calls
        → is_idle calls ≡ true → is_open calls ≡ false }
{}

/// A quiescent state is reported exactly if the processor is online and not idle and no section is
/// open, with the tag of the last note or arrival.
pub fn reports_are_made_outside_sections()
    ensures outside { (cpu : ℕ) (online : Bool) (calls : List Call) → AreAccepted cpu online calls
        → IsAccepted (after_calls cpu online calls) Quiesce
        ↔ ((is_online online calls ≡ true) × (is_idle calls ≡ false)
        × (is_open calls ≡ false)) }
    ensures report { (cpu : ℕ) (online : Bool) (calls : List Call) → AreAccepted cpu online calls
        → report_of (after_calls cpu online calls) ≡ record { cpu = cpu; tag = last_noted calls } }
{}
