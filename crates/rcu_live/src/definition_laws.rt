//! Laws that pin the definitions of runs of the engine, on small runs, and those of accepted calls.
ghost use Rattle.std.specs.Prelude.{◌≡◌, ◌⊎◌, ◌+◌, ◌%◌, ◌<◌, ◌≤◌, ◌^◌, [], ◌∷◌, ℕ, All, Bool};
ghost use Rattle.std.specs.Prelude.{List, None, Some, ◌++◌, false, length, true};
ghost use Rattle.atomic_table.specs.Seated.{TableId};
ghost use Rattle.atomic_table.specs.Table.{opening};
ghost use Rattle.rcu_seq.specs.Numbers.{Number, snapshot};
ghost use Rattle.rcu_seq.specs.Seq.{has_full_period};
ghost use Rattle.rcu_seq.specs.Tags.{cookie_at, first_tag, is_done_first, of_first_epoch};
ghost use Rattle.rcu_seq.specs.declared.tag.Tag.{Tag};
ghost use Rattle.rcu_node.specs.Words.{has_bit};
ghost use Rattle.rcu_cblist.specs.SegList.{take_answer};
ghost use Rattle.rcu_cblist.specs.declared.items.Queued.{Queued};
ghost use Rattle.rcu_barrier.specs.Lists.{barrier_test_answer, list_of};
ghost use Rattle.rcu_barrier.specs.Runs.{copies, times_listed};
ghost use Rattle.rcu_barrier.specs.declared.lists.BarrierState.{BarrierState};
ghost use Rattle.rcu_live.specs.Asking.{IsAwake};
ghost use Rattle.rcu_live.specs.CpuSeat.{AcceptedAt, NotedAt, RenewedAt, Seated, after_look};
ghost use Rattle.rcu_live.specs.CpuSeat.{after_quiesce, after_renew, reported};
ghost use Rattle.rcu_live.specs.Engine.{HasWaited, Locked, loaded_word};
ghost use Rattle.rcu_live.specs.EngineLists.{AreDue, is_leave_fault, is_queue_fault};
ghost use Rattle.rcu_live.specs.Numbers.{idle_word, is_number_word, may_open};
ghost use Rattle.rcu_live.specs.Opening.{engine_at_first};
ghost use Rattle.rcu_live.specs.Progress.{IsQuiet, IsQuietAt, LoadsAt, begins_barrier, leaves};
ghost use Rattle.rcu_live.specs.Runs.{Call, IsNew, IsRun, Makes, MayCall, after_call};
ghost use Rattle.rcu_live.specs.Runs.{engine_after, queued_as, queued_before_barrier};
ghost use Rattle.rcu_live.specs.Runs.{times_handed_out, turns_since};
ghost use Rattle.rcu_live.specs.Several.{HoldsBoth, IsLens, IsPart, IsWordOf, of_both, whole};
ghost use Rattle.rcu_live.specs.View.{absent_from, after_own_word_load, after_store, after_waking};
ghost use Rattle.rcu_live.specs.View.{asking_of, cpu_seat, engine_seat};
ghost use Rattle.rcu_live.specs.declared.view.View.{View};
ghost use Rattle.rcu_live.specs.Waits.{AreRounds, HasPassed, HasStayedInside};
ghost use Rattle.rcu_live.specs.Watcher.{Watching};
ghost use Rattle.rcu_live.specs.Words.{first_words, mask_index, own_word_index};
ghost use Rattle.rcu_live.specs.declared.both_known.BothKnown.{BothKnown};

use crate::client::Client;
use rcu_seq::Fault;

/// A callback is handed out once: it is queued and tended, a grace period begins that finds its
/// processor idle, and ends, and it is tended and run. It comes out as it was queued, and then no
/// list has it.
pub fn a_run_hands_its_callback_out<T: Drop, P: Client>()
    ensures run { (known : P.Known) (table : TableId) (last : Number) (most : ℕ) (value : T) →
        IsRun (engine_at_first table 1 last most known) (Call.Run 0 1 ∷ Call.Tend 0 ∷ Call.End
        ∷ Call.Begin (λ _. idle_word) ∷ Call.Tend 0 ∷ Call.Queue 0 value ∷ []) }
    ensures once { (known : P.Known) (table : TableId) (last : Number) (most : ℕ) (value : T) →
        times_handed_out 1 (engine_at_first table 1 last most known) (Call.Run 0 1 ∷ Call.Tend 0
        ∷ Call.End ∷ Call.Begin (λ _. idle_word) ∷ Call.Tend 0 ∷ Call.Queue 0 value ∷ []) ≡ 1 }
    ensures gone { (known : P.Known) (table : TableId) (last : Number) (most : ℕ) (value : T) →
        times_listed 1 (engine_after (engine_at_first table 1 last most known) (Call.Run 0 1
        ∷ Call.Tend 0 ∷ Call.End ∷ Call.Begin (λ _. idle_word) ∷ Call.Tend 0 ∷ Call.Queue 0 value
        ∷ [])).grace.lists ≡ 0 }
    ensures period { (known : P.Known) (table : TableId) (last : Number) (most : ℕ) (value : T) →
        has_full_period (turns_since 1 (engine_at_first table 1 last most known) (Call.Tend 0
        ∷ Call.End ∷ Call.Begin (λ _. idle_word) ∷ Call.Tend 0 ∷ Call.Queue 0 value ∷ [])) ≡ true }
    ensures later { (known : P.Known) (table : TableId) (last : Number) (most : ℕ) (value : T) →
        has_full_period (turns_since 1 (engine_at_first table 1 last most known)
        (Call.Queue 0 value ∷ Call.End ∷ Call.Begin (λ _. idle_word) ∷ Call.Queue 0 value ∷ []))
        ≡ true }
    ensures queued { (known : P.Known) (table : TableId) (last : Number) (most : ℕ) (value : T) →
        queued_as 1 (engine_at_first table 1 last most known) (Call.Tend 0 ∷ Call.Queue 0 value
        ∷ []) ≡ Some (record { ord = 1; at = first_tag; value = value }) }
    ensures no_other { (known : P.Known) (table : TableId) (last : Number) (most : ℕ) (value : T) →
        queued_as 2 (engine_at_first table 1 last most known) (Call.Tend 0 ∷ Call.Queue 0 value
        ∷ []) ≡ None }
{}

/// A run adds the callbacks that it hands out to those handed out before.
pub fn a_run_adds_what_it_hands_out<T: Drop, P: Client>()
    ensures { (first : Locked P.Known T) (calls : List (Call T)) (ord cpu most : ℕ) →
        times_handed_out ord first (Call.Run cpu most ∷ calls) ≡
        copies ord (take_answer (list_of (engine_after first calls).grace.lists cpu) most)
        + times_handed_out ord first calls }
{}

/// A waiting callback is not handed out: its grace period began and did not end, or began before it
/// was queued, whatever came between. It stays in its list.
pub fn a_callback_that_waits_stays_listed<T: Drop, P: Client>()
    ensures none { (known : P.Known) (table : TableId) (last : Number) (most : ℕ) (value : T) →
        times_handed_out 1 (engine_at_first table 1 last most known) (Call.Run 0 1 ∷ Call.Tend 0
        ∷ Call.Begin (λ _. idle_word) ∷ Call.Tend 0 ∷ Call.Queue 0 value ∷ []) ≡ 0 }
    ensures listed { (known : P.Known) (table : TableId) (last : Number) (most : ℕ) (value : T) →
        times_listed 1 (engine_after (engine_at_first table 1 last most known) (Call.Run 0 1
        ∷ Call.Tend 0 ∷ Call.Begin (λ _. idle_word) ∷ Call.Tend 0 ∷ Call.Queue 0 value
        ∷ [])).grace.lists ≡ 1 }
    ensures begun { (known : P.Known) (table : TableId) (last : Number) (most : ℕ) (value : T) →
        has_full_period (turns_since 1 (engine_at_first table 1 last most known)
        (Call.Begin (λ _. idle_word) ∷ Call.Queue 0 value ∷ [])) ≡ false }
    ensures before { (known : P.Known) (table : TableId) (last : Number) (most : ℕ) (value : T) →
        has_full_period (turns_since 1 (engine_at_first table 1 last most known)
        (Call.End ∷ Call.Queue 0 value ∷ Call.Begin (λ _. idle_word) ∷ [])) ≡ false }
    ensures running { (known : P.Known) (table : TableId) (last : Number) (most : ℕ) (value : T) →
        has_full_period (turns_since 1 (engine_at_first table 1 last most known)
        (Call.End ∷ Call.Tend 0 ∷ Call.Queue 0 value ∷ Call.Begin (λ _. idle_word) ∷ []))
        ≡ false }
{}

/// A step of driving that finds its processor idle is both a begin and an end.
pub fn a_step_of_driving_may_be_a_full_grace_period<T: Drop, P: Client>()
    ensures idle { (known : P.Known) (table : TableId) (last : Number) (most : ℕ) (value : T) →
        has_full_period (turns_since 1 (engine_at_first table 1 last most known)
        (Call.Drive true (λ _. idle_word) ∷ Call.Queue 0 value ∷ [])) ≡ true }
    ensures awaited { (known : P.Known) (table : TableId) (last : Number) (most : ℕ) (value : T) →
        has_full_period (turns_since 1 (engine_at_first table 1 last most known)
        (Call.Drive true (λ _. 1) ∷ Call.Queue 0 value ∷ [])) ≡ false }
{}

/// A barrier counts the callbacks that were queued before its begin, and none that comes later.
pub fn a_barrier_waits_for_what_was_before_it<T: Drop, P: Client>()
    ensures before { (known : P.Known) (table : TableId) (last : Number) (most : ℕ) (value : T) →
        queued_before_barrier (engine_at_first table 1 last most known) (Call.Queue 0 value
        ∷ Call.Visit 0 ∷ Call.BarrierBegin ∷ Call.Queue 0 value ∷ []) ≡ 1 }
    ensures begun { (first : Locked P.Known T) (calls : List (Call T)) → queued_before_barrier first
        (Call.BarrierBegin ∷ calls) ≡ (engine_after first calls).grace.lists.queued }
    ensures waits { (known : P.Known) (table : TableId) (last : Number) (most : ℕ) (value : T) →
        barrier_test_answer (engine_after (engine_at_first table 1 last most known)
        (Call.Queue 0 value ∷ Call.Visit 0 ∷ Call.BarrierBegin ∷ Call.Queue 0 value
        ∷ [])).grace.lists ≡ BarrierState.Waits 1 }
{}

/// A run has no callback call for a processor that does not exist, no leave of processor 0, no
/// second grace period or barrier while one runs, and no end or visit while none runs.
pub fn a_run_has_only_calls_that_may_be_made<T: Drop, P: Client>()
    ensures cpu { (known : P.Known) (table : TableId) (last : Number) (most : ℕ) (value : T) →
        IsRun (engine_at_first table 2 last most known) (Call.Queue 2 value ∷ []) → ⊥ }
    ensures first { (known : P.Known) (table : TableId) (last : Number) (most : ℕ) →
        IsRun {X = T} (engine_at_first table 2 last most known) (Call.Leave 0 0 ∷ []) → ⊥ }
    ensures begin { (known : P.Known) (table : TableId) (last : Number) (most : ℕ) →
        IsRun {X = T} (engine_at_first table 2 last most known)
        (Call.Begin (λ _. 1) ∷ Call.Begin (λ _. 1) ∷ []) → ⊥ }
    ensures end { (known : P.Known) (table : TableId) (last : Number) (most : ℕ) →
        IsRun {X = T} (engine_at_first table 2 last most known) (Call.End ∷ []) → ⊥ }
    ensures visit { (known : P.Known) (table : TableId) (last : Number) (most : ℕ) →
        IsRun {X = T} (engine_at_first table 2 last most known) (Call.Visit 0 ∷ []) → ⊥ }
{}

/// An engine is new when it is opened, and not after a callback was queued. Queuing a callback is a
/// step that leaves another engine.
pub fn an_engine_is_new_until_a_queueing<T: Drop, P: Client>()
    ensures new { (known : P.Known) (table : TableId) (cpus : ℕ) (last : Number) (most : ℕ) →
        IsNew {X = T} (engine_at_first table cpus last most known) }
    ensures used { (known : P.Known) (table : TableId) (last : Number) (most : ℕ) (value : T) →
        IsNew (engine_after (engine_at_first table 1 last most known) (Call.Queue 0 value ∷ []))
        → ⊥ }
    ensures step { (known : P.Known) (table : TableId) (last : Number) (most : ℕ) (value : T) →
        Makes (Call.Queue 0 value) (engine_at_first table 1 last most known)
        (engine_at_first table 1 last most known) → ⊥ }
{}

/// The empty list is a run. A run with one more call that is allowed at its end is a run; and each
/// call of a run is allowed.
pub fn a_run_is_made_call_by_call<T: Drop, P: Client>()
    ensures none { (first : Locked P.Known T) → IsRun first [] }
    ensures more { (first : Locked P.Known T) (call : Call T) (calls : List (Call T)) →
        MayCall (engine_after first calls) call → IsRun first calls →
        IsRun first (call ∷ calls) }
    ensures newest { (first : Locked P.Known T) (call : Call T) (calls : List (Call T)) →
        IsRun first (call ∷ calls) → MayCall (engine_after first calls) call }
    ensures earlier { (first : Locked P.Known T) (call : Call T) (calls : List (Call T)) →
        IsRun first (call ∷ calls) → IsRun first calls }
{}

/// A run from the engine that another run left continues that run: together they are one run, which
/// leaves the engine that the second one leaves.
pub fn a_run_goes_on_from_the_end_of_another<T: Drop, P: Client>()
    ensures run { (first : Locked P.Known T) (calls more : List (Call T)) → IsRun first calls →
        IsRun (engine_after first calls) more → IsRun first (more ++ calls) }
    ensures left { (first : Locked P.Known T) (calls more : List (Call T)) →
        engine_after first (more ++ calls) ≡ engine_after (engine_after first calls) more }
{}

/// A step is an allowed call, and leaves the engine after that call.
pub fn a_step_may_be_made<T: Drop, P: Client>()
    ensures may { (call : Call T) (old new : Locked P.Known T) → Makes call old new →
        MayCall old call }
    ensures left { (call : Call T) (old new : Locked P.Known T) → Makes call old new →
        new ≡ after_call old call }
    ensures step { (call : Call T) (old : Locked P.Known T) → MayCall old call →
        Makes call old (after_call old call) }
    ensures idle { (known : P.Known) (table : TableId) (last : Number) (most : ℕ)
        (new : Locked P.Known T) →
        Makes Call.End (engine_at_first table 1 last most known) new → ⊥ }
{}

/// A noted number is no less than the number that the seat saw before, and at most 2^62; the own
/// word is one more than it. An accepted call has also seen no less.
pub fn a_noted_number_was_seen<P: Client>()
    ensures noted { (s : Seated P.Known) (n : Number) → s.view.seen ≤ n → n ≤ 2 ^ 62 →
        NotedAt after_quiesce s n (after_quiesce s n) }
    ensures word { (s t : Seated P.Known) (n : Number) → NotedAt after_quiesce s n t →
        t.view.own_word ≡ n + 1 }
    ensures earlier { (s t : Seated P.Known) (n : Number) → NotedAt after_quiesce s n t →
        n < s.view.seen → ⊥ }
    ensures beyond { (s t : Seated P.Known) (n : Number) → NotedAt after_quiesce s n t →
        2 ^ 62 < n → ⊥ }
    ensures accepted { (s : Seated P.Known) (n : Number) → s.view.seen ≤ n →
        AcceptedAt after_look s n (after_look s n) }
    ensures accepted_earlier { (s t : Seated P.Known) (n : Number) → AcceptedAt after_look s n t →
        n < s.view.seen → ⊥ }
    ensures saw { (s t : Seated P.Known) (n : Number) → AcceptedAt after_look s n t →
        t.view.seen ≡ n }
{}

/// A renewal passes a quiescent state at a number that is no less than the seat saw before, and at
/// most 2^62: the own word is one more than it. Then a section begins, at a number that is no less.
pub fn a_renewal_is_a_quiescent_state<P: Client>()
    ensures earlier { (wakes : Bool) (closed : P.Known → P.Known) (s t : Seated P.Known)
        (n : Number) → RenewedAt wakes closed s n t → s.view.seen ≤ n }
    ensures later { (wakes : Bool) (closed : P.Known → P.Known) (s t : Seated P.Known)
        (n : Number) → RenewedAt wakes closed s n t → n ≤ t.view.seen }
    ensures bounded { (wakes : Bool) (closed : P.Known → P.Known) (s t : Seated P.Known)
        (n : Number) → RenewedAt wakes closed s n t → n ≤ 2 ^ 62 }
    ensures word { (wakes : Bool) (closed : P.Known → P.Known) (s t : Seated P.Known)
        (n : Number) → RenewedAt wakes closed s n t → t.view.own_word ≡ n + 1 }
    ensures section { (wakes : Bool) (closed : P.Known → P.Known) (s t : Seated P.Known)
        (n : Number) → RenewedAt wakes closed s n t → t.view.section ≡ Some t.view.seen }
    ensures renewed { (closed : P.Known → P.Known) (s : Seated P.Known) (n m : Number) →
        s.view.seen ≤ n → n ≤ m → n ≤ 2 ^ 62 →
        RenewedAt false closed s n (after_renew closed s n m) }
{}

/// A report by a `Live` looks once whether it has to wake waiters, and answers them. A report by
/// the words alone does not look.
pub fn a_report_looks_once<P: Client>()
    ensures looks { (s : Seated P.Known) → (reported true s).view.looks ≡ s.view.looks + 1 }
    ensures answers { (s : Seated P.Known) → (reported true s).view.answered ≡ true }
    ensures alone { (s : Seated P.Known) → reported false s ≡ s }
{}

/// A wait has passed a full grace period: the number has reached the snapshot of the number before
/// it, as it has if the cookie of a number that is no less is done.
pub fn a_wait_has_passed_a_full_grace_period()
    ensures reached { (before now : Number) → HasPassed before now → snapshot before ≤ now }
    ensures done { (before taken now : Number) → before ≤ taken →
        is_done_first (cookie_at (of_first_epoch taken)) now ≡ true → HasPassed before now }
{}

/// In the rounds of a wait the watcher loaded the number this many times more than the processor
/// passed quiescent states, if it is awake and outside of sections. If a section of the caller is
/// open, its seat and its watcher did nothing.
pub fn a_wait_looks_and_rests_by_rounds<P: Client>()
    ensures rounds { (more : ℕ) (s t : Seated P.Known) (w v : Watching P.Known) →
        AreRounds more s t w v → s.depth ≡ 0 → may_open t.view.own_word ≡ true →
        v.view.loads + s.view.loads ≡ w.view.loads + t.view.loads + more }
    ensures seat { (s t : Seated P.Known) (w v : Watching P.Known) →
        HasStayedInside s t w v → 0 < s.depth → t ≡ s }
    ensures watcher { (s t : Seated P.Known) (w v : Watching P.Known) →
        HasStayedInside s t w v → 0 < s.depth → v ≡ w }
{}

/// Under the lock a departure is refused with three faults, and a queue call with three: the
/// departure if a processor is online or offline, the queue call if it is offline or the limit of
/// callbacks is reached, and either if memory was refused.
pub fn a_departure_and_a_queueing_have_three_faults_each()
    ensures leave { (fault : Fault) → is_leave_fault fault ≡ true →
        (fault ≡ Fault.AlreadyOnline) ⊎ ((fault ≡ Fault.Offline) ⊎ (fault ≡ Fault.NoMemory)) }
    ensures queue { (fault : Fault) → is_queue_fault fault ≡ true →
        (fault ≡ Fault.Offline) ⊎ ((fault ≡ Fault.CallbacksFull) ⊎ (fault ≡ Fault.NoMemory)) }
{}

/// A callback that is due has waited: the number has reached the snapshot at which it was queued.
/// At most as many are due as were asked for, and the number is one that the number word may have.
pub fn what_is_due_has_waited<T: Drop>()
    ensures waited { (number most : ℕ) (calls : List (Queued T)) → AreDue number most calls →
        All (λ call. HasWaited number call.at) calls }
    ensures reached { (number : ℕ) (at : Tag) → HasWaited number at →
        snapshot at.number ≤ number }
    ensures few { (number most : ℕ) (calls : List (Queued T)) → AreDue number most calls →
        length calls ≤ most }
    ensures word { (number most : ℕ) (calls : List (Queued T)) → AreDue number most calls →
        is_number_word number ≡ true }
{}

/// A processor leaves only by its own leave call.
pub fn a_processor_leaves_by_its_leave<T: Drop>()
    ensures leave { (cpu word : ℕ) → leaves {X = T} cpu (Call.Leave cpu word) ≡ true }
    ensures no_other { (cpu : ℕ) (call : Call T) → leaves cpu call ≡ true →
        (word : ℕ) × (call ≡ Call.Leave cpu word) }
{}

/// A barrier begins only by its own begin call.
pub fn a_barrier_begins_by_its_begin<T: Drop>()
    ensures begin { begins_barrier {X = T} Call.BarrierBegin ≡ true }
    ensures no_other { (call : Call T) → begins_barrier call ≡ true → call ≡ Call.BarrierBegin }
{}

/// A processor is quiet in a grace period after a departure, after it went idle, and after a
/// quiescent state at the grace period's number or a later one; and not after a quiescent state at
/// an earlier number.
pub fn a_processor_is_quiet_by_its_latest_store<P: Client>()
    ensures departed { (seat : View P.Known) (t : Number) → IsQuiet t (after_store seat 0) }
    ensures idle { (seat : View P.Known) (t : Number) → IsQuiet t (after_store seat idle_word) }
    ensures quiescent { (seat : View P.Known) (t n : Number) → t ≤ n →
        IsQuiet t (after_store seat (n + 1)) }
    ensures earlier { (seat : View P.Known) (t n : Number) → n < t → t ≤ 2 ^ 62 →
        IsQuiet t (after_store seat (n + 1)) → ⊥ }
{}

/// A processor is quiet at a moment by the latest store of its own seat. A processor without a seat
/// is not quiet, nor is one that passed only an earlier number's quiescent state.
pub fn a_moment_tells_who_is_quiet()
    ensures quiet { IsQuietAt {C = Unit {0}} (record {
      words = [];
      homes = [];
      views = after_store (cpu_seat 0 1 tt) 6 ∷ [];
    }) 5 1 }
    ensures earlier { IsQuietAt {C = Unit {0}} (record {
      words = [];
      homes = [];
      views = after_store (cpu_seat 0 1 tt) 5 ∷ [];
    }) 5 1 → ⊥ }
    ensures other { IsQuietAt {C = Unit {0}} (record {
      words = [];
      homes = [];
      views = after_store (cpu_seat 0 1 tt) 6 ∷ [];
    }) 5 0 → ⊥ }
{}

/// The engine of a grace period loads an own word at a moment: it finds the word that is there, and
/// no other, and its load is of the number at that moment. Without the engine there is no load.
pub fn a_load_is_made_at_a_moment()
    ensures loads { LoadsAt {C = Unit {0}} (λ _ _. Unit {0}) 1
        (opening (first_words 1 ++ []) [] (engine_seat 1 0 tt)) 0 0 1 }
    ensures word { LoadsAt {C = Unit {0}} (λ _ _. Unit {0}) 1
        (opening (first_words 1 ++ []) [] (engine_seat 1 0 tt)) 0 0 2 → ⊥ }
    ensures number { LoadsAt {C = Unit {0}} (λ _ _. Unit {0}) 1
        (opening (first_words 1 ++ []) [] (engine_seat 1 0 tt)) 1 0 1 → ⊥ }
    ensures no_engine { LoadsAt {C = Unit {0}} (λ _ _. Unit {0}) 1
        (opening (first_words 1 ++ []) [] (cpu_seat 0 0 tt)) 0 0 1 → ⊥ }
    ensures latest { (v : View (Unit {0})) (cpu word : ℕ) →
        loaded_word (after_own_word_load v (own_word_index cpu) word).own_word_loads cpu ≡ word }
{}

/// The rule of a pair of clients holds if each one's rule holds for its own words, the second's
/// behind the first's, and each seat knows how many words the first has.
pub fn a_pair_holds_where_each_does()
    ensures both { HoldsBoth {C = ℕ} {D = ℕ} (λ words _. words ≡ 1 ∷ []) (λ words _. words ≡ 2 ∷ [])
        1 (1 ∷ 2 ∷ []) [] }
    ensures other_way { HoldsBoth {C = ℕ} {D = ℕ} (λ words _. words ≡ 1 ∷ [])
        (λ words _. words ≡ 2 ∷ []) 1 (2 ∷ 1 ∷ []) [] → ⊥ }
    ensures told { (words : List ℕ) → HoldsBoth {C = ℕ} {D = ℕ} (λ _ _. Unit {0})
        (λ _ _. Unit {0}) 1 words ((None, None, record { first = 0; second = 0; split = 2 }) ∷ [])
        → ⊥ }
    ensures idle { (known : BothKnown ℕ ℕ) →
        (of_both (λ _. 0) (λ n. n) known).second ≡ known.second }
{}

/// A lens that sets nothing is no part of a seat's knowledge, and a part begins at its own first
/// word.
pub fn a_part_is_set_and_has_its_place()
    ensures set { IsLens {D = ℕ} {C = ℕ}
        (record { get = λ c. c; set = λ d _. d; begins = λ base _. base })
        (λ c. c) (λ c. c) (λ c. c) (λ c. c) → ⊥ }
    ensures place { IsPart {D = ℕ} {C = ℕ} whole (λ words _. words ≡ 0 ∷ [])
        (λ words _. words ≡ 0 ∷ []) (λ words. words) 1 (λ c. c) (λ c. c) → ⊥ }
    ensures word { IsWordOf {C = ℕ} (λ words _. words ≡ 0 ∷ []) 0 }
    ensures no_word { IsWordOf {C = ℕ} (λ words _. words ≡ 0 ∷ []) 1 → ⊥ }
{}

/// `absent_from` counts processors in a row: each shares the first one's online mask and has no bit
/// in it, and one more that shares it has its bit.
pub fn absent_processors_have_no_bit()
    ensures mask { (mask cpu cpus other : ℕ) → cpu ≤ other
        → other < cpu + absent_from mask cpu cpus → mask_index other ≡ mask_index cpu }
    ensures bit { (mask cpu cpus other : ℕ) → mask < 2 ^ 64 → cpu ≤ other
        → other < cpu + absent_from mask cpu cpus → has_bit mask (other % 64) ≡ false }
    ensures inside { (mask cpu cpus : ℕ) → cpu < cpus → cpu + absent_from mask cpu cpus ≤ cpus }
    ensures next { (mask cpu cpus : ℕ) → mask < 2 ^ 64
        → cpu + absent_from mask cpu cpus < cpus
        → cpu % 64 + absent_from mask cpu cpus < 64
        → has_bit mask (cpu % 64 + absent_from mask cpu cpus) ≡ true }
{}

/// A moment fulfils the rule of askings if a processor's seat has stored after an asking and not
/// looked yet, and if it has looked and taken the asking back. It does not if the seat has looked
/// and the asking is still in force, or if a processor is asked that no asking named.
pub fn no_moment_has_slept_through_a_report()
    ensures stored { IsAwake {C = Unit {0}} (record {
      words = 0 ∷ 2 ∷ [];
      homes = [];
      views = after_store (cpu_seat 0 1 tt) 5 ∷ asking_of 1 0 0 tt ∷ [];
    }) }
    ensures answered { IsAwake {C = Unit {0}} (record {
      words = 0 ∷ 0 ∷ [];
      homes = [];
      views = after_waking true (after_store (cpu_seat 0 1 tt) 5) ∷ asking_of 1 0 0 tt ∷ [];
    }) }
    ensures slept_through { IsAwake {C = Unit {0}} (record {
      words = 0 ∷ 2 ∷ [];
      homes = [];
      views = after_waking true (after_store (cpu_seat 0 1 tt) 5) ∷ asking_of 1 0 0 tt ∷ [];
    }) → ⊥ }
    ensures from_nowhere { IsAwake {C = Unit {0}} (record {
      words = 0 ∷ 3 ∷ [];
      homes = [];
      views = cpu_seat 0 1 tt ∷ asking_of 1 0 0 tt ∷ [];
    }) → ⊥ }
{}
