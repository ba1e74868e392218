//! Laws that combine the definitions of handles.
ghost use Rattle.std.specs.Prelude.{◌≡◌, ◌≢◌, ◌<◌, ◌≤◌, ◌+◌, ◌-◌, ◌^◌, ◌∷◌, ◌++◌, ℕ, List, None};
ghost use Rattle.std.specs.Prelude.{Option, Some, false, if◌then◌else◌, length, slice_get, true};
ghost use Rattle.atomic_table.specs.Seated.{TableId};
ghost use Rattle.rcu_seq.specs.Numbers.{Number};
ghost use Rattle.rcu_seq.specs.Seq.{cookie_of, has_full_period, number_of, tag_of};
ghost use Rattle.rcu_seq.specs.Tags.{is_done_first};
ghost use Rattle.rcu_seq.specs.declared.cookie.Cookie.{Cookie};
ghost use Rattle.rcu_cblist.specs.SegList.{take_answer};
ghost use Rattle.rcu_cblist.specs.declared.items.Queued.{Queued};
ghost use Rattle.rcu_barrier.specs.Lists.{barrier_test_answer, list_of};
ghost use Rattle.rcu_barrier.specs.Runs.{times_listed};
ghost use Rattle.rcu_barrier.specs.declared.lists.BarrierState.{BarrierState};
ghost use Rattle.rcu_state.specs.GpState as grace;
ghost use Rattle.rcu_state.specs.GpState.{Grace, awaited_in};
ghost use Rattle.rcu_live.specs.CpuSeat.{Seated};
ghost use Rattle.rcu_live.specs.Drive.{after_drive, moved_on, wants_begin, wants_for};
ghost use Rattle.rcu_live.specs.Engine as live;
ghost use Rattle.rcu_live.specs.Engine.{HasWaited, Locked, cpu_refusal};
ghost use Rattle.rcu_live.specs.EngineLists as lists;
ghost use Rattle.rcu_live.specs.EngineLists.{visit_refusal};
ghost use Rattle.rcu_live.specs.Runs.{Call, IsNew, IsRun, Makes, engine_after, queued_as};
ghost use Rattle.rcu_live.specs.Runs.{queued_before_barrier, times_handed_out, turns_since};
ghost use Rattle.rcu_live.specs.Watcher.{Watching};
ghost use Rattle.rcu_graph.specs.Graph.{IsOfSameGraph};
ghost use Rattle.rcu_graph.specs.declared.known.Planned.{Planned};
ghost use Rattle.rcu_graph.specs.declared.plan.Plan.{Plan};
ghost use Rattle.rcu_c.specs.Answers.{left_of, number_for};
ghost use Rattle.rcu_c.specs.BarrierSteps.{before_drive, begun, step_answer, visits, whole_step};
ghost use Rattle.rcu_c.specs.Belonging.{BelongsTo, HasSectionAt, IsEngineAt, IsSameObject, Moment};
ghost use Rattle.rcu_c.specs.Engines.{EngineAndSeats, opened_at_first, seat_at, with_seat};
ghost use Rattle.rcu_c.specs.Engines.{without_seat};
ghost use Rattle.rcu_c.specs.Holding.{cpu_of, engine_of, grace_of, never_done, no_engine, no_seat};
ghost use Rattle.rcu_c.specs.Holding.{on_cpu, on_engine, on_grace, on_opened, on_watcher, seat_of};
ghost use Rattle.rcu_c.specs.Holding.{writer_of};
ghost use Rattle.rcu_c.specs.Maps.{on_writer};
ghost use Rattle.rcu_c.specs.Refusals.{CanQueue, engine_number, going_refusal};
ghost use Rattle.rcu_c.specs.Seats.{Seat, seat_at_first};
ghost use Rattle.rcu_c.specs.Sleeps.{after_saying};
ghost use Rattle.rcu_c.specs.declared.contents.Contents.{Contents};
ghost use Rattle.rcu_c.specs.declared.identity.Identity.{Identity};

use crate::open_engine::Rule;
use rcu_live::{definition_laws, laws};

/// A newly opened engine has a seat to deal for each processor. Each seat belongs to it: the seat
/// reads the words that the engine writes, and the engine's map, and the engine takes it.
pub fn dealt_seats_are_of_their_engine()
    ensures waits { (identity : Identity) (table requests : TableId) (plan : Plan)
        (cpus last cpu : ℕ) → cpu < cpus →
        seat_at (opened_at_first identity table requests plan cpus last) cpu
        ≡ Some (seat_at_first identity table requests plan cpus cpu) }
    ensures own { (identity : Identity) (table requests : TableId) (plan : Plan)
        (cpus last cpu : ℕ) → cpu < cpus →
        BelongsTo (Some (Contents.Seat (seat_at_first identity table requests plan cpus cpu)))
        (Some (Contents.Engine (opened_at_first identity table requests plan cpus last))) }
{}

/// A seat is dealt to one thread at a time: a dealt seat cannot be dealt again. A seat that is
/// returned can be dealt again, in its state, and no other processor's seat changes.
pub fn returned_seats_are_dealt_again()
    ensures once { (opened : EngineAndSeats) (cpu : ℕ) →
        seat_at (without_seat opened cpu) cpu ≡ None }
    ensures again { (opened : EngineAndSeats) (seat : Seat) → seat.cpu.cpu < length opened.seats →
        seat_at (with_seat opened seat) seat.cpu.cpu ≡ Some seat }
    ensures others { (opened : EngineAndSeats) (seat : Seat) (cpu : ℕ) → cpu ≢ seat.cpu.cpu →
        seat_at (with_seat opened seat) cpu ≡ seat_at opened cpu }
{}

/// A seat stays one of its engine's, whatever a call leaves of the two: a call changes of an
/// engine neither which words it writes nor how many processors it has, and of a seat not its
/// processor.
pub fn seats_stay_of_their_engine()
    ensures engine { (change : Locked Planned ℕ → Locked Planned ℕ)
        (seat rcu : Option Contents) → ((e : Locked Planned ℕ) → IsSameObject e (change e)) →
        BelongsTo seat rcu → BelongsTo seat (on_engine change rcu) }
    ensures grace { (change : Grace ℕ → Grace ℕ) (seat rcu : Option Contents) →
        BelongsTo seat rcu → BelongsTo seat (on_grace change rcu) }
    ensures begin { (e : Locked Planned ℕ) (word : ℕ → ℕ) →
        IsSameObject e (live.after_begin e word) }
    ensures end { (e : Locked Planned ℕ) → IsSameObject e (live.after_end e) }
    ensures turn { (e : Locked Planned ℕ) (word : ℕ → ℕ) →
        IsSameObject e (live.after_turn e word) }
    ensures collect { (e : Locked Planned ℕ) (cpu word : ℕ) →
        IsSameObject e (live.after_collect e cpu word) }
    ensures leave { (e : Locked Planned ℕ) (cpu word : ℕ) →
        IsSameObject e (lists.after_leave e cpu word) }
    ensures dealt { (cpu : ℕ) (seat rcu : Option Contents) → BelongsTo seat rcu →
        BelongsTo seat (on_opened (λ o. without_seat o cpu) rcu) }
    ensures returned { (other seat rcu : Option Contents) → BelongsTo seat rcu →
        BelongsTo seat (on_opened (λ o. with_seat o (seat_of other)) rcu) }
    ensures cpu { (change : Seated Planned → Seated Planned) (seat rcu : Option Contents) →
        ((s : Seated Planned) → (change s).cpu ≡ s.cpu) →
        BelongsTo seat rcu → BelongsTo (on_cpu change seat) rcu }
    ensures map { (seat rcu now : Option Contents) → now ≡ on_writer (λ _. writer_of now) rcu →
        IsOfSameGraph (writer_of rcu) (writer_of now) → BelongsTo seat rcu → BelongsTo seat now }
    ensures watcher { (change : Watching Planned → Watching Planned)
        (seat rcu : Option Contents) →
        BelongsTo seat rcu → BelongsTo (on_watcher change seat) rcu }
{}

/// The results of calls for a handle that they do not take. There is no processor, the number is 0,
/// no grace period runs, no processor is awaited, and no seat can be dealt. A seat is of no
/// processor, is offline, and has no section open. A cookie is done at no number that an engine
/// has.
pub fn what_is_not_open_says_no()
    ensures cpus { no_engine.engine.cpus ≡ 0 }
    ensures number { number_of no_engine.engine.grace.seq ≡ 0 }
    ensures idle { no_engine.engine.grace.seq.running ≡ false }
    ensures awaited { awaited_in no_engine.engine.grace ≡ 0 }
    ensures seats { (cpu : ℕ) → seat_at no_engine cpu ≡ None }
    ensures cpu { no_seat.cpu.cpu ≡ 2 ^ 32 - 1 }
    ensures outside { no_seat.cpu.depth ≡ 0 }
    ensures offline { no_seat.cpu.view.own_word ≡ 0 }
    ensures never { (number : ℕ) → number ≤ 2 ^ 62 →
        is_done_first (record { epoch = 0; number = never_done }) number ≡ false }
{}

/// If a section that was open when a cookie was taken, or a value queued, is still open, `rcu_poll`
/// does not return done for the cookie, and `rcu_run` does not hand the value out.
pub fn sections_end_before_what_waits_for_them()
    ensures poll { (before after : Moment) (i j k l : ℕ) (at : Number)
        (taking polled seat later : Option Contents) → IsEngineAt before i taking →
        HasSectionAt before j seat at → IsEngineAt after k polled → HasSectionAt after l later at →
        (engine_of polled).cpus ≡ (engine_of taking).cpus →
        is_done_first (record { epoch = 0; number = (cookie_of (grace_of taking).seq).number })
        (number_of (grace_of polled).seq) ≡ false }
    ensures run { (before after : Moment) (i j k l : ℕ) (at : Number)
        (queueing running seat later : Option Contents) → IsEngineAt before i queueing →
        HasSectionAt before j seat at → IsEngineAt after k running → HasSectionAt after l later at →
        (engine_of running).cpus ≡ (engine_of queueing).cpus →
        HasWaited (number_of (grace_of running).seq) (tag_of (grace_of queueing).seq) → ⊥ }
{}

/// Each call that changes an engine, and returns 0, is a step of a run of it: its clause `state`
/// gives the engine after the step, and its faults exclude the cases in which the step is not
/// allowed. A departure that returns 2 or 16 is a step, too. Collecting from all processors, also
/// before a sleep (`rcu_driver_prepare_wait`), is no step if no grace period runs: it then changes
/// nothing. Neither is an update of the map, or a wait for a node that finds one free: they leave
/// the running engine as it is. An engine is new when it is opened.
pub fn calls_are_steps_of_a_run()
    ensures new { (identity : Identity) (table requests : TableId) (plan : Plan) (cpus last : ℕ) →
        IsNew (opened_at_first identity table requests plan cpus last).engine }
    ensures map { (change : Watching Planned → Watching Planned) (rcu : Option Contents) →
        engine_of (on_writer change rcu) ≡ engine_of rcu }
    ensures begin { (rcu : Option Contents) (word : ℕ → ℕ) →
        engine_number rcu (number_for (grace.begin_refusal (grace_of rcu))) ≡ 0 →
        Makes (Call.Begin word) (engine_of rcu)
        (engine_of (on_engine (λ e. live.after_begin e word) rcu)) }
    ensures end { (rcu : Option Contents) →
        engine_number rcu (number_for (grace.end_refusal (grace_of rcu))) ≡ 0 →
        Makes Call.End (engine_of rcu) (engine_of (on_engine (λ e. live.after_end e) rcu)) }
    ensures turn { (rcu : Option Contents) (word : ℕ → ℕ) → Makes (Call.Turn word)
        (engine_of rcu) (engine_of (on_engine (λ e. live.after_turn e word) rcu)) }
    ensures collect { (rcu : Option Contents) (cpu word : ℕ) → Makes (Call.Collect cpu word)
        (engine_of rcu) (engine_of (on_engine (λ e. live.after_collect e cpu word) rcu)) }
    ensures collect_all { (rcu : Option Contents) (word : ℕ → ℕ) →
        (grace_of rcu).seq.running ≡ true → Makes (Call.CollectAwaited word) (engine_of rcu)
        (engine_of (on_engine (λ e. moved_on e false word) rcu)) }
    ensures may_sleep { (rcu : Option Contents) (said : ℕ) (word : ℕ → ℕ) →
        (grace_of rcu).seq.running ≡ true → Makes (Call.CollectAwaited word) (engine_of rcu)
        (engine_of (on_opened (λ o. after_saying o said word) rcu)) }
    ensures idle { (rcu : Option Contents) (said : ℕ) (word : ℕ → ℕ) →
        (grace_of rcu).seq.running ≡ false →
        engine_of (on_opened (λ o. after_saying o said word) rcu) ≡ engine_of rcu }
    ensures drive { (rcu : Option Contents) (word : ℕ → ℕ) →
        Makes (Call.Drive (wants_begin (grace_of rcu)) word) (engine_of rcu)
        (engine_of (on_engine (λ e. after_drive e (wants_begin e.grace) word) rcu)) }
    ensures drive_for { (rcu : Option Contents) (cookie : Cookie) (word : ℕ → ℕ) →
        Makes (Call.Drive (wants_for cookie (grace_of rcu)) word) (engine_of rcu)
        (engine_of (on_engine (λ e. after_drive e (wants_for cookie e.grace) word) rcu)) }
    ensures start_poll { (rcu : Option Contents) → Makes Call.StartPoll (engine_of rcu)
        (engine_of (on_grace (λ g. grace.after_start_poll g) rcu)) }
    ensures arrive { (rcu : Option Contents) (cpu : ℕ) → Makes (Call.Join cpu) (engine_of rcu)
        (engine_of (on_grace (λ g. lists.with_arrival g cpu) rcu)) }
    ensures depart { (rcu seat : Option Contents) (word : ℕ) → going_refusal rcu seat ≡ None →
        Makes (Call.Leave (cpu_of seat).cpu word) (engine_of rcu)
        (engine_of (on_engine (λ e. lists.after_leave e (cpu_of seat).cpu word) rcu)) }
    ensures looked { (rcu : Option Contents) (cpu word : ℕ) → Makes (Call.Look cpu word)
        (engine_of rcu) (engine_of (on_engine (λ e. lists.after_load_own e cpu word) rcu)) }
    ensures departed { (rcu : Option Contents) (cpu word : ℕ) → Makes (Call.Depart cpu word)
        (engine_of rcu) (engine_of (on_engine (λ e. lists.after_departure e cpu word) rcu)) }
    ensures queue { (rcu : Option Contents) (cpu value : ℕ) → CanQueue (engine_of rcu) cpu →
        Makes (Call.Queue cpu value) (engine_of rcu)
        (engine_of (on_grace (λ g. grace.after_queue g cpu value) rcu)) }
    ensures tend { (rcu : Option Contents) (cpu : ℕ) →
        engine_number rcu (number_for (cpu_refusal (engine_of rcu) cpu)) ≡ 0 →
        Makes (Call.Tend cpu) (engine_of rcu)
        (engine_of (on_grace (λ g. grace.after_tend g cpu) rcu)) }
    ensures run { (rcu : Option Contents) (cpu most : ℕ) →
        engine_number rcu (number_for (cpu_refusal (engine_of rcu) cpu)) ≡ 0 →
        Makes (Call.Run cpu most) (engine_of rcu)
        (engine_of (on_grace (λ g. grace.after_run g cpu most) rcu)) }
    ensures barrier_begin { (rcu : Option Contents) →
        engine_number rcu (if (grace_of rcu).lists.running then 13 else 0) ≡ 0 →
        Makes Call.BarrierBegin (engine_of rcu)
        (engine_of (on_grace (λ g. grace.after_barrier_begin g) rcu)) }
    ensures visit { (rcu : Option Contents) (cpu : ℕ) →
        engine_number rcu (number_for (visit_refusal (engine_of rcu) cpu)) ≡ 0 →
        Makes (Call.Visit cpu) (engine_of rcu)
        (engine_of (on_grace (λ g. grace.after_visit g cpu) rcu)) }
    ensures barrier_test { (rcu : Option Contents) →
        engine_number rcu (if (grace_of rcu).lists.running then 0 else 14) ≡ 0 →
        Makes Call.BarrierTest (engine_of rcu)
        (engine_of (on_grace (λ g. grace.after_barrier_test g) rcu)) }
{}

/// Calls after a run continue it: a run from the engine that another run left forms one run with
/// that, and leaves the engine that the second one leaves.
pub fn a_run_goes_on_from_the_end_of_another()
    ensures run { (first : Locked Planned ℕ) (calls more : List (Call ℕ)) → IsRun first calls →
        IsRun (engine_after first calls) more → IsRun first (more ++ calls) }
    ensures left { (first : Locked Planned ℕ) (calls more : List (Call ℕ)) →
        engine_after first (more ++ calls) ≡ engine_after (engine_after first calls) more }
{
    definition_laws::a_run_goes_on_from_the_end_of_another::<u64, Rule>();
}

/// A step of waiting for a barrier is a run of calls: whole, up to its step of driving if that is
/// refused, and as far as it visited if memory was refused.
pub fn waiting_for_a_barrier_is_a_run()
    ensures whole { (e : Locked Planned ℕ) (word : ℕ → ℕ) → IsRun e (whole_step e word) }
    ensures ready { (e : Locked Planned ℕ) → IsRun e (before_drive e) }
    ensures part { (e : Locked Planned ℕ) (cpu : ℕ) → cpu ≤ e.cpus →
        IsRun e (visits cpu ++ begun e) }
{}

/// No callback runs twice: each value that was queued is handed out at most once.
pub fn no_callback_runs_twice()
    ensures { (first : Locked Planned ℕ) (calls : List (Call ℕ)) (place : ℕ) →
        IsNew first → IsRun first calls → times_handed_out place first calls ≤ 1 }
{
    laws::no_callback_runs_twice::<u64, Rule>();
}

/// No callback is lost while its engine is open: each one that was queued was handed out or lies in
/// one list, once.
pub fn no_callback_is_lost()
    ensures { (first : Locked Planned ℕ) (calls : List (Call ℕ)) (place : ℕ) → IsNew first →
        IsRun first calls → 0 < place →
        place ≤ (engine_after first calls).grace.lists.queued →
        times_handed_out place first calls
        + times_listed place (engine_after first calls).grace.lists ≡ 1 }
{
    laws::no_callback_is_lost::<u64, Rule>();
}

/// A barrier covers earlier callbacks: when its test writes 0, each callback that was queued before
/// it began has been handed out.
pub fn barrier_covers_earlier_callbacks()
    ensures { (first : Locked Planned ℕ) (calls : List (Call ℕ)) (place : ℕ) → IsNew first →
        IsRun first (Call.BarrierTest ∷ calls) →
        barrier_test_answer (engine_after first calls).grace.lists ≡ BarrierState.Done →
        0 < place → place ≤ queued_before_barrier first calls →
        times_handed_out place first calls ≡ 1 }
{
    laws::barrier_covers_earlier_callbacks::<u64, Rule>();
}

/// A barrier that was waited for until 0 was written covers the callbacks that were queued before
/// it began. It began in the first step of the wait if none ran, and earlier otherwise: a step that
/// joins a barrier begins none.
pub fn a_barrier_waited_for_covers_earlier_callbacks()
    ensures begun { (first : Locked Planned ℕ) (calls : List (Call ℕ)) (word : ℕ → ℕ) →
        (engine_after first calls).grace.lists.running ≡ false →
        queued_before_barrier first (whole_step (engine_after first calls) word ++ calls)
        ≡ (engine_after first calls).grace.lists.queued }
    ensures joined { (first : Locked Planned ℕ) (calls : List (Call ℕ)) (word : ℕ → ℕ) →
        (engine_after first calls).grace.lists.running ≡ true →
        queued_before_barrier first (whole_step (engine_after first calls) word ++ calls)
        ≡ queued_before_barrier first calls }
    ensures covered { (first : Locked Planned ℕ) (calls : List (Call ℕ)) (word : ℕ → ℕ)
        (place : ℕ) → IsNew first → IsRun first calls →
        left_of (step_answer (engine_after first calls) word) ≡ 0 → 0 < place →
        place ≤ queued_before_barrier first
        (whole_step (engine_after first calls) word ++ calls) →
        times_handed_out place first (whole_step (engine_after first calls) word ++ calls) ≡ 1 }
{
    a_run_goes_on_from_the_end_of_another();
    barrier_covers_earlier_callbacks();
}

/// No callback runs early: each callback that is handed out is as it was queued, and a full grace
/// period began and ended since.
pub fn no_callback_runs_early()
    ensures queued { (first : Locked Planned ℕ) (calls : List (Call ℕ)) (cpu most at : ℕ)
        (handed : Queued ℕ) → IsNew first → IsRun first calls →
        slice_get (take_answer (list_of (engine_after first calls).grace.lists cpu) most) at
        ≡ Some handed → queued_as handed.ord first calls ≡ Some handed }
    ensures period { (first : Locked Planned ℕ) (calls : List (Call ℕ)) (cpu most at : ℕ)
        (handed : Queued ℕ) → IsNew first → IsRun first calls →
        slice_get (take_answer (list_of (engine_after first calls).grace.lists cpu) most) at
        ≡ Some handed → has_full_period (turns_since handed.ord first calls) ≡ true }
{
    laws::no_callback_runs_early::<u64, Rule>();
}
