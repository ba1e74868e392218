//! Laws that pin the definitions of the laws: a case in which each holds, and one in which it does
//! not.
ghost use Rattle.std.specs.Prelude.{◌≡◌, ◌≢◌, ◌≤◌, ◌<◌, ◌+◌, [], ◌∷◌, ℕ, Bool, List, None, Option};
ghost use Rattle.std.specs.Prelude.{Some, false, length, slice_index, true};
ghost use mathlib.Core.Option.{some};
ghost use lib.ListN.{get_elem?};
ghost use Rattle.rcu_seq.specs.Numbers.{Number};
ghost use Rattle.rcu_seq.specs.Seq.{number_of};
ghost use Rattle.rcu_cblist.specs.SegList.{callbacks, front};
ghost use Rattle.rcu_barrier.specs.Lists.{list_of};
ghost use Rattle.rcu_state.specs.GpState.{awaited_in};
ghost use Rattle.rcu_live.specs.CpuSeat.{Seated};
ghost use Rattle.rcu_live.specs.Engine.{Locked};
ghost use Rattle.rcu_live.specs.Rule.{IsKept};
ghost use Rattle.rcu_live.specs.Runs.{Call, engine_after};
ghost use Rattle.rcu_live.specs.View.{IsOfEngine};
ghost use Rattle.rcu_live.specs.declared.view.Role.TheVariants.{Cpu};
ghost use Rattle.rcu_graph.specs.declared.known.Planned.{Planned};
ghost use Rattle.rcu_request.specs.Requests.{cpu_word};
ghost use Rattle.rcu_c.specs.BarrierSteps.{whole_step};
ghost use Rattle.rcu_c.specs.Belonging.{BelongsTo, HasSectionAt, IsEngineAt, IsMapKept, Moment};
ghost use Rattle.rcu_c.specs.Engines.{EngineAndSeats, is_own};
ghost use Rattle.rcu_c.specs.Holding.{AcceptedAt, RenewedAt, WatchedAt, cpu_of, engine_of};
ghost use Rattle.rcu_c.specs.Holding.{grace_of, on_cpu, opened_of, requester_of, requests_of};
ghost use Rattle.rcu_c.specs.Holding.{seat_of, watcher_of, writer_of};
ghost use Rattle.rcu_c.specs.MapEntries.{told};
ghost use Rattle.rcu_map.specs.Chains.{capacity};
ghost use Rattle.rcu_c.specs.MapSizes.{are_sizes, least_sizes, plan_of_sizes};
ghost use Rattle.rcu_c.specs.Progress.{AreQuiet, HandedOut, Waited, puts_off, runs};
ghost use Rattle.rcu_c.specs.Seats.{Seat};
ghost use Rattle.rcu_c.specs.Sleeps.{IsFirst, IsForFirst, awaits};
ghost use Rattle.rcu_c.specs.Staying.{AllStay, BothStay};
ghost use Rattle.rcu_c.specs.declared.contents.Contents.{Contents};
ghost use Rattle.rcu_c.specs.declared.map_sizes.MapSizes.{MapSizes};
ghost use Rattle.rcu_map.specs.Keys.{key_in};

/// A moment has the open section of a seat if its views show it, and none of a seat outside of one.
/// It has an engine if the rule holds, its views show the engine's view, and that has seen the
/// engine's number.
pub fn moments_have_what_their_views_show()
    ensures section { (now : Moment) (id : ℕ) (seat : Option Contents) (at : Number) →
        get_elem? now.views id ≡ some (cpu_of seat).view → (cpu_of seat).view.role ≡ Cpu →
        (cpu_of seat).view.section ≡ Some at → HasSectionAt now id seat at }
    ensures outside { (now : Moment) (id : ℕ) (seat : Option Contents) (at : Number) →
        (cpu_of seat).view.section ≡ None → HasSectionAt now id seat at → ⊥ }
    ensures engine { (now : Moment) (id : ℕ) (rcu : Option Contents) →
        IsKept (IsMapKept (engine_of rcu).view.client.plan) (engine_of rcu).cpus now →
        get_elem? now.views id ≡ some (engine_of rcu).view → IsOfEngine (engine_of rcu).view →
        (engine_of rcu).view.seen ≡ number_of (grace_of rcu).seq → IsEngineAt now id rcu }
    ensures other_number { (now : Moment) (id : ℕ) (rcu : Option Contents) →
        (engine_of rcu).view.seen ≢ number_of (grace_of rcu).seq → IsEngineAt now id rcu → ⊥ }
{}

/// A seat that belongs to an engine reads its words and its map, makes requests in the words that
/// the engine reads, and the engine takes it. An engine takes no seat with another identity, or of
/// a processor that the engine does not have.
pub fn seats_belong_to_who_takes_them()
    ensures taken { (seat rcu : Option Contents) → BelongsTo seat rcu →
        is_own (opened_of rcu) (seat_of seat) ≡ true }
    ensures requests { (seat rcu : Option Contents) → BelongsTo seat rcu →
        (requester_of seat).words ≡ (requests_of rcu).words }
    ensures table { (seat rcu : Option Contents) → BelongsTo seat rcu →
        (seat_of seat).words.table ≡ (engine_of rcu).table }
    ensures cpus { (seat rcu : Option Contents) → BelongsTo seat rcu →
        (seat_of seat).words.cpus ≡ (engine_of rcu).cpus }
    ensures map { (seat rcu : Option Contents) → BelongsTo seat rcu →
        (seat_of seat).words.table ≡ (writer_of rcu).table }
    ensures plan { (seat rcu : Option Contents) → BelongsTo seat rcu →
        (seat_of seat).words.plan ≡ (writer_of rcu).view.client.plan }
    ensures place { (opened : EngineAndSeats) (seat : Seat) →
        opened.identity.place ≢ seat.identity.place → is_own opened seat ≡ false }
    ensures count { (opened : EngineAndSeats) (seat : Seat) →
        opened.identity.count ≢ seat.identity.count → is_own opened seat ≡ false }
    ensures beyond { (opened : EngineAndSeats) (seat : Seat) →
        opened.engine.cpus ≤ seat.cpu.cpu → is_own opened seat ≡ false }
{}

/// A seat's call that was accepted at a number saw no less than what its processor's seat saw
/// before, and so did a renewal, whose next section began at no less. A watcher's load saw no less
/// than what the watcher saw.
pub fn accepted_calls_saw_no_less()
    ensures left { (after : Seated Planned → Number → Seated Planned) (n : Number)
        (seat now : Option Contents) → AcceptedAt after seat n now →
        now ≡ on_cpu (λ s. after s n) seat }
    ensures accepted { (after : Seated Planned → Number → Seated Planned) (n : Number)
        (seat now : Option Contents) → AcceptedAt after seat n now → (cpu_of seat).view.seen ≤ n }
    ensures renewed { (seat now : Option Contents) (n : Number) → RenewedAt seat n now →
        (cpu_of seat).view.seen ≤ n }
    ensures onward { (seat now : Option Contents) (n : Number) → RenewedAt seat n now →
        n ≤ (cpu_of now).view.seen }
    ensures word { (seat now : Option Contents) (n : Number) → RenewedAt seat n now →
        (cpu_of now).view.own_word ≡ n + 1 }
    ensures watched { (seat now : Option Contents) (n : Number) → WatchedAt seat n now →
        (watcher_of seat).view.seen ≤ n }
{}

/// The driver sleeps for the first awaited processor, if one is still awaited, and may sleep if
/// that first one is; else it sleeps for none, and may not.
pub fn who_drives_sleeps_for_the_first_that_is_awaited()
    ensures first { (e now : Locked Planned ℕ) (word : ℕ) (sleeps : Bool) →
        0 < awaited_in now.grace → IsForFirst e now word sleeps →
        (cpu : Option ℕ) × IsFirst e cpu × (word ≡ cpu_word cpu) × (sleeps ≡ awaits now cpu) }
    ensures word { (e now : Locked Planned ℕ) (word : ℕ) (sleeps : Bool) →
        awaited_in now.grace ≡ 0 → IsForFirst e now word sleeps → word ≡ 0 }
    ensures awake { (e now : Locked Planned ℕ) (word : ℕ) (sleeps : Bool) →
        awaited_in now.grace ≡ 0 → IsForFirst e now word sleeps → sleeps ≡ false }
{}

/// Two things that stay are as before, and so are three.
pub fn what_stays_is_what_it_was()
    ensures first { (a a' b b' : ℕ) → BothStay a a' b b' → a' ≡ a }
    ensures second { (a a' b b' : ℕ) → BothStay a a' b b' → b' ≡ b }
    ensures all { (a a' b b' c c' : ℕ) → AllStay a a' b b' c c' → (a' ≡ a) × (b' ≡ b) × (c' ≡ c) }
{}

/// A buffer of C gets the words of an entry. If there is no entry, it gets the key 0, and its other
/// words stay.
pub fn rooms_are_told_of_entries()
    ensures entry { (room words : List ℕ) → told room (Some words) ≡ words }
    ensures none { (room : List ℕ) → 0 < length room → key_in (told room None) ≡ 0 }
    ensures others { (room : List ℕ) (i : ℕ) → 0 < i →
        slice_index (told room None) i ≡ slice_index room i }
{}

/// An entry has as many words as its map's sizes say: two if they say 0, and never one. The map has
/// room for as many entries as they say.
pub fn sizes_say_how_many_words_an_entry_has()
    ensures two { (s : MapSizes) → s.words ≡ 0 → (plan_of_sizes s).words ≡ 2 }
    ensures said { (s : MapSizes) → 0 < s.words → (plan_of_sizes s).words ≡ s.words }
    ensures one { (s : MapSizes) → s.words ≡ 1 → are_sizes s ≡ false }
    ensures entries { (s : MapSizes) → capacity (plan_of_sizes s) ≡ s.entries }
    ensures least { are_sizes least_sizes ≡ true }
{}

/// Runs of all lists are one of each, with the room that there is for it.
pub fn runs_of_all_lists_are_one_of_each()
    ensures none { (most : ℕ → ℕ) → runs {X = ℕ} most 0 ≡ [] }
    ensures two { (most : ℕ → ℕ) → runs {X = ℕ} most 2
        ≡ Call.Run 1 (most 1) ∷ Call.Run 0 (most 0) ∷ [] }
{}

/// A departure that moves a list puts off the end of a barrier, and so does another barrier's
/// begin. A queueing does not, nor does a departure that moves none.
pub fn departures_put_off_the_end_of_a_barrier()
    ensures moved { (cpu word : ℕ) → puts_off {X = ℕ} (Call.Leave cpu word) ≡ true }
    ensures begun { puts_off {X = ℕ} Call.BarrierBegin ≡ true }
    ensures queued { (cpu value : ℕ) → puts_off (Call.Queue cpu value) ≡ false }
    ensures departed { (cpu word : ℕ) → puts_off {X = ℕ} (Call.Depart cpu word) ≡ false }
{}

/// Words are quiet if each processor is offline. They are not if one woke without a load of the
/// number.
pub fn words_are_quiet_where_each_says_so()
    ensures offline { (e : Locked Planned ℕ) → AreQuiet e (λ _. 0) }
    ensures woken { (e : Locked Planned ℕ) (word : ℕ → ℕ) (cpu : ℕ) → word cpu ≡ 1 →
        AreQuiet e word → ⊥ }
{}

/// A step of waiting and a run of each list lead on while the barrier runs, and not after its end.
pub fn a_wait_leads_on_while_its_barrier_runs()
    ensures waited { (e : Locked Planned ℕ) (word : ℕ → ℕ) →
        (engine_after e (whole_step e word)).grace.lists.running ≡ true →
        Waited e word (engine_after e (whole_step e word)) }
    ensures handed_out { (e : Locked Planned ℕ) (most : ℕ → ℕ) → ((cpu : ℕ) → cpu < e.cpus →
        length (callbacks (front (list_of e.grace.lists cpu))) ≤ most cpu) →
        (engine_after e (runs most e.cpus)).grace.lists.running ≡ true →
        HandedOut e (engine_after e (runs most e.cpus)) }
    ensures over { (e now : Locked Planned ℕ) (word : ℕ → ℕ) →
        now.grace.lists.running ≡ false → Waited e word now → ⊥ }
    ensures done { (e now : Locked Planned ℕ) → now.grace.lists.running ≡ false →
        HandedOut e now → ⊥ }
{}
