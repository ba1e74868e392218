//! The definitions that the laws use: a case in which each holds, and one in which it does not.
ghost use Rattle.std.specs.Prelude.{◌≡◌, ◌≢◌, ◌<◌, ◌≤◌, [], ◌∷◌, ℕ, List, None, Some, slice_index};
ghost use mathlib.Core.Option.{some};
ghost use lib.ListN.{get_elem?};
ghost use Rattle.rcu_seq.specs.Numbers.{Number};
ghost use Rattle.rcu_live.specs.Rule.{IsKept};
ghost use Rattle.rcu_live.specs.declared.view.Role.TheVariants.{Cpu};
ghost use Rattle.rcu_live.specs.declared.view.View.{View};
ghost use Rattle.rcu_defer.specs.Histories.{Call, NeverFalls, marks_after};
ghost use Rattle.rcu_defer.specs.Moments.{HasOpen, IsMoment, Moment, calls_of};

use rcu_live::Client;

/// At a moment of a thread's call the engine's rule holds, and a tend is at the number of that
/// moment. Calls come in the order of their moments.
pub fn a_tend_is_at_the_number_of_its_moment<T, P: Client>()
    ensures tend { (plan : P.Plan) (cpus : ℕ) (m : Moment P.Known T) →
        IsKept (P.holds plan) cpus m.state →
        m.call ≡ Call.Tend (slice_index m.state.words 0) → IsMoment (P.holds plan) cpus m }
    ensures defer { (plan : P.Plan) (cpus : ℕ) (m : Moment P.Known T) (value : T) →
        IsKept (P.holds plan) cpus m.state → m.call ≡ Call.Defer value →
        IsMoment (P.holds plan) cpus m }
    ensures take { (plan : P.Plan) (cpus : ℕ) (m : Moment P.Known T) (most : ℕ) →
        IsKept (P.holds plan) cpus m.state → m.call ≡ Call.Take most →
        IsMoment (P.holds plan) cpus m }
    ensures other_number { (plan : P.Plan) (cpus : ℕ) (m : Moment P.Known T) (n : Number) →
        m.call ≡ Call.Tend n → n ≢ slice_index m.state.words 0 →
        IsMoment (P.holds plan) cpus m → ⊥ }
    ensures none { calls_of {C = P.Known} {X = T} [] ≡ [] }
    ensures calls { (m : Moment P.Known T) (earlier : List (Moment P.Known T)) →
        calls_of (m ∷ earlier) ≡ m.call ∷ calls_of earlier }
{}

/// A seat has a section open at a moment if its view shows one that began at this number, and none
/// if the view shows none.
pub fn a_moment_has_the_sections_that_its_views_show<T, P: Client>()
    ensures open { (m : Moment P.Known T) (seat : ℕ) (at : Number) (view : View P.Known) →
        get_elem? m.state.views seat ≡ some view → view.role ≡ Cpu → view.section ≡ Some at →
        HasOpen seat at m }
    ensures outside { (m : Moment P.Known T) (seat : ℕ) (at : Number) (view : View P.Known) →
        get_elem? m.state.views seat ≡ some view → view.section ≡ None → HasOpen seat at m → ⊥ }
{}

/// The numbers of the tends never fall if each is no less than that of the tend before. A deferral
/// and a take have no number.
pub fn numbers_never_fall_where_each_is_no_less<T>()
    ensures none { NeverFalls {X = T} [] }
    ensures defer { (calls : List (Call T)) (value : T) → NeverFalls calls →
        NeverFalls (Call.Defer value ∷ calls) }
    ensures take { (calls : List (Call T)) (most : ℕ) → NeverFalls calls →
        NeverFalls (Call.Take most ∷ calls) }
    ensures tend { (calls : List (Call T)) (n : Number) → NeverFalls calls →
        (marks_after calls).seen ≤ n → NeverFalls (Call.Tend n ∷ calls) }
    ensures falls { (calls : List (Call T)) (n later : Number) → later < n →
        NeverFalls (Call.Tend later ∷ Call.Tend n ∷ calls) → ⊥ }
{}
