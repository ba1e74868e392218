//! The place of a client in the client of an engine.
ghost use Rattle.std.specs.Prelude.{◌≡◌, ◌^◌, ◌+◌, ◌<◌, ◌≤◌, ℕ, List, drop, take};
ghost use Rattle.rcu_live.specs.Several.{IsLens, IsPart, Lens, in_first, in_second, whole};
ghost use Rattle.rcu_live.specs.SeveralLaws.{in_first_is_lens, in_first_is_part, in_second_is_lens};
ghost use Rattle.rcu_live.specs.SeveralLaws.{in_second_is_part, whole_is_lens, whole_is_part};

use crate::both::Both;
use crate::client::Client;
use std::marker::PhantomData;

/// The place of a client in the client of an engine: alone, or as one of several.
pub trait Within<C: Client> {
    /// The client of the engine.
    type Whole: Client;

    // The client's part of a seat's knowledge, of the plan, and of the words; and the start of its
    // words, by the start of those of the whole.
    ghost lens: { Lens Self.Whole.Known C.Known };

    ghost own_plan: { Self.Whole.Plan → C.Plan };

    ghost own: { Self.Whole.Plan → List ℕ → List ℕ };

    ghost begins: { ℕ → Self.Whole.Plan → ℕ };

    /// Returns the client's plan.
    fn plan(plan: <Self::Whole as Client>::Plan) -> C::Plan
        ensures { result ≡ own_plan plan };

    /// Returns the start of the client's words among all words.
    fn base(plan: <Self::Whole as Client>::Plan) -> usize
        requires { begins 0 plan < 2 ^ 64 }
        ensures { result ≡ begins 0 plan };

    ghost is_lens: { IsLens lens C.idle C.closed Self.Whole.idle Self.Whole.closed };

    // The first seat's knowledge.
    ghost is_first: { (plan : Self.Whole.Plan) →
        (lens.get (Self.Whole.first plan) ≡ C.first (own_plan plan))
        × ((base : ℕ) → lens.begins base (Self.Whole.first plan) ≡ begins base plan) };

    ghost is_part: { (plan : Self.Whole.Plan) → IsPart lens (Self.Whole.holds plan)
        (C.holds (own_plan plan)) (own plan) (begins 0 plan) C.idle Self.Whole.idle };

    // All words together have room for those of the part.
    ghost has_room: { (plan : Self.Whole.Plan) → Self.Whole.suits plan → C.suits (own_plan plan)
        × (begins 0 plan + C.size (own_plan plan) ≤ Self.Whole.size plan) };
}

/// A client that is the only one of its engine.
pub struct Alone;

impl<C: Client> Within<C> for Alone {
    ghost use Rattle.std.proofs.Common.{arith, refl};

    type Whole = C;

    ghost lens = { whole };

    ghost own_plan = { λ plan. plan };

    ghost own = { λ _ words. words };

    ghost begins = { λ base _. base };

    fn plan(plan: C::Plan) -> C::Plan {
        plan
    }

    fn base(_plan: C::Plan) -> usize {
        0
    }

    ghost is_lens = { whole_is_lens _ _ };

    ghost is_first = { λ plan. (refl, λ base. refl) };

    ghost is_part = { λ plan. whole_is_part _ _ _ (C.stable plan) };

    ghost has_room = { λ plan suits. (suits, omega arith) };
}

/// A client that is in the first of two, at the place `P` there.
pub struct First<P, B> {
    place: PhantomData<(P, B)>,
}

impl<C: Client, P: Within<C>, B: Client> Within<C> for First<P, B> {
    ghost use Rattle.std.proofs.Common.{arith};

    type Whole = Both<P::Whole, B>;

    ghost lens = { in_first P.lens };

    ghost own_plan = { λ plan. P.own_plan plan.first };

    ghost own = { λ plan words. P.own plan.first (take plan.split words) };

    ghost begins = { λ base plan. P.begins base plan.first };

    fn plan(plan: <Both<P::Whole, B> as Client>::Plan) -> C::Plan {
        P::plan(plan.first)
    }

    fn base(plan: <Both<P::Whole, B> as Client>::Plan) -> usize {
        P::base(plan.first)
    }

    ghost is_lens = { in_first_is_lens _ _ _ _ _ P.is_lens _ _ };

    ghost is_first = { λ plan. P.is_first plan.first };

    ghost is_part = { λ plan. in_first_is_part _ _ _ _ _ _ _ _ _ _ _ (P.is_part plan.first)
        (B.stable plan.second) };

    ghost has_room = { λ plan suits.
        let room = P.has_room plan.first suits.0 in
        let split = suits.2 in (room.0, omega (arith, room.1, split)) };
}

/// A client that is in the second of two, at the place `P` there.
pub struct Second<A, P> {
    place: PhantomData<(A, P)>,
}

impl<C: Client, A: Client, P: Within<C>> Within<C> for Second<A, P> {
    ghost use Rattle.std.proofs.Common.{arith, subst, sym};
    ghost use Rattle.rcu_live.specs.Several.{HoldsBoth, of_both};
    ghost use Rattle.rcu_live.specs.SeveralLaws.{begins_second};

    type Whole = Both<A, P::Whole>;

    ghost lens = { in_second P.lens };

    ghost own_plan = { λ plan. P.own_plan plan.second };

    ghost own = { λ plan words. P.own plan.second (drop plan.split words) };

    ghost begins = { λ base plan. P.begins (base + plan.split) plan.second };

    fn plan(plan: <Both<A, P::Whole> as Client>::Plan) -> C::Plan {
        P::plan(plan.second)
    }

    fn base(plan: <Both<A, P::Whole> as Client>::Plan) -> usize {
        plan.split + P::base(plan.second)
    }

    ghost is_lens = { in_second_is_lens _ _ _ _ _ P.is_lens _ _ };

    ghost is_first = { λ plan. (
      (P.is_first plan.second).0,
      λ base. (P.is_first plan.second).1 (base + plan.split),
    ) };

    ghost is_part = { λ plan. subst (λ (base : ℕ). IsPart (in_second P.lens)
        (HoldsBoth (A.holds plan.first) (P.Whole.holds plan.second) plan.split)
        (C.holds (P.own_plan plan.second))
        (λ words. P.own plan.second (drop plan.split words)) base C.idle
        (of_both A.idle P.Whole.idle))
        (sym (begins_second P.lens _ _ _ _ P.is_lens (λ base. P.begins base plan.second)
        (P.Whole.first plan.second) (P.is_first plan.second).1 plan.split))
        (in_second_is_part _ _ _ _ _ _ _ _ _ _ _ P.is_lens (P.is_part plan.second)
        (A.stable plan.first)) };

    ghost has_room = { λ plan suits.
        let room = P.has_room plan.second suits.1 in
        let behind = begins_second P.lens _ _ _ _ P.is_lens (λ base. P.begins base plan.second)
        (P.Whole.first plan.second) (P.is_first plan.second).1 plan.split in
        (room.0, omega (arith, room.1, behind)) };
}
