//! Two clients of one engine, as one client.
ghost use Rattle.std.specs.Prelude.{◌≡◌, ◌≤◌, ◌<◌, ◌+◌, ◌^◌, IfNone, IfSome};
ghost use Rattle.rcu_live.specs.Several.{HoldsBoth, of_both};
ghost use Rattle.rcu_live.specs.SeveralLaws.{both_are_stable};

use crate::both_known::BothKnown;
use crate::client::Client;
use std::alloc::{AllocError, Global};
use std::marker::PhantomData;

/// The plans of two clients, and how many words the first has.
#[derive(Clone, Copy)]
pub struct BothPlans<A, B> {
    /// The plan of the first.
    pub first: A,
    /// The plan of the second.
    pub second: B,
    /// How many words the first has: those of the second are behind them.
    pub split: usize,
}

/// A pair of clients, each under its own rule. A seat of the engine reads the words of both in one
/// section. A pair of pairs is a client, too.
pub struct Both<A, B> {
    clients: PhantomData<(A, B)>,
}

impl<A: Client, B: Client> Client for Both<A, B> {
    type Plan = BothPlans<A::Plan, B::Plan>;

    type Known = BothKnown<A::Known, B::Known>;

    ghost holds = { λ plan. HoldsBoth (A.holds plan.first) (B.holds plan.second) plan.split };

    ghost first = { λ plan. record {
      first = A.first plan.first;
      second = B.first plan.second;
      split = plan.split;
    } };

    ghost idle = { of_both A.idle B.idle };

    ghost closed = { of_both A.closed B.closed };

    ghost suits = { λ plan. A.suits plan.first × B.suits plan.second
        × (plan.split ≡ A.size plan.first) × (plan.split + B.size plan.second < 2 ^ 64) };

    ghost size = { λ plan. plan.split + B.size plan.second };

    fn count(plan: BothPlans<A::Plan, B::Plan>) -> usize {
        plan.split + B::count(plan.second)
    }

    fn add_words(
        alloc: Global,
        plan: BothPlans<A::Plan, B::Plan>,
        words: &mut Vec<u64>,
    ) -> Result<(), AllocError> {
        A::add_words(alloc, plan.first, words)?;
        B::add_words(alloc, plan.second, words)
    }

    ghost stable = { λ plan. both_are_stable _ _ _ _ _ _ _ (A.stable plan.first)
        (B.stable plan.second) };
}

impl<A: Client, B: Client> Both<A, B> {
    /// Returns the plan of two clients of these plans: none if the number of their words does not
    /// fit.
    pub fn plan(first: A::Plan, second: B::Plan) -> Option<BothPlans<A::Plan, B::Plan>>
        requires first { A.suits first }
        requires second { B.suits second }
        ensures plan { IfSome result (λ plan. plan
            ≡ record { first = first; second = second; split = A.size first }) }
        ensures suits { IfSome result ⟦<Both<A, B> as Client>⟧.suits }
        ensures none { IfNone result (2 ^ 64 ≤ A.size first + B.size second) }
    {
        let split = A::count(first);
        split.checked_add(B::count(second))?;
        Some(BothPlans {
            first,
            second,
            split,
        })
    }
}
