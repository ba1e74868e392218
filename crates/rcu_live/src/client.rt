//! Room for a client of the engine: words and views of its own, under a rule of its own.
ghost use Rattle.std.specs.Prelude.{◌≡◌, List, OnOk, ℕ};
ghost use Rattle.rcu_live.specs.Client.{HasAdded, IsStable, Views};

use std::alloc::{AllocError, Global};

/// A client of the engine. Its words are behind the engine's, and each seat's view has a part for
/// the client. Its plan is fixed when its engine is opened.
///
/// Its law: its rule is kept when a section opens or closes, when a seat is dealt, and when the
/// knowledge of the first seat is handed over.
pub trait Client {
    /// The configuration of the client, fixed when its engine is opened: its size, for example.
    type Plan: Copy;

    /// The knowledge of a seat about the client. It exists only in proofs: no value of it is made.
    type Known;

    // The rule, over the plan, the client's words, and the shown part of each seat.
    ghost holds: { Self.Plan → List ℕ → Views Self.Known → Type 0 };

    // The knowledge of the first seat about the client, by the plan; the knowledge of a seat that a
    // seat with this knowledge dealt; and the knowledge that a seat keeps when its section closes.
    ghost first: { Self.Plan → Self.Known };

    ghost idle: { Self.Known → Self.Known };

    ghost closed: { Self.Known → Self.Known };

    // The plans for which it has words, and how many.
    ghost suits: { Self.Plan → Type 0 };

    ghost size: { Self.Plan → ℕ };

    /// Returns how many words it has.
    fn count(plan: Self::Plan) -> usize
        requires { suits plan }
        ensures { result ≡ size plan };

    /// Appends its first words to others.
    fn add_words(alloc: Global, plan: Self::Plan, words: &mut Vec<u64>) -> Result<(), AllocError>
        requires { suits plan }
        ensures { OnOk result (HasAdded (holds plan) (first plan) (size plan) words.old.items
            words.new.items) };

    ghost stable: { (plan : Self.Plan) → IsStable (holds plan) idle closed };
}

/// The meaning of a client's step on one of its words.
pub trait WordStep<C> {
    // A relation of the word's place among the client's words, the knowledge before, the word that
    // was found or stored, and the knowledge after.
    ghost then: { ℕ → C → ℕ → C → Type 0 };
}

/// The meaning of a client's load of the number.
pub trait NumberStep<C> {
    // A relation of the knowledge before, the number, and the knowledge after.
    ghost then: { C → ℕ → C → Type 0 };
}

/// No client: it has no words and no knowledge.
pub struct NoClient;

impl Client for NoClient {
    type Plan = ();

    type Known = ();

    ghost use Rattle.rcu_live.specs.Client.{no_client_is_stable};

    ghost holds = { λ _ _ _. Unit {0} };

    ghost first = { λ _. tt };

    ghost idle = { λ c. c };

    ghost closed = { λ c. c };

    ghost suits = { λ _. Unit {0} };

    ghost size = { λ _. 0 };

    fn count(_plan: ()) -> usize {
        0
    }

    fn add_words(_alloc: Global, _plan: (), _words: &mut Vec<u64>) -> Result<(), AllocError> {
        Ok(())
    }

    ghost stable = { λ _. no_client_is_stable };
}
