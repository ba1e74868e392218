//! Gates, which a test sets before workers.
ghost use Rattle.std.specs.Prelude.{◌≡◌, ℕ, Bool, true};
ghost use Rattle.rcu_stress.specs.declared.gate.Point.{Point};

/// A place in a worker's round, inside its read section.
#[derive(Clone, Copy, Debug, PartialEq, Eq)]
pub enum Point {
    /// The section is open, and no cookie is taken yet.
    Entered,
    /// The cookie was taken and polled.
    Polled,
}

/// Decides whether workers go on. A test can delay workers with it, or end them early.
pub trait Gate: Sync {
    // This answer is possible for a worker at a place of its round.
    ghost answers: { ℕ → Point → Bool → Type 0 } = { λ _ _ _. Unit {0} };

    /// Returns whether the worker goes on at this place of its round. If it does not, it closes its
    /// section and ends, which is no fault.
    fn pass(&self, worker: u32, point: Point) -> bool
        ensures { answers worker point result };
}

/// The gate of the program, which returns true at once.
pub struct Open;

impl Gate for Open {
    ghost answers = { λ _ _ passed. passed ≡ true };

    fn pass(&self, _worker: u32, _point: Point) -> bool
        ensures { result ≡ true }
    {
        true
    }
}
