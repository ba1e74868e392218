//! Laws that pin the definitions of a torture run, on small cases.
ghost use Rattle.std.specs.Prelude.{◌≡◌, ◌≢◌, ℕ, false, true};
ghost use Rattle.rcu_stress.specs.Worker.{IsStopped};
ghost use Rattle.rcu_stress.specs.declared.gate.Point.{Point};

/// A gate stops a worker if it can return false to it at one of the two places. It does not stop a
/// worker that it lets pass at both, or if it stops only another one.
pub fn a_gate_stops_whom_it_does_not_let_pass()
    ensures entered { (worker : ℕ) →
        IsStopped (λ w at passed. (w ≡ worker) × (at ≡ Point.Entered) × (passed ≡ false)) worker }
    ensures polled { (worker : ℕ) →
        IsStopped (λ w at passed. (w ≡ worker) × (at ≡ Point.Polled) × (passed ≡ false)) worker }
    ensures open { (worker : ℕ) → IsStopped (λ _ _ passed. passed ≡ true) worker → ⊥ }
    ensures other { (worker : ℕ) → IsStopped (λ w _ _. w ≢ worker) worker → ⊥ }
{}
