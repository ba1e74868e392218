//! The rule of the words, for their table, and the meaning of each kind of step on them.
ghost use Rattle.std.specs.Prelude.{◌≡◌};

use crate::knowledge::Knowledge;
use atomic_table::{Play, TableRule};

/// The rule.
pub struct RequestRule;

impl TableRule<(), Knowledge, ()> for RequestRule {
    ghost use Rattle.rcu_request.specs.Rule.{IsKept};
    ghost use Rattle.rcu_request.specs.Requests.{driver_at_first};

    ghost holds = { λ _. IsKept };

    ghost first = { λ _. driver_at_first };
}

/// A raise of the greatest request to a cookie.
pub struct Raise;

impl Play<(), Knowledge> for Raise {
    ghost use Rattle.rcu_request.specs.Requests.{Raised};

    ghost then = { λ step me n now. Raised step.first me.0 n now.0 × (now.1 ≡ me.1) };
}

/// Loads whether the driver sleeps, by a thread's seat.
pub struct LookAtDriver;

impl Play<(), Knowledge> for LookAtDriver {
    ghost use Rattle.rcu_request.specs.Requests.{after_look_at_driver};

    ghost then = { λ _ me n now. (now.0 ≡ after_look_at_driver me.0 n) × (now.1 ≡ me.1) };
}

/// The driver stores whether it sleeps.
pub struct Say;

impl Play<(), Knowledge> for Say {
    ghost use Rattle.rcu_request.specs.Requests.{after_saying};

    ghost then = { λ step me _ now. (now.0 ≡ after_saying me.0 step.first) × (now.1 ≡ me.1) };
}

/// Loads the greatest request, by the driver's seat.
pub struct Find;

impl Play<(), Knowledge> for Find {
    ghost use Rattle.rcu_request.specs.Requests.{Found};

    ghost then = { λ _ me n now. Found me.0 n now.0 × (now.1 ≡ me.1) };
}

/// The driver stores for which processor it sleeps.
pub struct NameCpu;

impl Play<(), Knowledge> for NameCpu {
    ghost use Rattle.rcu_request.specs.Requests.{cpu_index, knowing_cpu};

    ghost then = { λ step me _ now.
        (step.word ≡ cpu_index) × (now.0 ≡ knowing_cpu me.0 step.first) × (now.1 ≡ me.1) };
}

/// Loads for which processor the driver sleeps, by a thread's seat.
pub struct LookAtCpu;

impl Play<(), Knowledge> for LookAtCpu {
    ghost use Rattle.rcu_request.specs.Requests.{cpu_index, knowing_cpu};

    ghost then = { λ step me n now.
        (step.word ≡ cpu_index) × (now.0 ≡ knowing_cpu me.0 n) × (now.1 ≡ me.1) };
}

/// A load that makes a thread's seat.
pub struct Arrive;

impl Play<(), Knowledge> for Arrive {
    ghost use Rattle.rcu_request.specs.Requests.{thread_at_first};

    ghost then = { λ _ _ _ now. now.0 ≡ thread_at_first };
}
