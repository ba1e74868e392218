//! The identity of an engine.
ghost use Rattle.std.specs.Prelude.{◌≡◌};
ghost use Rattle.rcu_c.specs.Engines.{is_same};

/// The identity of an engine (`rcu_identity_t`), which no other engine of the process has: its
/// opener gives it, and its seats have it too.
#[repr(C)]
#[derive(Clone, Copy)]
pub struct Identity {
    /// The place of the counter: no two counters have the same.
    pub place: u64,
    /// Which of the engines that this counter numbered it is.
    pub count: u64,
}

impl Identity {
    /// Returns whether it is this one.
    pub(crate) fn is(self, other: Identity) -> bool
        ensures { result ≡ is_same self other }
    {
        self.place == other.place && self.count == other.count
    }
}
