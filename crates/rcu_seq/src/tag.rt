//! Grace-period numbers with their epochs.

ghost use Rattle.std.specs.Prelude.{◌≡◌};
ghost use Rattle.rcu_seq.specs.Tags.{of_first_epoch};

/// A grace-period number with its epoch. Each grace period is identified by such a pair. A
/// processor notes such a pair, and a callback is queued at one. So numbers of different epochs are
/// never mixed up.
#[derive(Clone, Copy, Debug, PartialEq, Eq)]
pub struct Tag {
    /// The epoch: how often the counter was renumbered.
    pub epoch: u64,
    /// The number.
    pub number: u64,
}

impl Tag {
    /// A number of the first epoch.
    pub fn of_first_epoch(number: u64) -> Tag
        ensures { result ≡ of_first_epoch number }
    {
        Tag { epoch: 0, number }
    }
}
