//! The knowledge of an end of the requests.

/// The knowledge of an end of the requests: the driver's, or a thread's. It exists only in proofs:
/// no value of it is made.
pub struct Knowledge {
    /// True for the driver's.
    pub drives: bool,
    /// The greatest cookie to which it raised the greatest request, 1 at first.
    pub raised: u64,
    /// The greatest request as it found it last, 1 at first.
    pub found: u64,
    /// For the driver: true while it says that it sleeps. For a thread: true if it found the driver
    /// asleep.
    pub asleep: bool,
    /// For the driver: true if it loaded the greatest request since it said that. For a thread:
    /// true if it loaded the driver's word since it raised the greatest request.
    pub has_looked: bool,
    /// For the driver: the processor until whose quiescent state it sleeps, plus 1; 0 for none. For
    /// a thread: the same, as it found it last.
    pub sleeps_for: u64,
}
