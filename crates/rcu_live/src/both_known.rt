//! The knowledge of a seat about two clients of one engine.

/// The knowledge of a seat about a pair of clients. It exists only in proofs: no value of it is
/// made.
pub struct BothKnown<C, D> {
    /// The knowledge about the first.
    pub first: C,
    /// The knowledge about the second.
    pub second: D,
    /// How many words the first has: those of the second are behind them.
    pub split: u64,
}
