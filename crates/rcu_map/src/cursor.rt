//! The position of an iteration over the entries of a map.

/// A node of a bucket's chain, and its key. On the root of the bucket no entry of it was reached
/// yet: the key is 0.
#[derive(Clone, Copy, Debug, PartialEq, Eq)]
pub struct Cursor {
    pub bucket: usize,
    pub node: usize,
    pub key: u64,
}

impl Cursor {
    ghost use Rattle.std.specs.Prelude.{◌≡◌};
    ghost use Rattle.rcu_map.specs.Listing.{at_root};

    /// Returns the cursor on the root of a bucket.
    pub(crate) fn at_root(bucket: usize) -> Cursor
        ensures { result ≡ at_root bucket }
    {
        Cursor {
            bucket,
            node: bucket,
            key: 0,
        }
    }
}
