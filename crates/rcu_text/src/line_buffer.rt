//! The line that is being read.
ghost use Rattle.std.specs.Prelude.{◌≡◌, ◌==◌, ◌++◌, [], length};
ghost use Rattle.rcu_text.specs.Lines.{kept_of};

use arrayvec::ArrayVec;
use std::marker::Model;

/// How many bytes of a line are kept: one more than a line may have, to detect a longer one.
const KEPT: usize = 81;

/// The line that is being read, of which the first 81 bytes are kept. Contracts see the list of
/// these bytes.
#[derive(Drop)]
pub struct LineBuffer {
    bytes: ArrayVec<u8, KEPT>,
}

impl Model for LineBuffer {
    ghost use Rattle.std.specs.Prelude.{List, ℕ};

    ghost Value = { List ℕ };

    ghost view = { λ line. line.bytes.items };
}

impl LineBuffer {
    /// Returns a line without bytes.
    pub fn new() -> LineBuffer
        ensures { result ≡ [] }
    {
        LineBuffer {
            bytes: ArrayVec::new(),
        }
    }

    /// Appends bytes, as far as they have to be kept.
    pub fn extend(&mut self, bytes: &[u8])
        ensures { self.new ≡ kept_of (self.old ++ bytes.now) }
    {
        let kept = bytes.len().min(self.bytes.remaining_capacity());
        let fits = self
            .bytes
            .try_extend_from_slice(bytes.split_at(kept).0)
            .is_ok();
        prove!(fits);
    }

    /// Begins the next line.
    pub fn clear(&mut self)
        ensures { self.new ≡ [] }
    {
        self.bytes.clear();
    }

    /// Returns whether the line has no byte yet.
    pub fn is_empty(&self) -> bool
        ensures { result ≡ (length self.now == 0) }
    {
        self.bytes.is_empty()
    }

    /// Returns the kept bytes.
    pub fn as_slice(&self) -> &[u8]
        ensures { result.now ≡ self.now }
    {
        self.bytes.as_slice()
    }
}
