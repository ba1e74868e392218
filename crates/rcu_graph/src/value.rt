//! A value of the user's type, in words.
ghost use Rattle.std.specs.Prelude.{◌≡◌, ◌≤◌, ◌^◌, List, ℕ};

/// A user's fact on words that belong together, such as a check sum.
pub trait Invariant {
    ghost holds: { List ℕ → Type 0 };
}

/// A value that is stored in `W` words. Its words fit, and decode to it.
pub trait Value<const W: usize>: Invariant + Copy {
    ghost use Rattle.std.specs.Prelude.{◌≤◌, ◌^◌, List, ℕ};

    /// The user's fact on a value.
    ghost valid: { Self → Type 0 };

    /// The words in which it is stored.
    ghost in_words: { Self → List ℕ };

    /// The value of fitting words.
    ghost decode: { List ℕ → Self };

    /// Returns the words of a value for which the fact holds.
    fn to_words(self) -> [u64; W]
        requires { valid self }
        ensures words { result ≡ in_words self }
        ensures whole { Self.holds result }
        ensures inverse { decode result ≡ self };

    /// Returns the value of fitting words.
    fn of_words(words: &[u64; W]) -> Self
        requires { Self.holds words.now }
        ensures told { result ≡ decode words.now }
        ensures sound { valid result };

    /// The words fit in memory.
    ghost small: { W ≤ 2 ^ 32 };
}
