//! Laws of lines and numbers.
ghost use Rattle.std.specs.Prelude.{◌≡◌, ◌<◌, ◌≤◌, ◌==◌, ◌∷◌, ◌+◌, ◌++◌, ◌^◌, ℕ, List, []};
ghost use Rattle.std.specs.Prelude.{Option, Some, decimal, length, replicate};
ghost use Rattle.std.specs.Io.KnownBytes.{Consumes};
ghost use Rattle.std.specs.List.{slice_split};
ghost use Rattle.rcu_text.specs.Lines.{cut_of, lines_of, lines_read};
ghost use Rattle.rcu_text.specs.Words.{number_in_word};

/// The ended lines and the rest are the parts between line ends.
pub fn lines_are_pieces()
    ensures { (bytes : List ℕ)
        → slice_split (λ b. b == 10) bytes ≡ (cut_of bytes).ended ++ (cut_of bytes).rest ∷ [] }
{}

/// The lines that were read completely come first among all lines of the input. So an answer to
/// them answers a prefix of all lines, wherever a read or a write failed.
pub fn lines_read_whole_come_first()
    ensures ended { (all bytes : List ℕ) (left : Option (List ℕ)) → Consumes (Some all) left bytes
        → (later : List (List ℕ)) × (lines_of all ≡ (cut_of bytes).ended ++ later) }
    ensures read { (all bytes : List ℕ) (left : Option (List ℕ)) → Consumes (Some all) left bytes
        → (later : List (List ℕ)) × (lines_of all ≡ lines_read bytes left ++ later) }
{}

/// A printed number reads back as itself, also behind zeros if it has at most 20 digits.
pub fn numbers_read_back()
    ensures { (zeros n : ℕ) → n < 2 ^ 64 → zeros + length (decimal n) ≤ 20
        → number_in_word (replicate zeros 48 ++ decimal n) ≡ Some n }
{}
