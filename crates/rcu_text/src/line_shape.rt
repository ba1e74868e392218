//! The kinds of lines, for a responder.
ghost use Rattle.std.specs.Prelude.{◌≡◌};
ghost use Rattle.std.specs.List.{list_all};
ghost use Rattle.rcu_text.specs.Lines.{is_printable};
ghost use Rattle.rcu_text.specs.Lines.{is_well_formed as well_formed};

/// The most bytes of a line, without its end.
pub const LONGEST: usize = 80;

/// The kind of a line.
#[derive(Debug, Drop, PartialEq, Eq)]
pub enum Line<E> {
    /// The line has no word, and gets no reply.
    Blank,
    /// The line is outside the grammar.
    Malformed,
    /// The line is a request.
    Ask(E),
}

/// Returns whether the line has at most 80 bytes, all of them printable.
pub fn is_well_formed(line: &[u8]) -> bool
    ensures { result ≡ well_formed line.now }
{
    line.len() <= LONGEST && are_printable(line)
}

fn are_printable(line: &[u8]) -> bool
    ensures { result ≡ list_all is_printable line.now }
{
    line.iter().all(|b| 32 <= *b && *b <= 126)
}
