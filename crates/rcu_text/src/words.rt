//! The words of a line, and the numbers among them.
ghost use Rattle.std.specs.Prelude.{◌≡◌, ◌==◌, ◌<◌, ◌≤◌, ◌^◌, ◌∷◌, [], IfNone, IfSome, length};
ghost use Rattle.std.specs.Prelude.{position, Some, None, if◌then◌else◌};
ghost use Rattle.std.specs.List.{list_all};
ghost use Rattle.rcu_text.specs.Words.{is_digit, number_in_word, value_of, words_of};

/// The most digits of a number, leading zeros included.
const MOST_DIGITS: usize = 20;

/// How many digits always fit 64 bits.
const SAFE_DIGITS: usize = 19;

/// Returns the first word and the bytes behind it; none if there is no word. Costs a step for each
/// byte up to the word's end.
pub fn next_word(line: &[u8]) -> Option<(&[u8], &[u8])>
    ensures none { IfNone result (words_of line.now ≡ []) }
    ensures some { IfSome result (λ w. words_of line.now ≡ w.0.now ∷ words_of w.1.now) }
    ensures shorter { IfSome result (λ w. length w.1.now < length line.now) }
{
    let mut text = line;
    while let [b' ', rest @ ..] = text {
        text = rest;
    }
    let length = first_space(text).unwrap_or(text.len());
    if length == 0 {
        return None;
    }
    Some(text.split_at(length))
}

/// Returns the place of the first space.
fn first_space(line: &[u8]) -> Option<usize>
    ensures { result ≡ position (λ b. b == 32) line.now }
{
    line.iter().position(|b| *b == b' ')
}

/// Returns the number that a word spells: 1 to 20 decimal digits, of a value that fits 64 bits.
pub fn number(word: &[u8]) -> Option<u64>
    ensures { result ≡ number_in_word word.now }
{
    if word.is_empty() || word.len() > MOST_DIGITS {
        return None;
    }
    if word.len() == MOST_DIGITS {
        return long_number(word);
    }
    digits(word)
}

/// Returns the number that 20 digits spell.
#[cold]
fn long_number(word: &[u8]) -> Option<u64>
    requires { length word.now ≡ 20 }
    ensures { result ≡ number_in_word word.now }
{
    let (front, last) = word.split_at(SAFE_DIGITS);
    let value = 10 * u128::from(digits(front)?) + u128::from(digits(last)?);
    u64::try_from(value).ok()
}

/// Returns the value of at most 19 digits.
fn digits(word: &[u8]) -> Option<u64>
    requires { length word.now ≤ 19 }
    ensures value { result
        ≡ (if list_all is_digit word.now then Some (value_of word.now) else None) }
    ensures fits { IfSome result (λ n. n < 2 ^ 64) }
{
    let mut value = 0;
    for b in word {
        if !b.is_ascii_digit() {
            return None;
        }
        value = 10 * value + u64::from(*b - b'0');
    }
    Some(value)
}
