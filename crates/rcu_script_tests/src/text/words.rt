//! Words and numbers.

use rcu_text::{next_word, number};
use std::process::Abort;

/// Words, and the numbers that they are.
static NUMBERS: [(&str, Option<u64>); 11] = [
    ("0", Some(0)),
    ("00000000000000000002", Some(2)),
    ("18446744073709551615", Some(u64::MAX)),
    ("000000000000000000002", None),
    ("18446744073709551616", None),
    ("99999999999999999999", None),
    ("", None),
    ("+1", None),
    ("-1", None),
    ("1x", None),
    ("0x1", None),
];

/// Compares the number that a word is.
fn is_number(rt: &impl Abort, word: &str, wanted: Option<u64>) {
    assert_eq!(rt; (word, number(word.as_bytes())), (word, wanted));
}

#[test]
fn numbers(rt: HostRuntime) {
    for (word, wanted) in &NUMBERS {
        is_number(&rt, word, *wanted);
    }
}

#[test]
fn words(rt: HostRuntime) {
    assert_eq!(rt; next_word(b""), None);
    assert_eq!(rt; next_word(b"   "), None);
    let (word, rest) = (b"note".as_slice(), b"  3 ".as_slice());
    assert_eq!(rt; next_word(b"  note  3 "), Some((word, rest)));
}
