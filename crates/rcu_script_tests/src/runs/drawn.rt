//! Lines drawn at random, and how their replies are held against a model's.

use crate::runs::row::{ALL, Row};
use std::alloc::{AllocError, Global};
use std::process::Abort;

/// The differences of drawn lines between one model and the next.
pub trait Drawing {
    /// The fanouts of a pair's second tree. A script has none.
    fn second() -> Option<(u32, u32)>;

    /// Draws lines for this many processors, up to this last number, by this seed, and writes the
    /// model's replies.
    fn draw(alloc: Global, cpus: u32, last: u64, seed: u64) -> Result<(String, String), AllocError>;
}

/// Draws lines by each of these: the number of processors, the last number, and a seed. They get
/// the replies of the model, and each kind of reply occurs as often as it has to. A kind is given
/// by how a reply begins, by what it must not be, and by its least count. The counts of each kind
/// so far are none.
pub fn drawn_lines_get_the_replies_of_the_model<D: Drawing>(
    rt: &impl Abort,
    alloc: Global,
    seeds: &[(u32, u64, u64)],
    shown: &[(&str, &str, u64)],
    found: &mut [u64],
) {
    for (cpus, last, seed) in seeds {
        let (lines, replies) = drawn::<D>(rt, alloc, *cpus, *last, *seed);
        let row = row_of::<D>(*cpus, *last, lines.as_str(), replies.as_str());
        row.answers(rt, alloc, *seed, ALL);
        count_shown(shown, replies.as_str(), found);
    }
    are_shown(rt, shown, found);
}

/// Draws lines, by a second call if the first is refused memory.
fn drawn<D: Drawing>(
    rt: &impl Abort,
    alloc: Global,
    cpus: u32,
    last: u64,
    seed: u64,
) -> (String, String) {
    match D::draw(alloc, cpus, last, seed) {
        Ok(drawn) => drawn,
        Err(_) => D::draw(alloc, cpus, last, seed).expect(rt, "memory for lines"),
    }
}

/// Drawn lines, with the replies of the model.
fn row_of<'a, D: Drawing>(cpus: u32, last: u64, lines: &'a str, replies: &'a str) -> Row<'a> {
    Row {
        name: "drawn",
        fanouts: (2, 2),
        second: D::second(),
        cpus,
        last,
        lines: lines.as_bytes(),
        replies: replies.as_bytes(),
    }
}

/// Counts the lines of each kind that is to be shown.
fn count_shown(shown: &[(&str, &str, u64)], replies: &str, found: &mut [u64]) {
    for (found, (front, but, _)) in found.iter_mut().zip(shown) {
        *found = found.saturating_add(count_lines(replies, front, but));
    }
}

/// How many lines of a text begin so, and are not this.
fn count_lines(text: &str, front: &str, but: &str) -> u64 {
    let mut found = 0u64;
    for line in text.as_bytes().split(|b| *b == b'\n') {
        if line.starts_with(front.as_bytes()) && line != but.as_bytes() {
            found = found.saturating_add(1);
        }
    }
    found
}

/// Each kind of line was shown as often as it has to be.
fn are_shown(rt: &impl Abort, shown: &[(&str, &str, u64)], found: &[u64]) {
    assert_eq!(rt; found.len(), shown.len());
    for (found, (front, _, least)) in found.iter().zip(shown) {
        assert!(rt;
            found >= least,
            "{front}: {found}, and not {least} at least"
        );
    }
}
