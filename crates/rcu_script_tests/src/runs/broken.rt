//! All rows through streams that pass few bytes at once, and that fail at each byte.

use crate::runs::pair::rows::pair_rows;
use crate::runs::row::{ALL, Row, Streams};
use crate::runs::script::rows::rows;
use std::alloc::Global;
use std::process::Abort;

/// How many bytes the streams pass at once.
static PIECES: [usize; 3] = [1, 7, ALL];

/// The row through streams that fail after this many bytes.
fn keeps_in_pieces(rt: &impl Abort, alloc: Global, row: &Row, gives: usize, takes: usize) {
    for piece in PIECES {
        let streams = Streams {
            piece,
            gives,
            takes,
        };
        row.keeps(rt, alloc, 0, streams);
    }
}

/// Each row through streams that never fail.
fn all_in_pieces(rt: &impl Abort, alloc: Global, rows: &[Row]) {
    for row in rows {
        keeps_in_pieces(rt, alloc, row, ALL, ALL);
    }
}

#[test]
fn rows_in_pieces(rt: HostRuntime) {
    all_in_pieces(&rt, rt.alloc(), rows());
    all_in_pieces(&rt, rt.alloc(), pair_rows());
}

/// The reader of the row fails after this many bytes: beside a writer that never fails, and beside
/// one that has room for all that is owed by then, for all but its last byte, or for half of it.
fn fails_after(rt: &impl Abort, alloc: Global, row: &Row, gives: usize) {
    let owed = row.replies_within(gives).len();
    let room = [owed, owed.saturating_sub(1), owed / 2];
    keeps_in_pieces(rt, alloc, row, gives, ALL);
    let streams = Streams {
        piece: PIECES[gives / 3 % 3],
        gives,
        takes: room[gives % 3],
    };
    row.keeps(rt, alloc, 0, streams);
}

/// The reader of each row fails after each byte.
fn all_readers_fail(rt: &impl Abort, alloc: Global, rows: &[Row]) {
    for row in rows {
        for gives in 0..row.lines.len().saturating_add(2) {
            fails_after(rt, alloc, row, gives);
        }
    }
}

#[test]
fn failing_readers(rt: HostRuntime) {
    all_readers_fail(&rt, rt.alloc(), rows());
    all_readers_fail(&rt, rt.alloc(), pair_rows());
}

/// The writer of each row fails after each byte.
fn all_writers_fail(rt: &impl Abort, alloc: Global, rows: &[Row]) {
    for row in rows {
        for takes in 0..row.replies.len().saturating_add(1) {
            keeps_in_pieces(rt, alloc, row, ALL, takes);
        }
    }
}

#[test]
fn failing_writers(rt: HostRuntime) {
    all_writers_fail(&rt, rt.alloc(), rows());
    all_writers_fail(&rt, rt.alloc(), pair_rows());
}
