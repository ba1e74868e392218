//! A reader and a writer over memory that pass bytes in pieces, and fail after this many.
ghost use Rattle.std.specs.Prelude.{◌≡◌, Some, false, ◌<◌};

use crate::runs::row::Owed;
use arrayvec::ArrayVec;
use rcu_text::{Failed, Sink, Source};
use std::cell::Cell;

/// How many bytes a writer has room for.
pub const ROOM: usize = 16_384;

/// Gives bytes in pieces, and fails once it gave this many. It watches the writer: at each read the
/// writer has to have taken the replies to the lines that were given completely, and nothing else.
#[derive(Drop)]
pub struct Slow<'a> {
    /// The bytes that it has still to give, if it does not fail.
    rest: &'a [u8],
    /// The most that it gives at once.
    piece: usize,
    /// How many bytes it gives before it fails.
    left: usize,
    has_failed: bool,
    /// The replies owed to the lines that it gave.
    owed: Owed<'a>,
    /// How many bytes the writer took.
    taken: &'a Cell<usize>,
    is_misread: bool,
    ghost some: { 0 < piece },
}

impl<'a> Slow<'a> {
    /// Gives these bytes in pieces, and fails after the first of them.
    pub fn failing_after(
        bytes: &'a [u8],
        piece: usize,
        left: usize,
        owed: Owed<'a>,
        taken: &'a Cell<usize>,
    ) -> Slow<'a>
        requires { 0 < piece }
        ensures { result.has_failed ≡ false }
    {
        Slow {
            rest: bytes,
            piece,
            left,
            has_failed: false,
            owed,
            taken,
            is_misread: false,
        }
    }

    /// Returns whether it was read after it had failed, or while the writer had not taken just what
    /// was owed.
    pub fn is_misread(&self) -> bool {
        self.is_misread
    }
}

impl Source for Slow<'_> {
    ghost incoming = { λ s. record { remaining = Some s.rest.now; failed = s.has_failed } };

    fn has_failed(&self) -> bool {
        self.has_failed
    }

    fn read(&mut self, buf: &mut [u8]) -> Result<usize, Failed> {
        if self.has_failed || self.taken.get() != self.owed.length() {
            self.is_misread = true;
        }
        if self.left == 0 {
            self.has_failed = true;
            return Err(Failed);
        }
        let n = self
            .piece
            .min(self.left)
            .min(self.rest.len())
            .min(buf.len());
        let (front, rest) = self.rest.split_at(n);
        self.owed.pass(front);
        buf[..n].copy_from_slice(front);
        self.rest = rest;
        self.left -= n;
        Ok(n)
    }
}

/// Takes bytes in pieces, and fails once it took this many, or has no room for more.
#[derive(Drop)]
pub struct Narrow<'a> {
    bytes: ArrayVec<u8, ROOM>,
    /// The most that it takes at once.
    piece: usize,
    /// How many bytes it takes before it fails.
    left: usize,
    has_failed: bool,
    /// How many bytes it took, for the reader that watches it.
    taken: &'a Cell<usize>,
    is_miswritten: bool,
    ghost some: { 0 < piece },
}

impl<'a> Narrow<'a> {
    /// Takes this many bytes in pieces, and then fails.
    pub fn failing_after(piece: usize, left: usize, taken: &'a Cell<usize>) -> Narrow<'a>
        requires { 0 < piece }
        ensures { result.has_failed ≡ false }
    {
        Narrow {
            bytes: ArrayVec::new(),
            piece,
            left,
            has_failed: false,
            taken,
            is_miswritten: false,
        }
    }

    /// Returns whether it was written to after it had failed.
    pub fn is_miswritten(&self) -> bool {
        self.is_miswritten
    }

    /// Returns the bytes that it took.
    pub fn into_bytes(self) -> ArrayVec<u8, ROOM> {
        self.bytes
    }
}

impl Sink for Narrow<'_> {
    ghost outgoing = { λ s. record { taken = Some s.bytes.items; failed = s.has_failed } };

    fn has_failed(&self) -> bool {
        self.has_failed
    }

    fn write(&mut self, bytes: &[u8]) -> Result<usize, Failed> {
        if self.has_failed {
            self.is_miswritten = true;
        }
        let n = self.piece.min(self.left).min(bytes.len());
        let is_stuck = self.left == 0;
        if is_stuck
            || self
                .bytes
                .try_extend_from_slice(bytes.split_at(n).0)
                .is_err()
        {
            self.has_failed = true;
            return Err(Failed);
        }
        self.left -= n;
        self.taken.set(self.bytes.len());
        Ok(n)
    }
}
