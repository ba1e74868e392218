//! A row: lines with the replies that they have to get, and how a run of it goes.

use crate::runs::memory::wants_memory;
use crate::runs::streams::{Narrow, ROOM, Slow};
use arrayvec::ArrayVec;
use rcu_script::{RunFault, Setup, run_pair, run_script};
use rcu_seq::Fault;
use std::alloc::Global;
use std::cell::Cell;
use std::fmt::Debug;
use std::process::Abort;

/// The last number if a row names none.
pub const FAR: u64 = 1 << 62;

/// The pairs of fanouts that are offered.
pub static OFFERED: [(u32, u32); 5] = [(2, 2), (2, 3), (4, 4), (16, 64), (64, 64)];

/// More bytes than any row has: a stream with this limit passes all at once, and never fails.
pub const ALL: usize = usize::MAX;

/// Lines, and the replies that they have to get.
#[derive(Clone, Copy)]
pub struct Row<'a> {
    pub name: &'a str,
    /// The fanouts of the tree, of a pair's first one.
    pub fanouts: (u32, u32),
    /// The fanouts of a pair's second tree. A script has none.
    pub second: Option<(u32, u32)>,
    pub cpus: u32,
    pub last: u64,
    pub lines: &'a [u8],
    pub replies: &'a [u8],
}

/// How a run ended.
#[derive(Clone, Copy, Debug, PartialEq, Eq)]
pub enum End {
    Done,
    NotOpened(Fault),
    NotRead,
    NotWritten,
}

impl End {
    pub fn of(end: Result<(), RunFault>) -> End {
        match end {
            Ok(()) => End::Done,
            Err(RunFault::Open(fault)) => End::NotOpened(fault),
            Err(RunFault::Read) => End::NotRead,
            Err(RunFault::Write) => End::NotWritten,
        }
    }
}

/// The behaviour of a run's streams.
#[derive(Clone, Copy, Debug)]
pub struct Streams {
    /// The most bytes that they pass at once.
    pub piece: usize,
    /// The reader fails after this many bytes.
    pub gives: usize,
    /// The writer fails after this many bytes.
    pub takes: usize,
}

impl Streams {
    /// Streams that pass at most this many bytes at once, and never fail.
    pub fn passing(piece: usize) -> Streams {
        Streams {
            piece,
            gives: ALL,
            takes: ALL,
        }
    }
}

/// How a run ended, and what it wrote.
#[derive(Drop)]
pub struct Run {
    pub end: End,
    pub written: ArrayVec<u8, ROOM>,
    /// True if the reader was read, or the writer written to, at a wrong time.
    pub is_untimely: bool,
}

impl Run {
    /// Returns whether it ended so, wrote this text, and read and wrote in turn.
    fn came_to(&self, end: End, text: &[u8]) -> bool {
        self.end == end && !self.is_untimely && self.written.as_slice() == text
    }

    /// Compares how the run of a row ended, that it read and wrote in turn, and what it wrote, line
    /// by line.
    pub fn compare<C: Debug>(&self, rt: &impl Abort, row: &C, end: End, text: &[u8]) {
        assert_eq!(rt; (self.end, self.is_untimely), (end, false), "{row:?}");
        let (found, wanted) = (text_of(self.written.as_slice()), text_of(text));
        for (line, (found, wanted)) in found.split('\n').zip(wanted.split('\n')).enumerate() {
            assert_eq!(rt; (line, found), (line, wanted), "{row:?}");
        }
        assert_eq!(rt; self.written.as_slice(), text, "{row:?}");
    }
}

/// Returns bytes as a text, an empty one if they are not UTF-8.
fn text_of(bytes: &[u8]) -> &str {
    str::from_utf8(bytes).unwrap_or("")
}

/// Goes over the bytes of lines, and gives how much of the replies is owed by then: each line that
/// ended has one, except a blank one, of at most 80 spaces.
#[derive(Clone, Copy)]
pub struct Owed<'a> {
    replies: &'a [u8],
    /// How many bytes of the replies are owed.
    length: usize,
    /// How many bytes the line in hand has, and whether one of them is no space.
    in_hand: usize,
    has_word: bool,
}

impl<'a> Owed<'a> {
    pub fn new(replies: &'a [u8]) -> Owed<'a> {
        Owed {
            replies,
            length: 0,
            in_hand: 0,
            has_word: false,
        }
    }

    pub fn length(&self) -> usize {
        self.length
    }

    pub fn pass(&mut self, bytes: &[u8]) {
        for b in bytes {
            if *b != b'\n' {
                self.in_hand = self.in_hand.saturating_add(1);
                self.has_word = self.has_word || *b != b' ';
                continue;
            }
            if self.has_word || self.in_hand > 80 {
                let behind = self.replies.iter().skip(self.length);
                let reply = behind.take_while(|b| **b != b'\n').count();
                self.length = self.length.saturating_add(reply).saturating_add(1);
            }
            self.in_hand = 0;
            self.has_word = false;
        }
    }
}

impl Row<'_> {
    /// Returns the setup to open. A script has one tree twice.
    fn setup(&self) -> Setup {
        let second = self.second.unwrap_or(self.fanouts);
        Setup {
            leaf: self.fanouts.0,
            inner: self.fanouts.1,
            leaf2: second.0,
            inner2: second.1,
            cpus: self.cpus,
            last: self.last,
        }
    }

    /// Runs the lines through such streams. A stream is used for one run alone.
    pub fn run(&self, alloc: Global, streams: Streams) -> Run {
        let piece = streams.piece.max(1);
        let setup = self.setup();
        let taken = Cell::new(0);
        let owed = Owed::new(self.replies);
        let mut reader = Slow::failing_after(self.lines, piece, streams.gives, owed, &taken);
        let mut writer = Narrow::failing_after(piece, streams.takes, &taken);
        let end = match self.second {
            None => run_script(alloc, &setup, &mut reader, &mut writer),
            Some(_) => run_pair(alloc, &setup, &mut reader, &mut writer),
        };
        let is_untimely = reader.is_misread() || writer.is_miswritten();
        Run {
            end: End::of(end),
            written: writer.into_bytes(),
            is_untimely,
        }
    }

    /// Compares the outcome of a run through such streams with the expected one. A run in which
    /// memory was refused is made once more from the start, since a test may be refused one growth;
    /// that one growth is not refused again. A failure names the row, and the number of the drawn
    /// case.
    pub fn keeps(&self, rt: &impl Abort, alloc: Global, number: u64, streams: Streams) {
        let (end, text) = self.owed(streams.gives, streams.takes);
        let mut run = self.run(alloc, streams);
        if !run.came_to(end, text) && wants_memory(&run) {
            run = self.run(alloc, streams);
        }
        if !run.came_to(end, text) {
            run.compare(rt, &(self.name, number, self.setup(), streams), end, text);
        }
    }

    /// Compares the replies to the lines through streams that pass at most this many bytes at once.
    pub fn answers(&self, rt: &impl Abort, alloc: Global, number: u64, piece: usize) {
        self.keeps(rt, alloc, number, Streams::passing(piece));
    }

    /// Returns the expected outcome if the reader fails after it gave this many bytes, and the
    /// writer after it took this many: how the run ends, and what it wrote.
    fn owed(&self, gives: usize, takes: usize) -> (End, &[u8]) {
        let (end, replies) = if gives > self.lines.len() {
            (End::Done, self.replies)
        } else {
            (End::NotRead, self.replies_within(gives))
        };
        if takes < replies.len() {
            (End::NotWritten, replies.split_at(takes).0)
        } else {
            (end, replies)
        }
    }

    /// The same with a last line that has no end.
    pub fn without_last_end(&self) -> Row<'_> {
        let length = self.lines.len().saturating_sub(1);
        Row {
            lines: self.lines.split_at(length).0,
            ..*self
        }
    }

    /// The replies to the lines that end within this many bytes.
    pub fn replies_within(&self, count: usize) -> &[u8] {
        let mut owed = Owed::new(self.replies);
        owed.pass(self.lines.split_at(count.min(self.lines.len())).0);
        self.replies
            .split_at(owed.length().min(self.replies.len()))
            .0
    }
}
