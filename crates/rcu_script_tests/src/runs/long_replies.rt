//! Replies that are longer than a block, to a writer that fails beside a border of blocks.
ghost use Rattle.std.specs.Prelude.{◌≡◌, None, false};

use crate::runs::row::{End, FAR};
use arrayvec::ArrayVec;
use rcu_script::{Setup, run_script};
use rcu_text::{Failed, Marked, Sink, Source};
use std::alloc::{AllocError, Global};
use std::process::Abort;

/// How many writes are noted.
const WRITES: usize = 64;

/// Takes bytes, and fails once it took this many. They have to be the first ones of a text.
#[derive(Drop)]
struct Matching<'a> {
    /// The rest of the text.
    rest: &'a [u8],
    /// How many bytes it takes before it fails.
    left: usize,
    has_failed: bool,
    differs: bool,
    /// How many bytes were left of the text at each write.
    writes: ArrayVec<usize, WRITES>,
}

impl<'a> Matching<'a> {
    fn new(text: &'a [u8], left: usize) -> Matching<'a>
        ensures { result.has_failed ≡ false }
    {
        Matching {
            rest: text,
            left,
            has_failed: false,
            differs: false,
            writes: ArrayVec::new(),
        }
    }
}

impl Sink for Matching<'_> {
    ghost outgoing = { λ s. record { taken = None; failed = s.has_failed } };

    fn has_failed(&self) -> bool {
        self.has_failed
    }

    fn write(&mut self, bytes: &[u8]) -> Result<usize, Failed> {
        if self.left == 0 {
            self.has_failed = true;
            return Err(Failed);
        }
        let _ = self.writes.try_push(self.rest.len());
        let n = self.left.min(bytes.len());
        let (front, rest) = self.rest.split_at(n.min(self.rest.len()));
        self.differs = self.differs || front != bytes.split_at(n).0;
        self.rest = rest;
        self.left -= n;
        Ok(n)
    }
}

/// The outcome of a run: how it ended, whether it wrote other bytes than the replies, and how many
/// bytes it wrote.
#[derive(Clone, Copy, Debug, PartialEq, Eq)]
struct Outcome {
    end: End,
    differs: bool,
    written: usize,
}

/// A script with a long reply at its end, and its replies.
#[derive(Drop)]
struct Long {
    cpus: u32,
    lines: String,
    replies: String,
    /// How many bytes the last reply has.
    last: usize,
}

/// Ten thousand callbacks are queued, pass a grace period, and run.
fn lines_of_runs(alloc: Global) -> Result<String, AllocError> {
    let mut lines = String::new(alloc);
    for n in 1..=10_000u64 {
        writeln!(lines, "queue 0 {}", n.wrapping_mul(n))?;
    }
    lines.push_str("tend 0\nbegin\nnote 0\nquiet 0\ndeliver 1\nend\ntend 0\nrun 0 10000\n")?;
    Ok(lines)
}

/// The replies to these lines before the last one.
fn replies_before_runs(alloc: Global) -> Result<String, AllocError> {
    let mut replies = String::new(alloc);
    for n in 1..=10_000u64 {
        writeln!(replies, "queued {n}")?;
    }
    replies.push_str("tended 0 10000\nbegun 1 awaits 1\nnoted 1 needed\n")?;
    replies.push_str("report 1 cpu 0 tag 1\nlast\nended 4\ntended 10000 0\n")?;
    Ok(replies)
}

impl Long {
    /// All processors are awaited.
    fn awaits(alloc: Global) -> Result<Long, AllocError> {
        let mut lines = String::new(alloc);
        let mut replies = String::new(alloc);
        for cpu in 1..4_096u32 {
            writeln!(lines, "online {cpu}")?;
            replies.push_str("online\n")?;
        }
        lines.push_str("begin\nawaits\n")?;
        replies.push_str("begun 1 awaits 4096\n")?;
        let before = replies.len();
        replies.push_str("awaits")?;
        for cpu in 0..4_096u32 {
            write!(replies, " {cpu}")?;
        }
        replies.push('\n')?;
        let last = replies.len().saturating_sub(before);
        let cpus = 4_096;
        Ok(Long {
            cpus,
            lines,
            replies,
            last,
        })
    }

    /// Ten thousand callbacks run.
    fn runs(alloc: Global) -> Result<Long, AllocError> {
        let lines = lines_of_runs(alloc)?;
        let mut replies = replies_before_runs(alloc)?;
        let before = replies.len();
        replies.push_str("ran")?;
        for n in 1..=10_000u64 {
            write!(replies, " {}", n.wrapping_mul(n))?;
        }
        replies.push('\n')?;
        let last = replies.len().saturating_sub(before);
        let cpus = 1;
        Ok(Long {
            cpus,
            lines,
            replies,
            last,
        })
    }

    /// Returns the outcome of a run through a writer that takes this many bytes, and how many bytes
    /// of the replies were left at each write.
    fn run(&self, alloc: Global, takes: usize) -> (Outcome, ArrayVec<usize, WRITES>) {
        let setup = Setup {
            leaf: 64,
            inner: 64,
            leaf2: 64,
            inner2: 64,
            cpus: self.cpus,
            last: FAR,
        };
        let replies = self.replies.as_str().as_bytes();
        let mut reader = Marked::new(self.lines.as_str().as_bytes());
        let mut writer = Matching::new(replies, takes);
        let end = End::of(run_script(alloc, &setup, &mut reader, &mut writer));
        let outcome = Outcome {
            end,
            differs: writer.differs,
            written: replies.len().saturating_sub(writer.rest.len()),
        };
        (outcome, writer.writes)
    }

    /// The expected outcome: the writer takes all of the replies, or as many bytes as it takes.
    fn owed(&self, takes: usize) -> Outcome {
        let length = self.replies.len();
        Outcome {
            end: if takes < length {
                End::NotWritten
            } else {
                End::Done
            },
            differs: false,
            written: takes.min(length),
        }
    }

    /// Compares the outcome of a run through a writer that takes this many bytes with the expected
    /// one, and how many bytes of the replies were left at each write. (A run is made once more if
    /// it goes wrong, since one growth may be refused.)
    fn answers(&self, rt: &impl Abort, alloc: Global, takes: usize) -> ArrayVec<usize, WRITES> {
        let wanted = self.owed(takes);
        let (mut outcome, mut writes) = self.run(alloc, takes);
        if outcome != wanted {
            (outcome, writes) = self.run(alloc, takes);
        }
        assert_eq!(rt; (self.cpus, takes, outcome), (self.cpus, takes, wanted));
        writes
    }

    /// It is answered through a writer that never fails, and through ones that fail beside the
    /// border of two writes of the last reply.
    fn keeps(&self, rt: &impl Abort, alloc: Global) {
        let length = self.replies.len();
        let writes = self.answers(rt, alloc, length);
        assert!(rt; writes.len() > 4, "{} writes", writes.len());
        for left in writes.iter().filter(|left| **left < self.last).take(3) {
            let border = length.saturating_sub(*left);
            for takes in border.saturating_sub(8)..border.saturating_add(9) {
                self.answers(rt, alloc, takes);
            }
        }
    }
}

#[test]
fn long_replies(rt: HostRuntime) {
    awaits(&rt, rt.alloc()).keeps(&rt, rt.alloc());
    runs(&rt, rt.alloc()).keeps(&rt, rt.alloc());
}

/// A list of all processors as awaited, made by a second call if the first is refused memory.
fn awaits(rt: &impl Abort, alloc: Global) -> Long {
    match Long::awaits(alloc) {
        Ok(long) => long,
        Err(_) => Long::awaits(alloc).expect(rt, "memory for lines"),
    }
}

/// Ten thousand callbacks run, made by a second call if the first is refused memory.
fn runs(rt: &impl Abort, alloc: Global) -> Long {
    match Long::runs(alloc) {
        Ok(long) => long,
        Err(_) => Long::runs(alloc).expect(rt, "memory for lines"),
    }
}
