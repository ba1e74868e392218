//! The requests of a pair's lines, and the answers of a replica.
ghost use Rattle.std.specs.Prelude.{◌≡◌, ◌<◌, ◌++◌, ◌∷◌, [], length};

use arrayvec::ArrayVec;
use rcu_node::Answer;
use std::marker::Model;

/// The most processors of a list: a line has no more bytes, and each processor takes one.
const MOST: usize = 80;

/// The request of a pair's line.
#[derive(Debug, Drop)]
pub enum PairAsk {
    /// Asks whether both replicas await the same processors.
    Same,
    /// An event of one replica.
    Of(Side, PairEvent),
}

/// One of the two replicas of a pair, by the first word of its lines.
#[derive(Clone, Copy, Debug, PartialEq, Eq)]
pub enum Side {
    /// `a`, over the first pair of fanouts.
    A,
    /// `b`, over the second.
    B,
}

/// An event of a replica of a pair.
#[derive(Debug, Drop)]
pub enum PairEvent {
    /// A grace period begins, and awaits the listed processors, one or more of them. Faults:
    /// `BadCpu` (1), `Running` (8), `Exhausted` (11).
    Begin(LineCpus),
    /// A report of a processor and a number is delivered. Fault: `BadCpu` (1).
    Report(u32, u64),
    /// The processor departs, and is no longer awaited. Faults: `BadCpu` (1), `BootStays` (12).
    Depart(u32),
    /// The grace period ends. Faults: `Idle` (9), `Waiting` (10).
    End,
    /// The awaited processors are listed.
    Awaits,
    /// The other replica is merged. Fault: `NotAlike` (20).
    Merge,
}

/// The answer of a replica of a pair to an accepted event.
#[derive(Clone, Copy, Debug, PartialEq, Eq)]
pub enum PairReply {
    /// The number of the grace period, and how many processors it awaits.
    Begun(u64, u32),
    /// The answer to the report.
    Answer(Answer),
    /// The processor departed.
    Departed,
    /// The number after the grace period.
    Ended(u64),
    /// The awaited processors, which are read off the replica.
    Awaits,
    /// How many processors are awaited after a merge.
    Merged(u32),
}

/// Processors that a line lists, in its order, repeats included. Contracts see the list of their
/// numbers.
///
/// The value holds them itself, so no line needs memory.
#[derive(Debug, Drop)]
pub struct LineCpus {
    cpus: ArrayVec<u32, MOST>,
}

impl Model for LineCpus {
    ghost use Rattle.std.specs.Prelude.{List, ℕ};

    ghost Value = { List ℕ };

    ghost view = { λ line. line.cpus.items };
}

impl LineCpus {
    /// Returns an empty list.
    pub fn new() -> LineCpus
        ensures { result ≡ [] }
    {
        LineCpus {
            cpus: ArrayVec::new(),
        }
    }

    /// Appends a processor to fewer than 80 others.
    pub fn push(&mut self, cpu: u32)
        requires { length self.old < 80 }
        ensures { self.new ≡ self.old ++ cpu ∷ [] }
    {
        self.cpus.push(cpu);
    }

    /// The processors' numbers.
    pub fn as_slice(&self) -> &[u32]
        ensures { result.now ≡ self.now }
    {
        self.cpus.as_slice()
    }
}
