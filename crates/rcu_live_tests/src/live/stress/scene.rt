//! The state that the threads of a hard run share besides the engine: the open sections, signs by
//! which they wait for one another, and why the run ends.

use crate::live::stress::stop::Stop;
use std::sync::atomic::{AtomicBool, AtomicU64, Ordering};
use std::sync::{Mutex, Wait};
use std::thread::yield_now;

/// How often a thread looks for a sign at most.
const MOST_LOOKS: u32 = 500_000;

/// The same if the sign may well not come.
const FEW_LOOKS: u32 = 10_000;

/// How often it looks before it lets others run.
const LOOKS_AT_ONCE: u32 = 500;

/// How many threads a run has.
const THREADS: u64 = 4;

/// How often a thread looks for the others at most, before it gives the run up.
const MOST_LOOKS_AT_FIRST: u32 = 1_000_000;

/// A sign that one thread gives and others wait for.
#[derive(Drop)]
pub(crate) struct Sign {
    given: AtomicU64,
}

impl Sign {
    fn new() -> Sign {
        Sign {
            given: AtomicU64::new(0),
        }
    }

    /// Gives it once more.
    pub(crate) fn give(&self) {
        self.given.fetch_add(1, Ordering::SeqCst);
    }

    /// How often it was given.
    pub(crate) fn count(&self) -> u64 {
        self.given.load(Ordering::SeqCst)
    }
}

/// The open section of a reader: the stamp that was drawn in it, and 0 if none is open. It is set
/// once the section is open, and cleared before it is closed.
#[derive(Drop)]
pub(crate) struct Section {
    stamp: AtomicU64,
}

impl Section {
    fn new() -> Section {
        Section {
            stamp: AtomicU64::new(0),
        }
    }

    /// Returns whether a section is open that was open at this stamp.
    fn is_open_since(&self, stamp: u64) -> bool {
        let opened = self.stamp.load(Ordering::SeqCst);
        opened != 0 && opened < stamp
    }
}

/// The state that the threads of a run share besides the engine.
#[derive(Drop)]
pub(crate) struct Scene {
    stamps: AtomicU64,
    /// A thread is there.
    present: Sign,
    /// The sections of the reader that sleeps, and of the one that departs.
    sections: (Section, Section),
    /// The driver went round once more.
    pub(crate) round: Sign,
    /// No grace period runs, and the driver waits for a reader to wake.
    pub(crate) pause: Sign,
    /// The reader that sleeps went to sleep.
    pub(crate) sleep: Sign,
    /// A reader opened a section.
    pub(crate) wake: Sign,
    /// The driver is about to begin a grace period.
    pub(crate) begin: Sign,
    /// The processor that departs has callbacks, and is online.
    pub(crate) queued: Sign,
    /// A barrier runs, and has visited processor 0.
    pub(crate) barrier: Sign,
    /// The processor departed.
    pub(crate) departure: Sign,
    ended: AtomicBool,
    stop: Mutex<Option<Stop>>,
}

impl Scene {
    pub(crate) fn new() -> Scene {
        Scene {
            stamps: AtomicU64::new(1),
            present: Sign::new(),
            sections: (Section::new(), Section::new()),
            round: Sign::new(),
            pause: Sign::new(),
            sleep: Sign::new(),
            wake: Sign::new(),
            begin: Sign::new(),
            queued: Sign::new(),
            barrier: Sign::new(),
            departure: Sign::new(),
            ended: AtomicBool::new(false),
            stop: Mutex::new(None),
        }
    }

    /// The section of the reader that sleeps.
    pub(crate) fn sleeper(&self) -> &Section {
        &self.sections.0
    }

    /// The section of the reader that departs.
    pub(crate) fn leaver(&self) -> &Section {
        &self.sections.1
    }

    /// A stamp, above each that was drawn before.
    pub(crate) fn stamp(&self) -> u64 {
        self.stamps.fetch_add(1, Ordering::SeqCst)
    }

    /// The reader is in this section from now on, until it is left.
    pub(crate) fn note_open(&self, section: &Section) {
        section.stamp.store(self.stamp(), Ordering::SeqCst);
    }

    /// The reader leaves its section next.
    pub(crate) fn note_close(&self, section: &Section) {
        section.stamp.store(0, Ordering::SeqCst);
    }

    /// Returns whether a section is open that was open at this stamp.
    pub(crate) fn is_open_since(&self, stamp: u64) -> bool {
        self.sections.0.is_open_since(stamp) || self.sections.1.is_open_since(stamp)
    }

    /// Returns whether the run ends.
    pub(crate) fn is_ended(&self) -> bool {
        self.ended.load(Ordering::SeqCst)
    }

    /// Ends the run. The first reason given counts.
    pub(crate) fn end(&self, rt: &impl Wait, told: Result<(), Stop>) {
        let mut stop = self.stop.lock(rt);
        *stop = stop.or(told.err());
        self.ended.store(true, Ordering::SeqCst);
    }

    /// Why the run ended before its time, if it did.
    pub(crate) fn stop(&self, rt: &impl Wait) -> Option<Stop> {
        *self.stop.lock(rt)
    }

    /// Waits until all threads are there.
    pub(crate) fn gather(&self) -> Result<(), Stop> {
        self.present.give();
        for _ in 0..MOST_LOOKS_AT_FIRST {
            if self.is_ended() || self.present.count() >= THREADS {
                return Ok(());
            }
            yield_now();
        }
        Err(Stop::NoVerdict)
    }

    /// Waits until the sign was given so often since this count. It gives up when the run ends, and
    /// after many looks.
    pub(crate) fn wait(&self, sign: &Sign, since: u64, times: u64) {
        self.look_for(sign, since, times, MOST_LOOKS);
    }

    /// Waits until the sign was given since this count, and gives up after few looks.
    pub(crate) fn wait_shortly(&self, sign: &Sign, since: u64) {
        self.look_for(sign, since, 1, FEW_LOOKS);
    }

    fn look_for(&self, sign: &Sign, since: u64, times: u64, looks: u32) {
        for look in 0..looks {
            if self.is_ended() || sign.count().wrapping_sub(since) >= times {
                break;
            }
            if look % LOOKS_AT_ONCE == LOOKS_AT_ONCE - 1 {
                yield_now();
            }
        }
    }
}
