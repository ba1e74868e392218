//! A plain program for two replicas: for each line it goes over all accepted lines, and gathers the
//! processors that each replica's grace period began with and those that it has heard.

use rcu_script::pair::event::Side;
use std::alloc::AllocError;

/// The request of a line. Sets have a bit for each processor.
#[derive(Clone, Copy)]
pub enum Asked {
    Begin(u64),
    Report(u32, u64),
    Depart(u32),
    End,
    Awaits,
    Merge,
    Same,
}

/// The knowledge of a replica.
#[derive(Clone, Copy, Default)]
pub struct Known {
    ends: u64,
    is_running: bool,
    tag: u64,
    start: u64,
    heard: u64,
}

/// The model: all lines so far.
#[derive(Drop)]
pub struct PairModel {
    pub cpus: u32,
    pub last: u64,
    /// The accepted lines. The model has nothing else.
    pub past: Vec<(Side, Asked)>,
}

/// The bit of a processor.
pub fn bit(cpu: u32) -> u64 {
    if cpu < 64 { 1 << cpu } else { 0 }
}

impl Known {
    pub fn number(&self) -> u64 {
        let state = if self.is_running { 1 } else { 0 };
        self.ends.saturating_mul(4).saturating_add(state)
    }

    pub fn awaited(&self) -> u64 {
        self.start & !self.heard
    }

    /// Returns its knowledge after an accepted line, given the other replica's.
    fn after(mut self, other: &Known, asked: Asked) -> Known {
        match asked {
            Asked::Begin(set) => {
                self.is_running = true;
                self.tag = self.number();
                self.start = set;
                self.heard = 0;
            }
            Asked::Report(cpu, tag) if self.is_running && tag == self.tag => self.heard |= bit(cpu),
            Asked::Depart(cpu) => self.heard |= bit(cpu),
            Asked::End => {
                self.ends = self.ends.saturating_add(1);
                self.is_running = false;
            }
            Asked::Merge => self.heard |= other.heard,
            _ => {}
        }
        self
    }
}

impl Known {
    /// Returns the reply to a report.
    fn reported(&self, cpu: u32, tag: u64) -> &'static str {
        if !self.is_running || tag != self.tag {
            "stale\n"
        } else if self.awaited() == bit(cpu) {
            "last\n"
        } else if self.awaited() & bit(cpu) == 0 {
            "repeat\n"
        } else {
            "taken\n"
        }
    }

    /// Writes the reply to an accepted line, beside the other one.
    fn write_reply(
        &self,
        other: &Known,
        text: &mut String,
        asked: Asked,
    ) -> Result<(), AllocError> {
        let now = self.after(other, asked);
        match asked {
            Asked::Begin(set) => {
                writeln!(text, "begun {} awaits {}", now.number(), set.count_ones())
            }
            Asked::Report(cpu, tag) => text.push_str(self.reported(cpu, tag)),
            Asked::Depart(_) => text.push_str("departed\n"),
            Asked::End => writeln!(text, "ended {}", now.number()),
            Asked::Awaits => write_awaited(text, self.awaited()),
            Asked::Merge => writeln!(text, "merged {}", now.awaited().count_ones()),
            Asked::Same if self.awaited() == other.awaited() => text.push_str("same\n"),
            Asked::Same => text.push_str("differ\n"),
        }
    }
}

impl PairModel {
    /// Returns the knowledge of both replicas, that of the side first.
    pub fn known(&self, first: Side) -> (Known, Known) {
        let mut a = Known::default();
        let mut b = Known::default();
        for (side, asked) in &self.past {
            match side {
                Side::A => a = a.after(&b, *asked),
                Side::B => b = b.after(&a, *asked),
            }
        }
        match first {
            Side::A => (a, b),
            Side::B => (b, a),
        }
    }

    /// The fault of a line, by its number, 0 for none.
    fn fault(&self, mine: &Known, other: &Known, asked: Asked) -> u32 {
        match asked {
            Asked::Begin(set) if self.cpus < 64 && set >= 1 << self.cpus => 1,
            Asked::Report(cpu, _) | Asked::Depart(cpu) if cpu >= self.cpus => 1,
            Asked::Begin(_) if mine.is_running => 8,
            Asked::Begin(_) if mine.number() == self.last => 11,
            Asked::Depart(0) => 12,
            Asked::End if !mine.is_running => 9,
            Asked::End if mine.awaited() > 0 => 10,
            Asked::Merge if mine.tag != other.tag || mine.start != other.start => 20,
            _ => 0,
        }
    }

    /// Writes the reply to a line, and stores the line if it is accepted.
    pub fn answer(
        &mut self,
        text: &mut String,
        side: Side,
        asked: Asked,
    ) -> Result<(), AllocError> {
        let (mine, other) = self.known(side);
        let fault = self.fault(&mine, &other, asked);
        if fault > 0 {
            return writeln!(text, "fault {fault}");
        }
        self.past.push((side, asked))?;
        mine.write_reply(&other, text, asked)
    }
}

/// Writes the line of the awaited processors.
fn write_awaited(text: &mut String, awaited: u64) -> Result<(), AllocError> {
    text.push_str("awaits")?;
    for cpu in 0..64u32 {
        if awaited & bit(cpu) != 0 {
            write!(text, " {cpu}")?;
        }
    }
    text.push_str(if awaited == 0 { " none\n" } else { "\n" })
}
