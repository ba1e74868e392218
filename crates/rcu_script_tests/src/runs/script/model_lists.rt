//! The lists of callbacks and the barrier, plainly: each question goes over all that happened.

use crate::runs::script::model::{count, number, snapshot};
use arrayvec::ArrayVec;
use rcu_core::Event;
use std::alloc::AllocError;

/// How many items all lists have at most.
const ROOM: usize = 80;

/// How many values a run hands out at most.
const MOST: usize = 16;

/// An item: a callback, by the number that it waits for, or a marker of a barrier.
#[derive(Clone, Copy, Default, PartialEq, Eq)]
enum Kind {
    #[default]
    Unmarked,
    Until(u64),
    Done,
    Marker,
}

/// An item in the list of a processor; a marker's value is 0.
#[derive(Clone, Copy, Default)]
struct Item {
    cpu: u32,
    value: u64,
    kind: Kind,
}

type Items = ArrayVec<Item, ROOM>;

/// All lists.
#[derive(Drop)]
pub struct Lists {
    /// The items. A processor's list is its items, in order.
    items: Items,
    /// The greatest number that a started poll requested or a tended list then waited for in the
    /// epoch, 0 before any. If a number of the epoch before was not reached, it is at least 4.
    pub needed: u64,
}

/// The lists after all that happened.
pub fn gathered(past: &[Event]) -> Lists {
    let mut lists = Lists {
        items: Items::new(),
        needed: 0,
    };
    for (i, event) in past.iter().enumerate() {
        let before = past.split_at(i).0;
        match event {
            Event::StartPoll => lists.needed = lists.needed.max(snapshot(before)),
            Event::Queue(cpu, value) => {
                let _ = lists.items.try_push(Item {
                    cpu: *cpu,
                    value: *value,
                    kind: Kind::Unmarked,
                });
            }
            Event::Tend(cpu) => lists.tend(*cpu, number(before), snapshot(before)),
            Event::Run(cpu, most) => {
                lists.run(*cpu, *most);
            }
            Event::Visit(cpu) => lists.visit(*cpu, before),
            Event::Renumber => lists.renumber(number(before)),
            Event::Offline(cpu) => {
                lists.visit(*cpu, before);
                lists.move_away(*cpu);
            }
            _ => {}
        }
    }
    lists
}

/// Returns whether a barrier runs that did not visit the processor, also not as it departed.
fn is_owed(past: &[Event], cpu: u32) -> bool {
    let mut is_owed = false;
    for event in past {
        match event {
            Event::BarBegin => is_owed = true,
            Event::BarTest => is_owed = false,
            Event::Visit(visited) | Event::Offline(visited) if *visited == cpu => is_owed = false,
            _ => {}
        }
    }
    is_owed
}

/// Returns the number of markers and unvisited processors that the barrier waits for.
pub fn waits_for(cpus: u32, past: &[Event]) -> u64 {
    let mut waits = 0u64;
    for item in gathered(past).items.as_slice() {
        if item.kind == Kind::Marker {
            waits = waits.saturating_add(1);
        }
    }
    for cpu in 0..cpus {
        if is_owed(past, cpu) {
            waits = waits.saturating_add(1);
        }
    }
    waits
}

impl Lists {
    /// Callbacks that waited for at most the number are done, and those without a mark wait for the
    /// snapshot.
    fn tend(&mut self, cpu: u32, number: u64, snapshot: u64) {
        let mut needed = self.needed;
        for item in self.items.as_mut_slice() {
            if item.cpu == cpu {
                item.kind = match item.kind {
                    Kind::Until(awaited) if awaited <= number => Kind::Done,
                    Kind::Unmarked => Kind::Until(snapshot),
                    kind => kind,
                };
                if let Kind::Until(awaited) = item.kind {
                    needed = needed.max(awaited);
                }
            }
        }
        self.needed = needed;
    }

    /// Callbacks that wait for a number wait for any. If a needed number is not reached, the next
    /// one is needed.
    fn renumber(&mut self, number: u64) {
        for item in self.items.as_mut_slice() {
            if let Kind::Until(_) = item.kind {
                item.kind = Kind::Unmarked;
            }
        }
        self.needed = if self.needed > number { 4 } else { 0 };
    }

    /// Hands out the first callbacks of the done part, at most this many, and drops the markers
    /// before the next callback.
    fn run(&mut self, cpu: u32, most: u64) -> ArrayVec<u64, MOST> {
        let mut values = ArrayVec::new();
        let mut is_behind = false;
        let mut kept = Items::new();
        for item in self.items.as_slice() {
            let is_due = item.kind == Kind::Done && (values.len() as u64) < most;
            if item.cpu == cpu && item.kind != Kind::Marker && !is_due {
                is_behind = true;
            }
            if item.cpu != cpu || is_behind {
                let _ = kept.try_push(*item);
            } else if item.kind != Kind::Marker {
                let _ = values.try_push(item.value);
            }
        }
        self.items = kept;
        values
    }

    /// Visits a processor if that is owed: a marker goes behind its list, if a callback is in it.
    /// (No list has markers alone.)
    fn visit(&mut self, cpu: u32, before: &[Event]) {
        if is_owed(before, cpu) && self.counts(cpu) != (0, 0) {
            let _ = self.items.try_push(Item {
                cpu,
                value: 0,
                kind: Kind::Marker,
            });
        }
    }

    /// Moves a processor's list to processor 0's: its done part in front, the rest behind it
    /// without marks.
    fn move_away(&mut self, cpu: u32) {
        let mut done = Items::new();
        let mut others = Items::new();
        let mut rest = Items::new();
        for item in self.items.as_slice() {
            let mut moved = Item { cpu: 0, ..*item };
            let is_done = item.kind == Kind::Done || item.kind == Kind::Marker;
            if item.cpu != cpu {
                let _ = others.try_push(*item);
            } else if is_done && rest.is_empty() {
                let _ = done.try_push(moved);
            } else {
                if item.kind != Kind::Marker {
                    moved.kind = Kind::Unmarked;
                }
                let _ = rest.try_push(moved);
            }
        }
        let _ = done.try_extend_from_slice(others.as_slice());
        let _ = done.try_extend_from_slice(rest.as_slice());
        self.items = done;
    }

    /// How many callbacks are in the done part of the processor's list, and how many are behind it.
    fn counts(&self, cpu: u32) -> (u64, u64) {
        let mut done = 0u64;
        let mut waiting = 0u64;
        for item in self.items.as_slice() {
            if item.cpu == cpu && item.kind != Kind::Marker {
                if waiting == 0 && item.kind == Kind::Done {
                    done = done.saturating_add(1);
                } else {
                    waiting = waiting.saturating_add(1);
                }
            }
        }
        (done, waiting)
    }
}

/// Writes words and a number.
pub fn write_number(text: &mut String, words: &str, n: u64) -> Result<(), AllocError> {
    write!(text, "{words} {n}")
}

/// Writes a word and the values, or `none`.
pub fn write_values(text: &mut String, word: &str, values: &[u64]) -> Result<(), AllocError> {
    text.push_str(word)?;
    for value in values {
        write!(text, " {value}")?;
    }
    if values.is_empty() {
        text.push_str(" none")?;
    }
    Ok(())
}

/// Writes the reply to an event of the lists or the barrier that has no fault.
pub fn write_list_reply(
    text: &mut String,
    cpus: u32,
    past: &[Event],
    event: Event,
) -> Result<(), AllocError> {
    let mut lists = gathered(past);
    match event {
        Event::Offline(cpu) => {
            let (done, waiting) = lists.counts(cpu);
            write_number(text, "offline moved", done.saturating_add(waiting))
        }
        Event::Tend(cpu) => {
            lists.tend(cpu, number(past), snapshot(past));
            let (done, waiting) = lists.counts(cpu);
            write!(text, "tended {done} {waiting}")
        }
        Event::Run(cpu, most) => write_values(text, "ran", lists.run(cpu, most).as_slice()),
        Event::BarBegin => text.push_str("barrier begun"),
        Event::Visit(cpu) if !is_owed(past, cpu) => text.push_str("already"),
        Event::Visit(cpu) if lists.counts(cpu) == (0, 0) => text.push_str("empty"),
        Event::Visit(_) => text.push_str("marked"),
        _ => match waits_for(cpus, past) {
            0 => text.push_str("barrier done"),
            waits => write_number(text, "barrier waits", waits),
        },
    }
}
