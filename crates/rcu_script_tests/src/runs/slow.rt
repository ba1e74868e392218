//! A slow program for whole lines: it reads them by std's text and numbers, and asks the models.

use crate::runs::pair::model::{Asked, PairModel, bit};
use crate::runs::script::model::Model;
use arrayvec::ArrayVec;
use rcu_core::Event;
use rcu_script::pair::event::Side;
use std::alloc::AllocError;

/// More words than a line of 80 bytes has.
const WORDS: usize = 41;

/// The responder.
#[derive(Drop)]
pub enum Slow {
    Script(Model),
    Pair(PairModel),
}

impl Slow {
    /// Writes the reply to a line.
    pub fn answer(&mut self, replies: &mut String, line: &[u8]) -> Result<(), AllocError> {
        let Some(text) = text_of(line) else {
            return replies.push_str("fault 21\n");
        };
        let words = words_of(text);
        if words.is_empty() {
            return Ok(());
        }
        self.answer_words(replies, words.as_slice())
    }

    /// Writes the reply to a line of these words.
    fn answer_words(&mut self, replies: &mut String, words: &[&str]) -> Result<(), AllocError> {
        match self {
            Slow::Script(model) => match event(words) {
                Some(event) => model.answer(replies, event),
                None => replies.push_str("fault 21\n"),
            },
            Slow::Pair(model) => match asked(words) {
                Some((side, asked)) => model.answer(replies, side, asked),
                None => replies.push_str("fault 21\n"),
            },
        }
    }
}

/// A line as text, if it is short enough and has spaces and graphic characters alone.
fn text_of(line: &[u8]) -> Option<&str> {
    let is_odd = |b: &u8| *b != b' ' && !b.is_ascii_graphic();
    match str::from_utf8(line) {
        Ok(text) if text.len() <= 80 && !line.iter().any(is_odd) => Some(text),
        _ => None,
    }
}

/// The words of a text.
fn words_of(text: &str) -> ArrayVec<&str, WORDS> {
    let mut words = ArrayVec::new();
    for word in text.split(' ') {
        if !word.is_empty() {
            let _ = words.try_push(word);
        }
    }
    words
}

/// Returns the event that the words of a script's line ask for.
fn event(words: &[&str]) -> Option<Event> {
    match words {
        [name] => bare_event(name),
        [name, word] => event_of_one(name, number(word)?),
        [name, word, next] => event_of_two(name, number(word)?, number(next)?),
        _ => None,
    }
}

/// The event of this name, of these.
fn named(events: &[(&str, Event)], name: &str) -> Option<Event> {
    for (known, event) in events {
        if *known == name {
            return Some(*event);
        }
    }
    None
}

/// The event that a name alone asks for.
fn bare_event(name: &str) -> Option<Event> {
    named(&BARE, name)
}

/// The names of the events without a number.
static BARE: [(&str, Event); 9] = [
    ("begin", Event::Begin),
    ("end", Event::End),
    ("turn", Event::Turn),
    ("awaits", Event::Awaits),
    ("take", Event::Take),
    ("start", Event::StartPoll),
    ("bar", Event::BarBegin),
    ("bartest", Event::BarTest),
    ("renumber", Event::Renumber),
];

/// The event that a name and one number ask for: most often a processor's.
fn event_of_one(name: &str, n: u64) -> Option<Event> {
    let cpu = cpu_at(n);
    named(
        &[
            ("enter", Event::Enter(cpu)),
            ("exit", Event::Exit(cpu)),
            ("note", Event::Note(cpu)),
            ("quiet", Event::Quiesce(cpu)),
            ("online", Event::Online(cpu)),
            ("offline", Event::Offline(cpu)),
            ("tend", Event::Tend(cpu)),
            ("visit", Event::Visit(cpu)),
            ("idle", Event::Idle(cpu)),
            ("wake", Event::Wake(cpu)),
            ("scan", Event::Scan(cpu)),
            ("deliver", Event::Deliver(n)),
            ("poll", Event::Poll(n, 0)),
        ],
        name,
    )
}

/// The event that a name and two numbers ask for.
fn event_of_two(name: &str, first: u64, second: u64) -> Option<Event> {
    let cpu = cpu_at(first);
    named(
        &[
            ("queue", Event::Queue(cpu, second)),
            ("run", Event::Run(cpu, second)),
            ("poll", Event::Poll(first, second)),
        ],
        name,
    )
}

/// Returns the request of a pair's line, and its replica.
fn asked(words: &[&str]) -> Option<(Side, Asked)> {
    match words {
        [one] if *one == "same" => Some((Side::A, Asked::Same)),
        [side, name, rest @ ..] => Some((side_of(side)?, asked_of(name, rest)?)),
        _ => None,
    }
}

fn side_of(name: &str) -> Option<Side> {
    match name {
        "a" => Some(Side::A),
        "b" => Some(Side::B),
        _ => None,
    }
}

/// Returns the request to a replica of a name and the words behind it.
fn asked_of(name: &str, rest: &[&str]) -> Option<Asked> {
    match rest {
        [] => bare_asked(name),
        _ if name == "begin" => Some(Asked::Begin(set_of(rest)?)),
        [cpu] => asked_of_one(name, cpu_of(cpu)?),
        [cpu, tag] => asked_of_two(name, cpu_of(cpu)?, number(tag)?),
        _ => None,
    }
}

/// Returns the request to a replica of a name and a processor.
fn asked_of_one(name: &str, cpu: u32) -> Option<Asked> {
    (name == "depart").then_some(Asked::Depart(cpu))
}

/// Returns the request to a replica of a name, a processor and a number.
fn asked_of_two(name: &str, cpu: u32, tag: u64) -> Option<Asked> {
    (name == "report").then_some(Asked::Report(cpu, tag))
}

fn bare_asked(name: &str) -> Option<Asked> {
    match name {
        "end" => Some(Asked::End),
        "awaits" => Some(Asked::Awaits),
        "merge" => Some(Asked::Merge),
        _ => None,
    }
}

/// The set of these processors, with a bit for each.
fn set_of(cpus: &[&str]) -> Option<u64> {
    let mut set = 0;
    for word in cpus {
        set |= bit(cpu_of(word)?.min(63));
    }
    Some(set)
}

/// The number of a word, by std, which takes a sign before it and any zeros.
fn number(word: &str) -> Option<u64> {
    if word.len() > 20 || matches!(word.as_bytes(), [b'+', ..]) {
        return None;
    }
    word.parse::<u64>().ok()
}

/// A processor; a number that no model has a processor for is as good as any other such one.
fn cpu_at(n: u64) -> u32 {
    n.min(9_999) as u32
}

fn cpu_of(word: &str) -> Option<u32> {
    number(word).map(cpu_at)
}
