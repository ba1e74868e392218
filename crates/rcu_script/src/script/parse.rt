//! The events of a script's lines.
ghost use Rattle.std.specs.Prelude.{◌≡◌};
ghost use Rattle.std.specs.Str.{bytes_eq};
ghost use Rattle.rcu_text.specs.Words.{words_of};
ghost use Rattle.rcu_script.specs.ScriptLines.{asked_by, cpu_of, event_alone, event_of};
ghost use Rattle.rcu_script.specs.ScriptLines.{event_with_cpu, event_with_number};
ghost use Rattle.rcu_script.specs.ScriptLines.{event_with_numbers};

use rcu_core::Event;
use rcu_text::line_shape::LONGEST;
use rcu_text::{Line, next_word, number};

/// Returns the event that a line asks for.
pub fn parse_line(line: &[u8]) -> Line<Event>
    ensures { result ≡ asked_by line.now }
{
    // The bytes need no test: each known word, and each number, is printable.
    if line.len() > LONGEST {
        return Line::Malformed;
    }
    match next_word(line) {
        None => Line::Blank,
        Some((name, rest)) => match parse_event(name, rest) {
            Some(event) => Line::Ask(event),
            None => Line::Malformed,
        },
    }
}

/// Returns the event of a name and the words behind it.
fn parse_event(name: &[u8], rest: &[u8]) -> Option<Event>
    ensures { result ≡ event_of name.now (words_of rest.now) }
{
    match next_word(rest) {
        None => bare_event(name),
        Some((word, rest)) => match next_word(rest) {
            None => event_of_number(name, number(word)?),
            Some((next, rest)) => match next_word(rest) {
                None => event_of_two(name, number(word)?, number(next)?),
                Some(_) => None,
            },
        },
    }
}

/// Returns the event of a name without further words.
fn bare_event(name: &[u8]) -> Option<Event>
    ensures { result ≡ event_alone name.now }
{
    if is_word(name, b"begin") {
        Some(Event::Begin)
    } else if is_word(name, b"end") {
        Some(Event::End)
    } else if is_word(name, b"turn") {
        Some(Event::Turn)
    } else if is_word(name, b"awaits") {
        Some(Event::Awaits)
    } else if is_word(name, b"take") {
        Some(Event::Take)
    } else if is_word(name, b"start") {
        Some(Event::StartPoll)
    } else if is_word(name, b"bar") {
        Some(Event::BarBegin)
    } else if is_word(name, b"bartest") {
        Some(Event::BarTest)
    } else if is_word(name, b"renumber") {
        Some(Event::Renumber)
    } else {
        None
    }
}

/// Returns the event of a name and a number.
fn event_of_number(name: &[u8], n: u64) -> Option<Event>
    ensures { result ≡ event_with_number name.now n }
{
    if is_word(name, b"deliver") {
        Some(Event::Deliver(n))
    } else if is_word(name, b"poll") {
        Some(Event::Poll(n, 0))
    } else {
        event_of_cpu(name, cpu_of_number(n))
    }
}

/// Returns the event of a name and a processor.
fn event_of_cpu(name: &[u8], cpu: u32) -> Option<Event>
    ensures { result ≡ event_with_cpu name.now cpu }
{
    if is_word(name, b"enter") {
        Some(Event::Enter(cpu))
    } else if is_word(name, b"exit") {
        Some(Event::Exit(cpu))
    } else if is_word(name, b"note") {
        Some(Event::Note(cpu))
    } else if is_word(name, b"quiet") {
        Some(Event::Quiesce(cpu))
    } else if is_word(name, b"online") {
        Some(Event::Online(cpu))
    } else if is_word(name, b"offline") {
        Some(Event::Offline(cpu))
    } else if is_word(name, b"tend") {
        Some(Event::Tend(cpu))
    } else if is_word(name, b"visit") {
        Some(Event::Visit(cpu))
    } else if is_word(name, b"idle") {
        Some(Event::Idle(cpu))
    } else if is_word(name, b"wake") {
        Some(Event::Wake(cpu))
    } else if is_word(name, b"scan") {
        Some(Event::Scan(cpu))
    } else {
        None
    }
}

/// Returns the event of a name and two numbers.
fn event_of_two(name: &[u8], first: u64, second: u64) -> Option<Event>
    ensures { result ≡ event_with_numbers name.now first second }
{
    if is_word(name, b"queue") {
        Some(Event::Queue(cpu_of_number(first), second))
    } else if is_word(name, b"run") {
        Some(Event::Run(cpu_of_number(first), second))
    } else if is_word(name, b"poll") {
        Some(Event::Poll(first, second))
    } else {
        None
    }
}

/// Returns whether a name is this word.
pub(crate) fn is_word(name: &[u8], word: &[u8]) -> bool
    ensures { result ≡ bytes_eq name.now word.now }
{
    name == word
}

/// Returns the processor of a number. A number that does not fit 32 bits becomes the greatest one
/// that does, which is no processor either.
pub fn cpu_of_number(n: u64) -> u32
    ensures { result ≡ cpu_of n }
{
    u32::try_from(n).unwrap_or(u32::MAX)
}
