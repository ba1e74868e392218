//! The requests of a pair's lines.
ghost use Rattle.std.specs.Prelude.{◌≡◌, ◌≤◌, length};
ghost use Rattle.rcu_text.specs.Lines.{line_by};
ghost use Rattle.rcu_text.specs.Words.{words_of};
ghost use Rattle.rcu_script.specs.PairLines.{named_cpus, depart_in_words, pair_ask_of};
ghost use Rattle.rcu_script.specs.PairLines.{pair_event_alone, pair_event_of, report_in_words};
ghost use Rattle.rcu_script.specs.PairLines.{side_of};

use crate::pair::event::{LineCpus, PairAsk, PairEvent, Side};
use crate::script::parse::{cpu_of_number, is_word};
use rcu_text::{Line, is_well_formed, next_word, number};

/// The requests of a pair's lines.
pub fn parse_line(line: &[u8]) -> Line<PairAsk>
    ensures { result ≡ line_by pair_ask_of line.now }
{
    if !is_well_formed(line) {
        return Line::Malformed;
    }
    match next_word(line) {
        None => Line::Blank,
        Some((first, rest)) => match parse_ask(first, rest) {
            Some(ask) => Line::Ask(ask),
            None => Line::Malformed,
        },
    }
}

/// Returns the request of a first word and the words behind it.
fn parse_ask(first: &[u8], rest: &[u8]) -> Option<PairAsk>
    requires { length rest.now ≤ 80 }
    ensures { result ≡ pair_ask_of first.now (words_of rest.now) }
{
    match next_word(rest) {
        None => match first {
            b"same" => Some(PairAsk::Same),
            _ => None,
        },
        Some((name, rest)) => {
            let side = parse_side(first)?;
            Some(PairAsk::Of(side, parse_event(name, rest)?))
        }
    }
}

/// Returns the replica of a name.
fn parse_side(name: &[u8]) -> Option<Side>
    ensures { result ≡ side_of name.now }
{
    match name {
        b"a" => Some(Side::A),
        b"b" => Some(Side::B),
        _ => None,
    }
}

/// Returns the event of a name and the words behind it.
fn parse_event(name: &[u8], rest: &[u8]) -> Option<PairEvent>
    requires { length rest.now ≤ 80 }
    ensures { result ≡ pair_event_of name.now (words_of rest.now) }
{
    match next_word(rest) {
        None => parse_event_alone(name),
        Some((word, behind)) => {
            if is_word(name, b"begin") {
                Some(PairEvent::Begin(parse_cpus(rest)?))
            } else if is_word(name, b"depart") {
                parse_depart(word, behind)
            } else if is_word(name, b"report") {
                parse_report(word, behind)
            } else {
                None
            }
        }
    }
}

/// Returns the event of a name without further words.
fn parse_event_alone(name: &[u8]) -> Option<PairEvent>
    ensures { result ≡ pair_event_alone name.now }
{
    if is_word(name, b"end") {
        Some(PairEvent::End)
    } else if is_word(name, b"awaits") {
        Some(PairEvent::Awaits)
    } else if is_word(name, b"merge") {
        Some(PairEvent::Merge)
    } else {
        None
    }
}

/// Returns the processors that the words list, if each word is a number.
fn parse_cpus(words: &[u8]) -> Option<LineCpus>
    requires { length words.now ≤ 80 }
    ensures { result ≡ named_cpus (words_of words.now) }
{
    let mut cpus = LineCpus::new();
    let mut rest = words;
    while let Some((word, behind)) = next_word(rest) {
        cpus.push(cpu_of_number(number(word)?));
        rest = behind;
    }
    Some(cpus)
}

/// Returns the departure of a word, if no other word follows.
fn parse_depart(word: &[u8], rest: &[u8]) -> Option<PairEvent>
    ensures { result ≡ depart_in_words word.now (words_of rest.now) }
{
    match next_word(rest) {
        None => Some(PairEvent::Depart(cpu_of_number(number(word)?))),
        Some(_) => None,
    }
}

/// Returns the report of a word and the one word behind it.
fn parse_report(word: &[u8], rest: &[u8]) -> Option<PairEvent>
    ensures { result ≡ report_in_words word.now (words_of rest.now) }
{
    let (tag, rest) = next_word(rest)?;
    match next_word(rest) {
        None => Some(PairEvent::Report(cpu_of_number(number(word)?), number(tag)?)),
        Some(_) => None,
    }
}
