//! Lines that are no text, or broken, against the slow programs.

use crate::runs::pair::model::PairModel;
use crate::runs::row::{ALL, FAR, Row, Streams};
use crate::runs::script::model::Model;
use crate::runs::slow::Slow;
use arrayvec::ArrayVec;
use rand_core::{Rng, SeedableRng};
use rand_pcg::Pcg32;
use std::alloc::{AllocError, Global};
use std::process::Abort;

/// The lines that the broken ones are made of.
static LINES: [&str; 33] = [
    "begin",
    "end",
    "turn",
    "awaits",
    "take",
    "start",
    "bar",
    "bartest",
    "renumber",
    "enter 0",
    "exit 0",
    "note 0",
    "note 1",
    "quiet 0",
    "quiet 1",
    "online 1",
    "offline 1",
    "tend 0",
    "visit 0",
    "visit 1",
    "deliver 1",
    "deliver 2",
    "poll 4",
    "poll 4 1",
    "queue 0 7",
    "queue 1 8",
    "run 0 2",
    "run 1 9",
    "idle 0",
    "idle 1",
    "wake 1",
    "scan 0",
    "scan 1",
];

static PAIR_LINES: [&str; 14] = [
    "same",
    "a begin 0 1",
    "b begin 0 1",
    "a begin 2",
    "a report 0 1",
    "b report 1 1",
    "a report 2 5",
    "a depart 1",
    "b depart 2",
    "a end",
    "b end",
    "a awaits",
    "a merge",
    "b merge",
];

/// Numbers round those that are the first not to fit.
static NUMBERS: [&str; 9] = [
    "0",
    "8",
    "4294967295",
    "4294967296",
    "4294967297",
    "18446744073709551614",
    "18446744073709551615",
    "18446744073709551616",
    "99999999999999999999",
];

/// The words before a number.
static BEFORE: [&str; 5] = ["poll ", "poll 4 ", "note ", "queue 0 ", "run 0 "];

static PAIR_BEFORE: [&str; 4] = ["a begin ", "a report 0 ", "b depart ", "b report 1 1 "];

/// Lengths round those of a line, of a block of replies and of a page.
static LENGTHS: [usize; 8] = [79, 80, 81, 82, 4_095, 4_096, 4_097, 100_000];

const ZEROS: &[u8] = b"000000000000000000000";

/// Input, and the replies of the slow program to its lines.
#[derive(Drop)]
struct Input {
    asked: Slow,
    lines: Vec<u8>,
    replies: String,
}

impl Input {
    fn new(alloc: Global, is_pair: bool) -> Input {
        let (cpus, last) = (3, 8);
        let asked = if is_pair {
            let past = Vec::new(alloc);
            Slow::Pair(PairModel { cpus, last, past })
        } else {
            let past = Vec::new(alloc);
            Slow::Script(Model { cpus, last, past })
        };
        Input {
            asked,
            lines: Vec::new(alloc),
            replies: String::new(alloc),
        }
    }

    /// Puts these parts as a line. A part may have line ends of its own.
    fn push(&mut self, parts: &[&[u8]]) -> Result<(), AllocError> {
        let begun = self.lines.len();
        for part in parts {
            self.lines.extend_from_slice(part)?;
        }
        self.end_line(begun)
    }

    /// Puts a line with as many of a byte behind it as it has to have.
    fn push_padded(&mut self, line: &[u8], byte: u8, length: usize) -> Result<(), AllocError> {
        let begun = self.lines.len();
        self.lines.extend_from_slice(line)?;
        self.lines.resize(begun.saturating_add(length), byte)?;
        self.end_line(begun)
    }

    /// Ends the line that begins here, and asks the slow program.
    fn end_line(&mut self, begun: usize) -> Result<(), AllocError> {
        let lines = self.lines.split_at(begun.min(self.lines.len())).1;
        answer_lines(&mut self.asked, &mut self.replies, lines)?;
        self.lines.push(b'\n')?;
        Ok(())
    }

    fn row(&self) -> Row<'_> {
        Row {
            name: "hostile",
            fanouts: (2, 2),
            second: match &self.asked {
                Slow::Script(_) => None,
                Slow::Pair(_) => Some((4, 4)),
            },
            cpus: 3,
            last: 8,
            lines: self.lines.as_slice(),
            replies: self.replies.as_str().as_bytes(),
        }
    }
}

/// Asks the slow program for the reply to each line.
fn answer_lines(asked: &mut Slow, replies: &mut String, lines: &[u8]) -> Result<(), AllocError> {
    for line in lines.split(|b| *b == b'\n') {
        asked.answer(replies, line)?;
    }
    Ok(())
}

/// Each byte as a line, behind a line's text and before it.
fn bytes(input: &mut Input, line: &[u8]) -> Result<(), AllocError> {
    for b in 0..=u8::MAX {
        input.push(&[&[b]])?;
        input.push(&[line, &[b]])?;
        input.push(&[&[b], line])?;
    }
    Ok(())
}

/// The name of a line one byte too short, one too long and in capitals, before up to four numbers.
fn names(input: &mut Input, line: &[u8]) -> Result<(), AllocError> {
    let (name, _) = line.split_at(name_length(line).min(line.len()));
    for count in 0..5 {
        for how in 0..4 {
            input.push(&[misspelt(name, how, count).as_slice()])?;
        }
    }
    Ok(())
}

/// How many bytes a line has up to its last letter.
fn name_length(line: &[u8]) -> usize {
    let mut length = 0;
    for (at, b) in line.iter().enumerate() {
        if b.is_ascii_lowercase() {
            length = at + 1;
        }
    }
    length
}

/// The name before this many numbers: as it is, a byte too short, in capitals, a byte too long.
fn misspelt(name: &[u8], how: u8, count: usize) -> ArrayVec<u8, 32> {
    let mut text = ArrayVec::new();
    let length = name.len().saturating_sub(usize::from(how == 1));
    for b in name.iter().take(length) {
        let _ = text.try_push(if how == 2 { b.to_ascii_uppercase() } else { *b });
    }
    if how == 3 {
        let _ = text.try_push(b'e');
    }
    for _ in 0..count {
        let _ = text.try_extend_from_slice(b" 1");
    }
    text
}

/// Each number as it is and behind zeros, with 20 digits and 21.
fn numbers(input: &mut Input, before: &[&str]) -> Result<(), AllocError> {
    for word in before {
        for number in &NUMBERS {
            push_number(input, word.as_bytes(), number.as_bytes(), 0)?;
            push_number(input, word.as_bytes(), number.as_bytes(), 20)?;
            push_number(input, word.as_bytes(), number.as_bytes(), 21)?;
        }
    }
    Ok(())
}

/// A number behind as many zeros as make this many digits, and behind a sign.
fn push_number(
    input: &mut Input,
    word: &[u8],
    number: &[u8],
    digits: usize,
) -> Result<(), AllocError> {
    let zeros = digits.saturating_sub(number.len());
    let (zeros, _) = ZEROS.split_at(zeros.min(ZEROS.len()));
    input.push(&[word, zeros, number])?;
    input.push(&[word, b"+", number])
}

/// A line with bytes behind it, and a line of such bytes alone.
fn padded(input: &mut Input, line: &[u8], length: usize) -> Result<(), AllocError> {
    input.push_padded(b"", b' ', length)?;
    input.push_padded(line, b' ', length)?;
    input.push_padded(b"", b'0', length)?;
    input.push_padded(line, b'0', length)
}

/// The inputs that are not drawn, one after another.
fn made(alloc: Global, is_pair: bool, place: usize) -> Result<Input, AllocError> {
    let mut input = Input::new(alloc, is_pair);
    if is_pair {
        fill(&mut input, b"same", &PAIR_LINES, &PAIR_BEFORE, place)?;
    } else {
        fill(&mut input, b"awaits", &LINES, &BEFORE, place)?;
    }
    Ok(input)
}

/// Fills the input of this place, from these lines and the words before a number.
fn fill(
    input: &mut Input,
    first: &[u8],
    lines: &[&str],
    before: &[&str],
    place: usize,
) -> Result<(), AllocError> {
    match place {
        0 => bytes(input, first),
        1 => all_names(input, lines),
        2 => numbers(input, before),
        _ => {
            let length = LENGTHS.get(place - 3).copied().unwrap_or(0);
            padded(input, first, length)
        }
    }
}

/// The names of all lines.
fn all_names(input: &mut Input, lines: &[&str]) -> Result<(), AllocError> {
    for line in lines {
        names(input, line.as_bytes())?;
    }
    Ok(())
}

#[test]
fn hostile_lines(rt: HostRuntime) {
    for number in 0..22 {
        let input = made_again(&rt, rt.alloc(), number % 2 == 1, number / 2);
        keeps(&rt, rt.alloc(), number as u64, &input.row());
    }
}

/// Makes an input, by a second call if the first is refused memory.
fn made_again(rt: &impl Abort, alloc: Global, is_pair: bool, place: usize) -> Input {
    match made(alloc, is_pair, place) {
        Ok(input) => input,
        Err(_) => made(alloc, is_pair, place).expect(rt, "memory for lines"),
    }
}

/// The lines of an input are answered in pieces, with and without their last end, and cut at each
/// quarter.
fn keeps(rt: &impl Abort, alloc: Global, number: u64, row: &Row) {
    for piece in [7, ALL] {
        row.answers(rt, alloc, number, piece);
        row.without_last_end().answers(rt, alloc, number, piece);
    }
    for part in 1..4 {
        cut(rt, alloc, number, row, part);
    }
}

/// The lines, and then the replies, may end at this quarter.
fn cut(rt: &impl Abort, alloc: Global, number: u64, row: &Row, part: usize) {
    let whole = Streams::passing(100);
    let gives = (row.lines.len() / 4).saturating_mul(part);
    let takes = (row.replies.len() / 4).saturating_mul(part);
    row.keeps(rt, alloc, number, Streams { gives, ..whole });
    row.keeps(rt, alloc, number, Streams { takes, ..whole });
}

/// A legal line, broken at a place drawn at random, or bytes drawn at random.
fn push_drawn(input: &mut Input, rng: &mut Pcg32, lines: &[&str]) -> Result<(), AllocError> {
    let choice = rng.next_u32() % 8;
    let place = rng.next_u32() as usize % lines.len().max(1);
    let Some(line) = lines.get(place) else {
        return Ok(());
    };
    let line = line.as_bytes();
    let (front, behind) = line.split_at(rng.next_u32() as usize % line.len().max(1));
    let drawn = rng.next_u32().to_le_bytes();
    let (some, _) = drawn.as_slice().split_at(choice as usize % 4);
    match choice {
        0..=3 => input.push(&[line]),
        4 => input.push(&[front]),
        5 => input.push(&[front, some, behind]),
        6 => input.push(&[front, some, behind.split_at(behind.len().min(1)).1]),
        _ => input.push(&[&[b' '; 70], line, some]),
    }
}

fn draw(alloc: Global, is_pair: bool, seed: u64) -> Result<Input, AllocError> {
    let mut rng = Pcg32::seed_from_u64(seed);
    let mut input = Input::new(alloc, is_pair);
    if is_pair {
        push_all_drawn(&mut input, &mut rng, &PAIR_LINES)?;
    } else {
        push_all_drawn(&mut input, &mut rng, &LINES)?;
    }
    Ok(input)
}

/// Puts a drawn number of drawn lines.
fn push_all_drawn(input: &mut Input, rng: &mut Pcg32, lines: &[&str]) -> Result<(), AllocError> {
    for _ in 0..rng.next_u32() % 16 {
        push_drawn(input, rng, lines)?;
    }
    Ok(())
}

#[test]
fn drawn_bytes_get_the_replies_of_the_slow_programs(rt: HostRuntime) {
    for seed in 0..4_000u64 {
        let is_pair = seed % 2 == 1;
        let input = drawn(&rt, rt.alloc(), is_pair, seed);
        keeps_anyhow(&rt, rt.alloc(), seed, &input.row());
    }
}

/// Draws an input, by a second call if the first is refused memory.
fn drawn(rt: &impl Abort, alloc: Global, is_pair: bool, seed: u64) -> Input {
    match draw(alloc, is_pair, seed) {
        Ok(input) => input,
        Err(_) => draw(alloc, is_pair, seed).expect(rt, "memory for lines"),
    }
}

/// The lines are answered this many bytes at once as are drawn, through streams of which none, one,
/// the other and both fail after a drawn number of bytes.
fn keeps_anyhow(rt: &impl Abort, alloc: Global, seed: u64, row: &Row) {
    let mut rng = Pcg32::seed_from_u64(seed);
    let whole = Streams::passing(1 + rng.next_u32() as usize % 40);
    let gives = rng.next_u32() as usize % row.lines.len().saturating_add(9).max(1);
    let takes = rng.next_u32() as usize % row.replies.len().saturating_add(40).max(1);
    row.keeps(rt, alloc, seed, whole);
    row.keeps(rt, alloc, seed, Streams { gives, ..whole });
    row.keeps(rt, alloc, seed, Streams { takes, ..whole });
    let both = Streams {
        gives,
        takes,
        ..whole
    };
    row.keeps(rt, alloc, seed, both);
}
