//! Lines of two replicas drawn at random, and their replies against the model's.

use crate::runs::drawn::{Drawing, drawn_lines_get_the_replies_of_the_model};
use crate::runs::pair::model::{Asked, Known, PairModel, bit};
use rand_core::{Rng, SeedableRng};
use rand_pcg::Pcg32;
use rcu_script::pair::event::Side;
use std::alloc::{AllocError, Global};

/// How many lines are drawn.
const LENGTH: usize = 300;

/// The pairs: how many processors, the last number, and a seed.
static SEEDS: [(u32, u64, u64); 8] = [
    (3, 4, 1),
    (3, 400, 2),
    (4, 8, 3),
    (5, 400, 4),
    (6, 12, 5),
    (6, 400, 6),
    (3, 400, 7),
    (1, 400, 8),
];

/// Lines outside the grammar.
static MALFORMED: [&str; 8] = [
    "a",
    "c end",
    "a same",
    "same b",
    "b begin",
    "a report 0",
    "b depart x",
    "A end",
];

/// The replies that have to occur, by how they begin and what they are not, and their least count.
static SHOWN: [(&str, &str, u64); 10] = [
    ("ended", "", 100),
    ("merged", "merged 0", 15),
    ("same", "", 80),
    ("differ", "", 50),
    ("departed", "", 20),
    ("last", "", 80),
    ("taken", "", 150),
    ("repeat", "", 25),
    ("stale", "", 100),
    ("fault 20", "", 50),
];

/// A line that leads a replica's grace period on: a report of the first processor that is awaited,
/// an end or a begin.
fn useful(mine: &Known) -> Asked {
    let running = mine.number() % 4;
    if mine.awaited() > 0 {
        Asked::Report(mine.awaited().trailing_zeros(), mine.number())
    } else if running == 1 {
        Asked::End
    } else {
        Asked::Begin(7)
    }
}

/// Any line, with processors below 6, and reports of the number or of one of the first.
fn any_line(rng: &mut Pcg32, number: u64) -> Asked {
    let word = rng.next_u32() / 64;
    let cpu = word % 6;
    match rng.next_u32() % 16 {
        0..=1 => Asked::Begin(7),
        2 => Asked::Begin(u64::from(word % 63) + 1),
        3..=4 => Asked::End,
        5 => Asked::Depart(cpu),
        6 => Asked::Awaits,
        7..=9 => Asked::Merge,
        10..=11 => Asked::Same,
        12..=13 => Asked::Report(cpu, number),
        _ => Asked::Report(cpu, u64::from(word % 8) * 4 + 1),
    }
}

fn write_line(text: &mut String, side: Side, asked: Asked) -> Result<(), AllocError> {
    if !matches!(asked, Asked::Same) {
        text.push_str(match side {
            Side::A => "a ",
            Side::B => "b ",
        })?;
    }
    match asked {
        Asked::Begin(set) => write_begin(text, set),
        Asked::Report(cpu, tag) => writeln!(text, "report {cpu} {tag}"),
        Asked::Depart(cpu) => writeln!(text, "depart {cpu}"),
        Asked::End => text.push_str("end\n"),
        Asked::Awaits => text.push_str("awaits\n"),
        Asked::Merge => text.push_str("merge\n"),
        Asked::Same => text.push_str("same\n"),
    }
}

/// Writes the begin of a set, each of whose processors is named twice.
fn write_begin(text: &mut String, set: u64) -> Result<(), AllocError> {
    text.push_str("begin")?;
    for cpu in 0..6u32 {
        if set & bit(cpu) != 0 {
            write!(text, " {cpu} {cpu}")?;
        }
    }
    text.push('\n')
}

/// Draws a line, and writes the model's reply.
fn draw_line(
    rng: &mut Pcg32,
    model: &mut PairModel,
    lines: &mut String,
    replies: &mut String,
) -> Result<(), AllocError> {
    let choice = rng.next_u32() % 64;
    if choice == 0 {
        return lines.push_str("\n");
    }
    if choice == 1 {
        let place = rng.next_u32() as usize % MALFORMED.len();
        writeln!(lines, "{}", MALFORMED[place])?;
        return replies.push_str("fault 21\n");
    }
    let side = if choice % 2 == 0 { Side::A } else { Side::B };
    let mine = model.known(side).0;
    let asked = if choice < 28 {
        useful(&mine)
    } else {
        any_line(rng, mine.number())
    };
    write_line(lines, side, asked)?;
    model.answer(replies, side, asked)
}

/// The lines of a pair.
struct DrawnPair;

impl Drawing for DrawnPair {
    fn second() -> Option<(u32, u32)> {
        Some((2, 3))
    }

    fn draw(
        alloc: Global,
        cpus: u32,
        last: u64,
        seed: u64,
    ) -> Result<(String, String), AllocError> {
        let mut rng = Pcg32::seed_from_u64(seed);
        let mut model = PairModel {
            cpus,
            last,
            past: Vec::new(alloc),
        };
        let mut lines = String::new(alloc);
        let mut replies = String::new(alloc);
        for _ in 0..LENGTH {
            draw_line(&mut rng, &mut model, &mut lines, &mut replies)?;
        }
        Ok((lines, replies))
    }
}

#[test]
fn drawn_pairs_get_the_replies_of_the_model(rt: HostRuntime) {
    let mut found = [0u64; SHOWN.len()];
    drawn_lines_get_the_replies_of_the_model::<DrawnPair>(
        &rt,
        rt.alloc(),
        &SEEDS,
        &SHOWN,
        &mut found,
    );
}
