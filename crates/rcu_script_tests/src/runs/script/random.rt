//! Scripts drawn at random, and their replies against the model's.

use crate::runs::drawn::{Drawing, drawn_lines_get_the_replies_of_the_model};
use crate::runs::script::model::{
    Model, depth, epoch, is_awaited, is_idle, is_running, made, number,
};
use rand_core::{Rng, SeedableRng};
use rand_pcg::Pcg32;
use rcu_core::Event;
use std::alloc::{AllocError, Global};

/// How many lines a script has.
const LENGTH: usize = 250;

/// The scripts: how many processors, the last number, and a seed.
static SEEDS: [(u32, u64, u64); 26] = [
    (1, 4, 1),
    (1, 400, 2),
    (2, 8, 3),
    (2, 400, 4),
    (2, 400, 5),
    (3, 12, 6),
    (3, 400, 7),
    (4, 400, 8),
    (4, 400, 9),
    (6, 400, 10),
    (2, 400, 11),
    (3, 400, 12),
    (2, 400, 13),
    (3, 400, 14),
    (4, 400, 15),
    (5, 400, 16),
    (2, 16, 17),
    (2, 400, 18),
    (3, 400, 19),
    (4, 400, 20),
    (1, 4, 21),
    (2, 4, 22),
    (3, 4, 23),
    (2, 8, 24),
    (3, 8, 25),
    (2, 12, 26),
];

/// Lines outside the grammar, and one that is too long.
static MALFORMED: [&str; 12] = [
    "frob",
    "enter",
    "note x",
    "poll -1",
    "poll 4 -1",
    "renumber 1",
    "begin 0",
    "queue 1",
    "Turn",
    "idle",
    "scan 0 1",
    "tend 0                                                                            ",
];

/// The replies that have to occur, by how they begin and what they are not, and their least count.
static SHOWN: [(&str, &str, u64); 18] = [
    ("ended", "", 80),
    ("ran", "ran none", 30),
    ("barrier done", "", 20),
    ("offline moved", "offline moved 0", 8),
    ("barrier waits", "", 40),
    ("marked", "", 10),
    ("done", "", 20),
    ("not yet", "", 40),
    ("stale", "", 60),
    ("repeat", "", 8),
    ("epoch", "", 20),
    ("cookie 4 epoch", "", 20),
    ("fault 11", "", 10),
    ("fault 22", "", 15),
    ("idle", "", 40),
    ("awake", "", 40),
    ("fault 23", "", 12),
    ("fault 24", "", 40),
];

/// Returns the next event after one: from a note to the delivery of the report; from some callbacks
/// to a departure that moves them; from an end to a tend and a run of each list; from a barrier's
/// begin to a visit of each processor, and at last to a test; from a renumbering to a snapshot; and
/// from going idle to a scan, and on to a wake, or to a quiescent state, which is refused.
fn next_of(event: Event, cpus: u32, reports: u64) -> Option<Event> {
    match event {
        Event::Note(cpu) => Some(Event::Quiesce(cpu)),
        Event::Quiesce(_) => Some(Event::Deliver(reports)),
        Event::Queue(cpu, value) if cpu > 0 && value % 4 == 0 => Some(Event::Offline(cpu)),
        Event::End | Event::Turn => Some(Event::Tend(cpus.saturating_sub(1))),
        Event::Tend(cpu) => Some(Event::Run(cpu, 3)),
        Event::Run(cpu, _) if cpu > 0 => Some(Event::Tend(cpu - 1)),
        Event::BarBegin => Some(Event::Visit(cpus.saturating_sub(1))),
        Event::Visit(0) => Some(Event::BarTest),
        Event::Visit(cpu) => Some(Event::Visit(cpu - 1)),
        Event::Renumber => Some(Event::Take),
        Event::Idle(cpu) => Some(Event::Scan(cpu)),
        Event::Scan(cpu) if cpu % 2 == 0 => Some(Event::Wake(cpu)),
        Event::Scan(cpu) => Some(Event::Quiesce(cpu)),
        _ => None,
    }
}

/// An event that leads the grace period on: of the first processor that is awaited, which at times
/// falls idle, or else a turn or a begin; at the last number a renumbering, and at times a begin,
/// which is refused there.
fn useful(cpus: u32, last: u64, past: &[Event]) -> Event {
    for cpu in 0..cpus {
        if is_awaited(past, cpu) {
            return if depth(past, cpu) > 0 {
                Event::Exit(cpu)
            } else if is_idle(past, cpu) {
                Event::Scan(cpu)
            } else if past.len() % 4 == 1 {
                Event::Idle(cpu)
            } else {
                Event::Note(cpu)
            };
        }
    }
    if number(past) == last {
        if past.len() % 4 == 0 {
            Event::Begin
        } else {
            Event::Renumber
        }
    } else if is_running(past) || number(past) % 8 == 0 {
        Event::Turn
    } else {
        Event::Begin
    }
}

/// Returns any event: of a processor, which sometimes does not exist, of a report up to one that
/// was not made, or of a cookie below 40 and of an epoch up to one that did not begin.
fn any_event(rng: &mut Pcg32, cpus: u32, reports: u64, epoch: u64) -> Event {
    let number = u64::from(rng.next_u32() % 40);
    let cpu = rng.next_u32() % cpus.saturating_add(1).max(1);
    let later = epoch.saturating_add(1);
    match rng.next_u32() % 41 {
        0 => Event::Begin,
        1 => Event::End,
        2 => Event::Turn,
        3..=4 => Event::Online(cpu),
        5..=6 => Event::Offline(cpu),
        7 => Event::Enter(cpu),
        8..=9 => Event::Exit(cpu),
        10 => Event::Awaits,
        11 => Event::Take,
        12 => Event::StartPoll,
        13..=14 => Event::Poll(number, later.saturating_sub(number % 4)),
        15 => Event::Note(cpu),
        16 => Event::Quiesce(cpu),
        17..=18 => Event::Deliver(number % reports.saturating_add(2).max(1)),
        19..=25 => Event::Queue(cpu, number),
        26 => Event::Tend(cpu),
        27 => Event::Run(cpu, number % 8),
        28..=29 => Event::BarBegin,
        30 => Event::Visit(cpu),
        31..=32 => Event::BarTest,
        33..=34 => Event::Poll(number / 8 * 4, later.saturating_sub(number % 4)),
        35 => Event::Renumber,
        36..=37 => Event::Idle(cpu),
        38..=39 => Event::Wake(cpu),
        _ => Event::Scan(cpu),
    }
}

fn write_line(text: &mut String, event: Event) -> Result<(), AllocError> {
    match event {
        Event::Enter(cpu) => write_one(text, "enter", u64::from(cpu)),
        Event::Exit(cpu) => write_one(text, "exit", u64::from(cpu)),
        Event::Note(cpu) => write_one(text, "note", u64::from(cpu)),
        Event::Quiesce(cpu) => write_one(text, "quiet", u64::from(cpu)),
        Event::Deliver(place) => write_one(text, "deliver", place),
        Event::Online(cpu) => write_one(text, "online", u64::from(cpu)),
        Event::Offline(cpu) => write_one(text, "offline", u64::from(cpu)),
        Event::Begin => text.push_str("begin\n"),
        Event::End => text.push_str("end\n"),
        Event::Turn => text.push_str("turn\n"),
        Event::Awaits => text.push_str("awaits\n"),
        Event::Take => text.push_str("take\n"),
        Event::StartPoll => text.push_str("start\n"),
        Event::Poll(cookie, 0) => write_one(text, "poll", cookie),
        Event::Poll(cookie, epoch) => write_two(text, "poll", cookie, epoch),
        Event::Queue(cpu, value) => write_two(text, "queue", u64::from(cpu), value),
        Event::Tend(cpu) => write_one(text, "tend", u64::from(cpu)),
        Event::Run(cpu, most) => write_two(text, "run", u64::from(cpu), most),
        Event::BarBegin => text.push_str("bar\n"),
        Event::Visit(cpu) => write_one(text, "visit", u64::from(cpu)),
        Event::BarTest => text.push_str("bartest\n"),
        Event::Renumber => text.push_str("renumber\n"),
        Event::Idle(cpu) => write_one(text, "idle", u64::from(cpu)),
        Event::Wake(cpu) => write_one(text, "wake", u64::from(cpu)),
        Event::Scan(cpu) => write_one(text, "scan", u64::from(cpu)),
    }
}

/// Writes a line of a name and a number.
fn write_one(text: &mut String, name: &str, n: u64) -> Result<(), AllocError> {
    writeln!(text, "{name} {n}")
}

/// Writes a line of a name and two numbers.
fn write_two(text: &mut String, name: &str, first: u64, second: u64) -> Result<(), AllocError> {
    writeln!(text, "{name} {first} {second}")
}

/// Draws a line after this event, and writes the model's reply. Answers with the last event.
fn draw_line(
    rng: &mut Pcg32,
    model: &mut Model,
    script: &mut String,
    replies: &mut String,
    event: Event,
) -> Result<Event, AllocError> {
    let choice = rng.next_u32() % 32;
    if choice == 0 {
        script.push_str("  \n")?;
        return Ok(event);
    }
    if choice == 1 {
        let place = rng.next_u32() as usize % MALFORMED.len();
        writeln!(script, "{}", MALFORMED[place])?;
        replies.push_str("fault 21\n")?;
        return Ok(event);
    }
    let reports = made(model.past.as_slice()).0;
    let event = match next_of(event, model.cpus, reports) {
        Some(next) if choice < 26 => next,
        None if choice < 16 => useful(model.cpus, model.last, model.past.as_slice()),
        _ => any_event(rng, model.cpus, reports, epoch(model.past.as_slice())),
    };
    write_line(script, event)?;
    model.answer(replies, event)?;
    Ok(event)
}

/// The lines of a script, most of which lead something on.
struct DrawnScript;

impl Drawing for DrawnScript {
    fn second() -> Option<(u32, u32)> {
        None
    }

    fn draw(
        alloc: Global,
        cpus: u32,
        last: u64,
        seed: u64,
    ) -> Result<(String, String), AllocError> {
        let mut rng = Pcg32::seed_from_u64(seed);
        let mut model = Model {
            cpus,
            last,
            past: Vec::new(alloc),
        };
        let mut script = String::new(alloc);
        let mut replies = String::new(alloc);
        let mut event = Event::Awaits;
        for _ in 0..LENGTH {
            event = draw_line(&mut rng, &mut model, &mut script, &mut replies, event)?;
        }
        Ok((script, replies))
    }
}

#[test]
fn drawn_scripts_get_the_replies_of_the_model(rt: HostRuntime) {
    let mut found = [0u64; SHOWN.len()];
    drawn_lines_get_the_replies_of_the_model::<DrawnScript>(
        &rt,
        rt.alloc(),
        &SEEDS,
        &SHOWN,
        &mut found,
    );
}
