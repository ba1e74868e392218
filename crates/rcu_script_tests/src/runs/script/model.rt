//! A plain program for the rules of the engine: for each event it looks back over all that
//! happened.

use crate::runs::script::model_lists::{
    gathered, waits_for, write_list_reply, write_number, write_values,
};
use arrayvec::ArrayVec;
use rcu_core::Event;
use std::alloc::AllocError;

/// How many processors a model has at most.
const CPUS: usize = 8;

/// The model: all events so far.
#[derive(Drop)]
pub struct Model {
    pub cpus: u32,
    pub last: u64,
    /// The events that were accepted. The model keeps nothing else.
    pub past: Vec<Event>,
}

impl Model {
    /// Writes the reply to an event, and stores the event if it is accepted.
    pub fn answer(&mut self, text: &mut String, event: Event) -> Result<(), AllocError> {
        let fault = fault(self.cpus, self.last, self.past.as_slice(), event);
        if fault > 0 {
            return writeln!(text, "fault {fault}");
        }
        let said = meant(self.cpus, self.past.as_slice(), event);
        let before = self.past.len();
        self.past.push(said)?;
        let now = self.past.as_slice();
        let past = now.split_at(before).0;
        write_reply(text, self.cpus, past, now, said)?;
        if said == Event::BarTest && waits_for(self.cpus, past) > 0 {
            let _ = self.past.pop();
        }
        text.push('\n')
    }
}

/// How often an event happened.
pub fn count(past: &[Event], wanted: Event) -> u64 {
    let mut found = 0u64;
    for event in past {
        if *event == wanted {
            found = found.saturating_add(1);
        }
    }
    found
}

/// How many reports were made, and how many callbacks were queued.
pub fn made(past: &[Event]) -> (u64, u64) {
    let mut reports = 0u64;
    let mut callbacks = 0u64;
    for event in past {
        match event {
            Event::Quiesce(_) => reports = reports.saturating_add(1),
            Event::Queue(_, _) => callbacks = callbacks.saturating_add(1),
            _ => {}
        }
    }
    (reports, callbacks)
}

pub fn is_running(past: &[Event]) -> bool {
    count(past, Event::Begin) > count(past, Event::End)
}

/// A number and its epoch.
pub type Tag = (u64, u64);

/// Returns the number of renumberings.
pub fn epoch(past: &[Event]) -> u64 {
    count(past, Event::Renumber)
}

/// Returns the events before the last renumbering, and those since.
fn at_renumbering(past: &[Event]) -> (&[Event], &[Event]) {
    let mut begun = 0;
    for (i, event) in past.iter().enumerate() {
        if *event == Event::Renumber {
            begun = i;
        }
    }
    past.split_at(begun.min(past.len()))
}

/// How many grace periods ended in the epoch.
fn ends(past: &[Event]) -> u64 {
    count(at_renumbering(past).1, Event::End)
}

pub fn number(past: &[Event]) -> u64 {
    let state = if is_running(past) { 1 } else { 0 };
    ends(past).saturating_mul(4).saturating_add(state)
}

pub fn tag(past: &[Event]) -> Tag {
    (number(past), epoch(past))
}

/// The number after the first grace period that begins from now on, were the numbers to go on.
pub fn snapshot(past: &[Event]) -> u64 {
    let more = if is_running(past) { 2 } else { 1 };
    ends(past).saturating_add(more).saturating_mul(4)
}

/// Returns the events since a cookie was first taken, if it was.
fn since_taking(past: &[Event], cookie: Tag) -> Option<&[Event]> {
    for (i, event) in past.iter().enumerate() {
        let (before, since) = past.split_at(i);
        if matches!(event, Event::Take | Event::StartPoll)
            && cookie == (snapshot(before), epoch(before))
        {
            return Some(since);
        }
    }
    None
}

/// Returns whether a grace period began, and one ended later.
fn has_full_period(since: &[Event]) -> bool {
    let mut has_begun = false;
    for event in since {
        if *event == Event::Begin {
            has_begun = true;
        } else if *event == Event::End && has_begun {
            return true;
        }
    }
    false
}

/// Returns whether a cookie is done. A cookie that was taken is done if a full grace period lies
/// after its snapshot. For any other one, the number is compared.
fn is_done(past: &[Event], cookie: Tag) -> bool {
    match since_taking(past, cookie) {
        Some(since) => has_full_period(since),
        None => cookie.0 == 1 || has_come(past, cookie),
    }
}

/// Returns whether a number of an epoch was reached in it or, in the next epoch, a grace period
/// ended; or whether more epochs than one passed since.
fn has_come(past: &[Event], (number_then, epoch_then): Tag) -> bool {
    match epoch(past).checked_sub(epoch_then) {
        None => false,
        Some(0) => number_then <= number(past),
        Some(1) => number_then <= number(at_renumbering(past).0) || ends(past) > 0,
        Some(_) => true,
    }
}

pub fn is_online(past: &[Event], cpu: u32) -> bool {
    let mut came = cpu == 0;
    for event in past {
        if *event == Event::Online(cpu) {
            came = true;
        } else if *event == Event::Offline(cpu) {
            came = false;
        }
    }
    came
}

/// Returns whether the processor went idle, and did neither wake nor depart nor arrive since.
pub fn is_idle(past: &[Event], cpu: u32) -> bool {
    let mut sleeps = false;
    for event in past {
        match event {
            Event::Idle(slept) if *slept == cpu => sleeps = true,
            Event::Wake(up) | Event::Offline(up) | Event::Online(up) if *up == cpu => {
                sleeps = false;
            }
            _ => {}
        }
    }
    sleeps
}

pub fn depth(past: &[Event], cpu: u32) -> u64 {
    count(past, Event::Enter(cpu)).saturating_sub(count(past, Event::Exit(cpu)))
}

/// The number at the last note or arrival and its epoch, both 0 before any.
fn noted(past: &[Event], cpu: u32) -> Tag {
    let mut until = 0;
    for (i, event) in past.iter().enumerate() {
        if *event == Event::Note(cpu) || *event == Event::Online(cpu) {
            until = i + 1;
        }
    }
    tag(past.split_at(until.min(past.len())).0)
}

/// The report of a place: its processor and its tag.
fn report(past: &[Event], place: u64) -> Option<(u32, Tag)> {
    let mut made = 0u64;
    for (i, event) in past.iter().enumerate() {
        if let Event::Quiesce(cpu) = event {
            made = made.saturating_add(1);
            if made == place {
                return Some((*cpu, noted(past.split_at(i).0, *cpu)));
            }
        }
    }
    None
}

/// Returns whether a grace period runs whose begin the processor was online at, and since which
/// neither a report of it with the number was delivered nor did it depart nor did a scan find it
/// idle.
pub fn is_awaited(past: &[Event], cpu: u32) -> bool {
    let mut begun = 0;
    for (i, event) in past.iter().enumerate() {
        if *event == Event::Begin {
            begun = i;
        }
    }
    let (before, since) = past.split_at(begun.min(past.len()));
    let mut is_heard = !is_running(past) || !is_online(before, cpu);
    for event in since {
        if let Event::Deliver(place) = event {
            if report(past, *place) == Some((cpu, tag(past))) {
                is_heard = true;
            }
        } else if *event == Event::Offline(cpu) || *event == Event::Scan(cpu) {
            is_heard = true;
        }
    }
    !is_heard
}

/// The awaited processors, in order.
fn awaited(cpus: u32, past: &[Event]) -> ArrayVec<u64, CPUS> {
    let mut found = ArrayVec::new();
    for cpu in 0..cpus {
        if is_awaited(past, cpu) {
            let _ = found.try_push(u64::from(cpu));
        }
    }
    found
}

/// How many processors are awaited.
fn count_awaited(cpus: u32, past: &[Event]) -> u64 {
    awaited(cpus, past).len() as u64
}

/// The processor that an event names.
fn named(event: Event) -> Option<u32> {
    match event {
        Event::Enter(cpu)
        | Event::Exit(cpu)
        | Event::Note(cpu)
        | Event::Quiesce(cpu)
        | Event::Online(cpu)
        | Event::Offline(cpu)
        | Event::Queue(cpu, _)
        | Event::Tend(cpu)
        | Event::Run(cpu, _)
        | Event::Visit(cpu)
        | Event::Idle(cpu)
        | Event::Wake(cpu)
        | Event::Scan(cpu) => Some(cpu),
        _ => None,
    }
}

/// The fault of an event, by its number, 0 for none.
fn fault(cpus: u32, last: u64, past: &[Event], event: Event) -> u32 {
    if let Some(cpu) = named(event) {
        if cpu >= cpus {
            return 1;
        }
    }
    let is_barrier_running = count(past, Event::BarBegin) > count(past, Event::BarTest);
    match event {
        Event::Offline(0) => 12,
        Event::Enter(cpu)
        | Event::Note(cpu)
        | Event::Quiesce(cpu)
        | Event::Offline(cpu)
        | Event::Queue(cpu, _)
        | Event::Idle(cpu)
        | Event::Wake(cpu)
        | Event::Scan(cpu)
            if !is_online(past, cpu) => { 2 }
        Event::Online(cpu) if is_online(past, cpu) => 3,
        Event::Enter(cpu) | Event::Quiesce(cpu) | Event::Idle(cpu) if is_idle(past, cpu) => 23,
        Event::Wake(cpu) | Event::Scan(cpu) if !is_idle(past, cpu) => 24,
        Event::Quiesce(cpu) | Event::Offline(cpu) | Event::Idle(cpu) if depth(past, cpu) > 0 => 4,
        Event::Exit(cpu) if depth(past, cpu) == 0 => 5,
        Event::Enter(cpu) if depth(past, cpu) == 65_535 => 6,
        Event::Deliver(place) if report(past, place).is_none() => 7,
        Event::Begin if is_running(past) => 8,
        Event::Begin if number(past) == last => 11,
        Event::Renumber if is_running(past) => 8,
        Event::Renumber if number(past) != last => 22,
        Event::End if !is_running(past) => 9,
        Event::End if !awaited(cpus, past).is_empty() => 10,
        Event::Turn if number(past) == last && meant(cpus, past, event) == Event::Begin => 11,
        Event::BarBegin if is_barrier_running => 13,
        Event::Visit(_) | Event::BarTest if !is_barrier_running => 14,
        _ => 0,
    }
}

/// Returns an accepted event as the history has it: a turn is a begin if a later number is needed,
/// and an end if no processor is awaited.
fn meant(cpus: u32, past: &[Event], event: Event) -> Event {
    match event {
        Event::Turn if !is_running(past) && gathered(past).needed > number(past) => Event::Begin,
        Event::Turn if is_running(past) && awaited(cpus, past).is_empty() => Event::End,
        _ => event,
    }
}

/// Returns the reply to a delivered report.
fn delivered(cpus: u32, past: &[Event], place: u64) -> &'static str {
    match report(past, place) {
        Some((cpu, noted)) if noted == tag(past) => heard(cpus, past, cpu),
        _ => "stale",
    }
}

/// Returns the reply to a report of the processor with the tag of now, or to a scan that finds it
/// idle.
fn heard(cpus: u32, past: &[Event], cpu: u32) -> &'static str {
    if !is_running(past) {
        "stale"
    } else if !is_awaited(past, cpu) {
        "repeat"
    } else if awaited(cpus, past).len() == 1 {
        "last"
    } else {
        "taken"
    }
}

/// Writes the reply to an event that has no fault. The history goes on from `past` to `now`.
fn write_reply(
    text: &mut String,
    cpus: u32,
    past: &[Event],
    now: &[Event],
    event: Event,
) -> Result<(), AllocError> {
    match event {
        Event::Enter(cpu) | Event::Exit(cpu) => write_number(text, "depth", depth(now, cpu)),
        Event::Note(cpu) => write_noted(text, number(past), is_awaited(past, cpu)),
        Event::Quiesce(cpu) => write_report(text, made(now).0, cpu, noted(past, cpu)),
        Event::Deliver(place) => text.push_str(delivered(cpus, past, place)),
        Event::Online(_) => text.push_str("online"),
        Event::Idle(_) => text.push_str("idle"),
        Event::Wake(_) => text.push_str("awake"),
        Event::Scan(cpu) => text.push_str(heard(cpus, past, cpu)),
        Event::Begin => write_begun(text, number(now), count_awaited(cpus, now)),
        Event::End => write_number(text, "ended", number(now)),
        Event::Turn if is_running(now) => write_number(text, "waiting", count_awaited(cpus, now)),
        Event::Turn => text.push_str("nothing"),
        Event::Awaits => write_values(text, "awaits", awaited(cpus, past).as_slice()),
        Event::Take | Event::StartPoll => write_cookie(text, (snapshot(past), epoch(past))),
        Event::Poll(number, epoch) if is_done(past, (number, epoch)) => text.push_str("done"),
        Event::Poll(_, _) => text.push_str("not yet"),
        Event::Renumber => write_number(text, "epoch", epoch(now)),
        Event::Queue(_, _) => write_number(text, "queued", made(now).1),
        _ => write_list_reply(text, cpus, past, event),
    }
}

/// Writes the reply to a note: the number, and whether the processor is awaited.
fn write_noted(text: &mut String, number: u64, is_needed: bool) -> Result<(), AllocError> {
    write_number(text, "noted", number)?;
    text.push_str(if is_needed { " needed" } else { " clear" })
}

/// Writes the reply to a quiescent state.
fn write_report(
    text: &mut String,
    place: u64,
    cpu: u32,
    (number, epoch): Tag,
) -> Result<(), AllocError> {
    write!(text, "report {place} cpu {cpu} tag {number}")?;
    write_epoch(text, epoch)
}

/// Writes the reply to a snapshot.
fn write_cookie(text: &mut String, (number, epoch): Tag) -> Result<(), AllocError> {
    write_number(text, "cookie", number)?;
    write_epoch(text, epoch)
}

/// Writes an epoch, if it is not the first one.
fn write_epoch(text: &mut String, epoch: u64) -> Result<(), AllocError> {
    if epoch > 0 {
        write_number(text, " epoch", epoch)?;
    }
    Ok(())
}

/// Writes the reply to a begin.
fn write_begun(text: &mut String, number: u64, awaited: u64) -> Result<(), AllocError> {
    write!(text, "begun {number} awaits {awaited}")
}
