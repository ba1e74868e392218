//! The way out of a running grace period, event by event.
use crate::draw::Draw;
use crate::events::machine::{core, core_of, step, takes};
use crate::made::compare;
use rcu_core::{Core, Event, Reply};
use rcu_node::Flat;
use std::process::Abort;

/// How many processors the machines of random runs have.
const CPUS: u32 = 3;
/// How many runs are drawn.
const RUNS: usize = 60;
/// How many events each of them has.
const EVENTS: usize = 80;

/// Two processors that stall a grace period, one in a section and one with a report that is not
/// delivered, and the replies.
static STALLED: [(Event, &str); 5] = [
    (Event::Online(1), "Online"),
    (Event::Begin, "Begun(1, 2)"),
    (Event::Enter(1), "Depth(1)"),
    (Event::Note(0), "Noted(1, true)"),
    (
        Event::Quiesce(0),
        "Made(1, Report { cpu: 0, tag: Tag { epoch: 0, number: 1 } })",
    ),
];

/// The way out, and the replies: the lines that `./explain --way-out` prints for the same script.
static WAY_OUT: [(Event, &str); 6] = [
    (Event::Idle(0), "Idle"),
    (Event::Scan(0), "Answer(Taken)"),
    (Event::Exit(1), "Depth(0)"),
    (Event::Idle(1), "Idle"),
    (Event::Scan(1), "Answer(Last)"),
    (Event::End, "Ended(4)"),
];

/// Each event of the way out is the one that the command prints. (tools/front_door has its lines.)
#[test]
fn the_way_out_is_as_printed(rt: HostRuntime) {
    let mut core = core(&rt, rt.alloc(), 8);
    compare(&rt, "at first", core.next_retiring_event(), None);
    takes(&rt, rt.alloc(), &mut core, &STALLED);
    compare(&rt, "left", core.steps_left(), WAY_OUT.len() as u64);
    for (event, reply) in &WAY_OUT {
        compare(&rt, *event, core.next_retiring_event(), Some(*event));
        takes(&rt, rt.alloc(), &mut core, &[(*event, *reply)]);
    }
    compare(&rt, "at last", core.next_retiring_event(), None);
    compare(&rt, "left at last", core.steps_left(), 0);
}

/// The state of the processors, by the replies of a run.
#[derive(Drop)]
struct Seen {
    /// The depth of each processor.
    depths: [u32; CPUS as usize],
    /// The idle processors.
    idle: [bool; CPUS as usize],
    /// A grace period runs.
    is_running: bool,
}

impl Seen {
    /// Notes what a reply says.
    fn note(&mut self, event: Event, reply: &Reply) {
        match (event, reply) {
            (Event::Enter(cpu) | Event::Exit(cpu), Reply::Depth(depth)) => {
                if let Some(noted) = self.depths.get_mut(cpu as usize) {
                    *noted = *depth;
                }
            }
            (Event::Idle(cpu), Reply::Idle) => self.note_idle(cpu, true),
            (Event::Wake(cpu), Reply::Awake) | (Event::Offline(cpu), Reply::Moved(_)) => {
                self.note_idle(cpu, false);
            }
            (Event::Begin, Reply::Begun(_, _)) => self.is_running = true,
            (Event::End, Reply::Ended(_)) => self.is_running = false,
            _ => {}
        }
    }

    fn note_idle(&mut self, cpu: u32, is_idle: bool) {
        if let Some(noted) = self.idle.get_mut(cpu as usize) {
            *noted = is_idle;
        }
    }

    /// How many events take an awaited processor out.
    fn steps_of(&self, cpu: u32) -> u64 {
        let depth = self.depths.get(cpu as usize).copied().unwrap_or(0);
        let is_idle = self.idle.get(cpu as usize).copied().unwrap_or(false);
        let others: u64 = if is_idle { 1 } else { 2 };
        others.wrapping_add(u64::from(depth))
    }

    /// How many events end the grace period that runs, if one does.
    fn steps_left(&self, rt: &impl Abort, core: &mut Core<Flat, u64>) -> u64 {
        if !self.is_running {
            return 0;
        }
        let mut left: u64 = 1;
        match step(rt, core, Event::Awaits) {
            Reply::Awaits(list) => {
                for cpu in list.as_slice() {
                    left = left.wrapping_add(self.steps_of(*cpu));
                }
            }
            _ => assert!(rt; false, "the awaited are listed"),
        }
        left
    }
}

/// An event that is drawn.
fn drawn(draw: &mut Draw) -> Event {
    let cpu = draw.below(u64::from(CPUS)) as u32;
    match draw.below(18) {
        0..=4 => Event::Enter(cpu),
        5 => Event::Exit(cpu),
        6 | 7 => Event::Note(cpu),
        8 => Event::Quiesce(cpu),
        9 => Event::Deliver(draw.below(8)),
        10 | 11 => Event::Online(cpu),
        12 => Event::Offline(cpu),
        13 | 14 => Event::Begin,
        15 => Event::Idle(cpu),
        16 => Event::Wake(cpu),
        _ => Event::Scan(cpu),
    }
}

/// Takes each next event of the way out, as many as are left: none is refused, and then no grace
/// period runs.
fn lead_out(rt: &impl Abort, core: &mut Core<Flat, u64>, seen: &mut Seen) {
    let left = seen.steps_left(rt, core);
    compare(rt, "left", core.steps_left(), left);
    for taken in 0..left {
        let Some(event) = core.next_retiring_event() else {
            assert!(rt; false, "{taken} of {left} events are there");
            return;
        };
        let reply = core.step(event);
        assert!(rt; !matches!(reply, Reply::Fault(_)), "{event:?}: {reply:?}");
        seen.note(event, &reply);
    }
    compare(rt, "afterwards", core.next_retiring_event(), None);
    assert!(rt; !seen.is_running);
}

/// From each state of a random run the way out is as long as is counted, and no event is refused.
#[test]
fn random_runs_are_led_out(rt: HostRuntime) {
    let mut draw = Draw(0x2545_F491_4F6C_DD1D);
    for _ in 0..RUNS {
        let mut core = core_of(&rt, rt.alloc(), CPUS, 1 << 62);
        let mut seen = Seen {
            depths: [0; CPUS as usize],
            idle: [false; CPUS as usize],
            is_running: false,
        };
        for _ in 0..EVENTS {
            let event = drawn(&mut draw);
            let reply = step(&rt, &mut core, event);
            seen.note(event, &reply);
            if draw.below(8) == 0 {
                lead_out(&rt, &mut core, &mut seen);
            }
        }
        lead_out(&rt, &mut core, &mut seen);
    }
}
