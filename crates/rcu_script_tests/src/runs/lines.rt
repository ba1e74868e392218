//! The events of a script's lines.

use rcu_core::Event;
use rcu_script::script::parse::parse_line;
use rcu_text::Line;
use std::process::Abort;

/// Lines, and what they ask for.
static LINES: [(&str, Line<Event>); 23] = [
    ("", Line::Blank),
    ("     ", Line::Blank),
    ("\t", Line::Malformed),
    ("begin", Line::Ask(Event::Begin)),
    (" end ", Line::Ask(Event::End)),
    ("awaits", Line::Ask(Event::Awaits)),
    ("awaits 1", Line::Malformed),
    ("Begin", Line::Malformed),
    ("note", Line::Malformed),
    ("note 3", Line::Ask(Event::Note(3))),
    ("note 3 3", Line::Malformed),
    ("quiet 4294967296", Line::Ask(Event::Quiesce(u32::MAX))),
    (
        "deliver 18446744073709551615",
        Line::Ask(Event::Deliver(u64::MAX)),
    ),
    ("online 007", Line::Ask(Event::Online(7))),
    ("offline 7", Line::Ask(Event::Offline(7))),
    ("enter 7", Line::Ask(Event::Enter(7))),
    ("exit 7", Line::Ask(Event::Exit(7))),
    ("turn", Line::Ask(Event::Turn)),
    ("take", Line::Ask(Event::Take)),
    ("start", Line::Ask(Event::StartPoll)),
    ("start 1", Line::Malformed),
    (
        "poll 18446744073709551615",
        Line::Ask(Event::Poll(u64::MAX, 0)),
    ),
    ("poll", Line::Malformed),
];

/// Lines of callbacks and barriers, and what they ask for.
static LINES_OF_LISTS: [(&str, Line<Event>); 13] = [
    ("queue 2 7", Line::Ask(Event::Queue(2, 7))),
    ("run  2  7 ", Line::Ask(Event::Run(2, 7))),
    (
        "queue 4294967296 18446744073709551615",
        Line::Ask(Event::Queue(u32::MAX, u64::MAX)),
    ),
    ("run 1 2 3", Line::Malformed),
    ("run 1", Line::Malformed),
    ("queue 1 x", Line::Malformed),
    ("queue x 1", Line::Malformed),
    ("note 1 2", Line::Malformed),
    ("tend 3", Line::Ask(Event::Tend(3))),
    ("visit 3", Line::Ask(Event::Visit(3))),
    ("bar", Line::Ask(Event::BarBegin)),
    ("bartest", Line::Ask(Event::BarTest)),
    ("bartest 0", Line::Malformed),
];

/// Lines of epochs, and what they ask for.
static LINES_OF_EPOCHS: [(&str, Line<Event>); 12] = [
    ("renumber", Line::Ask(Event::Renumber)),
    (" renumber  ", Line::Ask(Event::Renumber)),
    ("renumber 1", Line::Malformed),
    ("poll 4", Line::Ask(Event::Poll(4, 0))),
    ("poll 4 0", Line::Ask(Event::Poll(4, 0))),
    ("poll 4 7", Line::Ask(Event::Poll(4, 7))),
    (
        "poll 4294967296 18446744073709551615",
        Line::Ask(Event::Poll(4_294_967_296, u64::MAX)),
    ),
    ("poll 4 18446744073709551616", Line::Malformed),
    ("poll 18446744073709551616 4", Line::Malformed),
    ("poll 4 x", Line::Malformed),
    ("poll x 4", Line::Malformed),
    ("poll 4 1 1", Line::Malformed),
];

/// Lines of idle processors, and what they ask for.
static LINES_OF_IDLENESS: [(&str, Line<Event>); 12] = [
    ("idle 3", Line::Ask(Event::Idle(3))),
    ("  wake  007 ", Line::Ask(Event::Wake(7))),
    ("scan 4294967295", Line::Ask(Event::Scan(u32::MAX))),
    ("scan 4294967296", Line::Ask(Event::Scan(u32::MAX))),
    ("idle", Line::Malformed),
    ("wake", Line::Malformed),
    ("scan", Line::Malformed),
    ("idle 0 0", Line::Malformed),
    ("wake x", Line::Malformed),
    ("scan 18446744073709551616", Line::Malformed),
    ("idles 0", Line::Malformed),
    ("Wake 0", Line::Malformed),
];

/// Compares what a line asks for.
fn asks(rt: &impl Abort, line: &str, asked: &Line<Event>) {
    assert_eq!(rt; parse_line(line.as_bytes()), *asked, "{line}");
}

#[test]
fn lines(rt: HostRuntime) {
    for (line, asked) in &LINES {
        asks(&rt, line, asked);
    }
}

#[test]
fn lines_of_lists(rt: HostRuntime) {
    for (line, asked) in &LINES_OF_LISTS {
        asks(&rt, line, asked);
    }
}

#[test]
fn lines_of_epochs(rt: HostRuntime) {
    for (line, asked) in &LINES_OF_EPOCHS {
        asks(&rt, line, asked);
    }
}

#[test]
fn lines_of_idleness(rt: HostRuntime) {
    for (line, asked) in &LINES_OF_IDLENESS {
        asks(&rt, line, asked);
    }
}
