//! Worked rows of two replicas: lines with the replies that the rules give, worked out by hand.

use crate::runs::row::{ALL, End, FAR, OFFERED, Row, Streams};
use rcu_seq::Fault;
use std::alloc::Global;
use std::process::Abort;

/// The rows of pairs.
pub fn pair_rows() -> &'static [Row<'static>] {
    &PAIR_ROWS
}

/// The lines of pairs.
static PAIR_ROWS: [Row; 5] = [
    Row {
        name: "merging two replicas",
        fanouts: (2, 2),
        second: Some((4, 4)),
        cpus: 5,
        last: FAR,
        lines: b"\
            a begin 0 1 2 3 4\nb begin 0 1 2 3 4\na report 0 1\na report 2 1\nb report 4 1\n\
            b report 2 1\nsame\na merge\nb merge\nsame\na awaits\na merge\n",
        replies: b"\
            begun 1 awaits 5\nbegun 1 awaits 5\ntaken\ntaken\ntaken\ntaken\ndiffer\nmerged 2\n\
            merged 2\nsame\nawaits 1 3\nmerged 2\n",
    },
    Row {
        name: "merge of unlike sets",
        fanouts: (2, 2),
        second: Some((4, 4)),
        cpus: 5,
        last: FAR,
        lines: b"a begin 0 1\nb begin 0 2\na merge\n",
        replies: b"begun 1 awaits 2\nbegun 1 awaits 2\nfault 20\n",
    },
    Row {
        name: "replicas with departures",
        fanouts: (2, 3),
        second: Some((64, 64)),
        cpus: 3,
        last: FAR,
        lines: b"\
            a begin 0 1 2\nb begin 0 1 2\na report 1 1\na report 1 1\na report 2 5\na depart 2\n\
            b depart 2\nb report 1 1\nb report 2 1\nsame\na report 0 1\na end\nb merge\nb end\n\
            a report 0 1\n",
        replies: b"\
            begun 1 awaits 3\nbegun 1 awaits 3\ntaken\nrepeat\nstale\ndeparted\ndeparted\ntaken\n\
            repeat\nsame\nlast\nended 4\nmerged 0\nended 4\nstale\n",
    },
    // Two fresh replicas are alike, an ended one and a fresh one are not, and one that ran on takes
    // in an ended one.
    Row {
        name: "merging asks for no running period",
        fanouts: (16, 64),
        second: Some((2, 3)),
        cpus: 2,
        last: FAR,
        lines: b"\
            a merge\nsame\na begin 0\nb begin 0\na report 0 1\na end\nb awaits\nb merge\nb awaits\n\
            b end\na begin 1\na merge\n",
        replies: b"\
            merged 0\nsame\nbegun 1 awaits 1\nbegun 1 awaits 1\nlast\nended 4\nawaits 0\nmerged 0\n\
            awaits none\nended 4\nbegun 5 awaits 1\nfault 20\n",
    },
    // Each fault that a line of a pair can have, in the order of its tests, and each way to be
    // outside the grammar.
    Row {
        name: "refused pair lines",
        fanouts: (2, 2),
        second: Some((4, 4)),
        cpus: 5,
        last: 4,
        lines: b"\
            a\nb\nsame\nsame a\na same\nc end\na begin\na begin x\na begin 9\na end\n\
            a begin 0 0 2\na begin 1\na begin 9\na report 9 1\na report 4294967296 1\n\
            a report 0 18446744073709551616\na report 0\na report 0 1 1\na depart\na depart 0\n\
            a depart 5\na depart 2 2\na end\n\na awaits\na awaits 1\nb awaits\nb merge\nA end\n\
            a  report   2  1 \na report 0 1\na end\na begin 0\nsame",
        replies: b"\
            fault 21\nfault 21\nsame\nfault 21\nfault 21\nfault 21\nfault 21\nfault 21\nfault 1\n\
            fault 9\nbegun 1 awaits 2\nfault 8\nfault 1\nfault 1\nfault 1\nfault 21\nfault 21\n\
            fault 21\nfault 21\nfault 12\nfault 1\nfault 21\nfault 10\nawaits 0 2\nfault 21\n\
            awaits none\nfault 20\nfault 21\ntaken\nlast\nended 4\nfault 11\nsame\n",
    },
];

/// Each two of the offered pairs of fanouts are accepted, and all give the same bytes.
#[test]
fn fanouts_have_no_part_in_the_replies(rt: HostRuntime) {
    for fanouts in &OFFERED {
        for second in &OFFERED {
            for row in pair_rows() {
                let row = Row {
                    fanouts: *fanouts,
                    second: Some(*second),
                    ..*row
                };
                row.answers(&rt, rt.alloc(), 0, ALL);
            }
        }
    }
}

/// A pair of these fanouts, this many processors and this last number is refused with this fault.
fn is_refused(
    rt: &impl Abort,
    alloc: Global,
    fanouts: (u32, u32),
    second: (u32, u32),
    cpus: u32,
    last: u64,
    fault: Fault,
) {
    let row = Row {
        name: "refused",
        fanouts,
        second: Some(second),
        cpus,
        last,
        lines: b"same\n",
        replies: b"",
    };
    let run = row.run(alloc, Streams::passing(ALL));
    let case = (fanouts, second, cpus, last);
    run.compare(rt, &case, End::NotOpened(fault), row.replies);
}

/// Pairs of fanouts, numbers of processors and last numbers, with the fault of each.
static REFUSED: [((u32, u32), (u32, u32), u32, u64, Fault); 9] = [
    ((2, 2), (3, 3), 17, 6, Fault::BadFanout),
    ((3, 3), (2, 2), 0, 6, Fault::BadFanout),
    ((2, 4), (2, 2), 1, 4, Fault::BadFanout),
    ((2, 2), (64, 64), 17, 6, Fault::TooManyCpus),
    ((64, 64), (2, 2), 17, 6, Fault::TooManyCpus),
    ((64, 64), (16, 64), 4097, 4, Fault::TooManyCpus),
    ((2, 2), (2, 3), 0, 6, Fault::TooManyCpus),
    ((2, 2), (2, 2), 16, 6, Fault::BadLast),
    ((2, 2), (2, 2), 1, FAR + 4, Fault::BadLast),
];

/// The opening's faults, each tested of both replicas before the next one. The tests before the
/// first growth need no memory.
#[test]
fn refused_openings(rt: HostRuntime) {
    for (fanouts, second, cpus, last, fault) in &REFUSED {
        is_refused(&rt, rt.alloc(), *fanouts, *second, *cpus, *last, *fault);
    }
}

/// Pairs of fanouts, numbers of processors and last numbers that open.
static FULL: [((u32, u32), (u32, u32), u32, u64); 5] = [
    ((64, 64), (2, 2), 1, 4),
    ((2, 2), (2, 3), 16, FAR),
    ((2, 3), (4, 4), 54, 4),
    ((4, 4), (64, 64), 256, FAR),
    ((16, 64), (64, 64), 4096, 4),
];

/// Two replicas open with one processor, and with as many as four levels of both their trees hold,
/// at the least and at the greatest last number.
#[test]
fn full_openings(rt: HostRuntime) {
    for (fanouts, second, cpus, last) in &FULL {
        let row = Row {
            name: "full",
            fanouts: *fanouts,
            second: Some(*second),
            cpus: *cpus,
            last: *last,
            lines: b"b begin 0\nb report 0 1\nb end\nsame\n",
            replies: b"begun 1 awaits 1\nlast\nended 4\nsame\n",
        };
        row.answers(&rt, rt.alloc(), 0, ALL);
    }
}
