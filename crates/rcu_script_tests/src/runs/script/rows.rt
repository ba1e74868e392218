//! Worked rows: scripts with the replies that the rules give, worked out by hand.

use crate::runs::row::{ALL, End, FAR, Row, Streams};
use rcu_script::{Setup, run_script};
use rcu_seq::Fault;
use rcu_text::Marked;
use std::alloc::{AllocError, Global};
use std::process::Abort;

/// The rows of scripts.
pub fn rows() -> &'static [Row<'static>] {
    &ROWS
}

/// A script that is replied to alike whatever the fanouts are.
const REPORT_OF_CPU_4: Row<'static> = Row {
    name: "report of processor 4",
    fanouts: (2, 2),
    second: None,
    cpus: 5,
    last: FAR,
    lines: b"online 3\nonline 4\nbegin\nnote 4\nquiet 4\ndeliver 1\nawaits\n",
    replies: b"\
        online\nonline\nbegun 1 awaits 3\nnoted 1 needed\nreport 1 cpu 4 tag 1\ntaken\n\
        awaits 0 3\n",
};

/// A first begin, which awaits processor 0 alone.
const FIRST_BEGIN: Row<'static> = Row {
    name: "first begin",
    fanouts: (2, 2),
    second: None,
    cpus: 1,
    last: FAR,
    lines: b"begin\n",
    replies: b"begun 1 awaits 1\n",
};

/// The scripts.
static ROWS: [Row; 43] = [
    Row {
        name: "one grace period",
        fanouts: (2, 2),
        second: None,
        cpus: 1,
        last: FAR,
        lines: b"begin\nnote 0\nquiet 0\ndeliver 1\nend\n",
        replies: b"begun 1 awaits 1\nnoted 1 needed\nreport 1 cpu 0 tag 1\nlast\nended 4\n",
    },
    Row {
        name: "nested sections",
        fanouts: (2, 2),
        second: None,
        cpus: 1,
        last: FAR,
        lines: b"enter 0\nenter 0\nexit 0\nquiet 0\nexit 0\nexit 0\n",
        replies: b"depth 1\ndepth 2\ndepth 1\nfault 4\ndepth 0\nfault 5\n",
    },
    Row {
        name: "open section blocks",
        fanouts: (2, 2),
        second: None,
        cpus: 2,
        last: FAR,
        lines: b"online 1\nenter 1\ntake\nbegin\nquiet 1\nexit 1\npoll 4\n",
        replies: b"online\ndepth 1\ncookie 4\nbegun 1 awaits 2\nfault 4\ndepth 0\nnot yet\n",
    },
    Row {
        name: "cookie while running",
        fanouts: (2, 2),
        second: None,
        cpus: 1,
        last: FAR,
        lines: b"begin\ntake\nnote 0\nquiet 0\ndeliver 1\nend\npoll 8\npoll 1\n",
        replies: b"\
            begun 1 awaits 1\ncookie 8\nnoted 1 needed\nreport 1 cpu 0 tag 1\nlast\nended 4\n\
            not yet\ndone\n",
    },
    Row {
        name: "repeat and departure",
        fanouts: (2, 2),
        second: None,
        cpus: 2,
        last: FAR,
        lines: b"online 1\nbegin\nnote 0\nquiet 0\ndeliver 1\ndeliver 1\nend\noffline 1\nend\n",
        replies: b"\
            online\nbegun 1 awaits 2\nnoted 1 needed\nreport 1 cpu 0 tag 1\ntaken\nrepeat\n\
            fault 10\noffline moved 0\nended 4\n",
    },
    Row {
        name: "late arrival not awaited",
        fanouts: (2, 2),
        second: None,
        cpus: 2,
        last: FAR,
        lines: b"begin\nonline 1\nawaits\nenter 1\nnote 1\n",
        replies: b"begun 1 awaits 1\nonline\nawaits 0\ndepth 1\nnoted 1 clear\n",
    },
    Row {
        name: "departed and back",
        fanouts: (2, 2),
        second: None,
        cpus: 2,
        last: FAR,
        lines: b"\
            online 1\nbegin\nnote 1\nquiet 1\noffline 1\nonline 1\nenter 1\ndeliver 1\nawaits\n",
        replies: b"\
            online\nbegun 1 awaits 2\nnoted 1 needed\nreport 1 cpu 1 tag 1\noffline moved 0\n\
            online\ndepth 1\nrepeat\nawaits 0\n",
    },
    // A report of an ended grace period is stale, while none runs and while the next one does.
    Row {
        name: "stale report after end",
        fanouts: (2, 2),
        second: None,
        cpus: 1,
        last: FAR,
        lines: b"begin\nnote 0\nquiet 0\ndeliver 1\nend\ndeliver 1\nbegin\ndeliver 1\nawaits\n",
        replies: b"\
            begun 1 awaits 1\nnoted 1 needed\nreport 1 cpu 0 tag 1\nlast\nended 4\nstale\n\
            begun 5 awaits 1\nstale\nawaits 0\n",
    },
    Row {
        name: "unended input",
        fanouts: (2, 2),
        second: None,
        cpus: 1,
        last: FAR,
        lines: b"begin",
        replies: b"begun 1 awaits 1\n",
    },
    Row {
        name: "empty input",
        fanouts: (2, 2),
        second: None,
        cpus: 1,
        last: FAR,
        lines: b"",
        replies: b"",
    },
    Row {
        name: "stop at last number",
        fanouts: (2, 2),
        second: None,
        cpus: 1,
        last: 4,
        lines: b"begin\nnote 0\nquiet 0\ndeliver 1\nend\nbegin\ntake\npoll 8\nturn\nstart\nturn\n",
        replies: b"\
            begun 1 awaits 1\nnoted 1 needed\nreport 1 cpu 0 tag 1\nlast\nended 4\nfault 11\n\
            cookie 8\nnot yet\nnothing\ncookie 8\nfault 11\n",
    },
    // A turn begins the grace period that a started poll needs, waits while a processor is awaited,
    // and ends it.
    Row {
        name: "turn drives what is needed",
        fanouts: (2, 2),
        second: None,
        cpus: 1,
        last: FAR,
        lines: b"take\nturn\nstart\nturn\nturn\nnote 0\nquiet 0\ndeliver 1\nturn\npoll 4\nturn\n",
        replies: b"\
            cookie 4\nnothing\ncookie 4\nbegun 1 awaits 1\nwaiting 1\nnoted 1 needed\n\
            report 1 cpu 0 tag 1\nlast\nended 4\ndone\nnothing\n",
    },
    // The first faults of the lines, each exactly if its cause holds.
    Row {
        name: "refused lines",
        fanouts: (2, 2),
        second: None,
        cpus: 1,
        last: FAR,
        lines: b"\
            frob\nenter\nenter 9\noffline 0\nonline 0\nexit 0\ndeliver 0\n\
            poll 18446744073709551616\nturn\n",
        replies: b"\
            fault 21\nfault 21\nfault 1\nfault 12\nfault 3\nfault 5\nfault 7\nfault 21\nnothing\n",
    },
    Row {
        name: "line of 81 bytes",
        fanouts: (2, 2),
        second: None,
        cpus: 1,
        last: FAR,
        lines: &[b' '; 81],
        replies: b"fault 21\n",
    },
    // Faults of lines, in the order of their tests, and the ways to be outside the grammar.
    Row {
        name: "faults in their order",
        fanouts: (2, 2),
        second: None,
        cpus: 2,
        last: FAR,
        lines: b"\
            note\nnote 9\nnote 1\nquiet 1\nonline 0\ndeliver 0\nend\nbegin\nbegin\nend\n\
            note 4294967296\nnote 18446744073709551616\nBEGIN\nbegin 0\n\tbegin\n  \nnote   0  \n\
            quiet +0\nawaits\n",
        replies: b"\
            fault 21\nfault 1\nfault 2\nfault 2\nfault 3\nfault 7\nfault 9\nbegun 1 awaits 1\n\
            fault 8\nfault 10\nfault 1\nfault 21\nfault 21\nfault 21\nfault 21\nnoted 1 needed\n\
            fault 21\nawaits 0\n",
    },
    // The faults of a processor that is offline, and of one in a read section.
    Row {
        name: "faults of processors in their order",
        fanouts: (2, 2),
        second: None,
        cpus: 2,
        last: FAR,
        lines: b"\
            enter 1\nexit 1\noffline 2\noffline 1\nonline 1\nenter 1\nquiet 1\noffline 1\n\
            online 1\nexit 1\noffline 1\nquiet 1\ntake 1\npoll\nturn 0\n",
        replies: b"\
            fault 2\nfault 5\nfault 1\nfault 2\nonline\ndepth 1\nfault 4\nfault 4\nfault 3\n\
            depth 0\noffline moved 0\nfault 2\nfault 21\nfault 21\nfault 21\n",
    },
    Row {
        name: "one callback life",
        fanouts: (2, 2),
        second: None,
        cpus: 1,
        last: FAR,
        lines: b"\
            queue 0 7\nrun 0 9\ntend 0\nbegin\nnote 0\nquiet 0\ndeliver 1\nend\ntend 0\nrun 0 9\n\
            run 0 9\n",
        replies: b"\
            queued 1\nran none\ntended 0 1\nbegun 1 awaits 1\nnoted 1 needed\n\
            report 1 cpu 0 tag 1\nlast\nended 4\ntended 1 0\nran 7\nran none\n",
    },
    Row {
        name: "turn drives two periods",
        fanouts: (2, 2),
        second: None,
        cpus: 1,
        last: FAR,
        lines: b"\
            queue 0 1\ntend 0\nbegin\nqueue 0 2\ntend 0\nnote 0\nquiet 0\ndeliver 1\nturn\ntend 0\n\
            run 0 9\nturn\nturn\n",
        replies: b"\
            queued 1\ntended 0 1\nbegun 1 awaits 1\nqueued 2\ntended 0 2\nnoted 1 needed\n\
            report 1 cpu 0 tag 1\nlast\nended 4\ntended 1 1\nran 1\nbegun 5 awaits 1\nwaiting 1\n",
    },
    Row {
        name: "migrated callbacks run",
        fanouts: (2, 2),
        second: None,
        cpus: 2,
        last: FAR,
        lines: b"\
            online 1\nqueue 0 1\nqueue 1 5\ntend 1\noffline 1\ntend 0\nbegin\nnote 0\nquiet 0\n\
            deliver 1\nturn\nrun 0 9\ntend 0\nrun 0 9\n",
        replies: b"\
            online\nqueued 1\nqueued 2\ntended 0 1\noffline moved 1\ntended 0 2\nbegun 1 awaits 1\n\
            noted 1 needed\nreport 1 cpu 0 tag 1\nlast\nended 4\nran none\ntended 2 0\nran 1 5\n",
    },
    Row {
        name: "departure during barrier",
        fanouts: (2, 2),
        second: None,
        cpus: 2,
        last: FAR,
        lines: b"online 1\nqueue 1 5\nbar\nvisit 0\noffline 1\nbartest\n",
        replies: b"online\nqueued 1\nbarrier begun\nempty\noffline moved 1\nbarrier waits 1\n",
    },
    Row {
        name: "barrier completes",
        fanouts: (2, 2),
        second: None,
        cpus: 2,
        last: FAR,
        lines: b"\
            online 1\nqueue 1 5\nbar\nvisit 0\noffline 1\nbartest\ntend 0\nbegin\nnote 0\nquiet 0\n\
            deliver 1\nend\ntend 0\nrun 0 1\nbartest\nbartest\n",
        replies: b"\
            online\nqueued 1\nbarrier begun\nempty\noffline moved 1\nbarrier waits 1\ntended 0 1\n\
            begun 1 awaits 1\nnoted 1 needed\nreport 1 cpu 0 tag 1\nlast\nended 4\ntended 1 0\n\
            ran 5\nbarrier done\nfault 14\n",
    },
    Row {
        name: "barrier over empty lists",
        fanouts: (2, 2),
        second: None,
        cpus: 2,
        last: FAR,
        lines: b"bar\nbar\nbartest\nvisit 0\nvisit 0\nvisit 1\nbartest\nvisit 0\n",
        replies: b"\
            barrier begun\nfault 13\nbarrier waits 2\nempty\nalready\nempty\nbarrier done\n\
            fault 14\n",
    },
    // The faults of these lines, each in the order of its tests, and the ways to be outside the
    // grammar. A processor that is offline can be tended and run.
    Row {
        name: "refused list lines",
        fanouts: (2, 2),
        second: None,
        cpus: 2,
        last: FAR,
        lines: b"\
            queue\nqueue 0\nqueue 0 1 2\nqueue x 1\nqueue 9 18446744073709551616\nqueue 2 1\n\
            queue 4294967296 1\nqueue 1 1\ntend\ntend 0 0\ntend 2\nrun 0\nrun 2 1\nbar 0\nvisit\n\
            visit 2\nvisit 0\nbartest 0\nbartest\ntend 1\nrun 1 0\n",
        replies: b"\
            fault 21\nfault 21\nfault 21\nfault 21\nfault 21\nfault 1\nfault 1\nfault 2\nfault 21\n\
            fault 21\nfault 1\nfault 21\nfault 1\nfault 21\nfault 21\nfault 1\nfault 14\nfault 21\n\
            fault 14\ntended 0 0\nran none\n",
    },
    // A cookie of the last number is done by the first grace period of the next epoch, one that was
    // reached in its own epoch at once. A report of an earlier epoch is stale.
    Row {
        name: "cookies across epochs",
        fanouts: (2, 2),
        second: None,
        cpus: 1,
        last: 4,
        lines: b"\
            renumber\nbegin\nnote 0\nquiet 0\ndeliver 1\nend\ntake\nbegin\nrenumber\npoll 8\n\
            poll 4\ntake\nbegin\ndeliver 1\npoll 4 1\nnote 0\nquiet 0\ndeliver 2\nend\npoll 8\n\
            poll 4 1\n",
        replies: b"\
            fault 22\nbegun 1 awaits 1\nnoted 1 needed\nreport 1 cpu 0 tag 1\nlast\nended 4\n\
            cookie 8\nfault 11\nepoch 1\nnot yet\ndone\ncookie 4 epoch 1\nbegun 1 awaits 1\nstale\n\
            not yet\nnoted 1 needed\nreport 2 cpu 0 tag 1 epoch 1\nlast\nended 4\ndone\ndone\n",
    },
    Row {
        name: "callback across epochs",
        fanouts: (2, 2),
        second: None,
        cpus: 1,
        last: 4,
        lines: b"\
            begin\nnote 0\nquiet 0\ndeliver 1\nend\nqueue 0 7\ntend 0\nturn\nrenumber\ntend 0\n\
            turn\nnote 0\nquiet 0\ndeliver 2\nturn\ntend 0\nrun 0 9\n",
        replies: b"\
            begun 1 awaits 1\nnoted 1 needed\nreport 1 cpu 0 tag 1\nlast\nended 4\nqueued 1\n\
            tended 0 1\nfault 11\nepoch 1\ntended 0 1\nbegun 1 awaits 1\nnoted 1 needed\n\
            report 2 cpu 0 tag 1 epoch 1\nlast\nended 4\ntended 1 0\nran 7\n",
    },
    // The number that a started poll needs is needed in the next epoch too. Its cookie is that of
    // an earlier snapshot, while the grace period before the last number ran.
    Row {
        name: "started poll across epochs",
        fanouts: (2, 2),
        second: None,
        cpus: 1,
        last: 4,
        lines: b"\
            begin\ntake\nnote 0\nquiet 0\ndeliver 1\nend\nstart\nturn\nrenumber\nturn\npoll 8\n\
            turn\nnote 0\nquiet 0\ndeliver 2\nturn\npoll 8\nturn\nrenumber\npoll 8\npoll 8 1\n\
            turn\nstart\nquiet 0\n",
        replies: b"\
            begun 1 awaits 1\ncookie 8\nnoted 1 needed\nreport 1 cpu 0 tag 1\nlast\nended 4\n\
            cookie 8\nfault 11\nepoch 1\nbegun 1 awaits 1\nnot yet\nwaiting 1\nnoted 1 needed\n\
            report 2 cpu 0 tag 1 epoch 1\nlast\nended 4\ndone\nnothing\nepoch 2\ndone\nnot yet\n\
            nothing\ncookie 4 epoch 2\nreport 3 cpu 0 tag 1 epoch 1\n",
    },
    // A barrier goes on into the next epoch: the callback that it covers and its marker stay.
    Row {
        name: "barrier across epochs",
        fanouts: (2, 2),
        second: None,
        cpus: 1,
        last: 4,
        lines: b"\
            begin\nnote 0\nquiet 0\ndeliver 1\nend\nqueue 0 7\ntend 0\nbar\nvisit 0\nrenumber\n\
            bartest\nrun 0 9\ntend 0\nturn\nnote 0\nquiet 0\ndeliver 2\nend\ntend 0\nrun 0 9\n\
            bartest\n",
        replies: b"\
            begun 1 awaits 1\nnoted 1 needed\nreport 1 cpu 0 tag 1\nlast\nended 4\nqueued 1\n\
            tended 0 1\nbarrier begun\nmarked\nepoch 1\nbarrier waits 1\nran none\ntended 0 1\n\
            begun 1 awaits 1\nnoted 1 needed\nreport 2 cpu 0 tag 1 epoch 1\nlast\nended 4\n\
            tended 1 0\nran 7\nbarrier done\n",
    },
    // The faults of these lines in the order of their tests, and the ways to be outside the
    // grammar. A cookie of a later epoch is not done, but for one of number 1.
    Row {
        name: "refused lines of epochs",
        fanouts: (2, 2),
        second: None,
        cpus: 1,
        last: 4,
        lines: b"\
            renumber\nbegin\nrenumber\nrenumber 0\nRenumber\npoll 4 0\npoll 0 1\npoll 1 7\n\
            poll 0 18446744073709551615\npoll 0 18446744073709551616\npoll 0 x\npoll x 0\n\
            poll 0 0 0\npoll  0   00\ntake 1\n",
        replies: b"\
            fault 22\nbegun 1 awaits 1\nfault 8\nfault 21\nfault 21\nnot yet\nnot yet\ndone\n\
            not yet\nfault 21\nfault 21\nfault 21\nfault 21\ndone\nfault 21\n",
    },
    // A scan of an idle processor is a report of it with the number of now.
    Row {
        name: "a sleeper is not waited for",
        fanouts: (2, 2),
        second: None,
        cpus: 2,
        last: FAR,
        lines: b"\
            online 1\nidle 1\nenter 1\nbegin\nscan 1\nscan 1\nawaits\nscan 0\nwake 1\nenter 1\n\
            wake 1\nidle 1\n",
        replies: b"\
            online\nidle\nfault 23\nbegun 1 awaits 2\ntaken\nrepeat\nawaits 0\nfault 24\nawake\n\
            depth 1\nfault 24\nfault 4\n",
    },
    Row {
        name: "scan of an idle processor while none runs",
        fanouts: (2, 2),
        second: None,
        cpus: 2,
        last: FAR,
        lines: b"idle 0\nscan 0\nquiet 0\nidle 0\n",
        replies: b"idle\nstale\nfault 23\nfault 23\n",
    },
    // Processor 0, which cannot depart, blocks no grace period while it is idle: the scan of it is
    // the last report. Its callbacks go on, and so does a note.
    Row {
        name: "callback of a sleeper",
        fanouts: (2, 2),
        second: None,
        cpus: 1,
        last: FAR,
        lines: b"\
            idle 0\nqueue 0 7\ntend 0\nturn\nnote 0\nscan 0\nscan 0\nturn\ntend 0\nrun 0 9\n\
            bar\nvisit 0\nbartest\nwake 0\nquiet 0\n",
        replies: b"\
            idle\nqueued 1\ntended 0 1\nbegun 1 awaits 1\nnoted 1 needed\nlast\nrepeat\nended 4\n\
            tended 1 0\nran 7\nbarrier begun\nempty\nbarrier done\nawake\nreport 1 cpu 0 tag 1\n",
    },
    // A departure ends the idleness, and an arrival comes awake. A late arrival is not awaited.
    Row {
        name: "departure of a sleeper",
        fanouts: (2, 2),
        second: None,
        cpus: 2,
        last: FAR,
        lines: b"\
            online 1\nidle 1\nbegin\noffline 1\nawaits\nscan 1\nwake 1\nidle 1\nonline 1\nscan 1\n\
            wake 1\nquiet 1\nidle 1\nonline 1\nscan 1\n",
        replies: b"\
            online\nidle\nbegun 1 awaits 2\noffline moved 0\nawaits 0\nfault 2\nfault 2\nfault 2\n\
            online\nfault 24\nfault 24\nreport 1 cpu 1 tag 1\nidle\nfault 3\nrepeat\n",
    },
    // The faults of these lines in the order of their tests, and the ways to be outside the
    // grammar.
    Row {
        name: "refused lines of idle processors",
        fanouts: (2, 2),
        second: None,
        cpus: 2,
        last: FAR,
        lines: b"\
            idle 2\nwake 2\nscan 4294967296\nidle 1\nwake 1\nscan 1\nwake 0\nscan 0\nenter 0\n\
            idle 0\nexit 0\nidle 0\nenter 0\nquiet 0\nidle 0\nexit 0\noffline 0\nidle\nidle 0 0\n\
            wake\nwake x\nscan\nscan 0 1\n",
        replies: b"\
            fault 1\nfault 1\nfault 1\nfault 2\nfault 2\nfault 2\nfault 24\nfault 24\ndepth 1\n\
            fault 4\ndepth 0\nidle\nfault 23\nfault 23\nfault 23\nfault 5\nfault 12\nfault 21\n\
            fault 21\nfault 21\nfault 21\nfault 21\nfault 21\n",
    },
    Row {
        name: "same bytes over 2 2",
        fanouts: (2, 2),
        ..REPORT_OF_CPU_4
    },
    Row {
        name: "same bytes over 2 3",
        fanouts: (2, 3),
        ..REPORT_OF_CPU_4
    },
    Row {
        name: "same bytes over 4 4",
        fanouts: (4, 4),
        ..REPORT_OF_CPU_4
    },
    Row {
        name: "same bytes over 16 64",
        fanouts: (16, 64),
        ..REPORT_OF_CPU_4
    },
    Row {
        name: "same bytes over 64 64",
        fanouts: (64, 64),
        ..REPORT_OF_CPU_4
    },
    Row {
        name: "pair 2 2 opens with 16",
        fanouts: (2, 2),
        cpus: 16,
        ..FIRST_BEGIN
    },
    Row {
        name: "pair 2 3 opens with 54",
        fanouts: (2, 3),
        cpus: 54,
        ..FIRST_BEGIN
    },
    Row {
        name: "pair 4 4 opens with 256",
        fanouts: (4, 4),
        cpus: 256,
        ..FIRST_BEGIN
    },
    Row {
        name: "pair 16 64 opens with 4096",
        fanouts: (16, 64),
        cpus: 4096,
        ..FIRST_BEGIN
    },
    Row {
        name: "pair 64 64 opens with 4096",
        fanouts: (64, 64),
        cpus: 4096,
        ..FIRST_BEGIN
    },
];

/// The opening's faults, in the order of their tests. The tests before the first growth need no
/// memory. A tree of four levels is full one processor earlier, as the rows say.
#[test]
fn refused_openings(rt: HostRuntime) {
    for (fanouts, cpus, last, fault) in &REFUSED {
        is_refused(&rt, rt.alloc(), *fanouts, *cpus, *last, *fault);
    }
}

/// Fanouts, numbers of processors and last numbers, with the fault of each.
static REFUSED: [((u32, u32), u32, u64, Fault); 13] = [
    ((3, 3), 0, 6, Fault::BadFanout),
    ((2, 4), 1, 4, Fault::BadFanout),
    ((2, 2), 0, 6, Fault::TooManyCpus),
    ((2, 2), 17, 6, Fault::TooManyCpus),
    ((2, 2), 17, FAR, Fault::TooManyCpus),
    ((2, 3), 55, FAR, Fault::TooManyCpus),
    ((4, 4), 257, FAR, Fault::TooManyCpus),
    ((16, 64), 4097, FAR, Fault::TooManyCpus),
    ((64, 64), 4097, FAR, Fault::TooManyCpus),
    ((64, 64), 4097, 4, Fault::TooManyCpus),
    ((2, 2), 1, 6, Fault::BadLast),
    ((2, 2), 1, 0, Fault::BadLast),
    ((2, 2), 1, FAR + 4, Fault::BadLast),
];

/// A script over these fanouts, of this many processors and this last number is refused with this
/// fault.
fn is_refused(
    rt: &impl Abort,
    alloc: Global,
    fanouts: (u32, u32),
    cpus: u32,
    last: u64,
    fault: Fault,
) {
    let row = Row {
        name: "refused",
        fanouts,
        second: None,
        cpus,
        last,
        lines: b"begin\n",
        replies: b"",
    };
    let run = row.run(alloc, Streams::passing(ALL));
    run.compare(
        rt,
        &(fanouts, cpus, last),
        End::NotOpened(fault),
        row.replies,
    );
}

/// The replies to 65,536 enters, written to a place that has room for them.
fn nested(alloc: Global) -> Result<Vec<u8>, AllocError> {
    let script = b"enter 0\n".repeat(alloc, 65_536)?;
    let mut reader = Marked::new(script.as_slice());
    let mut writer = Marked::new(Vec::with_capacity(alloc, 1 << 20)?);
    let setup = Setup {
        leaf: 2,
        inner: 2,
        leaf2: 2,
        inner2: 2,
        cpus: 1,
        last: FAR,
    };
    match run_script(alloc, &setup, &mut reader, &mut writer) {
        Ok(()) => Ok(writer.into_inner()),
        Err(_) => Err(AllocError),
    }
}

/// Sections nest 65,535 deep, and no deeper.
#[test]
fn full_nesting_depth(rt: HostRuntime) {
    let text = match nested(rt.alloc()) {
        Ok(text) => text,
        Err(AllocError) => nested(rt.alloc()).expect(&rt, "a run that no growth stops"),
    };
    is_nested(&rt, text.as_slice());
}

/// Compares the last lines, and how many there are.
fn is_nested(rt: &impl Abort, text: &[u8]) {
    let end = b"\ndepth 65534\ndepth 65535\nfault 6\n".as_slice();
    let (_, last) = text.split_at(text.len().saturating_sub(end.len()));
    assert_eq!(rt; last, end);
    assert_eq!(rt; text.iter().filter(|b| **b == b'\n').count(), 65_536);
}
