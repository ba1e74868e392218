//! The effects of a refused growth.

use crate::runs::pair::rows::pair_rows;
use crate::runs::row::{ALL, End, FAR, Row, Run, Streams};
use arrayvec::{ArrayVec, CapacityError};
use rcu_seq::Fault;
use std::alloc::Global;
use std::io::Print;
use std::process::Abort;
use std::test::Fail;

/// The reply to a line that was refused memory.
const REFUSED: &[u8] = b"fault 16";

/// Returns whether a run shows that memory was refused: it was not opened, or a line of its text
/// says so; a writer that failed may have taken only a prefix of that line.
pub fn wants_memory(run: &Run) -> bool {
    let is_cut = run.end == End::NotWritten;
    let says_so = |line: &[u8]| {
        line == REFUSED || (is_cut && !line.is_empty() && REFUSED.starts_with(line))
    };
    match run.end {
        End::NotOpened(fault) => fault == Fault::NoMemory,
        _ => run.written.as_slice().split(|b| *b == b'\n').any(says_so),
    }
}

/// A script with each event that stores something, each such line twice: if the first is refused,
/// the second is the same call again.
static GROWING: Row = Row {
    name: "growing",
    fanouts: (2, 2),
    second: None,
    cpus: 2,
    last: FAR,
    lines: b"\
        online 1\nbegin\nawaits\nawaits\nquiet 1\nquiet 1\nqueue 1 7\nqueue 1 7\ntend 1\n\
        note 0\nnote 1\nquiet 0\nquiet 0\nquiet 1\nquiet 1\ndeliver 3\ndeliver 4\ndeliver 5\nend\n\
        begin\nnote 0\nnote 1\nquiet 0\nquiet 1\ndeliver 6\ndeliver 7\ndeliver 8\nend\ntend 1\n\
        run 1 1\nrun 1 1\nqueue 1 8\nqueue 1 8\nqueue 1 9\nqueue 1 9\nbar\nvisit 1\nvisit 1\n\
        offline 1\noffline 1\nvisit 0\nvisit 0\n",
    replies: b"\
        online\nbegun 1 awaits 2\nawaits 0 1\nawaits 0 1\nreport 1 cpu 1 tag 0\n\
        report 2 cpu 1 tag 0\nqueued 1\nqueued 2\ntended 0 2\nnoted 1 needed\nnoted 1 needed\n\
        report 3 cpu 0 tag 1\nreport 4 cpu 0 tag 1\nreport 5 cpu 1 tag 1\nreport 6 cpu 1 tag 1\n\
        taken\nrepeat\nlast\nended 4\nbegun 5 awaits 2\nnoted 5 needed\nnoted 5 needed\n\
        report 7 cpu 0 tag 5\nreport 8 cpu 1 tag 5\nstale\ntaken\nlast\nended 8\ntended 2 0\n\
        ran 7\nran 7\nqueued 3\nqueued 4\nqueued 5\nqueued 6\nbarrier begun\nmarked\nalready\n\
        offline moved 4\nfault 2\nmarked\nalready\n",
};

/// The events that store something, by the words of their lines.
static STORING: [&str; 6] = ["quiet", "awaits", "offline", "queue", "run", "visit"];

/// The lines that were not refused, and their replies.
#[derive(Drop)]
struct Transcript {
    lines: ArrayVec<u8, 1024>,
    replies: ArrayVec<u8, 2048>,
}

impl Transcript {
    /// Puts a line and its reply behind.
    fn push(&mut self, line: &[u8], reply: &[u8]) -> Result<(), CapacityError> {
        self.lines.try_extend_from_slice(line)?;
        self.lines.try_extend_from_slice(b"\n")?;
        self.replies.try_extend_from_slice(reply)?;
        self.replies.try_extend_from_slice(b"\n")
    }

    /// Compares the replies that the lines alone get with these.
    fn answers(&self, rt: &impl Abort, alloc: Global) {
        let row = Row {
            name: "those not refused",
            lines: self.lines.as_slice(),
            replies: self.replies.as_slice(),
            ..GROWING
        };
        let again = row.run(alloc, Streams::passing(ALL));
        assert!(rt; !wants_memory(&again), "no second growth is refused");
        again.compare(rt, &row.name, End::Done, row.replies);
    }
}

/// Prints the event's line for which a growth was refused: the event is one that stores something.
fn print_refused<R: Print + Abort>(rt: &R, line: &[u8]) -> Result<(), Fail> {
    let word = STORING
        .iter()
        .find(|word| line.starts_with(word.as_bytes()))
        .expect(rt, "an event that stores something");
    println!(rt; "a growth was refused at a line of {word}")?;
    Ok(())
}

/// A refused growth leaves the engine as it was: the line is answered `fault 16`, and all other
/// lines, among them the same one again, as if it had not been.
#[test]
fn growths_are_refused(rt: HostRuntime) -> Result<(), Fail> {
    let first = GROWING.run(rt.alloc(), Streams::passing(ALL));
    if !wants_memory(&first) {
        first.compare(&rt, &GROWING.name, End::Done, GROWING.replies);
        return Ok(());
    }
    if first.end != End::Done {
        println!(rt; "a growth was refused at the opening")?;
        is_refused_opening(&rt, &first);
        GROWING.answers(&rt, rt.alloc(), 0, ALL);
        return Ok(());
    }
    let mut transcript = Transcript {
        lines: ArrayVec::new(),
        replies: ArrayVec::new(),
    };
    keep(&rt, &mut transcript, first.written.as_slice())?;
    transcript.answers(&rt, rt.alloc());
    Ok(())
}

/// Keeps the lines that were not refused, with their replies.
fn keep<R: Print + Abort>(rt: &R, transcript: &mut Transcript, written: &[u8]) -> Result<(), Fail> {
    let end = |b: &u8| *b == b'\n';
    for (line, reply) in GROWING.lines.split(end).zip(written.split(end)) {
        if reply == REFUSED {
            print_refused(rt, line)?;
        } else if !line.is_empty() {
            transcript.push(line, reply)?;
        }
    }
    Ok(())
}

/// A pair takes memory only as it opens. One that is refused a growth there wrote nothing, and
/// opens the next time.
#[test]
fn growths_of_a_pair_are_refused(rt: HostRuntime) -> Result<(), Fail> {
    let row = pair_rows().first().expect(&rt, "there are rows");
    let first = row.run(rt.alloc(), Streams::passing(ALL));
    if !wants_memory(&first) {
        first.compare(&rt, &row.name, End::Done, row.replies);
        return Ok(());
    }
    println!(rt; "a growth was refused")?;
    is_refused_opening(&rt, &first);
    let again = row.run(rt.alloc(), Streams::passing(ALL));
    again.compare(&rt, &row.name, End::Done, row.replies);
    Ok(())
}

/// A run was refused a growth as it opened, and wrote nothing.
fn is_refused_opening(rt: &impl Abort, run: &Run) {
    run.compare(rt, &"at the opening", End::NotOpened(Fault::NoMemory), b"");
}
