//! A counter from its first to its last number, its cookies, and the numbers of faults.
use crate::made::compare;
use crate::path::{Since, Turn, steps, turn_at};
use rcu_seq::{Cookie, Fault, Seq, Tag};
use std::process::Abort;

/// A call on a counter, with its expected answer, or a query.
enum Step {
    Start(Result<u64, Fault>),
    End(Result<u64, Fault>),
    /// Its number, the last one, and whether a grace period runs.
    Is(u64, u64, bool),
    /// The number and the epoch of a snapshot's cookie.
    Snap(u64, u64),
    /// The number and the epoch of a cookie, and true if it is done.
    Done(u64, u64, bool),
    /// Renumbers: the next epoch.
    Renumber(Result<u64, Fault>),
    /// Its number, and its epoch.
    Tag(u64, u64),
}

/// Makes a row's call, or looks, and compares.
fn make(rt: &impl Abort, row: usize, seq: &mut Seq, step: &Step) {
    match step {
        Step::Start(wanted) => compare(rt, row, seq.start(), *wanted),
        Step::End(wanted) => compare(rt, row, seq.end(), *wanted),
        Step::Is(value, last, running) => is_at(rt, row, seq, (*value, *last, *running)),
        Step::Snap(number, epoch) => has_cookie(rt, row, seq, *number, *epoch),
        Step::Done(number, epoch, wanted) => is_done(rt, row, seq, *number, *epoch, *wanted),
        Step::Renumber(wanted) => compare(rt, row, seq.renumber(), *wanted),
        Step::Tag(number, epoch) => has_tag(rt, row, seq, *number, *epoch),
    }
}

/// Compares the number, the last one, and whether a grace period runs.
fn is_at(rt: &impl Abort, row: usize, seq: &Seq, wanted: (u64, u64, bool)) {
    compare(rt, row, (seq.value(), seq.last(), seq.is_running()), wanted);
}

/// Compares the epoch and the tag.
fn has_tag(rt: &impl Abort, row: usize, seq: &Seq, number: u64, epoch: u64) {
    compare(
        rt,
        row,
        (seq.epoch(), seq.tag()),
        (epoch, Tag { epoch, number }),
    );
}

/// Compares the cookie of a snapshot.
fn has_cookie(rt: &impl Abort, row: usize, seq: &Seq, number: u64, epoch: u64) {
    compare(rt, row, seq.snap(), Cookie { epoch, number });
}

/// Compares whether a cookie is done.
fn is_done(rt: &impl Abort, row: usize, seq: &Seq, number: u64, epoch: u64, wanted: bool) {
    compare(rt, row, seq.done(Cookie { epoch, number }), wanted);
}

/// Makes the steps in turn.
fn make_each(rt: &impl Abort, mut seq: Seq, steps: &[Step]) {
    for (row, step) in steps.iter().enumerate() {
        make(rt, row, &mut seq, step);
    }
}

/// Makes the steps in turn on a new counter.
fn make_all(rt: &impl Abort, last: u64, steps: &[Step]) {
    make_each(rt, Seq::new(last).expect(rt, "it is a last number"), steps);
}

#[test]
fn one_grace_period_to_the_last_number(rt: HostRuntime) {
    make_all(
        &rt,
        4,
        &[
            Step::Is(0, 4, false),
            Step::End(Err(Fault::Idle)),
            Step::Start(Ok(1)),
            Step::Start(Err(Fault::Running)),
            Step::Is(1, 4, true),
            Step::End(Ok(4)),
            Step::Start(Err(Fault::Exhausted)),
            Step::Is(4, 4, false),
        ],
    );
}

#[test]
fn cookies_of_two_grace_periods(rt: HostRuntime) {
    make_all(
        &rt,
        8,
        &[
            Step::Snap(4, 0),
            Step::Start(Ok(1)),
            Step::Snap(8, 0),
            Step::Done(4, 0, false),
            Step::Done(8, 0, false),
            Step::Done(1, 0, true),
            Step::End(Ok(4)),
            Step::Done(4, 0, true),
            Step::Done(8, 0, false),
            Step::Done(1, 0, true),
            Step::Start(Ok(5)),
            Step::End(Ok(8)),
            Step::Done(8, 0, true),
        ],
    );
}

/// A cookie above the last number is done at 4 of the next epoch. Cookies of older epochs are done,
/// those of later epochs are not.
#[test]
fn cookies_of_three_epochs(rt: HostRuntime) {
    make_all(
        &rt,
        4,
        &[
            Step::Renumber(Err(Fault::NotLast)),
            Step::Start(Ok(1)),
            Step::Renumber(Err(Fault::Running)),
            Step::Snap(8, 0),
            Step::End(Ok(4)),
            Step::Snap(8, 0),
            Step::Done(4, 1, false),
            Step::Done(1, 1, true),
            Step::Tag(4, 0),
            Step::Renumber(Ok(1)),
            Step::Is(0, 4, false),
            Step::Tag(0, 1),
            Step::Done(4, 0, true),
            Step::Done(8, 0, false),
            Step::Snap(4, 1),
            Step::Start(Ok(1)),
            Step::Done(8, 0, false),
            Step::Done(4, 1, false),
            Step::End(Ok(4)),
            Step::Done(8, 0, true),
            Step::Done(4, 1, true),
            Step::Snap(8, 1),
            Step::Renumber(Ok(2)),
            Step::Done(8, 0, true),
            Step::Done(4, 1, true),
            Step::Done(8, 1, false),
            Step::Done(0, 3, false),
        ],
    );
}

/// A counter of the last epoch, with the last number 4.
fn in_last_epoch(rt: &impl Abort) -> Seq {
    Seq::at_epoch(4, 4_294_967_295).expect(rt, "4 is a last number")
}

#[test]
fn the_last_epoch_refuses(rt: HostRuntime) {
    make_each(
        &rt,
        in_last_epoch(&rt),
        &[
            Step::Is(0, 4, false),
            Step::Tag(0, 4_294_967_295),
            Step::Renumber(Err(Fault::NotLast)),
            Step::Start(Ok(1)),
            Step::Renumber(Err(Fault::Running)),
            Step::End(Ok(4)),
            Step::Renumber(Err(Fault::Exhausted)),
            Step::Start(Err(Fault::Exhausted)),
            Step::Tag(4, 4_294_967_295),
        ],
    );
}

/// Goes a step of the path, which is made.
fn go(rt: &impl Abort, seq: &mut Seq, place: u32, turn: Turn) {
    let gone = match turn {
        Turn::Begin => seq.start(),
        Turn::End => seq.end(),
        Turn::Renumber => seq.renumber(),
    };
    compare(rt, place, gone.err(), None);
}

/// Takes a cookie at a place of the path, and polls it there and at each place behind.
fn poll_from(rt: &impl Abort, mut seq: Seq, last: u32, place: u32) {
    for before in 0..place {
        go(rt, &mut seq, before, turn_at(last, before));
    }
    let cookie = seq.snap();
    let mut since = Since::taking();
    for behind in place..steps(last) {
        let (found, wanted) = (seq.done(cookie), since.has_full_period());
        compare(rt, (place, behind), found, wanted);
        go(rt, &mut seq, behind, turn_at(last, behind));
        since.go(turn_at(last, behind));
    }
    assert_eq!(rt;
        (place, seq.done(cookie)),
        (place, since.has_full_period()),
        "at the end"
    );
}

/// Polls from each place of the path.
fn poll_all(rt: &impl Abort, last: u32) {
    for place in 0..=steps(last) {
        let seq = Seq::new(u64::from(last)).expect(rt, "it is a last number");
        poll_from(rt, seq, last, place);
    }
}

/// At every two places of a path through five epochs, a cookie that was taken at the first is done
/// at the second if a full grace period lies between.
#[test]
fn every_two_places_of_five_epochs(rt: HostRuntime) {
    poll_all(&rt, 4);
    poll_all(&rt, 8);
    poll_all(&rt, 12);
    poll_all(&rt, 20);
}

/// No counter of an epoch is made, since this is no last number.
#[test]
fn an_epoch_of_no_last_number(rt: HostRuntime) {
    compare(
        &rt,
        "at_epoch",
        Seq::at_epoch(6, 1).err(),
        Some(Fault::BadLast),
    );
}

/// Why no counter is made with this last number, if none is made.
fn refusal(last: u64) -> Option<Fault> {
    Seq::new(last).err()
}

/// Last numbers, and why no counter is made with each.
static LAST_NUMBERS: [(u64, Option<Fault>); 5] = [
    (4, None),
    (1 << 62, None),
    (0, Some(Fault::BadLast)),
    (6, Some(Fault::BadLast)),
    ((1 << 62) + 4, Some(Fault::BadLast)),
];

#[test]
fn last_numbers(rt: HostRuntime) {
    for (last, wanted) in &LAST_NUMBERS {
        compare(&rt, *last, refusal(*last), *wanted);
    }
}

/// Each fault with its number.
static NUMBERS: [(Fault, u32); 22] = [
    (Fault::BadCpu, 1),
    (Fault::Offline, 2),
    (Fault::AlreadyOnline, 3),
    (Fault::InSection, 4),
    (Fault::NotOpen, 5),
    (Fault::NestFull, 6),
    (Fault::NoReport, 7),
    (Fault::Running, 8),
    (Fault::Idle, 9),
    (Fault::Waiting, 10),
    (Fault::Exhausted, 11),
    (Fault::BootStays, 12),
    (Fault::BarrierBusy, 13),
    (Fault::NoBarrier, 14),
    (Fault::CallbacksFull, 15),
    (Fault::NoMemory, 16),
    (Fault::TooManyCpus, 17),
    (Fault::BadFanout, 18),
    (Fault::BadLast, 19),
    (Fault::NotAlike, 20),
    (Fault::BadLine, 21),
    (Fault::NotLast, 22),
];

/// Compares the number of a fault.
fn has_number(rt: &impl Abort, fault: Fault, number: u32) {
    compare(rt, fault, fault.number(), number);
}

#[test]
fn numbers(rt: HostRuntime) {
    for (fault, number) in &NUMBERS {
        has_number(&rt, *fault, *number);
    }
}

/// Compares a text.
fn is_text(rt: &impl Abort, text: &str, wanted: &str) {
    compare(rt, "text", text, wanted);
}

#[test]
fn display(rt: HostRuntime) {
    if let Ok(text) = format!(in rt.alloc(); "{}", Fault::Running) {
        is_text(&rt, text.as_str(), "a grace period runs already");
    }
}
