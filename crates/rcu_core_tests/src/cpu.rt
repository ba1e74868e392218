//! The nesting of read sections to its limit, and each call with each of its faults.
use crate::made::compare;
use rcu_cpu::CpuData;
use rcu_report::Report;
use rcu_seq::{Fault, Tag};
use std::process::Abort;

/// A call, with its expected answer, or a query.
enum Step {
    Enter(Result<u32, Fault>),
    Exit(Result<u32, Fault>),
    /// Notes this number of this epoch.
    Note(u64, u64, Result<(), Fault>),
    /// A quiescent state: the number and the epoch that its report carries.
    Quiesce(u64, u64),
    /// A quiescent state that is refused.
    NoReport(Fault),
    /// Arrives at this number of this epoch.
    Arrive(u64, u64, Result<(), Fault>),
    Depart(Result<(), Fault>),
    Idle(Result<(), Fault>),
    Wake(Result<(), Fault>),
    /// True if the processor is idle.
    IsIdle(bool),
    /// The processor's state: whether it is online, the depth of its section, and the number and
    /// the epoch noted.
    Is(bool, u32, u64, u64),
}

/// Makes a row's call, or looks, and compares.
fn make(rt: &impl Abort, row: usize, data: &mut CpuData, step: &Step) {
    match step {
        Step::Enter(wanted) => compare(rt, row, data.enter(), *wanted),
        Step::Exit(wanted) => compare(rt, row, data.exit(), *wanted),
        Step::Note(number, epoch, wanted) => {
            compare(rt, row, data.note(tag(*number, *epoch)), *wanted);
        },
        Step::Quiesce(number, epoch) => quiesce(rt, row, data, Ok(tag(*number, *epoch))),
        Step::NoReport(fault) => quiesce(rt, row, data, Err(*fault)),
        Step::Arrive(number, epoch, wanted) => {
            compare(rt, row, data.arrive(tag(*number, *epoch)), *wanted);
        },
        Step::Depart(wanted) => compare(rt, row, data.depart(), *wanted),
        Step::Idle(wanted) => compare(rt, row, data.idle(), *wanted),
        Step::Wake(wanted) => compare(rt, row, data.wake(), *wanted),
        Step::IsIdle(wanted) => compare(rt, row, data.is_idle(), *wanted),
        Step::Is(online, depth, number, epoch) => {
            is_at(rt, row, data, (*online, *depth, tag(*number, *epoch)));
        },
    }
}

/// Makes a row's quiescent state, and compares the report.
fn quiesce(rt: &impl Abort, row: usize, data: &mut CpuData, wanted: Result<Tag, Fault>) {
    let cpu = data.cpu();
    compare(
        rt,
        row,
        data.quiesce(),
        wanted.map(|tag| Report { cpu, tag }),
    );
}

/// Compares whether the processor is online, the depth of its section, and what is noted.
fn is_at(rt: &impl Abort, row: usize, data: &CpuData, wanted: (bool, u32, Tag)) {
    compare(rt, row, (data.online(), data.depth(), data.noted()), wanted);
}

/// This number of this epoch.
fn tag(number: u64, epoch: u64) -> Tag {
    Tag { epoch, number }
}

/// Makes the steps in turn.
fn make_all(rt: &impl Abort, mut data: CpuData, cpu: u32, steps: &[Step]) {
    for (row, step) in steps.iter().enumerate() {
        make(rt, row, &mut data, step);
        compare(rt, row, data.cpu(), cpu);
    }
}

#[test]
fn full_nesting_depth(rt: HostRuntime) {
    let mut data = CpuData::new(0, true);
    for depth in 1..=65_535 {
        compare(&rt, "enter", data.enter(), Ok(depth));
    }
    make_all(
        &rt,
        data,
        0,
        &[
            Step::Is(true, 65_535, 0, 0),
            Step::Enter(Err(Fault::NestFull)),
            Step::Is(true, 65_535, 0, 0),
        ],
    );
}

#[test]
fn nested_sections(rt: HostRuntime) {
    make_all(
        &rt,
        CpuData::new(0, true),
        0,
        &[
            Step::Enter(Ok(1)),
            Step::Enter(Ok(2)),
            Step::Exit(Ok(1)),
            Step::NoReport(Fault::InSection),
            Step::Exit(Ok(0)),
            Step::Exit(Err(Fault::NotOpen)),
            Step::Quiesce(0, 0),
        ],
    );
}

#[test]
fn a_note_and_a_report(rt: HostRuntime) {
    make_all(
        &rt,
        CpuData::new(4_095, true),
        4_095,
        &[
            Step::Is(true, 0, 0, 0),
            Step::Note(5, 0, Ok(())),
            Step::Is(true, 0, 5, 0),
            Step::Quiesce(5, 0),
            Step::Note(1, 1, Ok(())),
            Step::Is(true, 0, 1, 1),
            Step::Quiesce(1, 1),
        ],
    );
}

#[test]
fn an_arrival_and_a_departure(rt: HostRuntime) {
    make_all(
        &rt,
        CpuData::new(7, false),
        7,
        &[
            Step::Enter(Err(Fault::Offline)),
            Step::Exit(Err(Fault::NotOpen)),
            Step::Note(1, 0, Err(Fault::Offline)),
            Step::NoReport(Fault::Offline),
            Step::Depart(Err(Fault::Offline)),
            Step::Arrive(9, 0, Ok(())),
            Step::Arrive(13, 0, Err(Fault::AlreadyOnline)),
            Step::Is(true, 0, 9, 0),
            Step::Enter(Ok(1)),
            Step::Depart(Err(Fault::InSection)),
            Step::Exit(Ok(0)),
            Step::Depart(Ok(())),
            Step::Is(false, 0, 9, 0),
        ],
    );
}

/// An idle processor opens no section and makes no report until it wakes; a note goes on.
#[test]
fn an_idle_processor(rt: HostRuntime) {
    make_all(
        &rt,
        CpuData::new(7, true),
        7,
        &[
            Step::IsIdle(false),
            Step::Wake(Err(Fault::NotIdle)),
            Step::Enter(Ok(1)),
            Step::Idle(Err(Fault::InSection)),
            Step::IsIdle(false),
            Step::Exit(Ok(0)),
            Step::Idle(Ok(())),
            Step::IsIdle(true),
            Step::Idle(Err(Fault::CpuIdle)),
            Step::Enter(Err(Fault::CpuIdle)),
            Step::NoReport(Fault::CpuIdle),
            Step::Exit(Err(Fault::NotOpen)),
            Step::Note(5, 0, Ok(())),
            Step::Arrive(9, 0, Err(Fault::AlreadyOnline)),
            Step::IsIdle(true),
            Step::Is(true, 0, 5, 0),
            Step::Wake(Ok(())),
            Step::IsIdle(false),
            Step::Quiesce(5, 0),
            Step::Enter(Ok(1)),
        ],
    );
}

/// A departure ends the idleness, and an arrival comes awake.
#[test]
fn an_idle_processor_departs(rt: HostRuntime) {
    make_all(
        &rt,
        CpuData::new(7, false),
        7,
        &[
            Step::IsIdle(false),
            Step::Idle(Err(Fault::Offline)),
            Step::Wake(Err(Fault::Offline)),
            Step::Arrive(1, 0, Ok(())),
            Step::IsIdle(false),
            Step::Idle(Ok(())),
            Step::Depart(Ok(())),
            Step::IsIdle(false),
            Step::Wake(Err(Fault::Offline)),
            Step::Idle(Err(Fault::Offline)),
            Step::Is(false, 0, 1, 0),
            Step::Arrive(5, 0, Ok(())),
            Step::IsIdle(false),
            Step::Wake(Err(Fault::NotIdle)),
            Step::Enter(Ok(1)),
        ],
    );
}
