//! Which words give which order, and which are refused.

use clap::error::ErrorKind;
use rcu_command::{Order, read_command};
use rcu_script::Setup;
use std::alloc::Global;
use std::process::Abort;

/// Returns the order that the words are read as. If a growth was refused they are read again.
fn read(alloc: Global, words: &[&str]) -> Result<Order, ErrorKind> {
    match read_once(alloc, words) {
        Err(ErrorKind::OutOfMemory) => read_once(alloc, words),
        result => result,
    }
}

fn read_once(alloc: Global, words: &[&str]) -> Result<Order, ErrorKind> {
    read_command(alloc, words).map_err(|error| error.kind())
}

/// Compares what words order.
fn are_read(rt: &impl Abort, alloc: Global, words: &[&str], order: Order) {
    assert_eq!(rt; read(alloc, words), Ok(order));
}

/// A script of 4 processors with leaves of 2 and inner nodes of 3.
fn four_cpus(last: u64) -> Order {
    Order::Script(Setup {
        leaf: 2,
        inner: 3,
        leaf2: 2,
        inner2: 3,
        cpus: 4,
        last,
    })
}

#[test]
fn a_script_has_its_options_numbers(rt: HostRuntime) {
    let alloc = rt.alloc();
    are_read(
        &rt,
        alloc,
        &["script", "--leaf", "2", "--inner", "3", "--cpus", "4"],
        four_cpus(4611686018427387904),
    );
    are_read(
        &rt,
        alloc,
        &[
            "script",
            "--cpus=4",
            "--last",
            "8",
            "--inner=3",
            "--leaf",
            "2",
        ],
        four_cpus(8),
    );
    are_read(
        &rt,
        alloc,
        &[
            "script",
            "--last=18446744073709551615",
            "--leaf=2",
            "--inner=3",
            "--cpus=4",
        ],
        four_cpus(18446744073709551615),
    );
}

#[test]
fn a_pair_has_its_options_numbers(rt: HostRuntime) {
    let setup = Setup {
        leaf: 2,
        inner: 3,
        leaf2: 16,
        inner2: 64,
        cpus: 4,
        last: 8,
    };
    are_read(
        &rt,
        rt.alloc(),
        &[
            "pair",
            "--leaf=2",
            "--inner=3",
            "--inner2=64",
            "--leaf2=16",
            "--cpus",
            "4",
            "--last=8",
        ],
        Order::Pair(setup),
    );
}

#[test]
fn a_torture_has_its_options_numbers(rt: HostRuntime) {
    let alloc = rt.alloc();
    are_read(
        &rt,
        alloc,
        &[
            "torture",
            "--workers",
            "4",
            "--rounds",
            "100",
            "--seed",
            "1",
        ],
        Order::Torture(4, 100, 1),
    );
    are_read(
        &rt,
        alloc,
        &[
            "torture",
            "--seed=18446744073709551615",
            "--rounds=10000",
            "--workers=64",
        ],
        Order::Torture(64, 10_000, 18446744073709551615),
    );
}

/// Compares why words are refused.
fn are_refused(rt: &impl Abort, alloc: Global, lines: &[(&[&str], ErrorKind)]) {
    for (place, (words, kind)) in lines.iter().enumerate() {
        assert_eq!(rt; read(alloc, words), Err(*kind), "at {place}");
    }
}

/// Words with another command than the three.
static OTHER_COMMANDS: [(&[&str], ErrorKind); 5] = [
    (&[], ErrorKind::MissingSubcommand),
    (&["frob"], ErrorKind::InvalidSubcommand),
    (&["help"], ErrorKind::InvalidSubcommand),
    (&["--help"], ErrorKind::DisplayHelp),
    (&["script", "--help"], ErrorKind::DisplayHelp),
];

#[test]
fn other_commands_are_refused(rt: HostRuntime) {
    are_refused(&rt, rt.alloc(), &OTHER_COMMANDS);
}

/// Words of a torture run with a number out of its range.
static OUT_OF_RANGE: [(&[&str], ErrorKind); 5] = [
    (
        &["torture", "--workers=0", "--rounds=1", "--seed=1"],
        ErrorKind::ValueValidation,
    ),
    (
        &["torture", "--workers=65", "--rounds=1", "--seed=1"],
        ErrorKind::ValueValidation,
    ),
    (
        &["torture", "--workers=1", "--rounds=0", "--seed=1"],
        ErrorKind::ValueValidation,
    ),
    (
        &["torture", "--workers=1", "--rounds=10001", "--seed=1"],
        ErrorKind::ValueValidation,
    ),
    (
        &[
            "torture",
            "--workers=1",
            "--rounds=1",
            "--seed=18446744073709551616",
        ],
        ErrorKind::ValueValidation,
    ),
];

#[test]
fn a_torture_out_of_range_is_refused(rt: HostRuntime) {
    are_refused(&rt, rt.alloc(), &OUT_OF_RANGE);
}

/// Words of a torture run that lack an option.
static WANTING: [(&[&str], ErrorKind); 3] = [
    (
        &["torture", "--workers=1", "--rounds=1"],
        ErrorKind::MissingRequiredArgument,
    ),
    (
        &["torture", "--workers=1", "--seed=1"],
        ErrorKind::MissingRequiredArgument,
    ),
    (
        &["torture", "--rounds=1", "--seed=1"],
        ErrorKind::MissingRequiredArgument,
    ),
];

#[test]
fn a_torture_wants_each_option(rt: HostRuntime) {
    are_refused(&rt, rt.alloc(), &WANTING);
}

/// Words with an option too few, too many or in another form.
static OTHER_OPTIONS: [(&[&str], ErrorKind); 8] = [
    (
        &["pair", "--leaf=2", "--inner=3", "--leaf2=2", "--cpus=4"],
        ErrorKind::MissingRequiredArgument,
    ),
    (
        &["script", "--leaf=2", "--inner=3", "--cpus=4", "--leaf2=2"],
        ErrorKind::UnknownArgument,
    ),
    (
        &["script", "--leaf", "2", "--inner", "3"],
        ErrorKind::MissingRequiredArgument,
    ),
    (
        &["script", "--leaf", "2", "--inner", "3", "--cpus"],
        ErrorKind::InvalidValue,
    ),
    (
        &["script", "--leaf=2", "--inner=3", "--cpus=4294967296"],
        ErrorKind::ValueValidation,
    ),
    (
        &["script", "--leaf", "2", "--inner", "3", "--cpus", "4x"],
        ErrorKind::ValueValidation,
    ),
    (
        &["script", "--leaf=2", "--inner=3", "--cpus=4", "--cpus=4"],
        ErrorKind::ArgumentConflict,
    ),
    (
        &["script", "--leaf=2", "--inner=3", "--cpus=4", "--seed=1"],
        ErrorKind::UnknownArgument,
    ),
];

#[test]
fn other_options_are_refused(rt: HostRuntime) {
    are_refused(&rt, rt.alloc(), &OTHER_OPTIONS);
}
