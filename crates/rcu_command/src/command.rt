//! The command line.
ghost use Rattle.std.specs.Prelude.{◌≡◌, IfOk, map, MatchOption};
ghost use Rattle.clap.specs.Words.{FailsBy, fault_of, found_of, rows_of, subcommand_of};
ghost use Rattle.clap.specs.Words.{subcommand_rows_of};
ghost use Rattle.rcu_command.specs.CommandLine.{HasNoOrder, HasNoSetup, IsOrderOf, IsSetupOf};
ghost use Rattle.rcu_command.specs.CommandLine.{IsWithinLimits, number_up_to, rcu, u32_max};
ghost use Rattle.rcu_command.specs.CommandLine.{u64_max};

mod grammar;
mod help;

use clap::{ArgMatches, Error};
use grammar::rcu_command;
use rcu_script::Setup;
use std::alloc::Global;

/// An order to the program.
#[derive(Clone, Copy, Debug, PartialEq, Eq)]
pub enum Order {
    /// Reply to a script of lines.
    Script(Setup),
    /// Reply to the lines of two replicas.
    Pair(Setup),
    /// Stress the running engine: with this many workers (1..=64), for this many rounds
    /// (1..=10,000), by this seed.
    Torture(u32, u32, u64),
}

/// Reads the program's arguments, which are the words without its name.
///
/// An error is `clap`'s: its text says what is wrong with the words, or is the help that they ask
/// for. The kind `OutOfMemory` means that an allocation was refused, and tests show that it comes
/// only then. The cost is `clap`'s, for each word.
pub fn read_command<'a>(alloc: Global, words: &'a [&'a str]) -> Result<Order, Error>
    ensures order { IfOk result (IsOrderOf (subcommand_of rcu (map (λ word. word.now) words.now))) }
    ensures limits { IfOk result IsWithinLimits }
    ensures fails { FailsBy (fault_of rcu (map (λ word. word.now) words.now)) result }
{
    let matches = rcu_command(alloc)?.try_get_matches_from(words)?;
    Ok(order_of(&matches).unwrap())
}

/// Returns the order of the subcommand that `clap` found.
#[tactic(auto, using(crate::proofs::CommandLemmas::no_order))]
fn order_of(matches: &ArgMatches<'_>) -> Option<Order>
    ensures { let met = subcommand_rows_of matches.now in
        MatchOption result (HasNoOrder met) (IsOrderOf met) }
{
    let (name, found) = matches.subcommand()?;
    match name {
        "script" => Some(Order::Script(setup_of(found, "leaf", "inner")?)),
        "pair" => Some(Order::Pair(setup_of(found, "leaf2", "inner2")?)),
        "torture" => Some(Order::Torture(
            u32_of(found, "workers")?,
            u32_of(found, "rounds")?,
            u64_of(found, "seed")?,
        )),
        _ => None,
    }
}

/// Returns the setup that the options give. Those of the second replica's tree have these names.
fn setup_of(matches: &ArgMatches<'_>, leaf2: &str, inner2: &str) -> Option<Setup>
    ensures { let rows = rows_of (found_of matches.now) in
        MatchOption result (HasNoSetup leaf2.now inner2.now rows)
        (IsSetupOf leaf2.now inner2.now rows) }
{
    Some(Setup {
        leaf: u32_of(matches, "leaf")?,
        inner: u32_of(matches, "inner")?,
        leaf2: u32_of(matches, leaf2)?,
        inner2: u32_of(matches, inner2)?,
        cpus: u32_of(matches, "cpus")?,
        last: u64_of(matches, "last")?,
    })
}

/// Returns the option's number, if its text is one.
fn u32_of(matches: &ArgMatches<'_>, id: &str) -> Option<u32>
    ensures { result ≡ number_up_to u32_max (rows_of (found_of matches.now)) id.now }
{
    matches.get_one(id)
}

/// Returns the option's number of 64 bits, if its text is one.
fn u64_of(matches: &ArgMatches<'_>, id: &str) -> Option<u64>
    ensures { result ≡ number_up_to u64_max (rows_of (found_of matches.now)) id.now }
{
    matches.get_one(id)
}
