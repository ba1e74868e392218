//! The command line, as `clap` reads it.
ghost use Rattle.std.specs.Prelude.{◌≡◌, false, IfOk, codes};
ghost use Rattle.clap.specs.Words.{app_of, new_app, rule_of};
ghost use Rattle.clap.specs.declared.builder.command.Command.TheViews.{out-Command as fields_of};
ghost use Rattle.rcu_command.specs.CommandLine.{any_u32, last_rule, number_rule, option_rule};
ghost use Rattle.rcu_command.specs.CommandLine.{pair, rcu, required_rule, script, torture};
ghost use Rattle.rcu_command.specs.CommandLine.{u32_from_1_to};
ghost use Rattle.rcu_stress.specs.Ledger.{most_rounds, most_workers};

use crate::command::help;
use clap::builder::ValueParser;
use clap::{Arg, Command, value_parser};
use std::alloc::{AllocError, Global};

/// The greatest last number, 2^62.
const GREATEST_LAST: &str = "4611686018427387904";

/// The program with its subcommands, of which one has to be given.
pub fn rcu_command<'a>(alloc: Global) -> Result<Command<'a>, AllocError>
    ensures { IfOk result (λ command. app_of command ≡ rcu) }
{
    let about = "Drives a grace-period engine of read-copy-update (RCU)";
    described(alloc, "rcu", about, help::PROGRAM)
        .version(help::VERSION)
        .no_binary_name(true)
        .subcommand_required(true)
        .disable_help_subcommand(true)
        .bin_name("rcu")?
        .subcommand(script_command(alloc)?)?
        .subcommand(pair_command(alloc)?)?
        .subcommand(torture_command(alloc)?)
}

fn script_command<'a>(alloc: Global) -> Result<Command<'a>, AllocError>
    ensures app { IfOk result (λ command. app_of command ≡ script) }
    ensures local { IfOk result (λ command. (fields_of command).has_globals ≡ false) }
{
    let about = "Replies to a script on standard input, line by line";
    described(alloc, "script", about, help::SCRIPT)
        .arg(u32_option(alloc, "leaf", "Processors that a leaf of the tree holds"))?
        .arg(u32_option(alloc, "inner", "Children that an inner node holds"))?
        .arg(u32_option(alloc, "cpus", "Number of processors, from 1"))?
        .arg(last_option(alloc))
}

fn pair_command<'a>(alloc: Global) -> Result<Command<'a>, AllocError>
    ensures app { IfOk result (λ command. app_of command ≡ pair) }
    ensures local { IfOk result (λ command. (fields_of command).has_globals ≡ false) }
{
    let about = "Replies to the lines of two replicas, a and b, on standard input";
    let cpus = "Number of processors of each replica, from 1";
    described(alloc, "pair", about, help::PAIR)
        .arg(u32_option(alloc, "leaf", "Processors that a leaf of a holds"))?
        .arg(u32_option(alloc, "inner", "Children that an inner node of a holds"))?
        .arg(u32_option(alloc, "leaf2", "Processors that a leaf of b holds"))?
        .arg(u32_option(alloc, "inner2", "Children that an inner node of b holds"))?
        .arg(u32_option(alloc, "cpus", cpus))?
        .arg(last_option(alloc))
}

fn torture_command<'a>(alloc: Global) -> Result<Command<'a>, AllocError>
    ensures app { IfOk result (λ command. app_of command ≡ torture) }
    ensures local { IfOk result (λ command. (fields_of command).has_globals ≡ false) }
{
    let about = "Stress-tests the engine for threads, and prints a summary";
    let seed = "Seed of the workers' random words";
    described(alloc, "torture", about, help::TORTURE)
        .arg(workers_option(alloc))?
        .arg(rounds_option(alloc))?
        .arg(required_option(alloc, "seed", seed, value_parser!(u64)))
}

/// Makes a command of this name, with its help before the options and after them.
fn described<'a>(alloc: Global, name: &'a str, about: &'a str, more: &'a str) -> Command<'a>
    ensures app { app_of result ≡ new_app name.entry.now }
    ensures local { (fields_of result).has_globals ≡ false }
{
    Command::new(alloc, name).about(about).after_help(more)
}

/// The option `--workers`, whose range is that of a torture run.
fn workers_option<'a>(alloc: Global) -> Arg<'a>
    ensures rule { rule_of result
        ≡ required_rule (number_rule (codes "workers") (u32_from_1_to most_workers)) }
    ensures local { result.global ≡ false }
{
    let range = value_parser!(u32).range(1..=64);
    required_option(alloc, "workers", "Number of workers, 1 to 64", range)
}

/// The option `--rounds`, whose range is that of a torture run.
fn rounds_option<'a>(alloc: Global) -> Arg<'a>
    ensures rule { rule_of result
        ≡ required_rule (number_rule (codes "rounds") (u32_from_1_to most_rounds)) }
    ensures local { result.global ≡ false }
{
    let range = value_parser!(u32).range(1..=10_000);
    required_option(alloc, "rounds", "Rounds of each worker, 1 to 10000", range)
}

/// A required option whose value is a u32.
fn u32_option<'a>(alloc: Global, name: &'a str, help: &'a str) -> Arg<'a>
    ensures rule { rule_of result ≡ required_rule (number_rule name.entry.now any_u32) }
    ensures local { result.global ≡ false }
{
    required_option(alloc, name, help, value_parser!(u32))
}

/// A required option whose value this parser takes.
fn required_option<'a>(
    alloc: Global,
    name: &'a str,
    help: &'a str,
    parser: ValueParser<'a>,
) -> Arg<'a>
    ensures rule { rule_of result ≡ required_rule (number_rule name.entry.now parser.entry) }
    ensures local { result.global ≡ false }
{
    option(alloc, name, help)
        .required(true)
        .value_parser(parser)
}

/// The option `--last`, which may be left out.
fn last_option<'a>(alloc: Global) -> Arg<'a>
    ensures rule { rule_of result ≡ last_rule }
    ensures local { result.global ≡ false }
{
    let help = "Last number, a multiple of 4 from 4 to 2^62";
    option(alloc, "last", help)
        .value_parser(value_parser!(u64))
        .default_value(GREATEST_LAST)
}

/// The option `--name`, whose value is a number.
fn option<'a>(alloc: Global, name: &'a str, help: &'a str) -> Arg<'a>
    ensures rule { rule_of result ≡ option_rule name.entry.now }
    ensures local { result.global ≡ false }
{
    Arg::new(alloc, name).long(name).help(help)
}
