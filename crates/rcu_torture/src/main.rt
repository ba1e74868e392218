//! The program `rcu`.
#![tactic(auto)]

ghost use Rattle.std.specs.Prelude.{IfOk};
ghost use Rattle.rcu_command.specs.CommandLine.{IsWithinLimits};

pub mod perform;
pub mod printing;

use perform::{perform, status_of};
use rcu_command::Reason;
pub use rcu_command::{Order, read_command};
pub use rcu_script::{RunFault, Setup, run_pair, run_script};
pub use rcu_stress::{Draws, Gate, Ledger, LedgerShare, Open, Point, torture};
pub use rcu_text::{Failed, Marked, Sink, Source};
use std::alloc::Global;
use std::env::Env;
use std::process::ExitCode;
use std::sync::Wait;
use std::thread::Threads;
use std::{env, io};

/// The status after a command line that is refused or asks for help, and after one that was not
/// read.
const REFUSED: u8 = 2;

fn main(rt: HostRuntime) -> ExitCode {
    match arguments(&rt) {
        Ok(words) => ExitCode::from(run_words(&rt, &words)),
        Err(error) => {
            let _ = eprintln!(rt; "rcu: {error}");
            ExitCode::from(REFUSED)
        }
    }
}

/// The program's arguments, without its name.
fn arguments<R: Env + AllocGlobal>(rt: &R) -> io::Result<Vec<String>> {
    Ok(env::args(rt)?.skip(1).collect(rt.alloc())?)
}

/// Performs the order of the words, or prints why they are refused. The text is that of `clap`,
/// which ends its last line.
fn run_words<R>(rt: &R, words: &[String]) -> u8
where
    R: AllocGlobal + Input + Print + Eprint + Threads + Wait + Sync,
{
    match read_order(rt.alloc(), words) {
        Ok(order) => answer(rt, &order),
        Err(error) => {
            let _ = eprint!(rt; "{error}");
            REFUSED
        }
    }
}

fn read_order(alloc: Global, words: &[String]) -> Result<Order, clap::Error>
    ensures { IfOk result IsWithinLimits }
{
    let texts: Vec<&str> = words.iter().map(String::as_str).collect(alloc)?;
    read_command(alloc, &texts)
}

/// Performs the order between standard input and standard output, and prints on standard error why
/// it stopped.
fn answer<R>(rt: &R, order: &Order) -> u8
where
    R: AllocGlobal + Input + Print + Eprint + Threads + Wait + Sync,
    requires { IsWithinLimits order.now }
{
    let mut reader = Marked::new(rt.reader());
    let mut writer = Marked::new(io::writer(rt));
    let ended = perform(rt.alloc(), rt, order, &mut reader, &mut writer);
    if let Err(fault) = &ended {
        let _ = eprintln!(rt; "{}", Reason { order, fault });
    }
    status_of(&ended)
}
