//! An order, performed between a reader and a writer.
ghost use Rattle.std.specs.Prelude.{◌≡◌, ◌≤◌, false, length};
ghost use Rattle.rcu_text.specs.Runs.{ends_of};
ghost use Rattle.rcu_command.specs.CommandLine.{IsWithinLimits};
ghost use Rattle.rcu_stress.specs.Ledger.{most_rounds, most_workers};
ghost use Rattle.rcu_torture.specs.Orders.{Answers, Performs, PrintsRun, Tells, exit_status};

use crate::printing::{print_fault, print_ledger};
use rcu_command::Order;
use rcu_script::{RunFault, run_pair, run_script};
use rcu_stress::{Ledger, Open, torture};
use rcu_text::{Failed, Sink, Source};
use std::alloc::Global;
use std::sync::Wait;
use std::thread::Threads;

/// Performs the order: replies to the lines that the reader gives, or stresses the running engine
/// and prints the ledger. It prints the fault of a refused run as a reply; if the writer fails in
/// it, it returns `Write`.
pub fn perform<T: Threads + Wait + Sync, R: Source, W: Sink>(
    alloc: Global,
    rt: &T,
    order: &Order,
    reader: &mut R,
    writer: &mut W,
) -> Result<(), RunFault>
    requires limits { IsWithinLimits order.now }
    requires reader { (R.incoming reader.old).failed ≡ false }
    requires writer { (W.outgoing writer.old).failed ≡ false }
    ensures { Performs result order.now
        (ends_of (R.incoming reader.old) (W.outgoing writer.old))
        (ends_of (R.incoming reader.new) (W.outgoing writer.new)) }
{
    let ran = answer(alloc, rt, order, reader, writer);
    print_refusal(ran, writer)
}

/// Performs the order, but prints no fault.
fn answer<T: Threads + Wait + Sync, R: Source, W: Sink>(
    alloc: Global,
    rt: &T,
    order: &Order,
    reader: &mut R,
    writer: &mut W,
) -> Result<(), RunFault>
    requires limits { IsWithinLimits order.now }
    requires reader { (R.incoming reader.old).failed ≡ false }
    requires writer { (W.outgoing writer.old).failed ≡ false }
    ensures { Answers result order.now
        (ends_of (R.incoming reader.old) (W.outgoing writer.old))
        (ends_of (R.incoming reader.new) (W.outgoing writer.new)) }
{
    match order {
        Order::Script(setup) => run_script(alloc, setup, reader, writer),
        Order::Pair(setup) => run_pair(alloc, setup, reader, writer),
        Order::Torture(workers, rounds, seed) => {
            run_torture(alloc, rt, *workers, *rounds, *seed, writer)
        }
    }
}

/// Stresses the running engine, and prints the ledger.
fn run_torture<T: Threads + Wait + Sync, W: Sink>(
    alloc: Global,
    rt: &T,
    workers: u32,
    rounds: u32,
    seed: u64,
    writer: &mut W,
) -> Result<(), RunFault>
    requires workers { (1 ≤ workers) × (workers ≤ most_workers) }
    requires rounds { (1 ≤ rounds) × (rounds ≤ most_rounds) }
    ensures { PrintsRun result workers rounds (W.outgoing writer.old) (W.outgoing writer.new) }
{
    match torture(alloc, rt, workers, rounds, seed, &Open) {
        Ok(ledger) => print_run(writer, workers, rounds, &ledger),
        Err(fault) => Err(RunFault::Open(fault)),
    }
}

/// Prints the ledger of a run, with a share for each worker.
fn print_run<W: Sink>(
    writer: &mut W,
    workers: u32,
    rounds: u32,
    ledger: &Ledger,
) -> Result<(), RunFault>
    requires { length ledger.now.shares ≡ workers }
    ensures { PrintsRun result workers rounds (W.outgoing writer.old) (W.outgoing writer.new) }
{
    match print_ledger(writer, workers, rounds, ledger) {
        Ok(()) => Ok(()),
        Err(Failed) => Err(RunFault::Write),
    }
}

/// Prints the fault for which a run was refused.
fn print_refusal<W: Sink>(ran: Result<(), RunFault>, writer: &mut W) -> Result<(), RunFault>
    ensures { Tells ran result (W.outgoing writer.old) (W.outgoing writer.new) }
{
    match ran {
        Err(RunFault::Open(fault)) => match print_fault(writer, fault) {
            Ok(()) => Err(RunFault::Open(fault)),
            Err(Failed) => Err(RunFault::Write),
        },
        ended => ended,
    }
}

/// Returns the program's exit status: 0, or 1 if the run was refused or a stream failed.
pub fn status_of(ended: &Result<(), RunFault>) -> u8
    ensures { result ≡ exit_status ended.now }
{
    match ended {
        Ok(()) => 0,
        Err(_) => 1,
    }
}
