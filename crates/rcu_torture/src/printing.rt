//! The texts that the program prints besides replies.
ghost use Rattle.std.specs.Prelude.{◌≡◌, []};
ghost use Rattle.rcu_text.specs.Outputs.{Puts};
ghost use Rattle.rcu_text.specs.Streams.{Writes};
ghost use Rattle.rcu_torture.specs.LedgerText.{ledger_text};
ghost use Rattle.rcu_torture.specs.Orders.{fault_line};

use rcu_core::Reply;
use rcu_script::script::print::put_reply;
use rcu_seq::Fault;
use rcu_stress::Ledger;
use rcu_text::{BlockWriter, Failed, Output, Sink, put_numbered};

/// Prints a fault in the form of a reply. If the writer fails, it took a prefix of the line.
pub fn print_fault<W: Sink>(writer: &mut W, fault: Fault) -> Result<(), Failed>
    ensures { Writes result (W.outgoing writer.old) (W.outgoing writer.new) (fault_line fault) }
{
    let mut out = BlockWriter::new(writer);
    send_fault(&mut out, fault)
}

/// Writes a fault's line through an output without buffered bytes.
fn send_fault<O: Output>(out: &mut O, fault: Fault) -> Result<(), Failed>
    requires { (O.out out.old).waiting ≡ [] }
    ensures bytes { Writes result (O.out out.old).writer (O.out out.new).writer
        (fault_line fault) }
    ensures same { (O.out out.new).name ≡ (O.out out.old).name }
{
    put_reply(out, &Reply::Fault(fault))?;
    out.flush()
}

/// Prints the ledger of this many workers and rounds, a line for each number. If the writer fails,
/// it took a prefix of the lines.
pub fn print_ledger<W: Sink>(
    writer: &mut W,
    workers: u32,
    rounds: u32,
    ledger: &Ledger,
) -> Result<(), Failed>
    ensures { Writes result (W.outgoing writer.old) (W.outgoing writer.new)
        (ledger_text workers rounds ledger.now) }
{
    let mut out = BlockWriter::new(writer);
    send_ledger(&mut out, workers, rounds, ledger)
}

/// Writes a ledger's lines through an output without buffered bytes.
fn send_ledger<O: Output>(
    out: &mut O,
    workers: u32,
    rounds: u32,
    ledger: &Ledger,
) -> Result<(), Failed>
    requires { (O.out out.old).waiting ≡ [] }
    ensures bytes { Writes result (O.out out.old).writer (O.out out.new).writer
        (ledger_text workers rounds ledger.now) }
    ensures same { (O.out out.new).name ≡ (O.out out.old).name }
{
    put_ledger(out, workers, rounds, ledger)?;
    out.flush()
}

/// Puts a ledger's lines after the buffered bytes.
fn put_ledger<O: Output>(
    out: &mut O,
    workers: u32,
    rounds: u32,
    ledger: &Ledger,
) -> Result<(), Failed>
    ensures { Puts result (O.out out.old) (O.out out.new)
        (ledger_text workers rounds ledger.now) }
{
    put_numbered(out, b"workers ", u64::from(workers))?;
    put_numbered(out, b"rounds ", u64::from(rounds))?;
    put_numbered(out, b"queued ", ledger.queued())?;
    put_numbered(out, b"ran ", ledger.ran())?;
    put_numbered(out, b"early ", ledger.early())?;
    put_numbered(out, b"twice ", ledger.twice())
}
