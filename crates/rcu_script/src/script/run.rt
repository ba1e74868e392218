//! A script from bytes to bytes.
ghost use Rattle.std.specs.Prelude.{◌≡◌, false};
ghost use Rattle.rcu_text.specs.Runs.{ends_of};
ghost use Rattle.rcu_geometry.specs.Opening.{opening_refusal};
ghost use Rattle.rcu_script.specs.Opening.{size_of_setup};
ghost use Rattle.rcu_script.specs.RunEnds.{RunsFromOpening};
ghost use Rattle.rcu_script.specs.ScriptAnswers.{IsAnswer, RunsScript};

use crate::offered::over_offered_tree;
use crate::runs::{RunFault, Setup};
use crate::script::open::open;
use crate::script::responder::ScriptResponder;
use rcu_seq::Fault;
use rcu_text::{Sink, Source, run};
use std::alloc::Global;

/// Runs a script on the engine of a setup: replies to all lines of the reader, in order. Costs a
/// step for each byte that is read or written, and the cost of the opening and the events.
///
/// Faults: `Open` of `BadFanout` (18), `TooManyCpus` (17), `BadLast` (19) or `NoMemory` (16), if
/// nothing was read or written; `Read` if the reader failed; `Write` if the writer failed.
///
/// Every reply to the lines that were read is written before the next read. So a run that a failed
/// read stops has replied to the lines that were read completely. If a write failed, a prefix of
/// the replies was written. The contract is about readers and writers whose bytes are known, such
/// as slices and vectors; std gives none for standard input and output.
pub fn run_script<R: Source, W: Sink>(
    alloc: Global,
    setup: &Setup,
    reader: &mut R,
    writer: &mut W,
) -> Result<(), RunFault>
    requires reader { (R.incoming reader.old).failed ≡ false }
    requires writer { (W.outgoing writer.old).failed ≡ false }
    ensures { RunsScript result setup.now
        (ends_of (R.incoming reader.old) (W.outgoing writer.old))
        (ends_of (R.incoming reader.new) (W.outgoing writer.new)) }
{
    over_offered_tree!(
        setup.leaf,
        setup.inner,
        run_over::<.., R, W>(alloc, setup, reader, writer)
    )
}

/// Runs a script over the tree of two fanouts.
fn run_over<const LEAF: u32, const INNER: u32, R: Source, W: Sink>(
    alloc: Global,
    setup: &Setup,
    reader: &mut R,
    writer: &mut W,
) -> Result<(), RunFault>
    ensures { RunsFromOpening result (opening_refusal LEAF INNER setup.now.cpus setup.now.last)
        (IsAnswer (size_of_setup setup.now))
        (ends_of (R.incoming reader.old) (W.outgoing writer.old))
        (ends_of (R.incoming reader.new) (W.outgoing writer.new)) }
{
    let core = open::<LEAF, INNER>(alloc, setup.cpus, setup.last)?;
    run(&mut ScriptResponder { core }, reader, writer)?;
    Ok(())
}
