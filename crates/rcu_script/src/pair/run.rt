//! The lines of two replicas, from bytes to bytes.
ghost use Rattle.std.specs.Prelude.{◌≡◌, None, false};
ghost use Rattle.rcu_text.specs.Runs.{ends_of};
ghost use Rattle.rcu_script.specs.Opening.{size_of_setup};
ghost use Rattle.rcu_script.specs.PairRuns.{RunsPair, fault_beside};
ghost use Rattle.rcu_script.specs.PairTexts.{IsPairText, pair_replies};
ghost use Rattle.rcu_script.specs.RunEnds.{RunsFromOpening};

use crate::offered::over_offered_tree;
use crate::pair::machine::PairMachine;
use crate::pair::open::open_pair;
use crate::runs::{RunFault, Setup};
use rcu_node::Awaited;
use rcu_seq::Fault;
use rcu_text::{Sink, Source, run};
use std::alloc::Global;

/// Runs the lines of a pair on two replicas of a setup: replies to all lines of the reader, in
/// order. It has the cost and the faults of [`crate::run_script`].
///
/// Every reply to the lines that were read is written before the next read. So a run that a failed
/// read stops has replied to the lines that were read completely. If a write failed, a prefix of
/// the replies was written. No line needs memory, so exactly one text is right. The contract is
/// about readers and writers whose bytes are known, as that of [`crate::run_script`].
pub fn run_pair<R: Source, W: Sink>(
    alloc: Global,
    setup: &Setup,
    reader: &mut R,
    writer: &mut W,
) -> Result<(), RunFault>
    requires reader { (R.incoming reader.old).failed ≡ false }
    requires writer { (W.outgoing writer.old).failed ≡ false }
    ensures { RunsPair result setup.now
        (ends_of (R.incoming reader.old) (W.outgoing writer.old))
        (ends_of (R.incoming reader.new) (W.outgoing writer.new)) }
{
    over_offered_tree!(
        setup.leaf,
        setup.inner,
        run_beside::<.., R, W>(alloc, setup, reader, writer)
    )
}

/// Runs the lines of a pair whose first replica is over the tree of these fanouts.
fn run_beside<const LEAF: u32, const INNER: u32, R: Source, W: Sink>(
    alloc: Global,
    setup: &Setup,
    reader: &mut R,
    writer: &mut W,
) -> Result<(), RunFault>
    ensures { RunsFromOpening result (fault_beside LEAF INNER setup.now)
        (IsPairText (size_of_setup setup.now))
        (ends_of (R.incoming reader.old) (W.outgoing writer.old))
        (ends_of (R.incoming reader.new) (W.outgoing writer.new)) }
{
    over_offered_tree!(
        setup.leaf2,
        setup.inner2,
        open_pair::<LEAF, INNER, ..>(alloc, setup.cpus, setup.last)?.run(reader, writer)
    )
}

impl<A: Awaited, B: Awaited> PairMachine<A, B> {
    /// Runs the lines of a pair on these two replicas.
    fn run<R: Source, W: Sink>(mut self, reader: &mut R, writer: &mut W) -> Result<(), RunFault>
        ensures { RunsFromOpening result None (λ lines text. text ≡ pair_replies self lines)
            (ends_of (R.incoming reader.old) (W.outgoing writer.old))
            (ends_of (R.incoming reader.new) (W.outgoing writer.new)) }
    {
        run(&mut self, reader, writer)?;
        Ok(())
    }
}
