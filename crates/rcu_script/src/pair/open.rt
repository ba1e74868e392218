//! The opening of a pair.
ghost use Rattle.std.specs.Prelude.{◌≡◌, None, IfOk};
ghost use Rattle.std.specs.Result.{result_err};
ghost use Rattle.rcu_geometry.specs.Geometry.{refusal, shape};
ghost use Rattle.rcu_report.specs.Replica.{at_first};
ghost use Rattle.rcu_geometry.specs.Opening.{opening_refusal};
ghost use Rattle.rcu_script.specs.Opening.{opened_size};
ghost use Rattle.rcu_script.specs.PairRuns.{shapes_fault, trees_fault};
ghost use Rattle.rcu_script.specs.PairState.{pair_at};
ghost use Rattle.rcu_seq.specs.Memory.{tested_fault};

use crate::pair::machine::PairMachine;
use rcu_geometry::Geometry;
use rcu_node::{CpuSet, Tree};
use rcu_report::Replica;
use rcu_seq::{Fault, Seq};
use std::alloc::Global;

/// Returns two fresh replicas over the trees of two fanouts each. Costs at most a step for each
/// processor.
///
/// Faults: `BadFanout` (18) and `TooManyCpus` (17) as in [`Geometry::new`], each tested for both
/// trees before the next one, `BadLast` (19) as in [`Seq::new`], then `NoMemory` (16). All tests
/// come before an allocation.
pub fn open_pair<const LEAF: u32, const INNER: u32, const LEAF2: u32, const INNER2: u32>(
    alloc: Global,
    cpus: u32,
    last: u64,
) -> Result<PairMachine<Tree<LEAF, INNER>, Tree<LEAF2, INNER2>>, Fault>
    ensures fault { tested_fault result ≡ trees_fault LEAF INNER LEAF2 INNER2 cpus last }
    ensures state { IfOk result (λ pair. pair ≡ pair_at (opened_size cpus last)) }
{
    test_shapes::<LEAF, INNER, LEAF2, INNER2>(cpus)?;
    let _counter = Seq::new(last)?;
    make_pair(alloc, cpus, last)
}

/// Returns two fresh replicas. Only memory can be refused.
fn make_pair<const LEAF: u32, const INNER: u32, const LEAF2: u32, const INNER2: u32>(
    alloc: Global,
    cpus: u32,
    last: u64,
) -> Result<PairMachine<Tree<LEAF, INNER>, Tree<LEAF2, INNER2>>, Fault>
    requires { trees_fault LEAF INNER LEAF2 INNER2 cpus last ≡ None }
    ensures fault { tested_fault result ≡ None }
    ensures state { IfOk result (λ pair. pair ≡ pair_at (opened_size cpus last)) }
{
    let set = CpuSet::new(alloc, cpus)?;
    let a = make_replica::<LEAF, INNER>(alloc, cpus, last)?;
    let b = make_replica::<LEAF2, INNER2>(alloc, cpus, last)?;
    Ok(PairMachine::new(a, b, set))
}

/// Returns a fresh replica. Only memory can be refused.
fn make_replica<const LEAF: u32, const INNER: u32>(
    alloc: Global,
    cpus: u32,
    last: u64,
) -> Result<Replica<Tree<LEAF, INNER>>, Fault>
    requires { opening_refusal LEAF INNER cpus last ≡ None }
    ensures fault { tested_fault result ≡ None }
    ensures state { IfOk result (λ replica. replica ≡ at_first cpus last) }
{
    Replica::new(Tree::<LEAF, INNER>::new(alloc, cpus)?, last)
}

/// Tests the shapes of two trees: the fanouts of both before the number of processors.
fn test_shapes<const LEAF: u32, const INNER: u32, const LEAF2: u32, const INNER2: u32>(
    cpus: u32,
) -> Result<(), Fault>
    ensures { result_err result ≡ shapes_fault LEAF INNER LEAF2 INNER2 cpus }
{
    match (
        test_shape::<LEAF, INNER>(cpus),
        test_shape::<LEAF2, INNER2>(cpus),
    ) {
        (Ok(()), second) => second,
        (first, Ok(())) => first,
        (Err(Fault::BadFanout), _) => Err(Fault::BadFanout),
        (_, second) => second,
    }
}

/// Tests the shape of a tree.
fn test_shape<const LEAF: u32, const INNER: u32>(cpus: u32) -> Result<(), Fault>
    ensures { result_err result ≡ refusal (shape LEAF INNER cpus) }
{
    Geometry::<LEAF, INNER>::new(cpus)?;
    Ok(())
}
