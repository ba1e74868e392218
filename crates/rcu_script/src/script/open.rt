//! The opening of a script.
ghost use Rattle.std.specs.Prelude.{◌≡◌, [], IfOk};
ghost use Rattle.rcu_core.specs.Core.{Represents, size_at};
ghost use Rattle.rcu_geometry.specs.Opening.{opening_refusal};
ghost use Rattle.rcu_script.specs.Opening.{opened_size};
ghost use Rattle.rcu_seq.specs.Memory.{tested_fault};

use rcu_core::Core;
use rcu_geometry::check_size;
use rcu_node::Tree;
use rcu_seq::Fault;
use std::alloc::Global;

/// Returns a core over the tree of two fanouts, in the situation of the empty history. Costs a step
/// for each processor.
///
/// Faults: `BadFanout` (18), `TooManyCpus` (17) and `BadLast` (19) as in [`check_size`], then
/// `NoMemory` (16). All tests come before an allocation.
pub fn open<const LEAF: u32, const INNER: u32>(
    alloc: Global,
    cpus: u32,
    last: u64,
) -> Result<Core<Tree<LEAF, INNER>, u64>, Fault>
    ensures fault { tested_fault result ≡ opening_refusal LEAF INNER cpus last }
    ensures size { IfOk result (λ core. size_at core ≡ opened_size cpus last) }
    ensures fresh { IfOk result (λ core. Represents core []) }
{
    check_size::<LEAF, INNER>(cpus, last)?;
    let awaited = Tree::<LEAF, INNER>::new(alloc, cpus)?;
    Core::new(alloc, awaited, last)
}
