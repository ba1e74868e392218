//! Sets and trees, each made by a second call if the first is refused memory.
ghost use Rattle.std.specs.Prelude.{◌≡◌, false, replicate};
ghost use Rattle.rcu_seq.specs.Tags.{first_tag};

use rcu_node::{Answer, Awaited, CpuSet, Flat, Tree};
use rcu_report::Report;
use rcu_seq::Fault;
use std::alloc::Global;
use std::fmt::Debug;
use std::process::Abort;

/// Compares the outcome of a row with the expected one: a test that fails says its row.
pub fn compare<R: Debug + Drop, T: Debug + Drop + PartialEq>(
    rt: &impl Abort,
    row: R,
    found: T,
    wanted: T,
) {
    assert_eq!(rt; found, wanted, "{row:?}");
}

/// Compares the fault of a call whose growth was refused.
pub fn refused(rt: &impl Abort, fault: Fault) {
    assert_eq!(rt; fault, Fault::NoMemory);
}

/// An empty set.
pub fn empty_set(rt: &impl Abort, alloc: Global, cpus: u32) -> CpuSet
    ensures { result ≡ replicate cpus false }
{
    match CpuSet::new(alloc, cpus) {
        Ok(set) => set,
        Err(fault) => {
            refused(rt, fault);
            CpuSet::new(alloc, cpus).expect(rt, "the second call has memory")
        }
    }
}

/// The set of these processors.
pub fn set_of(rt: &impl Abort, alloc: Global, cpus: u32, members: &[u32]) -> CpuSet {
    let mut set = empty_set(rt, alloc, cpus);
    for cpu in members {
        assert!(rt; *cpu < set.cpus());
        set.insert(*cpu);
    }
    set
}

/// The set of all processors.
pub fn everyone(rt: &impl Abort, alloc: Global, cpus: u32) -> CpuSet {
    let mut set = empty_set(rt, alloc, cpus);
    for cpu in 0..cpus {
        assert!(rt; cpu < set.cpus());
        set.insert(cpu);
    }
    set
}

/// A flat set.
pub fn flat(rt: &impl Abort, alloc: Global, cpus: u32) -> Flat
    ensures tag { ⟦<Flat as Awaited>⟧.tag result ≡ first_tag }
    ensures start_set { ⟦<Flat as Awaited>⟧.start_set result ≡ replicate cpus false }
    ensures awaited { ⟦<Flat as Awaited>⟧.awaited result ≡ replicate cpus false }
{
    match Flat::new(alloc, cpus) {
        Ok(flat) => flat,
        Err(fault) => {
            refused(rt, fault);
            Flat::new(alloc, cpus).expect(rt, "the second call has memory")
        }
    }
}

/// A tree.
pub fn tree<const LEAF: u32, const FAN: u32>(
    rt: &impl Abort,
    alloc: Global,
    cpus: u32,
) -> Tree<LEAF, FAN>
    ensures tag { ⟦<Tree<LEAF, FAN> as Awaited>⟧.tag result ≡ first_tag }
    ensures start_set { ⟦<Tree<LEAF, FAN> as Awaited>⟧.start_set result ≡ replicate cpus false }
    ensures awaited { ⟦<Tree<LEAF, FAN> as Awaited>⟧.awaited result ≡ replicate cpus false }
{
    match Tree::new(alloc, cpus) {
        Ok(tree) => tree,
        Err(fault) => {
            refused(rt, fault);
            Tree::new(alloc, cpus).expect(rt, "the second call has memory")
        }
    }
}
