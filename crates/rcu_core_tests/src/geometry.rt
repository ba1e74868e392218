//! The shapes of some trees, with every public call.

use crate::made::compare;
use rcu_geometry::Geometry;
use rcu_seq::Fault;
use std::process::Abort;

/// The shape of a tree that is to be.
fn geometry<const LEAF: u32, const FAN: u32>(rt: &impl Abort, cpus: u32) -> Geometry<LEAF, FAN> {
    Geometry::new(cpus).expect(rt, "there is such a tree")
}

/// Compares the first node of each level, how many nodes it has, and the number of all nodes.
fn has_levels<const LEAF: u32, const FAN: u32>(
    rt: &impl Abort,
    cpus: u32,
    wanted: &[(u32, u32)],
    nodes: u32,
) {
    let geometry = geometry::<LEAF, FAN>(rt, cpus);
    let found = (
        geometry.cpus(),
        geometry.levels() as usize,
        geometry.nodes(),
    );
    compare(
        rt,
        "processors, levels and nodes",
        found,
        (cpus, wanted.len(), nodes),
    );
    for (level, wanted) in (0..geometry.levels()).zip(wanted) {
        assert!(rt; level < geometry.levels());
        let said = (geometry.level_start(level), geometry.level_nodes(level));
        compare(rt, level, said, *wanted);
    }
}

/// Compares the fault for a tree of this shape.
fn refuses<const LEAF: u32, const FAN: u32>(rt: &impl Abort, cpus: u32, wanted: Fault) {
    match Geometry::<LEAF, FAN>::new(cpus) {
        Ok(_) => panic!(rt; "there is such a tree"),
        Err(fault) => compare(rt, cpus, fault, wanted),
    }
}

#[test]
fn tree_shapes(rt: HostRuntime) {
    has_levels::<2, 2>(&rt, 5, &[(0, 1), (1, 2), (3, 3)], 6);
    has_levels::<2, 3>(&rt, 5, &[(0, 1), (1, 3)], 4);
    has_levels::<16, 64>(&rt, 4096, &[(0, 1), (1, 4), (5, 256)], 261);
    has_levels::<64, 64>(&rt, 4096, &[(0, 1), (1, 64)], 65);
}

#[test]
fn shape_limits(rt: HostRuntime) {
    has_levels::<2, 2>(&rt, 16, &[(0, 1), (1, 2), (3, 4), (7, 8)], 15);
    refuses::<2, 2>(&rt, 17, Fault::TooManyCpus);
    has_levels::<2, 3>(&rt, 54, &[(0, 1), (1, 3), (4, 9), (13, 27)], 40);
    refuses::<2, 3>(&rt, 55, Fault::TooManyCpus);
    has_levels::<64, 2>(&rt, 512, &[(0, 1), (1, 2), (3, 4), (7, 8)], 15);
    refuses::<64, 2>(&rt, 513, Fault::TooManyCpus);
    has_levels::<2, 64>(&rt, 4096, &[(0, 1), (1, 32), (33, 2048)], 2081);
    has_levels::<16, 64>(&rt, 16, &[(0, 1)], 1);
    has_levels::<16, 64>(&rt, 17, &[(0, 1), (1, 2)], 3);
    has_levels::<2, 2>(&rt, 1, &[(0, 1)], 1);
    has_levels::<64, 64>(&rt, 1, &[(0, 1)], 1);
    refuses_fanouts(&rt, 0);
    refuses_fanouts(&rt, 1);
    refuses_fanouts(&rt, 4096);
    refuses_cpus(&rt, 0);
    refuses_cpus(&rt, 4097);
}

/// Compares the fault for fanouts below 2 or above 64.
fn refuses_fanouts(rt: &impl Abort, cpus: u32) {
    refuses::<1, 2>(rt, cpus, Fault::BadFanout);
    refuses::<65, 2>(rt, cpus, Fault::BadFanout);
    refuses::<2, 1>(rt, cpus, Fault::BadFanout);
    refuses::<2, 65>(rt, cpus, Fault::BadFanout);
}

/// Compares the fault for a tree of this many processors.
fn refuses_cpus(rt: &impl Abort, cpus: u32) {
    refuses::<2, 2>(rt, cpus, Fault::TooManyCpus);
    refuses::<64, 64>(rt, cpus, Fault::TooManyCpus);
}

/// Compares each node's parent with its bit there.
fn has_parents<const LEAF: u32, const FAN: u32>(
    rt: &impl Abort,
    geometry: &Geometry<LEAF, FAN>,
    wanted: &[(Option<u32>, Option<u32>)],
) {
    compare(rt, "nodes", geometry.nodes() as usize, wanted.len());
    for (node, wanted) in (0..geometry.nodes()).zip(wanted) {
        assert!(rt; node < geometry.nodes());
        let said = (geometry.parent(node), geometry.bit_in_parent(node));
        compare(rt, node, said, *wanted);
    }
}

/// Compares each processor's leaf with its bit there.
fn has_leaves<const LEAF: u32, const FAN: u32>(
    rt: &impl Abort,
    geometry: &Geometry<LEAF, FAN>,
    wanted: &[(u32, u32)],
) {
    compare(rt, "processors", geometry.cpus() as usize, wanted.len());
    for (cpu, wanted) in (0..geometry.cpus()).zip(wanted) {
        assert!(rt; cpu < geometry.cpus());
        compare(
            rt,
            cpu,
            (geometry.leaf_of(cpu), geometry.bit_of(cpu)),
            *wanted,
        );
    }
}

#[test]
fn places(rt: HostRuntime) {
    let geometry = geometry::<2, 2>(&rt, 5);
    has_parents(
        &rt,
        &geometry,
        &[
            (None, None),
            (Some(0), Some(0)),
            (Some(0), Some(1)),
            (Some(1), Some(0)),
            (Some(1), Some(1)),
            (Some(2), Some(0)),
        ],
    );
    has_leaves(&rt, &geometry, &[(3, 0), (3, 1), (4, 0), (4, 1), (5, 0)]);
}
