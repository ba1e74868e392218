//! The masks of trees, node by node, and each call of a tree beside the same call of a flat set.
ghost use Rattle.std.specs.Prelude.{◌<◌};

use super::{begin, insert, report};
use crate::draw::Draw;
use crate::made::{compare, empty_set, flat, tree};
use rcu_geometry::Geometry;
use rcu_node::{Answer, Awaited, CpuSet, Flat, Tree};
use rcu_report::Report;
use rcu_seq::Tag;
use std::alloc::Global;
use std::process::Abort;

/// The most nodes of a tree that is drawn here: 64 leaves and a root.
const MOST_NODES: usize = 65;

/// A set of awaited processors, which may show masks.
trait Shown {
    /// Compares the masks of each node with those that the definition gives for these sets.
    fn compare_nodes<R: Abort>(&self, rt: &R, awaited: &CpuSet, start: &CpuSet);
}

impl Shown for Flat {
    fn compare_nodes<R: Abort>(&self, _rt: &R, _awaited: &CpuSet, _start: &CpuSet) {}
}

impl<const LEAF: u32, const FAN: u32> Shown for Tree<LEAF, FAN> {
    fn compare_nodes<R: Abort>(&self, rt: &R, awaited: &CpuSet, start: &CpuSet) {
        let geometry = Geometry::<LEAF, FAN>::new(self.cpus()).expect(rt, "there is such a tree");
        assert_eq!(rt; self.nodes(), geometry.nodes());
        let (now, first) = (masks_of(&geometry, awaited), masks_of(&geometry, start));
        for node in 0..self.nodes() {
            assert!(rt; node < self.nodes());
            let found = (self.qsmask(node), self.qsmaskinit(node), self.grpmask(node));
            let (current, initial) = (mask_at(&now, node), mask_at(&first, node));
            let wanted = (current, initial, own_bit(&geometry, node));
            compare(rt, node, found, wanted);
        }
    }
}

/// A mask of the list.
fn mask_at(masks: &[u64], node: u32) -> u64 {
    masks.get(node as usize).copied().unwrap_or(0)
}

/// Sets bits of a mask of the list.
fn set_bits(masks: &mut [u64], node: u32, bits: u64) {
    if let Some(mask) = masks.get_mut(node as usize) {
        *mask |= bits;
    }
}

/// The masks of a set: the bits of its processors in the leaves, and above them those of the nodes
/// that are not empty.
fn masks_of<const LEAF: u32, const FAN: u32>(
    geometry: &Geometry<LEAF, FAN>,
    set: &CpuSet,
) -> [u64; MOST_NODES] {
    let mut masks = [0; MOST_NODES];
    for cpu in 0..geometry.cpus() {
        if cpu < geometry.cpus() && cpu < set.cpus() && set.contains(cpu) {
            let bit = 1u64.checked_shl(geometry.bit_of(cpu)).unwrap_or(0);
            set_bits(&mut masks, geometry.leaf_of(cpu), bit);
        }
    }
    for node in (1..geometry.nodes()).rev() {
        if node < geometry.nodes() && mask_at(&masks, node) != 0 {
            let parent = geometry.parent(node).unwrap_or(0);
            set_bits(&mut masks, parent, own_bit(geometry, node));
        }
    }
    masks
}

/// A node's bit in its parent, 0 at the root.
fn own_bit<const LEAF: u32, const FAN: u32>(geometry: &Geometry<LEAF, FAN>, node: u32) -> u64 {
    if node >= geometry.nodes() {
        return 0;
    }
    match geometry.bit_in_parent(node) {
        Some(bit) => 1u64.checked_shl(bit).unwrap_or(0),
        None => 0,
    }
}

/// A set of a drawn number of processors.
fn drawn_set<R: Abort>(rt: &R, alloc: Global, draw: &mut Draw, cpus: u32) -> CpuSet {
    let mut set = empty_set(rt, alloc, cpus);
    for cpu in 0..cpus {
        assert!(rt; cpu < set.cpus());
        if draw.below(3) > 0 {
            set.insert(cpu);
        }
    }
    set
}

/// Compares both sets for each processor.
fn compare_each<A: Awaited, R: Abort>(rt: &R, shown: &A, flat: &Flat) {
    for cpu in 0..flat.cpus() {
        assert!(rt; cpu < flat.cpus() && cpu < shown.cpus());
        let found = (shown.awaits(cpu), shown.starts(cpu));
        compare(rt, cpu, found, (flat.awaits(cpu), flat.starts(cpu)));
    }
}

/// Adds a processor, if `wanted`.
fn put(set: &mut CpuSet, cpu: u32, wanted: bool) {
    if wanted && cpu < set.cpus() {
        set.insert(cpu);
    }
}

/// The processors that are awaited, and those that were at the start.
fn sets_of<R: Abort>(rt: &R, alloc: Global, flat: &Flat) -> (CpuSet, CpuSet) {
    let mut awaited = empty_set(rt, alloc, flat.cpus());
    let mut start = empty_set(rt, alloc, flat.cpus());
    for cpu in 0..flat.cpus() {
        if cpu < flat.cpus() {
            put(&mut awaited, cpu, flat.awaits(cpu));
            put(&mut start, cpu, flat.starts(cpu));
        }
    }
    (awaited, start)
}

/// Compares all answers for each processor with those of the flat set, and then the masks.
fn compare_sets<A: Awaited + Shown, R: Abort>(rt: &R, alloc: Global, shown: &A, flat: &Flat) {
    compare(
        rt,
        "processors and tag",
        (shown.cpus(), shown.tag()),
        (flat.cpus(), flat.tag()),
    );
    assert_eq!(rt;
        (shown.count(), shown.is_empty()),
        (flat.count(), flat.is_empty())
    );
    compare_each(rt, shown, flat);
    compare_masks(rt, alloc, shown, flat);
}

/// Compares the masks with those of the flat set.
fn compare_masks<A: Shown, R: Abort>(rt: &R, alloc: Global, shown: &A, flat: &Flat) {
    let (awaited, start) = sets_of(rt, alloc, flat);
    shown.compare_nodes(rt, &awaited, &start);
}

/// Begins a grace period in both, if the set and the number are fit for it.
fn begin_both<A: Awaited>(shown: &mut A, flat: &mut Flat, now: Tag, set: &CpuSet) -> bool {
    if set.cpus() != shown.cpus() || set.cpus() != flat.cpus() || now.number % 4 != 1 {
        return false;
    }
    shown.begin(now, set);
    flat.begin(now, set);
    true
}

/// Makes the report of a row to both, and compares the answers.
fn answer_alike<A: Awaited, R: Abort>(
    rt: &R,
    row: usize,
    shown: &mut A,
    flat: &mut Flat,
    report: Report,
) {
    assert!(rt; report.cpu < flat.cpus() && report.cpu < shown.cpus());
    let wanted = flat.report(report.cpu, report.tag);
    compare(
        rt,
        (row, report),
        shown.report(report.cpu, report.tag),
        wanted,
    );
}

/// The tag of the latest grace period.
const LATEST: Tag = Tag {
    epoch: 1,
    number: 5,
};

/// The tags of the grace periods, across a renumbering.
static PERIODS: [Tag; 5] = [
    Tag {
        epoch: 0,
        number: 1,
    },
    Tag {
        epoch: 0,
        number: 5,
    },
    Tag {
        epoch: 0,
        number: 9,
    },
    Tag {
        epoch: 1,
        number: 1,
    },
    LATEST,
];

/// Grace periods of drawn sets, with drawn reports, repeats and stale ones, call by call beside a
/// flat set; the last grace period is reported to its end.
fn beside_flat<A: Awaited + Shown, R: Abort>(rt: &R, alloc: Global, mut shown: A, reports: u32) {
    let cpus = shown.cpus();
    let mut flat = flat(rt, alloc, cpus);
    let mut draw = Draw(88_172_645_463_325_252);
    compare_sets(rt, alloc, &shown, &flat);
    for now in &PERIODS {
        period_beside(rt, alloc, &mut shown, &mut flat, &mut draw, *now, reports);
    }
    for cpu in 0..cpus {
        let report = Report { cpu, tag: LATEST };
        answer_alike(rt, cpu as usize, &mut shown, &mut flat, report);
    }
    compare_sets(rt, alloc, &shown, &flat);
    assert!(rt; shown.is_empty());
}

/// A grace period of a drawn set in both, with this many drawn reports.
fn period_beside<A: Awaited + Shown, R: Abort>(
    rt: &R,
    alloc: Global,
    shown: &mut A,
    flat: &mut Flat,
    draw: &mut Draw,
    now: Tag,
    reports: u32,
) {
    let set = drawn_set(rt, alloc, draw, shown.cpus());
    assert!(rt; begin_both(shown, flat, now, &set));
    compare_sets(rt, alloc, shown, flat);
    for row in 0..reports {
        report_both(rt, row as usize, shown, flat, draw, now);
        compare_sets(rt, alloc, shown, flat);
    }
}

/// A drawn report of the number or of the next one, of the epoch or of the one beside it, to both,
/// which have to answer the same.
fn report_both<A: Awaited, R: Abort>(
    rt: &R,
    row: usize,
    shown: &mut A,
    flat: &mut Flat,
    draw: &mut Draw,
    now: Tag,
) {
    let cpus = shown.cpus();
    assert!(rt; cpus > 0);
    let cpu = draw.below(u64::from(cpus)) as u32;
    let tag = Tag {
        epoch: now.epoch ^ (draw.below(8) / 7),
        number: now.number.saturating_add(4 * (draw.below(4) / 3)),
    };
    answer_alike(rt, row, shown, flat, Report { cpu, tag });
}

#[test]
fn masks_level_by_level(rt: HostRuntime) {
    let mut tree = tree::<2, 2>(&rt, rt.alloc(), 5);
    let mut all = empty_set(&rt, rt.alloc(), 5);
    insert(
        &rt,
        &mut all,
        &[(0, true), (1, true), (2, true), (3, true), (4, true)],
    );
    begin(&rt, &mut tree, 1, &all);
    masks(&rt, &tree, &START);
    report_masks(&rt, &mut tree);
}

/// Processors in the order of their reports, with the answers and the masks of six nodes then.
static REPORTS: [(u32, Answer, [u64; 6]); 5] = [
    (4, Answer::Taken, [1, 3, 0, 3, 3, 0]),
    (0, Answer::Taken, [1, 3, 0, 2, 3, 0]),
    (1, Answer::Taken, [1, 2, 0, 0, 3, 0]),
    (2, Answer::Taken, [1, 2, 0, 0, 2, 0]),
    (3, Answer::Last, [0; 6]),
];

/// Makes the reports, and compares the masks after each.
fn report_masks<R: Abort>(rt: &R, tree: &mut Tree<2, 2>) {
    for (cpu, answer, wanted) in &REPORTS {
        report(rt, tree, &[(*cpu, 1, *answer)]);
        masks(rt, tree, wanted);
    }
}

/// The masks of six nodes at the start of a grace period.
static START: [u64; 6] = [3, 3, 1, 3, 3, 1];

/// The bit of each of them in its parent.
static GROUP: [u64; 6] = [0, 1, 2, 1, 2, 1];

/// Compares the masks of six nodes: those of now, and those that stay.
fn masks<R: Abort>(rt: &R, tree: &Tree<2, 2>, wanted: &[u64; 6]) {
    assert_eq!(rt; tree.nodes(), 6);
    for node in 0..6u32 {
        assert!(rt; node < tree.nodes());
        let place = node as usize;
        let found = (tree.qsmask(node), tree.qsmaskinit(node), tree.grpmask(node));
        compare(rt, node, found, (wanted[place], START[place], GROUP[place]));
    }
}

#[test]
fn flat_and_trees_beside_flat(rt: HostRuntime) {
    beside_flat(&rt, rt.alloc(), flat(&rt, rt.alloc(), 5), 20);
    tree_beside_flat::<64, 64, _>(&rt, rt.alloc(), 1, 5);
    tree_beside_flat::<16, 64, _>(&rt, rt.alloc(), 16, 40);
    tree_beside_flat::<2, 3, _>(&rt, rt.alloc(), 5, 20);
    tree_beside_flat::<3, 2, _>(&rt, rt.alloc(), 7, 30);
    tree_beside_flat::<2, 2, _>(&rt, rt.alloc(), 5, 20);
    tree_beside_flat::<2, 2, _>(&rt, rt.alloc(), 16, 40);
    tree_beside_flat::<2, 3, _>(&rt, rt.alloc(), 54, 60);
}

/// A tree of this many processors, with this many reports in each grace period.
fn tree_beside_flat<const LEAF: u32, const FAN: u32, R: Abort>(
    rt: &R,
    alloc: Global,
    cpus: u32,
    reports: u32,
) {
    beside_flat(rt, alloc, tree::<LEAF, FAN>(rt, alloc, cpus), reports);
}

#[test]
fn full_tree_beside_flat(rt: HostRuntime) {
    tree_beside_flat::<64, 64, _>(&rt, rt.alloc(), 4096, 60);
}
