//! The sizes of a cell.
use crate::cell::Any;
use crate::compare::compare;
use rcu_cell::{Cell, NotOpened};
use rcu_seq::Fault;
use std::alloc::Global;

/// Opens a cell of this many processors and slots. Answers for how many it deals seats, by a second
/// call if the first is refused memory.
fn opens(alloc: Global, cpus: u32, last: u64, slots: usize) -> Result<usize, NotOpened> {
    let mut opened = Cell::<Any, 1>::open::<64, 64, u64>(alloc, cpus, last, slots, &[7]);
    if matches!(opened, Err(NotOpened::Fault(Fault::NoMemory))) {
        opened = Cell::open(alloc, cpus, last, slots, &[7]);
    }
    Ok(opened?.seats.len())
}

/// Numbers of processors, last numbers and slots, and what comes of opening a cell of them.
static SIZES: [(u32, u64, usize, Result<usize, NotOpened>); 9] = [
    (1, 4, 2, Ok(1)),
    (4096, 1 << 62, 2, Ok(4096)),
    (0, 6, 1, Err(NotOpened::BadSizes)),
    (1, 4, 1 << 31, Err(NotOpened::BadSizes)),
    (1, 4, usize::MAX, Err(NotOpened::BadSizes)),
    (0, 6, 2, Err(NotOpened::Fault(Fault::TooManyCpus))),
    (4097, 4, 2, Err(NotOpened::Fault(Fault::TooManyCpus))),
    (4096, 6, 2, Err(NotOpened::Fault(Fault::BadLast))),
    (
        4096,
        (1 << 62) + 4,
        2,
        Err(NotOpened::Fault(Fault::BadLast)),
    ),
];

#[test]
fn sizes(rt: HostRuntime) {
    for (cpus, last, slots, wanted) in &SIZES {
        let found = opens(rt.alloc(), *cpus, *last, *slots);
        compare(&rt, (*cpus, *last, *slots), found, *wanted);
    }
}
