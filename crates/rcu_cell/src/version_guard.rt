//! A loaded version, lent to an open section.
ghost use Rattle.std.proofs.Props.{props};
ghost use Rattle.rcu_live.specs.InPart.{seat_part};
ghost use Rattle.rcu_graph.specs.Nodes.{reader_once};
ghost use Rattle.rcu_cell.specs.Cell.{ReadsSlot};

use crate::cell::Cell;
use crate::shape::{CellRule, CellSeat, Version};
use rcu_live::{Alone, Within};

/// The version that an open section has loaded. It borrows the processor's seat, so that the
/// section can neither close nor load again while the version is in use.
#[derive(Drop)]
pub struct VersionGuard<'a, F: Version<W>, const W: usize, P: Within<CellRule<F, W>> = Alone> {
    pub(crate) cell: &'a Cell<F, W, P>,
    pub(crate) seat: &'a mut CellSeat<F, W, P>,
    pub(crate) slot: usize,
    ghost reads: { ReadsSlot cell.now (seat_part P.lens seat.now)
        slot } by { Prim.hlevel (props, reader_once) },
}
