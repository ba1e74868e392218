//! The entries of a map, in an open section.
ghost use Rattle.std.proofs.Props.{props};
ghost use Rattle.rcu_live.specs.InPart.{seat_part};
ghost use Rattle.rcu_graph.specs.Nodes.{reader_once};
ghost use Rattle.rcu_map.specs.Cursors.{MayGoOn};

use crate::cursor::Cursor;
use crate::entry::Entry;
use crate::map::Map;
use crate::shape::{MapRule, MapSeat};
use rcu_live::{Alone, Within};

/// An iterator over the entries of a map, bucket by bucket, by an open section. It borrows the
/// processor's seat, so that the section can neither close nor read otherwise meanwhile.
#[derive(Drop)]
pub struct Entries<'a, E: Entry<W>, const W: usize, P: Within<MapRule<E, W>> = Alone> {
    pub(crate) map: &'a Map<E, W, P>,
    pub(crate) seat: &'a mut MapSeat<E, W, P>,
    pub(crate) at: Cursor,
    ghost may: { MayGoOn map.now (seat_part P.lens seat.now)
        at } by { Prim.hlevel (props, reader_once) },
}
