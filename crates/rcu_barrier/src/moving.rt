//! New lists, and the move of one to the first.
ghost use Rattle.std.specs.Prelude.{◌≡◌, ◌<◌, ◌&&◌, ◌∷◌, [], Some, length, map, not, replicate};
ghost use Rattle.std.specs.Prelude.{IfOk, IfErr, OnOk, OnErr};
ghost use Rattle.rcu_seq.specs.Fault.{first_fault};
ghost use Rattle.rcu_cblist.specs.SegList.{after_renumber, as_it_leaves, callbacks, is_empty};
ghost use Rattle.rcu_barrier.specs.Lists.{RoomsGrow, has_room_at, items_in, list_at};
ghost use Rattle.rcu_barrier.specs.Lists.{lists_after_move, rooms_in};

use rcu_cblist::SegList;
use rcu_seq::Fault;
use std::alloc::Global;

/// Returns this number of empty lists.
///
/// Fault: `NoMemory` (16).
#[tactic(auto, using(std::proofs::lemmas::List::replicate_more))]
pub(crate) fn empty_lists<T: Drop>(alloc: Global, cpus: u32) -> Result<Vec<SegList<T>>, Fault>
    ensures fault { IfErr result (λ fault. fault ≡ Fault.NoMemory) }
    ensures state { IfOk result (λ lists. items_in lists.items ≡ replicate cpus []) }
{
    let Ok(mut lists) = Vec::with_capacity(alloc, cpus as usize) else {
        return Err(Fault::NoMemory);
    };
    for _ in 0..cpus {
        let Ok(()) = lists.push(SegList::new(alloc)) else {
            unreachable!()
        };
    }
    Ok(lists)
}

/// Takes the number from each waiting callback, in each of the lists.
pub(crate) fn renumber_each<T: Drop>(lists: &mut [SegList<T>])
    ensures items { items_in lists.new ≡ map after_renumber (items_in lists.old) }
    ensures rooms { rooms_in lists.new ≡ rooms_in lists.old }
{
    for list in lists.iter_mut() {
        list.renumber();
    }
}

/// Moves a list to the first one, with a marker behind it if a visit is owed. Returns how many
/// callbacks moved, and whether a marker did.
///
/// Fault `NoMemory` (16), only if the list is not empty, and the first one has no room for its
/// items.
pub(crate) fn move_to_first<T: Drop>(
    lists: &mut [SegList<T>],
    from: usize,
    owed: bool,
) -> Result<(u64, bool), Fault>
    requires { (0 < from) × (from < length lists.old) }
    ensures answer { IfOk result (λ answer. answer
        ≡ (
          length (callbacks (list_at (items_in lists.old) from)),
          owed && not (is_empty (list_at (items_in lists.old) from)),
        )) }
    ensures fault { IfErr result (λ fault. first_fault
        ((
          not (is_empty (list_at (items_in lists.old) from))
              && not (has_room_at (items_in lists.old) (rooms_in lists.old) 0
              (length (as_it_leaves (list_at (items_in lists.old) from) owed))),
          Fault.NoMemory,
        ) ∷ [])
        ≡ Some fault) }
    ensures state { OnOk result (items_in lists.new
        ≡ lists_after_move (items_in lists.old) from owed) }
    ensures unchanged { OnErr result (items_in lists.new ≡ items_in lists.old) }
    ensures room { RoomsGrow (rooms_in lists.old) 0 (rooms_in lists.new) }
{
    let (first, others) = lists.split_at_mut(1);
    let list = &mut others[from - 1];
    let count = list.count();
    let marked = owed && !list.is_empty();
    list.move_into(&mut first[0], owed)?;
    Ok((count, marked))
}
