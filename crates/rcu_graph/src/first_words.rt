//! The words of a graph at first.
ghost use Rattle.std.specs.Prelude.{◌≡◌, ◌≢◌, ◌+◌, ◌*◌, ◌<◌, ◌≤◌, ℕ, IfOk, length, slice_index};
ghost use Rattle.rcu_graph.specs.Nodes.{first_place, place_of};
ghost use Rattle.rcu_graph.specs.Opening.{AreFirst, IsSized};

use crate::places::{FIRST, place_of};
use crate::plan::Plan;
use crate::rule::Shape;
use std::alloc::{AllocError, Global};

/// Stores a root's first words from a place on.
fn store_root<F: Shape>(behind: &mut Vec<u64>, plan: Plan, root: usize, place: usize)
    requires root { root < plan.roots }
    requires room { place + plan.words ≤ length behind.old.items }
    ensures length { length behind.new.items ≡ length behind.old.items }
    ensures stored { (k : ℕ) → k < plan.words →
        slice_index behind.new.items (place + k) ≡ slice_index (F.first plan root) k }
    ensures others { (p : ℕ) → ((k : ℕ) → k < plan.words → p ≢ place + k) →
        slice_index behind.new.items p ≡ slice_index behind.old.items p }
{
    for word in 0..plan.words {
        behind[place + word] = F::first_word(plan, root, word);
    }
}

/// Returns the words of the nodes at first: the roots have their words, and each link and each
/// other word is 0.
pub(crate) fn first_words<F: Shape>(alloc: Global, plan: Plan) -> Result<Vec<u64>, AllocError>
    requires { IsSized plan }
    ensures length { IfOk result (λ behind. length behind.items
        ≡ first_place + (plan.links + plan.words) * plan.nodes) }
    ensures first { IfOk result (λ behind.
        AreFirst (F.first plan) plan.roots plan.roots plan.links plan.words behind.items) }
{
    let row = plan.links + plan.words;
    let mut behind = vec![in alloc; 0u64; FIRST + row * plan.nodes]?;
    for root in 0..plan.roots {
        store_root::<F>(&mut behind, plan, root, place_of(plan, root, plan.links));
    }
    Ok(behind)
}
