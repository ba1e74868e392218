//! Laws of sets, reports, merging and masks.
ghost use Rattle.std.specs.Bool.{Decides};
ghost use Rattle.std.specs.Prelude.{◌≡◌, ◌<◌, ◌==◌, ◌&&◌, ◌||◌, ◌++◌, ℕ, Bool, List, true, false};
ghost use Rattle.std.specs.Prelude.{length, nat_lt, not, slice_index, slice_set};
ghost use Rattle.rcu_seq.specs.declared.tag.Tag.{Tag};
ghost use Rattle.rcu_geometry.specs.Geometry.{IsLegalShape, Shape};
ghost use Rattle.rcu_node.specs.CpuSet.{intersection, is_in, listed, size_of, unheard};
ghost use Rattle.rcu_node.specs.Masks.{AreMasks};
ghost use Rattle.rcu_node.specs.Merging.{IsAtLeast, Standing, are_alike, after_merge};
ghost use Rattle.rcu_node.specs.Reports.{awaited_after_reports, was_reported};

/// A listed set has a flag for each processor below the number that it was listed for.
pub fn listed_has_its_length()
    ensures { (n : ℕ) (test : ℕ → Bool) → length (listed n test) ≡ n }
{}

/// A processor is in a listed set exactly if it is below that number and passes the test.
pub fn listed_holds_what_passes()
    ensures { (n : ℕ) (test : ℕ → Bool) (cpu : ℕ)
        → is_in (listed n test) cpu ≡ (nat_lt cpu n && test cpu) }
{}

/// Taking a processor out of a set leaves the others.
pub fn removal_leaves_the_others()
    ensures { (set : List Bool) (cpu other : ℕ)
        → is_in (slice_set set cpu false) other ≡ (is_in set other && not (cpu == other)) }
{}

/// Putting a processor into a set leaves the others.
pub fn insertion_leaves_the_others()
    ensures { (set : List Bool) (cpu other : ℕ) → cpu < length set
        → is_in (slice_set set cpu true) other ≡ (cpu == other || is_in set other) }
{}

/// A set of size 0 has no processor.
pub fn nobody_is_in_a_set_of_size_0()
    ensures { (set : List Bool) (cpu : ℕ) → size_of set ≡ 0 → is_in set cpu ≡ false }
{}

/// After any reports, in any order and of any tags, a processor is awaited exactly if it was in the
/// start set and no report of it had the grace period's number.
pub fn reports_leave_the_unreported()
    ensures { (number : Tag) (set : List Bool) (reports : List (ℕ × Tag)) (cpu : ℕ)
        → is_in (awaited_after_reports number set reports) cpu
        ≡ (is_in set cpu && not (was_reported number cpu reports)) }
{}

/// So the awaited set is the start set less the processors that were heard, and also has a flag for
/// each processor. A departure counts as a report with the grace period's number.
pub fn reports_leave_the_unheard()
    ensures { (number : Tag) (set : List Bool) (reports : List (ℕ × Tag))
        → awaited_after_reports number set reports
        ≡ unheard set (λ cpu. was_reported number cpu reports) }
{}

/// Equal numbers, start sets and sets of heard processors give equal awaited sets. The order of the
/// reports, their repetition, and stale ones among them make no difference.
pub fn equally_heard_await_the_same()
    ensures { (number : Tag) (set : List Bool) (reports others : List (ℕ × Tag))
        → ((cpu : ℕ) → was_reported number cpu reports ≡ was_reported number cpu others)
        → awaited_after_reports number set reports ≡ awaited_after_reports number set others }
{}

/// Two grace periods are alike exactly if their number of processors, tag and start set are equal.
pub fn alike_where_nothing_differs()
    ensures { (x y : Standing)
        → Decides (are_alike x y)
        ((length x.awaited ≡ length y.awaited) × (x.tag ≡ y.tag) × (x.start_set ≡ y.start_set)) }
{}

/// A merge keeps its first grace period alike to every one to which that was alike.
pub fn merged_stays_alike()
    ensures first { (x y z : Standing) → are_alike (after_merge x y) z ≡ are_alike x z }
    ensures second { (x y z : Standing) → are_alike x (after_merge y z) ≡ are_alike x y }
{}

/// Merging either of two alike grace periods into the other gives the same result.
pub fn merging_commutes()
    ensures { (x y : Standing) → are_alike x y ≡ true → after_merge x y ≡ after_merge y x }
{}

/// For three of them it makes no difference which two are merged first.
pub fn merging_associates()
    ensures { (x y z : Standing) → after_merge (after_merge x y) z
        ≡ after_merge x (after_merge y z) }
{}

/// Merging one into itself, or merging it a second time, changes nothing.
pub fn merging_again_changes_nothing()
    ensures itself { (x : Standing) → after_merge x x ≡ x }
    ensures again { (x y : Standing) → after_merge (after_merge x y) y ≡ after_merge x y }
{}

/// The relation "at least" is an order.
pub fn at_least_is_an_order()
    ensures itself { (x : Standing) → IsAtLeast x x }
    ensures chain { (x y z : Standing) → IsAtLeast x y → IsAtLeast y z → IsAtLeast x z }
    ensures both { (x y : Standing) → IsAtLeast x y → IsAtLeast y x → x ≡ y }
{}

/// The merge of two alike grace periods is at least both, and each one that is at least both is at
/// least the merge.
pub fn merged_is_the_least_of_both()
    ensures first { (x y : Standing) → are_alike x y ≡ true → IsAtLeast (after_merge x y) x }
    ensures second { (x y : Standing) → are_alike x y ≡ true → IsAtLeast (after_merge x y) y }
    ensures least { (x y z : Standing) → IsAtLeast z x → IsAtLeast z y
        → IsAtLeast z (after_merge x y) }
{}

/// Merging adds the processors that the other one has heard: it leaves awaited the start set less
/// the processors that either heard, as the reports of both would.
pub fn merging_hears_what_the_other_heard()
    ensures heard { (set : List Bool) (heard other : ℕ → Bool)
        → intersection (unheard set heard) (unheard set other)
        ≡ unheard set (λ cpu. heard cpu || other cpu) }
    ensures reports { (number : Tag) (set : List Bool) (reports others : List (ℕ × Tag))
        → intersection (awaited_after_reports number set reports)
        (awaited_after_reports number set others)
        ≡ awaited_after_reports number set (others ++ reports) }
{}

/// A set of processors has at most one list of masks.
pub fn a_set_has_one_list_of_masks()
    ensures { (s : Shape) (set : List Bool) (masks others : List ℕ) → IsLegalShape s
        → AreMasks s set masks → AreMasks s set others → masks ≡ others }
{}

/// Each set of processors has a list of masks, so each node has just one mask.
pub fn each_set_has_a_list_of_masks()
    ensures { (s : Shape) (set : List Bool) → IsLegalShape s → length set ≡ s.cpus
        → (masks : List ℕ) × AreMasks s set masks }
{}

/// The root's mask is empty exactly if no processor is awaited.
pub fn root_is_empty_where_nobody_is_awaited()
    ensures { (s : Shape) (set : List Bool) (masks : List ℕ) → IsLegalShape s
        → length set ≡ s.cpus → AreMasks s set masks
        → (slice_index masks 0 == 0) ≡ (size_of set == 0) }
{}
