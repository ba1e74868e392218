//! Laws of the formulas, for every tree.
ghost use Rattle.std.specs.Prelude.{◌≡◌, ◌<◌, ◌≤◌, ◌+◌, ◌-◌, ◌==◌, ℕ, count_by};
ghost use Rattle.std.specs.List.{range_with_len};
ghost use Rattle.rcu_geometry.specs.Geometry.{IsLegalShape, Shape, bit_in_parent, bit_of};
ghost use Rattle.rcu_geometry.specs.Geometry.{first_leaf, leaf_of};
ghost use Rattle.rcu_geometry.specs.Geometry.{level_nodes, level_of, level_start, levels, nodes};
ghost use Rattle.rcu_geometry.specs.Geometry.{parent};

/// Two processors with one leaf and one bit are the same.
pub fn each_processor_has_its_own_bit()
    ensures { (s : Shape) (one two : ℕ) → IsLegalShape s → one < s.cpus → two < s.cpus
        → leaf_of s one ≡ leaf_of s two → bit_of s one ≡ bit_of s two → one ≡ two }
{}

/// Two nodes other than the root with one parent and one bit are the same.
pub fn each_node_has_its_own_bit()
    ensures { (s : Shape) (one two : ℕ) → IsLegalShape s
        → 0 < one → one < nodes s → 0 < two → two < nodes s
        → parent s one ≡ parent s two → bit_in_parent s one ≡ bit_in_parent s two → one ≡ two }
{}

/// No node has more children than the fanout of inner nodes.
pub fn a_node_has_at_most_fan_children()
    ensures { (s : Shape) (node : ℕ) → IsLegalShape s
        → count_by (λ child. parent s child == node) (range_with_len 1 (nodes s - 1)) ≤ s.fan }
{}

/// No leaf has more processors than the fanout of leaves.
pub fn a_leaf_has_at_most_leaf_processors()
    ensures { (s : Shape) (node : ℕ) → IsLegalShape s
        → count_by (λ cpu. leaf_of s cpu == node) (range_with_len 0 s.cpus) ≤ s.leaf }
{}

/// The parent of a node other than the root is no leaf, comes before its node and is one level up,
/// and the node's bit there is below the fanout.
pub fn parents_are_inner_nodes()
    ensures inner { (s : Shape) (node : ℕ) → IsLegalShape s → 0 < node → node < nodes s
        → parent s node < first_leaf s }
    ensures before { (s : Shape) (node : ℕ) → IsLegalShape s → 0 < node → node < nodes s
        → parent s node < node }
    ensures one_level_up { (s : Shape) (node : ℕ) → IsLegalShape s → 0 < node → node < nodes s
        → level_of s node ≡ level_of s (parent s node) + 1 }
    ensures bit { (s : Shape) (node : ℕ) → IsLegalShape s → 0 < node → node < nodes s
        → bit_in_parent s node < s.fan }
{}

/// The leaf of a processor is a node of the last level, and the processor's bit there is below the
/// fanout.
pub fn leaves_are_the_last_level()
    ensures from { (s : Shape) (cpu : ℕ) → first_leaf s ≤ leaf_of s cpu }
    ensures below { (s : Shape) (cpu : ℕ) → IsLegalShape s → cpu < s.cpus
        → leaf_of s cpu < nodes s }
    ensures bit { (s : Shape) (cpu : ℕ) → IsLegalShape s → bit_of s cpu < s.leaf }
    ensures level { (s : Shape) (node : ℕ) → first_leaf s ≤ node → node < nodes s
        → level_of s node ≡ levels s - 1 }
{}

/// A node is in one of the levels, and in the one level that begins at it or before it and ends
/// behind it. The root is in level 0.
pub fn each_node_is_in_one_level()
    ensures level { (s : Shape) (node : ℕ) → node < nodes s → level_of s node < levels s }
    ensures from { (s : Shape) (node : ℕ) → node < nodes s
        → level_start s (level_of s node) ≤ node }
    ensures below { (s : Shape) (node : ℕ) → node < nodes s
        → node < level_start s (level_of s node + 1) }
    ensures only { (s : Shape) (node i : ℕ) → i < levels s
        → level_start s i ≤ node → node < level_start s (i + 1) → level_of s node ≡ i }
    ensures root { (s : Shape) → IsLegalShape s → level_of s 0 ≡ 0 }
{}

/// There are one to four levels, the first has one node, each has some, the last too, and all of
/// them together have at most 16,384.
pub fn levels_have_nodes()
    ensures least { (s : Shape) → 1 ≤ levels s }
    ensures most { (s : Shape) → levels s ≤ 4 }
    ensures root { (s : Shape) → IsLegalShape s → level_nodes s 0 ≡ 1 }
    ensures some { (s : Shape) (i : ℕ) → IsLegalShape s → 0 < level_nodes s i }
    ensures leaves { (s : Shape) → IsLegalShape s → first_leaf s < nodes s }
    ensures few { (s : Shape) → IsLegalShape s → nodes s ≤ 16384 }
{}

/// Each node before the first leaf has a child of bit 0.
pub fn each_inner_node_has_a_child()
    ensures { (s : Shape) (node : ℕ) → IsLegalShape s → node < first_leaf s
        → (child : ℕ) × (0 < child) × (child < nodes s)
        × (parent s child ≡ node) × (bit_in_parent s child ≡ 0) }
{}

/// Each leaf has a processor of bit 0.
pub fn each_leaf_has_a_processor()
    ensures { (s : Shape) (node : ℕ) → IsLegalShape s → first_leaf s ≤ node → node < nodes s
        → (cpu : ℕ) × (cpu < s.cpus) × (leaf_of s cpu ≡ node) × (bit_of s cpu ≡ 0) }
{}
