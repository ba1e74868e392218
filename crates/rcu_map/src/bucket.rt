//! The buckets that keys belong to.
ghost use Rattle.std.specs.Prelude.{◌≡◌, ◌<◌};
ghost use Rattle.rcu_map.specs.Keys.{bucket_of, multiplier_of};

use rcu_graph::Plan;

/// 2^64 divided by the golden ratio: the multiplier of the keys in a map of seed 0 (Knuth).
const GOLDEN: u64 = 0x9E37_79B9_7F4A_7C15;

/// Returns the odd number by which a map of this seed multiplies its keys.
pub(crate) fn multiplier_of(seed: u64) -> u64
    ensures { result ≡ multiplier_of seed }
{
    GOLDEN.wrapping_add(seed.wrapping_mul(2))
}

/// Returns the bucket of a key: the key times the map's multiplier, as a share of 2^64
/// (multiplicative hashing, universal if the multiplier is drawn at random).
pub(crate) fn bucket_of(plan: Plan, key: u64) -> usize
    requires some { 0 < plan.roots }
    ensures is { result ≡ bucket_of plan.roots plan.seed key }
    ensures inside { result < plan.roots }
{
    let mixed = key.wrapping_mul(plan.seed);
    ((u128::from(mixed) * plan.roots as u128) >> 64) as usize
}
