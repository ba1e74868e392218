//! A walk over the processors of a set, which skips those that are not in it 64 at a time.
ghost use Rattle.std.specs.Prelude.{◌≡◌, ◌<◌, ◌≤◌, ℕ, IfSome, None, false};
ghost use Rattle.rcu_node.specs.CpuSet.{is_in};
ghost use Rattle.rcu_live.specs.NextCpu.{IsNextFrom};

use rcu_node::CpuSet;

/// How many processors are skipped in one step.
const WIDTH: u32 = 64;

/// Returns the first processor of a set from this one on (Linux's `cpumask_next`). Costs one test
/// if the set is empty, two if it is this one, and otherwise a step, and one more for every 64
/// processors that it skips.
pub(crate) fn next_from(set: &CpuSet, from: u32) -> Option<u32>
    ensures first { IfSome result (λ cpu. IsNextFrom set.now from cpu) }
    ensures few { IfSome result (λ cpu. cpu < 4096) }
    ensures none { result ≡ None → (cpu : ℕ) → from ≤ cpu → is_in set.now cpu ≡ false }
{
    if set.count() == 0 {
        return None;
    }
    let end = set.cpus();
    if from < end && set.contains(from) {
        return Some(from);
    }
    let mut cpu = from;
    while cpu < end {
        let flags = set.bits_from(cpu, WIDTH);
        if flags != 0 {
            return Some(cpu + flags.trailing_zeros());
        }
        cpu += WIDTH;
    }
    None
}
