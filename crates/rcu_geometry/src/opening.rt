//! The sizes that an engine is opened with.
ghost use Rattle.std.specs.Prelude.{◌≡◌, ◌≢◌, ◌<◌, ◌≤◌, IfErr, OnOk};
ghost use Rattle.std.specs.Result.{result_err};
ghost use Rattle.rcu_geometry.specs.Opening.{opening_refusal};

use crate::geometry::Geometry;
use rcu_seq::{Fault, Seq};

/// Refuses a size that no engine over the tree of these fanouts can have. It tests the shape first,
/// and then the last number. It takes no memory.
///
/// Faults: `BadFanout` (18) and `TooManyCpus` (17) as in [`Geometry::new`], and then `BadLast` (19)
/// as in [`Seq::new`].
pub fn check_size<const LEAF: u32, const FAN: u32>(cpus: u32, last: u64) -> Result<(), Fault>
    ensures fault { result_err result ≡ opening_refusal LEAF FAN cpus last }
    ensures some { OnOk result (0 < cpus) }
    ensures few { OnOk result (cpus ≤ 4096) }
    ensures memory { IfErr result (λ fault. fault ≢ Fault.NoMemory) }
{
    Geometry::<LEAF, FAN>::new(cpus)?;
    Seq::new(last)?;
    Ok(())
}
