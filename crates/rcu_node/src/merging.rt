//! Merging what two replicas know of one grace period.
ghost use Rattle.std.specs.Prelude.{◌≡◌, ◌<◌, ◌&&◌, true, false, not, if◌then◌else◌};
ghost use Rattle.std.specs.Prelude.{length, slice_set, IfErr, OnErr, OnOk};
ghost use Rattle.rcu_node.specs.CpuSet.{intersection, is_in};
ghost use Rattle.rcu_node.specs.Merging.{are_alike, after_merge, same_set, standing};

use crate::awaited::Awaited;
use rcu_seq::Fault;

/// Merges another replica of the same grace period: the first then awaits only the processors that
/// both await, and keeps its tag and start set. The two may be of different kinds and fanouts, and
/// the grace period may have ended. Costs a step for each processor, and a report for each one that
/// is heard.
///
/// Fault: `NotAlike` (20) if number of processors, tag or start set differ.
pub fn merge<A: Awaited, B: Awaited>(to: &mut A, from: &B) -> Result<(), Fault>
    ensures fault { IfErr result (λ fault. fault ≡ Fault.NotAlike) }
    ensures state { OnOk result (standing (A.tag to.new) (A.start_set to.new) (A.awaited to.new)
        ≡ after_merge (standing (A.tag to.old) (A.start_set to.old) (A.awaited to.old))
        (standing (B.tag from.now) (B.start_set from.now) (B.awaited from.now))) }
    ensures alike { OnOk result (are_alike
        (standing (A.tag to.old) (A.start_set to.old) (A.awaited to.old))
        (standing (B.tag from.now) (B.start_set from.now) (B.awaited from.now)) ≡ true) }
    ensures tag { A.tag to.new ≡ A.tag to.old }
    ensures start_set { A.start_set to.new ≡ A.start_set to.old }
    ensures awaited { OnOk result (
        A.awaited to.new ≡ intersection (A.awaited to.old) (B.awaited from.now)) }
    ensures unlike { OnErr result (are_alike
        (standing (A.tag to.old) (A.start_set to.old) (A.awaited to.old))
        (standing (B.tag from.now) (B.start_set from.now) (B.awaited from.now)) ≡ false) }
    ensures unchanged { OnErr result (to.new ≡ to.old) }
{
    if !began_alike(to, from) {
        return Err(Fault::NotAlike);
    }
    for cpu in 0..to.cpus() {
        report_heard(to, from, cpu);
    }
    Ok(())
}

/// Returns whether two have the same number of processors, tag and start set.
fn began_alike<A: Awaited, B: Awaited>(first: &A, second: &B) -> bool
    ensures { result ≡ are_alike
        (standing (A.tag first.now) (A.start_set first.now) (A.awaited first.now))
        (standing (B.tag second.now) (B.start_set second.now) (B.awaited second.now)) }
{
    first.cpus() == second.cpus() && first.tag() == second.tag() && started_alike(first, second)
}

/// Returns whether two of as many processors have the same start set.
fn started_alike<A: Awaited, B: Awaited>(first: &A, second: &B) -> bool
    requires { length (A.awaited first.now) ≡ length (B.awaited second.now) }
    ensures { result ≡ same_set (A.start_set first.now) (B.start_set second.now) }
{
    for cpu in 0..first.cpus() {
        if first.starts(cpu) != second.starts(cpu) {
            return false;
        }
    }
    true
}

/// Reports a processor to the first if the first awaits it and the second does not.
fn report_heard<A: Awaited, B: Awaited>(to: &mut A, from: &B, cpu: u32)
    requires first { cpu < length (A.awaited to.old) }
    requires second { cpu < length (B.awaited from.now) }
    ensures tag { A.tag to.new ≡ A.tag to.old }
    ensures start_set { A.start_set to.new ≡ A.start_set to.old }
    ensures awaited { A.awaited to.new
        ≡ (if is_in (A.awaited to.old) cpu && not (is_in (B.awaited from.now) cpu)
        then slice_set (A.awaited to.old) cpu false else A.awaited to.old) }
{
    if to.awaits(cpu) && !from.awaits(cpu) {
        to.report(cpu, to.tag());
    }
}
