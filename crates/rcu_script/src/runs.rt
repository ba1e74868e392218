//! The setup of a run, and why it stopped.

use rcu_seq::Fault;
use rcu_text::StreamFault;
use thiserror::Error;

/// The setup of a run's machine. The opening tests the ranges.
#[derive(Clone, Copy, Debug, PartialEq, Eq)]
pub struct Setup {
    /// The number of processors of a leaf.
    pub leaf: u32,
    /// The number of children of an inner node.
    pub inner: u32,
    /// The number of processors of a leaf of the second replica. A script has no second replica,
    /// and repeats `leaf`.
    pub leaf2: u32,
    /// The number of children of an inner node of the second replica. A script repeats `inner`.
    pub inner2: u32,
    /// The number of processors, 1..=4096.
    pub cpus: u32,
    /// The number at which no further grace period begins, a multiple of 4 in 4..=2^62.
    pub last: u64,
}

/// Why a run stopped, with the text that the program prints.
#[derive(Debug, Drop, Error)]
pub enum RunFault {
    /// The engine could not be opened.
    #[error("fault {}", .0.number())]
    Open(Fault),
    /// The reader failed.
    #[error("rcu: read failed")]
    Read,
    /// The writer failed.
    #[error("rcu: write failed")]
    Write,
}

impl From<Fault> for RunFault {
    ghost use Rattle.std.specs.Prelude.{◌≡◌};
    ghost use Rattle.rcu_script.specs.declared.runs.RunFault.TheVariants as run_fault;

    ghost from_gives = { λ fault why. why ≡ run_fault.Open fault };

    fn from(fault: Fault) -> RunFault {
        RunFault::Open(fault)
    }
}

impl From<StreamFault> for RunFault {
    ghost use Rattle.std.specs.Prelude.{◌≡◌};
    ghost use Rattle.rcu_script.specs.RunEnds.{fault_of};

    ghost from_gives = { λ fault why. why ≡ fault_of fault };

    fn from(fault: StreamFault) -> RunFault {
        match fault {
            StreamFault::Read => RunFault::Read,
            StreamFault::Write => RunFault::Write,
        }
    }
}
