//! A list of processors.
ghost use Rattle.std.specs.Prelude.{◌≡◌};

use std::marker::Model;

/// The processors that a reply lists. Contracts see the list of their numbers.
#[derive(Debug, Drop)]
pub struct CpuList {
    cpus: Vec<u32>,
}

impl Model for CpuList {
    ghost use Rattle.std.specs.Prelude.{List, ℕ};

    ghost Value = { List ℕ };

    ghost view = { λ list. list.cpus.items };
}

impl CpuList {
    /// Returns the list of these processors, without a copy.
    pub fn new(cpus: Vec<u32>) -> CpuList
        ensures { result ≡ cpus.items }
    {
        CpuList { cpus }
    }

    /// The processors' numbers.
    pub fn as_slice(&self) -> &[u32]
        ensures { result.now ≡ self.now }
    {
        self.cpus.as_slice()
    }
}
