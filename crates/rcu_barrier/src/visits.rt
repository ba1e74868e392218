//! Which processors a barrier visited.
ghost use Rattle.std.specs.Prelude.{◌≡◌, ◌<◌, ◌≤◌, true, false, IfOk, IfErr};
ghost use Rattle.std.specs.Prelude.{length, replicate, slice_index_or, slice_set};
ghost use Rattle.rcu_barrier.specs.Lists.{unvisited};

use rcu_seq::Fault;
use std::alloc::Global;
use std::marker::Model;

/// A flag for each processor, set once it is visited. Contracts see the list of flags.
#[derive(Drop)]
pub(crate) struct Visits {
    /// The flags.
    flags: Vec<bool>,
    /// How many are not set.
    left: u64,
}

impl Model for Visits {
    ghost use Rattle.std.specs.Prelude.{◌≡◌, List, Bool};
    ghost use Rattle.rcu_barrier.specs.Lists.{unvisited};

    ghost Value = { List Bool };

    ghost view = { λ v. v.flags.items };

    ghost invariant = { λ v. v.left ≡ unvisited v.flags.items };
}

impl Visits {
    /// Returns flags with each processor visited.
    ///
    /// Fault: `NoMemory` (16).
    #[tactic(auto, using(crate::proofs::Markers::unvisited_all))]
    pub(crate) fn new(alloc: Global, cpus: u32) -> Result<Visits, Fault>
        ensures fault { IfErr result (λ fault. fault ≡ Fault.NoMemory) }
        ensures state { IfOk result (λ visits. visits ≡ replicate cpus true) }
    {
        let Ok(flags) = vec![in alloc; true; cpus as usize] else {
            return Err(Fault::NoMemory);
        };
        Ok(Visits { flags, left: 0 })
    }

    /// Returns whether the processor is visited.
    pub(crate) fn contains(&self, cpu: u32) -> bool
        requires { cpu < length self.now }
        ensures { result ≡ slice_index_or self.now cpu false }
    {
        self.flags[cpu as usize]
    }

    /// Marks an unvisited processor as visited.
    #[tactic(auto, using(crate::proofs::Markers::unvisited_set))]
    pub(crate) fn insert(&mut self, cpu: u32)
        requires { (cpu < length self.old) × (slice_index_or self.old cpu false ≡ false) }
        ensures { self.new ≡ slice_set self.old cpu true }
    {
        self.flags[cpu as usize] = true;
        self.left -= 1;
    }

    /// Marks each processor as unvisited.
    #[tactic(auto, using(crate::proofs::Markers::unvisited_none))]
    pub(crate) fn clear(&mut self)
        ensures { self.new ≡ replicate (length self.old) false }
    {
        self.left = self.flags.len() as u64;
        self.flags.fill(false);
    }

    /// Returns how many processors are unvisited.
    pub(crate) fn left(&self) -> u64
        ensures { result ≡ unvisited self.now }
    {
        self.left
    }
}
