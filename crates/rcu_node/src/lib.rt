//! Which processors a grace period awaits.
#![tactic(auto)]

pub mod awaited;
pub mod cpu_set;
mod emptying;
mod fill;
pub mod flat;
pub mod laws;
mod making;
pub mod merging;
mod node;
mod nodes;
mod period_sets;
mod tagged_sets;
pub mod tree;
mod walk;

pub use awaited::{Answer, Awaited};
pub use cpu_set::CpuSet;
pub use flat::Flat;
pub use tree::Tree;
