//! Scripts and pairs of replicas, from bytes to bytes.
#![tactic(auto)]

pub mod listed;
pub mod offered;
pub mod pair;
pub mod runs;
pub mod script;

pub use pair::run::run_pair;
pub use runs::{RunFault, Setup};
pub use script::run::run_script;
