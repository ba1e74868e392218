//! Reports of quiescent states.
#![tactic(auto)]

pub mod batch;
pub mod laws;
pub mod replica;

pub use batch::{Batch, Report};
pub use replica::Replica;
