//! All processors' lists of callbacks, and the barrier over them.
#![tactic(auto)]

pub mod definition_laws;
pub mod laws;
pub mod lists;
mod moving;
pub mod progress;
pub mod run_laws;
mod visits;

pub use lists::{BarrierState, Lists, Visit};
