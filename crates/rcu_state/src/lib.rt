//! The state of the grace periods and the callbacks.
#![tactic(auto)]

pub mod gp_lists;
pub mod gp_state;

pub use gp_state::{CurrentAnswer, GpState, Turned};
