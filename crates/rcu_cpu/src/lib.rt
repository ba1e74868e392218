//! One processor: its read sections, its noted tag and its quiescent states.
#![tactic(auto)]

pub mod cpu_data;
pub mod laws;

pub use cpu_data::CpuData;
