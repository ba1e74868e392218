//! Processors that come and go.
#![tactic(auto)]

pub mod hotplug;
pub mod laws;

pub use hotplug::Hotplug;
