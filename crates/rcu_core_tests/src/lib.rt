//! Tests of the crates of the event core, from the counter of grace periods to the core itself.
#![tactic(auto)]

#[cfg(test)]
mod barrier;
#[cfg(test)]
mod cblist;
pub mod client;
#[cfg(test)]
mod cpu;
#[cfg(test)]
mod draw;
#[cfg(test)]
mod events;
#[cfg(test)]
mod geometry;
#[cfg(test)]
mod hotplug;
#[cfg(test)]
mod made;
#[cfg(test)]
mod node;
#[cfg(test)]
mod path;
#[cfg(test)]
mod report;
#[cfg(test)]
mod seq;
