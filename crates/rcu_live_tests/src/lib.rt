//! Tests of the running engine, of deferral over it, and of the laws of its callbacks.
#![tactic(auto)]

#[cfg(test)]
mod deferral;
#[cfg(test)]
mod laws;
#[cfg(test)]
mod live;
