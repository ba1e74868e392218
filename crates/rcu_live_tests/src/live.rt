//! The running engine: each public call once, and threads.

mod asks;
mod epochs;
mod idle;
mod locked;
mod most;
mod sleeps;
mod states;
pub(crate) mod steps;
mod stress;
pub(crate) mod threads;
mod waits;
