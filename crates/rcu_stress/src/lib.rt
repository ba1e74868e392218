//! Threads that stress the running engine, and the ledger of their actions.
#![tactic(auto)]

pub mod definition_laws;
pub mod draws;
mod engine;
pub mod gate;
mod job;
pub mod ledger;
pub mod run;
pub mod share;
mod workers;

pub use draws::Draws;
pub use gate::{Gate, Open, Point};
pub use ledger::Ledger;
pub use run::torture;
pub use share::LedgerShare;
