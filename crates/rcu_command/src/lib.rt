//! The command line, and why an order stopped.
#![tactic(auto)]

pub mod command;
pub mod reason;

pub use command::{Order, read_command};
pub use reason::Reason;
