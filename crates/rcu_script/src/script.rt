//! Scripts: events in, replies out.

pub mod laws;
pub mod open;
pub mod parse;
pub mod print;
pub mod responder;
pub mod run;
