//! Pairs: two replicas of one grace-period engine, which exchange reports by merges.

pub mod event;
pub mod laws;
pub mod machine;
pub mod open;
pub mod parse;
pub mod print;
pub mod run;
pub mod step;
