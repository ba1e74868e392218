//! Tests of behaviour that no clause covers.

mod broken;
mod drawn;
mod hostile;
mod lines;
mod long_replies;
mod memory;
mod pair;
mod row;
mod script;
mod slow;
mod streams;
