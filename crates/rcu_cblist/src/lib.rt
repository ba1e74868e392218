//! One processor's list of callbacks.
#![tactic(auto)]

pub mod items;
pub mod laws;
pub mod pop;
pub mod seg_list;
mod segments;
mod tail;
mod walks;

pub use items::{Queued, Refused, Taken};
pub use seg_list::SegList;
