//! Values that a thread defers until a grace period has passed, without a lock.
#![tactic(auto)]

pub mod defer_list;
pub mod deferrer;
pub mod definition_laws;
pub mod laws;
pub mod marks;

pub use defer_list::DeferList;
pub use deferrer::Deferrer;
pub use marks::Marks;
