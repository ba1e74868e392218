//! The shape of a combining tree.
#![tactic(auto)]

pub mod geometry;
pub mod laws;
pub mod opening;

pub use geometry::Geometry;
pub use opening::check_size;
