//! Pairs: worked rows, and lines drawn at random against the model.

pub mod model;
pub mod random;
pub mod rows;
