//! Scripts: worked rows, and scripts drawn at random against the model.

pub mod model;
pub mod model_lists;
pub mod random;
pub mod rows;
