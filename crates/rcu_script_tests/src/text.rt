//! Tests of behaviour that no clause covers.

mod blocks;
mod streams;
mod words;
