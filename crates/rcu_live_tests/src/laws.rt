//! Callers of the running engine, and their knowledge about its callbacks by the laws of runs
//! alone.

mod engine;
mod runs;
