//! Tests of text in blocks, of scripts and of pairs of replicas.
#![tactic(auto)]

#[cfg(test)]
mod run_faults;
#[cfg(test)]
mod runs;
#[cfg(test)]
mod text;
