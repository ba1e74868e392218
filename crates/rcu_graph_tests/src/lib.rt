//! Tests of graphs, and of the cells and maps over them.
#![tactic(auto)]

#[cfg(test)]
mod cell;
#[cfg(test)]
mod compare;
#[cfg(test)]
mod map;
#[cfg(test)]
mod nodes;
#[cfg(test)]
mod seats;
#[cfg(test)]
mod several;
