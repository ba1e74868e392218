//! Tests of the command line (`rcu_command`), and of torture runs (`rcu_stress`).
#![tactic(auto)]

#[cfg(test)]
mod alternation;
#[cfg(test)]
mod command;
#[cfg(test)]
mod draws;
#[cfg(test)]
mod reason;
#[cfg(test)]
mod runs;
