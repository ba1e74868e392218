//! The message on standard error for a run that stopped.

use crate::command::Order;
use rcu_script::{RunFault, Setup};
use rcu_seq::Fault;
use std::fmt;

/// Why the run of an order stopped, as a line: a fault in its own words, with the options that were
/// refused.
#[derive(Clone, Copy)]
pub struct Reason<'a> {
    /// The order.
    pub order: &'a Order,
    /// Why it stopped.
    pub fault: &'a RunFault,
}

impl fmt::Display for Reason<'_> {
    fn fmt<W: fmt::Write>(&self, f: &mut fmt::Formatter<W>) -> fmt::Result {
        let RunFault::Open(fault) = self.fault else {
            return write!(f, "{}", self.fault);
        };
        write!(f, "rcu: {fault}")?;
        match self.order {
            Order::Script(setup) => write_options(f, *fault, setup, false),
            Order::Pair(setup) => write_options(f, *fault, setup, true),
            Order::Torture(_, _, _) => Ok(()),
        }
    }
}

/// Writes the options that the fault is about, also those of a second tree if there is one.
fn write_options<W: fmt::Write>(
    f: &mut fmt::Formatter<W>,
    fault: Fault,
    setup: &Setup,
    has_two: bool,
) -> fmt::Result {
    match fault {
        Fault::BadFanout => {
            write_fanouts(f, setup, has_two)?;
            f.write_str(")")
        }
        Fault::TooManyCpus => {
            write_fanouts(f, setup, has_two)?;
            write!(f, " --cpus {})", setup.cpus)
        }
        Fault::BadLast => write!(f, " (--last {})", setup.last),
        _ => Ok(()),
    }
}

fn write_fanouts<W: fmt::Write>(
    f: &mut fmt::Formatter<W>,
    setup: &Setup,
    has_two: bool,
) -> fmt::Result {
    write!(f, " (--leaf {} --inner {}", setup.leaf, setup.inner)?;
    if has_two {
        write!(f, " --leaf2 {} --inner2 {}", setup.leaf2, setup.inner2)?;
    }
    Ok(())
}
