//! The lists of replies.
ghost use Rattle.std.specs.Prelude.{◌≡◌, ◌==◌, ◌≤◌, ℕ, List, flat_map, length};
ghost use Rattle.rcu_text.specs.Outputs.{Puts};
ghost use Rattle.rcu_text.specs.Texts.{space_and_number};
ghost use Rattle.rcu_script.specs.ScriptTexts.{listed_text};

use rcu_core::{CpuList, ValueList};
use rcu_text::{Failed, Output, put_line, put_spaced};

/// Numbers behind the word of a reply.
pub trait Listed {
    /// The numbers, in order.
    ghost items: { Self → List ℕ };

    /// Returns whether the list is empty.
    fn is_empty(&self) -> bool
        ensures { result ≡ (length (items self.now) == 0) };

    /// Prints the numbers, each behind a space.
    fn put_items<O: Output>(&self, out: &mut O) -> Result<(), Failed>
        ensures { Puts result (O.out out.old) (O.out out.new)
            (flat_map space_and_number (items self.now)) };
}

/// Prints a word and the numbers of a list behind it, or `none`. Costs a step for each byte.
pub fn put_listed<L: Listed, O: Output>(out: &mut O, word: &[u8], listed: &L) -> Result<(), Failed>
    requires { length word.now ≤ 128 }
    ensures { Puts result (O.out out.old) (O.out out.new)
        (listed_text word.now (L.items listed.now)) }
{
    put_line(out, word)?;
    if listed.is_empty() {
        return put_line(out, b" none\n");
    }
    listed.put_items(out)?;
    put_line(out, b"\n")
}

impl Listed for CpuList {
    ghost items = { λ list. list };

    fn is_empty(&self) -> bool {
        self.as_slice().is_empty()
    }

    fn put_items<O: Output>(&self, out: &mut O) -> Result<(), Failed> {
        put_cpus(out, self.as_slice())
    }
}

impl Listed for ValueList {
    ghost items = { λ list. list };

    fn is_empty(&self) -> bool {
        self.len() == 0
    }

    fn put_items<O: Output>(&self, out: &mut O) -> Result<(), Failed> {
        put_values(out, self)
    }
}

fn put_cpus<O: Output>(out: &mut O, cpus: &[u32]) -> Result<(), Failed>
    ensures { Puts result (O.out out.old) (O.out out.new) (flat_map space_and_number cpus.now) }
{
    for cpu in cpus {
        put_spaced(out, u64::from(*cpu))?;
    }
    Ok(())
}

fn put_values<O: Output>(out: &mut O, values: &ValueList) -> Result<(), Failed>
    ensures { Puts result (O.out out.old) (O.out out.new) (flat_map space_and_number values.now) }
{
    for index in 0..values.len() {
        put_spaced(out, values.value(index))?;
    }
    Ok(())
}
