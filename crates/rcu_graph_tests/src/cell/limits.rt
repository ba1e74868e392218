//! The limits of a service, as a value in a cell.
use crate::compare::compare;
use rcu_cell::{Cell, CellRule, Invariant, Retired, Value, Version};
use rcu_live::Live;

/// How many requests a second are answered, and how many more at once: at least as many.
#[derive(Clone, Copy, Debug, PartialEq, Eq)]
pub(crate) struct Limits {
    pub(crate) rate: u32,
    pub(crate) burst: u32,
}

impl Invariant for Limits {
    ghost use Rattle.std.specs.Prelude.{◌≤◌, ◌<◌, ◌^◌, slice_index};

    ghost holds = { λ words. (slice_index words 0 ≤ slice_index words 1)
        × (slice_index words 1 < 2 ^ 32) };
}

impl Version<2> for Limits {
    ghost use Rattle.std.specs.Prelude.{replicate};

    ghost first = { replicate 2 0 };

    fn first_word(_word: usize) -> u64 {
        0
    }
}

impl Value<2> for Limits {
    ghost use Rattle.std.specs.Prelude.{◌≤◌, [], ◌∷◌, slice_index};
    ghost use Rattle.std.proofs.Common.{rules};

    ghost valid = { λ limits. limits.rate ≤ limits.burst };

    ghost in_words = { λ limits. limits.rate ∷ limits.burst ∷ [] };

    ghost decode = { λ words. record {
      rate = slice_index words 0;
      burst = slice_index words 1;
    } };

    fn to_words(self) -> [u64; 2] {
        [u64::from(self.rate), u64::from(self.burst)]
    }

    fn of_words(words: &[u64; 2]) -> Limits {
        Limits {
            rate: words[0] as u32,
            burst: words[1] as u32,
        }
    }

    ghost small = { Prim.search rules };
}

/// The limits, in a cell.
pub(crate) type Shared = Cell<Limits, 2>;

pub(crate) type SharedEngine = Live<4, 4, u64, CellRule<Limits, 2>>;

#[test]
fn limits_are_replaced(rt: HostRuntime) {
    let first = Limits {
        rate: 10,
        burst: 20,
    };
    let second = Limits {
        rate: 30,
        burst: 30,
    };
    let words = first.to_words();
    compare(&rt, "to_words", words, [10, 20]);
    let opened = Shared::open::<4, 4, u64>(rt.alloc(), 1, 8, 2, &words);
    let Ok(mut opened) = opened else {
        return;
    };
    let (live, cell, writer) = (&opened.live, &opened.cell, &mut opened.writer);
    let mut seat = opened.seats.pop().unwrap();
    let retired = Retired { slot: 1, by: 2 };
    let found = cell.value_section(live, &mut seat);
    compare(&rt, "value_section", found, Ok(first));
    let found = writer.update_value(second);
    compare(&rt, "update_value", found, Ok(retired));
    let found = cell.value_section(live, &mut seat);
    compare(&rt, "value_section", found, Ok(second));
}
