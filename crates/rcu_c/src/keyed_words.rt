//! The entries of a map, as C has them: words, of which word 0 is the key.
ghost use Rattle.std.specs.Prelude.{◌≡◌, ◌<◌, length};
ghost use Rattle.rcu_map.specs.Words.{words_if};
ghost use Rattle.rcu_c.specs.MapEntries.{told};

use rcu_graph::Invariant;

/// The fact on the words of an entry: their key is 1 or more.
#[derive(Clone, Copy)]
pub struct KeyedWords;

impl Invariant for KeyedWords {
    ghost use Rattle.rcu_c.specs.MapEntries.{IsKeyed};

    ghost holds = { IsKeyed };
}

/// Tells C of the key 0, if no entry was written.
pub(crate) fn tell(there: bool, entry: &mut [u64])
    requires { 0 < length entry.old }
    ensures { entry.new ≡ told entry.old (words_if there entry.old) }
{
    if !there {
        entry[0] = 0;
    }
}
