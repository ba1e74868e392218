//! An entry of a map: a value of the user's type, with a key.
ghost use Rattle.std.specs.Prelude.{◌≤◌};

use rcu_graph::Value;

/// A value that is stored in `W` words, two or more, of which word 0 is its key. The words decode
/// to it. A key is 1 or more.
pub trait Entry<const W: usize>: Value<W> {
    ghost use Rattle.std.specs.Prelude.{◌≡◌, ◌≤◌, ◌<◌, List, ℕ};
    ghost use Rattle.rcu_map.specs.Keys.{key_in};

    /// The key of an entry.
    ghost key_of: { Self → ℕ };

    fn key(&self) -> u64
        ensures { result ≡ key_of self.now };

    /// The words of an entry begin with its key.
    ghost keyed: { (words : List ℕ) → Self.holds words → 0 < key_in words };

    ghost tells: { (words : List ℕ) → Self.holds words →
        key_of (Self.decode words) ≡ key_in words };

    /// A key and one more word.
    ghost roomy: { 2 ≤ W };
}

/// An entry has two words or more, as its type says.
pub(crate) fn words_are_two<E: Entry<W>, const W: usize>()
    ensures { 2 ≤ W }
{}
