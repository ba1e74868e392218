//! Updates of the map of an engine that are made if an entry is as it was read, which another
//! thread may have changed since: `rcu` is under the caller's lock.
//!
//! Header: `rcu/map.h`.
ghost use Rattle.std.specs.Prelude.{◌≡◌, ◌≢◌, ◌<◌, ◌↔◌, length};
ghost use Rattle.rcu_map.specs.Compared.{words_found};
ghost use Rattle.rcu_map.specs.declared.compared.Compared.{Compared};
ghost use Rattle.rcu_c.specs.Answers.{number_in_c};
ghost use Rattle.rcu_c.specs.MapComparing.{IsChangedInC, IsNotRemovedInC, IsNotReplacedInC};
ghost use Rattle.rcu_c.specs.MapComparing.{IsRemovedInC, IsReplacedInC};
ghost use Rattle.rcu_c.specs.MapEntries.{told};
ghost use Rattle.rcu_c.specs.Maps.{entry_refusal, width_refusal, writer_width};
ghost use Rattle.rcu_c.specs.Refusals.{engine_number};

use crate::codes::accepted;
use crate::handle::Rcu;
use crate::keyed_words::tell;
use crate::refusal::Refusal;
use rcu_map::Compared;

/// Returns to C whether an entry is as it was read. If no entry has the key, the buffer of C shows
/// that.
fn answer(found: Compared, old: &mut [u64]) -> u32
    requires { 0 < length old.old }
    ensures same { result ≡ 0 ↔ (found ≡ Compared.Same) }
    ensures number { result ≢ 0 → result ≡ 33 }
    ensures told { old.new ≡ told old.old (words_found found old.old) }
{
    match found {
        Compared::Same => 0,
        Compared::Changed => Refusal::EntryChanged.number(),
        Compared::Gone => {
            tell(false, old);
            Refusal::EntryChanged.number()
        }
    }
}

/// Puts an entry in the place of the one that has its key, as `rcu_map_replace`, if that one has
/// the words of `old`: so it is as it was read. Else (33) it writes the words of the one that has
/// the key, or the key 0 if none has it, and changes nothing. So a loop that makes the entry anew
/// of what is written loses no update of another thread.
///
/// Faults: 32 as of `rcu_map_insert`; 30 if the key is 0; 33 if the entry of the key has other
/// words than `old`, or none has the key; 31 as of `rcu_map_replace`.
#[unsafe(no_mangle)]
pub extern "C" fn rcu_map_compare_replace(rcu: &mut Rcu, entry: &[u64], old: &mut [u64]) -> u32
    ensures fault { result ≢ 31 → result ≢ 33 → result ≡ engine_number rcu.old.contents
        (number_in_c (entry_refusal rcu.old.contents entry.now (length old.old))) }
    ensures replaced { result ≡ 0 →
        IsReplacedInC entry.now old.old rcu.old.contents rcu.new.contents }
    ensures changed { result ≡ 33 →
        IsChangedInC entry.now old.old old.new rcu.old.contents rcu.new.contents }
    ensures full { result ≡ 31 →
        IsNotReplacedInC entry.now old.old rcu.old.contents rcu.new.contents }
    ensures unchanged { result ≢ 0 → rcu.new.contents ≡ rcu.old.contents }
    ensures stays { result ≢ 33 → old.new ≡ old.old }
{
    let opened = accepted!(rcu.engine());
    let words = opened.map.plan().words;
    if entry.len() != words || old.len() != words {
        return Refusal::BadWords.number();
    }
    if entry[0] == 0 {
        return Refusal::BadKey.number();
    }
    let Ok(found) = opened.map.compare_replace_words(entry, old) else {
        return Refusal::MapFull.number();
    };
    answer(found, old)
}

/// Takes the entry of a key out, as `rcu_map_remove`, if it has the words of `old`, which begin
/// with the key: so it is as it was read. Else (33) it writes the words of the one that has the
/// key, or the key 0 if none has it, and changes nothing.
///
/// Faults: 32 if an entry has another number of words; 33 if the entry of the key has other words
/// than `old`, or none has the key.
#[unsafe(no_mangle)]
pub extern "C" fn rcu_map_compare_remove(rcu: &mut Rcu, old: &mut [u64]) -> u32
    ensures fault { result ≢ 33 → result ≡ engine_number rcu.old.contents
        (number_in_c (width_refusal (writer_width rcu.old.contents) (length old.old))) }
    ensures removed { result ≡ 0 → IsRemovedInC old.old rcu.old.contents rcu.new.contents }
    ensures changed { result ≡ 33 →
        IsNotRemovedInC old.old old.new rcu.old.contents rcu.new.contents }
    ensures unchanged { result ≢ 0 → rcu.new.contents ≡ rcu.old.contents }
    ensures stays { result ≢ 33 → old.new ≡ old.old }
{
    let opened = accepted!(rcu.engine());
    if old.len() != opened.map.plan().words {
        return Refusal::BadWords.number();
    }
    let found = opened.map.compare_remove_words(old);
    answer(found, old)
}
