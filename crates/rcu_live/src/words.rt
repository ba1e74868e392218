//! The places of the shared words.
ghost use Rattle.std.specs.Prelude.{◌≡◌, ◌<◌, ◌≤◌, IfOk};
ghost use Rattle.rcu_live.specs.Words.{first_words, own_word_index, mask_index};

use std::alloc::{AllocError, Global};

/// The place of the number word.
pub const NUMBER: usize = 0;

/// The place of the word with the processor that is asked to wake the sleeping waiters. It is in
/// the number's cache line, which a report has loaded. It changes only when a wait sleeps or is
/// woken.
pub const ASKED: usize = 1;

/// The number of words in a cache line. The second line of each 128 bytes has no own word, but this
/// many online masks, which change only when a processor arrives or departs.
const LINE: u32 = 8;

/// How many processors share an online mask.
const MASK_BITS: u32 = 64;

/// The distance of the words: 128 bytes, so that no two share a cache line, or a pair of lines that
/// a processor fetches together. Of the words between, steps use only online masks, and the one
/// beside the number.
const APART: usize = 16;

/// The own word of processor 0 at the start: it is online, and the number is 0.
const BOOT_WORD: u64 = 1;

/// Returns the place of a processor's own word. The words behind the engine's begin at the place
/// that one more processor would have.
pub fn own_word_index(cpu: u32) -> usize
    ensures { result ≡ own_word_index cpu }
{
    APART * (cpu as usize + 1)
}

/// Returns the place of a processor's online mask, which it shares with 63 others.
pub fn mask_index(cpu: u32) -> usize
    ensures { result ≡ mask_index cpu }
{
    let mask = cpu / MASK_BITS;
    APART * (mask / LINE) as usize + (LINE + mask % LINE) as usize
}

/// Returns the engine's words at the start: the number is 0, and processor 0 alone is online and
/// has its bit in its online mask.
pub fn first_words(alloc: Global, cpus: u32) -> Result<Vec<u64>, AllocError>
    requires { 0 < cpus }
    ensures { IfOk result (λ words. words.items ≡ first_words cpus) }
{
    let mut words = vec![in alloc; 0u64; own_word_index(cpus)]?;
    words[own_word_index(0)] = BOOT_WORD;
    words[mask_index(0)] = 1;
    Ok(words)
}
