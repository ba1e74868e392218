//! Sets of processors.
ghost use Rattle.std.specs.Prelude.{◌≡◌, ◌<◌, ◌≤◌, ◌+◌, ◌-◌, ◌*◌, ◌&&◌, ℕ, true, false, not};
ghost use Rattle.std.specs.Prelude.{nat_lt};
ghost use Rattle.std.specs.Prelude.{if◌then◌else◌, length, slice_index, slice_set, bit_or};
ghost use Rattle.std.specs.Prelude.{replicate};
ghost use Rattle.std.specs.Prelude.{IfErr, IfNone, IfOk, IfSome, OnOk};
ghost use Rattle.rcu_node.specs.CpuSet.{IsSetFault, is_in, size_of, union};
ghost use Rattle.rcu_node.specs.Words.{flags_in, has_bit};

use rcu_seq::Fault;
use std::alloc::Global;
use std::marker::Model;

/// The most processors that a set can have.
const MOST_CPUS: u32 = 4096;

/// How many processors a word holds.
const WORD_BITS: u32 = 64;

/// A set of processors below a fixed number, 1 to 4,096. Contracts see a flag for each processor.
///
/// A bit for each processor in words of 64 (Linux's `cpumask`), and a count of the set bits. `new`,
/// `insert_all`, `clear` and `copy_from` cost a step for each word, every other call one step.
#[derive(Drop)]
pub struct CpuSet {
    /// How many processors the set was made for.
    cpus: u32,
    /// A bit for each processor, the lowest first.
    words: Vec<u64>,
    /// How many of these bits are set.
    count: u32,
}

impl Model for CpuSet {
    ghost use Rattle.std.specs.Prelude.{◌≡◌, ◌+◌, ◌*◌, ◌<◌, ◌≤◌, List, Bool, length};
    ghost use Rattle.rcu_node.specs.CpuSet.{size_of};
    ghost use Rattle.rcu_node.specs.Words.{flags_in, HasNoneFrom};

    ghost Value = { List Bool };

    ghost view = { λ s. flags_in s.cpus s.words.items };

    ghost invariant = { λ s. record {
      some : 0 < s.cpus;
      few : s.cpus ≤ 4096;
      enough : s.cpus ≤ 64 * length s.words.items;
      no_more : 64 * length s.words.items < s.cpus + 64;
      none_beyond : HasNoneFrom s.cpus s.words.items;
      counted : s.count ≡ size_of (flags_in s.cpus s.words.items);
    } };
}

impl CpuSet {
    /// Returns the empty set. Costs a step for every 64 processors.
    ///
    /// Faults: `TooManyCpus` (17) for no processor or more than 4,096; `NoMemory` (16).
    pub fn new(alloc: Global, cpus: u32) -> Result<Self, Fault>
        ensures fault { IfErr result (λ fault. IsSetFault cpus fault) }
        ensures state { IfOk result (λ set. set ≡ replicate cpus false) }
        ensures some { OnOk result (0 < cpus) }
        ensures few { OnOk result (cpus ≤ 4096) }
    {
        if cpus == 0 || MOST_CPUS < cpus {
            return Err(Fault::TooManyCpus);
        }
        let words = vec![in alloc; 0u64; cpus.div_ceil(WORD_BITS) as usize]?;
        Ok(CpuSet {
            cpus,
            words,
            count: 0,
        })
    }

    /// The number of processors that the set was made for.
    pub fn cpus(&self) -> u32
        ensures value { result ≡ length self.now }
        ensures some { 0 < result }
        ensures few { result ≤ 4096 }
    {
        self.cpus
    }

    /// Returns whether the processor is in the set.
    pub fn contains(&self, cpu: u32) -> bool
        requires { cpu < length self.now }
        ensures { result ≡ is_in self.now cpu }
    {
        let word = self.words[(cpu / WORD_BITS) as usize];
        (word >> (cpu % WORD_BITS)) & 1 == 1
    }

    /// Returns the flags of `width` processors from `from` on, up to 64, as a word whose lowest bit
    /// is the flag of `from`. Flags beyond the set are 0 (Linux's `bitmap_read`).
    pub fn bits_from(&self, from: u32, width: u32) -> u64
        requires from { from < length self.now }
        requires width { width ≤ 64 }
        ensures { (bit : ℕ) → has_bit result bit
            ≡ (nat_lt bit width && is_in self.now (from + bit)) }
    {
        let place = (from / WORD_BITS) as usize;
        let word = self.words[place];
        let next = self.words.get(place + 1).copied().unwrap_or(0);
        cut(word, next, from % WORD_BITS, width)
    }

    /// Returns the first processor of the set from this one on (Linux's `cpumask_next`). Costs a
    /// step, and one more for every 64 processors that it skips.
    pub(crate) fn next_from(&self, from: u32) -> Option<u32>
        ensures later { IfSome result (λ cpu. from ≤ cpu) }
        ensures inside { IfSome result (λ cpu. cpu < length self.now) }
        ensures here { IfSome result (λ cpu. is_in self.now cpu ≡ true) }
        ensures none_before { IfSome result (λ cpu.
            (k : ℕ) → from ≤ k → k < cpu → is_in self.now k ≡ false) }
        ensures none { IfNone result ((k : ℕ) → from ≤ k → is_in self.now k ≡ false) }
    {
        let mut cpu = from;
        while cpu < self.cpus {
            let flags = self.bits_from(cpu, WORD_BITS);
            if flags != 0 {
                return Some(cpu + flags.trailing_zeros());
            }
            cpu += WORD_BITS;
        }
        None
    }

    /// Puts the processor into the set, and returns whether it is new.
    pub fn insert(&mut self, cpu: u32) -> bool
        requires { cpu < length self.old }
        ensures new { result ≡ not (is_in self.old cpu) }
        ensures set { self.new ≡ slice_set self.old cpu true }
    {
        if self.contains(cpu) {
            return false;
        }
        self.words[(cpu / WORD_BITS) as usize] |= 1 << (cpu % WORD_BITS);
        self.count += 1;
        true
    }

    /// Puts each processor of another set of as many processors into the set. Costs a step for
    /// every 64 processors.
    pub fn insert_all(&mut self, other: &CpuSet)
        requires { length self.old ≡ length other.now }
        ensures { self.new ≡ union self.old other.now }
    {
        merge(&mut self.words, &other.words);
        self.count = count_ones(&self.words);
    }

    /// Takes the processor out of the set, and returns whether it was there.
    pub fn remove(&mut self, cpu: u32) -> bool
        requires { cpu < length self.old }
        ensures there { result ≡ is_in self.old cpu }
        ensures set { self.new ≡ slice_set self.old cpu false }
    {
        if !self.contains(cpu) {
            return false;
        }
        self.words[(cpu / WORD_BITS) as usize] &= !(1 << (cpu % WORD_BITS));
        self.count -= 1;
        true
    }

    /// Takes every processor out. Costs a step for every 64 processors.
    pub fn clear(&mut self)
        ensures { self.new ≡ replicate (length self.old) false }
    {
        self.words.fill(0);
        self.count = 0;
    }

    /// Becomes the same set as another one of as many processors. Costs a step for every 64
    /// processors.
    pub fn copy_from(&mut self, from: &CpuSet)
        requires { length self.old ≡ length from.now }
        ensures { self.new ≡ from.now }
    {
        self.words.copy_from_slice(&from.words);
        self.count = from.count;
    }

    /// How many processors are in the set.
    pub fn count(&self) -> u32
        ensures { result ≡ size_of self.now }
    {
        self.count
    }
}

/// `width` bits, from bit `first` of a word on and into the next word.
fn cut(word: u64, next: u64, first: u32, width: u32) -> u64
    requires first { first < 64 }
    requires width { width ≤ 64 }
    ensures { (bit : ℕ) → has_bit result bit
        ≡ (nat_lt bit width && (if nat_lt (first + bit) 64 then has_bit word (first + bit)
        else has_bit next (first + bit - 64))) }
{
    if first == 0 && width == WORD_BITS {
        return word;
    }
    let both = (u128::from(next) << WORD_BITS) + u128::from(word);
    ((both >> first) & ((1 << width) - 1)) as u64
}

/// Sets the bits of other words in the words of the same places.
fn merge(words: &mut [u64], others: &[u64])
    requires { length words.old ≡ length others.now }
    ensures { (place : ℕ) → place < length words.old → slice_index words.new place
        ≡ bit_or (slice_index words.old place) (slice_index others.now place) }
{
    for (place, word) in words.iter_mut().enumerate() {
        *word |= others[place];
    }
}

/// How many bits are set in up to 64 words.
fn count_ones(words: &[u64]) -> u32
    requires { length words.now ≤ 64 }
    ensures { result ≡ size_of (flags_in (64 * length words.now) words.now) }
{
    words.iter().map(|word| word.count_ones()).sum()
}
