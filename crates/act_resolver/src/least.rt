//! Numbers below a bound, of which the least is known at once.

ghost use Rattle.std.specs.Prelude.{◌≡◌, ℕ, ◌<◌, ◌≤◌, [], false, length, slice_index_or, slice_set, IsOk, OnOk, ◌*◌, ◌/◌, ◌^◌, max, true, if◌then◌else◌, slice_index, OnErr};
ghost use Rattle.act_resolver.specs.Least.{IsLeast};
ghost use Rattle.std.specs.Int.{bit_at};
ghost use Rattle.act_resolver.specs.Levels.{IsFirst, IsFirstIfAny, has_any, has_bit};

use act_types::NoMemory;
use std::alloc::Global;
use std::marker::Model;

/// Each number below the bound fits in 32 bits.
const HIGHEST_BOUND: usize = MAX_WORDS * WORD_BITS;

/// Some of the numbers below a bound. The leaves have the numbers, the inner level has the number of
/// each word of the leaves that isn't empty, and the top that of each such word of the inner level.
/// So a change costs a word of each level, and so does the least, but for the words of the top, of
/// which there is one for 262,144 numbers: they are looked through in turn.
#[derive(Drop)]
pub struct LeastSet {
    leaves: Level,
    inner: Level,
    top: Level,
}

impl Model for LeastSet {
    ghost use Rattle.std.specs.Prelude.{Bool, List};
    ghost use Rattle.act_resolver.specs.Levels.{IsAbove, bits_of};

    ghost Value = { List Bool };

    ghost view = { λ set. bits_of set.leaves };

    ghost invariant = { λ set. IsAbove set.inner set.leaves × IsAbove set.top set.inner };
}

impl LeastSet {
    /// No numbers, below the bound 0.
    pub fn new(alloc: Global) -> LeastSet
        ensures { result ≡ [] }
    {
        LeastSet {
            leaves: Level::new(alloc),
            inner: Level::new(alloc),
            top: Level::new(alloc),
        }
    }

    /// Raises the bound at least to this one, and to twice what it was as far as it can. A bound
    /// above 2^32 is refused.
    pub fn make_room(&mut self, bound: usize) -> Result<(), NoMemory>
        ensures ok { OnOk result (bound ≤ length self.new) }
        ensures room { bound ≤ length self.old → IsOk result }
        ensures grows { length self.old ≤ length self.new }
        ensures members { (k : ℕ) →
            slice_index_or self.new k false ≡ slice_index_or self.old k false }
    {
        if bound <= self.bound() {
            return Ok(());
        }
        self.raise(bound)
    }

    /// Each number below it is in or out.
    fn bound(&self) -> usize
        ensures { result ≡ length self.now }
    {
        self.leaves.count() * WORD_BITS
    }

    /// Raises the bound to this higher one, and to twice what it was as far as it can. A bound above
    /// 2^32 is refused.
    #[cold]
    fn raise(&mut self, bound: usize) -> Result<(), NoMemory>
        requires { length self.old < bound }
        ensures ok { OnOk result (bound ≤ length self.new) }
        ensures grows { length self.old ≤ length self.new }
        ensures members { (k : ℕ) →
            slice_index_or self.new k false ≡ slice_index_or self.old k false }
    {
        if bound > HIGHEST_BOUND {
            return Err(NoMemory);
        }
        let count = self.bound();
        let raised = bound.max(2 * count).min(HIGHEST_BOUND);
        let leaves = raised.div_ceil(WORD_BITS);
        let inner = leaves.div_ceil(WORD_BITS);
        self.top.grow(inner.div_ceil(WORD_BITS))?;
        self.inner.grow(inner)?;
        self.leaves.grow(leaves)
    }

    /// Takes number `k` in or out.
    pub fn set(&mut self, k: usize, is_member: bool)
        requires { k < length self.old }
        ensures { self.new ≡ slice_set self.old k is_member }
    {
        let word = k / WORD_BITS;
        let had_leaf = self.leaves.has(word);
        let has_leaf = self.leaves.set(k, is_member);
        if had_leaf != has_leaf {
            let has_inner = self.inner.set(word, has_leaf);
            self.top.set(word / WORD_BITS, has_inner);
        }
    }

    /// The least of the numbers.
    pub fn least(&self) -> Option<u32>
        ensures { IsLeast self.now result }
    {
        let top = self.top.first_word()?;
        let inner = self.top.first_in(top);
        let leaf = self.inner.first_in(inner);
        Some(self.leaves.first_in(leaf) as u32)
    }
}

/// How many numbers a word holds.
pub const WORD_BITS: usize = 64;

/// With so many words each number is below 2^32.
pub const MAX_WORDS: usize = 1 << 26;

/// Some of the numbers below a bound, a bit for each. Contracts see the words.
#[derive(Drop)]
pub struct Level {
    words: Vec<u64>,
}

impl Model for Level {
    ghost use Rattle.std.specs.Prelude.{ℕ, ◌≤◌, List, length};
    ghost use Rattle.act_resolver.specs.declared.least.TheConstants.{MAX_WORDS};

    ghost Value = { List ℕ };

    ghost view = { λ level. level.words.items };

    ghost invariant = { λ level. length level.words.items ≤ MAX_WORDS };
}

impl Level {
    /// No words.
    pub fn new(alloc: Global) -> Level
        ensures { result ≡ [] }
    {
        Level {
            words: Vec::new(alloc),
        }
    }

    /// How many words there are.
    pub fn count(&self) -> usize
        ensures count { result ≡ length self.now }
        ensures few { result ≤ MAX_WORDS }
    {
        self.words.len()
    }

    /// Adds empty words up to this count. Where there are as many it takes no memory.
    pub fn grow(&mut self, count: usize) -> Result<(), NoMemory>
        requires { count ≤ MAX_WORDS }
        ensures ok { OnOk result (length self.new ≡ max count (length self.old)) }
        ensures err { OnErr result (self.new ≡ self.old) }
        ensures grows { length self.old ≤ length self.new }
        ensures at_most { length self.new ≤ max count (length self.old) }
        ensures words { (w : ℕ) → slice_index self.new w ≡ slice_index self.old w }
    {
        let count = count.max(self.words.len());
        self.words.resize(count, 0)?;
        Ok(())
    }

    /// Takes number `k` in or out, and tells whether its word has a bit then.
    pub fn set(&mut self, k: usize, is_member: bool) -> bool
        requires { k / 64 < length self.old }
        ensures any { result ≡ has_any self.new (k / 64) }
        ensures same { has_bit self.new k ≡ is_member }
        ensures others { (i : ℕ) → (i ≡ k → ⊥) → has_bit self.new i ≡ has_bit self.old i }
        ensures words { (w : ℕ) → (w ≡ k / 64 → ⊥) →
            slice_index self.new w ≡ slice_index self.old w }
        ensures count { length self.new ≡ length self.old }
    {
        let word = with_bit(self.words[k / WORD_BITS], k % WORD_BITS, is_member);
        self.words[k / WORD_BITS] = word;
        word != 0
    }

    /// Whether this word has a bit.
    pub fn has(&self, word: usize) -> bool
        requires { word < length self.now }
        ensures { result ≡ has_any self.now word }
    {
        self.words[word] != 0
    }

    /// The first word that has a bit.
    pub fn first_word(&self) -> Option<usize>
        ensures { IsFirstIfAny (has_any self.now) result }
    {
        self.words.iter().position(|word| *word != 0)
    }

    /// The least number, which is in this word.
    pub fn first_in(&self, word: usize) -> usize
        requires { IsFirst (has_any self.now) word }
        ensures first { IsFirst (has_bit self.now) result }
        ensures few { result < 2 ^ 32 }
    {
        let bit = self.words[word].trailing_zeros() as usize;
        word * WORD_BITS + bit
    }
}

/// The word with this bit set or cleared.
fn with_bit(word: u64, bit: usize, is_set: bool) -> u64
    requires { bit < 64 }
    ensures same { bit_at result bit ≡ (if is_set then 1 else 0) }
    ensures others { (i : ℕ) → i < 64 → (i ≡ bit → ⊥) → bit_at result i ≡ bit_at word i }
{
    if is_set {
        word | 1 << bit
    } else {
        word & !(1 << bit)
    }
}
