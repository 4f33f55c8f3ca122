//! Sets of numbers, 64 numbers to a word, so that two sets are compared word by word.

ghost use Rattle.std.specs.Prelude.{◌≡◌, ℕ, ◌/◌, ◌<◌, ◌==◌, ◌||◌, true, false, OnOk, OnErr, length, zip};
ghost use Rattle.std.specs.List.{list_any};
ghost use Rattle.number_sets.specs.Words.{has, touch};

use std::alloc::{AllocError, Global};

/// A set of numbers. It takes as many words as its greatest number wants.
#[derive(Drop)]
pub struct NumberSet {
    words: Vec<u64>,
}

impl NumberSet {
    ghost use Rattle.number_sets.specs.Sets.{contains};

    /// The empty set.
    pub fn new(alloc: Global) -> NumberSet
        ensures { (k : ℕ) → contains result k ≡ false }
    {
        NumberSet {
            words: Vec::new(alloc),
        }
    }

    /// Adds a number. Where memory is wanting the set stays the same.
    pub fn add(&mut self, number: u32) -> Result<(), AllocError>
        ensures added { OnOk result ((k : ℕ) → contains self.new k ≡ (k == number || contains self.old k)) }
        ensures kept { OnErr result ((k : ℕ) → contains self.new k ≡ contains self.old k) }
    {
        widen(&mut self.words, number)?;
        put(&mut self.words, number);
        Ok(())
    }

    /// Whether a number is in the set.
    pub fn contains(&self, number: u32) -> bool
        ensures { result ≡ contains self.now number }
    {
        has(&self.words, number)
    }

    /// Whether two sets have a number in common.
    pub fn meets(&self, other: &NumberSet) -> bool
        ensures common { result ≡ true → (k : ℕ) × (contains self.now k ≡ true) × (contains other.now k ≡ true) }
        ensures apart { result ≡ false → (k : ℕ) → contains self.now k ≡ true → contains other.now k ≡ false }
    {
        meet(&self.words, &other.words)
    }
}

/// Makes room for a number. The set stays the same.
fn widen(words: &mut Vec<u64>, number: u32) -> Result<(), AllocError>
    ensures same { (k : ℕ) → has words.new.items k ≡ has words.old.items k }
    ensures room { OnOk result (number / 64 < length words.new.items) }
{
    let place = number as usize / 64;
    if place < words.len() {
        return Ok(());
    }
    words.resize(place + 1, 0)
}

/// Adds a number for which there is room.
fn put(words: &mut [u64], number: u32)
    requires { number / 64 < length words.old }
    ensures { (k : ℕ) → has words.new k ≡ (k == number || has words.old k) }
{
    let place = number as usize / 64;
    words[place] |= 1 << (number % 64);
}

/// Whether words have a number.
fn has(words: &[u64], number: u32) -> bool
    ensures { result ≡ has words.now number }
{
    match words.get(number as usize / 64) {
        Some(word) => (*word >> (number % 64)) & 1 == 1,
        None => false,
    }
}

/// Whether two words that stand beside each other have a bit in common.
fn touch(one: &[u64], other: &[u64]) -> bool
    ensures { result ≡ list_any touch (zip one.now other.now) }
{
    one.iter()
        .zip(other)
        .any(|(word, beside)| *word & *beside != 0)
}

/// Whether words have a number in common.
fn meet(one: &[u64], other: &[u64]) -> bool
    ensures common { result ≡ true → (k : ℕ) × (has one.now k ≡ true) × (has other.now k ≡ true) }
    ensures apart { result ≡ false → (k : ℕ) → has one.now k ≡ true → has other.now k ≡ false }
{
    touch(one, other)
}
