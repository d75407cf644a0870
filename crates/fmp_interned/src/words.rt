//! Lists of numbers that can be kept once.
ghost use Rattle.std.specs.Prelude.{◌≡◌, ◌++◌, ◌∷◌, [], length, slice_index_or, IfOk, OnErr};
ghost use Rattle.fmp_interned.specs.Hashes.{hash_of};

use crate::hash::hash_of;
use crate::value::Value;
use std::alloc::{AllocError, Global};
use std::marker::Model;

/// So many numbers, such as those of the parts of a value.
impl<const N: usize> Value for [u32; N] {
    ghost hashed = { hash_of };

    fn is_same(&self, other: &Self) -> bool {
        self == other
    }

    fn hash(&self) -> u64 {
        hash_of(self)
    }

    fn another(&self) -> Result<Self, AllocError> {
        Ok(*self)
    }
}

/// A list of numbers of any length, in memory of its own. Contracts see it as the list.
#[derive(Drop)]
pub struct Words {
    words: Vec<u32>,
}

impl Model for Words {
    ghost use Rattle.std.specs.Prelude.{ℕ, List};

    ghost Value = { List ℕ };

    ghost view = { λ a. a.words.items };
}

impl Words {
    /// No numbers.
    pub fn new(alloc: Global) -> Self
        ensures { result ≡ [] }
    {
        Words {
            words: Vec::new(alloc),
        }
    }

    /// The numbers.
    pub fn as_slice(&self) -> &[u32]
        ensures { result.now ≡ self.now }
    {
        &self.words
    }

    /// Drops all numbers, and keeps the memory for others.
    pub fn clear(&mut self)
        ensures { self.new ≡ [] }
    {
        self.words.clear();
    }

    /// The number that stands in another list at the place after the last of these, or 0 where that list is not so long.
    pub fn beside(&self, other: &[u32]) -> u32
        ensures { result ≡ slice_index_or other.now (length self.now) 0 }
    {
        other.get(self.words.len()).copied().unwrap_or(0)
    }

    /// Becomes a list of these numbers. The error is want of memory, and leaves none.
    pub fn become_slice(&mut self, words: &[u32]) -> Result<(), AllocError>
        ensures is { IfOk result (λ done. self.new ≡ words.now) }
        ensures none { OnErr result (self.new ≡ []) }
    {
        self.words.clear();
        self.words.extend_from_slice(words)?;
        Ok(())
    }

    /// Adds a number after the others. The error is want of memory, and leaves them as they were.
    pub fn push(&mut self, word: u32) -> Result<(), AllocError>
        ensures added { IfOk result (λ done. self.new ≡ self.old ++ word ∷ []) }
        ensures left { OnErr result (self.new ≡ self.old) }
    {
        self.words.push(word)?;
        Ok(())
    }
}

impl Value for Words {
    ghost hashed = { hash_of };

    fn is_same(&self, other: &Self) -> bool {
        self.words == other.words
    }

    fn hash(&self) -> u64 {
        hash_of(&self.words)
    }

    fn another(&self) -> Result<Self, AllocError> {
        Ok(Words {
            words: self.words.clone()?,
        })
    }
}
