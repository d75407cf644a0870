//! Lists of numbers that have numbers themselves, by the pairs of a tree.
//!
//! The key of one number is that number. The key of more of them is the number of the pair of the keys of their first half and of the rest. Where one number
//! of a list changes, only the pairs on the way to it are others. The key tells a list from the others of its length.
ghost use Rattle.std.specs.Prelude.{◌≡◌, ℕ, [], List, length, IfOk};
ghost use Rattle.fmp_interned.specs.Trees.{HasTree, IsTree};
ghost use Rattle.fmp_interned.specs.Values.{AreDistinct, IsBeginning};

use crate::interned::Interned;
use crate::words::Words;
use std::alloc::{AllocError, Global};
use std::marker::Model;

/// Lists of numbers that have keys. Contracts see them as the list of their pairs.
#[derive(Drop)]
pub struct Lists {
    pairs: Interned<[u32; 2]>,
    /// The list that was written last, and its key: those that are asked for next are often near to it.
    last: Words,
    key: u32,
}

impl Model for Lists {
    ghost use Rattle.std.specs.Prelude.{ℕ, List};
    ghost use Rattle.fmp_interned.specs.Trees.{IsTree};

    ghost Value = { List (List ℕ) };

    ghost view = { λ l. l.pairs };

    ghost invariant = { λ l. IsTree l.pairs l.last l.key };
}

/// The key of a list, whose pairs are looked up one by one.
fn whole_key(pairs: &mut Interned<[u32; 2]>, numbers: &[u32]) -> Result<u32, AllocError>
    ensures is { IfOk result (λ k. IsTree pairs.new numbers.now k) }
    ensures kept { IsBeginning pairs.old pairs.new }
{
    if numbers.len() < 2 {
        return Ok(numbers.first().copied().unwrap_or(0));
    }
    let (first, rest) = numbers.split_at(numbers.len() / 2);
    let left = whole_key(pairs, first)?;
    let right = whole_key(pairs, rest)?;
    pairs.number_of(&[left, right])
}

/// The key of a list beside another one, whose key is known: of a part that is the same in both it is known, too.
fn key_beside(
    pairs: &mut Interned<[u32; 2]>,
    numbers: &[u32],
    last: &[u32],
    key: u32,
) -> Result<u32, AllocError>
    requires { IsTree pairs.old last.now key }
    ensures is { IfOk result (λ k. IsTree pairs.new numbers.now k) }
    ensures kept { IsBeginning pairs.old pairs.new }
{
    if numbers == last {
        return Ok(key);
    }
    if numbers.len() < 2 || numbers.len() != last.len() {
        return whole_key(pairs, numbers);
    }
    let (first, rest) = numbers.split_at(numbers.len() / 2);
    let (last_first, last_rest) = last.split_at(numbers.len() / 2);
    let pair = *pairs.get(key);
    let left = key_beside(pairs, first, last_first, pair[0])?;
    let right = key_beside(pairs, rest, last_rest, pair[1])?;
    pairs.number_of(&[left, right])
}

/// Writes the list of a key over another of the same length.
fn put_numbers(pairs: &Interned<[u32; 2]>, key: u32, numbers: &mut [u32])
    requires { HasTree pairs.now (length numbers.old) key }
    ensures { (xs : List ℕ) → length xs ≡ length numbers.old → IsTree pairs.now xs key → numbers.new ≡ xs }
{
    if numbers.len() < 2 {
        numbers.fill(key);
        return;
    }
    let pair = *pairs.get(key);
    let (first, rest) = numbers.split_at_mut(numbers.len() / 2);
    put_numbers(pairs, pair[0], first);
    put_numbers(pairs, pair[1], rest);
}

impl Lists {
    /// No lists.
    pub fn new(alloc: Global) -> Self
        ensures { result ≡ [] }
    {
        Lists {
            pairs: Interned::new(alloc),
            last: Words::new(alloc),
            key: 0,
        }
    }

    /// The list that was written last, or an empty one.
    pub fn last(&self) -> &[u32]
        ensures { (k : ℕ) × IsTree self.now result.now k }
    {
        self.last.as_slice()
    }

    /// The key of a list, whose pairs are kept from then on. It comes sooner where the list is near to the one that was written last: no answer depends on that.
    /// The error is want of memory, or that 2^32 - 1 pairs are kept, and leaves the keys of other lists as they were.
    pub fn key_of(&mut self, numbers: &[u32]) -> Result<u32, AllocError>
        ensures is { IfOk result (λ k. IsTree self.new numbers.now k) }
        ensures kept { IsBeginning self.old self.new }
    {
        key_beside(&mut self.pairs, numbers, self.last.as_slice(), self.key)
    }

    /// Writes the list of a key over another of the same length. Where memory for one more is wanting, none is kept as the last one.
    pub fn put(&mut self, key: u32, numbers: &mut [u32])
        requires { HasTree self.old (length numbers.old) key }
        ensures is { (xs : List ℕ) → length xs ≡ length numbers.old → IsTree self.old xs key → numbers.new ≡ xs }
        ensures same { self.new ≡ self.old }
    {
        put_numbers(&self.pairs, key, numbers);
        self.key = match self.last.become_slice(numbers) {
            Ok(()) => key,
            Err(AllocError) => 0,
        };
    }

    /// No two pairs are the same, so a list has one key. It does nothing.
    pub fn validity(&self)
        ensures { AreDistinct self.now }
    {
        self.pairs.validity();
    }
}
