//! Places by keys: what a kernel is made of, and the positions and counts beside it.
ghost use Rattle.std.specs.Prelude.{◌≡◌, ◌≤◌, ◌+◌, ◌-◌, ◌*◌, ◌<◌, ◌^◌, ◌++◌, ℕ, length, replicate, slice_index, IfOk, IsTrue};
ghost use Rattle.fmp_interned.specs.Trees.{IsTree};
ghost use Rattle.fmp_interned.specs.Values.{AreDistinct, IsBeginning};
ghost use Rattle.fmp_kernel_packed.specs.Kept.{ArePartsOnce};
ghost use Rattle.fmp_search_kernel.specs.Keys.{count_of_words, words_of, AreOfPlace, IsPackable, IsPadded, IsPlaceKey};
ghost use Rattle.fmp_search_kernel.specs.Walked.{origin_of};
ghost use Rattle.fmp_search_orders.specs.Places.{Place};
ghost use Rattle.fmp_setup.specs.Valid.{IsValid};

use crate::walker::Walker;
use fmp_interned::{Lists, Words};
use fmp_kernel_packed::{Packed, Parts};
use fmp_search::halves;
use std::alloc::{AllocError, Global};
use std::marker::Model;

/// How many numbers there are beside a kernel at most.
pub(crate) const MOST_WORDS: usize = 90;

/// By which places have keys.
#[derive(Drop)]
pub struct PlaceTables {
    pub(crate) parts: Parts,
    /// Of the numbers beside a kernel.
    lists: Lists,
    /// Room for such numbers.
    words: Words,
}

impl Model for PlaceTables {
    ghost use Rattle.fmp_search_kernel.specs.Keys.{KeptPlaces};

    ghost Value = { KeptPlaces };

    ghost view = { λ t. record { parts = t.parts; pairs = t.lists } };
}

impl PlaceTables {
    /// Of no place.
    pub(crate) fn new(alloc: Global) -> PlaceTables {
        PlaceTables {
            parts: Parts::new(alloc),
            lists: Lists::new(alloc),
            words: Words::new(alloc),
        }
    }

    /// No two parts and no two pairs that are kept are the same. It does nothing.
    pub(crate) fn validity(&self)
        ensures parts { ArePartsOnce self.now.parts }
        ensures pairs { AreDistinct self.now.pairs }
    {
        self.parts.validity();
        self.lists.validity();
    }
}

/// Whether all numbers from a place on are 0.
fn is_padded(numbers: &[u32], count: usize) -> bool
    ensures { IsTrue result → IsPadded count numbers.now }
{
    let mut padded = true;
    for at in count..numbers.len() {
        padded &= numbers[at] == 0;
    }
    padded
}

/// Whether all numbers are less than 2^31.
fn are_small(numbers: &[u32]) -> bool
    ensures { IsTrue result → (i : ℕ) → i < length numbers.now → slice_index numbers.now i + 1 ≤ 2 ^ 31 }
{
    let mut small = true;
    for number in numbers {
        small &= *number < 0x8000_0000;
    }
    small
}

/// Numbers become these, and 0 after them.
fn fill(numbers: &mut [u32], with: &[u32])
    requires { length with.now ≤ length numbers.old }
    ensures { numbers.new ≡ with.now ++ replicate (length numbers.old - length with.now) 0 }
{
    numbers.fill(0);
    numbers[..with.len()].copy_from_slice(with);
}

/// Adds these numbers after others. The error is want of memory.
pub(crate) fn add_all(words: &mut Words, numbers: &[u32]) -> Result<(), AllocError>
    ensures { IfOk result (λ done. words.new ≡ words.old ++ numbers.now) }
{
    for number in numbers {
        words.push(*number)?;
    }
    Ok(())
}

impl<'a> Walker<'a> {
    /// Whether it stands at a place that has a key: positions and counts are small, and there are none of tasks and processors that there are not.
    pub(crate) fn is_packable(&self) -> bool
        ensures { IsTrue result → IsPackable self.now.place }
    {
        let processors = usize::from(self.config.processors());
        is_padded(&self.tasks, self.config.tasks().len())
            && is_padded(&self.handlers, processors)
            && is_padded(&self.taken, processors)
            && is_padded(&self.idled, processors)
            && are_small(&self.tasks)
            && are_small(&self.handlers)
            && are_small(&self.taken)
            && are_small(&self.idled)
            && self.seen < 0x8000_0000
    }

    /// How many numbers there are beside a kernel.
    pub(crate) fn word_count(&self) -> usize
        ensures value { result ≡ count_of_words self.now.place.config }
        ensures few { result ≤ 90 }
        ensures valid { IsValid self.now.place.config }
    {
        2 + 3 * usize::from(self.config.processors()) + self.config.tasks().len()
    }

    /// The key of the numbers beside a kernel, with the number of what counts in it. The error is want of memory, and leaves other keys as they were.
    pub(crate) fn number_of_words(
        &self,
        tables: &mut PlaceTables,
        counting: u32,
    ) -> Result<u32, AllocError>
        ensures is { IfOk result (λ k. IsTree tables.new.pairs (words_of self.now.place counting) k) }
        ensures pairs { IsBeginning tables.old.pairs tables.new.pairs }
        ensures parts { tables.new.parts ≡ tables.old.parts }
    {
        let processors = usize::from(self.config.processors());
        let words = &mut tables.words;
        words.become_slice(&[self.seen])?;
        add_all(words, &self.taken[..processors])?;
        add_all(words, &self.idled[..processors])?;
        add_all(words, &self.handlers[..processors])?;
        add_all(words, &self.tasks[..self.config.tasks().len()])?;
        words.push(counting)?;
        tables.lists.key_of(words.as_slice())
    }

    /// Writes the numbers beside the kernel of the place of a key over as many others, and gives those of the kernel.
    pub(crate) fn put_words(
        &self,
        tables: &mut PlaceTables,
        key: u64,
        numbers: &mut [u32],
    ) -> Packed
        requires valid { IsValid self.now.place.config }
        requires long { length numbers.old ≡ count_of_words self.now.place.config }
        requires kept { (p : Place) × IsPlaceKey (origin_of self.now.place) tables.old key p }
        ensures are { (p : Place) → IsPlaceKey (origin_of self.now.place) tables.old key p → AreOfPlace (origin_of self.now.place) tables.old p numbers.new result }
        ensures same { tables.new ≡ tables.old }
        ensures long { length numbers.new ≡ length numbers.old }
    {
        let (machine, list) = halves(key);
        tables.lists.put(list, numbers);
        let counting = numbers[numbers.len() - 1];
        Packed { machine, counting }
    }

    /// The positions and the counts become those of such numbers, and there is room for one step.
    pub(crate) fn become_words(&mut self, numbers: &[u32])
        requires long { length numbers.now ≡ count_of_words self.old.place.config }
        requires packable { (p : Place) × (counting : ℕ) × IsPackable p × (p.config ≡ self.old.place.config) × (numbers.now ≡ words_of p counting) }
        ensures place { (p : Place) (counting : ℕ) → IsPackable p → origin_of p ≡ origin_of self.old.place → numbers.now ≡ words_of p counting → self.new.place ≡ record p { machine = self.old.place.machine } }
        ensures room { self.new.left ≡ 1 }
    {
        let processors = usize::from(self.config.processors());
        let (taken, idled, handlers) = (1 + processors, 1 + 2 * processors, 1 + 3 * processors);
        self.seen = numbers[0];
        fill(&mut self.taken, &numbers[1..taken]);
        fill(&mut self.idled, &numbers[taken..idled]);
        fill(&mut self.handlers, &numbers[idled..handlers]);
        fill(&mut self.tasks, &numbers[handlers..numbers.len() - 1]);
        self.left = 1;
    }
}
