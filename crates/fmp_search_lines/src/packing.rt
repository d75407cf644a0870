//! What is taken, and the key of a player's state, by one key.
ghost use Rattle.std.specs.Prelude.{◌≡◌, ◌≤◌, ◌+◌, ◌++◌, ℕ, List, length, IfOk};
ghost use Rattle.fmp_interned.specs.Values.{IsBeginning};
ghost use Rattle.fmp_search_lines.specs.Keys.{words_of, HasTaken, IsTakenKey};

use crate::taken::{Taken, put_all};
use arrayvec::ArrayVec;
use fmp_interned::{Lists, Words};
use fmp_search::{halves, joined};
use std::alloc::AllocError;

/// How many numbers tell what is taken and a key at most: the halves of the key, the top, and the pending lines.
const MOST: usize = 19;

/// Adds these lines to numbers. The error is want of memory.
fn add_lines(words: &mut Words, lines: &[u32]) -> Result<(), AllocError>
    ensures { IfOk result (λ done. words.new ≡ words.old ++ lines.now) }
{
    for line in lines {
        words.push(*line)?;
    }
    Ok(())
}

/// The numbers that tell what is taken and the key of a state take the place of others. The error is want of memory.
fn put_words(words: &mut Words, state: u64, taken: &Taken) -> Result<(), AllocError>
    ensures { IfOk result (λ done. words.new ≡ words_of state taken.now.top taken.now.pending.items) }
{
    let (upper, lower) = halves(state);
    words.clear();
    words.push(upper)?;
    words.push(lower)?;
    words.push(taken.top)?;
    add_lines(words, taken.pending.as_slice())
}

/// The key of the key of a state and of what is taken, by lists that are kept from then on. The error is want of memory, and leaves other keys as they were.
pub(crate) fn pack_taken(
    lists: &mut Lists,
    words: &mut Words,
    state: u64,
    taken: &Taken,
) -> Result<u64, AllocError>
    ensures is { IfOk result (λ k. IsTakenKey lists.new k state taken.now.top taken.now.pending.items) }
    ensures kept { IsBeginning lists.old lists.new }
{
    put_words(words, state, taken)?;
    let list = lists.key_of(words.as_slice())?;
    Ok(joined(taken.pending.len() as u32, list))
}

/// The key of a state and what is taken, of the numbers that tell them.
fn taken_of(numbers: &[u32]) -> (u64, Taken)
    requires some { 3 ≤ length numbers.now }
    requires few { length numbers.now ≤ 19 }
    ensures { (state top : ℕ) (pending : List ℕ) → numbers.now ≡ words_of state top pending →
        (result.0 ≡ state) × (result.1.top ≡ top) × (result.1.pending.items ≡ pending) }
{
    let mut pending = ArrayVec::new();
    put_all(&mut pending, &numbers[3..]);
    let state = joined(numbers[0], numbers[1]);
    let top = numbers[2];
    (state, Taken { top, pending })
}

/// The key of a state and what is taken, of the key of both.
pub(crate) fn unpack_taken(lists: &mut Lists, key: u64) -> (u64, Taken)
    requires { HasTaken lists.old key }
    ensures same { lists.new ≡ lists.old }
    ensures is { (state top : ℕ) (pending : List ℕ) → IsTakenKey lists.old key state top pending →
        (result.0 ≡ state) × (result.1.top ≡ top) × (result.1.pending.items ≡ pending) }
{
    let (count, list) = halves(key);
    let mut room = [0; MOST];
    let numbers = &mut room[..count as usize + 3];
    lists.put(list, numbers);
    taken_of(numbers)
}
