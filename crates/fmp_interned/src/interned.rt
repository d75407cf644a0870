//! Values that are kept once each.
ghost use Rattle.std.specs.Prelude.{◌≡◌, ◌<◌, ◌+◌, ◌^◌, ◌++◌, ◌∷◌, ◌↔◌, [], Some, length, map, slice_get, IfOk, IsTrue, MatchOption, OnErr};
ghost use Rattle.fmp_interned.specs.Tables.{free_in, Holds};
ghost use Rattle.fmp_interned.specs.Values.{AreDistinct, IsAdded, IsBeginning, IsNew};

use crate::table::{FREE, LEAST, clear_for, put, slot};
use crate::value::Value;
use std::alloc::{AllocError, Global};
use std::marker::Model;

/// How many values are kept at most: the number of one more does not fit into a slot.
const MOST: usize = 0xffff_ffff;

/// Values, no two of them the same, by numbers from 0 in the order in which they came. Contracts see it as the list of the values.
#[derive(Drop)]
pub struct Interned<V: Value + Drop> {
    values: Vec<V>,
    /// A table of the numbers of the values by their hashes, where each is one more than it is and 0 is none.
    slots: Vec<u32>,
}

impl<V: Value + Drop> Model for Interned<V> {
    ghost use Rattle.std.specs.Prelude.{List};
    ghost use Rattle.fmp_interned.specs.Kept.{IsKept};

    ghost Value = { List V };

    ghost view = { λ t. t.values.items };

    ghost invariant = { λ t. IsKept V.hashed t.values.items t.slots.items };
}

/// Puts the numbers of values into a table that is free.
fn put_all<V: Value + Drop>(slots: &mut Vec<u32>, values: &[V])
    requires few { length values.now < 2 ^ 32 }
    requires room { length values.now < length slots.old.items }
    requires free { free_in slots.old.items ≡ length slots.old.items }
    ensures holds { Holds slots.new.items (map V.hashed values.now) }
    ensures long { length slots.new.items ≡ length slots.old.items }
{
    for at in 0..values.len() {
        put(slots, values[at].hash(), at as u32 + 1);
    }
}

/// Makes the table of the numbers of values twice as large where it is half full. The error is want of memory, or that there can be no number for one more.
fn make_room<V: Value + Drop>(slots: &mut Vec<u32>, values: &[V]) -> Result<(), AllocError>
    requires few { length values.now < 2 ^ 32 }
    requires holds { Holds slots.old.items (map V.hashed values.now) }
    ensures holds { Holds slots.new.items (map V.hashed values.now) }
    ensures room { IfOk result (λ done. (0 < free_in slots.new.items) × (length values.now + 1 < 2 ^ 32)) }
{
    if values.len() >= MOST {
        return Err(AllocError);
    }
    if values.len() >= slots.len() / 2 {
        clear_for(slots, (4 * values.len()).max(LEAST))?;
        put_all(slots, values);
    }
    Ok(())
}

/// Whether a value stands at a place of a list.
fn is_at<V: Value + Drop>(values: &[V], at: usize, value: &V) -> bool
    ensures { IsTrue result ↔ (slice_get values.now at ≡ Some value.now) }
{
    match values.get(at) {
        Some(other) => other.is_same(value),
        None => false,
    }
}

/// Adds one more that is the same as a value. The error is want of memory, and leaves the values as they were.
fn push_another<V: Value + Drop>(values: &mut Vec<V>, value: &V) -> Result<(), AllocError>
    ensures added { IfOk result (λ done. values.new.items ≡ values.old.items ++ value.now ∷ []) }
    ensures left { OnErr result (values.new.items ≡ values.old.items) }
{
    values.push(value.another()?)?;
    Ok(())
}

impl<V: Value + Drop> Interned<V> {
    /// No values.
    pub fn new(alloc: Global) -> Self
        ensures { result ≡ [] }
    {
        Interned {
            values: Vec::new(alloc),
            slots: Vec::new(alloc),
        }
    }

    /// How many values there are.
    pub fn len(&self) -> usize
        ensures { result ≡ length self.now }
    {
        self.values.len()
    }

    /// The value of a number.
    pub fn get(&self, number: u32) -> &V
        requires { number < length self.now }
        ensures { slice_get self.now number ≡ Some result.now }
    {
        &self.values[number as usize]
    }

    /// The number of a value, if it is kept.
    pub fn find(&self, value: &V) -> Option<u32>
        ensures { MatchOption result (IsNew self.now value.now) (λ n. slice_get self.now n ≡ Some value.now) }
    {
        let hash = value.hash();
        let slots = self.slots.len();
        for turn in 0..slots {
            let number = self.slots[slot(hash, turn, slots)];
            if number == FREE {
                return None;
            }
            if is_at(&self.values, number as usize - 1, value) {
                return Some(number - 1);
            }
        }
        None
    }

    /// Keeps a value that is not kept yet, after the others. The error is want of memory, or that as many are kept as there can be.
    fn add(&mut self, value: &V) -> Result<u32, AllocError>
        requires { IsNew self.old value.now }
        ensures added { IfOk result (λ n. (n ≡ length self.old) × (self.new ≡ self.old ++ value.now ∷ [])) }
        ensures left { OnErr result (self.new ≡ self.old) }
    {
        make_room(&mut self.slots, &self.values)?;
        let number = self.values.len() as u32;
        push_another(&mut self.values, value)?;
        put(&mut self.slots, value.hash(), number + 1);
        Ok(number)
    }

    /// The number of a value, which is kept after the others where it is new. The error is want of memory, or that 2^32 - 1 values are kept.
    pub fn number_of(&mut self, value: &V) -> Result<u32, AllocError>
        ensures is { IfOk result (λ n. slice_get self.new n ≡ Some value.now) }
        ensures added { IfOk result (λ n. IsAdded self.old value.now self.new) }
        ensures left { OnErr result (self.new ≡ self.old) }
        ensures kept { IsBeginning self.old self.new }
    {
        match self.find(value) {
            Some(number) => Ok(number),
            None => self.add(value),
        }
    }

    /// As `number_of`, but sooner where the value has this number already. No answer depends on it: it may be any number.
    pub fn number_of_near(&mut self, value: &V, near: u32) -> Result<u32, AllocError>
        ensures is { IfOk result (λ n. slice_get self.new n ≡ Some value.now) }
        ensures kept { IsBeginning self.old self.new }
    {
        if is_at(&self.values, near as usize, value) {
            return Ok(near);
        }
        self.number_of(value)
    }

    /// No two values are the same, so two numbers are the same where their values are; and there are fewer than 2^32.
    pub fn validity(&self)
        ensures distinct { AreDistinct self.now }
        ensures few { length self.now < 2 ^ 32 }
    {
        let _values = &self.values;
    }
}
