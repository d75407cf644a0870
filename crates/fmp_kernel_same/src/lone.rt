//! Records that can be kept once.
ghost use Rattle.std.specs.Prelude.{◌≡◌, IfOk};
ghost use Rattle.fmp_interned.specs.Parts.{AddsNumbers};
ghost use Rattle.fmp_interned.specs.Values.{IsBeginning};
ghost use Rattle.fmp_kernel_parts.specs.Digests.{seed, told};

use crate::same::ValueToDigest;
use fmp_interned::{Interned, Value, Words};
use fmp_kernel_parts::Digest;
use std::alloc::AllocError;
use std::marker::Model;

/// A record by itself, which can be kept once. Contracts see it as the record.
#[derive(Drop)]
pub struct Lone<T: ValueToDigest + Copy> {
    record: T,
}

impl<T: ValueToDigest + Copy> Model for Lone<T> {
    ghost Value = { T };

    ghost view = { λ lone. lone.record };
}

impl<T: ValueToDigest + Copy> Lone<T> {
    /// The record.
    pub fn get(&self) -> T
        ensures { result ≡ self.now }
    {
        self.record
    }
}

impl<T: ValueToDigest + Copy> Value for Lone<T> {
    ghost hashed = { λ r. told (T.digested r seed) };

    fn is_same(&self, other: &Self) -> bool {
        self.record.is_same(&other.record)
    }

    fn hash(&self) -> u64 {
        let mut digest = Digest::new();
        self.record.add_to(&mut digest);
        digest.value()
    }

    fn another(&self) -> Result<Self, AllocError> {
        Ok(Lone {
            record: self.record,
        })
    }
}

/// Adds the numbers of records, each of which is kept from then on. A record that has the number which stands at its place in another list is found sooner: no
/// answer depends on that list. The error is want of memory, or that 2^32 - 1 records are kept, and leaves the numbers of other records as they were.
pub fn number_records<T: ValueToDigest + Copy>(
    kept: &mut Interned<Lone<T>>,
    records: &[T],
    near: &[u32],
    numbers: &mut Words,
) -> Result<(), AllocError>
    ensures added { IfOk result (λ done. AddsNumbers kept.new records.now numbers.old numbers.new) }
    ensures kept { IsBeginning kept.old kept.new }
{
    for record in records {
        let number = kept.number_of_near(&Lone { record: *record }, numbers.beside(near))?;
        numbers.push(number)?;
    }
    Ok(())
}
