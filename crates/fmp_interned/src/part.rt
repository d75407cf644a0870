//! Lists of values that are kept by the numbers of their values.
ghost use Rattle.std.specs.Prelude.{IfOk};
ghost use Rattle.fmp_interned.specs.Parts.{AddsNumbers};
ghost use Rattle.fmp_interned.specs.Values.{IsBeginning};

use crate::interned::Interned;
use crate::value::Value;
use crate::words::Words;
use std::alloc::AllocError;

/// Adds the numbers of values, each of which is kept from then on. A value that has the number which stands at its place in another list is found sooner: no
/// answer depends on that list. The error is want of memory, or that 2^32 - 1 values are kept, and leaves the numbers of other values as they were.
pub fn number_each<V: Value + Drop>(
    kept: &mut Interned<V>,
    values: &[V],
    near: &[u32],
    numbers: &mut Words,
) -> Result<(), AllocError>
    ensures added { IfOk result (λ done. AddsNumbers kept.new values.now numbers.old numbers.new) }
    ensures kept { IsBeginning kept.old kept.new }
{
    for value in values {
        let number = kept.number_of_near(value, numbers.beside(near))?;
        numbers.push(number)?;
    }
    Ok(())
}
