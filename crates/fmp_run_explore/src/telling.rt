//! The text that tells what was found.
ghost use Rattle.std.specs.Prelude.{◌≡◌, ◌<◌, ◌^◌, ◌++◌, length, IfOk, codes, decimal, is_some, true};
ghost use Rattle.fmp_search.specs.Runs.{run};
ghost use Rattle.fmp_search_orders.specs.Places as places;
ghost use Rattle.fmp_trace.specs.Lines.{lines_from};

use crate::orders::Orders;
use fmp_search_pattern::Question;
use fmp_search_walks::trace_of_steps;
use itoa::Buffer;
use std::alloc::{AllocError, Global};

/// The trace of what happens along these steps, which can be made one after the other.
pub fn trace_along(
    alloc: Global,
    orders: &Orders<'_>,
    question: &Question,
    steps: &[u8],
) -> Result<Vec<u8>, AllocError>
    requires leads { is_some (run places.after (places.origin orders.now.config.now orders.now.scripts.now orders.now.rules question.now) steps.now) ≡ true }
    requires few { length steps.now < 2 ^ 31 }
    ensures { IfOk result (λ text. text.items ≡ lines_from orders.now.config.now.names 1 (places.records
        (places.origin orders.now.config.now orders.now.scripts.now orders.now.rules question.now) steps.now)) }
{
    trace_of_steps(
        alloc,
        orders.config,
        orders.scripts,
        orders.rules,
        question,
        steps,
    )
}

/// The text that no order shows it.
pub fn never(alloc: Global) -> Result<Vec<u8>, AllocError>
    ensures { IfOk result (λ text. text.items ≡ codes "never\n") }
{
    Vec::from_slice(alloc, b"never\n")
}

/// The text that no order of at most so many lines does.
pub fn not_within(alloc: Global, turns: u32) -> Result<Vec<u8>, AllocError>
    ensures { IfOk result (λ text. text.items ≡ codes "not within " ++ decimal turns ++ codes "\n") }
{
    let mut buffer = Buffer::new();
    let mut out = Vec::from_slice(alloc, b"not within ")?;
    out.extend_from_slice(buffer.format(turns).as_bytes())?;
    out.push(b'\n')?;
    Ok(out)
}
