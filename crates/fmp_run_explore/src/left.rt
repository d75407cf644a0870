//! How many places of a search are left where one thing is not looked at.
ghost use Rattle.std.specs.Prelude.{IfOk};
ghost use Rattle.fmp_search_orders.specs.Places as places;
ghost use Rattle.fmp_run_explore.specs.Left.{IsLeft};

use crate::orders::Orders;
use fmp_ranges::Bounds;
use fmp_search::Progress;
use fmp_search_pattern::Question;
use fmp_search_walks::places_left;
use std::alloc::{AllocError, Global};

/// How many of the first places of a search are left where one thing is not looked at.
#[derive(Drop)]
pub struct Left {
    /// How many places were looked at.
    pub places: usize,
    /// How many are left without each alarm, cyclic handler, task, pool, eventflag, semaphore and data queue, in this order.
    pub without: Vec<usize>,
}

/// Goes through the first places of all orders once more, and tells how many are left without each thing. The bounds say how many places there are, and of how
/// many lines orders have at most. Where `progress` ends it before, these are fewer. The error is want of memory.
pub fn left_without<P: Progress>(
    alloc: Global,
    orders: &Orders<'_>,
    question: &Question,
    progress: &mut P,
    bounds: Bounds,
) -> Result<Left, AllocError>
    ensures { IfOk result (IsLeft (places.origin orders.now.config.now orders.now.scripts.now orders.now.rules question.now) bounds.turns.count) }
{
    let (places, without) = places_left(
        alloc,
        orders.config,
        orders.scripts,
        orders.rules,
        question,
        progress,
        bounds,
    )?;
    Ok(Left { places, without })
}
