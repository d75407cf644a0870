//! How many places of a search are left where one thing is not looked at.
ghost use Rattle.std.specs.Prelude.{◌≡◌, Ok, IfOk, length};
ghost use Rattle.fmp_search_kernel.specs.Weights.{AreLeftEach};
ghost use Rattle.fmp_search_orders.specs.Places as places;
ghost use Rattle.fmp_search_walks.specs.Left.{AreFirstFrom, AreLeftWithout};

use crate::searching::two_walkers;
use fmp_ranges::Bounds;
use fmp_rules::Config;
use fmp_search::{Places, Progress, first_places};
use fmp_search_kernel::{PlaceTables, Walker};
use fmp_search_orders::Rules;
use fmp_search_pattern::Question;
use fmp_text_scripts::Scripts;
use std::alloc::{AllocError, Global};

/// The first places of all orders, by keys.
fn places_first<P: Progress>(
    alloc: Global,
    config: &Config,
    scripts: &Scripts,
    rules: Rules,
    question: &Question,
    progress: &mut P,
    bounds: Bounds,
) -> Result<Places<PlaceTables>, AllocError>
    ensures { IfOk result (λ p. AreFirstFrom (places.origin config.now scripts.now rules question.now) bounds.turns.count p.tables p.keys.items) }
{
    let walkers = two_walkers(config, scripts, rules, question)?;
    let (turns, most) = (bounds.turns.count, bounds.places.count - 1);
    first_places(alloc, walkers, progress, turns, most)
}

/// How many of such places are left without each thing.
fn without_each(
    alloc: Global,
    config: &Config,
    scripts: &Scripts,
    rules: Rules,
    question: &Question,
    _bounds: Bounds,
    first: &mut Places<PlaceTables>,
) -> Result<Vec<usize>, AllocError>
    requires { AreFirstFrom (places.origin config.now scripts.now rules question.now) _bounds.turns.count first.old.tables first.old.keys.items }
    ensures left { IfOk result (λ v. AreLeftEach (places.origin config.now scripts.now rules question.now) first.old.tables first.old.keys.items v.items) }
    ensures same { (first.new.tables ≡ first.old.tables) × (first.new.keys.items ≡ first.old.keys.items) }
{
    let walker = Walker::new(config, scripts, rules, question)?;
    walker.left_without(alloc, &mut first.tables, &first.keys)
}

/// How many places there are, with what was counted of them. It is of any tables: where these are known it takes long to check that each is let go.
fn with_count<T: Drop>(
    first: Places<T>,
    without: Result<Vec<usize>, AllocError>,
) -> Result<(usize, Vec<usize>), AllocError>
    ensures { IfOk result (λ r. (r.0 ≡ length first.keys.items) × (without ≡ Ok r.1)) }
{
    match without {
        Ok(without) => Ok((first.keys.len(), without)),
        Err(fault) => Err(fault),
    }
}

/// Goes through the first places of all orders once more: how many these are, and how many of them are left without each alarm, cyclic handler, task, pool,
/// eventflag, semaphore and data queue, in this order. The bounds say how many places there are, and of how many lines orders have at most. Where `progress`
/// ends it before, these are fewer. The error is want of memory.
pub fn places_left<P: Progress>(
    alloc: Global,
    config: &Config,
    scripts: &Scripts,
    rules: Rules,
    question: &Question,
    progress: &mut P,
    bounds: Bounds,
) -> Result<(usize, Vec<usize>), AllocError>
    ensures { IfOk result (λ r. AreLeftWithout (places.origin config.now scripts.now rules question.now) bounds.turns.count r.0 r.1.items) }
{
    let mut first = places_first(alloc, config, scripts, rules, question, progress, bounds)?;
    let without = without_each(alloc, config, scripts, rules, question, bounds, &mut first);
    with_count(first, without)
}
