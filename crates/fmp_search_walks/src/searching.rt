//! The search through all orders of one machine and its scripts for what a question asks.
ghost use Rattle.std.specs.Prelude.{◌≡◌, ◌-◌, IfOk, IfSome};
ghost use Rattle.fmp_search.specs.Answers.{IsEndedBy, Says};
ghost use Rattle.fmp_search.specs.Extents.{Went};
ghost use Rattle.fmp_search.specs.Guides.{SaysAlong};
ghost use Rattle.fmp_search.specs.Meeting.{IsMetBeside, Meets};
ghost use Rattle.fmp_search_orders.specs.Laws.{is_seen};
ghost use Rattle.fmp_search_orders.specs.Made.{number_at};
ghost use Rattle.fmp_search_orders.specs.Places as places;

use fmp_ranges::Bounds;
use fmp_rules::Config;
use fmp_search::{Answer, Choice, Extent, Met, Progress, Space, explore, explore_along};
use fmp_search_kernel::{NUMBERS, Walker};
use fmp_search_orders::Rules;
use fmp_search_pattern::Question;
use fmp_text_scripts::Scripts;
use std::alloc::{AllocError, Global};

/// Two walkers where all runs begin.
pub(crate) fn two_walkers<'a>(
    config: &'a Config,
    scripts: &'a Scripts,
    rules: Rules,
    question: &'a Question,
) -> Result<(Walker<'a>, Walker<'a>), AllocError>
    ensures first { IfOk result (λ r. r.0.place ≡ places.origin config.entry.now scripts.entry.now rules question.entry.now) }
    ensures second { IfOk result (λ r. r.1.place ≡ places.origin config.entry.now scripts.entry.now rules question.entry.now) }
{
    let first = Walker::new(config, scripts, rules, question)?;
    let second = Walker::new(config, scripts, rules, question)?;
    Ok((first, second))
}

/// What `explore` gives, by these two. It is of any space, since in a function of walkers, which borrow what they are asked, the check of these
/// borrows takes minutes.
fn explored<W: Space + Drop, P: Progress>(
    alloc: Global,
    walkers: (W, W),
    progress: &mut P,
    bounds: Bounds,
    count: usize,
) -> Result<(Answer, Option<Extent>, Option<Met>), AllocError>
    requires origin { W.origin walkers.1 ≡ W.origin walkers.0 }
    ensures says { IfOk result (λ r. Says W.after W.wanted (W.origin walkers.0) bounds.turns.count (bounds.places.count - 1) r.0) }
    ensures went { IfOk result (λ r. Went W.after (W.origin walkers.0) r.0 r.1) }
    ensures met { IfOk result (λ r. IfSome r.2 (Meets W.after W.tells (W.origin walkers.0) bounds.turns.count count)) }
    ensures beside { IfOk result (λ r. IsMetBeside bounds.turns.count r.0 r.2) }
    ensures ended { IfOk result (λ r. IsEndedBy (P.over progress.new) r.0) }
{
    let (mut walker, mut base) = walkers;
    explore(
        alloc,
        &mut walker,
        &mut base,
        progress,
        bounds.turns.count,
        bounds.places.count - 1,
        count,
    )
}

/// What is known of all runs over places, as far as the bounds say, how far the search went, and which calls are made by the steps of these runs. The error is
/// want of memory.
pub fn search_for<P: Progress>(
    alloc: Global,
    config: &Config,
    scripts: &Scripts,
    rules: Rules,
    question: &Question,
    progress: &mut P,
    bounds: Bounds,
) -> Result<(Answer, Option<Extent>, Option<Met>), AllocError>
    ensures says { IfOk result (λ r. Says places.after is_seen (places.origin config.now scripts.now rules question.now) bounds.turns.count (bounds.places.count - 1) r.0) }
    ensures went { IfOk result (λ r. Went places.after (places.origin config.now scripts.now rules question.now) r.0 r.1) }
    ensures met { IfOk result (λ r. IfSome r.2 (Meets places.after number_at (places.origin config.now scripts.now rules question.now) bounds.turns.count 65536)) }
    ensures beside { IfOk result (λ r. IsMetBeside bounds.turns.count r.0 r.2) }
    ensures ended { IfOk result (λ r. IsEndedBy (P.over progress.new) r.0) }
{
    let walkers = two_walkers(config, scripts, rules, question)?;
    explored(alloc, walkers, progress, bounds, NUMBERS as usize)
}

/// What is known of all runs over places that begin with a step of each of these choices, as far as the bounds say. The error is want of memory.
pub fn search_along<P: Progress>(
    alloc: Global,
    config: &Config,
    scripts: &Scripts,
    rules: Rules,
    question: &Question,
    choices: &[Choice],
    progress: &mut P,
    bounds: Bounds,
) -> Result<Answer, AllocError>
    ensures ended { IfOk result (IsEndedBy (P.over progress.new)) }
    ensures says { IfOk result (λ answer. SaysAlong places.after is_seen (places.origin config.now scripts.now rules question.now) choices.now bounds.turns.count
        (bounds.places.count - 1) answer) }
{
    let (walker, base) = two_walkers(config, scripts, rules, question)?;
    let (turns, more) = (bounds.turns.count, bounds.places.count - 1);
    explore_along(alloc, walker, base, choices, progress, turns, more)
}
