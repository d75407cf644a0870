//! The search through all orders of one machine and its scripts for what stays for ever, and for the calls that are made.
ghost use Rattle.std.specs.Prelude.{◌≡◌, ◌≤◌, ◌-◌, false, [], None, length, IfOk, IfSome};
ghost use Rattle.fmp_search.specs.Extents.{WentForEver};
ghost use Rattle.fmp_search.specs.Forever.{SaysForEver};
ghost use Rattle.fmp_search.specs.Meeting.{IsLeftOpen, IsMetBesideStay, Meets};
ghost use Rattle.fmp_search_orders.specs.Made.{watched_number};
ghost use Rattle.fmp_search_orders.specs.Places as places;
ghost use Rattle.fmp_search_orders.specs.Watched as watched;

use fmp_ranges::Bounds;
use fmp_rules::Config;
use fmp_search::{Extent, Met, Progress, Space, Stay, for_ever, meet};
use fmp_search_kernel::{NUMBERS, Watcher};
use fmp_search_orders::Rules;
use fmp_search_pattern::{Moment, Question};
use fmp_text_scripts::Scripts;
use std::alloc::{AllocError, Global};

/// Two who watch, where all runs begin. The question has no steps.
fn two_watchers<'a>(
    config: &'a Config,
    scripts: &'a Scripts,
    rules: Rules,
    none: &'a Question,
    lasting: &'a [Moment],
) -> Result<(Watcher<'a>, Watcher<'a>), AllocError>
    requires none { none.now ≡ [] }
    requires few { length lasting.now ≤ 64 }
    ensures first { IfOk result (λ r. r.0.place ≡ watched.watched lasting.entry.now (places.origin config.entry.now scripts.entry.now rules [])) }
    ensures second { IfOk result (λ r. r.1.place ≡ watched.watched lasting.entry.now (places.origin config.entry.now scripts.entry.now rules [])) }
{
    let first = Watcher::new(config, scripts, rules, none, lasting)?;
    let second = Watcher::new(config, scripts, rules, none, lasting)?;
    Ok((first, second))
}

/// What `for_ever` gives, by these two. It is of any space, as `explored` is.
fn stayed<W: Space + Drop, P: Progress>(
    alloc: Global,
    watchers: (W, W),
    progress: &mut P,
    bounds: Bounds,
    tests: u8,
    count: usize,
) -> Result<(Stay, Extent, Option<Met>), AllocError>
    requires origin { W.origin watchers.1 ≡ W.origin watchers.0 }
    requires tests { tests ≤ 64 }
    ensures says { IfOk result (λ r. SaysForEver W.after W.passes W.wanted (W.origin watchers.0) tests bounds.turns.count (bounds.places.count - 1)
        (P.over progress.new) r.0) }
    ensures went { IfOk result (λ r. WentForEver W.after (W.origin watchers.0) r.0 r.1) }
    ensures met { IfOk result (λ r. IfSome r.2 (Meets W.after W.tells (W.origin watchers.0) bounds.turns.count count)) }
    ensures beside { IfOk result (λ r. IsMetBesideStay bounds.turns.count r.0 r.2) }
{
    let (mut watcher, mut base) = watchers;
    for_ever(
        alloc,
        &mut watcher,
        &mut base,
        progress,
        bounds.turns.count,
        bounds.places.count - 1,
        tests,
        count,
    )
}

/// What is known of all runs over places for what is to stay, as far as the bounds say, how far the search went, and which calls are made by the steps of
/// these runs. The question has no steps. The error is want of memory.
pub fn search_lasting<P: Progress>(
    alloc: Global,
    config: &Config,
    scripts: &Scripts,
    rules: Rules,
    none: &Question,
    lasting: &[Moment],
    progress: &mut P,
    bounds: Bounds,
) -> Result<(Stay, Extent, Option<Met>), AllocError>
    requires none { none.now ≡ [] }
    requires few { length lasting.now ≤ 64 }
    ensures says { IfOk result (λ r. SaysForEver watched.watched_after watched.watched_passes (λ w. false)
        (watched.watched lasting.now (places.origin config.now scripts.now rules [])) (length lasting.now) bounds.turns.count (bounds.places.count - 1)
        (P.over progress.new) r.0) }
    ensures went { IfOk result (λ r. WentForEver watched.watched_after (watched.watched lasting.now (places.origin config.now scripts.now rules [])) r.0 r.1) }
    ensures met { IfOk result (λ r. IfSome r.2 (Meets watched.watched_after watched_number
        (watched.watched lasting.now (places.origin config.now scripts.now rules [])) bounds.turns.count 65536)) }
    ensures beside { IfOk result (λ r. IsMetBesideStay bounds.turns.count r.0 r.2) }
{
    let watchers = two_watchers(config, scripts, rules, none, lasting)?;
    let tests = lasting.len() as u8;
    stayed(alloc, watchers, progress, bounds, tests, NUMBERS as usize)
}

/// Which calls are made by the steps of runs of at most as many steps as the bounds say, by those who watch for something. None only where the room for places
/// was used up before, or `progress` ended the search. The question has no steps. The error is want of memory.
pub fn search_calls<P: Progress>(
    alloc: Global,
    config: &Config,
    scripts: &Scripts,
    rules: Rules,
    none: &Question,
    lasting: &[Moment],
    progress: &mut P,
    bounds: Bounds,
) -> Result<Option<Met>, AllocError>
    requires none { none.now ≡ [] }
    requires few { length lasting.now ≤ 64 }
    ensures met { IfOk result (λ o. IfSome o (Meets watched.watched_after watched_number
        (watched.watched lasting.now (places.origin config.now scripts.now rules [])) bounds.turns.count 65536)) }
    ensures none { IfOk result (λ o. o ≡ None → IsLeftOpen watched.watched_after (λ w. false)
        (watched.watched lasting.now (places.origin config.now scripts.now rules [])) bounds.turns.count (bounds.places.count - 1) (P.over progress.new)) }
{
    let watchers = two_watchers(config, scripts, rules, none, lasting)?;
    meet(
        alloc,
        watchers,
        progress,
        bounds.turns.count,
        bounds.places.count - 1,
        NUMBERS as usize,
    )
}
