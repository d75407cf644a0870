//! The search for how far each figure goes.
ghost use Rattle.std.specs.Prelude.{◌≡◌, ◌+◌, ◌-◌, ◌*◌, ◌/◌, ◌<◌, ◌≤◌, [], None, IfOk, IfSome, length, map, if◌then◌else◌};
ghost use Rattle.fmp_search.specs.Meeting.{Meets};
ghost use Rattle.fmp_search_orders.specs.Places as places;
ghost use Rattle.fmp_search_orders.specs.Unknown.{IsNotKnown};
ghost use Rattle.fmp_search_walks.specs.Metered as metered;
ghost use Rattle.fmp_run_most.specs.Figures.{value};
ghost use Rattle.fmp_run_most.specs.Gauged as spec;
ghost use Rattle.fmp_run_most.specs.Most as known;
ghost use Rattle.fmp_run_most.specs.Most.{AreMost, IsSettled};

use crate::gauge::{Gauge, SPAN};
use crate::raising::raise;
use crate::sizing::Sizing;
use crate::things::at_boot;
use fmp_ranges::{Bounds, Turns};
use fmp_run_texts::Status;
use fmp_search::{Met, Progress};
use fmp_search_walks::search_numbers;
use std::alloc::{AllocError, Global};

/// Of which orders something is known.
#[derive(Clone, Copy)]
pub enum Reach {
    /// Of all.
    Whole,
    /// Of those of at most so many lines.
    Within,
    /// Of some.
    Part,
}

impl Reach {
    /// That of all orders, or of those of at most so many lines.
    const fn of(whole: bool) -> Reach
        ensures { result ≡ (if whole then Reach.Whole else Reach.Within) }
    {
        if whole { Reach::Whole } else { Reach::Within }
    }

    /// How the program ends after it.
    pub const fn status(self) -> Status
        ensures { result ≡ known.status_of self }
    {
        match self {
            Reach::Whole => Status::Done,
            Reach::Within | Reach::Part => Status::Limit,
        }
    }
}

/// Which figures are beyond their bounds after events, the first after each. None only where the room for places was used up, or `progress` ended the search.
fn beyond_met<P: Progress>(
    alloc: Global,
    sizing: &Sizing<'_>,
    bounds: &[u16],
    progress: &mut P,
    within: Bounds,
) -> Result<Option<Met>, AllocError>
    requires { length bounds.now ≡ length sizing.now.figures.now }
    ensures meets { IfOk result (λ o. IfSome o (Meets metered.metered_after metered.metered_number
        (spec.gauged sizing.now.figures.now bounds.now (places.origin sizing.now.config.now sizing.now.scripts.now sizing.now.rules [])) within.turns.count
        (length sizing.now.figures.now * spec.span))) }
    ensures none { IfOk result (λ o. o ≡ None → IsNotKnown sizing.now.config.now sizing.now.scripts.now sizing.now.rules within.turns.count
        (within.places.count - 1) (P.over progress.new)) }
{
    let gauge = Gauge {
        figures: sizing.figures,
        bounds,
    };
    let count = sizing.figures.len() * SPAN as usize;
    search_numbers(
        alloc,
        sizing.config,
        sizing.scripts,
        sizing.rules,
        sizing.none,
        &gauge,
        progress,
        within,
        count,
    )
}

/// Moves the bounds of figures, which are their numbers at boot, to how far the figures go, and tells of which orders that is: of some only where the room
/// for places was used up, or `progress` ended the search. The error is want of memory.
fn settle<P: Progress>(
    alloc: Global,
    sizing: &Sizing<'_>,
    bounds: &mut [u16],
    progress: &mut P,
    within: Bounds,
) -> Result<Reach, AllocError>
    requires begin { bounds.old ≡ map (value (places.origin sizing.now.config.now sizing.now.scripts.now sizing.now.rules []).machine) sizing.now.figures.now }
    ensures most { IfOk result (λ reach. AreMost sizing.now.config.now sizing.now.scripts.now sizing.now.rules within.turns.count reach sizing.now.figures.now bounds.new) }
    ensures part { IfOk result (λ reach. reach ≡ Reach.Part → IsNotKnown sizing.now.config.now sizing.now.scripts.now sizing.now.rules within.turns.count
        (within.places.count - 1) (P.over progress.new)) }
{
    let _names = sizing.config.names();
    let mut whole = true;
    for at in 0..sizing.figures.len() {
        let Some(met) = beyond_met(alloc, sizing, bounds, progress, within)? else {
            return Ok(Reach::Part);
        };
        whole &= met.whole;
        if !met.marks.contains(&true) {
            return Ok(Reach::of(whole));
        }
        raise(sizing.figures, bounds, &met.marks);
    }
    Ok(Reach::of(whole))
}

/// How far the figures go, and of which orders that is, likewise.
fn settled_within<P: Progress>(
    alloc: Global,
    sizing: &Sizing<'_>,
    progress: &mut P,
    within: Bounds,
) -> Result<(Vec<u16>, Reach), AllocError>
    ensures most { IfOk result (λ r. AreMost sizing.now.config.now sizing.now.scripts.now sizing.now.rules within.turns.count r.1 sizing.now.figures.now r.0.items) }
    ensures part { IfOk result (λ r. r.1 ≡ Reach.Part → IsNotKnown sizing.now.config.now sizing.now.scripts.now sizing.now.rules within.turns.count
        (within.places.count - 1) (P.over progress.new)) }
{
    let mut bounds = at_boot(alloc, sizing.config, sizing.figures)?;
    let reach = settle(alloc, sizing, &mut bounds, progress, within)?;
    Ok((bounds, reach))
}

/// How many lines are tried after so many: a quarter more and one, or as many as are asked for.
fn more_lines(lines: u32, most: u32) -> u32
    requires { (lines < most) × (most ≤ 1000000) }
    ensures more { lines < result }
    ensures near { result ≤ lines + 1 + lines / 4 }
    ensures asked { result ≤ most }
{
    let more = lines + 1 + lines / 4;
    if more < most { more } else { most }
}

/// How far they go in orders of fewer lines, as many as there is room for, by steps that grow. What is known of some orders is given, and stays where more
/// is not known. The error is want of memory.
fn settled_nearer<P: Progress>(
    alloc: Global,
    sizing: &Sizing<'_>,
    known: Vec<u16>,
    progress: &mut P,
    within: Bounds,
) -> Result<(Vec<u16>, Reach), AllocError>
    requires known { AreMost sizing.now.config.now sizing.now.scripts.now sizing.now.rules within.turns.count Reach.Part sizing.now.figures.now known.items }
    ensures { IfOk result (λ r. IsSettled sizing.now.config.now sizing.now.scripts.now sizing.now.rules within.turns.count (within.places.count - 1)
        (P.over progress.new) r.1 sizing.now.figures.now r.0.items) }
{
    let mut best = known;
    let mut reach = Reach::Part;
    let mut lines = 0;
    while lines < within.turns.count {
        let next = more_lines(lines, within.turns.count);
        let fewer = Bounds {
            turns: Turns { count: next },
            places: within.places,
        };
        let (bounds, nearer) = settled_within(alloc, sizing, progress, fewer)?;
        match nearer {
            Reach::Part => return Ok((best, Reach::Part)),
            _ => reach = nearer,
        }
        best = bounds;
        lines = next;
    }
    Ok((best, reach))
}

/// How far the figures go, and of which orders that is: of all, or of those of at most as many lines as the bounds say. Where the room for places does not
/// do for these, or `progress` ends the search, it is of those of fewer lines.
pub(crate) fn settled<P: Progress>(
    alloc: Global,
    sizing: &Sizing<'_>,
    progress: &mut P,
    within: Bounds,
) -> Result<(Vec<u16>, Reach), AllocError>
    ensures { IfOk result (λ r. IsSettled sizing.now.config.now sizing.now.scripts.now sizing.now.rules within.turns.count (within.places.count - 1)
        (P.over progress.new) r.1 sizing.now.figures.now r.0.items) }
{
    let (known, reach) = settled_within(alloc, sizing, progress, within)?;
    match reach {
        Reach::Part => settled_nearer(alloc, sizing, known, progress, within),
        _ => Ok((known, reach)),
    }
}
