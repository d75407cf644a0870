//! The search through all orders of one machine, its scripts and a question.
ghost use Rattle.std.specs.Prelude.{◌≡◌, ◌-◌, true, IfOk, IfSome};
ghost use Rattle.fmp_text_scripts.specs.Scripts.{AreInBits};
ghost use Rattle.fmp_search.specs.Meeting.{Meets};
ghost use Rattle.fmp_search_orders.specs.Made.{lets_pass, number_at};
ghost use Rattle.fmp_search_orders.specs.Places as places;
ghost use Rattle.fmp_run_explore.specs.Explored.{Finds, IsEndedBy};
ghost use Rattle.fmp_run_explore.specs.Gone.{IsGone};
ghost use Rattle.fmp_run_explore.specs.Made.{SaysMade, TellsCalls};
ghost use Rattle.fmp_run_explore.specs.Searched.{searched};

use crate::finding::Finding;
use crate::made::lets_pass;
use crate::orders::Orders;
use crate::telling::{never, not_within, trace_along};
use fmp_ranges::Bounds;
use fmp_search::{Answer, Extent, Met, Progress};
use fmp_search_orders::{made_answer, places_answer};
use fmp_search_pattern::Question;
use fmp_search_walks::search_for;
use std::alloc::{AllocError, Global};

/// What is known of all orders, the text that tells it, how far the search went, and which calls are made.
#[derive(Drop)]
pub(crate) struct Report {
    pub(crate) finding: Finding,
    pub(crate) text: Vec<u8>,
    pub(crate) extent: Option<Extent>,
    pub(crate) met: Option<Met>,
}

/// Which calls are made in orders, where the search for a question tells which are made by its runs.
fn calls_met(
    orders: &Orders<'_>,
    question: &Question,
    _bounds: Bounds,
    met: Option<Met>,
) -> Option<Met>
    requires { IfSome met (Meets places.after number_at (places.origin orders.now.config.now orders.now.scripts.now orders.now.rules question.now)
        _bounds.turns.count 65536) }
    ensures says { IfSome result (SaysMade orders.now.config.now orders.now.scripts.now orders.now.rules _bounds.turns.count) }
    ensures same { lets_pass question.now ≡ true → result ≡ met }
{
    let _names = orders.config.names();
    made_answer();
    if lets_pass(question) { met } else { None }
}

/// What is known of all orders, with the text that tells it. The error is want of memory.
pub(crate) fn found<P: Progress>(
    alloc: Global,
    orders: &Orders<'_>,
    question: &Question,
    progress: &mut P,
    bounds: Bounds,
) -> Result<Report, AllocError>
    requires in_bits { AreInBits orders.now.scripts.now }
    ensures finds { IfOk result (λ r. Finds orders.now.config.now orders.now.scripts.now orders.now.rules question.now bounds.turns.count
        (bounds.places.count - 1) r.text.items r.finding) }
    ensures went { IfOk result (λ r. IsGone (searched orders.now.config.now orders.now.scripts.now orders.now.rules question.now) r.finding r.extent) }
    ensures tells { IfOk result (λ r. TellsCalls (searched orders.now.config.now orders.now.scripts.now orders.now.rules question.now) bounds.turns.count r.finding r.met) }
    ensures ended { IfOk result (λ r. IsEndedBy (P.over progress.new) r.finding) }
{
    let names = orders.config.names();
    names.validity();
    places_answer();
    let (answer, extent, told) = search_for(
        alloc,
        orders.config,
        orders.scripts,
        orders.rules,
        question,
        progress,
        bounds,
    )?;
    let met = calls_met(orders, question, bounds, told);
    let (finding, text) = match answer {
        Answer::Found(steps) => (
            Finding::Shown,
            trace_along(alloc, orders, question, &steps)?,
        ),
        Answer::Never => (Finding::Never, never(alloc)?),
        Answer::NotWithin(turns) => (Finding::NotWithin(turns), not_within(alloc, turns)?),
        Answer::Wanting(turns) => (Finding::Wanting(turns), not_within(alloc, turns)?),
        Answer::Ended(turns) => (Finding::Ended(turns), not_within(alloc, turns)?),
    };
    Ok(Report {
        finding,
        text,
        extent,
        met,
    })
}
