//! The search through all orders of one machine and its scripts for what stays.
ghost use Rattle.std.specs.Prelude.{◌≡◌, ◌≤◌, ◌<◌, ◌-◌, Bool, false, List, [], None, length, IfOk, IfSome, IsTrue, if◌then◌else◌};
ghost use Rattle.fmp_search.specs.declared.nodes.Node.{Node};
ghost use Rattle.fmp_run_forever.specs.Gone.{IsGone};
ghost use Rattle.fmp_run_forever.specs.Stayed.{Finds, IsLeast};
ghost use Rattle.fmp_run_forever.specs.Told.{TellsCalls};
ghost use Rattle.fmp_run_explore.specs.Made.{SaysMade};
ghost use Rattle.fmp_search.specs.Extents.{HasGone, WentForEver};
ghost use Rattle.fmp_search.specs.Forever.{SaysForEver};
ghost use Rattle.fmp_search.specs.Meeting.{IsMetBesideStay};
ghost use Rattle.fmp_search_orders.specs.Places as places;
ghost use Rattle.fmp_search_orders.specs.Unknown.{IsNotKnown};
ghost use Rattle.fmp_search_orders.specs.Watched as watched;
ghost use Rattle.fmp_text_scripts.specs.Scripts.{AreInBits};

use crate::staying::Staying;
use fmp_ranges::Bounds;
use fmp_run_explore::{Orders, never, not_within, trace_along};
use fmp_search::{Extent, Met, Progress, Stay};
use fmp_search_orders::{made_answer, watched_answer};
use fmp_search_pattern::{Moment, Question};
use fmp_search_walks::{search_calls, search_lasting};
use std::alloc::{AllocError, Global};

/// What is known of all orders, the text that tells it, how far the search went, and which calls are made.
#[derive(Drop)]
pub(crate) struct Report {
    pub(crate) staying: Staying,
    pub(crate) text: Vec<u8>,
    pub(crate) extent: Extent,
    pub(crate) met: Option<Met>,
}

/// What is known of all runs over places, as far as the bounds say, how far the search went, and which calls are made in orders.
fn answered<P: Progress>(
    alloc: Global,
    orders: &Orders<'_>,
    none: &Question,
    lasting: &[Moment],
    progress: &mut P,
    bounds: Bounds,
) -> Result<(Stay, Extent, Option<Met>), AllocError>
    requires none { none.now ≡ [] }
    requires few { length lasting.now ≤ 64 }
    ensures says { IfOk result (λ r. SaysForEver watched.watched_after watched.watched_passes (λ w. false)
        (watched.watched lasting.now (places.origin orders.now.config.now orders.now.scripts.now orders.now.rules []))
        (length lasting.now) bounds.turns.count (bounds.places.count - 1) (P.over progress.new) r.0) }
    ensures went { IfOk result (λ r. WentForEver watched.watched_after (watched.watched lasting.now
        (places.origin orders.now.config.now orders.now.scripts.now orders.now.rules [])) r.0 r.1) }
    ensures calls { IfOk result (λ r. IfSome r.2 (SaysMade orders.now.config.now orders.now.scripts.now orders.now.rules bounds.turns.count)) }
    ensures beside { IfOk result (λ r. IsMetBesideStay bounds.turns.count r.0 r.2) }
{
    let _names = orders.config.names();
    made_answer();
    search_lasting(
        alloc,
        orders.config,
        orders.scripts,
        orders.rules,
        none,
        lasting,
        progress,
        bounds,
    )
}

/// What `calls_made` gives, by those who watch for something. It makes no difference what that is.
fn calls_met<P: Progress>(
    alloc: Global,
    orders: &Orders<'_>,
    none: &Question,
    lasting: &[Moment],
    progress: &mut P,
    bounds: Bounds,
) -> Result<Option<Met>, AllocError>
    requires none { none.now ≡ [] }
    requires few { length lasting.now ≤ 64 }
    ensures made { IfOk result (λ o. IfSome o (SaysMade orders.now.config.now orders.now.scripts.now orders.now.rules bounds.turns.count)) }
    ensures none { IfOk result (λ o. o ≡ None → IsNotKnown orders.now.config.now orders.now.scripts.now orders.now.rules bounds.turns.count
        (bounds.places.count - 1) (P.over progress.new)) }
{
    let _names = orders.config.names();
    made_answer();
    search_calls(
        alloc,
        orders.config,
        orders.scripts,
        orders.rules,
        none,
        lasting,
        progress,
        bounds,
    )
}

/// Which calls of the scripts are made in orders of at most as many lines as the bounds say, where nothing is asked of these. None only where the room
/// for places was used up before, or `progress` ended the search. It keeps no steps. The error is want of memory, for places too.
pub fn calls_made<P: Progress>(
    alloc: Global,
    orders: &Orders<'_>,
    progress: &mut P,
    bounds: Bounds,
) -> Result<Option<Met>, AllocError>
    ensures made { IfOk result (λ o. IfSome o (SaysMade orders.now.config.now orders.now.scripts.now orders.now.rules bounds.turns.count)) }
    ensures none { IfOk result (λ o. o ≡ None → IsNotKnown orders.now.config.now orders.now.scripts.now orders.now.rules bounds.turns.count
        (bounds.places.count - 1) (P.over progress.new)) }
{
    let none = Question::new(Vec::new(alloc));
    calls_met(alloc, orders, &none, &[], progress, bounds)
}

/// What is known of a trace of so many lines from whose end on what is asked under this number stays: it is the shortest, or not.
fn staying_of(number: u8, lines: u32, shortest: bool) -> Staying
    ensures { result ≡ (if shortest then Staying.Shortest number lines else Staying.Found number lines) }
{
    if shortest {
        Staying::Shortest(number, lines)
    } else {
        Staying::Found(number, lines)
    }
}

/// What is told of steps that end so, the shortest or not.
fn report_along(
    alloc: Global,
    orders: &Orders<'_>,
    none: &Question,
    _lasting: &[Moment],
    _bounds: Bounds,
    test: u8,
    steps: &[u8],
    shortest: bool,
    extent: Extent,
) -> Result<Report, AllocError>
    requires in_bits { AreInBits orders.now.scripts.now }
    requires none { none.now ≡ [] }
    requires is_one { test < length _lasting.now }
    requires ends { watched.WatchedEnds orders.now.config.now orders.now.scripts.now orders.now.rules _lasting.now test steps.now }
    requires few { length steps.now ≤ _bounds.turns.count }
    requires least { IsTrue shortest → IsLeast orders.now.config.now orders.now.scripts.now orders.now.rules _lasting.now (length steps.now) }
    requires gone { (nodes : List Node) × HasGone watched.watched_after (watched.watched _lasting.now
        (places.origin orders.now.config.now orders.now.scripts.now orders.now.rules [])) nodes extent }
    ensures finds { IfOk result (λ r. Finds orders.now.config.now orders.now.scripts.now orders.now.rules _lasting.now _bounds.turns.count
        (_bounds.places.count - 1) r.text.items r.staying) }
    ensures gone { IfOk result (λ r. (over : Bool)
        → IsGone orders.now.config.now orders.now.scripts.now orders.now.rules _lasting.now over r.staying r.extent) }
    ensures tells { IfOk result (λ r. TellsCalls orders.now.config.now orders.now.scripts.now orders.now.rules _bounds.turns.count r.staying r.met) }
{
    orders.config.names().validity();
    watched_answer();
    let text = trace_along(alloc, orders, none, steps)?;
    let staying = staying_of(test, steps.len() as u32, shortest);
    Ok(Report {
        staying,
        text,
        extent,
        met: None,
    })
}

/// What is known of all orders, with the text that tells it. The error is want of memory.
pub(crate) fn found<P: Progress>(
    alloc: Global,
    orders: &Orders<'_>,
    lasting: &[Moment],
    progress: &mut P,
    bounds: Bounds,
) -> Result<Report, AllocError>
    requires few { length lasting.now ≤ 64 }
    requires in_bits { AreInBits orders.now.scripts.now }
    ensures finds { IfOk result (λ r. Finds orders.now.config.now orders.now.scripts.now orders.now.rules lasting.now bounds.turns.count
        (bounds.places.count - 1) r.text.items r.staying) }
    ensures gone { IfOk result (λ r. IsGone orders.now.config.now orders.now.scripts.now orders.now.rules lasting.now (P.over progress.new) r.staying r.extent) }
    ensures tells { IfOk result (λ r. TellsCalls orders.now.config.now orders.now.scripts.now orders.now.rules bounds.turns.count r.staying r.met) }
{
    orders.config.names().validity();
    watched_answer();
    let none = Question::new(Vec::new(alloc));
    let (stay, extent, met) = answered(alloc, orders, &none, lasting, progress, bounds)?;
    match stay {
        Stay::Shortest(test, steps) => report_along(
            alloc, orders, &none, lasting, bounds, test, &steps, true, extent,
        ),
        Stay::Found(test, steps) => report_along(
            alloc, orders, &none, lasting, bounds, test, &steps, false, extent,
        ),
        Stay::Never => Ok(Report {
            staying: Staying::Never,
            text: never(alloc)?,
            extent,
            met,
        }),
        Stay::NotKnown(turns) => Ok(Report {
            staying: Staying::NotWithin(turns),
            text: not_within(alloc, turns)?,
            extent,
            met,
        }),
        Stay::Wanting(turns) => Ok(Report {
            staying: Staying::Wanting(turns),
            text: not_within(alloc, turns)?,
            extent,
            met,
        }),
        Stay::Ended(turns) => Ok(Report {
            staying: Staying::Ended(turns),
            text: not_within(alloc, turns)?,
            extent,
            met,
        }),
    }
}
