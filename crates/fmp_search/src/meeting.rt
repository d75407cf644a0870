//! Which numbers are told of steps.
ghost use Rattle.std.specs.Prelude.{◌≡◌, ◌<◌, ◌^◌, None, IfOk, IfSome};
ghost use Rattle.fmp_search.specs.Meeting.{IsLeftOpen, Meets};
ghost use Rattle.fmp_search.specs.Surveys as surveys;

use crate::layer::Layer;
use crate::progress::Progress;
use crate::space::Space;
use crate::surveying::{Survey, go_through};
use std::alloc::{AllocError, Global};

/// Which numbers are told of some step, and whether all runs were gone through, not only those of at most so many steps.
#[derive(Drop)]
pub struct Met {
    pub marks: Vec<bool>,
    pub whole: bool,
}

/// How the last layer went, and which numbers are told of steps, where all steps were tried that were asked for.
pub(crate) fn met_of(survey: Survey) -> (Layer, Option<Met>)
    ensures how { result.0 ≡ survey.how }
    ensures met { result.1 ≡ surveys.met_of survey }
{
    let Survey {
        how,
        nodes,
        chart,
        ..
    } = survey;
    match how {
        Layer::Done => {
            let whole = chart.opened == nodes.len() + 1;
            let marks = chart.marks;
            (Layer::Done, Some(Met { marks, whole }))
        }
        how => (how, None),
    }
}

/// What `meet` gives, by these two.
fn met_by<W: Space + Drop, P: Progress>(
    alloc: Global,
    walker: &mut W,
    base: &mut W,
    progress: &mut P,
    turns: u32,
    most: u32,
    count: usize,
) -> Result<Option<Met>, AllocError>
    requires origin { W.origin base.old ≡ W.origin walker.old }
    requires turns { turns < 2 ^ 31 }
    ensures meets { IfOk result (λ o. IfSome o (Meets W.after W.tells (W.origin walker.old) turns count)) }
    ensures none { IfOk result (λ o. o ≡ None → IsLeftOpen W.after W.wanted (W.origin walker.old) turns most (P.over progress.new)) }
{
    let survey = go_through(alloc, walker, base, progress, turns, most, false, count)?;
    match survey.how {
        Layer::Wanting => Err(AllocError),
        _ => Ok(met_of(survey).1),
    }
}

/// Goes through all places, up to so many steps from where all runs begin and with room for so many besides the first, and tells which numbers below a
/// count are told of steps: of those of all runs, or of those of at most so many steps. None only where the room does not do, the search is ended
/// before, or a place is met that is looked for. It takes two whose runs begin at the same place, and keeps no edges.
/// The error is want of memory.
pub fn meet<W: Space + Drop, P: Progress>(
    alloc: Global,
    walkers: (W, W),
    progress: &mut P,
    turns: u32,
    most: u32,
    count: usize,
) -> Result<Option<Met>, AllocError>
    requires origin { W.origin walkers.1 ≡ W.origin walkers.0 }
    requires turns { turns < 2 ^ 31 }
    ensures meets { IfOk result (λ o. IfSome o (Meets W.after W.tells (W.origin walkers.0) turns count)) }
    ensures none { IfOk result (λ o. o ≡ None → IsLeftOpen W.after W.wanted (W.origin walkers.0) turns most (P.over progress.new)) }
{
    let (mut walker, mut base) = walkers;
    met_by(alloc, &mut walker, &mut base, progress, turns, most, count)
}
