//! All runs.
ghost use Rattle.std.specs.Prelude.{◌≡◌, ◌<◌, ◌^◌, IfOk, IfSome};
ghost use Rattle.fmp_search.specs.Answers.{IsEndedBy, Says};
ghost use Rattle.fmp_search.specs.Extents.{Went};
ghost use Rattle.fmp_search.specs.Meeting.{IsMetBeside, Meets};
ghost use Rattle.fmp_search.specs.Surveys.{answer_by};

use crate::extent::{Extent, extent_beside};
use crate::layer::Layer;
use crate::meeting::{Met, met_of};
use crate::progress::Progress;
use crate::space::Space;
use crate::surveying::go_through;
use std::alloc::{AllocError, Global};

/// What is known of all runs.
#[derive(Drop)]
pub enum Answer {
    /// These steps lead to a place that is looked for, and no fewer do.
    Found(Vec<u8>),
    /// No run leads to a place that is looked for, however long it is.
    Never,
    /// No run of at most so many steps does.
    NotWithin(u32),
    /// Likewise, where there was no memory for more places.
    Wanting(u32),
    /// Likewise, where the search was ended before more is known.
    Ended(u32),
}

/// What is known of all runs by how the last layer went, which was opened by so many steps, where all places were opened or were not.
fn answer_of(how: Layer, depth: u32, whole: bool) -> Answer
    ensures { result ≡ answer_by how depth whole }
{
    match how {
        Layer::Found(steps) => Answer::Found(steps),
        Layer::Full => Answer::NotWithin(depth),
        Layer::Wanting => Answer::Wanting(depth),
        Layer::Over => Answer::Ended(depth),
        Layer::Done => {
            if whole {
                Answer::Never
            } else {
                Answer::NotWithin(depth)
            }
        }
    }
}

/// Goes through all places, the nearest first, up to so many steps from where all runs begin, and with room for so many places. Of two
/// walkers whose runs begin at the same place one is made to stand at each place, and the other makes the steps from there.
///
/// Where the room does not do, `NotWithin` says for how many steps it did, and then all of it was used. `Wanting` says so where the memory for the places to
/// which steps lead does not do, or the memory or the numbers for their parts, and `Ended` only where `progress` ends the search. Beside that it gives how far
/// the search went, unless a run was found, and which numbers below a count are told of steps: of those of all runs, or of those of at most so many steps, and
/// nothing where not all of these were tried. The error is want of memory for anything else, as to make a step, or for the place where all runs begin.
pub fn explore<W: Space + Drop, P: Progress>(
    alloc: Global,
    walker: &mut W,
    base: &mut W,
    progress: &mut P,
    turns: u32,
    most: u32,
    count: usize,
) -> Result<(Answer, Option<Extent>, Option<Met>), AllocError>
    requires origin { W.origin base.old ≡ W.origin walker.old }
    requires turns { turns < 2 ^ 31 }
    ensures says { IfOk result (λ r. Says W.after W.wanted (W.origin walker.old) turns most r.0) }
    ensures went { IfOk result (λ r. Went W.after (W.origin walker.old) r.0 r.1) }
    ensures met { IfOk result (λ r. IfSome r.2 (Meets W.after W.tells (W.origin walker.old) turns count)) }
    ensures beside { IfOk result (λ r. IsMetBeside turns r.0 r.2) }
    ensures ended { IfOk result (λ r. IsEndedBy (P.over progress.new) r.0) }
{
    let survey = go_through(alloc, walker, base, progress, turns, most, false, count)?;
    let extent = extent_beside(alloc, &survey)?;
    let depth = survey.depth;
    let whole = survey.chart.opened == survey.nodes.len() + 1;
    let (how, met) = met_of(survey);
    Ok((answer_of(how, depth, whole), extent, met))
}
