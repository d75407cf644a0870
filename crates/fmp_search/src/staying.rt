//! Steps from which on a test is passed for ever.
ghost use Rattle.std.specs.Prelude.{◌≡◌, ◌==◌, ◌≤◌, ◌<◌, ◌+◌, ◌^◌, ◌⊎◌, ℕ, Bool, None, Some, true, false, length, IfOk, IfSome};
ghost use Rattle.fmp_search.specs.Trees.{found_at, IsTree};
ghost use Rattle.fmp_search.specs.Charts.{AreShort, AreTrue, IsCharted, IsTrueEdge};
ghost use Rattle.fmp_search.specs.Extents.{AreOf, WentForEver};
ghost use Rattle.fmp_search.specs.Forever.{is_bit, mark_at, test_of, AreClosed, AreEarned, AreNearest, SaysForEver};
ghost use Rattle.fmp_search.specs.Meeting.{IsMetBesideStay, Meets};
ghost use Rattle.fmp_search.specs.Spreads.{AreKept, AreMarked, AreOpenFrom, AreWithin, HasFailing};
ghost use Rattle.fmp_search.specs.Stays.{AreEntered, Covers, HasWithin, IsBacked, IsRight};
ghost use Rattle.fmp_search.specs.Surveys.{met_of, Surveys};

use crate::chart::Chart;
use crate::edges::{Edge, Edges};
use crate::extent::{Extent, extent_of};
use crate::layer::Layer;
use crate::marks::spread;
use crate::meeting::{Met, met_of};
use crate::nodes::{Node, steps_over};
use crate::progress::Progress;
use crate::space::Space;
use crate::surveying::{Survey, go_through};
use std::alloc::{AllocError, Global};

/// What is known of runs whose last step passes one of some tests, and every step after it too.
#[derive(Drop)]
pub enum Stay {
    /// These steps are such a run, for the test of this number, and none for any test is shorter.
    Shortest(u8, Vec<u8>),
    /// These steps are such a run. There may be shorter ones.
    Found(u8, Vec<u8>),
    /// No run is, for no test.
    Never,
    /// That is not known. So many steps were gone through: no more were asked for, or there is no room for more places.
    NotKnown(u32),
    /// Likewise, where there was no memory for more places.
    Wanting(u32),
    /// Likewise, where the search was ended before more is known, or met a place that is looked for.
    Ended(u32),
}

/// Whether a test is one of these.
fn is_bit(tests: u64, test: u8) -> bool
    requires { test < 64 }
    ensures { result ≡ is_bit tests test }
{
    (tests >> test) % 2 == 1
}

/// Marks each place from which a step fails a test, besides those that are marked.
fn mark_failing(marks: &mut [bool], edges: &Edges, test: u8)
    requires test { test < 64 }
    requires within { AreWithin edges.now (length marks.old) }
    ensures failing { AreMarked edges.now test marks.new }
    ensures kept { AreKept marks.old marks.new }
    ensures due { (i : ℕ) → i < length marks.new → mark_at marks.new i ≡ true → (mark_at marks.old i ≡ true) ⊎ HasFailing edges.now test i }
    ensures long { length marks.new ≡ length marks.old }
{
    for at in 0..edges.len() {
        let edge = edges.get(at);
        if !is_bit(edge.passes, test) {
            marks[edge.from as usize] = true;
        }
    }
}

/// Marks each place from which a way leads to a step that fails a test, besides those from which one leads to a place that is open.
fn mark_test<W: Space>(_walker: &W, _nodes: &[Node], chart: &Chart, marks: &mut [bool], test: u8)
    requires test { test < 64 }
    requires charted { IsCharted W.after W.passes (W.origin _walker.now) _nodes.now chart.now }
    requires opened { AreOpenFrom chart.now.opened marks.old }
    requires long { length marks.old ≡ length _nodes.now + 1 }
    ensures closed { AreClosed W.after (test_of W.passes test) (W.origin _walker.now) _nodes.now marks.new }
    ensures earned { chart.now.opened ≡ length _nodes.now + 1 → AreEarned W.after (test_of W.passes test) (W.origin _walker.now) _nodes.now marks.new }
    ensures long { length marks.new ≡ length marks.old }
{
    mark_failing(marks, &chart.edges, test);
    spread(marks, &chart.edges);
}

/// So many marks, of which those from a number on are set. The error is want of memory.
fn open_from(alloc: Global, opened: usize, count: usize) -> Result<Vec<bool>, AllocError>
    requires { opened ≤ count }
    ensures opened { IfOk result (λ marks. AreOpenFrom opened marks.items) }
    ensures long { IfOk result (λ marks. length marks.items ≡ count) }
{
    let mut marks = vec![in alloc; false; opened]?;
    marks.resize(count, true)?;
    Ok(marks)
}

/// The marks of a test: of each place from which a way leads to a step that fails it, or to a place that is open. The error is want of memory.
fn marks_of<W: Space>(
    alloc: Global,
    walker: &W,
    nodes: &[Node],
    chart: &Chart,
    test: u8,
) -> Result<Vec<bool>, AllocError>
    requires test { test < 64 }
    requires charted { IsCharted W.after W.passes (W.origin walker.now) nodes.now chart.now }
    ensures closed { IfOk result (λ marks. AreClosed W.after (test_of W.passes test) (W.origin walker.now) nodes.now marks.items) }
    ensures earned { IfOk result (λ marks. chart.now.opened ≡ length nodes.now + 1
        → AreEarned W.after (test_of W.passes test) (W.origin walker.now) nodes.now marks.items) }
    ensures long { IfOk result (λ marks. length marks.items ≡ length nodes.now + 1) }
{
    let mut marks = open_from(alloc, chart.opened, nodes.len() + 1)?;
    mark_test(walker, nodes, chart, &mut marks, test);
    Ok(marks)
}

/// A run whose last step passes the test of a number, as every step after it does.
#[derive(Drop)]
struct Run {
    test: u8,
    steps: Vec<u8>,
}

/// The run that was found before, if there is one and it is no longer than another, and else that other.
fn shorter(best: Option<Run>, run: Run) -> Run
    ensures one { (result ≡ run) ⊎ (best ≡ Some result) }
    ensures short { length result.steps.items ≤ length run.steps.items }
    ensures kept { (n : ℕ) → HasWithin best n → length result.steps.items ≤ n }
{
    match best {
        None => run,
        Some(found) => {
            if run.steps.len() < found.steps.len() {
                run
            } else {
                found
            }
        }
    }
}

/// The one of two runs that is there, or the shorter one, or the first.
fn better(best: Option<Run>, run: Option<Run>) -> Option<Run>
    ensures one { (result ≡ best) ⊎ (result ≡ run) }
    ensures kept { (n : ℕ) → HasWithin best n → HasWithin result n }
    ensures within { (n : ℕ) → HasWithin run n → HasWithin result n }
{
    match run {
        None => best,
        Some(run) => Some(shorter(best, run)),
    }
}

/// The run over an edge, where that passes a test and leads to a place without a mark. The error is want of memory.
fn run_over<W: Space>(
    alloc: Global,
    walker: &W,
    nodes: &[Node],
    edge: Edge,
    marks: &[bool],
    test: u8,
    _turns: u32,
) -> Result<Option<Run>, AllocError>
    requires test { test < 64 }
    requires tree { IsTree W.after (W.origin walker.now) nodes.now }
    requires sure { IsTrueEdge W.after W.passes (W.origin walker.now) nodes.now edge
        × ((found_at W.after (W.origin walker.now) nodes.now edge.from).depth < _turns) }
    requires closed { AreClosed W.after (test_of W.passes test) (W.origin walker.now) nodes.now marks.now }
    requires long { length marks.now ≡ length nodes.now + 1 }
    ensures right { IfOk result (λ o. IsRight W.after W.passes (W.origin walker.now) _turns (test + 1) o) }
    ensures within { IfOk result (λ o. is_bit edge.passes test ≡ true → mark_at marks.now edge.to ≡ false
        → HasWithin o ((found_at W.after (W.origin walker.now) nodes.now edge.from).depth + 1)) }
{
    if !is_bit(edge.passes, test) {
        return Ok(None);
    }
    if marks[edge.to as usize] {
        return Ok(None);
    }
    let steps = steps_over(alloc, walker, nodes, edge.from as usize, edge.step)?;
    Ok(Some(Run { test, steps }))
}

/// The shortest run over an edge that passes a test and leads to a place without a mark, if there is one, or the one that was found before, if that is no
/// longer. The error is want of memory.
fn entered<W: Space>(
    alloc: Global,
    walker: &W,
    nodes: &[Node],
    edges: &Edges,
    marks: &[bool],
    test: u8,
    before: Option<Run>,
    turns: u32,
) -> Result<Option<Run>, AllocError>
    requires test { test < 64 }
    requires tree { IsTree W.after (W.origin walker.now) nodes.now }
    requires sure { AreTrue W.after W.passes (W.origin walker.now) nodes.now edges.now × AreShort W.after (W.origin walker.now) nodes.now edges.now turns }
    requires closed { AreClosed W.after (test_of W.passes test) (W.origin walker.now) nodes.now marks.now }
    requires long { length marks.now ≡ length nodes.now + 1 }
    requires right { IsRight W.after W.passes (W.origin walker.now) turns (test + 1) before }
    ensures right { IfOk result (λ o. IsRight W.after W.passes (W.origin walker.now) turns (test + 1) o) }
    ensures kept { IfOk result (λ o. (n : ℕ) → HasWithin before n → HasWithin o n) }
    ensures within { IfOk result (λ o. AreEntered W.after (W.origin walker.now) nodes.now edges.now marks.now test o) }
{
    let mut best = before;
    for at in 0..edges.len() {
        let over = run_over(alloc, walker, nodes, edges.get(at), marks, test, turns)?;
        best = better(best, over);
    }
    Ok(best)
}

/// The answer of a run that was found, or of none. It is none where no run was found, and not all was gone through.
fn report<W: Space>(
    _walker: &W,
    _nodes: &[Node],
    best: Option<Run>,
    whole: bool,
    _tests: u8,
    _turns: u32,
) -> Option<Stay>
    requires right { IsRight W.after W.passes (W.origin _walker.now) _turns _tests best }
    requires covers { whole ≡ true → (k : ℕ) → k < _tests → Covers W.after W.passes (W.origin _walker.now) k best }
    requires nearest { whole ≡ true → AreNearest W.after (W.origin _walker.now) _nodes.now }
    ensures says { IfSome result (λ s. (room : ℕ) (over : Bool) → SaysForEver W.after W.passes W.wanted (W.origin _walker.now) _tests _turns room over s) }
    ensures all { IfSome result (λ s. AreOf W.after (W.origin _walker.now) s _nodes.now) }
    ensures backed { IfSome result (IsBacked whole) }
    ensures none { result ≡ None → whole ≡ false }
{
    match best {
        Some(found) => {
            if whole {
                Some(Stay::Shortest(found.test, found.steps))
            } else {
                Some(Stay::Found(found.test, found.steps))
            }
        }
        None => { if whole { Some(Stay::Never) } else { None } }
    }
}

/// What is known by the places that were found and the steps between them. It is none where no run was found, and not all places were opened. The error is
/// want of memory.
fn report_of<W: Space>(
    alloc: Global,
    walker: &W,
    nodes: &[Node],
    chart: &Chart,
    tests: u8,
    turns: u32,
) -> Result<Option<Stay>, AllocError>
    requires tests { tests ≤ 64 }
    requires tree { IsTree W.after (W.origin walker.now) nodes.now }
    requires charted { IsCharted W.after W.passes (W.origin walker.now) nodes.now chart.now
        × AreShort W.after (W.origin walker.now) nodes.now chart.now.edges turns }
    requires nearest { chart.now.opened ≡ length nodes.now + 1 → AreNearest W.after (W.origin walker.now) nodes.now }
    ensures says { IfOk result (λ o. IfSome o (λ s. (room : ℕ) (over : Bool)
        → SaysForEver W.after W.passes W.wanted (W.origin walker.now) tests turns room over s)) }
    ensures all { IfOk result (λ o. IfSome o (λ s. AreOf W.after (W.origin walker.now) s nodes.now)) }
    ensures backed { IfOk result (λ o. IfSome o (IsBacked (chart.now.opened == length nodes.now + 1))) }
    ensures none { IfOk result (λ o. o ≡ None → chart.now.opened ≡ length nodes.now + 1 → ⊥) }
{
    let mut best = None;
    for test in 0..tests {
        let marks = marks_of(alloc, walker, nodes, chart, test)?;
        best = entered(
            alloc,
            walker,
            nodes,
            &chart.edges,
            &marks,
            test,
            best,
            turns,
        )?;
    }
    let whole = chart.opened == nodes.len() + 1;
    Ok(report(walker, nodes, best, whole, tests, turns))
}

/// What is known by what was gone through, with the edges. The error is want of memory.
fn stay_of<W: Space, P: Progress>(
    alloc: Global,
    walker: &W,
    _progress: &P,
    survey: &Survey,
    turns: u32,
    _most: u32,
    tests: u8,
    _count: usize,
) -> Result<Stay, AllocError>
    requires tests { tests ≤ 64 }
    requires surveys { Surveys W.after W.passes W.tells W.wanted (W.origin walker.now) turns _most (P.over _progress.now) true _count survey.now }
    ensures says { IfOk result (SaysForEver W.after W.passes W.wanted (W.origin walker.now) tests turns _most (P.over _progress.now)) }
    ensures all { IfOk result (λ s. AreOf W.after (W.origin walker.now) s survey.now.nodes.items) }
    ensures beside { IfOk result (λ s. IsMetBesideStay turns s (met_of survey.now)) }
{
    if matches!(survey.how, Layer::Over) {
        return Ok(Stay::Ended(survey.depth));
    }
    if let Some(stay) = report_of(alloc, walker, &survey.nodes, &survey.chart, tests, turns)? {
        return Ok(stay);
    }
    match &survey.how {
        Layer::Wanting => Ok(Stay::Wanting(survey.depth)),
        Layer::Full | Layer::Done => Ok(Stay::NotKnown(survey.depth)),
        Layer::Found(_) | Layer::Over => Ok(Stay::Ended(survey.depth)),
    }
}

/// Looks for a run whose last step passes one of so many tests, as every step after it does: through all places, up to so many steps from where all
/// runs begin, and with room for so many besides the first. How far it went is told too, and which numbers below a count are told of
/// steps: of those of all runs, or of those of at most so many steps, and nothing where not all of these were tried. The error is want of memory.
pub fn for_ever<W: Space + Drop, P: Progress>(
    alloc: Global,
    walker: &mut W,
    base: &mut W,
    progress: &mut P,
    turns: u32,
    most: u32,
    tests: u8,
    count: usize,
) -> Result<(Stay, Extent, Option<Met>), AllocError>
    requires origin { W.origin base.old ≡ W.origin walker.old }
    requires turns { turns < 2 ^ 31 }
    requires tests { tests ≤ 64 }
    ensures says { IfOk result (λ r. SaysForEver W.after W.passes W.wanted (W.origin walker.old) tests turns most (P.over progress.new) r.0) }
    ensures went { IfOk result (λ r. WentForEver W.after (W.origin walker.old) r.0 r.1) }
    ensures met { IfOk result (λ r. IfSome r.2 (Meets W.after W.tells (W.origin walker.old) turns count)) }
    ensures beside { IfOk result (λ r. IsMetBesideStay turns r.0 r.2) }
{
    let survey = go_through(alloc, walker, base, progress, turns, most, true, count)?;
    let extent = extent_of(alloc, &survey.nodes)?;
    let stay = stay_of(alloc, walker, progress, &survey, turns, most, tests, count)?;
    Ok((stay, extent, met_of(survey).1))
}
