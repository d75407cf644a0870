//! Leaving out events, many in a row at first and at last one by one.
ghost use Rattle.std.specs.Prelude.{◌≡◌, ◌≤◌, ◌<◌, ◌↔◌, false, length, IfOk, IsTrue};
ghost use Rattle.fmp_codes.specs.Records.{AreOn};
ghost use Rattle.fmp_search_shrink.specs.Shrinking as spec;
ghost use Rattle.fmp_search_shrink.specs.Shrinking.{AnswersShow, IsLeft, KeepsTo, NoneCanGo};

use crate::given::shows_given;
use crate::keeping::Keeping;
use fmp_codes::Event;
use fmp_rules::Config;
use fmp_search_pattern::Question;
use std::alloc::{AllocError, Global};

/// The list without its events from one place up to another.
fn without(
    alloc: Global,
    events: &[Event],
    from: usize,
    to: usize,
) -> Result<Vec<Event>, AllocError>
    requires { (from ≤ to) × (to ≤ length events.now) }
    ensures { IfOk result (λ v. v.items ≡ spec.without events.now from to) }
{
    let mut rest = Vec::from_slice(alloc, &events[..from])?;
    rest.extend_from_slice(&events[to..])?;
    Ok(rest)
}

/// Whether events do without those that were left out: they still show what is asked, and keep to what has to be kept.
fn do_without(
    alloc: Global,
    config: &Config,
    question: &Question,
    keeping: &Keeping,
    events: &[Event],
) -> Result<bool, AllocError>
    requires short { length question.now ≤ 255 }
    requires on { AreOn config.now.processors events.now }
    ensures { IfOk result (λ r. IsTrue r ↔ (AnswersShow config.now question.now events.now × KeepsTo config.now keeping.now events.now)) }
{
    Ok(shows_given(config, question, events)? && keeping.is_kept_by(alloc, config, events)?)
}

/// Leaves out so many events in a row wherever the others do without them, and tells whether it left out any.
fn pass(
    alloc: Global,
    config: &Config,
    question: &Question,
    keeping: &Keeping,
    events: Vec<Event>,
    size: usize,
) -> Result<(Vec<Event>, bool), AllocError>
    requires short { length question.now ≤ 255 }
    requires size { 1 ≤ size }
    requires on { AreOn config.now.processors events.items }
    requires shows { AnswersShow config.now question.now events.items }
    requires keeps { KeepsTo config.now keeping.now events.items }
    ensures left { IfOk result (λ r. IsLeft config.now question.now keeping.now events.items r.0.items) }
    ensures fewer { IfOk result (λ r. IsTrue r.1 → length r.0.items < length events.items) }
    ensures none { IfOk result (λ r. size ≡ 1 → r.1 ≡ false → NoneCanGo config.now question.now (KeepsTo config.now keeping.now) r.0.items) }
{
    let mut left = events;
    let mut fewer = false;
    let mut at = 0;
    while at < left.len() {
        let end = at + size.min(left.len() - at);
        let rest = without(alloc, left.as_slice(), at, end)?;
        if do_without(alloc, config, question, keeping, rest.as_slice())? {
            left = rest;
            fewer = true;
        } else {
            at = end;
        }
    }
    Ok((left, fewer))
}

/// Leaves out half of the events in a row, a quarter, and so on, wherever the others do without them.
fn in_rows(
    alloc: Global,
    config: &Config,
    question: &Question,
    keeping: &Keeping,
    events: Vec<Event>,
) -> Result<Vec<Event>, AllocError>
    requires short { length question.now ≤ 255 }
    requires on { AreOn config.now.processors events.items }
    requires shows { AnswersShow config.now question.now events.items }
    requires keeps { KeepsTo config.now keeping.now events.items }
    ensures { IfOk result (λ r. IsLeft config.now question.now keeping.now events.items r.items) }
{
    let mut left = events;
    let mut size = left.len() / 2;
    while 1 < size {
        let (rest, _) = pass(alloc, config, question, keeping, left, size)?;
        left = rest;
        size /= 2;
    }
    Ok(left)
}

/// Leaves out one event after the other until none can go.
fn one_by_one(
    alloc: Global,
    config: &Config,
    question: &Question,
    keeping: &Keeping,
    events: Vec<Event>,
) -> Result<Vec<Event>, AllocError>
    requires short { length question.now ≤ 255 }
    requires on { AreOn config.now.processors events.items }
    requires shows { AnswersShow config.now question.now events.items }
    requires keeps { KeepsTo config.now keeping.now events.items }
    ensures left { IfOk result (λ r. IsLeft config.now question.now keeping.now events.items r.items) }
    ensures none { IfOk result (λ r. NoneCanGo config.now question.now (KeepsTo config.now keeping.now) r.items) }
{
    let mut left = events;
    loop {
        let (rest, fewer) = pass(alloc, config, question, keeping, left, 1)?;
        left = rest;
        if !fewer {
            return Ok(left);
        }
    }
}

/// A part of the list, in its order, of which what the machine answers still shows what the question asks, and of which no event can go.
/// There is none where the answers to the whole list do not show it. The error is want of memory.
///
/// Where runs are to be kept, each task and handler makes in the answers to that part only calls that it makes in those to the whole list,
/// in its own order of them. So no call is made by another task than before.
///
/// Many events in a row are left out first, so that it takes some ten times the logarithm of the list's length of runs, and not its square.
/// It is a shortest list in so far as no single event can go; where two have to go together, both may stay.
pub fn shrink(
    alloc: Global,
    config: &Config,
    question: &Question,
    events: Vec<Event>,
    runs: bool,
) -> Result<Option<Vec<Event>>, AllocError>
    requires short { length question.now ≤ 255 }
    requires on { AreOn config.now.processors events.items }
    ensures { IfOk result (spec.Shrinks config.now question.now runs events.items) }
{
    if !shows_given(config, question, events.as_slice())? {
        return Ok(None);
    }
    let keeping = Keeping::of(alloc, config, events.as_slice(), runs)?;
    let left = in_rows(alloc, config, question, &keeping, events)?;
    Ok(Some(one_by_one(alloc, config, question, &keeping, left)?))
}
