//! A question whose patterns are resolved: those that speak of the state are tests of it.
ghost use Rattle.std.specs.Prelude.{◌≡◌, ◌∷◌, map, option_map, IfOk};
ghost use Rattle.std.specs.List.{join_with_byte};
ghost use Rattle.std.specs.Option.{option_copied};
ghost use Rattle.fmp_search_pattern.specs.Words.{star};
ghost use Rattle.fmp_search_question.specs.Resolved as spec;

use crate::place::{is_end, words_of};
use fmp_fact_words::{asked_by, may_ask};
use fmp_facts::Choice;
use fmp_names::Names;
use fmp_search_pattern::{Item, Moment, Part, Pattern, Piece, Question, Step, Wanted};
use std::alloc::{AllocError, Global};

/// The bytes of a pattern: its pieces, with a star between each two. The error is want of memory.
fn text_of(alloc: Global, pattern: &Pattern) -> Result<Vec<u8>, AllocError>
    ensures { IfOk result (λ v. v.items ≡ join_with_byte star pattern.now) }
{
    match pattern.pieces() {
        [] => Ok(Vec::new(alloc)),
        [first, others @ ..] => text_after(alloc, first, others),
    }
}

/// The bytes of a piece, and of those after it with a star before each. The error is want of memory.
fn text_after(alloc: Global, first: &Piece, others: &[Piece]) -> Result<Vec<u8>, AllocError>
    ensures { IfOk result (λ v. v.items ≡ join_with_byte star (first.now ∷ others.now)) }
{
    let mut text = Vec::from_slice(alloc, first.bytes())?;
    for piece in others {
        text.push(b'*')?;
        text.extend_from_slice(piece.bytes())?;
    }
    Ok(text)
}

/// A pattern of one of some facts, if there are some, and of a record if not. The error is want of memory.
fn by_facts(alloc: Global, pattern: &Pattern, choice: Choice) -> Result<Wanted, AllocError>
    ensures { IfOk result (λ w. w ≡ spec.by_facts pattern.now choice) }
{
    if choice.asked().is_empty() {
        return Ok(Wanted::Line(pattern.copy(alloc)?));
    }
    Ok(Wanted::State(pattern.copy(alloc)?, choice))
}

/// What a pattern asks for that has these words. The error is want of memory.
#[tactic(auto, unfolding(crate::specs::Resolved::resolved_words))]
fn resolved_words(
    alloc: Global,
    names: &Names,
    pattern: &Pattern,
    words: &[&[u8]],
) -> Result<Wanted, AllocError>
    ensures { IfOk result (λ w. w ≡ spec.resolved_words names.now pattern.now (map (λ w. w.now) words.now)) }
{
    if is_end(words) {
        return Ok(Wanted::End);
    }
    if !may_ask(names, words) {
        return Ok(Wanted::Line(pattern.copy(alloc)?));
    }
    by_facts(alloc, pattern, asked_by(alloc, names, words)?)
}

/// What a pattern asks for. The error is want of memory.
fn resolved_line(alloc: Global, names: &Names, pattern: &Pattern) -> Result<Wanted, AllocError>
    ensures { IfOk result (λ w. w ≡ spec.resolved_words names.now pattern.now (spec.words_in pattern.now)) }
{
    let text = text_of(alloc, pattern)?;
    let words = words_of(alloc, &text)?;
    resolved_words(alloc, names, pattern, &words)
}

/// What an item asks for. The error is want of memory.
fn resolved_wanted(alloc: Global, names: &Names, wanted: &Wanted) -> Result<Wanted, AllocError>
    ensures { IfOk result (λ w. w ≡ spec.resolved_wanted names.now wanted.now) }
{
    match wanted {
        Wanted::Refused => Ok(Wanted::Refused),
        Wanted::End => Ok(Wanted::End),
        Wanted::Line(pattern) => resolved_line(alloc, names, pattern),
        Wanted::State(words, choice) => Ok(Wanted::State(words.copy(alloc)?, choice.copy(alloc)?)),
    }
}

/// An item. The error is want of memory.
fn resolved_item(alloc: Global, names: &Names, item: &Item) -> Result<Item, AllocError>
    ensures { IfOk result (λ i. i ≡ spec.resolved_item names.now item.now) }
{
    let wanted = resolved_wanted(alloc, names, item.wanted())?;
    Ok(Item::new(item.is_negated(), wanted))
}

/// A part of a moment. The error is want of memory.
fn resolved_part(alloc: Global, names: &Names, part: &Part) -> Result<Part, AllocError>
    ensures { IfOk result (λ p. p ≡ spec.resolved_part names.now part.now) }
{
    let mut items = Vec::new(alloc);
    for item in part.items() {
        items.push(resolved_item(alloc, names, item)?)?;
    }
    Ok(Part::new(items))
}

/// A moment. The error is want of memory.
fn resolved_moment(alloc: Global, names: &Names, moment: &Moment) -> Result<Moment, AllocError>
    ensures { IfOk result (λ m. m ≡ spec.resolved_moment names.now moment.now) }
{
    let mut parts = Vec::new(alloc);
    for part in moment.parts() {
        parts.push(resolved_part(alloc, names, part)?)?;
    }
    Ok(Moment::new(parts))
}

/// What must not come before a step, if something must not. The error is want of memory.
fn resolved_without(
    alloc: Global,
    names: &Names,
    without: Option<&Moment>,
) -> Result<Option<Moment>, AllocError>
    ensures { IfOk result (λ o. o ≡ option_map (spec.resolved_moment names.now) (option_copied without.entry)) }
{
    match without {
        None => Ok(None),
        Some(moment) => Ok(Some(resolved_moment(alloc, names, moment)?)),
    }
}

/// A step. The error is want of memory.
fn resolved_step(alloc: Global, names: &Names, step: &Step) -> Result<Step, AllocError>
    ensures { IfOk result (λ s. s ≡ spec.resolved_step names.now step.now) }
{
    Ok(Step {
        moment: resolved_moment(alloc, names, &step.moment)?,
        without: resolved_without(alloc, names, step.without.as_ref())?,
    })
}

/// A question whose patterns are resolved, over a configuration with these names. The error is want of memory.
pub fn resolved(alloc: Global, names: &Names, question: &Question) -> Result<Question, AllocError>
    ensures { IfOk result (λ q. q ≡ spec.resolved names.now question.now) }
{
    let mut steps = Vec::new(alloc);
    for step in question.steps() {
        steps.push(resolved_step(alloc, names, step)?)?;
    }
    Ok(Question::new(steps))
}

/// What stays for ever, with its patterns resolved, over a configuration with these names. The error is want of memory.
pub fn resolved_lasting(
    alloc: Global,
    names: &Names,
    parts: &[Moment],
) -> Result<Vec<Moment>, AllocError>
    ensures { IfOk result (λ v. v.items ≡ spec.resolved_lasting names.now parts.now) }
{
    let mut resolved = Vec::new(alloc);
    for part in parts {
        resolved.push(resolved_moment(alloc, names, part)?)?;
    }
    Ok(resolved)
}
