//! Words that no order of `explore` has, or only with `--spurious`.
ghost use Rattle.std.specs.Prelude.{◌≡◌, IfOk};
ghost use Rattle.fmp_cli_notes.specs.Words as spec;

use crate::patterns::words_of;
use fmp_bytes::cut;
use fmp_search_pattern::{Item, Moment, Part, Question, Step};
use std::alloc::{AllocError, Global};

/// Whether these bytes stand in a text.
fn has_bytes(bytes: &[u8], text: &[u8]) -> bool
    ensures { result ≡ spec.has_bytes bytes.now text.now }
{
    let mut rest = text;
    while let [_, after @ ..] = rest {
        if rest.starts_with(bytes) {
            return true;
        }
        rest = after;
    }
    rest.starts_with(bytes)
}

/// Whether a text has this word between blanks.
fn has_word(word: &[u8], text: &[u8]) -> bool
    ensures { result ≡ spec.has_word word.now text.now }
{
    let mut rest = Some(text);
    while let Some(words) = rest {
        let (first, after) = cut(b' ', words);
        rest = after;
        if first == word {
            return true;
        }
    }
    false
}

/// Whether a record has these words only where an event was given at which nothing could happen. No order of `explore` has such an event.
#[tactic(auto, unfolding(crate::specs::Words::is_given_alone))]
pub(crate) fn is_given_alone(words: &[u8]) -> bool
    ensures { result ≡ spec.is_given_alone words.now }
{
    has_word(b"idle", words) || has_bytes(b"tick none", words)
}

/// Whether words are those of an interrupt which changes nothing.
#[tactic(auto, unfolding(crate::specs::Words::is_spurious))]
fn is_spurious(words: &[u8]) -> bool
    ensures { result ≡ spec.is_spurious words.now }
{
    has_bytes(b"ipi none", words) || has_bytes(b"ipi held", words)
}

/// Whether an item has such words, also behind `not`. The error is want of memory, as of all below.
fn is_item_spurious(alloc: Global, item: &Item) -> Result<bool, AllocError>
    ensures { IfOk result (λ is. is ≡ spec.is_item_spurious item.now) }
{
    let words = words_of(alloc, item.wanted())?;
    Ok(is_spurious(words.as_slice()))
}

/// Whether an item of a part has them.
fn is_part_spurious(alloc: Global, part: &Part) -> Result<bool, AllocError>
    ensures { IfOk result (λ is. is ≡ spec.is_part_spurious part.now) }
{
    for item in part.items() {
        if is_item_spurious(alloc, item)? {
            return Ok(true);
        }
    }
    Ok(false)
}

/// Whether a part of a moment has them.
fn is_moment_spurious(alloc: Global, moment: &Moment) -> Result<bool, AllocError>
    ensures { IfOk result (λ is. is ≡ spec.is_moment_spurious moment.now) }
{
    for part in moment.parts() {
        if is_part_spurious(alloc, part)? {
            return Ok(true);
        }
    }
    Ok(false)
}

/// Whether a step has them, or what may not come before it.
fn is_step_spurious(alloc: Global, step: &Step) -> Result<bool, AllocError>
    ensures { IfOk result (λ is. is ≡ spec.is_step_spurious step.now) }
{
    match &step.without {
        Some(moment) if is_moment_spurious(alloc, moment)? => Ok(true),
        _ => is_moment_spurious(alloc, &step.moment),
    }
}

/// Whether a step of a question has them.
pub(crate) fn asks_spurious(alloc: Global, question: &Question) -> Result<bool, AllocError>
    ensures { IfOk result (λ is. is ≡ spec.asks_spurious question.now) }
{
    for step in question.steps() {
        if is_step_spurious(alloc, step)? {
            return Ok(true);
        }
    }
    Ok(false)
}
