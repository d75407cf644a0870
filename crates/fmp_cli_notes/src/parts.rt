//! What a question is made of: the item that is all of it, and the patterns of a step.
ghost use Rattle.std.specs.Prelude.{◌≡◌, IfOk, OnOk};
ghost use Rattle.std.specs.List.{list_any};
ghost use Rattle.std.specs.Option.{option_copied};
ghost use Rattle.std.specs.Str.{bytes_eq};
ghost use Rattle.fmp_names.specs.Names.{texts};
ghost use Rattle.fmp_cli_notes.specs.Parts as spec;

use crate::patterns::words_of;
use fmp_search_pattern::{Item, Moment, Part, Question, Step};
use std::alloc::{AllocError, Global};

/// The item that is all of a step.
pub(crate) fn only_item(step: &Step) -> Option<&Item>
    ensures { option_copied result ≡ spec.only_item step.now }
{
    match (&step.without, step.moment.parts()) {
        (None, [part]) => match part.items() {
            [item] => Some(item),
            _ => None,
        },
        _ => None,
    }
}

/// The item that is all of a question: of it `never` says everything.
pub(crate) fn plain_item(question: &Question) -> Option<&Item>
    ensures { option_copied result ≡ spec.plain_item question.now }
{
    match question.steps() {
        [step] => only_item(step),
        _ => None,
    }
}

/// Whether a text is one of these.
fn is_among(list: &[Vec<u8>], text: &[u8]) -> bool
    ensures { result ≡ list_any (λ it. bytes_eq text.now it.items) list.now }
{
    list.iter().any(|it| text == it.as_slice())
}

/// Puts a text behind the others, if it is none of them.
#[tactic(auto, using(fmp_names::proofs::Listed::list_any_map))]
fn put_new(list: &mut Vec<Vec<u8>>, text: Vec<u8>) -> Result<(), AllocError>
    ensures { OnOk result (texts list.new ≡ spec.with_new (texts list.old) text.items) }
{
    if !is_among(list, text.as_slice()) {
        list.push(text)?;
    }
    Ok(())
}

/// Puts the patterns of a part that have to be there.
fn put_part(alloc: Global, list: &mut Vec<Vec<u8>>, part: &Part) -> Result<(), AllocError>
    ensures { OnOk result (texts list.new ≡ spec.with_part (texts list.old) part.now) }
{
    for item in part.items() {
        if !item.is_negated() {
            put_new(list, words_of(alloc, item.wanted())?)?;
        }
    }
    Ok(())
}

/// The patterns of a moment that have to be there, each once, in the order in which they first come. The error is want of memory.
pub(crate) fn patterns_of(alloc: Global, moment: &Moment) -> Result<Vec<Vec<u8>>, AllocError>
    ensures { IfOk result (λ list. texts list ≡ spec.patterns_of moment.now) }
{
    let mut list = Vec::new(alloc);
    for part in moment.parts() {
        put_part(alloc, &mut list, part)?;
    }
    Ok(list)
}
