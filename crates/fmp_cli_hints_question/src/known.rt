//! What is told of a word of a question that is no name, no call, no code and no word of a trace.
ghost use Rattle.std.specs.Prelude.{◌≡◌, IfOk, map};
ghost use Rattle.std.specs.Option.{option_copied};
ghost use Rattle.fmp_cli_help.specs.Near.{nearest};
ghost use Rattle.fmp_cli_hints_question.specs.Known as spec;

use crate::rows::QUESTION_ROWS;
use fmp_cli_help::{near_answer, nearer};
use fmp_cli_hints::{near_thing, put_near, put_processors, report_of};
use fmp_names::is_processor_word;
use fmp_out::Text;
use fmp_search_pattern::{TRACE_WORDS, begins_with_digit, cut_run, has_star};
use fmp_text::{Names, processor_in};
use std::alloc::{AllocError, Global};

/// The nearest of these words, and of the best one before them.
fn near_word<'a>(
    alloc: Global,
    word: &[u8],
    before: Option<&'a [u8]>,
    words: &[&'a [u8]],
) -> Result<Option<&'a [u8]>, AllocError>
    ensures { IfOk result (λ found. option_copied found ≡ nearest word.now (option_copied before.entry) (map (λ w. w.now) words.now)) }
{
    let mut best = before;
    for it in words {
        best = nearer(alloc, word, best, it)?;
    }
    Ok(best)
}

/// The nearest of what may stand in a line of a trace or of a state.
#[tactic(auto, unfolding(crate::specs::Known::near_known))]
fn near_known<'a>(
    alloc: Global,
    names: &'a Names,
    word: &[u8],
) -> Result<Option<&'a [u8]>, AllocError>
    ensures { IfOk result (λ found. option_copied found ≡ spec.near_known names.now word.now) }
{
    let best = near_thing(alloc, names, word)?;
    let best = near_word(alloc, word, best, &TRACE_WORDS)?;
    if best.is_some() {
        return Ok(best);
    }
    near_answer(alloc, word)
}

/// Whether nothing is told of a run: it has a star, begins with a digit, is empty, or is the name of an object.
fn is_settled(names: &Names, run: &[u8]) -> bool {
    has_star(run) || begins_with_digit(run) || names.contains_object(run)
}

/// What is told of a function, after its name.
const FUNCTION: &[u8] = b" is a function. In a line stands the name of the task or the handler.\n";

/// Adds the name that is near to a run, unless it is the run itself.
fn put_other(out: &mut Text, run: &[u8], found: Option<&[u8]>) {
    match found {
        Some(name) if name != run => put_near(out, found),
        _ => {}
    }
}

/// Adds what is told of a name that stands in no line.
fn put_name_hint(
    alloc: Global,
    out: &mut Text,
    names: &Names,
    run: &[u8],
) -> Result<(), AllocError> {
    if names.contains_function(run) {
        out.put(b"  ");
        out.put(run);
        out.put(FUNCTION);
    } else {
        put_other(out, run, near_known(alloc, names, run)?);
    }
    Ok(())
}

/// Adds which processors there are, where a run is none of them.
fn put_processor_hint(out: &mut Text, names: &Names, run: &[u8]) {
    if processor_in(names, run).is_err() {
        out.put(b"  here: ");
        put_processors(out, names.processors());
    }
}

/// Adds what is told of letters, digits, `_` and stars in a row.
fn put_run_hint(
    alloc: Global,
    out: &mut Text,
    names: &Names,
    run: &[u8],
) -> Result<(), AllocError> {
    if is_settled(names, run) {
        return Ok(());
    }
    let row = report_of(&QUESTION_ROWS, run);
    if is_processor_word(run) {
        put_processor_hint(out, names, run);
    } else if row.is_empty() {
        put_name_hint(alloc, out, names, run)?;
    } else {
        out.put(row);
    }
    Ok(())
}

/// Adds what is told of each run of letters, digits, `_` and stars of a word.
pub(crate) fn put_run_hints(
    alloc: Global,
    out: &mut Text,
    names: &Names,
    word: &[u8],
) -> Result<(), AllocError> {
    let mut rest = Some(word);
    while let Some(text) = rest {
        let (run, after) = cut_run(text);
        rest = after;
        put_run_hint(alloc, out, names, run)?;
    }
    Ok(())
}
