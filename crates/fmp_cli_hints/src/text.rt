//! What stands beside a fault line of events, scripts or a trace.
ghost use Rattle.std.specs.Prelude.{◌≡◌, true, IfOk};
ghost use Rattle.std.specs.Option.{option_copied};
ghost use Rattle.fmp_cli_hints.specs.Texts as spec;

use crate::event::{column_of, event_place};
use crate::excerpt::put_excerpt;
use crate::hints::put_hint;
use crate::labels::put_label_hint;
use crate::likeness::{put_text_likeness, without_mark};
use crate::line::line_after;
use crate::partial::partial_place;
use crate::script::script_place;
use crate::trace::trace_place;
use crate::walk::Walk;
use crate::wanted::{Wanted, put_wanted};
use fmp_bytes::{Class, skip, split_prefix};
use fmp_cli_diagnostics::Spot;
use fmp_cli_help::put_text_advice;
use fmp_codes::{ArgumentKind, ObjectKind};
use fmp_out::Text;
use fmp_text::{Names, TextFault, TextKind, without_return};
use fmp_text_scripts::Wanted as ScriptWanted;
use std::alloc::{AllocError, Global};

/// The texts that are read beside a configuration.
#[derive(Clone, Copy)]
pub enum TextForm {
    Events,
    Scripts,
    Trace,
    /// A trace whose lines may leave out parts.
    Partial,
}

/// Where a line with this fault is at fault that ends with a line feed, with a carriage return before it or not.
fn whole_place<'a>(
    alloc: Global,
    names: &Names,
    form: TextForm,
    line: &'a [u8],
    fault: TextFault,
) -> Result<Walk<'a>, AllocError>
    ensures { IfOk result (λ walk. spec.is_told form ≡ true → walk ≡ spec.whole_place form names.now fault.line line.now fault.kind) }
{
    let whole = without_return(line);
    match form {
        TextForm::Events if fault.kind == TextKind::TooMany => {
            Ok(Walk::going(skip(Class::Blank, whole)))
        }
        TextForm::Events => Ok(event_place(names, line)),
        TextForm::Scripts => Ok(script_place(names, line, fault.kind)),
        TextForm::Trace => trace_place(alloc, names, fault.line, whole, fault.kind),
        TextForm::Partial => partial_place(alloc, names, fault.line, whole, fault.kind),
    }
}

/// Where a line with this fault is at fault, with what follows its line feed, if it has one.
fn place<'a>(
    alloc: Global,
    names: &Names,
    form: TextForm,
    line: &'a [u8],
    after: Option<&[u8]>,
    fault: TextFault,
) -> Result<Walk<'a>, AllocError>
    ensures { IfOk result (λ walk. spec.is_told form ≡ true → walk ≡ spec.place form names.now fault.line line.now (option_copied after.entry) fault.kind) }
{
    match after {
        None => Ok(Walk::going(&[])),
        Some(_) => whole_place(alloc, names, form, line, fault),
    }
}

/// Adds what is wanted at a place, with what is told of the word that stands there, or else what to do about such a fault.
fn put_report(
    alloc: Global,
    out: &mut Text,
    names: &Names,
    walk: &Walk<'_>,
    kind: TextKind,
) -> Result<(), AllocError> {
    match walk.wanted() {
        Some(wanted) => {
            put_wanted(alloc, out, names, wanted)?;
            put_hint(alloc, out, names, wanted, walk.rest())?;
        }
        None => put_text_advice(out, kind),
    }
    Ok(())
}

/// What is told of a line of a text with this fault, with what follows its line feed, if it has one.
fn report_line(
    alloc: Global,
    names: &Names,
    form: TextForm,
    text: &[u8],
    fault: TextFault,
    line: &[u8],
    after: Option<&[u8]>,
) -> Result<Vec<u8>, AllocError> {
    let whole = without_return(line);
    let shown = without_mark(whole);
    let walk = place(alloc, names, form, line, after, fault)?;
    let mut out = Text::new(alloc);
    put_excerpt(&mut out, shown, column_of(shown, &walk));
    put_report(alloc, &mut out, names, &walk, fault.kind)?;
    put_label_hint(alloc, &mut out, names, fault.line, text, walk.wanted())?;
    put_text_likeness(&mut out, form, fault.kind, line);
    out.finish()
}

/// What to do about a fault of events, scripts or a trace: what stands beside a fault whose line cannot be shown.
pub fn text_advice(alloc: Global, kind: TextKind) -> Result<Vec<u8>, AllocError> {
    let mut out = Text::new(alloc);
    put_text_advice(&mut out, kind);
    out.finish()
}

/// What stands beside a fault of this text: the line, a caret under the first byte at fault, and what is wanted there or what to do
/// about such a fault. Where the fault has no line in the text, what to do about it alone. That the text has the fault is taken
/// from the caller.
pub fn text_context(
    alloc: Global,
    names: &Names,
    form: TextForm,
    text: &[u8],
    fault: TextFault,
) -> Result<Vec<u8>, AllocError> {
    if fault.line == 0 {
        return text_advice(alloc, fault.kind);
    }
    match line_after(fault.line - 1, text) {
        Some((line, after)) => report_line(alloc, names, form, text, fault, line, after),
        None => text_advice(alloc, fault.kind),
    }
}

/// Where a line with this fault is at fault, with what follows its line feed, if it has one: under the caret that is shown.
#[tactic(auto, unfolding(crate::specs::Texts::line_spot))]
fn line_spot(
    alloc: Global,
    names: &Names,
    form: TextForm,
    fault: TextFault,
    line: &[u8],
    after: Option<&[u8]>,
) -> Result<Spot, AllocError>
    ensures { IfOk result (λ spot. spec.is_told form ≡ true → spot ≡ spec.line_spot form names.now fault line.now (option_copied after.entry)) }
{
    let walk = place(alloc, names, form, line, after, fault)?;
    let column = column_of(without_mark(without_return(line)), &walk);
    Ok(Spot::Column(fault.line as usize, column + 1))
}

/// Where the fault of this text is, as far as that is known: in its line at the byte that has the caret, as [`text_context`] shows it. Where
/// the fault has no line in the text, no column is known. That the text has the fault is taken from the caller.
#[tactic(auto, unfolding(crate::specs::Texts::text_spot))]
pub fn text_spot(
    alloc: Global,
    names: &Names,
    form: TextForm,
    text: &[u8],
    fault: TextFault,
) -> Result<Spot, AllocError>
    ensures { IfOk result (λ spot. spec.is_told form ≡ true → spot ≡ spec.text_spot form names.now text.now fault) }
{
    if fault.line == 0 {
        return Ok(Spot::Nowhere);
    }
    match line_after(fault.line - 1, text) {
        Some((line, after)) => line_spot(alloc, names, form, fault, line, after),
        None => Ok(Spot::Line(fault.line as usize)),
    }
}

/// The word that stands where a function is wanted.
fn word_for_function<'a>(walk: Walk<'a>) -> Option<&'a [u8]> {
    match walk.wanted() {
        Some(Wanted::Script(ScriptWanted::Function)) => {
            let (word, _rest) = split_prefix(Class::Word, walk.rest());
            Some(word)
        }
        _ => None,
    }
}

/// The word that stands where a task is wanted.
fn word_for_task<'a>(walk: Walk<'a>) -> Option<&'a [u8]> {
    match walk.wanted() {
        Some(Wanted::Argument(_, ArgumentKind::Object(ObjectKind::Task))) => {
            let (word, _rest) = split_prefix(Class::Argument, walk.rest());
            Some(word)
        }
        _ => None,
    }
}

/// The word that stands where a task is wanted, where this fault of a text is there.
pub fn task_at<'a>(
    alloc: Global,
    names: &Names,
    form: TextForm,
    text: &'a [u8],
    fault: TextFault,
) -> Result<Option<&'a [u8]>, AllocError> {
    if fault.line == 0 {
        return Ok(None);
    }
    let Some((line, after)) = line_after(fault.line - 1, text) else {
        return Ok(None);
    };
    let walk = place(alloc, names, form, line, after, fault)?;
    Ok(word_for_task(walk))
}

/// The word that stands where a function is wanted, where this fault of scripts is there.
pub fn function_at<'a>(
    alloc: Global,
    names: &Names,
    text: &'a [u8],
    fault: TextFault,
) -> Result<Option<&'a [u8]>, AllocError> {
    if fault.line == 0 {
        return Ok(None);
    }
    let Some((line, after)) = line_after(fault.line - 1, text) else {
        return Ok(None);
    };
    let walk = place(alloc, names, TextForm::Scripts, line, after, fault)?;
    Ok(word_for_function(walk))
}
