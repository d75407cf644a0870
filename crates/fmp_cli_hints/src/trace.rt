//! The first part of a trace's line with which its reader no longer takes it.
ghost use Rattle.std.specs.Prelude.{◌≡◌, ◌≤◌, length, IfOk};
ghost use Rattle.fmp_cli_hints.specs.Traces as spec;

use crate::fits::{
    AFTER_EVENT, AFTER_NUMBER, AFTER_PROCESSOR, AFTER_RUNNER, Form, cut_whole, fits, fits_with,
};
use crate::walk::Walk;
use crate::wanted::{Wanted, event_wanted};
use fmp_bytes::{Class, skip, split_prefix};
use fmp_calls::find_call;
use fmp_codes::{Call, Event, Proc};
use fmp_text::{Names, TextKind, call_after};
use fmp_trace::put_event;
use std::alloc::{AllocError, Global};

/// Goes on over one blank at which a text begins.
fn after_blank<'a>(text: &'a [u8], wanted: Wanted) -> Walk<'a>
    ensures exact { result ≡ spec.after_blank wanted text.now }
    ensures within { length result.rest ≤ length text.now }
{
    match text {
        [b' ', rest @ ..] => Walk::going(rest),
        _ => Walk::stuck(text, wanted),
    }
}

/// Goes on over one blank.
#[tactic(auto, unfolding(crate::specs::Traces::spaced))]
fn spaced<'a>(walk: Walk<'a>, wanted: Wanted) -> Walk<'a>
    ensures exact { result ≡ spec.spaced wanted walk.entry }
    ensures within { length result.rest ≤ length walk.entry.rest }
{
    if walk.wanted().is_some() {
        return walk;
    }
    after_blank(walk.rest(), wanted)
}

/// Goes on over a word of line n, up to the next blank, where the line fits with it.
#[tactic(auto, unfolding(crate::specs::Traces::part, crate::specs::Traces::word))]
fn part<'a>(
    alloc: Global,
    names: &Names,
    n: u32,
    line: &[u8],
    walk: Walk<'a>,
    ending: &[u8],
    wanted: Wanted,
) -> Result<Walk<'a>, AllocError>
    requires { length walk.rest ≤ length line.now }
    ensures exact { IfOk result (λ w. w ≡ spec.part names.now n line.now ending.now wanted walk.entry) }
    ensures within { IfOk result (λ w. length w.rest ≤ length line.now) }
{
    if walk.wanted().is_some() {
        return Ok(walk);
    }
    let text = walk.rest();
    if fits_with(alloc, names, Form::Whole, n, line, text, ending)? {
        let (word, _after) = cut_whole(b' ', text);
        Ok(Walk::going(&text[word.len()..]))
    } else {
        Ok(Walk::stuck(text, wanted))
    }
}

/// How many bytes from the first on are the same. A call as it is printed has few.
fn agreeing(a: &[u8], b: &[u8]) -> usize
    ensures exact { result ≡ spec.agreeing a.now b.now }
    ensures within { result ≤ length a.now }
{
    match a {
        [] => 0,
        [first, a @ ..] => match b {
            [] => 0,
            [second, b @ ..] => {
                if first == second {
                    agreeing(a, b) + 1
                } else {
                    0
                }
            }
        },
    }
}

/// A text up to its first closing parenthesis, or all of it.
#[tactic(auto, unfolding(crate::specs::Traces::call_part))]
fn call_part(text: &[u8]) -> &[u8]
    ensures exact { result.now ≡ spec.call_part text.now }
    ensures within { length result.now ≤ length text.now }
{
    let (inner, after) = cut_whole(b')', text);
    match after {
        Some(_) => &text[..inner.len() + 1],
        None => text,
    }
}

/// Where a written call that begins a text stops to fit: where it is refused, or is not printed so.
#[tactic(auto, unfolding(crate::specs::Traces::call_place))]
fn call_place<'a>(
    alloc: Global,
    names: &Names,
    call: Call,
    written: &[u8],
    text: &'a [u8],
) -> Result<Walk<'a>, AllocError>
    requires { length written.now ≤ length text.now }
    ensures exact { IfOk result (λ w. w ≡ spec.call_place names.now call written.now text.now) }
    ensures within { IfOk result (λ w. length w.rest ≤ length text.now) }
{
    match call_after(names, call, skip(Class::Word, written)) {
        Ok(call) => {
            let mut printed = Vec::new(alloc);
            put_event(&mut printed, names, Event::Call(Proc::new(1), call))?;
            let count = agreeing(written, printed.as_slice());
            Ok(Walk::stuck(&text[count..], Wanted::Printed(call)))
        }
        Err(misfit) => {
            let place = written.len().saturating_sub(misfit.rest.len());
            let wanted = event_wanted(misfit.rest, misfit.wanted);
            Ok(Walk::stuck(&text[place..], wanted))
        }
    }
}

/// Goes on over the event at which a text begins that ends line n.
#[tactic(auto, unfolding(crate::specs::Traces::event))]
fn event<'a>(
    alloc: Global,
    names: &Names,
    form: Form,
    n: u32,
    line: &[u8],
    text: &'a [u8],
) -> Result<Walk<'a>, AllocError>
    requires { length text.now ≤ length line.now }
    ensures exact { IfOk result (λ w. w ≡ spec.event form names.now n line.now text.now) }
    ensures within { IfOk result (λ w. length w.rest ≤ length text.now) }
{
    let before = line.len() - text.len();
    let (word, rest) = split_prefix(Class::Word, text);
    if fits(
        alloc,
        names,
        form,
        n,
        &line[..before + word.len()],
        AFTER_EVENT,
    )? {
        return Ok(Walk::going(rest));
    }
    let call = call_part(text);
    if fits(
        alloc,
        names,
        form,
        n,
        &line[..before + call.len()],
        AFTER_EVENT,
    )? {
        return Ok(Walk::going(&text[call.len()..]));
    }
    match find_call(word) {
        Some(named) => call_place(alloc, names, named, call, text),
        None => Ok(Walk::stuck(text, Wanted::Happening)),
    }
}

/// What is wanted in place of an answer, and of a word behind it.
fn wanted_after(form: Form) -> (Wanted, Wanted)
    ensures { result ≡ spec.wanted_after form }
{
    match form {
        Form::Whole => (Wanted::Answer, Wanted::Tail),
        Form::Partial => (Wanted::PartAnswer, Wanted::PartTail),
    }
}

/// Goes on over the words from the answer on, with which a text begins that ends line n, up to the first with which the line does not fit.
#[tactic(auto, using(crate::proofs::Words::next_word, crate::proofs::Words::last_word, crate::proofs::Words::no_word))]
fn words<'a>(
    alloc: Global,
    names: &Names,
    form: Form,
    n: u32,
    line: &[u8],
    text: &'a [u8],
    wanted: Wanted,
) -> Result<Walk<'a>, AllocError>
    requires { length text.now ≤ length line.now }
    ensures { IfOk result (λ w. w ≡ spec.words form names.now n line.now text.now wanted) }
{
    if !fits_with(alloc, names, form, n, line, text, b"")? {
        return Ok(Walk::stuck(text, wanted));
    }
    let (_word, after) = cut_whole(b' ', text);
    match after {
        Some(rest) => words(alloc, names, form, n, line, rest, wanted_after(form).1),
        None => Ok(Walk::going(&[])),
    }
}

/// Goes on from the event on, at which a text begins that ends line n.
#[tactic(auto, unfolding(crate::specs::Traces::from_event, crate::specs::Traces::answered))]
pub(crate) fn from_event<'a>(
    alloc: Global,
    names: &Names,
    form: Form,
    n: u32,
    line: &[u8],
    text: &'a [u8],
) -> Result<Walk<'a>, AllocError>
    requires { length text.now ≤ length line.now }
    ensures { IfOk result (λ w. w ≡ spec.from_event form names.now n line.now text.now) }
{
    let wanted = wanted_after(form).0;
    let walk = spaced(event(alloc, names, form, n, line, text)?, wanted);
    if walk.wanted().is_some() {
        return Ok(walk);
    }
    words(alloc, names, form, n, line, walk.rest(), wanted)
}

/// How far the line of this number fits.
#[tactic(auto, unfolding(crate::specs::Traces::line_place, crate::specs::Traces::headed))]
fn line_place<'a>(
    alloc: Global,
    names: &Names,
    n: u32,
    line: &'a [u8],
) -> Result<Walk<'a>, AllocError>
    ensures { IfOk result (λ w. w ≡ spec.line_place names.now n line.now) }
{
    let walk = Walk::going(line);
    let walk = part(
        alloc,
        names,
        n,
        line,
        walk,
        AFTER_NUMBER,
        Wanted::LineNumber(n),
    )?;
    let walk = spaced(walk, Wanted::Processor);
    let walk = part(
        alloc,
        names,
        n,
        line,
        walk,
        AFTER_PROCESSOR,
        Wanted::Processor,
    )?;
    let walk = spaced(walk, Wanted::Runner);
    let walk = part(alloc, names, n, line, walk, AFTER_RUNNER, Wanted::Runner)?;
    let walk = spaced(walk, Wanted::Happening);
    if walk.wanted().is_some() {
        return Ok(walk);
    }
    from_event(alloc, names, Form::Whole, n, line, walk.rest())
}

/// Where a byte is not printed, or the carriage return at the end was left out.
fn byte_place<'a>(line: &'a [u8]) -> Walk<'a>
    ensures { result ≡ spec.byte_place line.now }
{
    match skip(Class::Printed, line) {
        [] => Walk::stuck(&[], Wanted::NoReturn),
        rest => Walk::stuck(rest, Wanted::PrintedByte),
    }
}

/// Where the line of this number in a trace is at fault, by the kind of the fault.
#[tactic(auto, unfolding(crate::specs::Traces::trace_place))]
pub(crate) fn trace_place<'a>(
    alloc: Global,
    names: &Names,
    n: u32,
    line: &'a [u8],
    kind: TextKind,
) -> Result<Walk<'a>, AllocError>
    ensures { IfOk result (λ w. w ≡ spec.trace_place names.now n line.now kind) }
{
    match kind {
        TextKind::BadByte => Ok(byte_place(line)),
        TextKind::BadWord => line_place(alloc, names, n, line),
        _ => Ok(Walk::going(line)),
    }
}
