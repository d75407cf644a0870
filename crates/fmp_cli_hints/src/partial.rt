//! The first part of a partial trace's line that is not read so.
ghost use Rattle.std.specs.Prelude.{◌≤◌, length, IfOk};

use crate::fits::{AFTER_NUMBER, AFTER_PROCESSOR, AFTER_RUNNER, Form, fits_with};
use crate::trace::{from_event, trace_place};
use crate::walk::Walk;
use crate::wanted::Wanted;
use fmp_bytes::{Class, are_digits, cut, following, spelled_number, split_prefix, unsigned32};
use fmp_calls::find_call;
use fmp_text::{MOST_EVENTS, Names, TextKind};
use std::alloc::{AllocError, Global};

/// Goes on over a word and the blank after it, where it passes, and else not at all.
fn past<'a>(passes: bool, word: &[u8], text: &'a [u8]) -> &'a [u8]
    ensures within { length result.now ≤ length text.now }
{
    if !passes || text.len() < word.len() {
        return text;
    }
    match &text[word.len()..] {
        [b' ', rest @ ..] => rest,
        _ => text,
    }
}

/// Whether a text begins with an event, or with a word that opens a parenthesis as a call does.
fn begins_event(text: &[u8]) -> bool {
    let (word, rest) = split_prefix(Class::Word, text);
    rest.starts_with(b"(")
        || word == b"tick".as_slice()
        || word == b"ipi".as_slice()
        || find_call(word).is_some()
}

/// Whether a word stands for who runs, though it names no task and no handler: an event follows it, and it is none.
fn is_for_runner(text: &[u8], after: Option<&[u8]>) -> bool {
    match after {
        Some(rest) => begins_event(rest) && !begins_event(text),
        None => false,
    }
}

/// Goes on over the runner of a line and the blank after it, where it has one, in a text after the processor that ends line n.
fn partly_run_by<'a>(
    alloc: Global,
    names: &Names,
    n: u32,
    line: &[u8],
    text: &'a [u8],
) -> Result<Walk<'a>, AllocError>
    requires { length text.now ≤ length line.now }
    ensures within { IfOk result (λ w. length w.rest ≤ length text.now) }
{
    let (runner, after) = cut(b' ', text);
    if fits_with(alloc, names, Form::Partial, n, line, text, AFTER_RUNNER)? {
        return Ok(Walk::going(past(true, runner, text)));
    }
    if !text.starts_with(b" ") && is_for_runner(text, after) {
        return Ok(Walk::stuck(text, Wanted::Runner));
    }
    Ok(Walk::going(text))
}

/// Goes on over all that stands before the event in a line that may leave out parts, with the blank after it.
fn partly_headed<'a>(
    alloc: Global,
    names: &Names,
    n: u32,
    line: &'a [u8],
) -> Result<Walk<'a>, AllocError>
    ensures within { IfOk result (λ w. length w.rest ≤ length line.now) }
{
    let (number, _after) = cut(b' ', line);
    let counts = are_digits(10, number);
    if counts && !fits_with(alloc, names, Form::Partial, n, line, line, AFTER_NUMBER)? {
        return Ok(Walk::stuck(line, Wanted::LineNumber(n)));
    }
    let text = past(counts, number, line);
    if !fits_with(alloc, names, Form::Partial, n, line, text, AFTER_PROCESSOR)? {
        return Ok(Walk::stuck(text, Wanted::Processor));
    }
    let (processor, _after) = cut(b' ', text);
    partly_run_by(alloc, names, n, line, past(true, processor, text))
}

/// Whether a text is a number of 32 bits as it is written in decimal.
fn is_log_line(text: &[u8]) -> bool {
    let Some(number) = spelled_number(text) else {
        return false;
    };
    let Some(magnitude) = number.magnitude else {
        return false;
    };
    are_digits(10, text) && !number.zero_led && unsigned32(number.negative, magnitude).is_some()
}

/// A line that begins with the word that stands for the end of a trace: it may be the last one alone, or tells no line of a log.
fn ending_place<'a>(line: &'a [u8], after: &'a [u8]) -> Walk<'a> {
    match following(b' ', after) {
        Some(number) if is_log_line(number) => Walk::stuck(line, Wanted::LastLine),
        Some(number) => Walk::stuck(number, Wanted::LogLine),
        None => Walk::stuck(after, Wanted::LogLine),
    }
}

/// How far a line that may leave out parts is read so.
fn partial_line_place<'a>(
    alloc: Global,
    names: &Names,
    n: u32,
    line: &'a [u8],
) -> Result<Walk<'a>, AllocError> {
    if let Some(after) = line.strip_prefix(b"ends".as_slice()) {
        return Ok(ending_place(line, after));
    }
    let head = partly_headed(alloc, names, n, line)?;
    if head.wanted().is_some() {
        return Ok(head);
    }
    from_event(alloc, names, Form::Partial, n, line, head.rest())
}

/// A line of this number that is one too many, or before which too many lines are under way.
fn crowded_place<'a>(n: u32, line: &'a [u8]) -> Walk<'a> {
    if n as usize > MOST_EVENTS {
        Walk::going(line)
    } else {
        Walk::stuck(line, Wanted::FewUnderWay)
    }
}

/// Where a line of a trace that may leave out parts is at fault, by the kind of the fault.
pub(crate) fn partial_place<'a>(
    alloc: Global,
    names: &Names,
    n: u32,
    line: &'a [u8],
    kind: TextKind,
) -> Result<Walk<'a>, AllocError> {
    match kind {
        TextKind::BadWord => partial_line_place(alloc, names, n, line),
        TextKind::TooMany => Ok(crowded_place(n, line)),
        _ => trace_place(alloc, names, n, line, kind),
    }
}
