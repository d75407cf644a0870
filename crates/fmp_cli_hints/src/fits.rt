//! Whether the reader of a trace takes a beginning of one of its lines, which an ending makes a line.
ghost use Rattle.std.specs.Prelude.{◌≡◌, ◌≤◌, ◌+◌, length, IfOk};
ghost use Rattle.std.specs.Option.{option_copied, option_map_or};
ghost use Rattle.fmp_bytes.specs.Bytes.{cut_at};
ghost use Rattle.fmp_cli_hints.specs.Traces as spec;
ghost use Rattle.fmp_trace.specs.Guess as reading;
ghost use Rattle.fmp_trace.specs.Reading.{line_record};
ghost use Rattle.fmp_trace_partial.specs.Saying.{line_said};

use fmp_bytes::{Class, all_of, cut, following};
use fmp_codes::Record;
use fmp_out::Text;
use fmp_text::{Names, TextKind, processor_numbered};
use fmp_trace::{guess_runner, is_line};
use fmp_trace_partial::read_said;
use std::alloc::{AllocError, Global};

/// Whether a trace may leave out parts of its lines.
#[derive(Clone, Copy)]
pub(crate) enum Form {
    Whole,
    Partial,
}

/// What makes a line of a beginning that ends with the line's number.
pub(crate) const AFTER_NUMBER: &[u8] = b" P1 - tick E_OK";

/// What makes a line of one that ends with the processor.
pub(crate) const AFTER_PROCESSOR: &[u8] = b" - tick E_OK";

/// What makes a line of one that ends with who runs.
pub(crate) const AFTER_RUNNER: &[u8] = b" tick E_OK";

/// What makes a line of one that ends with the event.
pub(crate) const AFTER_EVENT: &[u8] = b" E_OK";

/// The record that a line is guessed to print by its reader, if any.
#[tactic(auto, unfolding(fmp_trace::specs::Guess::guess, fmp_trace::specs::Guess::guess_processor))]
fn guess(names: &Names, line: &[u8]) -> Option<Record>
    ensures { result ≡ reading.guess names.now line.now }
{
    let (_number, rest) = cut(b' ', line);
    let (digits, rest) = cut(b' ', following(b'P', rest?)?);
    let rest = rest?;
    let processor = processor_numbered(names, digits)?;
    guess_runner(names, processor, rest)
}

/// Whether line n of a trace is read, or is one too many.
#[tactic(auto, unfolding(fmp_trace::specs::Reading::line_record), using(crate::proofs::Taken::taken_confirmed))]
fn is_read(alloc: Global, names: &Names, n: u32, line: &[u8]) -> Result<bool, AllocError>
    ensures { IfOk result (λ read. read ≡ spec.is_taken (line_record names.now n line.now)) }
{
    if !all_of(Class::Printed, line) {
        return Ok(false);
    }
    match guess(names, line) {
        Some(entry) => {
            let mut scratch = Vec::new(alloc);
            is_line(&mut scratch, names, n, &entry, line)
        }
        None => Ok(false),
    }
}

/// Whether line n of a trace that may leave out parts is read, or is one too many.
fn is_told(alloc: Global, names: &Names, n: u32, line: &[u8]) -> Result<bool, AllocError>
    ensures { IfOk result (λ read. read ≡ spec.is_taken (line_said names.now n line.now)) }
{
    let mut scratch = Text::new(alloc);
    match read_said(&mut scratch, names, n, line) {
        Ok(_said) => Ok(true),
        Err(fault) => match fault.kind {
            TextKind::Memory => Err(AllocError),
            kind => Ok(kind == TextKind::TooMany),
        },
    }
}

/// Whether a beginning of line n fits, which this ending makes a line.
#[tactic(auto, unfolding(crate::specs::Traces::fits))]
pub(crate) fn fits(
    alloc: Global,
    names: &Names,
    form: Form,
    n: u32,
    beginning: &[u8],
    ending: &[u8],
) -> Result<bool, AllocError>
    ensures { IfOk result (λ fits. fits ≡ spec.fits form names.now n beginning.now ending.now) }
{
    let mut line = Vec::new(alloc);
    line.extend_from_slice(beginning)?;
    line.extend_from_slice(ending)?;
    match form {
        Form::Whole => is_read(alloc, names, n, line.as_slice()),
        Form::Partial => is_told(alloc, names, n, line.as_slice()),
    }
}

/// What stands before the first such byte, and what follows it. Both, and the byte, are the whole text.
#[tactic(auto, using(crate::proofs::Words::cut_lengths))]
pub(crate) fn cut_whole(byte: u8, text: &[u8]) -> (&[u8], Option<&[u8]>)
    ensures prefix { result.0.now ≡ (cut_at byte text.now).0 }
    ensures rest { option_copied result.1 ≡ (cut_at byte text.now).1 }
    ensures lengths { length result.0.now + option_map_or (λ r. length r + 1) (option_copied result.1) 0 ≡ length text.now }
{
    cut(byte, text)
}

/// Whether line n fits with the word, up to the next blank, at which a text begins that ends the line.
#[tactic(auto, unfolding(crate::specs::Traces::fits_with))]
pub(crate) fn fits_with(
    alloc: Global,
    names: &Names,
    form: Form,
    n: u32,
    line: &[u8],
    text: &[u8],
    ending: &[u8],
) -> Result<bool, AllocError>
    requires { length text.now ≤ length line.now }
    ensures { IfOk result (λ fits. fits ≡ spec.fits_with form names.now n line.now text.now ending.now) }
{
    let (word, _after) = cut_whole(b' ', text);
    let end = line.len() - text.len() + word.len();
    fits(alloc, names, form, n, &line[..end], ending)
}
