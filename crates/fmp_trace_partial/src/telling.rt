//! Reading what the lines of a partial trace say. What a line may say is guessed, and printed again.
ghost use Rattle.std.specs.Prelude.{◌≡◌, IfOk};
ghost use Rattle.std.specs.Str.{bytes_eq};
ghost use Rattle.fmp_out.specs.Putting.{Adds};
ghost use Rattle.fmp_trace.specs.Reading.{GivesOrFails, at_line};
ghost use Rattle.fmp_trace_partial.specs.Partial.{bounded_text};
ghost use Rattle.fmp_trace_partial.specs.Said as spec;
ghost use Rattle.fmp_trace_partial.specs.Saying as saying;

use crate::codes_kept::{AnswerKept, CodesKept};
use crate::kept::{Kept, put_bound, put_kept};
use crate::marks::{Marks, marks_in, put_filled};
use fmp_bytes::{Class, all_of, cut, following, split_prefix};
use fmp_codes::{Proc, Record};
use fmp_out::Text;
use fmp_text::{MOST_EVENTS, Names, TextFault, TextKind, processor_numbered};
use fmp_trace::{guess_event, guess_runner};
use std::alloc::AllocError;

/// What a line of a partial trace says.
#[derive(Drop)]
pub struct Said {
    /// Which parts it writes.
    pub kept: Kept,
    /// What these parts say. What the line leaves out is nothing in it: no value, `E_OK` where it leaves out a code, and `none` where it leaves out
    /// the answer.
    pub entry: Record,
    /// The last line whose event may take effect before this one's, where it is told. It is this line or a later one.
    pub bound: Option<u32>,
}

/// Whether a text begins with a word and a parenthesis.
#[tactic(auto, unfolding(crate::specs::Said::opens))]
fn opens(text: &[u8]) -> bool
    ensures { result ≡ spec.opens text.now }
{
    let (_, rest) = split_prefix(Class::Word, text);
    following(b'(', rest).is_some()
}

/// Whether a text begins with an event.
#[tactic(auto, unfolding(crate::specs::Said::begins_event))]
fn begins_event(text: &[u8]) -> bool
    ensures { result ≡ spec.begins_event text.now }
{
    let (word, _) = split_prefix(Class::Word, text);
    opens(text)
        || word == b"tick".as_slice()
        || word == b"ipi".as_slice()
        || word == b"ret_hdr".as_slice()
}

/// Whether what stands after the processor begins with a runner.
#[tactic(auto, unfolding(crate::specs::Said::tells_runner))]
fn tells_runner(text: &[u8]) -> bool
    ensures { result ≡ spec.tells_runner text.now }
{
    if opens(text) {
        return false;
    }
    match cut(b' ', text).1 {
        Some(rest) => begins_event(rest),
        None => false,
    }
}

/// What is written of a line that says this record and leaves nothing out of its codes.
fn kept_of(number: bool, runner: bool, entry: &Record) -> Kept
    ensures { result ≡ spec.kept_of number runner entry.now }
{
    Kept {
        number,
        runner,
        answer: AnswerKept::Whole,
        releases: CodesKept::new(),
        lost: entry.lost.is_some(),
        run_change: entry.run_change.is_some(),
        requests: !entry.requests.as_slice().is_empty(),
    }
}

/// The record that a line prints after its processor, from its runner on or from its event on.
#[tactic(auto, unfolding(crate::specs::Said::guess_from))]
fn guess_from(names: &Names, runner: bool, p: Proc, text: &[u8]) -> Option<Record>
    ensures { result ≡ spec.guess_from names.now runner p text.now }
{
    if runner {
        guess_runner(names, p, text)
    } else {
        guess_event(names, None, p, text)
    }
}

/// What a line says from the number of its processor on.
#[tactic(auto, unfolding(crate::specs::Said::guess_on))]
fn guess_on(names: &Names, number: bool, digits: &[u8]) -> Option<Said>
    ensures { result ≡ spec.guess_on names.now number digits.now }
{
    let (digits, rest) = cut(b' ', digits);
    let rest = rest?;
    let p = processor_numbered(names, digits)?;
    let runner = tells_runner(rest);
    let entry = guess_from(names, runner, p, rest)?;
    Some(Said {
        kept: kept_of(number, runner, &entry),
        entry,
        bound: None,
    })
}

/// What a line says that begins with its number.
#[tactic(auto, unfolding(crate::specs::Said::guess_numbered))]
fn guess_numbered(names: &Names, line: &[u8]) -> Option<Said>
    ensures { result ≡ spec.guess_numbered names.now line.now }
{
    let (_, rest) = cut(b' ', line);
    guess_on(names, true, following(b'P', rest?)?)
}

/// What a line says that leaves nothing out of its codes, if anything. Its number is left aside.
#[tactic(auto, unfolding(crate::specs::Said::guess_plain))]
fn guess_plain(names: &Names, line: &[u8]) -> Option<Said>
    ensures { result ≡ spec.guess_plain names.now line.now }
{
    match following(b'P', line) {
        Some(digits) => guess_on(names, false, digits),
        None => guess_numbered(names, line),
    }
}

/// What a line says where this is left out of its codes, with its bound.
fn marked(marks: Marks, said: Said) -> Said
    ensures { result ≡ spec.marked marks said }
{
    Said {
        kept: Kept {
            answer: marks.answer,
            releases: marks.releases,
            ..said.kept
        },
        entry: said.entry,
        bound: marks.bound,
    }
}

/// What a line says, which is as much as this other line where something is put in.
#[tactic(auto, unfolding(crate::specs::Said::guess_marked))]
fn guess_marked(names: &Names, line: &[u8], full: &[u8]) -> Option<Said>
    ensures { result ≡ spec.guess_marked names.now line.now full.now }
{
    let marks = marks_in(line)?;
    let said = guess_plain(names, full)?;
    Some(marked(marks, said))
}

/// What a line says, if anything. The scratch is written over.
#[tactic(auto, unfolding(crate::specs::Said::guess_said))]
fn guess_said(scratch: &mut Text, names: &Names, line: &[u8]) -> Result<Option<Said>, AllocError>
    ensures { IfOk result (λ said. said ≡ spec.guess_said names.now line.now) }
{
    scratch.clear();
    put_filled(scratch, line);
    Ok(guess_marked(names, line, scratch.so_far()?))
}

/// Adds line n of a partial trace, without its line feed, that says as much of a record as another line does, with the bound of that.
#[tactic(auto, unfolding(crate::specs::Partial::bounded_text))]
pub fn put_said(out: &mut Text, names: &Names, n: u32, said: &Said, entry: &Record)
    ensures { Adds (bounded_text names.now n said.now.kept said.now.bound entry.now) out.old out.new }
{
    put_kept(out, names, n, &said.kept, entry);
    put_bound(out, said.bound);
}

/// Whether line n, without its line feed, is what is printed of what it says. The scratch is written over.
fn is_line(
    scratch: &mut Text,
    names: &Names,
    n: u32,
    said: &Said,
    line: &[u8],
) -> Result<bool, AllocError>
    ensures { IfOk result (λ same. same ≡ bytes_eq (bounded_text names.now n said.now.kept said.now.bound said.now.entry) line.now) }
{
    scratch.clear();
    put_said(scratch, names, n, said, &said.entry);
    Ok(scratch.so_far()? == line)
}

/// Whether the bound of line n, if it has one, is no line before it.
fn is_within(n: u32, bound: Option<u32>) -> bool
    ensures { result ≡ saying.is_within n bound }
{
    match bound {
        Some(last) => n <= last,
        None => true,
    }
}

/// A fault of this kind in this line.
fn fault(kind: TextKind, line: u32) -> TextFault
    ensures { result ≡ record { kind = kind; line = line } }
{
    TextFault { kind, line }
}

/// What line n says, where a text may have so many lines.
#[tactic(auto, unfolding(crate::specs::Saying::limited))]
fn limited(n: u32, said: Said) -> Result<Said, TextFault>
    ensures { result ≡ at_line n (saying.limited n said) }
{
    if n as usize > MOST_EVENTS {
        Err(fault(TextKind::TooMany, n))
    } else {
        Ok(said)
    }
}

/// What was guessed of line n, where the guess prints that line.
#[tactic(auto, unfolding(crate::specs::Saying::confirmed))]
fn confirmed(
    scratch: &mut Text,
    names: &Names,
    n: u32,
    line: &[u8],
    said: Said,
) -> Result<Said, TextFault>
    ensures { GivesOrFails (λ s. s) result (at_line n (saying.confirmed names.now n line.now said)) }
{
    if is_line(scratch, names, n, &said, line)? && is_within(n, said.bound) {
        limited(n, said)
    } else {
        Err(fault(TextKind::BadWord, n))
    }
}

/// What line n of a partial trace says, without its line feed, or its fault. The scratch is written over.
#[tactic(auto, unfolding(crate::specs::Saying::line_said))]
pub fn read_said(scratch: &mut Text, names: &Names, n: u32, line: &[u8]) -> Result<Said, TextFault>
    ensures { GivesOrFails (λ s. s) result (at_line n (saying.line_said names.now n line.now)) }
{
    if !all_of(Class::Printed, line) {
        return Err(fault(TextKind::BadByte, n));
    }
    match guess_said(scratch, names, line)? {
        Some(said) => confirmed(scratch, names, n, line, said),
        None => Err(fault(TextKind::BadWord, n)),
    }
}
