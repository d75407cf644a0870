//! The lines of a text, as they are read.
ghost use Rattle.std.specs.Prelude.{◌≡◌, ◌≤◌, ◌<◌, ◌+◌, ◌++◌, ◌∷◌, ◌^◌, [], length, IfOk, IfErr, OnOk};
ghost use Rattle.fmp_bytes.specs.Bytes.{pieces_of};
ghost use Rattle.fmp_text.specs.Limits.{most_bytes};
ghost use Rattle.fmp_trace.specs.Reading.{Fails};
ghost use Rattle.fmp_trace_partial.specs.Saying.{said_from, said_in};
ghost use Rattle.fmp_trace_orders.specs.Lines as spec;

use fmp_codes::Event;
use fmp_out::Text;
use fmp_text::{MOST_BYTES, Names, TextFault, TextKind};
use fmp_trace::next_line;
use fmp_trace_partial::{AnswerKept, Said, read_said};
use std::alloc::{AllocError, Global};

/// The lines of a text, in the order in which they stand.
#[derive(Drop)]
pub struct Lines {
    /// Where each begins in the text.
    pub starts: Vec<u32>,
    /// The event of each.
    pub events: Vec<Event>,
    /// The last line that may come before each, counted from 0.
    pub lasts: Vec<u32>,
    /// Whether each has to be taken.
    pub musts: Vec<bool>,
}

/// Whether a line's event has no end. It may not have taken effect then.
fn is_open(said: &Said) -> bool
    ensures { result ≡ spec.is_open said.now.kept.answer }
{
    matches!(said.kept.answer, AnswerKept::Open)
}

/// The last line that may come before line i, which says this: any line, where its event has no end. Both are counted from 0, and a bound is from 1.
fn last_of(i: u32, said: &Said) -> u32
    ensures { result ≡ spec.last_of i said.now }
{
    if is_open(said) {
        return u32::MAX;
    }
    match said.bound {
        Some(last) => last.saturating_sub(1),
        None => i,
    }
}

/// Whether a line that says this has to be taken. Where no end of its event is told, it may not have taken effect.
fn must_of(said: &Said) -> bool
    ensures { result ≡ spec.must_of said.now }
{
    !is_open(said)
}

impl Lines {
    /// No lines yet.
    fn none(alloc: Global) -> Lines
        ensures { spec.AreSaidSo [] [] result }
    {
        Lines {
            starts: Vec::new(alloc),
            events: Vec::new(alloc),
            lasts: Vec::new(alloc),
            musts: Vec::new(alloc),
        }
    }

    /// Adds a line that begins there and says this. The error is want of memory, and then the lines are of no use.
    fn push(&mut self, start: u32, said: &Said) -> Result<(), AllocError>
        requires { length self.old.lasts.items < 2 ^ 32 }
        ensures starts { OnOk result (self.new.starts.items ≡ self.old.starts.items ++ start ∷ []) }
        ensures events { OnOk result (self.new.events.items ≡ self.old.events.items ++ said.now.entry.event ∷ []) }
        ensures lasts { OnOk result (self.new.lasts.items ≡ self.old.lasts.items ++ spec.last_of (length self.old.lasts.items) said.now ∷ []) }
        ensures musts { OnOk result (self.new.musts.items ≡ self.old.musts.items ++ spec.must_of said.now ∷ []) }
    {
        let number = self.lasts.len() as u32;
        self.starts.push(start)?;
        self.events.push(said.entry.event)?;
        self.lasts.push(last_of(number, said))?;
        self.musts.push(must_of(said))?;
        Ok(())
    }
}

/// The lines of a text that is within the limit of bytes.
fn lines_within(alloc: Global, names: &Names, text: &[u8]) -> Result<Lines, TextFault>
    requires { length text.now ≤ most_bytes }
    ensures { spec.GivesLines names.now text.now (said_from names.now 1 (pieces_of 10 text.now)) result }
{
    names.validity();
    let mut lines = Lines::none(alloc);
    let mut scratch = Text::new(alloc);
    let mut number: u32 = 1;
    let mut start: u32 = 0;
    let mut rest = text;
    while let Some((line, after)) = next_line(rest) {
        let said = read_said(&mut scratch, names, number, line)?;
        lines.push(start, &said)?;
        number += 1;
        start += line.len() as u32 + 1;
        rest = after;
    }
    if rest.is_empty() {
        Ok(lines)
    } else {
        Err(TextFault {
            kind: TextKind::CutShort,
            line: number,
        })
    }
}

/// The lines of a text, of which each says something. The error is the first fault, or want of memory.
#[tactic(auto, unfolding(fmp_trace_partial::specs::Saying::said_in))]
pub fn read_lines(alloc: Global, names: &Names, text: &[u8]) -> Result<Lines, TextFault>
    ensures lines { IfOk result (spec.AreLinesOf names.now text.now) }
    ensures fault { IfErr result (λ fault. Fails fault (said_in names.now text.now)) }
{
    if text.len() > MOST_BYTES {
        return Err(TextFault {
            kind: TextKind::TooMany,
            line: 0,
        });
    }
    lines_within(alloc, names, text)
}
