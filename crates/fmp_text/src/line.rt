//! Reading one line of an event text.
ghost use Rattle.std.specs.Prelude.{◌≡◌, ◌≤◌};
ghost use Rattle.std.specs.Option.{option_copied};
ghost use Rattle.fmp_text.specs.Lines as spec;
ghost use Rattle.fmp_text.specs.Places as places;
ghost use Rattle.fmp_text.specs.Places.{Gives, without_place};

use crate::call::call_at;
use crate::fault::TextKind;
use crate::form::ending;
use crate::misfit::{Misfit, Wanted};
use fmp_bytes::{Class, all_of, are_digits, following, is_zero_led, magnitude, skip, split_prefix};
use fmp_codes::{Event, Proc};
use fmp_names::Names;

/// The processor of this number, where there is one and it is from 1 to `most`.
#[tactic(auto, unfolding(crate::specs::Lines::in_processors))]
fn in_processors(most: u8, number: Option<u64>) -> Option<Proc>
    requires { most ≤ 8 }
    ensures { result ≡ spec.in_processors most number }
{
    match number {
        Some(number) if 1 <= number && number <= u64::from(most) => Some(Proc::new(number as u8)),
        _ => None,
    }
}

/// The processor whose number these decimal digits are, where there is such a processor.
#[tactic(auto, unfolding(crate::specs::Lines::processor_numbered))]
pub fn processor_numbered(names: &Names, digits: &[u8]) -> Option<Proc>
    ensures { result ≡ spec.processor_numbered names.now digits.now }
{
    in_processors(names.processors(), magnitude(10, digits))
}

/// The decimal digits after `P`, where the word is `P` and one or more of them.
#[tactic(auto, unfolding(crate::specs::Lines::digits_of))]
fn digits_of(word: &[u8]) -> Option<&[u8]>
    ensures { option_copied result ≡ spec.digits_of word.now }
{
    let digits = following(b'P', word)?;
    if are_digits(10, digits) {
        Some(digits)
    } else {
        None
    }
}

/// The processor that `P` and a number name. Another word is a bad one, and another number out of range.
#[tactic(auto, unfolding(crate::specs::Lines::processor_in))]
pub fn processor_in(names: &Names, word: &[u8]) -> Result<Proc, TextKind>
    ensures { result ≡ spec.processor_in names.now word.now }
{
    let digits = digits_of(word).ok_or(TextKind::BadWord)?;
    if is_zero_led(digits) {
        return Err(TextKind::NumberOutOfRange);
    }
    processor_numbered(names, digits).ok_or(TextKind::NumberOutOfRange)
}

/// The event on this processor that a text with no blanks before it says: `tick`, `ipi` or a call.
#[tactic(auto, unfolding(crate::specs::Places::event_of))]
fn event_of<'a>(names: &Names, processor: Proc, text: &'a [u8]) -> Result<Event, Misfit<'a>>
    ensures { Gives (λ event. event) result (places.event_of names.now processor text.now) }
{
    let (word, rest) = split_prefix(Class::Word, text);
    if word == b"tick".as_slice() {
        ending(Wanted::LineEnd, rest)?;
        return Ok(Event::Tick(processor));
    }
    if word == b"ipi".as_slice() {
        ending(Wanted::LineEnd, rest)?;
        return Ok(Event::Ipi(processor));
    }
    Ok(Event::Call(processor, call_at(names, text)?))
}

/// The event of a line with no blanks before it: its processor, and after blanks what happens there.
#[tactic(auto, unfolding(crate::specs::Places::event_at))]
fn event_at<'a>(names: &Names, text: &'a [u8]) -> Result<Event, Misfit<'a>>
    ensures { Gives (λ event. event) result (places.event_at names.now text.now) }
{
    let (word, rest) = split_prefix(Class::Word, text);
    match processor_in(names, word) {
        Ok(processor) => event_of(names, processor, skip(Class::Blank, rest)),
        Err(kind) => Err(Misfit {
            kind,
            rest: text,
            wanted: Wanted::Processor,
        }),
    }
}

/// The event of a line that is not skipped, with blanks around. The fault of a byte that may not stand in a line comes first.
#[tactic(auto, unfolding(crate::specs::Places::event_in))]
fn event_in<'a>(names: &Names, line: &'a [u8]) -> Result<Event, Misfit<'a>>
    ensures { Gives (λ event. event) result (places.event_in names.now line.now) }
{
    if all_of(Class::Line, line) {
        event_at(names, skip(Class::Blank, line))
    } else {
        Err(Misfit {
            kind: TextKind::BadByte,
            rest: skip(Class::Line, line),
            wanted: Wanted::LineByte,
        })
    }
}

/// Whether a line holds nothing but blanks, or is a comment.
#[tactic(auto, unfolding(crate::specs::Lines::is_skipped))]
pub fn is_skipped(line: &[u8]) -> bool
    ensures { result ≡ spec.is_skipped line.now }
{
    all_of(Class::Blank, line) || following(b'#', skip(Class::Blank, line)).is_some()
}

/// A line without the carriage return at its end, if it has one.
#[tactic(auto, unfolding(crate::specs::Lines::without_return))]
pub fn without_return(line: &[u8]) -> &[u8]
    ensures { result.now ≡ spec.without_return line.now }
{
    let length = line.len();
    if 0 < length && line[length - 1] == b'\r' {
        &line[..length - 1]
    } else {
        line
    }
}

/// The event of a whole line without its line feed, if it has one, or where and why the line is refused.
#[tactic(auto, unfolding(crate::specs::Places::line_event, crate::specs::Lines::line_event))]
pub fn event_or_misfit<'a>(names: &Names, line: &'a [u8]) -> Result<Option<Event>, Misfit<'a>>
    ensures place { Gives (λ event. event) result (places.line_event names.now line.now) }
    ensures kind { without_place result ≡ spec.line_event names.now line.now }
{
    let line = without_return(line);
    if is_skipped(line) {
        return Ok(None);
    }
    Ok(Some(event_in(names, line)?))
}

/// The event of a whole line without its line feed, if it has one.
pub fn line_event(names: &Names, line: &[u8]) -> Result<Option<Event>, TextKind>
    ensures { result ≡ spec.line_event names.now line.now }
{
    match event_or_misfit(names, line) {
        Ok(event) => Ok(event),
        Err(misfit) => Err(misfit.kind),
    }
}
