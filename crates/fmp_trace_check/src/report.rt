//! The event that a line tells. The machine's own lines have one form, in which it is found in one pass.
ghost use Rattle.std.specs.Prelude.{◌≡◌, ◌+◌, ◌∷◌, [], true, false, IfSome, Some, None};
ghost use Rattle.fmp_bytes.specs.Bytes.{cut_at};
ghost use Rattle.fmp_text.specs.Lines.{processor_numbered};
ghost use Rattle.fmp_trace.specs.Heads.{event_at, event_of as event_reported, event_on};

use fmp_bytes::following;
use fmp_calls::form;
use fmp_codes::{Event, Proc};
use fmp_text::{Names, quick_call};
use fmp_trace::event_of;

/// What follows a byte, where the text begins with it.
#[inline(always)]
fn after_byte(byte: u8, text: &[u8]) -> Option<&[u8]>
    ensures { IfSome result (λ rest. text.now ≡ byte ∷ rest.now) }
{
    following(byte, text)
}

/// The first byte, and what follows it.
#[inline(always)]
#[tactic(auto, using(crate::proofs::Heads::head_tail))]
fn first_byte(text: &[u8]) -> Option<(u8, &[u8])>
    ensures { IfSome result (λ parts. text.now ≡ parts.0 ∷ parts.1.now) }
{
    match text {
        [first, rest @ ..] => Some((*first, rest)),
        [] => None,
    }
}

/// What follows the first blank. The words at the head of a line are short, so one byte is looked at after the other.
#[inline(always)]
fn after_blank(text: &[u8]) -> Option<&[u8]>
    ensures { IfSome result (λ rest. (cut_at 32 text.now).1 ≡ Some rest.now) }
{
    for (index, byte) in text.iter().enumerate() {
        if *byte == b' ' {
            return Some(&text[index + 1..]);
        }
    }
    None
}

/// The processor whose number is this digit, if there is one.
#[inline(always)]
fn processor_of(names: &Names, digit: u8) -> Option<Proc>
    ensures value { IfSome result (λ p. processor_numbered names.now (digit ∷ []) ≡ Some p) }
    ensures digit { IfSome result (λ p. digit ≡ 48 + p.number) }
{
    if b'1' <= digit && digit - b'0' <= names.processors() {
        Some(Proc::new(digit - b'0'))
    } else {
        None
    }
}

/// The processor of a line after its number, and the line from its event on. `None` says nothing.
#[inline(always)]
fn quick_head<'a>(names: &Names, text: &'a [u8]) -> Option<(Proc, &'a [u8])>
    ensures { IfSome result (λ found. event_on names.now text.now ≡ event_at names.now found.0 found.1.now) }
{
    let (digit, after_digit) = first_byte(after_byte(b'P', text)?)?;
    let runner = after_byte(b' ', after_digit)?;
    let p = processor_of(names, digit)?;
    let event = after_blank(runner)?;
    Some((p, event))
}

/// What follows a tick, where the text begins with one and a blank.
#[inline(always)]
fn after_tick(text: &[u8]) -> Option<&[u8]>
    ensures { IfSome result (λ rest. text.now ≡ 116 ∷ 105 ∷ 99 ∷ 107 ∷ 32 ∷ rest.now) }
{
    let text = after_byte(b't', text)?;
    let text = after_byte(b'i', text)?;
    let text = after_byte(b'c', text)?;
    let text = after_byte(b'k', text)?;
    after_byte(b' ', text)
}

/// Writes the event that a text begins with on this processor into one that is there, where it has the common form, and says whether
/// it does. `false` says nothing of the text, and then nothing is said of the event.
#[inline(always)]
fn tell_front(names: &Names, p: Proc, text: &[u8], event: &mut Event) -> bool
    ensures { result ≡ true → event_at names.now p text.now ≡ Some event.new }
{
    names.validity();
    if let Some(_rest) = after_tick(text) {
        *event = Event::Tick(p);
        return true;
    }
    let Some((call, _)) = quick_call(names, text) else {
        return false;
    };
    *event = Event::Call(p, call);
    !form(call).bare
}

/// The same of a line, whatever its number is.
#[inline(always)]
fn tell_quickly(names: &Names, line: &[u8], event: &mut Event) -> bool
    ensures { result ≡ true → event_reported names.now line.now ≡ Some event.new }
{
    let Some(text) = after_blank(line) else {
        return false;
    };
    let Some((p, text)) = quick_head(names, text) else {
        return false;
    };
    tell_front(names, p, text, event)
}

/// Writes the event that a line tells into one that is there, and says whether it tells any. Where it tells none, nothing is said of
/// that event.
#[inline(always)]
pub(crate) fn tell_event(names: &Names, line: &[u8], event: &mut Event) -> bool
    ensures report { result ≡ true → event_reported names.now line.now ≡ Some event.new }
    ensures none { result ≡ false → event_reported names.now line.now ≡ None }
{
    if tell_quickly(names, line, event) {
        return true;
    }
    match event_of(names, line) {
        Some(report) => {
            *event = report;
            true
        }
        None => false,
    }
}
