//! The event that a line tells, read without what stands after it.
ghost use Rattle.std.specs.Prelude.{◌≡◌, IfSome, Some};
ghost use Rattle.fmp_trace.specs.Heads as spec;

use crate::guess::cut_call;
use fmp_bytes::{Class, cut, following, split_prefix};
use fmp_calls::form;
use fmp_codes::{Call, Event, Proc};
use fmp_text::{Names, processor_numbered, quick_call, read_call};

/// The event of a text that begins with a call in parentheses, where the call is found the short way. `None` says nothing.
#[inline(always)]
fn front_event(names: &Names, p: Proc, text: &[u8]) -> Option<Event>
    ensures { IfSome result (λ event. spec.event_at names.now p text.now ≡ Some event) }
{
    names.validity();
    let (call, _) = quick_call(names, text)?;
    if form(call).bare {
        return None;
    }
    Some(Event::Call(p, call))
}

/// The event of a text that begins with a call on this processor, if it does. What follows the call is not looked at.
#[tactic(auto, unfolding(crate::specs::Heads::called_event))]
fn called_event(names: &Names, p: Proc, text: &[u8]) -> Option<Event>
    ensures { result ≡ spec.called_event names.now p text.now }
{
    let (text, _) = cut_call(text)?;
    let call = read_call(text, names).ok()?;
    Some(Event::Call(p, call))
}

/// The event that a text begins with, by its first word: a tick, a request, or a call. Unlike `front_event`, its `None` says that there is none.
#[tactic(auto, unfolding(crate::specs::Heads::event_at))]
fn worded_event(names: &Names, p: Proc, text: &[u8]) -> Option<Event>
    ensures { result ≡ spec.event_at names.now p text.now }
{
    names.validity();
    let (word, _) = split_prefix(Class::Word, text);
    if word == b"tick".as_slice() {
        return Some(Event::Tick(p));
    }
    if word == b"ipi".as_slice() {
        return Some(Event::Ipi(p));
    }
    if word == b"ret_hdr".as_slice() {
        return Some(Event::Call(p, Call::RetHdr));
    }
    called_event(names, p, text)
}

/// The event that a text begins with on this processor, if any. The short way is tried first.
fn event_at(names: &Names, p: Proc, text: &[u8]) -> Option<Event>
    ensures { result ≡ spec.event_at names.now p text.now }
{
    match front_event(names, p, text) {
        Some(event) => Some(event),
        None => worded_event(names, p, text),
    }
}

/// The event of a line after its number, from the `P` of the processor on, if any. The word of the runner is passed over.
#[tactic(auto, unfolding(crate::specs::Heads::event_on))]
fn event_on(names: &Names, text: &[u8]) -> Option<Event>
    ensures { result ≡ spec.event_on names.now text.now }
{
    let (digits, rest) = cut(b' ', following(b'P', text)?);
    let rest = rest?;
    let p = processor_numbered(names, digits)?;
    let (_, text) = cut(b' ', rest);
    event_at(names, p, text?)
}

/// The event that a line tells, whatever its number and its answer are. Where the line prints a record, it is the record's.
#[tactic(auto, unfolding(crate::specs::Heads::event_of))]
pub fn event_of(names: &Names, line: &[u8]) -> Option<Event>
    ensures { result ≡ spec.event_of names.now line.now }
{
    let (_, rest) = cut(b' ', line);
    event_on(names, rest?)
}
