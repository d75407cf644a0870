//! Finding the next line of an event text that says something.
ghost use Rattle.std.specs.Prelude.{◌≡◌, ◌≢◌, ◌<◌, ◌≤◌, ◌+◌, ◌-◌, ◌^◌, length, drop, Ok, Some, None, IfSome};
ghost use Rattle.fmp_text.specs.Events.{ScansTo, HasNoFeed, IsFirstLine};
ghost use Rattle.fmp_text.specs.Fronts.{IsAfterEnd, IsEcho};
ghost use Rattle.fmp_text.specs.Printed.{event_text};

use crate::echo::Echo;
use crate::fault::TextKind;
use crate::line::line_event;
use crate::quick::{after_byte, quick_event};
use fmp_codes::{Event, Proc};
use fmp_names::Names;
use memchr::memchr;

/// A line that is not skipped, how many bytes end with its line feed, and how many lines.
#[derive(Clone, Copy)]
pub struct Scan {
    pub said: Result<Option<Event>, TextKind>,
    pub used: usize,
    pub lines: u32,
}

/// What a line says, and how many bytes end with its line feed.
#[derive(Clone, Copy)]
struct SaidLine {
    said: Result<Option<Event>, TextKind>,
    length: usize,
}

/// What follows the end of a line, a line feed with a carriage return before it or not, where the text begins with that.
#[inline(always)]
fn after_end(text: &[u8]) -> Option<&[u8]>
    ensures { IfSome result (λ rest. IsAfterEnd text.now rest.now) }
{
    match after_byte(b'\n', text) {
        Some(rest) => Some(rest),
        None => after_byte(b'\n', after_byte(b'\r', text)?),
    }
}

/// The first line, where it is whole and an event of the common form, which is written into one that is there, and whose text is kept
/// where it is printed so. Gives what follows the line. `None` says nothing of the bytes, and then nothing is said of the event and
/// what is kept.
#[inline(always)]
pub fn quick_line<'a>(
    names: &Names,
    bytes: &'a [u8],
    event: &mut Event,
    echo: &mut Echo,
) -> Option<&'a [u8]>
    ensures line { IfSome result (λ rest. IsFirstLine names.now bytes.now (Ok (Some event.new)) (length bytes.now - length rest.now)) }
    ensures echo { IfSome result (λ rest. IsEcho echo.new (event_text names.now event.new)) }
{
    names.validity();
    let rest = quick_event(names, bytes, event, echo)?;
    after_end(rest)
}

/// The first line, where it is whole.
#[inline(always)]
fn first_line(names: &Names, bytes: &[u8]) -> Option<SaidLine>
    ensures says { IfSome result (λ line. IsFirstLine names.now bytes.now line.said line.length) }
    ensures none { result ≡ None → HasNoFeed bytes.now }
{
    let mut event = Event::Tick(Proc::new(1));
    let mut echo = Echo::new();
    if let Some(rest) = quick_line(names, bytes, &mut event, &mut echo) {
        return Some(SaidLine {
            said: Ok(Some(event)),
            length: bytes.len() - rest.len(),
        });
    }
    let end = memchr(b'\n', bytes)?;
    Some(SaidLine {
        said: line_event(names, &bytes[..end]),
        length: end + 1,
    })
}

/// The first whole line that is not skipped, after so many lines. Where there is none, it says no event.
#[inline(always)]
pub fn first_said(names: &Names, before: u32, bytes: &[u8]) -> Scan
    requires { before + length bytes.now < 2 ^ 32 }
    ensures within { result.used ≤ length bytes.now }
    ensures lines { result.lines ≤ before + result.used }
    ensures moves { result.said ≢ Ok None → 0 < result.used }
    ensures gives { ScansTo names.now before bytes.now result }
    ensures whole { result.said ≡ Ok None → HasNoFeed (drop result.used bytes.now) }
{
    let mut used = 0;
    let mut lines = before;
    while let Some(line) = first_line(names, &bytes[used..]) {
        let said = line.said;
        used += line.length;
        lines += 1;
        match said {
            Ok(None) => {}
            _ => return Scan { said, used, lines },
        }
    }
    Scan {
        said: Ok(None),
        used,
        lines,
    }
}
