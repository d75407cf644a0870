//! Reading an event text.
ghost use Rattle.std.specs.Prelude.{◌≡◌, ◌≤◌, vec_len, All, IfOk, IfErr};
ghost use Rattle.fmp_calls.specs.Arguments.{EventInBits};
ghost use Rattle.fmp_codes.specs.Records.{AreOn};
ghost use Rattle.fmp_text.specs.Events.{IsFirst, reading_of, faultless};
ghost use Rattle.fmp_text.specs.Limits.{most_events};

use crate::fault::{TextFault, TextKind};
use crate::line::is_skipped;
use crate::scan::first_said;
use fmp_codes::Event;
use fmp_names::Names;
use std::alloc::Global;

/// The greatest number of bytes of a text.
pub const MOST_BYTES: usize = 1_073_741_824;

/// The greatest number of events of a text.
pub const MOST_EVENTS: usize = 1_000_000;

/// Reads the events of a text. Lines end with a line feed; blank lines and comments are skipped.
///
/// The error is the first fault of the text, or want of memory.
pub fn read_events(alloc: Global, text: &[u8], names: &Names) -> Result<Vec<Event>, TextFault>
    ensures ok { IfOk result (λ events. reading_of names.now text.now ≡ faultless events.items) }
    ensures few { IfOk result (λ events. vec_len events ≤ most_events) }
    // The events are on the processors of the names, and their arguments are within the bits of their kinds.
    ensures on { IfOk result (λ events. AreOn names.now.processors events.items) }
    ensures in_bits { IfOk result (λ events. All EventInBits events.items) }
    ensures err { IfErr result (IsFirst (reading_of names.now text.now)) }
{
    names.validity();
    if text.len() > MOST_BYTES {
        return Err(TextFault {
            kind: TextKind::TooMany,
            line: 0,
        });
    }
    // Each event ends with a line feed, so there is room for all of them.
    let mut events = Vec::with_capacity(alloc, text.len().min(MOST_EVENTS))?;
    let mut used = 0;
    let mut lines = 0;
    loop {
        let next = first_said(names, lines, &text[used..]);
        used += next.used;
        lines = next.lines;
        let found = match next.said {
            Ok(found) => found,
            Err(kind) => return Err(TextFault { kind, line: lines }),
        };
        let Some(event) = found else {
            break;
        };
        if events.len() == MOST_EVENTS {
            return Err(TextFault {
                kind: TextKind::TooMany,
                line: lines,
            });
        }
        events.push_reserved(event);
    }
    if is_skipped(&text[used..]) {
        Ok(events)
    } else {
        Err(TextFault {
            kind: TextKind::CutShort,
            line: lines + 1,
        })
    }
}
