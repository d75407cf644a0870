//! The text of events.
ghost use Rattle.std.specs.Prelude.{◌≤◌, ◌≡◌, length, All, IfOk};
ghost use Rattle.fmp_calls.specs.Arguments.{EventInBits};
ghost use Rattle.fmp_codes.specs.Records.{AreOn};
ghost use Rattle.fmp_out.specs.Putting.{Adds};
ghost use Rattle.fmp_text.specs.Limits.{most_events};
ghost use Rattle.fmp_run_shrink.specs.Written.Telling as spec;
ghost use Rattle.fmp_run_shrink.specs.Written.Telling.{IsReadBack};

use fmp_codes::Event;
use fmp_names::Names;
use fmp_out::Text;
use fmp_trace::put_event;
use std::alloc::{AllocError, Global};

/// Adds the line of an event.
#[tactic(auto, unfolding(crate::specs::Written::Telling::event_line))]
fn put_event_line(out: &mut Text, names: &Names, event: Event)
    ensures { Adds (spec.event_line names.now event) out.old out.new }
{
    out.put_byte(b'P');
    out.put_number(u64::from(event.processor().number));
    out.put_byte(b' ');
    let added = put_event(out.as_mut_vec(), names, event);
    out.note(added);
    out.put_byte(b'\n');
}

/// A line for each of these events. Where they are such as a list of events may have, which are on the processors of the names, within
/// the bits of their arguments, and no more than a list may have, the text is read back as them. The error is want of memory.
pub fn events_text(alloc: Global, names: &Names, events: &[Event]) -> Result<Vec<u8>, AllocError>
    ensures text { IfOk result (λ text. text.items ≡ spec.event_lines names.now events.now) }
    ensures read { AreOn names.now.processors events.now → All EventInBits events.now → length events.now ≤ most_events
        → IfOk result (λ text. IsReadBack names.now text.items events.now) }
{
    names.validity();
    let mut out = Text::new(alloc);
    for event in events {
        put_event_line(&mut out, names, *event);
    }
    out.finish()
}
