//! Feeds of event texts.
ghost use Rattle.std.specs.Prelude.{◌≡◌, ◌+◌, ◌-◌, ◌*◌, ◌<◌, ◌≤◌, Ok, Err, Some, None, true, false, is_some, if◌then◌else◌, length, drop, vec_len, vec_capacity, IfOk};
ghost use Rattle.std.specs.Prelude.{IfErr, IfSome, OnOk, OnErr};
ghost use Rattle.fmp_calls.specs.Arguments.{EventInBits};
ghost use Rattle.fmp_codes.specs.Records.{processor_of};
ghost use Rattle.fmp_text.specs.Fronts.{IsEcho};
ghost use Rattle.fmp_text.specs.Limits.{most_bytes, most_events};
ghost use Rattle.fmp_text.specs.Printed.{event_text};
ghost use Rattle.fmp_text_feed.specs.Feed.{TakesOff, Gives, IsDone, IsEndOf, IsWanting, answered, closed, failed, first_room, new_feed, pushed, rest_fault, too_many};
ghost use Rattle.fmp_text_feed.specs.Feed.{want_of_memory};

use crate::scan::next_said;
use fmp_codes::Event;
use fmp_names::Names;
use fmp_text::{Echo, MOST_BYTES, MOST_EVENTS, TextFault, TextKind, is_skipped, quick_line};
use std::alloc::{AllocError, Global};
use std::marker::Model;

/// How many bytes a new feed has room for.
const FIRST_ROOM: usize = 131_072;

/// The events of a text that comes in pieces.
#[derive(Drop)]
pub struct EventFeed {
    bytes: Vec<u8>,
    /// Where the bytes begin that were not read yet.
    start: usize,
    /// How many of those were searched for a line feed, in vain.
    searched: usize,
    lines: u32,
    events: usize,
    taken: usize,
    has_dropped: bool,
    has_ended: bool,
    fault: Option<TextFault>,
}

impl Model for EventFeed {
    ghost use Rattle.std.specs.Prelude.{◌-◌, ◌≤◌, drop, vec_len, vec_capacity};
    ghost use Rattle.fmp_text_feed.specs.Feed.{Feed, IsFeed, IsSearched, first_room};

    ghost Value = { Feed };

    ghost view = { λ f. record {
      rest = drop f.start f.bytes.items;
      lines = f.lines;
      events = f.events;
      taken = f.taken;
      dropped = f.has_dropped;
      ended = f.has_ended;
      fault = f.fault;
    } };

    ghost invariant = { λ f. IsFeed (vec_len f.bytes - f.start) f.lines f.events f.taken f.has_dropped × IsSearched f.bytes.items f.start f.searched
        × (first_room ≤ vec_capacity f.bytes) };
}

/// Moves the rest from `start` on to the beginning of the room, where at least as many bytes were read: so each byte that was read
/// pays for one that is moved. It answers where the rest begins now. Then no more bytes stand before the rest than in it.
fn compact(bytes: &mut Vec<u8>, start: usize) -> usize
    requires { start ≤ vec_len bytes.old }
    ensures rest { drop result bytes.new.items ≡ drop start bytes.old.items }
    ensures len { vec_len bytes.new - result ≡ vec_len bytes.old - start }
    ensures within { result ≤ vec_len bytes.new }
    ensures few { vec_len bytes.new ≤ 2 * (vec_len bytes.old - start) }
    ensures room { vec_capacity bytes.new ≡ vec_capacity bytes.old }
{
    let rest = bytes.len() - start;
    if start == 0 || start < rest {
        return start;
    }
    bytes.copy_within(start.., 0);
    bytes.truncate(rest);
    0
}

impl EventFeed {
    /// A feed of no bytes yet.
    pub fn new(alloc: Global) -> Result<EventFeed, AllocError>
        ensures { IfOk result (λ feed. feed ≡ new_feed) }
    {
        Ok(EventFeed {
            bytes: Vec::with_capacity(alloc, FIRST_ROOM)?,
            start: 0,
            searched: 0,
            lines: 0,
            events: 0,
            taken: 0,
            has_dropped: false,
            has_ended: false,
            fault: None,
        })
    }

    /// Whether the text has ended.
    pub fn ended(&self) -> bool
        ensures { result ≡ self.now.ended }
    {
        self.has_ended
    }

    /// Says that the text ends here.
    pub fn close(&mut self)
        requires { self.old.ended ≡ false }
        ensures { self.new ≡ closed self.old }
    {
        self.has_ended = true;
    }

    /// Adds a piece of the text. Bytes past the limit of a text are dropped.
    ///
    /// The error is the fault that the feed has, or want of memory, which adds nothing and is the feed's fault from then on. Memory
    /// can be wanting only where the piece and twice the bytes that were not read yet are more than a new feed has room for.
    pub fn push(&mut self, piece: &[u8]) -> Result<(), TextFault>
        requires { self.old.ended ≡ false }
        ensures ok { OnOk result ((self.old.fault ≡ None) × (self.new ≡ pushed self.old piece.now)) }
        ensures err { IfErr result (λ fault. self.new ≡ failed self.old fault) }
        ensures stays { IfSome self.old.fault (λ fault. (result ≡ Err fault) × (self.new ≡ self.old)) }
        ensures memory { self.old.fault ≡ None → IfErr result (λ fault. fault ≡ want_of_memory) }
        ensures full { self.old.fault ≡ None → OnErr result (first_room < 2 * length self.old.rest + length piece.now) }
    {
        if let Some(fault) = self.fault {
            return Err(fault);
        }
        self.start = compact(&mut self.bytes, self.start);
        let count = piece.len().min(MOST_BYTES - self.taken);
        if let Err(error) = self.bytes.extend_from_slice(&piece[..count]) {
            return Err(self.fail(TextFault::from(error)));
        }
        self.taken += count;
        self.has_dropped = self.has_dropped || count < piece.len();
        Ok(())
    }

    /// Takes the lines that are skipped and the next one that is not off the front, and answers what that one says.
    #[inline(always)]
    fn take_line(&mut self, names: &Names) -> Result<Option<Event>, TextKind>
        requires { self.old.fault ≡ None }
        ensures takes { TakesOff names.now self.old result self.new }
        ensures on { IfOk result (λ found. IfSome found (λ event. (processor_of event).number ≤ names.now.processors)) }
        ensures in_bits { IfOk result (λ found. IfSome found EventInBits) }
    {
        names.validity();
        let scan = next_said(names, self.lines, self.searched, &self.bytes[self.start..]);
        self.start += scan.used;
        self.lines = scan.lines;
        self.searched = match scan.said {
            Ok(None) => self.bytes.len() - self.start,
            _ => 0,
        };
        scan.said
    }

    /// Keeps a fault, and answers it.
    fn fail(&mut self, fault: TextFault) -> TextFault
        ensures answered { result ≡ fault }
        ensures kept { self.new ≡ failed self.old fault }
    {
        self.fault = Some(fault);
        fault
    }

    /// Gives the event of the line that was taken off last, where there is room for it.
    #[inline(always)]
    fn give(&mut self, event: Event) -> Result<Option<Event>, TextFault>
        ensures room { self.old.events < most_events → (result ≡ Ok (Some event)) × (self.new ≡ record self.old { events = self.old.events + 1 }) }
        ensures full { most_events ≤ self.old.events → (result ≡ Err (too_many self.old.lines)) × (self.new ≡ failed self.old (too_many self.old.lines)) }
        ensures few { self.new.events ≤ most_events }
        ensures same { IfOk result (λ found. found ≡ Some event) }
    {
        if self.events == MOST_EVENTS {
            let line = self.lines;
            return Err(self.fail(TextFault {
                kind: TextKind::TooMany,
                line,
            }));
        }
        self.events += 1;
        Ok(Some(event))
    }

    /// What is wrong with the text where no line is whole.
    fn rest_fault(&self) -> Option<TextFault>
        ensures value { result ≡ rest_fault self.now }
        ensures kept { (self.now.taken ≤ most_bytes) × (self.now.events ≤ most_events) }
        ensures full { self.now.dropped ≡ true → self.now.taken ≡ most_bytes }
    {
        if self.has_dropped {
            return Some(TextFault {
                kind: TextKind::TooMany,
                line: 0,
            });
        }
        if self.has_ended && !is_skipped(&self.bytes[self.start..]) {
            return Some(TextFault {
                kind: TextKind::CutShort,
                line: self.lines + 1,
            });
        }
        None
    }

    /// Takes the lines that are skipped and the next event's line off the front, and gives that event.
    ///
    /// `None` means that a further piece is wanted or, once the text has ended, that it is done. The error is the next line's
    /// first fault. Where no line is whole, a text that went on past its limit is too long, at line 0, and a rest that is not
    /// to be skipped is cut short once the text has ended. A fault is answered from then on, and changes nothing more.
    #[inline(never)]
    pub fn next(&mut self, names: &Names) -> Result<Option<Event>, TextFault>
        ensures gives { Gives names.now self.old result self.new }
        ensures wanting { result ≡ Ok None → IsWanting self.new }
        ensures done { result ≡ Ok None → self.old.ended ≡ true → IsDone names.now self.new }
        ensures stays { IfSome self.old.fault (λ fault. (result ≡ Err fault) × (self.new ≡ self.old)) }
        ensures same { (self.new.ended ≡ self.old.ended) × (self.new.taken ≡ self.old.taken) × (self.new.dropped ≡ self.old.dropped) }
        ensures counts { IfOk result (λ found. self.new.events ≡ self.old.events + (if is_some found then 1 else 0)) }
        ensures few { self.new.events ≤ most_events }
        // Bytes are only taken off the front.
        ensures rest { OnOk result (IsEndOf self.old.rest self.new.rest) }
        // The event is on a processor of the names, and its arguments are within the bits of their kinds.
        ensures on { IfOk result (λ found. IfSome found (λ event. (processor_of event).number ≤ names.now.processors)) }
        ensures in_bits { IfOk result (λ found. IfSome found EventInBits) }
    {
        if let Some(fault) = self.fault {
            return Err(fault);
        }
        let found = match self.take_line(names) {
            Ok(found) => found,
            Err(kind) => {
                let line = self.lines;
                return Err(self.fail(TextFault { kind, line }));
            }
        };
        match found {
            Some(event) => self.give(event),
            None => match self.rest_fault() {
                Some(fault) => Err(self.fail(fault)),
                None => Ok(None),
            },
        }
    }

    /// Takes the next line off the front, where it is whole and an event of the common form, which is written into one that is there.
    /// Its text is kept where it is printed so. Otherwise nothing changes except what stands in the event and what is kept.
    #[inline(always)]
    fn take_quick(&mut self, names: &Names, event: &mut Event, echo: &mut Echo) -> bool
        ensures kept { result ≡ false → self.new ≡ self.old }
        ensures fine { result ≡ true → self.old.fault ≡ None }
        ensures gives { result ≡ true → Gives names.now self.old (Ok (Some event.new)) self.new }
        ensures takes { result ≡ true → IsEndOf self.old.rest self.new.rest
            × (self.new ≡ record self.old { rest = self.new.rest; lines = self.new.lines; events = self.old.events + 1 }) }
        ensures few { self.new.events ≤ most_events }
        ensures on { result ≡ true → (processor_of event.new).number ≤ names.now.processors }
        ensures in_bits { result ≡ true → EventInBits event.new }
        ensures echo { result ≡ true → IsEcho echo.new (event_text names.now event.new) }
    {
        names.validity();
        if self.searched != 0 || self.events == MOST_EVENTS || self.fault.is_some() {
            return false;
        }
        let bytes = &self.bytes[self.start..];
        let Some(rest) = quick_line(names, bytes, event, echo) else {
            return false;
        };
        self.start += bytes.len() - rest.len();
        self.lines += 1;
        self.events += 1;
        true
    }

    /// As [`EventFeed::next`], where the event is written into one that is there: whether there is one. Its text may be kept, where it
    /// is printed so. Where there is none, or a fault, nothing is said of what stands in it and of what is kept.
    #[inline(always)]
    pub fn next_into(
        &mut self,
        names: &Names,
        event: &mut Event,
        echo: &mut Echo,
    ) -> Result<bool, TextFault>
        ensures gives { Gives names.now self.old (answered result event.new) self.new }
        ensures wanting { result ≡ Ok false → IsWanting self.new }
        ensures done { result ≡ Ok false → self.old.ended ≡ true → IsDone names.now self.new }
        ensures stays { IfSome self.old.fault (λ fault. (result ≡ Err fault) × (self.new ≡ self.old)) }
        ensures same { (self.new.ended ≡ self.old.ended) × (self.new.taken ≡ self.old.taken) × (self.new.dropped ≡ self.old.dropped) }
        ensures counts { IfOk result (λ there. self.new.events ≡ self.old.events + (if there then 1 else 0)) }
        ensures few { self.new.events ≤ most_events }
        // Bytes are only taken off the front.
        ensures rest { OnOk result (IsEndOf self.old.rest self.new.rest) }
        // The event is on a processor of the names, and its arguments are within the bits of their kinds.
        ensures on { result ≡ Ok true → (processor_of event.new).number ≤ names.now.processors }
        ensures in_bits { result ≡ Ok true → EventInBits event.new }
        ensures echo { result ≡ Ok true → IsEcho echo.new (event_text names.now event.new) }
    {
        if self.take_quick(names, event, echo) {
            return Ok(true);
        }
        echo.clear();
        match self.next(names)? {
            Some(found) => {
                *event = found;
                Ok(true)
            }
            None => Ok(false),
        }
    }
}
