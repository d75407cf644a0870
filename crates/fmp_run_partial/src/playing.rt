//! The machine plays lines again, to tell what it is like before one of them, or what it answers to all of them.
ghost use Rattle.std.specs.Prelude.{◌≡◌, ◌≤◌, ◌+◌, ◌++◌, [], length, option_map, slice_get, take, IfOk, OnOk};
ghost use Rattle.fmp_out.specs.Putting.{Adds};
ghost use Rattle.fmp_rules.specs.Arrivals.{numbered};
ghost use Rattle.fmp_rules.specs.Step.{answers};
ghost use Rattle.fmp_text.specs.Limits.{most_events};
ghost use Rattle.fmp_trace.specs.Lines.{line_text, lines_from};
ghost use Rattle.fmp_run_partial.specs.Playing as spec;
ghost use Rattle.fmp_run_partial.specs.Playing.{Replayed};

use fmp_codes::{Answer, Event, Proc, Record};
use fmp_out::Text;
use fmp_plain::Plain;
use fmp_text::Names;
use fmp_trace::put_line;
use std::alloc::{AllocError, Global};

/// The event of a line of lines that have these events, if there is such a line.
pub(crate) fn event_at(events: &[Event], line: u32) -> Option<Event>
    ensures { result ≡ slice_get events.now line }
{
    events.get(line as usize).copied()
}

/// Adds an event, if there is one.
fn put_event(all: &mut Vec<Event>, event: Option<Event>) -> Result<(), AllocError>
    ensures { OnOk result (all.new.items ≡ all.old.items ++ spec.event_and event []) }
{
    if let Some(event) = event {
        all.push(event)?;
    }
    Ok(())
}

/// The events of these lines, one after the other, of lines that have these events.
fn events_at(alloc: Global, events: &[Event], order: &[u32]) -> Result<Vec<Event>, AllocError>
    ensures { IfOk result (λ all. all.items ≡ spec.events_at events.now order.now) }
{
    let mut all = Vec::new(alloc);
    let mut rest = order;
    while let Some((line, after)) = rest.split_first() {
        put_event(&mut all, event_at(events, *line))?;
        rest = after;
    }
    Ok(all)
}

/// So many first events, or all where there are fewer.
fn first_events(events: &[Event], count: usize) -> &[Event]
    ensures { result.now ≡ take count events.now }
{
    if count < events.len() {
        &events[..count]
    } else {
        events
    }
}

/// The events that are played: of so many lines as they stand, or of those of an order where there is one.
pub(crate) fn played(
    alloc: Global,
    events: &[Event],
    count: usize,
    order: &Option<Vec<u32>>,
) -> Result<Vec<Event>, AllocError>
    ensures { IfOk result (λ all. all.items ≡ spec.played events.now count (option_map (λ v. v.items) order.now)) }
{
    match order {
        Some(order) => events_at(alloc, events, order.as_slice()),
        None => {
            let mut all = Vec::new(alloc);
            all.extend_from_slice(first_events(events, count))?;
            Ok(all)
        }
    }
}

/// A record that any event is told in.
pub(crate) fn blank() -> Record {
    Record::answer(Event::Tick(Proc::new(1)), None, Answer::Nothing)
}

/// Adds line n, as it is printed of a record.
pub(crate) fn put_record(out: &mut Text, names: &Names, n: u32, report: &Record)
    ensures { Adds (line_text names.now n report.now) out.old out.new }
{
    let told = put_line(out.as_mut_vec(), names, n, report);
    out.note(told);
}

/// Plays events.
pub(crate) fn play(plain: &mut Plain, events: &[Event])
    requires { plain.old.steps + length events.now ≤ most_events }
    ensures { Replayed plain.old events.now plain.new }
{
    let mut report = blank();
    let mut rest = events;
    while let Some((event, after)) = rest.split_first() {
        plain.step_into(*event, &mut report);
        rest = after;
    }
}

/// Plays events, and adds what is printed of each answer, numbered from 1.
pub(crate) fn put_answers(out: &mut Text, plain: &mut Plain, names: &Names, events: &[Event])
    requires { plain.old.steps + length events.now ≤ most_events }
    ensures text { Adds (lines_from names.now 1 (answers numbered plain.old.state events.now)) out.old out.new }
    ensures played { Replayed plain.old events.now plain.new }
{
    let mut report = blank();
    let mut number: u32 = 0;
    let mut rest = events;
    while let Some((event, after)) = rest.split_first() {
        plain.step_into(*event, &mut report);
        number += 1;
        put_record(out, names, number, &report);
        rest = after;
    }
}
