//! A line that is told of a partial trace, and what the machine plays before it.
ghost use Rattle.std.specs.Prelude.{◌≡◌, ◌≤◌, ◌<◌, List, length, option_map, Ok, IfOk};
ghost use Rattle.std.specs.Option.{option_copied};
ghost use Rattle.fmp_out.specs.Putting.{Adds};
ghost use Rattle.fmp_rules.specs.Boot.{booted};
ghost use Rattle.fmp_text.specs.Limits.{most_events};
ghost use Rattle.fmp_trace_orders.specs.Lines.{AreLinesOf, lines_of};
ghost use Rattle.fmp_trace_partial.specs.Saying.{said_in};
ghost use Rattle.fmp_trace_partial.specs.declared.telling.Said.{Said as AnySaid};
ghost use Rattle.fmp_run_partial.specs.Playing.{Judged, Replayed};
ghost use Rattle.fmp_run_partial.specs.Showing.{events_of, pair_of};
ghost use Rattle.fmp_run_partial.specs.Telling as spec;

use crate::playing::{blank, event_at, play, played, put_record};
use fmp_codes::Event;
use fmp_out::Text;
use fmp_plain::Plain;
use fmp_rules::Config;
use fmp_show_state::put_state;
use fmp_text::Names;
use fmp_trace_orders::{Lines, line_from, read_lines};
use std::alloc::AllocError;

/// A line that is told of a text.
#[derive(Drop)]
pub(crate) struct Told {
    /// Its number, counted from 1.
    pub(crate) number: u32,
    /// Where it begins in the text, if there is such a line.
    start: Option<u32>,
    pub(crate) event: Option<Event>,
    /// The events that the machine plays before it.
    pub(crate) before: Vec<Event>,
}

/// The lines of a text that was read before. The error is want of memory.
pub(crate) fn lines_again(config: &Config, text: &[u8]) -> Result<Lines, AllocError>
    ensures lines { IfOk result (AreLinesOf config.now.names text.now) }
    ensures few { IfOk result (λ lines. length lines.events.items ≤ most_events) }
{
    let names = config.names();
    names.validity();
    match read_lines(config.allocator(), names, text) {
        Ok(lines) => Ok(lines),
        Err(_) => Err(AllocError),
    }
}

/// Line n of a text that was read before, counted from 1, after the lines before it as they stand, or after an order of lines.
pub(crate) fn told_at(
    config: &Config,
    text: &[u8],
    order: &Option<Vec<u32>>,
    n: u32,
) -> Result<Told, AllocError>
    requires { Judged text.now (option_map (λ v. v.items) order.now) }
    ensures told { IfOk result (λ told. (said : List AnySaid) → said_in config.now.names text.now ≡ Ok said
        → spec.IsTold text.now (lines_of text.now) (events_of said) (option_map (λ v. v.items) order.now) n told) }
    ensures within { IfOk result (spec.IsWithin text.now) }
{
    let lines = lines_again(config, text)?;
    let at = n.saturating_sub(1);
    let before = played(
        config.allocator(),
        lines.events.as_slice(),
        at as usize,
        order,
    )?;
    Ok(Told {
        number: n,
        start: lines.starts.get(at as usize).copied(),
        event: event_at(lines.events.as_slice(), at),
        before,
    })
}

/// The line that is told as it stands, without its line feed, if there is such a line.
pub(crate) fn line_told<'a>(text: &'a [u8], told: &Told) -> Option<&'a [u8]>
    ensures { option_copied result ≡ spec.line_told text.now told.now }
{
    Some(line_from(text, told.start?))
}

/// A machine that has played these events since its boot.
pub(crate) fn machine_after(config: &Config, events: &[Event]) -> Result<Plain, AllocError>
    requires { length events.now ≤ most_events }
    ensures { IfOk result (Replayed (record { state = booted config.now; steps = 0 }) events.now) }
{
    let mut plain = Plain::boot(config)?;
    play(&mut plain, events);
    Ok(plain)
}

/// Adds the line that is told as it stands, and what the machine answers to its event.
fn put_pair(out: &mut Text, names: &Names, plain: &mut Plain, text: &[u8], told: &Told)
    requires { plain.old.steps < 4294967295 }
    ensures { Adds (pair_of names.now told.now.number plain.old.state (spec.line_told text.now told.now) told.now.event) out.old out.new }
{
    let Some(line) = line_told(text, told) else {
        return;
    };
    let Some(event) = told.event else {
        return;
    };
    let mut report = blank();
    plain.step_into(event, &mut report);
    out.put(b"- ");
    out.put(line);
    out.put(b"\n+ ");
    put_record(out, names, told.number, &report);
}

/// The machine's state before a line, and the line with the machine's own.
#[derive(Drop)]
pub(crate) struct Differing {
    pub(crate) state: Vec<u8>,
    pub(crate) pair: Vec<u8>,
}

/// What is shown of the line that is told.
pub(crate) fn differing_at(
    config: &Config,
    text: &[u8],
    told: &Told,
) -> Result<Differing, AllocError>
    requires { spec.IsWithin text.now told.now }
    ensures { IfOk result (spec.Differs config.now text.now told.now) }
{
    let names = config.names();
    let alloc = config.allocator();
    names.validity();
    let mut plain = machine_after(config, told.before.as_slice())?;
    let mut state = Vec::new(alloc);
    put_state(&mut state, names, plain.machine())?;
    let mut pair = Text::new(alloc);
    put_pair(&mut pair, names, &mut plain, text, told);
    Ok(Differing {
        state,
        pair: pair.finish()?,
    })
}
