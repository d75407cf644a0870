//! What the machine is like before a line of a trace. The plain machine plays the lines, as it does to judge them.
ghost use Rattle.std.specs.Prelude.{◌≡◌, ◌≤◌, ◌<◌, ◌+◌, ◌-◌, ◌++◌, List, IfOk, OnOk};
ghost use Rattle.fmp_bytes.specs.Bytes.{pieces_of};
ghost use Rattle.fmp_codes.specs.declared.records.Record.{Record as AnyRecord};
ghost use Rattle.fmp_rules.specs.Boot.{booted};
ghost use Rattle.fmp_trace.specs.Heads.{event_of as event_reported};
ghost use Rattle.fmp_trace.specs.Prints.{PrintsWithin};
ghost use Rattle.fmp_trace_check.specs.Walking.{following};
ghost use Rattle.fmp_run_events.specs.Before as spec;

use fmp_codes::{Answer, Event, Proc, Record};
use fmp_names::Names;
use fmp_plain::Plain;
use fmp_rules::Config;
use fmp_show_state::put_state;
use fmp_trace::{event_of, next_line};
use std::alloc::AllocError;

/// Plays the event that a line tells, if it tells any. What is answered is written over.
fn play_line(plain: &mut Plain, report: &mut Record, names: &Names, line: &[u8])
    requires { plain.old.steps < 4294967295 }
    ensures state { plain.new.state ≡ following plain.old.state (event_reported names.now line.now) }
    ensures steps { plain.new.steps ≤ plain.old.steps + 1 }
{
    if let Some(event) = event_of(names, line) {
        plain.step_into(event, report);
    }
}

/// The machine before line n of a text, the lines of which are counted from 1, or after them all, if there are fewer.
fn plain_before(config: &Config, text: &[u8], n: u32) -> Result<Plain, AllocError>
    ensures { IfOk result (λ m. m.state ≡ spec.after_lines config.now.names (n - 1) (booted config.now) (pieces_of 10 text.now)) }
{
    let names = config.names();
    let mut plain = Plain::boot(config)?;
    let mut report = Record::answer(Event::Tick(Proc::new(1)), None, Answer::Nothing);
    let mut rest = text;
    for _ in 1..n {
        let Some((line, after)) = next_line(rest) else {
            return Ok(plain);
        };
        play_line(&mut plain, &mut report, names, line);
        rest = after;
    }
    Ok(plain)
}

/// Adds the machine's state before line n of a trace, as `calls --state` tells it.
pub(crate) fn put_state_before(
    out: &mut Vec<u8>,
    config: &Config,
    trace: &[u8],
    n: u32,
) -> Result<(), AllocError>
    ensures { (records : List AnyRecord) → PrintsWithin config.now.names trace.now records
        → OnOk result (out.new.items ≡ out.old.items ++ spec.state_before config.now records n) }
{
    let names = config.names();
    names.validity();
    let plain = plain_before(config, trace, n)?;
    put_state(out, names, plain.machine())
}
