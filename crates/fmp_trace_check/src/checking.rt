//! Checking a trace against the plain machine.
ghost use Rattle.std.specs.Prelude.{◌≡◌, ◌⊎◌, List, Ok, IfOk, IfErr, map};
ghost use Rattle.fmp_codes.specs.declared.records.Event.{Event as AnyEvent};
ghost use Rattle.fmp_codes.specs.declared.records.Record.{Record as AnyRecord};
ghost use Rattle.fmp_text.specs.Events.{IsMemory};
ghost use Rattle.fmp_trace_check.specs.Checking.{Judges, PrintsAnswers, own_text};
ghost use Rattle.fmp_trace.specs.Prints.{PrintsWithin, FirstFault};
ghost use Rattle.fmp_trace.specs.Reading.{GivesOrFails};
ghost use Rattle.fmp_rules.specs.Boot.{booted};
ghost use Rattle.fmp_trace_check.specs.Checking as spec;
ghost use Rattle.fmp_trace_check.specs.Watching.{watched_by, watched_in};

use crate::walking::walk;
use crate::watching::{Nobody, Watcher};
use fmp_rules::Config;
use fmp_text::TextFault;
use std::alloc::Global;

/// Whether a trace is what the machine answers to its events.
#[derive(Clone, Copy, PartialEq, Eq, Debug)]
pub enum Verdict {
    /// It is.
    Yes,
    /// This line, counted from 1, is the first that is not.
    No(u32),
}

/// The verdict on a trace, while a watcher sees each event and the state after it.
#[tactic(auto, unfolding(crate::specs::Checking::checked))]
fn verdict_on<W: Watcher>(
    alloc: Global,
    config: &Config,
    text: &[u8],
    watcher: &mut W,
) -> Result<Verdict, TextFault>
    ensures verdict { GivesOrFails (λ v. v) result (spec.checked config.now text.now) }
    ensures watched { result ≡ Ok Verdict.Yes → watcher.new ≡ watched_in W.watched config.now text.now watcher.old }
{
    match walk(alloc, config, text, watcher)? {
        None => Ok(Verdict::Yes),
        Some(stop) => Ok(Verdict::No(stop.number)),
    }
}

/// Checks a trace as `check` does, while a watcher sees each event and the state after it. Of a trace that is not the machine's own
/// it saw the events before the first line that differs.
pub fn check_watched<W: Watcher>(
    alloc: Global,
    config: &Config,
    text: &[u8],
    watcher: &mut W,
) -> Result<Verdict, TextFault>
    // What it says of the trace is what `check` says.
    ensures verdict { IfOk result (Judges config.now text.now) }
    ensures complete { (records : List AnyRecord) → PrintsWithin config.now.names text.now records → IfErr result IsMemory }
    ensures own { (records : List AnyRecord) → PrintsWithin config.now.names text.now records → text.now ≡ own_text config.now records
        → GivesOrFails (λ v. v) result (Ok Verdict.Yes) }
    ensures answers { (events : List AnyEvent) → PrintsAnswers config.now text.now events → GivesOrFails (λ v. v) result (Ok Verdict.Yes) }
    ensures fault { IfErr result (λ fault. FirstFault config.now.names text.now fault ⊎ IsMemory fault) }
    // Of the machine's own trace it saw all events.
    ensures watched { result ≡ Ok Verdict.Yes → (records : List AnyRecord) → PrintsWithin config.now.names text.now records
        → watcher.new ≡ watched_by W.watched config.now.names (booted config.now) 1 (map (λ r. r.event) records) watcher.old }
{
    config.names().validity();
    verdict_on(alloc, config, text, watcher)
}

/// Checks a trace against what the plain machine answers to the trace's own events. It keeps no list of records.
///
/// A fault is that of `read_trace`, wherever in the text it is: only a text without one has a verdict.
pub fn check(alloc: Global, config: &Config, text: &[u8]) -> Result<Verdict, TextFault>
    // The text prints records, and the verdict compares it with the answers to their events.
    ensures verdict { IfOk result (Judges config.now text.now) }
    // A text that prints records has a verdict, unless memory ran out.
    ensures complete { (records : List AnyRecord) → PrintsWithin config.now.names text.now records → IfErr result IsMemory }
    // That of its own answers is yes.
    ensures own { (records : List AnyRecord) → PrintsWithin config.now.names text.now records → text.now ≡ own_text config.now records
        → GivesOrFails (λ v. v) result (Ok Verdict.Yes) }
    // So is that of what the machine answers to any events, within the limits of texts.
    ensures answers { (events : List AnyEvent) → PrintsAnswers config.now text.now events → GivesOrFails (λ v. v) result (Ok Verdict.Yes) }
    // The fault is the first one, or want of memory.
    ensures fault { IfErr result (λ fault. FirstFault config.now.names text.now fault ⊎ IsMemory fault) }
{
    check_watched(alloc, config, text, &mut Nobody {})
}
