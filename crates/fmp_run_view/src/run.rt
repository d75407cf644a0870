//! The run that shows a trace.
ghost use Rattle.std.specs.Prelude.{◌≡◌, ◌≢◌, ◌+◌, ◌-◌, ◌^◌, ◌<◌, ◌≤◌, List, ◌++◌, [], length, map, OnOk, OnErr, IfErr, Ok, Err, false, if◌then◌else◌};
ghost use Rattle.fmp_codes.specs.declared.records.Record.{Record as AnyRecord};
ghost use Rattle.fmp_text.specs.Limits.{most_bytes as MOST_BYTES};
ghost use Rattle.fmp_trace_check.specs.Checking.{Judges};
ghost use Rattle.fmp_trace.specs.Prints.{PrintsWithin};
ghost use Rattle.fmp_run_texts.specs.Traces.{FirstTraceFault};
ghost use Rattle.fmp_run_devices.specs.Devices.{BeginsWith, IsKnown, bytes_of};
ghost use Rattle.fmp_run_devices.specs.Ends.{sink_ends, source_ends};
ghost use Rattle.fmp_run_texts.specs.Faults.{failed_write, is_thread_fault};
ghost use Rattle.fmp_run_texts.specs.Owed.{OwesTrace};
ghost use Rattle.fmp_run_view.specs.Runs.{IsLate, IsPageOut, IsShownBy, Leaves, Shows, WritesPage};
ghost use Rattle.fmp_run_view.specs.Pages.{page_of};

use crate::contrast::contrast_of;
use crate::showing::Showing;
use fmp_rules::Config;
use fmp_run_devices::{Sink, Source, write_all};
use fmp_run_texts::{Judged, RunFault, TraceJudge, judged_texts, pass_on};
use fmp_text::{TextFault, TextKind};
use fmp_trace::{event_of, next_line};
use fmp_trace_check::Verdict;
use std::alloc::Global;

/// Which page of a trace is wanted.
#[derive(Clone, Copy)]
pub enum PageKind {
    /// That of a trace that is the machine's own.
    Own,
    /// That of what the machine answers to the events of any trace, beside the lines of the trace that differ.
    Differences,
}

/// Shows the events of a text over a trace of them, beside the lines that were given where it has others.
fn show<W: Sink>(
    alloc: Global,
    config: &Config,
    text: &[u8],
    trace: &[u8],
    given: &[u8],
    page: &mut W,
) -> Result<(), RunFault>
    requires calls { W.failures page.old < 2 ^ 64 - 1 }
    requires short { length text.now ≤ MOST_BYTES }
    ensures known { IsKnown (W.written page.old) → IsKnown (W.written page.new) }
    ensures shown { IsKnown (W.written page.old) → (records : List AnyRecord) → PrintsWithin config.now.names text.now records
        → OnOk result (bytes_of (W.written page.new) ≡ bytes_of (W.written page.old) ++ page_of config.now trace.now given.now (map (λ r. r.event) records)) }
    ensures begun { IsKnown (W.written page.old) → (records : List AnyRecord) → PrintsWithin config.now.names text.now records
        → OnErr result (BeginsWith (bytes_of (W.written page.old)) (page_of config.now trace.now given.now (map (λ r. r.event) records))
        (bytes_of (W.written page.new))) }
    ensures kinds { (records : List AnyRecord) → PrintsWithin config.now.names text.now records → IfErr result IsLate }
    ensures no_thread_fault { IfErr result (λ fault. is_thread_fault fault ≡ false) }
    ensures writes { W.failures page.new ≡ W.failures page.old + (if failed_write result then 1 else 0) }
{
    let names = config.names();
    names.validity();
    let mut showing = Showing::new(alloc, config, trace, given)?;
    let start = showing.piece()?;
    write_all(page, start)?;
    let mut number: u32 = 1;
    let mut rest = text;
    while let Some((line, after)) = next_line(rest) {
        let Some(event) = event_of(names, line) else {
            return Err(RunFault::Text(TextFault {
                kind: TextKind::BadWord,
                line: number,
            }));
        };
        showing.play(config, event);
        let piece = showing.piece()?;
        write_all(page, piece)?;
        number += 1;
        rest = after;
    }
    showing.end();
    let end = showing.piece()?;
    write_all(page, end)?;
    Ok(())
}

/// Shows a trace that was judged, and holds none of it back.
fn show_judged<W: Sink>(
    alloc: Global,
    config: &Config,
    judged: &Judged,
    kind: PageKind,
    page: &mut W,
) -> Result<(), RunFault>
    requires calls { W.failures page.old < 2 ^ 64 - 1 }
    requires judged { Judges config.now judged.now.text.items judged.now.verdict }
    ensures known { IsKnown (W.written page.old) → IsKnown (W.written page.new) }
    ensures shown { IsKnown (W.written page.old)
        → OnOk result (IsShownBy kind config.now judged.now.text.items (bytes_of (W.written page.old)) (bytes_of (W.written page.new)) judged.now.verdict) }
    ensures same { IsKnown (W.written page.old) → judged.now.verdict ≡ Verdict.Yes
        → OnOk result (IsPageOut PageKind.Own config.now judged.now.text.items (bytes_of (W.written page.old)) (bytes_of (W.written page.new))) }
    ensures passed { OnOk result (judged.now.verdict ≡ Verdict.Yes → W.buffered page.new ≡ []) }
    ensures all_passed { kind ≡ PageKind.Differences → OnOk result (W.buffered page.new ≡ []) }
    ensures none_held { W.buffered page.old ≡ [] → result ≢ Err RunFault.Write → W.buffered page.new ≡ [] }
    ensures leaves { IsKnown (W.written page.old)
        → IfErr result (Leaves (Shows kind config.now judged.now.text.items) (bytes_of (W.written page.old)) (bytes_of (W.written page.new))) }
    ensures kinds { IfErr result IsLate }
    ensures no_thread_fault { IfErr result (λ fault. is_thread_fault fault ≡ false) }
    ensures writes { W.failures page.new ≡ W.failures page.old + (if failed_write result then 1 else 0) }
{
    let text = judged.text.as_slice();
    match (kind, judged.verdict) {
        (PageKind::Own, Verdict::No(_)) => Ok(()),
        (PageKind::Own, Verdict::Yes) => {
            let shown = show(alloc, config, text, text, b"", page);
            pass_on(shown, page)
        }
        (PageKind::Differences, _) => {
            let found = contrast_of(alloc, config, text)?;
            let own = found.own.as_slice();
            let given = found.given.as_slice();
            let shown = show(alloc, config, text, own, given, page);
            pass_on(shown, page)
        }
    }
}

/// Reads a configuration and a trace, and writes a page of the trace.
///
/// With `PageKind::Own` that is the page of a trace that is what the machine answers to its events, and of another nothing is written. With
/// `PageKind::Differences` it is the page of what the machine answers to the trace's events, which has each line of the trace that is not
/// the machine's own beside the machine's. The verdict says which line is the first that differs. docs/FORMATS.md has the form of a page.
#[inline(never)]
pub fn run_view<R: Source, S: Source, W: Sink>(
    alloc: Global,
    config: &mut R,
    trace: &mut S,
    page: &mut W,
    kind: PageKind,
) -> Result<Verdict, RunFault>
    requires config_calls { R.failures config.old < 2 ^ 64 - 1 }
    requires trace_calls { S.failures trace.old < 2 ^ 64 - 1 }
    requires page_calls { W.failures page.old < 2 ^ 64 - 1 }

    // What it owes to both texts and to its devices, whatever it writes.
    ensures owes { OwesTrace FirstTraceFault (source_ends R.left R.failures config.old config.new) (source_ends S.left S.failures trace.old trace.new)
        (sink_ends W.written W.buffered W.failures page.old page.new) result }

    // What it writes: the page of this kind.
    ensures writes { WritesPage kind (source_ends R.left R.failures config.old config.new) (source_ends S.left S.failures trace.old trace.new)
        (sink_ends W.written W.buffered W.failures page.old page.new) result }
{
    let (configuration, judged) = judged_texts(alloc, &TraceJudge, config, trace)?;
    show_judged(alloc, &configuration, &judged, kind, page)?;
    Ok(judged.verdict)
}
