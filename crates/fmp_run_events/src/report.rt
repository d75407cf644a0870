//! The run that shows where a trace differs.
ghost use Rattle.std.specs.Prelude.{◌≡◌, ◌+◌, ◌-◌, ◌^◌, ◌<◌, ◌++◌, [], OnOk, OnErr, IfOk, Err, is_err, if◌then◌else◌};
ghost use Rattle.fmp_trace_check.specs.Differences.{Contrasts};
ghost use Rattle.fmp_run_texts.specs.Traces.{FirstTraceFault, IsFirstOfTrace};
ghost use Rattle.fmp_run_devices.specs.Devices.{BeginsWith, IsKnown, bytes_of};
ghost use Rattle.fmp_run_devices.specs.Ends.{sink_ends, source_ends};
ghost use Rattle.fmp_run_texts.specs.Owed.{OwesTrace};
ghost use Rattle.fmp_run_events.specs.Reports.{WritesReport, Tells, head_text};

use crate::before::put_state_before;
use fmp_rules::Config;
use fmp_run_devices::{Failed, Sink, Source, write_all, write_out};
use fmp_run_texts::{Judge, Reader, RunFault, judged_texts, verdict_text};
use fmp_trace_check::{Comparison, Shown, Verdict, compare_lines};
use std::alloc::{AllocError, Global};

/// What a unified diff begins with. Its names are fixed, so that no path can break its form.
const HEADER: &[u8] = b"--- trace\n+++ machine\n";

/// The same comparison, with the machine's state before the line that differs told above it. The error is want of memory.
fn with_state(
    alloc: Global,
    config: &Config,
    trace: &[u8],
    found: Comparison,
) -> Result<Comparison, AllocError>
    requires { Contrasts Shown.First config.now trace.now found.verdict found.lines.items }
    ensures verdict { IfOk result (λ more. more.verdict ≡ found.verdict) }
    ensures report { IfOk result (λ more. Tells Shown.First config.now trace.now more.verdict more.lines.items) }
{
    let Verdict::No(n) = found.verdict else {
        return Ok(found);
    };
    let mut lines = Vec::new(alloc);
    put_state_before(&mut lines, config, trace, n)?;
    lines.extend_from_slice(found.lines.as_slice())?;
    Ok(Comparison {
        verdict: found.verdict,
        lines,
    })
}

/// Compares a trace with what the machine answers to its events.
#[derive(Drop)]
struct Comparer {
    shown: Shown,
}

impl Reader for Comparer {
    ghost use Rattle.fmp_run_texts.specs.Traces.{IsFirstOfTrace, IsOfMachine};
    ghost use Rattle.fmp_run_events.specs.Reports.{IsCompared};

    type Out = Comparison;

    ghost says = { λ comparer c text found. IsCompared comparer.shown c text found };

    ghost is_fault = { λ _ c. IsFirstOfTrace c.names };

    ghost verdict = { λ _ found. found.verdict };

    ghost accepts = { λ _. IsOfMachine };

    fn read(&self, alloc: Global, config: &Config, text: Vec<u8>) -> Result<Comparison, RunFault> {
        let found = match compare_lines(alloc, config, text.as_slice(), self.shown) {
            Ok(found) => found,
            Err(fault) => return Err(RunFault::Text(fault)),
        };
        match self.shown {
            Shown::First => Ok(with_state(alloc, config, text.as_slice(), found)?),
            Shown::Each => Ok(found),
        }
    }
}

impl Judge for Comparer {
    ghost own = { λ _ c text events prints. (events, prints) };
}

/// Writes what stands before the lines that differ. After a failed call a prefix of it is out.
fn write_head<W: Sink>(sink: &mut W, shown: Shown, verdict: Verdict) -> Result<(), Failed>
    requires { W.failures sink.old < 2 ^ 64 - 1 }
    ensures count { W.failures sink.new ≡ W.failures sink.old + (if is_err result then 1 else 0) }
    ensures known { IsKnown (W.written sink.old) → IsKnown (W.written sink.new) }
    ensures ok { IsKnown (W.written sink.old) → OnOk result (bytes_of (W.written sink.new) ≡ bytes_of (W.written sink.old) ++ head_text shown verdict) }
    ensures err { IsKnown (W.written sink.old) → OnErr result (BeginsWith (bytes_of (W.written sink.old)) (head_text shown verdict) (bytes_of (W.written sink.new))) }
{
    match (shown, verdict) {
        (Shown::First, verdict) => write_all(sink, verdict_text(verdict).as_str().as_bytes()),
        (Shown::Each, Verdict::Yes) => write_all(sink, b""),
        (Shown::Each, Verdict::No(_)) => write_all(sink, HEADER),
    }
}

/// Writes a report, and holds none of it back. After a failed call a prefix of it is written.
fn write_report<W: Sink>(
    sink: &mut W,
    shown: Shown,
    verdict: Verdict,
    lines: &[u8],
) -> Result<(), Failed>
    requires { W.failures sink.old < 2 ^ 64 - 1 }
    ensures count { W.failures sink.new ≡ W.failures sink.old + (if is_err result then 1 else 0) }
    ensures known { IsKnown (W.written sink.old) → IsKnown (W.written sink.new) }
    ensures passed { OnOk result (W.buffered sink.new ≡ []) }
    ensures ok { IsKnown (W.written sink.old) → OnOk result (bytes_of (W.written sink.new) ≡ bytes_of (W.written sink.old) ++ (head_text shown verdict ++ lines.now)) }
    ensures err { IsKnown (W.written sink.old)
        → OnErr result (BeginsWith (bytes_of (W.written sink.old)) (head_text shown verdict ++ lines.now) (bytes_of (W.written sink.new))) }
{
    write_head(sink, shown, verdict)?;
    write_out(sink, lines)
}

/// Reads a configuration and a trace, and writes where the trace is not what the machine answers to its events.
///
/// With `Shown::First` that is the verdict, as `run_check` writes it, and under a `no` the machine's state before the first line that
/// differs, that line, and the machine's own. With `Shown::Each` it is a unified diff without context that makes the machine's trace of this one, which
/// is empty where they are the same. docs/FORMATS.md has both forms.
pub fn run_report<R: Source, S: Source, W: Sink>(
    alloc: Global,
    config: &mut R,
    trace: &mut S,
    report: &mut W,
    shown: Shown,
) -> Result<Verdict, RunFault>
    requires config_calls { R.failures config.old < 2 ^ 64 - 1 }
    requires trace_calls { S.failures trace.old < 2 ^ 64 - 1 }
    requires report_calls { W.failures report.old < 2 ^ 64 - 1 }

    // What it owes to both texts and to its devices, whatever it writes.
    ensures owes { OwesTrace FirstTraceFault (source_ends R.left R.failures config.old config.new) (source_ends S.left S.failures trace.old trace.new)
        (sink_ends W.written W.buffered W.failures report.old report.new) result }

    // What it writes: the report of what differs.
    ensures writes { WritesReport shown (source_ends R.left R.failures config.old config.new) (source_ends S.left S.failures trace.old trace.new)
        (sink_ends W.written W.buffered W.failures report.old report.new) result }
{
    let (_config, found) = judged_texts(alloc, &Comparer { shown }, config, trace)?;
    write_report(report, shown, found.verdict, found.lines.as_slice())?;
    Ok(found.verdict)
}
