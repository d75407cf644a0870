//! The run that checks a trace.
ghost use Rattle.std.specs.Prelude.{◌-◌, ◌^◌, ◌<◌};
ghost use Rattle.fmp_run_devices.specs.Ends.{sink_ends, source_ends};
ghost use Rattle.fmp_run_texts.specs.Owed.{OwesTrace};
ghost use Rattle.fmp_run_texts.specs.Traces.{Checked, FirstTraceFault};
ghost use Rattle.fmp_run_texts.specs.Verdicts.{WritesVerdict};

use fmp_run_devices::{Sink, Source, write_out};
use fmp_run_texts::{RunFault, TraceJudge, judged_texts, verdict_text};
use fmp_trace_check::Verdict;
use std::alloc::Global;

/// Reads a configuration and a trace, and writes whether the trace is what the machine answers to its events: `yes`, or
/// `no` and the first line that is not.
pub fn run_check<R: Source, S: Source, W: Sink>(
    alloc: Global,
    config: &mut R,
    trace: &mut S,
    answer: &mut W,
) -> Result<Verdict, RunFault>
    requires config_calls { R.failures config.old < 2 ^ 64 - 1 }
    requires trace_calls { S.failures trace.old < 2 ^ 64 - 1 }
    requires answer_calls { W.failures answer.old < 2 ^ 64 - 1 }

    // What it owes to both texts and to its devices, whatever it writes.
    ensures owes { OwesTrace FirstTraceFault (source_ends R.left R.failures config.old config.new) (source_ends S.left S.failures trace.old trace.new)
        (sink_ends W.written W.buffered W.failures answer.old answer.new) result }

    // What it writes: the verdict, which is right.
    ensures writes { WritesVerdict Checked (source_ends R.left R.failures config.old config.new) (source_ends S.left S.failures trace.old trace.new)
        (sink_ends W.written W.buffered W.failures answer.old answer.new) result }
{
    // (the texts are gone before the write may fail)
    let verdict = {
        let (_config, judged) = judged_texts(alloc, &TraceJudge, config, trace)?;
        judged.verdict
    };
    let text = verdict_text(verdict);
    write_out(answer, text.as_str().as_bytes())?;
    Ok(verdict)
}
