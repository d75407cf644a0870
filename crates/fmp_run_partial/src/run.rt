//! The run that checks a partial trace.
ghost use Rattle.std.specs.Prelude.{◌-◌, ◌^◌, ◌<◌};
ghost use Rattle.fmp_run_texts.specs.Verdicts.{WritesAnswer};
ghost use Rattle.fmp_run_devices.specs.Devices.{IsKnown, bytes_of};
ghost use Rattle.fmp_run_devices.specs.Ends.{sink_ends, source_ends};
ghost use Rattle.fmp_run_texts.specs.Owed.{OwesTrace};
ghost use Rattle.fmp_run_texts.specs.Traces.{IsYes, verdict_by};
ghost use Rattle.fmp_run_partial.specs.Written.{plain_verdict};
ghost use Rattle.fmp_run_partial.specs.Partials.{CheckedPartly, FirstPartialFault, IsFirstOfPartial, IsPartlyOwn};

use crate::judging::judge_partial;
use crate::showing::{PartialShown, Shown};
use fmp_rules::Config;
use fmp_run_devices::{Sink, Source, write_out};
use fmp_run_texts::{Judge, Reader, RunFault, judged_texts};
use std::alloc::Global;

/// Judges a partial trace, and shows this of it.
#[derive(Drop)]
struct PartialJudge {
    asked: PartialShown,
}

impl Reader for PartialJudge {
    ghost use Rattle.std.specs.Prelude.{◌⊎◌};
    ghost use Rattle.fmp_run_texts.specs.Traces.{IsOfMachine};
    ghost use Rattle.fmp_run_partial.specs.Partials.{IsFirstOfPartial, IsPartlyOfMachine};
    ghost use Rattle.fmp_run_partial.specs.Verdicts.{JudgesText};
    ghost use Rattle.fmp_run_partial.specs.Written.{plain_verdict};

    type Out = Shown;

    ghost says = { λ judge. JudgesText judge.asked };

    ghost is_fault = { λ _ c. IsFirstOfPartial c.names };

    ghost verdict = { λ _ shown. plain_verdict shown.verdict };

    ghost accepts = { λ _ c text. IsOfMachine c text ⊎ IsPartlyOfMachine c text };

    fn read(&self, alloc: Global, config: &Config, text: Vec<u8>) -> Result<Shown, RunFault> {
        match judge_partial(alloc, config, text.as_slice(), self.asked) {
            Ok(shown) => Ok(shown),
            Err(fault) => Err(RunFault::Text(fault)),
        }
    }
}

impl Judge for PartialJudge {
    ghost use Rattle.std.proofs.Common.{inl};

    ghost own = { λ _ c text events prints. inl (events, prints) };
}

/// Reads a configuration and a partial trace, and writes whether what the lines of the trace say is what the machine answers to
/// their events: `yes`, or `no` and the first line that is not. Where the last line says that the trace ends before its log, `yes to` has the
/// line of the log. Where it is asked for, the machine's state before that line stands below `no`, with the line and the machine's own; or the machine's own
/// lines stand in place of a `yes`, in the order in which it plays them.
pub fn run_partial<R: Source, S: Source, W: Sink>(
    alloc: Global,
    config: &mut R,
    trace: &mut S,
    answer: &mut W,
    asked: PartialShown,
) -> Result<Shown, RunFault>
    requires config_calls { R.failures config.old < 2 ^ 64 - 1 }
    requires trace_calls { S.failures trace.old < 2 ^ 64 - 1 }
    requires answer_calls { W.failures answer.old < 2 ^ 64 - 1 }

    // What it owes to both texts and to its devices, whatever it writes.
    ensures owes { OwesTrace FirstPartialFault (source_ends R.left R.failures config.old config.new) (source_ends S.left S.failures trace.old trace.new)
        (sink_ends W.written W.buffered W.failures answer.old answer.new) (verdict_by (λ s. plain_verdict s.verdict) result) }

    // A trace of the machine's own of which parts may be left out is checked with yes, too.
    ensures partly { IsKnown (R.left config.old) → IsKnown (S.left trace.old) → IsPartlyOwn (bytes_of (R.left config.old)) (bytes_of (S.left trace.old)) → IsYes (verdict_by (λ s. plain_verdict s.verdict) result) }

    // What it writes: the verdict, which is right, and what is asked for.
    ensures writes { WritesAnswer (λ s. s.text.items) (CheckedPartly asked) (source_ends R.left R.failures config.old config.new) (source_ends S.left S.failures trace.old trace.new)
        (sink_ends W.written W.buffered W.failures answer.old answer.new) result }
{
    let (_config, shown) = judged_texts(alloc, &PartialJudge { asked }, config, trace)?;
    write_out(answer, shown.text.as_slice())?;
    Ok(shown)
}
