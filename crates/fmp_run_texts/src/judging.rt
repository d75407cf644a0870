//! Traces that are read and judged.
ghost use Rattle.std.specs.Prelude.{ℕ, ◌-◌, ◌^◌, ◌<◌, List};
ghost use Rattle.fmp_codes.specs.declared.records.Event.{Event as AnyEvent};
ghost use Rattle.fmp_setup.specs.Setup.{Setup};
ghost use Rattle.fmp_trace_check.specs.Checking.{PrintsAnswers};
ghost use Rattle.fmp_run_devices.specs.Ends.{source_ends};
ghost use Rattle.fmp_run_texts.specs.Readings.{ReadsTrace};

use crate::config::config_from;
use crate::fault::RunFault;
use crate::reading::{Reader, text_from};
use fmp_config::Config;
use fmp_run_devices::Source;
use fmp_trace_check::{Verdict, check};
use std::alloc::Global;

/// A kind of text that comes to a verdict: a trace, or a partial one.
pub trait Judge: Reader {
    // On what the machine answers to some events it is yes.
    ghost own: { (j : Self) (c : Setup) (text : List ℕ) (events : List AnyEvent) → PrintsAnswers c text events → Self.accepts j c text };
}

/// Reads a configuration and a trace to their ends, and judges the trace. It has no writer in hand, so nothing is written before both
/// texts are accepted.
pub fn judged_texts<J: Judge, R: Source, S: Source>(
    alloc: Global,
    judge: &J,
    config: &mut R,
    trace: &mut S,
) -> Result<(Config, J::Out), RunFault>
    requires config_calls { R.failures config.old < 2 ^ 64 - 1 }
    requires trace_calls { S.failures trace.old < 2 ^ 64 - 1 }
    ensures { ReadsTrace (J.says judge.now) (J.keeps judge.now) (J.is_fault judge.now) (J.accepts judge.now) (J.verdict judge.now)
        (source_ends R.left R.failures config.old config.new) (source_ends S.left S.failures trace.old trace.new) result }
{
    let configuration = config_from(alloc, config)?;
    configuration.names().validity();
    let made = text_from(alloc, judge, &configuration, trace)?;
    Ok((configuration, made))
}

/// A trace that was read, and the verdict on it.
#[derive(Drop)]
pub struct Judged {
    pub text: Vec<u8>,
    pub verdict: Verdict,
}

/// Judges a whole trace.
#[derive(Clone, Copy)]
pub struct TraceJudge;

impl Reader for TraceJudge {
    ghost use Rattle.fmp_trace_check.specs.Checking.{Judges};
    ghost use Rattle.fmp_run_texts.specs.Traces.{IsFirstOfTrace, IsJudged, IsOfMachine};

    type Out = Judged;

    ghost says = { λ _ c text judged. IsJudged c text judged.text.items judged.verdict };

    ghost keeps = { λ _ c judged. Judges c judged.text.items judged.verdict };

    ghost is_fault = { λ _ c. IsFirstOfTrace c.names };

    ghost verdict = { λ _ judged. judged.verdict };

    ghost accepts = { λ _. IsOfMachine };

    fn read(&self, alloc: Global, config: &Config, text: Vec<u8>) -> Result<Judged, RunFault> {
        match check(alloc, config, text.as_slice()) {
            Ok(verdict) => Ok(Judged { text, verdict }),
            Err(fault) => Err(RunFault::Text(fault)),
        }
    }
}

impl Judge for TraceJudge {
    ghost own = { λ _ c text events prints. (events, prints) };
}
