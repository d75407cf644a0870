//! What `fmpsim check`, `fmpsim wave` and `fmpsim view` do.
ghost use Rattle.fmp_cli_runs.specs.Texts.{OverBytes, source_of};
ghost use Rattle.fmp_cli_runs.specs.Traces.{Judges};

use crate::run::Run;
use fmp_cli::Asked;
use fmp_run_devices::{MemSource, Sink, Source};
use fmp_run_events::{RunFault, run_check, run_report};
use fmp_run_view::{PageKind, run_view};
use fmp_run_wave::run_wave;
use fmp_trace_check::Verdict;
use std::alloc::Global;

/// Writes what is asked of a trace, and judges it.
#[derive(Clone, Copy)]
pub struct Judging {
    pub asked: Asked,
}

impl Run for Judging {
    type Done = Verdict;

    type Fault = RunFault;

    ghost promises = { λ old _ config text output result. OverBytes config (λ configs. Judges old.asked configs (source_of text) output result) };

    fn run<S: Source, W: Sink>(
        &mut self,
        alloc: Global,
        config: &[u8],
        text: &mut S,
        output: &mut W,
    ) -> Result<Verdict, RunFault> {
        let mut config = MemSource::new(config);
        match self.asked {
            Asked::Verdict => run_check(alloc, &mut config, text, output),
            Asked::Differences(shown) => run_report(alloc, &mut config, text, output, shown),
            Asked::Waveform => run_wave(alloc, &mut config, text, output),
            Asked::Page => run_view(alloc, &mut config, text, output, PageKind::Own),
            Asked::DifferencesPage => {
                run_view(alloc, &mut config, text, output, PageKind::Differences)
            }
        }
    }
}
