//! What `fmpsim shrink` does.
ghost use Rattle.fmp_cli_runs.specs.Scripts.{Shrinks};
ghost use Rattle.fmp_cli_runs.specs.Texts.{OverBytes, source_of};

use crate::run::Run;
use fmp_cli::ShrinkRequest;
use fmp_run_devices::{MemSource, Sink, Source};
use fmp_run_events::Status;
use fmp_run_shrink::{ExploreFault, run_shrink};
use std::alloc::Global;

/// Writes the events that are left where none can go without that what the request asks is no longer shown. The status says whether it
/// was shown at all.
#[derive(Clone, Copy)]
pub struct Shrinking<'a, 'w> {
    pub request: &'a ShrinkRequest<'w>,
}

impl Run for Shrinking<'_, '_> {
    type Done = Status;

    type Fault = ExploreFault;

    ghost promises = { λ old _ config text output result. OverBytes config (λ configs. Shrinks old.request.now configs (source_of text) output result) };

    fn run<S: Source, W: Sink>(
        &mut self,
        alloc: Global,
        config: &[u8],
        text: &mut S,
        output: &mut W,
    ) -> Result<Status, ExploreFault> {
        let mut config = MemSource::new(config);
        let (question, runs) = (self.request.question.as_bytes(), self.request.runs);
        match run_shrink(alloc, &mut config, text, output, question, runs) {
            Ok(finding) => Ok(finding.status()),
            Err(fault) => Err(fault),
        }
    }
}
