//! What `fmpsim calls` does.
ghost use Rattle.std.specs.Prelude.{◌≡◌};
ghost use Rattle.fmp_cli_runs.specs.Asked.{detail_reported};
ghost use Rattle.fmp_cli_runs.specs.Calls.{Answers, Follows};
ghost use Rattle.fmp_cli_runs.specs.Texts.{OverBytes};

use crate::run::Run;
use fmp_cli::Report;
use fmp_run_devices::{MemSource, Sink, Source};
use fmp_run_events::{Changes, Detail, LifeFault, RunFault, Status, run_events, run_life};
use std::alloc::Global;

/// What is written of each event.
fn detail_for(alloc: Global, report: Report) -> Detail
    ensures { result ≡ detail_reported report }
{
    match report {
        Report::Line => Detail::Line,
        Report::State => Detail::State,
        Report::Changes => Detail::Changes(Changes::new(alloc)),
    }
}

/// Writes what the machine answers to events, each event's part as it comes, and with it the state, or what of it changed, where that is asked for.
#[derive(Clone, Copy)]
pub struct Answering {
    pub report: Report,
}

impl Run for Answering {
    type Done = Status;

    type Fault = RunFault;

    ghost promises = { λ old _ config text output result. OverBytes config (λ configs. Answers old.report configs text output result) };

    fn run<S: Source, W: Sink>(
        &mut self,
        alloc: Global,
        config: &[u8],
        text: &mut S,
        output: &mut W,
    ) -> Result<Status, RunFault> {
        let mut config = MemSource::new(config);
        match run_events(
            alloc,
            detail_for(alloc, self.report),
            &mut config,
            text,
            output,
        ) {
            Ok(()) => Ok(Status::Done),
            Err(fault) => Err(fault),
        }
    }
}

/// Writes what events change of the things with these names, between commas, each change as its event comes.
#[derive(Clone, Copy)]
pub struct Following<'a> {
    pub names: &'a str,
}

impl Run for Following<'_> {
    type Done = ();

    type Fault = LifeFault;

    ghost promises = { λ old _ config text output result. OverBytes config (λ configs. Follows old.names.now configs text output result) };

    fn run<S: Source, W: Sink>(
        &mut self,
        alloc: Global,
        config: &[u8],
        text: &mut S,
        output: &mut W,
    ) -> Result<(), LifeFault> {
        let mut config = MemSource::new(config);
        run_life(alloc, &mut config, text, self.names.as_bytes(), output)
    }
}
