//! What `fmpsim smp` does.
ghost use Rattle.std.specs.Prelude.{◌≡◌};
ghost use Rattle.std.specs.Thread.{IsSync};
ghost use Rattle.fmp_cli_runs.specs.Asked as asked;
ghost use Rattle.fmp_cli_runs.specs.Scripts.{Plays, Seeks};
ghost use Rattle.fmp_cli_runs.specs.Texts.{OverBytes, source_of};

use crate::run::Run;
use fmp_cli::SmpRequest;
use fmp_run_devices::{MemSource, Sink, Source};
use fmp_run_events::{RunFault, Status};
use fmp_run_explore::ExploreFault;
use fmp_run_seeds::{
    Drawing, SeedOrder, SeedProgress, SeedRequest, SeedRuns, SeedSearch, run_seeds,
};
use fmp_run_smp::run_scripts;
use fmp_smp::Open;
use std::alloc::Global;
use std::sync::Wait;
use std::thread::Threads;

/// What a run of processors is told to have come to.
#[derive(Drop)]
pub struct Played {
    /// How it ends the program.
    pub status: Status,
    /// A line for each task that waits at its end.
    pub waiting: Vec<u8>,
}

/// Writes the trace of processors that follow scripts, in threads or in the order of the seed, and tells who waits at the end.
#[derive(Clone, Copy)]
pub struct Playing<'t, 'a, 'w, T> {
    pub threads: &'t T,
    pub request: &'a SmpRequest<'w>,
}

impl<'t, 'a, 'w, T: Threads + Wait + Sync> Run for Playing<'t, 'a, 'w, T> {
    type Done = Played;

    type Fault = RunFault;

    ghost may_run = { IsSync T.row };

    ghost promises = { λ old _ config text output result. OverBytes config (λ configs. Plays old.request.now configs (source_of text) output result) };

    fn run<S: Source, W: Sink>(
        &mut self,
        alloc: Global,
        config: &[u8],
        text: &mut S,
        output: &mut W,
    ) -> Result<Played, RunFault> {
        let mut config = MemSource::new(config);
        let limits = self.request.limits;
        let seed = self.request.seed;
        match run_scripts(
            self.threads,
            alloc,
            &mut config,
            text,
            output,
            limits,
            seed,
            &Open,
        ) {
            Ok(end) => Ok(Played {
                status: end.status(self.request.strict),
                waiting: end.waiting,
            }),
            Err(fault) => Err(fault),
        }
    }
}

/// Which runs the seeds of a request make.
fn runs_of(request: &SmpRequest<'_>) -> SeedRuns
    ensures { result ≡ asked.runs_of request.now }
{
    let drawing = Drawing {
        late: request.late,
        stalls: request.stalls,
    };
    let order = if request.late || request.stalls {
        SeedOrder::Drawn(drawing)
    } else {
        SeedOrder::InTurn
    };
    SeedRuns {
        order,
        limits: request.limits,
    }
}

/// Makes the run of each seed from the first to the last, up to the first that is looked for: that shows what the request asks, or else ends quiet
/// while a task waits. Tells that one, and writes its trace up to there.
#[derive(Drop)]
pub struct Seeking<'a, 'w, 'p, P> {
    pub request: &'a SmpRequest<'w>,
    pub first: u64,
    pub last: u64,
    pub progress: &'p mut P,
}

impl<'a, 'w, 'p, P: SeedProgress> Run for Seeking<'a, 'w, 'p, P> {
    type Done = SeedSearch;

    type Fault = ExploreFault;

    ghost promises = { λ old new config text output result.
        OverBytes config (λ configs. Seeks old.request.now old.first old.last (P.over new.progress.now) configs (source_of text) output result) };

    fn run<S: Source, W: Sink>(
        &mut self,
        alloc: Global,
        config: &[u8],
        text: &mut S,
        output: &mut W,
    ) -> Result<SeedSearch, ExploreFault> {
        let question = match self.request.find {
            Some(text) => Some(text.as_bytes()),
            None => None,
        };
        let asked = SeedRequest {
            question,
            runs: runs_of(self.request),
            first: self.first,
            last: self.last,
        };
        let mut config = MemSource::new(config);
        run_seeds(alloc, &mut config, text, output, &asked, self.progress)
    }
}
