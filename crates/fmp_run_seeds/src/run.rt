//! The runs of seeds, from bytes to bytes.
ghost use Rattle.std.specs.Prelude.{◌-◌, ◌<◌, ◌^◌, IfOk, option_map};
ghost use Rattle.fmp_run_devices.specs.Ends.{sink_ends, source_ends};
ghost use Rattle.fmp_run_texts.specs.Owed.{WritesOut};
ghost use Rattle.fmp_run_explore.specs.Faults.{OwesSearch};
ghost use Rattle.fmp_run_explore.specs.Faults as faults;
ghost use Rattle.fmp_run_seeds.specs.Found as spec;
ghost use Rattle.fmp_run_seeds.specs.Found.{IsBegun, IsEndedBy, IsSought};

use crate::asking::SeedAsker;
use crate::orders::SeedRuns;
use crate::progress::SeedProgress;
use crate::seeking::{SeedSearch, sought};
use fmp_run_devices::{Sink, Source, write_out};
use fmp_run_explore::{ExploreFault, asked_from};
use fmp_run_texts::RunFault;
use std::alloc::Global;

/// Which runs of seeds are looked through, and for what.
#[derive(Clone, Copy)]
pub struct SeedRequest<'a> {
    /// The text of a question. Without it a run is looked for that ends while a task waits.
    pub question: Option<&'a [u8]>,
    pub runs: SeedRuns,
    /// The first seed.
    pub first: u64,
    /// The last seed.
    pub last: u64,
}

/// Reads a configuration and scripts, makes the run of each seed from the first to the last, both included, up to the first that is looked for, and writes
/// the trace of that run: up to the line that shows for the first time what the question asks, or without a question the whole trace of a run at
/// whose end nothing is left to do and a task waits. Where there is none, nothing is written.
///
/// A run in turn is as that of [`run_scripts`](fmp_run_smp::run_scripts) with its seed. Without a question one at its limit of turns is passed over, whoever
/// waits there. It tells `progress` which seed is played, which may end the search after the first.
pub fn run_seeds<R: Source, S: Source, W: Sink, P: SeedProgress>(
    alloc: Global,
    config: &mut R,
    scripts: &mut S,
    trace: &mut W,
    request: &SeedRequest<'_>,
    progress: &mut P,
) -> Result<SeedSearch, ExploreFault>
    requires config_calls { R.failures config.old < 2 ^ 64 - 1 }
    requires script_calls { S.failures scripts.old < 2 ^ 64 - 1 }
    requires trace_calls { W.failures trace.old < 2 ^ 64 - 1 }

    // What it owes to both texts, to its question and to its devices, whatever it writes.
    ensures owes { OwesSearch faults.IsScriptFault (λ text. spec.IsQuestionFault text (option_map (λ q. q.now) request.now.question))
        (source_ends R.left R.failures config.old config.new) (source_ends S.left S.failures scripts.old scripts.new)
        (sink_ends W.written W.buffered W.failures trace.old trace.new) result }

    // What it tells, the first of these seeds whose run is looked for, with the line where it is; and what it writes, its trace up to there. Or there
    // is none such, and nothing is written.
    ensures writes { WritesOut (λ c s. IsSought c s (option_map (λ q. q.now) request.now.question) request.now.runs request.now.first request.now.last)
        (λ c s. IsBegun c s (option_map (λ q. q.now) request.now.question) request.now.runs request.now.first request.now.last)
        (ExploreFault.Run RunFault.Write)
        (source_ends R.left R.failures config.old config.new) (source_ends S.left S.failures scripts.old scripts.new)
        (sink_ends W.written W.buffered W.failures trace.old trace.new) result }

    // Seeds are left only where the search was ended.
    ensures ended { IfOk result (IsEndedBy (P.over progress.new)) }
{
    let asker = SeedAsker {
        text: request.question,
    };
    let asked = match asked_from(alloc, &asker, config, scripts) {
        Ok(asked) => asked,
        Err(fault) => return Err(fault),
    };
    let (runs, first, last) = (request.runs, request.first, request.last);
    let (found, text) = match sought(alloc, &asked, runs, first, last, progress) {
        Ok(sought) => sought,
        Err(_) => return Err(ExploreFault::Run(RunFault::Memory)),
    };
    progress.end();
    match write_out(trace, text.as_slice()) {
        Ok(()) => Ok(found),
        Err(_) => Err(ExploreFault::Run(RunFault::Write)),
    }
}
