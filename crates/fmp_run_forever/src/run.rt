//! The run through all orders for what stays, from bytes to bytes.
ghost use Rattle.std.specs.Prelude.{◌-◌, ◌<◌, ◌^◌, IfOk};
ghost use Rattle.fmp_run_devices.specs.Devices.{IsKnown, bytes_of};
ghost use Rattle.fmp_run_devices.specs.Ends.{sink_ends, source_ends};
ghost use Rattle.fmp_run_texts.specs.Owed.{WritesOut};
ghost use Rattle.fmp_run_explore.specs.Faults.{OwesSearch};
ghost use Rattle.fmp_run_explore.specs.Faults as faults;
ghost use Rattle.fmp_run_forever.specs.Asked as asked;
ghost use Rattle.fmp_run_forever.specs.Gone.{HasGone};
ghost use Rattle.fmp_run_forever.specs.Stayed.{IsBegun, IsExplored};
ghost use Rattle.fmp_run_forever.specs.Told.{TellsCalls};

use crate::asking::LastingAsker;
use crate::staying::Stayed;
use crate::writing::{WriteFault, found_written};
use fmp_run_devices::{Sink, Source};
use fmp_run_explore::{ExploreFault, SearchRequest, asked_from};
use fmp_run_texts::RunFault;
use fmp_search::Progress;
use std::alloc::Global;

/// Reads a configuration and scripts, goes through every order of what may happen by the rules of the request, and writes whether one of them ends so that
/// something that its question asks stays for ever.
///
/// It looks at orders of at most as many lines as the request says, one more for the last, and has room for as many places. It tells how far it has come.
pub fn run_forever<R: Source, S: Source, W: Sink, P: Progress>(
    alloc: Global,
    config: &mut R,
    scripts: &mut S,
    output: &mut W,
    request: &SearchRequest<'_>,
    progress: &mut P,
) -> Result<Stayed, ExploreFault>
    requires config_calls { R.failures config.old < 2 ^ 64 - 1 }
    requires script_calls { S.failures scripts.old < 2 ^ 64 - 1 }
    requires output_calls { W.failures output.old < 2 ^ 64 - 1 }

    // What it owes to both texts, to its question and to its devices, whatever it writes.
    ensures owes { OwesSearch faults.IsScriptFault (λ text. asked.IsQuestionFault text request.now.question.now)
        (source_ends R.left R.failures config.old config.new) (source_ends S.left S.failures scripts.old scripts.new)
        (sink_ends W.written W.buffered W.failures output.old output.new) result }

    // What it writes: what is known of all orders.
    ensures writes { WritesOut (λ c s old new found. IsExplored c s request.now.question.now request.now.rules request.now.bounds.turns.count (request.now.bounds.places.count - 1) old new
        found.asked.question.items found.staying)
        (λ c s. IsBegun c s request.now.question.now request.now.rules request.now.bounds.turns.count (request.now.bounds.places.count - 1)) (ExploreFault.Run RunFault.Write)
        (source_ends R.left R.failures config.old config.new) (source_ends S.left S.failures scripts.old scripts.new)
        (sink_ends W.written W.buffered W.failures output.old output.new) result }

    // It tells how far it went.
    ensures gone { IsKnown (R.left config.old) → IsKnown (S.left scripts.old)
        → IfOk result (λ s. HasGone (bytes_of (R.left config.old))
        (bytes_of (S.left scripts.old)) request.now.question.now request.now.rules s.asked.question.items (P.over progress.new) s.staying s.extent) }

    // It tells which calls are made.
    ensures tells { IfOk result (λ s. TellsCalls s.asked.config s.asked.scripts s.rules request.now.bounds.turns.count s.staying s.met) }
{
    let asker = LastingAsker {
        text: request.question,
    };
    let asked = match asked_from(alloc, &asker, config, scripts) {
        Ok(asked) => asked,
        Err(fault) => return Err(fault),
    };
    let rules = request.rules;
    match found_written(alloc, &asked, rules, request.bounds, output, progress) {
        Ok((staying, extent, met)) => Ok(Stayed {
            staying,
            asked,
            rules,
            extent,
            met,
        }),
        Err(WriteFault::Memory) => Err(ExploreFault::Run(RunFault::Memory)),
        Err(WriteFault::Write) => Err(ExploreFault::Run(RunFault::Write)),
    }
}
