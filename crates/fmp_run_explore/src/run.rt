//! The run through all orders, from bytes to bytes.
ghost use Rattle.std.specs.Prelude.{◌-◌, ◌<◌, ◌^◌, IfOk};
ghost use Rattle.fmp_run_devices.specs.Devices.{IsKnown, bytes_of};
ghost use Rattle.fmp_run_devices.specs.Ends.{sink_ends, source_ends};
ghost use Rattle.fmp_run_texts.specs.Owed.{WritesOut};
ghost use Rattle.fmp_run_explore.specs.Faults.{OwesSearch};
ghost use Rattle.fmp_run_explore.specs.Explored.{IsBegun, IsEndedBy, IsExplored};
ghost use Rattle.fmp_run_explore.specs.Faults as faults;
ghost use Rattle.fmp_run_explore.specs.Gone.{IsGone};
ghost use Rattle.fmp_run_explore.specs.Made.{TellsCalls};
ghost use Rattle.fmp_run_explore.specs.Searched.{IsOfTexts};

use crate::asker::StepsAsker;
use crate::asking::asked_from;
use crate::fault::ExploreFault;
use crate::request::SearchRequest;
use crate::searched::Outcome;
use crate::writing::{WriteFault, found_written};
use fmp_run_devices::{Sink, Source};
use fmp_run_texts::RunFault;
use fmp_search::Progress;
use std::alloc::Global;

/// Reads a configuration and scripts, goes through every order of what may happen by the rules of the request, and writes whether one of them shows
/// what its question asks.
///
/// It looks at orders of at most as many lines as the request says, and has room for as many places, each of which takes 24 to 32 bytes and what no place
/// before it has of its parts. Where the room does not do it says for how many lines it did, and all of it was used. It tells `progress` how far it has
/// come, which may end it.
pub fn run_explore<R: Source, S: Source, W: Sink, P: Progress>(
    alloc: Global,
    config: &mut R,
    scripts: &mut S,
    output: &mut W,
    request: &SearchRequest<'_>,
    progress: &mut P,
) -> Result<Outcome, ExploreFault>
    requires config_calls { R.failures config.old < 2 ^ 64 - 1 }
    requires script_calls { S.failures scripts.old < 2 ^ 64 - 1 }
    requires output_calls { W.failures output.old < 2 ^ 64 - 1 }

    // What it owes to both texts, to its question and to its devices, whatever it writes.
    ensures owes { OwesSearch faults.IsScriptFault (λ text. faults.IsQuestionFault text request.now.question.now)
        (source_ends R.left R.failures config.old config.new) (source_ends S.left S.failures scripts.old scripts.new)
        (sink_ends W.written W.buffered W.failures output.old output.new) result }

    // What it writes: what is known of all orders.
    ensures writes { WritesOut (λ c s old new o. IsExplored c s request.now.question.now request.now.rules request.now.bounds.turns.count
        (request.now.bounds.places.count - 1) old new o.finding)
        (λ c s. IsBegun c s request.now.question.now request.now.rules request.now.bounds.turns.count (request.now.bounds.places.count - 1))
        (ExploreFault.Run RunFault.Write)
        (source_ends R.left R.failures config.old config.new) (source_ends S.left S.failures scripts.old scripts.new)
        (sink_ends W.written W.buffered W.failures output.old output.new) result }

    // Beside that it gives what it searched, for what may be asked besides.
    ensures searched { IsKnown (R.left config.old) → IsKnown (S.left scripts.old)
        → IfOk result (λ o. IsOfTexts (bytes_of (R.left config.old)) (bytes_of (S.left scripts.old)) request.now.question.now request.now.rules o.searched) }

    // It tells how far it went.
    ensures went { IfOk result (λ o. IsGone o.searched o.finding o.extent) }

    // It tells which calls are made.
    ensures tells { IfOk result (λ o. TellsCalls o.searched request.now.bounds.turns.count o.finding o.met) }

    // Less is known than was asked for, with room that is left, only where the search was ended.
    ensures ended { IfOk result (λ o. IsEndedBy (P.over progress.new) o.finding) }
{
    let asker = StepsAsker {
        text: request.question,
    };
    let asked = match asked_from(alloc, &asker, config, scripts) {
        Ok(asked) => asked,
        Err(fault) => return Err(fault),
    };
    match found_written(
        alloc,
        asked,
        request.rules,
        request.bounds,
        output,
        progress,
    ) {
        Ok(outcome) => Ok(outcome),
        Err(WriteFault::Memory) => Err(ExploreFault::Run(RunFault::Memory)),
        Err(WriteFault::Write) => Err(ExploreFault::Run(RunFault::Write)),
    }
}
