//! The run through the orders that go on from a trace, from bytes to bytes.
ghost use Rattle.std.specs.Prelude.{◌≡◌, ◌-◌, ◌<◌, ◌^◌, ◌↔◌, Err, IfOk, IfErr, length};
ghost use Rattle.fmp_run_devices.specs.Devices.{IsKnown, bytes_of};
ghost use Rattle.fmp_run_devices.specs.Ends.{sink_ends, source_ends};
ghost use Rattle.fmp_run_texts.specs.Owed.{WritesOut};
ghost use Rattle.fmp_text.specs.Limits.{most_bytes};
ghost use Rattle.fmp_run_explore.specs.Explored.{IsEndedBy};
ghost use Rattle.fmp_run_explore_from.specs.Explored.{IsBegunFrom, IsExploredFrom};
ghost use Rattle.fmp_run_explore_from.specs.Faults as faults;

use crate::begun::BegunFault;
use crate::fault::FromFault;
use crate::searching::found_from;
use fmp_run_devices::{Sink, Source, write_out};
use fmp_run_explore::{ExploreFault, Finding, Orders, SearchRequest, StepsAsker, asked_from};
use fmp_run_texts::RunFault;
use fmp_search::Progress;
use fmp_text::MOST_BYTES;
use std::alloc::Global;

/// Reads a configuration and scripts, goes through every order of what may happen by the rules of the request that goes on from the one whose trace
/// `begun` is, and writes whether one of them shows what its question asks.
///
/// An order is looked at from boot on: its first lines are those of `begun`, it has at most as many lines with them as the request says, and what is written of it
/// begins with them. A trace that is too long is refused before anything is read, and one that is no order's of these scripts once the texts
/// and the question were. For the rest it is as `run_explore`.
pub fn run_explore_from<R: Source, S: Source, W: Sink, P: Progress>(
    alloc: Global,
    config: &mut R,
    scripts: &mut S,
    begun: &[u8],
    output: &mut W,
    request: &SearchRequest<'_>,
    progress: &mut P,
) -> Result<Finding, FromFault>
    requires config_calls { R.failures config.old < 2 ^ 64 - 1 }
    requires script_calls { S.failures scripts.old < 2 ^ 64 - 1 }
    requires output_calls { W.failures output.old < 2 ^ 64 - 1 }

    // What it owes to both texts, to its question and to its devices, whatever it writes.
    ensures owes { faults.OwesSearchFrom (λ text. faults.IsQuestionFault text request.now.question.now)
        (source_ends R.left R.failures config.old config.new) (source_ends S.left S.failures scripts.old scripts.new)
        (sink_ends W.written W.buffered W.failures output.old output.new) result }

    // What it writes: what is known of all orders that go on from the trace.
    ensures writes { WritesOut (λ c s. IsExploredFrom c s begun.now request.now.question.now request.now.rules request.now.bounds.turns.count
        (request.now.bounds.places.count - 1))
        (λ c s. IsBegunFrom c s begun.now request.now.question.now request.now.rules request.now.bounds.turns.count (request.now.bounds.places.count - 1))
        (FromFault.Explore (ExploreFault.Run RunFault.Write))
        (source_ends R.left R.failures config.old config.new) (source_ends S.left S.failures scripts.old scripts.new)
        (sink_ends W.written W.buffered W.failures output.old output.new) result }

    // Less is known than was asked for, with room that is left, only where the search was ended.
    ensures ended { IfOk result (IsEndedBy (P.over progress.new)) }

    // A line of the trace that no order has is the first one.
    ensures stray { IsKnown (R.left config.old) → IsKnown (S.left scripts.old)
        → IfErr result (faults.IsStrayFault (bytes_of (R.left config.old)) (bytes_of (S.left scripts.old)) request.now.rules begun.now) }

    // A trace is too long whatever the texts are.
    ensures long { (result ≡ Err FromFault.Long) ↔ (most_bytes < length begun.now) }
{
    if begun.len() > MOST_BYTES {
        return Err(FromFault::Long);
    }
    let asker = StepsAsker {
        text: request.question,
    };
    let asked = match asked_from(alloc, &asker, config, scripts) {
        Ok(asked) => asked,
        Err(fault) => return Err(FromFault::Explore(fault)),
    };
    let orders = Orders {
        config: &asked.config,
        scripts: &asked.scripts,
        rules: request.rules,
    };
    let (question, bounds) = (&asked.question, request.bounds);
    let (finding, text) = match found_from(alloc, &orders, begun, question, progress, bounds) {
        Ok(found) => found,
        Err(BegunFault::Memory) => return Err(FromFault::Explore(ExploreFault::Run(
            RunFault::Memory,
        ))),
        Err(BegunFault::Stray(line)) => return Err(FromFault::Stray(line)),
    };
    progress.end();
    match write_out(output, text.as_slice()) {
        Ok(()) => Ok(finding),
        Err(_) => Err(FromFault::Explore(ExploreFault::Run(RunFault::Write))),
    }
}
