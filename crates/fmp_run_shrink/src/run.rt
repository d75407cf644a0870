//! The run that leaves events out, from bytes to bytes.
ghost use Rattle.std.specs.Prelude.{◌-◌, ◌≤◌, ◌<◌, ◌^◌, IfOk, length, vec_len, All};
ghost use Rattle.fmp_run_devices.specs.Ends.{sink_ends, source_ends};
ghost use Rattle.fmp_run_texts.specs.Owed.{WritesOut};
ghost use Rattle.fmp_run_explore.specs.Faults.{OwesSearch};
ghost use Rattle.fmp_calls.specs.Arguments.{EventInBits};
ghost use Rattle.fmp_codes.specs.Records.{AreOn};
ghost use Rattle.fmp_run_explore.specs.Faults as faults;
ghost use Rattle.fmp_text.specs.Limits.{most_events};
ghost use Rattle.fmp_run_shrink.specs.Faults.{IsEventFault};
ghost use Rattle.fmp_run_shrink.specs.Shrunk.{IsBegun, IsShrunkOut, Leaves};

use crate::events::EventReader;
use crate::events_text;
use crate::finding::Shrinking;
use fmp_codes::Event;
use fmp_rules::Config;
use fmp_run_devices::{Sink, Source, write_out};
use fmp_run_explore::{ExploreFault, question_from};
use fmp_run_texts::{RunFault, texts_from};
use fmp_search_pattern::Question;
use fmp_search_shrink::shrink;
use std::alloc::{AllocError, Global};

/// What is left of these events, and the text that tells it. The error is want of memory.
fn left_of(
    alloc: Global,
    config: &Config,
    question: &Question,
    events: Vec<Event>,
    runs: bool,
) -> Result<(Shrinking, Vec<u8>), AllocError>
    requires short { length question.now ≤ 255 }
    requires on { AreOn config.now.processors events.items }
    requires in_bits { All EventInBits events.items }
    requires few { vec_len events ≤ most_events }
    ensures { IfOk result (λ r. Leaves config.now question.now runs events.items r.1.items r.0) }
{
    match shrink(alloc, config, question, events, runs)? {
        None => Ok((Shrinking::NotShown, Vec::new(alloc))),
        Some(left) => {
            let text = events_text(alloc, config.names(), left.as_slice())?;
            Ok((Shrinking::Shrunk, text))
        }
    }
}

/// Reads a configuration and a list of events, and writes what is left of the events where none of them can go without that what the
/// question asks is no longer shown. Where runs are to be kept, each task and handler makes only calls that it makes where all events are
/// given, in its own order of them.
pub fn run_shrink<R: Source, S: Source, W: Sink>(
    alloc: Global,
    config: &mut R,
    events: &mut S,
    output: &mut W,
    question: &[u8],
    runs: bool,
) -> Result<Shrinking, ExploreFault>
    requires config_calls { R.failures config.old < 2 ^ 64 - 1 }
    requires event_calls { S.failures events.old < 2 ^ 64 - 1 }
    requires output_calls { W.failures output.old < 2 ^ 64 - 1 }

    // What it owes to both texts, to its question and to its devices, whatever it writes.
    ensures owes { OwesSearch IsEventFault (λ text. faults.IsQuestionFault text question.now)
        (source_ends R.left R.failures config.old config.new) (source_ends S.left S.failures events.old events.new)
        (sink_ends W.written W.buffered W.failures output.old output.new) result }

    // What it writes: the events that are left, as whoever reads it gets them.
    ensures writes { WritesOut (λ c es. IsShrunkOut c es question.now runs) (λ c es. IsBegun c es question.now runs)
        (ExploreFault.Run RunFault.Write)
        (source_ends R.left R.failures config.old config.new) (source_ends S.left S.failures events.old events.new)
        (sink_ends W.written W.buffered W.failures output.old output.new) result }
{
    let (machine, list) = match texts_from(alloc, &EventReader, config, events) {
        Ok(texts) => texts,
        Err(fault) => return Err(ExploreFault::Run(fault)),
    };
    let asked = match question_from(alloc, machine.names(), question) {
        Ok(asked) => asked,
        Err(fault) => return Err(fault),
    };
    let (finding, text) = match left_of(alloc, &machine, &asked, list, runs) {
        Ok(left) => left,
        Err(_) => return Err(ExploreFault::Run(RunFault::Memory)),
    };
    match write_out(output, text.as_slice()) {
        Ok(()) => Ok(finding),
        Err(_) => Err(ExploreFault::Run(RunFault::Write)),
    }
}
