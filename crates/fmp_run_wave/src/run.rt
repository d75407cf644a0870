//! The run that draws a trace.
ghost use Rattle.std.specs.Prelude.{◌≡◌, ℕ, ◌+◌, ◌-◌, ◌^◌, ◌<◌, ◌++◌, [], OnOk, OnErr, IfErr, Ok, Err, if◌then◌else◌};
ghost use Rattle.fmp_trace_check.specs.Checking.{Judges};
ghost use Rattle.fmp_run_texts.specs.Traces.{FirstTraceFault};
ghost use Rattle.fmp_run_devices.specs.Devices.{BeginsWith, IsKnown, bytes_of};
ghost use Rattle.fmp_run_devices.specs.Ends.{sink_ends, source_ends};
ghost use Rattle.fmp_run_texts.specs.Faults.{failed_write};
ghost use Rattle.fmp_run_texts.specs.Owed.{OwesTrace};
ghost use Rattle.fmp_run_wave.specs.Runs.{WritesWave};

use crate::drawing::Drawing;
use fmp_rules::Config;
use fmp_run_devices::{Sink, Source, write_out};
use fmp_run_texts::{Judge, Reader, RunFault, judged_texts};
use fmp_trace_check::{Verdict, check_watched};
use std::alloc::Global;

/// The verdict on a trace, and what was drawn of it.
#[derive(Drop)]
struct Judged {
    verdict: Verdict,
    wave: Vec<u8>,
}

/// Judges and draws a trace in one walk. What was drawn is kept.
struct Drawer;

impl Reader for Drawer {
    ghost use Rattle.fmp_run_texts.specs.Traces.{IsFirstOfTrace, IsOfMachine};
    ghost use Rattle.fmp_run_wave.specs.Runs.{JudgesAndDraws};

    type Out = Judged;

    ghost says = { λ _ c text judged. JudgesAndDraws c text judged.verdict judged.wave.items };

    ghost is_fault = { λ _ c. IsFirstOfTrace c.names };

    ghost verdict = { λ _ judged. judged.verdict };

    ghost accepts = { λ _. IsOfMachine };

    fn read(&self, alloc: Global, config: &Config, text: Vec<u8>) -> Result<Judged, RunFault> {
        let mut drawing = Drawing::new(alloc, config)?;
        match check_watched(alloc, config, text.as_slice(), &mut drawing) {
            Ok(verdict) => {
                let wave = drawing.into_wave()?;
                Ok(Judged { verdict, wave })
            }
            Err(fault) => Err(RunFault::Text(fault)),
        }
    }
}

impl Judge for Drawer {
    ghost own = { λ _ c text events prints. (events, prints) };
}

/// Writes what was drawn of a trace that is the machine's own, and holds none of it back.
fn write_drawn<W: Sink>(judged: &Judged, wave: &mut W) -> Result<(), RunFault>
    requires calls { W.failures wave.old < 2 ^ 64 - 1 }
    ensures known { IsKnown (W.written wave.old) → IsKnown (W.written wave.new) }
    ensures yes { IsKnown (W.written wave.old)
        → OnOk result (judged.now.verdict ≡ Verdict.Yes → bytes_of (W.written wave.new) ≡ bytes_of (W.written wave.old) ++ judged.now.wave.items) }
    ensures no { IsKnown (W.written wave.old)
        → OnOk result ((n : ℕ) → judged.now.verdict ≡ Verdict.No n → bytes_of (W.written wave.new) ≡ bytes_of (W.written wave.old)) }
    ensures begun { IsKnown (W.written wave.old)
        → OnErr result ((judged.now.verdict ≡ Verdict.Yes) × BeginsWith (bytes_of (W.written wave.old)) judged.now.wave.items (bytes_of (W.written wave.new))) }
    ensures passed { OnOk result (judged.now.verdict ≡ Verdict.Yes → W.buffered wave.new ≡ []) }
    ensures none_held { W.buffered wave.old ≡ [] → OnOk result (W.buffered wave.new ≡ []) }
    ensures kinds { IfErr result (λ fault. fault ≡ RunFault.Write) }
    ensures writes { W.failures wave.new ≡ W.failures wave.old + (if failed_write result then 1 else 0) }
{
    match judged.verdict {
        Verdict::No(_) => Ok(()),
        Verdict::Yes => {
            write_out(wave, judged.wave.as_slice())?;
            Ok(())
        }
    }
}

/// Reads a configuration and a trace, and writes the waveform of the trace, if it is what the machine answers to its events.
/// Of another trace nothing is written, and the verdict says which line is the first that differs.
///
/// docs/FORMATS.md has the form of a waveform.
#[inline(never)]
pub fn run_wave<R: Source, S: Source, W: Sink>(
    alloc: Global,
    config: &mut R,
    trace: &mut S,
    wave: &mut W,
) -> Result<Verdict, RunFault>
    requires config_calls { R.failures config.old < 2 ^ 64 - 1 }
    requires trace_calls { S.failures trace.old < 2 ^ 64 - 1 }
    requires wave_calls { W.failures wave.old < 2 ^ 64 - 1 }

    // What it owes to both texts and to its devices, whatever it writes.
    ensures owes { OwesTrace FirstTraceFault (source_ends R.left R.failures config.old config.new) (source_ends S.left S.failures trace.old trace.new)
        (sink_ends W.written W.buffered W.failures wave.old wave.new) result }

    // What it writes: the waveform of a trace that is the machine's own.
    ensures writes { WritesWave (source_ends R.left R.failures config.old config.new) (source_ends S.left S.failures trace.old trace.new)
        (sink_ends W.written W.buffered W.failures wave.old wave.new) result }
{
    let (_config, judged) = judged_texts(alloc, &Drawer, config, trace)?;
    write_drawn(&judged, wave)?;
    Ok(judged.verdict)
}
