//! The run of processors that follow scripts: each in a thread of its own, or all in an order that a seed determines.
ghost use Rattle.std.specs.Prelude.{◌≡◌, ◌+◌, ◌-◌, ◌≤◌, ◌^◌, ◌<◌, map, IfOk, IfErr, IfSome, false};
ghost use Rattle.fmp_run_devices.specs.Ends.{sink_ends, source_ends};
ghost use Rattle.fmp_run_texts.specs.Owed.{OwesTexts, WritesOut};
ghost use Rattle.fmp_smp.specs.Rounds.{TicksInTurn};
ghost use Rattle.fmp_world.specs.Ends.{IsSmpRun};
ghost use Rattle.fmp_run_texts.specs.Faults.{is_config, is_read, is_thread_fault, is_text, is_write};
ghost use Rattle.fmp_run_texts.specs.Texts.{FirstConfigFault, FirstScriptFault};
ghost use Rattle.fmp_run_smp.specs.Scripted as spec;
ghost use Rattle.fmp_run_smp.specs.Scripted.{InOrder, IsPlayBegun, IsPlayed, IsPlayedToEnd};

use crate::ending::{SmpEnd, write_history};
use fmp_ranges::{Limits, Ticks, Turns};
use fmp_rules::Config;
use fmp_run_devices::{Sink, Source};
use fmp_run_texts::{RunFault, ScriptReader, texts_from};
use fmp_smp::{Gate, SmpFault, run_seeded, run_smp};
use fmp_text_scripts::Scripts;
use fmp_world::{Ended, SmpRun};
use std::alloc::Global;
use std::sync::Wait;
use std::thread::Threads;

/// The run's fault where the processors made no run.
fn run_fault(fault: SmpFault) -> RunFault
    ensures { result ≡ spec.smp_fault_of fault }
{
    match fault {
        SmpFault::Memory => RunFault::Memory,
        SmpFault::Start => RunFault::Start,
        SmpFault::Disagree => RunFault::Disagree,
    }
}

/// Runs each processor in a thread of its own. Its frame is large, and a run in the order of a seed needs none of it.
#[inline(never)]
fn run_in_threads<'a, T: Threads + Wait + Sync, G: Gate + Sync>(
    rt: &T,
    alloc: Global,
    config: &'a Config,
    scripts: &'a Scripts,
    limits: Limits,
    gate: &G,
) -> Result<SmpRun<'a>, RunFault>
    ensures run { IfOk result (λ r. IsSmpRun config.entry.now scripts.entry.now limits.ticks.count limits.turns.count r.history.records
        (map (λ v. v.items) r.receipts.items) r.ended) }
    ensures ticked { IfOk result (λ r. TicksInTurn config.entry.now limits.ticks.count r.history.records) }
    ensures configured { IfOk result (λ r. r.history.config ≡ config.entry.now) }
    ensures kinds { IfErr result (λ fault. (is_config fault ≡ false) × (is_text fault ≡ false) × (is_read fault ≡ false) × (is_write fault ≡ false)) }
{
    let (ticks, turns) = (limits.ticks.count, limits.turns.count);
    match run_smp(rt, alloc, config, scripts, ticks, turns, gate) {
        Ok(run) => Ok(run),
        Err(fault) => Err(run_fault(fault)),
    }
}

/// Runs all processors on one thread in the order of the seed, or each in a thread of its own where none is given.
fn run_in_order<'a, T: Threads + Wait + Sync, G: Gate + Sync>(
    rt: &T,
    alloc: Global,
    config: &'a Config,
    scripts: &'a Scripts,
    limits: Limits,
    seed: Option<u64>,
    gate: &G,
) -> Result<SmpRun<'a>, RunFault>
    ensures run { IfOk result (λ r. IsSmpRun config.entry.now scripts.entry.now limits.ticks.count limits.turns.count r.history.records
        (map (λ v. v.items) r.receipts.items) r.ended) }
    ensures ordered { IfOk result (λ r. InOrder seed config.entry.now scripts.entry.now limits.ticks.count r.history.records) }
    ensures ticked { IfOk result (λ r. TicksInTurn config.entry.now limits.ticks.count r.history.records) }
    ensures configured { IfOk result (λ r. r.history.config ≡ config.entry.now) }
    ensures kinds { IfErr result (λ fault. (is_config fault ≡ false) × (is_text fault ≡ false) × (is_read fault ≡ false) × (is_write fault ≡ false)) }
    ensures no_thread_fault { IfSome seed (λ number. IfErr result (λ fault. is_thread_fault fault ≡ false)) }
{
    let Some(seed) = seed else {
        return run_in_threads(rt, alloc, config, scripts, limits, gate);
    };
    let (ticks, turns) = (limits.ticks.count, limits.turns.count);
    match run_seeded(alloc, config, scripts, ticks, turns, seed) {
        Ok(run) => Ok(run),
        Err(_) => Err(RunFault::Memory),
    }
}

/// Reads a configuration and scripts, has processors follow these, each in a thread of its own, and writes the trace of what happened. Where
/// a seed is given there are no threads, and the order is the one that it determines: the same texts and numbers give the same trace.
///
/// A clock gives each processor as many ticks as the limits say. The run ends where all are taken and no processor has anything left to do,
/// or where it has as many turns as they say. Who waits there is told.
pub fn run_scripts<T: Threads + Wait + Sync, R: Source, S: Source, W: Sink, G: Gate + Sync>(
    rt: &T,
    alloc: Global,
    config: &mut R,
    scripts: &mut S,
    trace: &mut W,
    limits: Limits,
    seed: Option<u64>,
    gate: &G,
) -> Result<SmpEnd, RunFault>
    requires config_calls { R.failures config.old < 2 ^ 64 - 1 }
    requires script_calls { S.failures scripts.old < 2 ^ 64 - 1 }
    requires trace_calls { W.failures trace.old < 2 ^ 64 - 1 }

    // What it owes to both texts and to its devices, whatever it writes.
    ensures owes { OwesTexts FirstConfigFault FirstScriptFault
        (source_ends R.left R.failures config.old config.new) (source_ends S.left S.failures scripts.old scripts.new)
        (sink_ends W.written W.buffered W.failures trace.old trace.new) result result }

    // What it writes: the trace of a run of the one text's machine by the other's scripts, in the order of the seed where one is given. The lines that
    // are told are those of the tasks that wait at the end of this run.
    ensures writes { WritesOut (λ c s old new end. IsPlayedToEnd seed c s limits.ticks.count limits.turns.count old new end.ended end.waiting.items)
        (λ c s. IsPlayBegun c s limits.ticks.count limits.turns.count) RunFault.Write
        (source_ends R.left R.failures config.old config.new) (source_ends S.left S.failures scripts.old scripts.new)
        (sink_ends W.written W.buffered W.failures trace.old trace.new) result }

    // With a seed no thread was started.
    ensures no_thread_fault { IfSome seed (λ number. IfErr result (λ fault. is_thread_fault fault ≡ false)) }
{
    let (machine, list) = texts_from(alloc, &ScriptReader, config, scripts)?;
    let run = run_in_order(rt, alloc, &machine, &list, limits, seed, gate)?;
    drop(run.receipts);
    let names = machine.names();
    names.validity();
    let waiting = write_history(alloc, names, &run.history, trace)?;
    Ok(SmpEnd {
        ended: run.ended,
        waiting,
    })
}

/// The run in threads, of which nothing is told but how it ended.
pub fn run_threads<T: Threads + Wait + Sync, R: Source, S: Source, W: Sink, G: Gate + Sync>(
    rt: &T,
    alloc: Global,
    config: &mut R,
    scripts: &mut S,
    trace: &mut W,
    ticks: u32,
    turns: u32,
    gate: &G,
) -> Result<Ended, RunFault>
    requires config_calls { R.failures config.old < 2 ^ 64 - 1 }
    requires script_calls { S.failures scripts.old < 2 ^ 64 - 1 }
    requires trace_calls { W.failures trace.old < 2 ^ 64 - 1 }
    requires ticks { ticks ≤ 1000000 }
    requires least { 1 ≤ turns }
    requires most { turns ≤ 1000000 }

    // What it owes to both texts and to its devices, whatever it writes.
    ensures owes { OwesTexts FirstConfigFault FirstScriptFault
        (source_ends R.left R.failures config.old config.new) (source_ends S.left S.failures scripts.old scripts.new)
        (sink_ends W.written W.buffered W.failures trace.old trace.new) result result }

    // What it writes: the trace of a run of the one text's machine by the other's scripts.
    ensures writes { WritesOut (λ c s. IsPlayed c s ticks turns) (λ c s. IsPlayBegun c s ticks turns) RunFault.Write
        (source_ends R.left R.failures config.old config.new) (source_ends S.left S.failures scripts.old scripts.new)
        (sink_ends W.written W.buffered W.failures trace.old trace.new) result }
{
    let limits = Limits {
        ticks: Ticks { count: ticks },
        turns: Turns { count: turns },
    };
    match run_scripts(rt, alloc, config, scripts, trace, limits, None, gate) {
        Ok(end) => Ok(end.ended),
        Err(fault) => Err(fault),
    }
}
