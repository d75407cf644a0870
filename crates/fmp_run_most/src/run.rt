//! The run for what sizes a system, from bytes to bytes.
ghost use Rattle.std.specs.Prelude.{◌-◌, ◌<◌, ◌^◌, IfOk};
ghost use Rattle.fmp_run_devices.specs.Ends.{sink_ends, source_ends};
ghost use Rattle.fmp_run_texts.specs.Owed.{OwesTexts, WritesOut};
ghost use Rattle.fmp_run_texts.specs.Texts.{FirstConfigFault, FirstScriptFault};
ghost use Rattle.fmp_run_most.specs.Runs.{IsBegun, IsTable, IsTold};

use crate::settling::{Reach, settled};
use crate::sizing::Sizing;
use crate::table::table;
use crate::things::figures_of;
use fmp_ranges::Bounds;
use fmp_rules::Config;
use fmp_run_devices::{Sink, Source, write_out};
use fmp_run_texts::{RunFault, ScriptReader, texts_from};
use fmp_search::Progress;
use fmp_search_orders::Rules;
use fmp_search_pattern::Question;
use fmp_text_scripts::Scripts;
use std::alloc::{AllocError, Global};

/// The table of a machine and its scripts, and of which orders it tells. The error is want of memory.
fn told<P: Progress>(
    alloc: Global,
    config: &Config,
    scripts: &Scripts,
    rules: Rules,
    bounds: Bounds,
    progress: &mut P,
) -> Result<(Vec<u8>, Reach), AllocError>
    ensures { IfOk result (λ r. IsTable config.now scripts.now rules bounds.turns.count (bounds.places.count - 1) (P.over progress.new) r.0.items r.1) }
{
    let none = Question::new(Vec::new(alloc));
    let figures = figures_of(alloc, config)?;
    let sizing = Sizing {
        config,
        scripts,
        rules,
        none: &none,
        figures: &figures,
    };
    let (most, reach) = settled(alloc, &sizing, progress, bounds)?;
    let text = table(
        alloc,
        config,
        matches!(reach, Reach::Whole),
        &figures,
        &most,
    )?;
    Ok((text, reach))
}

/// Reads a configuration and scripts, goes through every order of what may happen by these rules, and writes how far each figure goes.
///
/// It looks at orders of at most as many lines, and has room for as many places as the bounds say. It tells `progress` how far it has come, which may end it.
pub fn run_most<R: Source, S: Source, W: Sink, P: Progress>(
    alloc: Global,
    config: &mut R,
    scripts: &mut S,
    output: &mut W,
    rules: Rules,
    bounds: Bounds,
    progress: &mut P,
) -> Result<Reach, RunFault>
    requires config_calls { R.failures config.old < 2 ^ 64 - 1 }
    requires script_calls { S.failures scripts.old < 2 ^ 64 - 1 }
    requires output_calls { W.failures output.old < 2 ^ 64 - 1 }

    // What it owes to both texts and to its devices, whatever it writes.
    ensures owes { OwesTexts FirstConfigFault FirstScriptFault
        (source_ends R.left R.failures config.old config.new) (source_ends S.left S.failures scripts.old scripts.new)
        (sink_ends W.written W.buffered W.failures output.old output.new) result result }

    // What it writes: the table of the one text's machine, by the other's scripts.
    ensures writes { WritesOut (λ c s. IsTold c s rules bounds.turns.count (bounds.places.count - 1) (P.over progress.new))
        (λ c s. IsBegun c s rules bounds.turns.count (bounds.places.count - 1) (P.over progress.new)) RunFault.Write
        (source_ends R.left R.failures config.old config.new) (source_ends S.left S.failures scripts.old scripts.new)
        (sink_ends W.written W.buffered W.failures output.old output.new) result }
{
    let (machine, list) = match texts_from(alloc, &ScriptReader, config, scripts) {
        Ok(texts) => texts,
        Err(fault) => return Err(fault),
    };
    let (text, reach) = match told(alloc, &machine, &list, rules, bounds, progress) {
        Ok(told) => told,
        Err(_) => return Err(RunFault::Memory),
    };
    progress.end();
    match write_out(output, text.as_slice()) {
        Ok(()) => Ok(reach),
        Err(_) => Err(RunFault::Write),
    }
}
