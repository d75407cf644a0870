//! The run that tells what of some things changed, each change as its event comes.
ghost use Rattle.std.specs.Prelude.{◌≡◌, true, OnOk, ◌-◌, ◌^◌, ◌<◌, IfOk, IfErr};
ghost use Rattle.fmp_show_changes.specs.Life.Choosing.{IsChosen};
ghost use Rattle.fmp_run_devices.specs.Ends.{passing_ends, sink_ends, source_ends};
ghost use Rattle.fmp_run_devices.specs.Hearing.{Moves, Passes};
ghost use Rattle.fmp_run_events.specs.Lives.{OwesLife, WritesLife};
ghost use Rattle.fmp_run_events.specs.NameFaults as faults;

use crate::calls::answer_text;
use fmp_names::Names;
use fmp_run_devices::{Sink, Source};
use fmp_run_stream::Detail;
use fmp_run_texts::{RunFault, config_from};
use fmp_show_changes::{Life, NameFault, chosen};
use std::alloc::Global;

/// Why a run that tells what of some things changed did not go to its end.
#[derive(Drop)]
pub enum LifeFault {
    /// A text has a fault, a device failed, or memory ran out.
    Run(RunFault),
    /// The name of this number, from 0, is the first one that names nothing in the configuration.
    Name(usize),
}

/// The things that a list of names names.
fn chosen_from(alloc: Global, names: &Names, list: &[u8]) -> Result<Life, LifeFault>
    ensures things { IfOk result (IsChosen names.now list.now) }
    ensures fault { IfErr result (faults.IsUnchosen names.now list.now) }
{
    match chosen(alloc, names, list) {
        Ok(life) => Ok(life),
        Err(NameFault::Memory) => Err(LifeFault::Run(RunFault::Memory)),
        Err(NameFault::Unknown(index)) => Err(LifeFault::Name(index)),
    }
}

/// Reads a configuration and events, and writes what is told at boot of the things that are named between commas, and then each line of
/// the trace whose event changes that, and below it the lines of the things of which something changed, each as its event comes.
/// docs/FORMATS.md has the form of these lines.
///
/// No list of events or of records is kept.
pub fn run_life<R: Source, S: Source, W: Sink>(
    alloc: Global,
    config: &mut R,
    events: &mut S,
    names: &[u8],
    trace: &mut W,
) -> Result<(), LifeFault>
    requires config_calls { R.failures config.old < 2 ^ 64 - 1 }
    requires event_calls { S.failures events.old < 2 ^ 64 - 1 }
    requires trace_calls { W.failures trace.old < 2 ^ 64 - 1 }

    // It reads the events as they come, and to their end where it goes to its own.
    ensures moves { Moves (S.given events.old) (S.given events.new) (S.left events.old) (S.left events.new) }
    ensures end { OnOk result (S.ended events.new ≡ true) }

    // What it owes to both texts, to the names and to its devices, whatever it writes.
    ensures owes { (p : Passes (S.given events.old) (S.given events.new) (S.ended events.new))
        → OwesLife names.now (source_ends R.left R.failures config.old config.new) (passing_ends p.all p.rest S.failures events.old events.new)
        (sink_ends W.written W.buffered W.failures trace.old trace.new) result }

    // What it writes: what is told of the things at boot, and each event that changes it.
    ensures writes { (p : Passes (S.given events.old) (S.given events.new) (S.ended events.new))
        → WritesLife names.now (source_ends R.left R.failures config.old config.new) (passing_ends p.all p.rest S.failures events.old events.new)
        (sink_ends W.written W.buffered W.failures trace.old trace.new) result }
{
    let machine = match config_from(alloc, config) {
        Ok(machine) => machine,
        Err(fault) => return Err(LifeFault::Run(fault)),
    };
    machine.names().validity();
    let life = match chosen_from(alloc, machine.names(), names) {
        Ok(life) => life,
        Err(fault) => return Err(fault),
    };
    match answer_text(alloc, Detail::Life(life), &machine, events, trace) {
        Ok(()) => Ok(()),
        Err(fault) => Err(LifeFault::Run(fault)),
    }
}
