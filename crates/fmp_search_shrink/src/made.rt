//! The calls in the answers to events, with who makes them.
ghost use Rattle.std.specs.Prelude.{◌≡◌, ◌++◌, IfOk, OnOk};
ghost use Rattle.fmp_codes.specs.Records.{AreOn};
ghost use Rattle.fmp_rules.specs.Arrivals.{numbered};
ghost use Rattle.fmp_rules.specs.Boot.{booted};
ghost use Rattle.fmp_rules.specs.Step.{answers};
ghost use Rattle.fmp_search_shrink.specs.Runners.{made_by, made_in};

use fmp_codes::{Answer, Call, Event, Proc, Record, Runner};
use fmp_kernel::Kernel;
use fmp_rules::Config;
use std::alloc::{AllocError, Global};

/// A call, and who makes it.
#[derive(Clone, Copy)]
pub struct Made {
    pub runner: Runner,
    pub call: Call,
}

/// Adds the call of a record, where somebody makes it.
fn put_made(all: &mut Vec<Made>, report: &Record) -> Result<(), AllocError>
    ensures { OnOk result (all.new.items ≡ all.old.items ++ made_by report.now.runner report.now.event) }
{
    if let (Some(runner), Event::Call(_, call)) = (report.runner, report.event) {
        all.push(Made { runner, call })?;
    }
    Ok(())
}

/// The calls in what a machine answers to these events, with who makes them. The error is want of memory.
pub fn made_calls(alloc: Global, config: &Config, events: &[Event]) -> Result<Vec<Made>, AllocError>
    requires { AreOn config.now.processors events.now }
    ensures { IfOk result (λ all. all.items ≡ made_in (answers numbered (booted config.now) events.now)) }
{
    let mut kernel = Kernel::boot(config)?;
    let mut report = Record::answer(Event::Tick(Proc::new(1)), None, Answer::Nothing);
    let mut all = Vec::new(alloc);
    for event in events {
        kernel.step_into(*event, &mut report);
        put_made(&mut all, &report)?;
    }
    Ok(all)
}
