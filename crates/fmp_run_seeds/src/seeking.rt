//! One seed after the other, up to the first whose run is looked for.
ghost use Rattle.std.specs.Prelude.{◌≡◌, ◌≤◌, ◌<◌, ◌^◌, ◌&&◌, ◌==◌, not, None, List, length, IfOk, IfSome, OnOk};
ghost use Rattle.fmp_codes.specs.Records.{AreOn};
ghost use Rattle.fmp_rules.specs.Arrivals.{numbered};
ghost use Rattle.fmp_rules.specs.Boot.{booted};
ghost use Rattle.fmp_rules.specs.Step.{answers};
ghost use Rattle.fmp_search_pattern.specs.declared.question.Step.{Step};
ghost use Rattle.fmp_trace.specs.Lines.{lines_from};
ghost use Rattle.fmp_text_scripts.specs.Scripts.{AreInBits};
ghost use Rattle.fmp_run_seeds.specs.Found as spec;
ghost use Rattle.fmp_run_seeds.specs.Found.{IsAt, IsEndedBy, Seeks};

use crate::orders::{SeedOrder, SeedRuns, events_of, is_quiet, run_of_seed};
use crate::progress::SeedProgress;
use fmp_codes::{Answer, Event, Proc, Record};
use fmp_kernel::Kernel;
use fmp_rules::Config;
use fmp_run_explore::Asked;
use fmp_run_texts::Status;
use fmp_search_pattern::Question;
use fmp_search_shrink::shown_at;
use fmp_show_state::put_waiting;
use fmp_smp::run_seeded;
use fmp_text_scripts::Scripts;
use fmp_trace::put_line;
use std::alloc::{AllocError, Global};

/// A seed whose run is looked for.
#[derive(Drop)]
pub struct SeedFound {
    pub seed: u64,
    /// The line of its trace that shows what is asked, and without a question its last one.
    pub line: usize,
    /// A line for each task that waits after that line.
    pub waiting: Vec<u8>,
}

/// What came of the runs of seeds.
#[derive(Drop)]
pub enum SeedSearch {
    /// The run of this seed is looked for, and no earlier one's.
    Found(SeedFound),
    /// No run of these seeds is.
    Passed,
    /// The search was ended after the run of this seed. None is up to it.
    Ended(u64),
}

impl SeedSearch {
    ghost use Rattle.std.specs.Prelude.{◌≡◌};
    ghost use Rattle.fmp_run_seeds.specs.Found as spec;

    /// How the program ends after it, where a question was asked or was not.
    pub fn status(&self, asked: bool) -> Status
        ensures { result ≡ spec.status_of asked self.now }
    {
        match self {
            SeedSearch::Found(_) if asked => Status::Different,
            SeedSearch::Found(_) => Status::Waiting,
            SeedSearch::Passed => Status::Done,
            SeedSearch::Ended(_) => Status::Limit,
        }
    }
}

/// A line for each task that waits after these events. The error is want of memory.
fn waiting_after(alloc: Global, config: &Config, events: &[Event]) -> Result<Vec<u8>, AllocError>
    requires { AreOn config.now.processors events.now }
    ensures { IfOk result (λ v. v.items ≡ spec.waiting_after config.now events.now) }
{
    let mut kernel = Kernel::boot(config)?;
    let mut report = Record::answer(Event::Tick(Proc::new(1)), None, Answer::Nothing);
    for event in events {
        kernel.step_into(*event, &mut report);
    }
    let mut waiting = Vec::new(alloc);
    put_waiting(&mut waiting, config.names(), kernel.machine())?;
    Ok(waiting)
}

/// After how many events a run is what is looked for. The error is want of memory.
fn place_in(
    alloc: Global,
    config: &Config,
    question: &Option<Question>,
    runs: SeedRuns,
    events: &[Event],
    is_quiet: bool,
) -> Result<Option<usize>, AllocError>
    requires short { IfSome question.now (λ q. length q ≤ 255) }
    requires on { AreOn config.now.processors events.now }
    requires few { length events.now < 2 ^ 32 }
    ensures { IfOk result (IsAt runs config.now question.now events.now is_quiet) }
{
    if let Some(question) = question {
        return shown_at(config, runs.rules(), question, events);
    }
    if !is_quiet {
        return Ok(None);
    }
    let waiting = waiting_after(alloc, config, events)?;
    if waiting.is_empty() {
        Ok(None)
    } else {
        Ok(Some(events.len()))
    }
}

/// The events of the run of a seed in which processors take turns, if it ends quiet while a task waits. The error is want of memory.
fn stuck_in_turn(
    alloc: Global,
    config: &Config,
    scripts: &Scripts,
    runs: SeedRuns,
    seed: u64,
) -> Result<Option<Vec<Event>>, AllocError>
    requires in_turn { runs.order ≡ SeedOrder.InTurn }
    ensures { IfOk result (spec.Reaches runs config.now scripts.now None seed) }
{
    let (ticks, turns) = (runs.limits.ticks.count, runs.limits.turns.count);
    let run = run_seeded(alloc, config, scripts, ticks, turns, seed)?;
    let mut waiting = Vec::new(alloc);
    put_waiting(&mut waiting, config.names(), run.history.last().machine())?;
    let lines = waiting.as_slice();
    if !is_quiet(run.ended) || lines.is_empty() {
        return Ok(None);
    }
    Ok(Some(events_of(alloc, &run.history)?))
}

/// The events of the run of a seed up to where it is what is looked for, if it is. The error is want of memory.
fn reached(
    alloc: Global,
    config: &Config,
    scripts: &Scripts,
    question: &Option<Question>,
    runs: SeedRuns,
    seed: u64,
) -> Result<Option<Vec<Event>>, AllocError>
    requires short { IfSome question.now (λ q. length q ≤ 255) }
    ensures { IfOk result (spec.Reaches runs config.now scripts.now question.now seed) }
{
    if let (None, SeedOrder::InTurn) = (question, runs.order) {
        return stuck_in_turn(alloc, config, scripts, runs, seed);
    }
    let mut run = run_of_seed(alloc, config, scripts, runs, seed)?;
    let events = run.events.as_slice();
    let found = place_in(alloc, config, question, runs, events, run.is_quiet)?;
    let Some(at) = found else {
        return Ok(None);
    };
    run.events.truncate(at);
    Ok(Some(run.events))
}

/// The trace of what the machine answers to these events. The error is want of memory.
fn traced(alloc: Global, config: &Config, events: &[Event]) -> Result<Vec<u8>, AllocError>
    requires on { AreOn config.now.processors events.now }
    requires few { length events.now < 2 ^ 32 }
    ensures { IfOk result (λ v. v.items ≡ lines_from config.now.names 1 (answers numbered (booted config.now) events.now)) }
{
    let names = config.names();
    let mut kernel = Kernel::boot(config)?;
    let mut report = Record::answer(Event::Tick(Proc::new(1)), None, Answer::Nothing);
    let mut text = Vec::new(alloc);
    let mut n: u32 = 0;
    for event in events {
        kernel.step_into(*event, &mut report);
        n += 1;
        put_line(&mut text, names, n, &report)?;
    }
    Ok(text)
}

/// What the run of a seed comes to: if it is looked for, that, and its trace up to there. The error is want of memory.
fn found_by(
    alloc: Global,
    config: &Config,
    scripts: &Scripts,
    question: &Option<Question>,
    runs: SeedRuns,
    seed: u64,
) -> Result<Option<(SeedFound, Vec<u8>)>, AllocError>
    requires short { IfSome question.now (λ q. length q ≤ 255) }
    requires in_bits { AreInBits scripts.now }
    ensures { IfOk result (spec.Tries runs config.now scripts.now question.now seed) }
{
    let names = config.names();
    names.validity();
    let Some(front) = reached(alloc, config, scripts, question, runs, seed)? else {
        return Ok(None);
    };
    let events = front.as_slice();
    let text = traced(alloc, config, events)?;
    let waiting = waiting_after(alloc, config, events)?;
    let line = events.len();
    Ok(Some((
        SeedFound {
            seed,
            line,
            waiting,
        },
        text,
    )))
}

/// The first of the seeds whose run is looked for, if there is one, and what is written of it. At least the first is played. The error is want of
/// memory.
pub(crate) fn sought<P: SeedProgress>(
    alloc: Global,
    asked: &Asked<Option<Question>>,
    runs: SeedRuns,
    first: u64,
    last: u64,
    progress: &mut P,
) -> Result<(SeedSearch, Vec<u8>), AllocError>
    requires short { IfSome asked.now.question (λ q. length q ≤ 255) }
    requires in_bits { AreInBits asked.now.scripts }
    ensures seeks { IfOk result (λ r. Seeks runs asked.now.config asked.now.scripts asked.now.question first last r.1.items r.0) }
    ensures ended { IfOk result (λ r. IsEndedBy (P.over progress.new) r.0) }
{
    if last < first {
        return Ok((SeedSearch::Passed, Vec::new(alloc)));
    }
    let (config, scripts) = (&asked.config, &asked.scripts);
    for seed in first..last {
        progress.tell(seed);
        if let Some((found, text)) = found_by(
            alloc,
            config,
            scripts,
            &asked.question,
            runs,
            seed,
        )? {
            return Ok((SeedSearch::Found(found), text));
        }
        if progress.is_over() {
            return Ok((SeedSearch::Ended(seed), Vec::new(alloc)));
        }
    }
    progress.tell(last);
    match found_by(alloc, config, scripts, &asked.question, runs, last)? {
        Some((found, text)) => Ok((SeedSearch::Found(found), text)),
        None => Ok((SeedSearch::Passed, Vec::new(alloc))),
    }
}
