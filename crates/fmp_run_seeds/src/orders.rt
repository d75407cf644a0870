//! The runs of seeds.
ghost use Rattle.std.specs.Prelude.{◌≡◌, Bool, List, length, IfOk};
ghost use Rattle.fmp_smp_histories.specs.Histories as histories;
ghost use Rattle.fmp_run_seeds.specs.Orders as spec;
ghost use Rattle.fmp_run_seeds.specs.Orders.{AreOfSeed};

use fmp_codes::{Answer, Event, Proc, Record};
use fmp_ranges::Limits;
use fmp_rules::Config;
use fmp_search_orders::Rules;
use fmp_search_random::{Drawing, draw_order};
use fmp_smp::run_seeded;
use fmp_text_scripts::Scripts;
use fmp_world::{Ended, History};
use std::alloc::{AllocError, Global};

/// How the events of a seed's run come one after the other.
#[derive(Clone, Copy)]
pub enum SeedOrder {
    /// Processors and the clock take turns in an order that the seed determines. A request is taken before its processor's next call.
    InTurn,
    /// The seed draws one of all orders.
    Drawn(Drawing),
}

/// Which runs seeds make.
#[derive(Clone, Copy)]
pub struct SeedRuns {
    pub order: SeedOrder,
    pub limits: Limits,
}

/// A run of a seed.
#[derive(Drop)]
pub(crate) struct SeedRun {
    pub(crate) events: Vec<Event>,
    /// Whether nothing was left to do after them.
    pub(crate) is_quiet: bool,
}

impl SeedRuns {
    /// When the line `end` stands in such a run.
    pub(crate) fn rules(self) -> Rules
        ensures { result ≡ spec.rules_of self.order self.limits.ticks.count }
    {
        match self.order {
            SeedOrder::InTurn => Rules {
                ticks: Some(self.limits.ticks.count),
                prompt: true,
                drift: None,
                pace: None,
                spurious: false,
            },
            SeedOrder::Drawn(drawing) => drawing.rules(self.limits.ticks),
        }
    }
}

/// Whether nothing was left to do at the end of a run.
pub(crate) fn is_quiet(ended: Ended) -> bool
    ensures { result ≡ spec.is_quiet ended }
{
    match ended {
        Ended::Quiet => true,
        Ended::Limit => false,
    }
}

/// The events of a history, whose records are made again one after the other. The error is want of memory.
pub(crate) fn events_of(alloc: Global, history: &History<'_>) -> Result<Vec<Event>, AllocError>
    ensures { IfOk result (λ v. v.items ≡ histories.events_of history.now.records) }
{
    let mut replay = history.replay(alloc)?;
    let mut report = Record::answer(Event::Tick(Proc::new(1)), None, Answer::Nothing);
    let mut events = Vec::new(alloc);
    while replay.next(&mut report) {
        events.push(report.event)?;
    }
    Ok(events)
}

/// The run of a seed in which processors take turns. The error is want of memory.
fn run_in_turn(
    alloc: Global,
    config: &Config,
    scripts: &Scripts,
    limits: Limits,
    seed: u64,
) -> Result<SeedRun, AllocError>
    ensures { IfOk result (λ r. AreOfSeed SeedOrder.InTurn seed config.now scripts.now limits.ticks.count limits.turns.count r.events.items r.is_quiet) }
{
    let (ticks, turns) = (limits.ticks.count, limits.turns.count);
    let run = run_seeded(alloc, config, scripts, ticks, turns, seed)?;
    let events = events_of(alloc, &run.history)?;
    Ok(SeedRun {
        events,
        is_quiet: is_quiet(run.ended),
    })
}

/// The run of a seed. The error is want of memory.
pub(crate) fn run_of_seed(
    alloc: Global,
    config: &Config,
    scripts: &Scripts,
    runs: SeedRuns,
    seed: u64,
) -> Result<SeedRun, AllocError>
    ensures { IfOk result (λ r. AreOfSeed runs.order seed config.now scripts.now runs.limits.ticks.count runs.limits.turns.count r.events.items r.is_quiet) }
{
    match runs.order {
        SeedOrder::InTurn => run_in_turn(alloc, config, scripts, runs.limits, seed),
        SeedOrder::Drawn(drawing) => {
            let order = draw_order(alloc, config, scripts, drawing, runs.limits, seed)?;
            Ok(SeedRun {
                events: order.events,
                is_quiet: order.is_quiet,
            })
        }
    }
}
