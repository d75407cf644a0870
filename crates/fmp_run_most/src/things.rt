//! The figures of a configuration, and their numbers at boot.
ghost use Rattle.std.specs.Prelude.{◌≡◌, ◌≤◌, ◌++◌, map, length, IfOk, OnOk};
ghost use Rattle.fmp_rules.specs.Boot.{boot};
ghost use Rattle.fmp_kernel_order.specs.Queues.{listed, no_queues};
ghost use Rattle.fmp_run_most.specs.Figures as spec;

use crate::figure::{Figure, Measure, value};
use fmp_kernel::Kernel;
use fmp_rules::Config;
use std::alloc::{AllocError, Global};

/// Adds the figures of one thing.
fn add_thing(figures: &mut Vec<Figure>, measures: &[Measure], number: u8) -> Result<(), AllocError>
    ensures { OnOk result (figures.new.items ≡ figures.old.items ++ spec.of_thing measures.now number) }
{
    for measure in measures {
        figures.push(Figure {
            measure: *measure,
            number,
        })?;
    }
    Ok(())
}

/// Adds those of so many things.
fn add_things(
    figures: &mut Vec<Figure>,
    measures: &[Measure],
    count: usize,
) -> Result<(), AllocError>
    requires { count ≤ 64 }
    ensures { OnOk result (figures.new.items ≡ figures.old.items ++ spec.of_things measures.now count) }
{
    for at in 0..count {
        add_thing(figures, measures, at as u8 + 1)?;
    }
    Ok(())
}

/// All figures of a configuration, in the order in which they are told. The error is want of memory.
pub(crate) fn figures_of(alloc: Global, config: &Config) -> Result<Vec<Figure>, AllocError>
    ensures figures { IfOk result (λ v. v.items ≡ spec.figures_of config.now) }
    ensures few { IfOk result (λ v. length v.items ≤ 1024) }
{
    let mut figures = Vec::new(alloc);
    let processors = usize::from(config.processors());
    add_things(&mut figures, &[Measure::Ready], processors)?;
    let task = [Measure::Activations, Measure::Wakeups];
    add_things(&mut figures, &task, config.tasks().len())?;
    let semaphore = [
        Measure::LeastCount,
        Measure::MostCount,
        Measure::SemaphoreWaits,
    ];
    add_things(&mut figures, &semaphore, config.semaphores().len())?;
    add_things(
        &mut figures,
        &[Measure::EventflagWaits],
        config.eventflags().len(),
    )?;
    let queue = [Measure::Values, Measure::Senders, Measure::Receivers];
    add_things(&mut figures, &queue, config.data_queues().len())?;
    let pool = [Measure::LeastFree, Measure::PoolWaits];
    add_things(&mut figures, &pool, config.pools().len())?;
    Ok(figures)
}

/// Their numbers at boot. The error is want of memory.
pub(crate) fn at_boot(
    alloc: Global,
    config: &Config,
    figures: &[Figure],
) -> Result<Vec<u16>, AllocError>
    ensures { IfOk result (λ v. v.items ≡ map (spec.value (boot listed (no_queues config.now) config.now)) figures.now) }
{
    let kernel = Kernel::boot(config)?;
    let mut bounds = Vec::new(alloc);
    for figure in figures {
        bounds.push(value(kernel.machine(), *figure))?;
    }
    Ok(bounds)
}
