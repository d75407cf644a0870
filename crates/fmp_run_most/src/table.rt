//! The table of the figures.
ghost use Rattle.std.specs.Prelude.{◌≡◌, IfOk, Some, length};
ghost use Rattle.fmp_out.specs.Putting.{Adds};
ghost use Rattle.fmp_trace.specs.Values.{named};
ghost use Rattle.fmp_run_most.specs.Table as spec;

use crate::figure::{Figure, Measure};
use fmp_codes::{NameKind, ObjectKind};
use fmp_out::Text;
use fmp_rules::Config;
use std::alloc::{AllocError, Global};

/// Adds the name of an object.
#[tactic(auto, unfolding(fmp_trace::specs::Values::named))]
fn put_named(out: &mut Text, config: &Config, kind: ObjectKind, number: u8)
    ensures { Adds (named config.now.names kind number) out.old out.new }
{
    match config
        .names()
        .name(NameKind::Object(kind), usize::from(number))
    {
        Some(name) => out.put(name),
        None => out.put_number(u64::from(number)),
    }
}

/// Adds the thing of a figure, where it is the first one of that.
fn put_thing(out: &mut Text, config: &Config, figure: Figure)
    ensures { Adds (spec.thing_by config.now figure.number figure.measure) out.old out.new }
{
    let number = figure.number;
    match figure.measure {
        Measure::Ready => {
            out.put_byte(b'P');
            out.put_number(u64::from(number));
        }
        Measure::Activations => put_named(out, config, ObjectKind::Task, number),
        Measure::LeastCount => put_named(out, config, ObjectKind::Semaphore, number),
        Measure::EventflagWaits => put_named(out, config, ObjectKind::Eventflag, number),
        Measure::Values => put_named(out, config, ObjectKind::DataQueue, number),
        Measure::LeastFree => put_named(out, config, ObjectKind::Pool, number),
        _ => {}
    }
}

/// What stands before the number of a figure.
fn word_of(measure: Measure) -> &'static [u8]
    ensures { result.now ≡ spec.word_of measure }
{
    match measure {
        Measure::Ready => b" ready=",
        Measure::Activations => b" act=",
        Measure::Wakeups => b" wup=",
        Measure::LeastCount => b" count=",
        Measure::MostCount => b"..",
        Measure::Values => b" values=",
        Measure::Senders => b" sdtq=",
        Measure::Receivers => b" rdtq=",
        Measure::LeastFree => b" free=",
        _ => b" waits=",
    }
}

/// Adds how much of it there may be.
fn put_of(out: &mut Text, most: u64)
    ensures { Adds (spec.limit_text (Some most)) out.old out.new }
{
    out.put(b" of ");
    out.put_number(most);
}

/// Adds it, where the configuration says how much that is.
fn put_limit(out: &mut Text, config: &Config, figure: Figure)
    ensures { Adds (spec.limit_text (spec.limit_by config.now figure.number figure.measure)) out.old out.new }
{
    let at = usize::from(figure.number).saturating_sub(1);
    match figure.measure {
        Measure::MostCount => {
            if let Some(semaphore) = config.semaphores().get(at) {
                put_of(out, u64::from(semaphore.most));
            }
        }
        Measure::Values => {
            if let Some(queue) = config.data_queues().get(at) {
                put_of(out, u64::from(queue.capacity));
            }
        }
        Measure::LeastFree => {
            if let Some(pool) = config.pools().get(at) {
                put_of(out, u64::from(pool.blocks));
            }
        }
        _ => {}
    }
}

/// What ends the line, where it is the last figure of its thing.
fn end_of(whole: bool, measure: Measure) -> &'static [u8]
    ensures { result.now ≡ spec.end_text whole (spec.ends_line measure) }
{
    match measure {
        Measure::Ready
        | Measure::Wakeups
        | Measure::SemaphoreWaits
        | Measure::EventflagWaits
        | Measure::Receivers
        | Measure::PoolWaits => { if whole { b"\n" } else { b" at least\n" } }
        _ => b"",
    }
}

/// Adds what is told of a figure. Where it is not known of all orders that says the end of its line.
#[tactic(auto, unfolding(crate::specs::Table::figure_text))]
fn put_figure(out: &mut Text, config: &Config, whole: bool, figure: Figure, bound: u16)
    ensures { Adds (spec.figure_text config.now whole figure bound) out.old out.new }
{
    put_thing(out, config, figure);
    out.put(word_of(figure.measure));
    out.put_number(u64::from(bound));
    put_limit(out, config, figure);
    out.put(end_of(whole, figure.measure));
}

/// Adds what is told of all.
fn put_figures(out: &mut Text, config: &Config, whole: bool, figures: &[Figure], bounds: &[u16])
    requires { length bounds.now ≡ length figures.now }
    ensures { Adds (spec.table_text config.now whole figures.now bounds.now) out.old out.new }
{
    for at in 0..figures.len() {
        put_figure(out, config, whole, figures[at], bounds[at]);
    }
}

/// The table of figures and how far they go, which is known of all orders or not. The error is want of memory.
pub(crate) fn table(
    alloc: Global,
    config: &Config,
    whole: bool,
    figures: &[Figure],
    bounds: &[u16],
) -> Result<Vec<u8>, AllocError>
    requires { length bounds.now ≡ length figures.now }
    ensures { IfOk result (λ text. text.items ≡ spec.table_text config.now whole figures.now bounds.now) }
{
    let mut out = Text::new(alloc);
    put_figures(&mut out, config, whole, figures, bounds);
    out.finish()
}
