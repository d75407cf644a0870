//! What `fmpsim check` writes of a partial trace, and the page that `fmpsim view` shows of one.
ghost use Rattle.std.specs.Prelude.{◌≡◌, ◌-◌, ◌^◌, ◌<◌};
ghost use Rattle.fmp_run_devices.specs.Ends.{sink_ends, source_ends};
ghost use Rattle.fmp_cli_runs.specs.Partly as spec;
ghost use Rattle.fmp_cli_runs.specs.Texts.{OverBytes, source_of};
ghost use Rattle.fmp_cli_runs.specs.Traces.{JudgesPartly, PutsPage, ViewsPartly};

use crate::run::Run;
use fmp_cli::Partly;
use fmp_run_devices::{GrowingSink, MemSource, Sink, Source};
use fmp_run_events::RunFault;
use fmp_run_partial::{PartialShown, PartialVerdict, Shown, run_partial};
use fmp_run_view::{PageKind, run_view};
use std::alloc::Global;

/// What is written of a partial trace of which this is asked. A page shows these lines.
fn shown_for(asked: Partly) -> PartialShown
    ensures { result ≡ spec.shown_for asked }
{
    match asked {
        Partly::Verdict => PartialShown::Verdict,
        Partly::First => PartialShown::First,
        Partly::Each => PartialShown::Each,
        Partly::Order => PartialShown::Order,
        Partly::Page => PartialShown::Order,
        Partly::DifferencesPage => PartialShown::Filled,
    }
}

/// Which page shows the whole lines that were made of a partial trace with this verdict, if there are some.
fn page_of(asked: Partly, verdict: PartialVerdict) -> Option<PageKind>
    ensures { result ≡ spec.page_of asked verdict }
{
    match (asked, verdict) {
        (_, PartialVerdict::Yes) => Some(PageKind::Own),
        (_, PartialVerdict::YesTo(_)) => Some(PageKind::Own),
        (Partly::DifferencesPage, PartialVerdict::No(_)) => Some(PageKind::Differences),
        _ => None,
    }
}

/// Writes the page of these lines. Both texts were read before, so that but for a write nothing can fail but for want of memory.
fn put_page<W: Sink>(
    alloc: Global,
    config: &[u8],
    lines: &[u8],
    page: &mut W,
    kind: PageKind,
) -> Result<(), RunFault>
    requires { W.failures page.old < 2 ^ 64 - 1 }
    ensures { PutsPage kind config.now lines.now (sink_ends W.written W.buffered W.failures page.old page.new) result }
{
    let mut config = MemSource::new(config);
    let mut lines = MemSource::new(lines);
    match run_view(alloc, &mut config, &mut lines, page, kind) {
        Ok(_) => Ok(()),
        Err(RunFault::Write) => Err(RunFault::Write),
        Err(_) => Err(RunFault::Memory),
    }
}

/// Judges a partial trace, and writes the page of the whole lines that are made of it, if this page has some.
fn view_partly<S: Source, W: Sink>(
    alloc: Global,
    config: &[u8],
    trace: &mut S,
    page: &mut W,
    asked: Partly,
) -> Result<Shown, RunFault>
    requires trace_calls { S.failures trace.old < 2 ^ 64 - 1 }
    requires page_calls { W.failures page.old < 2 ^ 64 - 1 }
    ensures { ViewsPartly asked config.now (source_ends S.left S.failures trace.old trace.new) (sink_ends W.written W.buffered W.failures page.old page.new) result }
{
    let mut whole = GrowingSink::new(alloc);
    let mut read = MemSource::new(config);
    let shown = match run_partial(alloc, &mut read, trace, &mut whole, shown_for(asked)) {
        Ok(shown) => shown,
        // The lines are kept in memory, for want of which alone a write there fails.
        Err(RunFault::Write) => return Err(RunFault::Memory),
        Err(fault) => return Err(fault),
    };
    if let Some(kind) = page_of(asked, shown.verdict) {
        put_page(alloc, config, shown.text.as_slice(), page, kind)?;
    }
    Ok(shown)
}

/// Judges a partial trace, and writes what is asked of it.
#[derive(Clone, Copy)]
pub struct JudgingPartly {
    pub asked: Partly,
}

impl Run for JudgingPartly {
    type Done = Shown;

    type Fault = RunFault;

    ghost promises = { λ old _ config text output result. OverBytes config (λ configs. JudgesPartly old.asked configs (source_of text) output result) };

    fn run<S: Source, W: Sink>(
        &mut self,
        alloc: Global,
        config: &[u8],
        text: &mut S,
        output: &mut W,
    ) -> Result<Shown, RunFault> {
        match self.asked {
            Partly::Page => view_partly(alloc, config, text, output, Partly::Page),
            Partly::DifferencesPage => {
                view_partly(alloc, config, text, output, Partly::DifferencesPage)
            }
            asked => {
                let mut config = MemSource::new(config);
                run_partial(alloc, &mut config, text, output, shown_for(asked))
            }
        }
    }
}
