//! What `fmpsim explore` does.
ghost use Rattle.std.specs.Prelude.{◌≡◌};
ghost use Rattle.fmp_cli_runs.specs.Asked as asked;
ghost use Rattle.fmp_cli_runs.specs.Orders.{Searches, SearchesForever, SearchesFrom, SearchesMost};
ghost use Rattle.fmp_cli_runs.specs.Texts.{OverBytes, source_of};

use crate::run::Run;
use fmp_cli::ExploreRequest;
use fmp_run_devices::{MemSource, Sink, Source};
use fmp_run_events::{RunFault, Status};
use fmp_run_explore::{ExploreFault, Outcome, Progress, Rules, SearchRequest, run_explore};
use fmp_run_explore_from::{FromFault, run_explore_from};
use fmp_run_forever::{Stayed, run_forever};
use fmp_run_most::run_most;
use std::alloc::Global;

/// Which orders are gone through.
fn rules_of(request: &ExploreRequest<'_>) -> Rules
    ensures { result ≡ asked.rules_of request.now }
{
    Rules {
        ticks: request.ticks,
        prompt: request.prompt,
        drift: request.drift,
        pace: request.pace,
        spurious: request.spurious,
    }
}

/// Which search a request asks for.
pub(crate) fn search_of<'a>(request: &ExploreRequest<'a>) -> SearchRequest<'a>
    ensures question { result.question.now ≡ request.now.question.now }
    ensures rules { result.rules ≡ asked.rules_of request.now }
    ensures bounds { result.bounds ≡ request.now.bounds }
{
    SearchRequest {
        question: request.question.as_bytes(),
        rules: rules_of(request),
        bounds: request.bounds,
    }
}

/// Writes whether an order shows what the request asks. What was found is given, with what was searched.
#[derive(Drop)]
pub struct Searching<'a, 'w, 'p, P> {
    pub request: &'a ExploreRequest<'w>,
    pub progress: &'p mut P,
}

impl<'a, 'w, 'p, P: Progress> Run for Searching<'a, 'w, 'p, P> {
    type Done = Outcome;

    type Fault = ExploreFault;

    ghost promises = { λ old new config text output result.
        OverBytes config (λ configs. Searches old.request.now (P.over new.progress.now) configs (source_of text) output result) };

    fn run<S: Source, W: Sink>(
        &mut self,
        alloc: Global,
        config: &[u8],
        text: &mut S,
        output: &mut W,
    ) -> Result<Outcome, ExploreFault> {
        let asked = search_of(self.request);
        let mut config = MemSource::new(config);
        run_explore(alloc, &mut config, text, output, &asked, self.progress)
    }
}

/// The same of the orders that go on from a trace. The status says what was found.
#[derive(Drop)]
pub struct SearchingFrom<'b, 'a, 'w, 'p, P> {
    pub begun: &'b [u8],
    pub request: &'a ExploreRequest<'w>,
    pub progress: &'p mut P,
}

impl<'b, 'a, 'w, 'p, P: Progress> Run for SearchingFrom<'b, 'a, 'w, 'p, P> {
    type Done = Status;

    type Fault = FromFault;

    ghost promises = { λ old new config text output result.
        OverBytes config (λ configs. SearchesFrom old.begun.now old.request.now (P.over new.progress.now) configs (source_of text) output result) };

    fn run<S: Source, W: Sink>(
        &mut self,
        alloc: Global,
        config: &[u8],
        text: &mut S,
        output: &mut W,
    ) -> Result<Status, FromFault> {
        let (asked, begun) = (search_of(self.request), self.begun);
        let mut config = MemSource::new(config);
        match run_explore_from(
            alloc,
            &mut config,
            text,
            begun,
            output,
            &asked,
            self.progress,
        ) {
            Ok(finding) => Ok(finding.status()),
            Err(fault) => Err(fault),
        }
    }
}

/// Writes whether something that the request asks stays for ever in an order. What was found is given, with what was asked.
#[derive(Drop)]
pub struct SearchingForever<'a, 'w, 'p, P> {
    pub request: &'a ExploreRequest<'w>,
    pub progress: &'p mut P,
}

impl<'a, 'w, 'p, P: Progress> Run for SearchingForever<'a, 'w, 'p, P> {
    type Done = Stayed;

    type Fault = ExploreFault;

    ghost promises = { λ old _ config text output result.
        OverBytes config (λ configs. SearchesForever old.request.now configs (source_of text) output result) };

    fn run<S: Source, W: Sink>(
        &mut self,
        alloc: Global,
        config: &[u8],
        text: &mut S,
        output: &mut W,
    ) -> Result<Stayed, ExploreFault> {
        let asked = search_of(self.request);
        let mut config = MemSource::new(config);
        run_forever(alloc, &mut config, text, output, &asked, self.progress)
    }
}

/// Writes how far everything goes in all orders. The status says whether that is known.
#[derive(Drop)]
pub struct SearchingMost<'a, 'w, 'p, P> {
    pub request: &'a ExploreRequest<'w>,
    pub progress: &'p mut P,
}

impl<'a, 'w, 'p, P: Progress> Run for SearchingMost<'a, 'w, 'p, P> {
    type Done = Status;

    type Fault = RunFault;

    ghost promises = { λ old new config text output result.
        OverBytes config (λ configs. SearchesMost old.request.now (P.over new.progress.now) configs (source_of text) output result) };

    fn run<S: Source, W: Sink>(
        &mut self,
        alloc: Global,
        config: &[u8],
        text: &mut S,
        output: &mut W,
    ) -> Result<Status, RunFault> {
        let (rules, bounds) = (rules_of(self.request), self.request.bounds);
        let mut config = MemSource::new(config);
        match run_most(
            alloc,
            &mut config,
            text,
            output,
            rules,
            bounds,
            self.progress,
        ) {
            Ok(reach) => Ok(reach.status()),
            Err(fault) => Err(fault),
        }
    }
}
