//! What `fmpsim explore --questions` does of each question.
ghost use Rattle.std.specs.Prelude.{◌≡◌, ◌-◌, false, true, drop, IfErr, IfOk};
ghost use Rattle.fmp_search_question.specs.Lasting.{is_lasting as asks_of_what_stays};
ghost use Rattle.fmp_cli_runs.specs.Asked as asked;
ghost use Rattle.fmp_cli_runs.specs.Replies as spec;
ghost use Rattle.fmp_cli_runs.specs.Replies.{IsUnreplied, RepliesLasting, RepliesSteps};

use crate::orders::search_of;
use fmp_cli::ExploreRequest;
use fmp_cli_questions::{Answer, Judgement};
use fmp_run_devices::{GrowingSink, TextSource};
use fmp_run_explore::{ExploreFault, Finding, Outcome, Progress, run_explore};
use fmp_run_forever::{Staying, run_forever};
use fmp_run_texts::{RunFault, Status};
use fmp_search_question::is_lasting;
use std::alloc::{AllocError, Global};

/// What is replied to a question.
#[derive(Drop)]
pub struct Replied {
    pub answer: Answer,
    /// What the search wrote: the trace of an order that shows the question, or words.
    pub trace: Vec<u8>,
    /// What was found of all orders, where none shows a question of steps: more of it may be told.
    pub outcome: Option<Outcome>,
}

/// How many lines a trace has.
fn lines_in(trace: &[u8]) -> usize
    ensures { result ≡ spec.lines_in trace.now }
{
    trace.iter().filter(|byte| **byte == b'\n').count()
}

/// The answer that was found, where this trace was written.
fn answer_of(finding: Finding, trace: &[u8]) -> Answer
    ensures { result ≡ spec.answer_of finding trace.now }
{
    match finding {
        Finding::Shown => Answer::Shown(lines_in(trace)),
        Finding::Never => Answer::Never,
        Finding::NotWithin(lines) | Finding::Wanting(lines) | Finding::Ended(lines) => {
            Answer::NotWithin(lines)
        }
    }
}

/// Likewise of a question of what stays for ever.
fn lasting_answer_of(staying: Staying, trace: &[u8]) -> Answer
    ensures { result ≡ spec.lasting_answer_of staying trace.now }
{
    match staying {
        Staying::Shortest(..) | Staying::Found(..) => Answer::Shown(lines_in(trace)),
        Staying::Never => Answer::Never,
        Staying::NotWithin(lines) | Staying::Wanting(lines) | Staying::Ended(lines) => {
            Answer::NotWithin(lines)
        }
    }
}

/// What was found, where no order shows the question.
fn kept(found: Outcome) -> Option<Outcome>
    ensures { result ≡ spec.kept found }
{
    match found.finding {
        Finding::Never => Some(found),
        Finding::Shown | Finding::NotWithin(_) | Finding::Wanting(_) | Finding::Ended(_) => None,
    }
}

/// Why a search that wrote to memory has no answer.
fn in_memory(fault: ExploreFault) -> ExploreFault
    ensures { result ≡ spec.in_memory fault }
{
    match fault {
        ExploreFault::Run(RunFault::Write) => ExploreFault::Run(RunFault::Memory),
        fault => fault,
    }
}

/// A text that was read, to be read again: none of its reads fails. The error is want of memory.
fn read_again(alloc: Global, text: &[u8]) -> Result<TextSource, AllocError>
    ensures { IfOk result (λ s. drop s.at s.text.items ≡ text.now) }
{
    Ok(TextSource::new(alloc, Vec::from_slice(alloc, text)?))
}

/// The reply to a question of steps.
fn steps_reply<P: Progress>(
    alloc: Global,
    config: &[u8],
    scripts: &[u8],
    request: &ExploreRequest<'_>,
    progress: &mut P,
) -> Result<Replied, ExploreFault>
    ensures replies { IfOk result (RepliesSteps config.now scripts.now request.now.question.now (asked.rules_of request.now)
        request.now.bounds.turns.count (request.now.bounds.places.count - 1) (P.over progress.new)) }
    ensures faults { asks_of_what_stays request.now.question.now ≡ false → IfErr result (IsUnreplied config.now scripts.now request.now.question.now) }
{
    let mut config = read_again(alloc, config)?;
    let mut scripts = read_again(alloc, scripts)?;
    let mut output = GrowingSink::new(alloc);
    let asked = search_of(request);
    match run_explore(
        alloc,
        &mut config,
        &mut scripts,
        &mut output,
        &asked,
        progress,
    ) {
        Ok(found) => Ok(Replied {
            answer: answer_of(found.finding, output.text()),
            trace: output.into_text(),
            outcome: kept(found),
        }),
        Err(fault) => Err(in_memory(fault)),
    }
}

/// The reply to a question of what stays for ever.
fn lasting_reply<P: Progress>(
    alloc: Global,
    config: &[u8],
    scripts: &[u8],
    request: &ExploreRequest<'_>,
    progress: &mut P,
) -> Result<Replied, ExploreFault>
    ensures replies { IfOk result (RepliesLasting config.now scripts.now request.now.question.now (asked.rules_of request.now) request.now.bounds.turns.count
        (request.now.bounds.places.count - 1)) }
    ensures faults { asks_of_what_stays request.now.question.now ≡ true → IfErr result (IsUnreplied config.now scripts.now request.now.question.now) }
{
    let mut config = read_again(alloc, config)?;
    let mut scripts = read_again(alloc, scripts)?;
    let mut output = GrowingSink::new(alloc);
    let asked = search_of(request);
    match run_forever(
        alloc,
        &mut config,
        &mut scripts,
        &mut output,
        &asked,
        progress,
    ) {
        Ok(found) => Ok(Replied {
            answer: lasting_answer_of(found.staying, output.text()),
            trace: output.into_text(),
            outcome: None,
        }),
        Err(fault) => Err(in_memory(fault)),
    }
}

/// Searches for what a request asks over a configuration and scripts, and replies with what is known of all orders.
pub fn reply_to<P: Progress>(
    alloc: Global,
    config: &[u8],
    scripts: &[u8],
    request: &ExploreRequest<'_>,
    progress: &mut P,
) -> Result<Replied, ExploreFault>
    // To a question of steps: what [`Searching`](crate::Searching) finds and writes, and its answer.
    ensures steps { asks_of_what_stays request.now.question.now ≡ false
        → IfOk result (RepliesSteps config.now scripts.now request.now.question.now (asked.rules_of request.now)
        request.now.bounds.turns.count (request.now.bounds.places.count - 1) (P.over progress.new)) }

    // To a question of what stays for ever: what [`SearchingForever`](crate::SearchingForever) finds and writes, and its answer.
    ensures lasting { asks_of_what_stays request.now.question.now ≡ true
        → IfOk result (RepliesLasting config.now scripts.now request.now.question.now (asked.rules_of request.now) request.now.bounds.turns.count
        (request.now.bounds.places.count - 1)) }

    // A fault of a text or of the question is its first one, nothing was read but texts in memory, and nothing was written but to memory.
    ensures faults { IfErr result (IsUnreplied config.now scripts.now request.now.question.now) }
{
    if is_lasting(request.question.as_bytes()) {
        lasting_reply(alloc, config, scripts, request, progress)
    } else {
        steps_reply(alloc, config, scripts, request, progress)
    }
}

/// How answers that are judged so end the program.
pub const fn status_of(judgement: Judgement) -> Status
    ensures { result ≡ spec.status_of judgement }
{
    match judgement {
        Judgement::Right => Status::Done,
        Judgement::Wrong => Status::Different,
        Judgement::Unknown => Status::Limit,
    }
}
