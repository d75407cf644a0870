//! What the orders of scripts show: whether one shows what is asked, how far everything goes in all, and whether one that goes on from a trace does.
ghost use Rattle.std.specs.Prelude.{◌≡◌, false};
ghost use Rattle.fmp_cli_perform.specs.Performed.{EndsProgram};
ghost use Rattle.fmp_cli_perform.specs.Searched as spec;

use crate::beside::Beside;
use crate::questions::asked;
use fmp_cli::{ExploreRequest, Paths};
use fmp_cli_desk::{
    Desk, Ending, FaultForm, ProgressLine, both_read, put_lines, replied, report_begun,
    third_allowed, trace_read, worked, worked_over,
};
use fmp_cli_diagnostics::LineForm;
use fmp_cli_faults::bounds_lines;
use fmp_cli_hints::TextForm;
use fmp_cli_notes::{
    About, note_extent, note_left, note_left_for_ever, note_stayed, note_unmade, note_unshown,
};
use fmp_cli_runs::{Searching, SearchingForever, SearchingFrom, SearchingMost};
use fmp_run_events::Status;
use fmp_run_explore::{Outcome, Progress};
use fmp_run_forever::Stayed;
use fmp_search_question::is_lasting;
use std::alloc::Global;

/// What lines beside an answer are about, where one question is asked.
fn about_one(alloc: Global) -> About<'static> {
    About {
        alloc,
        asked: "question",
    }
}

/// Reports what is known of all orders beside the answer, where none shows what is asked.
fn report_outcome<D: Desk>(
    desk: &D,
    outcome: &Outcome,
    request: &ExploreRequest<'_>,
    progress: &mut ProgressLine<'_, D>,
) {
    let notes = &mut Beside::new(desk);
    let about = about_one(desk.alloc());
    note_extent(notes, about, outcome, request);
    progress.allow_as_much();
    note_left(notes, about, outcome, progress, request);
    note_unshown(notes, about, outcome, progress, request);
    note_unmade(notes, about, outcome, progress, request.bounds);
}

/// Writes whether an order of what scripts ask shows what the request asks. Where none does it reports how much of it comes.
fn explore<D: Desk>(
    desk: &D,
    paths: &Paths<'_>,
    fault_form: FaultForm,
    request: &ExploreRequest<'_>,
    progress: &mut ProgressLine<'_, D>,
) -> Result<Status, Ending>
    ensures { spec.EndsSearching (D.text_at desk.now paths.now.config.now) (D.text_at desk.now paths.now.text.now) request.now result }
{
    let mut run = Searching {
        request,
        progress: &mut *progress,
    };
    match worked(desk, paths, fault_form, &mut run) {
        Ok(outcome) => {
            report_outcome(desk, &outcome, request, progress);
            Ok(outcome.finding.status())
        }
        Err(ending) => Err(ending),
    }
}

/// Reports what is known beside the answer of what stays for ever.
fn report_stayed<D: Desk>(
    desk: &D,
    stayed: &Stayed,
    request: &ExploreRequest<'_>,
    progress: &mut ProgressLine<'_, D>,
) {
    let notes = &mut Beside::new(desk);
    let about = about_one(desk.alloc());
    note_stayed(notes, about, stayed, request);
    progress.allow_as_much();
    note_left_for_ever(notes, about, stayed, progress, request);
}

/// Writes whether something that the request asks stays for ever in an order of what scripts ask, and reports from which line on.
fn explore_forever<D: Desk>(
    desk: &D,
    paths: &Paths<'_>,
    fault_form: FaultForm,
    request: &ExploreRequest<'_>,
    progress: &mut ProgressLine<'_, D>,
) -> Result<Status, Ending>
    ensures { spec.EndsSearchingForever (D.text_at desk.now paths.now.config.now) (D.text_at desk.now paths.now.text.now) request.now result }
{
    let mut run = SearchingForever {
        request,
        progress: &mut *progress,
    };
    match worked(desk, paths, fault_form, &mut run) {
        Ok(stayed) => {
            report_stayed(desk, &stayed, request, progress);
            Ok(stayed.staying.status())
        }
        Err(ending) => Err(ending),
    }
}

/// Writes whether one of the orders that go on from the trace at this path does.
fn explore_from<D: Desk>(
    desk: &D,
    paths: &Paths<'_>,
    fault_form: FaultForm,
    request: &ExploreRequest<'_>,
    begun: &str,
    progress: &mut ProgressLine<'_, D>,
) -> Result<Status, Ending>
    ensures { spec.EndsSearchingFrom (D.text_at desk.now paths.now.config.now) (D.text_at desk.now paths.now.text.now) (D.text_at desk.now begun.now) request.now result }
{
    third_allowed(paths, begun)?;
    let (texts, scripts) = both_read(desk, paths, fault_form)?;
    let begun = trace_read(desk, begun)?;
    let mut run = SearchingFrom {
        begun: begun.as_slice(),
        request,
        progress,
    };
    worked_over(desk, texts, scripts, &mut run)
}

/// Makes the search that a request asks for.
fn searched<D: Desk>(
    desk: &D,
    paths: &Paths<'_>,
    fault_form: FaultForm,
    request: &ExploreRequest<'_>,
    progress: &mut ProgressLine<'_, D>,
) -> Result<Status, Ending>
    ensures { spec.EndsSearch (D.text_at desk.now) (D.text_at desk.now paths.now.config.now) (D.text_at desk.now paths.now.text.now) request.now result }
{
    if let Some(file) = request.questions {
        return asked(desk, paths, fault_form, request, file, progress);
    }
    if let Some(begun) = request.from {
        return explore_from(desk, paths, fault_form, request, begun, progress);
    }
    if request.most {
        return worked(
            desk,
            paths,
            fault_form,
            &mut SearchingMost { request, progress },
        );
    }
    if is_lasting(request.question.as_bytes()) {
        return explore_forever(desk, paths, fault_form, request, progress);
    }
    explore(desk, paths, fault_form, request, progress)
}

/// How a search ends the program. A fault is reported.
pub fn explored<D: Desk>(desk: &D, request: &ExploreRequest<'_>, line: LineForm) -> Status
    ensures { EndsProgram false (spec.EndsExploring (D.text_at desk.now) request.now) result }
{
    let request = &request.with_room(desk.free_memory());
    let text = TextForm::Scripts;
    let paths = Paths {
        config: request.config,
        text: request.scripts,
        context: request.context.then_some(text),
    };
    let fault_form = FaultForm { line, text };
    put_lines(desk, bounds_lines(desk.alloc(), request));
    let seconds = request.seconds.map(u64::from);
    let mut progress = ProgressLine::new(desk, request.progress, seconds);
    let run = searched(desk, &paths, fault_form, request, &mut progress);
    Progress::end(&mut progress);
    let third = request.questions.or(request.from).unwrap_or("");
    report_begun(desk, third, line, &run);
    replied(desk, &paths, fault_form, request.question, run)
}
