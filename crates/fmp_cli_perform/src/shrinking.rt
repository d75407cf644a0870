//! The events that are needed to show something.
ghost use Rattle.fmp_cli_perform.specs.Ended.{EndsShrinking};
ghost use Rattle.fmp_cli_perform.specs.Performed.{EndsProgram};
ghost use Rattle.fmp_search_question.specs.Lasting.{is_lasting};

use fmp_cli::{Paths, ShrinkRequest};
use fmp_cli_desk::{Desk, FaultForm, put_lines, replied, worked};
use fmp_cli_diagnostics::LineForm;
use fmp_cli_faults::LASTING;
use fmp_cli_hints::TextForm;
use fmp_cli_runs::Shrinking;
use fmp_out::Text;
use fmp_run_events::Status;
use fmp_search_question::is_lasting;

/// Reports that the answers to the events at a path do not show what is asked.
fn report_unshown<D: Desk>(desk: &D, path: &str) {
    let mut text = Text::new(desk.alloc());
    text.put(b"fmpsim: ");
    text.put(path.as_bytes());
    text.put(b": the answers to these events do not show it\n");
    put_lines(desk, text);
}

/// How leaving events out ends the program. A fault is reported, and where the answers to the events do not show what is asked.
pub fn shrunk<D: Desk>(desk: &D, request: &ShrinkRequest<'_>, line: LineForm) -> Status
    ensures { EndsProgram (is_lasting request.now.question.now) (EndsShrinking (D.text_at desk.now) request.now) result }
{
    if is_lasting(request.question.as_bytes()) {
        desk.note(LASTING.as_bytes());
        return Status::Usage;
    }
    let text = TextForm::Events;
    let paths = Paths {
        config: request.config,
        text: request.events,
        context: request.context.then_some(text),
    };
    let fault_form = FaultForm { line, text };
    let run = worked(desk, &paths, fault_form, &mut Shrinking { request });
    let status = replied(desk, &paths, fault_form, request.question, run);
    if status == Status::Different {
        report_unshown(desk, paths.text);
    }
    status
}
