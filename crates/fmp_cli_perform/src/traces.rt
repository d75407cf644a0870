//! Whether and where a trace is the machine's, its waveform, and a page that shows it.
ghost use Rattle.std.specs.Prelude.{◌≡◌, false};
ghost use Rattle.fmp_cli_perform.specs.Ended.{EndsJudging, EndsJudgingPartly};
ghost use Rattle.fmp_cli_perform.specs.Performed.{EndsProgram};

use fmp_cli::{Asked, Partly, Paths};
use fmp_cli_desk::{Desk, Ending, FaultForm, ended, put_lines, worked};
use fmp_cli_diagnostics::LineForm;
use fmp_cli_faults::{differs_lines, partly_lines};
use fmp_cli_hints::TextForm;
use fmp_cli_runs::{Judging, JudgingPartly};
use fmp_run_events::Status;
use fmp_trace_check::Verdict;

/// Writes what is asked of a trace, and reports the first line that is not the machine's where nothing that is written does.
fn trace<D: Desk>(
    desk: &D,
    paths: &Paths<'_>,
    asked: Asked,
    fault_form: FaultForm,
) -> Result<Status, Ending>
    ensures { EndsJudging (D.text_at desk.now) paths.now asked result }
{
    let verdict = worked(desk, paths, fault_form, &mut Judging { asked })?;
    if let Verdict::No(number) = verdict {
        let lines = differs_lines(desk.alloc(), fault_form.line, paths.text, asked, number);
        put_lines(desk, lines);
    }
    Ok(Status::of_verdict(verdict))
}

/// How judging a trace ends the program. A fault is reported.
pub fn traced<D: Desk>(desk: &D, paths: &Paths<'_>, asked: Asked, line: LineForm) -> Status
    ensures { EndsProgram false (EndsJudging (D.text_at desk.now) paths.now asked) result }
{
    let text = TextForm::Trace;
    let fault_form = FaultForm { line, text };
    let run = trace(desk, paths, asked, fault_form);
    ended(desk, paths, fault_form, run)
}

/// Judges a partial trace, writes what is asked of it, and reports what that does not show.
fn partial<D: Desk>(
    desk: &D,
    paths: &Paths<'_>,
    asked: Partly,
    fault_form: FaultForm,
) -> Result<Status, Ending>
    ensures { EndsJudgingPartly (D.text_at desk.now) paths.now asked result }
{
    let shown = worked(desk, paths, fault_form, &mut JudgingPartly { asked })?;
    let line = fault_form.line;
    put_lines(desk, partly_lines(desk.alloc(), line, paths, asked, &shown));
    Ok(shown.verdict.status())
}

/// How judging a partial trace ends the program. A fault is reported.
pub fn partly_traced<D: Desk>(desk: &D, paths: &Paths<'_>, asked: Partly, line: LineForm) -> Status
    ensures { EndsProgram false (EndsJudgingPartly (D.text_at desk.now) paths.now asked) result }
{
    let text = TextForm::Partial;
    let fault_form = FaultForm { line, text };
    let run = partial(desk, paths, asked, fault_form);
    ended(desk, paths, fault_form, run)
}
