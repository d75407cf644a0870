//! How each run ends the program, and what is reported of it.
ghost use Rattle.std.specs.Prelude.{◌≡◌};
ghost use Rattle.fmp_run_texts.specs.declared.status.Status.TheVariants as status;
ghost use Rattle.fmp_cli_desk.specs.Endings as spec;

use crate::desk::{Desk, FaultForm, put_lines};
use crate::ending::Ending;
use crate::faults::{
    report_cause, report_faulty, report_path, report_plainly, report_question,
    report_question_beside,
};
use fmp_cli::Paths;
use fmp_cli_diagnostics::LineForm;
use fmp_cli_faults::stray_line;
use fmp_out::Text;
use fmp_run_events::{RunFault, Status};
use std::io;

/// The paths where no text is at fault.
pub const NO_PATHS: Paths<'static> = Paths {
    config: "",
    text: "",
    context: None,
};

/// Reports that the text at a path cannot be opened or read, with the cause.
fn report_unread<D: Desk>(desk: &D, path: &str, error: &io::Error) {
    report_plainly(desk, &NO_PATHS, &RunFault::Read);
    report_cause(desk, path, error);
}

/// Reports why a run ended before its time. Of a trace with which it was to begin, and of a name, it is reported elsewhere.
fn report_ending<D: Desk>(desk: &D, paths: &Paths<'_>, fault_form: FaultForm, ending: Ending) {
    match ending {
        Ending::OneInput => {
            desk.note(b"fmpsim: only one text can come from standard input\n");
        }
        Ending::Unmade(error, path) => {
            report_plainly(desk, paths, &RunFault::Write);
            report_path(desk, path.as_str(), &error);
        }
        Ending::Fault(fault) => report_plainly(desk, paths, &fault),
        Ending::Faulty(fault, texts) => report_faulty(desk, paths, fault_form, &texts, &fault),
        Ending::NoConfig(error) => report_unread(desk, paths.config, &error),
        Ending::NoText(error) => report_unread(desk, paths.text, &error),
        Ending::Question(fault, place) | Ending::Asked(fault, place, _) => {
            report_question(desk, fault_form.line, fault, place);
        }
        Ending::Unread
        | Ending::NoTrace(_)
        | Ending::LongTrace
        | Ending::Stray(_)
        | Ending::Name(_)
        | Ending::Unnamed(..) => {}
    }
}

/// How a run ends the program. Why it ended before its time is reported.
pub fn ended<D: Desk>(
    desk: &D,
    paths: &Paths<'_>,
    fault_form: FaultForm,
    run: Result<Status, Ending>,
) -> Status
    ensures { result ≡ spec.status_after run }
{
    match run {
        Ok(status) => status,
        Err(ending) => {
            let status = ending.status();
            report_ending(desk, paths, fault_form, ending);
            status
        }
    }
}

/// How a run that answers a question ends the program. Beside a fault of the question stands its place.
pub fn replied<D: Desk>(
    desk: &D,
    paths: &Paths<'_>,
    fault_form: FaultForm,
    question: &str,
    run: Result<Status, Ending>,
) -> Status
    ensures { result ≡ spec.status_after run }
{
    match run {
        Err(Ending::Asked(fault, place, config)) => {
            report_question(desk, fault_form.line, fault, place);
            report_question_beside(desk, paths, config.as_slice(), question, fault, place);
            Status::Faulty
        }
        run => ended(desk, paths, fault_form, run),
    }
}

/// Reports that memory was wanting before anything was done, and how that ends the program.
pub fn report_memory<D: Desk>(desk: &D) -> Status
    ensures { result ≡ status.Memory }
{
    report_plainly(desk, &NO_PATHS, &RunFault::Memory);
    Status::Memory
}

/// Reports that a text at a path is too long.
fn report_long<D: Desk>(desk: &D, path: &str) {
    let mut text = Text::new(desk.alloc());
    text.put(b"fmpsim: ");
    text.put(path.as_bytes());
    text.put(b": too long\n");
    put_lines(desk, text);
}

/// Reports what is wrong with the trace at this path with which a search was to begin, or that many questions cannot be read there.
pub fn report_begun<D: Desk>(desk: &D, path: &str, line: LineForm, run: &Result<Status, Ending>) {
    match run {
        Err(Ending::NoTrace(error)) => report_unread(desk, path, error),
        Err(Ending::LongTrace) => report_long(desk, path),
        Err(Ending::Stray(number)) => put_lines(
            desk,
            stray_line(desk.alloc(), line, path, *number),
        ),
        _ => {}
    }
}
