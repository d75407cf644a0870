//! What is reported of a fault: its line, why a text cannot be read, and with `--context` the place of a fault. What is reported of a text is told by what was
//! kept of it: none is opened here.
use crate::desk::{Desk, FaultForm};
use crate::keeping::{Kept, KeptText};
use crate::texts::STANDARD_INPUT;
use fmp_cli::Paths;
use fmp_cli_diagnostics::{LineForm, Spot};
use fmp_cli_faults::{
    Place, advice, fault_diagnostic, name_hint, question_beside, question_diagnostic,
};
use fmp_run_events::{FaultLine, RunFault};
use fmp_run_explore::QuestionLine;
use fmp_search_question::QuestionFault;
use std::{fmt, io};

/// The line below a fault of a device: why the file at a path cannot be opened, read or written.
#[derive(Clone, Copy)]
struct CauseLine<'a> {
    path: &'a str,
    error: &'a io::Error,
}

impl fmt::Display for CauseLine<'_> {
    fn fmt<W: fmt::Write>(&self, f: &mut fmt::Formatter<W>) -> fmt::Result {
        let (path, error) = (self.path, self.error);
        write!(f, "  {path}: {error}")
    }
}

/// Reports the line of a fault in this program's own form.
pub fn report_plainly<D: Desk>(desk: &D, paths: &Paths<'_>, fault: &RunFault) {
    desk.put_line(FaultLine {
        config: paths.config,
        text: paths.text,
        fault,
    });
}

/// Reports the line of a fault as compilers do. One that is of no text has no path, and keeps this program's form.
fn report_placed<D: Desk>(desk: &D, paths: &Paths<'_>, fault: &RunFault, spot: Option<Spot>) {
    match fault_diagnostic(paths, fault, spot) {
        Some(line) => desk.put_line(line),
        None => report_plainly(desk, paths, fault),
    }
}

/// Reports the line of a fault of a question, which begins at this byte of its text, counted from 0.
pub fn report_question<D: Desk>(desk: &D, form: LineForm, fault: QuestionFault, place: usize) {
    let number = place.saturating_add(1);
    if matches!(form, LineForm::Gcc) {
        let spot = Spot::Column(1, number);
        desk.put_line(question_diagnostic("--find", spot, fault));
    } else {
        desk.put_line(QuestionLine { fault, number });
    }
}

/// Reports the cause for which the file at a path cannot be opened, read or written.
pub fn report_path<D: Desk>(desk: &D, path: &str, error: &io::Error) {
    desk.put_line(CauseLine { path, error });
}

/// Reports why the file at a path cannot be opened or read. Standard input is none.
pub fn report_cause<D: Desk>(desk: &D, path: &str, error: &io::Error) {
    if path != STANDARD_INPUT {
        report_path(desk, path, error);
    }
}

/// Reports what stands beside a fault, if that is known.
pub fn report_beside<D: Desk>(desk: &D, text: Option<Vec<u8>>) {
    if let Some(text) = text {
        desk.note(text.as_slice());
    }
}

/// Reports the line of a fault, with its place where that is known and lines have the form of compilers.
fn report_line<D: Desk>(
    desk: &D,
    paths: &Paths<'_>,
    form: LineForm,
    place: Option<&Place<'_>>,
    fault: &RunFault,
) {
    match (form, place) {
        (LineForm::Gcc, Some(place)) => {
            report_placed(desk, paths, fault, place.spot(desk.alloc()));
        }
        (LineForm::Gcc, None) => report_placed(desk, paths, fault, None),
        _ => report_plainly(desk, paths, fault),
    }
}

/// Reports a fault of a run that has read these texts: its line, and below it why the other text cannot be read, or with `--context`
/// the place of the fault.
pub fn report_faulty<D: Desk>(
    desk: &D,
    paths: &Paths<'_>,
    fault_form: FaultForm,
    texts: &Kept,
    fault: &RunFault,
) {
    let alloc = desk.alloc();
    let place = if fault_form.shows_place(paths) {
        let config = texts.config.as_slice();
        Place::of_fault(alloc, fault_form.text, config, texts.text.lines(), fault)
    } else {
        None
    };
    report_line(desk, paths, fault_form.line, place.as_ref(), fault);
    if let (RunFault::Read, KeptText::Unreadable(error)) = (fault, &texts.text) {
        report_cause(desk, paths.text, error);
    }
    if paths.context.is_some() {
        let text = match &place {
            Some(place) => place.beside(alloc),
            None => advice(alloc, fault),
        };
        report_beside(desk, text);
    }
}

/// Reports what stands beside a fault of a question, where that is asked for.
pub fn report_question_beside<D: Desk>(
    desk: &D,
    paths: &Paths<'_>,
    config: &[u8],
    question: &str,
    fault: QuestionFault,
    place: usize,
) {
    if paths.context.is_some() {
        let text = question_beside(desk.alloc(), config, question, fault, place);
        report_beside(desk, text);
    }
}

/// Reports what is near to a name that nothing in a configuration has.
pub fn report_name<D: Desk>(desk: &D, config: &[u8], name: &str) {
    report_beside(desk, name_hint(desk.alloc(), config, name));
}
