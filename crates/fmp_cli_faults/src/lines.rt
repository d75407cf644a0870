//! The lines that report faults, in this program's own form or in that of compilers.
use fmp_cli::{Asked, Partly, Paths};
use fmp_cli_diagnostics::{Diagnostic, LineForm, Spot};
use fmp_cli_hints_question::{question_code, question_words};
use fmp_out::Text;
use fmp_run_partial::{PartialVerdict, Shown};
use fmp_run_texts::RunFault;
use fmp_search_question::QuestionFault;
use std::alloc::Global;

/// What is reported where a question is one about every order, and one run is asked.
pub const LASTING: &str =
    "fmpsim: --find: what stays for ever is asked of every order, by fmpsim explore\n";

/// The line of a fault of a text as compilers print it, with its line alone where no other place is known. There is none of a fault that is of no text.
pub fn fault_diagnostic<'a>(
    paths: &Paths<'a>,
    fault: &'a RunFault,
    spot: Option<Spot>,
) -> Option<Diagnostic<'a>> {
    let (path, line, kind, word) = match fault {
        RunFault::Config(fault) => {
            let kind = (fault.kind.code(), fault.kind.words());
            (paths.config, fault.line, kind, fault.word.as_str())
        }
        RunFault::Text(fault) => {
            let kind = (fault.kind.code(), fault.kind.words());
            (paths.text, fault.line, kind, "")
        }
        _ => return None,
    };
    Some(Diagnostic {
        path,
        spot: spot.unwrap_or(Spot::of_line(line)),
        code: kind.0,
        words: kind.1,
        word,
    })
}

/// The line of a fault of a question as compilers print it, at this place of what has the question.
pub fn question_diagnostic(path: &str, spot: Spot, fault: QuestionFault) -> Diagnostic<'_> {
    Diagnostic {
        path,
        spot,
        code: question_code(fault),
        words: question_words(fault),
        word: "",
    }
}

/// The beginning of a line of this program's own about a text, or about a line of it.
fn own_line(alloc: Global, path: &str, line: Option<usize>) -> Text {
    let mut text = Text::new(alloc);
    text.put(b"fmpsim: ");
    text.put(path.as_bytes());
    text.put(b": ");
    if let Some(line) = line {
        text.put(b"line ");
        text.put_number(line as u64);
    }
    text
}

/// The beginning of a line about a line of a text, as compilers have it.
fn compiler_line(alloc: Global, path: &str, line: usize) -> Text {
    let mut text = Text::new(alloc);
    text.put(path.as_bytes());
    text.put_byte(b':');
    text.put_number(line as u64);
    text.put(b": error: ");
    text
}

/// What is wrong with a line of a text, in these words.
pub fn row_line(alloc: Global, form: LineForm, path: &str, line: usize, words: &str) -> Text {
    let mut text = match form {
        LineForm::Gcc => compiler_line(alloc, path, line),
        _ => {
            let mut text = own_line(alloc, path, Some(line));
            text.put(b": ");
            text
        }
    };
    text.put(words.as_bytes());
    text.put_byte(b'\n');
    text
}

/// That no order has a line of a trace where it is.
pub fn stray_line(alloc: Global, form: LineForm, path: &str, line: u32) -> Text {
    let words = "no order of these scripts has it here";
    row_line(alloc, form, path, line as usize, words)
}

/// That a line of a trace differs, and which command shows more.
fn seen_line(alloc: Global, path: &str, line: u32, command: &[u8]) -> Text {
    let mut text = own_line(alloc, path, Some(line as usize));
    text.put(b" differs: see fmpsim check ");
    text.put(command);
    text.put_byte(b'\n');
    text
}

/// The line about the first line of a trace that is not the machine's. Where a verdict is asked for standard output has it, so that only the form of
/// compilers says it once more. Of a page with its differences each is written.
pub fn differs_lines(alloc: Global, form: LineForm, path: &str, asked: Asked, line: u32) -> Text {
    match (form, asked) {
        (LineForm::Gcc, _) => {
            row_line(
                alloc,
                form,
                path,
                line as usize,
                "this line is not the machine's",
            )
        }
        (_, Asked::Waveform | Asked::Page) => seen_line(alloc, path, line, b"--show"),
        _ => Text::new(alloc),
    }
}

/// The line about the line of a partial trace that is not the machine's, with the machine's own where what stands beside a fault is to be shown. Where the
/// verdict is asked for standard output has its number.
fn partly_differs(
    alloc: Global,
    form: LineForm,
    paths: &Paths<'_>,
    asked: Partly,
    line: u32,
    pair: &[u8],
) -> Text {
    let mut text = match (form, asked) {
        (LineForm::Gcc, _) => differs_lines(alloc, form, paths.text, Asked::Verdict, line),
        (_, Partly::Order | Partly::Page) => {
            seen_line(alloc, paths.text, line, b"--partial --show")
        }
        _ => Text::new(alloc),
    };
    let is_written = matches!(
        asked,
        Partly::First | Partly::Each | Partly::DifferencesPage
    );
    if paths.context.is_some() && !is_written {
        text.put(pair);
    }
    text
}

/// What is reported of a partial trace and not written of it: that it has nothing to judge, the line that is not the machine's, and where no verdict is asked
/// for one that is not `yes`.
pub fn partly_lines(
    alloc: Global,
    form: LineForm,
    paths: &Paths<'_>,
    asked: Partly,
    shown: &Shown,
) -> Text {
    let mut text = own_line(alloc, paths.text, None);
    match (shown.verdict, asked) {
        (PartialVerdict::No(line), _) => {
            return partly_differs(alloc, form, paths, asked, line, shown.pair.as_slice());
        }
        (PartialVerdict::Yes, _) if shown.is_empty => text.put(b"nothing to judge\n"),
        (PartialVerdict::Yes, _) | (_, Partly::Verdict | Partly::First) => {
            return Text::new(alloc);
        }
        (PartialVerdict::YesTo(line), _) => {
            text.put(b"yes to ");
            text.put_number(u64::from(line));
            text.put_byte(b'\n');
        }
        (PartialVerdict::NotKnown, _) => text.put(b"not known\n"),
    }
    text
}

/// The fault of the question of a line of a text in this program's own form. It begins at this byte of the question, counted from 1.
pub fn asked_line(
    alloc: Global,
    path: &str,
    line: usize,
    fault: QuestionFault,
    number: usize,
) -> Text {
    let mut text = own_line(alloc, path, Some(line));
    text.put(b": byte ");
    text.put_number(number as u64);
    text.put(b": ");
    text.put(question_code(fault).as_bytes());
    text.put_byte(b' ');
    text.put(question_words(fault).as_bytes());
    text.put_byte(b'\n');
    text
}
