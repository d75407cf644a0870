//! The tasks that wait at the end of a run: in this program's own form, or in that of compilers at the script of each.
use fmp_cli_diagnostics::LineForm;
use fmp_codes::{NameKind, ObjectKind};
use fmp_config::{Config, MOST_BYTES as MOST_CONFIG_BYTES, read_config};
use fmp_out::Text;
use fmp_run_texts::Status;
use std::alloc::Global;

/// A run that has ended with tasks that wait.
#[derive(Clone, Copy)]
pub struct Waiting<'a> {
    /// A line for each of them.
    pub lines: &'a str,
    /// How the run ends the program.
    pub status: Status,
    /// The text of the configuration.
    pub config: &'a [u8],
}

/// The line at which the script of a function begins, counted from 1.
fn script_line(scripts: &str, function: &[u8]) -> Option<usize> {
    for (index, line) in scripts.lines().enumerate() {
        let mut words = line.split_whitespace();
        if words.next() == Some("script")
            && words.next().map(|name| name.as_bytes()) == Some(function)
        {
            return Some(index.saturating_add(1));
        }
    }
    None
}

/// The name of the function that the task of a name runs.
fn function_of<'a>(config: &'a Config, task: &str) -> Option<&'a [u8]> {
    let number = config
        .names()
        .number(NameKind::Object(ObjectKind::Task), task.as_bytes())?;
    let setup = config.tasks().get(number.checked_sub(1)?)?;
    config
        .names()
        .name(NameKind::Function, usize::from(setup.main))
}

/// The line at which the script begins that the task of such a line runs.
fn line_of(config: Option<&Config>, scripts: &str, line: &str) -> Option<usize> {
    let task = line.split_whitespace().next().unwrap_or("");
    script_line(scripts, function_of(config?, task)?)
}

/// The tasks as compilers have them: as errors where they are why the run ends the program so.
fn placed_lines(alloc: Global, path: &str, waiting: Waiting<'_>, scripts: &[u8]) -> Text {
    let grade = if waiting.status == Status::Waiting {
        b": error: ".as_slice()
    } else {
        b": warning: ".as_slice()
    };
    let config = if waiting.config.len() <= MOST_CONFIG_BYTES {
        read_config(alloc, waiting.config).ok()
    } else {
        None
    };
    let scripts = str::from_utf8(scripts).unwrap_or("");
    let mut text = Text::new(alloc);
    for line in waiting.lines.lines() {
        text.put(path.as_bytes());
        if let Some(number) = line_of(config.as_ref(), scripts, line) {
            text.put_byte(b':');
            text.put_number(number as u64);
        }
        text.put(grade);
        text.put(line.as_bytes());
        text.put_byte(b'\n');
    }
    text
}

/// The tasks, a line each. The scripts are those at this path, or empty where they were not kept.
pub fn waiting_lines(
    alloc: Global,
    form: LineForm,
    path: &str,
    waiting: Waiting<'_>,
    scripts: &[u8],
) -> Text {
    if matches!(form, LineForm::Gcc) {
        return placed_lines(alloc, path, waiting, scripts);
    }
    let mut text = Text::new(alloc);
    for line in waiting.lines.lines() {
        text.put(b"fmpsim: ");
        text.put(line.as_bytes());
        text.put_byte(b'\n');
    }
    text
}
