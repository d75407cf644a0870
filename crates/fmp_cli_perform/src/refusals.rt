//! What is reported of a command line that is refused.
ghost use Rattle.std.specs.Prelude.{◌≡◌, ◌⊎◌, ◌≢◌, IfErr, false};
ghost use Rattle.fmp_cli_perform.specs.Performed.{IsRefusal, IsUnlisted};

use clap::error::ErrorKind;
use fmp_cli_desk::{
    Desk, Ending, FaultForm, NO_PATHS, ended, put_lines, report_memory, settled_write,
};
use fmp_cli_diagnostics::LineForm;
use fmp_cli_faults::{near_option_lines, refused_number};
use fmp_cli_hints::TextForm;
use fmp_run_events::Status;
use std::io;

/// How a refused command line ends the program. Help is asked for, so nothing is wrong there.
fn status_of(error: &clap::Error) -> Status
    ensures { IsRefusal result }
{
    match error.kind() {
        ErrorKind::OutOfMemory => Status::Memory,
        ErrorKind::DisplayHelp | ErrorKind::DisplayVersion => Status::Done,
        _ => Status::Usage,
    }
}

/// What became of help that was put. What is wrong with a command line goes to standard error: where that fails nothing can be reported, and the status stays.
fn settled_help(error: &clap::Error, put: io::Result<()>) -> Result<(), Ending>
    ensures { IfErr result IsUnlisted }
{
    if error.use_stderr() {
        Ok(())
    } else {
        settled_write(put)
    }
}

/// Reports help, or what is wrong with the command line, and how that ends the program.
fn put_help<D: Desk>(
    desk: &D,
    words: &[String],
    error: &clap::Error,
    status: Status,
    line: LineForm,
) -> Status
    requires { IsRefusal status }
    ensures { IsRefusal result }
{
    // No text is read, so that of their forms any will do.
    let text = TextForm::Events;
    match settled_help(error, desk.put_help(error)) {
        Ok(()) => {
            put_lines(desk, near_option_lines(desk.alloc(), words));
            status
        }
        Err(ending) => ended(desk, &NO_PATHS, FaultForm { line, text }, Err(ending)),
    }
}

/// Reports help, or what is wrong with the command line, and how that ends the program. Of a number of `smp` it is reported which one is expected.
pub fn refused<D: Desk>(desk: &D, words: &[String], error: &clap::Error, line: LineForm) -> Status
    ensures { IsRefusal result }
{
    if let Some(number) = refused_number(words, error) {
        put_lines(desk, number.line(desk.alloc()));
        return Status::Usage;
    }
    match status_of(error) {
        Status::Memory => report_memory(desk),
        status => put_help(desk, words, error, status, line),
    }
}
