//! What is done of a command line.
ghost use Rattle.std.specs.Prelude.{◌≡◌, ◌≢◌, ◌⊎◌, IfErr, IfOk, drop, map, option_map, slice_get};
ghost use Rattle.std.specs.IoError.{error_kind};
ghost use Rattle.std.specs.declared.io.ErrorKind.TheVariants as kind;
ghost use Rattle.fmp_cli.specs.Cli.{AsksFor};
ghost use Rattle.fmp_cli_diagnostics.specs.Options.{form_from, plain};
ghost use Rattle.fmp_cli_perform.specs.Performed.{DoesWords, IsBegun, IsDone, IsRefusal};
ghost use Rattle.fmp_run_texts.specs.declared.status.Status.TheVariants as status;

use crate::calls::{called, lived};
use crate::lists::{config_listed, described, listed};
use crate::orders::explored;
use crate::refusals::refused;
use crate::scripts::scripted;
use crate::shrinking::shrunk;
use crate::traces::{partly_traced, traced};
use fmp_cli::{Request, parse};
use fmp_cli_desk::{Desk, report_memory};
use fmp_cli_diagnostics::{LineForm, line_form, without_option};
use fmp_cli_faults::settle_context;
use fmp_cli_runs::Describing;
use fmp_run_events::Status;
use std::io;
use std::sync::Wait;
use std::thread::Threads;

/// Does what a request asks for. Fault lines have this form.
fn done<D: Desk, T: Threads + Wait + Sync>(
    desk: &D,
    threads: &T,
    request: &Request<'_>,
    line: LineForm,
) -> Status
    ensures { IsDone (D.text_at desk.now) request.now result }
{
    match request {
        Request::Calls(paths, report, colour) => called(desk, paths, *report, *colour, line),
        Request::Life(paths, names, colour) => lived(desk, paths, *names, *colour, line),
        Request::Trace(paths, asked) => traced(desk, paths, *asked, line),
        Request::Partial(paths, asked) => partly_traced(desk, paths, *asked, line),
        Request::Save(paths) => described(desk, paths, Describing::Save, line),
        Request::Smp(request) => scripted(desk, threads, request, line),
        Request::Explore(request) => explored(desk, request, line),
        Request::Shrink(request) => shrunk(desk, request, line),
        Request::List(name) => listed(desk, *name, line),
        Request::Describe(request) => config_listed(desk, request, line),
    }
}

/// Does what the words ask for, or reports what is wrong with them. Fault lines have this form.
fn execute<D: Desk, T: Threads + Wait + Sync>(
    desk: &D,
    threads: &T,
    words: &[String],
    line: LineForm,
) -> Status
    ensures { IsRefusal result ⊎ DoesWords (D.text_at desk.now) words.now result }
{
    match parse(desk.alloc(), words) {
        Ok(request) => done(desk, threads, &request, line),
        Err(error) => refused(desk, words, &error, line),
    }
}

/// Settles what every command has, and does what the words ask for.
fn begun<D: Desk, T: Threads + Wait + Sync>(desk: &D, threads: &T, mut words: Vec<String>) -> Status
    ensures { IsBegun (D.text_at desk.now) words.items (form_from plain words.items) result }
{
    let line = line_form(words.as_slice());
    if matches!(line, LineForm::Other) {
        desk.note(b"fmpsim: --diagnostics: expected plain or gcc, as in --diagnostics=gcc\n");
        return Status::Usage;
    }
    without_option(&mut words);
    if settle_context(desk.alloc(), &mut words, line, desk.is_error_terminal()).is_err() {
        return report_memory(desk);
    }
    execute(desk, threads, words.as_slice(), line)
}

/// Does what the words of a command line ask for, the first of which is the program's name, at a desk. Processors that follow scripts are played by these
/// threads. Gives how the program ends.
pub fn perform<D: Desk, T: Threads + Wait + Sync>(
    desk: &D,
    threads: &T,
    words: io::Result<Vec<String>>,
) -> Status
    // What the words ask for is done, and the program ends as that ended, or they are refused, ask for help, or memory is wanting for them.
    ensures words { IfOk words (λ words. IsBegun (D.text_at desk.now) words.items (form_from plain words.items) result) }

    // One of them is not UTF-8, or memory was wanting.
    ensures none { IfErr words (λ error. (error_kind error ≡ kind.InvalidData → result ≡ status.Usage)
        × (error_kind error ≢ kind.InvalidData → result ≡ status.Memory)) }
{
    match words {
        Ok(words) => begun(desk, threads, words),
        Err(error) if error.kind() == io::ErrorKind::InvalidData => {
            desk.note(b"fmpsim: a word of the command line is not UTF-8\n");
            Status::Usage
        }
        Err(_) => report_memory(desk),
    }
}
