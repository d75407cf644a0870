//! The command line of `fmpsim shrink`.
//!
//! [`parse_shrink`] says which part of a request is what clap finds under which name in the words of a command line (`specs/Shrink`). How
//! the help and the texts of errors read is tested in `fmpsim`.

ghost use Rattle.std.specs.Prelude.{◌≡◌, IfOk, map};
ghost use Rattle.clap.specs.Words.{app_of};
ghost use Rattle.fmp_cli.specs.Found.{rows_in};
ghost use Rattle.fmp_cli.specs.Shrink.Shrink.{Asks, found_in, shrink_line};

use crate::found::{flag_in, matched, text_in};
use crate::parts::{CONFIG_PART, CONTEXT_PART, EVENTS_PART, Form, Part, Title, line};
use clap::{ArgMatches, Command, Error};
use std::alloc::{AllocError, Global};

const ABOUT: &str = "Leaves out the events that are not needed to show something";

const HELP: &str = "\
CFG is a configuration, and EVENTS a list of events as for `fmpsim calls`. It may be `-`, which
stands for standard input. QUESTION is what the answers to the events have to show, in the words
of `fmpsim explore`:

  a call answers an error                 --find 'LOGGER snd_dtq(LOG, *) E_CTX'
  a value is lost                         --find 'lost=*'
  all that run end up waiting             --find 'end & waits'

Events are left out for as long as what is left still shows it: many in a row at first, and at
last one by one. On standard output is a list of events, in the order in which they were given,
of which no single one can go. `fmpsim calls CFG -` answers it.

A call is made by whoever runs at its line, so without an event that stood before it another task
may make it. With `--runs` each task and handler makes only calls that it makes where all EVENTS
are given, in its own order of them.

Exit status:
  0  done: the events that are left were written
  1  a fault in a text or in the question, reported on standard error with its place
  2  the command line is wrong
  3  a file could not be read, or the output not be written
  4  want of memory
  5  no: the answers to the events do not show it, and nothing was written";

const TITLE: Title<'static> = Title {
    name: "shrink",
    bin_name: "fmpsim shrink",
    about: ABOUT,
    help: HELP,
};

const PARTS: &[Part<'static>] = &[
    CONFIG_PART,
    EVENTS_PART,
    Part {
        id: "find",
        form: Form::Wanted("QUESTION"),
        about: "What the answers to the events have to show",
    },
    Part {
        id: "runs",
        form: Form::Flag,
        about: "Keep each task's and each handler's own order of calls",
    },
    CONTEXT_PART,
];

/// What the command line of `fmpsim shrink` asks for.
#[derive(Clone, Copy)]
pub struct ShrinkRequest<'a> {
    /// The path of the configuration.
    pub config: &'a str,
    /// The path of the events.
    pub events: &'a str,
    pub question: &'a str,
    /// Whether each task and handler keeps its own order of calls.
    pub runs: bool,
    /// Whether what stands beside a fault is to be shown.
    pub context: bool,
}

/// The command, for its help and for what is wrong in it.
pub fn shrink_command<'a>(alloc: Global) -> Result<Command<'a>, AllocError>
    ensures { IfOk result (λ c. app_of c ≡ shrink_line) }
{
    line(alloc, TITLE, PARTS)
}

/// The request that the matches are: each of its parts is what they have under one name.
fn request_of<'a>(matches: &ArgMatches<'a>) -> ShrinkRequest<'a>
    ensures { Asks (rows_in matches.now) result }
{
    let config = text_in(matches, "CFG");
    let events = text_in(matches, "EVENTS");
    let question = text_in(matches, "find");
    let runs = flag_in(matches, "runs");
    let context = flag_in(matches, "context");
    ShrinkRequest {
        config,
        events,
        question,
        runs,
        context,
    }
}

/// What the words of the command line ask for, from `shrink` on. Each part of the request is what clap finds in these words under one
/// name. Otherwise the error says what is wrong, or that memory ran out.
pub fn parse_shrink<'a>(alloc: Global, words: &'a [String]) -> Result<ShrinkRequest<'a>, Error>
    ensures { IfOk result (Asks (found_in (map (λ w. w.bytes.items) words.now))) }
{
    let matches = matched(alloc, TITLE, PARTS, words)?;
    Ok(request_of(&matches))
}
