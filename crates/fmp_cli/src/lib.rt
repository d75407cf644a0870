//! The command lines of the program: which words ask for what. [`parse`] says it by what clap finds in the words under each
//! name, a function of the words that clap's contracts give for such command lines. How the help and the texts of errors read,
//! and which words are refused but for those of `smp`, is run by tests/program.
//!
//! Here stand `calls`, `check`, `wave`, `view` and `list`; those of `smp`, `explore` and `shrink` are in files of their own. All are made of the same
//! parts ([`Part`]).
#![tactic(auto)]

ghost use Rattle.std.specs.Prelude.{◌≡◌, ◌≤◌, IfOk, IsErr, codes, drop, false, length, map, option_map, slice_get, true};
ghost use Rattle.fmp_cli.specs.Found.{found_by, rows_in};
ghost use Rattle.fmp_cli.specs.Cli.{AsksFor, AsksList, IsAsked, IsCalls, IsCheck, IsListedBy, IsView, IsWave, NamesPaths};
ghost use Rattle.fmp_cli.specs.Cli.{calls_line, check_line, list_line, view_line, wave_line};
ghost use Rattle.fmp_cli.specs.Flags.{asked_by, is_path, page_by, partly_by, partly_page_by, report_by, subcommand_by};

mod colours;
mod explore;
mod found;
mod numbers;
mod parts;
mod rooms;
mod seeds;
mod shrink;
mod smp;
mod traces;

use clap::error::ErrorKind;
use clap::{Arg, ArgAction, ArgMatches, Command, Error};
pub use colours::{Colour, colour_of};
pub use explore::{ExploreRequest, FEW_TICKS, explore_command, parse_explore};
use fmp_cli_hints::TextForm;
use fmp_trace_check::Shown;
pub use found::{flag_in, matched, option_in, text_in};
pub use parts::{
    COLOUR_PART, CONFIG_PART, CONTEXT_PART, EVENTS_PART, Form, PROGRESS_PART, Part, SCRIPTS_PART,
    SECONDS_PART, Title, line,
};
pub use rooms::{Memory, places_within};
pub use seeds::Seeds;
pub use shrink::{ShrinkRequest, parse_shrink, shrink_command};
pub use smp::{SmpRequest, parse_smp, smp_command};
use std::alloc::{AllocError, Global};
use traces::{CHECK_HELP, VIEW_HELP, WAVE_HELP};

const ABOUT: &str = "Simulates a multiprocessor real-time kernel in the manner of TOPPERS/FMP";

const CALLS_ABOUT: &str = "Writes the trace of a configuration over a list of events";

const CALLS_HELP: &str = "\
CFG is a configuration in the static API:

  PROCESSORS(2);
  DEF_CLASS(C1, 1, {1, 2});
  CLASS(C1) {
    CRE_TSK(T1, {TA_ACT, 0, main1, 10, 4096, NULL});
    CRE_TSK(T2, {TA_NULL, 0, main2, 5, 4096, NULL});
  }

EVENTS has one event a line, a service call, a tick or an interrupt of a processor. One of the
texts may be `-`, which stands for standard input:

  P1 act_tsk(T2)
  P2 ipi
  P1 tick

The trace, on standard output, has one line for each event: its number, its processor,
who made the call, the event, the answer, and what it changed:

  1 P1 T1 act_tsk(T2) E_OK run=T2

Each line is written as its event comes. Where a text has a fault, the trace of the events
before it is written.

With --state the state of the machine at boot comes first, and the state after its event follows
each line: what each processor runs, the other ready tasks there in their precedence, the tasks
that wait or are suspended, what else is not as it was at boot, and a line that ends it:

  1 P1 T1 act_tsk(T2) E_OK run=T2
    P1 run=T2 ready=T1
    P2 run=-
    T3 waits sem S1 left=10
    S2 count=1
    end

With --changes the state at boot comes first, too, and what of it changed by its event follows
each line: the lines of the processors, each other line of the state that is new or differs, the
name of each line that is gone, and the line that ends it:

  2 P1 T2 sig_sem(S1) E_OK rel=T3:E_OK ipi=2
    P1 run=T2 ready=T1
    P2 run=- ready=T3 latch
    T3
    end

With --of the life of some tasks, handlers and objects is written: what each of them is at boot,
and then each line whose event changes that, and below it those of them that changed. That ticks
count down is no change. This is --of=T2,S1:

  T2 dormant
  S1 count=1
  1 P1 T1 act_tsk(T2) E_OK run=T2
    T2 running P1
  2 P1 T2 wai_sem(S1) E_OK
    S1 count=0

With --color the trace is coloured: a refused answer red, a release green, a dispatch cyan. It is
so at a terminal, unless NO_COLOR is set to a text that is not empty, and elsewhere only with
--color=always.

Exit status:
  0  done
  1  a fault in a text, reported on standard error with its line
  2  the command line is wrong, or nothing in CFG has a name of --of
  3  a file could not be read, or the output not be written
  4  want of memory";

const STATE: &str = "state";

const CHANGES: &str = "changes";

const OF: &str = "of";

const CHECK_ABOUT: &str = "Says whether a trace is what the machine answers to its events";

const WAVE_ABOUT: &str = "Writes the waveform of a trace, for GTKWave and other viewers";

const VIEW_ABOUT: &str = "Writes a page that shows a trace in a browser";

const LIST_ABOUT: &str = "Lists the calls, statements and faults, or what a configuration says";

const LIST_HELP: &str = "\
Without a name: each service call with its arguments, each statement of a configuration with
its fields, and each fault with its number and words. With a name, such as `act_tsk`,
`CRE_TSK` or `E4`: that call with what may be written for its arguments, what it does and what
it answers, that statement with its attributes and the ranges of its numbers on the greatest
machine, or that fault with what to do about it. An answer, a word of a trace, an attribute or
a constant, such as `E_QOVR`, `held` or `TA_TPRI`: what it means.

With a name that has a `.` or a `/` in it, the path of a configuration: what was read of it, in
a line each. An object has its number there, its name, and the fields of its statement:

  processors 2
  timer local
  limits wupcnt 1 pri 16
  class C1 initial P1 processors P1 P2
  task 1 T1 class C1 attr TA_ACT main main1 itskpri 10
  task 2 T2 class C1 attr TA_NULL main main2 itskpri 5
  function 1 main1
  function 2 main2

Exit status:
  0  done
  1  a fault in a text, reported on standard error with its line
  2  the command line is wrong, or nothing is called so
  3  a file could not be read, or the output not be written
  4  want of memory";

const SHOW: &str = "show";

const ALL: &str = "all";

const PARTIAL: &str = "partial";

const ORDER: &str = "order";

const GTKW: &str = "gtkw";

const DIFFERENCES: &str = "differences";

const CONTEXT: &str = "context";

const TRACE: &str = "TRACE";

const NAME: &str = "NAME";

const CALLS: Title<'static> = Title {
    name: "calls",
    bin_name: "fmpsim calls",
    about: CALLS_ABOUT,
    help: CALLS_HELP,
};

const CALLS_PARTS: &[Part<'static>] = &[
    CONFIG_PART,
    EVENTS_PART,
    Part {
        id: STATE,
        form: Form::OneOfThree(CHANGES, OF),
        about: "Also writes the state at boot and after each event",
    },
    Part {
        id: CHANGES,
        form: Form::OneOfThree(STATE, OF),
        about: "Also writes the state at boot, and what of it each event changed",
    },
    Part {
        id: OF,
        form: Form::Value("NAMES"),
        about: "Writes only what changes these: names of tasks, handlers and objects, with commas between",
    },
    CONTEXT_PART,
    COLOUR_PART,
];

const CHECK: Title<'static> = Title {
    name: "check",
    bin_name: "fmpsim check",
    about: CHECK_ABOUT,
    help: CHECK_HELP,
};

const CHECK_PARTS: &[Part<'static>] = &[
    CONFIG_PART,
    TRACE_PART,
    Part {
        id: SHOW,
        form: Form::OneOfThree(ALL, ORDER),
        about: "Also shows the first line that differs",
    },
    Part {
        id: ALL,
        form: Form::OneOfThree(SHOW, ORDER),
        about: "Shows each line that differs, as a unified diff",
    },
    Part {
        id: PARTIAL,
        form: Form::Flag,
        about: "Judges only what is written of each line",
    },
    Part {
        id: ORDER,
        form: Form::OneOfThree(SHOW, ALL),
        about: "Writes the machine's own lines of a partial trace, in the order in which it plays them",
    },
    CONTEXT_PART,
];

const WAVE: Title<'static> = Title {
    name: "wave",
    bin_name: "fmpsim wave",
    about: WAVE_ABOUT,
    help: WAVE_HELP,
};

const WAVE_PARTS: &[Part<'static>] = &[
    CONFIG_PART,
    TRACE_PART,
    Part {
        id: GTKW,
        form: Form::Choice(TRACE),
        about: "Writes GTKWave's save file for CFG, without TRACE",
    },
    CONTEXT_PART,
];

const VIEW: Title<'static> = Title {
    name: "view",
    bin_name: "fmpsim view",
    about: VIEW_ABOUT,
    help: VIEW_HELP,
};

const VIEW_PARTS: &[Part<'static>] = &[
    CONFIG_PART,
    TRACE_PART,
    Part {
        id: DIFFERENCES,
        form: Form::Flag,
        about: "Shows any trace, with each line that differs from the machine",
    },
    Part {
        id: PARTIAL,
        form: Form::Flag,
        about: "Shows a trace that leaves out parts as the machine's own",
    },
    CONTEXT_PART,
];

const LIST: Title<'static> = Title {
    name: "list",
    bin_name: "fmpsim list",
    about: LIST_ABOUT,
    help: LIST_HELP,
};

const LIST_PARTS: &[Part<'static>] = &[
    Part {
        id: NAME,
        form: Form::Name,
        about: "A call, a statement, the number of a fault, or the path of a configuration",
    },
    CONTEXT_PART,
];

const TRACE_PART: Part<'static> = Part {
    id: TRACE,
    form: Form::Path,
    about: "Path of the trace",
};

/// The subcommands.
#[derive(Clone, Copy)]
pub enum Subcommand {
    Calls,
    Check,
    Wave,
    View,
    Smp,
    Explore,
    Shrink,
    List,
}

const SUBCOMMANDS: &[Subcommand] = &[
    Subcommand::Calls,
    Subcommand::Check,
    Subcommand::Wave,
    Subcommand::View,
    Subcommand::Smp,
    Subcommand::Explore,
    Subcommand::Shrink,
    Subcommand::List,
];

/// The paths of a configuration and of the other text.
#[derive(Clone, Copy)]
pub struct Paths<'a> {
    pub config: &'a str,
    pub text: &'a str,
    /// What the other text is, where what stands beside a fault is to be shown.
    pub context: Option<TextForm>,
}

/// What is written of each event.
#[derive(Clone, Copy)]
pub enum Report {
    /// Its line of the trace.
    Line,
    /// That, and the state after it.
    State,
    /// Its line, and what of the state it changed.
    Changes,
}

/// What is asked of a trace.
#[derive(Clone, Copy)]
pub enum Asked {
    /// Whether it is the machine's.
    Verdict,
    /// Where it is not the machine's.
    Differences(Shown),
    /// Its waveform.
    Waveform,
    /// A page that shows it in a browser.
    Page,
    /// A page that shows it as the machine would have it, beside its lines that are not the machine's.
    DifferencesPage,
}

/// What is written of a partial trace.
#[derive(Clone, Copy)]
pub enum Partly {
    /// The verdict.
    Verdict,
    /// That, and the first line that is not the machine's.
    First,
    /// Each line that is not the machine's.
    Each,
    /// The machine's own lines, in the order in which it plays them.
    Order,
    /// A page of these, where the lines are the machine's.
    Page,
    /// That, or a page of the machine's own lines up to the first that is not, beside that line.
    DifferencesPage,
}

/// A configuration of which is listed what was read.
#[derive(Clone, Copy)]
pub struct Described<'a> {
    /// Its path.
    pub config: &'a str,
    /// Whether what stands beside a fault is to be shown.
    pub context: bool,
}

/// What the command line asks for.
#[derive(Clone, Copy)]
pub enum Request<'a> {
    /// What a configuration answers to a list of events.
    Calls(Paths<'a>, Report, Colour),
    /// What of the things with these names, between commas, the events change.
    Life(Paths<'a>, &'a str, Colour),
    /// What is asked of a trace.
    Trace(Paths<'a>, Asked),
    /// What is asked of a trace of which lines leave out parts.
    Partial(Paths<'a>, Partly),
    /// GTKWave's save file for a configuration. There is no other text.
    Save(Paths<'a>),
    /// The trace of processors that follow scripts.
    Smp(SmpRequest<'a>),
    /// What every order of what scripts ask shows.
    Explore(ExploreRequest<'a>),
    /// The events that are needed to show something.
    Shrink(ShrinkRequest<'a>),
    /// What may be written: all of it, or what is called so.
    List(Option<&'a str>),
    /// What was read of a configuration.
    Describe(Described<'a>),
}

/// The option for the form of fault lines, which goes with every command and is taken from the words before these are parsed.
fn diagnostics<'a>(alloc: Global) -> Arg<'a> {
    Arg::new(alloc, "diagnostics")
        .long("diagnostics")
        .value_name("FORM")
        .require_equals(true)
        .action(ArgAction::Set)
        .help("How each command reports faults, plain or gcc, by which editors jump to the place")
}

/// The command of a subcommand, for its help and for what is wrong in it.
fn command_of<'a>(alloc: Global, subcommand: Subcommand) -> Result<Command<'a>, AllocError> {
    match subcommand {
        Subcommand::Calls => line(alloc, CALLS, CALLS_PARTS),
        Subcommand::Check => line(alloc, CHECK, CHECK_PARTS),
        Subcommand::Wave => line(alloc, WAVE, WAVE_PARTS),
        Subcommand::View => line(alloc, VIEW, VIEW_PARTS),
        Subcommand::Smp => smp_command(alloc),
        Subcommand::Explore => explore_command(alloc),
        Subcommand::Shrink => shrink_command(alloc),
        Subcommand::List => line(alloc, LIST, LIST_PARTS),
    }
}

/// The program's command without its subcommands.
fn program<'a>(alloc: Global) -> Result<Command<'a>, AllocError> {
    Command::new(alloc, "fmpsim")
        .about(ABOUT)
        .version("0.1.0")
        .subcommand_required(true)
        .arg_required_else_help(true)
        .arg(diagnostics(alloc))
}

/// The whole command line, for its help and for what is wrong in it.
fn whole_command<'a>(alloc: Global) -> Result<Command<'a>, AllocError> {
    let mut whole = program(alloc)?;
    for subcommand in SUBCOMMANDS {
        whole = whole.subcommand(command_of(alloc, *subcommand)?)?;
    }
    Ok(whole)
}

/// The two paths that the words after a subcommand name.
fn named_paths<'a>(matches: &ArgMatches<'a>, text: &str, form: TextForm) -> Paths<'a>
    ensures { NamesPaths (rows_in matches.now) text.now form result }
{
    let config = text_in(matches, "CFG");
    let named = text_in(matches, text);
    let context = flag_in(matches, CONTEXT).then_some(form);
    Paths {
        config,
        text: named,
        context,
    }
}

/// What is told of each event.
fn report_for(state: bool, changes: bool) -> Report
    ensures { result ≡ report_by state changes }
{
    match (state, changes) {
        (true, _) => Report::State,
        (false, true) => Report::Changes,
        (false, false) => Report::Line,
    }
}

/// What is asked of a trace by these flags.
fn asked_for(show: bool, all: bool) -> Asked
    ensures { result ≡ asked_by show all }
{
    match (show, all) {
        (true, _) => Asked::Differences(Shown::First),
        (false, true) => Asked::Differences(Shown::Each),
        (false, false) => Asked::Verdict,
    }
}

/// What is written of a partial trace by these flags.
fn partly_for(show: bool, all: bool, order: bool) -> Partly
    ensures { result ≡ partly_by show all order }
{
    match (show, all, order) {
        (_, _, true) => Partly::Order,
        (true, _, false) => Partly::First,
        (false, true, false) => Partly::Each,
        (false, false, false) => Partly::Verdict,
    }
}

/// What `calls` is asked for: what of some things changes where `--of` stands, the state too where `--state` does, and what of it changed where
/// `--changes` does.
fn calls_in<'a>(matches: &ArgMatches<'a>) -> Request<'a>
    ensures { IsCalls (rows_in matches.now) result }
{
    let paths = named_paths(matches, "EVENTS", TextForm::Events);
    let report = report_for(flag_in(matches, STATE), flag_in(matches, CHANGES));
    let colour = colour_of(matches);
    match option_in(matches, OF) {
        Some(names) => Request::Life(paths, names, colour),
        None => Request::Calls(paths, report, colour),
    }
}

/// What `check` is asked for: of a partial trace where `--partial` or `--order` stands, by `--show`, by `--all`, or by none of them.
fn check_in<'a>(matches: &ArgMatches<'a>) -> Request<'a>
    ensures { IsCheck (rows_in matches.now) result }
{
    let show = flag_in(matches, SHOW);
    let all = flag_in(matches, ALL);
    let order = flag_in(matches, ORDER);
    if flag_in(matches, PARTIAL) || order {
        let paths = named_paths(matches, TRACE, TextForm::Partial);
        return Request::Partial(paths, partly_for(show, all, order));
    }
    let paths = named_paths(matches, TRACE, TextForm::Trace);
    Request::Trace(paths, asked_for(show, all))
}

/// What `wave` is asked for: the save file where `--gtkw` stands, and else the waveform.
fn wave_in<'a>(matches: &ArgMatches<'a>) -> Request<'a>
    ensures { IsWave (rows_in matches.now) result }
{
    let paths = named_paths(matches, TRACE, TextForm::Trace);
    if flag_in(matches, GTKW) {
        Request::Save(paths)
    } else {
        Request::Trace(paths, Asked::Waveform)
    }
}

/// Which page is asked for, by the flag.
fn page_for(differences: bool) -> Asked
    ensures { result ≡ page_by differences }
{
    if differences {
        Asked::DifferencesPage
    } else {
        Asked::Page
    }
}

/// Which page of a partial trace is asked for, by the flag.
fn partly_page_for(differences: bool) -> Partly
    ensures { result ≡ partly_page_by differences }
{
    if differences {
        Partly::DifferencesPage
    } else {
        Partly::Page
    }
}

/// What `view` is asked for: the lines that differ too where `--differences` stands, and of a partial trace where `--partial` does.
fn view_in<'a>(matches: &ArgMatches<'a>) -> Request<'a>
    ensures { IsView (rows_in matches.now) result }
{
    let differences = flag_in(matches, DIFFERENCES);
    if flag_in(matches, PARTIAL) {
        let paths = named_paths(matches, TRACE, TextForm::Partial);
        return Request::Partial(paths, partly_page_for(differences));
    }
    let paths = named_paths(matches, TRACE, TextForm::Trace);
    Request::Trace(paths, page_for(differences))
}

/// Whether a word after `list` is the path of a configuration: it has a `.` or a `/` in it, as nothing has that is called so.
fn is_path(word: &str) -> bool
    ensures { result ≡ is_path word.entry.now }
{
    word.as_bytes()
        .iter()
        .any(|byte| *byte == b'.' || *byte == b'/')
}

/// What `list` is asked for by the word after it, if there is one, and by the flag.
fn listed<'a>(name: Option<&'a str>, context: bool) -> Request<'a>
    ensures { IsListedBy (option_map (λ s. s.now) name.entry) context result }
{
    let Some(word) = name else {
        return Request::List(None);
    };
    if is_path(word) {
        Request::Describe(Described {
            config: word,
            context,
        })
    } else {
        Request::List(Some(word))
    }
}

/// What `list` is asked for: what was read of a configuration where a path stands after it, and else what may be written.
fn list_in<'a>(matches: &ArgMatches<'a>) -> Request<'a>
    ensures { AsksList (rows_in matches.now) result }
{
    let context = flag_in(matches, CONTEXT);
    listed(option_in(matches, NAME), context)
}

/// What the words of `calls` ask for.
fn parse_calls<'a>(alloc: Global, words: &'a [String]) -> Result<Request<'a>, Error>
    ensures { IfOk result (IsCalls (found_by calls_line (map (λ w. w.bytes.items) words.now))) }
{
    let matches = matched(alloc, CALLS, CALLS_PARTS, words)?;
    Ok(calls_in(&matches))
}

/// What the words of `check` ask for.
fn parse_check<'a>(alloc: Global, words: &'a [String]) -> Result<Request<'a>, Error>
    ensures { IfOk result (IsCheck (found_by check_line (map (λ w. w.bytes.items) words.now))) }
{
    let matches = matched(alloc, CHECK, CHECK_PARTS, words)?;
    Ok(check_in(&matches))
}

/// What the words of `wave` ask for.
fn parse_wave<'a>(alloc: Global, words: &'a [String]) -> Result<Request<'a>, Error>
    ensures { IfOk result (IsWave (found_by wave_line (map (λ w. w.bytes.items) words.now))) }
{
    let matches = matched(alloc, WAVE, WAVE_PARTS, words)?;
    Ok(wave_in(&matches))
}

/// What the words of `view` ask for.
fn parse_view<'a>(alloc: Global, words: &'a [String]) -> Result<Request<'a>, Error>
    ensures { IfOk result (IsView (found_by view_line (map (λ w. w.bytes.items) words.now))) }
{
    let matches = matched(alloc, VIEW, VIEW_PARTS, words)?;
    Ok(view_in(&matches))
}

/// What the words of `list` ask for.
fn parse_list<'a>(alloc: Global, words: &'a [String]) -> Result<Request<'a>, Error>
    ensures { IfOk result (AsksList (found_by list_line (map (λ w. w.bytes.items) words.now))) }
{
    let matches = matched(alloc, LIST, LIST_PARTS, words)?;
    Ok(list_in(&matches))
}

/// What the words after the program's name ask for, of which the first names the subcommand.
fn parse_as<'a>(
    alloc: Global,
    subcommand: Subcommand,
    words: &'a [String],
) -> Result<Request<'a>, Error>
    ensures { IfOk result (IsAsked subcommand (map (λ w. w.bytes.items) words.now)) }
{
    match subcommand {
        Subcommand::Calls => parse_calls(alloc, words),
        Subcommand::Check => parse_check(alloc, words),
        Subcommand::Wave => parse_wave(alloc, words),
        Subcommand::View => parse_view(alloc, words),
        Subcommand::Smp => Ok(Request::Smp(parse_smp(alloc, words)?)),
        Subcommand::Explore => Ok(Request::Explore(parse_explore(alloc, words)?)),
        Subcommand::Shrink => Ok(Request::Shrink(parse_shrink(alloc, words)?)),
        Subcommand::List => parse_list(alloc, words),
    }
}

/// The word after the program's name, which names the command.
fn command_word<'a>(words: &'a [String]) -> Option<&'a str>
    ensures { option_map (λ w. w.now) result ≡ option_map (λ w. w.bytes.items) (slice_get words.now 1) }
{
    words.get(1).map(|word| word.as_str())
}

/// The subcommand that a word names, if it names one.
fn subcommand_for(word: Option<&str>) -> Option<Subcommand>
    ensures { result ≡ subcommand_by (option_map (λ w. w.now) word.entry) }
{
    match word {
        Some("calls") => Some(Subcommand::Calls),
        Some("check") => Some(Subcommand::Check),
        Some("wave") => Some(Subcommand::Wave),
        Some("view") => Some(Subcommand::View),
        Some("smp") => Some(Subcommand::Smp),
        Some("explore") => Some(Subcommand::Explore),
        Some("shrink") => Some(Subcommand::Shrink),
        Some("list") => Some(Subcommand::List),
        _ => None,
    }
}

/// The words after the program's name.
fn following<'a>(words: &'a [String]) -> &'a [String]
    requires { 1 ≤ length words.now }
    ensures { result.now ≡ drop 1 words.now }
{
    &words[1..]
}

/// What is wrong in a command line that names no subcommand.
fn refuse<'a>(alloc: Global, words: &'a [String]) -> Result<Request<'a>, Error>
    ensures { IsErr result }
{
    let mut whole = whole_command(alloc)?;
    whole.try_get_matches_from_mut(words)?;
    Err(whole.error(ErrorKind::MissingSubcommand, "a subcommand is expected")?)
}

/// What the words of the command line ask for: the word after the program's name says which command, and each part of the
/// request is what clap finds in that word and those after it under one name of that command.
pub fn parse<'a>(alloc: Global, words: &'a [String]) -> Result<Request<'a>, Error>
    ensures { IfOk result (AsksFor (option_map (λ w. w.bytes.items) (slice_get words.now 1))
        (map (λ w. w.bytes.items) (drop 1 words.now))) }
{
    match subcommand_for(command_word(words)) {
        Some(subcommand) => parse_as(alloc, subcommand, following(words)),
        None => refuse(alloc, words),
    }
}
