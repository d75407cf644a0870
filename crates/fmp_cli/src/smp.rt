//! The command line of `fmpsim smp`. Its numbers are within their limits by what clap promises, and are not tested again.
//!
//! [`Limits`] are the numbers, in their ranges by their type, and [`smp_command`] is the command whose contract says what a
//! parse reads of it (`specs/Smp`). [`parse_smp`] says which part of a request is what clap finds under which name in the words
//! of a command line, and which words are refused, by the functions of the words that clap's contracts give for such a command.
//! How the help and the texts of errors read is tested in `fmpsim`.
ghost use Rattle.std.specs.Prelude.{◌≡◌, IfOk, map};
ghost use Rattle.clap.specs.Words.{FailsBy};
ghost use Rattle.fmp_cli.specs.Found.{rows_in};
ghost use Rattle.fmp_cli.specs.Smp.{Asks, AsksLimits, GivesAll, GivesLimits, IsSmp, faults_in, found_in};

use crate::colours::{Colour, colour_of};
use crate::found::{flag_in, option_in, text_in};
use crate::parts::{
    COLOUR_PART, CONFIG_PART, CONTEXT_PART, Form, PROGRESS_PART, Part, SCRIPTS_PART, SECONDS_PART,
    Title, line,
};
use crate::seeds::{Seeds, seeds_of};
use clap::{ArgMatches, Command, Error};
use fmp_ranges::{Limits, Ticks, Turns};
use std::alloc::{AllocError, Global};

const ABOUT: &str = "Runs processors that follow scripts, each in a thread of its own";

const HELP: &str = "\
CFG is a configuration, and SCRIPTS says what the tasks and handlers of a function do, one
service call a line. It may be `-`, which stands for standard input:

  script main1
    act_tsk(T2)
    slp_tsk()
  end

A task that has come to the end of its script ends, as by `ext_tsk()`, and a handler returns. A
call that is answered with `spin` is made again.

Each processor takes its turns in a thread of its own: it takes a pending request, or makes the
call that is next in the script of its due handler or else of its running task. A clock gives
each processor its ticks, round by round; under `TIMER(GLOBAL, p);` it gives them to p alone, the
only one whose ticks count. The run ends when all ticks are taken and no processor has anything
left to do, or when there were as many events as --turns says.

The trace, on standard output, has one line for each event, in the order in which they happened,
as that of `fmpsim calls`, and in its colours. That order may be another one each time. With
--seed the processors and the clock take turns without threads, in an order that the number
determines. On standard error stands who still waits at the end, and for what, a line a task, as
in the states of `fmpsim calls --state`:

  fmpsim: T1 waits sem S1 left=3

With --seeds A..B the orders of the seeds A, A + 1 to B are played one after the other, without
threads, up to the first at whose end a task waits while nothing is left to do, or with --find
QUESTION up to the first that shows what QUESTION asks, as `fmpsim explore` has it. Its trace is
written, and its seed is told before the tasks. Where there is none, nothing is written.

In these orders a request is taken before the next call of its processor. With --late a seed draws
one of all orders, as those of `fmpsim explore`, in which it may come later, and with --stalls one
in which now and then a processor stands still while the others go on. With --seconds N the search
ends after N seconds; the last seed that was played is reported on standard error.

Exit status:
  0  all ticks were taken, and no processor had anything left to do; or no seed was found
  1  a fault in a text or in the question, reported on standard error with its place
  2  the command line is wrong
  3  a file could not be read, or the output not be written
  4  want of memory or of threads
  5  with --find: the order of a seed shows it; its trace was written
  6  there were as many events as --turns says; their trace was written; or --seconds ended a search
  7  with --strict, or with --seeds and no --find: as 0, but a task waits";

const TITLE: Title<'static> = Title {
    name: "smp",
    bin_name: "fmpsim smp",
    about: ABOUT,
    help: HELP,
};

const PARTS: &[Part<'static>] = &[
    CONFIG_PART,
    SCRIPTS_PART,
    Part {
        id: "ticks",
        form: Form::Number(0, 1_000_000),
        about: "How many ticks each processor takes whose ticks count, 0 to 1000000",
    },
    Part {
        id: "turns",
        form: Form::Number(1, 1_000_000),
        about: "How many events the run has at most, 1 to 1000000",
    },
    Part {
        id: "seed",
        form: Form::Seed,
        about: "Runs without threads, in an order that this number determines",
    },
    Part {
        id: "seeds",
        form: Form::Value("SEEDS"),
        about: "Goes through the orders of the seeds A..B, up to one that ends while a task waits",
    },
    Part {
        id: "find",
        form: Form::Value("QUESTION"),
        about: "What is looked for in the orders of --seeds",
    },
    Part {
        id: "late",
        form: Form::Flag,
        about: "Has --seeds draw orders in which a request may be taken late",
    },
    Part {
        id: "stalls",
        form: Form::Flag,
        about: "Has --seeds draw orders in which now and then a processor stands still",
    },
    SECONDS_PART,
    Part {
        id: "strict",
        form: Form::Flag,
        about: "Ends with status 7 where a task waits at the end, and nothing else is left to do",
    },
    PROGRESS_PART,
    CONTEXT_PART,
    COLOUR_PART,
];

/// What the command line of `fmpsim smp` asks for.
#[derive(Clone, Copy)]
pub struct SmpRequest<'a> {
    /// The path of the configuration.
    pub config: &'a str,
    /// The path of the scripts.
    pub scripts: &'a str,
    pub limits: Limits,
    /// What determines the order of a run without threads.
    pub seed: Option<u64>,
    /// The seeds of a run that goes through many.
    pub seeds: Seeds,
    /// The question of which one of these is to show what it asks. Without it one is looked for that ends while a task waits.
    pub find: Option<&'a str>,
    /// Whether seeds draw orders in which a request may be taken after other events of its processor.
    pub late: bool,
    /// Whether they draw orders in which now and then a processor stands still.
    pub stalls: bool,
    /// After how many seconds a run that goes through many seeds ends.
    pub seconds: Option<u64>,
    /// Whether it is a status of its own that a task waits at a quiet end.
    pub strict: bool,
    /// Whether it is told how far a run of many seeds has come.
    pub progress: bool,
    /// Whether what stands beside a fault is to be shown.
    pub context: bool,
    /// When the trace is coloured.
    pub colour: Colour,
}

/// The command, for its help and for what is wrong in it.
pub fn smp_command<'a>(alloc: Global) -> Result<Command<'a>, AllocError>
    ensures { IfOk result IsSmp }
{
    line(alloc, TITLE, PARTS)
}

/// The numbers of `--ticks` and `--turns`, each in its own place.
fn limits_of<'a>(matches: &ArgMatches<'a>) -> Limits
    requires { GivesLimits matches.now }
    ensures { AsksLimits (rows_in matches.now) result }
{
    let ticks = matches.get_one::<u32>("ticks").unwrap();
    let turns = matches.get_one::<u32>("turns").unwrap();
    Limits {
        ticks: Ticks { count: ticks },
        turns: Turns { count: turns },
    }
}

/// The request that the matches are: each of its parts is what they have under one name.
fn request_of<'a>(matches: &ArgMatches<'a>) -> SmpRequest<'a>
    requires { GivesAll matches.now }
    ensures { Asks (rows_in matches.now) result }
{
    let config = text_in(matches, "CFG");
    let scripts = text_in(matches, "SCRIPTS");
    let limits = limits_of(matches);
    let seed = matches.get_one::<u64>("seed");
    let seeds = seeds_of(matches);
    let find = option_in(matches, "find");
    let late = flag_in(matches, "late");
    let stalls = flag_in(matches, "stalls");
    let seconds = matches.get_one::<u64>("seconds");
    let strict = flag_in(matches, "strict");
    let progress = flag_in(matches, "progress");
    let context = flag_in(matches, "context");
    let colour = colour_of(matches);
    SmpRequest {
        config,
        scripts,
        limits,
        seed,
        seeds,
        find,
        late,
        stalls,
        seconds,
        strict,
        progress,
        context,
        colour,
    }
}

/// What the words of the command line ask for, from `smp` on. Each part of the request is what clap finds in these words
/// under one name. There is a request only where clap finds nothing wrong in them, and otherwise the error says what is wrong,
/// or that memory ran out.
pub fn parse_smp<'a>(alloc: Global, words: &'a [String]) -> Result<SmpRequest<'a>, Error>
    ensures asks { IfOk result (Asks (found_in (map (λ w. w.bytes.items) words.now))) }
    ensures fails { FailsBy (faults_in (map (λ w. w.bytes.items) words.now)) result }
{
    let mut command = smp_command(alloc)?;
    let matches = command.try_get_matches_from(words)?;
    Ok(request_of(&matches))
}
