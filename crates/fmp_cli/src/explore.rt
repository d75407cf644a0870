//! The command line of `fmpsim explore`.
//!
//! [`parse_explore`] says which part of a request is what clap finds under which name in the words of a command line (`specs/Explore`). Its
//! numbers are read here, since `--ticks` takes a word too; they are in their ranges by the request's type. How the help and the texts
//! of errors read is tested in `fmpsim`.
ghost use Rattle.std.specs.Prelude.{◌≡◌, false, IfOk, IfSome, Some, codes, is_some, map};
ghost use Rattle.clap.specs.Words.{app_of, first_of};
ghost use Rattle.fmp_cli.specs.Found.{rows_in, text_of};
ghost use Rattle.fmp_cli.specs.Explore.{Asks, IsPlaces, IsTurns, explore_line, found_in, has_conflict, has_conflict_of_one};

use crate::found::{flag_in, option_in, text_in};
use crate::numbers::{bound_in, memory_in, places_in, question_in, tick_limit_in, turns_in};
use crate::parts::{
    CONFIG_PART, CONTEXT_PART, Form, PROGRESS_PART, Part, SCRIPTS_PART, Title, line,
};
use crate::rooms::Memory;
use clap::error::ErrorKind;
use clap::{ArgMatches, Command, Error};
use fmp_ranges::{Bounds, Places, Turns};
use fmp_search_question::is_lasting;
use std::alloc::{AllocError, Global};

const ABOUT: &str = "Goes through every order of what scripts ask, and answers a question";

const HELP: &str = "\
CFG is a configuration, and SCRIPTS says what the tasks and handlers of a function do, as for
`fmpsim smp`. It may be `-`, which stands for standard input.

What may happen next on a processor is the next call of its due handler or else of its running
task, its interrupt where a request is pending and nothing holds it back, and a tick. Every order
of these is gone through, the shortest first, until one shows what QUESTION asks:

  can a task wait for ever (deadlock)     no --find, or --find deadlock
  can one but SERVER and LOGGER           --find 'deadlock but SERVER,LOGGER'
  can T wait for ever at a semaphore      --find 'T waits sem * for ever'
  can T be kept from running for good     --find 'T ready * for ever'
  can a value be lost                     --find 'lost=*'
  can a call answer an error              --find 'LOGGER snd_dtq(LOG, *) E_CTX'
  can any be refused, but for a timeout   --find 'refused & not E_TMOUT'
  can A come before B                     --find 'A without B'
  can B come after A with no C between    --find 'A then B without C'
  can it take three ticks                 --find 'A then 3 times P1 * tick taken without B'

A pattern is of the event or of the state after it. Words that follow one another in the line of
the trace without its number are of the event: `LOGGER * gone`; in a word * is any number of bytes.
Facts are of the state, whatever is so at boot: `T waits sem BUS`, `T ready P1`, `T dormant`,
`P1 run=T`, `P1 latch`, `BUS count=1`, `D empty`, `held=*`. `end` is that nothing can change any more.
`&` stands between patterns that have to be there at one event, `or` between those of which one has
to be, and `not` before one that must not be. `refused` stands in the place of a pattern: a code is
there that is not E_OK.

`M for ever` asks for an event that has M from which on, in every order that goes on, every event has
M; `or` stands between several, and `not` before a pattern. `deadlock` asks it of `waits` of each
task. It is asked with `--ticks any`, and the line from which on it is so is reported on standard
error.

With `--ticks any`, or without --ticks, there is no limit and no count, so that there are fewer
places. Where it says `never`, no order of any length shows it. Standard error says then how many
steps of QUESTION come, and whether an event of any order has the patterns of the next one.

With `--from TRACE` only the orders are gone through that go on from those lines of a trace, which
have to be lines of an order of these scripts. Lines count from 1 with those of TRACE, also for
--turns, and the trace that is written begins with them.

On standard output is the trace of a shortest order that shows it, `never`, or `not within N`: no
order of at most N lines does. With --seconds N the search ends after N seconds and says that.

With `--most` there is no question: for each thing a line tells how far it goes in any order, or at boot.
`P1 ready=2` is the most tasks that are ready besides the one that runs, `T act=0 wup=1` the most
queued activations and wakeups, `S count=0..2 of 4 waits=1` the least count, the greatest, the limit,
and the most tasks that wait, `D values=3 of 8 sdtq=0 rdtq=1` the most values and those that wait to
send and to receive, and `M free=1 of 4 waits=0` the fewest free blocks. Where not all orders were gone
through, each line ends with `at least`, and the status is 6.

With `--questions FILE` each question of a text is searched for, one after the other. A line of it is
`NAME never QUESTION` or `NAME shown QUESTION`, with the answer that is expected; `#` begins a line
that says nothing. For each there is a line when its answer is known: `ok NAME: never`,
`not ok NAME: shown in 12 lines`, `not known NAME: not within 30`. --seconds counts for all together.
With --tap these lines are in the form of TAP. --junit FILE has all of them in one XML text, and
--traces DIR the trace of each question that was shown, as DIR/NAME.trace; both write over what was
there. All questions are judged before the first search.

Exit status:
  0  never; or each of --questions is ok; or --most is known of all orders
  1  a fault in a text, in the question or in TRACE, reported on standard error with its place
  2  the command line is wrong
  3  a file could not be read, or the output not be written
  4  want of memory
  5  an order shows it, and its trace was written; or one of --questions is not ok
  6  not within so many lines: --turns, --places, --memory or --seconds did not do; or one is
     not known";

const WRONG_NUMBER: &str =
    "--ticks is `any` or a number from 0 to 1000000, --turns, --drift, --pace and --seconds are numbers from 1 to 1000000, --places is one from 1 to 100000000, and --memory is a size from 1M to 1024G, as 512M";

const ONE_QUESTION: &str =
    "--questions has questions of its own, each of them about all orders: neither --find nor --from goes with it";

const MOST_ALONE: &str =
    "--most asks nothing, and is told of all orders: none of --find, --from, --questions, --tap, --junit and --traces goes with it";

const NO_QUESTIONS: &str = "--tap, --junit and --traces go with --questions alone";

/// What is told of a question of what stays for ever, where there is a number of ticks.
pub const FEW_TICKS: &str =
    "what stays for ever, as where there is no --find, is asked with --ticks any: with a number all orders end where it is used up, and what waits there stays so";

const PARTS_OF_ORDERS: &str =
    "what stays for ever, as where there is no --find, is asked of all orders: --from does not go with it";

const TITLE: Title<'static> = Title {
    name: "explore",
    bin_name: "fmpsim explore",
    about: ABOUT,
    help: HELP,
};

const PARTS: &[Part<'static>] = &[
    CONFIG_PART,
    SCRIPTS_PART,
    Part {
        id: "ticks",
        form: Form::Value("N"),
        about: "How many ticks each processor takes at most, 0 to 1000000, or else any",
    },
    Part {
        id: "turns",
        form: Form::Value("N"),
        about: "How many lines the orders have at most, 1 to 1000000, or else 1000000",
    },
    Part {
        id: "find",
        form: Form::Value("QUESTION"),
        about: "What is looked for in the orders, or else whether a task can wait for ever",
    },
    Part {
        id: "most",
        form: Form::Flag,
        about: "Tells how far counts, queues and waits go in all orders, and asks nothing",
    },
    Part {
        id: "prompt",
        form: Form::Flag,
        about: "Takes each interrupt before the next call of its processor, as smp does",
    },
    Part {
        id: "drift",
        form: Form::Value("N"),
        about: "How many ticks more than another a processor may have taken, 1 to 1000000",
    },
    Part {
        id: "pace",
        form: Form::Value("N"),
        about: "How many ticks a processor takes at most before it does what it can, 1 to 1000000",
    },
    Part {
        id: "spurious",
        form: Form::Flag,
        about: "Lets interrupts come also where no request is pending, or where it is held",
    },
    Part {
        id: "places",
        form: Form::Value("N"),
        about: "For how many places there is room, 1 to 100000000, or else in what memory holds",
    },
    Part {
        id: "memory",
        form: Form::Value("SIZE"),
        about: "How much memory places may take, 1M to 1024G, or else half of what is free",
    },
    Part {
        id: "from",
        form: Form::Value("TRACE"),
        about: "Begins where this trace ends, and not at boot",
    },
    Part {
        id: "seconds",
        form: Form::Value("N"),
        about: "After how many seconds the search ends that has found nothing, 1 to 1000000",
    },
    Part {
        id: "questions",
        form: Form::Value("FILE"),
        about: "Searches for each question of this text, or of standard input where it is -",
    },
    Part {
        id: "tap",
        form: Form::Flag,
        about: "Tells the answers to questions in the form of TAP",
    },
    Part {
        id: "junit",
        form: Form::Value("FILE"),
        about: "Writes there the answers to questions as XML for JUnit",
    },
    Part {
        id: "traces",
        form: Form::Value("DIR"),
        about: "Writes there the trace of each question that is shown, as NAME.trace",
    },
    PROGRESS_PART,
    CONTEXT_PART,
];

/// What the command line of `fmpsim explore` asks for.
#[derive(Clone, Copy)]
pub struct ExploreRequest<'a> {
    /// The path of the configuration.
    pub config: &'a str,
    /// The path of the scripts.
    pub scripts: &'a str,
    /// What is looked for: `deadlock` where nothing is said.
    pub question: &'a str,
    /// The same, where something is said.
    pub find: Option<&'a str>,
    /// Whether it is told how far everything goes, and nothing is looked for.
    pub most: bool,
    /// How many ticks each processor takes at most. Without it any number.
    pub ticks: Option<u32>,
    /// Whether the command line says something of ticks.
    pub says_ticks: bool,
    /// Whether a request that nothing holds back is taken before its processor's next call.
    pub prompt: bool,
    /// How many ticks more than another a processor may have taken. Without it any number.
    pub drift: Option<u32>,
    /// How many ticks a processor may take in a row while it has something to do. Without it any number.
    pub pace: Option<u32>,
    /// Whether interrupts come also where no request is pending, or where it is held.
    pub spurious: bool,
    pub bounds: Bounds,
    /// Whether it says something of the number of lines.
    pub says_turns: bool,
    /// Whether it says something of the number of places.
    pub says_places: bool,
    /// Which memory the places may take.
    pub memory: Memory,
    /// The path of the trace where the orders begin. Without it they begin at boot.
    pub from: Option<&'a str>,
    /// After how many seconds the search ends. Without it none is too long.
    pub seconds: Option<u32>,
    /// The path of a text with many questions. Without it there is one.
    pub questions: Option<&'a str>,
    /// Whether their answers are told in the form of TAP.
    pub tap: bool,
    /// The path of the XML text with their answers. Without it none is written.
    pub junit: Option<&'a str>,
    /// The path of the folder for their traces. Without it none are written.
    pub traces: Option<&'a str>,
    /// Whether it is told how far the search has come, where standard error is no terminal, too.
    pub progress: bool,
    /// Whether what stands beside a fault is to be shown.
    pub context: bool,
}

/// The command, for its help and for what is wrong in it.
pub fn explore_command<'a>(alloc: Global) -> Result<Command<'a>, AllocError>
    ensures { IfOk result (λ c. app_of c ≡ explore_line) }
{
    line(alloc, TITLE, PARTS)
}

/// How far the search goes, if the numbers are within their ranges.
fn bounds_of<'a>(matches: &ArgMatches<'a>) -> Option<Bounds>
    ensures turns { IfSome result (λ b. IsTurns (first_of (codes "turns") (rows_in matches.now)) b.turns.count) }
    ensures places { IfSome result (λ b. IsPlaces (first_of (codes "places") (rows_in matches.now)) b.places.count) }
{
    let turns = turns_in(option_in(matches, "turns"))?;
    let places = places_in(option_in(matches, "places"))?;
    Some(Bounds {
        turns: Turns { count: turns },
        places: Places { count: places },
    })
}

/// The request that the matches are, if its numbers are within their ranges: each of its parts is what they have under one name.
fn request_of<'a>(matches: &ArgMatches<'a>) -> Option<ExploreRequest<'a>>
    ensures { IfSome result (Asks (rows_in matches.now)) }
{
    let find = option_in(matches, "find");
    let limit = option_in(matches, "ticks");
    let ticks = tick_limit_in(limit)?;
    let drift = bound_in(option_in(matches, "drift"))?;
    let pace = bound_in(option_in(matches, "pace"))?;
    let bounds = bounds_of(matches)?;
    let seconds = bound_in(option_in(matches, "seconds"))?;
    let room = option_in(matches, "places");
    let size = option_in(matches, "memory");
    let memory = memory_in(size)?;
    Some(ExploreRequest {
        config: text_in(matches, "CFG"),
        scripts: text_in(matches, "SCRIPTS"),
        question: question_in(find),
        find,
        most: flag_in(matches, "most"),
        ticks,
        says_ticks: limit.is_some(),
        prompt: flag_in(matches, "prompt"),
        drift,
        pace,
        spurious: flag_in(matches, "spurious"),
        bounds,
        says_turns: option_in(matches, "turns").is_some(),
        says_places: room.is_some(),
        memory,
        from: option_in(matches, "from"),
        seconds,
        questions: option_in(matches, "questions"),
        tap: flag_in(matches, "tap"),
        junit: option_in(matches, "junit"),
        traces: option_in(matches, "traces"),
        progress: flag_in(matches, "progress"),
        context: flag_in(matches, "context"),
    })
}

/// Why two parts of a request with one question do not go together, if they do not.
fn conflict_of_one(request: &ExploreRequest<'_>) -> Option<&'static str>
    ensures { is_some result ≡ has_conflict_of_one request.now }
{
    if request.tap || request.junit.is_some() || request.traces.is_some() {
        return Some(NO_QUESTIONS);
    }
    if !is_lasting(request.question.as_bytes()) {
        return None;
    }
    if request.ticks.is_some() {
        return Some(FEW_TICKS);
    }
    if request.from.is_some() {
        return Some(PARTS_OF_ORDERS);
    }
    None
}

/// Why two parts of a request do not go together, if they do not.
fn conflict_in(request: &ExploreRequest<'_>) -> Option<&'static str>
    ensures { is_some result ≡ has_conflict request.now }
{
    let asks = request.find.is_some() || request.from.is_some();
    if request.most {
        let answers = request.tap || request.junit.is_some() || request.traces.is_some();
        if request.questions.is_some() || asks || answers {
            return Some(MOST_ALONE);
        }
        return None;
    }
    if request.questions.is_none() {
        return conflict_of_one(request);
    }
    if asks {
        return Some(ONE_QUESTION);
    }
    None
}

/// The request that the matches of a command are, or what is wrong with it.
fn request_from<'a>(
    command: &mut Command<'a>,
    matches: &ArgMatches<'a>,
) -> Result<ExploreRequest<'a>, Error>
    ensures asks { IfOk result (Asks (rows_in matches.now)) }
    ensures together { IfOk result (λ r. has_conflict r ≡ false) }
{
    let Some(request) = request_of(matches) else {
        return Err(command.error(ErrorKind::ValueValidation, WRONG_NUMBER)?);
    };
    if let Some(words) = conflict_in(&request) {
        return Err(command.error(ErrorKind::ArgumentConflict, words)?);
    }
    Ok(request)
}

/// What the words of the command line ask for, from `explore` on. Each part of the request is what clap finds in these words under one
/// name, and no two of them conflict. Otherwise the error says what is wrong, or that memory ran out.
pub fn parse_explore<'a>(alloc: Global, words: &'a [String]) -> Result<ExploreRequest<'a>, Error>
    ensures asks { IfOk result (Asks (found_in (map (λ w. w.bytes.items) words.now))) }
    ensures together { IfOk result (λ r. has_conflict r ≡ false) }
{
    let mut command = explore_command(alloc)?;
    let matches = command.try_get_matches_from_mut(words)?;
    request_from(&mut command, &matches)
}
