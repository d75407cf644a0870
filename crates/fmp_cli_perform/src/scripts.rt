//! Processors that follow scripts: their trace on standard output, and who waits at the end on standard error.
ghost use Rattle.std.specs.Prelude.{◌≡◌, ◌||◌, ◌-◌, ◌<◌, ◌^◌, false, not};
ghost use Rattle.fmp_cli_runs.specs.Texts.{text_ends};
ghost use Rattle.fmp_cli_faults.specs.Misfits.{fits};
ghost use Rattle.fmp_cli_perform.specs.Ended.{EndsPlaying};
ghost use Rattle.fmp_cli_perform.specs.Made.{IsMade, IsMadeOnce, IsSought};
ghost use Rattle.fmp_run_seeds.specs.Found.{status_of};
ghost use Rattle.fmp_cli_perform.specs.Performed.{EndsProgram, asks_for_ever, refuses_colour};

use crate::colours::{is_coloured, uncoloured};
use fmp_cli::{Paths, Seeds, SmpRequest};
use fmp_cli_desk::{
    Desk, Ending, FaultForm, Kept, ProgressLine, both_read, kept, put_lines, replied, written,
};
use fmp_cli_diagnostics::LineForm;
use fmp_cli_faults::{LASTING, SeedMisfit, Waiting, waiting_lines};
use fmp_cli_hints::TextForm;
use fmp_cli_runs::{Played, Playing, Seeking};
use fmp_out::Text;
use fmp_run_devices::TextSource;
use fmp_run_events::{Source, Status};
use fmp_run_seeds::{SeedProgress, SeedSearch};
use fmp_search_question::is_lasting;
use std::alloc::Global;
use std::sync::Wait;
use std::thread::Threads;

/// What is reported of a run beside its trace.
#[derive(Drop)]
struct Outcome {
    status: Status,
    seed: SeedReported,
    /// A line for each task that waits at the end of what is written.
    waiting: Vec<u8>,
}

/// What is reported of seeds.
#[derive(Clone, Copy)]
enum SeedReported {
    Nothing,
    /// This one was found.
    Found(u64),
    /// This one was found, and shows at this line what is asked.
    Shown(u64, usize),
    /// The search was ended after this one.
    Ended(u64),
}

impl SeedReported {
    /// What is reported of a seed that was found, whose line shows what is asked, if something is.
    fn of_found(seed: u64, line: usize, asked: bool) -> SeedReported {
        if asked {
            SeedReported::Shown(seed, line)
        } else {
            SeedReported::Found(seed)
        }
    }

    /// What is reported of the runs of many seeds, where a question was asked or was not.
    fn of(search: &SeedSearch, asked: bool) -> SeedReported {
        match search {
            SeedSearch::Found(found) => SeedReported::of_found(found.seed, found.line, asked),
            SeedSearch::Passed => SeedReported::Nothing,
            SeedSearch::Ended(seed) => SeedReported::Ended(*seed),
        }
    }

    /// The line that reports it.
    fn line(self, alloc: Global) -> Text {
        let mut text = Text::new(alloc);
        let (words, seed) = match self {
            SeedReported::Nothing => return text,
            SeedReported::Found(seed) | SeedReported::Shown(seed, _) => {
                (b"fmpsim: seed ".as_slice(), seed)
            }
            SeedReported::Ended(seed) => (
                b"fmpsim: ended by --seconds after seed ".as_slice(),
                seed,
            ),
        };
        text.put(words);
        text.put_number(seed);
        if let SeedReported::Shown(_, line) = self {
            text.put(b", line ");
            text.put_number(line as u64);
        }
        text.put_byte(b'\n');
        text
    }
}

impl Outcome {
    /// That of one run.
    fn of_run(played: Played) -> Outcome
        ensures { result.status ≡ played.status }
    {
        Outcome {
            status: played.status,
            seed: SeedReported::Nothing,
            waiting: played.waiting,
        }
    }

    /// That of the runs of many seeds, where a question was asked or was not.
    fn of_seeds(alloc: Global, search: SeedSearch, asked: bool) -> Outcome
        ensures { result.status ≡ status_of asked search }
    {
        let status = search.status(asked);
        let seed = SeedReported::of(&search, asked);
        let waiting = match search {
            SeedSearch::Found(found) => found.waiting,
            SeedSearch::Passed | SeedSearch::Ended(_) => Vec::new(alloc),
        };
        Outcome {
            status,
            seed,
            waiting,
        }
    }
}

/// Reports what became of a run over these texts: the seed, with the line that shows what is asked, and then the tasks that wait. As compilers have them each is
/// reported at its script.
fn report_outcome<D: Desk>(desk: &D, path: &str, form: LineForm, texts: &Kept, outcome: &Outcome) {
    let alloc = desk.alloc();
    put_lines(desk, outcome.seed.line(alloc));
    let waiting = Waiting {
        lines: str::from_utf8(outcome.waiting.as_slice()).unwrap_or(""),
        status: outcome.status,
        config: texts.config.as_slice(),
    };
    let scripts: &[u8] = match texts.text.lines() {
        Some(lines) => lines.text,
        None => &[],
    };
    let lines = waiting_lines(alloc, form, path, waiting, scripts);
    put_lines(desk, lines);
}

/// Writes the trace of one run, in colours or not.
fn made_once<D: Desk, T: Threads + Wait + Sync, S: Source>(
    desk: &D,
    threads: &T,
    config: &[u8],
    scripts: &mut S,
    request: &SmpRequest<'_>,
    coloured: bool,
) -> Result<Outcome, Ending>
    requires { S.failures scripts.old < 2 ^ 64 - 1 }
    ensures { IsMadeOnce request.now config.now (text_ends S.left S.failures S.given S.ended scripts.old scripts.new) result }
{
    let mut run = Playing { threads, request };
    match written(desk, config, scripts, coloured, &mut run) {
        Ok(played) => Ok(Outcome::of_run(played)),
        Err(ending) => Err(ending),
    }
}

/// Writes the trace of the first run of these seeds that is looked for, in colours or not.
fn sought<D: Desk, S: Source, P: SeedProgress>(
    desk: &D,
    config: &[u8],
    scripts: &mut S,
    request: &SmpRequest<'_>,
    first: u64,
    last: u64,
    coloured: bool,
    progress: &mut P,
) -> Result<Outcome, Ending>
    requires { S.failures scripts.old < 2 ^ 64 - 1 }
    ensures { IsSought request.now first last config.now (text_ends S.left S.failures S.given S.ended scripts.old scripts.new) result }
{
    let mut run = Seeking {
        request,
        first,
        last,
        progress,
    };
    match written(desk, config, scripts, coloured, &mut run) {
        Ok(search) => Ok(Outcome::of_seeds(desk.alloc(), search, request.find.is_some())),
        Err(ending) => Err(ending),
    }
}

/// Writes the trace of what is asked for, in colours or not: of one run, or of the first of many that is looked for.
fn made<D: Desk, T: Threads + Wait + Sync, S: Source, P: SeedProgress>(
    desk: &D,
    threads: &T,
    config: &[u8],
    scripts: &mut S,
    request: &SmpRequest<'_>,
    coloured: bool,
    progress: &mut P,
) -> Result<Outcome, Ending>
    requires { S.failures scripts.old < 2 ^ 64 - 1 }
    ensures { IsMade request.now request.now.seeds config.now (text_ends S.left S.failures S.given S.ended scripts.old scripts.new) result }
{
    match request.seeds {
        Seeds::Range(first, last) => sought(
            desk, config, scripts, request, first, last, coloured, progress,
        ),
        Seeds::Unasked | Seeds::Other => {
            made_once(desk, threads, config, scripts, request, coloured)
        }
    }
}

/// Reads both texts, and has processors follow the scripts. What is reported beside the trace has this form, and which seed is played is reported.
fn followed<D: Desk, T: Threads + Wait + Sync, P: SeedProgress>(
    desk: &D,
    threads: &T,
    paths: &Paths<'_>,
    request: &SmpRequest<'_>,
    coloured: bool,
    fault_form: FaultForm,
    progress: &mut P,
) -> Result<Status, Ending>
    ensures { EndsPlaying (D.text_at desk.now paths.now.config.now) (D.text_at desk.now paths.now.text.now) request.now request.now.seeds result }
{
    let (texts, scripts) = both_read(desk, paths, fault_form)?;
    let mut scripts = TextSource::new(desk.alloc(), scripts);
    let config = texts.config.as_slice();
    match made(
        desk,
        threads,
        config,
        &mut scripts,
        request,
        coloured,
        progress,
    ) {
        Ok(outcome) => {
            report_outcome(desk, paths.text, fault_form.line, &texts, &outcome);
            Ok(outcome.status)
        }
        Err(ending) => kept(Err(ending), texts),
    }
}

/// How a run of processors that follow scripts ends the program, in colours or not. A fault is reported.
fn played<D: Desk, T: Threads + Wait + Sync>(
    desk: &D,
    threads: &T,
    request: &SmpRequest<'_>,
    coloured: bool,
    line: LineForm,
) -> Status
    ensures { EndsProgram false (EndsPlaying (D.text_at desk.now request.now.config.now) (D.text_at desk.now request.now.scripts.now) request.now request.now.seeds) result }
{
    let text = TextForm::Scripts;
    let paths = Paths {
        config: request.config,
        text: request.scripts,
        context: request.context.then_some(text),
    };
    let fault_form = FaultForm { line, text };
    let mut progress = ProgressLine::new(desk, request.progress, request.seconds);
    let run = followed(
        desk,
        threads,
        &paths,
        request,
        coloured,
        fault_form,
        &mut progress,
    );
    SeedProgress::end(&mut progress);
    let question = request.find.unwrap_or("");
    replied(desk, &paths, fault_form, question, run)
}

/// How a run of processors that follow scripts ends the program. A fault is reported, and what is wrong with the request.
pub fn scripted<D: Desk, T: Threads + Wait + Sync>(
    desk: &D,
    threads: &T,
    request: &SmpRequest<'_>,
    line: LineForm,
) -> Status
    ensures { EndsProgram (refuses_colour request.now.colour || (not (fits request.now) || asks_for_ever request.now.find))
        (EndsPlaying (D.text_at desk.now request.now.config.now) (D.text_at desk.now request.now.scripts.now) request.now request.now.seeds) result }
{
    let Some(coloured) = is_coloured(desk, request.colour) else {
        return uncoloured(desk);
    };
    if let Some(misfit) = SeedMisfit::of_request(request) {
        put_lines(desk, misfit.line(desk.alloc()));
        return Status::Usage;
    }
    if is_lasting(request.find.unwrap_or("").as_bytes()) {
        desk.note(LASTING.as_bytes());
        return Status::Usage;
    }
    played(desk, threads, request, coloured, line)
}
