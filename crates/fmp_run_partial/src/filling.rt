//! What a line of a partial trace leaves out, put in from what the machine answers.
ghost use Rattle.std.specs.Prelude.{◌≡◌, ◌<◌};
ghost use Rattle.std.specs.Option.{option_copied};
ghost use Rattle.std.specs.Str.{bytes_eq};
ghost use Rattle.fmp_codes.specs.Codes.{name_of};
ghost use Rattle.fmp_out.specs.Putting.{Adds};
ghost use Rattle.fmp_rules.specs.Arrivals.{numbered};
ghost use Rattle.fmp_rules.specs.Step.{step};
ghost use Rattle.fmp_trace.specs.Lines.{line_text};
ghost use Rattle.fmp_run_partial.specs.Filling as spec;

use crate::playing::{blank, put_record};
use fmp_codes::{Answer, Code, Record, Release, Releases};
use fmp_out::Text;
use fmp_plain::Plain;
use fmp_rules::Config;
use fmp_text::Names;
use fmp_trace_partial::{AnswerKept, CodeKept, CodesKept, Said, read_said};
use std::alloc::AllocError;

/// Whether two codes are the same.
fn is_same(a: Code, b: Code) -> bool
    ensures { result ≡ bytes_eq (name_of a) (name_of b) }
{
    a.name().as_bytes() == b.name().as_bytes()
}

/// An answer without its value, with that of the machine's where this has the same code.
fn valued(said: Answer, own: Answer) -> Answer
    ensures { result ≡ spec.valued said own }
{
    match (said, own) {
        (Answer::Done(code, _), Answer::Done(found, _)) if is_same(code, found) => own,
        _ => said,
    }
}

/// An answer of which so much is written, with the rest of the machine's.
fn filled_answer(kept: AnswerKept, said: Answer, own: Answer) -> Answer
    ensures { result ≡ spec.filled_answer kept said own }
{
    match kept {
        AnswerKept::Whole => said,
        AnswerKept::NoValue => valued(said, own),
        AnswerKept::Happened => own,
        AnswerKept::Open => own,
    }
}

/// The end of a wait of whose code so much is written, with the rest of one of the machine's.
fn filled_by(kept: CodeKept, said: Release, own: Release) -> Release
    ensures { result ≡ spec.filled_by kept said own }
{
    match kept {
        CodeKept::Whole => said,
        CodeKept::NoValue => {
            if is_same(said.code, own.code) {
                Release {
                    value: own.value,
                    ..said
                }
            } else {
                said
            }
        }
        CodeKept::Nothing => Release {
            task: said.task,
            code: own.code,
            value: own.value,
        },
    }
}

/// The same, where the machine may have none in its place.
fn filled_release(kept: CodeKept, said: Release, own: Option<Release>) -> Release
    ensures { result ≡ spec.filled_release kept said own }
{
    match own {
        Some(own) => filled_by(kept, said, own),
        None => said,
    }
}

/// The ends of waits of whose codes so much is written, each with the rest of that in its place of the machine's.
fn filled_each(kept: &CodesKept, said: &Releases, own: &Releases) -> Releases
    ensures { result ≡ spec.filled_from kept.now own.now 0 said.now }
{
    let mut all = Releases::new();
    for index in 0..said.len() {
        let code = kept.get(index).unwrap_or(CodeKept::Whole);
        all.push(filled_release(code, said.get(index).unwrap(), own.get(index)));
    }
    all
}

/// The ends of waits that a line writes, and the machine's where it writes none.
fn filled_releases(kept: &CodesKept, said: Releases, own: Releases) -> Releases
    ensures { result ≡ spec.filled_releases kept.now said own }
{
    if kept.is_empty() {
        own
    } else {
        filled_each(kept, &said, &own)
    }
}

/// What a line says, and the rest as the machine answers.
fn filled(said: Said, own: Record) -> Record
    ensures { result ≡ spec.filled said own }
{
    let kept = said.kept;
    let entry = said.entry;
    Record {
        event: own.event,
        runner: if kept.runner {
            entry.runner
        } else {
            own.runner
        },
        answer: filled_answer(kept.answer, entry.answer, own.answer),
        releases: filled_releases(&kept.releases, entry.releases, own.releases),
        lost: if kept.lost { entry.lost } else { own.lost },
        run_change: if kept.run_change {
            entry.run_change
        } else {
            own.run_change
        },
        requests: if kept.requests {
            entry.requests
        } else {
            own.requests
        },
    }
}

/// Plays the event of a line that says this, and adds the line whole with this number: what it says, and the rest as the machine answers.
fn put_whole(out: &mut Text, names: &Names, plain: &mut Plain, number: u32, said: Said)
    requires { plain.old.steps < 4294967295 }
    ensures { Adds (line_text names.now number (spec.filled said (step numbered plain.old.state said.entry.event).1)) out.old out.new }
{
    let mut report = blank();
    plain.step_into(said.entry.event, &mut report);
    let whole = filled(said, report);
    put_record(out, names, number, &whole);
}

/// Plays the event of line n of a text that was read before, if there is such a line, and adds the line whole with this number.
pub(crate) fn put_filled(
    out: &mut Text,
    config: &Config,
    plain: &mut Plain,
    n: u32,
    number: u32,
    line: Option<&[u8]>,
)
    requires { plain.old.steps < 4294967295 }
    ensures { Adds (spec.filled_line config.now.names n number plain.old.state (option_copied line.entry)) out.old out.new }
{
    let Some(line) = line else {
        return;
    };
    let names = config.names();
    names.validity();
    let mut scratch = Text::new(config.allocator());
    match read_said(&mut scratch, names, n, line) {
        Ok(said) => put_whole(out, names, plain, number, said),
        // what was read before has no fault: memory was wanting
        Err(_) => out.note(Err(AllocError)),
    }
}
