//! Going over a partial trace: each line is read, and its event played, as the lines stand.
ghost use Rattle.std.specs.Prelude.{◌≡◌, ◌≤◌, ◌<◌, ◌+◌, ◌⊎◌, List, length, Ok, IfOk, IfErr, OnOk};
ghost use Rattle.fmp_codes.specs.declared.records.Event.{Event as AnyEvent};
ghost use Rattle.fmp_codes.specs.declared.records.Record.{Record as AnyRecord};
ghost use Rattle.fmp_trace_check.specs.Checking.{PrintsAnswers};
ghost use Rattle.fmp_rules.specs.Boot.{booted};
ghost use Rattle.fmp_text.specs.Events.{IsMemory};
ghost use Rattle.fmp_text.specs.Limits.{most_bytes};
ghost use Rattle.fmp_trace.specs.Reading.{GivesOrFails};
ghost use Rattle.fmp_run_partial.specs.Following as spec;
ghost use Rattle.fmp_run_partial.specs.Verdicts.{FollowedSays, PartlyPrintsAnswers};
ghost use Rattle.fmp_trace_partial.specs.Partly.{FirstFault, PartlyPrintsWithin};

use fmp_codes::{Answer, Event, Proc, Record};
use fmp_out::Text;
use fmp_plain::Plain;
use fmp_rules::Config;
use fmp_text::{MOST_BYTES, Names, TextFault, TextKind};
use fmp_trace::next_line;
use fmp_trace_partial::{AnswerKept, Said, put_kept, read_said};
use std::alloc::{AllocError, Global};

/// What is found of lines, as they stand.
#[derive(Clone, Copy)]
pub enum Followed {
    /// Each line is the machine's own, with some parts left out.
    Yes,
    /// This line is the first that is not.
    No(u32),
    /// A line says something of the order of lines: it has a bound, or its event has no end.
    Ordered,
}

/// Whether a line says nothing of the order of lines: it has no bound, and its event took effect.
fn is_plain(said: &Said) -> bool
    ensures { result ≡ spec.is_plain said.now }
{
    said.bound.is_none() && !matches!(said.kept.answer, AnswerKept::Open)
}

/// A plain machine that plays the events of lines until one of them differs.
#[derive(Drop)]
struct Follower {
    plain: Plain,
    /// What it answered last.
    report: Record,
    /// What is printed of that where as much is left out as in the line.
    own: Text,
    /// What is found of the lines so far.
    verdict: Followed,
}

impl Follower {
    /// The machine at boot.
    fn boot(alloc: Global, config: &Config) -> Result<Follower, AllocError>
        ensures state { IfOk result (λ f. f.plain ≡ record { state = booted config.now; steps = 0 }) }
        ensures verdict { IfOk result (λ f. f.verdict ≡ Followed.Yes) }
    {
        Ok(Follower {
            plain: Plain::boot(config)?,
            report: Record::answer(Event::Tick(Proc::new(1)), None, Answer::Nothing),
            own: Text::new(alloc),
            verdict: Followed::Yes,
        })
    }

    /// Judges line n, which says this, unless one before it differs or says something of the order of lines.
    fn follow(&mut self, names: &Names, n: u32, said: &Said, line: &[u8]) -> Result<(), AllocError>
        requires { self.old.plain.steps < 4294967295 }
        ensures verdict { OnOk result (self.new.verdict ≡ spec.verdict_after names.now self.old.verdict self.old.plain.state n said.now line.now) }
        ensures state { self.new.plain.state ≡ spec.state_after self.old.verdict self.old.plain.state said.now }
        ensures steps { self.new.plain.steps ≤ self.old.plain.steps + 1 }
    {
        if !is_plain(said) {
            self.verdict = Followed::Ordered;
            return Ok(());
        }
        match self.verdict {
            Followed::No(_) | Followed::Ordered => Ok(()),
            Followed::Yes => {
                self.plain.step_into(said.entry.event, &mut self.report);
                self.own.clear();
                put_kept(&mut self.own, names, n, &said.kept, &self.report);
                if self.own.so_far()? != line {
                    self.verdict = Followed::No(n);
                }
                Ok(())
            }
        }
    }
}

/// Goes over a text that is within the limit of bytes.
fn judge_lines(alloc: Global, config: &Config, text: &[u8]) -> Result<Followed, TextFault>
    requires { length text.now ≤ most_bytes }
    ensures { GivesOrFails (λ v. v) result (spec.judged_lines config.now text.now) }
{
    let names = config.names();
    names.validity();
    let mut follower = Follower::boot(alloc, config)?;
    let mut scratch = Text::new(alloc);
    let mut number: u32 = 1;
    let mut rest = text;
    while let Some((line, after)) = next_line(rest) {
        let said = read_said(&mut scratch, names, number, line)?;
        follower.follow(names, number, &said, line)?;
        number += 1;
        rest = after;
    }
    if rest.is_empty() {
        Ok(follower.verdict)
    } else {
        Err(TextFault {
            kind: TextKind::CutShort,
            line: number,
        })
    }
}

/// What is found of a text, or its first fault.
#[tactic(auto, unfolding(crate::specs::Following::judged, fmp_trace_partial::specs::Saying::said_in))]
fn judge(alloc: Global, config: &Config, text: &[u8]) -> Result<Followed, TextFault>
    ensures { GivesOrFails (λ v. v) result (spec.judged config.now text.now) }
{
    if text.len() > MOST_BYTES {
        return Err(TextFault {
            kind: TextKind::TooMany,
            line: 0,
        });
    }
    judge_lines(alloc, config, text)
}

/// Goes over a partial trace, and compares each line, as they stand, with what the plain machine answers to its event. It keeps no list of records.
///
/// A fault is that of the first line that partly prints no record, wherever in the text it is.
pub fn follow_text(alloc: Global, config: &Config, text: &[u8]) -> Result<Followed, TextFault>
    // The lines partly print records, and what they write is compared with the answers to the events of these, unless a line says something of orders.
    ensures verdict { IfOk result (FollowedSays config.now text.now) }
    // A text that partly prints records has no fault, unless memory ran out.
    ensures complete { (records : List AnyRecord) → PartlyPrintsWithin config.now.names text.now records → IfErr result IsMemory }
    // Of what the machine answers to any events, with any parts left out, it is yes.
    ensures answers { (events : List AnyEvent) → PartlyPrintsAnswers config.now text.now events → GivesOrFails (λ v. v) result (Ok Followed.Yes) }
    // And so of the machine's own trace, of which nothing is left out.
    ensures own { (events : List AnyEvent) → PrintsAnswers config.now text.now events → GivesOrFails (λ v. v) result (Ok Followed.Yes) }
    // The fault is the first one, or want of memory.
    ensures fault { IfErr result (λ fault. FirstFault config.now.names text.now fault ⊎ IsMemory fault) }
{
    config.names().validity();
    judge(alloc, config, text)
}
