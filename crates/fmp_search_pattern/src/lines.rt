//! Whether what is asked of an event is looked for in its line: where it is not, no line need be printed for it.
ghost use Rattle.std.specs.Prelude.{◌≡◌, slice_get};
ghost use Rattle.fmp_search_pattern.specs.Lines as spec;
ghost use Rattle.fmp_search_pattern.specs.Matching.{any};

use crate::items::{Part, Wanted};
use crate::question::{Moment, Question};

/// Whether this is looked for in a line.
fn is_in_line(wanted: &Wanted) -> bool
    ensures { result ≡ spec.is_in_line wanted.now }
{
    match wanted {
        Wanted::Refused => true,
        Wanted::Line(_) => true,
        Wanted::End => false,
        Wanted::State(_, _) => false,
    }
}

/// Whether an item of a part is.
fn part_reads(part: &Part) -> bool
    ensures { result ≡ spec.part_reads part.now }
{
    for item in part.items() {
        if is_in_line(item.wanted()) {
            return true;
        }
    }
    false
}

/// Whether a part of a moment has such an item.
fn moment_reads(moment: &Moment) -> bool
    ensures { result ≡ spec.moment_reads moment.now }
{
    for part in moment.parts() {
        if part_reads(part) {
            return true;
        }
    }
    false
}

/// Whether one of these moments has one.
pub fn some_read(lasting: &[Moment]) -> bool
    ensures { result ≡ any spec.moment_reads lasting.now }
{
    for moment in lasting {
        if moment_reads(moment) {
            return true;
        }
    }
    false
}

/// Whether it may be looked for in the line of an event whether that may be marked so, where so many steps of the question were seen.
pub fn step_reads(question: &Question, seen: u32, marked: bool) -> bool
    ensures { result ≡ spec.step_reads (slice_get question.now seen) marked }
{
    match question.steps().get(seen as usize) {
        None => false,
        Some(step) => {
            if marked {
                moment_reads(&step.moment)
            } else {
                match &step.without {
                    None => false,
                    Some(unwanted) => moment_reads(unwanted),
                }
            }
        }
    }
}
