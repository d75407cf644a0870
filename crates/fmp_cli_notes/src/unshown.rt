//! What is told beside `never`: how many steps of the question come in some order, and whether an event has the patterns of the next one.
ghost use Rattle.std.specs.Prelude.{◌≡◌, ◌<◌, ◌-◌, ◌++◌, [], length, map, false, Some, None, IfOk};
ghost use Rattle.fmp_out.specs.Putting.{Adds};
ghost use Rattle.fmp_run_explore.specs.Came.{HasCome, IsCome};
ghost use Rattle.fmp_run_explore.specs.declared.finding.Finding.TheVariants.{Never};
ghost use Rattle.fmp_cli_notes.specs.Judged as judged;
ghost use Rattle.fmp_cli_notes.specs.NeverSo.{fact_note};
ghost use Rattle.fmp_cli_notes.specs.Parts as parts;
ghost use Rattle.fmp_cli_notes.specs.Unshown as spec;

use crate::never_so::tell_fact;
use crate::notes::{About, Notes, tell_wanting};
use crate::parts::{only_item, patterns_of, plain_item};
use crate::patterns::words_of;
use crate::words::asks_spurious;
use fmp_cli::ExploreRequest;
use fmp_out::Text;
use fmp_ranges::Bounds;
use fmp_run_explore::{Finding, Outcome, Progress, Searched};
use fmp_search_pattern::{Item, Question};
use fmp_search_question::{ReadFault, read_question};
use std::alloc::{AllocError, Global};

/// How many steps come of a question that no order shows, where that is known. The error is want of memory.
fn steps_come<P: Progress>(
    alloc: Global,
    outcome: &Outcome,
    bounds: Bounds,
    progress: &mut P,
) -> Result<Option<usize>, AllocError>
    ensures come { outcome.now.finding ≡ Never → IfOk result
        (IsCome outcome.now.searched bounds.turns.count (bounds.places.count - 1) (P.over progress.new)) }
    ensures none { spec.is_never outcome.now.finding ≡ false → IfOk result (λ come. come ≡ None) }
{
    match outcome.finding {
        Finding::Never => outcome.searched.came(alloc, progress, bounds),
        _ => Ok(None),
    }
}

/// Whether an event of some order has a pattern, where that is known. The error is want of memory.
fn has_event<P: Progress>(
    alloc: Global,
    searched: &Searched,
    pattern: &[u8],
    bounds: Bounds,
    progress: &mut P,
) -> Result<Option<bool>, AllocError>
    ensures { IfOk result (judged.IsJudged searched.now bounds.turns.count (bounds.places.count - 1) pattern.now) }
{
    match read_question(alloc, searched.names(), pattern) {
        Ok(question) => match searched.finding(alloc, &question, progress, bounds)? {
            Finding::Shown => Ok(Some(true)),
            Finding::Never => Ok(Some(false)),
            Finding::NotWithin(_) | Finding::Wanting(_) | Finding::Ended(_) => Ok(None),
        },
        Err(ReadFault::Memory) => Err(AllocError),
        Err(ReadFault::Text(..)) => Ok(None),
    }
}

/// Puts how many steps come of so many.
fn put_steps(line: &mut Text, come: usize, count: usize)
    requires { come < count }
    ensures { Adds (spec.steps_text come count) line.old line.new }
{
    if come == 0 {
        line.put(b"no order has step 1 of ");
        line.put_number(count as u64);
    } else if come == 1 {
        line.put(b"some order has step 1 of ");
        line.put_number(count as u64);
        line.put(b", and none has step 2 after it");
    } else {
        line.put(b"some order has steps 1 to ");
        line.put_number(come as u64);
        line.put(b" of ");
        line.put_number(count as u64);
        line.put(b", and none has step ");
        line.put_number((come + 1) as u64);
        line.put(b" after them");
    }
}

/// Tells how many steps come, where there are more than one.
#[tactic(auto, unfolding(crate::specs::Unshown::steps_line))]
fn tell_steps<N: Notes>(notes: &mut N, about: About<'_>, come: usize, count: usize)
    requires { come < count }
    ensures { Adds (spec.steps_note about.entry.asked.now come count) (N.told notes.old) (N.told notes.new) }
{
    if count > 1 {
        let mut line = about.line();
        put_steps(&mut line, come, count);
        notes.note(line);
    }
}

/// Tells whether an event of some order has a pattern.
#[tactic(auto, unfolding(crate::specs::Unshown::pattern_line))]
fn tell_pattern<N: Notes>(notes: &mut N, about: About<'_>, pattern: &[u8], has: bool)
    ensures { Adds (spec.pattern_line about.entry.asked.now pattern.now has) (N.told notes.old) (N.told notes.new) }
{
    let mut line = about.line();
    line.put(if has {
        b"an event of some order has '".as_slice()
    } else {
        b"no event of any order has '".as_slice()
    });
    line.put(pattern);
    line.put(b"'");
    notes.note(line);
}

/// Tells of a pattern that no event has why that is so, where it is for what the configuration says.
fn tell_of_pattern<N: Notes>(notes: &mut N, about: About<'_>, searched: &Searched, pattern: &[u8])
    ensures { Adds (spec.reason about.entry.asked.now searched.now.config pattern.now) (N.told notes.old) (N.told notes.new) }
{
    match read_question(about.alloc, searched.names(), pattern) {
        Ok(question) => {
            if let Some(item) = plain_item(&question) {
                tell_fact(notes, about, searched, item);
            }
        }
        Err(ReadFault::Memory) => tell_wanting(notes, about),
        Err(ReadFault::Text(..)) => {}
    }
}

/// Tells of a pattern whether an event has it, where that is known, and why none has.
fn tell_known<N: Notes>(
    notes: &mut N,
    about: About<'_>,
    searched: &Searched,
    pattern: &[u8],
    has: Option<bool>,
)
    ensures { Adds (spec.pattern_note about.entry.asked.now searched.now.config pattern.now has) (N.told notes.old) (N.told notes.new) }
{
    match has {
        None => {}
        Some(true) => tell_pattern(notes, about, pattern, true),
        Some(false) => {
            tell_pattern(notes, about, pattern, false);
            tell_of_pattern(notes, about, searched, pattern);
        }
    }
}

/// Tells of a pattern whether an event has it, by a search for it.
fn tell_searched<N: Notes, P: Progress>(
    notes: &mut N,
    about: About<'_>,
    searched: &Searched,
    pattern: &[u8],
    progress: &mut P,
    bounds: Bounds,
)
    ensures { (N.told notes.new).wanting ≡ false → judged.TellsPattern about.entry.asked.now searched.now bounds.turns.count (bounds.places.count - 1)
        pattern.now (N.told notes.old) (N.told notes.new) }
{
    let has = has_event(about.alloc, searched, pattern, bounds, progress);
    progress.end();
    match has {
        Ok(has) => tell_known(notes, about, searched, pattern, has),
        Err(_) => tell_wanting(notes, about),
    }
}

/// Tells of each of these patterns whether an event has it.
fn tell_patterns<N: Notes, P: Progress>(
    notes: &mut N,
    about: About<'_>,
    searched: &Searched,
    patterns: &[Vec<u8>],
    progress: &mut P,
    bounds: Bounds,
)
    ensures { (N.told notes.new).wanting ≡ false → judged.TellsPatterns [] about.entry.asked.now searched.now bounds.turns.count (bounds.places.count - 1)
        (map (λ it. it.items) patterns.now) (N.told notes.old) (N.told notes.new) }
{
    for at in 0..patterns.len() {
        tell_searched(
            notes,
            about,
            searched,
            patterns[at].as_slice(),
            progress,
            bounds,
        );
    }
}

/// Tells of the item that is all of the first step, which does not come, that no event has it.
fn tell_first<N: Notes>(notes: &mut N, about: About<'_>, searched: &Searched, item: &Item)
    ensures { Adds (judged.first_note about.entry.asked.now searched.now.config item.now) (N.told notes.old) (N.told notes.new) }
{
    if item.is_negated() {
        return;
    }
    match words_of(about.alloc, item.wanted()) {
        Ok(words) => tell_known(notes, about, searched, words.as_slice(), Some(false)),
        Err(_) => tell_wanting(notes, about),
    }
}

/// Tells of each pattern of a step that does not come whether an event has it. Of the first step, where it is one pattern, that is known already.
fn tell_step<N: Notes, P: Progress>(
    notes: &mut N,
    about: About<'_>,
    searched: &Searched,
    come: usize,
    progress: &mut P,
    bounds: Bounds,
)
    requires { HasCome searched.now.config searched.now.scripts searched.now.rules searched.now.question come }
    ensures { (N.told notes.new).wanting ≡ false → judged.TellsPatterns [] about.entry.asked.now searched.now bounds.turns.count (bounds.places.count - 1)
        (judged.next_patterns searched.now.question (Some come)) (N.told notes.old) (N.told notes.new) }
{
    let Some(step) = searched.question().steps().get(come) else {
        return;
    };
    match only_item(step) {
        Some(item) if come == 0 => tell_first(notes, about, searched, item),
        _ => match patterns_of(about.alloc, &step.moment) {
            Ok(patterns) => {
                let patterns = patterns.as_slice();
                tell_patterns(notes, about, searched, patterns, progress, bounds);
            }
            Err(_) => tell_wanting(notes, about),
        },
    }
}

/// Tells how many steps come, and whether an event has the patterns of the next one.
fn tell_come<N: Notes, P: Progress>(
    notes: &mut N,
    about: About<'_>,
    searched: &Searched,
    come: usize,
    progress: &mut P,
    bounds: Bounds,
)
    requires { HasCome searched.now.config searched.now.scripts searched.now.rules searched.now.question come }
    ensures { (N.told notes.new).wanting ≡ false → judged.TellsPatterns (spec.steps_note about.entry.asked.now come (length searched.now.question))
        about.entry.asked.now searched.now bounds.turns.count (bounds.places.count - 1) (judged.next_patterns searched.now.question (Some come))
        (N.told notes.old) (N.told notes.new) }
{
    progress.end();
    tell_steps(notes, about, come, searched.question().steps().len());
    tell_step(notes, about, searched, come, progress, bounds);
}

/// Tells of the steps of a question that no order shows how many come, and whether an event has the patterns of the next one.
fn tell_unshown<N: Notes, P: Progress>(
    notes: &mut N,
    about: About<'_>,
    outcome: &Outcome,
    progress: &mut P,
    bounds: Bounds,
)
    ensures { outcome.now.finding ≡ Never → (N.told notes.new).wanting ≡ false → judged.TellsUnshown [] about.entry.asked.now outcome.now.searched
        bounds.turns.count (bounds.places.count - 1) (P.over progress.new) (N.told notes.old) (N.told notes.new) }
{
    if progress.is_over() {
        return;
    }
    match steps_come(about.alloc, outcome, bounds, progress) {
        Ok(Some(come)) => tell_come(notes, about, &outcome.searched, come, progress, bounds),
        Ok(None) => {}
        Err(_) => tell_wanting(notes, about),
    }
}

/// Tells which option has orders with what a question asks for, where that is not given.
#[tactic(auto, unfolding(crate::specs::Unshown::spurious_line))]
fn tell_spurious<N: Notes>(notes: &mut N, about: About<'_>, spurious: bool, question: &Question)
    ensures { Adds (spec.spurious_note about.entry.asked.now spurious question.now) (N.told notes.old) (N.told notes.new) }
{
    if spurious {
        return;
    }
    match asks_spurious(about.alloc, question) {
        Ok(true) => {
            let mut line = about.line();
            line.put(b"only with --spurious orders have 'ipi none' and 'ipi held'");
            notes.note(line);
        }
        Ok(false) => {}
        Err(_) => tell_wanting(notes, about),
    }
}

/// Tells what is known of a question that no order shows: which option has orders with what it asks for, how many of its steps come, and whether an
/// event has the patterns of the next one. It says nothing that is not found in time.
pub fn note_unshown<N: Notes, P: Progress>(
    notes: &mut N,
    about: About<'_>,
    outcome: &Outcome,
    progress: &mut P,
    request: &ExploreRequest<'_>,
)
    // Where some order shows the question, or it is not known that none does, nothing is told.
    ensures silent { spec.is_never outcome.now.finding ≡ false → N.told notes.new ≡ N.told notes.old }

    // Of one that is a pattern, or `not` and one: whether orders have it only with --spurious, and why none has it.
    ensures plain { (item : _) → outcome.now.finding ≡ Never → parts.plain_item outcome.now.searched.question ≡ Some item
        → Adds (spec.spurious_note about.entry.asked.now request.now.spurious outcome.now.searched.question
        ++ fact_note about.entry.asked.now outcome.now.searched.config item) (N.told notes.old) (N.told notes.new) }

    // Of any other one, behind the former: how many of its steps come, and whether an event has the patterns of the next one, as the searches for them say.
    ensures steps { outcome.now.finding ≡ Never → parts.plain_item outcome.now.searched.question ≡ None → (N.told notes.new).wanting ≡ false
        → judged.TellsUnshown (spec.spurious_note about.entry.asked.now request.now.spurious outcome.now.searched.question) about.entry.asked.now
        outcome.now.searched request.now.bounds.turns.count (request.now.bounds.places.count - 1) (P.over progress.new) (N.told notes.old) (N.told notes.new) }
{
    if !matches!(outcome.finding, Finding::Never) {
        return;
    }
    let question = outcome.searched.question();
    progress.end();
    tell_spurious(notes, about, request.spurious, question);
    match plain_item(question) {
        Some(item) => tell_fact(notes, about, &outcome.searched, item),
        None => tell_unshown(notes, about, outcome, progress, request.bounds),
    }
}
