//! What is told beside `never` and `not within` of the calls of the scripts that no order makes. Where a call is never made, an answer `never` may say less
//! than it seems to.
ghost use Rattle.std.specs.Prelude.{◌≡◌, ◌⊎◌, ◌<◌, All, IfOk, false, slice_get, IfSome, None, Some, ◌-◌};
ghost use Rattle.std.specs.Option.{option_copied};
ghost use Rattle.fmp_out.specs.Putting.{Adds};
ghost use Rattle.fmp_run_explore.specs.Made.{SaysMade};
ghost use Rattle.fmp_search_orders.specs.Unknown.{IsNotKnown};
ghost use Rattle.fmp_cli_notes.specs.Unmade as spec;

use crate::misplaced::{is_misplaced, put_misplaced};
use crate::notes::{About, Notes, tell_wanting};
use fmp_calls::form;
use fmp_codes::{Call, Event, NameKind, Proc};
use fmp_names::Names;
use fmp_out::Text;
use fmp_ranges::Bounds;
use fmp_run_explore::{Finding, Met, Orders, Outcome, Progress, is_made};
use fmp_run_forever::calls_made;
use fmp_trace::put_event;
use std::alloc::{AllocError, Global};

// How many numbers there are: a script has no more than 256 steps.
const NUMBERS: u32 = 65_536;

// How many calls are told.
const MOST_CALLS: usize = 8;

/// Whether the call of this number is told: one that has no mark, or without marks one that is always refused.
#[tactic(auto, unfolding(crate::specs::Unmade::is_told))]
fn is_told(orders: Orders<'_>, met: Option<&Met>, number: u32) -> bool
    requires { number < NUMBERS }
    ensures { result ≡ spec.is_told orders.entry.config.now orders.entry.scripts.now (option_copied met.entry) number }
{
    let function = (number / 256) as u8;
    match (orders.scripts.step(Some(function), number % 256), met) {
        (None, _) => false,
        (Some(_), Some(met)) => !is_made(met, function, number % 256),
        (Some(call), None) => is_misplaced(orders.config, function, call),
    }
}

/// The calls that are told.
#[tactic(auto, using(crate::proofs::Below::below_none, crate::proofs::Below::below_with, crate::proofs::Below::below_without))]
fn calls_told(alloc: Global, orders: Orders<'_>, met: Option<&Met>) -> Result<Vec<u32>, AllocError>
    ensures few { IfOk result (λ calls. All (λ n. n < NUMBERS) calls.items) }
    ensures told { IfOk result (λ calls. calls.items
        ≡ spec.below (spec.is_told orders.entry.config.now orders.entry.scripts.now (option_copied met.entry)) NUMBERS) }
{
    let mut calls = Vec::new(alloc);
    for number in 0..NUMBERS {
        if is_told(orders, met, number) {
            calls.push(number)?;
        }
    }
    Ok(calls)
}

/// Puts that no order makes what follows, or no order of at most so many lines.
#[tactic(auto, unfolding(crate::specs::Unmade::of_part))]
fn put_of_orders(out: &mut Text, whole: bool, turns: u32)
    ensures { Adds (spec.of_orders whole turns) out.old out.new }
{
    if whole {
        out.put(b"no order makes ");
    } else {
        out.put(b"no order of at most ");
        out.put_number(u64::from(turns));
        out.put(b" lines makes ");
    }
}

/// Puts which of its script a call is, and its text.
#[tactic(auto, unfolding(crate::specs::Unmade::call_text))]
fn put_call_text(out: &mut Text, names: &Names, number: u32, call: Call)
    requires { number < NUMBERS }
    ensures { Adds (spec.call_text names.now number call) out.old out.new }
{
    out.put(b"call ");
    out.put_number(u64::from(number % 256 + 1));
    out.put(b" of ");
    out.put(
        names
            .name(NameKind::Function, (number / 256) as usize)
            .unwrap_or(b"?"),
    );
    out.put(b": ");
    let added = put_event(out.as_mut_vec(), names, Event::Call(Proc::new(1), call));
    out.note(added);
}

/// Puts what is told of a call, where there is one of this number.
#[tactic(auto, unfolding(crate::specs::Unmade::call_words))]
fn put_call_words(
    alloc: Global,
    out: &mut Text,
    orders: Orders<'_>,
    met: Option<&Met>,
    turns: u32,
    number: u32,
)
    requires { number < NUMBERS }
    ensures { Adds (spec.call_words orders.entry.config.now.names (option_copied met.entry) turns number
        (spec.call_of orders.entry.scripts.now number)) out.old out.new }
{
    if let Some(met) = met {
        put_of_orders(out, met.whole, turns);
    }
    if let Some(call) = orders
        .scripts
        .step(Some((number / 256) as u8), number % 256)
    {
        put_call_text(out, orders.config.names(), number, call);
        if met.is_none() {
            put_misplaced(alloc, out, form(call).text);
        }
    }
}

/// Tells of one call.
fn tell_call<N: Notes>(
    notes: &mut N,
    about: About<'_>,
    orders: Orders<'_>,
    met: Option<&Met>,
    turns: u32,
    number: u32,
)
    requires { number < NUMBERS }
    ensures { Adds (spec.call_line about.entry.asked.now orders.entry.config.now orders.entry.scripts.now (option_copied met.entry) turns number)
        (N.told notes.old) (N.told notes.new) }
{
    let mut line = about.line();
    put_call_words(about.alloc, &mut line, orders, met, turns, number);
    notes.note(line);
}

/// Tells how many more calls there are.
#[tactic(auto, unfolding(crate::specs::Unmade::more_line))]
fn tell_more<N: Notes>(notes: &mut N, about: About<'_>, met: Option<&Met>, more: usize)
    ensures { Adds (spec.more_line about.entry.asked.now (option_copied met.entry) more) (N.told notes.old) (N.told notes.new) }
{
    if more > 0 {
        let mut line = about.line();
        line.put(if met.is_none() { b"and " } else { b"nor " });
        line.put_number(more as u64);
        line.put(b" more calls of the scripts");
        notes.note(line);
    }
}

/// Tells of each of these calls.
fn tell_each<N: Notes>(
    notes: &mut N,
    about: About<'_>,
    orders: Orders<'_>,
    met: Option<&Met>,
    turns: u32,
    calls: &[u32],
)
    requires { All (λ n. n < NUMBERS) calls.now }
    ensures { Adds (spec.each_line (spec.call_line about.entry.asked.now orders.entry.config.now orders.entry.scripts.now (option_copied met.entry) turns)
        calls.now) (N.told notes.old) (N.told notes.new) }
{
    for at in 0..calls.len() {
        tell_call(notes, about, orders, met, turns, calls[at]);
    }
}

/// Tells of the first of these calls, and how many more there are.
#[tactic(auto, unfolding(crate::specs::Unmade::calls_lines))]
fn tell_calls<N: Notes>(
    notes: &mut N,
    about: About<'_>,
    orders: Orders<'_>,
    met: Option<&Met>,
    turns: u32,
    calls: &[u32],
)
    requires { All (λ n. n < NUMBERS) calls.now }
    ensures { Adds (spec.calls_lines about.entry.asked.now orders.entry.config.now orders.entry.scripts.now (option_copied met.entry) turns calls.now)
        (N.told notes.old) (N.told notes.new) }
{
    let first = &calls[..calls.len().min(MOST_CALLS)];
    tell_each(notes, about, orders, met, turns, first);
    tell_more(notes, about, met, calls.len().saturating_sub(MOST_CALLS));
}

/// Tells of the calls that no order makes where there are marks, and else of those that are always refused.
#[tactic(auto, unfolding(crate::specs::Unmade::all_lines))]
fn tell_all<N: Notes>(
    notes: &mut N,
    about: About<'_>,
    orders: Orders<'_>,
    met: Option<&Met>,
    turns: u32,
)
    ensures { Adds (spec.all_lines about.entry.asked.now orders.entry.config.now orders.entry.scripts.now (option_copied met.entry) turns)
        (N.told notes.old) (N.told notes.new) }
{
    match calls_told(about.alloc, orders, met) {
        Ok(calls) => tell_calls(notes, about, orders, met, turns, calls.as_slice()),
        Err(_) => tell_wanting(notes, about),
    }
}

/// Tells which calls of the scripts are always refused, and which no order makes if that is known, beside a question that no order shows.
#[tactic(auto, unfolding(crate::specs::Unmade::unmade_lines))]
pub(crate) fn note_calls_unmade<N: Notes>(
    notes: &mut N,
    about: About<'_>,
    orders: Orders<'_>,
    met: Option<&Met>,
    turns: u32,
)
    ensures { Adds (spec.unmade_lines about.entry.asked.now orders.entry.config.now orders.entry.scripts.now (option_copied met.entry) turns)
        (N.told notes.old) (N.told notes.new) }
{
    tell_all(notes, about, orders, None, turns);
    if met.is_some() {
        tell_all(notes, about, orders, met, turns);
    }
}

/// Whether a search that looks for nothing may tell which calls are made, where the one for the question does not. One that was ended, or left without
/// memory, is not tried again, and where the room was used up for a question of one step without `without`, both go through the same places.
fn may_know(outcome: &Outcome) -> bool
    ensures { result ≡ spec.may_know outcome.now.finding outcome.now.searched.question }
{
    match outcome.finding {
        Finding::Never => true,
        Finding::NotWithin(_) => match outcome.searched.question().steps() {
            [step] => step.without.is_some(),
            _ => true,
        },
        _ => false,
    }
}

/// Which calls are made, by a search that looks for nothing: one for a question with `without` leaves out orders. The error is want of memory.
fn calls_met<P: Progress>(
    alloc: Global,
    outcome: &Outcome,
    progress: &mut P,
    bounds: Bounds,
) -> Result<Option<Met>, AllocError>
    ensures says { IfOk result (λ o. IfSome o
        (SaysMade outcome.now.searched.config outcome.now.searched.scripts outcome.now.searched.rules bounds.turns.count)) }
    ensures none { IfOk result (λ o. o ≡ None → (spec.may_know outcome.now.finding outcome.now.searched.question ≡ false)
        ⊎ IsNotKnown outcome.now.searched.config outcome.now.searched.scripts outcome.now.searched.rules bounds.turns.count
        (bounds.places.count - 1) (P.over progress.new)) }
{
    if !may_know(outcome) || progress.is_over() {
        return Ok(None);
    }
    let found = calls_made(alloc, &outcome.searched.orders(), progress, bounds);
    progress.end();
    found
}

/// Tells which calls are always refused, and which no order makes, by a search that looks for nothing.
fn tell_searched<N: Notes, P: Progress>(
    notes: &mut N,
    about: About<'_>,
    outcome: &Outcome,
    progress: &mut P,
    bounds: Bounds,
)
    ensures { (N.told notes.new).wanting ≡ false → spec.TellsUnmade about.entry.asked.now outcome.now.searched outcome.now.finding bounds.turns.count
        (bounds.places.count - 1) (P.over progress.new) (N.told notes.old) (N.told notes.new) }
{
    match calls_met(about.alloc, outcome, progress, bounds) {
        Ok(met) => {
            let orders = outcome.searched.orders();
            note_calls_unmade(notes, about, orders, met.as_ref(), bounds.turns.count);
        }
        Err(_) => tell_wanting(notes, about),
    }
}

/// Tells which calls of the scripts are always refused, and which no order makes, beside what a search found that found no order.
pub fn note_unmade<N: Notes, P: Progress>(
    notes: &mut N,
    about: About<'_>,
    outcome: &Outcome,
    progress: &mut P,
    bounds: Bounds,
)
    // Beside an order nothing is told.
    ensures silent { outcome.now.extent ≡ None → N.told notes.new ≡ N.told notes.old }

    // Which calls are made is known by the search for the question, where it knows it.
    ensures known { (e : _) → outcome.now.extent ≡ Some e → IfSome outcome.now.met (λ met. Adds (spec.unmade_lines about.entry.asked.now
        outcome.now.searched.config outcome.now.searched.scripts (Some met) bounds.turns.count) (N.told notes.old) (N.told notes.new)) }

    // Else it is known by one that looks for nothing, as far as that goes.
    ensures searched { (e : _) → outcome.now.extent ≡ Some e → outcome.now.met ≡ None → (N.told notes.new).wanting ≡ false
        → spec.TellsUnmade about.entry.asked.now outcome.now.searched outcome.now.finding bounds.turns.count
        (bounds.places.count - 1) (P.over progress.new) (N.told notes.old) (N.told notes.new) }
{
    if outcome.extent.is_none() {
        return;
    }
    if outcome.met.is_some() {
        let orders = outcome.searched.orders();
        note_calls_unmade(
            notes,
            about,
            orders,
            outcome.met.as_ref(),
            bounds.turns.count,
        );
    } else {
        tell_searched(notes, about, outcome, progress, bounds);
    }
}
