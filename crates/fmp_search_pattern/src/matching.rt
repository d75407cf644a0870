//! Whether what is asked for, or a moment, is at an event.
ghost use Rattle.std.specs.Prelude.{◌≡◌, ℕ, List, ◌∷◌, false};
ghost use Rattle.std.specs.Option.{option_copied, option_map_or};
ghost use Rattle.fmp_search_pattern.specs.Items as items;
ghost use Rattle.fmp_search_pattern.specs.Matching as matching;
ghost use Rattle.fmp_search_pattern.specs.Questions as spec;

use crate::items::{Item, Part, Wanted};
use crate::question::{Moment, Pattern, Question, Step};
use crate::refusals::is_refused;
use crate::sight::Sight;
use fmp_facts::Asked;
use memchr::memmem;

/// The text after the first place where a piece stands in it, and none where it stands nowhere. An empty piece stands at the front.
fn after_first<'a>(piece: &[u8], text: &'a [u8]) -> Option<&'a [u8]>
    ensures { (pieces : List (List ℕ)) → matching.stand (piece.now ∷ pieces) text.now ≡ option_map_or (matching.stand pieces) (option_copied result) false }
{
    match memmem::find(text, piece) {
        None => None,
        Some(place) => Some(&text[place + piece.len()..]),
    }
}

/// Whether the pieces stand in a text in order, without overlap. Any bytes may come before, between and after them.
fn stand(pattern: &Pattern, text: &[u8]) -> bool
    ensures { result ≡ matching.stand pattern.now text.now }
{
    let mut rest = text;
    for piece in pattern.pieces() {
        match after_first(piece.bytes(), rest) {
            None => return false,
            Some(following) => rest = following,
        }
    }
    true
}

/// Whether one of some facts is so of the state after an event.
pub fn has_fact<S: Sight>(event: &S, asked: &[Asked]) -> bool
    ensures { result ≡ matching.any (S.sight event.now).is_so asked.now }
{
    for one in asked {
        if event.is_so(one) {
            return true;
        }
    }
    false
}

/// Whether what an item asks for is at an event.
fn has_wanted<S: Sight>(event: &S, wanted: &Wanted) -> bool
    ensures { result ≡ items.has_wanted (S.sight event.now) wanted.now }
{
    match wanted {
        Wanted::Refused => is_refused(event.line()),
        Wanted::End => event.is_over(),
        Wanted::Line(pattern) => stand(pattern, event.line()),
        Wanted::State(_, choice) => has_fact(event, choice.asked()),
    }
}

/// Whether an item is so of an event.
#[tactic(auto, unfolding(crate::specs::Items::has_item))]
fn has_item<S: Sight>(event: &S, item: &Item) -> bool
    ensures { result ≡ items.has_item (S.sight event.now) item.now }
{
    let there = has_wanted(event, item.wanted());
    if item.is_negated() { !there } else { there }
}

/// Whether each item of a part is so of an event.
fn has_part<S: Sight>(event: &S, part: &Part) -> bool
    ensures { result ≡ items.has_part (S.sight event.now) part.now }
{
    for item in part.items() {
        if !has_item(event, item) {
            return false;
        }
    }
    true
}

/// Whether some part of a moment is at an event.
pub fn has_moment<S: Sight>(event: &S, moment: &Moment) -> bool
    ensures { result ≡ spec.has_moment (S.sight event.now) moment.now }
{
    for part in moment.parts() {
        if has_part(event, part) {
            return true;
        }
    }
    false
}

/// Whether the moment that a step waits for is at an event. False without a step.
fn is_met<S: Sight>(event: &S, step: Option<&Step>) -> bool
    ensures { result ≡ spec.is_met (S.sight event.now) (option_copied step.entry) }
{
    match step {
        None => false,
        Some(step) => has_moment(event, &step.moment),
    }
}

/// Whether the moment that must not come before that of a step is at an event. False without a step, and for a step without such a moment.
fn is_barred<S: Sight>(event: &S, step: Option<&Step>) -> bool
    ensures { result ≡ spec.is_barred (S.sight event.now) (option_copied step.entry) }
{
    match step {
        Some(
            Step {
                without: Some(unwanted),
                ..
            },
        ) => has_moment(event, unwanted),
        _ => false,
    }
}

/// Whether an event may be marked as the moment of the step that is looked for, which has this number from 0, or be passed by without a
/// mark.
#[tactic(auto, unfolding(crate::specs::Questions::allows))]
pub fn allows<S: Sight>(event: &S, question: &Question, seen: u32, marked: bool) -> bool
    ensures { result ≡ spec.allows question.now seen marked (S.sight event.now) }
{
    let step = question.steps().get(seen as usize);
    if marked {
        is_met(event, step)
    } else {
        !is_barred(event, step)
    }
}
