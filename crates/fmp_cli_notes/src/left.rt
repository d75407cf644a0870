//! Without which things fewest places of a search are left: these hold it up.
ghost use Rattle.std.specs.Prelude.{◌≡◌, ◌⊎◌, ◌≤◌, false, None, Some, IfOk};
ghost use Rattle.fmp_out.specs.Putting.{Adds};
ghost use Rattle.fmp_run_explore.specs.Searched.{searched};
ghost use Rattle.fmp_cli_notes.specs.Extent.{reach_of};
ghost use Rattle.fmp_cli_notes.specs.Left as spec;

use crate::extent::{Reach, reach_of, reach_within};
use crate::notes::{About, Notes};
use fmp_cli::ExploreRequest;
use fmp_codes::{NameKind, ObjectKind};
use fmp_names::Names;
use fmp_out::Text;
use fmp_ranges::{Bounds, Places, Turns};
use fmp_run_explore::{Left, Orders, Outcome, Progress, left_without};
use fmp_run_forever::{Stayed, Staying};
use fmp_search::Extent;
use fmp_search_pattern::{Moment, Question, Step};
use fmp_setup::Config;
use std::alloc::{AllocError, Global};

// How many places are looked at.
const MOST_PLACES: usize = 20_000;

// How many things are told.
const MOST_THINGS: usize = 5;

/// The things without which fewer places are left, each behind how many: the fewest first. The error is want of memory.
#[tactic(auto, using(crate::proofs::Below::fewer_none, crate::proofs::Below::fewer_with, crate::proofs::Below::fewer_without))]
fn fewest(alloc: Global, left: &Left) -> Result<Vec<(usize, usize)>, AllocError>
    ensures { IfOk result (λ things. spec.AreFewest left.now things.items) }
{
    let mut things = Vec::new(alloc);
    for thing in 0..left.without.len() {
        let places = left.without[thing];
        if places < left.places {
            things.push((places, thing))?;
        }
    }
    things.sort()?;
    Ok(things)
}

/// The name of a thing, by its number among those of these kinds, of each of which there are so many.
fn name_among<'a>(names: &'a Names, kinds: &[(ObjectKind, usize)], thing: usize) -> &'a [u8]
    ensures { result.now ≡ spec.name_among names.now kinds.now thing }
{
    match kinds {
        [(kind, count), ..] if thing < *count => names
            .name(NameKind::Object(*kind), thing + 1)
            .unwrap_or(b"?"),
        [(_, count), others @ ..] => name_among(names, others, thing - count),
        [] => b"?",
    }
}

/// The name of a thing, by its number among those that `Left` has.
#[tactic(auto, unfolding(crate::specs::Left::name_of))]
fn name_of(config: &Config, thing: usize) -> &[u8]
    ensures { result.now ≡ spec.name_of config.now thing }
{
    let kinds = [
        (ObjectKind::Alarm, config.alarms().len()),
        (ObjectKind::Cyclic, config.cyclics().len()),
        (ObjectKind::Task, config.tasks().len()),
        (ObjectKind::Pool, config.pools().len()),
        (ObjectKind::Eventflag, config.eventflags().len()),
        (ObjectKind::Semaphore, config.semaphores().len()),
        (ObjectKind::DataQueue, config.data_queues().len()),
    ];
    name_among(config.names(), &kinds, thing)
}

/// Puts each of these things and how many places are left without it: the first behind this, and the others behind commas.
fn put_things(line: &mut Text, config: &Config, things: &[(usize, usize)], lead: &[u8])
    ensures { Adds (spec.things_text config.now lead.now things.now) line.old line.new }
{
    if let [(places, thing), others @ ..] = things {
        line.put(lead);
        line.put(name_of(config, *thing));
        line.put(b" ");
        line.put_number(*places as u64);
        put_things(line, config, others, b", ");
    }
}

/// Tells of how many places fewest are left, and without which things.
#[tactic(auto, unfolding(crate::specs::Left::left_line))]
fn tell_line<N: Notes>(
    notes: &mut N,
    about: About<'_>,
    config: &Config,
    places: usize,
    first: &[(usize, usize)],
)
    ensures { Adds (spec.left_line about.entry.asked.now config.now places first.now) (N.told notes.old) (N.told notes.new) }
{
    let mut line = about.line();
    line.put(b"places left where one thing is not looked at, of the first ");
    line.put_number(places as u64);
    put_things(&mut line, config, first, b": ");
    notes.note(line);
}

/// Tells of the first of these things, where there are any.
fn tell_things<N: Notes>(
    notes: &mut N,
    about: About<'_>,
    config: &Config,
    places: usize,
    things: &[(usize, usize)],
)
    ensures { Adds (spec.left_note about.entry.asked.now config.now places things.now) (N.told notes.old) (N.told notes.new) }
{
    if let [_, ..] = things {
        let first = &things[..things.len().min(MOST_THINGS)];
        tell_line(notes, about, config, places, first);
    }
}

/// How many of the first places are looked at: some where there was no room or no memory for more, and else none.
fn looked_at(extent: Option<Extent>, why: Reach) -> usize
    ensures none { spec.is_held_up extent why ≡ false → result ≡ 0 }
    ensures few { result ≤ MOST_PLACES }
{
    match (extent, why) {
        (Some(extent), Reach::Room | Reach::Wanting) => extent.places.min(MOST_PLACES),
        _ => 0,
    }
}

/// Where some are looked at, how many.
fn places_looked_at(extent: Option<Extent>, why: Reach) -> Option<Places>
    ensures { spec.is_held_up extent why ≡ false → result ≡ None }
{
    Places::new(looked_at(extent, why) as u32)
}

/// How many of the first places are left without each thing. The error is want of memory.
fn left_of<P: Progress>(
    alloc: Global,
    orders: &Orders<'_>,
    question: &Question,
    progress: &mut P,
    bounds: Bounds,
) -> Result<Left, AllocError>
    ensures { IfOk result (spec.IsLeftOf (searched orders.now.config.now orders.now.scripts.now orders.now.rules question.now) bounds.turns.count) }
{
    let left = left_without(alloc, orders, question, progress, bounds);
    progress.end();
    left
}

/// Tells what is told by such counts, unless memory is wanting.
fn tell_left<N: Notes>(
    notes: &mut N,
    about: About<'_>,
    orders: &Orders<'_>,
    _question: &Question,
    _bounds: Bounds,
    left: &Left,
)
    requires { spec.IsLeftOf (searched orders.now.config.now orders.now.scripts.now orders.now.rules _question.now) _bounds.turns.count left.now }
    ensures { (N.told notes.new).wanting ≡ false → (N.told notes.new ≡ N.told notes.old)
        ⊎ spec.TellsLeft about.entry.asked.now (searched orders.now.config.now orders.now.scripts.now orders.now.rules _question.now) _bounds.turns.count
        (N.told notes.old) (N.told notes.new) }
{
    if let Ok(things) = fewest(about.alloc, left) {
        tell_things(notes, about, orders.config, left.places, things.as_slice());
    }
}

/// Tells, where a search went so far and no farther for this, without which things fewest of its places are left, if it did not end.
fn note_held_up<N: Notes, P: Progress>(
    notes: &mut N,
    about: About<'_>,
    orders: &Orders<'_>,
    question: &Question,
    extent: Option<Extent>,
    why: Reach,
    progress: &mut P,
    turns: Turns,
)
    ensures silent { spec.is_held_up extent why ≡ false → N.told notes.new ≡ N.told notes.old }
    ensures left { (N.told notes.new).wanting ≡ false → (N.told notes.new ≡ N.told notes.old)
        ⊎ spec.TellsLeft about.entry.asked.now (searched orders.now.config.now orders.now.scripts.now orders.now.rules question.now) turns.count
        (N.told notes.old) (N.told notes.new) }
{
    let Some(places) = places_looked_at(extent, why) else {
        return;
    };
    let bounds = Bounds { turns, places };
    if let Ok(left) = left_of(about.alloc, orders, question, progress, bounds) {
        tell_left(notes, about, orders, question, bounds, &left);
    }
}

/// Tells, where a search did not end, without which things fewest of its places are left.
pub fn note_left<N: Notes, P: Progress>(
    notes: &mut N,
    about: About<'_>,
    outcome: &Outcome,
    progress: &mut P,
    request: &ExploreRequest<'_>,
)
    // Nothing is told of a search that ended otherwise than for want of room or memory.
    ensures silent { spec.is_held_up outcome.now.extent (reach_of outcome.now.finding request.now.bounds.turns.count) ≡ false
        → N.told notes.new ≡ N.told notes.old }

    // What is told is of some first places. It may be that nothing is, for want of memory.
    ensures left { (N.told notes.new).wanting ≡ false → (N.told notes.new ≡ N.told notes.old)
        ⊎ spec.TellsLeft about.entry.asked.now outcome.now.searched request.now.bounds.turns.count (N.told notes.old) (N.told notes.new) }
{
    let (orders, question) = (outcome.searched.orders(), outcome.searched.question());
    let turns = request.bounds.turns;
    let why = reach_of(outcome.finding, turns.count);
    note_held_up(
        notes,
        about,
        &orders,
        question,
        outcome.extent,
        why,
        progress,
        turns,
    );
}

/// Why a search for what stays for ever went no farther.
fn reach_of_staying(staying: Staying, turns: u32) -> Reach
    ensures { result ≡ spec.reach_of_staying staying turns }
{
    match staying {
        Staying::Never => Reach::All,
        Staying::NotWithin(lines) => reach_within(lines, turns),
        Staying::Wanting(_) => Reach::Wanting,
        Staying::Ended(_) | Staying::Shortest(..) | Staying::Found(..) => Reach::Part,
    }
}

/// A question that no order shows. The error is want of memory.
fn nothing(alloc: Global) -> Result<Question, AllocError>
    ensures { IfOk result (λ question. question ≡ spec.nothing) }
{
    let step = Step {
        moment: Moment::new(Vec::new(alloc)),
        without: None,
    };
    Ok(Question::new(vec![in alloc; step]?))
}

/// Likewise where what stays for ever was searched for. That search goes through all places, whatever is asked: so does one that looks for nothing.
pub fn note_left_for_ever<N: Notes, P: Progress>(
    notes: &mut N,
    about: About<'_>,
    stayed: &Stayed,
    progress: &mut P,
    request: &ExploreRequest<'_>,
)
    ensures silent { spec.is_held_up (Some stayed.now.extent) (spec.reach_of_staying stayed.now.staying request.now.bounds.turns.count) ≡ false
        → N.told notes.new ≡ N.told notes.old }
    ensures left { (N.told notes.new).wanting ≡ false → (N.told notes.new ≡ N.told notes.old)
        ⊎ spec.TellsLeft about.entry.asked.now (searched stayed.now.asked.config stayed.now.asked.scripts stayed.now.rules spec.nothing)
        request.now.bounds.turns.count (N.told notes.old) (N.told notes.new) }
{
    let Ok(question) = nothing(about.alloc) else {
        return;
    };
    let orders = Orders {
        config: &stayed.asked.config,
        scripts: &stayed.asked.scripts,
        rules: stayed.rules,
    };
    let turns = request.bounds.turns;
    let why = reach_of_staying(stayed.staying, turns.count);
    note_held_up(
        notes,
        about,
        &orders,
        &question,
        Some(stayed.extent),
        why,
        progress,
        turns,
    );
}
