//! What a row of words asks of a state.
ghost use Rattle.std.specs.Prelude.{◌≡◌, ◌++◌, List, Some, is_some, map, option_map, IfOk, OnOk};
ghost use Rattle.fmp_facts.specs.declared.facts.Fact.{Fact as AnyFact};
ghost use Rattle.fmp_fact_words.specs.Asking as spec;

use crate::reading::{fact_named, object_in, processor_in, task_in};
use fmp_codes::ObjectKind;
use fmp_facts::{Asked, Choice, Fact, Key, Kind, Subject, Thing};
use fmp_names::Names;
use std::alloc::{AllocError, Global};

/// The kinds of things that have something after a key.
fn kinds_with(key: Key) -> &'static [Kind]
    ensures { result.now ≡ spec.kinds_with key }
{
    match key {
        Key::Run | Key::Ready | Key::Due => &[Kind::Processor],
        Key::Left => &[Kind::Task, Kind::Cyclic, Kind::Alarm],
        Key::Priority | Key::Activations | Key::Wakeups => &[Kind::Task],
        Key::Count => &[Kind::Semaphore],
        Key::Pattern => &[Kind::Eventflag],
        Key::Values => &[Kind::DataQueue],
        Key::FreeBlocks => &[Kind::Pool],
        Key::Held => &[Kind::SpinLock],
    }
}

/// The kinds of things of which a fact may be so.
fn kinds_of(fact: Fact) -> &'static [Kind]
    ensures { result.now ≡ spec.kinds_of fact }
{
    match fact {
        Fact::Left(_) => &[Kind::Task, Kind::Cyclic, Kind::Alarm],
        Fact::Stopped | Fact::Due => &[Kind::Cyclic, Kind::Alarm],
        Fact::Runs(_) | Fact::RunsNone | Fact::HasReady(_) => &[Kind::Processor],
        Fact::Locked | Fact::Disabled | Fact::Latched | Fact::HasDue(_) => &[Kind::Processor],
        Fact::Count(_) => &[Kind::Semaphore],
        Fact::Pattern(_) => &[Kind::Eventflag],
        Fact::Empty | Fact::HasValue(_) => &[Kind::DataQueue],
        Fact::FreeBlocks(_) => &[Kind::Pool],
        Fact::Free | Fact::HeldBy(_) => &[Kind::SpinLock],
        Fact::Has(key) => kinds_with(key),
        _ => &[Kind::Task],
    }
}

/// A number of its own for each kind.
fn place_of(kind: Kind) -> u8
    ensures { result ≡ spec.place_of kind }
{
    match kind {
        Kind::Processor => 0,
        Kind::Task => 1,
        Kind::Semaphore => 2,
        Kind::Eventflag => 3,
        Kind::DataQueue => 4,
        Kind::Pool => 5,
        Kind::Cyclic => 6,
        Kind::Alarm => 7,
        Kind::SpinLock => 8,
    }
}

/// Whether a fact may be so of a thing of this kind.
fn may_be(kind: Kind, fact: Fact) -> bool
    ensures { result ≡ spec.may_be kind fact }
{
    kinds_of(fact)
        .iter()
        .any(|other| place_of(*other) == place_of(kind))
}

/// Whether all of these facts may be so of a thing of this kind.
fn may_all_be(facts: &[Fact], kind: Kind) -> bool
    ensures { result ≡ spec.may_all_be facts.now kind }
{
    facts.iter().all(|fact| may_be(kind, *fact))
}

/// The kind of a thing.
fn kind_of(thing: Thing) -> Kind
    ensures { result ≡ spec.kind_of thing }
{
    match thing {
        Thing::Processor(_) => Kind::Processor,
        Thing::Task(_) => Kind::Task,
        Thing::Semaphore(_) => Kind::Semaphore,
        Thing::Eventflag(_) => Kind::Eventflag,
        Thing::DataQueue(_) => Kind::DataQueue,
        Thing::Pool(_) => Kind::Pool,
        Thing::Cyclic(_) => Kind::Cyclic,
        Thing::Alarm(_) => Kind::Alarm,
        Thing::SpinLock(_) => Kind::SpinLock,
    }
}

/// The thing of a name, or a processor.
#[tactic(auto, unfolding(crate::specs::Asking::thing_in))]
pub fn thing_in(names: &Names, word: &[u8]) -> Option<Thing>
    ensures { result ≡ spec.thing_in names.now word.now }
{
    if let Some(p) = processor_in(names.processors(), word) {
        return Some(Thing::Processor(p));
    }
    if let Some(t) = task_in(names, word) {
        return Some(Thing::Task(t));
    }
    if let Some(o) = object_in(names, ObjectKind::Semaphore, word) {
        return Some(Thing::Semaphore(o));
    }
    if let Some(o) = object_in(names, ObjectKind::Eventflag, word) {
        return Some(Thing::Eventflag(o));
    }
    if let Some(o) = object_in(names, ObjectKind::DataQueue, word) {
        return Some(Thing::DataQueue(o));
    }
    if let Some(o) = object_in(names, ObjectKind::Pool, word) {
        return Some(Thing::Pool(o));
    }
    if let Some(o) = object_in(names, ObjectKind::Cyclic, word) {
        return Some(Thing::Cyclic(o));
    }
    if let Some(o) = object_in(names, ObjectKind::Alarm, word) {
        return Some(Thing::Alarm(o));
    }
    Some(Thing::SpinLock(object_in(names, ObjectKind::SpinLock, word)?))
}

/// A copy of some facts. The error is want of memory.
fn copied(alloc: Global, facts: &[Fact]) -> Result<Vec<Fact>, AllocError>
    ensures { IfOk result (λ v. v.items ≡ facts.now) }
{
    Vec::from_slice(alloc, facts)
}

/// What these facts ask of one thing.
fn asked_of_one(alloc: Global, thing: Thing, facts: &[Fact]) -> Result<Vec<Asked>, AllocError>
    ensures { IfOk result (λ v. v.items ≡ spec.asked_of_one thing facts.now) }
{
    let mut asked = Vec::new(alloc);
    if !facts.is_empty() && may_all_be(facts, kind_of(thing)) {
        asked.push(Asked::new(Subject::One(thing), copied(alloc, facts)?))?;
    }
    Ok(asked)
}

/// That all of these facts are so of something of one of these kinds, as far as they may be.
fn asked_of_kinds(alloc: Global, facts: &[Fact], kinds: &[Kind]) -> Result<Vec<Asked>, AllocError>
    ensures { IfOk result (λ v. v.items ≡ spec.asked_of_kinds facts.now kinds.now) }
{
    let mut asked = Vec::new(alloc);
    for kind in kinds {
        if may_all_be(facts, *kind) {
            asked.push(Asked::new(Subject::Any(*kind), copied(alloc, facts)?))?;
        }
    }
    Ok(asked)
}

/// What these facts ask of anything of a kind of which all of them may be so.
fn asked_of_any(alloc: Global, facts: &[Fact]) -> Result<Vec<Asked>, AllocError>
    ensures { IfOk result (λ v. v.items ≡ spec.asked_of_any facts.now) }
{
    match facts {
        [] => Ok(Vec::new(alloc)),
        [first, ..] => asked_of_kinds(alloc, facts, kinds_of(*first)),
    }
}

/// What these facts ask of a thing, or of any without one.
pub fn asked_of(alloc: Global, thing: Option<Thing>, facts: &[Fact]) -> Result<Choice, AllocError>
    ensures { IfOk result (λ c. c ≡ spec.asked_of thing facts.now) }
{
    match thing {
        Some(thing) => Ok(Choice::new(asked_of_one(alloc, thing, facts)?)),
        None => Ok(Choice::new(asked_of_any(alloc, facts)?)),
    }
}

/// Whether a word is of stars alone.
pub(crate) fn is_star(word: &[u8]) -> bool
    ensures { result ≡ spec.is_star word.now }
{
    word.iter().all(|b| *b == b'*')
}

/// Adds the fact that a word stands for, and none for a star alone. False where the word stands for none. The error is want of memory.
fn add_fact(facts: &mut Vec<Fact>, names: &Names, word: &[u8]) -> Result<bool, AllocError>
    ensures done { IfOk result (λ done. done ≡ is_some (spec.word_facts names.now word.now)) }
    ensures added { (fs : List AnyFact) → spec.word_facts names.now word.now ≡ Some fs → OnOk result (facts.new.items ≡ facts.old.items ++ fs) }
{
    if is_star(word) {
        return Ok(true);
    }
    match fact_named(names, word) {
        None => Ok(false),
        Some(fact) => {
            facts.push(fact)?;
            Ok(true)
        }
    }
}

/// The facts of a row of words, where each stands for some. The error is want of memory.
fn facts_in(alloc: Global, names: &Names, words: &[&[u8]]) -> Result<Option<Vec<Fact>>, AllocError>
    ensures { IfOk result (λ o. option_map (λ v. v.items) o ≡ spec.facts_in names.now (map (λ w. w.now) words.now)) }
{
    let mut facts = Vec::new(alloc);
    for word in words {
        if !add_fact(&mut facts, names, word)? {
            return Ok(None);
        }
    }
    Ok(Some(facts))
}

/// What facts ask of a thing, or of any, where there are facts. The error is want of memory.
fn asked_if(
    alloc: Global,
    thing: Option<Thing>,
    facts: Option<Vec<Fact>>,
) -> Result<Choice, AllocError>
    ensures { IfOk result (λ c. c ≡ spec.asked_if thing (option_map (λ v. v.items) facts)) }
{
    match facts {
        None => Ok(Choice::new(Vec::new(alloc))),
        Some(facts) => asked_of(alloc, thing, &facts),
    }
}

/// What a row of words asks of a state, if it asks anything. Else it is a pattern of the record. The error is want of memory.
#[tactic(auto, unfolding(crate::specs::Asking::asked_by))]
pub fn asked_by(alloc: Global, names: &Names, words: &[&[u8]]) -> Result<Choice, AllocError>
    ensures { IfOk result (λ c. c ≡ spec.asked_by names.now (map (λ w. w.now) words.now)) }
{
    match words {
        [] => Ok(Choice::new(Vec::new(alloc))),
        [first, others @ ..] => match thing_in(names, first) {
            None => asked_if(alloc, None, facts_in(alloc, names, words)?),
            thing => asked_if(alloc, thing, facts_in(alloc, names, others)?),
        },
    }
}
