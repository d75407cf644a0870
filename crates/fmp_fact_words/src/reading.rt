//! The fact that a word of a pattern stands for.
ghost use Rattle.std.specs.Prelude.{◌≡◌, ◌≤◌, ◌<◌, List, map, Some, is_some};
ghost use Rattle.fmp_codes.specs.Kinds.{most_of};
ghost use Rattle.fmp_fact_words.specs.Reading as spec;

use crate::rows::{KEYS, Plain, WORDS};
use fmp_bytes::{are_digits, cut, following, is_zero_led, magnitude, signed64};
use fmp_codes::{NameKind, Object, ObjectKind, Proc, Runner, Task};
use fmp_facts::{Fact, Key, WaitKind};
use fmp_names::Names;

/// What a word stands for, by the first of these rows that has it.
fn word_row(rows: &[(&[u8], Plain)], word: &[u8]) -> Option<Plain>
    ensures { result ≡ spec.row_of (map (λ row. (row.0.now, row.1)) rows.now) word.now }
{
    match rows {
        [] => None,
        [(other, plain), ..] if *other == word => Some(*plain),
        [_, rows @ ..] => word_row(rows, word),
    }
}

/// The fact that it stands for.
fn fact_of(plain: Plain) -> Fact
    ensures { result ≡ spec.fact_of plain }
{
    match plain {
        Plain::Locked => Fact::Locked,
        Plain::Disabled => Fact::Disabled,
        Plain::Latch => Fact::Latched,
        Plain::Dormant => Fact::Dormant,
        Plain::Running => Fact::Running,
        Plain::Ready => Fact::Ready,
        Plain::Suspended => Fact::Suspended,
        Plain::Waits => Fact::Waits,
        Plain::Sleep => Fact::WaitsFor(WaitKind::Sleep),
        Plain::Delay => Fact::WaitsFor(WaitKind::Delay),
        Plain::Semaphore => Fact::WaitsFor(WaitKind::Semaphore),
        Plain::Eventflag => Fact::WaitsFor(WaitKind::Eventflag),
        Plain::Send => Fact::WaitsFor(WaitKind::Send),
        Plain::Receive => Fact::WaitsFor(WaitKind::Receive),
        Plain::Pool => Fact::WaitsFor(WaitKind::Pool),
        Plain::Empty => Fact::Empty,
        Plain::Stopped => Fact::Stopped,
        Plain::Due => Fact::Due,
        Plain::Free => Fact::Free,
    }
}

/// What a word before a `=` is about, by the first of these rows that has it.
fn key_row(rows: &[(&[u8], Key)], word: &[u8]) -> Option<Key>
    ensures { result ≡ spec.row_of (map (λ row. (row.0.now, row.1)) rows.now) word.now }
{
    match rows {
        [] => None,
        [(other, key), ..] if *other == word => Some(*key),
        [_, rows @ ..] => key_row(rows, word),
    }
}

/// The processor of a word that is `P` and its number, of so many processors.
pub(crate) fn processor_in(processors: u8, word: &[u8]) -> Option<Proc>
    requires { processors ≤ 8 }
    ensures { result ≡ spec.processor_in processors word.now }
{
    match word {
        [b'P', digit] if b'1' <= *digit && *digit <= b'0' + processors => Some(Proc::new(
            *digit - b'0',
        )),
        _ => None,
    }
}

/// The number that a word writes in decimal, without a zero that it does not need.
#[tactic(auto, unfolding(crate::specs::Reading::number_in))]
fn number_in(value: &[u8]) -> Option<u64>
    ensures { result ≡ spec.number_in value.now }
{
    if are_digits(10, value) && !is_zero_led(value) {
        magnitude(10, value)
    } else {
        None
    }
}

/// The same of 64 bits with a sign, after a `-` or not.
#[tactic(auto, unfolding(crate::specs::Reading::value_in))]
fn value_in(value: &[u8]) -> Option<i64>
    ensures { result ≡ spec.value_in value.now }
{
    match following(b'-', value) {
        Some(digits) => signed64(true, number_in(digits)?),
        None => signed64(false, number_in(value)?),
    }
}

/// The task of a name.
pub(crate) fn task_in(names: &Names, word: &[u8]) -> Option<Task>
    ensures { result ≡ spec.task_in names.now word.now }
{
    let number = names.number(NameKind::Object(ObjectKind::Task), word)?;
    Some(Task::new(number as u8))
}

/// The object of a name, of a kind that is no task.
pub(crate) fn object_in(names: &Names, kind: ObjectKind, word: &[u8]) -> Option<Object>
    requires { most_of kind ≤ 32 }
    ensures { result ≡ spec.object_in names.now kind word.now }
{
    let number = names.number(NameKind::Object(kind), word)?;
    Some(Object::new(number as u8))
}

/// The time event handler of a name.
fn handler_in(names: &Names, word: &[u8]) -> Option<Runner>
    ensures { result ≡ spec.handler_in names.now word.now }
{
    match object_in(names, ObjectKind::Cyclic, word) {
        Some(cyclic) => Some(Runner::Cyclic(cyclic)),
        None => Some(Runner::Alarm(object_in(names, ObjectKind::Alarm, word)?)),
    }
}

/// That a task waits for the object of this kind and name.
fn waited_in(names: &Names, kind: ObjectKind, word: &[u8]) -> Option<Fact>
    requires { most_of kind ≤ 32 }
    ensures { result ≡ spec.waited_in names.now kind word.now }
{
    Some(Fact::WaitsAt(kind, object_in(names, kind, word)?))
}

/// That a task waits for the object of this name.
#[tactic(auto, unfolding(crate::specs::Reading::waited_for))]
fn waited_for(names: &Names, word: &[u8]) -> Option<Fact>
    ensures { result ≡ spec.waited_for names.now word.now }
{
    if let Some(fact) = waited_in(names, ObjectKind::Semaphore, word) {
        return Some(fact);
    }
    if let Some(fact) = waited_in(names, ObjectKind::Eventflag, word) {
        return Some(fact);
    }
    if let Some(fact) = waited_in(names, ObjectKind::DataQueue, word) {
        return Some(fact);
    }
    waited_in(names, ObjectKind::Pool, word)
}

/// The fact that a word stands for as it is.
#[tactic(auto, unfolding(crate::specs::Reading::plain_fact))]
fn plain_fact(names: &Names, word: &[u8]) -> Option<Fact>
    ensures { result ≡ spec.plain_fact names.now word.now }
{
    match word_row(&WORDS, word) {
        Some(_) if names.contains_object(word) => None,
        Some(plain) => Some(fact_of(plain)),
        None if names.contains_object(word) => waited_for(names, word),
        None => None,
    }
}

/// That a processor runs this task, or none.
fn running_fact(names: &Names, value: &[u8]) -> Option<Fact>
    ensures { result ≡ spec.running_fact names.now value.now }
{
    if value == b"-".as_slice() {
        return Some(Fact::RunsNone);
    }
    Some(Fact::Runs(task_in(names, value)?))
}

/// Whether a word stands for a fact as it is.
pub(crate) fn is_word(word: &[u8]) -> bool
    ensures { result ≡ is_some (spec.row_of spec.words word.now) }
{
    word_row(&WORDS, word).is_some()
}

/// Whether a word may stand before a `=`.
pub(crate) fn is_key(word: &[u8]) -> bool
    ensures { result ≡ is_some (spec.row_of spec.key_rows word.now) }
{
    key_row(&KEYS, word).is_some()
}

/// The fact of a word with a `=`.
fn key_fact(names: &Names, value: &[u8], key: Key) -> Option<Fact>
    ensures { result ≡ spec.key_fact names.now value.now key }
{
    match key {
        Key::Run => running_fact(names, value),
        Key::Ready => Some(Fact::HasReady(task_in(names, value)?)),
        Key::Due => Some(Fact::HasDue(handler_in(names, value)?)),
        Key::Left => Some(Fact::Left(number_in(value)?)),
        Key::Priority => Some(Fact::Priority(number_in(value)?)),
        Key::Activations => Some(Fact::Activations(number_in(value)?)),
        Key::Wakeups => Some(Fact::Wakeups(number_in(value)?)),
        Key::Count => Some(Fact::Count(number_in(value)?)),
        Key::Pattern => Some(Fact::Pattern(number_in(value)?)),
        Key::Values => Some(Fact::HasValue(value_in(value)?)),
        Key::FreeBlocks => Some(Fact::FreeBlocks(number_in(value)?)),
        Key::Held => Some(Fact::HeldBy(processor_in(names.processors(), value)?)),
    }
}

/// The fact of a word with a `=`, of which a star may be what stands after it.
fn valued_fact(names: &Names, value: &[u8], key: Key) -> Option<Fact>
    ensures { result ≡ spec.valued_fact names.now value.now (Some key) }
{
    match key_fact(names, value, key) {
        None if value == b"*".as_slice() => Some(Fact::Has(key)),
        fact => fact,
    }
}

/// The fact that a word stands for, if it stands for one. A word that is also a name stands for none: write it with a star.
#[tactic(auto, unfolding(crate::specs::Reading::fact_named))]
pub fn fact_named(names: &Names, word: &[u8]) -> Option<Fact>
    ensures { result ≡ spec.fact_named names.now word.now }
{
    match cut(b'=', word) {
        (key, Some(value)) => valued_fact(names, value, key_row(&KEYS, key)?),
        (_, None) => match processor_in(names.processors(), word) {
            Some(p) => Some(Fact::On(p)),
            None => plain_fact(names, word),
        },
    }
}
