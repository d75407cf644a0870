//! The values that are told, and their texts.
ghost use Rattle.std.specs.Prelude.{◌≡◌, ◌++◌, ◌∷◌, [], codes, decimal, IsTrue};
ghost use Rattle.fmp_out.specs.Putting.{Adds};
ghost use Rattle.fmp_run_view.specs.Ticks as ticks;
ghost use Rattle.fmp_run_view.specs.Values as spec;

use fmp_codes::{Object, Pri, Proc, Runner};
use fmp_out::Text;
use fmp_rules::{TaskState, Wait};

/// A value of one of the signals, but for the handlers that are due, which are a list.
#[derive(Clone, Copy)]
pub enum Value {
    Number(u64),
    /// Locked, dispatching disabled, a request pending.
    Flags(bool, bool, bool),
    /// The state of a task, what it waits for, and how many ticks there will have been when that is over.
    State(TaskState, Option<Wait>, Option<u64>),
    /// A task's processor and priority, the queued activations and the queued wakeups.
    Rest(Proc, Pri, u8, u16),
    /// The processor of a time event handler, and how many ticks there will have been when it is due, if it is started.
    Started(Proc, Option<u64>),
}

/// Whether two states have the same letter.
#[inline(always)]
fn has_letter_of(one: TaskState, two: TaskState) -> bool
    ensures { IsTrue result → spec.state_letter one ≡ spec.state_letter two }
{
    match (one, two) {
        (TaskState::Dormant, TaskState::Dormant)
        | (TaskState::Ready, TaskState::Ready)
        | (TaskState::Running, TaskState::Running)
        | (TaskState::Waiting, TaskState::Waiting)
        | (TaskState::Suspended, TaskState::Suspended)
        | (TaskState::WaitingSuspended, TaskState::WaitingSuspended) => true,
        _ => false,
    }
}

/// Whether two waits have the same text: they are for the same object.
#[tactic(auto, unfolding(crate::specs::Values::object_wait))]
#[inline(always)]
fn is_for_same(one: Option<Wait>, two: Option<Wait>) -> bool
    ensures { IsTrue result → spec.wait_text one ≡ spec.wait_text two }
{
    match (one, two) {
        (None, None) => true,
        (Some(Wait::Sleep), Some(Wait::Sleep)) => true,
        (Some(Wait::Delay), Some(Wait::Delay)) => true,
        (Some(Wait::Semaphore(a)), Some(Wait::Semaphore(b))) => a.number == b.number,
        (Some(Wait::Eventflag(a, _, _)), Some(Wait::Eventflag(b, _, _))) => a.number == b.number,
        (Some(Wait::Send(a, _)), Some(Wait::Send(b, _))) => a.number == b.number,
        (Some(Wait::Receive(a)), Some(Wait::Receive(b))) => a.number == b.number,
        (Some(Wait::Pool(a)), Some(Wait::Pool(b))) => a.number == b.number,
        _ => false,
    }
}

/// Whether two are over at the same count of ticks, or neither ever.
#[inline(always)]
fn is_till_same(one: Option<u64>, two: Option<u64>) -> bool
    ensures { IsTrue result → one ≡ two }
{
    match (one, two) {
        (None, None) => true,
        (Some(a), Some(b)) => a == b,
        _ => false,
    }
}

/// Whether two who run have the same text.
#[inline(always)]
fn has_handler_text_of(one: Runner, two: Runner) -> bool
    ensures { IsTrue result → spec.handler_text one ≡ spec.handler_text two }
{
    match (one, two) {
        (Runner::Task(a), Runner::Task(b)) => a.number == b.number,
        (Runner::Alarm(a), Runner::Alarm(b)) => a.number == b.number,
        (Runner::Cyclic(a), Runner::Cyclic(b)) => a.number == b.number,
        _ => false,
    }
}

/// Whether two lists of due handlers have the same text, as far as that is quickly seen: where both have one handler at most.
#[inline(always)]
pub(crate) fn has_due_text_of(one: &[Runner], two: &[Runner]) -> bool
    ensures { IsTrue result → spec.due_text one.now ≡ spec.due_text two.now }
{
    match (one, two) {
        ([], []) => true,
        ([a], [b]) => has_handler_text_of(*a, *b),
        _ => false,
    }
}

impl Value {
    /// Whether another value has the same text.
    #[tactic(auto, unfolding(crate::specs::Values::state_text, crate::specs::Values::rest_text, crate::specs::Ticks::started_text))]
    #[inline(always)]
    pub(crate) fn has_text_of(self, other: Value) -> bool
        ensures { IsTrue result → spec.text_of self ≡ spec.text_of other }
    {
        match (self, other) {
            (Value::Number(a), Value::Number(b)) => a == b,
            (Value::Flags(a, b, c), Value::Flags(d, e, f)) => a == d && b == e && c == f,
            (Value::State(a, b, c), Value::State(d, e, f)) => {
                has_letter_of(a, d) && is_for_same(b, e) && is_till_same(c, f)
            }
            (Value::Rest(a, b, c, d), Value::Rest(e, f, g, h)) => {
                a.number == e.number && b.number == f.number && c == g && d == h
            }
            (Value::Started(a, b), Value::Started(c, d)) => {
                a.number == c.number && is_till_same(b, d)
            }
            _ => false,
        }
    }
}

/// Adds the text of a flag, if it is set.
fn put_flag(out: &mut Text, holds: bool, text: &[u8])
    ensures { Adds (spec.flag_text holds text.now) out.old out.new }
{
    if holds {
        out.put(text);
    }
}

/// Adds a letter for each flag of a processor that is set, or `-` where none is.
#[tactic(auto, unfolding(crate::specs::Values::flags_text))]
fn put_flags(out: &mut Text, locked: bool, disabled: bool, latch: bool)
    ensures { Adds (spec.flags_text locked disabled latch) out.old out.new }
{
    if !locked && !disabled && !latch {
        return out.put(b"-");
    }
    put_flag(out, locked, b"l");
    put_flag(out, disabled, b"d");
    put_flag(out, latch, b"i");
}

/// Adds who runs: the letter of a task, an alarm or a cyclic handler, and its number.
fn put_handler(out: &mut Text, handler: Runner)
    ensures { Adds (spec.handler_text handler) out.old out.new }
{
    match handler {
        Runner::Task(t) => put_lettered(out, b'T', t.number),
        Runner::Alarm(a) => put_lettered(out, b'A', a.number),
        Runner::Cyclic(c) => put_lettered(out, b'C', c.number),
    }
}

/// Adds a letter, and a number after it.
fn put_lettered(out: &mut Text, letter: u8, number: u8)
    ensures { Adds ((letter ∷ []) ++ decimal number) out.old out.new }
{
    out.put_byte(letter);
    out.put_number(u64::from(number));
}

/// Adds handlers, each after a comma.
fn put_handlers_after(out: &mut Text, handlers: &[Runner])
    ensures { Adds (spec.handlers_after handlers.now) out.old out.new }
{
    for handler in handlers {
        out.put_byte(b',');
        put_handler(out, *handler);
    }
}

/// Adds the due handlers of a processor.
pub(crate) fn put_due(out: &mut Text, due: &[Runner])
    ensures { Adds (spec.due_text due.now) out.old out.new }
{
    match due {
        [] => out.put(b"-"),
        [first, others @ ..] => {
            put_handler(out, *first);
            put_handlers_after(out, others);
        }
    }
}

/// The letter of a task's state.
fn state_letter(state: TaskState) -> &'static [u8]
    ensures { result.now ≡ spec.state_letter state }
{
    match state {
        TaskState::Dormant => b"-",
        TaskState::Ready => b"y",
        TaskState::Running => b"r",
        TaskState::Waiting => b"w",
        TaskState::Suspended => b"s",
        TaskState::WaitingSuspended => b"x",
    }
}

/// Adds the word of a wait, and the number of the object for which a task waits.
#[tactic(auto, unfolding(crate::specs::Values::object_wait))]
fn put_object_wait(out: &mut Text, word: &[u8], object: Object)
    ensures { Adds (spec.object_wait word.now object) out.old out.new }
{
    out.put(word);
    out.put_number(u64::from(object.number));
}

/// Adds what a task waits for, if it waits.
fn put_wait(out: &mut Text, wait: Option<Wait>)
    ensures { Adds (spec.wait_text wait) out.old out.new }
{
    match wait {
        None => {}
        Some(Wait::Sleep) => out.put(b" slp"),
        Some(Wait::Delay) => out.put(b" dly"),
        Some(Wait::Semaphore(s)) => put_object_wait(out, b" sem ", s),
        Some(Wait::Eventflag(f, _, _)) => put_object_wait(out, b" flg ", f),
        Some(Wait::Send(d, _)) => put_object_wait(out, b" sdtq ", d),
        Some(Wait::Receive(d)) => put_object_wait(out, b" rdtq ", d),
        Some(Wait::Pool(m)) => put_object_wait(out, b" mpf ", m),
    }
}

/// Adds how many ticks there will have been when something is over, if it is timed.
fn put_until(out: &mut Text, until: Option<u64>)
    ensures { Adds (ticks.until_text until) out.old out.new }
{
    match until {
        None => {}
        Some(ticks) => {
            out.put(b" @");
            out.put_number(ticks);
        }
    }
}

/// Adds the state of a task, what it waits for, and when that is over.
#[tactic(auto, unfolding(crate::specs::Values::state_text))]
fn put_state(out: &mut Text, state: TaskState, wait: Option<Wait>, until: Option<u64>)
    ensures { Adds (spec.state_text state wait until) out.old out.new }
{
    out.put(state_letter(state));
    put_wait(out, wait);
    put_until(out, until);
}

/// Adds how many activations and wakeups are queued.
fn put_queued(out: &mut Text, activations: u8, wakeups: u16)
    ensures { Adds (decimal activations ++ codes " " ++ decimal wakeups) out.old out.new }
{
    out.put_number(u64::from(activations));
    out.put_byte(b' ');
    out.put_number(u64::from(wakeups));
}

/// Adds a task's processor and priority, and how many activations and wakeups are queued.
#[tactic(auto, unfolding(crate::specs::Values::rest_text))]
fn put_rest(out: &mut Text, p: Proc, priority: Pri, activations: u8, wakeups: u16)
    ensures { Adds (spec.rest_text p priority activations wakeups) out.old out.new }
{
    out.put_number(u64::from(p.number));
    out.put_byte(b' ');
    out.put_number(u64::from(priority.number));
    out.put_byte(b' ');
    put_queued(out, activations, wakeups);
}

/// The processor on which a handler is started, or 0.
fn started_on(p: Proc, until: Option<u64>) -> u64
    ensures { result ≡ ticks.started_on p until }
{
    match until {
        None => 0,
        Some(_) => u64::from(p.number),
    }
}

/// Adds where a handler is started, and how many ticks there will have been when it is due.
#[tactic(auto, unfolding(crate::specs::Ticks::started_text))]
fn put_started(out: &mut Text, p: Proc, until: Option<u64>)
    ensures { Adds (ticks.started_text p until) out.old out.new }
{
    out.put_number(started_on(p, until));
    put_until(out, until);
}

/// Adds the text of a value.
pub(crate) fn put_value(out: &mut Text, value: Value)
    ensures { Adds (spec.text_of value) out.old out.new }
{
    match value {
        Value::Number(number) => out.put_number(number),
        Value::Flags(locked, disabled, latch) => put_flags(out, locked, disabled, latch),
        Value::State(state, wait, until) => put_state(out, state, wait, until),
        Value::Rest(p, priority, activations, wakeups) => {
            put_rest(out, p, priority, activations, wakeups);
        }
        Value::Started(p, until) => put_started(out, p, until),
    }
}
