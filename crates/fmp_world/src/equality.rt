//! Whether two receipts are equal. One function a level, so that each is proved alone.
ghost use Rattle.std.specs.Prelude.{◌≡◌, ◌↔◌, IsTrue};

use crate::seats::Receipt;
use fmp_codes::{Answer, Code, Event, Proc};
use fmp_text_scripts::is_same_call;

/// Whether two processors are the same.
fn is_same_processor(one: &Proc, other: &Proc) -> bool
    ensures { IsTrue result ↔ (one.now ≡ other.now) }
{
    one == other
}

/// Whether two events are equal.
fn is_same_event(one: &Event, other: &Event) -> bool
    ensures { IsTrue result ↔ (one.now ≡ other.now) }
{
    match (one, other) {
        (Event::Call(p, a), Event::Call(q, b)) => is_same_processor(p, q) && is_same_call(*a, *b),
        (Event::Tick(p), Event::Tick(q)) => is_same_processor(p, q),
        (Event::Ipi(p), Event::Ipi(q)) => is_same_processor(p, q),
        _ => false,
    }
}

/// Whether two codes of calls are the same.
fn is_same_code(one: &Code, other: &Code) -> bool
    ensures { IsTrue result ↔ (one.now ≡ other.now) }
{
    one == other
}

/// Whether two values of calls are the same, or neither call has one.
fn is_same_value(one: &Option<i64>, other: &Option<i64>) -> bool
    ensures { IsTrue result ↔ (one.now ≡ other.now) }
{
    one == other
}

/// Whether two answers are equal.
fn is_same_answer(one: &Answer, other: &Answer) -> bool
    ensures { IsTrue result ↔ (one.now ≡ other.now) }
{
    match (one, other) {
        (Answer::Done(c, v), Answer::Done(d, w)) => is_same_code(c, d) && is_same_value(v, w),
        (Answer::Wait, Answer::Wait) => true,
        (Answer::Spin, Answer::Spin) => true,
        (Answer::Gone, Answer::Gone) => true,
        (Answer::Idle, Answer::Idle) => true,
        (Answer::Held, Answer::Held) => true,
        (Answer::Taken, Answer::Taken) => true,
        (Answer::Nothing, Answer::Nothing) => true,
        _ => false,
    }
}

/// Whether two receipts are equal.
pub fn is_same(one: &Receipt, other: &Receipt) -> bool
    ensures { IsTrue result ↔ (one.now ≡ other.now) }
{
    one.number == other.number
        && is_same_event(&one.event, &other.event)
        && is_same_answer(&one.answer, &other.answer)
}
