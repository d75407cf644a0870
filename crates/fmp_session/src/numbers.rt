//! Events that are told by numbers.
ghost use Rattle.std.specs.Prelude.{◌≡◌, ◌≤◌, ◌+◌, ◌++◌, Some, None, OnSome, IfNone, option_map, length};
ghost use Rattle.arrayvec.specs.ArrayVec.{array_vec_len};
ghost use Rattle.fmp_session.specs.Numbers as spec;

use crate::refused::Refused;
use fmp_bytes::{signed32, unsigned32};
use fmp_calls::{
    BUFFER_CALLS, MOST_ARGUMENTS, SPIN_CALLS, SYNC_CALLS, SYSTEM_CALLS, TASK_CALLS, TIME_CALLS,
    Values, form, with_values,
};
use fmp_codes::{ArgumentKind, Call, Event, Mode, Proc, Value};

/// The call on tasks at a place from 0.
#[tactic(auto, unfolding(crate::specs::Numbers::task_at))]
fn task_numbered(place: usize) -> Option<Call>
    ensures { result ≡ spec.task_at place }
{
    match TASK_CALLS.get(place) {
        Some(call) => Some(Call::Task(*call)),
        None => None,
    }
}

/// The call on semaphores and eventflags at a place from 0.
#[tactic(auto, unfolding(crate::specs::Numbers::sync_at))]
fn sync_numbered(place: usize) -> Option<Call>
    ensures { result ≡ spec.sync_at place }
{
    match SYNC_CALLS.get(place) {
        Some(call) => Some(Call::Sync(*call)),
        None => None,
    }
}

/// The call on data queues and pools at a place from 0.
#[tactic(auto, unfolding(crate::specs::Numbers::buffer_at))]
fn buffer_numbered(place: usize) -> Option<Call>
    ensures { result ≡ spec.buffer_at place }
{
    match BUFFER_CALLS.get(place) {
        Some(call) => Some(Call::Buffer(*call)),
        None => None,
    }
}

/// The call on time event handlers at a place from 0.
#[tactic(auto, unfolding(crate::specs::Numbers::time_at))]
fn time_numbered(place: usize) -> Option<Call>
    ensures { result ≡ spec.time_at place }
{
    match TIME_CALLS.get(place) {
        Some(call) => Some(Call::Time(*call)),
        None => None,
    }
}

/// The call on the system's state at a place from 0.
#[tactic(auto, unfolding(crate::specs::Numbers::system_at))]
fn system_numbered(place: usize) -> Option<Call>
    ensures { result ≡ spec.system_at place }
{
    match SYSTEM_CALLS.get(place) {
        Some(call) => Some(Call::System(*call)),
        None => None,
    }
}

/// The call on spin locks at a place from 0.
#[tactic(auto, unfolding(crate::specs::Numbers::spin_at))]
fn spin_numbered(place: usize) -> Option<Call>
    ensures { result ≡ spec.spin_at place }
{
    match SPIN_CALLS.get(place) {
        Some(call) => Some(Call::Spin(*call)),
        None => None,
    }
}

/// The call of a number from 1 on, in the order of `fmpsim list`, with blanks for its arguments.
pub fn call_numbered(number: u32) -> Option<Call>
    ensures { result ≡ spec.call_at number }
{
    let number = number as usize;
    if number == 0 {
        None
    } else if number <= 20 {
        task_numbered(number - 1)
    } else if number <= 31 {
        sync_numbered(number - 21)
    } else if number <= 44 {
        buffer_numbered(number - 32)
    } else {
        call_above(number)
    }
}

/// The same of the families that come last.
fn call_above(number: usize) -> Option<Call>
    requires { 45 ≤ number }
    ensures { result ≡ spec.call_above number }
{
    if number <= 53 {
        time_numbered(number - 45)
    } else if number <= 71 {
        system_numbered(number - 54)
    } else if number <= 77 {
        spin_numbered(number - 72)
    } else if number == 78 {
        Some(Call::RetHdr)
    } else {
        None
    }
}

/// The mode of a number, as in C.
fn mode_numbered(number: u32) -> Option<Mode>
    ensures { result ≡ spec.mode_numbered number }
{
    if number == 1 {
        Some(Mode::Orw)
    } else if number == 2 {
        Some(Mode::Andw)
    } else {
        None
    }
}

/// The value of an argument of a kind, where the number is within its bits.
pub fn value_of(kind: ArgumentKind, number: i64) -> Option<Value>
    ensures { result ≡ spec.value_from kind number }
{
    let (negative, magnitude) = (number.is_negative(), number.unsigned_abs());
    match kind {
        ArgumentKind::Data => Some(Value::Data(number)),
        ArgumentKind::Pattern => unsigned32(negative, magnitude).map(Value::Pattern),
        ArgumentKind::Mode => {
            let bits = unsigned32(negative, magnitude)?;
            mode_numbered(bits).map(Value::Mode)
        }
        _ => signed32(negative, magnitude).map(Value::Number),
    }
}

/// Adds the values of arguments of these kinds. Numbers after them say nothing.
fn put_values(kinds: &[ArgumentKind], numbers: &[i64], values: &mut Values) -> Option<()>
    requires { array_vec_len values.old + length kinds.now ≤ MOST_ARGUMENTS }
    ensures some { OnSome result (option_map (λ vs. values.old.items ++ vs) (spec.values_from kinds.now numbers.now) ≡ Some values.new.items) }
    ensures none { IfNone result (spec.values_from kinds.now numbers.now ≡ None) }
{
    match kinds {
        [] => Some(()),
        [kind, kinds @ ..] => match numbers {
            [] => None,
            [number, numbers @ ..] => {
                values.push(value_of(*kind, *number)?);
                put_values(kinds, numbers, values)
            }
        },
    }
}

/// The call of the same name with these arguments.
fn with_numbers(call: Call, numbers: &[i64]) -> Result<Call, Refused>
    ensures { result ≡ spec.call_from (Some call) numbers.now }
{
    let kinds = form(call).kinds;
    let mut values = Values::new();
    match put_values(kinds, numbers, &mut values) {
        None => Err(Refused::Argument),
        Some(()) => with_values(call, values.as_slice()).ok_or(Refused::Argument),
    }
}

/// What happens on a processor: a call, a tick with 79, an interrupt with 80.
fn event_on(processor: Proc, number: u32, numbers: &[i64]) -> Result<Event, Refused>
    ensures { result ≡ spec.event_on processor number numbers.now }
{
    if number == 79 {
        return Ok(Event::Tick(processor));
    }
    if number == 80 {
        return Ok(Event::Ipi(processor));
    }
    match call_numbered(number) {
        None => Err(Refused::Call),
        Some(call) => Ok(Event::Call(processor, with_numbers(call, numbers)?)),
    }
}

/// The event of these numbers: of a processor, of what happens there, and of its arguments.
pub fn event_of(processor: u32, number: u32, numbers: &[i64]) -> Result<Event, Refused>
    ensures { result ≡ spec.event_from processor number numbers.now }
{
    if 1 <= processor && processor <= 8 {
        event_on(Proc::new(processor as u8), number, numbers)
    } else {
        Err(Refused::Processor)
    }
}
