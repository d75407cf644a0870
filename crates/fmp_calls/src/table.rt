//! The table of the service calls. A call is one line in the table of its family: its variant with the kinds of its arguments,
//! and its name. The macros read the lines.
ghost use Rattle.std.specs.Prelude.{◌≡◌, ◌≤◌, true, false, IfSome, Some, None, if◌then◌else◌, length, take, codes};
ghost use Rattle.std.specs.Str.{bytes_eq};
ghost use Rattle.fmp_codes.specs.declared.calls.Call.TheVariants.{RetHdr};
ghost use Rattle.fmp_codes.specs.Kinds as spec;
ghost use Rattle.fmp_calls.specs.Known.{IsKnown, AreKnown};
ghost use Rattle.fmp_calls.specs.Entries.{value_at as value_of_place};
ghost use Rattle.fmp_calls.specs.Table.{line_of, text_of, is_bare, kinds_of, call_of, values_of, named};

use arrayvec::ArrayVec;
use fmp_codes::{ArgumentKind, Call, Value};

/// The kind of an argument, as a line names it.
macro_rules! kind {
    (task) => { fmp_codes::ArgumentKind::Object(fmp_codes::ObjectKind::Task) };
    (semaphore) => { fmp_codes::ArgumentKind::Object(fmp_codes::ObjectKind::Semaphore) };
    (eventflag) => { fmp_codes::ArgumentKind::Object(fmp_codes::ObjectKind::Eventflag) };
    (data_queue) => { fmp_codes::ArgumentKind::Object(fmp_codes::ObjectKind::DataQueue) };
    (pool) => { fmp_codes::ArgumentKind::Object(fmp_codes::ObjectKind::Pool) };
    (cyclic) => { fmp_codes::ArgumentKind::Object(fmp_codes::ObjectKind::Cyclic) };
    (alarm) => { fmp_codes::ArgumentKind::Object(fmp_codes::ObjectKind::Alarm) };
    (spin_lock) => { fmp_codes::ArgumentKind::Object(fmp_codes::ObjectKind::SpinLock) };
    (priority) => { fmp_codes::ArgumentKind::Priority };
    (processor) => { fmp_codes::ArgumentKind::Processor };
    (time) => { fmp_codes::ArgumentKind::Time };
    (timeout) => { fmp_codes::ArgumentKind::Timeout };
    (pattern) => { fmp_codes::ArgumentKind::Pattern };
    (data) => { fmp_codes::ArgumentKind::Data };
    (mode) => { fmp_codes::ArgumentKind::Mode };
    (block) => { fmp_codes::ArgumentKind::Block };
}

/// The value of an argument of a kind.
macro_rules! value {
    (pattern, $argument:expr) => { fmp_codes::Value::Pattern($argument) };
    (data, $argument:expr) => { fmp_codes::Value::Data($argument) };
    (mode, $argument:expr) => { fmp_codes::Value::Mode($argument) };
    ($kind:ident, $argument:expr) => { fmp_codes::Value::Number($argument) };
}

/// The argument of a kind that a value is.
macro_rules! argument {
    (pattern, $value:expr) => { $value.pattern() };
    (data, $value:expr) => { $value.data() };
    (mode, $value:expr) => { $value.mode() };
    ($kind:ident, $value:expr) => { $value.number() };
}

/// What stands in a name for an argument of a kind.
macro_rules! blank {
    (mode) => { fmp_codes::Mode::Andw };
    ($kind:ident) => { 0 };
}

/// The call with the arguments that values are.
macro_rules! made {
    ($call:path, $values:expr) => { $call };
    ($call:path, $values:expr, $first:ident) => { $call(argument!($first, value_at($values, 0))) };
    ($call:path, $values:expr, $first:ident, $second:ident) => {
        $call(
            argument!($first, value_at($values, 0)),
            argument!($second, value_at($values, 1)),
        )
    };
    ($call:path, $values:expr, $first:ident, $second:ident, $third:ident) => {
        $call(
            argument!($first, value_at($values, 0)),
            argument!($second, value_at($values, 1)),
            argument!($third, value_at($values, 2)),
        )
    };
    ($call:path, $values:expr, $first:ident, $second:ident, $third:ident, $fourth:ident) => {
        $call(
            argument!($first, value_at($values, 0)),
            argument!($second, value_at($values, 1)),
            argument!($third, value_at($values, 2)),
            argument!($fourth, value_at($values, 3)),
        )
    };
}

/// All calls of a family, each with blanks for its arguments.
macro_rules! names {
    ($family:ident; $($variant:ident $(($($kind:ident),+))? = $text:literal,)+) => {
        [$($family::$variant $(($(blank!($kind)),+))?),+]
    };
}

/// All calls of a family, each with blanks for its arguments, and how it is written.
macro_rules! known {
    ($family:ident, $call:ident; $($variant:ident $(($($kind:ident),+))? = $text:literal,)+) => {
        [$($crate::KnownCall {
            call: fmp_codes::Call::$call($family::$variant $(($(blank!($kind)),+))?),
            form: CallForm {
                text: $text,
                bare: false,
                kinds: &[$($(kind!($kind)),+)?],
            },
        }),+]
    };
}

/// How a call of a family is written, and the values of its arguments.
macro_rules! parts {
    ($family:ident, $call:expr; $($variant:ident $(($($kind:ident),+))? = $text:literal,)+) => {
        match $call {
            $($family::$variant $(($($kind),+))? => (
                CallForm::new($text, &[$($(kind!($kind)),+)?]),
                listed(&[$($(value!($kind, $kind)),+)?]),
            ),)+
        }
    };
}

/// The call of the same name with the arguments that values are.
macro_rules! with_values {
    ($family:ident, $call:expr, $values:expr; $($variant:ident $(($($kind:ident),+))? = $text:literal,)+) => {
        match $call {
            $($family::$variant { .. } => made!($family::$variant, $values $($(, $kind)+)?),)+
        }
    };
}

pub mod buffer;
pub mod spin;
pub mod sync;
pub mod system;
pub mod task;
pub mod time;

/// The greatest number of arguments of a call.
pub const MOST_ARGUMENTS: usize = 4;

/// The arguments of a call, from left to right.
pub type Values = ArrayVec<Value, MOST_ARGUMENTS>;

/// How a call is written.
#[derive(Clone, Copy)]
pub struct CallForm {
    /// Its name.
    pub text: &'static [u8],
    /// It is written without parentheses, as the return of a handler is.
    pub bare: bool,
    /// The kinds of its arguments, from left to right.
    pub kinds: &'static [ArgumentKind],
}

impl CallForm {
    /// The form of a call with this name and arguments of these kinds, written with parentheses.
    fn new(text: &'static [u8], kinds: &'static [ArgumentKind]) -> Self
        ensures text { result.text.now ≡ text.now }
        ensures bare { result.bare ≡ false }
        ensures kinds { result.kinds.now ≡ kinds.now }
    {
        CallForm {
            text,
            bare: false,
            kinds,
        }
    }
}

/// A call with blanks for its arguments, and how it is written.
#[derive(Clone, Copy)]
pub struct KnownCall {
    pub call: Call,
    pub form: CallForm,
}

/// The return of a handler, in a list of its own.
const RETURN: &[KnownCall] = &[KnownCall {
    call: Call::RetHdr,
    form: CallForm {
        text: b"ret_hdr",
        bare: true,
        kinds: &[],
    },
}];

/// The calls of the family at this place, and none where there is no such family.
#[inline(always)]
fn family(place: usize) -> &'static [KnownCall]
    ensures { AreKnown result.now }
{
    match place {
        0 => task::KNOWN,
        1 => sync::KNOWN,
        2 => buffer::KNOWN,
        3 => time::KNOWN,
        4 => system::KNOWN,
        5 => spin::KNOWN,
        6 => RETURN,
        _ => &[],
    }
}

/// The call at a place of the table, where there is one. In each family places count on from a multiple of 32.
#[inline(always)]
pub fn call_at(place: u8) -> Option<&'static KnownCall>
    ensures { IfSome result (λ known. IsKnown known.now) }
{
    let place = usize::from(place);
    family(place / 32).get(place % 32)
}

/// The values as a list. They are pushed one by one, since so few are not worth a call that copies bytes.
#[inline(always)]
fn listed(values: &[Value]) -> Values
    requires { length values.now ≤ MOST_ARGUMENTS }
    ensures { result.items ≡ values.now }
{
    let mut list = ArrayVec::new();
    for value in values {
        list.push(*value);
    }
    list
}

/// The value at a place, or a number where there is none.
fn value_at(values: &[Value], place: usize) -> Value
    ensures { result ≡ value_of_place values.now place }
{
    match values.get(place) {
        Some(value) => *value,
        None => Value::Number(0),
    }
}

/// Whether a value may be an argument of a kind.
fn is_of_kind(kind: ArgumentKind, value: Value) -> bool
    ensures { result ≡ spec.is_of_kind kind value }
{
    match (kind, value) {
        (ArgumentKind::Pattern, value) => matches!(value, Value::Pattern(_)),
        (ArgumentKind::Data, value) => matches!(value, Value::Data(_)),
        (ArgumentKind::Mode, value) => matches!(value, Value::Mode(_)),
        (_, value) => matches!(value, Value::Number(_)),
    }
}

/// Whether there are as many values as kinds, and each may be an argument of its kind.
fn are_of_kinds(kinds: &[ArgumentKind], values: &[Value]) -> bool
    ensures { result ≡ spec.are_of_kinds kinds.now values.now }
{
    match kinds {
        [] => values.is_empty(),
        [kind, kinds @ ..] => match values {
            [] => false,
            [value, values @ ..] => is_of_kind(*kind, *value) && are_of_kinds(kinds, values),
        },
    }
}

/// How the call is written, whatever its arguments are.
pub fn form(call: Call) -> CallForm
    ensures text { result.text.now ≡ text_of call }
    ensures bare { result.bare ≡ is_bare call }
    ensures kinds { result.kinds.now ≡ kinds_of call }
    ensures few { length result.kinds.now ≤ MOST_ARGUMENTS }
{
    match call {
        Call::Task(call) => task::form(call),
        Call::Sync(call) => sync::form(call),
        Call::Buffer(call) => buffer::form(call),
        Call::Time(call) => time::form(call),
        Call::System(call) => system::form(call),
        Call::Spin(call) => spin::form(call),
        Call::RetHdr => CallForm {
            text: b"ret_hdr",
            bare: true,
            kinds: &[],
        },
    }
}

/// The arguments of the call.
pub fn values(call: Call) -> Values
    ensures { result.items ≡ values_of call }
{
    match call {
        Call::Task(call) => task::values(call),
        Call::Sync(call) => sync::values(call),
        Call::Buffer(call) => buffer::values(call),
        Call::Time(call) => time::values(call),
        Call::System(call) => system::values(call),
        Call::Spin(call) => spin::values(call),
        Call::RetHdr => Values::new(),
    }
}

/// How the call is written, and its arguments: [`form`] and [`values`] at once.
pub fn parts(call: Call) -> (CallForm, Values)
    ensures text { result.0.text.now ≡ text_of call }
    ensures bare { result.0.bare ≡ is_bare call }
    ensures kinds { result.0.kinds.now ≡ kinds_of call }
    ensures values { result.1.items ≡ values_of call }
{
    match call {
        Call::Task(call) => task::parts(call),
        Call::Sync(call) => sync::parts(call),
        Call::Buffer(call) => buffer::parts(call),
        Call::Time(call) => time::parts(call),
        Call::System(call) => system::parts(call),
        Call::Spin(call) => spin::parts(call),
        Call::RetHdr => (form(call), Values::new()),
    }
}

/// The call of the same name with these arguments, where they are of its kinds.
pub fn with_values(call: Call, values: &[Value]) -> Option<Call>
    ensures { result ≡ call_of call values.now }
{
    if are_of_kinds(form(call).kinds, values) {
        Some(made_of(call, values))
    } else {
        None
    }
}

/// The call of the same name, of which each argument is the value at its place, or a blank where that is not of its kind.
#[inline(always)]
fn made_of(call: Call, values: &[Value]) -> Call
    ensures { result ≡ (line_of call).make values.now }
{
    match call {
        Call::Task(call) => Call::Task(task::with_values(call, values)),
        Call::Sync(call) => Call::Sync(sync::with_values(call, values)),
        Call::Buffer(call) => Call::Buffer(buffer::with_values(call, values)),
        Call::Time(call) => Call::Time(time::with_values(call, values)),
        Call::System(call) => Call::System(system::with_values(call, values)),
        Call::Spin(call) => Call::Spin(spin::with_values(call, values)),
        Call::RetHdr => Call::RetHdr,
    }
}

/// As [`with_values`], where each value is known to be of its kind. The values after the last argument are not looked at.
#[inline(always)]
pub fn with_known_values(call: Call, values: &[Value; MOST_ARGUMENTS]) -> Call
    ensures value { result ≡ (line_of call).make values.now }
    ensures same { spec.are_of_kinds (kinds_of call) (take (length (kinds_of call)) values.now) ≡ true
        → call_of call (take (length (kinds_of call)) values.now) ≡ Some result }
{
    made_of(call, values.as_slice())
}

/// The return of a handler, where the word is its name.
fn find_return(word: &[u8]) -> Option<Call>
    ensures { result ≡ (if bytes_eq (codes "ret_hdr") word.now then Some RetHdr else None) }
{
    if b"ret_hdr".as_slice() == word {
        Some(Call::RetHdr)
    } else {
        None
    }
}

/// A call that is written so, with some arguments.
pub fn find_call(word: &[u8]) -> Option<Call>
    ensures { result ≡ named word.now }
{
    if let Some(call) = task::find(word) {
        return Some(Call::Task(call));
    }
    if let Some(call) = sync::find(word) {
        return Some(Call::Sync(call));
    }
    if let Some(call) = buffer::find(word) {
        return Some(Call::Buffer(call));
    }
    if let Some(call) = time::find(word) {
        return Some(Call::Time(call));
    }
    if let Some(call) = system::find(word) {
        return Some(Call::System(call));
    }
    if let Some(call) = spin::find(word) {
        return Some(Call::Spin(call));
    }
    find_return(word)
}
