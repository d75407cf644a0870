//! Reading one call.
ghost use Rattle.std.specs.Prelude.{◌≡◌, ◌≤◌, length, map};
ghost use Rattle.fmp_text.specs.Places as places;
ghost use Rattle.fmp_text.specs.Places.{Gives};
ghost use Rattle.fmp_text.specs.Reading as spec;

use crate::argument::value_at;
use crate::fault::TextKind;
use crate::form::formed;
use crate::misfit::{Misfit, Wanted};
use arrayvec::ArrayVec;
use fmp_bytes::{Class, all_of, skip, split_prefix};
use fmp_calls::{MOST_ARGUMENTS, find_call, form, with_values};
use fmp_codes::{ArgumentKind, Call, Value};
use fmp_names::Names;

/// The value of the argument that begins a text.
#[tactic(auto, unfolding(crate::specs::Places::value))]
fn value<'a>(
    names: &Names,
    call: Call,
    kind: ArgumentKind,
    text: &'a [u8],
) -> Result<Value, Misfit<'a>>
    ensures { Gives (λ value. value) result (places.value names.now call kind text.now) }
{
    let (token, _rest) = split_prefix(Class::Argument, text);
    match value_at(names, kind, token) {
        Ok(value) => Ok(value),
        Err(fault) => Err(Misfit {
            kind: fault,
            rest: text,
            wanted: Wanted::Argument(call, kind),
        }),
    }
}

/// The values of the arguments that begin these texts, or the misfit of the first that has none of its kind.
fn values<'a>(
    names: &Names,
    call: Call,
    kinds: &[ArgumentKind],
    texts: &[&'a [u8]],
) -> Result<ArrayVec<Value, MOST_ARGUMENTS>, Misfit<'a>>
    requires same { length texts.now ≡ length kinds.now }
    requires few { length kinds.now ≤ MOST_ARGUMENTS }
    ensures { Gives (λ values. values.items) result (places.values names.now call kinds.now (map (λ t. t.now) texts.now)) }
{
    let mut values = ArrayVec::new();
    for (index, kind) in kinds.iter().enumerate() {
        values.push(value(names, call, *kind, texts[index])?);
    }
    Ok(values)
}

/// The call of this name with the arguments in what follows the name. Its form is judged first, and then the values of its arguments.
#[tactic(auto, unfolding(crate::specs::Places::call_after))]
pub fn call_after<'a>(names: &Names, call: Call, text: &'a [u8]) -> Result<Call, Misfit<'a>>
    ensures { Gives (λ call. call) result (places.call_after names.now call text.now) }
{
    let starts = formed(call, text)?;
    let values = values(names, call, form(call).kinds, starts.as_slice())?;
    with_values(call, values.as_slice()).ok_or(Misfit {
        kind: TextKind::WrongArguments,
        rest: text,
        wanted: Wanted::CallEnd(call),
    })
}

/// A call with no blanks before it.
#[tactic(auto, unfolding(crate::specs::Places::call_at))]
pub fn call_at<'a>(names: &Names, text: &'a [u8]) -> Result<Call, Misfit<'a>>
    ensures { Gives (λ call. call) result (places.call_at names.now text.now) }
{
    let (word, rest) = split_prefix(Class::Word, text);
    match find_call(word) {
        Some(call) => call_after(names, call, rest),
        None => Err(Misfit {
            kind: TextKind::BadWord,
            rest: text,
            wanted: Wanted::Happening,
        }),
    }
}

/// Reads the bytes of one call, with blanks around. It takes no memory.
#[tactic(auto, unfolding(crate::specs::Reading::call_in))]
pub fn read_call(bytes: &[u8], names: &Names) -> Result<Call, TextKind>
    ensures exact { result ≡ spec.call_in names.now bytes.now }
{
    if !all_of(Class::Line, bytes) {
        return Err(TextKind::BadByte);
    }
    match call_at(names, skip(Class::Blank, bytes)) {
        Ok(call) => Ok(call),
        Err(misfit) => Err(misfit.kind),
    }
}
