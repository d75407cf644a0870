//! The form of a call: its parentheses and commas, and where its arguments begin.
ghost use Rattle.std.specs.Prelude.{◌≡◌, ◌≤◌, length, map, IfOk};
ghost use Rattle.fmp_calls.specs.Table.{kinds_of};
ghost use Rattle.fmp_text.specs.Places as spec;
ghost use Rattle.fmp_text.specs.Places.{Gives};

use crate::argument::is_argument;
use crate::fault::TextKind;
use crate::misfit::{Misfit, Wanted};
use arrayvec::ArrayVec;
use fmp_bytes::{Class, all_of, following, skip, split_prefix};
use fmp_calls::{MOST_ARGUMENTS, form};
use fmp_codes::{ArgumentKind, Call};

/// What follows this byte of a call, with blanks before it.
#[tactic(auto, unfolding(crate::specs::Places::mark))]
fn mark<'a>(call: Call, byte: u8, text: &'a [u8]) -> Result<&'a [u8], Misfit<'a>>
    ensures { Gives (λ rest. rest.now) result (spec.mark call byte text.now) }
{
    let text = skip(Class::Blank, text);
    following(byte, text).ok_or(Misfit {
        kind: TextKind::WrongArguments,
        rest: text,
        wanted: Wanted::Mark(call, byte),
    })
}

/// The text from the argument of this index on, without the blanks before it and, unless it is the first, the comma.
fn start<'a>(call: Call, index: usize, text: &'a [u8]) -> Result<&'a [u8], Misfit<'a>>
    ensures { Gives (λ rest. rest.now) result (spec.start call index text.now) }
{
    if index == 0 {
        return Ok(skip(Class::Blank, text));
    }
    let rest = mark(call, b',', text)?;
    Ok(skip(Class::Blank, rest))
}

/// What follows the argument that begins a text, where it has the form of one.
#[tactic(auto, unfolding(crate::specs::Places::argument))]
fn argument<'a>(call: Call, kind: ArgumentKind, text: &'a [u8]) -> Result<&'a [u8], Misfit<'a>>
    ensures { Gives (λ rest. rest.now) result (spec.argument call kind text.now) }
{
    let (token, rest) = split_prefix(Class::Argument, text);
    if is_argument(token) {
        Ok(rest)
    } else {
        Err(Misfit {
            kind: TextKind::WrongArguments,
            rest: text,
            wanted: Wanted::Argument(call, kind),
        })
    }
}

/// The arguments of a call, in their order: the text from each on, and what follows the last one.
fn arguments<'a>(
    call: Call,
    kinds: &[ArgumentKind],
    text: &'a [u8],
) -> Result<(ArrayVec<&'a [u8], MOST_ARGUMENTS>, &'a [u8]), Misfit<'a>>
    requires { length kinds.now ≤ MOST_ARGUMENTS }
    ensures gives { Gives (λ read. (map (λ t. t.now) read.0.items, read.1.now)) result (spec.arguments call 0 kinds.now text.now) }
    ensures count { IfOk result (λ read. length read.0.items ≡ length kinds.now) }
{
    let mut starts = ArrayVec::new();
    let mut rest = text;
    for (index, kind) in kinds.iter().enumerate() {
        let first = start(call, index, rest)?;
        rest = argument(call, *kind, first)?;
        starts.push(first);
    }
    Ok((starts, rest))
}

/// Nothing more but blanks in the line.
#[tactic(auto, unfolding(crate::specs::Places::ending))]
pub fn ending<'a>(wanted: Wanted, text: &'a [u8]) -> Result<(), Misfit<'a>>
    ensures { Gives (λ end. end) result (spec.ending wanted text.now) }
{
    if all_of(Class::Blank, text) {
        Ok(())
    } else {
        Err(Misfit {
            kind: TextKind::WrongArguments,
            rest: skip(Class::Blank, text),
            wanted,
        })
    }
}

/// The parentheses of a call with its arguments: the text from each argument on.
#[tactic(auto, unfolding(crate::specs::Places::enclosed))]
fn enclosed<'a>(
    call: Call,
    kinds: &[ArgumentKind],
    text: &'a [u8],
) -> Result<ArrayVec<&'a [u8], MOST_ARGUMENTS>, Misfit<'a>>
    requires { length kinds.now ≤ MOST_ARGUMENTS }
    ensures gives { Gives (λ starts. map (λ t. t.now) starts.items) result (spec.enclosed call kinds.now text.now) }
    ensures count { IfOk result (λ starts. length starts.items ≡ length kinds.now) }
{
    let inner = mark(call, b'(', text)?;
    let (starts, rest) = arguments(call, kinds, inner)?;
    ending(Wanted::CallEnd(call), mark(call, b')', rest)?)?;
    Ok(starts)
}

/// What follows a call's name, as far as its form is concerned: the text from each argument on. After a bare name only blanks may stand.
#[tactic(auto, unfolding(crate::specs::Places::formed))]
pub fn formed<'a>(
    call: Call,
    text: &'a [u8],
) -> Result<ArrayVec<&'a [u8], MOST_ARGUMENTS>, Misfit<'a>>
    ensures gives { Gives (λ starts. map (λ t. t.now) starts.items) result (spec.formed call text.now) }
    ensures count { IfOk result (λ starts. length starts.items ≡ length (kinds_of call)) }
{
    let form = form(call);
    if !form.bare {
        return enclosed(call, form.kinds, text);
    }
    ending(Wanted::CallEnd(call), text)?;
    Ok(ArrayVec::new())
}
