//! Printing numbers, names and calls. What adds to a vector fails only where that had less room than there has to be, and it never
//! takes room away.
ghost use Rattle.std.specs.Prelude.{◌≡◌, ◌+◌, ◌<◌, ◌≤◌, ◌++◌, length, take, decimal, OnOk, OnErr, vec_capacity};
ghost use Rattle.std.specs.Fmt.{signed_decimal};
ghost use Rattle.fmp_trace.specs.Values as spec;

use fmp_calls::parts;
use fmp_codes::{ArgumentKind, Call, Mode, NameKind, ObjectKind, Value};
use fmp_text::Names;
use itoa::Buffer;
use std::alloc::AllocError;

/// Adds the first bytes of a piece. Where there is room for the whole piece, it is one store.
#[inline(always)]
pub(crate) fn put_piece(out: &mut Vec<u8>, piece: &[u8; 16], bytes: usize) -> Result<(), AllocError>
    requires { bytes ≤ 16 }
    ensures ok { OnOk result (out.new.items ≡ out.old.items ++ take bytes piece.now) }
    ensures full { OnErr result (vec_capacity out.old < length out.old.items + bytes) }
    ensures room { vec_capacity out.old ≤ vec_capacity out.new }
{
    let end = out.len() + bytes;
    if out.capacity() - out.len() < 16 {
        return out.extend_from_slice(&piece[..bytes]);
    }
    out.extend_from_slice(piece.as_slice())?;
    out.truncate(end);
    Ok(())
}

/// Adds a text. Most names have two or three bytes, and so many are one or two stores.
#[inline(always)]
fn put_word(out: &mut Vec<u8>, text: &[u8]) -> Result<(), AllocError>
    ensures ok { OnOk result (out.new.items ≡ out.old.items ++ text.now) }
    ensures full { OnErr result (vec_capacity out.old < length out.old.items + length text.now) }
    ensures room { vec_capacity out.old ≤ vec_capacity out.new }
{
    match text.len() {
        2 => out.extend_from_slice(&text[..2]),
        3 => out.extend_from_slice(&text[..3]),
        _ => out.extend_from_slice(text),
    }
}

/// Adds a number of any size in decimal.
fn put_great(out: &mut Vec<u8>, number: u64) -> Result<(), AllocError>
    ensures ok { OnOk result (out.new.items ≡ out.old.items ++ decimal number) }
    ensures full { OnErr result (vec_capacity out.old < length out.old.items + length (decimal number)) }
    ensures room { vec_capacity out.old ≤ vec_capacity out.new }
{
    let mut buffer = Buffer::new();
    out.extend_from_slice(buffer.format(number).as_bytes())
}

/// Adds a number in decimal. Most are one digit, which is written without a buffer.
#[inline(always)]
#[tactic(auto, using(std::proofs::lemmas::Fmt::decimal_digit))]
pub fn put_number(out: &mut Vec<u8>, number: u64) -> Result<(), AllocError>
    ensures ok { OnOk result (out.new.items ≡ out.old.items ++ decimal number) }
    ensures full { OnErr result (vec_capacity out.old < length out.old.items + length (decimal number)) }
    ensures room { vec_capacity out.old ≤ vec_capacity out.new }
{
    if 10 <= number {
        return put_great(out, number);
    }
    out.push(b'0' + number as u8)?;
    Ok(())
}

/// Adds a number with its sign, where it is below 0.
pub fn put_signed(out: &mut Vec<u8>, number: i64) -> Result<(), AllocError>
    ensures ok { OnOk result (out.new.items ≡ out.old.items ++ signed_decimal number) }
    ensures full { OnErr result (vec_capacity out.old < length out.old.items + length (signed_decimal number)) }
    ensures room { vec_capacity out.old ≤ vec_capacity out.new }
{
    if 0 <= number {
        return put_number(out, number as u64);
    }
    let mut buffer = Buffer::new();
    out.extend_from_slice(buffer.format(number).as_bytes())
}

/// Adds the name of an object, or the number where no object has it.
#[inline(always)]
#[tactic(auto, unfolding(crate::specs::Values::named))]
pub fn put_named(
    out: &mut Vec<u8>,
    names: &Names,
    kind: ObjectKind,
    number: usize,
) -> Result<(), AllocError>
    ensures ok { OnOk result (out.new.items ≡ out.old.items ++ spec.named names.now kind number) }
    ensures full { OnErr result (vec_capacity out.old < length out.old.items + length (spec.named names.now kind number)) }
    ensures room { vec_capacity out.old ≤ vec_capacity out.new }
{
    match names.name(NameKind::Object(kind), number) {
        Some(name) => put_word(out, name),
        None => put_number(out, number as u64),
    }
}

/// Adds an argument that stands for an object.
#[tactic(auto, unfolding(crate::specs::Values::object_text))]
fn put_object(
    out: &mut Vec<u8>,
    names: &Names,
    kind: ObjectKind,
    number: i32,
) -> Result<(), AllocError>
    ensures ok { OnOk result (out.new.items ≡ out.old.items ++ spec.object_text names.now kind number) }
    ensures full { OnErr result (vec_capacity out.old < length out.old.items + length (spec.object_text names.now kind number)) }
    ensures room { vec_capacity out.old ≤ vec_capacity out.new }
{
    if number == 0 && kind == ObjectKind::Task {
        return out.extend_from_slice(b"TSK_SELF");
    }
    if number < 0 {
        return put_signed(out, i64::from(number));
    }
    put_named(out, names, kind, number as usize)
}

/// Adds how a wait for an eventflag ends: `TWF_ANDW` for all bits, `TWF_ORW` for one of them.
fn put_mode(out: &mut Vec<u8>, mode: Mode) -> Result<(), AllocError>
    ensures ok { OnOk result (out.new.items ≡ out.old.items ++ spec.mode_text mode) }
    ensures full { OnErr result (vec_capacity out.old < length out.old.items + length (spec.mode_text mode)) }
    ensures room { vec_capacity out.old ≤ vec_capacity out.new }
{
    match mode {
        Mode::Andw => out.extend_from_slice(b"TWF_ANDW"),
        Mode::Orw => out.extend_from_slice(b"TWF_ORW"),
    }
}

/// Adds an argument.
#[tactic(auto, unfolding(crate::specs::Values::value_text))]
fn put_value(
    out: &mut Vec<u8>,
    names: &Names,
    kind: ArgumentKind,
    value: Value,
) -> Result<(), AllocError>
    ensures ok { OnOk result (out.new.items ≡ out.old.items ++ spec.value_text names.now kind value) }
    ensures full { OnErr result (vec_capacity out.old < length out.old.items + length (spec.value_text names.now kind value)) }
    ensures room { vec_capacity out.old ≤ vec_capacity out.new }
{
    match value {
        Value::Number(number) => match kind {
            ArgumentKind::Object(kind) => put_object(out, names, kind, number),
            _ => put_signed(out, i64::from(number)),
        },
        Value::Pattern(pattern) => put_number(out, u64::from(pattern)),
        Value::Data(value) => put_signed(out, value),
        Value::Mode(mode) => put_mode(out, mode),
    }
}

/// Adds arguments with `, ` between them, each as its kind is printed.
fn put_arguments(
    out: &mut Vec<u8>,
    names: &Names,
    kinds: &[ArgumentKind],
    values: &[Value],
) -> Result<(), AllocError>
    requires { length kinds.now ≡ length values.now }
    ensures ok { OnOk result (out.new.items ≡ out.old.items ++ spec.arguments_from names.now 0 kinds.now values.now) }
    ensures full { OnErr result (vec_capacity out.old < length out.old.items + length (spec.arguments_from names.now 0 kinds.now values.now)) }
    ensures room { vec_capacity out.old ≤ vec_capacity out.new }
{
    for (index, value) in values.iter().enumerate() {
        if index > 0 {
            out.extend_from_slice(b", ")?;
        }
        put_value(out, names, kinds[index], *value)?;
    }
    Ok(())
}

/// Adds a call with its arguments in parentheses, if it has any.
#[tactic(auto, unfolding(crate::specs::Values::call_text, crate::specs::Values::after_name))]
pub fn put_call(out: &mut Vec<u8>, names: &Names, call: Call) -> Result<(), AllocError>
    ensures ok { OnOk result (out.new.items ≡ out.old.items ++ spec.call_text names.now call) }
    ensures full { OnErr result (vec_capacity out.old < length out.old.items + length (spec.call_text names.now call)) }
    ensures room { vec_capacity out.old ≤ vec_capacity out.new }
{
    let (form, values) = parts(call);
    out.extend_from_slice(form.text)?;
    if form.bare {
        return Ok(());
    }
    out.push(b'(')?;
    put_arguments(out, names, form.kinds, values.as_slice())?;
    out.push(b')')?;
    Ok(())
}
