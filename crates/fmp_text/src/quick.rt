//! The short way through an event of the common forms: one pass, in which a call and the names of objects are guessed by their
//! first bytes and then compared. The text spells what is found. Where nothing is found, the line has to be read in full.
ghost use Rattle.std.specs.Prelude.{◌≡◌, ◌++◌, ◌∷◌, [], ◌+◌, ◌<◌, ◌≤◌, ◌^◌, IfSome, IsTrue, Some, true, codes, decimal, length, take};
ghost use Rattle.fmp_bytes.specs.Bytes.{close_parenthesis};
ghost use Rattle.fmp_calls.specs.Table.{kinds_of, values_of};
ghost use Rattle.fmp_names.specs.Names.{NameLists};
ghost use Rattle.fmp_codes.specs.declared.kinds.ArgumentKind.TheVariants as kinds;
ghost use Rattle.fmp_calls.specs.Known.{IsKnown};
ghost use Rattle.fmp_text.specs.Grammar.{IsNumber, IsObjectName, SpellsValue, SpellsCall};
ghost use Rattle.fmp_text.specs.TextGrammar.{SpellsEvent};
ghost use Rattle.fmp_text.specs.Fronts.{IsFront, IsAfterBlank, IsAfterBlanks, IsAfterComma, IsClosed, IsEcho, IsMade, IsNumberOf, Happens, prints_number};
ghost use Rattle.fmp_text.specs.Printed.{arguments_from, call_text, event_text, value_text};
ghost use Rattle.fmp_text.specs.Argument.{constant_of, ranged};

use crate::echo::Echo;
use fmp_bytes::{following, word_key};
use fmp_calls::{KnownCall, MOST_ARGUMENTS, likely_call, with_known_values};
use fmp_codes::{ArgumentKind, Call, Event, Mode, NameKind, ObjectKind, Proc, Value};
use fmp_names::Names;

/// Whether all bytes of two texts of one length are the same, one after the other.
#[inline(always)]
fn are_same_bytes(one: &[u8], other: &[u8]) -> bool
    requires { length one.now ≡ length other.now }
    ensures { IsTrue result → one.now ≡ other.now }
{
    for index in 0..one.len() {
        if one[index] != other[index] {
            return false;
        }
    }
    true
}

/// Whether two bytes are the same as two others, which are compared as one word.
#[inline(always)]
fn is_same_two(one: &[u8; 2], other: &[u8; 2]) -> bool
    ensures { IsTrue result → one.now ≡ other.now }
{
    u16::from_le_bytes(*one) == u16::from_le_bytes(*other)
}

/// Whether four bytes are the same as four others, which are compared as one word.
#[inline(always)]
fn is_same_four(one: &[u8; 4], other: &[u8; 4]) -> bool
    ensures { IsTrue result → one.now ≡ other.now }
{
    u32::from_le_bytes(*one) == u32::from_le_bytes(*other)
}

/// Whether eight bytes are the same as eight others, which are compared as one word.
#[inline(always)]
fn is_same_eight(one: &[u8; 8], other: &[u8; 8]) -> bool
    ensures { IsTrue result → one.now ≡ other.now }
{
    u64::from_le_bytes(*one) == u64::from_le_bytes(*other)
}

/// Whether two texts of one length, of 2 to 4 bytes, are the same: their first two bytes and their last, which may overlap.
#[inline(always)]
fn is_same_brief(one: &[u8], other: &[u8]) -> bool
    requires { (length one.now ≡ length other.now) × (length one.now ≤ 4) }
    ensures { IsTrue result → one.now ≡ other.now }
{
    let (Some(first), Some(second)) = (one.first_chunk::<2>(), other.first_chunk::<2>()) else {
        return false;
    };
    let (Some(last), Some(end)) = (one.last_chunk::<2>(), other.last_chunk::<2>()) else {
        return false;
    };
    is_same_two(first, second) && is_same_two(last, end)
}

/// The same of 4 to 8 bytes.
#[inline(always)]
fn is_same_short(one: &[u8], other: &[u8]) -> bool
    requires { (length one.now ≡ length other.now) × (length one.now ≤ 8) }
    ensures { IsTrue result → one.now ≡ other.now }
{
    let (Some(first), Some(second)) = (one.first_chunk::<4>(), other.first_chunk::<4>()) else {
        return false;
    };
    let (Some(last), Some(end)) = (one.last_chunk::<4>(), other.last_chunk::<4>()) else {
        return false;
    };
    is_same_four(first, second) && is_same_four(last, end)
}

/// The same of 8 to 16 bytes.
#[inline(always)]
fn is_same_long(one: &[u8], other: &[u8]) -> bool
    requires { (length one.now ≡ length other.now) × (length one.now ≤ 16) }
    ensures { IsTrue result → one.now ≡ other.now }
{
    let (Some(first), Some(second)) = (one.first_chunk::<8>(), other.first_chunk::<8>()) else {
        return false;
    };
    let (Some(last), Some(end)) = (one.last_chunk::<8>(), other.last_chunk::<8>()) else {
        return false;
    };
    is_same_eight(first, second) && is_same_eight(last, end)
}

/// Whether two texts of one length are the same. Most words have 2 to 16 bytes, and are compared as two words of the machine.
#[inline(always)]
fn is_same(one: &[u8], other: &[u8]) -> bool
    requires { length one.now ≡ length other.now }
    ensures { IsTrue result → one.now ≡ other.now }
{
    let length = one.len();
    if length < 2 || 16 < length {
        are_same_bytes(one, other)
    } else if length < 4 {
        is_same_brief(one, other)
    } else if length <= 8 {
        is_same_short(one, other)
    } else {
        is_same_long(one, other)
    }
}

/// What follows the prefix, where the text begins with it.
#[inline(always)]
fn after_all<'a>(prefix: &[u8], text: &'a [u8]) -> Option<&'a [u8]>
    ensures { IfSome result (λ rest. text.now ≡ prefix.now ++ rest.now) }
{
    let length = prefix.len();
    if text.len() < length {
        return None;
    }
    if is_same(&text[..length], prefix) {
        Some(&text[length..])
    } else {
        None
    }
}

/// What follows a byte, where the text begins with it.
#[inline(always)]
pub(crate) fn after_byte(byte: u8, text: &[u8]) -> Option<&[u8]>
    ensures { IfSome result (λ rest. text.now ≡ byte ∷ rest.now) }
{
    following(byte, text)
}

/// What follows a space or a tab, where the text begins with one.
#[inline(always)]
fn after_blank(text: &[u8]) -> Option<&[u8]>
    ensures { IfSome result (λ rest. IsAfterBlank text.now rest.now) }
{
    match after_byte(b' ', text) {
        Some(rest) => Some(rest),
        None => after_byte(b'\t', text),
    }
}

/// What follows the spaces and tabs that the text begins with, if any.
fn after_all_blanks(text: &[u8]) -> &[u8]
    ensures { IsAfterBlanks text.now result.now }
{
    let mut rest = text;
    while let Some(more) = after_blank(rest) {
        rest = more;
    }
    rest
}

/// The same, where most texts begin with no blank but with a byte above them all.
#[inline(always)]
#[tactic(auto, using(crate::proofs::Fronted::no_blanks))]
fn after_blanks(text: &[u8]) -> &[u8]
    ensures { IsAfterBlanks text.now result.now }
{
    match text {
        [first, ..] if b' ' < *first => text,
        _ => after_all_blanks(text),
    }
}

/// The same, where most texts begin with a line feed.
#[inline(always)]
#[tactic(auto, using(crate::proofs::Fronted::no_blanks))]
fn after_end_blanks(text: &[u8]) -> &[u8]
    ensures { IsAfterBlanks text.now result.now }
{
    match text {
        [b'\n', ..] => text,
        _ => after_all_blanks(text),
    }
}

/// The value of a decimal digit, and what follows it.
#[inline(always)]
#[tactic(auto, using(crate::proofs::Fronted::digit_head))]
fn digit_front(text: &[u8]) -> Option<(u32, &[u8])>
    ensures few { IfSome result (λ found. found.0 ≤ 9) }
    ensures parts { IfSome result (λ found. text.now ≡ (48 + found.0) ∷ found.1.now) }
{
    match text {
        [first, rest @ ..] if b'0' <= *first && *first <= b'9' => {
            Some((u32::from(*first - b'0'), rest))
        }
        _ => None,
    }
}

/// A decimal number of at most nine digits, without leading zeros.
#[inline(always)]
fn decimal_front(text: &[u8]) -> Option<(u32, &[u8])>
    ensures few { IfSome result (λ found. found.0 < 10 ^ 9) }
    ensures parts { IfSome result (λ found. text.now ≡ decimal found.0 ++ found.1.now) }
{
    let (first, rest) = digit_front(text)?;
    let mut number = first;
    let mut rest = rest;
    while let Some((digit, more)) = digit_front(rest) {
        if number == 0 || 100_000_000 <= number {
            return None;
        }
        number = number * 10 + digit;
        rest = more;
    }
    Some((number, rest))
}

/// The value of a sign and a magnitude of at most nine digits, where it is in the range of its kind.
#[inline(always)]
fn small_value(kind: ArgumentKind, negative: bool, magnitude: u32) -> Option<Value>
    requires { magnitude < 10 ^ 9 }
    ensures { IfSome result (λ value. ranged kind negative magnitude ≡ Some value) }
{
    let number = if negative {
        -(magnitude as i32)
    } else {
        magnitude as i32
    };
    match kind {
        ArgumentKind::Mode => None,
        ArgumentKind::Pattern if negative => None,
        ArgumentKind::Pattern => Some(Value::Pattern(magnitude)),
        ArgumentKind::Data => Some(Value::Data(i64::from(number))),
        _ => Some(Value::Number(number)),
    }
}

/// Whether values of the kind are printed as numbers.
#[inline(always)]
fn prints_number(kind: ArgumentKind) -> bool
    ensures { result ≡ prints_number kind }
{
    !matches!(kind, ArgumentKind::Object(_))
}

/// The value of a number. An object is not printed so, nor is `-0`.
#[inline(always)]
fn number_front<'a>(
    kind: ArgumentKind,
    text: &'a [u8],
    is_own: &mut bool,
) -> Option<(Value, &'a [u8])>
    ensures front { IfSome result (λ found. IsFront (IsNumber kind) text.now found.0 found.1.now) }
    ensures kept { is_own.new ≡ true → is_own.old ≡ true }
    ensures printed { (names : NameLists) → is_own.new ≡ true → IfSome result (λ found. text.now ≡ value_text names kind found.0 ++ found.1.now) }
{
    let is_number = prints_number(kind);
    *is_own = *is_own && is_number;
    if let Some(digits) = after_byte(b'-', text) {
        let (magnitude, rest) = decimal_front(digits)?;
        let negative = small_value(kind, true, magnitude)?;
        *is_own = *is_own && magnitude != 0;
        return Some((negative, rest));
    }
    let (number, rest) = decimal_front(text)?;
    let value = small_value(kind, false, number)?;
    Some((value, rest))
}

/// A constant of the kind, where the text begins with its word.
#[inline(always)]
fn word_front<'a>(
    kind: ArgumentKind,
    word: &[u8],
    value: Value,
    text: &'a [u8],
) -> Option<(Value, &'a [u8])>
    requires { constant_of kind word.now ≡ Some value }
    ensures front { IfSome result (λ found. IsFront (λ token value. constant_of kind token ≡ Some value) text.now found.0 found.1.now) }
    ensures printed { (names : NameLists) → value_text names kind value ≡ word.now → IfSome result (λ found. text.now ≡ value_text names kind found.0 ++ found.1.now) }
{
    let rest = after_all(word, text)?;
    Some((value, rest))
}

/// A constant of the kind. Those of tasks and modes are printed, numbers in place of the others.
#[tactic(auto, unfolding(crate::specs::Argument::constant_of, crate::specs::Printed::value_text, crate::specs::Printed::object_text))]
fn constant_front<'a>(
    kind: ArgumentKind,
    text: &'a [u8],
    is_own: &mut bool,
) -> Option<(Value, &'a [u8])>
    ensures kept { is_own.new ≡ true → is_own.old ≡ true }
    ensures printed { (names : NameLists) → is_own.new ≡ true → IfSome result (λ found. text.now ≡ value_text names kind found.0 ++ found.1.now) }
    ensures front { IfSome result (λ found. IsFront (λ token value. constant_of kind token ≡ Some value) text.now found.0 found.1.now) }
{
    let is_word = matches!(kind, ArgumentKind::Object(_) | ArgumentKind::Mode);
    *is_own = *is_own && is_word;
    match kind {
        ArgumentKind::Object(ObjectKind::Task) => {
            word_front(kind, b"TSK_SELF".as_slice(), Value::Number(0), text)
        }
        ArgumentKind::Priority => {
            if let Some(found) = word_front(kind, b"TPRI_SELF".as_slice(), Value::Number(0), text) {
                return Some(found);
            }
            word_front(kind, b"TPRI_INI".as_slice(), Value::Number(0), text)
        }
        ArgumentKind::Processor => {
            word_front(kind, b"TPRC_INI".as_slice(), Value::Number(0), text)
        }
        ArgumentKind::Timeout => {
            if let Some(found) = word_front(kind, b"TMO_POL".as_slice(), Value::Number(0), text) {
                return Some(found);
            }
            word_front(kind, b"TMO_FEVR".as_slice(), Value::Number(-1), text)
        }
        ArgumentKind::Mode => {
            if let Some(found) = word_front(
                kind,
                b"TWF_ANDW".as_slice(),
                Value::Mode(Mode::Andw),
                text,
            ) {
                return Some(found);
            }
            word_front(kind, b"TWF_ORW".as_slice(), Value::Mode(Mode::Orw), text)
        }
        _ => None,
    }
}

/// The name of the object with this number, where the text begins with it.
#[inline(always)]
fn object_front<'a>(
    names: &Names,
    kind: ObjectKind,
    number: u8,
    text: &'a [u8],
) -> Option<(Value, &'a [u8])>
    ensures { IfSome result (λ found. IsFront (IsObjectName names.now (kinds.Object kind)) text.now found.0 found.1.now) }
{
    let name = names.name(NameKind::Object(kind), usize::from(number))?;
    let rest = after_all(name, text)?;
    Some((Value::Number(i32::from(number)), rest))
}

/// The name of an object of the kind.
#[inline(always)]
fn name_front<'a>(names: &Names, kind: ObjectKind, text: &'a [u8]) -> Option<(Value, &'a [u8])>
    ensures { IfSome result (λ found. IsFront (IsObjectName names.now (kinds.Object kind)) text.now found.0 found.1.now) }
{
    let (likelier, other) = names.likely_objects(kind, word_key(text));
    if let Some(found) = object_front(names, kind, likelier, text) {
        return Some(found);
    }
    object_front(names, kind, other, text)
}

/// The name of an object, where the kind is one of objects.
#[inline(always)]
fn named_front<'a>(names: &Names, kind: ArgumentKind, text: &'a [u8]) -> Option<(Value, &'a [u8])>
    ensures { IfSome result (λ found. IsFront (IsObjectName names.now kind) text.now found.0 found.1.now) }
{
    match kind {
        ArgumentKind::Object(object) => name_front(names, object, text),
        _ => None,
    }
}

/// The value of an argument of the kind is written into one that is there. Gives what follows it, which is a comma, the closing
/// parenthesis or nothing that was read.
#[inline(always)]
fn value_front<'a>(
    names: &Names,
    kind: ArgumentKind,
    text: &'a [u8],
    value: &mut Value,
    is_own: &mut bool,
) -> Option<&'a [u8]>
    ensures front { IfSome result (λ rest. IsFront (SpellsValue names.now kind) text.now value.new rest.now) }
    ensures kept { is_own.new ≡ true → is_own.old ≡ true }
    ensures printed { is_own.new ≡ true → IfSome result (λ rest. text.now ≡ value_text names.now kind value.new ++ rest.now) }
{
    let [first, ..] = text else {
        return None;
    };
    if *first <= b'9' {
        let (number, rest) = number_front(kind, text, is_own)?;
        *value = number;
        return Some(rest);
    }
    if let Some((number, rest)) = named_front(names, kind, text) {
        *value = number;
        return Some(rest);
    }
    let (constant, rest) = constant_front(kind, text, is_own)?;
    *value = constant;
    Some(rest)
}

/// What follows a comma, with a space after it, as it is printed, or not.
#[inline(always)]
fn after_comma<'a>(text: &'a [u8], is_own: &mut bool) -> Option<&'a [u8]>
    ensures kept { is_own.new ≡ true → is_own.old ≡ true }
    ensures printed { is_own.new ≡ true → IfSome result (λ rest. text.now ≡ codes ", " ++ rest.now) }
    ensures front { IfSome result (λ rest. IsAfterComma text.now rest.now) }
{
    let rest = after_byte(b',', text)?;
    match after_byte(b' ', rest) {
        Some(more) => Some(more),
        None => {
            *is_own = false;
            Some(rest)
        }
    }
}

/// Sets the values of arguments of these kinds, up to the closing parenthesis. Gives what follows that.
#[inline(always)]
fn arguments_front<'a>(
    names: &Names,
    kinds: &[ArgumentKind],
    text: &'a [u8],
    values: &mut [Value; MOST_ARGUMENTS],
    is_own: &mut bool,
) -> Option<&'a [u8]>
    requires { length kinds.now ≤ MOST_ARGUMENTS }
    ensures closed { IfSome result (λ rest. IsClosed names.now kinds.now (take (length kinds.now) values.new) text.now rest.now) }
    ensures kept { is_own.new ≡ true → is_own.old ≡ true }
    ensures printed { is_own.new ≡ true
        → IfSome result (λ rest. text.now ≡ arguments_from names.now 0 kinds.now (take (length kinds.now) values.new) ++ close_parenthesis ∷ rest.now) }
{
    let count = kinds.len();
    let mut rest = text;
    for index in 0..count {
        let more = value_front(names, kinds[index], rest, &mut values[index], is_own)?;
        if index + 1 == count {
            return after_byte(b')', more);
        }
        rest = after_comma(more, is_own)?;
    }
    after_byte(b')', rest)
}

/// The call of this name with the arguments in the text after the opening parenthesis, and what follows the closing one.
#[inline(always)]
fn call_closed<'a>(
    names: &Names,
    known: &KnownCall,
    text: &'a [u8],
    is_own: &mut bool,
) -> Option<(Call, &'a [u8])>
    requires { IsKnown known.now }
    ensures made { IfSome result (λ found. IsMade names.now known.now.call text.now found.0 found.1.now) }
    ensures kept { is_own.new ≡ true → is_own.old ≡ true }
    ensures printed { is_own.new ≡ true
        → IfSome result (λ found. text.now ≡ arguments_from names.now 0 (kinds_of found.0) (values_of found.0) ++ close_parenthesis ∷ found.1.now) }
{
    let mut values = [Value::Number(0); MOST_ARGUMENTS];
    let end = arguments_front(names, known.form.kinds, text, &mut values, is_own)?;
    Some((with_known_values(known.call, &values), end))
}

/// The call that the text begins with, and what follows it. `None` says nothing.
#[inline(always)]
pub fn quick_call<'a>(names: &Names, text: &'a [u8]) -> Option<(Call, &'a [u8])>
    ensures { IfSome result (λ found. IsFront (SpellsCall names.now) text.now found.0 found.1.now) }
{
    let mut is_own = true;
    call_front(names, text, &mut is_own)
}

/// The same, and whether it is written as it is printed.
#[inline(always)]
fn call_front<'a>(names: &Names, text: &'a [u8], is_own: &mut bool) -> Option<(Call, &'a [u8])>
    ensures front { IfSome result (λ found. IsFront (SpellsCall names.now) text.now found.0 found.1.now) }
    ensures kept { is_own.new ≡ true → is_own.old ≡ true }
    ensures printed { is_own.new ≡ true → IfSome result (λ found. text.now ≡ call_text names.now found.0 ++ found.1.now) }
{
    let known = likely_call(word_key(text))?;
    let rest = after_all(known.form.text, text)?;
    if known.form.bare {
        return Some((known.call, rest));
    }
    let inner = after_byte(b'(', rest)?;
    let (made, end) = call_closed(names, known, inner, is_own)?;
    Some((made, end))
}

/// The processor with this number.
#[inline(always)]
fn processor_at(names: &Names, number: u32) -> Option<Proc>
    requires { number ≤ 9 }
    ensures { IfSome result (λ processor. IsNumberOf names.now number processor) }
{
    if 1 <= number && number <= u32::from(names.processors()) {
        Some(Proc::new(number as u8))
    } else {
        None
    }
}

/// What happens on the processor, where the text begins with that. Gives what follows it.
#[inline(always)]
fn happening_front<'a>(
    names: &Names,
    processor: Proc,
    text: &'a [u8],
    event: &mut Event,
    is_own: &mut bool,
) -> Option<&'a [u8]>
    ensures front { IfSome result (λ rest. IsFront (Happens names.now processor) text.now event.new rest.now) }
    ensures printed { is_own.old ≡ true → is_own.new ≡ true → IfSome result (λ rest. text.now ≡ event_text names.now event.new ++ rest.now) }
{
    if let Some(rest) = after_all(b"tick".as_slice(), text) {
        *event = Event::Tick(processor);
        return Some(rest);
    }
    if let Some((call, rest)) = call_front(names, text, is_own) {
        *event = Event::Call(processor, call);
        return Some(rest);
    }
    let rest = after_all(b"ipi".as_slice(), text)?;
    *event = Event::Ipi(processor);
    Some(rest)
}

/// The event that the text begins with, with the blanks around it, is written into one that is there, and its text is kept where it is
/// printed so. Gives what follows. `None` says nothing of the text, and then nothing is said of the event and what is kept.
#[inline(always)]
pub fn quick_event<'a>(
    names: &Names,
    text: &'a [u8],
    event: &mut Event,
    echo: &mut Echo,
) -> Option<&'a [u8]>
    ensures front { IfSome result (λ rest. IsFront (SpellsEvent names.now) text.now event.new rest.now) }
    ensures echo { IfSome result (λ rest. IsEcho echo.new (event_text names.now event.new)) }
{
    let start = after_blanks(text);
    let first = after_byte(b'P', start)?;
    let (number, second) = digit_front(first)?;
    let third = after_blank(second)?;
    let following = after_blanks(third);
    let processor = processor_at(names, number)?;
    let mut is_own = true;
    let end = happening_front(names, processor, following, event, &mut is_own)?;
    let bytes = following.len() - end.len();
    echo.keep(is_own, following, bytes);
    Some(after_end_blanks(end))
}
