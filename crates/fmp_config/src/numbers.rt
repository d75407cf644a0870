//! The numbers of a statement, and classes.
ghost use Rattle.std.specs.Prelude.{◌≡◌, ◌≤◌, ◌<◌, ◌^◌, length, true, Some, IfOk};
ghost use Rattle.fmp_config.specs.Numbers as spec;
ghost use Rattle.fmp_setup.specs.Valid.{is_class_of};

use crate::indexed::IndexedParts;
use fmp_codes::Proc;
use fmp_config_statements::{ConfigKind, Fault, Pieces, Range, StatementName, Word, numeral};
use fmp_setup::{Class, is_class_of};

/// The numbers of a statement, 0 where it has none.
#[derive(Clone, Copy)]
pub struct Numbers {
    pub first: u64,
    pub second: u64,
}

/// What a text stands for: a numeral, or a defined name.
#[tactic(auto, unfolding(crate::specs::Numbers::value_of))]
fn value_of(parts: &IndexedParts, text: &[u8]) -> Option<u64>
    ensures { result ≡ spec.value_of parts.now.names text.now }
{
    if let Some(number) = numeral(text) {
        return Some(number);
    }
    parts.defined(text).map(u64::from)
}

/// The number of a word, or its fault.
#[tactic(auto, unfolding(crate::specs::Numbers::value_at))]
pub fn value_at<'a>(parts: &IndexedParts, word: &Word<'a>) -> Result<u64, Fault<'a>>
    ensures { result ≡ spec.value_at parts.now.names word.now }
{
    value_of(parts, word.text()).ok_or(Fault::at(ConfigKind::OutOfRange, word))
}

/// The number of a word in a range, or its fault.
#[tactic(auto, unfolding(crate::specs::Numbers::number_within))]
pub fn number_within<'a>(
    parts: &IndexedParts,
    range: Range,
    word: &Word<'a>,
) -> Result<u64, Fault<'a>>
    ensures value { result ≡ spec.number_within parts.now.names range word.now }
    ensures least { IfOk result (λ n. range.least ≤ n) }
    ensures most { IfOk result (λ n. n ≤ range.most) }
{
    let number = value_at(parts, word)?;
    if range.least <= number && number <= range.most {
        Ok(number)
    } else {
        Err(Fault::at(ConfigKind::OutOfRange, word))
    }
}

/// The number of a word where the statement has such a number, else 0.
#[tactic(auto, unfolding(crate::specs::Numbers::number_at))]
fn number_at<'a>(
    parts: &IndexedParts,
    range: Option<Range>,
    word: &Word<'a>,
) -> Result<u64, Fault<'a>>
    ensures value { result ≡ spec.number_at parts.now.names range word.now }
    ensures range { IfOk result (λ n. spec.IsInRange range n) }
{
    match range {
        None => Ok(0),
        Some(range) => number_within(parts, range, word),
    }
}

/// Both numbers of a statement, from left to right, or the first fault.
#[tactic(auto, unfolding(crate::specs::Numbers::numbers_of))]
pub fn numbers_of<'a>(
    parts: &IndexedParts,
    name: StatementName,
    pieces: &Pieces<'a>,
) -> Result<Numbers, Fault<'a>>
    ensures value { result ≡ spec.numbers_of parts.now name pieces.now }
    ensures ranges { IfOk result (λ n. spec.AreInRanges parts.now name n) }
{
    let first_range = name.first_range(
        parts.plain().names.processors(),
        parts.plain().limits.priorities,
    );
    let first = number_at(parts, first_range, pieces.first())?;
    let second = number_at(parts, name.second_range(), pieces.second())?;
    Ok(Numbers { first, second })
}

/// The processor of a number, from 1 to how many there are.
#[tactic(auto, unfolding(crate::specs::Numbers::numbered_processor))]
fn numbered_processor(processors: u8, number: u64) -> Option<Proc>
    requires { processors ≤ 8 }
    ensures { result ≡ spec.numbered_processor processors number }
{
    if 1 <= number && number <= u64::from(processors) {
        Some(Proc::new(number as u8))
    } else {
        None
    }
}

/// The processor of a word, or its fault, which has the line of the statement.
#[tactic(auto, unfolding(crate::specs::Numbers::processor_at))]
fn processor_at<'a>(parts: &IndexedParts, line: u32, word: &Word<'a>) -> Result<Proc, Fault<'a>>
    ensures { result ≡ spec.processor_at parts.now line word.now }
{
    let number = value_at(parts, word)?;
    numbered_processor(parts.plain().names.processors(), number).ok_or(Fault::within(
        ConfigKind::BadClass,
        line,
        word,
    ))
}

/// A word of a list that has to be a number.
#[tactic(auto, unfolding(crate::specs::Numbers::number_step))]
fn number_step<'a>(parts: &IndexedParts, word: &Word<'a>) -> Result<(), Fault<'a>>
    ensures { result ≡ spec.number_step parts.now tt word.now }
{
    value_at(parts, word)?;
    Ok(())
}

/// The first fault of words that have to be numbers.
#[tactic(auto, unfolding(crate::specs::Numbers::all_numbers))]
fn all_numbers<'a>(parts: &IndexedParts, words: &[Word<'a>]) -> Result<(), Fault<'a>>
    ensures { result ≡ spec.all_numbers parts.now words.now }
{
    for word in words {
        number_step(parts, word)?;
    }
    Ok(())
}

/// A list of processors with that of one word more.
#[tactic(auto, unfolding(crate::specs::Numbers::member_step))]
fn member_step<'a>(
    parts: &IndexedParts,
    line: u32,
    members: [bool; 8],
    word: &Word<'a>,
) -> Result<[bool; 8], Fault<'a>>
    ensures { result ≡ spec.member_step parts.now line members word.now }
{
    let p = processor_at(parts, line, word)?;
    let mut members = members;
    members[p.index()] = true;
    Ok(members)
}

/// The processors of a list, or the first fault.
#[tactic(auto, unfolding(crate::specs::Numbers::members_in))]
fn members_in<'a>(
    parts: &IndexedParts,
    line: u32,
    words: &[Word<'a>],
) -> Result<[bool; 8], Fault<'a>>
    ensures { result ≡ spec.members_in parts.now line words.now }
{
    let mut members = [false; 8];
    for word in words {
        members = member_step(parts, line, members, word)?;
    }
    Ok(members)
}

/// The class, where it has its initial processor and none beyond how many there are, else `BadClass` in the line of the statement.
#[tactic(auto, unfolding(crate::specs::Numbers::sound_class))]
fn sound_class<'a>(
    processors: u8,
    line: u32,
    initial: &Word<'a>,
    class: Class,
) -> Result<Class, Fault<'a>>
    requires { processors ≤ 8 }
    ensures value { result ≡ spec.sound_class processors line initial.now class }
{
    if is_class_of(processors, &class) {
        Ok(class)
    } else {
        Err(Fault::within(ConfigKind::BadClass, line, initial))
    }
}

/// The class of a definition that begins in a line, or its first fault.
#[tactic(auto, unfolding(crate::specs::Numbers::class_of))]
pub fn class_of<'a>(
    parts: &IndexedParts,
    line: u32,
    pieces: &Pieces<'a>,
) -> Result<Class, Fault<'a>>
    ensures { result ≡ spec.class_of parts.now line pieces.now }
{
    value_at(parts, pieces.first())?;
    all_numbers(parts, pieces.series())?;
    let initial = processor_at(parts, line, pieces.first())?;
    let members = members_in(parts, line, pieces.series())?;
    let class = Class { initial, members };
    sound_class(
        parts.plain().names.processors(),
        line,
        pieces.first(),
        class,
    )
}
