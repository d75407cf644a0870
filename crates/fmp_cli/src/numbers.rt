//! The numbers and the question of the command line, by their texts.
ghost use Rattle.std.specs.Prelude.{◌≡◌, ◌≤◌, codes, None, IfSome, option_map};
ghost use Rattle.fmp_cli.specs.Explore.{EndsInUnit, IsBound, IsMemory, IsNumberWithin, IsPlaces, IsQuestion, IsSize, IsTickLimit, IsTicks, IsTurns};

use crate::rooms::Memory;

// The least and the most memory that may be given for places, in bytes.
const LEAST_SIZE: u64 = 1 << 20;

const MOST_SIZE: u64 = 1 << 40;

/// The number from low to high that a text writes, if it is one.
fn number_in(text: &str, low: u32, high: u32) -> Option<u32>
    ensures { IsNumberWithin low high text.now result }
{
    match text.parse::<u32>() {
        Ok(number) if low <= number && number <= high => Some(number),
        _ => None,
    }
}

/// How many ticks a processor takes at most: `any`, which sets no limit, or a number.
fn ticks_in(text: &str) -> Option<Option<u32>>
    ensures { IfSome result (IsTicks text.now) }
{
    if text == "any" {
        return Some(None);
    }
    Some(Some(number_in(text, 0, 1_000_000)?))
}

/// Likewise. Without a text there is no limit.
pub(crate) fn tick_limit_in(text: Option<&str>) -> Option<Option<u32>>
    ensures { IfSome result (IsTickLimit (option_map (λ t. t.now) text.entry)) }
{
    match text {
        None => Some(None),
        Some(text) => ticks_in(text),
    }
}

/// How many lines the orders have at most: 1,000,000 without a text.
pub(crate) fn turns_in(text: Option<&str>) -> Option<u32>
    ensures { IfSome result (IsTurns (option_map (λ t. t.now) text.entry)) }
{
    match text {
        None => Some(1_000_000),
        Some(text) => number_in(text, 1, 1_000_000),
    }
}

/// How many ticks more than another a processor may have taken, or how many seconds a search may take. Without a text there is no limit.
pub(crate) fn bound_in(text: Option<&str>) -> Option<Option<u32>>
    ensures { IfSome result (IsBound (option_map (λ t. t.now) text.entry)) }
{
    match text {
        None => Some(None),
        Some(text) => Some(Some(number_in(text, 1, 1_000_000)?)),
    }
}

/// For how many places there is room: 10,000,000 without a text.
pub(crate) fn places_in(text: Option<&str>) -> Option<u32>
    ensures { IfSome result (IsPlaces (option_map (λ t. t.now) text.entry)) }
{
    match text {
        None => Some(10_000_000),
        Some(text) => number_in(text, 1, 100_000_000),
    }
}

/// The text before the letter of a unit, and how many bytes a unit has.
fn unit_in(text: &str) -> Option<(&str, u64)>
    ensures { IfSome result (λ r. EndsInUnit text.now r.0.now r.1) }
{
    if let Some(digits) = text.strip_suffix('K') {
        return Some((digits, 1 << 10));
    }
    if let Some(digits) = text.strip_suffix('M') {
        return Some((digits, 1 << 20));
    }
    if let Some(digits) = text.strip_suffix('G') {
        return Some((digits, 1 << 30));
    }
    None
}

/// How many bytes a size is, from 1 MiB to 1,024 GiB: a number with `K`, `M` or `G` behind it.
fn size_in(text: &str) -> Option<u64>
    ensures { IfSome result (IsSize text.now) }
{
    let (digits, unit) = unit_in(text)?;
    let Ok(number) = digits.parse::<u64>() else {
        return None;
    };
    let size = number.checked_mul(unit)?;
    if LEAST_SIZE <= size && size <= MOST_SIZE {
        Some(size)
    } else {
        None
    }
}

/// Which memory the places may take. Without a text nothing is said of it.
pub(crate) fn memory_in(text: Option<&str>) -> Option<Memory>
    ensures { IfSome result (IsMemory (option_map (λ t. t.now) text.entry)) }
{
    match text {
        None => Some(Memory::Unknown),
        Some(text) => Some(Memory::Given(size_in(text)?)),
    }
}

/// What is looked for: `deadlock` without a text.
pub(crate) fn question_in(text: Option<&str>) -> &str
    ensures { IsQuestion (option_map (λ t. t.now) text.entry) result.now }
{
    text.unwrap_or("deadlock")
}
