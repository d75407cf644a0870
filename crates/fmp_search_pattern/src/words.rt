//! The words that patterns may have.
ghost use Rattle.std.specs.Prelude.{◌≡◌, ◌<◌, ◌==◌, length, position, IfSome};
ghost use Rattle.std.specs.List.{list_all, list_any};
ghost use Rattle.std.specs.Option.{option_copied};
ghost use Rattle.std.specs.Str.{bytes_eq};
ghost use Rattle.fmp_search_pattern.specs.Words as spec;

use crate::is_code;
use fmp_bytes::{Class, all_of};
use fmp_calls::find_call;
use fmp_names::Names;

/// The words of a trace and of a state, besides names, processors, calls and codes.
pub const TRACE_WORDS: [&[u8]; 42] = [
    b"tick",
    b"ipi",
    b"wait",
    b"spin",
    b"gone",
    b"idle",
    b"held",
    b"taken",
    b"none",
    b"rel",
    b"lost",
    b"run",
    b"dormant",
    b"running",
    b"ready",
    b"due",
    b"locked",
    b"disabled",
    b"latch",
    b"suspended",
    b"waits",
    b"slp",
    b"dly",
    b"sem",
    b"flg",
    b"sdtq",
    b"rdtq",
    b"mpf",
    b"left",
    b"stopped",
    b"pri",
    b"act",
    b"wup",
    b"count",
    b"pattern",
    b"values",
    b"empty",
    b"free",
    b"end",
    b"TSK_SELF",
    b"TWF_ANDW",
    b"TWF_ORW",
];

/// Whether a word is of printed bytes, and has one at least.
pub fn is_printed(word: &[u8]) -> bool
    ensures { result ≡ spec.is_printed word.now }
{
    !word.is_empty() && all_of(Class::Printed, word)
}

/// Whether a run is `P` and the number of a processor of the configuration, in one digit from 1.
pub(crate) fn is_processor(names: &Names, run: &[u8]) -> bool
    ensures { result ≡ spec.is_processor names.now.processors run.now }
{
    match run {
        [p, digit] => *p == b'P' && b'1' <= *digit && *digit <= b'0' + names.processors(),
        _ => false,
    }
}

/// Whether a run is one of these words, byte for byte.
pub(crate) fn has_word(words: &[&[u8]], run: &[u8]) -> bool
    ensures { result ≡ list_any (λ w. bytes_eq w.now run.now) words.now }
{
    words.iter().any(|word| *word == run)
}

/// Whether a run is one of `TRACE_WORDS`.
fn is_trace_word(run: &[u8]) -> bool
    ensures { result ≡ list_any (λ w. bytes_eq w.now run.now) TRACE_WORDS }
{
    has_word(&TRACE_WORDS, run)
}

/// Whether a word is a name of the configuration, a processor, a call, a code, or a word of a trace or of a state.
#[tactic(auto, unfolding(crate::specs::Words::is_known))]
fn is_known(names: &Names, run: &[u8]) -> bool
    ensures { result ≡ spec.is_known names.now run.now }
{
    names.contains_object(run)
        || is_processor(names, run)
        || find_call(run).is_some()
        || is_code(run)
        || is_trace_word(run)
}

/// Whether the first byte of a run is a decimal digit. That holds of an empty run too.
pub fn begins_with_digit(run: &[u8]) -> bool
    ensures { result ≡ spec.begins_with_digit run.now }
{
    match run {
        [] => true,
        [first, ..] => first.is_ascii_digit(),
    }
}

/// Whether some byte of a run is a star.
pub fn has_star(run: &[u8]) -> bool
    ensures { result ≡ list_any (λ b. b == spec.star) run.now }
{
    run.iter().any(|b| *b == b'*')
}

/// Whether letters, digits, `_` and stars in a row touch a star, are a number, or are known.
#[tactic(auto, unfolding(crate::specs::Words::is_fine))]
fn is_fine(names: &Names, run: &[u8]) -> bool
    ensures { result ≡ spec.is_fine names.now run.now }
{
    has_star(run) || begins_with_digit(run) || is_known(names, run)
}

/// Whether a byte is no letter, no digit, no `_` and no star, so that it ends a run.
fn is_outside(byte: u8) -> bool
    ensures { result ≡ spec.is_outside byte }
{
    !(Class::Word.has(byte) || byte == b'*')
}

/// The place of the first byte that ends a run, from 0. None where the whole word is one run.
fn end_of_run(word: &[u8]) -> Option<usize>
    ensures place { result ≡ position spec.is_outside word.now }
    ensures within { IfSome result (λ i. i < length word.now) }
{
    word.iter().position(|byte| is_outside(*byte))
}

/// The first run of a word, and what follows the byte that ends it, which is in neither. None follows where the whole word is one run.
#[tactic(auto, unfolding(crate::specs::Words::cut_run))]
pub fn cut_run(word: &[u8]) -> (&[u8], Option<&[u8]>)
    ensures prefix { result.0.now ≡ (spec.cut_run word.now).0 }
    ensures rest { option_copied result.1 ≡ (spec.cut_run word.now).1 }
{
    match end_of_run(word) {
        Some(end) => (&word[..end], Some(&word[end + 1..])),
        None => (word, None),
    }
}

/// Whether each run of letters, digits, `_` and stars in a word is fine.
pub fn are_fine(names: &Names, word: &[u8]) -> bool
    ensures { result ≡ list_all (spec.is_fine names.now) (spec.runs_of word.now) }
{
    let mut rest = Some(word);
    while let Some(text) = rest {
        let (run, after) = cut_run(text);
        rest = after;
        if !is_fine(names, run) {
            return false;
        }
    }
    true
}
