//! Which rows of words speak of a state.
ghost use Rattle.std.specs.Prelude.{◌≡◌, ◌==◌, List, map};
ghost use Rattle.std.specs.List.{list_all, list_any};
ghost use Rattle.fmp_bytes.specs.Bytes.{cut_at, equals_sign};
ghost use Rattle.fmp_fact_words.specs.Asking.{is_star as is_star_alone};
ghost use Rattle.fmp_fact_words.specs.Speaking as spec;

use crate::asking::{is_star, thing_in};
use crate::reading::{is_key, is_word, processor_in};
use fmp_bytes::cut;
use fmp_names::Names;

/// Whether some byte of a word is a star.
fn has_star(word: &[u8]) -> bool
    ensures { result ≡ spec.has_star word.now }
{
    word.iter().any(|b| *b == b'*')
}

/// Whether a byte is a small letter, a digit, `-`, `=` or a star.
fn is_small(byte: u8) -> bool
    ensures { result ≡ spec.is_small byte }
{
    (b'a' <= byte && byte <= b'z')
        || (b'0' <= byte && byte <= b'9')
        || byte == b'-'
        || byte == b'='
        || byte == b'*'
}

/// Whether a word has no other bytes.
fn are_small(word: &[u8]) -> bool
    ensures { result ≡ list_all spec.is_small word.now }
{
    word.iter().all(|b| is_small(*b))
}

/// Whether a word has a star, and may be one of a state.
fn may_be_of_state(word: &[u8]) -> bool
    ensures { result ≡ spec.may_be_of_state word.now }
{
    has_star(word) && are_small(word)
}

/// Whether what stands before a `=`, with what stands after it, is of a state.
fn is_valued(key: &[u8], value: &[u8]) -> bool
    ensures { result ≡ spec.is_valued key.now value.now }
{
    if key == b"run".as_slice() {
        value == b"-".as_slice()
    } else {
        is_key(key) || may_be_of_state(key)
    }
}

/// Whether a word stands in no record, but in a state; or has a star, and may.
#[tactic(auto, unfolding(crate::specs::Speaking::is_of_state))]
pub fn is_of_state(word: &[u8]) -> bool
    ensures { result ≡ spec.is_of_state word.now }
{
    if is_star(word) {
        return false;
    }
    match cut(b'=', word) {
        (key, Some(value)) => is_valued(key, value),
        (_, None) => is_word(word) || word == b"end".as_slice() || may_be_of_state(word),
    }
}

/// Whether a word is `run=` and something after it.
#[tactic(auto, unfolding(crate::specs::Speaking::is_run))]
fn is_run(word: &[u8]) -> bool
    ensures { result ≡ spec.is_run word.now }
{
    match cut(b'=', word) {
        (key, Some(_)) => key == b"run".as_slice(),
        (_, None) => false,
    }
}

/// Whether what stands after the `=` of a word has a star, and is none alone.
#[tactic(auto, unfolding(crate::specs::Speaking::is_open))]
fn is_open(word: &[u8]) -> bool
    ensures { result ≡ spec.is_open word.now }
{
    match cut(b'=', word) {
        (_, Some(value)) => has_star(value) && !is_star(value),
        (_, None) => false,
    }
}

/// Whether one of some words is of a state.
fn some_are_of_state(words: &[&[u8]]) -> bool
    ensures { result ≡ list_any spec.is_of_state (map (λ w. w.now) words.now) }
{
    match words {
        [] => false,
        [word, others @ ..] => is_of_state(word) || some_are_of_state(others),
    }
}

/// Whether some word of a row is of a state, a name at its front aside.
fn are_of_state(names: &Names, words: &[&[u8]]) -> bool
    ensures { result ≡ spec.are_of_state names.now (map (λ w. w.now) words.now) }
{
    match words {
        [] => false,
        [first, others @ ..] => {
            (thing_in(names, first).is_none() && is_of_state(first)) || some_are_of_state(others)
        }
    }
}

/// Whether a row says who runs, of one processor or of any.
fn is_run_row(names: &Names, words: &[&[u8]]) -> bool
    ensures { result ≡ spec.is_run_row names.now (map (λ w. w.now) words.now) }
{
    match words {
        [word] => is_run(word),
        [first, word] => processor_in(names.processors(), first).is_some() && is_run(word),
        _ => false,
    }
}

/// Whether the last word of such a row has a star after its `=`, and more.
fn is_open_row(words: &[&[u8]]) -> bool
    ensures { result ≡ spec.is_open_row (map (λ w. w.now) words.now) }
{
    match words {
        [word] | [_, word] => is_open(word),
        _ => false,
    }
}

/// Whether a row of words may ask for facts. Otherwise it is a pattern of the record.
#[tactic(auto, unfolding(crate::specs::Speaking::may_ask))]
pub fn may_ask(names: &Names, words: &[&[u8]]) -> bool
    ensures { result ≡ spec.may_ask names.now (map (λ w. w.now) words.now) }
{
    are_of_state(names, words) || is_run_row(names, words)
}

/// Whether a row of words has to ask for facts, since it can be in no record. Where it asks for none, nothing would ever be found.
#[tactic(auto, unfolding(crate::specs::Speaking::must_ask))]
pub fn must_ask(names: &Names, words: &[&[u8]]) -> bool
    ensures { result ≡ spec.must_ask names.now (map (λ w. w.now) words.now) }
{
    are_of_state(names, words) || (is_run_row(names, words) && is_open_row(words))
}
