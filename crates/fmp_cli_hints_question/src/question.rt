//! What stands beside a fault of a question.

use crate::known::put_run_hints;
use crate::lines::put_line_hint;
use crate::rows::{EVENT_WORDS, LINE_ROWS};
use fmp_bytes::cut;
use fmp_cli_hints::{LABEL, put_excerpt, report_of};
use fmp_codes::{NameKind, ObjectKind};
use fmp_fact_words::is_of_state;
use fmp_out::Text;
use fmp_search_pattern::is_code;
use fmp_search_question::QuestionFault;
use fmp_text::Names;
use std::alloc::{AllocError, Global};

/// What is wanted where a question has such a fault.
fn wanted_at(fault: QuestionFault) -> &'static [u8] {
    match fault {
        QuestionFault::BadWord => b"a word of printed bytes, with one blank between two words\n",
        QuestionFault::BadForm => {
            b"a pattern, before and after each `then`, `without`, `or` and `&`, and after `not`; a number from 1 to 255 at the front of a step before `times`\n"
        }
        QuestionFault::UnknownName => {
            b"a name of the configuration, a processor, a call, a code, a word of a trace or of a fact, or a `*` in the word\n"
        }
        QuestionFault::TooLong => b"at most 255 steps, and at most 1024 bytes in a pattern\n",
        QuestionFault::NoLine => {
            b"a word that comes after those before it in some line of a trace, or a fact of what they are about\n"
        }
    }
}

/// The number of a fault of a question, from `E1` to `E9`.
pub fn question_code(fault: QuestionFault) -> &'static str {
    match fault {
        QuestionFault::BadWord => "E1",
        QuestionFault::BadForm => "E2",
        QuestionFault::UnknownName => "E3",
        QuestionFault::TooLong => "E7",
        QuestionFault::NoLine => "E9",
    }
}

/// The fault in words, as it is printed after its number.
pub fn question_words(fault: QuestionFault) -> &'static str {
    match fault {
        QuestionFault::BadWord => "bad byte",
        QuestionFault::BadForm => "bad word",
        QuestionFault::UnknownName => "unknown name",
        QuestionFault::TooLong => "too many",
        QuestionFault::NoLine => "no such line",
    }
}

/// The bytes of regular expressions that mean something there.
pub const SIGNS: [u8; 11] = *b".[]^$+?\\|{}";

/// Whether a byte means something in a regular expression.
fn is_sign(byte: u8) -> bool {
    for sign in &SIGNS {
        if *sign == byte {
            return true;
        }
    }
    false
}

/// Whether a word has a byte that means something in a regular expression.
fn has_sign(word: &[u8]) -> bool {
    for byte in word {
        if is_sign(*byte) {
            return true;
        }
    }
    false
}

/// What is told of a word with a byte that means something in a regular expression.
const SIGN: &[u8] = b"  A pattern is no regular expression: `*` alone stands for any bytes.\n";

/// Adds what is told of the word at fault.
fn put_word_hint(
    alloc: Global,
    out: &mut Text,
    names: &Names,
    word: &[u8],
) -> Result<(), AllocError> {
    if has_sign(word) {
        out.put(SIGN);
        return Ok(());
    }
    put_run_hints(alloc, out, names, word)
}

/// Adds what is told of a word that stands there in no line.
fn put_order_hint(out: &mut Text, word: &[u8]) {
    if has_sign(word) {
        out.put(SIGN);
    } else {
        put_line_hint(out, word);
    }
}

/// What is told of a fact beside a word of an event.
fn apart_words() -> &'static [u8] {
    b"  A fact and a word of an event are two patterns: `&` comes between them, as in `S1 count=0 & sig_sem(S1) E_OK`.\n"
}

/// The last word of a text that ends with a blank.
fn last_word(text: &[u8]) -> &[u8] {
    let words = text.trim_ascii_end();
    match words.iter().rposition(|byte| *byte == b' ') {
        Some(at) => &words[at + 1..],
        None => words,
    }
}

/// Whether a word stands in a line of an event alone.
fn is_of_event(word: &[u8]) -> bool {
    word.ends_with(b")")
        || is_code(word)
        || word.starts_with(b"E_OK:")
        || EVENT_WORDS.iter().any(|other| *other == word)
}

/// Whether a fact and a word of an event stand one after the other.
fn are_apart(last: &[u8], word: &[u8]) -> bool {
    let is_fact = is_of_state(word) && !word.starts_with(b"run=");
    (is_of_state(last) && is_of_event(word)) || (is_of_event(last) && is_fact)
}

/// What is told of a word that stands behind a word of a fact, or behind one of an event.
fn behind_hint(names: &Names, last: &[u8], word: &[u8]) -> &'static [u8] {
    if last == b"end".as_slice() {
        report_of(&LINE_ROWS, last)
    } else if are_apart(last, word) {
        apart_words()
    } else if is_of_state(last) && names.contains_object(word) {
        b"  What a fact is so of comes first, as in `S1 count=1`.\n"
    } else {
        b""
    }
}

/// What is told of `refused` beside a word.
const REFUSED: &[u8] =
    b"  `refused` is a pattern by itself: `&` comes between it and another, as in `refused & act_tsk(*)`.\n";

/// Whether the last word of a text that ends with a blank is `refused`.
fn has_refused(text: &[u8]) -> bool {
    text == b"refused ".as_slice() || text.ends_with(b" refused ")
}

/// Adds what is told of a word that no line has after the words before it.
fn put_line_or_refused(out: &mut Text, names: &Names, before: &[u8], word: &[u8]) {
    if has_refused(before) {
        return out.put(REFUSED);
    }
    match behind_hint(names, last_word(before), word) {
        [] => put_order_hint(out, word),
        hint => out.put(hint),
    }
}

/// What is told of a question that begins with `deadlock`.
const DEADLOCK: &[u8] =
    b"  After `deadlock` stands nothing, or `but` and names of tasks with commas and no blanks between, of some and not of all: `deadlock but T1,T2`.\n";

/// What is told in a question that begins so.
fn deadlock_hint(before: &[u8]) -> &'static [u8] {
    if before.starts_with(b"deadlock ") {
        DEADLOCK
    } else {
        b""
    }
}

/// The last word of a text that is not of stars alone.
fn last_named(text: &[u8]) -> &[u8] {
    match text.iter().rposition(|byte| *byte != b' ' && *byte != b'*') {
        Some(at) => last_word(&text[..at + 1]),
        None => text,
    }
}

/// Whether an object has this name that is no task and no handler.
fn is_no_runner(names: &Names, name: &[u8]) -> bool {
    let runners = [ObjectKind::Task, ObjectKind::Cyclic, ObjectKind::Alarm];
    let runs = runners.iter().any(|kind| names.number(NameKind::Object(*kind), name).is_some());
    names.contains_object(name) && !runs
}

/// What is told of a word that has no place there, or of what ends before it.
fn form_hint(names: &Names, before: &[u8], word: &[u8]) -> &'static [u8] {
    if word == b"refused".as_slice() {
        REFUSED
    } else if is_no_runner(names, last_named(before)) {
        b"  A pattern does not end with an object that is no task and no handler: say what is so of it, as in `S1 count=1`.\n"
    } else {
        b""
    }
}

/// Adds what is told of a question with this fault, whose text goes on so after the words before the one at fault.
fn put_hint(
    alloc: Global,
    out: &mut Text,
    names: &Names,
    fault: QuestionFault,
    before: &[u8],
    text: &[u8],
) -> Result<(), AllocError> {
    let (word, _rest) = cut(b' ', text);
    match fault {
        QuestionFault::BadWord => put_word_hint(alloc, out, names, word)?,
        QuestionFault::UnknownName => {
            put_word_hint(alloc, out, names, word)?;
            out.put(deadlock_hint(before));
        }
        QuestionFault::NoLine => put_line_or_refused(out, names, before, word),
        QuestionFault::BadForm => {
            out.put(form_hint(names, before, word));
            out.put(deadlock_hint(before));
        }
        QuestionFault::TooLong => {}
    }
    Ok(())
}

/// What is told of a question without a byte.
fn empty_words(text: &[u8]) -> &'static [u8] {
    if text.is_empty() {
        b"  The question is empty.\n"
    } else {
        b""
    }
}

/// What stands beside a fault of a question, which begins at this byte of its text, counted from 0: the question, a caret under that byte,
/// what is wanted there, and what is told of the word that stands there. That the question has the fault is taken from the caller.
pub fn question_context(
    alloc: Global,
    names: &Names,
    text: &[u8],
    fault: QuestionFault,
    place: usize,
) -> Result<Vec<u8>, AllocError> {
    let column = place.min(text.len());
    let (before, rest) = text.split_at(column);
    let mut out = Text::new(alloc);
    put_excerpt(&mut out, text, column);
    out.put(LABEL);
    out.put(wanted_at(fault));
    out.put(empty_words(text));
    put_hint(alloc, &mut out, names, fault, before, rest)?;
    out.finish()
}
