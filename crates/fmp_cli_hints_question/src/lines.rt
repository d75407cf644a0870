//! What is told of a word of a question that can stand after those before it in no record, nor be a fact of what they are about.

use crate::rows::{KEY_ROWS, LINE_ROWS};
use fmp_bytes::{cut, following};
use fmp_calls::{find_call, form};
use fmp_cli_hints::report_of;
use fmp_codes::ArgumentKind;
use fmp_out::Text;
use fmp_search_pattern::has_star;

/// Adds what is told of the name of a call without its arguments.
fn put_call_words(out: &mut Text, word: &[u8]) {
    out.put(b"  A call has its arguments after it: write `");
    out.put(word);
    out.put(b"(*)`.\n");
}

/// What is told of a word with a comma before other bytes.
const COMMA: &[u8] = b"  A blank stands after each comma, as in `snd_dtq(D1, 1)`.\n";

/// What is told of any word.
const STAR: &[u8] = b"  `*` stands for the words between, as in `P1 * tick taken`.\n";

/// What is told of a word that begins with a bracket.
const BRACKET: &[u8] = b"  A question has no brackets: `&` binds closer than `or`.\n";

/// What is told of a word with a quotation mark.
const QUOTATION: &[u8] =
    b"  A question has no quotation marks of its own: those around it are for the shell, and in a text of questions there are none.\n";

/// What is told of a release without its code.
const RELEASE: &[u8] =
    b"  The code stands after the task: write `rel=T1:E_OK`, or `rel=T1:*` for any.\n";

/// Whether a word is a release without its code.
fn is_bare_release(word: &[u8]) -> bool {
    word.starts_with(b"rel=") && cut(b':', word).1.is_none()
}

/// What is told of a call that has a number for an object.
const NUMBER: &[u8] =
    b"  A line has the name of an object in place of its number, and `TSK_SELF` for the caller.\n";

/// Whether the first argument of a call is an object.
fn takes_object(kinds: &[ArgumentKind]) -> bool {
    match kinds {
        [ArgumentKind::Object(_), ..] => true,
        _ => false,
    }
}

/// Whether text after a `(` begins with a digit.
fn begins_with_digit(text: Option<&[u8]>) -> bool {
    match text {
        Some([first, ..]) => first.is_ascii_digit(),
        _ => false,
    }
}

/// Whether a word is a call that has a number for an object.
fn is_numbered(word: &[u8]) -> bool {
    let (name, arguments) = cut(b'(', word);
    match find_call(name) {
        Some(call) => takes_object(form(call).kinds) && begins_with_digit(arguments),
        None => false,
    }
}

/// What is told of a word that is no call and has no comma.
fn other_hint(word: &[u8]) -> &'static [u8] {
    if following(b'(', word).is_some() {
        BRACKET
    } else if word.iter().any(|byte| *byte == b'"' || *byte == b'\'') {
        QUOTATION
    } else if is_bare_release(word) {
        RELEASE
    } else if is_numbered(word) {
        NUMBER
    } else {
        STAR
    }
}

/// Whether a comma of a word stands before other bytes. After a `=` there may be such commas.
fn is_joined(word: &[u8]) -> bool {
    match cut(b',', word).1 {
        None | Some([]) => false,
        Some([_, ..]) => cut(b'=', word).1.is_none(),
    }
}

/// What is told of a fact with a star.
fn open_words() -> &'static [u8] {
    b"  In a word of a fact a star stands alone after the `=`, as in `held=*`: write each name or number, with `or` between.\n"
}

/// What is told of a list of facts.
fn list_words() -> &'static [u8] {
    b"  Each one is a fact: write `P1 ready=T1 ready=T2` for two tasks.\n"
}

/// What is told of a number with a zero in front.
fn zero_words() -> &'static [u8] {
    b"  A number has no zero in front.\n"
}

/// Whether a value is more than one digit, and the first is a zero.
fn is_zero_led(value: &[u8]) -> bool {
    match value {
        [b'0', _, ..] => true,
        _ => false,
    }
}

/// What is told of a fact with this value, where the row says of what it is so.
fn value_hint(row: &'static [u8], value: &[u8]) -> &'static [u8] {
    if row.is_empty() {
        row
    } else if cut(b',', value).1.is_some() {
        list_words()
    } else if has_star(value) && value != b"*".as_slice() {
        open_words()
    } else if is_zero_led(value) {
        zero_words()
    } else {
        row
    }
}

/// What is told of a word that may be a fact, by its form.
fn fact_hint(word: &[u8]) -> &'static [u8] {
    match cut(b'=', word) {
        (key, Some(_)) if has_star(key) => open_words(),
        (key, Some(value)) => value_hint(report_of(&KEY_ROWS, key), value),
        (_, None) if has_star(word) => open_words(),
        (_, None) => b"",
    }
}

/// Adds what the form of a word tells.
fn put_form_hint(out: &mut Text, word: &[u8]) {
    if find_call(word).is_some() {
        put_call_words(out, word);
    } else if is_joined(word) {
        out.put(COMMA);
    } else {
        match fact_hint(word) {
            [] => out.put(other_hint(word)),
            hint => out.put(hint),
        }
    }
}

/// Adds a row of the table, or without one what the form of the word tells.
fn put_row_or_form(out: &mut Text, word: &[u8], row: &[u8]) {
    match row {
        [] => put_form_hint(out, word),
        [_, ..] => out.put(row),
    }
}

/// Adds what is told of a word that no line has after the words before it.
pub(crate) fn put_line_hint(out: &mut Text, word: &[u8]) {
    put_row_or_form(out, word, report_of(&LINE_ROWS, word));
}
