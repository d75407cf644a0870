//! What stands beside a fault line of a configuration.
ghost use Rattle.std.specs.Prelude.{◌≤◌, length};
ghost use Rattle.fmp_config.specs.Limits.{most_bytes};

use crate::foreign::{foreign_spot, put_numbered, words_at};
use crate::hints::put_word_hint;
use crate::numbers::is_numeric;
use crate::place::Place;
use crate::projects::put_project_line;
use fmp_bytes::{Class, cut, is_identifier};
use fmp_cli_diagnostics::Spot;
use fmp_cli_help::{put_config_advice, put_statement};
use fmp_cli_hints::{
    LABEL, Likeness, config_likeness, line_after, put_config_likeness, put_excerpt, put_mark,
};
use fmp_config::{ConfigFault, ConfigKind};
use fmp_config_statements::StatementName;
use fmp_out::Text;
use std::alloc::{AllocError, Global};

/// How many bytes follow the last line feed.
fn column_after(bytes: &[u8]) -> usize
    ensures { result ≤ length bytes.now }
{
    let mut column = 0;
    for byte in bytes {
        if *byte == b'\n' {
            column = 0;
        } else {
            column += 1;
        }
    }
    column
}

/// Adds the line of a place, and a caret under it.
fn put_placed(out: &mut Text, text: &[u8], place: usize)
    requires { place ≤ length text.now }
{
    let column = column_after(&text[..place]);
    let (line, _after) = cut(b'\n', &text[place - column..]);
    put_excerpt(out, line, column.min(line.len()));
}

/// Adds the form of a statement, after its label, if there is one.
fn put_form(out: &mut Text, name: Option<StatementName>) {
    if let Some(name) = name {
        out.put(LABEL);
        put_statement(out, name);
    }
}

/// Adds the line of a fault, with a caret at its place, and the form of its statement.
fn put_fault(out: &mut Text, text: &[u8], fault: &ConfigFault, place: Option<&Place<'_>>) {
    match place {
        Some(place) => {
            put_placed(out, place.text(), place.caret());
            put_form(out, place.formed());
        }
        None => put_numbered(out, text, fault.line),
    }
}

/// Whether a text begins with a sign by which C computes.
fn begins_with_sign(text: &[u8]) -> bool {
    match text {
        [
            b'+' | b'-' | b'*' | b'/' | b'%' | b'<' | b'>' | b'|' | b'&' | b'^',
            ..
        ] => true,
        _ => false,
    }
}

/// What is told of such a sign after a number.
const COMPUTED: &[u8] =
    b"  Nothing is computed: in place of 5+1 write 6, or a name whose `#define` says 6.\n";

/// What is told of a sign after another word.
const NAMED: &[u8] = b"  A name has letters, digits and `_`, and no other sign.\n";

/// The last word of a text.
fn last_word(text: &[u8]) -> &[u8] {
    let words = text.trim_ascii_end();
    match words.iter().rposition(|byte| !Class::Word.has(*byte)) {
        Some(at) => &words[at + 1..],
        None => words,
    }
}

/// Whether a word of a name goes on with a sign that no name has.
fn is_name_cut(word: &[u8], text: &[u8]) -> bool {
    is_identifier(word) && (text.starts_with(b"-") || text.starts_with(b"."))
}

/// Adds the byte that is missing at a place, or where a number or a name goes on there with a sign that neither has.
fn put_missing(out: &mut Text, place: &Place<'_>, byte: u8) {
    let before = place.head();
    let rest = place.rest();
    let word = last_word(before);
    if begins_with_sign(rest) && is_numeric(before, word) {
        out.put(COMPUTED);
    } else if is_name_cut(word, rest) {
        out.put(NAMED);
    } else {
        put_mark(out, byte);
    }
}

/// Adds what is told of the token at a place, or of what is missing there.
fn put_token(alloc: Global, out: &mut Text, place: &Place<'_>) -> Result<(), AllocError> {
    match place.missing() {
        Some((_name, byte)) => put_missing(out, place, byte),
        None => put_word_hint(alloc, out, place)?,
    }
    Ok(())
}

/// What is told of the token at fault, of what is missing there, or of a character that no token has.
fn report(
    alloc: Global,
    text: &[u8],
    fault: &ConfigFault,
    place: Option<&Place<'_>>,
) -> Result<Vec<u8>, AllocError> {
    let mut out = Text::new(alloc);
    match place {
        Some(place) => put_token(alloc, &mut out, place)?,
        None => out.put(words_at(text, fault.line)),
    }
    out.finish()
}

/// What the line of this number looks like, where it has such a fault and looks like one of another text.
fn likeness_at(text: &[u8], line: u32, kind: ConfigKind) -> Option<Likeness> {
    if line == 0 {
        return None;
    }
    let (line, _after) = line_after(line - 1, text)?;
    config_likeness(kind, line)
}

/// Adds what is told of the token at fault, and what its line looks like, or else what to do about such a fault.
fn put_reported_or_advice(
    out: &mut Text,
    report: &[u8],
    likeness: Option<Likeness>,
    kind: ConfigKind,
) {
    out.put(report);
    match likeness {
        Some(found) => put_config_likeness(out, found),
        None if report.is_empty() => put_config_advice(out, kind),
        None => {}
    }
}

/// What stands beside a fault of a configuration: the line, and where a token is at fault a caret under its first byte, or where one
/// is missing there, and the form of the statement, what is told of the token or else what to do about such a fault, and what the line or the text
/// looks like where it looks like another one. Where the token stands is taken from the fault.
pub fn config_context(
    alloc: Global,
    text: &[u8],
    fault: &ConfigFault,
) -> Result<Vec<u8>, AllocError>
    requires { length text.now ≤ most_bytes }
{
    let place = Place::of_fault(text, fault);
    let report = report(alloc, text, fault, place.as_ref())?;
    let mut out = Text::new(alloc);
    put_fault(&mut out, text, fault, place.as_ref());
    let likeness = likeness_at(text, fault.line, fault.kind);
    put_reported_or_advice(&mut out, report.as_slice(), likeness, fault.kind);
    put_project_line(&mut out, text, fault);
    out.finish()
}

/// How many line feeds there are.
fn line_feeds(bytes: &[u8]) -> usize
    ensures { result ≤ length bytes.now }
{
    let mut count = 0;
    for byte in bytes {
        if *byte == b'\n' {
            count += 1;
        }
    }
    count
}

/// The line and the column of a place.
fn spot_at(text: &[u8], place: usize) -> Spot
    requires { place ≤ length text.now }
{
    let before = &text[..place];
    Spot::Column(line_feeds(before) + 1, column_after(before) + 1)
}

/// Where the fault of a configuration is, as far as that is known: where [`config_context`] shows a caret at that byte, in its line, and
/// else in the line of the fault. Where the token stands is taken from the fault.
pub fn config_spot(text: &[u8], fault: &ConfigFault) -> Spot
    requires { length text.now ≤ most_bytes }
{
    match Place::of_fault(text, fault) {
        Some(place) => spot_at(place.text(), place.caret()),
        None => foreign_spot(text, fault.line),
    }
}
