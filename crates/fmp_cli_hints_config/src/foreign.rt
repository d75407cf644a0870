//! A character that is not ASCII, in a line in which no token is at fault.
ghost use Rattle.std.specs.Prelude.{◌<◌, length, IfSome};

use fmp_bytes::Class;
use fmp_cli_diagnostics::Spot;
use fmp_cli_hints::{foreign_words, line_after, put_excerpt, put_line, without_mark};
use fmp_out::Text;

/// Whether a byte is printed ASCII or a tab, and neither a quotation mark nor a slash, after which a string or a comment may begin.
fn is_plain(byte: u8) -> bool {
    (Class::Printed.has(byte) || byte == b'\t') && byte != b'"' && byte != b'/'
}

/// The first byte of a line that is not plain.
fn unplain(line: &[u8]) -> Option<usize>
    ensures { IfSome result (λ i. i < length line.now) }
{
    for (index, byte) in line.iter().enumerate() {
        if !is_plain(*byte) {
            return Some(index);
        }
    }
    None
}

/// The column of the first byte of a line that is not ASCII, where no string and no comment can have begun before it.
fn foreign_column(line: &[u8]) -> Option<usize>
    ensures { IfSome result (λ i. i < length line.now) }
{
    let column = unplain(line)?;
    if line[column] < 0x80 {
        return None;
    }
    Some(column)
}

/// The line of this number from 1, if there is one, without a byte order mark before it.
fn line_at(text: &[u8], line: u32) -> Option<&[u8]> {
    if line == 0 {
        return None;
    }
    let (line, _after) = line_after(line - 1, text)?;
    Some(without_mark(line))
}

/// Adds a line, with a caret under the first byte that is not ASCII, if it has one.
fn put_shown(out: &mut Text, line: &[u8]) {
    match foreign_column(line) {
        Some(column) => put_excerpt(out, line, column),
        None => put_line(out, line, 0),
    }
}

/// Adds the line of this number from 1, if there is one, with a caret under the first byte that is not ASCII, if it has one.
pub(crate) fn put_numbered(out: &mut Text, text: &[u8], line: u32) {
    if let Some(line) = line_at(text, line) {
        put_shown(out, line);
    }
}

/// What is told of the first byte of a line that is not ASCII.
fn words_in(line: &[u8]) -> &'static [u8] {
    match foreign_column(line) {
        Some(column) => foreign_words(&line[column..]),
        None => b"",
    }
}

/// What is told of the first byte that is not ASCII of the line of this number from 1.
pub(crate) fn words_at(text: &[u8], line: u32) -> &'static [u8] {
    match line_at(text, line) {
        Some(line) => words_in(line),
        None => b"",
    }
}

/// Where the first byte that is not ASCII stands in the line of this number from 1.
pub(crate) fn foreign_spot(text: &[u8], line: u32) -> Spot {
    let Some(shown) = line_at(text, line) else {
        return Spot::of_line(line);
    };
    match foreign_column(shown) {
        Some(column) => Spot::Column(line as usize, column + 1),
        None => Spot::of_line(line),
    }
}
