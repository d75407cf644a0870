//! A line as it is shown, with a caret under one of its bytes.
ghost use Rattle.std.specs.Prelude.{◌≤◌, length};

use fmp_bytes::Class;
use fmp_out::Text;

/// The most bytes of a line that are shown.
const MOST_SHOWN: usize = 200;

/// How many bytes of a longer line are shown before the caret.
const BEFORE: usize = 100;

/// A byte as it is shown: a tab is a blank, and what is not printed is `?`.
fn shown_byte(byte: u8) -> u8 {
    if byte == b'\t' {
        b' '
    } else if Class::Printed.has(byte) {
        byte
    } else {
        b'?'
    }
}

/// Adds bytes as they are shown.
fn put_shown(out: &mut Text, bytes: &[u8]) {
    for byte in bytes {
        out.put_byte(shown_byte(*byte));
    }
}

/// Adds so many blanks.
fn put_blanks(out: &mut Text, count: usize) {
    for _step in 0..count {
        out.put_byte(b' ');
    }
}

/// What stands before a line, whether or not its beginning is cut off.
fn margin(cut: bool) -> &'static [u8] {
    if cut { b".." } else { b"  " }
}

/// What stands after a line, whether or not its end is cut off.
fn tail(cut: bool) -> &'static [u8] {
    if cut { b"..\n" } else { b"\n" }
}

/// The first byte that is shown.
fn start_of(length: usize, column: usize) -> usize
    requires { column ≤ length }
    ensures within { result ≤ length }
    ensures before { result ≤ column }
{
    if length <= MOST_SHOWN {
        0
    } else {
        column.saturating_sub(BEFORE)
    }
}

/// The byte after those that are shown.
fn end_of(length: usize, start: usize) -> usize
    requires { start ≤ length }
    ensures within { result ≤ length }
    ensures following { start ≤ result }
{
    if length - start <= MOST_SHOWN {
        length
    } else {
        start + MOST_SHOWN
    }
}

/// Adds a line as it is shown from its byte `start` on: at most 200 bytes, with `..` where some are cut off.
pub fn put_line(out: &mut Text, line: &[u8], start: usize)
    requires { start ≤ length line.now }
{
    let end = end_of(line.len(), start);
    out.put(margin(0 < start));
    put_shown(out, &line[start..end]);
    out.put(tail(end < line.len()));
}

/// Adds the line of a caret, under the shown byte that has so many before it.
fn put_caret(out: &mut Text, count: usize) {
    out.put(b"  ");
    put_blanks(out, count);
    out.put(b"^\n");
}

/// Adds a line as it is shown, and a caret under the byte of this column, which counts from 0.
pub fn put_excerpt(out: &mut Text, line: &[u8], column: usize)
    requires { column ≤ length line.now }
{
    let start = start_of(line.len(), column);
    put_line(out, line, start);
    put_caret(out, column - start);
}
