//! What stands beside a line of a text of questions that is none: the line, and what to write.

use fmp_bytes::{Class, skip};
use fmp_cli_hints::{line_after, put_line};
use fmp_out::Text;
use fmp_text::without_return;
use std::alloc::{AllocError, Global};

/// The first word of a line.
fn first_word(line: &[u8]) -> &[u8] {
    let words = skip(Class::Blank, line);
    match words.iter().position(|byte| Class::Blank.has(*byte)) {
        Some(end) => &words[..end],
        None => words,
    }
}

/// What is told of a line with this first word.
fn row_hint(first: &[u8]) -> &'static [u8] {
    if first == b"never".as_slice() || first == b"shown".as_slice() {
        b"  The name is missing, which comes first: write `no-error never E_PAR`.\n"
    } else if first.ends_with(b":") {
        b"  A name has no `:` after it: write `no-error never E_PAR`.\n"
    } else {
        b"  Write a name, `never` or `shown`, which is the answer that is expected, and a question: `no-error never E_PAR`.\n"
    }
}

/// What stands beside the line of this number, from 1, of a text of questions, which is none. That it is none is taken from the caller.
pub fn row_context(alloc: Global, text: &[u8], number: u32) -> Result<Vec<u8>, AllocError> {
    let mut out = Text::new(alloc);
    if let Some((line, _after)) = line_after(number.saturating_sub(1), text) {
        let line = without_return(line);
        put_line(&mut out, line, 0);
        out.put(row_hint(first_word(line)));
    }
    out.finish()
}
