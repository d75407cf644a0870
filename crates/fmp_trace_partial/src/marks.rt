//! What a line leaves out of its answer and of the codes after it, and its bound; and the line with something put in there and without its bound, so
//! that it can be read as one that leaves nothing out. Both are right where the line is printed. What else they are does no harm, since what
//! is read is printed again.
ghost use Rattle.std.specs.Prelude.{◌≡◌};
ghost use Rattle.fmp_out.specs.Putting.{Adds};
ghost use Rattle.fmp_trace.specs.Guess.{words_left};
ghost use Rattle.std.specs.Option.{option_copied};
ghost use Rattle.fmp_trace_partial.specs.Marks as spec;

use crate::codes_kept::{AnswerKept, CodeKept, CodesKept};
use fmp_bytes::{cut, spelled_number, unsigned32};
use fmp_out::Text;

/// What a line leaves out of its answer, and of each code after that, and its bound.
#[derive(Drop)]
pub(crate) struct Marks {
    pub(crate) answer: AnswerKept,
    pub(crate) releases: CodesKept,
    /// The last line whose event may take effect before the line's, where that is told.
    pub(crate) bound: Option<u32>,
}

/// How much of a code a text writes.
#[tactic(auto, unfolding(crate::specs::Marks::code_kept_in))]
fn code_kept_in(text: &[u8]) -> CodeKept
    ensures { result ≡ spec.code_kept_in text.now }
{
    if text == b"*".as_slice() {
        return CodeKept::Nothing;
    }
    match cut(b':', text).1 {
        Some(value) if value == b"*".as_slice() => CodeKept::NoValue,
        _ => CodeKept::Whole,
    }
}

/// Adds a code with its value, where what is left out is put in: `E_OK`, and no value.
#[tactic(auto, unfolding(crate::specs::Marks::filled_code))]
fn put_filled_code(out: &mut Text, text: &[u8])
    ensures { Adds (spec.filled_code text.now) out.old out.new }
{
    match code_kept_in(text) {
        CodeKept::Whole => out.put(text),
        CodeKept::NoValue => out.put(cut(b':', text).0),
        CodeKept::Nothing => out.put(b"E_OK"),
    }
}

/// How much of an answer a word writes.
#[tactic(auto, unfolding(crate::specs::Marks::answer_kept_in))]
fn answer_kept_in(word: &[u8]) -> AnswerKept
    ensures { result ≡ spec.answer_kept_in word.now }
{
    if word == b"?".as_slice() {
        return AnswerKept::Happened;
    }
    if word == b"open".as_slice() {
        return AnswerKept::Open;
    }
    match code_kept_in(word) {
        CodeKept::NoValue => AnswerKept::NoValue,
        CodeKept::Whole | CodeKept::Nothing => AnswerKept::Whole,
    }
}

/// Adds an answer, where what is left out is put in: `none`, where it is left out whole.
#[tactic(auto, unfolding(crate::specs::Marks::filled_answer))]
fn put_filled_answer(out: &mut Text, word: &[u8])
    ensures { Adds (spec.filled_answer word.now) out.old out.new }
{
    if word == b"?".as_slice() || word == b"open".as_slice() {
        out.put(b"none");
    } else {
        put_filled_code(out, word);
    }
}

/// Adds what stands behind the `=` of a word, where what is left out is put in.
#[tactic(auto, unfolding(crate::specs::Marks::filled_part))]
fn put_filled_part(out: &mut Text, text: &[u8])
    ensures { Adds (spec.filled_part text.now) out.old out.new }
{
    let (name, code) = cut(b':', text);
    match code {
        Some(code) => {
            out.put(name);
            out.put_byte(b':');
            put_filled_code(out, code);
        }
        None => out.put(text),
    }
}

/// Adds a word of a line, which may be its answer, where what is left out is put in.
#[tactic(auto, unfolding(crate::specs::Marks::filled_word))]
fn put_filled_word(out: &mut Text, is_answer: bool, word: &[u8])
    ensures { Adds (spec.filled_word is_answer word.now) out.old out.new }
{
    let (key, text) = cut(b'=', word);
    match text {
        Some(text) => {
            out.put(key);
            out.put_byte(b'=');
            put_filled_part(out, text);
        }
        None if is_answer => put_filled_answer(out, word),
        None => out.put(word),
    }
}

/// Whether a word has a `=`.
fn is_keyed(word: &[u8]) -> bool
    ensures { result ≡ spec.is_keyed word.now }
{
    cut(b'=', word).1.is_some()
}

/// Whether a word tells the line's bound.
#[tactic(auto, unfolding(crate::specs::Marks::is_bound))]
fn is_bound(word: &[u8]) -> bool
    ensures { result ≡ spec.is_bound word.now }
{
    is_keyed(word) && cut(b'=', word).0 == b"by".as_slice()
}

/// Adds a blank and a word of a line, where what is left out is put in. Of the line's bound it adds nothing.
#[tactic(auto, unfolding(crate::specs::Marks::filled_led))]
fn put_filled_led(out: &mut Text, is_answer: bool, word: &[u8])
    ensures { Adds (spec.filled_led is_answer word.now) out.old out.new }
{
    if !is_bound(word) {
        out.put_byte(b' ');
        put_filled_word(out, is_answer, word);
    }
}

/// Whether the words of a text may follow the answer, which only words with a `=` do.
fn ends_answer(words: Option<&[u8]>) -> bool
    ensures { result ≡ spec.ends_answer (words_left (option_copied words.entry)) }
{
    match words {
        Some(text) => is_keyed(cut(b' ', text).0),
        None => true,
    }
}

/// Adds the words of a text that have blanks between them, each after a blank, where what is left out is put in.
fn put_filled_words(out: &mut Text, words: Option<&[u8]>)
    ensures { Adds (spec.filled_words (words_left (option_copied words.entry))) out.old out.new }
{
    let mut rest = words;
    while let Some(text) = rest {
        let (word, after) = cut(b' ', text);
        put_filled_led(out, ends_answer(after), word);
        rest = after;
    }
}

/// Adds a line, where what it leaves out of its codes is put in, without its bound.
#[tactic(auto, unfolding(crate::specs::Marks::filled))]
pub(crate) fn put_filled(out: &mut Text, line: &[u8])
    ensures { Adds (spec.filled line.now) out.old out.new }
{
    let (word, rest) = cut(b' ', line);
    out.put(word);
    put_filled_words(out, rest);
}

/// Adds how much a text writes of the next code after the answer. `None` where there are 64 of them already.
#[tactic(auto, unfolding(crate::specs::Marks::with_code))]
fn with_code(marks: Marks, code: &[u8]) -> Option<Marks>
    ensures { result ≡ spec.with_code marks code.now }
{
    if marks.releases.len() == 64 {
        return None;
    }
    let mut marks = marks;
    marks.releases.push(code_kept_in(code));
    Some(marks)
}

/// The number that a text spells, where it has 32 bits.
#[tactic(auto, unfolding(crate::specs::Marks::bound_in))]
fn bound_in(text: &[u8]) -> Option<u32>
    ensures { result ≡ spec.bound_in text.now }
{
    let number = spelled_number(text)?;
    unsigned32(number.negative, number.magnitude?)
}

/// Sets the line's bound. `None` where the text is no number of 32 bits.
#[tactic(auto, unfolding(crate::specs::Marks::with_bound))]
fn with_bound(marks: Marks, text: &[u8]) -> Option<Marks>
    ensures { result ≡ spec.with_bound marks text.now }
{
    let last = bound_in(text)?;
    Some(Marks {
        bound: Some(last),
        ..marks
    })
}

/// Adds what stands behind the key of a word.
#[tactic(auto, unfolding(crate::specs::Marks::with_part))]
fn with_part(marks: Marks, key: &[u8], text: &[u8]) -> Option<Marks>
    ensures { result ≡ spec.with_part marks key.now text.now }
{
    if key == b"by".as_slice() {
        return with_bound(marks, text);
    }
    match cut(b':', text).1 {
        Some(code) => with_code(marks, code),
        None => Some(marks),
    }
}

/// Adds what a word of a line leaves out, or its bound. The last word without a `=` is the answer.
#[tactic(auto, unfolding(crate::specs::Marks::with_mark))]
fn with_mark(marks: Marks, word: &[u8]) -> Option<Marks>
    ensures { result ≡ spec.with_mark marks word.now }
{
    let (key, text) = cut(b'=', word);
    match text {
        Some(text) => with_part(marks, key, text),
        None => Some(Marks {
            answer: answer_kept_in(word),
            ..marks
        }),
    }
}

/// What a line leaves out of its answer and of the codes after it, and its bound.
pub(crate) fn marks_in(line: &[u8]) -> Option<Marks>
    ensures { result ≡ spec.marks_in line.now }
{
    let mut marks = Marks {
        answer: AnswerKept::Whole,
        releases: CodesKept::new(),
        bound: None,
    };
    let mut rest = Some(line);
    while let Some(text) = rest {
        let (word, after) = cut(b' ', text);
        marks = with_mark(marks, word)?;
        rest = after;
    }
    Some(marks)
}
