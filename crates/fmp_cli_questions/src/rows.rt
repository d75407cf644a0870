//! A question with its name and what is expected of it, and the line that says so.
ghost use Rattle.std.specs.Prelude.{◌≡◌, drop, IfOk};
ghost use Rattle.std.specs.List.{list_all, prefix_len};
ghost use Rattle.fmp_cli_questions.specs.Rows as spec;

use fmp_bytes::{Class, skip};
use std::alloc::{AllocError, Global};
use std::marker::Model;

/// What is expected of a question.
#[derive(Clone, Copy)]
pub enum Expected {
    /// No order shows it.
    Never,
    /// Some order does.
    Shown,
}

/// A question with its name and what is expected of it.
#[derive(Drop)]
pub struct Row {
    line: usize,
    name: Vec<u8>,
    expected: Expected,
    question: Vec<u8>,
}

impl Model for Row {
    ghost use Rattle.fmp_cli_questions.specs.Rows as spec;

    ghost Value = { spec.Row };

    ghost view = { λ r. record { line = r.line; name = r.name.items; expected = r.expected; question = r.question.items } };
}

impl Row {
    /// The number of its line, from 1.
    pub fn line(&self) -> usize
        ensures { result ≡ self.now.line }
    {
        self.line
    }

    /// Its name.
    pub fn name(&self) -> &[u8]
        ensures { result.now ≡ self.now.name }
    {
        &self.name
    }

    /// What is expected.
    pub fn expected(&self) -> Expected
        ensures { result ≡ self.now.expected }
    {
        self.expected
    }

    /// What is asked.
    pub fn question(&self) -> &[u8]
        ensures { result.now ≡ self.now.question }
    {
        &self.question
    }
}

/// The bytes before the first blank, and the rest.
fn split_word(text: &[u8]) -> (&[u8], &[u8])
    ensures word { result.0.now ≡ spec.first_word text.now }
    ensures rest { result.1.now ≡ drop (prefix_len spec.is_solid text.now) text.now }
{
    let end = text
        .iter()
        .take_while(|byte| !Class::Blank.has(**byte))
        .count();
    text.split_at(end)
}

/// The first word of a text, and what follows the blanks after it.
fn first_word(text: &[u8]) -> (&[u8], &[u8])
    ensures word { result.0.now ≡ spec.first_word text.now }
    ensures rest { result.1.now ≡ spec.following_word text.now }
{
    let (word, rest) = split_word(text);
    (word, skip(Class::Blank, rest))
}

/// Whether all bytes may stand in a name.
fn are_name_bytes(bytes: &[u8]) -> bool
    ensures { result ≡ list_all spec.is_name_byte bytes.now }
{
    bytes
        .iter()
        .all(|byte| Class::Argument.has(*byte) || *byte == b'.')
}

/// Whether a word is a name.
fn is_name(word: &[u8]) -> bool
    ensures { result ≡ spec.is_name word.now }
{
    match word {
        [] => false,
        [first, rest @ ..] => Class::Word.has(*first) && rest.len() < 64 && are_name_bytes(rest),
    }
}

/// What a word says that is expected.
#[tactic(auto, unfolding(crate::specs::Rows::expected_in))]
fn expected_in(word: &[u8]) -> Option<Expected>
    ensures { result ≡ spec.expected_in word.now }
{
    if word == b"never".as_slice() {
        Some(Expected::Never)
    } else if word == b"shown".as_slice() {
        Some(Expected::Shown)
    } else {
        None
    }
}

/// The question of these parts of a line, if they are right.
fn row_of(
    alloc: Global,
    line: usize,
    name: &[u8],
    expected: Option<Expected>,
    question: &[u8],
) -> Result<Option<Row>, AllocError>
    ensures { IfOk result (λ row. row ≡ spec.row_of line name.now expected question.now) }
{
    let Some(expected) = expected else {
        return Ok(None);
    };
    if question.is_empty() || !is_name(name) {
        return Ok(None);
    }
    Ok(Some(Row {
        line,
        name: Vec::from_slice(alloc, name)?,
        expected,
        question: Vec::from_slice(alloc, question)?,
    }))
}

/// The question of a line of this number, without white space at its ends, if it is right.
#[tactic(auto, unfolding(crate::specs::Rows::row_in))]
pub(crate) fn row_in(alloc: Global, line: usize, text: &[u8]) -> Result<Option<Row>, AllocError>
    ensures { IfOk result (λ row. row ≡ spec.row_in line text.now) }
{
    let (name, rest) = first_word(text);
    let (word, question) = first_word(rest);
    row_of(alloc, line, name, expected_in(word), question)
}
