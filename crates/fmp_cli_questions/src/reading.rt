//! Reading a text of questions.
ghost use Rattle.std.specs.Prelude.{◌≡◌, IfOk, OnOk};
ghost use Rattle.fmp_cli_questions.specs.Rows as spec;

use crate::rows::{Row, row_in};
use fmp_bytes::cut;
use std::alloc::{AllocError, Global};

/// The greatest number of questions.
const MOST_ROWS: usize = 1000;

/// What is wrong with a line.
#[derive(Clone, Copy)]
pub enum RowKind {
    /// It is no name, `never` or `shown`, and a question.
    Form,
    /// An earlier line has its name.
    Twice,
    /// There are 1,000 questions before it.
    TooMany,
}

/// The first line that is wrong.
#[derive(Clone, Copy)]
pub struct RowFault {
    /// Its number, from 1.
    pub line: usize,
    pub kind: RowKind,
}

/// What was read of a text: the questions up to its first fault, and that fault.
#[derive(Drop)]
pub struct Rows {
    pub rows: Vec<Row>,
    pub fault: Option<RowFault>,
}

/// A line without the white space at its ends.
fn trimmed(line: &[u8]) -> &[u8]
    ensures { result.now ≡ spec.trimmed line.now }
{
    line.trim_ascii()
}

/// Whether a line says nothing.
fn is_silent(text: &[u8]) -> bool
    ensures { result ≡ spec.is_silent text.now }
{
    match text {
        [] => true,
        [first, ..] => *first == b'#',
    }
}

/// Whether one of the questions has this name.
fn has_row(rows: &[Row], name: &[u8]) -> bool
    ensures { result ≡ spec.has_row rows.now name.now }
{
    for row in rows {
        if row.name() == name {
            return true;
        }
    }
    false
}

/// Adds the question of a line, and tells what is wrong with the line, if something is. Then nothing is added.
fn add_row(rows: &mut Vec<Row>, row: Option<Row>) -> Result<Option<RowKind>, AllocError>
    ensures rows { OnOk result (rows.new.items ≡ (spec.with_row rows.old.items row).0) }
    ensures report { IfOk result (λ kind. kind ≡ (spec.with_row rows.old.items row).1) }
{
    let Some(row) = row else {
        return Ok(Some(RowKind::Form));
    };
    if has_row(rows, row.name()) {
        return Ok(Some(RowKind::Twice));
    }
    if rows.len() < MOST_ROWS {
        rows.push(row)?;
        Ok(None)
    } else {
        Ok(Some(RowKind::TooMany))
    }
}

/// Adds what a line of this number says, and tells what is wrong with it, if something is.
#[tactic(auto, unfolding(crate::specs::Rows::with_line))]
fn add_line(
    alloc: Global,
    rows: &mut Vec<Row>,
    number: usize,
    line: &[u8],
) -> Result<Option<RowKind>, AllocError>
    ensures rows { OnOk result (rows.new.items ≡ (spec.with_line rows.old.items number line.now).0) }
    ensures report { IfOk result (λ kind. kind ≡ (spec.with_line rows.old.items number line.now).1) }
{
    let text = trimmed(line);
    if is_silent(text) {
        return Ok(None);
    }
    let row = row_in(alloc, number, text)?;
    add_row(rows, row)
}

/// Reads the questions of a text, up to its first fault. The error is want of memory.
pub fn read_rows(alloc: Global, text: &[u8]) -> Result<Rows, AllocError>
    ensures rows { IfOk result (λ r. r.rows.items ≡ (spec.rows_in text.now).0) }
    ensures fault { IfOk result (λ r. r.fault ≡ (spec.rows_in text.now).1) }
{
    let mut rows = Vec::new(alloc);
    let mut line: usize = 0;
    let mut rest = Some(text);
    while let Some(lines) = rest {
        let (first, after) = cut(b'\n', lines);
        line += 1;
        match add_line(alloc, &mut rows, line, first) {
            Err(error) => return Err(error),
            Ok(Some(kind)) => {
                let fault = Some(RowFault { line, kind });
                return Ok(Rows { rows, fault });
            }
            Ok(None) => rest = after,
        }
    }
    Ok(Rows { rows, fault: None })
}

impl RowFault {
    ghost use Rattle.std.specs.Prelude.{◌≡◌};
    ghost use Rattle.fmp_cli_questions.specs.Answers.{fault_words};

    /// It in words.
    pub fn words(&self) -> &'static str
        ensures { result.now ≡ fault_words self.now.kind }
    {
        match self.kind {
            RowKind::Form => "expected a name, never or shown, and a question",
            RowKind::Twice => "an earlier line has this name",
            RowKind::TooMany => "there are more than 1000 questions",
        }
    }
}
