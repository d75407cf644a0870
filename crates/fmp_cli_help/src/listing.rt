//! The whole list, and what is told of one word.
ghost use Rattle.std.specs.Prelude.{◌≡◌, IfOk, is_some};
ghost use Rattle.fmp_cli_help.specs.Listing as spec;

use crate::calls::{put_about as put_about_call, put_calls};
use crate::faults::{
    find_config_kind, find_text_kind, put_about_config, put_about_text, put_config_faults,
    put_text_faults,
};
use crate::left_out::is_left_out;
use crate::statements::{put_about as put_about_statement, put_statements};
use crate::words::{is_word, put_word};
use fmp_calls::find_call;
use fmp_codes::Call;
use fmp_config_statements::{ConfigKind, StatementName, find_statement};
use fmp_out::Text;
use fmp_text::TextKind;
use std::alloc::{AllocError, Global};

/// All service calls with their arguments, all statements with their fields, and all faults with their words: a line for each,
/// under headings.
pub fn everything(alloc: Global) -> Result<Vec<u8>, AllocError> {
    let mut out = Text::new(alloc);
    out.put(b"Service calls:\n");
    put_calls(&mut out);
    out.put(b"\nStatements of a configuration:\n");
    put_statements(&mut out);
    out.put(b"\nFaults of a configuration:\n");
    put_config_faults(&mut out);
    out.put(b"\nFaults of events, scripts and traces:\n");
    put_text_faults(&mut out);
    out.finish()
}

/// What a word is of which there is something to tell.
#[derive(Clone, Copy)]
pub enum Subject {
    /// The name of a call.
    Call(Call),
    /// The name of a statement.
    Statement(StatementName),
    /// The number of a fault of a configuration.
    ConfigFault(ConfigKind),
    /// The number of a fault of events, scripts or a trace.
    TextFault(TextKind),
    /// The name of a call or a statement that is left out.
    LeftOut,
    /// A word of the texts.
    Word,
}

/// What a word is that is no call and no statement.
#[tactic(auto, unfolding(crate::specs::Listing::other_subject))]
fn other_subject(word: &[u8]) -> Option<Subject>
    ensures { result ≡ spec.other_subject word.now }
{
    if let Some(kind) = find_config_kind(word) {
        return Some(Subject::ConfigFault(kind));
    }
    if let Some(kind) = find_text_kind(word) {
        return Some(Subject::TextFault(kind));
    }
    if is_left_out(word) {
        return Some(Subject::LeftOut);
    }
    if is_word(word) {
        Some(Subject::Word)
    } else {
        None
    }
}

/// What a word is, if there is something to tell of it.
#[tactic(auto, unfolding(crate::specs::Listing::subject_of))]
pub fn subject_of(word: &[u8]) -> Option<Subject>
    ensures { result ≡ spec.subject_of word.now }
{
    if let Some(call) = find_call(word) {
        return Some(Subject::Call(call));
    }
    if let Some(name) = find_statement(word) {
        return Some(Subject::Statement(name));
    }
    other_subject(word)
}

/// Adds that a service call or a statement is left out.
pub fn put_left_out(out: &mut Text, word: &[u8]) {
    out.put(b"fmpsim has no ");
    out.put(word);
    out.put(b"\n");
}

/// Adds what is told of a word that is this.
fn put_subject(out: &mut Text, word: &[u8], subject: Subject) {
    match subject {
        Subject::Call(call) => put_about_call(out, call),
        Subject::Statement(name) => put_about_statement(out, name),
        Subject::ConfigFault(kind) => put_about_config(out, kind),
        Subject::TextFault(kind) => put_about_text(out, kind),
        Subject::LeftOut => put_left_out(out, word),
        Subject::Word => put_word(out, word),
    }
}

/// What is told of a word: a call with its arguments and what it does, a statement with its fields, a fault with what to do about
/// it, that it is left out, or what a word of a trace or an attribute means. There is nothing to tell of any other word.
pub fn about(alloc: Global, word: &[u8]) -> Result<Option<Vec<u8>>, AllocError>
    ensures { IfOk result (λ found. is_some found ≡ is_some (spec.subject_of word.now)) }
{
    let Some(subject) = subject_of(word) else {
        return Ok(None);
    };
    let mut out = Text::new(alloc);
    put_subject(&mut out, word, subject);
    Ok(Some(out.finish()?))
}
