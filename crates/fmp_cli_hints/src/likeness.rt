//! What kind of text a line looks like one of.

ghost use Rattle.std.specs.Prelude.{◌≡◌};
ghost use Rattle.std.specs.Option.{option_copied};
ghost use Rattle.fmp_cli_hints.specs.Likeness as spec;

use crate::text::TextForm;
use fmp_bytes::{Class, are_digits, following, skip, split_prefix};
use fmp_config_statements::{ConfigKind, find_statement};
use fmp_names::is_processor_word;
use fmp_out::Text;
use fmp_text::TextKind;

/// What a line looks like.
#[derive(Clone, Copy)]
pub enum Likeness {
    /// The first line of a text with a byte order mark before it.
    Marked,
    Configuration,
    Events,
    Scripts,
    Trace,
    /// A line of a state, as `calls --state` writes it.
    States,
}

/// What follows a byte order mark in UTF-8, where the line begins with one.
#[tactic(auto, unfolding(crate::specs::Likeness::after_mark))]
fn after_mark(line: &[u8]) -> Option<&[u8]>
    ensures { option_copied result ≡ spec.after_mark line.now }
{
    following(0xBF, following(0xBB, following(0xEF, line)?)?)
}

/// A line without the byte order mark before it, if it has one.
pub fn without_mark(line: &[u8]) -> &[u8]
    ensures { result.now ≡ spec.without_mark line.now }
{
    after_mark(line).unwrap_or(line)
}

/// What a line with these first two words looks like, if anything.
fn likeness_by(first: &[u8], second: &[u8]) -> Option<Likeness> {
    if is_processor_word(first) && second == b"run".as_slice() {
        Some(Likeness::States)
    } else if is_processor_word(first) {
        Some(Likeness::Events)
    } else if are_digits(10, first) && is_processor_word(second) {
        Some(Likeness::Trace)
    } else if first == b"script".as_slice() {
        Some(Likeness::Scripts)
    } else if find_statement(first).is_some() {
        Some(Likeness::Configuration)
    } else {
        None
    }
}

/// What a line looks like, if anything: by a byte order mark before it, or by its first words.
fn looks_like(line: &[u8]) -> Option<Likeness> {
    if after_mark(line).is_some() {
        return Some(Likeness::Marked);
    }
    let (first, rest) = split_prefix(Class::Word, skip(Class::Blank, line));
    let (second, _rest) = split_prefix(Class::Word, skip(Class::Blank, rest));
    likeness_by(first, second)
}

/// What is told of a line that looks so.
fn report(likeness: Likeness) -> &'static [u8] {
    match likeness {
        Likeness::Marked => {
            b"  A byte order mark stands before the line: save the text without it.\n"
        }
        Likeness::Configuration => {
            b"  This looks like a configuration, which is the first of the two texts.\n"
        }
        Likeness::Events => {
            b"  This looks like events, which `fmpsim calls` and `fmpsim shrink` read as the second text, or like a partial trace: `fmpsim check --partial`.\n"
        }
        Likeness::Scripts => {
            b"  This looks like scripts, which `fmpsim smp` and `fmpsim explore` read as the second of the two texts.\n"
        }
        Likeness::Trace => {
            b"  This looks like a trace, which `fmpsim check` reads as the second of the two texts. `tools/from-trace` makes events of one.\n"
        }
        Likeness::States => {
            b"  This looks like a trace with states, as of `fmpsim calls --state`: `grep -v '^ '` leaves the trace. `tools/from-trace` makes events of one.\n"
        }
    }
}

/// Whether such lines are among those of a text of this form.
fn is_own(form: TextForm, likeness: Likeness) -> bool {
    matches!(
        (form, likeness),
        (TextForm::Events | TextForm::Partial, Likeness::Events)
            | (TextForm::Scripts, Likeness::Scripts)
            | (TextForm::Trace | TextForm::Partial, Likeness::Trace)
    )
}

/// Whether a text with such a fault may be one of another form.
fn may_be_foreign(kind: TextKind) -> bool {
    matches!(kind, TextKind::BadByte | TextKind::BadWord)
}

/// Adds what a line of a text with such a fault looks like, where it looks like one of another text.
pub(crate) fn put_text_likeness(out: &mut Text, form: TextForm, kind: TextKind, line: &[u8]) {
    if !may_be_foreign(kind) {
        return;
    }
    match looks_like(line) {
        Some(found) if !is_own(form, found) => out.put(report(found)),
        _ => {}
    }
}

/// Whether a configuration with such a fault may be another text.
fn may_be_no_statement(kind: ConfigKind) -> bool {
    matches!(kind, ConfigKind::Syntax | ConfigKind::Unsupported)
}

/// What a line of a configuration with such a fault looks like, where it looks like one of another text.
pub fn config_likeness(kind: ConfigKind, line: &[u8]) -> Option<Likeness> {
    if !may_be_no_statement(kind) {
        return None;
    }
    match looks_like(line) {
        Some(Likeness::Configuration) => None,
        found => found,
    }
}

/// What is told of another text where the configuration has to be.
const FIRST: &[u8] =
    b"  In the command line the configuration comes first, and this text after it.\n";

/// Adds what a line of a configuration looks like.
pub fn put_config_likeness(out: &mut Text, found: Likeness) {
    out.put(report(found));
    if !matches!(found, Likeness::Marked) {
        out.put(FIRST);
    }
}
