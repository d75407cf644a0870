//! The statements of a configuration, with their fields.

use crate::fields::{attribute_word, first_word, free_field, second_word, word_of};
use fmp_codes::ObjectKind;
use fmp_config_statements::{Attribute, Part, Range, STATEMENT_NAMES, StatementName, allowed};
use fmp_out::Text;

/// The most processors that a machine may have.
const MOST_PROCESSORS: u8 = 8;

/// The most priorities of a machine that says nothing of its limits.
const USUAL_PRIORITIES: u8 = 16;

/// Adds a part of a statement as it is written, which has so many fields without effect before it.
fn put_part(out: &mut Text, name: StatementName, index: usize, part: Part) {
    match part {
        Part::Mark(b',') => out.put(b", "),
        Part::Mark(byte) => out.put_byte(byte),
        Part::One(item) => out.put(word_of(name, item)),
        Part::Series(byte, item) => {
            out.put(word_of(name, item));
            out.put_byte(b' ');
            out.put_byte(byte);
            out.put(b" ..");
        }
        Part::Free => out.put(free_field(name, index)),
        Part::Method => {
            out.put(b"LOCAL or GLOBAL, ");
            out.put(first_word(name));
        }
    }
}

/// How many fields without effect a part is.
fn frees_of(part: Part) -> usize {
    match part {
        Part::Free => 1,
        _ => 0,
    }
}

/// Adds the parts of a statement, one after the other.
fn put_parts(out: &mut Text, name: StatementName, parts: &[Part]) {
    let mut index = 0;
    for part in parts {
        put_part(out, name, index, *part);
        index = index.saturating_add(frees_of(*part));
    }
}

/// Adds a statement as it is written.
fn put_statement(out: &mut Text, name: StatementName) {
    out.put(name.text());
    put_parts(out, name, name.parts());
    out.put(b"\n");
}

/// Adds attributes, each after a blank.
fn put_attributes(out: &mut Text, attributes: &[Attribute]) {
    for attribute in attributes {
        out.put_byte(b' ');
        out.put(attribute.text());
    }
}

/// Adds the line of these attributes.
fn put_attributes_line(out: &mut Text, name: StatementName, attributes: &[Attribute]) {
    out.put(b"  ");
    out.put(attribute_word(name));
    out.put_byte(b':');
    put_attributes(out, attributes);
    out.put(b"\n");
}

/// Adds the attributes of a statement that creates an object.
fn put_allowed_line(out: &mut Text, name: StatementName) {
    match name {
        StatementName::Create(kind) => put_attributes_line(out, name, allowed(kind)),
        _ => {}
    }
}

/// Adds the range of a number of this name, unless it may be any.
fn put_range(out: &mut Text, word: &[u8], range: Option<Range>) {
    match range {
        Some(Range { least, most }) if most < u64::MAX => {
            out.put(b"  ");
            out.put(word);
            out.put(b": within ");
            out.put_number(least);
            out.put(b" to ");
            out.put_number(most);
            out.put(b"\n");
        }
        _ => {}
    }
}

/// What else is to be said of a statement's numbers.
fn note_of(name: StatementName) -> &'static [u8] {
    match name {
        StatementName::Create(ObjectKind::Task) => {
            b"  itskpri: up to 32 where `LIMITS(wupcnt, pri);` says so before the first class\n"
        }
        StatementName::Create(ObjectKind::Semaphore) => b"  isemcnt: within 0 to maxsem\n",
        _ => b"",
    }
}

/// Adds the ranges of a statement's numbers on the greatest machine, where nothing is said of its limits.
fn put_ranges(out: &mut Text, name: StatementName) {
    let first = name.first_range(MOST_PROCESSORS, USUAL_PRIORITIES);
    put_range(out, first_word(name), first);
    put_range(out, second_word(name), name.second_range());
    out.put(note_of(name));
}

/// Adds a statement, the attributes that it allows, and the ranges of its numbers on the greatest machine.
pub fn put_about(out: &mut Text, name: StatementName) {
    put_statement(out, name);
    put_allowed_line(out, name);
    put_ranges(out, name);
}

/// Adds a line for each of these statements.
fn put_lines(out: &mut Text, names: &[StatementName]) {
    for name in names {
        put_statement(out, *name);
    }
}

/// Adds a line for each statement.
pub(crate) fn put_statements(out: &mut Text) {
    put_lines(out, &STATEMENT_NAMES);
}
