//! What of a text of lines is not in another one.
ghost use Rattle.std.specs.Prelude.{◌≡◌, ◌++◌, OnOk};
ghost use Rattle.std.specs.Option.{option_copied};
ghost use Rattle.fmp_out.specs.Putting.{Adds};
ghost use Rattle.fmp_show_changes.specs.Changes as spec;

use fmp_bytes::{Class, are_digits, cut, following, skip, split_prefix};
use fmp_out::Text;
use fmp_show_state::{give_back, text_of};
use std::alloc::AllocError;

/// Which lines of a text are told, where another text has others.
#[derive(Clone, Copy)]
enum Rule {
    /// Each line of a processor, and each other line that the other text does not have.
    New,
    /// The name of each line about which the other text has no line.
    Gone,
}

/// What a line is about: its first word.
fn name_of(line: &[u8]) -> &[u8]
    ensures { result.now ≡ spec.name_of line.now }
{
    split_prefix(Class::Word, skip(Class::Blank, line)).0
}

/// Whether a line is about a processor.
fn is_processor(line: &[u8]) -> bool
    ensures { result ≡ spec.is_processor line.now }
{
    match following(b'P', name_of(line)) {
        Some(number) => are_digits(10, number),
        None => false,
    }
}

/// Whether two lines are the same, or, where names alone count, about the same.
fn is_same(rule: Rule, one: &[u8], other: &[u8]) -> bool
    ensures { result ≡ spec.is_same rule one.now other.now }
{
    match rule {
        Rule::New => one == other,
        Rule::Gone => name_of(one) == name_of(other),
    }
}

/// Whether a text has such a line, and what follows the first one.
fn find<'a>(rule: Rule, text: &'a [u8], line: &[u8]) -> (bool, Option<&'a [u8]>)
    ensures found { result.0 ≡ spec.has_line rule (spec.lines_of text.now) line.now }
    ensures within { spec.IsWithin (spec.lines_left (option_copied result.1)) (spec.lines_of text.now) }
{
    let mut rest = Some(text);
    while let Some(lines) = rest {
        let (first, after) = cut(b'\n', lines);
        if is_same(rule, first, line) {
            return (true, after);
        }
        rest = after;
    }
    (false, None)
}

/// The same, where these lines of the text are looked at first: two states have their lines in the same order, so the next line of the
/// one is nearly always the next line of the other. Says also which lines to look at first for the next line.
fn look<'a>(
    rule: Rule,
    text: &'a [u8],
    near: Option<&'a [u8]>,
    line: &[u8],
) -> (bool, Option<&'a [u8]>)
    requires { spec.IsWithin (spec.lines_left (option_copied near)) (spec.lines_of text.now) }
    ensures found { result.0 ≡ spec.has_line rule (spec.lines_of text.now) line.now }
    ensures within { spec.IsWithin (spec.lines_left (option_copied result.1)) (spec.lines_of text.now) }
{
    let Some(lines) = near else {
        return find(rule, text, line);
    };
    let (first, after) = cut(b'\n', lines);
    if is_same(rule, first, line) {
        return (true, after);
    }
    let (found, following) = find(rule, text, line);
    if found {
        return (true, following);
    }
    let next = if is_same(Rule::Gone, first, line) {
        after
    } else {
        near
    };
    (false, next)
}

/// Adds a line and a line feed, unless it is known.
fn put_new(out: &mut Text, known: bool, line: &[u8])
    ensures { Adds (spec.new_text known line.now) out.old out.new }
{
    if known {
        return;
    }
    out.put(line);
    out.put_byte(b'\n');
}

/// Adds what a line is about, unless that is known.
fn put_gone(out: &mut Text, known: bool, line: &[u8])
    ensures { Adds (spec.gone_text known line.now) out.old out.new }
{
    if known {
        return;
    }
    out.put(b"  ");
    out.put(name_of(line));
    out.put_byte(b'\n');
}

/// Adds what is told of a line, by whether the other text has such a line.
fn put_line(out: &mut Text, rule: Rule, found: bool, line: &[u8])
    ensures { Adds (spec.line_reported rule found line.now) out.old out.new }
{
    match rule {
        Rule::New => put_new(out, found && !is_processor(line), line),
        Rule::Gone => put_gone(out, found, line),
    }
}

/// Adds what is told of each of these lines, by the lines of the other text.
fn put_reported(out: &mut Text, rule: Rule, lines: &[u8], others: &[u8])
    ensures { Adds (spec.report_of rule (spec.lines_of others.now) (spec.lines_of lines.now)) out.old out.new }
{
    let mut rest = Some(lines);
    let mut near = Some(others);
    while let Some(left) = rest {
        let (line, after) = cut(b'\n', left);
        let (found, follows) = look(rule, others, near, line);
        put_line(out, rule, found, line);
        near = follows;
        rest = after;
    }
}

/// Adds what of the lines of a state changed, where these were its lines before and are its lines after.
#[tactic(auto, unfolding(crate::specs::Changes::changes_text))]
fn put_changed(out: &mut Text, before: &[u8], after: &[u8])
    ensures { Adds (spec.changes_text before.now after.now) out.old out.new }
{
    put_reported(out, Rule::New, after, before);
    put_reported(out, Rule::Gone, before, after);
    out.put(b"  end\n");
}

/// Adds what of the lines of a state changed, where these were its lines before and are its lines after: each line of a processor and each other
/// line that is new or differs, then the name of each line that is gone, and the line that ends it. After an error parts of this
/// may have been added.
pub(crate) fn put_changes(out: &mut Vec<u8>, before: &[u8], after: &[u8]) -> Result<(), AllocError>
    ensures { OnOk result (out.new.items ≡ out.old.items ++ spec.changes_text before.now after.now) }
{
    let mut text = text_of(out);
    put_changed(&mut text, before, after);
    give_back(out, text)
}
