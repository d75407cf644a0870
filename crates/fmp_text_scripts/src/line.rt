//! What a line of a script text says.
ghost use Rattle.std.specs.Prelude.{◌≡◌};
ghost use Rattle.fmp_text.specs.EventFaults.{first_word};
ghost use Rattle.fmp_text_scripts.specs.Lines as spec;
ghost use Rattle.fmp_text_scripts.specs.Places as places;
ghost use Rattle.fmp_text_scripts.specs.Places.{Gives, place_of};
ghost use Rattle.fmp_text_scripts.specs.Refusals as refusals;

use crate::linking::Name;
use crate::misfit::{Misfit, Wanted, fault_at};
use crate::ways::Pattern;
use fmp_bytes::{
    Class, all_of, following, is_identifier, signed64, skip, spelled_number, split_prefix,
};
use fmp_calls::find_call;
use fmp_codes::{Call, Code, NameKind};
use fmp_text::{Names, TextKind, call_after, is_skipped, without_return};

/// A line that is not skipped.
#[derive(Drop)]
pub enum Said<'t> {
    /// The script of the function of this number begins.
    Opens(usize),
    Asks(Call),
    /// A label of this name stands here.
    Stands(Name<'t>),
    /// Where the call before answered so, the script goes on at the label of this name.
    Jumps(Pattern, Name<'t>),
    Closes,
}

/// Nothing more but blanks.
#[tactic(auto, unfolding(crate::specs::Places::ending))]
fn ending<'t>(text: &'t [u8]) -> Result<(), Misfit<'t>>
    ensures { Gives (λ end. end) result (places.ending text.now) }
{
    if all_of(Class::Blank, text) {
        return Ok(());
    }
    let rest = skip(Class::Blank, text);
    Err(fault_at(TextKind::WrongArguments, rest, Wanted::LineEnd))
}

/// The identifier of a text that has nothing else but blanks around it. This is wanted in its place.
#[tactic(auto, unfolding(crate::specs::Places::name_in))]
fn name_in<'t>(wanted: Wanted, text: &'t [u8]) -> Result<&'t [u8], Misfit<'t>>
    ensures { Gives (λ t. t.now) result (places.name_in wanted text.now) }
{
    let text = skip(Class::Blank, text);
    let (name, rest) = split_prefix(Class::Word, text);
    if !is_identifier(name) {
        return Err(fault_at(TextKind::WrongArguments, text, wanted));
    }
    ending(rest)?;
    Ok(name)
}

/// What follows `script`: the name of a function, whose script opens.
#[tactic(auto, unfolding(crate::specs::Places::begins))]
fn begins<'t>(names: &Names, text: &'t [u8]) -> Result<Said<'t>, Misfit<'t>>
    ensures { Gives (λ said. said) result (places.begins names.now text.now) }
{
    let name = name_in(Wanted::Function, text)?;
    match names.number(NameKind::Function, name) {
        Some(function) => Ok(Said::Opens(function)),
        None => Err(fault_at(
            TextKind::UnknownName,
            skip(Class::Blank, text),
            Wanted::Function,
        )),
    }
}

/// The call of a line, which is a step of a script.
#[tactic(auto, unfolding(crate::specs::Places::asks))]
fn asks<'t>(names: &Names, text: &'t [u8]) -> Result<Said<'t>, Misfit<'t>>
    ensures { Gives (λ said. said) result (places.asks names.now text.now) }
{
    if !all_of(Class::Line, text) {
        let rest = skip(Class::Line, text);
        return Err(fault_at(TextKind::BadByte, rest, Wanted::LineByte));
    }
    let text = skip(Class::Blank, text);
    let (word, rest) = split_prefix(Class::Word, text);
    let Some(call) = find_call(word) else {
        return Err(fault_at(TextKind::BadWord, text, Wanted::Step));
    };
    match call_after(names, call, rest) {
        Ok(call) => Ok(Said::Asks(call)),
        Err(found) => Err(fault_at(found.kind, found.rest, Wanted::Call(found.wanted))),
    }
}

/// The code whose name is this word, if any.
#[tactic(auto, unfolding(crate::specs::Lines::code_in))]
fn code_in(word: &[u8]) -> Option<Code>
    ensures { result ≡ spec.code_in word.now }
{
    Code::ALL
        .iter()
        .copied()
        .find(|code| code.name().as_bytes() == word)
}

/// The number of a value. `WrongArguments` where the text is no number, `NumberOutOfRange` where it has a leading zero or more than 64 bits.
#[tactic(auto, unfolding(crate::specs::Lines::value_in))]
fn value_in(text: &[u8]) -> Result<i64, TextKind>
    ensures { result ≡ spec.value_in text.now }
{
    let number = spelled_number(text).ok_or(TextKind::WrongArguments)?;
    if number.zero_led {
        return Err(TextKind::NumberOutOfRange);
    }
    let magnitude = number.magnitude.ok_or(TextKind::NumberOutOfRange)?;
    signed64(number.negative, magnitude).ok_or(TextKind::NumberOutOfRange)
}

/// The answers of a word that has no value after it: `refused`, or a code.
#[tactic(auto, unfolding(crate::specs::Lines::pattern_of))]
fn pattern_of(word: &[u8]) -> Result<Pattern, TextKind>
    ensures { result ≡ spec.pattern_of word.now }
{
    if !is_identifier(word) {
        return Err(TextKind::WrongArguments);
    }
    if word == b"refused".as_slice() {
        return Ok(Pattern::Refused);
    }
    let code = code_in(word).ok_or(TextKind::UnknownName)?;
    Ok(Pattern::Coded(code))
}

/// The code that a word names which has a value after it.
#[tactic(auto, unfolding(crate::specs::Places::coded))]
fn coded(word: &[u8]) -> Result<Code, TextKind>
    ensures { result ≡ places.coded word.now }
{
    if !is_identifier(word) {
        return Err(TextKind::WrongArguments);
    }
    code_in(word).ok_or(TextKind::UnknownName)
}

/// The answers of the code that begins a text, with the value that begins another one.
#[tactic(auto, unfolding(crate::specs::Places::valued))]
fn valued<'t>(text: &'t [u8], value: &'t [u8]) -> Result<Pattern, Misfit<'t>>
    ensures { Gives (λ answer. answer) result (places.valued text.now value.now) }
{
    let text = skip(Class::Blank, text);
    let (word, _rest) = split_prefix(Class::Word, text);
    let code = match coded(word) {
        Ok(code) => code,
        Err(kind) => return Err(fault_at(kind, text, Wanted::Answered)),
    };
    let (number, _rest) = split_prefix(Class::Argument, value);
    match value_in(number) {
        Ok(number) => Ok(Pattern::Valued(code, number)),
        Err(kind) => Err(fault_at(kind, value, Wanted::AnsweredValue)),
    }
}

/// Whether a word begins another line of a script, so that no label has it.
fn is_taken(word: &[u8]) -> bool
    ensures { result ≡ spec.is_taken word.now }
{
    word == b"script".as_slice()
        || word == b"end".as_slice()
        || word == b"ret_hdr".as_slice()
        || word == b"on".as_slice()
        || word == b"goto".as_slice()
}

/// The name of a label in a text that has nothing else but blanks around it.
#[tactic(auto, unfolding(crate::specs::Places::label_in))]
fn label_in<'t>(text: &'t [u8]) -> Result<&'t [u8], Misfit<'t>>
    ensures { Gives (λ t. t.now) result (places.label_in text.now) }
{
    let name = name_in(Wanted::LabelName, text)?;
    if !is_taken(name) {
        return Ok(name);
    }
    let rest = skip(Class::Blank, text);
    Err(fault_at(TextKind::UnknownName, rest, Wanted::LabelName))
}

/// What follows the answers of a line: `goto` and the name of a label.
#[tactic(auto, unfolding(crate::specs::Places::goal_in))]
fn goal_in<'t>(text: &'t [u8]) -> Result<&'t [u8], Misfit<'t>>
    ensures { Gives (λ t. t.now) result (places.goal_in text.now) }
{
    let text = skip(Class::Blank, text);
    let (word, rest) = split_prefix(Class::Word, text);
    if word == b"goto".as_slice() {
        label_in(rest)
    } else {
        Err(fault_at(TextKind::WrongArguments, text, Wanted::Goal))
    }
}

/// What follows `on`: answers, and the label at which the script goes on where the call before answered so.
#[tactic(auto, unfolding(crate::specs::Places::turn_in))]
fn turn_in<'t>(text: &'t [u8]) -> Result<Said<'t>, Misfit<'t>>
    ensures { Gives (λ said. said) result (places.turn_in text.now) }
{
    let first = skip(Class::Blank, text);
    let (word, rest) = split_prefix(Class::Word, first);
    match following(b':', rest) {
        None => match pattern_of(word) {
            Ok(answer) => Ok(Said::Jumps(answer, Name::new(goal_in(rest)?))),
            Err(kind) => Err(fault_at(kind, first, Wanted::Answered)),
        },
        Some(value) => {
            let answer = valued(text, value)?;
            let rest = skip(Class::Argument, value);
            Ok(Said::Jumps(answer, Name::new(goal_in(rest)?)))
        }
    }
}

/// A label by its line, with what follows its colon.
#[tactic(auto, unfolding(crate::specs::Places::stands))]
fn stands<'t>(text: &'t [u8], rest: &'t [u8]) -> Result<Said<'t>, Misfit<'t>>
    ensures { Gives (λ said. said) result (places.stands text.now rest.now) }
{
    let text = skip(Class::Blank, text);
    let (name, _rest) = split_prefix(Class::Word, text);
    if !is_identifier(name) {
        return Err(fault_at(TextKind::WrongArguments, text, Wanted::LabelName));
    }
    ending(rest)?;
    Ok(Said::Stands(Name::new(name)))
}

/// What a line that is not skipped says, by its first word, wherever it stands.
#[tactic(auto, unfolding(crate::specs::Places::said_by))]
fn said_by<'t>(names: &Names, text: &'t [u8]) -> Result<Said<'t>, Misfit<'t>>
    ensures { Gives (λ said. said) result (places.said_by names.now text.now) }
{
    let (word, rest) = split_prefix(Class::Word, skip(Class::Blank, text));
    if word == b"script".as_slice() {
        return begins(names, rest);
    }
    if word == b"end".as_slice() {
        ending(rest)?;
        return Ok(Said::Closes);
    }
    if word == b"on".as_slice() {
        return turn_in(rest);
    }
    if word == b"goto".as_slice() {
        return Ok(Said::Jumps(Pattern::Any, Name::new(label_in(rest)?)));
    }
    match following(b':', skip(Class::Blank, rest)) {
        Some(rest) => stands(text, rest),
        None => asks(names, text),
    }
}

/// Whether the first word of a line may not stand there, inside a script or outside of one. `ret_hdr` is no step.
fn is_misplaced(inside: bool, line: &[u8]) -> bool
    ensures { result ≡ refusals.is_misplaced inside (first_word line.now) }
{
    let (word, _rest) = split_prefix(Class::Word, skip(Class::Blank, line));
    if word == b"script".as_slice() {
        inside
    } else {
        !inside || word == b"ret_hdr".as_slice()
    }
}

/// What is wanted in place of a first word that may not stand there.
fn wanted_for(word: &[u8]) -> Wanted
    ensures { result ≡ refusals.wanted_for word.now }
{
    if word == b"script".as_slice() {
        Wanted::ScriptEnd
    } else if word == b"on".as_slice() || word == b"goto".as_slice() {
        Wanted::JumpPlace
    } else {
        Wanted::Step
    }
}

/// A line whose first word may not stand there.
fn misplaced<'t>(line: &'t [u8]) -> Misfit<'t>
    ensures { place_of result ≡ refusals.misplaced line.now }
{
    let text = skip(Class::Blank, line);
    let (word, _rest) = split_prefix(Class::Word, text);
    fault_at(TextKind::BadWord, text, wanted_for(word))
}

/// Whether a byte may stand in a line of a script text: one of an event's line, or a colon.
fn may_stand(byte: u8) -> bool
    ensures { result ≡ spec.may_stand byte }
{
    Class::Line.has(byte) || byte == b':'
}

/// What begins with the first byte that may not stand in a line.
fn after_line(line: &[u8]) -> &[u8]
    ensures { result.now ≡ refusals.after_line line.now }
{
    let end = line.iter().take_while(|byte| may_stand(**byte)).count();
    line.split_at(end).1
}

/// A line that says so, and is refused after those before it.
fn unfit<'t>(line: &'t [u8], said: Said<'t>) -> Misfit<'t>
    ensures { place_of result ≡ refusals.unfit line.now said.entry }
{
    let text = skip(Class::Blank, line);
    match said {
        Said::Opens(_) => {
            let rest = skip(Class::Blank, skip(Class::Word, text));
            fault_at(TextKind::WrongArguments, rest, Wanted::Function)
        }
        Said::Stands(_) => fault_at(TextKind::WrongArguments, text, Wanted::NewLabel),
        Said::Closes => fault_at(TextKind::UnknownName, text, Wanted::Labels),
        Said::Asks(_) | Said::Jumps(_, _) => misplaced(line),
    }
}

/// Where a line that is refused with this fault is at fault, and what is wanted there. That the line has the fault is taken from the caller; of one that
/// is one too many nothing is wanted.
#[tactic(auto, unfolding(crate::specs::Refusals::place))]
pub fn line_misfit<'t>(names: &Names, kind: TextKind, line: &'t [u8]) -> Misfit<'t>
    ensures { place_of result ≡ refusals.place names.now kind line.now }
{
    let line = without_return(line);
    if !are_line(line) {
        return fault_at(TextKind::BadByte, after_line(line), Wanted::LineByte);
    }
    if kind == TextKind::BadWord {
        return misplaced(line);
    }
    match said_by(names, line) {
        Ok(said) => unfit(line, said),
        Err(misfit) => misfit,
    }
}

/// Whether each byte may stand in a line of a script text.
fn are_line(line: &[u8]) -> bool
    ensures { result ≡ spec.are_line line.now }
{
    line.iter().all(|byte| may_stand(*byte))
}

/// What a whole line without its line feed says, if it says anything, inside a script or outside of one.
#[tactic(auto, unfolding(crate::specs::Lines::said_in))]
pub fn said_in<'t>(
    names: &Names,
    inside: bool,
    line: &'t [u8],
) -> Result<Option<Said<'t>>, TextKind>
    ensures { result ≡ spec.said_in names.now inside line.now }
{
    let line = without_return(line);
    if is_skipped(line) {
        return Ok(None);
    }
    if !are_line(line) {
        return Err(TextKind::BadByte);
    }
    if is_misplaced(inside, line) {
        return Err(TextKind::BadWord);
    }
    match said_by(names, line) {
        Ok(said) => Ok(Some(said)),
        Err(misfit) => Err(misfit.kind),
    }
}
