//! What is told of the word at fault, beside what is wanted in its place.
ghost use Rattle.std.specs.Prelude.{◌≡◌, [], ◌∷◌, None, IfOk};
ghost use Rattle.std.specs.Option.{option_copied};
ghost use Rattle.fmp_codes.specs.declared.kinds.NameKind.TheVariants.{Object};
ghost use Rattle.fmp_cli_hints.specs.Hints as spec;
ghost use Rattle.fmp_cli_help.specs.Near.{nearest};
ghost use Rattle.fmp_names.specs.Names.{names_of};

use crate::rows::{CALL_ROWS, FIELD_ROWS, FIRST_ROWS, JUMP_ROWS, foreign_words, report_of};
use crate::wanted::Wanted;
use fmp_bytes::{Class, spelled_number, split_prefix};
use fmp_calls::find_call;
use fmp_cli_help::{is_left_out, near_answer, near_call, nearer, put_left_out};
use fmp_codes::{ArgumentKind, Code, NameKind, ObjectKind};
use fmp_names::is_processor_word;
use fmp_out::Text;
use fmp_text::{Names, is_name, value_at};
use fmp_text_scripts::Wanted as ScriptWanted;
use itoa::Buffer;
use std::alloc::{AllocError, Global};

/// Adds the name that may be meant, if there is one.
pub fn put_near(out: &mut Text, name: Option<&[u8]>) {
    if let Some(name) = name {
        out.put(b"  near: ");
        out.put(name);
        out.put(b"\n");
    }
}

/// Whether a word is a processor or the name of an object, as it stands before an event in a trace.
fn is_maker(names: &Names, word: &[u8]) -> bool {
    is_processor_word(word) || names.contains_object(word)
}

/// What is told of one where a line has none, after it.
fn maker_words(wanted: Wanted) -> &'static [u8] {
    match wanted {
        Wanted::Script(_) => {
            b" is to be left out: a step of a script is the call alone, as `act_tsk(T1)`, and who runs the script makes it\n"
        }
        _ =>
            b" is one word too many: an event is written as `P1 act_tsk(T1)`, and a line of a trace as `1 P1 T1 act_tsk(T2) E_OK`\n",
    }
}

/// Adds a word with its words after it.
fn put_reported(out: &mut Text, word: &[u8], words: &[u8]) {
    out.put(b"  ");
    out.put(word);
    out.put(words);
}

/// Adds the nearest call to a word that is none, or that it would be a label.
fn put_near_call(
    alloc: Global,
    out: &mut Text,
    word: &[u8],
    may_be_label: bool,
) -> Result<(), AllocError> {
    let near = near_call(alloc, word)?;
    put_near(out, near);
    if near.is_none() && may_be_label {
        put_reported(out, word, b": would be a label, with its colon\n");
    }
    Ok(())
}

/// Adds what the row of a word that is no call says, or what is near.
fn put_other_hint(
    alloc: Global,
    out: &mut Text,
    word: &[u8],
    may_be_label: bool,
) -> Result<(), AllocError> {
    let row = report_of(&CALL_ROWS, word);
    out.put(row);
    if row.is_empty() && is_name(word) && find_call(word).is_none() {
        put_near_call(alloc, out, word, may_be_label)?;
    }
    Ok(())
}

/// What is told of a blank in the place of a word.
const BLANK: &[u8] = b"  One blank stands between two words of a trace.\n";

/// Adds what is told of a text in the place of a call: that a call is left out, that a word before it is to be left out, that a blank stands
/// there, or what is near.
fn put_call_hint(
    alloc: Global,
    out: &mut Text,
    names: &Names,
    wanted: Wanted,
    text: &[u8],
) -> Result<(), AllocError> {
    let (word, rest) = split_prefix(Class::Word, text);
    if is_left_out(word) {
        out.put(b"  ");
        put_left_out(out, word);
    } else if is_maker(names, word) {
        put_reported(out, word, maker_words(wanted));
    } else if text.starts_with(b" ") {
        out.put(BLANK);
    } else {
        let may_be_label = matches!(wanted, Wanted::Script(_)) && rest.is_empty();
        put_other_hint(alloc, out, word, may_be_label)?;
    }
    Ok(())
}

/// The nearest of the objects of a kind, and of the best name before them.
pub(crate) fn near_object<'a>(
    alloc: Global,
    names: &'a Names,
    kind: ObjectKind,
    word: &[u8],
    before: Option<&'a [u8]>,
) -> Result<Option<&'a [u8]>, AllocError>
    ensures { IfOk result (λ found. option_copied found ≡ nearest word.now (option_copied before.entry) (names_of names.now (Object kind))) }
{
    names.validity();
    let mut best = before;
    let mut index = 0;
    while let Some(name) = names.name(NameKind::Object(kind), index + 1) {
        best = nearer(alloc, word, best, name)?;
        index += 1;
    }
    Ok(best)
}

/// The nearest object of an argument's kind, where that is a kind of objects.
fn near_named<'a>(
    alloc: Global,
    names: &'a Names,
    kind: ArgumentKind,
    word: &[u8],
) -> Result<Option<&'a [u8]>, AllocError>
    ensures { IfOk result (λ found. option_copied found ≡ nearest word.now None (spec.objects_of names.now kind)) }
{
    match kind {
        ArgumentKind::Object(kind) => near_object(alloc, names, kind, word, None),
        _ => Ok(None),
    }
}

/// The nearer of two constants and the best name before them.
fn near_both<'a>(
    alloc: Global,
    word: &[u8],
    best: Option<&'a [u8]>,
    first: &'static [u8],
    second: &'static [u8],
) -> Result<Option<&'a [u8]>, AllocError>
    ensures { IfOk result (λ found. option_copied found ≡ nearest word.now (option_copied best.entry) (first.now ∷ second.now ∷ [])) }
{
    let best = nearer(alloc, word, best, first)?;
    nearer(alloc, word, best, second)
}

/// The nearest of the constants of a kind and the best name before them.
fn near_constant<'a>(
    alloc: Global,
    kind: ArgumentKind,
    word: &[u8],
    best: Option<&'a [u8]>,
) -> Result<Option<&'a [u8]>, AllocError>
    ensures { IfOk result (λ found. option_copied found ≡ nearest word.now (option_copied best.entry) (spec.constants_of kind)) }
{
    match kind {
        ArgumentKind::Object(ObjectKind::Task) => nearer(alloc, word, best, b"TSK_SELF"),
        ArgumentKind::Priority => near_both(alloc, word, best, b"TPRI_SELF", b"TPRI_INI"),
        ArgumentKind::Processor => nearer(alloc, word, best, b"TPRC_INI"),
        ArgumentKind::Timeout => near_both(alloc, word, best, b"TMO_POL", b"TMO_FEVR"),
        ArgumentKind::Mode => near_both(alloc, word, best, b"TWF_ANDW", b"TWF_ORW"),
        _ => Ok(best),
    }
}

/// The nearest object or constant.
#[tactic(auto, unfolding(crate::specs::Hints::near_argument))]
fn near_argument<'a>(
    alloc: Global,
    names: &'a Names,
    kind: ArgumentKind,
    word: &[u8],
) -> Result<Option<&'a [u8]>, AllocError>
    ensures { IfOk result (λ found. option_copied found ≡ spec.near_argument names.now kind word.now) }
{
    let best = near_named(alloc, names, kind, word)?;
    near_constant(alloc, kind, word, best)
}

/// Adds that a number has no leading zero, where the word is one that has.
fn put_zero_hint(out: &mut Text, word: &[u8]) {
    match spelled_number(word) {
        Some(number) if number.zero_led => {
            out.put(b"  a number has no leading zero\n");
        }
        _ => {}
    }
}

/// What is told of a name that the configuration defines, after it.
const DEFINED: &[u8] = b" is a `#define` of the configuration, which is read there alone";

/// Adds the number to write in place of a name that stands for it, where that may stand there, and the end of the line.
fn put_number_to_write(out: &mut Text, fits: bool, digits: &[u8]) {
    if fits {
        out.put(b": write ");
        out.put(digits);
    }
    out.put(b"\n");
}

/// Adds that a name in the place of an argument of this kind is one that the configuration defines to stand for a number.
fn put_defined_hint(out: &mut Text, names: &Names, kind: ArgumentKind, word: &[u8], number: u32) {
    let mut buffer = Buffer::new();
    let digits = buffer.format(number).as_bytes();
    out.put(b"  ");
    out.put(word);
    out.put(DEFINED);
    put_number_to_write(out, value_at(names, kind, digits).is_ok(), digits);
}

/// Adds what is told of a name in the place of an argument of this kind: that the configuration defines it, or the nearest that may be
/// meant.
fn put_name_hint(
    alloc: Global,
    out: &mut Text,
    names: &Names,
    kind: ArgumentKind,
    word: &[u8],
) -> Result<(), AllocError> {
    if let Some(number) = names.defined(word) {
        put_defined_hint(out, names, kind, word, number);
    } else if matches!(kind, ArgumentKind::Object(_)) && names.contains_object(word) {
        put_reported(out, word, b" is of another kind\n");
    } else if is_processor_word(word) {
        out.put(b"  A processor is written as its number here: 1 for P1.\n");
    } else {
        put_near(out, near_argument(alloc, names, kind, word)?);
    }
    Ok(())
}

/// Adds what is told of a word in the place of an argument of this kind.
fn put_argument_hint(
    alloc: Global,
    out: &mut Text,
    names: &Names,
    kind: ArgumentKind,
    word: &[u8],
) -> Result<(), AllocError> {
    if is_name(word) {
        return put_name_hint(alloc, out, names, kind, word);
    }
    put_zero_hint(out, word);
    Ok(())
}

/// What is told of an object in the place of a function, after its name.
const OBJECT: &[u8] =
    b" is an object. A script is named by the function that stands in the object's statement.\n";

/// Adds that an object stands in the place of a function.
fn put_function_hint(out: &mut Text, names: &Names, word: &[u8]) {
    if names.contains_object(word) {
        out.put(b"  ");
        out.put(word);
        out.put(OBJECT);
    }
}

/// Whether a word is the name of a code.
fn is_code(word: &[u8]) -> bool {
    for code in &Code::ALL {
        if code.name().as_bytes() == word {
            return true;
        }
    }
    false
}

/// Adds the code that may be meant by a word, if one is near.
fn put_code_hint(alloc: Global, out: &mut Text, word: &[u8]) -> Result<(), AllocError> {
    match near_answer(alloc, word)? {
        Some(name) if is_code(name) => put_near(out, Some(name)),
        _ => {}
    }
    Ok(())
}

/// Whether another answer stands where `goto` has to.
fn is_other_answer(text: &[u8], word: &[u8]) -> bool {
    text.starts_with(b",") || word == b"or".as_slice() || is_code(word)
}

/// What is told of more than one answer.
const ONE_ANSWER: &[u8] =
    b"  One answer stands in a line: write `on E_OK goto a`, and below it `on E_TMOUT goto a`.\n";

/// Whether a word begins an event.
fn is_event(word: &[u8]) -> bool {
    word == b"tick".as_slice() || word == b"ipi".as_slice() || find_call(word).is_some()
}

/// What is told of a trace that does not say who runs.
const RUNNER: &[u8] = b"  `fmpsim check --partial` reads a trace that leaves it out.\n";

/// What is told of a comment in a trace.
const NO_COMMENT: &[u8] = b"  A trace has no comments: leave the line out.\n";

/// What is told of a `*` in place of an answer.
const NO_ANSWER: &[u8] =
    b"  `*` stands for a value alone: `?` is an answer of which nothing is told\n";

/// Adds what is told of the word that begins the text at a place, where this is wanted.
pub(crate) fn put_hint(
    alloc: Global,
    out: &mut Text,
    names: &Names,
    wanted: Wanted,
    text: &[u8],
) -> Result<(), AllocError> {
    let (word, _rest) = split_prefix(Class::Word, text);
    match wanted {
        Wanted::Happening | Wanted::Script(ScriptWanted::Step) => {
            put_call_hint(alloc, out, names, wanted, text)?;
        }
        Wanted::Jumps => out.put(report_of(&JUMP_ROWS, word)),
        Wanted::Runner if is_event(word) => out.put(RUNNER),
        Wanted::LineNumber(_) | Wanted::Processor if text.starts_with(b"#") => out.put(NO_COMMENT),
        Wanted::Processor => out.put(report_of(&FIRST_ROWS, word)),
        Wanted::PartAnswer if text.starts_with(b"*") => out.put(NO_ANSWER),
        Wanted::PartTail => out.put(report_of(&FIELD_ROWS, word)),
        Wanted::Argument(_, kind) => {
            let (word, _rest) = split_prefix(Class::Argument, text);
            put_argument_hint(alloc, out, names, kind, word)?;
        }
        Wanted::Script(ScriptWanted::Function) => put_function_hint(out, names, word),
        Wanted::Script(ScriptWanted::Answered) => put_code_hint(alloc, out, word)?,
        Wanted::Script(ScriptWanted::Goal) if is_other_answer(text, word) => out.put(ONE_ANSWER),
        Wanted::LineByte | Wanted::PrintedByte => out.put(foreign_words(text)),
        _ => {}
    }
    Ok(())
}
