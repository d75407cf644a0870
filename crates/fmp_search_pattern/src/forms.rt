//! Where in the line of a record a word may stand.
ghost use Rattle.std.specs.Prelude.{◌≡◌, map};
ghost use Rattle.std.specs.Option.{option_copied};
ghost use Rattle.fmp_bytes.specs.Bytes.{cut_at};
ghost use Rattle.fmp_search_pattern.specs.Forms as spec;

use crate::is_code;
use crate::spot::Spot;
use crate::words::{has_star, has_word, is_processor};
use fmp_bytes::{are_digits, cut, following, is_zero_led, magnitude};
use fmp_calls::{find_call, form};
use fmp_codes::{ArgumentKind, NameKind, ObjectKind};
use fmp_names::Names;

/// Words that stand in a line as they are, and where.
pub(crate) const WORD_SPOTS: [(&[u8], Spot); 11] = [
    (b"-", Spot::Nobody),
    (b"tick", Spot::Timer),
    (b"ipi", Spot::Timer),
    (b"ret_hdr", Spot::Return),
    (b"wait", Spot::Answer),
    (b"spin", Spot::Answer),
    (b"gone", Spot::Answer),
    (b"idle", Spot::Answer),
    (b"held", Spot::Taken),
    (b"taken", Spot::Taken),
    (b"none", Spot::Taken),
];

/// What stands before a `=`, and where.
pub(crate) const KEY_SPOTS: [(&[u8], Spot); 4] = [
    (b"rel", Spot::Release),
    (b"lost", Spot::Lost),
    (b"run", Spot::Run),
    (b"ipi", Spot::Requests),
];

/// The calls that tell a value wherever they answer `E_OK`. No other call does.
pub const TELLING: [&[u8]; 20] = [
    b"can_act",
    b"get_pri",
    b"can_wup",
    b"wai_flg",
    b"twai_flg",
    b"pol_flg",
    b"rcv_dtq",
    b"trcv_dtq",
    b"prcv_dtq",
    b"get_mpf",
    b"tget_mpf",
    b"pget_mpf",
    b"get_tid",
    b"iget_tid",
    b"get_pid",
    b"iget_pid",
    b"sns_ctx",
    b"sns_loc",
    b"sns_dsp",
    b"sns_dpn",
];

/// The spot of the first of these rows that has the word.
fn spot_in(rows: &[(&[u8], Spot)], word: &[u8]) -> Option<Spot>
    ensures { result ≡ spec.spot_in (map (λ row. (row.0.now, row.1)) rows.now) word.now }
{
    match rows {
        [] => None,
        [(other, spot), ..] if *other == word => Some(*spot),
        [_, rows @ ..] => spot_in(rows, word),
    }
}

/// Where an answer stands: a code, or `E_OK` with a value.
fn answer_spot(word: &[u8]) -> Option<Spot>
    ensures { result ≡ spec.answer_spot word.now }
{
    let (code, value) = cut(b':', word);
    match value {
        Some(value) if code == b"E_OK".as_slice() && is_number(value) => Some(Spot::Report),
        Some(_) => None,
        None if code == b"E_OK".as_slice() => Some(Spot::Accepted),
        None if is_code(code) => Some(Spot::Answer),
        None => None,
    }
}

/// Whether a word is a number in decimal without a zero that it does not need.
fn is_numeral(word: &[u8]) -> bool
    ensures { result ≡ spec.is_numeral word.now }
{
    are_digits(10, word) && !is_zero_led(word)
}

/// Whether digits that stand after a `-` are a number below zero.
fn is_below_zero(digits: &[u8]) -> bool
    ensures { result ≡ spec.is_below_zero digits.now }
{
    is_numeral(digits) && digits != b"0".as_slice()
}

/// Whether a word is a number in decimal as a record has it, after a `-` or not.
fn is_number(word: &[u8]) -> bool
    ensures { result ≡ spec.is_number word.now }
{
    match following(b'-', word) {
        Some(digits) => is_below_zero(digits),
        None => is_numeral(word),
    }
}

/// Where a word stands that is one of a line as it is, or an answer.
fn plain_spot(word: &[u8]) -> Option<Spot>
    ensures { result ≡ spec.plain_spot word.now }
{
    match spot_in(&WORD_SPOTS, word) {
        Some(spot) => Some(spot),
        None => answer_spot(word),
    }
}

/// Whether an object of a kind has a name.
fn is_one(names: &Names, kind: ObjectKind, name: &[u8]) -> bool
    ensures { result ≡ spec.is_one names.now kind name.now }
{
    names.number(NameKind::Object(kind), name).is_some()
}

/// Where the name of an object stands.
fn object_spot(names: &Names, name: &[u8]) -> Spot
    ensures { result ≡ spec.object_spot names.now name.now }
{
    if is_task(names, name) {
        Spot::Task
    } else if is_one(names, ObjectKind::Cyclic, name) || is_one(names, ObjectKind::Alarm, name) {
        Spot::Handler
    } else {
        Spot::Object
    }
}

/// Where a name stands. One that is also a word of a record may be anywhere.
fn name_spot(names: &Names, name: &[u8]) -> Spot
    ensures { result ≡ spec.name_spot names.now name.now }
{
    if plain_spot(name).is_some() {
        Spot::Anything
    } else {
        object_spot(names, name)
    }
}

/// Whether a word is the name of a task.
fn is_task(names: &Names, word: &[u8]) -> bool
    ensures { result ≡ spec.is_task names.now word.now }
{
    is_one(names, ObjectKind::Task, word)
}

/// Whether a byte is the digit of a processor, above another digit.
fn is_request_above(names: &Names, least: u8, digit: u8) -> bool
    ensures { result ≡ spec.is_request_above names.now least digit }
{
    least < digit && is_processor(names, &[b'P', digit])
}

/// Whether what is left after a digit, or after a comma, is digits of processors, each above the one before it, with commas between them.
fn is_request_row(names: &Names, least: u8, after_digit: bool, left: &[u8]) -> bool
    ensures { result ≡ spec.is_request_row names.now least after_digit left.now }
{
    match left {
        [] => after_digit,
        [byte, rest @ ..] => {
            if after_digit {
                *byte == b',' && is_request_row(names, least, false, rest)
            } else {
                is_request_above(names, least, *byte) && is_request_row(names, *byte, true, rest)
            }
        }
    }
}

/// Whether a value is a task's name and, after a colon, what its call answers.
fn is_release(names: &Names, value: &[u8]) -> bool
    ensures { result ≡ spec.is_release names.now (cut_at 58 value.now) }
{
    match cut(b':', value) {
        (task, Some(answer)) => is_task(names, task) && answer_spot(answer).is_some(),
        _ => false,
    }
}

/// Whether what stands after a `=` may stand there.
fn is_value(names: &Names, spot: Spot, value: &[u8]) -> bool
    ensures { result ≡ spec.is_value names.now spot value.now }
{
    match spot {
        Spot::Release => is_release(names, value),
        Spot::Requests => is_request_row(names, 0, false, value),
        _ => is_number(value),
    }
}

/// Where `run=` stands with who runs after an event: a task, or `idle`.
fn run_spot(names: &Names, value: &[u8]) -> Option<Spot>
    ensures { result ≡ spec.run_spot names.now value.now }
{
    if is_task(names, value) {
        Some(Spot::Run)
    } else if value == b"idle".as_slice() {
        Some(Spot::RunIdle)
    } else {
        None
    }
}

/// Where a word with a `=` stands.
fn key_spot(names: &Names, key: &[u8], value: &[u8]) -> Option<Spot>
    ensures { result ≡ spec.key_spot names.now key.now value.now }
{
    match spot_in(&KEY_SPOTS, key) {
        Some(Spot::Run) => run_spot(names, value),
        Some(spot) if is_value(names, spot, value) => Some(spot),
        _ => None,
    }
}

/// What stands before a byte that ends a word, and nowhere else in it.
fn ended(byte: u8, word: &[u8]) -> Option<&[u8]>
    ensures { option_copied result ≡ spec.ended byte word.now }
{
    match cut(byte, word) {
        (front, Some([])) => Some(front),
        _ => None,
    }
}

/// Whether no object of a kind has this number, so that a line has the number itself, and not a name.
fn is_unnamed(names: &Names, kind: ObjectKind, digits: &[u8]) -> bool
    ensures { result ≡ spec.is_unnamed names.now kind digits.now }
{
    match magnitude(10, digits) {
        Some(number) => names
            .name(NameKind::Object(kind), number as usize)
            .is_none(),
        None => true,
    }
}

/// Whether a word is a number that no object of a kind has.
fn is_stranger(names: &Names, kind: ObjectKind, word: &[u8]) -> bool
    ensures { result ≡ spec.is_stranger names.now kind word.now }
{
    match following(b'-', word) {
        Some(digits) => is_below_zero(digits),
        None => is_numeral(word) && is_unnamed(names, kind, word),
    }
}

/// Whether a word may stand in a call where a task is meant: `TSK_SELF`, a name, or the number of no task. The caller is never a 0.
fn is_task_argument(names: &Names, word: &[u8]) -> bool
    ensures { result ≡ spec.is_first names.now (ArgumentKind.Object ObjectKind.Task) word.now }
{
    word == b"TSK_SELF".as_slice()
        || is_task(names, word)
        || (word != b"0".as_slice() && is_stranger(names, ObjectKind::Task, word))
}

/// Whether an argument may stand in a place of a kind: an object by its name where it has one, or a number.
fn is_first(names: &Names, kind: ArgumentKind, argument: &[u8]) -> bool
    ensures { result ≡ spec.is_first names.now kind argument.now }
{
    match kind {
        ArgumentKind::Object(ObjectKind::Task) => is_task_argument(names, argument),
        ArgumentKind::Object(kind) => {
            is_one(names, kind, argument) || is_stranger(names, kind, argument)
        }
        _ => is_number(argument),
    }
}

/// Whether an argument is one, where there is one.
fn has_first(names: &Names, kind: ArgumentKind, argument: Option<&[u8]>) -> bool
    ensures { result ≡ spec.has_first names.now kind (option_copied argument.entry) }
{
    match argument {
        Some(argument) => is_first(names, kind, argument),
        None => false,
    }
}

/// Where a call stands with what comes after its `(` in a word, by the kinds of its arguments.
fn arguments_spot(
    names: &Names,
    kinds: &[ArgumentKind],
    telling: bool,
    following: &[u8],
) -> Option<Spot>
    ensures { result ≡ spec.arguments_spot names.now kinds.now telling following.now }
{
    match kinds {
        [] if following == b")".as_slice() => Some(called(telling)),
        [kind] if has_first(names, *kind, ended(b')', following)) => Some(called(telling)),
        [kind, _, ..] if has_first(names, *kind, ended(b',', following)) => Some(begun(telling)),
        _ => None,
    }
}

/// Where a call with all its arguments stands.
fn called(telling: bool) -> Spot
    ensures { result ≡ spec.called telling }
{
    if telling {
        Spot::CalledReported
    } else {
        Spot::Called
    }
}

/// Where a call stands whose arguments go on.
fn begun(telling: bool) -> Spot
    ensures { result ≡ spec.begun telling }
{
    if telling {
        Spot::BegunReported
    } else {
        Spot::Begun
    }
}

/// Where a call stands that has this name, with what comes after its `(` in a word.
fn call_spot(names: &Names, name: &[u8], following: &[u8]) -> Option<Spot>
    ensures { result ≡ spec.call_spot names.now name.now following.now }
{
    let form = form(find_call(name)?);
    if form.bare {
        None
    } else {
        arguments_spot(names, form.kinds, has_word(&TELLING, name), following)
    }
}

/// Whether a word may be an argument after the first one: a number or a mode.
fn is_further(argument: Option<&[u8]>) -> bool
    ensures { result ≡ spec.is_further (option_copied argument.entry) }
{
    match argument {
        Some(argument) => {
            argument == b"TWF_ANDW".as_slice()
                || argument == b"TWF_ORW".as_slice()
                || is_number(argument)
        }
        None => false,
    }
}

/// Where an argument after the first one stands.
fn argument_spot(word: &[u8]) -> Option<Spot>
    ensures { result ≡ spec.argument_spot word.now }
{
    if is_further(ended(b',', word)) {
        Some(Spot::Argument)
    } else if is_further(ended(b')', word)) {
        Some(Spot::LastArgument)
    } else {
        None
    }
}

/// Where a word with a `=` or a `(` stands, or an argument.
fn made_spot(names: &Names, word: &[u8]) -> Option<Spot>
    ensures { result ≡ spec.made_spot names.now word.now }
{
    match (cut(b'=', word), cut(b'(', word)) {
        ((key, Some(value)), _) => key_spot(names, key, value),
        (_, (name, Some(following))) => call_spot(names, name, following),
        _ => argument_spot(word),
    }
}

/// Where in the line of a record a word may stand. None where it stands in none, and in no number before `times`.
#[tactic(auto, unfolding(crate::specs::Forms::spot_of))]
pub fn spot_of(names: &Names, word: &[u8]) -> Option<Spot>
    ensures { result ≡ spec.spot_of names.now word.now }
{
    if has_star(word) {
        return Some(Spot::Anything);
    }
    if are_digits(10, word) {
        return Some(Spot::Number);
    }
    if is_processor(names, word) {
        return Some(Spot::Processor);
    }
    if names.contains_object(word) {
        return Some(name_spot(names, word));
    }
    match plain_spot(word) {
        Some(spot) => Some(spot),
        None => made_spot(names, word),
    }
}
