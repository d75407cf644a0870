//! The faults of texts, and what to do about them.
ghost use Rattle.std.specs.Prelude.{◌≡◌, find};
ghost use Rattle.std.specs.Str.{bytes_eq};
ghost use Rattle.fmp_config_statements.specs.Faults as config;
ghost use Rattle.fmp_text.specs.Faults as text;

use fmp_config_statements::ConfigKind;
use fmp_out::Text;
use fmp_text::TextKind;

/// The faults of a configuration.
pub(crate) const CONFIG_KINDS: [ConfigKind; 13] = [
    ConfigKind::Syntax,
    ConfigKind::CutShort,
    ConfigKind::Unsupported,
    ConfigKind::OutsideClass,
    ConfigKind::UnknownClass,
    ConfigKind::NameTaken,
    ConfigKind::OutOfRange,
    ConfigKind::BadAttribute,
    ConfigKind::TooMany,
    ConfigKind::NoProcessors,
    ConfigKind::BadClass,
    ConfigKind::Memory,
    ConfigKind::ForeignHandler,
];

/// The faults of events, scripts and traces.
pub(crate) const TEXT_KINDS: [TextKind; 8] = [
    TextKind::BadByte,
    TextKind::BadWord,
    TextKind::UnknownName,
    TextKind::WrongArguments,
    TextKind::NumberOutOfRange,
    TextKind::CutShort,
    TextKind::TooMany,
    TextKind::Memory,
];

/// What to do about a fault of a configuration.
fn config_advice(kind: ConfigKind) -> &'static [u8] {
    match kind {
        ConfigKind::Syntax =>
            b"Compare the statement with its form, which `fmpsim list` shows for its name. The word is the token that does not fit.",
        ConfigKind::CutShort =>
            b"Close the comment, string, statement or class that begins in this line.",
        ConfigKind::Unsupported =>
            b"Leave this statement out: `fmpsim list` has those that are read.",
        ConfigKind::OutsideClass => b"Put the statement into a `CLASS(..) { .. }`.",
        ConfigKind::UnknownClass =>
            b"Define the class before it is used: `DEF_CLASS(name, 1, {1, 2});`.",
        ConfigKind::NameTaken =>
            b"Choose another name: all classes, objects and defined names share one name space, and some words are reserved.",
        ConfigKind::OutOfRange =>
            b"Give a number within the range that `fmpsim list` shows, without leading zeros, or a name defined before.",
        ConfigKind::BadAttribute =>
            b"Give one of the attributes that `fmpsim list` shows for this statement.",
        ConfigKind::TooMany =>
            b"There may be 64 tasks, 32 classes, 32 objects of each other kind, 1024 defined names, 1048576 bytes, and one of each other statement.",
        ConfigKind::NoProcessors => b"Begin with `PROCESSORS(n);`.",
        ConfigKind::BadClass =>
            b"Name only processors of the machine in the class, the initial one among them.",
        ConfigKind::Memory => b"Give the program more memory.",
        ConfigKind::ForeignHandler =>
            b"Under `TIMER(GLOBAL, p);` create handlers in a class whose only processor is p.",
    }
}

/// What to do about a fault of events, scripts or a trace.
fn text_advice(kind: TextKind) -> &'static [u8] {
    match kind {
        TextKind::BadByte =>
            b"Write only letters, digits, `_`, `-`, `(`, `)`, `,` and blanks. A comment has a line of its own that begins with `#`.",
        TextKind::BadWord =>
            b"Begin with `P` and a processor, then `tick`, `ipi`, `ret_hdr` or a call: `fmpsim list` has them. In a trace, write the line exactly as it is printed.",
        TextKind::UnknownName => b"Use the name of an object of the configuration, or a constant.",
        TextKind::WrongArguments =>
            b"Compare the arguments with the call's: `fmpsim list act_tsk`.",
        TextKind::NumberOutOfRange =>
            b"Give a number within its range, without leading zeros, and a processor that the machine has.",
        TextKind::CutShort =>
            b"End the last line with a line feed, and the last script with `end`.",
        TextKind::TooMany =>
            b"There may be 1000000 events, 1073741824 bytes, and in a script 256 steps, 256 labels and 1024 jumps.",
        TextKind::Memory => b"Give the program more memory.",
    }
}

/// Adds the line of a fault: its number and its words.
fn put_line(out: &mut Text, number: &str, words: &str) {
    out.put(number.as_bytes());
    out.put_byte(b' ');
    out.put(words.as_bytes());
    out.put(b"\n");
}

/// Adds the line of what to do about a fault.
fn put_advice(out: &mut Text, advice: &[u8]) {
    out.put(b"  ");
    out.put(advice);
    out.put(b"\n");
}

/// Adds what to do about a fault of a configuration.
pub fn put_config_advice(out: &mut Text, kind: ConfigKind) {
    put_advice(out, config_advice(kind));
}

/// Adds a fault of a configuration, and what to do about it.
pub(crate) fn put_about_config(out: &mut Text, kind: ConfigKind) {
    put_line(out, kind.code(), kind.words());
    put_config_advice(out, kind);
}

/// Adds what to do about a fault of events, scripts or a trace.
pub fn put_text_advice(out: &mut Text, kind: TextKind) {
    put_advice(out, text_advice(kind));
}

/// Adds a fault of events, scripts or a trace, and what to do about it.
pub(crate) fn put_about_text(out: &mut Text, kind: TextKind) {
    put_line(out, kind.code(), kind.words());
    put_text_advice(out, kind);
}

/// Adds a line for each of these faults of a configuration.
fn put_config_lines(out: &mut Text, kinds: &[ConfigKind]) {
    for kind in kinds {
        put_line(out, kind.code(), kind.words());
    }
}

/// Adds a line for each fault of a configuration.
pub(crate) fn put_config_faults(out: &mut Text) {
    put_config_lines(out, &CONFIG_KINDS);
}

/// Adds a line for each of these faults of events, scripts or a trace.
fn put_text_lines(out: &mut Text, kinds: &[TextKind]) {
    for kind in kinds {
        put_line(out, kind.code(), kind.words());
    }
}

/// Adds a line for each fault of events, scripts and traces.
pub(crate) fn put_text_faults(out: &mut Text) {
    put_text_lines(out, &TEXT_KINDS);
}

/// The first of these faults of a configuration that has the number.
fn config_kind_in(kinds: &[ConfigKind], word: &[u8]) -> Option<ConfigKind>
    ensures { result ≡ find (λ kind. bytes_eq (config.code_of kind) word.now) kinds.now }
{
    for kind in kinds {
        if kind.code().as_bytes() == word {
            return Some(*kind);
        }
    }
    None
}

/// The fault of a configuration with this number, such as `F7`.
pub(crate) fn find_config_kind(word: &[u8]) -> Option<ConfigKind>
    ensures { result ≡ find (λ kind. bytes_eq (config.code_of kind) word.now) CONFIG_KINDS }
{
    config_kind_in(&CONFIG_KINDS, word)
}

/// The first of these faults of events, scripts and traces that has the number.
fn text_kind_in(kinds: &[TextKind], word: &[u8]) -> Option<TextKind>
    ensures { result ≡ find (λ kind. bytes_eq (text.code_of kind) word.now) kinds.now }
{
    for kind in kinds {
        if kind.code().as_bytes() == word {
            return Some(*kind);
        }
    }
    None
}

/// The fault of events, scripts and traces with this number, such as `E4`.
pub(crate) fn find_text_kind(word: &[u8]) -> Option<TextKind>
    ensures { result ≡ find (λ kind. bytes_eq (text.code_of kind) word.now) TEXT_KINDS }
{
    text_kind_in(&TEXT_KINDS, word)
}
