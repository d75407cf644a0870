//! The words of a command line that clap refuses, reported in other words than clap's: numbers of `smp`, options that are near or of another command, and
//! questions without quotation marks.
use clap::error::ErrorKind;
use fmp_out::Text;
use std::alloc::Global;

/// What is reported of a word of a command line that clap refuses: the command with which it stands, if it is about one, the word, and what is reported.
const WORDS: [(&str, &str, &str); 17] = [
    ("", "-v", "near: -V, which prints the version"),
    ("", "run", RUNS),
    ("", "simulate", RUNS),
    ("", "-o", OUTPUT),
    ("", "--output", OUTPUT),
    ("explore", "--seed", SEEDS),
    ("explore", "--seeds", SEEDS),
    (
        "explore",
        "--strict",
        "`--strict` goes with smp; explore tells with `--find deadlock` whether a task can wait for ever",
    ),
    ("smp", "--questions", ORDERS),
    ("smp", "--drift", ORDERS),
    ("smp", "--pace", ORDERS),
    ("calls", "--find", FIND),
    ("check", "--find", FIND),
    (
        "calls",
        "--ticks",
        "the events say where ticks come: `P1 tick`",
    ),
    (
        "check",
        "--state",
        "the state before the first line that differs is shown by `check --show`, all states by `calls --state`",
    ),
    (
        "calls",
        "--show",
        "`--show` goes with check; the states are shown by `calls --state`",
    ),
    (
        "explore",
        "--state",
        "the trace that is found is a text for `check`, `wave` and `view`, and `tools/from-trace` makes events of it for `calls --state`",
    ),
];

const RUNS: &str = "near: smp, which runs scripts, and calls, which plays events";

const OUTPUT: &str = "what is made goes to standard output: `> FILE` writes it into a file";

const SEEDS: &str = "explore goes through every order, so that it has no seeds: smp has them";

const ORDERS: &str = "this goes with explore, which goes through every order";

const FIND: &str = "a question is asked by explore, by smp with `--seeds`, and by shrink";

/// An option with a number, which has to be within a range.
#[derive(Clone, Copy)]
struct NumberOption {
    name: &'static str,
    least: u64,
    most: u64,
}

/// The options of `smp` with a number.
const NUMBERS: [NumberOption; 3] = [
    NumberOption {
        name: "--ticks",
        least: 0,
        most: 1_000_000,
    },
    NumberOption {
        name: "--turns",
        least: 1,
        most: 1_000_000,
    },
    NumberOption {
        name: "--seed",
        least: 0,
        most: u64::MAX,
    },
];

/// The value of an option that is no number within its range.
#[derive(Drop)]
pub struct WrongNumber<'a> {
    option: NumberOption,
    value: &'a str,
}

impl WrongNumber<'_> {
    /// The line that reports which number is expected.
    pub fn line(&self, alloc: Global) -> Text {
        let NumberOption { name, least, most } = self.option;
        let mut text = Text::new(alloc);
        text.put(b"fmpsim: ");
        text.put(name.as_bytes());
        text.put(b": a number from ");
        text.put_number(least);
        text.put(b" to ");
        text.put_number(most);
        text.put(b" is expected\n");
        if name == "--ticks" && self.value == "any" {
            text.put(b"  `any` goes with explore alone\n");
        }
        text
    }
}

/// The value of an option in the words.
fn value_of<'a>(words: &'a [String], name: &str) -> Option<&'a str> {
    for (index, word) in words.iter().enumerate() {
        if word.as_str() == name {
            return words.get(index + 1).map(|word| word.as_str());
        }
        if let Some((option, value)) = word.as_str().split_once('=')
            && option == name
        {
            return Some(value);
        }
    }
    None
}

/// The value of an option that is no number within its range, if it is none.
fn wrong_number<'a>(words: &'a [String], option: NumberOption) -> Option<WrongNumber<'a>> {
    let value = value_of(words, option.name)?;
    match value.parse::<u64>() {
        Ok(number) if option.least <= number && number <= option.most => None,
        _ => Some(WrongNumber { option, value }),
    }
}

/// The first number of `smp` that is wrong, where clap refuses a value.
pub fn refused_number<'a>(words: &'a [String], error: &clap::Error) -> Option<WrongNumber<'a>> {
    let command = words.get(1)?;
    if error.kind() != ErrorKind::ValueValidation || command.as_str() != "smp" {
        return None;
    }
    NUMBERS
        .iter()
        .find_map(|option| wrong_number(words, *option))
}

/// Puts a line of what is reported below another.
fn put_below(text: &mut Text, reported: &str) {
    text.put(b"  ");
    text.put(reported.as_bytes());
    text.put_byte(b'\n');
}

/// Puts what is known of a word that may be refused, of a line with this command.
fn put_word(text: &mut Text, command: &str, word: &str) {
    let (name, _value) = word.split_once('=').unwrap_or((word, ""));
    for row in &WORDS {
        let (with, other, reported) = *row;
        if name == other && (with.is_empty() || command == with) {
            put_below(text, reported);
        }
    }
    if let [b'-', digit, ..] = word.as_bytes()
        && digit.is_ascii_digit()
    {
        put_below(
            text,
            "no number has a sign: the least is 0 for --ticks and --seed, and 1 for any other option",
        );
    }
}

/// Whether the question after the word of this number, from 0, may be one of several words without quotation marks.
fn is_unquoted(words: &[String], index: usize) -> bool {
    match words.get(index.saturating_add(2)) {
        Some(next) => index > 3 && !next.as_str().starts_with('-'),
        None => false,
    }
}

/// What is known of the words of a line that is refused: of an option that is near, or is another command's, and of a question of several words without
/// quotation marks.
pub fn near_option_lines(alloc: Global, words: &[String]) -> Text {
    let command = match words {
        [_, command, ..] => command.as_str(),
        _ => "",
    };
    let mut text = Text::new(alloc);
    for (index, word) in words.iter().enumerate() {
        put_word(&mut text, command, word.as_str());
        if word.as_str() == "--find" && is_unquoted(words, index) {
            put_below(
                &mut text,
                "a question of several words stands in quotation marks: --find 'T1 waits'",
            );
        }
    }
    text
}
