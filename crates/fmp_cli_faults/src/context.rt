//! Whether what stands beside a fault is shown, by the words of the command line.
ghost use Rattle.std.specs.Prelude.{◌≡◌, ◌≤◌, length, OnOk};
ghost use Rattle.std.specs.Str.{bytes_eq};
ghost use Rattle.fmp_cli_faults.specs.Context.{is_context, others};

use fmp_cli_diagnostics::LineForm;
use std::alloc::{AllocError, Global};

/// The words after the program's name that begin a command of which each may show the line of a fault.
const COMMANDS: [&str; 8] = [
    "calls", "check", "smp", "explore", "shrink", "wave", "view", "list",
];

/// Whether a word is this one.
fn is(word: &String, wanted: &str) -> bool
    ensures { result ≡ bytes_eq word.now.bytes.items wanted.now }
{
    word.as_str() == wanted
}

/// Whether the words begin with a command.
fn has_command(words: &[String]) -> bool {
    match words {
        [_, command, ..] => COMMANDS.iter().any(|name| is(command, *name)),
        _ => false,
    }
}

/// Whether the line of a fault is shown where the words do not ask for it: at a terminal, where they do not say otherwise. An editor or a
/// pipeline that asks for lines in a form of its own gets nothing beside them.
fn is_by_itself(words: &[String], line: LineForm, is_terminal: bool) -> bool {
    let is_said = words.iter().any(|word| says_context(word));
    is_terminal && matches!(line, LineForm::Plain) && !is_said && has_command(words)
}

/// Whether a word says whether what stands beside a fault is shown.
fn says_context(word: &String) -> bool
    ensures { result ≡ is_context word.now.bytes.items }
{
    is(word, "--context") || is(word, "--no-context")
}

/// Puts `--context` after the command. The error is want of memory.
#[tactic(auto, using(crate::proofs::Words::others_with))]
fn put_context(alloc: Global, words: &mut Vec<String>) -> Result<(), AllocError>
    requires { 2 ≤ length words.old.items }
    ensures { OnOk result (others words.new.items ≡ others words.old.items) }
{
    let word = String::from_str(alloc, "--context")?;
    words.insert(2, word)?;
    Ok(())
}

/// Takes the words away that say whether what stands beside a fault is shown.
fn take_context(words: &mut Vec<String>)
    ensures { others words.new.items ≡ others words.old.items }
{
    words.retain(|word| !says_context(word));
}

/// Settles whether the line of a fault is shown, by the words with the program's name: `--no-context` takes `--context` away, and where standard error is a terminal
/// `--context` goes after the command by itself. All other words stay. The error is want of memory.
pub fn settle_context(
    alloc: Global,
    words: &mut Vec<String>,
    line: LineForm,
    is_terminal: bool,
) -> Result<(), AllocError>
    ensures { OnOk result (others words.new.items ≡ others words.old.items) }
{
    if is_by_itself(words.as_slice(), line, is_terminal) && words.len() >= 2 {
        put_context(alloc, words)?;
    }
    if words.iter().any(|word| is(word, "--no-context")) {
        take_context(words);
    }
    Ok(())
}
