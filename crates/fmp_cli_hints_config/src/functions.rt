//! What a configuration says of a word that stands where a function is wanted.
ghost use Rattle.std.specs.Prelude.{◌≡◌, ◌<◌, None, IfOk, IfSome, length};
ghost use Rattle.std.specs.Option.{option_copied};
ghost use Rattle.fmp_cli_help.specs.Near.{nearest};

use fmp_cli_help::nearer;
use fmp_cli_hints::{TextForm, function_at, near_thing, put_near, task_at};
use fmp_codes::{NameKind, ObjectKind};
use fmp_config::Config;
use fmp_out::Text;
use fmp_setup::TaskSetup;
use fmp_text::{TextFault, is_name};
use std::alloc::{AllocError, Global};

/// The function of the task with this name.
fn function_of<'a>(config: &'a Config, name: &[u8]) -> Option<&'a [u8]> {
    let names = config.names();
    let number = names.number(NameKind::Object(ObjectKind::Task), name)?;
    let task = config.tasks().get(number - 1)?;
    names.name(NameKind::Function, usize::from(task.main))
}

/// What stands between a task and its function.
const TASK_WORDS: &[u8] = b" is a task, and its function is ";

/// What stands between a function and its task.
const MAIN_WORDS: &[u8] = b" is a function, and its task is ";

/// Adds a name and what it belongs to, with these words between them.
fn put_relation(out: &mut Text, name: &[u8], words: &[u8], other: &[u8]) {
    out.put(b"  ");
    out.put(name);
    out.put(words);
    out.put(other);
    out.put(b".\n");
}

/// Adds which function a task with this name has, if there is one.
fn put_function_of(out: &mut Text, config: &Config, name: &[u8]) {
    if let Some(function) = function_of(config, name) {
        put_relation(out, name, TASK_WORDS, function);
    }
}

/// The function that is nearest to a word.
fn nearest_function<'a>(
    alloc: Global,
    config: &'a Config,
    word: &[u8],
) -> Result<Option<&'a [u8]>, AllocError>
    ensures { IfOk result (λ found. option_copied found ≡ nearest word.now None config.now.names.functions) }
{
    let names = config.names();
    let mut best = None;
    let mut number = 1;
    while let Some(name) = names.name(NameKind::Function, number) {
        best = nearer(alloc, word, best, name)?;
        number += 1;
    }
    Ok(best)
}

/// Adds the nearest function to a name that is none.
fn put_near_function(
    alloc: Global,
    out: &mut Text,
    config: &Config,
    word: &[u8],
) -> Result<(), AllocError> {
    if is_name(word) && config.names().number(NameKind::Function, word).is_none() {
        put_near(out, nearest_function(alloc, config, word)?);
    }
    Ok(())
}

/// Adds what is told of a word that stands where a function is wanted: of an object which function it has, where it is a task, and of
/// another name the nearest function.
fn put_word(alloc: Global, out: &mut Text, config: &Config, word: &[u8]) -> Result<(), AllocError> {
    if config.names().contains_object(word) {
        put_function_of(out, config, word);
        return Ok(());
    }
    put_near_function(alloc, out, config, word)
}

/// Adds what is told of the word that stands where a function is wanted, where a fault of scripts is there.
fn put_script_hint(
    alloc: Global,
    out: &mut Text,
    config: &Config,
    text: &[u8],
    fault: TextFault,
) -> Result<(), AllocError> {
    match function_at(alloc, config.names(), text, fault)? {
        Some(word) => put_word(alloc, out, config, word),
        None => Ok(()),
    }
}

/// The place, from 0, of the first of these tasks that has the function of this number.
pub(crate) fn place_with(tasks: &[TaskSetup], number: usize) -> Option<usize>
    ensures { IfSome result (λ i. i < length tasks.now) }
{
    for (index, task) in tasks.iter().enumerate() {
        if usize::from(task.main) == number {
            return Some(index);
        }
    }
    None
}

/// The first task with this function.
fn task_of<'a>(config: &'a Config, function: &[u8]) -> Option<&'a [u8]> {
    let names = config.names();
    let number = names.number(NameKind::Function, function)?;
    let place = place_with(config.tasks(), number)?;
    names.name(NameKind::Object(ObjectKind::Task), place + 1)
}

/// Adds which task a word has that is its function.
fn put_task_of(out: &mut Text, config: &Config, word: &[u8]) {
    if let Some(task) = task_of(config, word) {
        put_relation(out, word, MAIN_WORDS, task);
    }
}

/// Adds which task has the function that stands where a task is wanted, where a fault of a text is there.
fn put_task_hint(
    alloc: Global,
    out: &mut Text,
    config: &Config,
    form: TextForm,
    text: &[u8],
    fault: TextFault,
) -> Result<(), AllocError> {
    if let Some(word) = task_at(alloc, config.names(), form, text, fault)? {
        put_task_of(out, config, word);
    }
    Ok(())
}

/// What more stands below what `fmp_cli_hints` tells of a fault of a text. Where a task is wanted and its function stands there: which task that is.
/// In scripts, where a function is wanted: which function a task has that stands there, or else the nearest function. That the text has the
/// fault is taken from the caller.
pub fn text_hint(
    alloc: Global,
    config: &Config,
    form: TextForm,
    text: &[u8],
    fault: TextFault,
) -> Result<Vec<u8>, AllocError> {
    let mut out = Text::new(alloc);
    if matches!(form, TextForm::Scripts) {
        put_script_hint(alloc, &mut out, config, text, fault)?;
    }
    put_task_hint(alloc, &mut out, config, form, text, fault)?;
    out.finish()
}

/// What is told where no name is near.
const NAMEABLE: &[u8] =
    b"  Tasks, handlers and objects may be named: `fmpsim list` with the path of a configuration has their names.\n";

/// Adds the name that is near, or what may be named.
fn put_near_or_nameable(out: &mut Text, near: Option<&[u8]>) {
    match near {
        Some(_) => put_near(out, near),
        None => out.put(NAMEABLE),
    }
}

/// Adds what is told of a name that no task, handler or object has.
fn put_thing_hint(
    alloc: Global,
    out: &mut Text,
    config: &Config,
    name: &[u8],
) -> Result<(), AllocError> {
    match task_of(config, name) {
        Some(task) => put_relation(out, name, MAIN_WORDS, task),
        None => put_near_or_nameable(out, near_thing(alloc, config.names(), name)?),
    }
    Ok(())
}

/// What is told of a name that no task, handler or object of a configuration has: whose function it is, the nearest that one has, or what may
/// be named.
pub fn thing_hint(alloc: Global, config: &Config, name: &[u8]) -> Result<Vec<u8>, AllocError> {
    let mut out = Text::new(alloc);
    put_thing_hint(alloc, &mut out, config, name)?;
    out.finish()
}
