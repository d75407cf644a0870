//! Calls of scripts that are refused whenever they are made: those for tasks that only handlers make, and the other way round.
ghost use Rattle.std.specs.Prelude.{◌≡◌, IfOk};
ghost use Rattle.std.specs.Option.{option_copied};
ghost use Rattle.fmp_out.specs.Putting.{Adds};
ghost use Rattle.fmp_cli_notes.specs.Misplaced as spec;

use fmp_bytes::following;
use fmp_calls::{find_call, form};
use fmp_codes::Call;
use fmp_out::Text;
use fmp_setup::Config;
use std::alloc::{AllocError, Global};

/// Whether a task runs the script of the function of this number.
fn is_of_task(config: &Config, function: u8) -> bool
    ensures { result ≡ spec.is_of_task config.now function }
{
    config.tasks().iter().any(|task| task.main == function)
}

/// Whether a cyclic handler does.
fn is_of_cyclic(config: &Config, function: u8) -> bool
    ensures { result ≡ spec.is_of_cyclic config.now function }
{
    config
        .cyclics()
        .iter()
        .any(|cyclic| cyclic.handler == function)
}

/// Whether an alarm's handler does.
fn is_of_alarm(config: &Config, function: u8) -> bool
    ensures { result ≡ spec.is_of_alarm config.now function }
{
    config
        .alarms()
        .iter()
        .any(|alarm| alarm.handler == function)
}

/// Whether the script of the function of this number makes this call in vain: handlers alone run it, and the call is for tasks alone, or
/// the other way round.
#[tactic(auto, unfolding(crate::specs::Misplaced::is_misplaced))]
pub(crate) fn is_misplaced(config: &Config, function: u8, call: Call) -> bool
    ensures { result ≡ spec.is_misplaced config.now function call }
{
    let name = form(call).text;
    let is_for_handlers = name.starts_with(b"i");
    let is_of_handler = is_of_cyclic(config, function) | is_of_alarm(config, function);
    match (is_of_task(config, function), is_of_handler) {
        (true, false) => is_for_handlers,
        (false, true) => !is_for_handlers && !name.starts_with(b"sns_"),
        _ => false,
    }
}

/// The call with this name after an `i`, if there is one.
fn call_for_handlers(alloc: Global, name: &[u8]) -> Result<Option<Call>, AllocError>
    ensures { IfOk result (λ call. call ≡ spec.for_handlers name.now) }
{
    let mut other = Vec::from_slice(alloc, b"i")?;
    other.extend_from_slice(name)?;
    Ok(find_call(other.as_slice()))
}

/// Adds what a handler is to do in place of the call that it makes.
fn put_for_handler(out: &mut Text, other: Option<Call>)
    ensures { Adds (spec.for_handler other) out.old out.new }
{
    match other {
        Some(other) => {
            out.put(b"write ");
            out.put(form(other).text);
        }
        None => out.put(
            b"let it wake a task that makes it, by iact_tsk, iwup_tsk, isig_sem or iset_flg",
        ),
    }
}

/// Adds what is told of a call of this name, that of this other one behind an `i`, or of none.
#[tactic(auto, unfolding(crate::specs::Misplaced::for_task, crate::specs::Misplaced::by_handler))]
fn put_told_by(alloc: Global, out: &mut Text, name: &[u8], other: Option<&[u8]>)
    ensures { Adds (spec.told_by name.now (option_copied other.entry)) out.old out.new }
{
    match other {
        Some(other) => {
            out.put(b" is always answered E_CTX, since a task makes it: write ");
            out.put(other);
        }
        None => {
            out.put(b" is always answered E_CTX, since a handler makes it: ");
            match call_for_handlers(alloc, name) {
                Ok(other) => put_for_handler(out, other),
                Err(fault) => out.note(Err(fault)),
            }
        }
    }
}

/// Adds what is told of a call of this name, after it.
#[tactic(auto, unfolding(crate::specs::Misplaced::misplaced_text))]
pub(crate) fn put_misplaced(alloc: Global, out: &mut Text, name: &[u8])
    ensures { Adds (spec.misplaced_text name.now) out.old out.new }
{
    put_told_by(alloc, out, name, following(b'i', name));
}
