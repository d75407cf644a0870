//! Where the scripts of tasks and handlers have come to.
ghost use Rattle.std.specs.Prelude.{◌≡◌, ◌+◌, ◌<◌, ◌^◌, ℕ, not, ◌&&◌, slice_index, option_map, if◌then◌else◌};
ghost use Rattle.fmp_codes.specs.Records.{is_gone, is_taken, is_call};
ghost use Rattle.fmp_codes.specs.Numbers.{as_task};
ghost use Rattle.fmp_rules.specs.Arguments.{number_within};
ghost use Rattle.fmp_law_balance.specs.Accepted.{is_accepted};
ghost use Rattle.fmp_smp_histories.specs.Positions as spec;
ghost use Rattle.fmp_smp_histories.specs.Positions.{is_spin, is_handler, is_return, target_of, terminated, ways_of_runner};
ghost use Rattle.fmp_smp_histories.specs.Places.{called_tasks, released_task, released_tasks, renewed, handler_moved, moved_tasks, moved_handlers};

use crate::choice::function_of;
use fmp_codes::{Answer, Call, Code, Event, Record, Release, Runner, Task, TaskCall};
use fmp_rules::Config;
use fmp_text_scripts::Scripts;

/// Whether an event is a call, not a tick or an interrupt.
fn is_call(event: Event) -> bool
    ensures { result ≡ is_call event }
{
    matches!(event, Event::Call(_, _))
}

/// Whether a call is the return of a handler.
fn is_return(call: Call) -> bool
    ensures { result ≡ is_return call }
{
    matches!(call, Call::RetHdr)
}

/// Whether the spin lock was taken, so that the caller makes the same call again.
fn is_spin(answer: Answer) -> bool
    ensures { result ≡ is_spin answer }
{
    matches!(answer, Answer::Spin)
}

/// Whether the caller ended by its call.
fn is_gone(answer: Answer) -> bool
    ensures { result ≡ is_gone answer }
{
    matches!(answer, Answer::Gone)
}

/// Whether a call returned the code of success, with a value or without.
fn is_accepted(answer: Answer) -> bool
    ensures { result ≡ is_accepted answer }
{
    matches!(answer, Answer::Done(Code::Accepted, _))
}

/// Whether a tick was taken, or an interrupt took a request.
pub fn is_taken(answer: Answer) -> bool
    ensures { result ≡ is_taken answer }
{
    matches!(answer, Answer::Taken)
}

/// Where the script of a runner goes on that has come after a call with this answer.
#[inline(never)]
fn led(config: &Config, scripts: &Scripts, runner: Runner, answer: Answer, position: u32) -> u32
    ensures { result ≡ spec.answered (ways_of_runner config.now scripts.now (Some runner)) answer position }
{
    match answer {
        Answer::Done(code, value) => {
            scripts.onward(function_of(config, runner), position, code, value)
        }
        _ => position,
    }
}

/// Where the script of a runner goes on that has come after a call with this answer. What a call returned decides it at once; after a call that
/// waits the script stands until the wait ends. Straight scripts are not looked up.
fn answered(
    config: &Config,
    scripts: &Scripts,
    runner: Runner,
    answer: Answer,
    position: u32,
) -> u32
    ensures { result ≡ spec.answered (ways_of_runner config.now scripts.now (Some runner)) answer position }
{
    if scripts.is_straight() {
        return position;
    }
    led(config, scripts, runner, answer, position)
}

/// The position of a runner after a call that was made, or not, with this answer.
fn called(
    config: &Config,
    scripts: &Scripts,
    runner: Runner,
    made: bool,
    answer: Answer,
    position: u32,
) -> u32
    requires { position + 1 < 2 ^ 32 }
    ensures { result ≡ spec.called (ways_of_runner config.now scripts.now (Some runner)) made answer position }
{
    if made {
        answered(config, scripts, runner, answer, position + 1)
    } else {
        position
    }
}

/// The task of an ID from 1 to 64. None for any other ID.
fn task_numbered(id: i32) -> Option<Task>
    ensures { result ≡ option_map as_task (number_within 64 id) }
{
    if 1 <= id && id <= 64 {
        Some(Task::new(id as u8))
    } else {
        None
    }
}

/// The task that an event asks to terminate. None where it is no such call, or where its ID is no task's.
fn target_of(event: Event) -> Option<Task>
    ensures { result ≡ target_of event }
{
    match event {
        Event::Call(_, Call::Task(TaskCall::TerTsk(id))) => task_numbered(id),
        _ => None,
    }
}

/// The task that a call terminated. None where the event is no such call, or was not accepted.
fn terminated(event: Event, answer: Answer) -> Option<Task>
    ensures { result ≡ terminated event answer }
{
    if is_accepted(answer) {
        target_of(event)
    } else {
        None
    }
}

/// Moves the position of the task whose wait a release ended: its script goes on by the answer to the call that made it wait.
fn release(config: &Config, scripts: &Scripts, positions: &mut [u32; 64], ended: Release)
    ensures { positions.new ≡ released_task config.now scripts.now positions.old ended }
{
    let at = ended.task.index();
    let function = function_of(config, Runner::Task(ended.task));
    positions[at] = scripts.onward(function, positions[at], ended.code, ended.value);
}

/// Moves the positions of the tasks whose waits a record ended.
#[inline(never)]
fn release_each(config: &Config, scripts: &Scripts, positions: &mut [u32; 64], made: &Record)
    ensures { positions.new ≡ released_tasks config.now scripts.now positions.old made.now.releases }
{
    for at in 0..made.releases.len() {
        if let Some(ended) = made.releases.get(at) {
            release(config, scripts, positions, ended);
        }
    }
}

/// Moves the positions of the tasks whose waits a record ended. Those of straight scripts stay.
fn release_all(config: &Config, scripts: &Scripts, positions: &mut [u32; 64], made: &Record)
    ensures { positions.new ≡ released_tasks config.now scripts.now positions.old made.now.releases }
{
    if scripts.is_straight() {
        return;
    }
    release_each(config, scripts, positions, made);
}

/// Moves the position of the task that could make a call: back to 0 where it ended, and on where it made a call that did not spin.
fn advance_caller(config: &Config, scripts: &Scripts, positions: &mut [u32; 64], made: &Record)
    requires { (i : ℕ) → i < 64 → slice_index positions.old i + 1 < 2 ^ 32 }
    ensures { positions.new ≡ called_tasks config.now scripts.now positions.old made.now.runner made.now.event made.now.answer }
{
    let Some(Runner::Task(t)) = made.runner else {
        return;
    };
    let position = positions[t.index()];
    positions[t.index()] = if is_gone(made.answer) {
        0
    } else {
        let counts = is_call(made.event) && !is_spin(made.answer);
        called(
            config,
            scripts,
            Runner::Task(t),
            counts,
            made.answer,
            position,
        )
    };
}

/// Puts the position of a task that ended, if there is one, back to 0.
fn renew(positions: &mut [u32; 64], ended: Option<Task>)
    ensures { positions.new ≡ renewed positions.old ended }
{
    let Some(t) = ended else {
        return;
    };
    positions[t.index()] = 0;
}

/// Moves the positions of the tasks that a record releases, and of the task that made its call, and renews that of a task that it ended.
pub fn advance_task(config: &Config, scripts: &Scripts, positions: &mut [u32; 64], made: &Record)
    requires { (i : ℕ) → i < 64 → slice_index positions.old i + 1 < 2 ^ 32 }
    ensures { positions.new ≡ moved_tasks config.now scripts.now positions.old made.now }
{
    release_all(config, scripts, positions, made);
    advance_caller(config, scripts, positions, made);
    renew(positions, terminated(made.event, made.answer));
}

/// The position of the handler that could make a call on the processor of a record, from the one before it.
fn called_by(
    config: &Config,
    scripts: &Scripts,
    runner: Option<Runner>,
    answer: Answer,
    position: u32,
) -> u32
    requires { position + 1 < 2 ^ 32 }
    ensures { result ≡ spec.called (ways_of_runner config.now scripts.now runner) (is_handler runner && not (is_spin answer)) answer position }
{
    match runner {
        None => position,
        Some(Runner::Task(_)) => position,
        Some(runner) => called(config, scripts, runner, !is_spin(answer), answer, position),
    }
}

/// The position of the handler on the processor of a record, from the one before it: 0 after a return or a taken tick, and moved after
/// another call of a handler that did not spin.
fn handler_moved(config: &Config, scripts: &Scripts, made: &Record, position: u32) -> u32
    requires { position + 1 < 2 ^ 32 }
    ensures { result ≡ handler_moved (ways_of_runner config.now scripts.now made.now.runner) made.now.runner made.now.event made.now.answer position }
{
    match made.event {
        Event::Call(_, call) => {
            if is_return(call) {
                0
            } else {
                called_by(config, scripts, made.runner, made.answer, position)
            }
        }
        Event::Tick(_) => { if is_taken(made.answer) { 0 } else { position } }
        Event::Ipi(_) => position,
    }
}

/// Moves the position of the handlers on the processor of a record, and renews it at a return and at a taken tick.
pub fn advance_handler(config: &Config, scripts: &Scripts, positions: &mut [u32; 8], made: &Record)
    requires { (i : ℕ) → i < 8 → slice_index positions.old i + 1 < 2 ^ 32 }
    ensures { positions.new ≡ moved_handlers config.now scripts.now positions.old made.now }
{
    let at = made.event.processor().index();
    positions[at] = handler_moved(config, scripts, made, positions[at]);
}
