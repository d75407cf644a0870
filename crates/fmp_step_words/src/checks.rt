//! The errors of calls, in the order in which they are looked for: the context, the IDs, the other arguments, the state.
ghost use Rattle.std.specs.Prelude.{◌≡◌, not};
ghost use Rattle.fmp_rules.specs.World.{processor, is_held, runner_of};
ghost use Rattle.fmp_rules.specs.Rows.{is_wrong_context, is_refused_context};
ghost use Rattle.fmp_rules.specs.Arguments.{is_time, is_timeout};
ghost use Rattle.fmp_rules.specs.Outcomes.{refused_if, known_or_error};
ghost use Rattle.fmp_codes.specs.declared.codes.Code.TheVariants as code;

use crate::words::Words;
use fmp_codes::{Code, Proc, Runner, Task};
use fmp_rules::{Context, Rule};

/// The code, where the test for it passes.
pub fn refuse_if(is_error: bool, code: Code) -> Result<(), Code>
    ensures { result ≡ refused_if is_error code }
{
    if is_error { Err(code) } else { Ok(()) }
}

/// Whether a call does not belong here: one for tasks where a handler is due or no task runs, one for handlers where none is due.
fn is_wrong_context(context: Context, has_handler: bool, has_task: bool) -> bool
    ensures { result ≡ is_wrong_context context has_handler has_task }
{
    match context {
        Context::Task => has_handler || !has_task,
        Context::Handler => !has_handler,
        Context::Any => false,
    }
}

/// Refuses a number of ticks that is out of its range.
pub fn check_time(time: i32) -> Result<(), Code>
    ensures { result ≡ refused_if (not (is_time time)) code.Parameter }
{
    refuse_if(time < 0, Code::Parameter)
}

/// Refuses a timeout that is out of its range.
pub fn check_timeout(timeout: i32) -> Result<(), Code>
    ensures { result ≡ refused_if (not (is_timeout timeout)) code.Parameter }
{
    refuse_if(timeout < -1, Code::Parameter)
}

/// Who makes the calls from a processor: the due handler, else the running task.
pub fn runner<M: Words>(machine: &M, p: Proc) -> Option<Runner>
    ensures { result ≡ runner_of (M.world machine.now) p }
{
    match machine.handler(p) {
        Some(handler) => Some(handler),
        None => machine.processor(p).running.map(Runner::Task),
    }
}

/// Whether dispatching on a processor is held. In TOPPERS/FMP: not dspflg, or in a handler; sense_context, sense_lock.
pub fn is_held<M: Words>(machine: &M, p: Proc) -> bool
    ensures { result ≡ is_held (M.world machine.now) p }
{
    let processor = machine.processor(p);
    machine.handler(p).is_some() || processor.locked || processor.disabled
}

/// Refuses a call that may not be made now. In TOPPERS/FMP: CHECK_TSKCTX_UNL, CHECK_INTCTX_UNL, CHECK_DISPATCH and the like.
pub fn check_rule<M: Words>(machine: &M, p: Proc, rule: Rule) -> Result<(), Code>
    ensures { result ≡ refused_if (is_refused_context (M.world machine.now) p rule) code.Context }
{
    let processor = machine.processor(p);
    let has_task = processor.running.is_some();
    let is_wrong = is_wrong_context(rule.context, machine.handler(p).is_some(), has_task);
    let is_locked = processor.locked && !rule.when_locked;
    refuse_if(
        is_wrong || is_locked || (rule.unheld && is_held(machine, p)),
        Code::Context,
    )
}

/// The task that calls from a processor. In TOPPERS/FMP: p_runtsk.
pub fn caller<M: Words>(machine: &M, p: Proc) -> Result<Task, Code>
    ensures { result ≡ known_or_error (processor (M.world machine.now) p).running }
{
    machine.processor(p).running.ok_or(Code::Identifier)
}
