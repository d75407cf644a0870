//! The calls by which tasks sleep, wake, wait for some time and are suspended.
ghost use Rattle.std.specs.Prelude.{◌≡◌, ◌+◌, ◌-◌, ◌<◌, ◌≤◌, Some, nat_lt, if◌then◌else◌};
ghost use Rattle.fmp_rules.specs.World.{task};
ghost use Rattle.fmp_rules.specs.Ordering.{with_task};
ghost use Rattle.fmp_rules.specs.Rows.{called, called_by, done, first_error, in_handler, wait_for};
ghost use Rattle.fmp_rules.specs.TaskCalls.{is_sleep, tslp_tsk, wup, can_wup, rel_wai, sus_tsk, rsm_tsk, dly_tsk};
ghost use Rattle.fmp_rules.specs.Arguments.{task_named, task_or_caller};
ghost use Rattle.fmp_rules.specs.Outcomes.{effect_of};

use fmp_codes::{Answer, Code, Proc, Task};
use fmp_rules::{Effect, Rule, TaskRecord, Wait};
use fmp_step_words::{
    Words, caller, check_rule, check_time, check_timeout, find_task_or_caller, is_caller,
    refuse_if, release, task_named, task_or_caller, ticks_of, wait_for,
};

/// Whether a task sleeps, by what it waits for.
fn is_sleep(wait: Option<Wait>) -> bool
    ensures { result ≡ is_sleep wait }
{
    matches!(wait, Some(Wait::Sleep))
}

/// Takes a queued wakeup of the caller, or lets it sleep.
#[tactic(auto, unfolding(fmp_rules::specs::TaskCalls::tslp_tsk))]
pub(crate) fn tslp_tsk<M: Words>(machine: &mut M, p: Proc, timeout: i32) -> Result<Effect, Code>
    requires { 0 < M.room machine.old }
    ensures row { let w = M.world machine.old in (M.world machine.new, effect_of result) ≡ called w p (tslp_tsk M.ordering w p timeout) }
    ensures room { M.room machine.old ≤ M.room machine.new + 1 }
{
    check_rule(machine, p, Rule::in_task().unheld_if(true))?;
    let t = caller(machine, p)?;
    check_timeout(timeout)?;
    sleep(machine, t, timeout)
}

/// Takes a queued wakeup of a task, or lets it sleep.
fn sleep<M: Words>(machine: &mut M, t: Task, timeout: i32) -> Result<Effect, Code>
    requires { 0 < M.room machine.old }
    ensures state { let w = M.world machine.old in let r = task w t in (M.world machine.new, effect_of result) ≡
        (if nat_lt 0 r.wakeups then (with_task w t (record r { wakeups = r.wakeups - 1 }), done) else wait_for M.ordering w t Wait.Sleep timeout) }
    ensures room { M.room machine.old ≤ M.room machine.new + 1 }
{
    let task = machine.task(t);
    if 0 < task.wakeups {
        machine.set_task(
            t,
            TaskRecord {
                wakeups: task.wakeups - 1,
                ..task
            },
        );
        Ok(Effect::done())
    } else {
        wait_for(machine, t, Wait::Sleep, timeout)
    }
}

/// Releases a task that sleeps. Of another one the wakeup is queued.
#[tactic(auto, unfolding(fmp_rules::specs::TaskCalls::wup))]
pub(crate) fn wup_tsk<M: Words>(machine: &mut M, p: Proc, id: i32) -> Result<Effect, Code>
    requires { 0 < M.room machine.old }
    ensures row { let w = M.world machine.old in (M.world machine.new, effect_of result) ≡ called w p (wup M.ordering w (task_or_caller w p id)) }
    ensures room { M.room machine.old ≤ M.room machine.new + 1 }
{
    check_rule(machine, p, Rule::in_task())?;
    let t = task_or_caller(machine, p, id)?;
    wake(machine, t)
}

/// The same from a handler.
#[tactic(auto, unfolding(fmp_rules::specs::TaskCalls::wup))]
pub(crate) fn iwup_tsk<M: Words>(machine: &mut M, p: Proc, id: i32) -> Result<Effect, Code>
    requires { 0 < M.room machine.old }
    ensures row { let w = M.world machine.old in (M.world machine.new, effect_of result) ≡ called w p (in_handler (wup M.ordering w (task_named w id))) }
    ensures room { M.room machine.old ≤ M.room machine.new + 1 }
{
    check_rule(machine, p, Rule::in_task().in_handler())?;
    let t = task_named(machine, id)?;
    wake(machine, t)
}

/// Releases a task that sleeps, or queues the wakeup of another one, unless too many are queued already.
#[tactic(auto, unfolding(fmp_rules::specs::TaskCalls::wup))]
fn wake<M: Words>(machine: &mut M, t: Task) -> Result<Effect, Code>
    requires { 0 < M.room machine.old }
    ensures row { let w = M.world machine.old in let row = wup M.ordering w (Some t) in (M.world machine.new, effect_of result) ≡ called_by w row.effect
        (first_error row.errors) }
    ensures room { M.room machine.old ≤ M.room machine.new + 1 }
{
    let task = machine.task(t);
    let sleeps = is_sleep(task.wait);
    refuse_if(!task.active, Code::ObjectState)?;
    refuse_if(
        !sleeps && machine.limits().wakeups <= task.wakeups,
        Code::QueueOverflow,
    )?;
    if sleeps {
        Ok(release(machine, t, Code::Accepted, None))
    } else {
        machine.set_task(
            t,
            TaskRecord {
                wakeups: task.wakeups + 1,
                ..task
            },
        );
        Ok(Effect::done())
    }
}

/// Takes back the queued wakeups of a task, and tells their number.
#[tactic(auto, unfolding(fmp_rules::specs::TaskCalls::can_wup))]
pub(crate) fn can_wup<M: Words>(machine: &mut M, p: Proc, id: i32) -> Result<Effect, Code>
    ensures row { let w = M.world machine.old in (M.world machine.new, effect_of result) ≡ called w p (can_wup w (task_or_caller w p id)) }
    ensures room { M.room machine.new ≡ M.room machine.old }
{
    check_rule(machine, p, Rule::in_task())?;
    let t = task_or_caller(machine, p, id)?;
    let task = machine.task(t);
    refuse_if(!task.active, Code::ObjectState)?;
    machine.set_task(t, TaskRecord { wakeups: 0, ..task });
    Ok(Effect::value(i64::from(task.wakeups)))
}

/// Ends the wait of a task.
#[tactic(auto, unfolding(fmp_rules::specs::TaskCalls::rel_wai))]
pub(crate) fn rel_wai<M: Words>(machine: &mut M, p: Proc, id: i32) -> Result<Effect, Code>
    requires { 0 < M.room machine.old }
    ensures row { let w = M.world machine.old in (M.world machine.new, effect_of result) ≡ called w p (rel_wai M.ordering w (task_named w id)) }
    ensures room { M.room machine.old ≤ M.room machine.new + 1 }
{
    check_rule(machine, p, Rule::in_task())?;
    let t = task_named(machine, id)?;
    refuse_if(machine.task(t).wait.is_none(), Code::ObjectState)?;
    Ok(release(machine, t, Code::WaitReleased, None))
}

/// The same from a handler.
#[tactic(auto, unfolding(fmp_rules::specs::TaskCalls::rel_wai))]
pub(crate) fn irel_wai<M: Words>(machine: &mut M, p: Proc, id: i32) -> Result<Effect, Code>
    requires { 0 < M.room machine.old }
    ensures row { let w = M.world machine.old in (M.world machine.new, effect_of result) ≡ called w p (in_handler (rel_wai M.ordering w (task_named w id))) }
    ensures room { M.room machine.old ≤ M.room machine.new + 1 }
{
    check_rule(machine, p, Rule::in_task().in_handler())?;
    let t = task_named(machine, id)?;
    refuse_if(machine.task(t).wait.is_none(), Code::ObjectState)?;
    Ok(release(machine, t, Code::WaitReleased, None))
}

/// Suspends a task. The caller may suspend itself only while dispatching is not held.
#[tactic(auto, unfolding(fmp_rules::specs::TaskCalls::sus_tsk))]
pub(crate) fn sus_tsk<M: Words>(machine: &mut M, p: Proc, id: i32) -> Result<Effect, Code>
    requires { 0 < M.room machine.old }
    ensures row { let w = M.world machine.old in (M.world machine.new, effect_of result) ≡ called w p (sus_tsk M.ordering w p (task_or_caller w p id)) }
    ensures room { M.room machine.old ≤ M.room machine.new + 1 }
{
    let named = find_task_or_caller(machine, p, id);
    let rule = Rule::in_task().unheld_if(is_caller(machine, p, named));
    check_rule(machine, p, rule)?;
    let t = named.ok_or(Code::Identifier)?;
    let task = machine.task(t);
    refuse_if(!task.active, Code::ObjectState)?;
    refuse_if(task.suspended, Code::QueueOverflow)?;
    machine.place(
        t,
        TaskRecord {
            suspended: true,
            ..task
        },
    );
    Ok(Effect::done())
}

/// Ends the suspension of a task.
#[tactic(auto, unfolding(fmp_rules::specs::TaskCalls::rsm_tsk))]
pub(crate) fn rsm_tsk<M: Words>(machine: &mut M, p: Proc, id: i32) -> Result<Effect, Code>
    requires { 0 < M.room machine.old }
    ensures row { let w = M.world machine.old in (M.world machine.new, effect_of result) ≡ called w p (rsm_tsk M.ordering w (task_named w id)) }
    ensures room { M.room machine.old ≤ M.room machine.new + 1 }
{
    check_rule(machine, p, Rule::in_task())?;
    let t = task_named(machine, id)?;
    let task = machine.task(t);
    refuse_if(!task.suspended, Code::ObjectState)?;
    machine.place(
        t,
        TaskRecord {
            suspended: false,
            ..task
        },
    );
    Ok(Effect::done())
}

/// Lets the caller wait for so many ticks.
#[tactic(auto, unfolding(fmp_rules::specs::TaskCalls::dly_tsk))]
pub(crate) fn dly_tsk<M: Words>(machine: &mut M, p: Proc, time: i32) -> Result<Effect, Code>
    requires { 0 < M.room machine.old }
    ensures row { let w = M.world machine.old in (M.world machine.new, effect_of result) ≡ called w p (dly_tsk M.ordering w p time) }
    ensures room { M.room machine.old ≤ M.room machine.new + 1 }
{
    check_rule(machine, p, Rule::in_task().unheld_if(true))?;
    let t = caller(machine, p)?;
    check_time(time)?;
    machine.begin_wait(t, Wait::Delay, ticks_of(time));
    Ok(Effect::answer(Answer::Wait))
}
