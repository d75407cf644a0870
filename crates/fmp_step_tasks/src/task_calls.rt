//! The calls on tasks: activation, migration, ending and priority.
ghost use Rattle.std.specs.Prelude.{◌≡◌, ◌+◌, ◌<◌, ◌≤◌, not, Some, ◌∷◌};
ghost use Rattle.fmp_rules.specs.Rows.{called, called_by, first_error, in_handler};
ghost use Rattle.fmp_rules.specs.TaskCalls.{activation, act, mact, can_act, mig_tsk, ext_tsk, ter_tsk, chg_pri, get_pri, task_row};
ghost use Rattle.fmp_rules.specs.Arguments.{task_named, task_or_caller};
ghost use Rattle.fmp_rules.specs.Outcomes.{effect_of};
ghost use Rattle.fmp_codes.specs.declared.codes.Code.TheVariants as code;

use crate::task_waits::{
    can_wup, dly_tsk, irel_wai, iwup_tsk, rel_wai, rsm_tsk, sus_tsk, tslp_tsk, wup_tsk,
};
use fmp_codes::{Answer, Code, Proc, Task, TaskCall};
use fmp_rules::{Effect, Rule, TaskRecord};
use fmp_step_words::{
    Words, activate, caller, change_priority, check_rule, find_task_or_caller, finish, is_caller,
    migrate, open, priority_or, processor_or_initial, refuse_if, task_named, task_or_caller,
};

/// A call on tasks: what it does, or the code that refuses it.
pub fn task_call<M: Words>(machine: &mut M, p: Proc, call: TaskCall) -> Result<Effect, Code>
    requires { 64 ≤ M.room machine.old }
    ensures row { let w = M.world machine.old in (M.world machine.new, effect_of result) ≡ called w p (task_row M.ordering w p call) }
    ensures room { M.room machine.old ≤ M.room machine.new + 64 }
{
    match call {
        TaskCall::ActTsk(id) => act_tsk(machine, p, id),
        TaskCall::IactTsk(id) => iact_tsk(machine, p, id),
        TaskCall::MactTsk(id, to) => mact_tsk(machine, p, id, to),
        TaskCall::ImactTsk(id, to) => imact_tsk(machine, p, id, to),
        TaskCall::CanAct(id) => can_act(machine, p, id),
        TaskCall::MigTsk(id, to) => mig_tsk(machine, p, id, to),
        TaskCall::ExtTsk => ext_tsk(machine, p),
        TaskCall::TerTsk(id) => ter_tsk(machine, p, id),
        TaskCall::ChgPri(id, n) => chg_pri(machine, p, id, n),
        TaskCall::GetPri(id) => get_pri(machine, p, id),
        TaskCall::SlpTsk => tslp_tsk(machine, p, -1),
        TaskCall::TslpTsk(timeout) => tslp_tsk(machine, p, timeout),
        TaskCall::WupTsk(id) => wup_tsk(machine, p, id),
        TaskCall::IwupTsk(id) => iwup_tsk(machine, p, id),
        TaskCall::CanWup(id) => can_wup(machine, p, id),
        TaskCall::RelWai(id) => rel_wai(machine, p, id),
        TaskCall::IrelWai(id) => irel_wai(machine, p, id),
        TaskCall::SusTsk(id) => sus_tsk(machine, p, id),
        TaskCall::RsmTsk(id) => rsm_tsk(machine, p, id),
        TaskCall::DlyTsk(time) => dly_tsk(machine, p, time),
    }
}

/// Activates a task where it is assigned.
#[tactic(auto, unfolding(fmp_rules::specs::TaskCalls::act))]
fn act_tsk<M: Words>(machine: &mut M, p: Proc, id: i32) -> Result<Effect, Code>
    requires { 0 < M.room machine.old }
    ensures row { let w = M.world machine.old in (M.world machine.new, effect_of result) ≡ called w p (act M.ordering w (task_or_caller w p id)) }
    ensures room { M.room machine.old ≤ M.room machine.new + 1 }
{
    check_rule(machine, p, Rule::in_task())?;
    let t = task_or_caller(machine, p, id)?;
    let to = machine.task(t).assigned;
    try_activate(machine, t, to, None)
}

/// The same from a handler.
#[tactic(auto, unfolding(fmp_rules::specs::TaskCalls::act))]
fn iact_tsk<M: Words>(machine: &mut M, p: Proc, id: i32) -> Result<Effect, Code>
    requires { 0 < M.room machine.old }
    ensures row { let w = M.world machine.old in (M.world machine.new, effect_of result) ≡ called w p (in_handler (act M.ordering w (task_named w id))) }
    ensures room { M.room machine.old ≤ M.room machine.new + 1 }
{
    check_rule(machine, p, Rule::in_task().in_handler())?;
    let t = task_named(machine, id)?;
    let to = machine.task(t).assigned;
    try_activate(machine, t, to, None)
}

/// Activates a task on a processor of its class. 0 is the initial one.
#[tactic(auto, unfolding(fmp_rules::specs::TaskCalls::mact))]
fn mact_tsk<M: Words>(machine: &mut M, p: Proc, id: i32, to: i32) -> Result<Effect, Code>
    requires { 0 < M.room machine.old }
    ensures row { let w = M.world machine.old in (M.world machine.new, effect_of result) ≡ called w p (mact M.ordering w (task_or_caller w p id) to) }
    ensures room { M.room machine.old ≤ M.room machine.new + 1 }
{
    check_rule(machine, p, Rule::in_task())?;
    let t = task_or_caller(machine, p, id)?;
    try_activate_at(machine, t, to)
}

/// The same from a handler.
#[tactic(auto, unfolding(fmp_rules::specs::TaskCalls::mact))]
fn imact_tsk<M: Words>(machine: &mut M, p: Proc, id: i32, to: i32) -> Result<Effect, Code>
    requires { 0 < M.room machine.old }
    ensures row { let w = M.world machine.old in (M.world machine.new, effect_of result) ≡ called w p (in_handler (mact M.ordering w (task_named w id) to)) }
    ensures room { M.room machine.old ≤ M.room machine.new + 1 }
{
    check_rule(machine, p, Rule::in_task().in_handler())?;
    let t = task_named(machine, id)?;
    try_activate_at(machine, t, to)
}

/// Activates a task to start on a processor that an argument names, or queues its activation, unless one is queued already.
#[tactic(auto, unfolding(fmp_rules::specs::TaskCalls::mact))]
fn try_activate_at<M: Words>(machine: &mut M, t: Task, to: i32) -> Result<Effect, Code>
    requires { 0 < M.room machine.old }
    ensures row { let w = M.world machine.old in let row = mact M.ordering w (Some t) to in (M.world machine.new, effect_of result) ≡ called_by w row.effect
        (first_error ((not row.known, code.Identifier) ∷ (not row.proper, code.Parameter) ∷ row.errors)) }
    ensures room { M.room machine.old ≤ M.room machine.new + 1 }
{
    let class = machine.task(t).setup.class;
    let to = processor_or_initial(machine, class, to)?;
    refuse_if(!class.has(to), Code::Parameter)?;
    try_activate(machine, t, to, Some(to))
}

/// Activates a task to start on a processor, or queues its activation, unless one is queued already.
fn try_activate<M: Words>(
    machine: &mut M,
    t: Task,
    to: Proc,
    kept: Option<Proc>,
) -> Result<Effect, Code>
    requires { 0 < M.room machine.old }
    ensures row { let w = M.world machine.old in let row = activation M.ordering w (Some t) (λ u. to) kept in (M.world machine.new, effect_of result)
        ≡ called_by w row.effect (first_error row.errors) }
    ensures room { M.room machine.old ≤ M.room machine.new + 1 }
{
    let task = machine.task(t);
    refuse_if(task.active && task.activations == 1, Code::QueueOverflow)?;
    activate(machine, t, to, kept);
    Ok(Effect::done())
}

/// Takes back the queued activations of a task, and tells their number.
#[tactic(auto, unfolding(fmp_rules::specs::TaskCalls::can_act))]
fn can_act<M: Words>(machine: &mut M, p: Proc, id: i32) -> Result<Effect, Code>
    ensures row { let w = M.world machine.old in (M.world machine.new, effect_of result) ≡ called w p (can_act w (task_or_caller w p id)) }
    ensures room { M.room machine.new ≡ M.room machine.old }
{
    check_rule(machine, p, Rule::in_task())?;
    let t = task_or_caller(machine, p, id)?;
    let task = machine.task(t);
    machine.set_task(
        t,
        TaskRecord {
            activations: 0,
            kept: None,
            ..task
        },
    );
    Ok(Effect::value(i64::from(task.activations)))
}

/// Assigns a task of this processor to one of its class. 0 is the initial one.
#[tactic(auto, unfolding(fmp_rules::specs::TaskCalls::mig_tsk))]
fn mig_tsk<M: Words>(machine: &mut M, p: Proc, id: i32, to: i32) -> Result<Effect, Code>
    requires { 0 < M.room machine.old }
    ensures row { let w = M.world machine.old in (M.world machine.new, effect_of result) ≡ called w p (mig_tsk M.ordering w p (task_or_caller w p id) to) }
    ensures room { M.room machine.old ≤ M.room machine.new + 1 }
{
    let named = find_task_or_caller(machine, p, id);
    let rule = Rule::in_task().unheld_if(is_caller(machine, p, named));
    check_rule(machine, p, rule)?;
    let t = named.ok_or(Code::Identifier)?;
    let task = machine.task(t);
    let to = processor_or_initial(machine, task.setup.class, to)?;
    refuse_if(!task.setup.class.has(to), Code::Parameter)?;
    refuse_if(task.assigned.number != p.number, Code::ObjectState)?;
    migrate(machine, t, to);
    Ok(Effect::done())
}

/// Ends the caller, and leaves its processor unlocked and its dispatching enabled.
#[tactic(auto, unfolding(fmp_rules::specs::TaskCalls::ext_tsk))]
fn ext_tsk<M: Words>(machine: &mut M, p: Proc) -> Result<Effect, Code>
    requires { 0 < M.room machine.old }
    ensures row { let w = M.world machine.old in (M.world machine.new, effect_of result) ≡ called w p (ext_tsk M.ordering w p) }
    ensures room { M.room machine.old ≤ M.room machine.new + 1 }
{
    check_rule(machine, p, Rule::in_task().when_locked())?;
    let t = caller(machine, p)?;
    open(machine, p);
    finish(machine, t);
    Ok(Effect::answer(Answer::Gone))
}

/// Ends another task of this processor.
#[tactic(auto, unfolding(fmp_rules::specs::TaskCalls::ter_tsk))]
fn ter_tsk<M: Words>(machine: &mut M, p: Proc, id: i32) -> Result<Effect, Code>
    requires { 0 < M.room machine.old }
    ensures row { let w = M.world machine.old in (M.world machine.new, effect_of result) ≡ called w p (ter_tsk M.ordering w p (task_named w id)) }
    ensures room { M.room machine.old ≤ M.room machine.new + 1 }
{
    check_rule(machine, p, Rule::in_task())?;
    let t = task_named(machine, id)?;
    refuse_if(is_caller(machine, p, Some(t)), Code::IllegalUse)?;
    let task = machine.task(t);
    refuse_if(
        !task.active || task.assigned.number != p.number,
        Code::ObjectState,
    )?;
    finish(machine, t);
    Ok(Effect::done())
}

/// Gives a task another priority. 0 is its initial one.
#[tactic(auto, unfolding(fmp_rules::specs::TaskCalls::chg_pri))]
fn chg_pri<M: Words>(machine: &mut M, p: Proc, id: i32, n: i32) -> Result<Effect, Code>
    requires { 0 < M.room machine.old }
    ensures row { let w = M.world machine.old in (M.world machine.new, effect_of result) ≡ called w p (chg_pri M.ordering w (task_or_caller w p id) n) }
    ensures room { M.room machine.old ≤ M.room machine.new + 1 }
{
    check_rule(machine, p, Rule::in_task())?;
    let t = task_or_caller(machine, p, id)?;
    let task = machine.task(t);
    let priority = priority_or(machine.limits(), task.setup.priority, n)?;
    refuse_if(!task.active, Code::ObjectState)?;
    change_priority(machine, t, priority);
    Ok(Effect::done())
}

/// Tells the priority of a task.
fn get_pri<M: Words>(machine: &mut M, p: Proc, id: i32) -> Result<Effect, Code>
    ensures row { let w = M.world machine.old in (M.world machine.new, effect_of result) ≡ called w p (get_pri w (task_or_caller w p id)) }
    ensures room { M.room machine.new ≡ M.room machine.old }
{
    check_rule(machine, p, Rule::in_task())?;
    let t = task_or_caller(machine, p, id)?;
    let task = machine.task(t);
    refuse_if(!task.active, Code::ObjectState)?;
    Ok(Effect::value(i64::from(task.priority.number)))
}
