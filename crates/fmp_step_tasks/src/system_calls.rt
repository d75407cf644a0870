//! The calls on the processors and on the state of dispatching.
ghost use Rattle.std.specs.Prelude.{◌≡◌, ◌+◌, ◌≤◌};
ghost use Rattle.fmp_rules.specs.Rows.{called};
ghost use Rattle.fmp_rules.specs.SystemCalls.{get_tid, get_pid, loc_cpu, unl_cpu, dis_dsp, ena_dsp, sense, system_row};
ghost use Rattle.fmp_rules.specs.Outcomes.{effect_of};

use crate::rotation::{rotation, rotation_in_handler};
use fmp_codes::{Code, Proc, SystemCall};
use fmp_rules::{Effect, Rule};
use fmp_step_words::{
    Words, check_rule, find_processor, is_held, refuse_if, set_dispatching_disabled, set_locked,
};

/// A call on the processors or on the state of dispatching: what it does, or the code that refuses it.
pub fn system_call<M: Words>(machine: &mut M, p: Proc, call: SystemCall) -> Result<Effect, Code>
    requires { 64 ≤ M.room machine.old }
    ensures row { let w = M.world machine.old in (M.world machine.new, effect_of result) ≡ called w p (system_row M.ordering w p call) }
    ensures room { M.room machine.old ≤ M.room machine.new + 64 }
{
    let in_task = Rule::in_task();
    let in_handler = Rule::in_task().in_handler();
    match call {
        SystemCall::RotRdq(n) => rotation(machine, p, Some(p), n),
        SystemCall::IrotRdq(n) => rotation_in_handler(machine, p, Some(p), n),
        SystemCall::MrotRdq(n, q) => rotation(machine, p, find_processor(machine, q), n),
        SystemCall::ImrotRdq(n, q) => rotation_in_handler(
            machine,
            p,
            find_processor(machine, q),
            n,
        ),
        SystemCall::GetTid => get_tid(machine, p, in_task),
        SystemCall::IgetTid => get_tid(machine, p, in_handler),
        SystemCall::GetPid => get_pid(machine, p, in_task),
        SystemCall::IgetPid => get_pid(machine, p, in_handler),
        SystemCall::LocCpu => loc_cpu(machine, p, in_task.when_locked()),
        SystemCall::IlocCpu => loc_cpu(machine, p, in_handler.when_locked()),
        SystemCall::UnlCpu => unl_cpu(machine, p, in_task.when_locked()),
        SystemCall::IunlCpu => unl_cpu(machine, p, in_handler.when_locked()),
        SystemCall::DisDsp => dis_dsp(machine, p),
        SystemCall::EnaDsp => ena_dsp(machine, p),
        SystemCall::SnsCtx => sense(machine, p, machine.handler(p).is_some()),
        SystemCall::SnsLoc => sense(machine, p, machine.processor(p).locked),
        SystemCall::SnsDsp => sense(machine, p, machine.processor(p).disabled),
        SystemCall::SnsDpn => sense(machine, p, is_held(machine, p)),
    }
}

/// Tells the number of the running task, or 0.
fn get_tid<M: Words>(machine: &mut M, p: Proc, rule: Rule) -> Result<Effect, Code>
    ensures row { let w = M.world machine.old in (M.world machine.new, effect_of result) ≡ called w p (record (get_tid w p) { rule = rule }) }
    ensures room { M.room machine.new ≡ M.room machine.old }
{
    check_rule(machine, p, rule)?;
    let running = machine.processor(p).running;
    Ok(Effect::value(running.map_or(0, |t| i64::from(t.number))))
}

/// Tells the number of the processor.
fn get_pid<M: Words>(machine: &mut M, p: Proc, rule: Rule) -> Result<Effect, Code>
    ensures row { let w = M.world machine.old in (M.world machine.new, effect_of result) ≡ called w p (record (get_pid w p) { rule = rule }) }
    ensures room { M.room machine.new ≡ M.room machine.old }
{
    check_rule(machine, p, rule)?;
    Ok(Effect::value(i64::from(p.number)))
}

/// Locks the processor.
fn loc_cpu<M: Words>(machine: &mut M, p: Proc, rule: Rule) -> Result<Effect, Code>
    ensures row { let w = M.world machine.old in (M.world machine.new, effect_of result) ≡ called w p (record (loc_cpu w p) { rule = rule }) }
    ensures room { M.room machine.new ≡ M.room machine.old }
{
    check_rule(machine, p, rule)?;
    set_locked(machine, p, true);
    Ok(Effect::done())
}

/// Unlocks the processor. One that holds a spin lock is unlocked with it alone.
fn unl_cpu<M: Words>(machine: &mut M, p: Proc, rule: Rule) -> Result<Effect, Code>
    ensures row { let w = M.world machine.old in (M.world machine.new, effect_of result) ≡ called w p (record (unl_cpu w p) { rule = rule }) }
    ensures room { M.room machine.new ≡ M.room machine.old }
{
    check_rule(machine, p, rule)?;
    refuse_if(machine.holds_lock(p), Code::IllegalUse)?;
    set_locked(machine, p, false);
    Ok(Effect::done())
}

/// Disables dispatching on the processor.
fn dis_dsp<M: Words>(machine: &mut M, p: Proc) -> Result<Effect, Code>
    ensures row { let w = M.world machine.old in (M.world machine.new, effect_of result) ≡ called w p (dis_dsp w p) }
    ensures room { M.room machine.new ≡ M.room machine.old }
{
    check_rule(machine, p, Rule::in_task())?;
    set_dispatching_disabled(machine, p, true);
    Ok(Effect::done())
}

/// Enables dispatching on the processor.
fn ena_dsp<M: Words>(machine: &mut M, p: Proc) -> Result<Effect, Code>
    ensures row { let w = M.world machine.old in (M.world machine.new, effect_of result) ≡ called w p (ena_dsp w p) }
    ensures room { M.room machine.new ≡ M.room machine.old }
{
    check_rule(machine, p, Rule::in_task())?;
    set_dispatching_disabled(machine, p, false);
    Ok(Effect::done())
}

/// Tells whether this is so.
fn sense<M: Words>(machine: &mut M, p: Proc, is_so: bool) -> Result<Effect, Code>
    ensures row { let w = M.world machine.old in (M.world machine.new, effect_of result) ≡ called w p (sense w is_so) }
    ensures room { M.room machine.new ≡ M.room machine.old }
{
    check_rule(machine, p, Rule::anywhere())?;
    Ok(Effect::value(i64::from(is_so)))
}
