//! The calls on alarms.
ghost use Rattle.std.specs.Prelude.{◌≡◌};
ghost use Rattle.fmp_rules.specs.Rows.{called};
ghost use Rattle.fmp_rules.specs.Outcomes.{effect_of};
ghost use Rattle.fmp_rules.specs.TimeCalls.{sta_alm, msta_alm, stp_alm};
ghost use Rattle.fmp_step_objects.specs.Forms.{form_from};

use crate::forms::check_form;
use fmp_codes::{Code, Proc};
use fmp_rules::{Context, Effect, Rule};
use fmp_step_words::{Objects, alarm_named, check_time, processor_or_initial, refuse_if, ticks_of};

/// Starts an alarm with a time where it is assigned.
#[tactic(auto, unfolding(fmp_rules::specs::TimeCalls::sta_alm))]
pub(crate) fn sta_alm<M: Objects>(
    machine: &mut M,
    p: Proc,
    context: Context,
    id: i32,
    time: i32,
) -> Result<Effect, Code>
    ensures row { let w = M.world machine.old in (M.world machine.new, effect_of result) ≡ called w p (form_from context (sta_alm w id time)) }
    ensures room { M.room machine.new ≡ M.room machine.old }
{
    check_form(machine, p, context, Rule::in_task())?;
    let a = alarm_named(machine, id)?;
    check_time(time)?;
    machine.set_alarm_left(a, ticks_of(time));
    Ok(Effect::done())
}

/// Starts an alarm with a time on the processor that the call names.
#[tactic(auto, unfolding(fmp_rules::specs::TimeCalls::msta_alm))]
pub(crate) fn msta_alm<M: Objects>(
    machine: &mut M,
    p: Proc,
    context: Context,
    id: i32,
    time: i32,
    to: i32,
) -> Result<Effect, Code>
    ensures row { let w = M.world machine.old in (M.world machine.new, effect_of result) ≡ called w p (form_from context (msta_alm w id time to)) }
    ensures room { M.room machine.new ≡ M.room machine.old }
{
    check_form(machine, p, context, Rule::in_task())?;
    let a = alarm_named(machine, id)?;
    let class = machine.alarm(a).setup.class;
    let to = processor_or_initial(machine, class, to)?;
    check_time(time)?;
    refuse_if(!class.has(to), Code::Parameter)?;
    machine.assign_alarm(a, to);
    machine.set_alarm_left(a, ticks_of(time));
    Ok(Effect::done())
}

/// Stops an alarm.
#[tactic(auto, unfolding(fmp_rules::specs::TimeCalls::stp_alm))]
pub(crate) fn stp_alm<M: Objects>(
    machine: &mut M,
    p: Proc,
    context: Context,
    id: i32,
) -> Result<Effect, Code>
    ensures row { let w = M.world machine.old in (M.world machine.new, effect_of result) ≡ called w p (form_from context (stp_alm w id)) }
    ensures room { M.room machine.new ≡ M.room machine.old }
{
    check_form(machine, p, context, Rule::in_task())?;
    let a = alarm_named(machine, id)?;
    machine.set_alarm_left(a, None);
    Ok(Effect::done())
}
