//! The calls on spin locks, and the return of a handler.
ghost use Rattle.std.specs.Prelude.{◌≡◌};
ghost use Rattle.fmp_rules.specs.Processors.{is_at};
ghost use Rattle.fmp_rules.specs.Rows.{called};
ghost use Rattle.fmp_rules.specs.Outcomes.{effect_of};
ghost use Rattle.fmp_rules.specs.SpinCalls.{loc_spn, try_spn, unl_spn, ret_hdr};
ghost use Rattle.fmp_step_objects.specs.Forms.{form_from};

use crate::forms::check_form;
use fmp_codes::{Answer, Code, Proc};
use fmp_rules::{Context, Effect, Rule};
use fmp_step_words::{Objects, check_rule, refuse_if, spin_lock_named};

/// Takes a spin lock, or tells that it is taken.
#[tactic(auto, unfolding(fmp_rules::specs::SpinCalls::loc_spn))]
pub(crate) fn loc_spn<M: Objects>(
    machine: &mut M,
    p: Proc,
    context: Context,
    id: i32,
) -> Result<Effect, Code>
    ensures row { let w = M.world machine.old in (M.world machine.new, effect_of result) ≡ called w p (form_from context (loc_spn w p id)) }
    ensures room { M.room machine.new ≡ M.room machine.old }
{
    check_form(machine, p, context, Rule::in_task())?;
    let l = spin_lock_named(machine, id)?;
    if machine.holder(l).is_some() {
        Ok(Effect::answer(Answer::Spin))
    } else {
        machine.take_lock(p, l);
        Ok(Effect::done())
    }
}

/// Takes a spin lock that is free.
#[tactic(auto, unfolding(fmp_rules::specs::SpinCalls::try_spn))]
pub(crate) fn try_spn<M: Objects>(
    machine: &mut M,
    p: Proc,
    context: Context,
    id: i32,
) -> Result<Effect, Code>
    ensures row { let w = M.world machine.old in (M.world machine.new, effect_of result) ≡ called w p (form_from context (try_spn w p id)) }
    ensures room { M.room machine.new ≡ M.room machine.old }
{
    check_form(machine, p, context, Rule::in_task())?;
    let l = spin_lock_named(machine, id)?;
    refuse_if(machine.holder(l).is_some(), Code::ObjectState)?;
    machine.take_lock(p, l);
    Ok(Effect::done())
}

/// Whether a processor holds what has this holder.
fn is_at(p: Proc, holder: Option<Proc>) -> bool
    ensures { result ≡ is_at p holder }
{
    match holder {
        Some(q) => p.number == q.number,
        None => false,
    }
}

/// Frees a spin lock that the processor holds.
#[tactic(auto, unfolding(fmp_rules::specs::SpinCalls::unl_spn))]
pub(crate) fn unl_spn<M: Objects>(
    machine: &mut M,
    p: Proc,
    context: Context,
    id: i32,
) -> Result<Effect, Code>
    ensures row { let w = M.world machine.old in (M.world machine.new, effect_of result) ≡ called w p (form_from context (unl_spn w p id)) }
    ensures room { M.room machine.new ≡ M.room machine.old }
{
    check_form(machine, p, context, Rule::in_task().when_locked())?;
    let l = spin_lock_named(machine, id)?;
    refuse_if(!is_at(p, machine.holder(l)), Code::IllegalUse)?;
    machine.unlock(p);
    Ok(Effect::done())
}

/// Ends the handler that runs on a processor, which leaves the CPU-locked state and frees the spin lock that it holds.
#[tactic(auto, unfolding(fmp_rules::specs::SpinCalls::ret_hdr))]
pub fn ret_hdr<M: Objects>(machine: &mut M, p: Proc) -> Result<Effect, Code>
    ensures row { let w = M.world machine.old in (M.world machine.new, effect_of result) ≡ called w p (ret_hdr w p) }
    ensures room { M.room machine.new ≡ M.room machine.old }
{
    check_rule(machine, p, Rule::in_task().when_locked().in_handler())?;
    machine.unlock(p);
    machine.end_handler(p);
    Ok(Effect::done())
}
