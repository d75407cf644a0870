//! The calls on semaphores.
ghost use Rattle.std.specs.Prelude.{◌≡◌, ◌+◌, ◌<◌, ◌≤◌};
ghost use Rattle.fmp_rules.specs.Rows.{called};
ghost use Rattle.fmp_rules.specs.Outcomes.{effect_of};
ghost use Rattle.fmp_rules.specs.SyncCalls.{sig_sem, twai_sem, pol_sem};
ghost use Rattle.fmp_step_objects.specs.Forms.{form_from};

use crate::forms::check_form;
use crate::waits::caller_waits;
use fmp_codes::{Code, Proc};
use fmp_rules::{Context, Effect, QueueKind, Rule, Wait};
use fmp_step_words::{Objects, check_rule, check_timeout, refuse_if, release, semaphore_named};

/// Gives back one of a semaphore: releases the first waiter, or else counts.
#[tactic(auto, unfolding(fmp_rules::specs::SyncCalls::sig_sem))]
pub(crate) fn sig_sem<M: Objects>(
    machine: &mut M,
    p: Proc,
    context: Context,
    id: i32,
) -> Result<Effect, Code>
    requires { 0 < M.room machine.old }
    ensures row { let w = M.world machine.old in (M.world machine.new, effect_of result) ≡ called w p (form_from context (sig_sem M.ordering w id)) }
    ensures room { M.room machine.old ≤ M.room machine.new + 1 }
{
    check_form(machine, p, context, Rule::in_task())?;
    let s = semaphore_named(machine, id)?;
    let semaphore = machine.semaphore(s);
    let waiter = machine.first_waiter(QueueKind::Semaphore, s);
    refuse_if(
        waiter.is_none() && semaphore.setup.most <= semaphore.count,
        Code::QueueOverflow,
    )?;
    match waiter {
        None => {
            machine.set_count(s, semaphore.count + 1);
            Ok(Effect::done())
        }
        Some(t) => Ok(release(machine, t, Code::Accepted, None)),
    }
}

/// Takes one of a semaphore, or waits for it.
#[tactic(auto, unfolding(fmp_rules::specs::SyncCalls::twai_sem))]
pub(crate) fn twai_sem<M: Objects>(
    machine: &mut M,
    p: Proc,
    id: i32,
    timeout: i32,
) -> Result<Effect, Code>
    requires { 0 < M.room machine.old }
    ensures row { let w = M.world machine.old in (M.world machine.new, effect_of result) ≡ called w p (twai_sem M.ordering w p id timeout) }
    ensures room { M.room machine.old ≤ M.room machine.new + 1 }
{
    check_rule(machine, p, Rule::in_task().unheld_if(true))?;
    let s = semaphore_named(machine, id)?;
    check_timeout(timeout)?;
    let semaphore = machine.semaphore(s);
    if 0 < semaphore.count {
        machine.set_count(s, semaphore.count - 1);
        Ok(Effect::done())
    } else {
        caller_waits(machine, p, Wait::Semaphore(s), timeout)
    }
}

/// Takes one of a semaphore that has one.
#[tactic(auto, unfolding(fmp_rules::specs::SyncCalls::pol_sem))]
pub(crate) fn pol_sem<M: Objects>(machine: &mut M, p: Proc, id: i32) -> Result<Effect, Code>
    ensures row { let w = M.world machine.old in (M.world machine.new, effect_of result) ≡ called w p (pol_sem w id) }
    ensures room { M.room machine.new ≡ M.room machine.old }
{
    check_rule(machine, p, Rule::in_task())?;
    let s = semaphore_named(machine, id)?;
    let semaphore = machine.semaphore(s);
    refuse_if(semaphore.count == 0, Code::TimedOut)?;
    machine.set_count(s, semaphore.count - 1);
    Ok(Effect::done())
}
