//! The calls that rotate the ready tasks of a priority.
ghost use Rattle.std.specs.Prelude.{◌≡◌, ◌+◌, ◌<◌, ◌≤◌};
ghost use Rattle.fmp_rules.specs.World.{first};
ghost use Rattle.fmp_rules.specs.Tasks.{rotate};
ghost use Rattle.fmp_rules.specs.Rows.{called};
ghost use Rattle.fmp_rules.specs.SystemCalls.{rotation, rotation_in_handler};
ghost use Rattle.fmp_rules.specs.Outcomes.{effect_of};

use fmp_codes::{Code, Pri, Proc};
use fmp_rules::{Effect, Rule};
use fmp_step_words::{Words, caller, check_rule, priority_or, refuse_if, rotate};

/// Lets the first of the ready tasks of a priority on a processor come last of it. 0 is the priority of the caller.
#[tactic(auto, unfolding(fmp_rules::specs::SystemCalls::rotation))]
pub(crate) fn rotation<M: Words>(
    machine: &mut M,
    p: Proc,
    named: Option<Proc>,
    n: i32,
) -> Result<Effect, Code>
    requires { 0 < M.room machine.old }
    ensures row { let w = M.world machine.old in (M.world machine.new, effect_of result) ≡ called w p (rotation M.ordering w p named n) }
    ensures room { M.room machine.old ≤ M.room machine.new + 1 }
{
    check_rule(machine, p, Rule::in_task())?;
    let q = named.ok_or(Code::Identifier)?;
    let t = caller(machine, p)?;
    let priority = priority_or(machine.limits(), machine.task(t).priority, n)?;
    rotate_first(machine, q, priority);
    Ok(Effect::done())
}

/// The same from a handler, which has no priority for 0 to stand for.
#[tactic(auto, unfolding(fmp_rules::specs::SystemCalls::rotation, fmp_rules::specs::SystemCalls::rotation_in_handler))]
pub(crate) fn rotation_in_handler<M: Words>(
    machine: &mut M,
    p: Proc,
    named: Option<Proc>,
    n: i32,
) -> Result<Effect, Code>
    requires { 0 < M.room machine.old }
    ensures row { let w = M.world machine.old in (M.world machine.new, effect_of result) ≡ called w p (rotation_in_handler M.ordering w p named n) }
    ensures room { M.room machine.old ≤ M.room machine.new + 1 }
{
    check_rule(machine, p, Rule::in_task().in_handler())?;
    let q = named.ok_or(Code::Identifier)?;
    refuse_if(n == 0, Code::Parameter)?;
    let priority = priority_or(machine.limits(), Pri::new(1), n)?;
    rotate_first(machine, q, priority);
    Ok(Effect::done())
}

/// Lets the first of the ready tasks of a priority on a processor come last of it.
fn rotate_first<M: Words>(machine: &mut M, q: Proc, priority: Pri)
    requires { 0 < M.room machine.old }
    ensures state { let w = M.world machine.old in M.world machine.new ≡ rotate M.ordering w (first (M.ordering.ready w.order w.tasks q priority)) }
    ensures room { M.room machine.old ≤ M.room machine.new + 1 }
{
    let first = machine.first_ready(q, priority);
    rotate(machine, first);
}
