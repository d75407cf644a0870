//! The calls on cyclic handlers.
ghost use Rattle.std.specs.Prelude.{◌≡◌};
ghost use Rattle.fmp_rules.specs.Rows.{called};
ghost use Rattle.fmp_rules.specs.Outcomes.{effect_of};
ghost use Rattle.fmp_rules.specs.TimeCalls.{begun, sta_cyc, msta_cyc, stp_cyc};

use fmp_codes::{Code, Object, Proc};
use fmp_rules::{Effect, Rule};
use fmp_step_words::{Objects, check_rule, cyclic_named, processor_or_initial, refuse_if};

/// Lets a cyclic handler begin with its phase.
fn begin<M: Objects>(machine: &mut M, c: Object)
    ensures state { M.world machine.new ≡ begun (M.world machine.old) c }
    ensures room { M.room machine.new ≡ M.room machine.old }
{
    let phase = u64::from(machine.cyclic(c).setup.phase);
    machine.set_cyclic_left(c, Some(phase + 1));
}

/// Starts a cyclic handler where it is assigned.
#[tactic(auto, unfolding(fmp_rules::specs::TimeCalls::sta_cyc))]
pub(crate) fn sta_cyc<M: Objects>(machine: &mut M, p: Proc, id: i32) -> Result<Effect, Code>
    ensures row { let w = M.world machine.old in (M.world machine.new, effect_of result) ≡ called w p (sta_cyc w id) }
    ensures room { M.room machine.new ≡ M.room machine.old }
{
    check_rule(machine, p, Rule::in_task())?;
    let c = cyclic_named(machine, id)?;
    begin(machine, c);
    Ok(Effect::done())
}

/// Starts a cyclic handler on the processor that the call names.
#[tactic(auto, unfolding(fmp_rules::specs::TimeCalls::msta_cyc))]
pub(crate) fn msta_cyc<M: Objects>(
    machine: &mut M,
    p: Proc,
    id: i32,
    to: i32,
) -> Result<Effect, Code>
    ensures row { let w = M.world machine.old in (M.world machine.new, effect_of result) ≡ called w p (msta_cyc w id to) }
    ensures room { M.room machine.new ≡ M.room machine.old }
{
    check_rule(machine, p, Rule::in_task())?;
    let c = cyclic_named(machine, id)?;
    let class = machine.cyclic(c).setup.class;
    let to = processor_or_initial(machine, class, to)?;
    refuse_if(!class.has(to), Code::Parameter)?;
    machine.assign_cyclic(c, to);
    begin(machine, c);
    Ok(Effect::done())
}

/// Stops a cyclic handler.
#[tactic(auto, unfolding(fmp_rules::specs::TimeCalls::stp_cyc))]
pub(crate) fn stp_cyc<M: Objects>(machine: &mut M, p: Proc, id: i32) -> Result<Effect, Code>
    ensures row { let w = M.world machine.old in (M.world machine.new, effect_of result) ≡ called w p (stp_cyc w id) }
    ensures room { M.room machine.new ≡ M.room machine.old }
{
    check_rule(machine, p, Rule::in_task())?;
    let c = cyclic_named(machine, id)?;
    machine.set_cyclic_left(c, None);
    Ok(Effect::done())
}
