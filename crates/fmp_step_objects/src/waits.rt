//! How the task that makes a call waits.
ghost use Rattle.std.specs.Prelude.{◌≡◌, ◌+◌, ◌<◌, ◌≤◌, true, is_some};
ghost use Rattle.fmp_rules.specs.World.{processor};
ghost use Rattle.fmp_rules.specs.Arguments.{caller};
ghost use Rattle.fmp_rules.specs.Rows.{wait_for};
ghost use Rattle.fmp_rules.specs.Outcomes.{effect_of};

use fmp_codes::{Code, Proc};
use fmp_rules::{Effect, Wait};
use fmp_step_words::{Words, caller, wait_for};

/// Lets the task that calls from a processor wait for so long, unless the timeout is 0.
pub(crate) fn caller_waits<M: Words>(
    machine: &mut M,
    p: Proc,
    wait: Wait,
    timeout: i32,
) -> Result<Effect, Code>
    requires caller { is_some (processor (M.world machine.old) p).running ≡ true }
    requires room { 0 < M.room machine.old }
    ensures state { let w = M.world machine.old in (M.world machine.new, effect_of result) ≡ wait_for M.ordering w (caller w p) wait timeout }
    ensures room { M.room machine.old ≤ M.room machine.new + 1 }
{
    let t = caller(machine, p)?;
    wait_for(machine, t, wait, timeout)
}
