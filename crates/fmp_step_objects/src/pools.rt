//! The calls on fixed-sized memory pools.
ghost use Rattle.std.specs.Prelude.{◌≡◌, ◌+◌, ◌<◌, ◌≤◌};
ghost use Rattle.fmp_rules.specs.World.{first};
ghost use Rattle.fmp_rules.specs.Ordering.{queue};
ghost use Rattle.fmp_rules.specs.Rows.{called};
ghost use Rattle.fmp_rules.specs.Outcomes.{effect_of};
ghost use Rattle.fmp_rules.specs.BufferCalls.{given, returned, tget_mpf, pget_mpf, rel_mpf};

use crate::waits::caller_waits;
use fmp_codes::{Code, Object, Proc};
use fmp_rules::{Effect, QueueKind, Rule, Wait};
use fmp_step_words::{Objects, check_rule, check_timeout, pool_named, refuse_if, release};

/// Hands out a block of a pool, which is told.
fn give<M: Objects>(machine: &mut M, m: Object, block: u8) -> Effect
    ensures state { (M.world machine.new, result) ≡ given (M.world machine.old) m block }
    ensures room { M.room machine.new ≡ M.room machine.old }
{
    machine.set_handed(m, block, true);
    Effect::value(i64::from(block))
}

/// Gets a block of a pool, or waits for one.
#[tactic(auto, unfolding(fmp_rules::specs::BufferCalls::tget_mpf))]
pub(crate) fn tget_mpf<M: Objects>(
    machine: &mut M,
    p: Proc,
    id: i32,
    timeout: i32,
) -> Result<Effect, Code>
    requires { 0 < M.room machine.old }
    ensures row { let w = M.world machine.old in (M.world machine.new, effect_of result) ≡ called w p (tget_mpf M.ordering w p id timeout) }
    ensures room { M.room machine.old ≤ M.room machine.new + 1 }
{
    check_rule(machine, p, Rule::in_task().unheld_if(true))?;
    let m = pool_named(machine, id)?;
    check_timeout(timeout)?;
    match machine.free_block(m) {
        Some(block) => Ok(give(machine, m, block)),
        None => caller_waits(machine, p, Wait::Pool(m), timeout),
    }
}

/// Gets a block of a pool that has a free one.
#[tactic(auto, unfolding(fmp_rules::specs::BufferCalls::pget_mpf))]
pub(crate) fn pget_mpf<M: Objects>(machine: &mut M, p: Proc, id: i32) -> Result<Effect, Code>
    ensures row { let w = M.world machine.old in (M.world machine.new, effect_of result) ≡ called w p (pget_mpf w id) }
    ensures room { M.room machine.new ≡ M.room machine.old }
{
    check_rule(machine, p, Rule::in_task())?;
    let m = pool_named(machine, id)?;
    let block = machine.free_block(m).ok_or(Code::TimedOut)?;
    Ok(give(machine, m, block))
}

/// Hands a block to the first task that waits for one, or else makes it free.
fn take_back<M: Objects>(machine: &mut M, m: Object, block: u8) -> Effect
    requires { 0 < M.room machine.old }
    ensures state { let w = M.world machine.old in (M.world machine.new, result) ≡ returned M.ordering w m block (first (queue M.ordering w QueueKind.Pool m)) }
    ensures room { M.room machine.old ≤ M.room machine.new + 1 }
{
    match machine.first_waiter(QueueKind::Pool, m) {
        None => {
            machine.set_handed(m, block, false);
            Effect::done()
        }
        Some(t) => release(machine, t, Code::Accepted, Some(i64::from(block))),
    }
}

/// Gives back a block of a pool that is handed out.
#[tactic(auto, unfolding(fmp_rules::specs::BufferCalls::rel_mpf))]
pub(crate) fn rel_mpf<M: Objects>(
    machine: &mut M,
    p: Proc,
    id: i32,
    block: i32,
) -> Result<Effect, Code>
    requires { 0 < M.room machine.old }
    ensures row { let w = M.world machine.old in (M.world machine.new, effect_of result) ≡ called w p (rel_mpf M.ordering w id block) }
    ensures room { M.room machine.old ≤ M.room machine.new + 1 }
{
    check_rule(machine, p, Rule::in_task())?;
    let m = pool_named(machine, id)?;
    refuse_if(!machine.is_handed(m, block), Code::Parameter)?;
    Ok(take_back(machine, m, block as u8))
}
