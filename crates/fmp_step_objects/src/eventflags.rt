//! The calls on eventflags.
ghost use Rattle.std.specs.Prelude.{◌≡◌, ◌+◌, ◌<◌, ◌≤◌, ◌&&◌, [], true, not, nat_lt, is_some, length};
ghost use Rattle.fmp_rules.specs.Arguments.{is_timeout};
ghost use Rattle.fmp_rules.specs.World.{processor};
ghost use Rattle.fmp_rules.specs.Effects.{adding};
ghost use Rattle.fmp_rules.specs.Rows.{and_releases, called, done_or_wait};
ghost use Rattle.fmp_rules.specs.Objects.{eventflag, holds};
ghost use Rattle.fmp_rules.specs.Outcomes.{effect_of, refused_if};
ghost use Rattle.fmp_rules.specs.SyncCalls.{is_met, cleared, served, is_taken, answered, set_flg, clr_flg, twai_flg, pol_flg};
ghost use Rattle.fmp_step_objects.specs.Forms.{form_from};

use crate::forms::check_form;
use crate::waits::caller_waits;
use fmp_codes::{Code, Mode, Object, Proc, Release, Releases, Task};
use fmp_rules::{Context, Effect, QueueKind, Rule, Wait};
use fmp_step_words::{Objects, check_rule, check_timeout, eventflag_named, make_ready, refuse_if};

/// Whether the bits of a pattern are set: all of them, or one.
fn holds(x: u32, pattern: u32, mode: Mode) -> bool
    ensures { result ≡ holds x pattern mode }
{
    match mode {
        Mode::Andw => x & pattern == pattern,
        Mode::Orw => x & pattern != 0,
    }
}

/// Whether this is a wait for an eventflag that these bits meet.
fn is_met(x: u32, wait: Option<Wait>) -> bool
    ensures { result ≡ is_met x wait }
{
    match wait {
        Some(Wait::Eventflag(_, pattern, mode)) => holds(x, pattern, mode),
        _ => false,
    }
}

/// The bits of an eventflag after a release.
fn cleared<M: Objects>(machine: &M, f: Object, x: u32) -> u32
    ensures { result ≡ cleared (M.world machine.now) f x }
{
    if machine.eventflag(f).setup.clears {
        0
    } else {
        x
    }
}

/// Sets the bits of an eventflag, and releases those of these tasks whose waits they meet, in their order. Each release is told
/// as the last one.
fn serve<M: Objects>(machine: &mut M, f: Object, x: u32, tasks: &[Task], releases: &mut Releases)
    requires few { length releases.old + length tasks.now ≤ 64 }
    requires room { length tasks.now ≤ M.room machine.old }
    ensures state { (M.world machine.new, releases.new) ≡ and_releases releases.old (served M.ordering (M.world machine.old) f x tasks.now) }
    ensures room { M.room machine.old ≤ M.room machine.new + length tasks.now }
{
    let mut bits = x;
    for t in tasks {
        let wait = machine.task(*t).wait;
        if is_met(bits, wait) {
            let rest = cleared(machine, f, bits);
            make_ready(machine, *t);
            releases.push(Release {
                task: *t,
                code: Code::Accepted,
                value: Some(i64::from(bits)),
            });
            bits = rest;
        }
    }
    machine.set_pattern(f, bits);
}

/// Sets bits of an eventflag, and releases those whose waits they meet, which it tells in their order.
#[tactic(auto, unfolding(fmp_rules::specs::SyncCalls::set_flg))]
pub(crate) fn set_flg<M: Objects>(
    machine: &mut M,
    p: Proc,
    context: Context,
    id: i32,
    pattern: u32,
    releases: &mut Releases,
) -> Result<Effect, Code>
    requires room { 64 ≤ M.room machine.old }
    requires empty { releases.old ≡ [] }
    ensures row { let w = M.world machine.old in (M.world machine.new, adding releases.new (effect_of result)) ≡ called w p
        (form_from context (set_flg M.ordering w id pattern)) }
    ensures once { (effect_of result).releases ≡ [] }
    ensures room { M.room machine.old ≤ M.room machine.new + 64 }
{
    check_form(machine, p, context, Rule::in_task())?;
    let f = eventflag_named(machine, id)?;
    let bits = machine.eventflag(f).pattern | pattern;
    let waiters = machine.waiters(QueueKind::Eventflag, f);
    serve(machine, f, bits, waiters.as_slice(), releases);
    Ok(Effect::done())
}

/// Clears all bits of an eventflag that are not those of a pattern.
#[tactic(auto, unfolding(fmp_rules::specs::SyncCalls::clr_flg))]
pub(crate) fn clr_flg<M: Objects>(
    machine: &mut M,
    p: Proc,
    id: i32,
    pattern: u32,
) -> Result<Effect, Code>
    ensures row { let w = M.world machine.old in (M.world machine.new, effect_of result) ≡ called w p (clr_flg w id pattern) }
    ensures room { M.room machine.new ≡ M.room machine.old }
{
    check_rule(machine, p, Rule::in_task())?;
    let f = eventflag_named(machine, id)?;
    let bits = machine.eventflag(f).pattern & pattern;
    machine.set_pattern(f, bits);
    Ok(Effect::done())
}

/// Whether no other task may wait for an eventflag, since one does already.
fn is_taken<M: Objects>(machine: &M, f: Object) -> bool
    ensures { result ≡ is_taken M.ordering (M.world machine.now) f }
{
    let waiter = machine.first_waiter(QueueKind::Eventflag, f);
    !machine.eventflag(f).setup.many && waiter.is_some()
}

/// Tells the bits of an eventflag, which may be cleared.
fn answer<M: Objects>(machine: &mut M, f: Object) -> Effect
    ensures state { (M.world machine.new, result) ≡ answered (M.world machine.old) f }
    ensures room { M.room machine.new ≡ M.room machine.old }
{
    let bits = machine.eventflag(f).pattern;
    let rest = cleared(machine, f, bits);
    machine.set_pattern(f, rest);
    Effect::value(i64::from(bits))
}

/// Tells the bits of an eventflag, if those of a pattern are set, or lets the caller wait for them.
fn answer_or_wait<M: Objects>(
    machine: &mut M,
    p: Proc,
    f: Object,
    pattern: u32,
    mode: Mode,
    timeout: i32,
) -> Result<Effect, Code>
    requires caller { is_some (processor (M.world machine.old) p).running ≡ true }
    requires room { 0 < M.room machine.old }
    ensures state { let w = M.world machine.old in (M.world machine.new, effect_of result) ≡ done_or_wait M.ordering w p (holds (eventflag w f).pattern pattern mode)
        (answered w f) (Wait.Eventflag f pattern mode) timeout }
    ensures room { M.room machine.old ≤ M.room machine.new + 1 }
{
    if holds(machine.eventflag(f).pattern, pattern, mode) {
        Ok(answer(machine, f))
    } else {
        caller_waits(machine, p, Wait::Eventflag(f, pattern, mode), timeout)
    }
}

/// Refuses a pattern that has no bit, and a timeout that is out of its range.
fn check_wait(pattern: u32, timeout: i32) -> Result<(), Code>
    ensures { result ≡ refused_if (not (nat_lt 0 pattern && is_timeout timeout)) Code.Parameter }
{
    refuse_if(pattern == 0, Code::Parameter)?;
    check_timeout(timeout)
}

/// Tells the bits of an eventflag once those of a pattern are set.
#[tactic(auto, unfolding(fmp_rules::specs::SyncCalls::twai_flg))]
pub(crate) fn twai_flg<M: Objects>(
    machine: &mut M,
    p: Proc,
    id: i32,
    pattern: u32,
    mode: Mode,
    timeout: i32,
) -> Result<Effect, Code>
    requires { 0 < M.room machine.old }
    ensures row { let w = M.world machine.old in (M.world machine.new, effect_of result) ≡ called w p (twai_flg M.ordering w p id pattern mode timeout) }
    ensures room { M.room machine.old ≤ M.room machine.new + 1 }
{
    check_rule(machine, p, Rule::in_task().unheld_if(true))?;
    let f = eventflag_named(machine, id)?;
    check_wait(pattern, timeout)?;
    refuse_if(is_taken(machine, f), Code::IllegalUse)?;
    answer_or_wait(machine, p, f, pattern, mode, timeout)
}

/// Tells the bits of an eventflag, if those of a pattern are set.
#[tactic(auto, unfolding(fmp_rules::specs::SyncCalls::pol_flg))]
pub(crate) fn pol_flg<M: Objects>(
    machine: &mut M,
    p: Proc,
    id: i32,
    pattern: u32,
    mode: Mode,
) -> Result<Effect, Code>
    ensures row { let w = M.world machine.old in (M.world machine.new, effect_of result) ≡ called w p (pol_flg M.ordering w id pattern mode) }
    ensures room { M.room machine.new ≡ M.room machine.old }
{
    check_rule(machine, p, Rule::in_task())?;
    let f = eventflag_named(machine, id)?;
    refuse_if(pattern == 0, Code::Parameter)?;
    refuse_if(is_taken(machine, f), Code::IllegalUse)?;
    let bits = machine.eventflag(f).pattern;
    refuse_if(!holds(bits, pattern, mode), Code::TimedOut)?;
    Ok(answer(machine, f))
}
