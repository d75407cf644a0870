//! One step of a machine.
ghost use Rattle.std.specs.Prelude.{◌≡◌, ◌+◌, ◌≤◌, [], if◌then◌else◌};
ghost use Rattle.fmp_rules.specs.Telling.{effect_reported};
ghost use Rattle.fmp_setup.specs.Setup.{has_time};
ghost use Rattle.fmp_rules.specs.World.{processor, runner_of};
ghost use Rattle.fmp_rules.specs.Step.{before_event, settled, unchanged, step};
ghost use Rattle.fmp_step.specs.Before.{seen};

use crate::dispatch::{changed_run, is_settled, settle};
use crate::family;
use crate::tick::tick;
use fmp_codes::{Answer, Call, Event, Proc, Record, Requests, Task};
use fmp_rules::Timer;
use fmp_step_words::{Overview, Tops, Words, is_held, runner};

/// What is remembered of the state before an event, besides what its record tells.
#[derive(Drop)]
struct Before {
    running: Option<Task>,
    tops: Tops,
}

/// What is remembered of the state before an event on q, whose record tells the event and who could make a call.
#[inline(always)]
#[tactic(auto, unfolding(fmp_rules::specs::Step::before_event))]
fn before_event<M: Overview>(machine: &M, q: Proc, report: &Record) -> Before
    requires runner { report.now.runner ≡ runner_of (M.world machine.now) q }
    ensures { seen report.now q result ≡ before_event M.ordering (M.world machine.now) report.now.event q }
{
    Before {
        running: machine.processor(q).running,
        tops: machine.tops(),
    }
}

/// The end of an event on q whose record tells its effect already.
#[inline(always)]
#[tactic(auto, unfolding(fmp_rules::specs::Step::settled))]
fn settled<M: Overview>(machine: &mut M, q: Proc, before: &Before, report: &mut Record)
    ensures step { (M.world machine.new, report.new) ≡ settled M.ordering (seen report.old q before.now) (M.world machine.old, effect_reported report.old) }
    ensures room { M.room machine.new ≡ M.room machine.old }
{
    settle(machine, &before.tops, q, &mut report.requests);
    let running = machine.processor(q).running;
    report.run_change = changed_run(before.running, running);
}

/// Makes the record of an event that changes nothing. It tells the event and who could make a call already.
#[tactic(auto, unfolding(fmp_rules::specs::Step::unchanged))]
fn unchanged<M: Words>(machine: &M, q: Proc, answer: Answer, report: &mut Record)
    requires empty { report.old.releases ≡ [] }
    requires runner { report.old.runner ≡ runner_of (M.world machine.now) q }
    ensures { (M.world machine.now, report.new) ≡ unchanged (M.world machine.now) report.old.event q answer }
{
    report.answer = answer;
    report.lost = None;
    report.run_change = None;
    report.requests = Requests::new();
}

/// Plays one event, and tells what it answers and did.
pub fn step<M: Overview>(machine: &mut M, event: Event) -> Record
    requires { 64 ≤ M.room machine.old }
    ensures step { (M.world machine.new, result) ≡ step M.ordering (M.world machine.old) event }
    ensures room { M.room machine.old ≤ M.room machine.new + 64 }
{
    let mut report = Record::answer(event, None, Answer::Nothing);
    step_into(machine, event, &mut report);
    report
}

/// Plays one event, and makes a record tell what it answers and did, whatever it told before.
pub fn step_into<M: Overview>(machine: &mut M, event: Event, report: &mut Record)
    requires { 64 ≤ M.room machine.old }
    ensures step { (M.world machine.new, report.new) ≡ step M.ordering (M.world machine.old) event }
    ensures room { M.room machine.old ≤ M.room machine.new + 64 }
{
    report.event = event;
    step_recorded(machine, report);
}

/// Plays the event that a record tells, and makes it tell what the event answers and did, whatever it told of that before.
#[inline(always)]
pub fn step_recorded<M: Overview>(machine: &mut M, report: &mut Record)
    requires { 64 ≤ M.room machine.old }
    ensures step { (M.world machine.new, report.new) ≡ step M.ordering (M.world machine.old) report.old.event }
    ensures room { M.room machine.old ≤ M.room machine.new + 64 }
{
    report.releases.clear();
    match report.event {
        Event::Call(p, call) => step_call(machine, p, call, report),
        Event::Tick(p) => step_tick(machine, p, report),
        Event::Ipi(p) => step_interrupt(machine, p, report),
    }
}

/// Plays a call from a processor, and makes the record tell it. Nothing changes where neither a handler nor a task could make it.
#[inline(always)]
fn step_call<M: Overview>(machine: &mut M, p: Proc, call: Call, report: &mut Record)
    requires room { 64 ≤ M.room machine.old }
    requires empty { report.old.releases ≡ [] }
    requires event { report.old.event ≡ Event.Call p call }
    ensures step { (M.world machine.new, report.new) ≡ step M.ordering (M.world machine.old) (Event.Call p call) }
    ensures room { M.room machine.old ≤ M.room machine.new + 64 }
{
    report.runner = runner(machine, p);
    if report.runner.is_none() {
        return unchanged(machine, p, Answer::Idle, report);
    }
    let before = before_event(machine, p, report);
    family::call(machine, p, call, report);
    settled(machine, p, &before, report);
}

/// Whether ticks on a processor count.
fn has_time(timer: Timer, p: Proc) -> bool
    ensures { result ≡ has_time timer p }
{
    match timer {
        Timer::Local => true,
        Timer::Global(master) => p.number == master.number,
    }
}

/// Plays a tick of a processor, and makes the record tell it. Nothing changes where its ticks do not count, and where the tick is held
/// back because it is CPU-locked or a handler is due. After most ticks nothing is over, and the processor runs its top.
#[inline(always)]
fn step_tick<M: Overview>(machine: &mut M, p: Proc, report: &mut Record)
    requires room { 64 ≤ M.room machine.old }
    requires empty { report.old.releases ≡ [] }
    requires event { report.old.event ≡ Event.Tick p }
    ensures step { (M.world machine.new, report.new) ≡ step M.ordering (M.world machine.old) (Event.Tick p) }
    ensures room { M.room machine.old ≤ M.room machine.new + 64 }
{
    report.runner = runner(machine, p);
    if !has_time(machine.timer(), p) {
        return unchanged(machine, p, Answer::Nothing, report);
    }
    if machine.processor(p).locked || machine.handler(p).is_some() {
        return unchanged(machine, p, Answer::Held, report);
    }
    let before = before_event(machine, p, report);
    let has_served = tick(machine, p, &mut report.releases);
    if !has_served && is_settled(machine, p) {
        return unchanged(machine, p, Answer::Taken, report);
    }
    report.answer = Answer::Taken;
    report.lost = None;
    settled(machine, p, &before, report);
}

/// Plays an interrupt that comes to a processor, and makes the record tell it. It is held back, and nothing changes, where dispatching
/// is held.
#[inline(always)]
fn step_interrupt<M: Overview>(machine: &mut M, p: Proc, report: &mut Record)
    requires empty { report.old.releases ≡ [] }
    requires event { report.old.event ≡ Event.Ipi p }
    ensures step { (M.world machine.new, report.new) ≡ step M.ordering (M.world machine.old) (Event.Ipi p) }
    ensures room { M.room machine.new ≡ M.room machine.old }
{
    report.runner = runner(machine, p);
    if is_held(machine, p) {
        return unchanged(machine, p, Answer::Held, report);
    }
    let before = before_event(machine, p, report);
    report.answer = interrupt_answer(machine, p);
    report.lost = None;
    settled(machine, p, &before, report);
}

/// Whether a request was pending.
fn interrupt_answer<M: Words>(machine: &M, p: Proc) -> Answer
    ensures { result ≡ (if (processor (M.world machine.now) p).latch then Answer.Taken else Answer.Nothing) }
{
    if machine.processor(p).latch {
        Answer::Taken
    } else {
        Answer::Nothing
    }
}
