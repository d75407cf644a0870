//! The calls on data queues.
ghost use Rattle.std.specs.Prelude.{◌≡◌, ◌+◌, ◌<◌, ◌≤◌, ◌++◌, pos, true, false, [], ◌∷◌, length, None, unwrap_or, is_some};
ghost use Rattle.fmp_rules.specs.World.{processor, first, rest};
ghost use Rattle.fmp_rules.specs.Objects.{data_queue, values};
ghost use Rattle.fmp_rules.specs.Rows.{called, done_or_wait};
ghost use Rattle.fmp_rules.specs.Outcomes.{effect_of};
ghost use Rattle.fmp_rules.specs.BufferCalls.{with_values, can_send, sent, forced, can_receive, offered, received, receiver, sender, tsnd_dtq, psnd_dtq, fsnd_dtq};
ghost use Rattle.fmp_rules.specs.BufferCalls.{trcv_dtq, prcv_dtq};
ghost use Rattle.fmp_step_objects.specs.Forms.{form_from};

use crate::forms::check_form;
use crate::waits::caller_waits;
use fmp_codes::{Answer, Code, Object, Proc, Task};
use fmp_rules::{Context, Effect, QueueKind, Rule, Wait};
use fmp_step_words::{Objects, check_rule, check_timeout, data_queue_named, refuse_if, release};

/// The first task that waits to receive of a data queue.
fn receiver<M: Objects>(machine: &M, d: Object) -> Option<Task>
    ensures { result ≡ receiver M.ordering (M.world machine.now) d }
{
    machine.first_waiter(QueueKind::Receive, d)
}

/// The first task that waits to send to a data queue.
fn sender<M: Objects>(machine: &M, d: Object) -> Option<Task>
    ensures { result ≡ sender M.ordering (M.world machine.now) d }
{
    machine.first_waiter(QueueKind::Send, d)
}

/// Whether a receiver waits, or a place is free.
fn can_send<M: Objects>(machine: &M, d: Object) -> bool
    ensures value { result ≡ can_send M.ordering (M.world machine.now) d }
    ensures full { let w = M.world machine.now in result ≡ false → length (values w d) ≡ (data_queue w d).capacity }
{
    let capacity = usize::from(machine.data_queue(d).capacity);
    receiver(machine, d).is_some() || machine.value_count(d) < capacity
}

/// Whether there is a value, or a sender waits.
fn can_receive<M: Objects>(machine: &M, d: Object) -> bool
    ensures { result ≡ can_receive M.ordering (M.world machine.now) d }
{
    machine.first_value(d).is_some() || sender(machine, d).is_some()
}

/// Hands a value to a receiver, if one waits, and else puts it last, where there is a place for it.
fn send<M: Objects>(machine: &mut M, d: Object, value: i64, waiter: Option<Task>) -> Effect
    requires place { waiter ≡ None → length (values (M.world machine.old) d) < (data_queue (M.world machine.old) d).capacity }
    requires room { 0 < M.room machine.old }
    ensures state { (M.world machine.new, result) ≡ sent M.ordering (M.world machine.old) d value waiter }
    ensures room { M.room machine.old ≤ M.room machine.new + 1 }
{
    match waiter {
        None => {
            machine.add_value(d, value);
            Effect::done()
        }
        Some(t) => release(machine, t, Code::Accepted, Some(value)),
    }
}

/// Sends a value, or lets the caller wait until it is taken.
fn send_or_wait<M: Objects>(
    machine: &mut M,
    p: Proc,
    d: Object,
    value: i64,
    timeout: i32,
) -> Result<Effect, Code>
    requires caller { is_some (processor (M.world machine.old) p).running ≡ true }
    requires room { 0 < M.room machine.old }
    ensures state { let w = M.world machine.old in (M.world machine.new, effect_of result) ≡ done_or_wait M.ordering w p (can_send M.ordering w d)
        (sent M.ordering w d value (receiver M.ordering w d)) (Wait.Send d value) timeout }
    ensures room { M.room machine.old ≤ M.room machine.new + 1 }
{
    let waiter = receiver(machine, d);
    if can_send(machine, d) {
        Ok(send(machine, d, value, waiter))
    } else {
        caller_waits(machine, p, Wait::Send(d, value), timeout)
    }
}

/// Sends a value, or waits until it is taken.
#[tactic(auto, unfolding(fmp_rules::specs::BufferCalls::tsnd_dtq))]
pub(crate) fn tsnd_dtq<M: Objects>(
    machine: &mut M,
    p: Proc,
    id: i32,
    value: i64,
    timeout: i32,
) -> Result<Effect, Code>
    requires { 0 < M.room machine.old }
    ensures row { let w = M.world machine.old in (M.world machine.new, effect_of result) ≡ called w p (tsnd_dtq M.ordering w p id value timeout) }
    ensures room { M.room machine.old ≤ M.room machine.new + 1 }
{
    check_rule(machine, p, Rule::in_task().unheld_if(true))?;
    let d = data_queue_named(machine, id)?;
    check_timeout(timeout)?;
    send_or_wait(machine, p, d, value, timeout)
}

/// Sends a value, if a receiver waits or a place is free.
#[tactic(auto, unfolding(fmp_rules::specs::BufferCalls::psnd_dtq))]
pub(crate) fn psnd_dtq<M: Objects>(
    machine: &mut M,
    p: Proc,
    context: Context,
    id: i32,
    value: i64,
) -> Result<Effect, Code>
    requires { 0 < M.room machine.old }
    ensures row { let w = M.world machine.old in (M.world machine.new, effect_of result) ≡ called w p (form_from context (psnd_dtq M.ordering w id value)) }
    ensures room { M.room machine.old ≤ M.room machine.new + 1 }
{
    check_form(machine, p, context, Rule::in_task())?;
    let d = data_queue_named(machine, id)?;
    refuse_if(!can_send(machine, d), Code::TimedOut)?;
    let waiter = receiver(machine, d);
    Ok(send(machine, d, value, waiter))
}

/// Takes the oldest value out of a data queue, and puts this one last.
#[tactic(auto, using(crate::proofs::Contents::values_left))]
fn shift<M: Objects>(machine: &mut M, d: Object, value: i64)
    requires { let w = M.world machine.old in length (rest (values w d)) < (data_queue w d).capacity }
    ensures state { let w = M.world machine.old in M.world machine.new ≡ with_values w d (rest (values w d) ++ value ∷ []) }
    ensures room { M.room machine.new ≡ M.room machine.old }
{
    machine.drop_value(d);
    machine.add_value(d, value);
}

/// Puts a value last into a full data queue, whose oldest one is lost.
#[tactic(auto, using(crate::proofs::Contents::length_left))]
fn force<M: Objects>(machine: &mut M, d: Object, value: i64) -> Effect
    requires some { 0 < (data_queue (M.world machine.old) d).capacity }
    requires full { let w = M.world machine.old in length (values w d) ≡ (data_queue w d).capacity }
    ensures state { (M.world machine.new, result) ≡ forced (M.world machine.old) d value }
    ensures room { M.room machine.new ≡ M.room machine.old }
{
    let lost = machine.first_value(d);
    shift(machine, d, value);
    Effect::done().losing(lost)
}

/// Sends a value, if need be in the place of the oldest one.
#[tactic(auto, unfolding(fmp_rules::specs::BufferCalls::fsnd_dtq))]
pub(crate) fn fsnd_dtq<M: Objects>(
    machine: &mut M,
    p: Proc,
    context: Context,
    id: i32,
    value: i64,
) -> Result<Effect, Code>
    requires { 0 < M.room machine.old }
    ensures row { let w = M.world machine.old in (M.world machine.new, effect_of result) ≡ called w p (form_from context (fsnd_dtq M.ordering w id value)) }
    ensures room { M.room machine.old ≤ M.room machine.new + 1 }
{
    check_form(machine, p, context, Rule::in_task())?;
    let d = data_queue_named(machine, id)?;
    refuse_if(machine.data_queue(d).capacity == 0, Code::IllegalUse)?;
    let waiter = receiver(machine, d);
    if can_send(machine, d) {
        Ok(send(machine, d, value, waiter))
    } else {
        Ok(force(machine, d, value))
    }
}

/// Takes the oldest value, after that of a task with this wait went last, if it sends one. Where there is none, 0 is told.
#[tactic(auto, using(crate::proofs::Contents::length_left))]
fn take_value<M: Objects>(machine: &mut M, d: Object, wait: Option<Wait>) -> i64
    ensures state { let w = M.world machine.old in M.world machine.new ≡ with_values w d (rest (values w d ++ offered wait)) }
    ensures value { result ≡ unwrap_or (first (values (M.world machine.old) d ++ offered wait)) (pos 0) }
    ensures room { M.room machine.new ≡ M.room machine.old }
{
    let is_empty = machine.value_count(d) == 0;
    let oldest = machine.first_value(d).unwrap_or(0);
    match wait {
        Some(Wait::Send(_, offered)) if !is_empty => {
            shift(machine, d, offered);
            oldest
        }
        Some(Wait::Send(_, offered)) => {
            machine.drop_value(d);
            offered
        }
        _ => {
            machine.drop_value(d);
            oldest
        }
    }
}

/// Tells the oldest value, and takes in that of a sender, if one waits, which is released.
fn receive<M: Objects>(machine: &mut M, d: Object, waiter: Option<Task>) -> Effect
    requires { 0 < M.room machine.old }
    ensures state { (M.world machine.new, result) ≡ received M.ordering (M.world machine.old) d waiter }
    ensures room { M.room machine.old ≤ M.room machine.new + 1 }
{
    match waiter {
        None => {
            let value = machine.first_value(d).unwrap_or(0);
            machine.drop_value(d);
            Effect::value(value)
        }
        Some(t) => {
            let wait = machine.task(t).wait;
            let value = take_value(machine, d, wait);
            release(machine, t, Code::Accepted, None).answering(Answer::Done(
                Code::Accepted,
                Some(value),
            ))
        }
    }
}

/// Receives a value, or lets the caller wait for one.
fn receive_or_wait<M: Objects>(
    machine: &mut M,
    p: Proc,
    d: Object,
    timeout: i32,
) -> Result<Effect, Code>
    requires caller { is_some (processor (M.world machine.old) p).running ≡ true }
    requires room { 0 < M.room machine.old }
    ensures state { let w = M.world machine.old in (M.world machine.new, effect_of result) ≡ done_or_wait M.ordering w p (can_receive M.ordering w d)
        (received M.ordering w d (sender M.ordering w d)) (Wait.Receive d) timeout }
    ensures room { M.room machine.old ≤ M.room machine.new + 1 }
{
    let waiter = sender(machine, d);
    if can_receive(machine, d) {
        Ok(receive(machine, d, waiter))
    } else {
        caller_waits(machine, p, Wait::Receive(d), timeout)
    }
}

/// Receives a value, or waits for one.
#[tactic(auto, unfolding(fmp_rules::specs::BufferCalls::trcv_dtq))]
pub(crate) fn trcv_dtq<M: Objects>(
    machine: &mut M,
    p: Proc,
    id: i32,
    timeout: i32,
) -> Result<Effect, Code>
    requires { 0 < M.room machine.old }
    ensures row { let w = M.world machine.old in (M.world machine.new, effect_of result) ≡ called w p (trcv_dtq M.ordering w p id timeout) }
    ensures room { M.room machine.old ≤ M.room machine.new + 1 }
{
    check_rule(machine, p, Rule::in_task().unheld_if(true))?;
    let d = data_queue_named(machine, id)?;
    check_timeout(timeout)?;
    receive_or_wait(machine, p, d, timeout)
}

/// Receives a value, if there is one.
#[tactic(auto, unfolding(fmp_rules::specs::BufferCalls::prcv_dtq))]
pub(crate) fn prcv_dtq<M: Objects>(machine: &mut M, p: Proc, id: i32) -> Result<Effect, Code>
    requires { 0 < M.room machine.old }
    ensures row { let w = M.world machine.old in (M.world machine.new, effect_of result) ≡ called w p (prcv_dtq M.ordering w id) }
    ensures room { M.room machine.old ≤ M.room machine.new + 1 }
{
    check_rule(machine, p, Rule::in_task())?;
    let d = data_queue_named(machine, id)?;
    refuse_if(!can_receive(machine, d), Code::TimedOut)?;
    let waiter = sender(machine, d);
    Ok(receive(machine, d, waiter))
}
