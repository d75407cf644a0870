//! Whether each runner makes its calls in an order that was given.
ghost use Rattle.std.specs.Prelude.{◌≡◌, ◌↔◌, ◌≤◌, ◌<◌, drop, length, slice_get, IfSome, IsTrue};
ghost use Rattle.fmp_search_shrink.specs.Runners as spec;
ghost use Rattle.fmp_search_shrink.specs.Runners.{AreKept, IsPartOf, calls_by};

use crate::made::Made;
use fmp_codes::{Call, Object, Runner, Task};
use fmp_text_scripts::is_same_call;

/// How many runners there may be: tasks, alarms and cyclic handlers.
const RUNNERS: u8 = 128;

/// A runner, numbered from 0.
fn runner_at(number: u8) -> Runner
    requires { number < 128 }
    ensures { result ≡ spec.runner_at number }
{
    if number < 64 {
        return Runner::Task(Task::new(number + 1));
    }
    if number < 96 {
        return Runner::Alarm(Object::new(number - 63));
    }
    Runner::Cyclic(Object::new(number - 95))
}

/// Whether the two are the same task or handler.
fn is_same(one: Runner, other: Runner) -> bool
    ensures { result ≡ spec.is_same one other }
{
    match (one, other) {
        (Runner::Task(t), Runner::Task(u)) => t.number == u.number,
        (Runner::Alarm(a), Runner::Alarm(b)) => a.number == b.number,
        (Runner::Cyclic(a), Runner::Cyclic(b)) => a.number == b.number,
        _ => false,
    }
}

/// Where the next call of a runner is, from a place on, or else the end of the list.
fn next_of(runner: Runner, made: &[Made], from: usize) -> usize
    requires { from ≤ length made.now }
    ensures within { result ≤ length made.now }
    ensures calls { calls_by runner (drop result made.now) ≡ calls_by runner (drop from made.now) }
    ensures own { IfSome (slice_get made.now result) (λ m. IsTrue (spec.is_same runner m.runner)) }
{
    let mut at = from;
    while at < made.len() && !is_same(runner, made[at].runner) {
        at += 1;
    }
    at
}

/// Whether it is this runner that makes this call.
fn is_made(runner: Runner, call: Call, made: Made) -> bool
    ensures { IsTrue result ↔ (IsTrue (spec.is_same runner made.runner) × (call ≡ made.call)) }
{
    is_same(runner, made.runner) && is_same_call(call, made.call)
}

/// Whether a runner's calls in the one list are among its calls in the other, in their order. Each is looked for after the one before it.
fn is_kept(runner: Runner, made: &[Made], given: &[Made]) -> bool
    ensures { IsTrue result ↔ IsPartOf (calls_by runner made.now) (calls_by runner given.now) }
{
    let mut at = next_of(runner, made, 0);
    let mut passed = 0;
    while at < made.len() && passed < given.len() {
        if is_made(runner, made[at].call, given[passed]) {
            at = next_of(runner, made, at + 1);
        }
        passed += 1;
    }
    at == made.len()
}

/// Whether each runner's calls in the one list are among its calls in the other, in their order.
pub fn are_kept(made: &[Made], given: &[Made]) -> bool
    ensures { IsTrue result ↔ AreKept made.now given.now }
{
    for number in 0..RUNNERS {
        if !is_kept(runner_at(number), made, given) {
            return false;
        }
    }
    true
}
