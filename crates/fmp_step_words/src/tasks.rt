//! How tasks begin, wait, become ready, end and change their priority.
ghost use Rattle.std.specs.Prelude.{◌≡◌, ◌+◌, ◌<◌, ◌≤◌};
ghost use Rattle.fmp_rules.specs.Tasks.{start, activate, finish, make_ready, change_priority, migrate, rotate};
ghost use Rattle.fmp_rules.specs.Rows.{release, wait_for};
ghost use Rattle.fmp_rules.specs.Outcomes.{effect_of};

use crate::arguments::ticks_of;
use crate::checks::refuse_if;
use crate::words::Words;
use fmp_codes::{Answer, Code, Pri, Proc, Task};
use fmp_rules::{Effect, TaskRecord, Wait};

/// Starts a dormant task on a processor. In TOPPERS/FMP: make_active.
pub fn start<M: Words>(machine: &mut M, t: Task, p: Proc)
    requires { 0 < M.room machine.old }
    ensures state { M.world machine.new ≡ start M.ordering (M.world machine.old) t p }
    ensures room { M.room machine.old ≤ M.room machine.new + 1 }
{
    let task = machine.task(t);
    machine.place(t, task.started(p));
}

/// Starts a dormant task on a processor, or queues the activation of another with a kept processor. In TOPPERS/FMP: make_active, else actque and actprc.
pub fn activate<M: Words>(machine: &mut M, t: Task, p: Proc, kept: Option<Proc>)
    requires { 0 < M.room machine.old }
    ensures state { M.world machine.new ≡ activate M.ordering (M.world machine.old) t p kept }
    ensures room { M.room machine.old ≤ M.room machine.new + 1 }
{
    let task = machine.task(t);
    if task.active {
        machine.set_task(
            t,
            TaskRecord {
                activations: 1,
                kept,
                ..task
            },
        );
    } else {
        start(machine, t, p);
    }
}

/// Ends a task. A queued activation starts it anew.
#[tactic(auto, unfolding(fmp_rules::specs::Tasks::finish))]
pub fn finish<M: Words>(machine: &mut M, t: Task)
    requires { 0 < M.room machine.old }
    ensures state { M.world machine.new ≡ finish M.ordering (M.world machine.old) t }
    ensures room { M.room machine.old ≤ M.room machine.new + 1 }
{
    let task = machine.task(t);
    machine.end_wait(t, task.ended());
}

/// Lets a task wait for so long, unless the timeout is 0. In TOPPERS/FMP: make_wait, make_wait_tmout, wobj_make_wait.
pub fn wait_for<M: Words>(
    machine: &mut M,
    t: Task,
    wait: Wait,
    timeout: i32,
) -> Result<Effect, Code>
    requires { 0 < M.room machine.old }
    ensures state { (M.world machine.new, effect_of result) ≡ wait_for M.ordering (M.world machine.old) t wait timeout }
    ensures room { M.room machine.old ≤ M.room machine.new + 1 }
{
    refuse_if(timeout == 0, Code::TimedOut)?;
    machine.begin_wait(t, wait, ticks_of(timeout));
    Ok(Effect::answer(Answer::Wait))
}

/// Ends the wait of a task, which is ready last of its priority unless it is suspended. In TOPPERS/FMP: wait_complete, make_runnable.
pub fn make_ready<M: Words>(machine: &mut M, t: Task)
    requires { 0 < M.room machine.old }
    ensures state { M.world machine.new ≡ make_ready M.ordering (M.world machine.old) t }
    ensures room { M.room machine.old ≤ M.room machine.new + 1 }
{
    let task = machine.task(t);
    machine.end_wait(t, TaskRecord { wait: None, ..task });
}

/// Ends the wait of a task with a code and perhaps a value.
pub fn release<M: Words>(machine: &mut M, t: Task, code: Code, value: Option<i64>) -> Effect
    requires { 0 < M.room machine.old }
    ensures state { (M.world machine.new, result) ≡ release M.ordering (M.world machine.old) t code value }
    ensures room { M.room machine.old ≤ M.room machine.new + 1 }
{
    make_ready(machine, t);
    Effect::releasing(t, code, value)
}

/// Gives a task this priority, of which it comes last. In TOPPERS/FMP: change_priority.
pub fn change_priority<M: Words>(machine: &mut M, t: Task, priority: Pri)
    requires { 0 < M.room machine.old }
    ensures state { M.world machine.new ≡ change_priority M.ordering (M.world machine.old) t priority }
    ensures room { M.room machine.old ≤ M.room machine.new + 1 }
{
    let task = machine.task(t);
    machine.requeue(t, TaskRecord { priority, ..task });
}

/// Assigns a task to a processor (prcid in TOPPERS/FMP). Where that is another than before and the task is ready, it comes last there.
pub fn migrate<M: Words>(machine: &mut M, t: Task, p: Proc)
    requires { 0 < M.room machine.old }
    ensures state { M.world machine.new ≡ migrate M.ordering (M.world machine.old) t p }
    ensures room { M.room machine.old ≤ M.room machine.new + 1 }
{
    let task = machine.task(t);
    if task.assigned.number != p.number {
        machine.place(
            t,
            TaskRecord {
                assigned: p,
                ..task
            },
        );
    }
}

/// Lets a task, if there is one, come last of its priority. In TOPPERS/FMP: rotate_ready_queue.
pub fn rotate<M: Words>(machine: &mut M, t: Option<Task>)
    requires { 0 < M.room machine.old }
    ensures state { M.world machine.new ≡ rotate M.ordering (M.world machine.old) t }
    ensures room { M.room machine.old ≤ M.room machine.new + 1 }
{
    if let Some(t) = t {
        let task = machine.task(t);
        machine.place(t, task);
    }
}
