//! The states of the tasks and of the time event handlers.
ghost use Rattle.std.specs.Prelude.{◌≡◌, ◌≤◌, ◌^◌, None, IfSome};
ghost use Rattle.fmp_rules.specs.Objects.{alarm, cyclic};
ghost use Rattle.fmp_rules.specs.World.{item, task};
ghost use Rattle.fmp_run_view.specs.Ticks.{until_of};
ghost use Rattle.fmp_run_view.specs.Values as spec;

use crate::player::Player;
use crate::value::Value;
use fmp_codes::{Object, Proc, Task};
use fmp_rules::TaskState;
use fmp_step_words::{Objects, Words};

impl Player {
    /// How many ticks there will have been for what is assigned to a processor, when so many more are over.
    #[inline(always)]
    fn until(&self, p: Proc, left: Option<u64>) -> Option<u64>
        requires { IfSome left (λ n. n ≤ 2 ^ 31) }
        ensures { result ≡ until_of self.now p left }
    {
        match left {
            None => None,
            Some(left) => Some(left + self.ticks_for(p)),
        }
    }

    /// The state of a task, and what it waits for.
    #[inline(always)]
    pub(crate) fn state_value(&self, t: Task) -> Value
        ensures { result ≡ spec.state_of self.now t (task self.now.state t) }
    {
        let task = self.machine().task(t);
        let running = self.machine().processor(task.assigned).running;
        Value::State(
            TaskState::of(t, &task, running),
            task.wait,
            self.until(task.assigned, self.wait_left(t)),
        )
    }

    /// The processor and the priority of a task, and what is queued for it.
    #[inline(always)]
    pub(crate) fn rest_value(&self, t: Task) -> Value
        ensures { result ≡ spec.rest_of (task self.now.state t) }
    {
        let task = self.machine().task(t);
        Value::Rest(task.assigned, task.priority, task.activations, task.wakeups)
    }

    /// Where a cyclic handler is started, and when it is due.
    #[inline(always)]
    pub(crate) fn cyclic_value(&self, c: Object) -> Value
        ensures { result ≡ spec.started_of self.now (cyclic self.now.state c).assigned (item None self.now.state.cyclics_left c.number) }
    {
        let p = self.machine().cyclic(c).assigned;
        Value::Started(p, self.until(p, self.cyclic_left(c)))
    }

    /// Where an alarm is started, and when it is due.
    #[inline(always)]
    pub(crate) fn alarm_value(&self, a: Object) -> Value
        ensures { result ≡ spec.started_of self.now (alarm self.now.state a).assigned (item None self.now.state.alarms_left a.number) }
    {
        let p = self.machine().alarm(a).assigned;
        Value::Started(p, self.until(p, self.alarm_left(a)))
    }
}
