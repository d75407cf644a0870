//! What the state of a task is called.
ghost use Rattle.std.specs.Prelude.{◌≡◌};
ghost use Rattle.fmp_rules.specs.TaskStates as spec;

use crate::machine::TaskRecord;
use fmp_codes::Task;

/// The state of a task, as the standard calls it.
#[derive(Clone, Copy)]
pub enum TaskState {
    Dormant,
    Ready,
    Running,
    Waiting,
    Suspended,
    WaitingSuspended,
}

impl Default for TaskState {
    ghost use Rattle.std.specs.Prelude.{◌≡◌};
    ghost use Rattle.fmp_rules.specs.declared.states.TaskState.TheVariants.{Dormant};

    /// Where there is no task it is dormant.
    fn default() -> Self
        ensures { result ≡ Dormant }
    {
        TaskState::Dormant
    }
}

impl TaskState {
    /// The state of a task that could run: it does, or it is ready.
    #[inline(always)]
    pub fn of_ready(task: Task, running: Option<Task>) -> TaskState
        ensures { result ≡ spec.ready_state task running }
    {
        match running {
            Some(other) if other.number == task.number => TaskState::Running,
            _ => TaskState::Ready,
        }
    }

    /// The state of a task with this entry, where `running` runs on its processor.
    #[inline(always)]
    pub fn of(task: Task, entry: &TaskRecord, running: Option<Task>) -> TaskState
        ensures { result ≡ spec.task_state task entry.now running }
    {
        match (entry.active, entry.wait.is_some(), entry.suspended) {
            (false, _, _) => TaskState::Dormant,
            (true, true, true) => TaskState::WaitingSuspended,
            (true, true, false) => TaskState::Waiting,
            (true, false, true) => TaskState::Suspended,
            (true, false, false) => TaskState::of_ready(task, running),
        }
    }
}
