//! The lines of the tasks that wait.
ghost use Rattle.std.specs.Prelude.{◌≡◌, ◌++◌, ◌↔◌, [], length, OnOk};
ghost use Rattle.fmp_out.specs.Putting.{Adds};
ghost use Rattle.fmp_show_state.specs.Waits as spec;

use crate::tasks::put_task_words;
use crate::texts::{give_back, text_of};
use fmp_codes::Task;
use fmp_names::Names;
use fmp_out::Text;
use fmp_rules::TaskRecord;
use fmp_step_words::Views;
use std::alloc::AllocError;

/// Adds the line of a task, if it waits.
fn put_line(out: &mut Text, names: &Names, t: Task, task: &TaskRecord, left: Option<u64>)
    ensures { Adds (spec.wait_line names.now t task.now left) out.old out.new }
{
    if task.wait.is_some() {
        put_task_words(out, names, t, task, left);
    }
}

/// Adds the lines of all tasks that wait.
fn put_lines<M: Views>(out: &mut Text, names: &Names, machine: &M)
    ensures { Adds (spec.waits_text names.now (M.world machine.now) (length (M.world machine.now).tasks)) out.old out.new }
{
    for index in 0..machine.task_count() {
        let t = Task::from_index(index);
        put_line(out, names, t, &machine.task(t), machine.wait_left(t));
    }
}

/// Adds a line for each task that waits, in the order of the tasks: its name, what it waits for, and all else that is told of it, as in the
/// line of the state that [`put_state`](crate::put_state) writes, without the blanks before it. After an error parts of these lines
/// may have been added.
pub fn put_waiting<M: Views>(
    out: &mut Vec<u8>,
    names: &Names,
    machine: &M,
) -> Result<(), AllocError>
    ensures lines { OnOk result (out.new.items ≡ out.old.items ++ spec.waiting_lines names.now (M.world machine.now)) }

    // There is no line just where no task waits.
    ensures none { (spec.waiting_lines names.now (M.world machine.now) ≡ []) ↔ spec.NoneWaits (M.world machine.now) }
{
    let mut text = text_of(out);
    put_lines(&mut text, names, machine);
    give_back(out, text)
}
