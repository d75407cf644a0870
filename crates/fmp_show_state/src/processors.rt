//! The lines of the processors.
ghost use Rattle.std.specs.Prelude.{◌≡◌, ◌++◌, [], length, OnOk, IfOk};
ghost use Rattle.fmp_out.specs.Putting.{Adds};
ghost use Rattle.fmp_rules.specs.World.{item, processor};
ghost use Rattle.fmp_show_state.specs.States as spec;

use crate::texts::{put_runner, put_task};
use fmp_codes::{Pri, Proc, Runner, Task};
use fmp_names::Names;
use fmp_out::Text;
use fmp_rules::Processor;
use fmp_step_words::Views;
use std::alloc::{AllocError, Global};

/// Whether a task is the one that runs.
fn is_running(running: Option<Task>, task: Task) -> bool
    ensures { result ≡ spec.is_running running task }
{
    match running {
        None => false,
        Some(other) => task.number == other.number,
    }
}

/// Adds those of the tasks that do not run.
fn add_others(
    others: &mut Vec<Task>,
    running: Option<Task>,
    tasks: &[Task],
) -> Result<(), AllocError>
    ensures { OnOk result (others.new.items ≡ others.old.items ++ spec.without_running running tasks.now) }
{
    for task in tasks {
        if !is_running(running, *task) {
            others.push(*task)?;
        }
    }
    Ok(())
}

/// Adds the ready tasks of a priority on a processor, without the running one.
fn add_ready<M: Views>(
    others: &mut Vec<Task>,
    running: Option<Task>,
    machine: &M,
    p: Proc,
    priority: Pri,
) -> Result<(), AllocError>
    ensures { OnOk result (others.new.items ≡ others.old.items
        ++ spec.without_running running (M.ordering.ready (M.world machine.now).order (M.world machine.now).tasks p priority)) }
{
    // most priorities have none, and a list is longer than a look
    if !machine.may_have_ready(p, priority) {
        return Ok(());
    }
    add_others(others, running, machine.ready(p, priority).as_slice())
}

/// The ready tasks of a processor in their precedence, without the running one.
fn other_ready<M: Views>(alloc: Global, machine: &M, p: Proc) -> Result<Vec<Task>, AllocError>
    ensures { IfOk result (λ v. v.items ≡ spec.ready_to M.ordering (M.world machine.now) p 32) }
{
    let running = machine.processor(p).running;
    let mut others = Vec::new(alloc);
    for index in 0..32u8 {
        let priority = Pri::new(index + 1);
        if !machine.may_have_ready_from(p, priority) {
            return Ok(others);
        }
        add_ready(&mut others, running, machine, p, priority)?;
    }
    Ok(others)
}

/// Adds ` ready=` and the names of the tasks with commas between them, or nothing where there is no task.
fn put_ready(out: &mut Text, names: &Names, tasks: &[Task])
    ensures { Adds (spec.ready_from names.now 0 tasks.now) out.old out.new }
{
    for (index, task) in tasks.iter().enumerate() {
        if index == 0 {
            out.put(b" ready=");
        } else {
            out.put(b",");
        }
        put_task(out, names, *task);
    }
}

/// Adds ` due=` and the names of the handlers with commas between them, or nothing where there is no handler.
fn put_due(out: &mut Text, names: &Names, due: &[Runner])
    ensures { Adds (spec.due_from names.now 0 due.now) out.old out.new }
{
    for (index, handler) in due.iter().enumerate() {
        if index == 0 {
            out.put(b" due=");
        } else {
            out.put(b",");
        }
        put_runner(out, names, Some(*handler));
    }
}

/// Adds the same for the handlers that are due on a processor.
fn put_handlers<M: Views>(out: &mut Text, names: &Names, machine: &M, p: Proc)
    ensures { Adds (spec.due_from names.now 0 (item [] (M.world machine.now).due p.number)) out.old out.new }
{
    // mostly there is none, and a list is longer than a look
    if machine.handler(p).is_none() {
        return;
    }
    put_due(out, names, machine.due(p).as_slice());
}

/// Adds a word where it holds.
pub fn put_flag(out: &mut Text, holds: bool, word: &[u8])
    ensures { Adds (spec.flag_text holds word.now) out.old out.new }
{
    if holds {
        out.put(word);
    }
}

/// Adds a word for each that holds: that it is CPU-locked, that its dispatching is disabled, that its latch is set.
#[tactic(auto, unfolding(crate::specs::States::flags_text))]
fn put_flags(out: &mut Text, processor: Processor)
    ensures { Adds (spec.flags_text processor) out.old out.new }
{
    put_flag(out, processor.locked, b" locked");
    put_flag(out, processor.disabled, b" disabled");
    put_flag(out, processor.latch, b" latch");
}

/// Adds the name of the running task, or `-` where none runs.
fn put_running(out: &mut Text, names: &Names, running: Option<Task>)
    ensures { Adds (spec.running_text names.now running) out.old out.new }
{
    match running {
        None => out.put(b"-"),
        Some(task) => put_task(out, names, task),
    }
}

/// Adds the processor and what it runs.
#[tactic(auto, unfolding(crate::specs::States::head_text))]
fn put_head(out: &mut Text, names: &Names, p: Proc, running: Option<Task>)
    ensures { Adds (spec.head_text names.now p running) out.old out.new }
{
    out.put(b"  P");
    out.put_number(u64::from(p.number));
    out.put(b" run=");
    put_running(out, names, running);
}

/// Adds the line of a processor, on which these other tasks are ready.
#[tactic(auto, unfolding(crate::specs::States::processor_text))]
fn put_line<M: Views>(out: &mut Text, names: &Names, machine: &M, p: Proc, ready: &[Task])
    ensures { let w = M.world machine.now in
        Adds (spec.processor_text names.now p (processor w p) ready.now (item [] w.due p.number)) out.old out.new }
{
    let processor = machine.processor(p);
    put_head(out, names, p, processor.running);
    put_ready(out, names, ready);
    put_flags(out, processor);
    put_handlers(out, names, machine, p);
    out.put_byte(b'\n');
}

/// Adds the line of a processor.
fn put_processor<M: Views>(out: &mut Text, names: &Names, machine: &M, p: Proc)
    ensures { let w = M.world machine.now in
        Adds (spec.processor_text names.now p (processor w p) (spec.ready_to M.ordering w p 32) (item [] w.due p.number)) out.old out.new }
{
    let alloc = *out.as_mut_vec().allocator();
    match other_ready(alloc, machine, p) {
        Ok(ready) => put_line(out, names, machine, p, ready.as_slice()),
        Err(fault) => out.note(Err(fault)),
    }
}

/// Adds the lines of all processors.
pub(crate) fn put_processors<M: Views>(out: &mut Text, names: &Names, machine: &M)
    ensures { Adds (spec.processors_text M.ordering names.now (M.world machine.now) (length (M.world machine.now).processors)) out.old out.new }
{
    for index in 0..machine.processor_count() {
        put_processor(out, names, machine, Proc::from_index(index));
    }
}
