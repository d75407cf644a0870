//! Figures: numbers of what a state has.
ghost use Rattle.std.specs.Prelude.{◌≡◌, ◌≤◌, length};
ghost use Rattle.fmp_codes.specs.Numbers.{as_object, as_task};
ghost use Rattle.fmp_show_facts.specs.Facts as facts;
ghost use Rattle.fmp_run_most.specs.Figures as spec;

use fmp_codes::{Object, Task};
use fmp_rules::Wait;
use fmp_step_words::Views;

/// What is counted of a thing. Of most measures the greatest number is told, and of two the least.
#[derive(Clone, Copy)]
pub enum Measure {
    /// The tasks that are ready on a processor, besides the one that runs.
    Ready,
    /// The queued activations of a task.
    Activations,
    /// Its queued wakeups.
    Wakeups,
    /// The count of a semaphore, of which the least is told.
    LeastCount,
    /// The same, of which the greatest is told.
    MostCount,
    /// The tasks that wait for it.
    SemaphoreWaits,
    /// The tasks that wait for an eventflag.
    EventflagWaits,
    /// The values in a data queue.
    Values,
    /// The tasks that wait to send to it.
    Senders,
    /// The tasks that wait to receive from it.
    Receivers,
    /// The free blocks of a pool, of which the least number is told.
    LeastFree,
    /// The tasks that wait for one.
    PoolWaits,
}

/// What is counted of the thing of a number, from 1.
#[derive(Clone, Copy)]
pub struct Figure {
    pub measure: Measure,
    pub number: u8,
}

/// The task of a number.
fn task_of(number: u8) -> Task
    ensures { result ≡ as_task number }
{
    Task::new(number.max(1).min(64))
}

/// The object of a number.
fn object_of(number: u8) -> Object
    ensures { result ≡ as_object number }
{
    Object::new(number.max(1).min(32))
}

/// Whether this task is the one that runs.
fn is_running(running: Option<Task>, t: Task) -> bool
    ensures { result ≡ facts.is_running running t }
{
    match running {
        None => false,
        Some(other) => t.number == other.number,
    }
}

/// Whether a task could run on this processor, and does not.
fn is_ready_on<M: Views>(machine: &M, number: u8, t: Task) -> bool
    ensures { result ≡ spec.is_ready_on (M.world machine.now) number t }
{
    let task = machine.task(t);
    task.assigned.number == number
        && task.active
        && !task.wait.is_some()
        && !task.suspended
        && !is_running(machine.processor(task.assigned).running, t)
}

/// Whether a wait is one of those that a figure counts.
fn counts_wait(figure: Figure, wait: Wait) -> bool
    ensures { result ≡ spec.counts_wait figure.measure figure.number wait }
{
    match (figure.measure, wait) {
        (Measure::SemaphoreWaits, Wait::Semaphore(s)) => s.number == figure.number,
        (Measure::EventflagWaits, Wait::Eventflag(f, _, _)) => f.number == figure.number,
        (Measure::Senders, Wait::Send(d, _)) => d.number == figure.number,
        (Measure::Receivers, Wait::Receive(d)) => d.number == figure.number,
        (Measure::PoolWaits, Wait::Pool(m)) => m.number == figure.number,
        _ => false,
    }
}

/// Whether a task is one of those that a figure counts.
fn counts<M: Views>(machine: &M, figure: Figure, t: Task) -> bool
    ensures { result ≡ spec.counts (M.world machine.now) figure t }
{
    if matches!(figure.measure, Measure::Ready) {
        return is_ready_on(machine, figure.number, t);
    }
    match machine.task(t).wait {
        None => false,
        Some(wait) => counts_wait(figure, wait),
    }
}

/// How many tasks a figure counts.
fn tasks_counted<M: Views>(machine: &M, figure: Figure) -> u16
    ensures { let w = M.world machine.now in result ≡ spec.tasks_to w figure (length w.tasks) }
{
    let mut count: u16 = 0;
    for index in 0..machine.task_count() {
        if counts(machine, figure, Task::from_index(index)) {
            count += 1;
        }
    }
    count
}

/// The number of a figure in a state.
#[tactic(auto, using(crate::proofs::Few::few_same, crate::proofs::Few::few_cut), unfolding(crate::specs::Figures::value))]
pub fn value<M: Views>(machine: &M, figure: Figure) -> u16
    ensures { result ≡ spec.value (M.world machine.now) figure }
{
    match figure.measure {
        Measure::Activations => u16::from(machine.task(task_of(figure.number)).activations),
        Measure::Wakeups => machine.task(task_of(figure.number)).wakeups,
        Measure::LeastCount => machine.semaphore(object_of(figure.number)).count,
        Measure::MostCount => machine.semaphore(object_of(figure.number)).count,
        Measure::Values => machine.value_count(object_of(figure.number)).min(65535) as u16,
        Measure::LeastFree => {
            machine
                .pool(object_of(figure.number))
                .free_blocks()
                .min(65535) as u16
        }
        Measure::Ready => tasks_counted(machine, figure),
        Measure::SemaphoreWaits => tasks_counted(machine, figure),
        Measure::EventflagWaits => tasks_counted(machine, figure),
        Measure::Senders => tasks_counted(machine, figure),
        Measure::Receivers => tasks_counted(machine, figure),
        Measure::PoolWaits => tasks_counted(machine, figure),
    }
}

/// Whether a number of a measure is beyond a bound: less, where the least is told, and else greater.
pub fn is_beyond(measure: Measure, bound: u16, number: u16) -> bool
    ensures { result ≡ spec.is_beyond measure bound number }
{
    match measure {
        Measure::LeastCount | Measure::LeastFree => number < bound,
        _ => bound < number,
    }
}
