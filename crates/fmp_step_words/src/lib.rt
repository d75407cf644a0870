//! What every machine has to do, and what the service calls are made of.
//!
//! A machine that keeps its tasks by the words of the definitions is one of [`Words`], and one that keeps the objects, too, is
//! one of [`Objects`]. The checks of the calls, and the changes of tasks and processors, are functions over them, so that
//! each is written and proved once. A machine on which events are played has an [`Overview`], too, and one whose state is told
//! [`Views`].
#![tactic(auto)]

mod arguments;
mod checks;
mod objects;
mod overview;
mod processors;
mod tasks;
mod tops;
mod views;
mod words;

pub use arguments::{
    alarm_named, cyclic_named, data_queue_named, eventflag_named, find_processor, find_task,
    find_task_or_caller, is_caller, pool_named, priority_or, processor_or_initial, semaphore_named,
    spin_lock_named, task_named, task_or_caller, ticks_of,
};
pub use checks::{caller, check_rule, check_time, check_timeout, is_held, refuse_if, runner};
pub use objects::Objects;
pub use overview::Overview;
pub use processors::{open, set_dispatching_disabled, set_locked};
pub use tasks::{
    activate, change_priority, finish, make_ready, migrate, release, rotate, start, wait_for,
};
pub use tops::Tops;
pub use views::Views;
pub use words::Words;
