//! What a reader of the records of a run can tell, proved on the definitions of the machine over every list of events: what the records
//! tell of suspensions, lives and priorities of tasks, of which calls on tasks are due, of flags of processors, spin locks, patterns of
//! eventflags, alarms, cyclic handlers, handlers that are due, requests and who is sent them, the orders of the ready tasks and of the
//! waiting ones, and which events change nothing; [`counts`]: what is queued for a task, and when time ends; [`refusals`]: why a call was
//! refused, and every other answer; [`effects`]: what else a record tells, and with it all of the next record.
//!
//! There is no code here: a law is the contract of a function without a body. Each law tells a part of the state along a run by its
//! records alone, by a definition that knows none of the rules of the calls, and says that the state after each prefix is so.
#![tactic(auto)]

pub mod counts;
pub mod effects;
mod laws;
pub mod refusals;

pub use counts::{
    activations_are_counted, handlers_become_due_in_time, timed_waits_end_in_time,
    wakeups_are_counted,
};
pub use effects::{
    losses_are_reported, received_values_are_reported, records_are_reported, releases_are_reported,
    reported_runs_are_answers, run_changes_are_reported,
};
pub use laws::{
    alarms_are_reported, calls_on_tasks_were_due, cyclics_are_reported, flags_are_reported,
    handlers_due_are_reported, lives_are_reported, locks_are_reported, patterns_are_reported,
    priorities_are_reported, quiet_events_change_nothing, ready_order_is_reported,
    requests_are_due, requests_are_reported, served_in_order, suspensions_are_reported,
};
pub use refusals::{
    answers_are_reported, arguments_are_judged, callers_are_reported, calls_are_made_in_place,
    refusals_are_reported,
};
