//! What is queued for a task is counted through every run, proved on the definitions of the machine over every list of events.
//!
//! There is no code here: a law is the contract of a function without a body. `activations_are_counted` says of each task that
//! every accepted activation is a life of it that goes on or ended, is queued, or was taken back (`specs/Lives`).
//! `wakeups_are_counted` says of each active task that as many wakeups are queued for it as came and were not taken
//! (`specs/Wakeups`). `fmp_law_balance` tells what is left of each wait; `timed_waits_end_in_time` says that one with a timeout ends
//! by time at its last tick, neither before nor after (`specs/Waits`), and `handlers_become_due_in_time` says so of alarms and
//! cyclic handlers (`specs/Alarms`, `Cyclics`, `Due`).

mod laws;

pub use laws::{
    activations_are_counted, handlers_become_due_in_time, timed_waits_end_in_time,
    wakeups_are_counted,
};
