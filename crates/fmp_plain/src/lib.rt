//! The plain machine: the slow reference that looks at every record to find what comes first.
//!
//! Contracts see its state, which is the model's own (`fmp_rules/specs`), and the number of its steps. [`Plain::boot`] is the
//! state at boot, and [`Plain::step`] the definitions' step with its whole record. A machine makes fewer than 4,294,967,295
//! steps, so that the numbers which it gives out stay within their type.
//!
//! It judges traces (`fmp_trace_check`), and in tests the kernel is compared with it. No step allocates.
#![tactic(auto)]

mod plain;

pub use plain::Plain;
