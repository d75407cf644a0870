//! The runs of the program: texts in, a text out, through devices that can fail.
//!
//! A run reads a [`Source`] to its end and writes to a [`Sink`]; contracts speak of what was handed over and written.
//! [`run_events`] and [`run_life`] answer each event as its line comes, on the kernel, and tell as much as a [`Detail`] says;
//! [`run_calls`] tells lines alone; [`run_check`] and [`run_report`] judge a trace by the plain machine. The runs of processors
//! that follow scripts are in `fmp_run_smp`. Devices are in `fmp_run_devices`; how texts are read and judged, and what a run's
//! faults are, in `fmp_run_texts`.
//!
//! The clause `owes` of a run says which fault is told and that it is the first one, and which calls of the devices failed; its
//! clause `writes` what is written where all went well, and what is out after a fault. Begin at `WritesEvents` in `specs/Owed`, whose
//! field `answered` is the headline for [`run_events`]: `IsWritten` in `fmp_run_stream/specs/Runs`.
#![tactic(auto)]

mod before;
mod calls;
mod check;
mod lives;
mod report;

pub use calls::{run_calls, run_events};
pub use check::run_check;
pub use fmp_run_devices::{
    Failed, MemSink, MemSource, ReadFault, ReadSource, Sink, Source, WriteSink, read_up_to,
    write_all, write_out,
};
pub use fmp_run_stream::{Changes, Detail};
pub use fmp_run_texts::{FaultLine, Judged, RunFault, Status, config_from, judged_texts};
pub use lives::{LifeFault, run_life};
pub use report::run_report;
