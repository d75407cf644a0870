//! Judging a partial trace: whether what its lines write is what the plain machine answers to their events.
//!
//! What a line may leave out is told in `fmp_trace_partial`, and what a verdict says is `JudgesText` in `specs/Verdicts`: what is not
//! written is not judged, and what is written is judged exactly ([`judge_partial`]). A text may say in its last line that it ends
//! before its log (`specs/Endings`).
//!
//! [`run_partial`] does so from bytes to bytes: it reads a configuration and a trace whose lines may leave out parts, and writes the
//! verdict: `yes`, `yes to` the line of the log at which the trace ends, or `no` and the number of the first line that is not what the
//! machine answers. What it reads and writes is stated in `specs/Partials`.
#![tactic(auto)]

mod differing;
mod ending;
mod filling;
mod following;
mod judging;
mod playing;
mod run;
mod showing;
mod telling;
mod verdict;

pub use judging::judge_partial;
pub use run::run_partial;
pub use showing::{PartialShown, Shown};
pub use verdict::PartialVerdict;
