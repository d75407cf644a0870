//! What the program does of what its command line asks for, over any devices: which run that is, and how it ends the program.
//!
//! Each [`Run`] is a type that has what it is asked for: [`Answering`] is `fmpsim calls`, [`Following`] is `calls --of`, [`Judging`] is `check`, `wave` and `view`,
//! [`JudgingPartly`] is `check` and `view` of a partial trace, [`Describing`] is `wave --gtkw` and `list` of a configuration, [`Playing`] and [`Seeking`] are `smp`,
//! [`Searching`], [`SearchingFrom`], [`SearchingForever`] and [`SearchingMost`] are `explore`, and [`Shrinking`] is `shrink`. [`reply_to`] is each question of
//! `explore --questions`. What a run promises is a definition of `specs` with the run's name in the third person, as `Answers`: for each request what the run of
//! the crates below says, so that a request is not taken for another. The program opens files, makes one of them run and prints its fault.
#![tactic(auto)]

mod configs;
mod events;
mod orders;
mod partly;
mod replies;
mod run;
mod scripts;
mod shrinking;
mod traces;

pub use configs::Describing;
pub use events::{Answering, Following};
pub use orders::{Searching, SearchingForever, SearchingFrom, SearchingMost};
pub use partly::JudgingPartly;
pub use replies::{Replied, reply_to, status_of};
pub use run::Run;
pub use scripts::{Played, Playing, Seeking};
pub use shrinking::Shrinking;
pub use traces::Judging;
