//! The texts of a run, which are read and judged before the run writes, and how a run ends.
//!
//! [`config_from`] reads a configuration to its end through a device. What is read over it is a [`Reader`]: [`texts_from`] reads a
//! configuration and such a text, as scripts by [`ScriptReader`]. One that comes to a verdict is a [`Judge`]: [`judged_texts`] reads a
//! configuration and a trace, and says by [`TraceJudge`] whether the trace is the machine's own. None of them has a writer in hand.
//! Why a run did not go to its end is a [`RunFault`], the line that tells it to a user a [`FaultLine`], and what the program ends
//! with a [`Status`]. However a run ended, [`pass_on`] passes on what its sink holds back.
//!
//! What a text says, and that a fault is its first one, is stated in `specs/Texts` by grammars that know no reader, and what each of these
//! functions gives of its texts, whatever they say, in `specs/Readings`; what a
//! verdict says in `specs/Traces`, and there, in `JudgesTexts`, what each run that judges a trace owes to both texts. What runs owe to
//! their texts and devices, whatever they write, is in `specs/Owed`.
#![tactic(auto)]

mod config;
mod fault;
mod judging;
mod passing;
mod reading;
mod scripts;
mod status;
mod verdicts;

pub use config::{config_and_text_from, config_from};
pub use fault::{FaultLine, RunFault};
pub use judging::{Judge, Judged, TraceJudge, judged_texts};
pub use passing::pass_on;
pub use reading::{Reader, texts_from};
pub use scripts::ScriptReader;
pub use status::Status;
pub use verdicts::verdict_text;
