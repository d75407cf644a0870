//! fmpsim: reads a configuration and another text from files, or one of them from standard input. Writes the trace of the
//! machine's answers to events or of processors that follow scripts, or what every order of these shows, or whether and where
//! a trace is what the machine answers, or the waveform of a trace, or a page that shows it. From a configuration alone it
//! writes the save file by which a viewer shows all of a waveform.
//! Or it lists what may be written in these texts, or what was read of a configuration.
//!
//! Here is the system that it does so on, as a desk. What it does there is in `fmp_cli_perform`.
#![tactic(auto)]

mod desk;

use desk::SystemDesk;
use fmp_cli_perform::perform;
use std::io::IsTerminal;
use std::process::ExitCode;
use std::rt::Env;
use std::{env, io};

/// The words of the command line, the first of which is the program's name.
fn words_of<R: Env + AllocGlobal>(rt: &R) -> io::Result<Vec<String>> {
    Ok(env::args(rt)?.collect(rt.alloc())?)
}

/// The program, which ends with the exit status of what it did.
fn main(rt: HostRuntime) -> ExitCode {
    let desk = SystemDesk {
        rt: &rt,
        is_output_terminal: rt.stdout().is_terminal(),
        is_error_terminal: rt.stderr().is_terminal(),
    };
    ExitCode::from(perform(&desk, &rt, words_of(&rt)).code())
}
