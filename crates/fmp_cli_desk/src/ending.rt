//! How a run ends, if not by its end.
ghost use Rattle.std.specs.Prelude.{◌≡◌, ◌≢◌, ◌⊎◌, Bool, Ok, Err, IfOk, IfErr, IsOk, OnOk};
ghost use Rattle.std.specs.IoError.{error_kind};
ghost use Rattle.std.specs.declared.io.ErrorKind.TheVariants as kind;
ghost use Rattle.fmp_run_texts.specs.declared.fault.RunFault.TheVariants as run;
ghost use Rattle.fmp_cli_desk.specs.declared.ending.Ending.TheVariants as ending;
ghost use Rattle.fmp_cli_desk.specs.Endings as spec;
ghost use Rattle.fmp_cli_desk.specs.Runs as runs;

use crate::keeping::Kept;
use fmp_run_events::{LifeFault, RunFault, Status};
use fmp_run_explore::ExploreFault;
use fmp_run_explore_from::FromFault;
use fmp_search_question::QuestionFault;
use std::alloc::AllocError;
use std::io;

/// Why a run ended before its time.
#[derive(Drop)]
pub enum Ending {
    /// This is reported.
    Fault(RunFault),
    /// This is reported of a run that has read these texts.
    Faulty(RunFault, Kept),
    /// The configuration cannot be opened or read, for this cause.
    NoConfig(io::Error),
    /// The other text cannot be opened or read, for this cause.
    NoText(io::Error),
    /// More than one text was to come from standard input.
    OneInput,
    /// Nobody reads the output any more, as after `head`. Nothing is reported of that.
    Unread,
    /// The question has this fault, at the byte of this number from 0.
    Question(QuestionFault, usize),
    /// The trace with which a search begins, or the text of many questions, cannot be opened or read, for this cause.
    NoTrace(io::Error),
    /// It is too long.
    LongTrace,
    /// Its line of this number, from 1, is the first that no order has there.
    Stray(u32),
    /// That of a run that has read this configuration.
    Asked(QuestionFault, usize, Vec<u8>),
    /// The name of this number, from 0, names nothing in the configuration.
    Name(usize),
    /// That of a run that has read this configuration.
    Unnamed(usize, Vec<u8>),
    /// The file or folder at this path cannot be made or written, for this cause.
    Unmade(io::Error, String),
}

impl From<RunFault> for Ending {
    fn from(fault: RunFault) -> Ending {
        Ending::Fault(fault)
    }
}

impl From<AllocError> for Ending {
    ghost from_gives = { λ _ end. end ≡ ending.Fault run.Memory };

    fn from(_error: AllocError) -> Ending {
        Ending::Fault(RunFault::Memory)
    }
}

impl Ending {
    /// How it ends the program.
    pub fn status(&self) -> Status
        ensures { result ≡ spec.status_of self.now }
    {
        match self {
            Ending::Fault(fault) | Ending::Faulty(fault, _) => fault.status(),
            Ending::NoConfig(_)
            | Ending::NoText(_)
            | Ending::Unread
            | Ending::NoTrace(_)
            | Ending::Unmade(..) => Status::Device,
            Ending::OneInput | Ending::Name(_) | Ending::Unnamed(..) => Status::Usage,
            Ending::Question(..) | Ending::LongTrace | Ending::Stray(_) | Ending::Asked(..) => {
                Status::Faulty
            }
        }
    }

    /// That of a text which could not be written.
    fn of_write(error: &io::Error) -> Ending
        ensures unread { error_kind error.now ≡ kind.BrokenPipe → result ≡ ending.Unread }
        ensures fault { error_kind error.now ≢ kind.BrokenPipe → result ≡ ending.Fault run.Write }
    {
        if matches!(error.kind(), io::ErrorKind::BrokenPipe) {
            Ending::Unread
        } else {
            Ending::Fault(RunFault::Write)
        }
    }

    /// That of a run that has read these texts, which are kept for what stands beside a fault.
    fn with_texts(self, texts: Kept) -> Ending
        ensures { result ≡ spec.with_texts self texts }
    {
        match self {
            Ending::Fault(fault) => Ending::Faulty(fault, texts),
            Ending::Question(fault, place) => Ending::Asked(fault, place, texts.config),
            Ending::Name(index) => Ending::Unnamed(index, texts.config),
            ending => ending,
        }
    }
}

/// What became of a run that has read these texts.
pub fn kept<T: Drop>(run: Result<T, Ending>, texts: Kept) -> Result<T, Ending>
    ensures { result ≡ runs.kept run texts }
{
    match run {
        Ok(done) => Ok(done),
        Err(ending) => Err(ending.with_texts(texts)),
    }
}

/// A fault of a run.
pub trait Fault {
    ghost use Rattle.fmp_cli_desk.specs.declared.ending.Ending.{Ending};

    // How it ends the run, where its output was closed when the last write failed, or was not.
    ghost ending: { Self → Bool → Ending };

    /// How it ends the run, where its output was closed when the last write failed, or was not.
    fn ending(self, is_closed: bool) -> Ending
        ensures { result ≡ ending self is_closed };
}

impl Fault for RunFault {
    ghost ending = { spec.of_run };

    fn ending(self, is_closed: bool) -> Ending {
        match self {
            RunFault::Write if is_closed => Ending::Unread,
            fault => Ending::Fault(fault),
        }
    }
}

impl Fault for ExploreFault {
    ghost ending = { spec.of_search };

    fn ending(self, is_closed: bool) -> Ending {
        match self {
            ExploreFault::Run(fault) => fault.ending(is_closed),
            ExploreFault::Question(fault, place) => Ending::Question(fault, place),
        }
    }
}

impl Fault for FromFault {
    ghost ending = { spec.of_begun };

    fn ending(self, is_closed: bool) -> Ending {
        match self {
            FromFault::Explore(fault) => fault.ending(is_closed),
            FromFault::Long => Ending::LongTrace,
            FromFault::Stray(line) => Ending::Stray(line),
        }
    }
}

impl Fault for LifeFault {
    ghost ending = { spec.of_life };

    fn ending(self, is_closed: bool) -> Ending {
        match self {
            LifeFault::Run(fault) => fault.ending(is_closed),
            LifeFault::Name(index) => Ending::Name(index),
        }
    }
}

/// What became of a run, where it is known whether its output was closed when the last write failed.
pub fn settled<T: Drop, F: Fault + Drop>(run: Result<T, F>, is_closed: bool) -> Result<T, Ending>
    ensures { result ≡ runs.settled F.ending run is_closed }
{
    match run {
        Ok(done) => Ok(done),
        Err(fault) => Err(fault.ending(is_closed)),
    }
}

/// What became of a text that was written to standard output.
pub fn settled_write(write: io::Result<()>) -> Result<(), Ending>
    ensures ok { OnOk write (IsOk result) }
    ensures ends { IfErr result (λ end. (end ≡ ending.Unread) ⊎ (end ≡ ending.Fault run.Write)) }
    ensures unread { IfErr write (λ error. error_kind error ≡ kind.BrokenPipe → result ≡ Err ending.Unread) }
    ensures fault { IfErr write (λ error. error_kind error ≢ kind.BrokenPipe → result ≡ Err (ending.Fault run.Write)) }
{
    match write {
        Ok(()) => Ok(()),
        Err(error) => Err(Ending::of_write(&error)),
    }
}
