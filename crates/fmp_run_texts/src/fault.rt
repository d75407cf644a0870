//! Why a run did not go to its end.
ghost use Rattle.std.specs.Prelude.{◌≡◌};
ghost use Rattle.fmp_run_texts.specs.declared.fault.RunFault.TheVariants.{Memory, Write};
ghost use Rattle.fmp_run_texts.specs.Faults.{read_fault_of};

use crate::status::Status;
use fmp_config::{ConfigFault, ConfigKind};
use fmp_run_devices::{Failed, ReadFault};
use fmp_text::{TextFault, TextKind};
use std::alloc::AllocError;
use std::error::Error;
use std::fmt;

/// Why a run did not go to its end.
#[derive(Debug, Drop)]
pub enum RunFault {
    /// The first fault of the configuration.
    Config(ConfigFault),
    /// The first fault of the other text.
    Text(TextFault),
    /// A read failed.
    Read,
    /// A write or a flush failed.
    Write,
    /// Memory ran out.
    Memory,
    /// A thread could not be started.
    Start,
    /// What the processors were told is not what the trace says.
    Disagree,
}

impl RunFault {
    ghost use Rattle.std.specs.Prelude.{◌≡◌};
    ghost use Rattle.fmp_run_texts.specs.Statuses.{status_of};

    /// How the program ends after it.
    pub fn status(&self) -> Status
        ensures { result ≡ status_of self.now }
    {
        match self {
            RunFault::Config(
                ConfigFault {
                    kind: ConfigKind::Memory,
                    ..
                },
            )
            | RunFault::Text(
                TextFault {
                    kind: TextKind::Memory,
                    ..
                },
            )
            | RunFault::Memory
            | RunFault::Start
            | RunFault::Disagree => Status::Memory,
            RunFault::Config(_) | RunFault::Text(_) => Status::Faulty,
            RunFault::Read | RunFault::Write => Status::Device,
        }
    }
}

/// The fault of a text without its path, or what failed: `read failed`.
impl fmt::Display for RunFault {
    ghost use Rattle.std.specs.Prelude.{Some};
    ghost use Rattle.fmp_run_texts.specs.Faults.{text_of};

    ghost output = { λ fault. Some (text_of fault) };

    fn fmt<W: fmt::Write>(&self, f: &mut fmt::Formatter<W>) -> fmt::Result {
        match self {
            RunFault::Config(fault) => write!(f, "{fault}"),
            RunFault::Text(fault) => write!(f, "{fault}"),
            RunFault::Read => write!(f, "read failed"),
            RunFault::Write => write!(f, "write failed"),
            RunFault::Memory => write!(f, "want of memory"),
            RunFault::Start => write!(f, "no thread could be started"),
            RunFault::Disagree => write!(f, "receipts disagree"),
        }
    }
}

impl Error for RunFault {}

/// The line that tells a fault to a user: `fmpsim: machine.cfg: line 4: F3 unsupported API CRE_MTX`, with the path of the
/// text that has it, or `fmpsim: read failed`.
#[derive(Clone, Copy)]
pub struct FaultLine<'a> {
    /// The path of the configuration.
    pub config: &'a str,
    /// The path of the other text.
    pub text: &'a str,
    pub fault: &'a RunFault,
}

impl fmt::Display for FaultLine<'_> {
    ghost use Rattle.std.specs.Prelude.{Some};
    ghost use Rattle.fmp_run_texts.specs.Faults.{fault_line};

    ghost output = { λ line. Some (fault_line line.config.now line.text.now line.fault.now) };

    fn fmt<W: fmt::Write>(&self, f: &mut fmt::Formatter<W>) -> fmt::Result {
        let (config, text, fault) = (self.config, self.text, self.fault);
        match fault {
            RunFault::Config(_) => write!(f, "fmpsim: {config}: {fault}"),
            RunFault::Text(_) => write!(f, "fmpsim: {text}: {fault}"),
            RunFault::Read
            | RunFault::Write
            | RunFault::Memory
            | RunFault::Start
            | RunFault::Disagree => write!(f, "fmpsim: {fault}"),
        }
    }
}

impl From<AllocError> for RunFault {
    ghost from_gives = { λ _ fault. fault ≡ Memory };

    fn from(_error: AllocError) -> RunFault {
        RunFault::Memory
    }
}

impl From<ReadFault> for RunFault {
    ghost from_gives = { λ error fault. fault ≡ read_fault_of error };

    fn from(error: ReadFault) -> RunFault {
        match error {
            ReadFault::Failed => RunFault::Read,
            ReadFault::Memory => RunFault::Memory,
        }
    }
}

impl From<Failed> for RunFault {
    ghost from_gives = { λ _ fault. fault ≡ Write };

    fn from(_error: Failed) -> RunFault {
        RunFault::Write
    }
}
