//! What the program ends with.
ghost use Rattle.std.specs.Prelude.{◌≡◌};
ghost use Rattle.fmp_run_texts.specs.Statuses as spec;

use fmp_trace_check::Verdict;

/// How the program ends. The number of each is its exit status.
#[derive(Clone, Copy)]
pub enum Status {
    /// All is done, the verdict is yes, no processor had anything left to do, or help was asked for.
    Done = 0,
    /// A text has a fault.
    Faulty = 1,
    /// The command line is wrong.
    Usage = 2,
    /// A file could not be read, or the output not be written.
    Device = 3,
    /// Memory ran out, a thread could not be started, or receipts disagree.
    Memory = 4,
    /// The verdict is no.
    Different = 5,
    /// A run of processors came to its limit of turns.
    Limit = 6,
    /// A run of processors ended quiet while a task waits, and that was to be told.
    Waiting = 7,
}

impl Status {
    /// The exit status, from 0 to 7.
    pub const fn code(self) -> u8
        ensures { result ≡ spec.code_of self }
    {
        self as u8
    }

    /// How a run ends that came to a verdict.
    pub const fn of_verdict(verdict: Verdict) -> Status
        ensures { result ≡ spec.status_of_verdict verdict }
    {
        match verdict {
            Verdict::Yes => Status::Done,
            Verdict::No(_) => Status::Different,
        }
    }
}
