//! Whether there is something to leave events out of.
ghost use Rattle.std.specs.Prelude.{◌≡◌};
ghost use Rattle.fmp_run_shrink.specs.Shrunk as spec;

use fmp_run_texts::Status;

/// Whether the answers to the events show what is asked.
#[derive(Clone, Copy)]
pub enum Shrinking {
    /// They do: what is left of the events was written.
    Shrunk,
    /// They do not: nothing was written.
    NotShown,
}

impl Shrinking {
    /// How the program ends after it.
    pub const fn status(self) -> Status
        ensures { result ≡ spec.status_of self }
    {
        match self {
            Shrinking::Shrunk => Status::Done,
            Shrinking::NotShown => Status::Different,
        }
    }
}
