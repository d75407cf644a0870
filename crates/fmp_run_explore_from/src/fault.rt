//! Why a run through the orders that go on from a trace did not go to its end.

use fmp_run_explore::ExploreFault;
use fmp_run_texts::Status;

/// Why a run did not go to its end.
#[derive(Drop)]
pub enum FromFault {
    /// A text or the question has a fault, a device failed, or memory ran out, as in a run from boot.
    Explore(ExploreFault),
    /// The trace has more than `MOST_BYTES` bytes.
    Long,
    /// The number, from 1, of the first line of the trace that no order of these scripts has there.
    Stray(u32),
}

impl FromFault {
    ghost use Rattle.std.specs.Prelude.{◌≡◌};
    ghost use Rattle.fmp_run_explore_from.specs.Faults.{status_of};

    /// How the program ends after it.
    pub fn status(&self) -> Status
        ensures { result ≡ status_of self.now }
    {
        match self {
            FromFault::Explore(fault) => fault.status(),
            FromFault::Long => Status::Faulty,
            FromFault::Stray(_) => Status::Faulty,
        }
    }
}
