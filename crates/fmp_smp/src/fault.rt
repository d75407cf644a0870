//! Why there is no run with threads.
ghost use Rattle.std.specs.Prelude.{◌≡◌};
ghost use Rattle.fmp_smp.specs.declared.fault.SmpFault.TheVariants.{Memory};

use std::alloc::AllocError;
use thiserror::Error;

/// Why there is no run with threads.
#[derive(Clone, Copy, Debug, Drop, Error)]
pub enum SmpFault {
    #[error("want of memory")]
    Memory,
    #[error("no thread could be started")]
    Start,
    /// What came back is no run, so that its judge gave none.
    #[error("receipts disagree")]
    Disagree,
}

impl From<AllocError> for SmpFault {
    ghost from_gives = { λ _ fault. fault ≡ Memory };

    fn from(_refused: AllocError) -> SmpFault {
        SmpFault::Memory
    }
}
