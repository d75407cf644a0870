//! What is known of all orders.
ghost use Rattle.std.specs.Prelude.{◌≡◌};
ghost use Rattle.fmp_run_explore.specs.Explored as spec;

use fmp_run_texts::Status;

/// What is known of all orders, by a search through them.
#[derive(Clone, Copy)]
pub enum Finding {
    /// Some order shows the question: the trace of a shortest one was written.
    Shown,
    /// None does, of whatever length.
    Never,
    /// None of at most so many lines does.
    NotWithin(u32),
    /// Likewise, where there was no memory for more places.
    Wanting(u32),
    /// Likewise, where the search was ended before more is known.
    Ended(u32),
}

impl Finding {
    /// How the program ends after it.
    pub const fn status(self) -> Status
        ensures { result ≡ spec.status_of self }
    {
        match self {
            Finding::Shown => Status::Different,
            Finding::Never => Status::Done,
            Finding::NotWithin(_) | Finding::Wanting(_) | Finding::Ended(_) => Status::Limit,
        }
    }
}
