//! What is known of what stays for ever.
ghost use Rattle.std.specs.Prelude.{◌≡◌};
ghost use Rattle.fmp_run_forever.specs.Stayed as spec;

use fmp_run_explore::Asked;
use fmp_run_texts::Status;
use fmp_search::{Extent, Met};
use fmp_search_orders::Rules;
use fmp_search_pattern::Moment;

/// What is known of all orders, by a search through them.
#[derive(Clone, Copy)]
pub enum Staying {
    /// What is asked under this number, from 0, stays from the last line on of the trace that was written, which has so many lines. No shorter trace ends
    /// so, whatever is asked.
    Shortest(u8, u32),
    /// Likewise, but there may be a shorter one.
    Found(u8, u32),
    /// Nothing that is asked stays, in no order.
    Never,
    /// That is not known. Orders of so many lines were gone through: no more were asked for, or there is no room for more places.
    NotWithin(u32),
    /// Likewise, where there was no memory for more places.
    Wanting(u32),
    /// Likewise, where the search was ended before more is known.
    Ended(u32),
}

impl Staying {
    /// How the program ends after it.
    pub const fn status(self) -> Status
        ensures { result ≡ spec.status_of self }
    {
        match self {
            Staying::Shortest(..) | Staying::Found(..) => Status::Different,
            Staying::Never => Status::Done,
            Staying::NotWithin(_) | Staying::Wanting(_) | Staying::Ended(_) => Status::Limit,
        }
    }
}

/// What was found, what was asked by which rules, how far the search went, and which calls of the scripts are made.
#[derive(Drop)]
pub struct Stayed {
    pub staying: Staying,
    pub asked: Asked<Vec<Moment>>,
    pub rules: Rules,
    pub extent: Extent,
    /// Which calls are made: in all orders, or in those of at most as many lines as the bounds say. None where not all of these were gone through, and beside a trace.
    pub met: Option<Met>,
}
