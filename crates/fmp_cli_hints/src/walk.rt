//! How far a line is read, up to the first byte that does not fit.
ghost use Rattle.std.specs.Prelude.{◌≡◌};
ghost use Rattle.fmp_cli_hints.specs.Places as spec;
ghost use Rattle.fmp_text.specs.Places.{place_of};

use crate::wanted::{Wanted, event_wanted};
use fmp_text::Misfit;
use std::marker::Model;

/// Where reading stands: the rest of the line, and what is wanted at its beginning where it does not go on so.
#[derive(Drop)]
pub struct Walk<'a> {
    rest: &'a [u8],
    wanted: Option<Wanted>,
}

impl<'a> Model for Walk<'a> {
    ghost use Rattle.fmp_cli_hints.specs.Places.{Walk as Walked};

    ghost Value = { Walked };

    ghost view = { λ w. record { rest = w.rest.now; wanted = w.wanted } };
}

impl<'a> Walk<'a> {
    ghost use Rattle.std.specs.Prelude.{◌≡◌};
    ghost use Rattle.fmp_cli_hints.specs.Places as spec;
    ghost use Rattle.fmp_text.specs.Places.{place_of};

    /// Reading goes on with this rest.
    pub(crate) fn going(rest: &'a [u8]) -> Self
        ensures { result ≡ spec.going rest.now }
    {
        Walk { rest, wanted: None }
    }

    /// Reading ends before this rest.
    pub(crate) fn stuck(rest: &'a [u8], wanted: Wanted) -> Self
        ensures { result ≡ spec.stuck rest.now wanted }
    {
        Walk {
            rest,
            wanted: Some(wanted),
        }
    }

    /// Reading ends where a line of events, or a call, is refused.
    pub(crate) fn refused(misfit: Misfit<'a>) -> Self
        ensures { result ≡ spec.refused (place_of misfit.entry) }
    {
        Walk::stuck(misfit.rest, event_wanted(misfit.rest, misfit.wanted))
    }

    /// The line from the place on.
    pub fn rest(&self) -> &'a [u8]
        ensures { result.now ≡ self.now.rest }
    {
        self.rest
    }

    /// What is wanted at the place, where the line does not fit there.
    pub fn wanted(&self) -> Option<Wanted>
        ensures { result ≡ self.now.wanted }
    {
        self.wanted
    }
}
