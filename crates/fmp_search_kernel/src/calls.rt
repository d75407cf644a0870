//! The numbers of the calls of scripts.
ghost use Rattle.std.specs.Prelude.{◌≡◌, Some};
ghost use Rattle.fmp_search_orders.specs.Made as made;

use crate::walker::Walker;
use fmp_codes::{Event, Proc, Runner};
use fmp_smp_histories::function_of;

/// How many positions of a script have a number: as many as a script that was read may have steps.
pub const POSITIONS: u32 = 256;

/// How many numbers there are. It is told of a step that makes no call of a script.
pub const NUMBERS: u32 = 65_536;

/// The number of the call at a position of a function's script.
pub fn number_of_call(function: Option<u8>, position: u32) -> u32
    ensures { result ≡ made.number_of_call function position }
{
    match function {
        None => NUMBERS,
        Some(function) => {
            if position < POSITIONS {
                u32::from(function) * POSITIONS + position
            } else {
                NUMBERS
            }
        }
    }
}

impl<'a> Walker<'a> {
    /// The number of the call that a runner on a processor makes next.
    fn number_by(&self, p: Proc, runner: Option<Runner>) -> u32
        ensures { result ≡ made.number_at_of self.now.place p runner }
    {
        match runner {
            None => NUMBERS,
            Some(runner) => {
                let position = self.position(p, runner);
                number_of_call(function_of(self.config, runner), position)
            }
        }
    }

    /// The number of the call that an event makes here.
    pub(crate) fn number_of(&self, event: Event) -> u32
        ensures { result ≡ made.number_reported self.now.place (Some event) }
    {
        match event {
            Event::Call(p, _) => self.number_by(p, self.kernel.runner(p)),
            _ => NUMBERS,
        }
    }
}
