//! Which calls of the scripts are made in orders.
ghost use Rattle.std.specs.Prelude.{◌≡◌, ◌↔◌, true, Some, IsTrue, slice_get};
ghost use Rattle.fmp_search_orders.specs.Made.{lets_pass, number_of_call};

use fmp_search::Met;
use fmp_search_kernel::number_of_call;
use fmp_search_pattern::Question;

/// Whether the call at a position of a function's script has a mark.
pub fn is_made(met: &Met, function: u8, position: u32) -> bool
    ensures { IsTrue result ↔ (slice_get met.now.marks.items (number_of_call (Some function) position) ≡ Some true) }
{
    let number = number_of_call(Some(function), position) as usize;
    met.marks.get(number).copied() == Some(true)
}

/// Whether a question lets every event be passed by: nothing must not come before one of its moments. Else a search for it does not go through all orders.
pub(crate) fn lets_pass(question: &Question) -> bool
    ensures { result ≡ lets_pass question.now }
{
    for step in question.steps() {
        if step.without.is_some() {
            return false;
        }
    }
    true
}
