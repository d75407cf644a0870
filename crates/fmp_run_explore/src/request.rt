//! What a search through all orders is to do.

use fmp_ranges::Bounds;
use fmp_search_orders::Rules;

/// What is asked of the orders of scripts, by which rules these are, and how far they are gone through.
#[derive(Clone, Copy)]
pub struct SearchRequest<'a> {
    /// The text of the question.
    pub question: &'a [u8],
    pub rules: Rules,
    pub bounds: Bounds,
}
