//! What is sized: the figures of a machine, in the orders of scripts.
ghost use Rattle.std.specs.Prelude.{◌≡◌, ◌≤◌, [], length};

use crate::figure::Figure;
use fmp_rules::Config;
use fmp_search_orders::Rules;
use fmp_search_pattern::Question;
use fmp_text_scripts::Scripts;

/// A machine with its figures, and the orders of the scripts by these rules. The question has no steps.
#[derive(Clone, Copy)]
pub struct Sizing<'a> {
    pub config: &'a Config,
    pub scripts: &'a Scripts,
    pub rules: Rules,
    pub none: &'a Question,
    pub figures: &'a [Figure],
    pub ghost bare: { none.now ≡ [] },
    pub ghost few: { length figures.now ≤ 1024 },
}
