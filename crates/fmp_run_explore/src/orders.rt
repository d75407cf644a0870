//! The orders in which is looked.
ghost use Rattle.std.specs.Prelude.{◌≡◌};

use crate::searched::Searched;
use fmp_rules::Config;
use fmp_search_orders::Rules;
use fmp_text_scripts::Scripts;

/// The orders of the scripts on a machine, by rules, whatever is asked of them.
#[derive(Clone, Copy)]
pub struct Orders<'a> {
    pub config: &'a Config,
    pub scripts: &'a Scripts,
    pub rules: Rules,
}

impl Searched {
    /// The orders in which is looked.
    pub fn orders(&self) -> Orders<'_>
        ensures config { result.config.now ≡ self.now.config }
        ensures scripts { result.scripts.now ≡ self.now.scripts }
        ensures rules { result.rules ≡ self.now.rules }
    {
        Orders {
            config: &self.asked.config,
            scripts: &self.asked.scripts,
            rules: self.rules,
        }
    }
}
