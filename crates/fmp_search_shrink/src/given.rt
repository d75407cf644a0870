//! Whether events that come as they are given show what a question asks.
ghost use Rattle.std.specs.Prelude.{◌≤◌, ◌↔◌, length, IfOk, IsTrue};
ghost use Rattle.fmp_codes.specs.Records.{AreOn};
ghost use Rattle.fmp_search_shrink.specs.Shrinking.{AnswersShow};

use crate::showing::shows;
use fmp_codes::Event;
use fmp_rules::Config;
use fmp_search_orders::Rules;
use fmp_search_pattern::Question;
use std::alloc::AllocError;

/// Events come as they are given: ticks may be of any number.
const AS_GIVEN: Rules = Rules {
    ticks: None,
    prompt: false,
    drift: None,
    pace: None,
    spurious: false,
};

/// Whether what the machine answers to these events shows what a question asks.
pub(crate) fn shows_given(
    config: &Config,
    question: &Question,
    events: &[Event],
) -> Result<bool, AllocError>
    requires short { length question.now ≤ 255 }
    requires on { AreOn config.now.processors events.now }
    ensures { IfOk result (λ r. IsTrue r ↔ AnswersShow config.now question.now events.now) }
{
    shows(config, AS_GIVEN, question, events)
}
