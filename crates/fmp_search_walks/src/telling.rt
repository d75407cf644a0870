//! The trace of steps.
ghost use Rattle.std.specs.Prelude.{◌≡◌, ◌<◌, ◌^◌, length, IfOk, is_some, true};
ghost use Rattle.fmp_search.specs.Runs.{run};
ghost use Rattle.fmp_search_orders.specs.Places as places;
ghost use Rattle.fmp_trace.specs.Lines.{lines_from};

use fmp_rules::Config;
use fmp_search_kernel::Walker;
use fmp_search_orders::Rules;
use fmp_search_pattern::Question;
use fmp_text_scripts::Scripts;
use fmp_trace::put_line;
use std::alloc::{AllocError, Global};

/// The trace of what happens along these steps, which can be made one after the other. The error is want of memory.
pub fn trace_of_steps(
    alloc: Global,
    config: &Config,
    scripts: &Scripts,
    rules: Rules,
    question: &Question,
    steps: &[u8],
) -> Result<Vec<u8>, AllocError>
    requires leads { is_some (run places.after (places.origin config.now scripts.now rules question.now) steps.now) ≡ true }
    requires few { length steps.now < 2 ^ 31 }
    ensures { IfOk result (λ text. text.items ≡ lines_from config.now.names 1 (places.records (places.origin config.now scripts.now rules question.now) steps.now)) }
{
    let names = config.names();
    let mut walker = Walker::new(config, scripts, rules, question)?;
    walker.start_over()?;
    let mut out = Vec::new(alloc);
    let mut n: u32 = 0;
    for step in steps {
        walker.retrace(*step);
        n += 1;
        put_line(&mut out, names, n, walker.made())?;
    }
    Ok(out)
}
