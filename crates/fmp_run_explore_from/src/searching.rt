//! The search through the orders of one machine and its scripts that go on from a trace.
ghost use Rattle.std.specs.Prelude.{◌≡◌, ◌-◌, ◌≤◌, length, List, IfOk, IfErr};
ghost use Rattle.fmp_codes.specs.declared.records.Record.{Record as AnyRecord};
ghost use Rattle.fmp_text_scripts.specs.Scripts.{AreInBits};
ghost use Rattle.fmp_text.specs.Limits.{most_bytes};
ghost use Rattle.fmp_search_orders.specs.Begun.{choices_of};
ghost use Rattle.fmp_search_orders.specs.Orders.{IsOrder};
ghost use Rattle.fmp_run_explore.specs.Explored.{IsEndedBy};
ghost use Rattle.fmp_run_explore_from.specs.Explored.{FindsFrom, IsFoundFrom};
ghost use Rattle.fmp_run_explore_from.specs.Strays.{IsBegunFault};

use crate::begun::{BegunFault, begun_choices};
use fmp_ranges::Bounds;
use fmp_run_explore::{Finding, Orders, never, not_within, trace_along};
use fmp_search::{Answer, Choice, Progress};
use fmp_search_orders::begun_answer;
use fmp_search_pattern::Question;
use fmp_search_walks::search_along;
use std::alloc::{AllocError, Global};

/// What is known of all orders that go on from the one whose events have these choices, and the text that tells it. The error is
/// want of memory.
fn report_from<P: Progress>(
    alloc: Global,
    orders: &Orders<'_>,
    question: &Question,
    choices: &[Choice],
    progress: &mut P,
    bounds: Bounds,
) -> Result<(Finding, Vec<u8>), AllocError>
    requires in_bits { AreInBits orders.now.scripts.now }
    ensures ended { IfOk result (λ r. IsEndedBy (P.over progress.new) r.0) }
    ensures finds { (begun : List AnyRecord) → IsOrder orders.now.config.now orders.now.scripts.now orders.now.rules begun → choices.now ≡ choices_of begun
        → IfOk result (λ r. FindsFrom orders.now.config.now orders.now.scripts.now orders.now.rules question.now begun bounds.turns.count
        (bounds.places.count - 1) r.1.items r.0) }
{
    let names = orders.config.names();
    names.validity();
    begun_answer();
    let answer = search_along(
        alloc,
        orders.config,
        orders.scripts,
        orders.rules,
        question,
        choices,
        progress,
        bounds,
    )?;
    match answer {
        Answer::Found(steps) => {
            let text = trace_along(alloc, orders, question, &steps)?;
            Ok((Finding::Shown, text))
        }
        Answer::Never => Ok((Finding::Never, never(alloc)?)),
        Answer::NotWithin(turns) => Ok((Finding::NotWithin(turns), not_within(alloc, turns)?)),
        Answer::Wanting(turns) => Ok((Finding::Wanting(turns), not_within(alloc, turns)?)),
        Answer::Ended(turns) => Ok((Finding::Ended(turns), not_within(alloc, turns)?)),
    }
}

/// What is known of all orders that go on from the one whose trace a text is, and the text that tells it.
pub(crate) fn found_from<P: Progress>(
    alloc: Global,
    orders: &Orders<'_>,
    begun: &[u8],
    question: &Question,
    progress: &mut P,
    bounds: Bounds,
) -> Result<(Finding, Vec<u8>), BegunFault>
    requires in_bits { AreInBits orders.now.scripts.now }
    requires short { length begun.now ≤ most_bytes }
    ensures found { IfOk result (λ r. IsFoundFrom orders.now.config.now orders.now.scripts.now orders.now.rules begun.now question.now bounds.turns.count
        (bounds.places.count - 1) r.1.items r.0) }
    ensures ended { IfOk result (λ r. IsEndedBy (P.over progress.new) r.0) }
    ensures fault { IfErr result (IsBegunFault orders.now.config.now orders.now.scripts.now orders.now.rules begun.now) }
{
    let choices = begun_choices(alloc, orders, begun)?;
    let report = report_from(
        alloc,
        orders,
        question,
        choices.as_slice(),
        progress,
        bounds,
    )?;
    Ok(report)
}
