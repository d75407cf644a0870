//! Judging the text of a partial trace.
ghost use Rattle.std.specs.Prelude.{◌≡◌, ◌⊎◌, false, List, option_map, Ok, IfOk, IfErr};
ghost use Rattle.fmp_codes.specs.declared.records.Event.{Event as AnyEvent};
ghost use Rattle.fmp_codes.specs.declared.records.Record.{Record as AnyRecord};
ghost use Rattle.fmp_trace_check.specs.Checking.{PrintsAnswers};
ghost use Rattle.fmp_text.specs.Events.{IsMemory};
ghost use Rattle.fmp_trace.specs.Reading.{GivesOrFails};
ghost use Rattle.fmp_run_partial.specs.Partials.{IsCrowded, IsFirstOfPartial, IsOfOrders};
ghost use Rattle.fmp_run_partial.specs.Verdicts.{JudgesLines, JudgesText, PartlyPrintsAnswers, StandsSo};
ghost use Rattle.fmp_trace_partial.specs.Partly.{FirstFault, PartlyPrintsWithin};

use crate::ending::split_ending;
use crate::following::{Followed, follow_text};
use crate::showing::{PartialShown, Shown, show};
use crate::verdict::{Finding, Found, PartialVerdict};
use fmp_rules::Config;
use fmp_search_lines::Orders;
use fmp_text::{MOST_BYTES, TextFault, TextKind};
use fmp_trace_orders::{judge_orders, read_lines};
use std::alloc::Global;

/// For how many places of a search for an order there is room besides the first. Each takes 24 to 32 bytes, and what no place before it has of its parts.
const MOST_PLACES: u32 = 4_000_000;

/// Judges lines of which some say something of the order of lines: whether an order within their bounds is the machine's.
fn judge_ordered(alloc: Global, config: &Config, body: &[u8]) -> Result<Finding, TextFault>
    requires { StandsSo config.now body.now false }
    ensures verdict { IfOk result (λ f. JudgesLines config.now body.now f.found (option_map (λ v. v.items) f.order)) }
    ensures fault { IfErr result (λ fault. IsOfOrders config.now.names body.now fault ⊎ IsMemory fault) }
{
    let names = config.names();
    names.validity();
    let lines = read_lines(alloc, names, body)?;
    let orders = judge_orders(alloc, config, body, &lines, MOST_PLACES)?;
    match orders {
        Orders::Right(order) => Ok(Finding {
            found: Found::Yes,
            order: Some(order),
        }),
        Orders::Without(line, order) => Ok(Finding {
            found: Found::No(line + 1),
            order: Some(order),
        }),
        Orders::Crowded(line) => Err(TextFault {
            kind: TextKind::TooMany,
            line: line + 1,
        }),
        Orders::NotKnown => Ok(Finding {
            found: Found::NotKnown,
            order: Some(Vec::new(alloc)),
        }),
    }
}

/// Judges lines as they stand, or in some order within their bounds where some say something of orders.
fn found_in(alloc: Global, config: &Config, body: &[u8]) -> Result<Finding, TextFault>
    ensures verdict { IfOk result (λ f. JudgesLines config.now body.now f.found (option_map (λ v. v.items) f.order)) }
    ensures complete { (records : List AnyRecord) → PartlyPrintsWithin config.now.names body.now records
        → IfErr result (λ fault. IsMemory fault ⊎ IsOfOrders config.now.names body.now fault) }
    ensures answers { (events : List AnyEvent) → PartlyPrintsAnswers config.now body.now events → GivesOrFails (λ f. f.found) result (Ok Found.Yes) }
    ensures fault { IfErr result (λ fault. (FirstFault config.now.names body.now fault ⊎ IsOfOrders config.now.names body.now fault) ⊎ IsMemory fault) }
{
    match follow_text(alloc, config, body) {
        Ok(Followed::Yes) => Ok(Finding {
            found: Found::Yes,
            order: None,
        }),
        Ok(Followed::No(line)) => Ok(Finding {
            found: Found::No(line),
            order: None,
        }),
        Ok(Followed::Ordered) => judge_ordered(alloc, config, body),
        Err(fault) => Err(fault),
    }
}

/// Checks a partial trace against what the machine answers to its events. Each line may leave out its number, its runner and each field after
/// its answer: what is not written is not judged. Where lines have bounds they may come in another order within these. The last line may
/// say at which line of its log the trace ends before that. What is asked for is shown beside the verdict.
///
/// A fault is that of the first line that partly prints no record, wherever in the text it is: only a text without one has a
/// verdict. Where there is none, it is the first line at which more than 16 lines before it may still come after it.
pub fn judge_partial(
    alloc: Global,
    config: &Config,
    text: &[u8],
    asked: PartialShown,
) -> Result<Shown, TextFault>
    // The lines partly print records, the verdict compares what they write with the answers to the events of these, and what is asked for is shown.
    ensures verdict { IfOk result (JudgesText asked config.now text.now) }
    // A text that partly prints records has a verdict, unless memory ran out or too many lines may come late at once.
    ensures complete { (records : List AnyRecord) → PartlyPrintsWithin config.now.names text.now records
        → IfErr result (λ fault. IsMemory fault ⊎ IsCrowded config.now.names text.now fault) }
    // That of what the machine answers to any events, with any parts left out, is yes.
    ensures answers { (events : List AnyEvent) → PartlyPrintsAnswers config.now text.now events → GivesOrFails (λ s. s.verdict) result (Ok PartialVerdict.Yes) }
    // So is that of the machine's own trace, of which nothing is left out.
    ensures own { (events : List AnyEvent) → PrintsAnswers config.now text.now events → GivesOrFails (λ s. s.verdict) result (Ok PartialVerdict.Yes) }
    // The fault is the first one, or want of memory.
    ensures fault { IfErr result (IsFirstOfPartial config.now.names text.now) }
{
    config.names().validity();
    if text.len() > MOST_BYTES {
        return Err(TextFault {
            kind: TextKind::TooMany,
            line: 0,
        });
    }
    let (body, ends) = split_ending(text);
    match found_in(alloc, config, body) {
        Ok(finding) => {
            let verdict = PartialVerdict::to(finding.found, ends);
            Ok(show(config, body, &finding, asked, verdict)?)
        }
        Err(fault) => Err(fault),
    }
}
