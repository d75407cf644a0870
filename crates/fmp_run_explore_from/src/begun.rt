//! The trace with which orders begin: whether it is that of one, and the steps of its events.
ghost use Rattle.std.specs.Prelude.{◌≡◌, ◌≤◌, ◌<◌, ◌+◌, length, Some, IfOk, IfErr, IfSome, IfNone};
ghost use Rattle.fmp_codes.specs.declared.records.Event.{Event as AnyEvent};
ghost use Rattle.fmp_text_scripts.specs.Scripts.{AreInBits};
ghost use Rattle.fmp_text.specs.Limits.{most_bytes};
ghost use Rattle.fmp_trace.specs.Heads.{event_of as event_reported};
ghost use Rattle.fmp_search_orders.specs.Begun.{choice_of as choice_for};
ghost use Rattle.fmp_search_orders.specs.Places as places;
ghost use Rattle.fmp_run_explore_from.specs.Lines.{HasHappened, GoesOnBy, GoesNoFurther};
ghost use Rattle.fmp_run_explore_from.specs.Strays.{IsBegunBy, IsBegunFault};
ghost use Rattle.fmp_run_explore_from.specs.declared.begun.BegunFault.TheVariants.{Memory};

use fmp_codes::Event;
use fmp_names::Names;
use fmp_rules::Config;
use fmp_run_explore::Orders;
use fmp_search::Choice;
use fmp_search_kernel::choice_of;
use fmp_search_orders::Rules;
use fmp_search_pattern::Question;
use fmp_search_walks::{Follow, Walk, walk_from};
use fmp_text_scripts::Scripts;
use fmp_trace::{event_of, is_line, next_line};
use std::alloc::{AllocError, AllocFailed, Global};

/// Why a text did not give the steps of an order.
#[derive(Clone, Copy)]
pub(crate) enum BegunFault {
    /// Memory ran out.
    Memory,
    /// The number, from 1, of its first line that no order has there.
    Stray(u32),
}

impl From<AllocError> for BegunFault {
    ghost from_gives = { λ _ fault. fault ≡ Memory };

    fn from(_error: AllocError) -> BegunFault {
        BegunFault::Memory
    }
}

impl<T: Drop> From<AllocFailed<T>> for BegunFault {
    ghost from_gives = { λ _ fault. fault ≡ Memory };

    fn from(_error: AllocFailed<T>) -> BegunFault {
        BegunFault::Memory
    }
}

/// Makes the event happen that a line tells, whatever its answer is, and gives it. None where the line tells none, or it cannot happen here.
fn happen<F: Follow>(walker: &mut F, names: &Names, line: &[u8]) -> Option<Event>
    requires room { 0 < (F.at walker.old).left }
    ensures happened { IfSome result (HasHappened (F.at walker.old).place (F.at walker.new)) }
    ensures report { (event : AnyEvent) → event_reported names.now line.now ≡ Some event → places.event_of (F.at walker.old).place (choice_for event).step ≡ Some event
        → result ≡ Some event }
    ensures room { (F.at walker.old).left ≤ (F.at walker.new).left + 1 }
{
    let report = event_of(names, line)?;
    walker.happen(choice_of(report).step)
}

/// Makes the event happen that the first line of a text tells, if it may happen here and that is line n of what is printed of it. Gives the steps
/// of the event, and what follows the line. The error is want of memory.
fn go_on<'t, F: Follow>(
    walker: &mut F,
    names: &Names,
    scratch: &mut Vec<u8>,
    n: u32,
    text: &'t [u8],
) -> Result<Option<(Choice, &'t [u8])>, AllocError>
    requires room { 0 < (F.at walker.old).left }
    ensures further { IfOk result (λ o. IfSome o (λ p. GoesOnBy names.now n (F.at walker.old).place (F.at walker.new).place text.now p.1.now p.0)) }
    ensures no_further { IfOk result (λ o. IfNone o (GoesNoFurther names.now n (F.at walker.old).place text.now)) }
    ensures room { (F.at walker.old).left ≤ (F.at walker.new).left + 1 }
{
    names.validity();
    let Some((line, after)) = next_line(text) else {
        return Ok(None);
    };
    let Some(event) = happen(walker, names, line) else {
        return Ok(None);
    };
    if is_line(scratch, names, n, walker.record(), line)? {
        Ok(Some((choice_of(event), after)))
    } else {
        Ok(None)
    }
}

/// Follows a text from where all orders begin.
#[derive(Clone, Copy)]
struct Follower<'t> {
    alloc: Global,
    text: &'t [u8],
    ghost short: { length text.now ≤ most_bytes },
}

impl<'t> Walk for Follower<'t> {
    ghost use Rattle.std.specs.Prelude.{IfOk, IfErr};
    ghost use Rattle.fmp_text_scripts.specs.Scripts.{AreInBits};
    ghost use Rattle.fmp_run_explore_from.specs.Strays.{IsBegunBy, IsBegunFault};

    type Out = Result<Vec<Choice>, BegunFault>;

    ghost needs = { λ _ _ scripts _. AreInBits scripts };

    ghost gives = { λ s c scripts rules out. IfOk out (λ v. IsBegunBy c scripts rules s.text.now v.items)
        × IfErr out (IsBegunFault c scripts rules s.text.now) };

    fn walk<F: Follow>(
        &self,
        config: &Config,
        _scripts: &Scripts,
        _rules: Rules,
        walker: &mut F,
    ) -> Result<Vec<Choice>, BegunFault> {
        let names = config.names();
        names.validity();
        let mut scratch = Vec::new(self.alloc);
        let mut choices = Vec::new(self.alloc);
        let mut number: u32 = 1;
        let mut rest = self.text;
        while let Some((choice, after)) = go_on(walker, names, &mut scratch, number, rest)? {
            choices.push(choice)?;
            number += 1;
            rest = after;
        }
        if rest.is_empty() {
            Ok(choices)
        } else {
            Err(BegunFault::Stray(number))
        }
    }
}

/// The steps of the events of a text, which is the trace of an order. No line is refused for what a question asks: it is followed with
/// one that has no step.
pub(crate) fn begun_choices(
    alloc: Global,
    orders: &Orders<'_>,
    text: &[u8],
) -> Result<Vec<Choice>, BegunFault>
    requires in_bits { AreInBits orders.now.scripts.now }
    requires short { length text.now ≤ most_bytes }
    ensures begun { IfOk result (λ v. IsBegunBy orders.now.config.now orders.now.scripts.now orders.now.rules text.now v.items) }
    ensures fault { IfErr result (IsBegunFault orders.now.config.now orders.now.scripts.now orders.now.rules text.now) }
{
    let nothing = Question::new(Vec::new(alloc));
    let follower = Follower { alloc, text };
    walk_from(
        orders.config,
        orders.scripts,
        orders.rules,
        &nothing,
        &follower,
    )?
}
