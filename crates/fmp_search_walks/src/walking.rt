//! A walker that is lent, where all runs begin.
ghost use Rattle.std.specs.Prelude.{◌≡◌, ◌≤◌, ◌<◌, ◌+◌, ◌^◌, [], List, false, IfOk, IfSome};
ghost use Rattle.fmp_rules.specs.Step as machine;
ghost use Rattle.fmp_kernel_order.specs.Queues.{listed};
ghost use Rattle.fmp_setup.specs.Setup.{Setup};
ghost use Rattle.fmp_text_scripts.specs.Scripts.{Steps};
ghost use Rattle.fmp_search_orders.specs.declared.rules.Rules.{Rules as AnyRules};
ghost use Rattle.fmp_search_orders.specs.Places as places;
ghost use Rattle.fmp_search_kernel.specs.Walked.{Walked};

use fmp_codes::{Event, Record};
use fmp_rules::Config;
use fmp_search_kernel::Walker;
use fmp_search_orders::Rules;
use fmp_search_pattern::Question;
use fmp_text_scripts::Scripts;
use std::alloc::AllocError;

/// Who stands at a place of all orders, and makes events happen one after the other. It is a walker, of which no more is to be known: a crate that names
/// walkers where others see it carries all that their kernels are made of.
pub trait Follow {
    // Where it stands, for how many steps more there is room, and what the last event was told to have done.
    ghost at: { Self → Walked };

    /// Makes the event of a step happen, without a mark and without a look at the question, and gives it. None where the step has none here.
    fn happen(&mut self, step: u8) -> Option<Event>
        requires room { 0 < (at self.old).left }
        ensures event { result ≡ places.event_of (at self.old).place step }
        ensures went { IfSome result (λ event. (at self.new).place ≡ places.went (at self.old).place false (machine.step listed (at self.old).place.machine event)) }
        ensures made { IfSome result (λ event. (at self.new).made ≡ (machine.step listed (at self.old).place.machine event).1) }
        ensures room { (at self.old).left ≤ (at self.new).left + 1 };

    /// What the last event was told to have done.
    fn record(&self) -> &Record
        ensures { result.now ≡ (at self.now).made };
}

/// A walker that is lent.
#[derive(Drop)]
struct Lent<'a> {
    walker: Walker<'a>,
}

impl<'a> Follow for Lent<'a> {
    ghost at = { λ l. l.walker };

    fn happen(&mut self, step: u8) -> Option<Event> {
        self.walker.follow(step)
    }

    fn record(&self) -> &Record {
        self.walker.made()
    }
}

/// Who is lent a walker, where no question is asked.
pub trait Walk {
    /// What comes of it.
    type Out: Drop;

    // What has to be so of a machine, its scripts and the rules.
    ghost needs: { Self → Setup → List Steps → AnyRules → Type 0 };

    // This holds of what comes of it.
    ghost gives: { Self → Setup → List Steps → AnyRules → Self.Out → Type 0 };

    /// Walks from where all runs begin.
    fn walk<F: Follow>(
        &self,
        config: &Config,
        _scripts: &Scripts,
        _rules: Rules,
        walker: &mut F,
    ) -> Self::Out
        requires needs { needs self.now config.now _scripts.now _rules }
        requires begin { (F.at walker.old).place ≡ places.origin config.now _scripts.now _rules [] }
        requires room { 2 ^ 31 ≤ (F.at walker.old).left }
        ensures { gives self.now config.now _scripts.now _rules result };
}

/// What comes of a walk from where all runs begin. The question has no steps. The error is want of memory for the walker.
pub fn walk_from<W: Walk>(
    config: &Config,
    scripts: &Scripts,
    rules: Rules,
    none: &Question,
    walk: &W,
) -> Result<W::Out, AllocError>
    requires needs { W.needs walk.now config.now scripts.now rules }
    requires none { none.now ≡ [] }
    ensures { IfOk result (W.gives walk.now config.now scripts.now rules) }
{
    let mut walker = Walker::new(config, scripts, rules, none)?;
    walker.start_over()?;
    let mut lent = Lent { walker };
    Ok(walk.walk(config, scripts, rules, &mut lent))
}
