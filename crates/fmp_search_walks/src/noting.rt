//! One who goes through all orders and notes a number of the state after each event.
ghost use Rattle.std.specs.Prelude.{◌≡◌, ◌-◌, ℕ, None, IfOk, IfSome, false};
ghost use Rattle.fmp_rules.specs.World.{World};
ghost use Rattle.fmp_kernel_order.specs.Queues.{Queues};
ghost use Rattle.fmp_search.specs.Meeting.{IsLeftOpen, Meets};
ghost use Rattle.fmp_search_orders.specs.Places as places;
ghost use Rattle.fmp_search_kernel.specs.Keys.{IsPlaceKey};
ghost use Rattle.fmp_search_kernel.specs.Walked.{origin_of};
ghost use Rattle.fmp_search_walks.specs.Metered as spec;

use crate::searching::two_walkers;
use fmp_ranges::Bounds;
use fmp_rules::Config;
use fmp_search::{Met, Noted, Progress, Space, meet};
use fmp_search_kernel::{PlaceTables, Walker};
use fmp_search_orders::Rules;
use fmp_search_pattern::Question;
use fmp_step_words::Views;
use fmp_text_scripts::Scripts;
use std::alloc::{AllocError, Global};

/// Who tells a number of each state.
pub trait Meter {
    // The number of a state, whatever it keeps of the order of tasks.
    ghost number: { Self → (Q : Type 0) → World Q → ℕ };

    /// The number of the state of a machine.
    fn number<M: Views>(&self, machine: &M) -> u32
        ensures { result ≡ number self.now M.Order (M.world machine.now) };
}

/// One who stands at a place, and notes the number of each state that comes. Nothing is looked for.
#[derive(Drop)]
struct Noter<'a, N: Meter> {
    walker: Walker<'a>,
    meter: &'a N,
}

impl<'a, N: Meter> Space for Noter<'a, N> {
    type Tables = PlaceTables;

    ghost Place = { spec.Metered };

    ghost place = { λ g. spec.metered (N.number g.meter.now Queues) g.walker.place };

    ghost origin = { λ g. spec.metered (N.number g.meter.now Queues) (origin_of g.walker.place) };

    ghost after = { spec.metered_after };

    ghost wanted = { λ w. false };

    ghost passes = { λ w s. 0 };

    ghost tells = { spec.metered_number };

    ghost IsKey = { λ o t k g. (g.number ≡ o.number) × IsPlaceKey o.place t k g.place };

    ghost room = { λ g. g.walker.left };

    fn tables(&self) -> Result<PlaceTables, AllocError> {
        self.walker.tables()
    }

    fn pack(&self, tables: &mut PlaceTables) -> Result<u64, AllocError> {
        self.walker.pack(tables)
    }

    fn unpack(&mut self, tables: &mut PlaceTables, key: u64) -> Result<(), AllocError> {
        self.walker.unpack(tables, key)
    }

    fn restart(&mut self) -> Result<(), AllocError> {
        self.walker.restart()
    }

    fn may_go(&self, step: u8) -> bool {
        self.walker.may_go(step)
    }

    fn go(&mut self, step: u8) -> Result<bool, AllocError> {
        self.walker.go(step)
    }

    fn watch(&mut self, step: u8, _closed: &mut u64) -> Result<Option<Noted>, AllocError> {
        if !self.walker.go(step)? {
            return Ok(None);
        }
        Ok(Some(Noted {
            passes: 0,
            number: self.meter.number(self.walker.kernel().machine()),
        }))
    }

    fn copy_from(&mut self, other: &Self) -> Result<(), AllocError> {
        self.walker.copy_from(&other.walker)
    }

    fn steps(&self) -> u8 {
        self.walker.steps()
    }

    fn is_wanted(&self) -> bool {
        false
    }
}

/// Which numbers below the count are those of states to which runs of at most as many steps lead as the bounds say. None only where the room for places was
/// used up before, or `progress` ended the search. The error is want of memory.
pub fn search_numbers<N: Meter, P: Progress>(
    alloc: Global,
    config: &Config,
    scripts: &Scripts,
    rules: Rules,
    question: &Question,
    meter: &N,
    progress: &mut P,
    bounds: Bounds,
    count: usize,
) -> Result<Option<Met>, AllocError>
    ensures met { IfOk result (λ o. IfSome o (Meets spec.metered_after spec.metered_number
        (spec.metered (N.number meter.now Queues) (places.origin config.now scripts.now rules question.now)) bounds.turns.count count)) }
    ensures none { IfOk result (λ o. o ≡ None → IsLeftOpen spec.metered_after (λ w. false)
        (spec.metered (N.number meter.now Queues) (places.origin config.now scripts.now rules question.now)) bounds.turns.count (bounds.places.count - 1)
        (P.over progress.new)) }
{
    let (walker, base) = two_walkers(config, scripts, rules, question)?;
    let noters = (
        Noter { walker, meter },
        Noter {
            walker: base,
            meter,
        },
    );
    meet(
        alloc,
        noters,
        progress,
        bounds.turns.count,
        bounds.places.count - 1,
        count,
    )
}
