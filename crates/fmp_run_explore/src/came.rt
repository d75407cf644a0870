//! How many steps of a question come, where no order shows all of them.
ghost use Rattle.std.specs.Prelude.{◌-◌, IfOk};
ghost use Rattle.fmp_search_orders.specs.Shown.{NoneShows};
ghost use Rattle.fmp_run_explore.specs.Came as spec;

use crate::finding::Finding;
use crate::searched::Searched;
use fmp_ranges::Bounds;
use fmp_search::Progress;
use std::alloc::{AllocError, Global};

impl Searched {
    /// How many steps of the question come in some order, where none shows all of them. It is searched for by halving. It is not known where one of
    /// these searches does not say whether an order shows the first steps. The error is want of memory.
    pub fn came<P: Progress>(
        &self,
        alloc: Global,
        progress: &mut P,
        bounds: Bounds,
    ) -> Result<Option<usize>, AllocError>
        requires none { NoneShows self.now.config self.now.scripts self.now.rules self.now.question }
        ensures { IfOk result (spec.IsCome self.now bounds.turns.count (bounds.places.count - 1) (P.over progress.new)) }
    {
        let question = self.question();
        let mut come: usize = 0;
        let mut beyond = question.steps().len();
        while beyond - come > 1 {
            let middle = come + (beyond - come) / 2;
            let first = question.first(alloc, middle)?;
            let found = self.finding(alloc, &first, progress, bounds)?;
            match found {
                Finding::Shown => come = middle,
                Finding::Never => beyond = middle,
                Finding::NotWithin(_) | Finding::Wanting(_) | Finding::Ended(_) => return Ok(None),
            }
        }
        Ok(Some(come))
    }
}
