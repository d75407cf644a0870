//! What a search was asked, and what it found.
ghost use Rattle.std.specs.Prelude.{◌≡◌, ◌-◌, ℕ, List, IfOk};
ghost use Rattle.fmp_text_scripts.specs.Scripts.{AreInBits};
ghost use Rattle.fmp_search_orders.specs.Shown.{NoneShows};
ghost use Rattle.fmp_search_kernel.specs.Seen.{so_at_boot};
ghost use Rattle.fmp_run_explore.specs.declared.finding.Finding.TheVariants.{Never};
ghost use Rattle.fmp_run_explore.specs.Explored.{Finds, IsEndedBy};
ghost use Rattle.fmp_run_explore.specs.Searched.{searched};

use crate::asking::Asked;
use crate::finding::Finding;
use crate::orders::Orders;
use crate::searching::found;
use fmp_names::Names;
use fmp_ranges::Bounds;
use fmp_rules::Config;
use fmp_search::{Extent, Met, Progress};
use fmp_search_kernel::is_so_at_boot;
use fmp_search_orders::Rules;
use fmp_search_pattern::{Question, Wanted};
use std::alloc::{AllocError, Global};
use std::marker::Model;

/// What a search was asked: of which machine, scripts and rules, and for what it looked.
#[derive(Drop)]
pub struct Searched {
    pub(crate) asked: Asked<Question>,
    pub(crate) rules: Rules,
}

impl Model for Searched {
    ghost use Rattle.fmp_text_scripts.specs.Scripts.{AreInBits};
    ghost use Rattle.fmp_run_explore.specs.Searched as spec;

    ghost Value = { spec.Searched };

    ghost view = { λ s. spec.searched s.asked.config s.asked.scripts s.rules s.asked.question };

    ghost invariant = { λ s. AreInBits s.asked.scripts };
}

impl Searched {
    /// That of a search that was asked this.
    pub(crate) fn of(asked: Asked<Question>, rules: Rules) -> Searched
        requires { AreInBits asked.scripts }
        ensures { result ≡ searched asked.config asked.scripts rules asked.question }
    {
        Searched { asked, rules }
    }

    /// The names of the machine.
    pub fn names(&self) -> &Names
        ensures { result.now ≡ self.now.config.names }
    {
        self.asked.config.names()
    }

    /// The machine.
    pub fn config(&self) -> &Config
        ensures { result.now ≡ self.now.config }
    {
        &self.asked.config
    }

    /// What was looked for.
    pub fn question(&self) -> &Question
        ensures { result.now ≡ self.now.question }
    {
        &self.asked.question
    }

    /// Whether what is asked for is a fact that is so at boot, before any event. The error is want of memory.
    pub fn is_so_at_boot(&self, wanted: &Wanted) -> Result<bool, AllocError>
        ensures { IfOk result (λ so. so ≡ so_at_boot self.now.config wanted.now) }
    {
        is_so_at_boot(&self.asked.config, wanted)
    }

    /// What is known of another question about the same machine, scripts and rules. The error is want of memory.
    pub fn finding<P: Progress>(
        &self,
        alloc: Global,
        question: &Question,
        progress: &mut P,
        bounds: Bounds,
    ) -> Result<Finding, AllocError>
        ensures finds { IfOk result (λ f. (text : List ℕ) × Finds self.now.config self.now.scripts self.now.rules question.now bounds.turns.count
            (bounds.places.count - 1) text f) }
        ensures ended { IfOk result (λ f. IsEndedBy (P.over progress.new) f) }
    {
        let asked = &self.asked;
        let orders = Orders {
            config: &asked.config,
            scripts: &asked.scripts,
            rules: self.rules,
        };
        let report = found(alloc, &orders, question, progress, bounds)?;
        Ok(report.finding)
    }
}

/// What a search found of all orders, how far it went, which calls of the scripts are made, and what it was asked.
#[derive(Drop)]
pub struct Outcome {
    pub finding: Finding,
    /// How far the search went. None where an order was found.
    pub extent: Option<Extent>,
    /// Which calls are made: in all orders, or in those of at most as many lines as the bounds say. None where not all of these were gone through.
    pub met: Option<Met>,
    pub searched: Searched,
    pub ghost none_shows: { (finding ≡ Never) → NoneShows searched.config searched.scripts searched.rules searched.question },
}
