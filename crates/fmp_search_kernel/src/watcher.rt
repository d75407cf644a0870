//! One who goes through all orders and tells of each event what is so of it of what is asked.
ghost use Rattle.std.specs.Prelude.{◌≡◌, ◌≤◌, ◌<◌, [], IfOk, IfSome, false, length, map};
ghost use Rattle.fmp_search_orders.specs.Lasting.{step_test};
ghost use Rattle.fmp_search_orders.specs.Made.{watched_number};
ghost use Rattle.fmp_search_orders.specs.Places as places;
ghost use Rattle.fmp_search_orders.specs.Watched as watched;
ghost use Rattle.fmp_search_pattern.specs.Lasting.{is_so};
ghost use Rattle.fmp_search_kernel.specs.Keys.{IsPlaceKey};

use crate::keys::PlaceTables;
use crate::walker::{Walker, is_marked};
use fmp_rules::Config;
use fmp_search::{Noted, Space};
use fmp_search_orders::Rules;
use fmp_search_pattern::{Moment, Question};
use fmp_text_scripts::Scripts;
use std::alloc::AllocError;
use std::marker::Model;

/// One who stands at a place where nothing of a question was seen, since none is asked.
#[derive(Drop)]
pub struct Watcher<'a> {
    walker: Walker<'a>,
    lasting: &'a [Moment],
}

impl<'a> Model for Watcher<'a> {
    ghost use Rattle.std.specs.Prelude.{◌≡◌, ◌≤◌, [], length};
    ghost use Rattle.fmp_search_orders.specs.Watched as watched;
    ghost use Rattle.fmp_search_kernel.specs.Walked.{Watching};

    ghost Value = { Watching };

    ghost view = { λ w. record { place = watched.watched w.lasting.now w.walker.place; left = w.walker.left } };

    ghost invariant = { λ w. (w.walker.place.question ≡ []) × (length w.lasting.now ≤ 64) };
}

impl<'a> Watcher<'a> {
    /// One where all runs begin. The question has no steps.
    pub fn new(
        config: &'a Config,
        scripts: &'a Scripts,
        rules: Rules,
        none: &'a Question,
        lasting: &'a [Moment],
    ) -> Result<Watcher<'a>, AllocError>
        requires none { none.now ≡ [] }
        requires few { length lasting.now ≤ 64 }
        ensures { IfOk result (λ w. w.place ≡ watched.watched lasting.entry.now (places.origin config.entry.now scripts.entry.now rules [])) }
    {
        Ok(Watcher {
            walker: Walker::new(config, scripts, rules, none)?,
            lasting,
        })
    }
}

impl<'a> Space for Watcher<'a> {
    type Tables = PlaceTables;

    ghost Place = { watched.Watched };

    ghost place = { λ w. w.place };

    ghost origin = { λ w. watched.origin_at w.place };

    ghost after = { watched.watched_after };

    ghost wanted = { λ w. false };

    ghost passes = { watched.watched_passes };

    ghost tells = { watched_number };

    ghost IsKey = { λ o t k w. (w.lasting ≡ o.lasting) × IsPlaceKey o.place t k w.place };

    ghost room = { λ w. w.left };

    fn tables(&self) -> Result<PlaceTables, AllocError> {
        self.walker.tables()
    }

    fn pack(&self, tables: &mut PlaceTables) -> Result<u64, AllocError> {
        self.walker.pack(tables)
    }

    fn unpack(&mut self, tables: &mut PlaceTables, key: u64) -> Result<(), AllocError> {
        self.walker.unpack(tables, key)
    }

    fn restart(&mut self) -> Result<(), AllocError> {
        self.walker.restart()
    }

    fn may_go(&self, step: u8) -> bool {
        !is_marked(step) && self.walker.may_go(step)
    }

    fn go(&mut self, step: u8) -> Result<bool, AllocError> {
        self.walker.go(step)
    }

    fn watch(&mut self, step: u8, _closed: &mut u64) -> Result<Option<Noted>, AllocError> {
        self.walker.watch_for(step, self.lasting)
    }

    fn copy_from(&mut self, other: &Self) -> Result<(), AllocError> {
        self.walker.copy_from(&other.walker)
    }

    fn steps(&self) -> u8 {
        self.walker.steps()
    }

    fn is_wanted(&self) -> bool {
        false
    }
}
