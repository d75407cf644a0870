//! One who takes lines one after the other, as a walker of a graph.
ghost use Rattle.std.specs.Prelude.{◌≡◌, ◌≤◌, ◌<◌, ℕ, [], Option, None, true};
ghost use Rattle.fmp_search.specs.Runs.{Goes};
ghost use Rattle.fmp_search_lines.specs.Held as spec;
ghost use Rattle.fmp_search_lines.specs.Keys.{IsHeldKey};

use crate::packing::{pack_taken, unpack_taken};
use crate::player::Player;
use crate::taken::Taken;
use fmp_interned::{Lists, Words};
use fmp_search::{Noted, Space};
use std::alloc::{AllocError, Global};

/// Lines with the last that may come before each, whether each has to be taken, and up to which; and what was taken of them.
#[derive(Drop)]
pub struct Taker<'a, P: Player + Drop> {
    pub lasts: &'a [u32],
    pub musts: &'a [bool],
    pub count: u32,
    pub goal: u32,
    pub taken: Taken,
    /// The greatest goal that this one reached, or one who stood where it went. No answer depends on it.
    pub reached: u32,
    pub player: P,
    pub alloc: Global,
}

/// The tables of the player's states, and the lists of numbers that tell a state's key and what is taken.
#[derive(Drop)]
pub struct TakerTables<T: Drop> {
    states: T,
    lists: Lists,
    /// Room for such a list.
    words: Words,
}

impl<'a, P: Player + Drop> Taker<'a, P> {
    /// The line of a step, if it may be taken here.
    fn line_of(&self, step: u8) -> Option<u32>
        ensures { let w = self.now in
            let place = spec.held w.lasts.now w.musts.now w.count w.goal w.taken.top w.taken.pending.items (P.state w.player) in
            result ≡ spec.line_at place step }
    {
        self.taken.line_of(self.lasts, self.count, step)
    }
}

impl<'a, P: Player + Drop> Space for Taker<'a, P> {
    type Tables = TakerTables<P::Tables>;

    ghost Place = { spec.Held P.State };

    ghost place = { λ w. spec.held w.lasts.now w.musts.now w.count w.goal w.taken.top w.taken.pending.items (P.state w.player) };

    ghost origin = { λ w. spec.held w.lasts.now w.musts.now w.count w.goal 0 [] (P.begins w.player) };

    ghost after = { spec.next P.plays };

    ghost wanted = { spec.is_reached };

    ghost passes = { λ q s. 0 };

    ghost tells = { λ q s. 0 };

    ghost IsKey = { λ q t k p. IsHeldKey (P.IsKey q.place.state t.states) t.lists q k p };

    ghost room = { λ w. P.room w.player };

    fn tables(&self) -> Result<TakerTables<P::Tables>, AllocError> {
        Ok(TakerTables {
            states: self.player.tables()?,
            lists: Lists::new(self.alloc),
            words: Words::new(self.alloc),
        })
    }

    fn pack(&self, tables: &mut TakerTables<P::Tables>) -> Result<u64, AllocError> {
        let state = self.player.pack(&mut tables.states)?;
        let key = pack_taken(&mut tables.lists, &mut tables.words, state, &self.taken)?;
        tables.lists.validity();
        Ok(key)
    }

    fn unpack(&mut self, tables: &mut TakerTables<P::Tables>, key: u64) -> Result<(), AllocError> {
        let (state, taken) = unpack_taken(&mut tables.lists, key);
        self.player.unpack(&mut tables.states, state)?;
        self.taken = taken;
        Ok(())
    }

    fn restart(&mut self) -> Result<(), AllocError> {
        self.player.restart()?;
        self.taken = Taken::none();
        Ok(())
    }

    fn may_go(&self, step: u8) -> bool {
        self.line_of(step).is_some()
    }

    fn go(&mut self, step: u8) -> Result<bool, AllocError> {
        let _count = self.count;
        let Some(line) = self.line_of(step) else {
            return Ok(false);
        };
        if !self.player.play(line)? {
            return Ok(false);
        }
        self.taken.take(step, line);
        self.reached = self.reached.max(self.taken.goal(self.musts));
        Ok(true)
    }

    fn watch(&mut self, step: u8, _closed: &mut u64) -> Result<Option<Noted>, AllocError> {
        if self.go(step)? {
            Ok(Some(Noted {
                passes: 0,
                number: 0,
            }))
        } else {
            Ok(None)
        }
    }

    fn copy_from(&mut self, other: &Self) -> Result<(), AllocError> {
        self.player.copy_from(&other.player)?;
        self.taken = other.taken.twin();
        self.reached = self.reached.max(other.reached);
        Ok(())
    }

    fn steps(&self) -> u8 {
        self.taken.steps(self.lasts, self.count)
    }

    fn is_wanted(&self) -> bool {
        self.taken.has_all(self.musts, self.goal)
    }
}
