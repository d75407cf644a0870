//! Runs whose first steps are given.
ghost use Rattle.std.specs.Prelude.{◌≡◌, ℕ, ◌+◌, ◌<◌, ◌≤◌, ◌^◌, drop, length, nat_lt, IfOk, if◌then◌else◌};
ghost use Rattle.fmp_search.specs.Answers.{IsEndedBy};
ghost use Rattle.fmp_search.specs.Guides.{Guide, SaysAlong, guided_after, guided_wanted, is_empty, is_of, may_choose};
ghost use Rattle.fmp_search.specs.GuidedKeys.{words_of, IsGuidedKey};

use crate::exploring::{Answer, explore};
use crate::halving::{halves, joined};
use crate::progress::Progress;
use crate::space::{Noted, Space};
use fmp_interned::Interned;
use std::alloc::{AllocError, Global};

/// One of two steps.
#[derive(Clone, Copy)]
pub struct Choice {
    pub step: u8,
    pub other: u8,
}

impl Choice {
    /// Whether a step is one of the two.
    pub fn is(self, step: u8) -> bool
        ensures { result ≡ is_of self step }
    {
        self.step == step || self.other == step
    }
}

/// One who can make at first only steps that are of these choices, one after the other. No place is looked for before all are made.
#[derive(Drop)]
struct Guided<'a, W: Space + Drop> {
    walker: W,
    choices: &'a [Choice],
    made: usize,
    alloc: Global,
    ghost within: { made ≤ length choices.now },
}

impl<'a, W: Space + Drop> Guided<'a, W> {
    /// Whether a step is of the choice that is next, if there is one.
    fn may_choose(&self, step: u8) -> bool
        ensures { result ≡ may_choose (drop self.now.made self.now.choices.now) step }
    {
        match self.choices.get(self.made) {
            Some(choice) => choice.is(step),
            None => true,
        }
    }

    /// Whether all choices were made.
    fn is_through(&self) -> bool
        ensures { result ≡ is_empty (drop self.now.made self.now.choices.now) }
    {
        self.choices.get(self.made).is_none()
    }
}

/// How many choices were made with one more, if there are so many.
fn one_more(made: usize, count: usize) -> usize
    ensures { result ≡ (if nat_lt made count then made + 1 else made) }
{
    if made < count { made + 1 } else { made }
}

/// The tables of the places, and the keys of those that were found, each with how many choices were made before.
#[derive(Drop)]
pub struct GuidedTables<T: Drop> {
    tables: T,
    kept: Interned<[u32; 4]>,
}

/// A key and how many choices were made, in halves.
fn words_of(key: u64, made: usize) -> [u32; 4]
    ensures { result ≡ words_of key made }
{
    let key = halves(key);
    let made = halves(made as u64);
    [key.0, key.1, made.0, made.1]
}

/// The key, and how many choices were made, of such halves.
fn of_words(words: &[u32; 4]) -> (u64, usize)
    ensures { (key made : ℕ) → words.now ≡ words_of key made → (result.0 ≡ key) × (result.1 ≡ made) }
{
    (
        joined(words[0], words[1]),
        joined(words[2], words[3]) as usize,
    )
}

impl<'a, W: Space + Drop> Space for Guided<'a, W> {
    type Tables = GuidedTables<W::Tables>;

    ghost Place = { Guide W.Place };

    ghost place = { λ g. record { place = W.place g.walker; choices = drop g.made g.choices.now } };

    ghost origin = { λ g. record { place = W.origin g.walker; choices = g.choices.now } };

    ghost after = { guided_after W.after };

    ghost wanted = { guided_wanted W.wanted };

    ghost passes = { λ g s. W.passes g.place s };

    ghost tells = { λ g s. W.tells g.place s };

    ghost IsKey = { λ q t k p. IsGuidedKey (W.IsKey q.place t.tables) q.choices t.kept k p };

    ghost room = { λ g. W.room g.walker };

    fn tables(&self) -> Result<GuidedTables<W::Tables>, AllocError> {
        Ok(GuidedTables {
            tables: self.walker.tables()?,
            kept: Interned::new(self.alloc),
        })
    }

    fn pack(&self, tables: &mut GuidedTables<W::Tables>) -> Result<u64, AllocError> {
        let key = self.walker.pack(&mut tables.tables)?;
        let number = tables.kept.number_of(&words_of(key, self.made))?;
        tables.kept.validity();
        Ok(u64::from(number))
    }

    fn unpack(&mut self, tables: &mut GuidedTables<W::Tables>, key: u64) -> Result<(), AllocError> {
        tables.kept.validity();
        let (key, made) = of_words(tables.kept.get(key as u32));
        self.walker.unpack(&mut tables.tables, key)?;
        self.made = made;
        Ok(())
    }

    fn restart(&mut self) -> Result<(), AllocError> {
        self.walker.restart()?;
        self.made = 0;
        Ok(())
    }

    fn may_go(&self, step: u8) -> bool {
        self.may_choose(step) && self.walker.may_go(step)
    }

    fn go(&mut self, step: u8) -> Result<bool, AllocError> {
        if !self.may_choose(step) {
            return Ok(false);
        }
        let made = self.walker.go(step)?;
        self.made = one_more(self.made, self.choices.len());
        Ok(made)
    }

    fn watch(&mut self, step: u8, closed: &mut u64) -> Result<Option<Noted>, AllocError> {
        if !self.may_choose(step) {
            return Ok(None);
        }
        let report = self.walker.watch(step, closed)?;
        self.made = one_more(self.made, self.choices.len());
        Ok(report)
    }

    fn copy_from(&mut self, other: &Self) -> Result<(), AllocError> {
        self.walker.copy_from(&other.walker)?;
        self.made = other.made;
        Ok(())
    }

    fn steps(&self) -> u8 {
        self.walker.steps()
    }

    fn is_wanted(&self) -> bool {
        self.is_through() && self.walker.is_wanted()
    }
}

/// Goes through all places to which runs lead that begin with a step of each of these choices, as `explore` does.
pub fn explore_along<W: Space + Drop, P: Progress>(
    alloc: Global,
    walker: W,
    base: W,
    choices: &[Choice],
    progress: &mut P,
    turns: u32,
    most: u32,
) -> Result<Answer, AllocError>
    requires origin { W.origin base ≡ W.origin walker }
    requires turns { turns < 2 ^ 31 }
    ensures says { IfOk result (λ a. SaysAlong W.after W.wanted (W.origin walker) choices.now turns most a) }
    ensures ended { IfOk result (IsEndedBy (P.over progress.new)) }
{
    let mut walker = Guided {
        walker,
        choices,
        made: 0,
        alloc,
    };
    let mut base = Guided {
        walker: base,
        choices,
        made: 0,
        alloc,
    };
    let (answer, _extent, _met) = explore(alloc, &mut walker, &mut base, progress, turns, most, 0)?;
    Ok(answer)
}
