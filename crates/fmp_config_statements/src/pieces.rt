//! The words of a statement.
ghost use Rattle.std.specs.Prelude.{◌≡◌, OnOk};
ghost use Rattle.fmp_config_statements.specs.Pieces as spec;

use crate::parts::{Item, Scan};
use crate::word::Word;
use std::alloc::{AllocFailed, Global};
use std::marker::Model;

/// The words of a statement that say something, and its attributes or listed numbers in their order.
#[derive(Drop)]
pub struct Pieces<'a> {
    name: Word<'a>,
    function: Word<'a>,
    first: Word<'a>,
    second: Word<'a>,
    series: Vec<Word<'a>>,
}

impl<'a> Model for Pieces<'a> {
    ghost use Rattle.fmp_config_statements.specs.Pieces.{Pieces as Said};

    ghost Value = { Said };

    ghost view = { λ p. record { name = p.name; function = p.function; first = p.first; second = p.second; series = p.series.items } };
}

impl<'a> Pieces<'a> {
    ghost use Rattle.std.specs.Prelude.{◌≡◌, OnOk};
    ghost use Rattle.fmp_config_statements.specs.Pieces as spec;

    /// No word yet.
    pub fn none(alloc: Global) -> Self
        ensures { result ≡ spec.no_pieces }
    {
        Pieces {
            name: Word::none(),
            function: Word::none(),
            first: Word::none(),
            second: Word::none(),
            series: Vec::new(alloc),
        }
    }

    /// The name of the class or object.
    pub fn name(&self) -> &Word<'a>
        ensures { result.now ≡ self.now.name }
    {
        &self.name
    }

    /// The name of the function.
    pub fn function(&self) -> &Word<'a>
        ensures { result.now ≡ self.now.function }
    {
        &self.function
    }

    /// The first number.
    pub fn first(&self) -> &Word<'a>
        ensures { result.now ≡ self.now.first }
    {
        &self.first
    }

    /// The second number.
    pub fn second(&self) -> &Word<'a>
        ensures { result.now ≡ self.now.second }
    {
        &self.second
    }

    /// The attributes or the listed numbers.
    pub fn series(&self) -> &[Word<'a>]
        ensures { result.now ≡ self.now.series }
    {
        self.series.as_slice()
    }

    /// Keeps a word by what it stands for.
    fn keep(&mut self, item: Item, word: Word<'a>) -> Result<(), AllocFailed<Word<'a>>>
        ensures { OnOk result (self.new ≡ spec.with_item item word.entry self.old) }
    {
        match item {
            Item::Name => self.name = word,
            Item::Function => self.function = word,
            Item::First => self.first = word,
            Item::Second => self.second = word,
            Item::Attribute | Item::Member => self.series.push(word)?,
            Item::Text => {}
        }
        Ok(())
    }

    /// Keeps a word that goes on with a part from here.
    pub fn keep_from(&mut self, scan: Scan, word: Word<'a>) -> Result<(), AllocFailed<Word<'a>>>
        ensures { OnOk result (self.new ≡ spec.kept_from scan word.entry self.old) }
    {
        match scan {
            Scan::One(item) | Scan::Next(_, item) => self.keep(item, word),
            _ => Ok(()),
        }
    }
}
