//! Parts of a moment, and their items.
ghost use Rattle.std.specs.Prelude.{◌≡◌, IfOk};

use crate::question::Pattern;
use fmp_facts::Choice;
use std::alloc::{AllocError, Global};
use std::marker::Model;

/// What an item asks for.
#[derive(Drop)]
pub enum Wanted {
    /// The code of a refused call.
    Refused,
    /// That nothing can change any more.
    End,
    /// A pattern of the event's line of a trace.
    Line(Pattern),
    /// One of some facts of the state after it, with the words that ask for them.
    State(Pattern, Choice),
}

impl Wanted {
    /// The same once more. The error is want of memory.
    fn copy(&self, alloc: Global) -> Result<Wanted, AllocError>
        ensures { IfOk result (λ w. w ≡ self.now) }
    {
        match self {
            Wanted::Refused => Ok(Wanted::Refused),
            Wanted::End => Ok(Wanted::End),
            Wanted::Line(pattern) => Ok(Wanted::Line(pattern.copy(alloc)?)),
            Wanted::State(words, choice) => Ok(Wanted::State(
                words.copy(alloc)?,
                choice.copy(alloc)?,
            )),
        }
    }
}

/// What is asked for, and whether it is to be there or must not be.
#[derive(Drop)]
pub struct Item {
    negated: bool,
    wanted: Wanted,
}

impl Model for Item {
    ghost use Rattle.fmp_search_pattern.specs.Items as spec;

    ghost Value = { spec.Item };

    ghost view = { λ i. record { negated = i.negated; wanted = i.wanted } };
}

impl Item {
    /// That this is there, or that it is not.
    pub fn new(negated: bool, wanted: Wanted) -> Item
        ensures { result ≡ record { negated = negated; wanted = wanted } }
    {
        Item { negated, wanted }
    }

    /// Whether it must not be there.
    pub fn is_negated(&self) -> bool
        ensures { result ≡ self.now.negated }
    {
        self.negated
    }

    /// What is asked for.
    pub fn wanted(&self) -> &Wanted
        ensures { result.now ≡ self.now.wanted }
    {
        &self.wanted
    }

    /// The same item once more. The error is want of memory.
    fn copy(&self, alloc: Global) -> Result<Item, AllocError>
        ensures { IfOk result (λ i. i ≡ self.now) }
    {
        Ok(Item {
            negated: self.negated,
            wanted: self.wanted.copy(alloc)?,
        })
    }
}

/// A part of a moment: each of its items is there.
#[derive(Drop)]
pub struct Part {
    items: Vec<Item>,
}

impl Model for Part {
    ghost use Rattle.std.specs.Prelude.{List};
    ghost use Rattle.fmp_search_pattern.specs.Items as spec;

    ghost Value = { List spec.Item };

    ghost view = { λ p. p.items.items };
}

impl Part {
    /// The part with these items.
    pub fn new(items: Vec<Item>) -> Part
        ensures { result ≡ items.items }
    {
        Part { items }
    }

    /// The items, of which each has to be there.
    pub fn items(&self) -> &[Item]
        ensures { result.now ≡ self.now }
    {
        &self.items
    }

    /// A part of the same items. The error is want of memory.
    pub(crate) fn copy(&self, alloc: Global) -> Result<Part, AllocError>
        ensures { IfOk result (λ p. p ≡ self.now) }
    {
        let mut items = Vec::new(alloc);
        for item in self.items.iter() {
            items.push(item.copy(alloc)?)?;
        }
        Ok(Part { items })
    }
}
