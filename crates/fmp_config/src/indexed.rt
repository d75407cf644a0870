//! The parts of a configuration while it is read, with its defined names in a table.
ghost use Rattle.std.specs.Prelude.{◌≡◌, ◌≤◌, ◌||◌, false, true, OnOk, IfOk};
ghost use Rattle.fmp_codes.specs.declared.kinds.NameKind.TheVariants.{Object};
ghost use Rattle.fmp_names.specs.Names.{has_name, has_room, has_room_to_define, is_name, is_object, is_reserved, number_defined};
ghost use Rattle.fmp_setup.specs.Building as spec;
ghost use Rattle.fmp_setup.specs.Parts.{setup_of};
ghost use Rattle.fmp_setup.specs.Valid.{IsValid};

use fmp_names::is_reserved;
use fmp_setup::{Class, Fields, Limits, Parts, Timer};
use indexmap::IndexMap;
use std::alloc::{AllocError, Global};
use std::marker::Model;

/// The parts that were read, in a box, and once more the defined names, which are looked up here: a text may use each of them at every number.
/// Contracts see the configuration. It goes no further than the reader, so that nobody else has to know of the table.
#[derive(Drop)]
pub struct IndexedParts {
    alloc: Global,
    parts: Box<Parts>,
    defined: IndexMap<Vec<u8>, u32>,
}

impl Model for IndexedParts {
    ghost use Rattle.std.specs.Prelude.{◌≡◌};
    ghost use Rattle.fmp_config.specs.Indexed.{definitions};
    ghost use Rattle.fmp_setup.specs.Parts.{setup_of};
    ghost use Rattle.fmp_setup.specs.Setup.{Setup};

    ghost Value = { Setup };

    ghost view = { λ p. setup_of p.parts.value };

    ghost invariant = { λ p. definitions p.defined ≡ p.parts.value.names.defined };
}

/// Whether the name is a reserved one, or that of a class or an object.
fn is_named_or_reserved(parts: &Parts, name: &[u8]) -> bool
    ensures { result ≡ (is_reserved name.now || has_name (setup_of parts.now).class_names name.now || is_object (setup_of parts.now).names name.now) }
{
    is_reserved(name) || parts.has_class(name) || parts.names.contains_object(name)
}

impl IndexedParts {
    ghost use Rattle.std.specs.Prelude.{◌≡◌, ◌≤◌, false, true, OnOk, IfOk};

    /// One processor and nothing else yet. The error is want of memory.
    pub fn blank(alloc: Global) -> Result<Self, AllocError>
        ensures { IfOk result (λ p. p ≡ spec.of_processors 1) }
    {
        Ok(IndexedParts {
            alloc,
            parts: Box::new(alloc, Parts::new(alloc, 1))?,
            defined: IndexMap::new(alloc),
        })
    }

    /// The parts.
    pub fn plain(&self) -> &Parts
        ensures { setup_of result.now ≡ self.now }
    {
        &self.parts
    }

    /// The parts alone, with which the table goes.
    pub fn into_parts(self) -> Box<Parts>
        ensures { setup_of result.value ≡ self }
    {
        self.parts
    }

    /// The number that a defined name stands for.
    pub fn defined(&self, name: &[u8]) -> Option<u32>
        ensures { result ≡ number_defined self.now.names name.now }
    {
        self.defined.get(name).copied()
    }

    /// Whether no class, object or defined name that is added may have this name.
    #[tactic(auto, using(crate::proofs::Table::is_some_defined), unfolding(fmp_setup::specs::Building::is_refused))]
    pub fn is_refused(&self, name: &[u8]) -> bool
        ensures { result ≡ spec.is_refused self.now name.now }
    {
        if is_named_or_reserved(self.plain(), name) {
            return true;
        }
        self.defined(name).is_some()
    }

    /// Lets a name stand for a number. An `Err` changes nothing.
    pub fn define(&mut self, name: &[u8], number: u32) -> Result<(), AllocError>
        requires name { is_name name.now ≡ true }
        requires new { spec.is_refused self.old name.now ≡ false }
        requires room { has_room_to_define self.old.names ≡ true }
        ensures ok { OnOk result (self.new ≡ spec.with_defined self.old name.now number) }
    {
        let copy = Vec::from_slice(self.alloc, name)?;
        self.defined.reserve(1)?;
        self.parts.define(name, number)?;
        self.defined.insert(copy, number)?;
        Ok(())
    }

    /// Adds a class.
    pub fn add_class(&mut self, name: &[u8], class: Class) -> Result<(), AllocError>
        ensures ok { OnOk result (self.new ≡ spec.with_class self.old name.now class) }
    {
        self.parts.add_class(name, class)
    }

    /// Adds an object of a class with its name. A task's or a handler's function gets its name where no other has that; for
    /// objects of the other kinds `function` is not looked at.
    pub fn add_object(
        &mut self,
        class: Class,
        name: &[u8],
        function: &[u8],
        fields: Fields,
    ) -> Result<(), AllocError>
        requires name { is_name name.now ≡ true }
        requires new { spec.is_refused self.old name.now ≡ false }
        requires room { has_room self.old.names (Object (spec.kind_of fields)) ≡ true }
        requires function { spec.has_function (spec.kind_of fields) ≡ true → is_name function.now ≡ true }
        requires valid { IsValid self.old }
        ensures ok { OnOk result (self.new ≡ spec.with_object self.old class name.now function.now fields) }
    {
        self.parts.add_object(class, name, function, fields)
    }

    /// Says how many processors there are.
    pub fn set_processors(&mut self, processors: u8)
        requires least { 1 ≤ processors }
        requires most { processors ≤ 8 }
        ensures { self.new ≡ spec.with_processors self.old processors }
    {
        self.parts.set_processors(processors);
    }

    /// Says which processors' ticks count.
    pub fn set_timer(&mut self, timer: Timer)
        ensures { self.new ≡ spec.with_timer self.old timer }
    {
        self.parts.set_timer(timer);
    }

    /// Says how many wakeups are queued at most, and which is the greatest priority.
    pub fn set_limits(&mut self, limits: Limits)
        ensures { self.new ≡ spec.with_limits self.old limits }
    {
        self.parts.set_limits(limits);
    }
}
