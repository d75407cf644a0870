//! What was told of some things last.
ghost use Rattle.std.specs.Prelude.{◌≡◌, ◌++◌, false, map, OnOk};
ghost use Rattle.std.specs.List.{flat_map};
ghost use Rattle.fmp_out.specs.Putting.{Adds};
ghost use Rattle.fmp_show_changes.specs.Life.Lives as spec;
ghost use Rattle.fmp_show_changes.specs.Life.Watches.{seen_of};

use crate::life::lines::put_line;
use crate::life::things::Thing;
use fmp_names::Names;
use fmp_out::Text;
use fmp_show_state::{give_back, text_of};
use fmp_step_words::Views;
use std::alloc::{AllocError, Global};
use std::marker::Model;
use std::mem;

/// A thing, and its line as it was told last, without how many ticks it has left.
#[derive(Drop)]
pub(crate) struct Watched {
    thing: Thing,
    text: Vec<u8>,
}

impl Watched {
    /// A thing of which nothing was told yet.
    pub(crate) fn new(alloc: Global, thing: Thing) -> Watched
        ensures { seen_of result ≡ spec.unseen thing }
    {
        Watched {
            thing,
            text: Vec::new(alloc),
        }
    }
}

/// Some things, and what was told of each of them last.
#[derive(Drop)]
pub struct Life {
    watched: Vec<Watched>,
    /// What is told of one of them now.
    fresh: Text,
}

impl Model for Life {
    ghost use Rattle.std.specs.Prelude.{List, map};
    ghost use Rattle.fmp_show_changes.specs.Life.Lives.{Seen};
    ghost use Rattle.fmp_show_changes.specs.Life.Watches.{seen_of};

    ghost Value = { List Seen };

    ghost view = { λ l. map seen_of l.watched.items };
}

/// Adds the line of a thing, where something else is told of it than was told last, and keeps in mind what is.
fn put_change<M: Views>(
    out: &mut Text,
    watched: &mut Watched,
    fresh: &mut Text,
    names: &Names,
    machine: &M,
)
    ensures report { Adds (spec.report_since names.now (M.world machine.now) (seen_of watched.old)) out.old out.new }
    ensures seen { out.new.wanting ≡ false → seen_of watched.new ≡ spec.renewed names.now (M.world machine.now) (seen_of watched.old) }
{
    fresh.clear();
    put_line(fresh, names, machine, watched.thing, false);
    let is_same = match fresh.so_far() {
        Ok(text) => text == watched.text.as_slice(),
        Err(fault) => return out.note(Err(fault)),
    };
    if !is_same {
        put_line(out, names, machine, watched.thing, true);
        mem::swap(&mut watched.text, fresh.as_mut_vec());
    }
}

/// The same of all things.
fn put_all<M: Views>(
    out: &mut Text,
    all: &mut [Watched],
    fresh: &mut Text,
    names: &Names,
    machine: &M,
)
    ensures report { Adds (flat_map (spec.report_since names.now (M.world machine.now)) (map seen_of all.old)) out.old out.new }
    ensures seen { out.new.wanting ≡ false → map seen_of all.new ≡ map (spec.renewed names.now (M.world machine.now)) (map seen_of all.old) }
{
    for watched in all.iter_mut() {
        put_change(out, watched, fresh, names, machine);
    }
}

impl Life {
    /// Things of which nothing was told yet.
    pub(crate) fn new(alloc: Global, watched: Vec<Watched>) -> Life
        ensures { result ≡ map seen_of watched.items }
    {
        Life {
            watched,
            fresh: Text::new(alloc),
        }
    }

    /// Adds the lines of those things of which something else is told than was told last, in the order in which they were chosen, and
    /// keeps in mind what is. That ticks count down changes nothing. After an error parts of these lines may have been added, and
    /// some of them be kept in mind.
    pub fn put_changes<M: Views>(
        &mut self,
        out: &mut Vec<u8>,
        names: &Names,
        machine: &M,
    ) -> Result<(), AllocError>
        ensures report { OnOk result (out.new.items ≡ out.old.items ++ flat_map (spec.report_since names.now (M.world machine.now)) self.old) }
        ensures seen { OnOk result (self.new ≡ map (spec.renewed names.now (M.world machine.now)) self.old) }
    {
        let mut text = text_of(out);
        put_all(
            &mut text,
            self.watched.as_mut_slice(),
            &mut self.fresh,
            names,
            machine,
        );
        give_back(out, text)
    }
}
