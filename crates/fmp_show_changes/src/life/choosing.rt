//! The things that a list of names names.
ghost use Rattle.std.specs.Prelude.{◌≡◌, map, IfOk, IfErr, Ok, Err};
ghost use Rattle.fmp_show_changes.specs.Life.Choosing.{IsChosen, IsUnknown};

use crate::life::life::{Life, Watched};
use crate::life::things::thing_named;
use fmp_bytes::cut;
use fmp_names::Names;
use std::alloc::Global;

/// Why a list of names names no things.
#[derive(Clone, Copy)]
pub enum NameFault {
    /// Memory ran out.
    Memory,
    /// The name of this number, from 0, is the first one that names nothing.
    Unknown(usize),
}

/// The things that a text names between commas, in their order, each as often as it is named. Nothing was told of them yet.
pub fn chosen(alloc: Global, names: &Names, text: &[u8]) -> Result<Life, NameFault>
    ensures things { IfOk result (IsChosen names.now text.now) }
    ensures unknown { IfErr result (IsUnknown names.now text.now) }
{
    let mut watched = Vec::new(alloc);
    let mut count = 0;
    let mut rest = Some(text);
    while let Some(list) = rest {
        let (name, after) = cut(b',', list);
        let thing = match thing_named(names, name) {
            Some(thing) => thing,
            None => return Err(NameFault::Unknown(count)),
        };
        if watched.push(Watched::new(alloc, thing)).is_err() {
            return Err(NameFault::Memory);
        }
        count += 1;
        rest = after;
    }
    Ok(Life::new(alloc, watched))
}
