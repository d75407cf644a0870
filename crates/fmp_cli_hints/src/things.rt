//! The nearest of all tasks, handlers and objects of a configuration.
ghost use Rattle.std.specs.Prelude.{◌≡◌, IfOk};
ghost use Rattle.std.specs.Option.{option_copied};
ghost use Rattle.fmp_cli_hints.specs.Things as spec;

use crate::hints::near_object;
use fmp_codes::ObjectKind;
use fmp_text::Names;
use std::alloc::{AllocError, Global};

/// The kinds of objects.
pub const KINDS: [ObjectKind; 8] = [
    ObjectKind::Task,
    ObjectKind::Semaphore,
    ObjectKind::Eventflag,
    ObjectKind::DataQueue,
    ObjectKind::Pool,
    ObjectKind::Cyclic,
    ObjectKind::Alarm,
    ObjectKind::SpinLock,
];

/// The nearest of the objects of these kinds, and of the best name before them.
fn near_name<'a>(
    alloc: Global,
    names: &'a Names,
    word: &[u8],
    before: Option<&'a [u8]>,
    kinds: &[ObjectKind],
) -> Result<Option<&'a [u8]>, AllocError>
    ensures { IfOk result (λ found. option_copied found ≡ spec.near_name names.now word.now (option_copied before.entry) kinds.now) }
{
    let mut best = before;
    for kind in kinds {
        best = near_object(alloc, names, *kind, word, best)?;
    }
    Ok(best)
}

/// The nearest of all tasks, handlers and objects, if one is near.
#[tactic(auto, unfolding(crate::specs::Things::near_thing))]
pub fn near_thing<'a>(
    alloc: Global,
    names: &'a Names,
    word: &[u8],
) -> Result<Option<&'a [u8]>, AllocError>
    ensures { IfOk result (λ found. option_copied found ≡ spec.near_thing names.now word.now) }
{
    near_name(alloc, names, word, None, &KINDS)
}
