//! Tasks, time event handlers and objects, and their names.
ghost use Rattle.std.specs.Prelude.{◌≡◌, ◌≤◌};
ghost use Rattle.fmp_codes.specs.Kinds.{most_of};
ghost use Rattle.fmp_show_changes.specs.Life.Things as spec;

use fmp_codes::{NameKind, Object, ObjectKind, Task};
use fmp_names::Names;

/// A task, a time event handler or an object that tasks share.
#[derive(Clone, Copy)]
pub enum Thing {
    Task(Task),
    Semaphore(Object),
    Eventflag(Object),
    DataQueue(Object),
    Pool(Object),
    Cyclic(Object),
    Alarm(Object),
    SpinLock(Object),
}

/// The kinds in which a name is looked for. A name is that of one thing at most, so their order does not matter.
const KINDS: [ObjectKind; 8] = [
    ObjectKind::Task,
    ObjectKind::Semaphore,
    ObjectKind::Eventflag,
    ObjectKind::DataQueue,
    ObjectKind::Pool,
    ObjectKind::Cyclic,
    ObjectKind::Alarm,
    ObjectKind::SpinLock,
];

/// The thing of a kind with this number.
fn thing_of(kind: ObjectKind, number: usize) -> Thing
    requires least { 1 ≤ number }
    requires most { number ≤ most_of kind }
    ensures { result ≡ spec.thing_of kind number }
{
    match kind {
        ObjectKind::Task => Thing::Task(Task::new(number as u8)),
        ObjectKind::Semaphore => Thing::Semaphore(Object::new(number as u8)),
        ObjectKind::Eventflag => Thing::Eventflag(Object::new(number as u8)),
        ObjectKind::DataQueue => Thing::DataQueue(Object::new(number as u8)),
        ObjectKind::Pool => Thing::Pool(Object::new(number as u8)),
        ObjectKind::Cyclic => Thing::Cyclic(Object::new(number as u8)),
        ObjectKind::Alarm => Thing::Alarm(Object::new(number as u8)),
        ObjectKind::SpinLock => Thing::SpinLock(Object::new(number as u8)),
    }
}

/// The thing of a kind that has this name.
fn named_as(names: &Names, name: &[u8], kind: ObjectKind) -> Option<Thing>
    ensures { result ≡ spec.named_as names.now name.now kind }
{
    let number = names.number(NameKind::Object(kind), name)?;
    Some(thing_of(kind, number))
}

/// The thing that has this name, where there is one.
pub(crate) fn thing_named(names: &Names, name: &[u8]) -> Option<Thing>
    ensures { result ≡ spec.thing_named names.now name.now }
{
    for kind in KINDS {
        let found = named_as(names, name, kind);
        if found.is_some() {
            return found;
        }
    }
    None
}
