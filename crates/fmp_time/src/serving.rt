//! What a tick serves, in its order.
ghost use Rattle.std.specs.Prelude.{◌≡◌, ℕ, ◌<◌, ◌≤◌, false, not, [], ◌++◌, length, map, filter, slice_index_or};
ghost use Rattle.fmp_kernel_parts.specs.Lists.{has};
ghost use Rattle.fmp_time.specs.Times.{wait_of, is_marked, is_marked_from, all_objects, marked_handlers};

use crate::item::Item;
use arrayvec::ArrayVec;
use fmp_codes::{Object, Task};
use fmp_kernel_parts::TaskList;

/// Marks the items of a list.
pub(crate) fn marks_of(items: &[usize]) -> [bool; 128]
    ensures { (k : ℕ) → k < 128 → slice_index_or result k false ≡ has k items.now }
{
    let mut marks = [false; 128];
    for item in items {
        if *item < 128 {
            marks[*item] = true;
        }
    }
    marks
}

/// The marked waits in their order.
pub(crate) fn marked_waits(waits: &TaskList, marks: &[bool; 128]) -> ArrayVec<Task, 64>
    ensures { result.items ≡ filter (is_marked marks.now) waits.now }
{
    let mut marked = ArrayVec::new();
    let mut here = waits.first();
    for _ in 0..64usize {
        match here {
            Some(task) => {
                if marks[task.index()] {
                    marked.push(task);
                }
                here = waits.next(task);
            }
            None => return marked,
        }
    }
    marked
}

/// The objects that are marked, by number, where the marks of their kind begin at a place.
pub(crate) fn marked_objects(place: usize, marks: &[bool; 128]) -> ArrayVec<Object, 32>
    requires { place ≤ 96 }
    ensures { result.items ≡ filter (is_marked_from place marks.now) all_objects }
{
    let mut objects = ArrayVec::new();
    for index in 0..32usize {
        if marks[place + index] {
            objects.push(Object::from_index(index));
        }
    }
    objects
}

/// The marked waits in their order, which go.
pub(crate) fn serve_waits(waits: &mut TaskList, marks: &[bool; 128]) -> ArrayVec<Item, 128>
    ensures waits { waits.new ≡ filter (λ t. not (is_marked marks.now t)) waits.old }
    ensures items { result.items ≡ map wait_of (filter (is_marked marks.now) waits.old) }
    ensures few { length result.items < 65 }
{
    let mut items = ArrayVec::new();
    let tasks = waits.list();
    for task in tasks.as_slice() {
        if marks[task.index()] {
            waits.remove(*task);
            items.push(Item::Wait(*task));
        }
    }
    items
}

/// The marked alarms and cyclics, by number, after what is there.
pub(crate) fn serve_handlers(items: &mut ArrayVec<Item, 128>, marks: &[bool; 128])
    requires { length items.old.items < 65 }
    ensures { items.new.items ≡ items.old.items ++ marked_handlers marks.now }
{
    for k in 64..128usize {
        if marks[k] {
            items.push(Item::at_place(k));
        }
    }
}
