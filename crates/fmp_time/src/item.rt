//! What counts ticks.
ghost use Rattle.std.specs.Prelude.{◌≡◌, ◌<◌};
ghost use Rattle.fmp_time.specs.Times.{place_of, item_at};

use fmp_codes::{Object, Task};

/// What counts ticks: the wait of a task, an alarm or a cyclic handler.
#[derive(Clone, Copy)]
pub enum Item {
    Wait(Task),
    Alarm(Object),
    Cyclic(Object),
}

impl Default for Item {
    fn default() -> Self {
        Item::Wait(Task::new(1))
    }
}

impl Item {
    /// Its place among all items.
    pub(crate) fn place(self) -> usize
        ensures value { result ≡ place_of self }
        ensures in_range { result < 128 }
    {
        match self {
            Item::Wait(task) => task.index(),
            Item::Alarm(alarm) => 64 + alarm.index(),
            Item::Cyclic(cyclic) => 96 + cyclic.index(),
        }
    }

    /// The item of a place.
    pub(crate) fn at_place(place: usize) -> Item
        requires { place < 128 }
        ensures { result ≡ item_at place }
    {
        if place < 64 {
            Item::Wait(Task::from_index(place))
        } else if place < 96 {
            Item::Alarm(Object::from_index(place - 64))
        } else {
            Item::Cyclic(Object::from_index(place - 96))
        }
    }
}
