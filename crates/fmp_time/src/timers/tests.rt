use super::Timers;
use crate::differences::tests::added;
use crate::item::Item;
use fmp_codes::{Object, Proc, Task};
use std::test::Fail;

/// What two waits and an alarm add.
fn differences(timers: &Timers, items: [Item; 3]) -> [u64; 3] {
    items.map(|item| added(&timers.differences, item.place()))
}

#[test]
fn time_diffs(rt: HostRuntime) -> Result<(), Fail> {
    let (here, there) = (Proc::new(1), Proc::new(2));
    let long = Item::Wait(Task::new(1));
    let short = Item::Wait(Task::new(2));
    let alarm = Item::Alarm(Object::new(1));
    let mut timers = Timers::new();
    timers.arm(here, long, 5);
    timers.arm(here, short, 3);
    timers.arm(here, alarm, 5);
    assert!(rt; differences(&timers, [short, long, alarm]) == [3, 2, 0]);
    assert!(rt; timers.tick(here).is_empty());
    assert!(rt; differences(&timers, [short, long, alarm]) == [2, 2, 0]);
    timers.move_to(short, there);
    assert!(rt; differences(&timers, [short, long, alarm]) == [2, 4, 0]);
    assert!(rt;
        timers.left(long) == Some(4)
            && timers.left(short) == Some(2)
            && timers.left(alarm) == Some(4)
    );
    Ok(())
}
