//! The timers. The kernel does not call `tick`, which is this part's own surface: the rule of a tick
//! stands in `fmp_rules/specs`.
ghost use Rattle.std.specs.Prelude.{◌≡◌, ◌+◌, ◌<◌, ◌≤◌, ◌++◌, None, [], false, true, filter, is_some, IfOk};
ghost use Rattle.std.specs.List.{flat_map, range_with_len};
ghost use Rattle.std.specs.Option.{option_map};
ghost use Rattle.fmp_time.specs.declared.item.Item.{Item as AnyItem};
ghost use Rattle.fmp_time.specs.Left.{is_over, ticks_of};
ghost use Rattle.fmp_time.specs.Times.{wait_of, alarm_of, cyclic_of, all_objects, left_of, armed, cancelled, moved_to, renewed, lowered, ticked, served, began, ended};
ghost use Rattle.fmp_time.specs.Times.{IsLeastOn, AreWaits, no_times};
ghost use Rattle.fmp_time.specs.Words.{words_at, wait_places, handler_places, words_of, armed_by, made_from};

use crate::differences::Differences;
use crate::item::Item;
use crate::serving::{marked_objects, marked_waits, marks_of, serve_handlers, serve_waits};
use crate::words::add_left;
use arrayvec::ArrayVec;
use fmp_codes::{Object, Proc, Task};
use fmp_interned::Words;
use fmp_kernel_parts::{Part, TaskList};
use std::alloc::AllocError;
use std::marker::Model;

/// For each item that counts its processor and its ticks left, and the waits that count in the order in which they began.
#[derive(Drop)]
pub struct Timers {
    differences: Differences,
    waits: TaskList,
}

impl Model for Timers {
    ghost use Rattle.fmp_time.specs.Times.{Times, AreWaits as WaitsCount};
    ghost use Rattle.fmp_time.specs.Shown.{times_of};

    ghost Value = { Times };

    ghost view = { λ a. times_of a.differences a.waits };

    ghost invariant = { λ a. WaitsCount (times_of a.differences a.waits) };
}

impl Timers {
    /// Nothing counts.
    pub fn new() -> Self
        ensures { result ≡ no_times }
    {
        Timers {
            differences: Differences::new(),
            waits: TaskList::new(),
        }
    }

    /// An item counts on a processor from now on, with so many ticks left. If it is a wait, it is the last that began. In TOPPERS/FMP: tmevtb_enqueue.
    pub fn arm(&mut self, processor: Proc, item: Item, ticks: u64)
        ensures { self.new ≡ armed self.old processor item ticks }
    {
        let place = item.place();
        self.differences.take_out(place);
        self.differences.insert(processor.index(), place, ticks);
        begin(&mut self.waits, item);
    }

    /// An item counts no more, if it did, and is not served. In TOPPERS/FMP: tmevtb_dequeue.
    pub fn cancel(&mut self, item: Item)
        ensures { self.new ≡ cancelled self.old item }
    {
        self.differences.take_out(item.place());
        end(&mut self.waits, item);
    }

    /// An item that counts goes on on another processor, with the ticks that it has left. If it is a wait, it keeps its place
    /// in the order in which they began.
    pub fn move_to(&mut self, item: Item, processor: Proc)
        ensures { self.new ≡ moved_to self.old item processor }
    {
        let place = item.place();
        if let Some(ticks) = self.differences.left(place) {
            self.differences.take_out(place);
            self.differences.insert(processor.index(), place, ticks);
        }
    }

    /// A wait that counts begins anew, with the ticks that it has left: it is the last that began.
    pub fn renew(&mut self, item: Item)
        ensures { self.new ≡ renewed self.old item }
    {
        if self.differences.stands(item.place()) {
            begin(&mut self.waits, item);
        }
    }

    /// Whether an item counts. Unlike its ticks left, this is told without a walk.
    pub fn counts(&self, item: Item) -> bool
        ensures { result ≡ is_some (left_of self.now item) }
    {
        self.differences.stands(item.place())
    }

    /// The ticks left of an item, if it counts.
    pub fn left(&self, item: Item) -> Option<u64>
        ensures { result ≡ option_map ticks_of (left_of self.now item) }
    {
        self.differences.left(item.place())
    }

    /// The least ticks left on a processor, if something counts there.
    pub fn next(&self, processor: Proc) -> Option<u64>
        ensures least { IsLeastOn self.now processor result }
        ensures waits { AreWaits self.now }
    {
        self.differences.next(processor.index())
    }

    /// The waits are those that have ticks left, as they always are. Does nothing.
    pub fn know_waits(&self)
        ensures { AreWaits self.now }
    {
        let _waits = &self.waits;
    }

    /// All that counts on a processor has one tick less, or stays at 0. It counts on.
    pub fn lower(&mut self, processor: Proc)
        ensures { self.new ≡ lowered self.old processor }
    {
        self.differences.lower(processor.index());
    }

    /// Whether anything has 0 ticks left.
    pub fn has_due(&self) -> bool
        ensures some { result ≡ true → (x : AnyItem) × (is_over (left_of self.now x) ≡ true) }
        ensures none { result ≡ false → (x : AnyItem) → is_over (left_of self.now x) ≡ false }
    {
        self.differences.has_due()
    }

    /// The waits that have 0 ticks left, in the order in which they began.
    pub fn due_waits(&self) -> ArrayVec<Task, 64>
        ensures { result.items ≡ filter (λ t. is_over (left_of self.now (wait_of t))) self.now.waits }
    {
        if self.has_due() {
            marked_waits(&self.waits, &self.differences.marks())
        } else {
            ArrayVec::new()
        }
    }

    /// The alarms that have 0 ticks left, by number.
    pub fn due_alarms(&self) -> ArrayVec<Object, 32>
        ensures { result.items ≡ filter (λ o. is_over (left_of self.now (alarm_of o))) all_objects }
    {
        if self.has_due() {
            marked_objects(64, &self.differences.marks())
        } else {
            ArrayVec::new()
        }
    }

    /// The cyclic handlers that have 0 ticks left, by number.
    pub fn due_cyclics(&self) -> ArrayVec<Object, 32>
        ensures { result.items ≡ filter (λ o. is_over (left_of self.now (cyclic_of o))) all_objects }
    {
        if self.has_due() {
            marked_objects(96, &self.differences.marks())
        } else {
            ArrayVec::new()
        }
    }

    /// A tick of a processor: all that counts on it has one tick less, and what has none left counts no more. Gives this, first
    /// the waits in the order in which they began, then alarms and then cyclics by number.
    pub fn tick(&mut self, processor: Proc) -> ArrayVec<Item, 128>
        ensures times { self.new ≡ ticked self.old processor }
        ensures items { result.items ≡ served self.old processor }
        ensures waits { AreWaits self.old }
    {
        match self.differences.tick(processor.index()) {
            Some(due) => {
                let marks = marks_of(due.as_slice());
                let mut items = serve_waits(&mut self.waits, &marks);
                serve_handlers(&mut items, &marks);
                items
            }
            None => ArrayVec::new(),
        }
    }
}

impl Timers {
    /// Adds what tells the item of a place.
    fn add_item(&self, words: &mut Words, place: usize) -> Result<(), AllocError>
        requires { place < 128 }
        ensures { IfOk result (λ done. words.new ≡ words.old ++ words_at self.now place) }
    {
        add_left(words, place, self.differences.at(place))
    }

    /// Adds what tells the waits that count, in the order in which they began.
    fn add_waits(&self, words: &mut Words) -> Result<(), AllocError>
        ensures added { IfOk result (λ done. words.new ≡ words.old ++ flat_map (words_at self.now) (wait_places self.now.waits)) }
        ensures back { made_from no_times (words_of self.now) ≡ self.now }
    {
        let waits = self.waits.list();
        for task in waits.as_slice() {
            self.add_item(words, task.index())?;
        }
        Ok(())
    }

    /// Adds what tells those of eight items from a place on that count. Where none of them does, no place is asked by itself.
    fn add_eight(&self, words: &mut Words, first: usize) -> Result<(), AllocError>
        requires { first + 8 ≤ 128 }
        ensures { IfOk result (λ done. words.new ≡ words.old ++ flat_map (words_at self.now) (range_with_len first 8)) }
    {
        if !self.differences.has_any(first) {
            return Ok(());
        }
        for at in 0..8usize {
            self.add_item(words, first + at)?;
        }
        Ok(())
    }

    /// Adds what tells the alarms and then the cyclics that count, by number.
    fn add_handlers(&self, words: &mut Words) -> Result<(), AllocError>
        ensures { IfOk result (λ done. words.new ≡ words.old ++ flat_map (words_at self.now) handler_places) }
    {
        for group in 0..8usize {
            self.add_eight(words, 64 + 8 * group)?;
        }
        Ok(())
    }

    /// Adds the numbers that tell what the timers show: three for each item that counts. `become_words` makes the same of them again, so timers that differ
    /// have numbers that differ. The error is want of memory: only some of the numbers were added then.
    pub fn add_words(&self, words: &mut Words) -> Result<(), AllocError>
        ensures added { IfOk result (λ done. words.new ≡ words.old ++ words_of self.now) }
        ensures back { made_from no_times (words_of self.now) ≡ self.now }
    {
        self.add_waits(words)?;
        self.add_handlers(words)?;
        Ok(())
    }

    /// An item counts as three numbers say.
    fn arm_by(&mut self, word: u32, low: u32, high: u32)
        ensures { self.new ≡ armed_by self.old word low high }
    {
        let processor = Proc::from_index((word % 8) as usize);
        let item = Item::at_place((word / 8 % 128) as usize);
        self.arm(
            processor,
            item,
            u64::from(low) + u64::from(high) * 0x1_0000_0000,
        );
    }

    /// Becomes as the timers were of which `add_words` added these numbers.
    pub fn become_words(&mut self, words: &[u32])
        ensures { self.new ≡ made_from no_times words.now }
    {
        *self = Timers::new();
        for at in 0..words.len() / 3 {
            self.arm_by(words[3 * at], words[3 * at + 1], words[3 * at + 2]);
        }
    }
}

impl Part for Timers {
    ghost fits = { λ a b. Unit {0} };

    fn is_same(&self, other: &Self) -> bool {
        self.waits.is_same(&other.waits) && self.differences.has_same_lefts(&other.differences)
    }

    fn copy_from(&mut self, other: &Self) {
        self.differences.copy_from(&other.differences);
        self.waits.copy_from(&other.waits);
    }
}

/// Where an item begins to count, and is a wait, it is the last.
fn begin(waits: &mut TaskList, item: Item)
    ensures { waits.new ≡ began item waits.old }
{
    match item {
        Item::Wait(task) => {
            waits.remove(task);
            waits.push_last(task);
        }
        Item::Alarm(_) | Item::Cyclic(_) => {}
    }
}

/// Where an item counts no more, and is a wait, it goes.
fn end(waits: &mut TaskList, item: Item)
    ensures { waits.new ≡ ended item waits.old }
{
    match item {
        Item::Wait(task) => {
            waits.remove(task);
        }
        Item::Alarm(_) | Item::Cyclic(_) => {}
    }
}

#[cfg(test)]
mod tests;
