//! Difference lists, one for each processor: items in ascending ticks left, of which each stores what it adds to the sum of
//! those before it. So a tick lowers one number, and an item that goes hands on what it added to the one after it.
ghost use Rattle.std.specs.Prelude.{◌≡◌, ◌↔◌, ℕ, ◌+◌, ◌^◌, ◌<◌, ◌≤◌, ◌||◌, false, true, Some, [], IfSome, IsTrue};
ghost use Rattle.std.specs.Prelude.{is_some, length, replicate, slice_index, slice_index_or, slice_set};
ghost use Rattle.std.specs.List.{list_any, range_with_len};
ghost use Rattle.std.specs.Option.{option_map};
ghost use Rattle.fmp_kernel_parts.specs.Lists as lists;
ghost use Rattle.fmp_time.specs.Differences.{entries_at, has_entry, sorted_in, take_out, ticks_in, least_of, lowered, due, not_due, entries_from, sum_of, spot_in};
ghost use Rattle.fmp_time.specs.Differences.{rest_in, first_adding, zeros_of, rest_of, items_of, items_given, IsLeastIn};
ghost use Rattle.fmp_time.specs.Left.{left_in, left_by, ticks_of, is_over, AreDisjoint};

use arrayvec::ArrayVec;
use fmp_kernel_parts::{Links, Part};
use std::marker::Model;

/// For each processor its items in ascending ticks left.
#[derive(Drop)]
pub struct Differences {
    links: Links<136, 128>,
    /// What an item adds to the ticks left of the one before it.
    more: [u64; 128],
}

impl Model for Differences {
    ghost use Rattle.std.specs.Prelude.{List};
    ghost use Rattle.fmp_time.specs.Differences.{Entry, entries_of, IsSummed};

    ghost Value = { List (List Entry) };

    ghost view = { λ a. entries_of a.more a.links };

    ghost invariant = { λ a. IsSummed a.more a.links };
}

impl Differences {
    /// Empty lists.
    pub fn new() -> Self
        ensures { result ≡ replicate 8 [] }
    {
        Differences {
            links: Links::new(),
            more: [0; 128],
        }
    }

    /// Puts an item that stands in no list into one, after all that have no more ticks left.
    pub fn insert(&mut self, list: usize, item: usize, ticks: u64)
        requires list_in { list < 8 }
        requires item_in { item < 128 }
        requires nowhere { (i : ℕ) → has_entry item (entries_at self.old i) ≡ false }
        ensures entries { self.new ≡ slice_set self.old list (sorted_in item ticks (entries_at self.old list)) }
        ensures count { length self.old ≡ 8 }
    {
        let (following, rest) = spot(&self.links, &self.more, list, ticks);
        match following {
            Some(following) => {
                self.more[following] -= rest;
                self.more[item] = rest;
                self.links.insert_before(list, following, item);
            }
            None => {
                self.more[item] = rest;
                self.links.push_last(list, item);
            }
        }
    }

    /// Takes an item out of the list in which it stands.
    fn remove(&mut self, item: usize)
        requires item_in { item < 128 }
        requires somewhere { (i : ℕ) × (has_entry item (entries_at self.old i) ≡ true) }
        ensures { self.new ≡ take_out self.old item }
    {
        match self.links.next(item) {
            Some(following) => {
                self.more[following] += self.more[item];
                self.links.remove(item);
            }
            None => self.links.remove(item),
        }
    }

    /// Whether an item stands in a list.
    pub fn stands(&self, item: usize) -> bool
        requires { item < 128 }
        ensures yes { result ≡ true → (i : ℕ) × (has_entry item (entries_at self.now i) ≡ true) }
        ensures no_list { result ≡ false → (i : ℕ) → has_entry item (entries_at self.now i) ≡ false }
        ensures value { result ≡ is_some (left_in self.now item) }
    {
        match self.links.place(item) {
            Some(_list) => true,
            None => false,
        }
    }

    /// Whether one of eight items from one on stands in a list. All eight are looked at: a loop that does not stop at the first one is compiled to one over
    /// all of them at a time.
    pub fn has_any(&self, first: usize) -> bool
        requires { first + 8 ≤ 128 }
        ensures { result ≡ list_any (λ k. is_some (left_in self.now k)) (range_with_len first 8) }
    {
        let mut any = false;
        for at in 0..8usize {
            any |= self.stands(first + at);
        }
        any
    }

    /// Takes an item out of the list in which it stands, if it stands in one.
    pub fn take_out(&mut self, item: usize)
        requires { item < 128 }
        ensures { self.new ≡ take_out self.old item }
    {
        if self.stands(item) {
            self.remove(item);
        }
    }

    /// The ticks left of an item.
    pub fn left(&self, item: usize) -> Option<u64>
        requires { item < 128 }
        ensures { result ≡ option_map ticks_of (left_in self.now item) }
    {
        let list = self.links.place(item)?;
        Some(ticks_at(&self.links, &self.more, list, item))
    }

    /// The list in which an item stands, and its ticks left.
    pub fn at(&self, item: usize) -> Option<(usize, u64)>
        requires { item < 128 }
        ensures left { left_in self.now item ≡ option_map left_by result }
        ensures list_in { IfSome result (λ at. at.0 < 8) }
    {
        let list = self.links.place(item)?;
        Some((list, ticks_at(&self.links, &self.more, list, item)))
    }

    /// Whether an item stands in the same list of both, with the same ticks left, or in none.
    fn has_same_left(&self, other: &Differences, item: usize) -> bool
        requires { item < 128 }
        ensures { IsTrue result ↔ (left_in self.now item ≡ left_in other.now item) }
    {
        if !self.stands(item) && !other.stands(item) {
            return true;
        }
        match (self.at(item), other.at(item)) {
            (Some((list, ticks)), Some((place, left))) => list == place && ticks == left,
            (None, None) => true,
            _ => false,
        }
    }

    /// Whether no item stands in a list.
    fn is_empty(&self) -> bool
        ensures { IsTrue result → self.now ≡ replicate 8 [] }
    {
        for list in 0..8usize {
            if self.next(list).is_some() {
                return false;
            }
        }
        true
    }

    /// Whether no item stands in a list of both. Then both are the same, and nothing of them needs a look.
    fn are_empty(&self, other: &Differences) -> bool
        ensures { IsTrue result → self.now ≡ other.now }
    {
        self.is_empty() && other.is_empty()
    }

    /// Whether both are the same in each number that they keep, so that no item needs a look. Where it says no they may be the same all the same.
    fn is_identical(&self, other: &Differences) -> bool
        ensures { IsTrue result → self.now ≡ other.now }
    {
        self.links.is_same(&other.links) && self.more == other.more
    }

    /// Whether each item stands in the same list of both, with the same ticks left, or in none. Which of those with equal ticks
    /// left comes first does not matter: it shows nowhere.
    pub fn has_same_lefts(&self, other: &Differences) -> bool
        ensures { IsTrue result ↔ ((k : ℕ) → k < 128 → left_in self.now k ≡ left_in other.now k) }
    {
        self.are_empty(other) || self.is_identical(other) || self.has_each_left(other)
    }

    /// Whether each item stands so, by a look at each.
    fn has_each_left(&self, other: &Differences) -> bool
        ensures { IsTrue result ↔ ((k : ℕ) → k < 128 → left_in self.now k ≡ left_in other.now k) }
    {
        for item in 0..128usize {
            if !self.has_same_left(other, item) {
                return false;
            }
        }
        true
    }

    /// Becomes as others are.
    pub fn copy_from(&mut self, other: &Differences)
        ensures { self.new ≡ other.now }
    {
        if !self.are_empty(other) {
            self.more = other.more;
            self.links.copy_from(&other.links);
        }
    }

    /// The least ticks left in a list.
    pub fn next(&self, list: usize) -> Option<u64>
        requires { list < 8 }
        ensures value { result ≡ least_of (entries_at self.now list) }
        ensures least { IsLeastIn (entries_at self.now list) result }
        ensures disjoint { AreDisjoint self.now }
    {
        let item = self.links.first(list)?;
        Some(self.more[item])
    }

    /// Each item of a list has one tick less, or stays at 0. No more than one number changes.
    pub fn lower(&mut self, list: usize)
        requires { list < 8 }
        ensures entries { self.new ≡ slice_set self.old list (lowered (entries_at self.old list)) }
        ensures disjoint { AreDisjoint self.old }
    {
        if let Some(item) = adding(&self.links, &self.more, list) {
            self.more[item] -= 1;
        }
    }

    /// Takes out of a list the items that have no ticks left, and gives them in their order.
    fn take_due(&mut self, list: usize) -> Option<ArrayVec<usize, 128>>
        requires { list < 8 }
        ensures entries { self.new ≡ slice_set self.old list (not_due (entries_at self.old list)) }
        ensures due { items_given result ≡ items_of (due (entries_at self.old list)) }
    {
        let first = self.links.first(list)?;
        if self.more[first] > 0 {
            return None;
        }
        Some(expire(&mut self.links, &self.more, list))
    }

    /// A tick: each item of a list has one tick less, and those that have none left are taken out and given, in their order.
    /// Where there is none of these, one number changes.
    pub fn tick(&mut self, list: usize) -> Option<ArrayVec<usize, 128>>
        requires { list < 8 }
        ensures entries { self.new ≡ slice_set self.old list (not_due (lowered (entries_at self.old list))) }
        ensures due { items_given result ≡ items_of (due (lowered (entries_at self.old list))) }
        ensures disjoint { AreDisjoint self.old }
    {
        self.lower(list);
        self.take_due(list)
    }

    /// Whether an item has no ticks left. Looks at the first item of each list.
    pub fn has_due(&self) -> bool
        ensures some { result ≡ true → (k : ℕ) × (k < 128) × (is_over (left_in self.now k) ≡ true) }
        ensures none { result ≡ false → (k : ℕ) → is_over (left_in self.now k) ≡ false }
    {
        for list in 0..8usize {
            if self.next(list) == Some(0) {
                return true;
            }
        }
        false
    }

    /// Marks the items that have no ticks left.
    pub fn marks(&self) -> [bool; 128]
        ensures { (k : ℕ) → k < 128 → slice_index_or result k false ≡ is_over (left_in self.now k) }
    {
        let mut marks = [false; 128];
        for list in 0..8usize {
            mark_zeros(&self.links, &self.more, list, &mut marks);
        }
        marks
    }
}

/// The first item of a list that adds something.
fn adding(links: &Links<136, 128>, more: &[u64; 128], list: usize) -> Option<usize>
    requires { list < 8 }
    ensures value { result ≡ first_adding (slice_index more.now) (lists.list_at links.now list) }
    ensures disjoint { lists.AreDisjoint 128 links.now }
{
    let mut here = links.first(list);
    for _ in 0..128usize {
        match here {
            Some(item) => {
                if more[item] > 0 {
                    return here;
                }
                here = links.next(item);
            }
            None => return None,
        }
    }
    None
}

/// Marks the items in front of a list that add nothing.
fn mark_zeros(links: &Links<136, 128>, more: &[u64; 128], list: usize, marks: &mut [bool; 128])
    requires { list < 8 }
    ensures disjoint { lists.AreDisjoint 128 links.now }
    ensures marks { (k : ℕ) → k < 128
        → slice_index_or marks.new k false ≡ (slice_index_or marks.old k false || lists.has k (zeros_of (slice_index more.now) (lists.list_at links.now list))) }
{
    let mut here = links.first(list);
    for _ in 0..128usize {
        match here {
            Some(item) => {
                if more[item] > 0 {
                    return;
                }
                marks[item] = true;
                here = links.next(item);
            }
            None => return,
        }
    }
}

/// Takes out of a list the items in front that add nothing.
fn expire(links: &mut Links<136, 128>, more: &[u64; 128], list: usize) -> ArrayVec<usize, 128>
    requires list_in { list < 8 }
    requires counted { length links.old ≡ 8 }
    ensures lists { links.new ≡ slice_set links.old list (rest_of (slice_index more.now) (lists.list_at links.old list)) }
    ensures items { result.items ≡ zeros_of (slice_index more.now) (lists.list_at links.old list) }
{
    let mut items = ArrayVec::new();
    let mut here = links.first(list);
    for _ in 0..128usize {
        match here {
            Some(item) => {
                if more[item] > 0 {
                    return items;
                }
                links.remove(item);
                items.push(item);
                here = links.first(list);
            }
            None => return items,
        }
    }
    items
}

/// The ticks left of an item in a list.
fn ticks_at(links: &Links<136, 128>, more: &[u64; 128], list: usize, item: usize) -> u64
    requires list_in { list < 8 }
    requires there { lists.has item (lists.list_at links.now list) ≡ true }
    requires bound { sum_of (slice_index more.now) (lists.list_at links.now list) < 2 ^ 64 }
    ensures { ticks_in (entries_from (slice_index more.now) 0 (lists.list_at links.now list)) item ≡ Some result }
{
    let mut here = links.first(list);
    let mut sum = 0;
    for _ in 0..128usize {
        match here {
            Some(next) => {
                sum += more[next];
                if next == item {
                    return sum;
                }
                here = links.next(next);
            }
            None => return sum,
        }
    }
    sum
}

/// Before which item a number of ticks comes, and what of it is left over there.
fn spot(links: &Links<136, 128>, more: &[u64; 128], list: usize, ticks: u64) -> (Option<usize>, u64)
    requires { list < 8 }
    ensures item { result.0 ≡ spot_in (slice_index more.now) ticks (lists.list_at links.now list) }
    ensures rest { result.1 ≡ rest_in (slice_index more.now) ticks (lists.list_at links.now list) }
    ensures disjoint { lists.AreDisjoint 128 links.now }
{
    let mut here = links.first(list);
    let mut rest = ticks;
    for _ in 0..128usize {
        match here {
            Some(item) => {
                if rest < more[item] {
                    return (Some(item), rest);
                }
                rest -= more[item];
                here = links.next(item);
            }
            None => return (None, rest),
        }
    }
    (None, rest)
}

#[cfg(test)]
pub(crate) mod tests;
