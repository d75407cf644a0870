//! Links in arrays.
ghost use Rattle.std.specs.Prelude.{◌≡◌, ◌↔◌, ℕ, ◌+◌, ◌-◌, ◌^◌, ◌<◌, ◌≤◌, ◌∷◌, ◌++◌, false, true, [], List, Some, IfSome, IsTrue};
ghost use Rattle.std.specs.Prelude.{nat_eq, slice_set, length, replicate};
ghost use Rattle.std.specs.Option.{option_eq};
ghost use Rattle.fmp_kernel_parts.specs.Lists.{has, list_at, first_of, push_last, insert_before, take_out, rotated, AreDisjoint};
ghost use Rattle.fmp_kernel_parts.specs.Rings.{item_at};
ghost use Rattle.fmp_kernel_parts.specs.Digests.{added_items};

use crate::{Digest, Part, ToDigest};
use std::marker::Model;

/// Lists of the items below `ITEMS`, as many as there are nodes beyond the items. Each item stands in at most one, once.
#[derive(Drop)]
pub struct Links<const NODES: usize, const ITEMS: usize> {
    /// Of an item that stands in no list the item itself, so that equal lists have equal links, however they came to be.
    next: [u16; NODES],
    prev: [u16; NODES],
    /// One more than the list in which an item stands, or 0.
    place: [u16; ITEMS],
}

impl<const NODES: usize, const ITEMS: usize> Model for Links<NODES, ITEMS> {
    ghost use Rattle.std.specs.Prelude.{ℕ, List, ◌≤◌, ◌<◌, ◌^◌};

    ghost Value = { List (List ℕ) };

    ghost use Rattle.fmp_kernel_parts.specs.Rings.{lists_along, IsSound};

    ghost view = { λ a. lists_along ITEMS a.next };

    ghost invariant = { λ a. (ITEMS ≤ NODES) × (NODES < 2 ^ 16) × IsSound ITEMS a.next a.prev a.place (lists_along ITEMS a.next) };
}

/// Whether the links of two arrays are the same. All of them are looked at: a loop that does not stop at the first difference is compiled to
/// one over many links at a time.
fn are_equal<const NODES: usize>(one: &[u16; NODES], other: &[u16; NODES]) -> bool
    ensures { IsTrue result ↔ (one.now ≡ other.now) }
{
    let mut same = true;
    for at in 0..NODES {
        same &= one[at] == other[at];
    }
    same
}

impl<const NODES: usize, const ITEMS: usize> Links<NODES, ITEMS> {
    /// Empty lists.
    pub fn new() -> Self
        requires enough { ITEMS ≤ NODES }
        requires nodes_fit { NODES < 2 ^ 16 }
        ensures { result ≡ replicate (NODES - ITEMS) [] }
    {
        let mut next = [0; NODES];
        let mut prev = [0; NODES];
        for i in 0..NODES {
            next[i] = i as u16;
            prev[i] = i as u16;
        }
        Links {
            next,
            prev,
            place: [0; ITEMS],
        }
    }

    /// An item that stands in no list becomes the last of one.
    pub fn push_last(&mut self, list: usize, item: usize)
        requires list_in { list < NODES - ITEMS }
        requires item_in { item < ITEMS }
        requires nowhere { (i : ℕ) → has item (list_at self.old i) ≡ false }
        ensures { self.new ≡ push_last self.old list item }
    {
        self.put(list, ITEMS + list, item);
    }

    /// An item that stands in no list goes before another one in the list of that.
    pub fn insert_before(&mut self, list: usize, following: usize, item: usize)
        requires list_in { list < NODES - ITEMS }
        requires node_in { following < ITEMS }
        requires after_in { has following (list_at self.old list) ≡ true }
        requires item_in { item < ITEMS }
        requires nowhere { (i : ℕ) → has item (list_at self.old i) ≡ false }
        ensures { self.new ≡ insert_before self.old list following item }
    {
        self.put(list, following, item);
    }

    /// Puts an item into a list before a node, one of its items or its head.
    fn put(&mut self, list: usize, following: usize, item: usize)
        requires list_in { list < NODES - ITEMS }
        requires node_in { following < NODES }
        requires after_in { has following ((ITEMS + list) ∷ list_at self.old list) ≡ true }
        requires item_in { item < ITEMS }
        requires nowhere { (i : ℕ) → has item (list_at self.old i) ≡ false }
        ensures lists { self.new ≡ insert_before self.old list following item }
        ensures head_out { has (ITEMS + list) (list_at self.old list) ≡ false }
    {
        let ahead = self.prev[following];
        self.next[ahead as usize] = item as u16;
        self.next[item] = following as u16;
        self.prev[item] = ahead;
        self.prev[following] = item as u16;
        self.place[item] = list as u16 + 1;
    }

    /// An item leaves the list in which it stands.
    pub fn remove(&mut self, item: usize)
        requires item_in { item < ITEMS }
        requires somewhere { (i : ℕ) × (has item (list_at self.old i) ≡ true) }
        ensures { self.new ≡ take_out self.old item }
    {
        let ahead = self.prev[item];
        let following = self.next[item];
        self.next[ahead as usize] = following;
        self.prev[following as usize] = ahead;
        self.place[item] = 0;
        self.next[item] = item as u16;
    }

    /// An item stands in no list any more, whether or not it stood in one.
    pub fn take_out(&mut self, item: usize)
        requires { item < ITEMS }
        ensures { self.new ≡ take_out self.old item }
    {
        match self.place(item) {
            Some(_list) => self.remove(item),
            None => {}
        }
    }

    /// The first item of a list becomes its last.
    pub fn rotate(&mut self, list: usize)
        requires { list < NODES - ITEMS }
        ensures { self.new ≡ slice_set self.old list (rotated (list_at self.old list)) }
    {
        let first = self.next[ITEMS + list] as usize;
        if first < ITEMS {
            self.remove(first);
            self.push_last(list, first);
        }
    }

    /// The list in which an item stands.
    pub fn place(&self, item: usize) -> Option<usize>
        requires { item < ITEMS }
        ensures { (i : ℕ) → has item (list_at self.now i) ≡ option_eq nat_eq result (Some i) }
    {
        match self.place[item] {
            0 => None,
            place => Some(place as usize - 1),
        }
    }

    /// The first item of a list.
    pub fn first(&self, list: usize) -> Option<usize>
        requires { list < NODES - ITEMS }
        ensures value { result ≡ first_of (list_at self.now list) }
        ensures few { length (list_at self.now list) ≤ ITEMS }
        ensures disjoint { AreDisjoint ITEMS self.now }
    {
        self.item_at(self.next[ITEMS + list])
    }

    /// The item after another one in its list.
    pub fn next(&self, item: usize) -> Option<usize>
        requires { item < ITEMS }
        ensures value { (i : ℕ) (before following : List ℕ) → list_at self.now i ≡ before ++ item ∷ following → result ≡ first_of following }
        ensures in_range { IfSome result (λ next. next < ITEMS) }
        ensures disjoint { AreDisjoint ITEMS self.now }
    {
        self.item_at(self.next[item])
    }

    /// The item that a node is, if it is no head.
    fn item_at(&self, node: u16) -> Option<usize>
        ensures { result ≡ item_at ITEMS node }
    {
        let node = node as usize;
        if node < ITEMS { Some(node) } else { None }
    }
}

impl<const NODES: usize, const ITEMS: usize> Part for Links<NODES, ITEMS> {
    ghost fits = { λ a b. Unit {0} };

    fn is_same(&self, other: &Self) -> bool {
        are_equal(&self.next, &other.next)
    }

    fn copy_from(&mut self, other: &Self) {
        self.next = other.next;
        self.prev = other.prev;
        self.place = other.place;
    }
}

impl<const NODES: usize, const ITEMS: usize> ToDigest for Links<NODES, ITEMS> {
    ghost digested = { λ q sum. added_items ITEMS q ITEMS sum };

    fn add_to(&self, digest: &mut Digest) {
        for item in 0..ITEMS {
            if self.place[item] != 0 {
                digest.add(u64::from(self.place[item]) << 16 | u64::from(self.next[item]));
            }
        }
    }
}
