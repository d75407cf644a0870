//! What a search wants of each part of a kernel: that it is compared with another, becomes as another is in the memory that it
//! has, and is told apart by a number.
//!
//! And what such parts are made of: lists of items in arrays of links, from which an item goes without a walk.
//!
//! `Links<NODES, ITEMS>` are NODES - ITEMS lists, numbered from 0. Items are the numbers below ITEMS, and each stands in at
//! most one list, once. Contracts see a list of these lists, each from its first item to its last. `TaskList` is one list of
//! tasks, which contracts see as that list.
//!
//! Each list is a ring: its head is a node too, whose links lead to the first and the last item. So an item goes in or out
//! with the same few writes wherever it stands, at the ends too. No call allocates, and none walks a list but
//! `TaskList::list`, which gives it out; with `first` and `next` a caller does.
#![tactic(auto)]

mod digest;
mod links;
mod part;
mod task_list;

pub use digest::{Digest, ToDigest, add_all};
pub use links::Links;
pub use part::{Part, are_same, copy_all};
pub use task_list::TaskList;
