//! All spin locks.
ghost use Rattle.std.specs.Prelude.{◌≡◌, ◌≤◌, Some, None, length, map, replicate};
ghost use Rattle.std.specs.List.{list_any};
ghost use Rattle.fmp_kernel_parts.specs.Digests.{added_all, seed, told};
ghost use Rattle.fmp_kernel_same.specs.Digests.{added_option, added_proc};
ghost use Rattle.fmp_rules.specs.World.{item, with_item};
ghost use Rattle.fmp_rules.specs.Processors.{is_at};
ghost use Rattle.fmp_spin.specs.Locks.{freed};

use crate::holder::{all_free, free_all, is_at};
use arrayvec::ArrayVec;
use fmp_codes::{Object, Proc};
use fmp_interned::{Value, part_hash};
use fmp_kernel_parts::{Digest, Part, ToDigest};
use fmp_kernel_same::{add_each, are_equal};
use std::alloc::AllocError;
use std::marker::Model;

/// The spin locks, in the order of their numbers, with the processor that holds each. There are at most 32.
#[derive(Drop)]
pub struct Spins {
    pub(crate) holders: ArrayVec<Option<Proc>, 32>,
}

impl Model for Spins {
    ghost use Rattle.std.specs.Prelude.{◌≤◌, List, Option, length};
    ghost use Rattle.fmp_codes.specs.declared.numbers.Proc.{Proc as AnyProc};

    ghost Value = { List (Option AnyProc) };

    ghost view = { λ a. a.holders.items };

    ghost invariant = { λ a. length a.holders.items ≤ 32 };
}

impl Spins {
    /// So many locks, which nobody holds.
    pub fn new(count: u8) -> Self
        requires { count ≤ 32 }
        ensures { result ≡ replicate count None }
    {
        Spins {
            holders: all_free(count),
        }
    }

    /// How many locks there are.
    pub fn len(&self) -> usize
        ensures value { result ≡ length self.now }
        ensures few { result ≤ 32 }
    {
        self.holders.len()
    }

    /// The processor that holds a lock.
    pub fn holder(&self, l: Object) -> Option<Proc>
        ensures { result ≡ item None self.now l.number }
    {
        let holder = self.holders.as_slice().get(l.index()).copied();
        holder.flatten()
    }

    /// Whether a processor holds a lock.
    pub fn holds(&self, p: Proc) -> bool
        ensures { result ≡ list_any (is_at p) self.now }
    {
        self.holders.iter().any(|holder| is_at(p, *holder))
    }

    /// Lets a processor hold a lock, whoever held it before.
    pub fn take(&mut self, l: Object, p: Proc)
        ensures { self.new ≡ with_item self.old l.number (Some p) }
    {
        if let Some(holder) = self.holders.get_mut(l.index()) {
            *holder = Some(p);
        }
    }

    /// Frees all locks that a processor holds.
    pub fn free(&mut self, p: Proc)
        ensures { self.new ≡ map (freed p) self.old }
    {
        free_all(p, self.holders.as_mut_slice());
    }
}

impl Part for Spins {
    ghost fits = { λ a b. Unit {0} };

    fn is_same(&self, other: &Self) -> bool {
        are_equal(self.holders.as_slice(), other.holders.as_slice())
    }

    fn copy_from(&mut self, other: &Self) {
        self.holders.clear();
        self.holders
            .try_extend_from_slice(other.holders.as_slice())
            .unwrap();
    }
}

impl ToDigest for Spins {
    ghost digested = { λ holders sum. added_all (added_option added_proc) holders sum };

    fn add_to(&self, digest: &mut Digest) {
        add_each(self.holders.as_slice(), digest);
    }
}

impl Value for Spins {
    ghost hashed = { λ holders. told (added_all (added_option added_proc) holders seed) };

    fn is_same(&self, other: &Self) -> bool {
        Part::is_same(self, other)
    }

    fn hash(&self) -> u64 {
        part_hash(self)
    }

    fn another(&self) -> Result<Self, AllocError> {
        let mut other = Spins::new(0);
        other.copy_from(self);
        Ok(other)
    }
}
