//! All places that were found, by their keys.
ghost use Rattle.std.specs.Prelude.{◌≡◌, ◌≤◌, ◌<◌, ◌+◌, ◌^◌, ◌++◌, ◌∷◌, ◌↔◌, [], true, length, slice_get, Some, IfOk, OnErr};
ghost use Rattle.fmp_interned.specs.Values.{IsNew};

use crate::nodes::Node;
use fmp_interned::Interned;
use std::alloc::{AllocError, Global};

/// The nodes, of which there are at most so many, and the keys of their places, before which stands that of the place where all runs begin: each place has the
/// number that its key has. Both grow with the places.
#[derive(Drop)]
pub(crate) struct Store<T: Drop> {
    pub(crate) nodes: Vec<Node>,
    pub(crate) most: u32,
    pub(crate) keys: Interned<u64>,
    /// By which places have keys.
    pub(crate) tables: T,
    ghost few: { length nodes.items ≤ most },
    ghost small: { length nodes.items < 2 ^ 32 },
    ghost long: { length keys ≡ length nodes.items + 1 },
}

impl<T: Drop> Store<T> {
    /// A store of no place but where all runs begin, which has this key, and to which at most so many more may be added. The error is want of memory.
    pub(crate) fn new(
        alloc: Global,
        tables: T,
        first: u64,
        most: u32,
    ) -> Result<Store<T>, AllocError>
        ensures { IfOk result (λ s. (s.nodes.items ≡ []) × (s.most ≡ most) × (s.keys ≡ first ∷ []) × (s.tables ≡ tables)) }
    {
        let mut keys = Interned::new(alloc);
        keys.number_of(&first)?;
        Ok(Store {
            nodes: Vec::new(alloc),
            most,
            keys,
            tables,
        })
    }

    /// How many places there are.
    pub(crate) fn count(&self) -> usize
        ensures { result ≡ length self.now.nodes.items + 1 }
    {
        self.nodes.len() + 1
    }

    /// Whether there is no room for another place.
    pub(crate) fn is_full(&self) -> bool
        ensures { result ≡ true ↔ (self.now.most ≤ length self.now.nodes.items) }
    {
        self.nodes.len() >= self.most as usize
    }

    /// Adds a place of a new key after the others. The error is want of memory, and leaves the places as they were.
    pub(crate) fn push(&mut self, node: Node, key: u64) -> Result<(), AllocError>
        requires room { length self.old.nodes.items < self.old.most }
        requires new { IsNew self.old.keys key }
        ensures added { IfOk result (λ done. (self.new.nodes.items ≡ self.old.nodes.items ++ node ∷ []) × (self.new.keys ≡ self.old.keys ++ key ∷ [])) }
        ensures left { OnErr result (self.new.nodes.items ≡ self.old.nodes.items) }
        ensures same { (self.new.most ≡ self.old.most) × (self.new.tables ≡ self.old.tables) }
    {
        self.nodes.push(node)?;
        match self.keys.number_of(&key) {
            Ok(_number) => Ok(()),
            Err(error) => {
                self.nodes.pop();
                Err(error)
            }
        }
    }

    /// The key of the place of a number.
    pub(crate) fn key_of(&self, place: usize) -> u64
        requires { place ≤ length self.now.nodes.items }
        ensures { slice_get self.now.keys place ≡ Some result }
    {
        *self.keys.get(place as u32)
    }
}
